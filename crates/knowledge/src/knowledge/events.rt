//! What each event makes of what is known.
ghost use Rattle.std.specs.Prelude.{[], ◌∷◌, ◌++◌, IsTrue, IsOk, OnOk};
ghost use Rattle.tcf_values.specs.Ids.{context_of, register_of};
ghost use Rattle.tcf_values.specs.declared.values.RunState.{RunState};
ghost use Rattle.knowledge.specs.Changes.{of_each, statuses_gone};
ghost use Rattle.knowledge.specs.KnowledgeValue.{IsAfter};
ghost use Rattle.knowledge.specs.Learning.{only_drops};
ghost use Rattle.knowledge.specs.Rows.{added_context, added_contexts, begun, begun_for, changed_context, changed_range, changed_register, event_changes, hit_breakpoint, joined, joined_for, memory_changes, moved_for, removed_context, removed_properties, stale, state_changes, told_properties, unlisted_for, unsettled, unsettled_for};

use crate::knowledge::Knowledge;
use crate::span::span_of;
use crate::state::StateFact;
use std::alloc::AllocError;
use tcf_values::{
    BpProps, ContextData, ContextId, Duplicate, EventData, PC, Range, RunState, Text, Texts,
    context_id, register_id,
};

impl Knowledge {
    /// Drops the state, the registers and the memory of a context.
    fn go_stale(&mut self, id: &[u8])
        ensures { IsAfter (stale id.now) self.old self.new }
    {
        match context_id(id) {
            Some(ContextId::Process(process)) => self.drop_bytes(process),
            Some(ContextId::Thread(process, thread)) => {
                self.drop_state(process, thread);
                self.drop_registers_of(process, thread);
                self.drop_bytes(process);
            }
            None => {}
        }
    }

    fn change_context(&mut self, context: &ContextData) -> Result<(), AllocError>
        ensures { OnOk result (IsAfter (changed_context context.now) self.old self.new) }
    {
        let id = context.id.as_bytes();
        self.tell_context(id, context)?;
        self.go_stale(id);
        Ok(())
    }

    /// Forgets which threads the process of a context has.
    fn drop_list(&mut self, id: &[u8])
        ensures { IsAfter (unlisted_for (context_of id.now)) self.old self.new }
    {
        match context_id(id) {
            Some(ContextId::Process(process) | ContextId::Thread(process, _)) => {
                self.drop_threads(process);
            }
            None => {}
        }
    }

    fn remove_context(&mut self, id: &[u8])
        ensures { IsAfter (removed_context id.now) self.old self.new }
    {
        self.drop_context(id);
        self.go_stale(id);
        self.drop_list(id);
    }

    /// Drops the states and the registers of all threads of a context's process, and its memory.
    fn unsettle(&mut self, id: &[u8])
        ensures { IsAfter (unsettled_for (context_of id.now)) self.old self.new }
    {
        match context_id(id) {
            Some(ContextId::Process(process) | ContextId::Thread(process, _)) => {
                self.drop_states_of(process);
                self.drop_bytes(process);
            }
            None => {}
        }
    }

    /// Tells that a process has no threads yet, where the context is one.
    fn begin_list(&mut self, id: &[u8]) -> Result<(), AllocError>
        ensures { OnOk result (IsAfter (begun_for (context_of id.now)) self.old self.new) }
    {
        match context_id(id) {
            Some(ContextId::Process(process)) => self.tell_threads(process, Texts::new(self.alloc)),
            Some(ContextId::Thread(_, _)) | None => Ok(()),
        }
    }

    /// Tells that a thread is one of its process, where the context is one.
    fn join(&mut self, id: &Text) -> Result<(), AllocError>
        ensures { OnOk result (IsAfter (joined_for id.now (context_of id.now)) self.old self.new) }
    {
        match context_id(id.as_bytes()) {
            Some(ContextId::Thread(process, _)) => self.join_thread(process, id),
            Some(ContextId::Process(_)) | None => Ok(()),
        }
    }

    fn add_contexts(&mut self, list: &[ContextData]) -> Result<(), AllocError>
        ensures { OnOk result (IsAfter (of_each added_context list.now) self.old self.new) }
    {
        for context in list {
            self.tell_context(context.id.as_bytes(), context)?;
        }
        Ok(())
    }

    fn unsettle_contexts(&mut self, list: &[ContextData])
        ensures { IsAfter (of_each unsettled list.now) self.old self.new }
    {
        for context in list {
            self.unsettle(context.id.as_bytes());
        }
    }

    fn begin_lists(&mut self, list: &[ContextData]) -> Result<(), AllocError>
        ensures { OnOk result (IsAfter (of_each begun list.now) self.old self.new) }
    {
        for context in list {
            self.begin_list(context.id.as_bytes())?;
        }
        Ok(())
    }

    fn join_contexts(&mut self, list: &[ContextData]) -> Result<(), AllocError>
        ensures { OnOk result (IsAfter (of_each joined list.now) self.old self.new) }
    {
        for context in list {
            self.join(&context.id)?;
        }
        Ok(())
    }

    fn change_contexts(&mut self, list: &[ContextData]) -> Result<(), AllocError>
        ensures { OnOk result (IsAfter (of_each changed_context list.now) self.old self.new) }
    {
        for context in list {
            self.change_context(context)?;
        }
        Ok(())
    }

    fn remove_contexts(&mut self, list: &[Text])
        ensures { IsAfter (of_each removed_context list.now) self.old self.new }
    {
        for id in list {
            self.remove_context(id.as_bytes());
        }
    }

    /// Tells that a thread is suspended, and its pc.
    fn tell_suspended(
        &mut self,
        process: u32,
        thread: u32,
        pc: u32,
        reason: &Text,
        hits: &Texts,
    ) -> Result<(), AllocError>
        ensures { OnOk result (IsAfter (state_changes (RunState.Suspended pc reason.now hits.now) process thread) self.old self.new) }
    {
        let state = StateFact::Suspended {
            reason: reason.copy()?,
            hits: hits.copy()?,
        };
        self.tell_state(process, thread, state)?;
        self.read_register(process, thread, PC, pc)
    }

    /// Tells the state of a thread, and its pc where it is suspended.
    pub(super) fn tell_run_state(
        &mut self,
        process: u32,
        thread: u32,
        state: &RunState,
    ) -> Result<(), AllocError>
        ensures { OnOk result (IsAfter (state_changes state.now process thread) self.old self.new) }
    {
        match state {
            RunState::Running => self.tell_state(process, thread, StateFact::Running),
            RunState::Suspended { pc, reason, hits } => {
                self.tell_suspended(process, thread, *pc, reason, hits)
            }
        }
    }

    /// Tells that a context stands still, and drops what it has changed.
    fn stop_context(
        &mut self,
        id: &[u8],
        pc: u32,
        reason: &Text,
        hits: &Texts,
    ) -> Result<(), AllocError>
        ensures { OnOk result (IsAfter (moved_for (context_of id.now) (RunState.Suspended pc reason.now hits.now)) self.old self.new) }
    {
        match context_id(id) {
            Some(ContextId::Process(process)) => {
                self.drop_bytes(process);
                Ok(())
            }
            Some(ContextId::Thread(process, thread)) => {
                self.drop_bytes(process);
                self.drop_registers_of(process, thread);
                self.tell_suspended(process, thread, pc, reason, hits)
            }
            None => Ok(()),
        }
    }

    /// Drops the statuses of the breakpoints that are hit.
    fn drop_hits(&mut self, hits: &[Text])
        ensures { IsAfter (of_each hit_breakpoint hits.now) self.old self.new }
    {
        for id in hits {
            self.drop_status(id.as_bytes());
        }
    }

    fn suspended(
        &mut self,
        id: &[u8],
        pc: u32,
        reason: &Text,
        hits: &Texts,
    ) -> Result<(), AllocError>
        ensures { OnOk result (IsAfter (event_changes (EventData.Suspended id.now pc reason.now hits.now)) self.old self.new) }
    {
        self.drop_hits(hits.as_slice());
        self.stop_context(id, pc, reason, hits)
    }

    fn resumed(&mut self, id: &[u8]) -> Result<(), AllocError>
        ensures { OnOk result (IsAfter (moved_for (context_of id.now) RunState.Running) self.old self.new) }
    {
        match context_id(id) {
            Some(ContextId::Process(process)) => {
                self.drop_bytes(process);
                Ok(())
            }
            Some(ContextId::Thread(process, thread)) => {
                self.drop_bytes(process);
                self.drop_registers_of(process, thread);
                self.tell_state(process, thread, StateFact::Running)
            }
            None => Ok(()),
        }
    }

    /// Drops what a range of a process has changed.
    fn change_range(&mut self, process: u32, range: &Range)
        ensures { IsAfter (changed_range process range.now) self.old self.new }
    {
        match span_of(range.addr, range.size) {
            Some(span) if span.size == 0 => {}
            Some(span) => self.drop_range(process, span.addr, span.size),
            None => self.drop_bytes(process),
        }
    }

    fn change_ranges(&mut self, process: u32, list: &[Range])
        ensures { IsAfter (of_each (changed_range process) list.now) self.old self.new }
    {
        for range in list {
            self.change_range(process, range);
        }
    }

    fn change_memory(&mut self, id: &[u8], list: &[Range])
        ensures { IsAfter (memory_changes (context_of id.now) list.now) self.old self.new }
    {
        match context_id(id) {
            Some(ContextId::Process(process) | ContextId::Thread(process, _)) => {
                self.change_ranges(process, list);
            }
            None => {}
        }
    }

    fn change_register(&mut self, id: &[u8]) -> Result<(), AllocError>
        ensures { OnOk result (IsAfter (changed_register (register_of id.now)) self.old self.new) }
    {
        match register_id(id) {
            Some(register) => {
                self.drop_register(register.process, register.thread, register.index)
            }
            None => Ok(()),
        }
    }

    fn change_properties(&mut self, list: &[BpProps]) -> Result<(), AllocError>
        ensures { OnOk result (IsAfter (of_each told_properties list.now) self.old self.new) }
    {
        for properties in list {
            self.tell_properties(properties.id.as_bytes(), properties)?;
            self.drop_status(properties.id.as_bytes());
        }
        Ok(())
    }

    fn remove_properties(&mut self, list: &[Text])
        ensures { IsAfter (of_each removed_properties list.now) self.old self.new }
    {
        for id in list {
            self.drop_properties(id.as_bytes());
            self.drop_status(id.as_bytes());
        }
    }

    /// Learns an event.
    pub(super) fn take_event(&mut self, event: &EventData) -> Result<(), AllocError>
        ensures after { OnOk result (IsAfter (event_changes event.now) self.old self.new) }
        ensures at_once { IsTrue (only_drops event.now) → IsOk result }
    {
        match event {
            EventData::Hello { .. } => {
                self.drop_all();
                Ok(())
            }
            EventData::CtxAdded { list } => self.contexts_added(list.as_slice()),
            EventData::CtxChanged { list } => self.contexts_changed(list.as_slice()),
            EventData::CtxRemoved { list } => {
                self.contexts_removed(list.as_slice());
                Ok(())
            }
            EventData::Suspended {
                id,
                pc,
                reason,
                hits,
            } => self.suspended(id.as_bytes(), *pc, reason, hits),
            EventData::Resumed { id } => self.resumed(id.as_bytes()),
            EventData::BpStatusIs { id, status } => self.tell_status(id.as_bytes(), status),
            EventData::BpAdded { list } => self.change_properties(list.as_slice()),
            EventData::BpChanged { list } => self.change_properties(list.as_slice()),
            EventData::BpRemoved { list } => {
                self.remove_properties(list.as_slice());
                Ok(())
            }
            EventData::MemChanged { id, list } => {
                self.change_memory(id.as_bytes(), list.as_slice());
                Ok(())
            }
            EventData::RegChanged { id } => self.change_register(id.as_bytes()),
            EventData::RegsChanged => {
                self.drop_registers();
                Ok(())
            }
            EventData::Exited { .. } => Ok(()),
        }
    }

    fn contexts_added(&mut self, list: &[ContextData]) -> Result<(), AllocError>
        ensures { OnOk result (IsAfter (added_contexts list.now) self.old self.new) }
    {
        self.add_contexts(list)?;
        self.unsettle_contexts(list);
        self.begin_lists(list)?;
        self.join_contexts(list)?;
        self.drop_statuses();
        Ok(())
    }

    fn contexts_changed(&mut self, list: &[ContextData]) -> Result<(), AllocError>
        ensures { OnOk result (IsAfter (of_each changed_context list.now ++ statuses_gone ∷ []) self.old self.new) }
    {
        self.change_contexts(list)?;
        self.drop_statuses();
        Ok(())
    }

    fn contexts_removed(&mut self, list: &[Text])
        ensures { IsAfter (of_each removed_context list.now ++ statuses_gone ∷ []) self.old self.new }
    {
        self.remove_contexts(list);
        self.drop_statuses();
    }
}
