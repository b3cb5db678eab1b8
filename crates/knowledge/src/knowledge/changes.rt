//! What is told of one fact, and one kind of facts that drop out.
ghost use Rattle.std.specs.Prelude.{◌≡◌, ◌≤◌, ◌<◌, [], ◌∷◌, bytes_eq, length, OnOk};
ghost use Rattle.std.specs.List.{list_all, list_any};
ghost use Rattle.knowledge.specs.Changes.{all_gone, context_told, context_gone, threads_told, thread_joined, threads_gone, threads_stale, is_still, with_id, state_told, state_gone, register_read, register_gone, thread_registers_gone, registers_gone, bytes_read, bytes_gone, range_gone, properties_told, properties_gone, status_told, status_gone, statuses_gone};
ghost use Rattle.knowledge.specs.Facts.{is_suspended, state_of};
ghost use Rattle.knowledge.specs.KnowledgeValue.{IsAfter, empty, facts_of};

use crate::knowledge::Knowledge;
use crate::number_map::NumberMap;
use crate::state::StateFact;
use std::alloc::AllocError;
use tcf_values::{BpProps, BpStatus, Bytes, ContextData, Duplicate, Text, Texts};

/// Whether the ID is one of these.
fn is_among(ids: &[Text], id: &[u8]) -> bool
    ensures { result ≡ list_any (λ other. bytes_eq id.now other) ids.now }
{
    ids.iter().any(|other| id == other.as_bytes())
}

/// Puts the ID last, where it isn't one of these.
fn add_id(ids: &mut Texts, id: &Text) -> Result<(), AllocError>
    ensures { OnOk result (ids.new ≡ with_id id.now ids.old) }
{
    if is_among(ids.as_slice(), id.as_bytes()) {
        return Ok(());
    }
    ids.push(id.copy()?)
}

impl Knowledge {
    /// Drops all that is known.
    pub(super) fn drop_all(&mut self)
        ensures gone { IsAfter (all_gone ∷ []) self.old self.new }
        ensures empty { self.new ≡ empty }
    {
        self.contexts.clear();
        self.threads = NumberMap::new(self.alloc);
        self.states.clear();
        self.registers.clear();
        self.blocks.clear();
        self.properties.clear();
        self.statuses.clear();
    }

    pub(super) fn tell_context(
        &mut self,
        id: &[u8],
        context: &ContextData,
    ) -> Result<(), AllocError>
        ensures { OnOk result (IsAfter (context_told id.now context.now ∷ []) self.old self.new) }
    {
        self.contexts.put(id, context.copy()?)
    }

    pub(super) fn drop_context(&mut self, id: &[u8])
        ensures { IsAfter (context_gone id.now ∷ []) self.old self.new }
    {
        self.contexts.drop_at(id);
    }

    /// Tells all threads of a process.
    pub(super) fn tell_threads(&mut self, process: u32, ids: Texts) -> Result<(), AllocError>
        ensures { OnOk result (IsAfter (threads_told process ids ∷ []) self.old self.new) }
    {
        self.threads.put(process, ids)
    }

    /// Tells one thread of a process, where its threads are known.
    #[tactic(auto, using(crate::proofs::Keys::joined_there, crate::proofs::Keys::joined_nowhere))]
    pub(super) fn join_thread(&mut self, process: u32, id: &Text) -> Result<(), AllocError>
        ensures { OnOk result (IsAfter (thread_joined process id.now ∷ []) self.old self.new) }
    {
        let Some(mut ids) = self.threads.take(process) else {
            return Ok(());
        };
        add_id(&mut ids, id)?;
        self.threads.put(process, ids)
    }

    pub(super) fn drop_threads(&mut self, process: u32)
        ensures { IsAfter (threads_gone process ∷ []) self.old self.new }
    {
        let _ids = self.threads.take(process);
    }

    /// Drops the states and the registers of all threads of a process.
    pub(super) fn drop_states_of(&mut self, process: u32)
        ensures { IsAfter (threads_stale process ∷ []) self.old self.new }
    {
        self.states.drop_process(process);
        self.registers.drop_process(process);
    }

    pub(super) fn tell_state(
        &mut self,
        process: u32,
        thread: u32,
        state: StateFact,
    ) -> Result<(), AllocError>
        ensures { OnOk result (IsAfter (state_told process thread state ∷ []) self.old self.new) }
    {
        self.states.put(process, thread, state)
    }

    pub(super) fn drop_state(&mut self, process: u32, thread: u32)
        ensures { IsAfter (state_gone process thread ∷ []) self.old self.new }
    {
        self.states.drop_at(process, thread);
    }

    /// Whether the thread is known as suspended.
    pub(super) fn is_suspended(&self, process: u32, thread: u32) -> bool
        ensures { result ≡ is_suspended ((facts_of self.now).states process thread) }
    {
        match self.states.get(process, thread) {
            Some(StateFact::Suspended { .. }) => true,
            Some(StateFact::Running) => false,
            None => false,
        }
    }

    /// Whether the text is the ID of a thread that is known as suspended.
    fn is_stopped(&self, id: &[u8]) -> bool
        ensures { result ≡ is_suspended (state_of id.now (facts_of self.now)) }
    {
        match self.state(id) {
            Some(StateFact::Suspended { .. }) => true,
            Some(StateFact::Running) => false,
            None => false,
        }
    }

    fn are_stopped(&self, ids: &[Text]) -> bool
        ensures { result ≡ list_all (λ id. is_suspended (state_of id (facts_of self.now))) ids.now }
    {
        ids.iter().all(|id| self.is_stopped(id.as_bytes()))
    }

    /// Whether the threads of the process are known, and each as suspended.
    fn is_still(&self, process: u32) -> bool
        ensures { result ≡ is_still process (facts_of self.now) }
    {
        match self.threads.get(process) {
            Some(ids) => 0 < ids.len() && self.are_stopped(ids.as_slice()),
            None => false,
        }
    }

    /// Tells a register, where its thread is known as suspended.
    pub(super) fn read_register(
        &mut self,
        process: u32,
        thread: u32,
        index: u8,
        value: u32,
    ) -> Result<(), AllocError>
        requires { index ≤ 32 }
        ensures { OnOk result (IsAfter (register_read process thread index value ∷ []) self.old self.new) }
    {
        if self.is_suspended(process, thread) {
            self.registers.tell(process, thread, index, value)
        } else {
            Ok(())
        }
    }

    pub(super) fn drop_register(
        &mut self,
        process: u32,
        thread: u32,
        index: u8,
    ) -> Result<(), AllocError>
        requires { index ≤ 32 }
        ensures { OnOk result (IsAfter (register_gone process thread index ∷ []) self.old self.new) }
    {
        self.registers.forget(process, thread, index)
    }

    pub(super) fn drop_registers_of(&mut self, process: u32, thread: u32)
        ensures { IsAfter (thread_registers_gone process thread ∷ []) self.old self.new }
    {
        self.registers.drop_at(process, thread);
    }

    pub(super) fn drop_registers(&mut self)
        ensures { IsAfter (registers_gone ∷ []) self.old self.new }
    {
        self.registers.clear();
    }

    /// Adds a block, where each of the process's threads is known as suspended.
    pub(super) fn read_bytes(
        &mut self,
        process: u32,
        addr: u32,
        bytes: &Bytes,
    ) -> Result<(), AllocError>
        requires { 0 < length bytes.now }
        ensures { OnOk result (IsAfter (bytes_read process addr bytes.now ∷ []) self.old self.new) }
    {
        if self.is_still(process) {
            self.blocks.add(process, addr, bytes.copy()?)
        } else {
            Ok(())
        }
    }

    pub(super) fn drop_bytes(&mut self, process: u32)
        ensures { IsAfter (bytes_gone process ∷ []) self.old self.new }
    {
        self.blocks.drop_process(process);
    }

    pub(super) fn drop_range(&mut self, process: u32, addr: u32, size: u32)
        requires { 1 ≤ size }
        ensures { IsAfter (range_gone process addr size ∷ []) self.old self.new }
    {
        self.blocks.drop_range(process, addr, size);
    }

    pub(super) fn tell_properties(
        &mut self,
        id: &[u8],
        properties: &BpProps,
    ) -> Result<(), AllocError>
        ensures { OnOk result (IsAfter (properties_told id.now properties.now ∷ []) self.old self.new) }
    {
        self.properties.put(id, properties.copy()?)
    }

    pub(super) fn drop_properties(&mut self, id: &[u8])
        ensures { IsAfter (properties_gone id.now ∷ []) self.old self.new }
    {
        self.properties.drop_at(id);
    }

    pub(super) fn tell_status(&mut self, id: &[u8], status: &BpStatus) -> Result<(), AllocError>
        ensures { OnOk result (IsAfter (status_told id.now status.now ∷ []) self.old self.new) }
    {
        self.statuses.put(id, status.copy()?)
    }

    pub(super) fn drop_status(&mut self, id: &[u8])
        ensures { IsAfter (status_gone id.now ∷ []) self.old self.new }
    {
        self.statuses.drop_at(id);
    }

    pub(super) fn drop_statuses(&mut self)
        ensures { IsAfter (statuses_gone ∷ []) self.old self.new }
    {
        self.statuses.clear();
    }
}
