//! What each answer makes of what is known.
ghost use Rattle.std.specs.Prelude.{◌≡◌, false, take, drop, IsOk, OnOk};
ghost use Rattle.std.specs.List.{list_all};
ghost use Rattle.tcf_values.specs.Ids.{context_of};
ghost use Rattle.knowledge.specs.KnowledgeValue.{IsAfter};
ghost use Rattle.knowledge.specs.Learning.{teaches};
ghost use Rattle.knowledge.specs.Rows.{answer_changes, children_answered, context_answered, is_thread_of, memory_answered, memory_read, parts_read, properties_answered, range_read, register_answered, registers_answered, state_answered, status_answered, threads_listed, threads_read, whole_read};

use crate::knowledge::Knowledge;
use crate::span::{first_of, part_size};
use std::alloc::AllocError;
use tcf_values::{
    Answer, Bytes, Command, ContextId, Duplicate, Location, Text, Texts, context_id, register_id,
};

/// The bytes behind the first so many.
fn behind(bytes: &[u8], count: usize) -> &[u8]
    ensures { result.now ≡ drop count bytes.now }
{
    if count < bytes.len() {
        &bytes[count..]
    } else {
        &[]
    }
}

/// The first so many bytes, as far as they are there.
fn front(bytes: &[u8], count: usize) -> &[u8]
    ensures { result.now ≡ take count bytes.now }
{
    if count < bytes.len() {
        &bytes[..count]
    } else {
        bytes
    }
}

/// Whether the text is the ID of a thread of the process.
fn is_thread_of(process: u32, id: &[u8]) -> bool
    ensures { result ≡ is_thread_of process id.now }
{
    match context_id(id) {
        Some(ContextId::Thread(number, _)) => process == number,
        Some(ContextId::Process(_)) => false,
        None => false,
    }
}

fn are_threads_of(process: u32, ids: &[Text]) -> bool
    ensures { result ≡ list_all (is_thread_of process) ids.now }
{
    ids.iter().all(|id| is_thread_of(process, id.as_bytes()))
}

impl Knowledge {
    fn answer_context(&mut self, id: &[u8], answer: &Answer) -> Result<(), AllocError>
        ensures { OnOk result (IsAfter (context_answered id.now answer.now) self.old self.new) }
    {
        match answer {
            Answer::Context(context) => self.tell_context(id, context),
            _ => Ok(()),
        }
    }

    /// Tells the threads of a process, where these are IDs of its threads.
    fn read_threads(&mut self, process: u32, ids: &Texts) -> Result<(), AllocError>
        ensures { OnOk result (IsAfter (threads_read process ids.now) self.old self.new) }
    {
        if are_threads_of(process, ids.as_slice()) {
            self.tell_threads(process, ids.copy()?)
        } else {
            Ok(())
        }
    }

    fn list_threads(&mut self, id: &[u8], ids: &Texts) -> Result<(), AllocError>
        ensures { OnOk result (IsAfter (threads_listed (context_of id.now) ids.now) self.old self.new) }
    {
        match context_id(id) {
            Some(ContextId::Process(process)) => self.read_threads(process, ids),
            Some(ContextId::Thread(_, _)) | None => Ok(()),
        }
    }

    fn answer_children(&mut self, id: &[u8], answer: &Answer) -> Result<(), AllocError>
        ensures { OnOk result (IsAfter (children_answered id.now answer.now) self.old self.new) }
    {
        match answer {
            Answer::Ids(ids) => self.list_threads(id, ids),
            _ => Ok(()),
        }
    }

    fn answer_state(&mut self, id: &[u8], answer: &Answer) -> Result<(), AllocError>
        ensures { OnOk result (IsAfter (state_answered id.now answer.now) self.old self.new) }
    {
        match answer {
            Answer::State(state) => match context_id(id) {
                Some(ContextId::Thread(process, thread)) => {
                    self.tell_run_state(process, thread, state)
                }
                Some(ContextId::Process(_)) | None => Ok(()),
            },
            _ => Ok(()),
        }
    }

    fn answer_properties(&mut self, id: &[u8], answer: &Answer) -> Result<(), AllocError>
        ensures { OnOk result (IsAfter (properties_answered id.now answer.now) self.old self.new) }
    {
        match answer {
            Answer::Bp(properties) => self.tell_properties(id, properties),
            _ => Ok(()),
        }
    }

    fn answer_status(&mut self, id: &[u8], answer: &Answer) -> Result<(), AllocError>
        ensures { OnOk result (IsAfter (status_answered id.now answer.now) self.old self.new) }
    {
        match answer {
            Answer::Status(status) => self.tell_status(id, status),
            _ => Ok(()),
        }
    }

    /// Adds a block of the bytes that a range was asked for, where they are as many as were asked for.
    fn read_range(
        &mut self,
        process: u32,
        addr: i128,
        size: i128,
        bytes: &Bytes,
    ) -> Result<(), AllocError>
        ensures { OnOk result (IsAfter (range_read process addr size bytes.now) self.old self.new) }
    {
        match first_of(addr, size, bytes.as_slice()) {
            Some(first) => self.read_bytes(process, first, bytes),
            None => Ok(()),
        }
    }

    fn read_memory(
        &mut self,
        id: &[u8],
        addr: i128,
        size: i128,
        bytes: &Bytes,
    ) -> Result<(), AllocError>
        ensures { OnOk result (IsAfter (memory_read (context_of id.now) addr size bytes.now) self.old self.new) }
    {
        match context_id(id) {
            Some(ContextId::Process(process) | ContextId::Thread(process, _)) => {
                self.read_range(process, addr, size, bytes)
            }
            None => Ok(()),
        }
    }

    fn answer_memory(
        &mut self,
        id: &[u8],
        addr: i128,
        size: i128,
        answer: &Answer,
    ) -> Result<(), AllocError>
        ensures { OnOk result (IsAfter (memory_answered id.now addr size answer.now) self.old self.new) }
    {
        match answer {
            Answer::Blob(bytes) => self.read_memory(id, addr, size, bytes),
            _ => Ok(()),
        }
    }

    /// Tells a register, where these are all its bytes.
    fn read_whole(&mut self, id: &[u8], bytes: &[u8]) -> Result<(), AllocError>
        ensures { OnOk result (IsAfter (whole_read id.now bytes.now) self.old self.new) }
    {
        let Some(register) = register_id(id) else {
            return Ok(());
        };
        match bytes {
            [first, second, third, fourth] => {
                let value = u32::from_le_bytes([*first, *second, *third, *fourth]);
                self.read_register(register.process, register.thread, register.index, value)
            }
            _ => Ok(()),
        }
    }

    fn answer_register(&mut self, id: &[u8], answer: &Answer) -> Result<(), AllocError>
        ensures { OnOk result (IsAfter (register_answered id.now answer.now) self.old self.new) }
    {
        match answer {
            Answer::Blob(bytes) => self.read_whole(id, bytes.as_slice()),
            _ => Ok(()),
        }
    }

    /// Tells the registers that have all their bytes at one location.
    fn read_parts(&mut self, list: &[Location], bytes: &[u8]) -> Result<(), AllocError>
        ensures { OnOk result (IsAfter (parts_read list.now bytes.now) self.old self.new) }
    {
        let mut rest = bytes;
        for location in list {
            let size = match part_size(location) {
                Some(size) => size,
                None => return Ok(()),
            };
            self.read_whole(location.register.as_bytes(), front(rest, size))?;
            rest = behind(rest, size);
        }
        Ok(())
    }

    fn answer_registers(&mut self, list: &[Location], answer: &Answer) -> Result<(), AllocError>
        ensures { OnOk result (IsAfter (registers_answered list.now answer.now) self.old self.new) }
    {
        match answer {
            Answer::Blob(bytes) => self.read_parts(list, bytes.as_slice()),
            _ => Ok(()),
        }
    }

    /// Learns an answer, under what the command asked for.
    pub(super) fn take_answer(
        &mut self,
        command: &Command,
        answer: &Answer,
    ) -> Result<(), AllocError>
        ensures after { OnOk result (IsAfter (answer_changes command.now answer.now) self.old self.new) }
        ensures at_once { teaches command.now ≡ false → IsOk result }
    {
        match command {
            Command::GetContext { id } => self.answer_context(id.as_bytes(), answer),
            Command::GetChildren { id } => self.answer_children(id.as_bytes(), answer),
            Command::GetState { id } => self.answer_state(id.as_bytes(), answer),
            Command::BpProperties { id } => self.answer_properties(id.as_bytes(), answer),
            Command::BpGetStatus { id } => self.answer_status(id.as_bytes(), answer),
            Command::MemGet { id, addr, size, .. } => {
                self.answer_memory(id.as_bytes(), *addr, *size, answer)
            }
            Command::RegGet { id } => self.answer_register(id.as_bytes(), answer),
            Command::RegGetm { list } => self.answer_registers(list.as_slice(), answer),
            _ => Ok(()),
        }
    }
}
