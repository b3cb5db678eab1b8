//! What is answered from what is known.
ghost use Rattle.std.specs.Prelude.{◌≡◌, ◌≤◌, ◌++◌, List, None, Some, is_some, option_and_then, IfOk, IsOk, IsTrue, IfSome, OnOk, OnErr};
ghost use Rattle.block_store.specs.Store.{covered};
ghost use Rattle.tcf_values.specs.Ids.{context_of};
ghost use Rattle.knowledge.specs.KnowledgeValue.{IsCacheOf, facts_of};
ghost use Rattle.knowledge.specs.Learning.{Message};
ghost use Rattle.knowledge.specs.Reply.{answer_known, are_parts_known, bytes_or_none, context_reply, is_at_once, memory_reply, memory_used, part_known, parts_bytes, process_asked, properties_reply, range_asked, register_known, register_reply, registers_reply, reply, state_reply, status_reply, suspended_reply};

use crate::knowledge::Knowledge;
use crate::span::{Asked, asked_of, part_of};
use crate::state::StateFact;
use std::alloc::AllocError;
use tcf_values::{
    Answer, Bytes, Command, ContextId, Duplicate, Location, PC, RegisterId, RunState, Text, Texts,
    context_id, register_id,
};

/// How many locations one command can have.
const MOST: usize = 256;

impl Knowledge {
    fn reply_context(&self, id: &[u8]) -> Result<Option<Answer>, AllocError>
        ensures answer { IfOk result (λ answer. answer ≡ context_reply id.now (facts_of self.now)) }
        ensures at_once { IsTrue (is_at_once (context_reply id.now (facts_of self.now))) → IsOk result }
    {
        match self.context(id) {
            Some(context) => Ok(Some(Answer::Context(context.copy()?))),
            None => Ok(None),
        }
    }

    fn reply_properties(&self, id: &[u8]) -> Result<Option<Answer>, AllocError>
        ensures answer { IfOk result (λ answer. answer ≡ properties_reply id.now (facts_of self.now)) }
        ensures at_once { IsTrue (is_at_once (properties_reply id.now (facts_of self.now))) → IsOk result }
    {
        match self.properties(id) {
            Some(properties) => Ok(Some(Answer::Bp(properties.copy()?))),
            None => Ok(None),
        }
    }

    fn reply_status(&self, id: &[u8]) -> Result<Option<Answer>, AllocError>
        ensures answer { IfOk result (λ answer. answer ≡ status_reply id.now (facts_of self.now)) }
        ensures at_once { IsTrue (is_at_once (status_reply id.now (facts_of self.now))) → IsOk result }
    {
        match self.status(id) {
            Some(status) => Ok(Some(Answer::Status(status.copy()?))),
            None => Ok(None),
        }
    }

    /// Answers that a thread is suspended, where its pc is known.
    fn reply_suspended(
        &self,
        process: u32,
        thread: u32,
        reason: &Text,
        hits: &Texts,
    ) -> Result<Option<Answer>, AllocError>
        ensures answer { IfOk result (λ answer. answer ≡ suspended_reply reason.now hits.now ((facts_of self.now).registers process thread 32)) }
        ensures at_once { IsTrue (is_at_once (suspended_reply reason.now hits.now ((facts_of self.now).registers process thread 32))) → IsOk result }
    {
        let pc = self.register(RegisterId {
            process,
            thread,
            index: PC,
        });
        match pc {
            Some(pc) => Ok(Some(Answer::State(RunState::Suspended {
                pc,
                reason: reason.copy()?,
                hits: hits.copy()?,
            }))),
            None => Ok(None),
        }
    }

    fn reply_state(&self, id: &[u8]) -> Result<Option<Answer>, AllocError>
        ensures answer { IfOk result (λ answer. answer ≡ state_reply id.now (facts_of self.now)) }
        ensures at_once { IsTrue (is_at_once (state_reply id.now (facts_of self.now))) → IsOk result }
    {
        let Some(ContextId::Thread(process, thread)) = context_id(id) else {
            return Ok(None);
        };
        match self.states.get(process, thread) {
            Some(StateFact::Running) => Ok(Some(Answer::State(RunState::Running))),
            Some(StateFact::Suspended { reason, hits }) => {
                self.reply_suspended(process, thread, reason, hits)
            }
            None => Ok(None),
        }
    }

    /// What is known of the register of this ID.
    fn register_of(&self, id: &[u8]) -> Option<u32>
        ensures { result ≡ register_known id.now (facts_of self.now) }
    {
        self.register(register_id(id)?)
    }

    fn reply_register(&self, id: &[u8]) -> Result<Option<Answer>, AllocError>
        ensures answer { IfOk result (λ answer. answer ≡ register_reply id.now (facts_of self.now)) }
        ensures at_once { IsTrue (is_at_once (register_reply id.now (facts_of self.now))) → IsOk result }
    {
        match self.register_of(id) {
            Some(value) => {
                let bytes = Bytes::from_slice(self.alloc, &value.to_le_bytes())?;
                Ok(Some(Answer::Blob(bytes)))
            }
            None => Ok(None),
        }
    }

    /// Whether a location asks for a part of a register that is known.
    fn knows_part(&self, location: &Location) -> bool
        ensures { result ≡ is_some (part_known (facts_of self.now) location.now) }
    {
        part_of(location).is_some() && self.register_of(location.register.as_bytes()).is_some()
    }

    fn knows_parts(&self, list: &[Location]) -> bool
        ensures { result ≡ are_parts_known (facts_of self.now) list.now }
    {
        list.iter().all(|location| self.knows_part(location))
    }

    /// Puts the bytes of a part last, where it is known.
    fn add_part(&self, bytes: &mut Bytes, location: &Location) -> Result<(), AllocError>
        ensures { OnOk result (bytes.new ≡ bytes.old ++ bytes_or_none (part_known (facts_of self.now) location.now)) }
    {
        let Some(part) = part_of(location) else {
            return Ok(());
        };
        match self.register_of(location.register.as_bytes()) {
            Some(value) => {
                let word = value.to_le_bytes();
                bytes.extend(&word[part.offset..part.offset + part.size])
            }
            None => Ok(()),
        }
    }

    /// The bytes of the parts, in order.
    fn parts_bytes(&self, list: &[Location]) -> Result<Bytes, AllocError>
        ensures { IfOk result (λ bytes. bytes ≡ parts_bytes (facts_of self.now) list.now) }
    {
        let mut bytes = Bytes::new(self.alloc);
        for location in list {
            self.add_part(&mut bytes, location)?;
        }
        Ok(bytes)
    }

    fn reply_registers(&self, list: &[Location]) -> Result<Option<Answer>, AllocError>
        ensures answer { IfOk result (λ answer. answer ≡ registers_reply list.now (facts_of self.now)) }
        ensures at_once { IsTrue (is_at_once (registers_reply list.now (facts_of self.now))) → IsOk result }
    {
        if list.is_empty() || MOST < list.len() || !self.knows_parts(list) {
            return Ok(None);
        }
        Ok(Some(Answer::Blob(self.parts_bytes(list)?)))
    }

    /// The process whose memory an ID asks for.
    fn process_asked(&self, id: &[u8]) -> Option<u32>
        ensures { result ≡ option_and_then (process_asked (facts_of self.now)) (context_of id.now) }
    {
        match context_id(id)? {
            ContextId::Process(process) => Some(process),
            ContextId::Thread(process, thread) => {
                if self.is_suspended(process, thread) {
                    Some(process)
                } else {
                    None
                }
            }
        }
    }

    fn range_asked(&self, id: &[u8], addr: i128, size: i128) -> Option<Asked>
        ensures range { result ≡ range_asked id.now addr size (facts_of self.now) }
        ensures some { IfSome result (λ asked. 1 ≤ asked.size) }
    {
        asked_of(self.process_asked(id)?, addr, size)
    }

    /// A copy of the bytes of a range, where one block has them all.
    fn copied(&self, asked: Asked) -> Result<Option<Bytes>, AllocError>
        requires { 1 ≤ asked.size }
        ensures bytes { IfOk result (λ bytes. bytes ≡ covered asked.process asked.addr asked.size self.now.blocks) }
        ensures at_once { covered asked.process asked.addr asked.size self.now.blocks ≡ None → IsOk result }
    {
        match self.blocks.cover(asked.process, asked.addr, asked.size) {
            Some(bytes) => Ok(Some(Bytes::from_slice(self.alloc, bytes)?)),
            None => Ok(None),
        }
    }

    /// Answers the bytes of a range from the first block that has them all, and moves that to the front.
    fn reply_range(&mut self, asked: Asked) -> Result<Option<Answer>, AllocError>
        requires { 1 ≤ asked.size }
        ensures answer { IfOk result (λ answer. answer ≡ memory_reply (Some asked) self.old.blocks) }
        ensures used { OnOk result (self.new ≡ record self.old { blocks = memory_used (Some asked) self.old.blocks }) }
        ensures at_once { IsTrue (is_at_once (memory_reply (Some asked) self.old.blocks)) → IsOk result }
        ensures same { OnErr result (self.new ≡ self.old) }
    {
        match self.copied(asked)? {
            Some(bytes) => {
                self.blocks.touch(asked.process, asked.addr, asked.size);
                Ok(Some(Answer::Blob(bytes)))
            }
            None => Ok(None),
        }
    }

    fn reply_memory(
        &mut self,
        id: &[u8],
        addr: i128,
        size: i128,
    ) -> Result<Option<Answer>, AllocError>
        ensures answer { IfOk result (λ answer. answer ≡ memory_reply (range_asked id.now addr size (facts_of self.old)) self.old.blocks) }
        ensures used { OnOk result (self.new ≡ record self.old { blocks = memory_used (range_asked id.now addr size (facts_of self.old)) self.old.blocks }) }
        ensures at_once { IsTrue (is_at_once (memory_reply (range_asked id.now addr size (facts_of self.old)) self.old.blocks)) → IsOk result }
        ensures same { OnErr result (self.new ≡ self.old) }
    {
        match self.range_asked(id, addr, size) {
            Some(asked) => self.reply_range(asked),
            None => Ok(None),
        }
    }

    /// Answers a reading command where every part of the answer is known, and moves the block that it uses to the
    /// front. `None` comes where a part isn't known, or the command is none that is answered so. That takes no memory,
    /// nor does the answer that a thread runs. Where memory is wanting, all is as before.
    pub fn reply(&mut self, command: &Command) -> Result<Option<Answer>, AllocError>
        ensures answer { IfOk result (λ answer. (answer, self.new) ≡ reply command.now self.old) }
        ensures cache { (messages : List Message) → IsCacheOf messages self.old → IsCacheOf messages self.new }
        ensures at_once { IsTrue (is_at_once (answer_known command.now (facts_of self.old) self.old.blocks)) → IsOk result }
        ensures same { OnErr result (self.new ≡ self.old) }
    {
        match command {
            Command::GetContext { id } => self.reply_context(id.as_bytes()),
            Command::GetState { id } => self.reply_state(id.as_bytes()),
            Command::BpProperties { id } => self.reply_properties(id.as_bytes()),
            Command::BpGetStatus { id } => self.reply_status(id.as_bytes()),
            Command::RegGet { id } => self.reply_register(id.as_bytes()),
            Command::RegGetm { list } => self.reply_registers(list.as_slice()),
            Command::MemGet { id, addr, size, .. } => {
                self.reply_memory(id.as_bytes(), *addr, *size)
            }
            _ => Ok(None),
        }
    }
}
