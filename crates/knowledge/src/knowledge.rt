//! The cache of a peer, and what it is asked.
ghost use Rattle.std.specs.Prelude.{◌≡◌, ◌≤◌, ◌+◌, [], ℕ, Some, option_copied, option_map, slice_get, true, IfOk, IfSome};
ghost use Rattle.block_store.specs.Store.{covered};
ghost use Rattle.knowledge.specs.Facts.{state_of};
ghost use Rattle.knowledge.specs.KnowledgeValue.{IsCacheOf, empty, facts_of};

mod answers;
mod changes;
mod events;
mod learning;
mod reply;

use crate::number_map::NumberMap;
use crate::registers::Registers;
use crate::state::StateFact;
use crate::text_map::TextMap;
use crate::thread_map::ThreadMap;
use block_store::BlockStore;
use std::alloc::{AllocError, Global};
use std::marker::Model;
use tcf_values::{BpProps, BpStatus, ContextData, ContextId, RegisterId, Texts, context_id};

/// What a peer knows of a target. Contracts see the facts as rows under their keys, and the blocks of memory as the
/// store of blocks is seen.
#[derive(Drop)]
pub struct Knowledge {
    alloc: Global,
    contexts: TextMap<ContextData>,
    threads: NumberMap<Texts>,
    states: ThreadMap<StateFact>,
    registers: ThreadMap<Registers>,
    blocks: BlockStore,
    properties: TextMap<BpProps>,
    statuses: TextMap<BpStatus>,
}

impl Model for Knowledge {
    ghost use Rattle.knowledge.specs.KnowledgeValue.{KnowledgeValue};

    ghost Value = { KnowledgeValue };

    ghost view = { λ k. record { contexts = k.contexts; threads = k.threads; states = k.states; registers = k.registers; blocks = k.blocks; properties = k.properties; statuses = k.statuses } };
}

impl Knowledge {
    /// Makes a cache that knows nothing, with room for all the blocks that it can keep.
    pub fn new(alloc: Global) -> Result<Knowledge, AllocError>
        ensures empty { IfOk result (λ known. known ≡ empty) }
        ensures cache { IfOk result (IsCacheOf []) }
    {
        Ok(Knowledge {
            alloc,
            contexts: TextMap::new(alloc),
            threads: NumberMap::new(alloc),
            states: ThreadMap::new(alloc),
            registers: ThreadMap::new(alloc),
            blocks: BlockStore::new(alloc)?,
            properties: TextMap::new(alloc),
            statuses: TextMap::new(alloc),
        })
    }

    /// What is known of the context of this ID.
    pub fn context(&self, id: &[u8]) -> Option<&ContextData>
        ensures { option_copied result ≡ (facts_of self.now).contexts id.now }
    {
        self.contexts.get(id)
    }

    /// The IDs of a process's threads, in order. `None` comes exactly where they aren't known.
    pub fn threads(&self, process: u32) -> Option<&Texts>
        ensures { option_copied result ≡ (facts_of self.now).threads process }
    {
        self.threads.get(process)
    }

    /// What is known of the thread of this ID. No other ID has a state.
    pub fn state(&self, id: &[u8]) -> Option<&StateFact>
        ensures { option_copied result ≡ state_of id.now (facts_of self.now) }
    {
        match context_id(id)? {
            ContextId::Thread(process, thread) => self.states.get(process, thread),
            ContextId::Process(_) => None,
        }
    }

    /// What is known of the register. The index of the pc is 32.
    pub fn register(&self, id: RegisterId) -> Option<u32>
        ensures { result ≡ (facts_of self.now).registers id.process id.thread id.index }
    {
        self.registers.get(id.process, id.thread)?.get(id.index)
    }

    /// The bytes of a range of a process's memory, where one block has them all.
    pub fn bytes(&self, process: u32, addr: u32, size: u32) -> Option<&[u8]>
        requires { 1 ≤ size }
        ensures value { option_map (λ bytes. bytes.now) result ≡ covered process addr size self.now.blocks }
        ensures known { IfSome result (λ bytes. (k byte : ℕ) → slice_get bytes.now k ≡ Some byte → (facts_of self.now).bytes process (addr + k) byte ≡ true) }
    {
        self.blocks.cover(process, addr, size)
    }

    /// What is known of the properties of the breakpoint of this ID.
    pub fn properties(&self, id: &[u8]) -> Option<&BpProps>
        ensures { option_copied result ≡ (facts_of self.now).properties id.now }
    {
        self.properties.get(id)
    }

    /// What is known of the status of the breakpoint of this ID.
    pub fn status(&self, id: &[u8]) -> Option<&BpStatus>
        ensures { option_copied result ≡ (facts_of self.now).statuses id.now }
    {
        self.statuses.get(id)
    }
}
