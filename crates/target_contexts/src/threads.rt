//! The threads of a process.
ghost use Rattle.std.specs.Borrow.{sem};
ghost use Rattle.std.specs.Prelude.{[], ◌∷◌, ◌++◌, ◌≡◌, ◌<◌, is_some, length, option_map, IfOk, OnErr, OnOk};
ghost use Rattle.target_contexts.specs.Named.{is_running, some_runs};
ghost use Rattle.target_contexts.specs.ThreadList.{AreFew, numbered};

use crate::process::ThreadState;
use rv32i_core::Cpu;
use std::alloc::{AllocError, Global};
use std::marker::Model;

/// One thread of a process.
#[derive(Debug, Drop)]
pub struct Thread {
    pub state: ThreadState,
    pub cpu: Cpu,
}

/// The threads of a process, 1 to 8, in the order of their numbers, which begin at 1. Contracts see the list.
#[derive(Drop)]
pub struct Threads {
    list: Vec<Thread>,
}

impl Model for Threads {
    ghost use Rattle.std.specs.Prelude.{List};
    ghost use Rattle.target_contexts.specs.ThreadList.{AreFew};
    ghost use Rattle.target_contexts.specs.declared.threads.Thread.{Thread};

    ghost Value = { List Thread };

    ghost view = { λ t. t.list.items };

    ghost invariant = { λ t. AreFew t.list.items };
}

impl Threads {
    ghost use Rattle.target_contexts.specs.Lending.{LendsThread};

    /// The first thread alone.
    #[tactic(auto, using(crate::proofs::ThreadLists::few_one))]
    pub(crate) fn one(alloc: Global, thread: Thread) -> Result<Threads, AllocError>
        ensures { IfOk result (λ threads. threads ≡ thread ∷ []) }
    {
        let mut list = Vec::with_capacity(alloc, 1)?;
        list.push(thread)?;
        Ok(Threads { list })
    }

    /// How many there are, from 1 to 8.
    pub fn count(&self) -> u32
        ensures count { result ≡ length self.now }
        ensures few { AreFew self.now }
    {
        self.list.len() as u32
    }

    pub fn as_slice(&self) -> &[Thread]
        ensures { result.now ≡ self.now }
    {
        &self.list
    }

    /// The thread of this number; `None` exactly where there is none.
    pub fn get(&self, number: u32) -> Option<&Thread>
        ensures { option_map (λ t. t.now) result ≡ numbered number self.now }
    {
        let place = number.checked_sub(1)?;
        self.list.get(place as usize)
    }

    /// Whether there is a thread of this number.
    pub fn has(&self, number: u32) -> bool
        ensures { result ≡ is_some (numbered number self.now) }
    {
        match self.get(number) {
            Some(_) => true,
            None => false,
        }
    }

    /// The thread of this number, to be changed; `None` exactly where there is none. What is written changes this one
    /// thread.
    #[tactic(auto, using(crate::proofs::ThreadLists::few_set))]
    pub fn get_mut(&mut self, number: u32) -> Option<&mut Thread>
        ensures* writes_back { sem 𝓛 (LendsThread self.entry number result) }
        ensures value { option_map (λ t. t.now) result ≡ numbered number self.old }
    {
        let place = number.checked_sub(1)?;
        self.list.get_mut(place as usize)
    }

    /// Whether there is a thread of this number, and it runs.
    pub fn is_running(&self, number: u32) -> bool
        ensures { result ≡ is_running (numbered number self.now) }
    {
        match self.get(number) {
            Some(thread) => thread.state.runs(),
            None => false,
        }
    }

    /// Whether one of the threads runs.
    pub fn has_running(&self) -> bool
        ensures { result ≡ some_runs self.now }
    {
        self.list.iter().any(|thread| thread.state.runs())
    }

    /// Puts a thread last. After want of memory nothing has changed.
    #[tactic(auto, using(crate::proofs::ThreadLists::few_pushed))]
    pub(crate) fn push(&mut self, thread: Thread) -> Result<(), AllocError>
        requires { length self.old < 8 }
        ensures pushed { OnOk result (self.new ≡ self.old ++ thread ∷ []) }
        ensures kept { OnErr result (self.new ≡ self.old) }
    {
        self.list.push(thread)?;
        Ok(())
    }
}
