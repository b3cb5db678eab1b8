//! The registers of a thread, as far as they are known.
ghost use Rattle.std.specs.Prelude.{◌≡◌, ◌≤◌, ◌==◌, ℕ, Some, None, OnOk, if◌then◌else◌};
ghost use Rattle.knowledge.specs.Changes.{at_register};
ghost use Rattle.knowledge.specs.Keyed.{at_index, register_in};

use crate::thread_map::ThreadMap;
use std::alloc::AllocError;
use std::marker::Model;

/// The registers x0 to x31 and the pc. Contracts see the list of what is known of each.
#[derive(Drop)]
pub(crate) struct Registers {
    values: [Option<u32>; 33],
}

impl Model for Registers {
    ghost use Rattle.std.specs.Prelude.{ℕ, List, Option};

    ghost Value = { List (Option ℕ) };

    ghost view = { λ r. r.values };
}

impl Registers {
    /// None of them is known.
    pub(crate) fn unknown() -> Self
        ensures { (index : ℕ) → at_index index result ≡ None }
    {
        Registers { values: [None; 33] }
    }

    pub(crate) fn get(&self, index: u8) -> Option<u32>
        ensures { result ≡ at_index index self.now }
    {
        *self.values.get(index as usize)?
    }

    pub(crate) fn set(&mut self, index: u8, value: Option<u32>)
        requires { index ≤ 32 }
        ensures { (i : ℕ) → at_index i self.new ≡ (if index == i then value else at_index i self.old) }
    {
        self.values[index as usize] = value;
    }
}

impl ThreadMap<Registers> {
    /// Tells a register of a thread; what is known of the others stays.
    pub(crate) fn tell(
        &mut self,
        process: u32,
        thread: u32,
        index: u8,
        value: u32,
    ) -> Result<(), AllocError>
        requires { index ≤ 32 }
        ensures { OnOk result ((p t i : ℕ) → register_in p t i self.new
            ≡ at_register process thread index (Some value) (λ q u j. register_in q u j self.old) p t i) }
    {
        let mut known = match self.take(process, thread) {
            Some(known) => known,
            None => Registers::unknown(),
        };
        known.set(index, Some(value));
        self.put(process, thread, known)
    }

    /// Forgets a register of a thread; what is known of the others stays.
    pub(crate) fn forget(&mut self, process: u32, thread: u32, index: u8) -> Result<(), AllocError>
        requires { index ≤ 32 }
        ensures { OnOk result ((p t i : ℕ) → register_in p t i self.new ≡ at_register process thread index None (λ q u j. register_in q u j self.old) p t i) }
    {
        match self.take(process, thread) {
            Some(mut known) => {
                known.set(index, None);
                self.put(process, thread, known)
            }
            None => Ok(()),
        }
    }
}
