//! A map from threads to values.
ghost use Rattle.std.specs.Prelude.{◌≡◌, ◌==◌, ℕ, [], Some, None, option_copied, OnOk, IsTrue, if◌then◌else◌};
ghost use Rattle.knowledge.specs.Changes.{at_thread};
ghost use Rattle.knowledge.specs.Keyed.{of_number, of_thread};

use crate::number_map::NumberMap;
use std::alloc::{AllocError, Global};
use std::collections::HashMap;
use std::marker::Model;

/// Values under threads, each by the number of its process and its own. Those of a process stand together, so that they
/// can be dropped together. Contracts see the list of pairs of a process's number and its rows, which are pairs of a
/// thread's number and the value; the order is left open.
#[derive(Drop)]
pub(crate) struct ThreadMap<T> {
    alloc: Global,
    processes: HashMap<u32, NumberMap<T>>,
}

impl<T> Model for ThreadMap<T> {
    ghost use Rattle.std.specs.Prelude.{ℕ, List};

    ghost Value = { List (ℕ × List (ℕ × T)) };

    ghost view = { λ m. m.processes.entries };
}

impl<T: Drop> ThreadMap<T> {
    /// Makes an empty map, which takes no memory yet.
    pub(crate) fn new(alloc: Global) -> Self
        ensures { result ≡ [] }
    {
        ThreadMap {
            alloc,
            processes: HashMap::new(alloc),
        }
    }

    pub(crate) fn get(&self, process: u32, thread: u32) -> Option<&T>
        ensures { option_copied result ≡ of_thread process thread self.now }
    {
        self.processes.get(&process)?.get(thread)
    }

    /// Puts a value under the thread, in place of what is there.
    pub(crate) fn put(&mut self, process: u32, thread: u32, value: T) -> Result<(), AllocError>
        ensures { OnOk result ((p t : ℕ) → of_thread p t self.new ≡ at_thread process thread (Some value) (λ q u. of_thread q u self.old) p t) }
    {
        if let Some(threads) = self.processes.get_mut(&process) {
            threads.put(thread, value)?;
            return Ok(());
        }
        let mut threads = NumberMap::new(self.alloc);
        threads.put(thread, value)?;
        self.processes.insert(process, threads)?;
        Ok(())
    }

    /// Takes out what is under the thread, to be put back soon: the row of its process stays.
    pub(crate) fn take(&mut self, process: u32, thread: u32) -> Option<T>
        ensures taken { result ≡ of_thread process thread self.old }
        ensures left { (p t : ℕ) → of_thread p t self.new ≡ at_thread process thread None (λ q u. of_thread q u self.old) p t }
    {
        if let Some(threads) = self.processes.get_mut(&process) {
            return threads.take(thread);
        }
        None
    }

    /// Drops what is under the thread, and the row of its process where nothing is left in it.
    pub(crate) fn drop_at(&mut self, process: u32, thread: u32)
        ensures { (p t : ℕ) → of_thread p t self.new ≡ at_thread process thread None (λ q u. of_thread q u self.old) p t }
    {
        let _value = self.take(process, thread);
        self.drop_empty(process);
    }

    /// Whether the process has a row with nothing in it.
    fn is_empty_at(&self, process: u32) -> bool
        ensures { IsTrue result → of_number process self.now ≡ Some [] }
    {
        match self.processes.get(&process) {
            Some(threads) => threads.is_empty(),
            None => false,
        }
    }

    /// Drops the row of the process where nothing is in it.
    fn drop_empty(&mut self, process: u32)
        ensures { (p t : ℕ) → of_thread p t self.new ≡ of_thread p t self.old }
    {
        if self.is_empty_at(process) {
            self.drop_process(process);
        }
    }

    /// Drops what is under all threads of the process.
    pub(crate) fn drop_process(&mut self, process: u32)
        ensures { (p t : ℕ) → of_thread p t self.new ≡ (if process == p then None else of_thread p t self.old) }
    {
        self.processes.remove(&process);
    }

    /// Drops everything. A new map takes the old one's place, so that no room which is no longer needed is gone over.
    pub(crate) fn clear(&mut self)
        ensures { self.new ≡ [] }
    {
        self.processes = HashMap::new(self.alloc);
    }
}
