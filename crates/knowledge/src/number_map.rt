//! A map from numbers to values.
ghost use Rattle.std.specs.Prelude.{◌≡◌, ℕ, [], Some, None, option_copied, OnOk, IsTrue};
ghost use Rattle.knowledge.specs.Changes.{at_number};
ghost use Rattle.knowledge.specs.Keyed.{of_number};

use std::alloc::{AllocError, Global};
use std::collections::HashMap;
use std::marker::Model;

/// Values under numbers. Contracts see the list of pairs of a number and the value; the order is left open.
#[derive(Drop)]
pub(crate) struct NumberMap<T> {
    map: HashMap<u32, T>,
}

impl<T> Model for NumberMap<T> {
    ghost use Rattle.std.specs.Prelude.{ℕ, List};

    ghost Value = { List (ℕ × T) };

    ghost view = { λ m. m.map.entries };
}

impl<T: Drop> NumberMap<T> {
    /// Makes an empty map, which takes no memory yet.
    pub(crate) fn new(alloc: Global) -> Self
        ensures { result ≡ [] }
    {
        NumberMap {
            map: HashMap::new(alloc),
        }
    }

    /// Whether there is nothing under any number.
    pub(crate) fn is_empty(&self) -> bool
        ensures { IsTrue result → self.now ≡ [] }
    {
        self.map.is_empty()
    }

    pub(crate) fn get(&self, number: u32) -> Option<&T>
        ensures { option_copied result ≡ of_number number self.now }
    {
        self.map.get(&number)
    }

    /// Puts a value under the number, in place of what is there.
    pub(crate) fn put(&mut self, number: u32, value: T) -> Result<(), AllocError>
        ensures { OnOk result ((n : ℕ) → of_number n self.new ≡ at_number number (Some value) (λ m. of_number m self.old) n) }
    {
        self.map.insert(number, value)?;
        Ok(())
    }

    /// Takes out what is under the number.
    pub(crate) fn take(&mut self, number: u32) -> Option<T>
        ensures taken { result ≡ of_number number self.old }
        ensures left { (n : ℕ) → of_number n self.new ≡ at_number number None (λ m. of_number m self.old) n }
    {
        self.map.remove(&number)
    }
}
