//! A map from texts to values.
ghost use Rattle.std.specs.Prelude.{◌≡◌, ℕ, List, [], Some, None, option_copied, OnOk};
ghost use Rattle.knowledge.specs.Changes.{at_text};
ghost use Rattle.knowledge.specs.Keyed.{under};

use std::alloc::{AllocError, Global};
use std::collections::HashMap;
use std::marker::Model;

/// Values under texts. Contracts see the list of pairs of a text's bytes and the value; the order is left open.
#[derive(Drop)]
pub(crate) struct TextMap<T> {
    alloc: Global,
    map: HashMap<Vec<u8>, T>,
}

impl<T> Model for TextMap<T> {
    ghost use Rattle.std.specs.Prelude.{ℕ, List};
    ghost use Rattle.knowledge.specs.Keyed.{text_rows};

    ghost Value = { List (List ℕ × T) };

    ghost view = { λ m. text_rows m.map.entries };
}

impl<T: Drop> TextMap<T> {
    /// Makes an empty map, which takes no memory yet.
    pub(crate) fn new(alloc: Global) -> Self
        ensures { result ≡ [] }
    {
        TextMap {
            alloc,
            map: HashMap::new(alloc),
        }
    }

    pub(crate) fn get(&self, id: &[u8]) -> Option<&T>
        ensures { option_copied result ≡ under id.now self.now }
    {
        self.map.get(id)
    }

    /// Puts a value under the text, in place of what is there.
    pub(crate) fn put(&mut self, id: &[u8], value: T) -> Result<(), AllocError>
        ensures { OnOk result ((other : List ℕ) → under other self.new ≡ at_text id.now (Some value) (λ key. under key self.old) other) }
    {
        let key = Vec::from_slice(self.alloc, id)?;
        self.map.insert(key, value)?;
        Ok(())
    }

    /// Drops what is under the text.
    pub(crate) fn drop_at(&mut self, id: &[u8])
        ensures { (other : List ℕ) → under other self.new ≡ at_text id.now None (λ key. under key self.old) other }
    {
        self.map.remove(id);
    }

    /// Drops everything. A new map takes the old one's place, so that no room which is no longer needed is gone over.
    pub(crate) fn clear(&mut self)
        ensures { self.new ≡ [] }
    {
        self.map = HashMap::new(self.alloc);
    }
}
