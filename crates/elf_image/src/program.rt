//! What a file is loaded as: an entry, and parts of memory.
ghost use Rattle.std.specs.Prelude.{◌≡◌, ◌++◌, ◌∷◌, [], IfOk, OnOk, OnErr};

use crate::part::Part;
use std::alloc::{AllocError, Global};
use std::marker::Model;

/// Parts of memory. Contracts see them as a list.
#[derive(Debug, Drop)]
pub struct Parts {
    inner: Vec<Part>,
}

impl Model for Parts {
    ghost use Rattle.std.specs.Prelude.{List};
    ghost use Rattle.elf_image.specs.declared.part.Part.{Part};

    ghost Value = { List Part };

    ghost view = { λ parts. parts.inner.items };
}

impl Parts {
    /// Makes a list with no parts, which takes no memory yet.
    pub fn new(alloc: Global) -> Self
        ensures { result ≡ [] }
    {
        Parts {
            inner: Vec::new(alloc),
        }
    }

    /// Puts the part last. For want of memory all stays as it was, and the part is dropped.
    pub fn push(&mut self, part: Part) -> Result<(), AllocError>
        ensures ok { OnOk result (self.new ≡ self.old ++ part ∷ []) }
        ensures err { OnErr result (self.new ≡ self.old) }
    {
        self.inner.push(part)?;
        Ok(())
    }

    pub fn as_slice(&self) -> &[Part]
        ensures { result.now ≡ self.now }
    {
        self.inner.as_slice()
    }

    /// A copy, which equals its source.
    pub fn copy(&self) -> Result<Self, AllocError>
        ensures { IfOk result (λ twin. twin ≡ self.now) }
    {
        let mut twin = Parts::new(*self.inner.allocator());
        for part in &self.inner {
            twin.push(part.copy()?)?;
        }
        Ok(twin)
    }
}

/// An executable as it is loaded: all memory outside of its parts is 0.
#[derive(Debug, Drop)]
pub struct Program {
    /// The address of the first instruction.
    pub entry: u32,
    pub parts: Parts,
}
