//! A part of memory, and its bytes.
ghost use Rattle.std.specs.Prelude.{◌≡◌, ◌++◌, ◌∷◌, [], IfOk, OnOk, OnErr};

use std::alloc::{AllocError, Global};
use std::marker::Model;

/// The bytes of a part. Contracts see them as a list.
#[derive(Debug, Drop)]
pub struct PartBytes {
    inner: Vec<u8>,
}

impl Model for PartBytes {
    ghost use Rattle.std.specs.Prelude.{ℕ, List};

    ghost Value = { List ℕ };

    ghost view = { λ bytes. bytes.inner.items };
}

impl PartBytes {
    /// Makes a list with no bytes, which takes no memory yet.
    pub fn new(alloc: Global) -> Self
        ensures { result ≡ [] }
    {
        PartBytes {
            inner: Vec::new(alloc),
        }
    }

    /// Puts the byte last. For want of memory all stays as it was.
    pub fn push(&mut self, byte: u8) -> Result<(), AllocError>
        ensures ok { OnOk result (self.new ≡ self.old ++ byte ∷ []) }
        ensures err { OnErr result (self.new ≡ self.old) }
    {
        self.inner.push(byte)?;
        Ok(())
    }

    /// Puts the bytes last. For want of memory all stays as it was.
    pub fn extend(&mut self, bytes: &[u8]) -> Result<(), AllocError>
        ensures ok { OnOk result (self.new ≡ self.old ++ bytes.now) }
        ensures err { OnErr result (self.new ≡ self.old) }
    {
        self.inner.extend_from_slice(bytes)
    }

    pub fn as_slice(&self) -> &[u8]
        ensures { result.now ≡ self.now }
    {
        self.inner.as_slice()
    }

    /// A copy, which equals its source.
    pub fn copy(&self) -> Result<Self, AllocError>
        ensures { IfOk result (λ twin. twin ≡ self.now) }
    {
        let mut twin = PartBytes::new(*self.inner.allocator());
        twin.extend(self.as_slice())?;
        Ok(twin)
    }
}

/// Bytes of the file that stand one behind another in memory.
#[derive(Debug, Drop)]
pub struct Part {
    /// The address of the first byte.
    pub addr: u32,
    pub bytes: PartBytes,
}

impl Part {
    /// A copy, which equals its source.
    pub fn copy(&self) -> Result<Self, AllocError>
        ensures { IfOk result (λ twin. twin ≡ self.now) }
    {
        Ok(Part {
            addr: self.addr,
            bytes: self.bytes.copy()?,
        })
    }
}
