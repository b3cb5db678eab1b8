//! One list for every element type: contracts see a `Sequence<T>` as the list of its items.
ghost use Rattle.std.specs.Prelude.{◌≡◌, ◌++◌, ◌∷◌, [], length, take, IfOk, OnOk, OnErr, IsTrue, ◌↔◌};
ghost use Rattle.std.specs.Slice.Iter.{iter_rest};

use std::alloc::{AllocError, Global};
use std::marker::Model;
use std::slice;

/// A value that can be copied where memory allows, as `Clone` is, with a copy that equals its source.
pub trait Duplicate: Drop {
    fn copy(&self) -> Result<Self, AllocError>
        ensures { IfOk result (λ twin. twin ≡ self.now) };
}

impl Duplicate for u8 {
    fn copy(&self) -> Result<Self, AllocError> {
        Ok(*self)
    }
}

impl Duplicate for u32 {
    fn copy(&self) -> Result<Self, AllocError> {
        Ok(*self)
    }
}

/// A list that grows at its end. After want of memory it is as it was.
#[derive(Debug, Drop)]
pub struct Sequence<T> {
    inner: Vec<T>,
}

impl<T> Model for Sequence<T> {
    ghost use Rattle.std.specs.Prelude.{List};

    ghost Value = { List T };

    ghost view = { λ s. s.inner.items };
}

/// A list of bytes.
pub type Octets = Sequence<u8>;

impl<T> Sequence<T> {
    /// Makes an empty list, which takes no memory yet.
    pub fn new(alloc: Global) -> Self
        ensures { result ≡ [] }
    {
        Sequence {
            inner: Vec::new(alloc),
        }
    }

    /// The allocator that the list keeps, for what is made beside it.
    pub fn allocator(&self) -> Global {
        *self.inner.allocator()
    }

    pub fn len(&self) -> usize
        ensures { result ≡ length self.now }
    {
        self.inner.len()
    }

    pub fn is_empty(&self) -> bool
        ensures { IsTrue result ↔ (self.now ≡ []) }
    {
        self.inner.is_empty()
    }

    pub fn as_slice(&self) -> &[T]
        ensures { result.now ≡ self.now }
    {
        self.inner.as_slice()
    }

    pub fn iter(&self) -> slice::Iter<'_, T>
        ensures { iter_rest result ≡ self.now }
    {
        self.inner.iter()
    }
}

impl<T> Sequence<T> {
    /// Makes the list of a vector's items.
    pub fn from_vec(items: Vec<T>) -> Self
        ensures { result ≡ items.items }
    {
        Sequence { inner: items }
    }
}

impl<T: Drop> Sequence<T> {
    /// Puts the item last. An item that finds no room is dropped.
    pub fn push(&mut self, item: T) -> Result<(), AllocError>
        ensures ok { OnOk result (self.new ≡ self.old ++ item ∷ []) }
        ensures err { OnErr result (self.new ≡ self.old) }
    {
        self.inner.push(item)?;
        Ok(())
    }
}

impl Sequence<u8> {
    /// Makes a list of these bytes.
    pub fn from_slice(alloc: Global, bytes: &[u8]) -> Result<Self, AllocError>
        ensures { IfOk result (λ octets. octets ≡ bytes.now) }
    {
        Ok(Sequence {
            inner: Vec::from_slice(alloc, bytes)?,
        })
    }

    /// Puts the bytes last.
    pub fn extend(&mut self, bytes: &[u8]) -> Result<(), AllocError>
        ensures ok { OnOk result (self.new ≡ self.old ++ bytes.now) }
        ensures err { OnErr result (self.new ≡ self.old) }
    {
        self.inner.extend_from_slice(bytes)
    }

    /// Keeps the first so many bytes, all where there are no more, and the room that the others had.
    pub fn truncate(&mut self, length: usize)
        ensures { self.new ≡ take length self.old }
    {
        self.inner.truncate(length);
    }

    /// Takes all bytes out, and keeps the room that they had.
    pub fn clear(&mut self)
        ensures { self.new ≡ [] }
    {
        self.inner.clear();
    }
}

impl<T: Duplicate> Duplicate for Sequence<T> {
    fn copy(&self) -> Result<Self, AllocError> {
        let mut twin = Sequence::new(*self.inner.allocator());
        for item in &self.inner {
            twin.push(item.copy()?)?;
        }
        Ok(twin)
    }
}

impl<'a, T> IntoIterator for &'a Sequence<T> {
    type Item = &'a T;

    type IntoIter = slice::Iter<'a, T>;

    ghost into_iter_gives = { λ sequence it. iter_rest it ≡ sequence.now };

    fn into_iter(self) -> Self::IntoIter {
        self.iter()
    }
}
