//! Items in lists that are linked by keys.
ghost use Rattle.std.specs.Prelude.{◌≡◌, ◌≢◌, ◌+◌, ◌<◌, ◌≤◌, [], length, replicate, IfErr, IfOk, IfSome, IsOk, OnErr, OnOk, OnSome, IfNone, None, Some, false, option_copied, is_some, slice_get};
ghost use Rattle.link_pool.specs.Rows.{first_key, item_at, key_after};
ghost use Rattle.link_pool.specs.Lists.{IsWhole, cleared, item_of, moved_last, pushed, rows_of, unlinked};
ghost use Rattle.link_pool.specs.Nodes.{AreLinked, link_in};

use crate::linking::{attach, attach_second, detach, detach_second, other_than};
use crate::node::{Ends, Link, Node};
use slab::Slab;
use std::alloc::{AllocError, Global};
use std::marker::Model;

/// Items in numbered lists, each item in one list or two. Contracts see each list as its rows in order, a row being the
/// key of an item and the item, and how many more items there is room for. The cost of a call doesn't depend on how many
/// items there are, but for `unlink_list`, which takes out all items of a list.
#[derive(Drop)]
pub struct Pool<T> {
    nodes: Slab<Node<T>>,
    ends: Vec<Ends>,
}

impl<T> Model for Pool<T> {
    ghost use Rattle.link_pool.specs.Value.{PoolValue};

    ghost Value = { PoolValue T };

    ghost use Rattle.link_pool.specs.Slots.{IsStanding, lists_of, room_of};

    ghost view = { λ p. record { lists = lists_of p.nodes.slots p.ends.items; room = room_of p.nodes } };

    ghost invariant = { λ p. IsStanding p.nodes.slots p.ends.items };
}

impl<T> Pool<T> {
    /// Makes a pool of so many empty lists, numbered from 0.
    pub fn new(alloc: Global, lists: usize) -> Result<Pool<T>, AllocError>
        ensures { IfOk result (λ pool. pool.lists ≡ replicate lists []) }
    {
        let nothing = Ends {
            first: None,
            last: None,
        };
        let ends = vec![in alloc; nothing; lists]?;
        Ok(Pool {
            nodes: Slab::new(alloc),
            ends,
        })
    }

    /// How many more items it takes with no more memory.
    pub fn room(&self) -> usize
        ensures { result ≡ self.now.room }
    {
        self.nodes.capacity() - self.nodes.len()
    }

    /// Takes the memory for so many more items. The items stay as they are.
    pub fn reserve(&mut self, more: usize) -> Result<(), AllocError>
        ensures room { OnOk result (more ≤ self.new.room) }
        ensures grows { self.old.room ≤ self.new.room }
        ensures kept { self.new.lists ≡ self.old.lists }
    {
        self.nodes.reserve(more)
    }

    /// Puts an item last in a list, and in a second one where another is given, and answers its key, which no other item
    /// has. For want of memory alone the item comes back, and nothing changes.
    pub fn push(&mut self, list: usize, second: Option<usize>, item: T) -> Result<usize, T>
        requires list { list < length self.old.lists }
        requires second { IfSome second (λ other. other < length self.old.lists) }
        ensures pushed { IfOk result (λ key. self.new.lists ≡ pushed list second (key, item) self.old.lists) }
        ensures fresh { IfOk result (λ key. item_of key self.old.lists ≡ None) }
        ensures returned { IfErr result (λ given. given ≡ item) }
        ensures unchanged { OnErr result (self.new.lists ≡ self.old.lists) }
        ensures succeeds { 0 < self.old.room → IsOk result }
        ensures room { self.old.room ≤ self.new.room + 1 }
        ensures lists { length self.new.lists ≡ length self.old.lists }
    {
        let other = other_than(list, second);
        match self.nodes.insert(Node::alone(item, list, other)) {
            Ok(key) => {
                attach(&mut self.nodes, &mut self.ends, list, key);
                attach_second(&mut self.nodes, &mut self.ends, other, key);
                Ok(key)
            }
            Err(failed) => {
                let Node { item, .. } = failed.value;
                Err(item)
            }
        }
    }

    /// Takes an item out of all its lists; `None` exactly where no item has this key, and then nothing changes.
    pub fn unlink(&mut self, key: usize) -> Option<T>
        ensures value { result ≡ item_of key self.old.lists }
        ensures left { self.new.lists ≡ unlinked key self.old.lists }
        ensures room { OnSome result (self.new.room ≡ self.old.room + 1) }
        ensures same { IfNone result (self.new ≡ self.old) }
        ensures lists { length self.new.lists ≡ length self.old.lists }
        ensures whole { IsWhole self.old.lists }
    {
        let Node { item, main, second } = self.nodes.try_remove(key)?;
        detach(&mut self.nodes, &mut self.ends, main);
        detach_second(&mut self.nodes, &mut self.ends, second);
        Some(item)
    }

    /// Puts an item last in a list in which it stands, and leaves all else as it is; false exactly where there is no such
    /// list or the item doesn't stand in it, and then nothing changes.
    pub fn move_last(&mut self, list: usize, key: usize) -> bool
        ensures there { result ≡ is_some (item_at key (rows_of list self.old.lists)) }
        ensures moved { self.new.lists ≡ moved_last list key self.old.lists }
        ensures same { result ≡ false → self.new ≡ self.old }
        ensures room { self.new.room ≡ self.old.room }
        ensures lists { length self.new.lists ≡ length self.old.lists }
    {
        match self.link(list, key) {
            Some(link) => {
                detach(&mut self.nodes, &mut self.ends, link);
                attach(&mut self.nodes, &mut self.ends, list, key);
                true
            }
            None => false,
        }
    }

    /// The key of the first item of a list; `None` exactly where there is no such list or it is empty.
    pub fn first(&self, list: usize) -> Option<usize>
        ensures value { result ≡ first_key (rows_of list self.now.lists) }
        ensures whole { IsWhole self.now.lists }
    {
        ends_of(self.ends.as_slice(), list)?.first
    }

    /// The key of the item behind this one in a list; `None` exactly where there is no such list, the item doesn't stand
    /// in it, or it is the last of it.
    pub fn after(&self, list: usize, key: usize) -> Option<usize>
        ensures { result ≡ key_after key (rows_of list self.now.lists) }
    {
        self.link(list, key)?.next
    }

    /// The item with this key; `None` exactly where there is none.
    pub fn item(&self, key: usize) -> Option<&T>
        ensures value { option_copied result ≡ item_of key self.now.lists }
        ensures whole { IsWhole self.now.lists }
    {
        Some(&self.nodes.get(key)?.item)
    }

    /// The nodes: for each item one, with its neighbours in each list in which it stands.
    pub fn nodes(&self) -> &Slab<Node<T>>
        ensures linked { AreLinked self.now.lists result.now }
        ensures whole { IsWhole self.now.lists }
    {
        &self.nodes
    }

    fn link(&self, list: usize, key: usize) -> Option<Link>
        ensures { result ≡ link_in list key self.now.lists }
    {
        self.nodes.get(key)?.link(list)
    }
}

impl<T: Drop> Pool<T> {
    /// Takes every item of a list out of all its lists, and answers how many; 0 for a list that isn't there.
    pub fn unlink_list(&mut self, list: usize) -> usize
        ensures count { result ≡ length (rows_of list self.old.lists) }
        ensures left { self.new.lists ≡ cleared list self.old.lists }
        ensures room { self.new.room ≡ self.old.room + result }
        ensures lists { length self.new.lists ≡ length self.old.lists }
    {
        let before = self.room();
        while let Some(key) = self.first(list) {
            self.unlink(key);
        }
        // Each item that goes leaves room for one more.
        self.room() - before
    }
}

/// The first and the last key of a list; `None` where there is no such list.
fn ends_of(all: &[Ends], list: usize) -> Option<Ends>
    ensures { result ≡ slice_get all.now list }
{
    all.get(list).copied()
}
