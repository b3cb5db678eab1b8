//! The commands that are pending above, by lower channel.
ghost use Rattle.std.specs.Prelude.{◌≡◌, ◌<◌, [], None, Some, IfOk, OnErr, length, option_map, position, IfSome};
ghost use Rattle.link_pool.specs.Lists.{item_of};
ghost use Rattle.tcf_message.specs.Message.{IsToken};
ghost use Rattle.hub_node.specs.Board.{dropped, found, free_list, is_nobody, joined, kept, left, list_of, new_board, owns};

use crate::waiting::{Tag, Waiting};
use link_pool::Pool;
use std::alloc::{AllocError, Global};
use std::marker::Model;

/// How many lower channels can be live.
pub const MOST_LIVE: usize = 64;

/// The commands that are pending above, in a list for each lower channel that is live.
#[derive(Drop)]
pub struct Board {
    alloc: Global,
    pool: Pool<Waiting>,
    /// The channel that each list is of.
    owners: Vec<Option<u64>>,
}

impl Model for Board {
    ghost use Rattle.hub_node.specs.BoardValue.{BoardValue};

    ghost Value = { BoardValue };

    ghost use Rattle.std.specs.Prelude.{◌≡◌, length};

    ghost view = { λ b. record { lists = b.pool.lists; owners = b.owners.items } };

    ghost invariant = { λ b. (length b.pool.lists ≡ 64) × (length b.owners.items ≡ 64) };
}

impl Board {
    /// Nothing is pending, and every list is free.
    pub fn new(alloc: Global) -> Result<Board, AllocError>
        ensures { IfOk result (λ b. b ≡ new_board) }
    {
        let nobody: Option<u64> = None;
        Ok(Board {
            alloc,
            pool: Pool::new(alloc, MOST_LIVE)?,
            owners: vec![in alloc; nobody; MOST_LIVE]?,
        })
    }

    fn list_of(&self, channel: u64) -> usize
        ensures value { result ≡ list_of channel self.now }
        ensures there { result < 64 }
    {
        place_of(&self.owners, channel).unwrap_or(0)
    }

    fn free_list(&self) -> usize
        ensures value { result ≡ free_list self.now }
        ensures there { result < 64 }
    {
        free_place(&self.owners).unwrap_or(0)
    }

    /// A lower channel opens, and gets a list that is free.
    pub fn join(&mut self, channel: u64)
        ensures { self.new ≡ joined channel self.old }
    {
        let list = self.free_list();
        self.owners[list] = Some(channel);
    }

    /// A lower channel closes: nothing is kept of its commands any more, and its list is free.
    pub fn leave(&mut self, channel: u64)
        ensures { self.new ≡ left channel self.old }
    {
        let list = self.list_of(channel);
        self.pool.unlink_list(list);
        self.owners[list] = None;
    }

    /// Keeps a command's channel and its token there, and answers the key under which they are kept, which nothing else
    /// has.
    pub fn keep(&mut self, serial: u64, channel: u64, token: &[u8]) -> Result<usize, AllocError>
        requires { IsToken token.now }
        ensures kept { IfOk result (λ key. self.new ≡ kept key (record { serial = serial; channel = channel; token = token.now }) self.old) }
        ensures fresh { IfOk result (λ key. item_of key self.old.lists ≡ None) }
        ensures same { OnErr result (self.new ≡ self.old) }
    {
        let list = self.list_of(channel);
        let waiting = Waiting::new(self.alloc, serial, channel, token)?;
        match self.pool.push(list, None, waiting) {
            Ok(key) => Ok(key),
            Err(_) => Err(AllocError),
        }
    }

    /// What is kept of the command with this tag, if its channel is still there.
    pub fn find(&self, tag: Tag) -> Option<&Waiting>
        ensures { option_map (λ w. w.now) result ≡ found tag self.now }
    {
        match self.pool.item(tag.key) {
            Some(waiting) if waiting.serial() == tag.serial => Some(waiting),
            _ => None,
        }
    }

    /// The command with this tag has its answer: what is kept of it comes out.
    pub fn take(&mut self, tag: Tag) -> Option<Waiting>
        ensures value { result ≡ found tag self.old }
        ensures left { self.new ≡ dropped tag self.old }
    {
        match self.find(tag) {
            Some(_) => self.pool.unlink(tag.key),
            None => None,
        }
    }
}

fn owns(channel: u64, owner: Option<u64>) -> bool
    ensures { result ≡ owns channel owner }
{
    match owner {
        Some(number) => number == channel,
        None => false,
    }
}

fn is_nobody(owner: Option<u64>) -> bool
    ensures { result ≡ is_nobody owner }
{
    owner.is_none()
}

/// The first list that is the channel's.
fn place_of(owners: &[Option<u64>], channel: u64) -> Option<usize>
    ensures value { result ≡ position (owns channel) owners.now }
    ensures there { IfSome result (λ place. place < length owners.now) }
{
    owners.iter().position(|owner| owns(channel, *owner))
}

/// The first list that is nobody's.
fn free_place(owners: &[Option<u64>]) -> Option<usize>
    ensures value { result ≡ position is_nobody owners.now }
    ensures there { IfSome result (λ place. place < length owners.now) }
{
    owners.iter().position(|owner| is_nobody(*owner))
}
