//! What is to be put on one wire.
ghost use Rattle.std.specs.Prelude.{◌≡◌, ◌+◌, ◌≤◌, [], OnErr, OnOk, drop, length, true};
ghost use Rattle.serving_wires.specs.Calls.{Makes};
ghost use Rattle.serving_wires.specs.Outbox.{Flushes, IsGivenUp, Puts, Shuts, closed, is_due, left_behind, queued, unused_outbox};

use std::alloc::{AllocError, Global};
use std::marker::Model;
use tcf_wires::{Put, Wires};

/// The end of a stream, escaped, as it is put where a connection is let in and its channel refused.
pub const END_OF_STREAM: &[u8] = b"\x03\x02";

/// The bytes that are queued for one wire, and whether it was lost, is to be shut and was shut. What the wire didn't
/// take goes first the next time. What it took is forgotten: at most half of the bytes that are kept were taken.
#[derive(Drop)]
pub struct Outbox {
    channel: u64,
    bytes: Vec<u8>,
    /// How many of the bytes were taken.
    taken: usize,
    is_lost: bool,
    is_closed: bool,
    is_shut: bool,
}

impl Model for Outbox {
    ghost use Rattle.std.specs.Prelude.{◌+◌, ◌≤◌, drop, length};
    ghost use Rattle.serving_wires.specs.OutboxValue.{OutboxValue};

    ghost Value = { OutboxValue };

    ghost view = { λ o. record { channel = o.channel; queued = drop o.taken o.bytes.items; is_lost = o.is_lost; is_closed = o.is_closed; is_shut = o.is_shut } };

    ghost invariant = { λ o. o.taken + o.taken ≤ length o.bytes.items };
}

impl Outbox {
    /// An outbox of the wire of this channel, for which nothing is queued.
    pub fn new(alloc: Global, channel: u64) -> Self
        ensures { result ≡ unused_outbox channel }
    {
        Outbox {
            channel,
            bytes: Vec::new(alloc),
            taken: 0,
            is_lost: false,
            is_closed: false,
            is_shut: false,
        }
    }

    /// The channel whose wire it is.
    pub fn channel(&self) -> u64
        ensures { result ≡ self.now.channel }
    {
        self.channel
    }

    /// Whether nothing more is queued.
    pub fn is_closed(&self) -> bool
        ensures { result ≡ self.now.is_closed }
    {
        self.is_closed
    }

    /// Whether the wire was shut.
    pub fn is_shut(&self) -> bool
        ensures { result ≡ self.now.is_shut }
    {
        self.is_shut
    }

    /// Queues the bytes behind those that are there. What is queued for a lost wire is dropped.
    pub fn queue(&mut self, bytes: &[u8]) -> Result<(), AllocError>
        ensures ok { OnOk result (self.new ≡ queued bytes.now self.old) }
        ensures err { OnErr result (self.new ≡ self.old) }
    {
        if self.is_lost {
            return Ok(());
        }
        self.bytes.extend_from_slice(bytes)
    }

    /// Nothing more will be queued.
    pub fn close(&mut self)
        ensures { self.new ≡ closed self.old }
    {
        self.is_closed = true;
    }

    /// Drops what is queued, and nothing more will be queued: another wire takes the place of this one.
    pub fn drop_queued(&mut self)
        ensures { self.new ≡ left_behind self.old }
    {
        if !self.is_shut {
            self.bytes.clear();
            self.taken = 0;
            self.is_lost = false;
            self.is_closed = true;
        }
    }

    /// Puts all that is queued, if anything is, in one put; and shuts the wire once, where nothing more will be queued
    /// and nothing is left.
    pub fn flush<W: Wires>(&mut self, wires: &mut W) -> Result<(), AllocError>
        ensures ok { OnOk result (Makes (Flushes self.old self.new) (W.seen wires.old) (W.seen wires.new)) }
        ensures err { OnErr result (Makes (IsGivenUp self.old) (W.seen wires.old) (W.seen wires.new)) }
    {
        self.put(wires)?;
        self.shut(wires)
    }

    /// One put of all that is queued.
    fn put<W: Wires>(&mut self, wires: &mut W) -> Result<(), AllocError>
        ensures ok { OnOk result (Makes (Puts self.old self.new) (W.seen wires.old) (W.seen wires.new)) }
        ensures err { OnErr result (W.seen wires.new ≡ W.seen wires.old) }
    {
        if self.left().is_empty() {
            return Ok(());
        }
        match wires.put(self.channel(), self.left()) {
            Put::Took(count) => {
                self.forget(count);
                Ok(())
            }
            Put::Lost => {
                self.lose();
                Ok(())
            }
            Put::NoMemory => Err(AllocError),
        }
    }

    /// Shuts the wire, if it is to be shut now.
    fn shut<W: Wires>(&mut self, wires: &mut W) -> Result<(), AllocError>
        ensures ok { OnOk result (Makes (Shuts self.old self.new) (W.seen wires.old) (W.seen wires.new)) }
        ensures err { OnErr result (W.seen wires.new ≡ W.seen wires.old) }
    {
        if self.is_due() {
            wires.shut(self.channel())?;
            self.is_shut = true;
        }
        Ok(())
    }

    /// Whether nothing more is queued, nothing is left, and the wire wasn't shut before.
    fn is_due(&self) -> bool
        ensures { result ≡ is_due self.now }
    {
        self.is_closed && self.left().is_empty() && !self.is_shut
    }

    /// What is queued and wasn't taken.
    fn left(&self) -> &[u8]
        ensures { result.now ≡ self.now.queued }
    {
        &self.bytes[self.taken..]
    }

    /// So many bytes were taken.
    fn forget(&mut self, count: usize)
        requires { count ≤ length self.old.queued }
        ensures { self.new ≡ record self.old { queued = drop count self.old.queued } }
    {
        self.taken = forget_first(&mut self.bytes, self.taken + count);
    }

    /// A put was lost, and what is queued is dropped.
    fn lose(&mut self)
        ensures { self.new ≡ record self.old { queued = []; is_lost = true } }
    {
        self.bytes.clear();
        self.taken = 0;
        self.is_lost = true;
    }
}

/// Forgets these first bytes once they are half of all, and answers how many of them are still there. So each byte is
/// moved at most once on average.
fn forget_first(bytes: &mut Vec<u8>, count: usize) -> usize
    requires { count ≤ length bytes.old.items }
    ensures left { drop result bytes.new.items ≡ drop count bytes.old.items }
    ensures half { result + result ≤ length bytes.new.items }
{
    let left = bytes.len() - count;
    if count < left {
        return count;
    }
    bytes.rotate_left(count);
    bytes.truncate(left);
    0
}
