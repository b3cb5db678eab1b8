//! What is to be put on each wire.
ghost use Rattle.std.specs.Prelude.{◌≡◌, [], OnErr, OnOk};
ghost use Rattle.serving_wires.specs.Calls.{Makes};
ghost use Rattle.serving_wires.specs.Flushing.{FlushesKept, GivesUpAll, its_own};
ghost use Rattle.serving_wires.specs.Order.{closes, leaves, queues};
ghost use Rattle.serving_wires.specs.Sending.{begun, ordered, queued_unless_closed};

use crate::flushing::flush_rows;
use crate::outbox::Outbox;
use crate::roster::Roster;
use std::alloc::{AllocError, Global};
use std::marker::Model;
use tcf_wires::Wires;

/// The outboxes of all wires, in the order of their channels. Those of wires that were shut are forgotten.
#[derive(Drop)]
pub struct Sending {
    alloc: Global,
    outboxes: Roster<Outbox>,
}

impl Model for Sending {
    ghost use Rattle.std.specs.Prelude.{List};
    ghost use Rattle.serving_wires.specs.OutboxValue.{OutboxValue};
    ghost use Rattle.serving_wires.specs.Row.{Row};

    ghost Value = { List (Row OutboxValue) };

    ghost view = { λ s. s.outboxes };
}

impl Sending {
    pub fn new(alloc: Global) -> Self
        ensures { result ≡ [] }
    {
        Sending {
            alloc,
            outboxes: Roster::new(alloc),
        }
    }

    /// The wire of this channel begins.
    pub fn begin(&mut self, channel: u64) -> Result<(), AllocError>
        ensures { OnOk result (self.new ≡ begun channel self.old) }
    {
        self.outboxes
            .push(channel, Outbox::new(self.alloc, channel))
    }

    /// Queues bytes for a wire, unless nothing more is to be queued for it.
    pub fn queue(&mut self, channel: u64, bytes: &[u8]) -> Result<(), AllocError>
        ensures { OnOk result (self.new ≡ ordered (queues channel bytes.now) self.old) }
    {
        if let Some(place) = self.outboxes.place_of(channel) {
            if let Some(outbox) = self.outboxes.get_mut(place) {
                queue_on(outbox, bytes)?;
            }
        }
        Ok(())
    }

    /// Nothing more will be queued for a wire.
    pub fn close(&mut self, channel: u64)
        ensures { self.new ≡ ordered (closes channel) self.old }
    {
        if let Some(place) = self.outboxes.place_of(channel) {
            if let Some(outbox) = self.outboxes.get_mut(place) {
                outbox.close();
            }
        }
    }

    /// Another wire takes the place of this one: what is queued is dropped, and nothing more will be queued.
    pub fn leave(&mut self, channel: u64)
        ensures { self.new ≡ ordered (leaves channel) self.old }
    {
        if let Some(place) = self.outboxes.place_of(channel) {
            if let Some(outbox) = self.outboxes.get_mut(place) {
                outbox.drop_queued();
            }
        }
    }

    /// Puts what is queued, wire by wire in the order of their channels, and shuts and forgets those that are done with.
    pub fn flush<W: Wires>(&mut self, wires: &mut W) -> Result<(), AllocError>
        ensures ok { OnOk result (Makes (FlushesKept its_own self.old self.new)
            (W.seen wires.old) (W.seen wires.new)) }
        ensures err { OnErr result (Makes (GivesUpAll its_own self.old)
            (W.seen wires.old) (W.seen wires.new)) }
    {
        flush_rows(&mut self.outboxes, wires)
    }
}

/// Queues bytes, unless nothing more is to be queued.
fn queue_on(outbox: &mut Outbox, bytes: &[u8]) -> Result<(), AllocError>
    ensures { OnOk result (outbox.new ≡ queued_unless_closed bytes.now outbox.old) }
{
    if outbox.is_closed() {
        return Ok(());
    }
    outbox.queue(bytes)
}
