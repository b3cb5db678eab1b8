//! A hop between two nodes.
ghost use Rattle.std.specs.Prelude.{◌≡◌, ◌∷◌, ◌==◌, [], length, IfOk, OnOk};
ghost use Rattle.chain_route.specs.Hop.{arrived_at, connected, lane_to, no_hop, refused, sent_down, sent_from, sent_up};
ghost use Rattle.chain_route.specs.Lane.{arriving};

use crate::lane::Lane;
use channel_core::Outgoing;
use std::alloc::{AllocError, Global};
use value_node::Side;

/// A connection, from its making until it is cut, and what is in flight on it.
#[derive(Drop)]
pub struct Hop {
    pub is_live: bool,
    /// The agent refused the channel above it: nothing goes up.
    pub is_refused: bool,
    pub up: Lane,
    pub down: Lane,
}

impl Hop {
    /// No connection yet.
    pub fn new(alloc: Global) -> Self
        ensures { result ≡ no_hop }
    {
        Hop {
            is_live: false,
            is_refused: false,
            up: Lane::new(alloc),
            down: Lane::new(alloc),
        }
    }

    /// A connection is made, with nothing in flight.
    pub fn connect(&mut self)
        ensures { self.new ≡ connected [] }
    {
        self.up.clear();
        self.down.clear();
        self.is_live = true;
        self.is_refused = false;
    }

    /// A connection is made to the agent, which refused the channel: the end of the stream comes down, and what is queued to
    /// go up is dropped.
    pub fn refuse(&mut self) -> Result<(), AllocError>
        ensures { OnOk result (self.new ≡ refused) }
    {
        self.connect();
        self.is_refused = true;
        self.down.queue_end()
    }

    /// The connection is lost, with all that is in flight.
    pub fn cut(&mut self)
        ensures { self.new ≡ no_hop }
    {
        self.up.clear();
        self.down.clear();
        self.is_live = false;
        self.is_refused = false;
    }

    /// What the lower node queues is in flight at once; it is dropped where the hop isn't live, and where the agent refused
    /// the channel.
    pub fn send_up(&mut self, out: Outgoing) -> Result<(), AllocError>
        ensures { OnOk result (self.new ≡ sent_up (out ∷ []) self.old) }
    {
        if self.is_live && !self.is_refused {
            self.up.queue(out)?;
        }
        Ok(())
    }

    /// What the upper node queues is in flight at once; it is dropped where the hop isn't live.
    pub fn send_down(&mut self, out: Outgoing) -> Result<(), AllocError>
        ensures { OnOk result (self.new ≡ sent_down (out ∷ []) self.old) }
    {
        if self.is_live {
            self.down.queue(out)?;
        }
        Ok(())
    }

    /// What a value-add queues on this side of it is in flight at once.
    pub fn send_from(&mut self, side: Side, out: Outgoing) -> Result<(), AllocError>
        ensures { OnOk result (self.new ≡ sent_from side (out ∷ []) self.old) }
    {
        match side {
            Side::Below => self.send_down(out),
            Side::Above => self.send_up(out),
        }
    }

    /// The next so many bytes in flight arrive at this side of a value-add.
    pub fn arrive_at(&mut self, side: Side, count: usize) -> Result<Vec<Outgoing>, AllocError>
        ensures parts { IfOk result (λ parts. parts.items ≡ arriving count (lane_to side self.old)) }
        ensures stays { OnOk result (self.new ≡ arrived_at side count self.old) }
    {
        match side {
            Side::Below => self.up.arrive(count),
            Side::Above => self.down.arrive(count),
        }
    }

    /// Whether nothing is in flight to this side of a value-add.
    pub fn is_empty_to(&self, side: Side) -> bool
        ensures { result ≡ (length (lane_to side self.now) == 0) }
    {
        match side {
            Side::Below => self.up.is_empty(),
            Side::Above => self.down.is_empty(),
        }
    }
}
