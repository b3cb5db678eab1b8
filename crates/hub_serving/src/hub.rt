//! The hub, as what serves it sees it.
ghost use Rattle.std.specs.Prelude.{◌≡◌, IfOk, None, OnOk};
ghost use Rattle.hub_node.specs.Hub.{after_giving, came, ended, given, new_hub, opened};
ghost use Rattle.hub_node.specs.Relay.{is_live_at, waiting_at};
ghost use Rattle.hub_serving.specs.Numbered.{turned};

use channel_core::Outgoing;
use hub_node::{HubNode, HubSide};
use std::alloc::{AllocError, Global};
use std::marker::Model;

/// A hub. Contracts see one that keeps each command that is pending above under the command's number, whatever key the
/// command has in the pool: what a hub does is the same under any keys, if none is given twice at once.
#[derive(Drop)]
pub struct Hub {
    node: HubNode,
}

impl Model for Hub {
    ghost use Rattle.std.specs.Prelude.{◌≡◌, false};
    ghost use Rattle.hub_node.specs.HubValue.{HubValue};
    ghost use Rattle.hub_serving.specs.Numbered.{GoTogether, numbered};

    ghost Value = { HubValue };

    ghost view = { λ h. numbered h.node };

    ghost invariant = { λ h. h.node.is_spent ≡ false → GoTogether h.node.relay };
}

impl Hub {
    pub fn new(alloc: Global) -> Result<Hub, AllocError>
        ensures { IfOk result (λ hub. hub ≡ new_hub) }
    {
        Ok(Hub {
            node: HubNode::new(alloc)?,
        })
    }

    /// Opens a lower channel under this number, and answers whether it did.
    pub fn opened(&mut self, channel: u64) -> Result<bool, AllocError>
        ensures { IfOk result (λ did. (did, self.new) ≡ opened channel self.old) }
    {
        self.node.opened(channel)
    }

    /// Gives a side the next bytes that came.
    pub fn deliver(&mut self, side: HubSide, piece: &[u8]) -> Result<(), AllocError>
        ensures { OnOk result (self.new ≡ came side piece.now None self.old) }
    {
        self.node.deliver(side, piece, None)
    }

    /// The bytes of a side have ended.
    pub fn ended(&mut self, side: HubSide)
        ensures { self.new ≡ ended side self.old }
    {
        self.node.ended(side)
    }

    /// Takes the oldest message of a side, if it may be taken now. Answers whether there was one.
    pub fn turn(&mut self, side: HubSide) -> Result<bool, AllocError>
        ensures { IfOk result (λ did. (did, self.new) ≡ turned side self.old) }
    {
        self.node.turn(side)
    }

    /// Takes out what a side is to send next.
    pub fn take_out(&mut self, side: HubSide) -> Option<Outgoing>
        ensures given { result ≡ given side self.old }
        ensures after { self.new ≡ after_giving side self.old }
    {
        self.node.take_out(side)
    }

    /// Whether a side is there and isn't closed.
    pub fn live(&self, side: HubSide) -> bool
        ensures { result ≡ is_live_at side self.now.relay }
    {
        self.node.live(side)
    }

    /// How many messages of a side wait.
    pub fn waiting(&self, side: HubSide) -> usize
        ensures { result ≡ waiting_at side self.now.relay }
    {
        self.node.waiting(side)
    }
}
