//! The hub.
ghost use Rattle.std.specs.Prelude.{ℕ, ◌≡◌, ◌↔◌, true, false, None, Ok, IfOk, OnErr, OnOk, length};
ghost use Rattle.link_pool.specs.Lists.{item_of};
ghost use Rattle.hub_node.specs.Hub.{after_giving, came, ended, given, new_hub, opened, turned};
ghost use Rattle.hub_node.specs.Relay.{TakesNothing, is_live_at, is_refused, waiting_at};

use crate::relay::Relay;
use crate::side::HubSide;
use channel_core::Outgoing;
use std::alloc::{AllocError, Global};
use std::marker::Model;

/// A hub, with one end above and an end for each lower channel. Contracts see the ends, whether the Hello from above has
/// come, the numbers that were given to lower channels, and what is kept of the commands that are pending above; and whether
/// memory was wanting in a call: then the hub is spent, each later call that may take memory answers want of it again, and
/// the others change nothing.
///
/// Neither these contracts nor the laws of this crate ask anything of the bytes that come, from below or from above.
#[derive(Drop)]
pub struct HubNode {
    relay: Relay,
    spent: bool,
}

impl Model for HubNode {
    ghost use Rattle.hub_node.specs.HubValue.{HubValue};

    ghost Value = { HubValue };

    ghost view = { λ h. record { relay = h.relay; is_spent = h.spent } };
}

impl HubNode {
    /// Makes a hub with its Hello above, and no lower channel.
    pub fn new(alloc: Global) -> Result<HubNode, AllocError>
        ensures { IfOk result (λ hub. hub ≡ new_hub) }
    {
        Ok(HubNode {
            relay: Relay::new(alloc)?,
            spent: false,
        })
    }

    /// Opens a lower channel under this number, with the hub's Hello to be sent, and answers whether it did: not where the
    /// number was given before, where 64 lower channels are live, or where the hub is closed; then nothing changes, and that
    /// takes no memory.
    pub fn opened(&mut self, j: u64) -> Result<bool, AllocError>
        ensures opened { IfOk result (λ did. (did, self.new) ≡ opened j self.old) }
        ensures refused { self.old.is_spent ≡ false → is_refused j self.old.relay ≡ true → result ≡ Ok false }
        ensures fresh { OnOk result (self.old.is_spent ≡ false) }
        ensures spent { OnErr result (self.new.is_spent ≡ true) }
    {
        self.begin()?;
        let did = self.relay.open(j)?;
        self.spent = false;
        Ok(did)
    }

    /// Gives a side the next bytes that came, with their mark. Nothing happens on a lower channel that isn't live.
    pub fn deliver(
        &mut self,
        side: HubSide,
        piece: &[u8],
        mark: Option<u64>,
    ) -> Result<(), AllocError>
        ensures came { OnOk result (self.new ≡ came side piece.now mark self.old) }
        ensures fresh { OnOk result (self.old.is_spent ≡ false) }
        ensures spent { OnErr result (self.new.is_spent ≡ true) }
    {
        self.begin()?;
        self.relay.deliver(side, piece, mark)?;
        self.spent = false;
        Ok(())
    }

    /// Enters the end of the bytes into the inbox of a side. Nothing happens on a side that isn't live.
    pub fn ended(&mut self, side: HubSide)
        ensures { self.new ≡ ended side self.old }
    {
        if !self.spent {
            self.relay.end(side);
        }
    }

    /// Takes the oldest entry of the inbox of a side, and answers whether there was one to take: `false` exactly where that
    /// side isn't live, its inbox is empty, or, below, where the upper end isn't Live or has 1,024 commands pending; that
    /// takes no memory. A command that is sent above is kept under a key that nothing has.
    pub fn turn(&mut self, side: HubSide) -> Result<bool, AllocError>
        ensures turned { IfOk result (λ did. (key : ℕ) × (item_of key self.old.relay.board.lists ≡ None) × ((did, self.new) ≡ turned key side self.old)) }
        ensures nothing { IfOk result (λ did. (did ≡ false) ↔ TakesNothing side self.old.relay) }
        ensures idle { self.old.is_spent ≡ false → TakesNothing side self.old.relay → result ≡ Ok false }
        ensures fresh { OnOk result (self.old.is_spent ≡ false) }
        ensures spent { OnErr result (self.new.is_spent ≡ true) }
    {
        self.begin()?;
        let did = self.relay.turn(side)?;
        self.spent = false;
        Ok(did)
    }

    /// Takes the next message that a side is to send, or the end of the stream, escaped; `None` exactly where nothing is
    /// queued there, or the hub is spent.
    pub fn take_out(&mut self, side: HubSide) -> Option<Outgoing>
        ensures given { result ≡ given side self.old }
        ensures after { self.new ≡ after_giving side self.old }
    {
        if self.spent {
            return None;
        }
        self.relay.take_out(side)
    }

    /// Whether a side is there and its end isn't closed.
    pub fn live(&self, side: HubSide) -> bool
        ensures { result ≡ is_live_at side self.now.relay }
    {
        self.relay.is_live(side)
    }

    /// How many entries stand in the inbox of a side; none where the side isn't live.
    pub fn waiting(&self, side: HubSide) -> usize
        ensures value { result ≡ waiting_at side self.now.relay }
        ensures closed { is_live_at side self.now.relay ≡ false → result ≡ 0 }
    {
        self.relay.waiting(side)
    }

    /// How many commands are pending above.
    pub fn pending(&self) -> usize
        ensures { result ≡ length self.now.relay.upper.pending }
    {
        self.relay.upper.pending()
    }

    /// Begins a call that may meet want of memory: the hub is spent until the call is done.
    fn begin(&mut self) -> Result<(), AllocError>
        ensures began { OnOk result (self.new ≡ record self.old { is_spent = true }) }
        ensures fresh { OnOk result (self.old.is_spent ≡ false) }
        ensures met { OnErr result (self.old.is_spent ≡ true) }
        ensures spent { self.new.is_spent ≡ true }
    {
        if self.spent {
            return Err(AllocError);
        }
        self.spent = true;
        Ok(())
    }
}
