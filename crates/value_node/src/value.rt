//! The value-add.
ghost use Rattle.std.specs.Prelude.{◌≡◌, ◌↔◌, true, false, IfOk, Ok, OnErr, OnOk};
ghost use Rattle.value_node.specs.Usable.{IsUsable};
ghost use Rattle.value_node.specs.Value.{TakesNothing, after_giving, awaits, came, connect_failed, connected, ended, given, new_value, pending_on, turned, waiting_at};

use crate::relay::Relay;
use crate::states::{Bind, Side, ValueTurn};
use channel_core::Outgoing;
use std::alloc::{AllocError, Global};
use std::marker::Model;
use tcf_values::Text;

/// A value-add, with its lower end and, from its first connection on, an upper one. Contracts see its peer, where it stands
/// and both ends, and whether memory was wanting in a call: then the value-add is spent, each later call that may take
/// memory answers want of it again, and the others do nothing.
///
/// Neither these contracts nor the laws of this crate ask anything of the bytes that come, from below or from above.
#[derive(Drop)]
pub struct ValueNode {
    alloc: Global,
    relay: Relay,
    spent: bool,
}

impl Model for ValueNode {
    ghost use Rattle.value_node.specs.ValueValue.{ValueValue, value_code};
    ghost use Rattle.value_node.specs.contracts.relay.Relay.{the_row};

    ghost Value = { ValueValue };

    ghost coded = { value_code the_row.coded };

    ghost use Rattle.std.specs.Prelude.{◌≡◌, false};
    ghost use Rattle.value_node.specs.Usable.{IsUsable};

    ghost view = { λ v. record { relay = v.relay; is_spent = v.spent } };

    ghost invariant = { λ v. v.spent ≡ false → IsUsable v.relay };
}

impl ValueNode {
    /// Makes an unbound value-add that can be redirected to this peer, with its Hello below. A peer whose name has more
    /// than 65,536 bytes is listed by no answer, and matched by no redirect.
    pub fn new(alloc: Global, peer: Text) -> Result<ValueNode, AllocError>
        ensures { IfOk result (λ value. value ≡ new_value peer) }
    {
        Ok(ValueNode {
            alloc,
            relay: Relay::new(alloc, peer)?,
            spent: false,
        })
    }

    /// Gives a side the next bytes that came, with their mark. Nothing happens on a closed end, and above before the first
    /// connection.
    pub fn deliver(&mut self, side: Side, piece: &[u8], mark: Option<u64>) -> Result<(), AllocError>
        ensures came { OnOk result (self.new ≡ came side piece.now mark self.old) }
        ensures fresh { OnOk result (self.old.is_spent ≡ false) }
        ensures spent { OnErr result (self.new.is_spent ≡ true) }
    {
        self.begin()?;
        self.relay.deliver(side, piece, mark)?;
        self.spent = false;
        Ok(())
    }

    /// Enters the end of the bytes into the inbox of a side. Nothing happens on a closed end, and above before the first
    /// connection.
    pub fn ended(&mut self, side: Side)
        ensures { self.new ≡ ended side self.old }
    {
        if !self.spent {
            self.relay.end(side);
        }
    }

    /// Takes the oldest entry of the inbox of a side. `Nothing` exactly where there is none, where the value-add is closed,
    /// and, below, while it is Opening or has 1,024 commands pending above; that takes no memory. After `Connect` it waits
    /// for `connected` or `connect_failed`.
    pub fn turn(&mut self, side: Side) -> Result<ValueTurn, AllocError>
        ensures turned { IfOk result (λ turn. (turn, self.new) ≡ turned side self.old) }
        ensures nothing { IfOk result (λ turn. (turn ≡ ValueTurn.Nothing) ↔ TakesNothing side self.old.relay) }
        ensures idle { self.old.is_spent ≡ false → TakesNothing side self.old.relay → result ≡ Ok ValueTurn.Nothing }
        ensures fresh { OnOk result (self.old.is_spent ≡ false) }
        ensures spent { OnErr result (self.new.is_spent ≡ true) }
    {
        self.begin()?;
        let turn = self.relay.turn(self.alloc, side)?;
        self.spent = false;
        Ok(turn)
    }

    /// A connection to the peer was made: the upper end begins anew, with its Hello. What an earlier one had to send is
    /// dropped. Nothing happens where the value-add doesn't wait for a connection.
    pub fn connected(&mut self) -> Result<(), AllocError>
        ensures connected { OnOk result (self.new ≡ connected self.old) }
        ensures fresh { OnOk result (self.old.is_spent ≡ false) }
        ensures spent { OnErr result (self.new.is_spent ≡ true) }
    {
        self.begin()?;
        if self.relay.awaits() {
            self.relay.connect(self.alloc)?;
        }
        self.spent = false;
        Ok(())
    }

    /// No connection to the peer was made: the redirect is answered by code 5, and the value-add is unbound again. Nothing
    /// happens where it doesn't wait for a connection.
    pub fn connect_failed(&mut self) -> Result<(), AllocError>
        ensures failed { OnOk result (self.new ≡ connect_failed self.old) }
        ensures fresh { OnOk result (self.old.is_spent ≡ false) }
        ensures spent { OnErr result (self.new.is_spent ≡ true) }
    {
        self.begin()?;
        if self.relay.awaits() {
            self.relay.fail_redirect(self.alloc)?;
        }
        self.spent = false;
        Ok(())
    }

    /// Takes the next message that a side is to send, or the end of the stream, escaped; `None` exactly where nothing is
    /// queued there, or the value-add is spent.
    pub fn take_out(&mut self, side: Side) -> Option<Outgoing>
        ensures given { result ≡ given side self.old }
        ensures after { self.new ≡ after_giving side self.old }
    {
        if self.spent {
            return None;
        }
        self.relay.take_out(side)
    }

    /// Where the value-add stands.
    pub fn bind(&self) -> Bind
        ensures { result ≡ self.now.relay.bind }
    {
        self.relay.bind
    }

    /// Whether it waits for a connection to its peer: while it is Opening and has no upper end that is open.
    pub fn awaits(&self) -> bool
        ensures { result ≡ awaits self.now.relay }
    {
        self.relay.awaits()
    }

    /// How many entries stand in the inbox of a side; none on a closed end, and above before the first connection.
    pub fn waiting(&self, side: Side) -> usize
        ensures { result ≡ waiting_at side self.now.relay }
    {
        self.relay.waiting(side)
    }

    /// How many commands are pending above.
    pub fn pending(&self) -> usize
        ensures { result ≡ pending_on self.now.relay.upper }
    {
        self.relay.pending()
    }

    /// Begins a call that may meet want of memory: the value-add is spent until the call is done.
    fn begin(&mut self) -> Result<(), AllocError>
        ensures began { OnOk result (self.new ≡ record self.old { is_spent = true }) }
        ensures usable { OnOk result (IsUsable self.new.relay) }
        ensures fresh { OnOk result (self.old.is_spent ≡ false) }
        ensures met { OnErr result (self.old.is_spent ≡ true) }
        ensures spent { self.new.is_spent ≡ true }
    {
        if self.spent {
            return Err(AllocError);
        }
        self.spent = true;
        Ok(())
    }
}
