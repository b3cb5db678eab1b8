//! The two ends of a value-add, and what is done with what comes at them.
ghost use Rattle.std.specs.Prelude.{◌≡◌, false, IfOk, OnOk, option_map};
ghost use Rattle.value_node.specs.Usable.{IsUsable};
ghost use Rattle.value_node.specs.Value.{after_giving_at, awaits, both_closed, came_at, connected_to, ended_at, given_at, new_relay, pending_on, value_services, waiting_at};

use crate::states::{Bind, Side};
use crate::upper::Upper;
use channel_core::{End, EndState, Outgoing};
use std::alloc::{AllocError, Global};
use tcf_outside::Octets;
use tcf_values::Text;
use value_store::Store;

/// The data of a value-add's Hello: the one service that it has itself.
const HELLO: &[u8] = b"[\"Locator\"]\0";

/// The two ends of a value-add, where it stands, and what it knows. It sends no commands below, so the tags there say nothing.
#[derive(Drop)]
pub struct Relay {
    pub(crate) peer: Text,
    pub(crate) bind: Bind,
    pub(crate) lower: End<()>,
    /// None before the first connection.
    pub(crate) upper: Option<Upper>,
    /// The token of the redirect that is being done.
    pub(crate) redirect: Option<Octets>,
    pub(crate) store: Store,
}

impl Relay {
    /// Unbound, with its Hello below.
    #[tactic(auto, unfolding(crate::specs::Value::value_services))]
    pub fn new(alloc: Global, peer: Text) -> Result<Relay, AllocError>
        ensures new { IfOk result (λ relay. relay ≡ new_relay peer) }
        ensures usable { IfOk result IsUsable }
    {
        let lower = End::new(alloc, HELLO, None)?;
        let store = Store::new(alloc)?;
        Ok(Relay {
            peer,
            bind: Bind::Unbound,
            lower,
            upper: None,
            redirect: None,
            store,
        })
    }

    /// The upper end begins anew.
    #[tactic(auto, unfolding(crate::specs::Value::value_services))]
    pub fn connect(&mut self, alloc: Global) -> Result<(), AllocError>
        requires usable { IsUsable self.old }
        ensures connected { OnOk result (self.new ≡ connected_to self.old) }
        ensures usable { OnOk result (IsUsable self.new) }
    {
        let upper = Upper::new(alloc, HELLO)?;
        self.upper = Some(upper);
        Ok(())
    }

    /// Gives a side the next bytes that came.
    pub fn deliver(&mut self, side: Side, piece: &[u8], mark: Option<u64>) -> Result<(), AllocError>
        requires usable { IsUsable self.old }
        ensures came { OnOk result (self.new ≡ came_at side piece.now mark self.old) }
        ensures usable { OnOk result (IsUsable self.new) }
    {
        match side {
            Side::Below => self.lower.deliver(piece, mark),
            Side::Above => match &mut self.upper {
                Some(upper) => upper.deliver(piece, mark),
                None => Ok(()),
            },
        }
    }

    /// The bytes of a side have ended.
    pub fn end(&mut self, side: Side)
        requires usable { IsUsable self.old }
        ensures ended { self.new ≡ ended_at side self.old }
        ensures usable { IsUsable self.new }
    {
        match side {
            Side::Below => self.lower.ended(),
            Side::Above => {
                if let Some(upper) = &mut self.upper {
                    upper.ended();
                }
            }
        }
    }

    /// Closes each side that isn't closed.
    pub fn close(&mut self)
        requires usable { IsUsable self.old }
        ensures closed { self.new ≡ both_closed self.old }
        ensures usable { IsUsable self.new }
    {
        self.lower.close();
        if let Some(upper) = &mut self.upper {
            upper.close();
        }
        self.bind = Bind::Closed;
    }

    /// Takes what a side is to send next.
    pub fn take_out(&mut self, side: Side) -> Option<Outgoing>
        requires usable { IsUsable self.old }
        ensures given { result ≡ given_at side self.old }
        ensures after { self.new ≡ after_giving_at side self.old }
        ensures usable { IsUsable self.new }
    {
        match side {
            Side::Below => self.lower.take_out(),
            Side::Above => self.upper.as_mut()?.take_out(),
        }
    }

    /// Whether it waits for a connection to its peer.
    pub fn awaits(&self) -> bool
        ensures { result ≡ awaits self.now }
    {
        self.bind == Bind::Opening
            && match &self.upper {
                Some(upper) => matches!(upper.state(), EndState::Closed(_)),
                None => true,
            }
    }

    /// How many entries stand in a side's inbox.
    pub fn waiting(&self, side: Side) -> usize
        ensures { result ≡ waiting_at side self.now }
    {
        match side {
            Side::Below => self.lower.waiting(),
            Side::Above => match &self.upper {
                Some(upper) => upper.waiting(),
                None => 0,
            },
        }
    }

    /// How many commands are pending above.
    pub fn pending(&self) -> usize
        ensures { result ≡ pending_on self.now.upper }
    {
        match &self.upper {
            Some(upper) => upper.pending(),
            None => 0,
        }
    }
}
