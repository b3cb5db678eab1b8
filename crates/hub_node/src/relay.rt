//! The ends of a hub, and what comes on them and goes out.
ghost use Rattle.std.specs.Prelude.{◌≡◌, ◌||◌, true, false, Ok, IfOk, OnOk, length};
ghost use Rattle.channel_core.specs.Receiving.{delivered as end_delivered, ended as end_ended, waiting_in};
ghost use Rattle.channel_list.specs.Channels.{live_count};
ghost use Rattle.hub_node.specs.Relay.{after_giving_at, all_closed, begun, came_at, ended_at, given_at, hub_services, is_live_at, is_refused, new_relay, opened_at, upper_services, waiting_at};

use crate::board::{Board, MOST_LIVE};
use crate::side::HubSide;
use crate::waiting::Tag;
use channel_core::{End, Outgoing};
use channel_list::{Channels, Numbers, new_channel};
use std::alloc::{AllocError, Global};
use std::marker::Model;

/// The data of the Hello above: the one service that a hub has itself.
const UPPER_HELLO: &[u8] = b"[\"Locator\"]\0";

/// The data of the Hello on a lower channel: the services of the agent above.
const LOWER_HELLO: &[u8] =
    b"[\"Locator\",\"RunControl\",\"Breakpoints\",\"Memory\",\"Registers\",\"Processes\",\"Trace\"]\0";

/// The upper end and whether its peer's Hello has come, the lower channels and the numbers that were given to them, and
/// what is kept of the commands that are pending above.
#[derive(Drop)]
pub struct Relay {
    pub(crate) alloc: Global,
    pub(crate) upper: End<Tag>,
    pub(crate) bound: bool,
    pub(crate) lowers: Channels,
    pub(crate) numbers: Numbers,
    pub(crate) board: Board,
}

impl Model for Relay {
    ghost use Rattle.hub_node.specs.RelayValue.{RelayValue};

    ghost Value = { RelayValue };

    ghost view = { λ r. record { upper = r.upper; is_bound = r.bound; lowers = r.lowers; numbers = r.numbers; board = r.board } };
}

impl Relay {
    /// With its Hello above, and no lower channel.
    #[tactic(auto, unfolding(crate::specs::Relay::upper_services))]
    pub fn new(alloc: Global) -> Result<Relay, AllocError>
        ensures { IfOk result (λ relay. relay ≡ new_relay) }
    {
        Ok(Relay {
            alloc,
            upper: End::new(alloc, UPPER_HELLO, None)?,
            bound: false,
            lowers: Channels::new(alloc),
            numbers: Numbers::new(alloc),
            board: Board::new(alloc)?,
        })
    }

    /// Opens a lower channel, where it may.
    #[tactic(auto, unfolding(crate::specs::Relay::opened_at))]
    pub fn open(&mut self, j: u64) -> Result<bool, AllocError>
        ensures opened { IfOk result (λ did. (did, self.new) ≡ opened_at j self.old) }
        ensures refused { is_refused j self.old ≡ true → result ≡ Ok false }
    {
        if self.is_refused(j) {
            return Ok(false);
        }
        self.begin(j)?;
        Ok(true)
    }

    fn is_refused(&self, j: u64) -> bool
        ensures { result ≡ is_refused j self.now }
    {
        self.numbers.has(j)
            || self.lowers.live_count() >= MOST_LIVE
            || self.upper.state().is_closed()
    }

    /// The channel begins; those that are done with are forgotten.
    #[tactic(auto, unfolding(crate::specs::Relay::begun, crate::specs::Relay::hub_services))]
    fn begin(&mut self, j: u64) -> Result<(), AllocError>
        ensures { OnOk result (self.new ≡ begun j self.old) }
    {
        self.lowers
            .open(new_channel(self.alloc, j, LOWER_HELLO, None)?)?;
        self.numbers.add(j)?;
        self.board.join(j);
        Ok(())
    }

    /// Gives a side the next bytes that came.
    #[tactic(auto, unfolding(crate::specs::Relay::came_at))]
    pub fn deliver(
        &mut self,
        side: HubSide,
        piece: &[u8],
        mark: Option<u64>,
    ) -> Result<(), AllocError>
        ensures { OnOk result (self.new ≡ came_at side piece.now mark self.old) }
    {
        match side {
            HubSide::Above => self.upper.deliver(piece, mark),
            HubSide::Below(j) => match self.lowers.find_mut(j) {
                Some(lower) => lower.come(piece, mark),
                None => Ok(()),
            },
        }
    }

    /// Enters the end of the bytes into the inbox of a side.
    #[tactic(auto, unfolding(crate::specs::Relay::ended_at))]
    pub fn end(&mut self, side: HubSide)
        ensures { self.new ≡ ended_at side self.old }
    {
        match side {
            HubSide::Above => self.upper.ended(),
            HubSide::Below(j) => {
                if let Some(lower) = self.lowers.find_mut(j) {
                    lower.end.ended();
                }
            }
        }
    }

    /// Takes what a side is to send next.
    #[tactic(auto, unfolding(crate::specs::Relay::given_at, crate::specs::Relay::after_giving_at))]
    pub fn take_out(&mut self, side: HubSide) -> Option<Outgoing>
        ensures given { result ≡ given_at side self.old }
        ensures after { self.new ≡ after_giving_at side self.old }
    {
        match side {
            HubSide::Above => self.upper.take_out(),
            HubSide::Below(j) => {
                let lower = self.lowers.find_mut(j)?;
                lower.end.take_out()
            }
        }
    }

    /// Whether a side is there and its end isn't closed.
    pub fn is_live(&self, side: HubSide) -> bool
        ensures { result ≡ is_live_at side self.now }
    {
        match side {
            HubSide::Above => !self.upper.state().is_closed(),
            HubSide::Below(j) => match self.lowers.find(j) {
                Some(lower) => lower.is_open(),
                None => false,
            },
        }
    }

    /// How many entries stand in the inbox of a side.
    #[tactic(auto, unfolding(channel_list::specs::Channels::is_open))]
    pub fn waiting(&self, side: HubSide) -> usize
        ensures value { result ≡ waiting_at side self.now }
        ensures closed { is_live_at side self.now ≡ false → result ≡ 0 }
    {
        match side {
            HubSide::Above => self.upper.waiting(),
            HubSide::Below(j) => match self.lowers.find(j) {
                Some(lower) => lower.end.waiting(),
                None => 0,
            },
        }
    }

    /// Every channel is closed by this side.
    #[tactic(auto, unfolding(crate::specs::Relay::all_closed))]
    pub(crate) fn close(&mut self)
        ensures { self.new ≡ all_closed self.old }
    {
        self.upper.close();
        self.lowers.leave();
    }
}
