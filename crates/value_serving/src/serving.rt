//! The value-adds that are served, and what each event makes of them.
ghost use Rattle.std.specs.Prelude.{◌≡◌, IfOk, OnErr, OnOk};
ghost use Rattle.serving_wires.specs.Going.{Does, DoesPart};
ghost use Rattle.value_serving.specs.Heeding.{HeedsOn, HeedsOpening, HeedsPartOn};
ghost use Rattle.value_serving.specs.Serving.{above_of, behaviour, heard_at, kept_unless, new_serving, is_above_at, is_over_at, wire_of};

use crate::add::{Add, is_over};
use crate::passing::{greet, hear};
use serving_wires::{Came, END_OF_STREAM, Roster, Sending, Served};
use std::alloc::{AllocError, Global};
use std::marker::Model;
use tcf_values::Text;
use tcf_wires::{WireEvent, Wires};
use value_node::Side;

/// The most value-adds.
const MOST: usize = 64;

/// The value-adds that aren't closed, one for each connection that came.
#[derive(Drop)]
pub struct Serving {
    alloc: Global,
    peer: Text,
    adds: Roster<Add>,
}

impl Model for Serving {
    ghost use Rattle.value_serving.specs.ServingValue.{ServingValue, serving_code};
    ghost use Rattle.value_serving.specs.contracts.add.Add as one_add;

    ghost Value = { ServingValue };

    ghost coded = { serving_code one_add.the_row.coded };

    ghost view = { λ s. record { peer = s.peer; adds = s.adds } };
}

impl Serving {
    pub fn new(alloc: Global, peer: &str) -> Result<Serving, AllocError>
        ensures { IfOk result (λ serving. serving ≡ new_serving peer.now) }
    {
        Ok(Serving {
            alloc,
            peer: Text::from_str(alloc, peer)?,
            adds: Roster::new(alloc),
        })
    }

    /// A connection came. While 64 value-adds are there it is sent the end of the stream alone.
    fn open(&mut self, channel: u64, sending: &mut Sending) -> Result<(), AllocError>
        ensures peer { OnOk result (self.new.peer ≡ self.old.peer) }
        ensures ok { OnOk result (HeedsOpening channel self.old self.new sending.old sending.new) }
    {
        sending.begin(channel)?;
        if self.adds.len() >= MOST {
            sending.queue(channel, END_OF_STREAM)?;
            sending.close(channel);
            return Ok(());
        }
        let add = greet(self.alloc, &self.peer, channel, sending)?;
        self.adds.push(channel, add)
    }

    /// Something came on a channel. On one of no value-add it is dropped.
    fn hear<W: Wires>(
        &mut self,
        channel: u64,
        came: Came,
        sending: &mut Sending,
        wires: &mut W,
    ) -> Result<(), AllocError>
        ensures peer { OnOk result (self.new.peer ≡ self.old.peer) }
        ensures ok { OnOk result (HeedsOn channel came self.old self.new sending.old sending.new
            (W.seen wires.old) (W.seen wires.new)) }
        ensures err { OnErr result (HeedsPartOn channel came self.old sending.old
            (W.seen wires.old) (W.seen wires.new)) }
    {
        if let Some((place, side)) = wire_of(&self.adds, channel) {
            hear_at(
                self.alloc,
                &mut self.adds,
                place,
                side,
                came,
                sending,
                wires,
                self.peer.as_str(),
            )?;
            forget_closed(&mut self.adds, place);
        }
        Ok(())
    }
}

impl Served for Serving {
    ghost behaviour = { behaviour };

    /// An event comes: it goes to its value-add, all messages that can be taken are taken, and what the value-add has to send
    /// is queued.
    #[tactic(auto, unfolding(crate::specs::Serving::handled))]
    fn heed<W: Wires>(
        &mut self,
        event: WireEvent,
        sending: &mut Sending,
        wires: &mut W,
    ) -> Result<(), AllocError> {
        match event {
            WireEvent::Opened(channel) => self.open(channel, sending),
            WireEvent::Piece(channel, bytes) => {
                self.hear(channel, Came::Piece(bytes), sending, wires)
            }
            WireEvent::Ended(channel) | WireEvent::Lost(channel) => {
                self.hear(channel, Came::End, sending, wires)
            }
            WireEvent::Idle | WireEvent::Stop => Ok(()),
        }
    }
}

/// Something came on a side of the value-add at a place.
fn hear_at<W: Wires>(
    alloc: Global,
    adds: &mut Roster<Add>,
    place: usize,
    side: Side,
    came: Came,
    sending: &mut Sending,
    wires: &mut W,
    peer: &str,
) -> Result<(), AllocError>
    ensures ok { OnOk result (Does peer.now (heard_at place side came adds.old) adds.new sending.old sending.new
        (W.seen wires.old) (W.seen wires.new)) }
    ensures err { OnErr result (DoesPart peer.now (heard_at place side came adds.old) sending.old
        (W.seen wires.old) (W.seen wires.new)) }
{
    match adds.get_mut(place) {
        Some(add) => hear(alloc, add, side, came, sending, wires, peer),
        None => Ok(()),
    }
}

/// Forgets the value-add at a place if it is closed.
fn forget_closed(adds: &mut Roster<Add>, place: usize)
    ensures { adds.new ≡ kept_unless (is_over_at place adds.old) place adds.old }
{
    if is_closed(adds, place) {
        adds.remove(place);
    }
}

/// Whether the value-add at a place is closed.
fn is_closed(adds: &Roster<Add>, place: usize) -> bool
    ensures { result ≡ is_over_at place adds.now }
{
    match adds.get(place) {
        Some(add) => is_over(add.node.bind(), Side::Below),
        None => false,
    }
}

/// The value-add whose wire has this channel, and on which side it is.
#[tactic(auto, unfolding(crate::specs::Serving::wire_of))]
fn wire_of(adds: &Roster<Add>, channel: u64) -> Option<(usize, Side)>
    ensures { result ≡ wire_of channel adds.now }
{
    if let Some(place) = adds.place_of(channel) {
        return Some((place, Side::Below));
    }
    match above_of(adds, channel) {
        Some(place) => Some((place, Side::Above)),
        None => None,
    }
}

/// The place of the value-add whose wire above has this channel.
fn above_of(adds: &Roster<Add>, channel: u64) -> Option<usize>
    ensures { result ≡ above_of channel adds.now }
{
    for place in 0..adds.len() {
        if is_above(adds, place, channel) {
            return Some(place);
        }
    }
    None
}

/// Whether the wire above of the value-add at a place has this channel.
fn is_above(adds: &Roster<Add>, place: usize, channel: u64) -> bool
    ensures { result ≡ is_above_at channel place adds.now }
{
    match adds.get(place) {
        Some(add) => add.above == Some(channel),
        None => false,
    }
}
