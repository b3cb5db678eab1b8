//! What came passes through the hub: pieces into its inboxes, and messages out of them.
ghost use Rattle.std.specs.Prelude.{◌≡◌, ◌<◌, ◌+◌, ◌^◌, IfOk, OnOk, drop};
ghost use Rattle.serving_wires.specs.Rows.{item_at};
ghost use Rattle.hub_serving.specs.Passing.{can_give_at, first_to_give, given_at, passed_on, room_made, taken_once, turned_from, turned_of, turned_on};

use crate::hub::Hub;
use crate::line::Line;
use hub_node::HubSide;
use serving_wires::Roster;
use std::alloc::AllocError;

/// Takes all messages that can be taken, in rounds: in each round from above until nothing is left there, and then one message
/// of each lower channel, in rising order of the channels. What waits is given to the hub as soon as there is room for it.
pub(crate) fn pass_on(hub: &mut Hub, lines: &mut Roster<Line>) -> Result<(), AllocError>
    ensures { OnOk result ((hub.new, lines.new) ≡ passed_on lines.old hub.old) }
{
    let mut next = make_room(hub, lines, 0)?;
    while let Some(place) = first_to_give(hub, lines) {
        give_at(hub, lines, place)?;
        next = make_room(hub, lines, next)?;
    }
    Ok(())
}

/// The place of the first line of which what waits first can be given.
fn first_to_give(hub: &Hub, lines: &Roster<Line>) -> Option<usize>
    ensures { result ≡ first_to_give hub.now lines.now }
{
    for place in 0..lines.len() {
        if can_give_at(hub, lines, place) {
            return Some(place);
        }
    }
    None
}

/// Whether what waits first of the line at a place can be given.
fn can_give_at(hub: &Hub, lines: &Roster<Line>, place: usize) -> bool
    ensures { result ≡ can_give_at place hub.now lines.now }
{
    match lines.get(place) {
        Some(line) => line.can_give(hub),
        None => false,
    }
}

/// Gives the hub what waits first of the line at a place.
fn give_at(hub: &mut Hub, lines: &mut Roster<Line>, place: usize) -> Result<(), AllocError>
    ensures { OnOk result ((hub.new, lines.new) ≡ given_at place lines.old hub.old) }
{
    match lines.get_mut(place) {
        Some(line) => line.give(hub),
        None => Ok(()),
    }
}

/// Takes messages until something that waits can be given, or none can be taken any more. `next` is the place of the line
/// that has its turn next in the round, before it and behind it.
fn make_room(hub: &mut Hub, lines: &Roster<Line>, next: usize) -> Result<usize, AllocError>
    ensures { IfOk result (λ place. (place, hub.new) ≡ room_made next lines.now hub.old) }
{
    let mut next = next;
    while first_to_give(hub, lines).is_none() {
        match take_one(hub, lines, next)? {
            Some(place) => next = place,
            None => break,
        }
    }
    Ok(next)
}

/// Takes a message of the first line that has one, from this place on and else from the first line on. Answers the place of
/// the line that has its turn next, or `None` where no message can be taken.
fn take_one(hub: &mut Hub, lines: &Roster<Line>, next: usize) -> Result<Option<usize>, AllocError>
    ensures { IfOk result (λ place. (place, hub.new) ≡ taken_once next lines.now hub.old) }
{
    match turn_from(hub, lines, next)? {
        Some(place) => Ok(Some(place)),
        None => turn_from(hub, lines, 0),
    }
}

/// Takes a message of the first line from this place on that has one.
fn turn_from(hub: &mut Hub, lines: &Roster<Line>, first: usize) -> Result<Option<usize>, AllocError>
    ensures { IfOk result (λ place. (place, hub.new) ≡ turned_from first (drop first lines.now) hub.old) }
{
    for place in first..lines.len() {
        let next = turn_at(hub, lines, place)?;
        if next.is_some() {
            return Ok(next);
        }
    }
    Ok(None)
}

/// Takes a message of the line at a place, if it has one. Behind a message from above the same line has its turn again; behind
/// one of a lower channel the next one has.
fn turn_at(hub: &mut Hub, lines: &Roster<Line>, place: usize) -> Result<Option<usize>, AllocError>
    requires { place + 1 < 2 ^ 64 }
    ensures { IfOk result (λ next. (next, hub.new) ≡ turned_of place (item_at place lines.now) hub.old) }
{
    match lines.get(place) {
        Some(line) => turn(hub, line.side, place),
        None => Ok(None),
    }
}

/// Takes a message of a side whose line stands at this place.
fn turn(hub: &mut Hub, side: HubSide, place: usize) -> Result<Option<usize>, AllocError>
    requires { place + 1 < 2 ^ 64 }
    ensures { IfOk result (λ next. (next, hub.new) ≡ turned_on side place hub.old) }
{
    if !hub.turn(side)? {
        return Ok(None);
    }
    match side {
        HubSide::Above => Ok(Some(place)),
        HubSide::Below(_) => Ok(Some(place + 1)),
    }
}
