//! What the hub has to send is queued for its wires.
ghost use Rattle.std.specs.Prelude.{◌≡◌, IfOk, OnOk, filter};
ghost use Rattle.serving_wires.specs.Going.{DoesAlone};
ghost use Rattle.serving_wires.specs.Rows.{item_at};
ghost use Rattle.hub_serving.specs.Gathering.{bytes_for, emptied, emptied_of, gathered_rows, is_live_line, is_over_at, sent_of, with_sent};

use crate::hub::Hub;
use crate::line::Line;
use hub_node::HubSide;
use serving_wires::{Roster, Sending};
use std::alloc::{AllocError, Global};
use tcf_outside::Octets;

/// Queues what each side has to send, line by line. Behind the end of a side nothing more will be queued, and its line is
/// forgotten.
pub(crate) fn gather(
    alloc: Global,
    hub: &mut Hub,
    lines: &mut Roster<Line>,
    sending: &mut Sending,
) -> Result<(), AllocError>
    ensures lines { OnOk result (lines.new ≡ filter (is_live_line hub.new) lines.old) }
    ensures sends { OnOk result ((peer : _) → DoesAlone peer (gathered_rows lines.old hub.old) hub.new sending.old sending.new) }
{
    gather_all(alloc, hub, lines, sending)?;
    forget_closed(hub, lines);
    Ok(())
}

/// Queues what each side has to send.
fn gather_all(
    alloc: Global,
    hub: &mut Hub,
    lines: &Roster<Line>,
    sending: &mut Sending,
) -> Result<(), AllocError>
    ensures { OnOk result ((peer : _) → DoesAlone peer (gathered_rows lines.now hub.old) hub.new sending.old sending.new) }
{
    for place in 0..lines.len() {
        gather_at(alloc, hub, lines, place, sending)?;
    }
    Ok(())
}

/// Queues what the side of the line at a place has to send.
fn gather_at(
    alloc: Global,
    hub: &mut Hub,
    lines: &Roster<Line>,
    place: usize,
    sending: &mut Sending,
) -> Result<(), AllocError>
    ensures hub { OnOk result (hub.new ≡ emptied_of (item_at place lines.now) hub.old) }
    ensures sending { OnOk result (sending.new ≡ sent_of (item_at place lines.now) hub.old sending.old) }
{
    match lines.get(place) {
        Some(line) => send(alloc, hub, line.side, line.channel, sending),
        None => Ok(()),
    }
}

/// Queues what a side has to send.
fn send(
    alloc: Global,
    hub: &mut Hub,
    side: HubSide,
    channel: u64,
    sending: &mut Sending,
) -> Result<(), AllocError>
    ensures hub { OnOk result (hub.new ≡ emptied side hub.old) }
    ensures sending { OnOk result (sending.new ≡ with_sent side channel hub.old sending.old) }
{
    let is_last = !hub.live(side);
    let bytes = take_out(alloc, hub, side)?;
    sending.queue(channel, bytes.as_slice())?;
    if is_last {
        sending.close(channel);
    }
    Ok(())
}

/// Takes out all that a side is to send.
fn take_out(alloc: Global, hub: &mut Hub, side: HubSide) -> Result<Octets, AllocError>
    ensures bytes { IfOk result (λ bytes. bytes ≡ bytes_for side hub.old) }
    ensures hub { OnOk result (hub.new ≡ emptied side hub.old) }
{
    let mut bytes = Octets::new(alloc);
    while let Some(outgoing) = hub.take_out(side) {
        bytes.extend(outgoing.bytes.as_slice())?;
    }
    Ok(bytes)
}

/// Forgets the lines of sides that are closed, from the last one on.
fn forget_closed(hub: &Hub, lines: &mut Roster<Line>)
    ensures { lines.new ≡ filter (is_live_line hub.now) lines.old }
{
    let count = lines.len();
    for done in 0..count {
        let place = count - 1 - done;
        if is_over_at(hub, lines, place) {
            lines.remove(place);
        }
    }
}

/// Whether the side of the line at a place is closed.
fn is_over_at(hub: &Hub, lines: &Roster<Line>, place: usize) -> bool
    ensures { result ≡ is_over_at place hub.now lines.now }
{
    match lines.get(place) {
        Some(line) => !hub.live(line.side),
        None => false,
    }
}
