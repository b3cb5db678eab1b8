//! What came for a value-add passes through it, and a connection is made where it asks for one.
ghost use Rattle.std.specs.Prelude.{◌≡◌, IfOk, OnErr, OnOk};
ghost use Rattle.value_serving.specs.Adds.{emptied, new_add};
ghost use Rattle.serving_wires.specs.Going.{Does, DoesAlone, DoesPart};
ghost use Rattle.value_serving.specs.Following.{TakesOne, TakesPart};
ghost use Rattle.value_serving.specs.Passing.{connected_on, connecting, gathered, heard, passed_on, room_made, taken};
ghost use Rattle.serving_wires.specs.Sending.{begun, left_for};
ghost use Rattle.value_serving.specs.Sending.{with_sent};

use crate::add::{Add, is_over, new_add, take_one, take_out};
use serving_wires::{Came, Intake, Sending};
use std::alloc::{AllocError, Global};
use tcf_values::Text;
use tcf_wires::{WireRefusal, Wires};
use value_node::{Side, ValueNode, ValueTurn};

/// Something came on a side of a value-add: it is given to it, with what waits, as soon as there is room; all messages that
/// can be taken are taken; and what the value-add has to send is queued.
pub(crate) fn hear<W: Wires>(
    alloc: Global,
    add: &mut Add,
    side: Side,
    came: Came,
    sending: &mut Sending,
    wires: &mut W,
    peer: &str,
) -> Result<(), AllocError>
    ensures ok { OnOk result (Does peer.now (heard side came add.old) add.new sending.old sending.new
        (W.seen wires.old) (W.seen wires.new)) }
    ensures err { OnErr result (DoesPart peer.now (heard side came add.old) sending.old
        (W.seen wires.old) (W.seen wires.new)) }
{
    add.wait(side, came)?;
    pass_on(alloc, add, sending, wires, peer)?;
    gather(alloc, add, sending)
}

/// Gives the value-add what waits, each as soon as there is room, and takes all messages that can be taken.
fn pass_on<W: Wires>(
    alloc: Global,
    add: &mut Add,
    sending: &mut Sending,
    wires: &mut W,
    peer: &str,
) -> Result<(), AllocError>
    ensures ok { OnOk result (Does peer.now (passed_on add.old) add.new sending.old sending.new
        (W.seen wires.old) (W.seen wires.new)) }
    ensures err { OnErr result (DoesPart peer.now (passed_on add.old) sending.old
        (W.seen wires.old) (W.seen wires.new)) }
{
    while add.give_next()? {
        make_room(alloc, add, sending, wires, peer)?;
    }
    Ok(())
}

/// Takes messages until something that waits can be given, or none can be taken any more.
fn make_room<W: Wires>(
    alloc: Global,
    add: &mut Add,
    sending: &mut Sending,
    wires: &mut W,
    peer: &str,
) -> Result<(), AllocError>
    ensures ok { OnOk result (Does peer.now (room_made add.old) add.new sending.old sending.new
        (W.seen wires.old) (W.seen wires.new)) }
    ensures err { OnErr result (DoesPart peer.now (room_made add.old) sending.old
        (W.seen wires.old) (W.seen wires.new)) }
{
    let below = add.node.waiting(Side::Below);
    let above = add.node.waiting(Side::Above);
    take(alloc, add, sending, wires, peer, above)?;
    take(alloc, add, sending, wires, peer, below)
}

/// Takes so many messages, as far as there are so many, and only while nothing that waits can be given.
fn take<W: Wires>(
    alloc: Global,
    add: &mut Add,
    sending: &mut Sending,
    wires: &mut W,
    peer: &str,
    count: usize,
) -> Result<(), AllocError>
    ensures ok { OnOk result (Does peer.now (taken count add.old) add.new sending.old sending.new
        (W.seen wires.old) (W.seen wires.new)) }
    ensures err { OnErr result (DoesPart peer.now (taken count add.old) sending.old
        (W.seen wires.old) (W.seen wires.new)) }
{
    for _ in 0..count {
        if add.can_give() {
            return Ok(());
        }
        let is_taken = turn(alloc, add, sending, wires, peer)?;
        if !is_taken {
            return Ok(());
        }
    }
    Ok(())
}

/// Takes a message, if there is one. Where the value-add asks for a connection the wires are asked for it at once. Answers
/// whether a message was taken.
fn turn<W: Wires>(
    alloc: Global,
    add: &mut Add,
    sending: &mut Sending,
    wires: &mut W,
    peer: &str,
) -> Result<bool, AllocError>
    ensures ok { IfOk result (λ is_taken. TakesOne peer.now add.old add.new is_taken sending.old sending.new
        (W.seen wires.old) (W.seen wires.new)) }
    ensures err { OnErr result (TakesPart peer.now add.old sending.old
        (W.seen wires.old) (W.seen wires.new)) }
{
    match take_one(&mut add.node)? {
        ValueTurn::Nothing => Ok(false),
        ValueTurn::Took => Ok(true),
        ValueTurn::Connect => {
            connect(alloc, add, sending, wires, peer)?;
            Ok(true)
        }
    }
}

/// Connects to the peer, and tells the value-add what became of it.
fn connect<W: Wires>(
    alloc: Global,
    add: &mut Add,
    sending: &mut Sending,
    wires: &mut W,
    peer: &str,
) -> Result<(), AllocError>
    ensures ok { OnOk result (Does peer.now (connecting add.old) add.new sending.old sending.new
        (W.seen wires.old) (W.seen wires.new)) }
    ensures err { OnErr result (DoesPart peer.now (connecting add.old) sending.old
        (W.seen wires.old) (W.seen wires.new)) }
{
    match wires.connect(peer) {
        Ok(channel) => begin_above(alloc, add, sending, channel),
        Err(WireRefusal::Failed) => add.node.connect_failed(),
        Err(WireRefusal::NoMemory) => Err(AllocError),
    }
}

/// The wire of this channel is the value-add's upper one from now on. An earlier one is left, with what came on it and waits.
fn begin_above(
    alloc: Global,
    add: &mut Add,
    sending: &mut Sending,
    channel: u64,
) -> Result<(), AllocError>
    ensures add { OnOk result (add.new ≡ connected_on channel add.old) }
    ensures sending { OnOk result (sending.new ≡ left_for add.old.above (begun channel sending.old)) }
{
    sending.begin(channel)?;
    if let Some(earlier) = add.above {
        sending.leave(earlier);
    }
    add.node.connected()?;
    add.above = Some(channel);
    add.upper = Intake::new(alloc);
    Ok(())
}

/// A value-add of this peer, for a connection that came: what it has to send is queued.
pub(crate) fn greet(
    alloc: Global,
    peer: &Text,
    channel: u64,
    sending: &mut Sending,
) -> Result<Add, AllocError>
    ensures { IfOk result (λ add. (any : _) → DoesAlone any (gathered (new_add peer.now channel)) add sending.old sending.new) }
{
    let mut add = new_add(alloc, peer, channel)?;
    gather(alloc, &mut add, sending)?;
    Ok(add)
}

/// Queues what the value-add has to send. Behind a side on which nothing more is said nothing more will be queued.
pub(crate) fn gather(alloc: Global, add: &mut Add, sending: &mut Sending) -> Result<(), AllocError>
    ensures { OnOk result ((peer : _) → DoesAlone peer (gathered add.old) add.new sending.old sending.new) }
{
    send(alloc, &mut add.node, Side::Below, add.below, sending)?;
    match add.above {
        Some(channel) => send(alloc, &mut add.node, Side::Above, channel, sending),
        None => Ok(()),
    }
}

/// Queues what a side has to send.
fn send(
    alloc: Global,
    node: &mut ValueNode,
    side: Side,
    channel: u64,
    sending: &mut Sending,
) -> Result<(), AllocError>
    ensures node { OnOk result (node.new ≡ emptied side node.old) }
    ensures sending { OnOk result (sending.new ≡ with_sent side channel node.old sending.old) }
{
    let is_last = is_over(node.bind(), side);
    let bytes = take_out(alloc, node, side)?;
    sending.queue(channel, bytes.as_slice())?;
    if is_last {
        sending.close(channel);
    }
    Ok(())
}
