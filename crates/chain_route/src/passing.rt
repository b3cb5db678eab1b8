//! A value-add, and a hop on one side of it.
ghost use Rattle.std.specs.Prelude.{◌≡◌, OnOk};
ghost use Rattle.chain_route.specs.Hop.{sent_from};
ghost use Rattle.chain_route.specs.Passing.{all_delivered, delivered, emptied, pair, parts_came, queued_at, takes};

use crate::hop::Hop;
use channel_core::Outgoing;
use std::alloc::AllocError;
use value_node::{Side, ValueNode};

/// While so many entries wait in an inbox, no piece arrives.
pub const MOST_WAITING: usize = 200;

/// The most bytes of a piece.
pub const MOST_BYTES: usize = 65_536;

/// What the value-add queued on this side is in flight.
#[tactic(auto, using(crate::proofs::Carried::sent_on, crate::proofs::Carried::none_sent, crate::proofs::Carried::add_goes_on, crate::proofs::Carried::add_is_empty))]
pub fn carry(add: &mut ValueNode, hop: &mut Hop, side: Side) -> Result<(), AllocError>
    ensures add { OnOk result (add.new ≡ emptied side add.old) }
    ensures hop { OnOk result (hop.new ≡ sent_from side (queued_at side add.old) hop.old) }
{
    while let Some(out) = add.take_out(side) {
        hop.send_from(side, out)?;
    }
    Ok(())
}

/// The next so many bytes in flight arrive at this side as one piece; nothing where the hop isn't live, or where 200 entries
/// wait.
pub fn deliver(
    add: &mut ValueNode,
    hop: &mut Hop,
    side: Side,
    count: usize,
) -> Result<(), AllocError>
    ensures { OnOk result (pair add.new hop.new ≡ delivered side count (pair add.old hop.old)) }
{
    if !takes(add, hop, side) {
        return Ok(());
    }
    let parts = hop.arrive_at(side, count)?;
    come(add, side, &parts)?;
    carry(add, hop, side)
}

/// All bytes in flight to this side arrive, in pieces, until its inbox is full.
#[tactic(auto, using(crate::proofs::Pieces::all_on, crate::proofs::Pieces::all_still, crate::proofs::Pieces::all_none))]
pub fn deliver_all(add: &mut ValueNode, hop: &mut Hop, side: Side) -> Result<(), AllocError>
    ensures { OnOk result (pair add.new hop.new ≡ all_delivered side (pair add.old hop.old)) }
{
    while takes(add, hop, side) && !hop.is_empty_to(side) {
        deliver(add, hop, side, MOST_BYTES)?;
    }
    Ok(())
}

/// Whether a piece may arrive at this side.
fn takes(add: &ValueNode, hop: &Hop, side: Side) -> bool
    ensures { result ≡ takes side add.now hop.now }
{
    hop.is_live && add.waiting(side) < MOST_WAITING
}

/// The parts of a piece arrive at this side.
fn come(add: &mut ValueNode, side: Side, parts: &[Outgoing]) -> Result<(), AllocError>
    ensures { OnOk result (add.new ≡ parts_came side parts.now add.old) }
{
    for part in parts {
        add.deliver(side, part.bytes.as_slice(), part.mark)?;
    }
    Ok(())
}
