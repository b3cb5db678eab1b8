//! A value-add with its wires, and what came on them and waits.
ghost use Rattle.std.specs.Prelude.{◌≡◌, IfOk, OnOk};
ghost use Rattle.value_serving.specs.Adds.{came_to, can_give, emptied, is_over, new_add, next_given, one_taken, bytes_for, waits};

use serving_wires::{Came, Intake};
use std::alloc::{AllocError, Global};
use tcf_outside::{Duplicate, Octets};
use tcf_values::Text;
use value_node::{Bind, Side, ValueNode, ValueTurn};

/// A value-add whose wire below has the channel `below`.
#[derive(Drop)]
pub struct Add {
    pub node: ValueNode,
    pub below: u64,
    /// The channel of the wire above, from the first connection on.
    pub above: Option<u64>,
    pub lower: Intake,
    pub upper: Intake,
}

/// A value-add of this peer, for a connection that came.
pub(crate) fn new_add(alloc: Global, peer: &Text, channel: u64) -> Result<Add, AllocError>
    ensures { IfOk result (λ add. add ≡ new_add peer.now channel) }
{
    Ok(Add {
        node: ValueNode::new(alloc, peer.copy()?)?,
        below: channel,
        above: None,
        lower: Intake::new(alloc),
        upper: Intake::new(alloc),
    })
}

impl Add {
    /// Something came on a side, and waits behind what is there.
    pub(crate) fn wait(&mut self, side: Side, came: Came) -> Result<(), AllocError>
        ensures { OnOk result (self.new ≡ waits side came self.old) }
    {
        match side {
            Side::Below => self.lower.push(came),
            Side::Above => self.upper.push(came),
        }
    }

    /// Whether something that waits can be given.
    #[tactic(auto, unfolding(crate::specs::Adds::can_give))]
    pub(crate) fn can_give(&self) -> bool
        ensures { result ≡ can_give self.now }
    {
        self.lower.has_next(self.node.waiting(Side::Below))
            || self.upper.has_next(self.node.waiting(Side::Above))
    }

    /// Gives the value-add what is next of what waits, from below first. Answers whether there was something that can be
    /// given.
    #[tactic(auto, unfolding(crate::specs::Adds::next_given))]
    pub(crate) fn give_next(&mut self) -> Result<bool, AllocError>
        ensures { IfOk result (λ is_given. (is_given, self.new) ≡ next_given self.old) }
    {
        if let Some(came) = self.lower.next(self.node.waiting(Side::Below)) {
            give(&mut self.node, Side::Below, &came)?;
            return Ok(true);
        }
        if let Some(came) = self.upper.next(self.node.waiting(Side::Above)) {
            give(&mut self.node, Side::Above, &came)?;
            return Ok(true);
        }
        Ok(false)
    }
}

/// Gives a value-add what came on a side.
fn give(node: &mut ValueNode, side: Side, came: &Came) -> Result<(), AllocError>
    ensures { OnOk result (node.new ≡ came_to side came.now node.old) }
{
    match came {
        Came::Piece(bytes) => node.deliver(side, bytes.as_slice(), None),
        Came::End => {
            node.ended(side);
            Ok(())
        }
    }
}

/// Takes a message: from above where there is one, and else from below.
#[tactic(auto, unfolding(crate::specs::Adds::one_taken))]
pub(crate) fn take_one(node: &mut ValueNode) -> Result<ValueTurn, AllocError>
    ensures { IfOk result (λ turn. (turn, node.new) ≡ one_taken node.old) }
{
    match node.turn(Side::Above)? {
        ValueTurn::Nothing => node.turn(Side::Below),
        turn => Ok(turn),
    }
}

/// Takes out all that a side is to send.
pub(crate) fn take_out(
    alloc: Global,
    node: &mut ValueNode,
    side: Side,
) -> Result<Octets, AllocError>
    ensures bytes { IfOk result (λ bytes. bytes ≡ bytes_for side node.old) }
    ensures node { OnOk result (node.new ≡ emptied side node.old) }
{
    let mut bytes = Octets::new(alloc);
    while let Some(outgoing) = node.take_out(side) {
        bytes.extend(outgoing.bytes.as_slice())?;
    }
    Ok(bytes)
}

/// Whether nothing more is said on a side: below once the value-add is closed, and above also while it is unbound.
pub(crate) fn is_over(bind: Bind, side: Side) -> bool
    ensures { result ≡ is_over side bind }
{
    match (bind, side) {
        (Bind::Closed, _) | (Bind::Unbound, Side::Above) => true,
        _ => false,
    }
}
