//! The laws of a served hub.
ghost use Rattle.hub_serving.specs.Left.{LeavesNothing};
ghost use Rattle.hub_serving.specs.Limits.{NoMoreThan64AreLive};
ghost use Rattle.hub_serving.specs.Served.{ServedIsAHub};

/// The law that what is served is a hub, whatever comes, where each connection has a channel of its own: some calls of a new
/// hub make it. All that was ever queued for the wire above is what its upper end gave out in these calls, which is all that
/// this end queued; and all that was queued for the wire of a lower channel is what the channel's end gave out, which is all
/// that this end queued. For a channel that the hub refused the end of the stream alone is queued.
///
/// So the laws of a hub hold of what is put on wires: that each command goes above once and in order
/// (`hub_node::a_hub_sends_its_commands`), and that nothing is said behind an end (`hub_node::a_hub_closes_whole`).
pub fn what_is_served_is_a_hub()
    ensures { ServedIsAHub }
{}

/// The law that messages are taken until none can be, and what waits is given until nothing can be, however much there is.
/// Behind any event no message can be taken of any line, and nothing that waits can be given; from above
/// no message waits, and from below messages wait only where the upper end isn't Live, or has 1,024 commands pending.
pub fn nothing_is_left_to_do()
    ensures { LeavesNothing }
{}

/// The law that no more than 64 lower channels are live, whatever comes.
pub fn no_more_than_64_are_live()
    ensures { NoMoreThan64AreLive }
{}
