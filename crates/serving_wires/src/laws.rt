//! The laws of one wire, for commands that serve some.
ghost use Rattle.serving_wires.specs.Laws.{BeginsToFollow, FlushedIsCarried, FlushesAll, FlushesInPlace, FlushesOneWire, FollowsClosing, FollowsFlushing, FollowsOthers, FollowsQueueing, GivesUpInPlace, GivesUpOneWire, OneWireAlone, PutsOnce, ShutIsFlushed, StaysFlushed, UnusedIsCarried};
ghost use Rattle.serving_wires.specs.WireLaws.{WireLaws};

/// The law that an outbox, whatever is queued, put and shut, is what the calls so far left of all that was queued for its
/// wire: a front of it was taken, and the rest is left, unless a put was lost.
pub fn an_outbox_is_what_is_left()
    ensures begins { BeginsToFollow }
    ensures queueing { FollowsQueueing }
    ensures closing { FollowsClosing }
    ensures others { FollowsOthers }
    ensures flushing { FollowsFlushing }
{}

/// The law that a wire whose outbox was flushed since the last event is carried: what was taken is all, unless the last put
/// took less than it was offered, or one was lost; and it was shut once where nothing more will be queued and nothing is
/// left.
pub fn what_is_flushed_is_carried()
    ensures flushed { FlushesAll }
    ensures shut { ShutIsFlushed }
    ensures stays { StaysFlushed }
    ensures carried { FlushedIsCarried }
    ensures unused { UnusedIsCarried }
{}

/// The law that each put of a flush offers all that is queued and wasn't taken, on a wire that wasn't lost or shut; and
/// that no wire is shut twice.
pub fn a_flush_is_in_place()
    ensures flushes { FlushesInPlace }
    ensures gives_up { GivesUpInPlace }
{}

/// The law that a flush puts at most once, and on its own wire alone.
pub fn a_flush_is_on_one_wire()
    ensures flushes { FlushesOneWire }
    ensures gives_up { GivesUpOneWire }
    ensures alone { OneWireAlone }
    ensures once { PutsOnce }
{}

/// All of these laws.
pub fn each_wire_is_carried()
    ensures { WireLaws }
{
    an_outbox_is_what_is_left();
    what_is_flushed_is_carried();
    a_flush_is_in_place();
    a_flush_is_on_one_wire();
}
