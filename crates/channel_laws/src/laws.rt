//! The law of redirects.
ghost use Rattle.channel_core.specs.ReceivingLaws.{WhereAQueueComes};
ghost use Rattle.channel_core.specs.RunLaws.{AfterAllCalls};
ghost use Rattle.channel_laws.specs.Faults.{EndsByItsCalls, FaultsAreThere};
ghost use Rattle.channel_laws.specs.Filling.{EachPieceFillsSo};
ghost use Rattle.channel_laws.specs.Hop.{LiveHopsStand};
ghost use Rattle.channel_laws.specs.Redirects.{HoldsBehindRedirects};
ghost use Rattle.channel_laws.specs.Asking.{AsksNothingWaitsForNothing};
ghost use Rattle.channel_laws.specs.Meeting.{WhereAllIsAnswered, WhereNothingIsUnderWay};
ghost use Rattle.channel_laws.specs.Numbering.{WhatComesIsNumbered};
ghost use Rattle.channel_laws.specs.Rest.{HearsTheEnd, IsOverAtItsEnd, LetsCommandsOut, MakesCommands, PendsUnanswered, StandsAsTaken, StaysOver, TakesAsSaid, TellsAsMessages};

/// The law that, after every list of calls of a new end, a command goes out behind a redirect only where that has been
/// answered, and where the answer has no error only behind a Hello that was taken since.
pub fn a_redirect_holds_commands_back<T>()
    ensures { AfterAllCalls {T = T} HoldsBehindRedirects }
{}

/// The law of an end that a fault of its other side closes, whatever is called of it, where the bytes of a queue come that can
/// be read. The fault is that of the message behind those that were taken: it is the first and no Hello, or it is progress or
/// an answer to no command that was sent and isn't answered. And the law that an end closes by its own side, or since the
/// bytes have ended, only where it was called so.
pub fn an_end_closes_by_a_fault_only_so<T>()
    ensures faults { WhereAQueueComes {T = T} FaultsAreThere }
    ensures calls { EndsByItsCalls T }
{}

/// The law of an end that stands, after every list of calls of a new end. What was taken is what its message says, so answers
/// and Hellos can be told of the messages alone. Each accepted command is made of its names and its data. Where the end is
/// open, those commands are pending whose final answer wasn't taken. It is Reopening exactly where a redirect that it sent
/// wasn't answered, or was answered without an error and no Hello was taken behind the answer. Where its inbox has no more than
/// 50 messages, the level that it told last lets commands out.
pub fn an_end_stands_as_it_took<T>()
    ensures taken { AfterAllCalls {T = T} TakesAsSaid }
    ensures messages { AfterAllCalls {T = T} TellsAsMessages }
    ensures commands { AfterAllCalls {T = T} MakesCommands }
    ensures pending { AfterAllCalls {T = T} PendsUnanswered }
    ensures state { AfterAllCalls {T = T} StandsAsTaken }
    ensures level { AfterAllCalls {T = T} LetsCommandsOut }
{}

/// The law that an end to which all bytes of a queue with the end of the stream have come is closed, or has its last entry.
pub fn the_end_of_a_queue_is_heard<T>()
    ensures { WhereAQueueComes {T = T} HearsTheEnd }
{}

/// The law that an end that is closed, or has its last entry, stays so, and that one whose bytes have ended is so.
pub fn an_end_that_is_over_stays_so<T>()
    ensures stays { AfterAllCalls {T = T} StaysOver }
    ensures ended { IsOverAtItsEnd T }
{}

/// The law of the two ends of a hop, whatever was called of them, where what they sent can be read, their bytes haven't ended
/// without the end of the stream, and what each queued has come to the other, all of it where that is open, and was taken. Both
/// are closed, or both are open. Then each took what the other queued, and commands go out of it: it was told no level above 0 last, it is Live where
/// no redirect that it sent waits for its answer or for a Hello behind that, and then it holds nothing, and nothing is pending
/// where what it sent was answered.
pub fn two_ends_rest_together<T, U>()
    ensures { WhereNothingIsUnderWay T U }
{}

/// The law that one of two such ends is free, where it is open and the node of the other end has answered all commands that it
/// took, and has queued a Hello behind each answer without an error to a redirect: commands go out of it, none is held, and
/// none is pending.
pub fn an_answered_end_is_free<T, U>()
    ensures { WhereAllIsAnswered T U }
{}

/// The law that the commands that an end takes have the tokens 1, 2, 3 and so on, where what came to it is a front of what
/// another end gave, which sent only what can be read.
pub fn what_comes_is_numbered<T, U>()
    ensures { WhatComesIsNumbered T U }
{}

/// The law that an end whose node sends no command has none pending and holds none.
pub fn who_asks_nothing_waits_for_nothing<T>()
    ensures { AsksNothingWaitsForNothing T }
{}

/// The law of a live hop, whatever was called of its two ends. What is in flight to an open end is what the other one gave and
/// hasn't come; what it took and what is under way to it are, in order and with marks, what the other one queued. Where one is
/// closed the other is closed too, or the end of the stream is under way to it. Where both are open each command that is pending
/// and not held is under way, or taken and not answered yet, or its answer is under way; an end that is opening has a Hello under
/// way to it; one that is Reopening waits for the answer to a redirect, or for the Hello behind one without an error; and one that
/// is Live, and wasn't told a level above 0 last, holds nothing.
pub fn a_live_hop_stands<T, U>()
    ensures { LiveHopsStand T U }
{}

/// The law that a piece of bytes puts into an end's inbox at most one entry for each message that ends in it, with
/// the piece's mark, and one last entry, and none behind a last entry or where the end is closed.
pub fn each_piece_fills_an_inbox_so<T>()
    ensures { EachPieceFillsSo T }
{}
