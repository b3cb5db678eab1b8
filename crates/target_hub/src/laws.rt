//! The laws of the target, over every target and over every history.
ghost use Rattle.target_hub.specs.HistoryLaws.{ClosedOwnsNothing, StaysConsistent};
ghost use Rattle.target_hub.specs.Laws.{AskingChangesNothing, AskingIsTheSame, ClosingsTellNoHello, CommandsTellNoHello, FailureChangesNothing, GoneOwnsNothing, TicksTellNoHello};

/// The law that a command that an error answers changes nothing, and that no event tells of it.
pub fn a_failure_changes_nothing()
    ensures { FailureChangesNothing }
{}

/// The law that a command that only asks changes nothing, that no event tells of it, and that every channel gets the same
/// answer to it.
pub fn asking_changes_nothing()
    ensures nothing { AskingChangesNothing }
    ensures same { AskingIsTheSame }
{}

/// The law that a channel that has gone owns no breakpoint.
pub fn a_gone_channel_owns_nothing()
    ensures { GoneOwnsNothing }
{}

/// The law that after every legal list of inputs, from the images alone on, the processes and the breakpoints are orderly,
/// a suspended thread's process is attached, each breakpoint's properties are such that a command can give them, and a
/// channel that was closed owns no breakpoint.
pub fn every_history_is_consistent()
    ensures target { StaysConsistent }
    ensures closed { ClosedOwnsNothing }
{}

/// The law that no event that the target tells, by a command, by an instruction or by the closing of a channel, is a Hello,
/// by which each end of a channel names its own services.
pub fn no_event_is_a_hello()
    ensures commands { CommandsTellNoHello }
    ensures ticks { TicksTellNoHello }
    ensures closings { ClosingsTellNoHello }
{}
