//! The laws of what a client heard, whatever it was.
ghost use Rattle.chain_heard.specs.Coherent.{HeardIsCoherent, NoTargetHeardIsCoherent};
ghost use Rattle.chain_heard.specs.Heard.{CommandsAreFew, HeardAmongIsOrdered, HeardIsFresh, HeardIsOrdered, NoTargetHeardIsFresh, NoTargetHeardIsOrdered};

/// The law that the log of a client follows the history of the target, where its messages are, in order, what the value-adds
/// on the way said themselves and then messages with positions, each told rightly, which are, but for answers to storable commands,
/// a front of what the history owes to its channel; and the commands that the channel executes are, in order, some of those that
/// the value-adds didn't answer before they were bound, with all that go through. Where all that is owed was heard while nothing
/// is under way, and the log has no end, all of it has come.
pub fn what_was_heard_is_ordered()
    ensures among { HeardAmongIsOrdered }
    ensures alone { HeardIsOrdered }
{}

/// The law that the log of a client that heard nothing of the target follows the history, where its channels execute
/// nothing.
pub fn no_target_heard_is_ordered()
    ensures { NoTargetHeardIsOrdered }
{}

/// The law that a client has accepted fewer than 2^64 commands, whatever its calls.
pub fn commands_are_few()
    ensures { CommandsAreFew }
{}

/// The law that each answer with a position to a storable command, of the target or from a store on the way, is what the target
/// answers at that position, which comes behind all commands before it that may change the target.
pub fn what_was_heard_is_fresh()
    ensures heard { HeardIsFresh }
    ensures no_target { NoTargetHeardIsFresh }
{}

/// The law that what a client keeps is true: after each line of its log, of the target at the position of the last
/// message, where it heard of the target so. One that heard nothing of the target keeps nothing.
pub fn what_was_heard_is_true()
    ensures heard { HeardIsCoherent }
    ensures no_target { NoTargetHeardIsCoherent }
{}
