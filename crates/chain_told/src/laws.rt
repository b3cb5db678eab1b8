//! The law of what a value-add tells.
ghost use Rattle.chain_told.specs.Sent.{TargetTellsWhatIsOwed, TargetTellsRightly};
ghost use Rattle.chain_told.specs.TellsOn.{TellsOn};

/// The law that a value-add, whatever it hears and is asked since it was bound, tells on what it was told.
///
/// Where each message that it heard is placed, answers a command of its own, teaches what is true of the target and is what that
/// answers to a storable command, so is each one that it tells below, those of its own store too. What it tells but for answers to
/// storable commands is what it heard. The commands that it sent are those that it was asked, without some storable ones.
pub fn a_value_add_tells_on()
    ensures { TellsOn }
{}

/// The law of what a legal history tells a channel, to one who sends the commands that it executes there.
///
/// `right`: each message is that of a command which has no answer yet, is placed, teaches what is true of the target, and is what
/// that answers to a storable command, behind the answers to all commands before it.
///
/// `owed`: but for answers to storable commands it is what the history owes.
pub fn what_the_target_tells_is_right()
    ensures right { TargetTellsRightly }
    ensures owed { TargetTellsWhatIsOwed }
{}
