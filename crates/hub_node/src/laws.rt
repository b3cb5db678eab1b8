//! The laws of a hub, over any calls and whatever bytes come.
ghost use Rattle.hub_node.specs.HubLaws.{AfterAllCalls, ClosesWithTheHub, EndsAreRuns, HearsWhatComes, SendsItsCommands, TellsEachItsOwn};

/// The law that each end of a hub is what the calls made of it that its own calls are said to be; a lower end that is closed
/// and has nothing to send may be forgotten.
pub fn the_ends_are_runs()
    ensures { AfterAllCalls EndsAreRuns }
{}

/// The law that for each lower channel the commands that are sent above for it are, in order and each once, a front of those
/// that were taken from it, redirects aside; and that no other command is sent above.
pub fn a_hub_sends_its_commands()
    ensures { AfterAllCalls SendsItsCommands }
{}

/// The law that what a hub hears from above is, in order, each event but the first Hello, all progress and each answer that
/// was taken there.
pub fn a_hub_hears_what_comes()
    ensures { AfterAllCalls HearsWhatComes }
{}

/// The law that what a hub tells a lower channel is, in order and behind its Hello, each event that is heard while the channel
/// is open, and the progress and answers to its own commands, under the token that each command has there; and that each
/// answer that is heard is that of a command that was sent above and has none yet, so that none has two.
pub fn a_hub_tells_each_its_own()
    ensures { AfterAllCalls TellsEachItsOwn }
{}

/// The law that where the upper end of a hub is closed so is each lower one, and that behind the closing of an end nothing is
/// sent but the end of the stream.
pub fn a_hub_closes_whole()
    ensures { AfterAllCalls ClosesWithTheHub }
{}
