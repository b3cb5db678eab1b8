//! The laws of a client, over any calls and whatever bytes come.
ghost use Rattle.client_node.specs.Ends.{EndIsRunAfterAnyCalls};
ghost use Rattle.client_node.specs.Runs.{LogTellsPast, OnceAfterAnyCalls, ShownAfterAnyCalls};

/// The law that each command that was accepted has at most one final answer, its own, and exactly one once the channel has
/// ended. It asks nothing of the bytes that come, and neither do the other laws here.
pub fn each_command_is_answered_once()
    ensures { OnceAfterAnyCalls }
{}

/// The law that a log has a line for each message that was taken, in order and with its mark, but for commands of the
/// other side, and a line for each command that was accepted, under 1, 2, 3 and so on; progress and answers stand under
/// the number that is the token of their command.
pub fn the_log_tells_what_was_taken()
    ensures { LogTellsPast }
{}

/// The law that the calls of a client are a run of its end: its channel is what the calls that it made of its end make of
/// a new one, and both have taken, accepted and given out the same. But for commands it sends only answers to commands of
/// the other side, which can be written.
pub fn a_clients_end_is_a_run()
    ensures { EndIsRunAfterAnyCalls }
{}

/// The law that each line of the log that asks the cache shows what is kept of the messages that the lines before it
/// say, whatever the calls.
pub fn the_cache_keeps_what_the_log_says()
    ensures { ShownAfterAnyCalls }
{}
