//! The laws of a client's run, whatever the script and whatever bytes come.
ghost use Rattle.client_serving.specs.Client.{OnceWhateverCame, ServesAClient};
ghost use Rattle.client_serving.specs.Left.{LeavesNothing};
ghost use Rattle.client_serving.specs.Run.{EndsSaySo};

/// The law that a run is done exactly where no line is left, nothing is pending and the client closed its channel itself;
/// that it ended for a cause exactly where the channel closed for that other one, or `Stop` came while it wasn't closed;
/// and that it has no end while the channel isn't closed, `Stop` hasn't come, and a line is left or a command is pending.
pub fn an_end_is_what_it_says()
    ensures { EndsSaySo }
{}

/// The law that what is served is a client, whatever the script and whatever came: some calls of a new client make it,
/// and what is queued for its wire is what it gave out in them.
pub fn what_is_served_is_a_client()
    ensures { ServesAClient }
{}

/// The law that in the log of a served client, after any events, each command that was accepted has at most one final
/// answer, its own, and exactly one once the channel has ended. It asks nothing of the bytes that come, of the order of
/// events, or of the script.
pub fn whatever_comes_each_command_is_answered_once()
    ensures { OnceWhateverCame }
{}

/// The law that a client takes messages and does lines until it can't: after any events that wires can give, while
/// the run has no end, it can take no message, its inbox has no entry, the first line that is left of its script
/// waits, so that doing the lines once more changes nothing, and a command is pending.
pub fn nothing_is_left_to_take()
    ensures { LeavesNothing }
{}
