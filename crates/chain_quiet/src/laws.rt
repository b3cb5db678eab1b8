//! The law of a way at one moment at which nothing is under way on it.
ghost use Rattle.chain_quiet.specs.Hops.{EachHopStands};
ghost use Rattle.chain_quiet.specs.Stuck.{StillWaysAreUnstuck};

/// The law that nothing is stuck, where no byte is in flight on any hop and no entry waits at any end: at the upper end of each
/// value-add that is open, and at the client's, each command that was accepted was answered, none is held, and commands go out.
/// And where all value-adds are bound and the client's end is open, the client took all that the first value-add said, each
/// value-add took all that the next one said, and the last one all that the agent said.
pub fn nothing_is_stuck<T>()
    ensures { StillWaysAreUnstuck T }
{}

/// The law that each live hop of a way stands as the two ends of a hop do, whatever has come and been taken: what an open end
/// took and what is under way to it is what the other one queued; each command that is pending and not held is under way, or taken
/// and not answered, or its answer is under way. What a value-add has not answered is the redirect that it does, or pending above
/// it, and the agent has answered all. Where a redirect's answer without an error has no Hello behind it, the value-add that gave
/// it waits above for its own. The last level that an end told is above 0 exactly where a second one is due there, and then its
/// inbox has more than 50 messages. Where the agent refused the channel of the last hop nothing is in flight up it, and only the end
/// of the stream comes down, so no message came to the end below it. On a hop that isn't live, what each end took, and behind that
/// what waits in its inbox, is a front of what the other one queued, and each end that was ever used is closed, or its last entry
/// waits. Where value-adds are yet to be made, no hop beyond the last one that was made is live, and the end below these hops was
/// never used.
pub fn each_hop_stands<T>()
    ensures { EachHopStands T }
{}
