//! The laws of the list over whole runs.
ghost use Rattle.breakpoints.specs.Laws.{CountsTellHits, DropsOne, GoneOwnsNothing, HitsAreInstances, HitsAreListed, RaisesOne, StaysOrderly, StepsKeepOrder};

/// The law that the IDs differ, that there are at most 256 breakpoints and that the counts are of 32 bits, whatever commands
/// of whatever channels are executed, whatever channels go, whatever is hit, and whatever processes' counts are dropped.
pub fn the_list_stays_orderly()
    ensures runs { StaysOrderly }
    ensures steps { StepsKeepOrder }
{}

/// The law that a channel that has gone owns nothing, as long as it gives no command.
pub fn a_gone_channel_owns_nothing()
    ensures { GoneOwnsNothing }
{}

/// The law that a thread of an attached process hits exactly the breakpoints whose status has an instance in that
/// process at its address.
pub fn a_hit_is_an_instance()
    ensures { HitsAreInstances }
{}

/// The law that the breakpoints of the IDs that are hit are those that are hit, in the order of the list.
pub fn hits_are_listed()
    ensures { HitsAreListed }
{}

/// The law that a hit in a process raises the count of that process alone, and that dropping it leaves all others.
pub fn counts_are_by_process()
    ensures raised { RaisesOne }
    ensures dropped { DropsOne }
{}

/// The law that hit tests raise the count of a breakpoint in a process by the number of its hits there, as far as 32 bits
/// go.
pub fn a_count_is_the_number_of_hits()
    ensures { CountsTellHits }
{}
