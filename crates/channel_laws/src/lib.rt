//! Laws of an end of a channel, over every list of its calls, and of the two ends of a hop.
#![tactic(auto)]

pub mod laws;

pub use laws::{
    a_live_hop_stands, a_redirect_holds_commands_back, an_answered_end_is_free,
    an_end_closes_by_a_fault_only_so, an_end_stands_as_it_took, an_end_that_is_over_stays_so,
    each_piece_fills_an_inbox_so, the_end_of_a_queue_is_heard, two_ends_rest_together,
    what_comes_is_numbered, who_asks_nothing_waits_for_nothing,
};
