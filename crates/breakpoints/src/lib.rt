//! The breakpoints: the one list that all channels share, what the commands make of it, their instances in the
//! attached processes, which of them a thread hits, and how often.
#![tactic(auto)]

mod breakpoints;
mod counts;
mod index;
mod instance;
mod laws;
mod rows;
mod selection;
mod tally;

pub use breakpoints::{BpDone, Breakpoints, Hits, status_event};
pub use counts::Counts;
pub use laws::{
    a_count_is_the_number_of_hits, a_gone_channel_owns_nothing, a_hit_is_an_instance,
    counts_are_by_process, hits_are_listed, the_list_stays_orderly,
};
pub use rows::Placed;
