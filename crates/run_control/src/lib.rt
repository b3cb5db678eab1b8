//! Run control: what the commands of RunControl, Processes and Trace give and what they change, and what one instruction
//! of a thread does.
#![tactic(auto)]

mod asking;
mod attaching;
mod commands;
mod ending;
mod executing;
mod laws;
mod lengths;
mod named;
mod steering;
mod telling;
mod ticking;
mod tracing;

pub use commands::apply;
pub use laws::{
    a_command_keeps_threads_attached, a_tick_keeps_threads_attached, a_tick_touches_one,
    an_end_is_told_once, only_counts_change, the_processes_stay_orderly,
};
pub use lengths::the_processes_stay_short;
pub use tcf_values::{Effect, Events, Numbers};
pub use telling::attached;
pub use ticking::step;
