//! The one target of all channels: its processes and its breakpoints, and what each command, each instruction and each
//! closing of a channel gives and leaves.
#![tactic(auto)]

mod breakpoints_rows;
mod done;
mod execution;
mod hub;
mod input;
mod laws;
mod locator_rows;
mod sendable;
mod target;

pub use command_tables::Reading;
pub use done::{Answered, Done};
pub use hub::Hub;
pub use input::Input;
pub use laws::{
    a_failure_changes_nothing, a_gone_channel_owns_nothing, asking_changes_nothing,
    every_history_is_consistent, no_event_is_a_hello,
};
pub use sendable::{every_history_is_bounded, what_is_told_can_be_sent};
pub use target::Target;
pub use target_contexts::Image;
pub use tcf_values::{Events, Numbers};
