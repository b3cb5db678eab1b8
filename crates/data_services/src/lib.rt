//! The services Memory and Registers: what their commands read and write in the target's processes.
#![tactic(auto)]

mod commands;
mod laws;
mod lengths;
mod locations;
mod memory;
mod named;
mod parts;
mod registers;

pub use commands::apply;
pub use laws::{
    a_failure_changes_nothing, asking_changes_nothing, other_processes_stay, threads_stay,
    what_is_set_is_got,
};
pub use lengths::what_is_short_stays;
