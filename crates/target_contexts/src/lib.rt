//! The processes and threads of the target, and the images that they are started from.
#![tactic(auto)]

mod context;
mod image;
mod laws;
mod lengths;
mod loading;
mod named;
mod process;
mod targets;
mod threads;

pub use laws::{
    a_change_changes_one, a_file_is_started_as_it_is_loaded, a_process_put_back_changes_nothing,
    a_start_adds_one, a_start_makes_a_whole_process, a_thread_changes_alone, an_end_ends_one,
    they_stay_orderly,
};
pub use lengths::they_stay_short;
pub use named::{number_for, thread_for};
pub use process::{Image, Process, ThreadState};
pub use targets::{StartRefusal, Targets};
pub use threads::{Thread, Threads};
