//! The schedule that a number gives: a long run of steps drawn at random on three chains. And the line that sums up the
//! log of a chain.
#![tactic(auto)]

mod commands;
mod drawing;
mod drawn;
mod generating;
pub mod laws;
mod summary;

pub use generating::generate;
pub use summary::write_summary;
