//! A hub that is served over wires: one wire to its peer, which it connects to, and one for each connection that comes.
#![tactic(auto)]

mod gathering;
mod hub;
pub mod laws;
mod line;
mod passing;
pub mod serve;
mod serving;

pub use laws::{no_more_than_64_are_live, nothing_is_left_to_do, what_is_served_is_a_hub};
pub use serve::serve_hub;
pub use serving_wires::ServeEnd;
