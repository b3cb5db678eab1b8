//! The way from a client to the agent: hops whose bytes arrive in pieces, and the value-adds between them.
#![tactic(auto)]

mod hop;
mod lane;
pub mod laws;
mod passing;
mod route;

pub use hop::Hop;
pub use lane::Lane;
pub use laws::{all_arrive_at_adds, each_hop_carries};
pub use passing::{MOST_BYTES, MOST_WAITING};
pub use route::Route;
