//! Whole chains, played: clients, the ways to the agent, and one agent with its target.
#![tactic(auto)]

mod chain;
pub mod laws;
mod world;

pub use chain::Chain;
pub use laws::{a_round_goes_on, a_world_stands};
pub use world::{World, images_of};
