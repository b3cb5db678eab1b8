//! The hops of a way at any moment, and a way on which nothing is under way.
#![tactic(auto)]

pub mod laws;

pub use laws::{each_hop_stands, nothing_is_stuck};
