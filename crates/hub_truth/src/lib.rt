//! The theorem of the hub: what the peers behind it know of the target above it.
#![tactic(auto)]

pub mod laws;

pub use laws::peers_behind_a_hub_know_truth;
