//! Facts of lists, of flags and of numbers that proofs of several crates cite.
#![tactic(auto)]
