//! The truth of what the target tells: what a peer learns from its messages is so where the target stands.
#![tactic(auto)]

pub mod laws;

pub use laws::{
    a_stored_answer_is_what_the_target_answers, each_input_keeps_truth, what_is_told_is_true,
};
