//! What one who sends commands up a way is told, and what a value-add makes of it.
#![tactic(auto)]

pub mod laws;

pub use laws::{a_value_add_tells_on, what_the_target_tells_is_right};
