//! What a value-add knows of the target: it learns from what comes from above, and answers of it.
#![tactic(auto)]

pub mod laws;
mod store;

pub use laws::{a_stored_answer_teaches_nothing_new, what_is_learned_has_states};
pub use store::Store;
