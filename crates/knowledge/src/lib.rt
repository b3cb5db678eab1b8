//! What a peer knows of a target from the messages that it has taken, and what each message makes of that.
#![tactic(auto)]

pub mod knowledge;
pub mod laws;
mod number_map;
mod registers;
mod span;
pub mod state;
mod text_map;
mod thread_map;

pub use knowledge::Knowledge;
pub use laws::{
    blocks_are_learned, learning_is_monotone, others_stay_unanswered, the_same_answer_the_same,
    the_same_learn_the_same, what_is_covered_is_inside, what_is_read_is_known,
};
pub use state::StateFact;
