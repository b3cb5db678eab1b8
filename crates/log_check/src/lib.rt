//! The check of a journal: whether what a client logged is true to what was done to its target, and if not, the first rule
//! that the journal breaks.
#![tactic(auto)]

mod channel;
mod executed;
mod fresh;
mod judging;
mod legal;
mod messages;
mod once;
mod order;
mod positions;
mod replay;
mod rule;
mod sets;
mod sorts;

pub use judging::{a_true_log_meets_the_rules, judge};
pub use rule::Rule;
