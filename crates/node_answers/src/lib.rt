//! What a node has answered of what it was asked: a value-add, an agent and a client.
#![tactic(auto)]

pub mod laws;

pub use laws::{
    a_log_lacks_what_is_pending, a_value_add_answers_all, an_agent_answers_all,
    what_a_value_add_has_not_answered,
};
