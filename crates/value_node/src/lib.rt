//! A value-add: a peer between a client and an agent. It answers a client itself until a redirect binds it to its peer, and
//! then it passes on all that comes, but for what it can answer from what it has learned.
#![tactic(auto)]

mod forwarded;
pub mod laws;
mod own;
mod relay;
mod states;
mod turning;
mod upper;
mod value;

pub use forwarded::Forwarded;
pub use laws::{
    a_value_add_answers_from_what_it_heard, a_value_add_answers_itself, a_value_add_relays,
};
pub use states::{Bind, Side, ValueTurn};
pub use value::ValueNode;
