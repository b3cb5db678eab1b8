//! What any relay keeps to, and that whoever is below it learns no more than it was taught itself.
#![tactic(auto)]

pub mod laws;

pub use laws::{a_relay_keeps_containment, a_value_add_is_a_relay, two_relays_keep_containment};
