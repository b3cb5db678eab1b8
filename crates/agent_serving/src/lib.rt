//! An agent that is served over wires: each event goes to it, and what it tells goes to its peers.
#![tactic(auto)]

mod gathering;
pub mod laws;
mod passing;
pub mod serve;
mod serving;
mod ticking;

pub use agent_node::Image;
pub use laws::{
    nothing_is_left_to_do, what_is_served_is_an_agent, wires_touch_by_the_history_alone,
};
pub use serve::serve_agent;
pub use serving_wires::ServeEnd;
