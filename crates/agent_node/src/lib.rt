//! An agent: several channels on the one target, and what each input tells them.
#![tactic(auto)]

mod agent;
mod channel;
pub mod laws;
mod target;
mod telling;

pub use agent::{AgentNode, Turned};
pub use channel_list::{Channel, Span};
pub use laws::{
    a_channel_opens_where_it_may, an_agent_has_no_strangers, an_agent_tells_the_truth,
    at_most_64_are_live, channels_touch_by_the_history_alone,
};
pub use target_hub::{Image, Input};
