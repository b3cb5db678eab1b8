//! A hub: several lower channels over one channel above. Each command from below goes above under a token of the hub's own,
//! each event from above goes to all, and each answer to the channel of its command (the TCF specification's protocol page;
//! that a redirect is answered by the hub itself is this project's own rule).
#![tactic(auto)]

mod board;
mod hub;
pub mod laws;
mod redirect;
mod relay;
mod side;
mod turning;
mod waiting;

pub use hub::HubNode;
pub use laws::{
    a_hub_closes_whole, a_hub_hears_what_comes, a_hub_sends_its_commands, a_hub_tells_each_its_own,
    the_ends_are_runs,
};
pub use side::HubSide;
