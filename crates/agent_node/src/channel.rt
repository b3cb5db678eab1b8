//! How a channel of an agent opens.
ghost use Rattle.std.specs.Prelude.{◌≡◌, Some, IfOk};
ghost use Rattle.agent_node.specs.Channels.{new_channel};
ghost use Rattle.target_hub.specs.Sent.{agent_services};

use channel_list::Channel;
use std::alloc::{AllocError, Global};

/// The data of the agent's Hello: the services that it has.
const HELLO: &[u8] =
    b"[\"Locator\",\"RunControl\",\"Breakpoints\",\"Memory\",\"Registers\",\"Processes\",\"Trace\"]\0";

/// A channel that opens at this position.
#[tactic(auto, unfolding(target_hub::specs::Sent::agent_services))]
pub fn new_channel(alloc: Global, number: u64, position: u64) -> Result<Channel, AllocError>
    ensures { IfOk result (λ channel. channel ≡ new_channel number position) }
{
    channel_list::new_channel(alloc, number, HELLO, Some(position))
}
