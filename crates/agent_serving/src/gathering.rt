//! What the agent tells is queued.
ghost use Rattle.std.specs.Prelude.{[], OnOk};
ghost use Rattle.serving_wires.specs.Going.{DoesAlone};
ghost use Rattle.agent_serving.specs.Gathering.{all_gathered, gathered};

use agent_node::AgentNode;
use serving_wires::{Intake, Roster, Sending};
use std::alloc::AllocError;

/// Queues all that the agent has for the channel.
pub(crate) fn gather(
    agent: &mut AgentNode,
    channel: u64,
    sending: &mut Sending,
) -> Result<(), AllocError>
    ensures { OnOk result (DoesAlone [] (gathered channel agent.old) agent.new sending.old sending.new) }
{
    while let Some(outgoing) = agent.take_out(channel) {
        sending.queue(channel, outgoing.bytes.as_slice())?;
    }
    Ok(())
}

/// Queues all that the agent has for each of its channels.
pub(crate) fn gather_all(
    agent: &mut AgentNode,
    lines: &Roster<Intake>,
    sending: &mut Sending,
) -> Result<(), AllocError>
    ensures { OnOk result (DoesAlone [] (all_gathered lines.now agent.old) agent.new sending.old sending.new) }
{
    for place in 0..lines.len() {
        if let Some(channel) = lines.channel_at(place) {
            gather(agent, channel, sending)?;
        }
    }
    Ok(())
}
