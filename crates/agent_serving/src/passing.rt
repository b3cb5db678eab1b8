//! What came for a channel passes through the agent: pieces into its inbox, and messages out of it.
ghost use Rattle.std.specs.Prelude.{◌≡◌, ◌-◌, IfOk, OnOk};
ghost use Rattle.agent_serving.specs.Passing.{after_turns, came_to, closes, end_is_taken, passed_on, waiting_on};
ghost use Rattle.agent_node.specs.Agent.{turned};

use agent_node::{AgentNode, Input, Turned};
use serving_wires::{Came, Intake};
use std::alloc::AllocError;

/// The most messages that an inbox holds where a piece is given.
const ROOM: usize = 199;

/// Gives the agent what waits for the channel, and takes all messages that can be taken: before each piece so many that
/// fewer than 200 are left, and behind the last one all. Answers whether the end of the channel was taken.
#[tactic(auto, unfolding(crate::specs::Passing::passed_on))]
pub(crate) fn pass_on(
    agent: &mut AgentNode,
    channel: u64,
    intake: &mut Intake,
) -> Result<bool, AllocError>
    ensures agent { OnOk result (agent.new ≡ (passed_on channel intake.old agent.old).agent) }
    ensures left { OnOk result (intake.new ≡ (passed_on channel intake.old agent.old).waiting) }
    ensures over { IfOk result (λ is_over. is_over ≡ (passed_on channel intake.old agent.old).is_over) }
{
    let mut is_over = make_room(agent, channel)?;
    while let Some(came) = intake.next(agent.waiting(channel)) {
        give(agent, channel, &came)?;
        is_over |= make_room(agent, channel)?;
    }
    is_over |= take(agent, channel, agent.waiting(channel))?;
    Ok(is_over)
}

/// Gives the agent what came for the channel.
fn give(agent: &mut AgentNode, channel: u64, came: &Came) -> Result<(), AllocError>
    ensures { OnOk result (agent.new ≡ came_to channel came.now agent.old) }
{
    match came {
        Came::Piece(bytes) => agent.deliver(channel, bytes.as_slice()),
        Came::End => {
            agent.ended(channel);
            Ok(())
        }
    }
}

/// Takes messages until fewer than 200 are left. Answers whether the end of the channel was among them.
fn make_room(agent: &mut AgentNode, channel: u64) -> Result<bool, AllocError>
    ensures agent { OnOk result (agent.new ≡ after_turns (waiting_on channel agent.old - 199) channel agent.old) }
    ensures over { IfOk result (λ is_over. is_over ≡ end_is_taken (waiting_on channel agent.old - 199) channel agent.old) }
{
    let count = agent.waiting(channel).saturating_sub(ROOM);
    take(agent, channel, count)
}

/// Takes so many messages, as far as there are so many. Answers whether the end of the channel was among them.
#[tactic(auto, using(crate::proofs::Turns::one_turn_less, crate::proofs::Turns::one_end_less))]
fn take(agent: &mut AgentNode, channel: u64, count: usize) -> Result<bool, AllocError>
    ensures agent { OnOk result (agent.new ≡ after_turns count channel agent.old) }
    ensures over { IfOk result (λ is_over. is_over ≡ end_is_taken count channel agent.old) }
{
    let mut is_over = false;
    for _ in 0..count {
        is_over |= take_one(agent, channel)?;
    }
    Ok(is_over)
}

/// Takes a message, if there is one. Answers whether it was the end of the channel.
fn take_one(agent: &mut AgentNode, channel: u64) -> Result<bool, AllocError>
    ensures agent { OnOk result (agent.new ≡ (turned channel agent.old).1) }
    ensures over { IfOk result (λ is_over. is_over ≡ closes (turned channel agent.old).0) }
{
    let turned = agent.turn(channel)?;
    Ok(closes(&turned))
}

/// Whether the end of the channel was taken.
fn closes(turned: &Turned) -> bool
    ensures { result ≡ closes turned.now }
{
    matches!(turned, Turned::Took(Some(Input::Closed(_))))
}
