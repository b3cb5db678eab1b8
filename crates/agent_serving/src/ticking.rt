//! The threads of the target go on while nothing comes.
ghost use Rattle.std.specs.Prelude.{◌≡◌, IfOk, OnOk};
ghost use Rattle.agent_serving.specs.Ticking.{after_pass, idled, left_by_pass};

use agent_node::AgentNode;
use std::alloc::AllocError;
use tcf_values::ContextId;

/// The most instructions that are executed while nothing comes, and so the most passes.
const TICKS: u32 = 256;

/// Passes over the running threads, again and again: each executes one instruction in a pass, and 256 are executed at
/// most. A thread that is made in a pass goes on from the next pass on, and one that stopped is passed over.
#[tactic(auto, unfolding(crate::specs::Ticking::idled))]
pub(crate) fn idle(agent: &mut AgentNode) -> Result<(), AllocError>
    ensures { OnOk result (agent.new ≡ idled agent.old) }
{
    let mut left = TICKS;
    for _ in 0..TICKS {
        if left == 0 {
            return Ok(());
        }
        let threads = agent.running()?;
        if threads.as_slice().is_empty() {
            return Ok(());
        }
        left = pass(agent, &threads, left)?;
    }
    Ok(())
}

/// Executes one instruction of each of these threads that runs, so many at most. Answers how many may still be executed.
fn pass(agent: &mut AgentNode, threads: &[ContextId], most: u32) -> Result<u32, AllocError>
    ensures agent { OnOk result (agent.new ≡ after_pass threads.now most agent.old) }
    ensures left { IfOk result (λ left. left ≡ left_by_pass threads.now most agent.old) }
{
    let mut left = most;
    for thread in threads {
        if left == 0 {
            break;
        }
        if agent.tick(*thread)? {
            left -= 1;
        }
    }
    Ok(left)
}
