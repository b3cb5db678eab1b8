//! The steps that are drawn.
ghost use Rattle.std.specs.Prelude.{◌≡◌, ◌<◌, ◌++◌, IfOk, OnOk};
ghost use Rattle.tcf_schedules.specs.Plan.{plan_of, plans_of};
ghost use Rattle.load_schedules.specs.Drawn.{delivery, drawn_step, drawn_steps, after_step, hops_of};
ghost use Rattle.load_schedules.specs.Draws.{after_draws};

use crate::commands::{get_memory, get_state, resume, set_memory, suspend};
use crate::drawing::Draws;
use std::alloc::{AllocError, Global};
use tcf_schedules::{ScheduleStep, ScheduleSteps};
use tcf_values::ContextId;

/// How many value-adds each of the chains A, B and C has.
pub(crate) const ADDS: [usize; 3] = [0, 1, 2];

/// How many hops the chain has: one more than value-adds.
fn hops_of(chain: usize) -> u64
    requires { chain < 3 }
    ensures hops { result ≡ hops_of chain }
    ensures some { 0 < result }
{
    ADDS[chain] as u64 + 1
}

/// Some bytes in flight on a hop of the chain arrive.
fn draw_delivery(chain: usize, draws: &mut Draws) -> ScheduleStep
    requires { chain < 3 }
    ensures step { plan_of result ≡ delivery chain draws.old }
    ensures state { draws.new ≡ after_draws 3 draws.old }
{
    ScheduleStep::Deliver {
        chain,
        hop: draws.below(hops_of(chain)) as usize,
        up: draws.below(2) == 0,
        count: 1 + draws.below(200) as u32,
    }
}

/// Draws a step.
#[tactic(auto, unfolding(crate::specs::Drawn::drawn_step, crate::specs::Drawn::after_step))]
fn draw_step(alloc: Global, draws: &mut Draws) -> Result<ScheduleStep, AllocError>
    ensures step { IfOk result (λ made. plan_of made ≡ drawn_step draws.old) }
    ensures state { OnOk result (draws.new ≡ after_step draws.old) }
{
    let chain = draws.below(3) as usize;
    match draws.below(8) {
        0 => resume(alloc, chain),
        1 => suspend(alloc, chain),
        2 => get_state(alloc, chain),
        3 => get_memory(alloc, chain, 4 * draws.below(64)),
        4 => set_memory(alloc, chain, 1_024 + 4 * draws.below(64)),
        5 => Ok(ScheduleStep::Tick {
            thread: ContextId::Thread(1, 1),
        }),
        6 => Ok(draw_delivery(chain, draws)),
        _ => Ok(ScheduleStep::Rounds { count: 1 }),
    }
}

/// Puts so many drawn steps last.
pub(crate) fn push_drawn(
    alloc: Global,
    count: usize,
    draws: &mut Draws,
    steps: &mut ScheduleSteps,
) -> Result<(), AllocError>
    ensures { OnOk result (plans_of steps.new ≡ plans_of steps.old ++ drawn_steps count draws.old) }
{
    for _ in 0..count {
        let step = draw_step(alloc, draws)?;
        steps.push(step)?;
    }
    Ok(())
}
