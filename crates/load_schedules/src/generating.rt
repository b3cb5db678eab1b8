//! The schedule of a number.
ghost use Rattle.std.specs.Prelude.{◌≡◌, ◌++◌, ◌∷◌, [], IfOk, OnOk};
ghost use Rattle.tcf_schedules.specs.Plan.{AreSteps, plan_of, plans_of, rounds};
ghost use Rattle.tcf_schedules.specs.Schedule.{head_of, meaning};
ghost use Rattle.load_schedules.specs.Drawn.{chain_heads};
ghost use Rattle.load_schedules.specs.Generated.{IsSaidByAFile, all_steps, generated, loop_image, openings, redirect, redirects, starting};

use crate::commands::{redirect, start};
use crate::drawing::Draws;
use crate::drawn::{ADDS, push_drawn};
use crate::laws::{generates_what_is_said, what_is_generated_is_within};
use std::alloc::{AllocError, Global};
use tcf_outside::Octets;
use tcf_schedules::{
    ChainHead, ChainHeads, NamedImage, NamedImages, Schedule, ScheduleStep, ScheduleSteps,
};
use tcf_values::{Bytes, Text};

/// How many steps are drawn.
const DRAWN: usize = 20_000;

/// The image `loop`: addi x1,x1,1; addi x2,x2,1; jal x0,-8.
const LOOP: [u8; 12] = [
    0x93, 0x80, 0x10, 0x00, 0x13, 0x01, 0x11, 0x00, 0x6f, 0xf0, 0x9f, 0xff,
];

/// The image that the process P1 is started from.
#[tactic(auto, unfolding(hex::specs::Hex::decode_pairs, tcf_schedules::specs::Words::dash_word))]
fn loop_image(alloc: Global) -> Result<NamedImage, AllocError>
    ensures { IfOk result (λ made. made ≡ loop_image) }
{
    Ok(NamedImage {
        name: Text::from_str(alloc, "loop")?,
        bytes: Bytes::from_slice(alloc, &LOOP)?,
    })
}

fn images(alloc: Global) -> Result<NamedImages, AllocError>
    ensures { IfOk result (λ images. images ≡ loop_image ∷ []) }
{
    let mut images = NamedImages::new(alloc);
    images.push(loop_image(alloc)?)?;
    Ok(images)
}

fn head(alloc: Global, name: &[u8], adds: usize) -> Result<ChainHead, AllocError>
    ensures { IfOk result (λ made. made ≡ head_of name.now adds) }
{
    Ok(ChainHead {
        name: Octets::from_slice(alloc, name)?,
        adds,
    })
}

fn chains(alloc: Global) -> Result<ChainHeads, AllocError>
    ensures { IfOk result (λ chains. chains ≡ chain_heads) }
{
    let heads = vec![in alloc;
        head(alloc, b"A", ADDS[0])?,
        head(alloc, b"B", ADDS[1])?,
        head(alloc, b"C", ADDS[2])?,
    ]?;
    Ok(ChainHeads::from_vec(heads))
}

/// Puts the step last.
fn put(step: ScheduleStep, steps: &mut ScheduleSteps) -> Result<(), AllocError>
    ensures { OnOk result (plans_of steps.new ≡ plans_of steps.old ++ plan_of step ∷ []) }
{
    steps.push(step)
}

fn push_rounds(count: u32, steps: &mut ScheduleSteps) -> Result<(), AllocError>
    ensures { OnOk result (plans_of steps.new ≡ plans_of steps.old ++ rounds count ∷ []) }
{
    put(ScheduleStep::Rounds { count }, steps)
}

/// Each chain is opened.
fn push_openings(steps: &mut ScheduleSteps) -> Result<(), AllocError>
    ensures { OnOk result (plans_of steps.new ≡ plans_of steps.old ++ openings) }
{
    put(ScheduleStep::Opens { chain: 0 }, steps)?;
    put(ScheduleStep::Opens { chain: 1 }, steps)?;
    put(ScheduleStep::Opens { chain: 2 }, steps)?;
    push_rounds(1, steps)
}

/// The chain is led on to this peer.
fn push_redirect(
    alloc: Global,
    chain: usize,
    peer: &str,
    steps: &mut ScheduleSteps,
) -> Result<(), AllocError>
    ensures { OnOk result (plans_of steps.new ≡ plans_of steps.old ++ redirect chain peer.now ∷ []) }
{
    put(redirect(alloc, chain, peer)?, steps)
}

/// The chains with value-adds are led up to the agent.
fn push_redirects(alloc: Global, steps: &mut ScheduleSteps) -> Result<(), AllocError>
    ensures { OnOk result (plans_of steps.new ≡ plans_of steps.old ++ redirects) }
{
    push_redirect(alloc, 1, "\"Agent\"", steps)?;
    push_redirect(alloc, 2, "\"V2\"", steps)?;
    push_rounds(1, steps)?;
    push_redirect(alloc, 2, "\"Agent\"", steps)?;
    push_rounds(1, steps)
}

/// The process P1 is started.
fn push_start(alloc: Global, steps: &mut ScheduleSteps) -> Result<(), AllocError>
    ensures { OnOk result (plans_of steps.new ≡ plans_of steps.old ++ starting) }
{
    put(start(alloc)?, steps)?;
    push_rounds(2, steps)
}

/// All steps of the number's schedule.
fn all_steps(alloc: Global, number: u64) -> Result<ScheduleSteps, AllocError>
    ensures { IfOk result (λ steps. plans_of steps ≡ all_steps number) }
{
    let mut steps = ScheduleSteps::new(alloc);
    push_openings(&mut steps)?;
    push_redirects(alloc, &mut steps)?;
    push_start(alloc, &mut steps)?;
    push_drawn(alloc, DRAWN, &mut Draws::new(number), &mut steps)?;
    push_rounds(40, &mut steps)?;
    Ok(steps)
}

/// The schedule that the number gives. Three chains are opened and led up to the agent, and a process is started; then
/// come 20,000 steps that are drawn from the number, and at last 40 rounds. Only want of memory refuses it.
pub fn generate(alloc: Global, number: u64) -> Result<Schedule, AllocError>
    ensures made { IfOk result (λ schedule. meaning schedule ≡ generated number) }
    ensures said { IfOk result (λ schedule. IsSaidByAFile (meaning schedule)) }
    ensures within { IfOk result (λ schedule. AreSteps schedule.chains (plans_of schedule.steps)) }
{
    generates_what_is_said();
    what_is_generated_is_within();
    Ok(Schedule {
        images: images(alloc)?,
        chains: chains(alloc)?,
        steps: all_steps(alloc, number)?,
    })
}
