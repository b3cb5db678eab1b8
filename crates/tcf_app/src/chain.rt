//! The run of `chain`: the schedule is played, and the log of each chain is printed.
ghost use Rattle.std.specs.Prelude.{◌≡◌, ◌++◌, length, IfOk, OnOk};
ghost use Rattle.std.specs.List.{AllByRecursion};
ghost use Rattle.tcf_schedules.specs.Plan.{plans_of};
ghost use Rattle.tcf_schedules.specs.Schedule.{meaning, schedule_of};
ghost use Rattle.chain_world.specs.World.{IsPlayable};
ghost use Rattle.tcf_app.specs.Exit.{TellsFault};
ghost use Rattle.tcf_app.specs.Ending.{Ends, played_ending};
ghost use Rattle.tcf_app.specs.Played.{printed, chain_line, history_line, chains_text, world_of};

use crate::exit::Exit;
use crate::finish::{finish_made, push_line};
use crate::refusing::refuse_line;
use chain_world::World;
use std::alloc::{AllocError, Global};
use tcf_outside::{Octets, Sink};
use tcf_schedules::{ChainHead, Schedule, TextRefusal, read_schedule};
use tcf_text::write_log;
use world_laws::read_is_playable;

/// Appends the line before a chain's log.
#[tactic(auto, unfolding(crate::specs::Played::chain_front))]
pub(crate) fn push_chain(out: &mut Octets, name: &[u8]) -> Result<(), AllocError>
    ensures { OnOk result (out.new ≡ out.old ++ chain_line name.now) }
{
    push_line(out, b"chain ", name)
}

/// Appends the last line.
#[tactic(auto, unfolding(crate::specs::Played::history_front))]
pub(crate) fn push_history(alloc: Global, out: &mut Octets, count: usize) -> Result<(), AllocError>
    ensures { OnOk result (out.new ≡ out.old ++ history_line count) }
{
    let number = format!(in alloc; "{count}")?;
    push_line(out, b"history ", number.as_bytes())
}

/// Appends each chain with its log.
fn push_chains(out: &mut Octets, heads: &[ChainHead], world: &World) -> Result<(), AllocError>
    requires { length heads.now ≡ length world.now.chains }
    ensures { OnOk result (out.new ≡ out.old ++ chains_text 0 heads.now world.now) }
{
    let mut at = 0;
    for head in heads {
        push_chain(out, head.name.as_slice())?;
        write_log(world.log(at), out)?;
        at += 1;
    }
    Ok(())
}

/// The world that playing the schedule brings about.
pub(crate) fn play(alloc: Global, schedule: &Schedule) -> Result<World, AllocError>
    requires { AllByRecursion IsPlayable (plans_of schedule.now.steps) }
    ensures world { IfOk result (λ world. world ≡ world_of (meaning schedule.now)) }
    ensures chains { IfOk result (λ world. length world.chains ≡ length schedule.now.chains) }
{
    let mut world = World::new(alloc, schedule)?;
    world.play_all(schedule.steps.as_slice())?;
    Ok(world)
}

/// The text of a world that was played: each chain with its log, and the length of the history.
fn text_of_world(alloc: Global, heads: &[ChainHead], world: &World) -> Result<Octets, AllocError>
    requires { length heads.now ≡ length world.now.chains }
    ensures { IfOk result (λ text. text ≡ chains_text 0 heads.now world.now ++ history_line (length world.now.history)) }
{
    let mut text = Octets::new(alloc);
    push_chains(&mut text, heads, world)?;
    push_history(alloc, &mut text, world.history().len())?;
    Ok(text)
}

/// The text of the schedule, played.
fn text_of(alloc: Global, schedule: &Schedule) -> Result<Octets, AllocError>
    requires { AllByRecursion IsPlayable (plans_of schedule.now.steps) }
    ensures { IfOk result (λ text. text ≡ printed (meaning schedule.now)) }
{
    let world = play(alloc, schedule)?;
    text_of_world(alloc, schedule.chains.as_slice(), &world)
}

/// Plays the schedule that the file says, and puts what comes of it.
pub(crate) fn play_file<S: Sink>(alloc: Global, file: &[u8], out: &mut S) -> Exit
    ensures ends { Ends (played_ending (schedule_of file.now)) result (S.seen out.old) (S.seen out.new) }
    ensures fault { TellsFault result (S.seen out.old) (S.seen out.new) }
{
    read_is_playable();
    match read_schedule(alloc, file) {
        Ok(schedule) => finish_made(out, text_of(alloc, &schedule), Exit::Done),
        Err(TextRefusal::Bad { line, what }) => refuse_line(alloc, line, what, out),
        Err(TextRefusal::NoMemory) => Exit::NoMemory,
    }
}
