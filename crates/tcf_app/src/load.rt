//! The run of `load`: the schedule that a number gives is played, and the log of each chain is summed up.
ghost use Rattle.std.specs.Prelude.{◌≡◌, ◌++◌, length, IfOk, OnOk};
ghost use Rattle.std.specs.List.{AllByRecursion};
ghost use Rattle.tcf_schedules.specs.Plan.{plans_of};
ghost use Rattle.tcf_schedules.specs.Schedule.{meaning};
ghost use Rattle.chain_world.specs.World.{IsPlayable};
ghost use Rattle.tcf_app.specs.Exit.{TellsFault};
ghost use Rattle.tcf_app.specs.Ending.{Ends, summed_ending};
ghost use Rattle.tcf_app.specs.Played.{history_line, numbered, summed, sums_text};

use crate::chain::{play, push_history};
use crate::exit::Exit;
use crate::finish::finish_made;
use chain_world::World;
use load_schedules::{generate, write_summary};
use std::alloc::{AllocError, Global};
use tcf_outside::{Octets, Sink};
use tcf_schedules::{ChainHead, Schedule};
use world_laws::read_is_playable;

/// Appends the line of each chain that sums up its log.
fn push_sums(out: &mut Octets, heads: &[ChainHead], world: &World) -> Result<(), AllocError>
    requires { length heads.now ≡ length world.now.chains }
    ensures { OnOk result (out.new ≡ out.old ++ sums_text 0 heads.now world.now) }
{
    let mut at = 0;
    for head in heads {
        write_summary(head.name.as_slice(), world.log(at), out)?;
        at += 1;
    }
    Ok(())
}

/// The schedule that the number gives, which can be played since a file says it.
#[tactic(auto, unfolding(crate::specs::Played::numbered))]
fn schedule_of(alloc: Global, number: u64) -> Result<Schedule, AllocError>
    ensures made { IfOk result (λ schedule. meaning schedule ≡ numbered number) }
    ensures playable { IfOk result (λ schedule. AllByRecursion IsPlayable (plans_of schedule.steps)) }
{
    read_is_playable();
    generate(alloc, number)
}

/// The sum of a world that was played: a line for each chain, and the length of the history.
fn sum_of_world(alloc: Global, heads: &[ChainHead], world: &World) -> Result<Octets, AllocError>
    requires { length heads.now ≡ length world.now.chains }
    ensures { IfOk result (λ text. text ≡ sums_text 0 heads.now world.now ++ history_line (length world.now.history)) }
{
    let mut text = Octets::new(alloc);
    push_sums(&mut text, heads, world)?;
    push_history(alloc, &mut text, world.history().len())?;
    Ok(text)
}

/// The sum of the schedule, played.
fn sum_of(alloc: Global, schedule: &Schedule) -> Result<Octets, AllocError>
    requires { AllByRecursion IsPlayable (plans_of schedule.now.steps) }
    ensures { IfOk result (λ text. text ≡ summed (meaning schedule.now)) }
{
    let world = play(alloc, schedule)?;
    sum_of_world(alloc, schedule.chains.as_slice(), &world)
}

/// The sum of the schedule that the number gives, played.
fn text_of(alloc: Global, number: u64) -> Result<Octets, AllocError>
    ensures { IfOk result (λ text. text ≡ summed (numbered number)) }
{
    let schedule = schedule_of(alloc, number)?;
    sum_of(alloc, &schedule)
}

/// Plays the schedule that the number gives, and puts the sum of what comes of it.
pub(crate) fn play_number<S: Sink>(alloc: Global, number: u64, out: &mut S) -> Exit
    ensures ends { Ends (summed_ending number) result (S.seen out.old) (S.seen out.new) }
    ensures fault { TellsFault result (S.seen out.old) (S.seen out.new) }
{
    finish_made(out, text_of(alloc, number), Exit::Done)
}
