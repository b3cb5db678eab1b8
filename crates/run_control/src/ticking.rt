//! A tick: one instruction of a thread that runs.
ghost use Rattle.std.specs.Prelude.{◌≡◌, ◌<◌, false, Some, None, IfNone, IfOk, IfSome, OnOk, option_map};
ghost use Rattle.std.specs.Option.{option_map_or};
ghost use Rattle.target_contexts.specs.Changes.{with_change};
ghost use Rattle.target_contexts.specs.Live.{process_of};
ghost use Rattle.target_contexts.specs.Threads.{thread_at};
ghost use Rattle.run_control.specs.Executing.{hits_at, lives, stepped};
ghost use Rattle.run_control.specs.Laws.{uncounted};
ghost use Rattle.run_control.specs.Naming.{is_empty};
ghost use Rattle.run_control.specs.TargetValue.{target_of};
ghost use Rattle.run_control.specs.Ticking.{counted, counted_by, counted_in, counts_after, hit_state, is_stopped, raised_for, running_pair, tick_after, tick_events, tick_fate, tick_process, tick_settled, ticked, ticked_events};

use crate::executing::{
    Executed, Fate, Settled, execute_one, fate_of, finish, settle, stopped_by_breakpoints,
    stopped_by_step,
};
use breakpoints::{Breakpoints, Hits};
use std::alloc::{AllocError, Global};
use target_contexts::{Process, Targets, ThreadState, thread_for};
use tcf_values::{ContextId, Duplicate, Events, Texts};

/// Executes one instruction of a thread, and answers the events of it. `None` comes exactly where that isn't a live
/// thread that runs, and then nothing changes, whatever the memory.
///
/// An exit ends the process with its code. An exception suspends the thread where its process is attached, and else
/// ends the process with the code -2. A thread that the instruction asks for begins, where it can, and is told first.
///
/// After an executed instruction the counts of the breakpoints at the new pc are raised. Where one of them is above its
/// IgnoreCount, they suspend the thread; else the last of the instructions that were left to step does, and names them
/// too. Their statuses are told last, behind contextChanged of them where the thread runs on and they are several. A thread
/// that runs on and hits nothing tells nothing else.
pub fn step(
    alloc: Global,
    targets: &mut Targets,
    bps: &mut Breakpoints,
    thread: ContextId,
) -> Result<Option<Events>, AllocError>
    ensures events { IfOk result (λ told. told ≡ tick_events thread (target_of targets.old.seen bps.old)) }
    ensures after { OnOk result (target_of targets.new.seen bps.new ≡ tick_after thread (target_of targets.old.seen bps.old)) }
    ensures idle { IfNone (tick_events thread (target_of targets.old.seen bps.old)) (result ≡ Ok None) }
    ensures points { uncounted bps.new ≡ uncounted bps.old }
{
    match running_pair(targets, thread) {
        Some((number, n)) => Ok(Some(tick(alloc, targets, bps, number, n)?)),
        None => Ok(None),
    }
}

/// The process of a thread and the thread's number, where it lives and runs.
fn running_pair(targets: &Targets, thread: ContextId) -> Option<(u32, u32)>
    ensures pair { result ≡ running_pair thread targets.now.seen.processes }
    ensures positive { IfSome result (λ pair. 0 < pair.0) }
    ensures numbered { IfSome result (λ pair. 0 < pair.1) }
{
    let (number, n) = thread_for(thread)?;
    let thread = targets.thread(number, n)?;
    if thread.state.runs() {
        Some((number, n))
    } else {
        None
    }
}

/// Executes one instruction of a thread of a live process.
#[tactic(auto, using(crate::proofs::Settled::tick_after_is, crate::proofs::Settled::tick_events_are))]
fn tick(
    alloc: Global,
    targets: &mut Targets,
    bps: &mut Breakpoints,
    number: u32,
    n: u32,
) -> Result<Events, AllocError>
    requires process { 0 < number }
    requires thread { 0 < n }
    ensures events { IfOk result (λ events. events ≡ ticked_events number n (target_of targets.old.seen bps.old)) }
    ensures after { OnOk result (target_of targets.new.seen bps.new ≡ ticked number n (target_of targets.old.seen bps.old)) }
    ensures points { uncounted bps.new ≡ uncounted bps.old }
{
    match execute_in(alloc, targets, bps, number, n)? {
        Some(settled) => finish(alloc, targets, bps, number, settled),
        None => Ok(Events::new(alloc)),
    }
}

/// Executes the instruction, gives the thread its state, and answers what is left to be done; `None` where the process
/// doesn't live.
fn execute_in(
    alloc: Global,
    targets: &mut Targets,
    bps: &mut Breakpoints,
    number: u32,
    n: u32,
) -> Result<Option<Settled>, AllocError>
    requires process { 0 < number }
    requires thread { 0 < n }
    ensures settled { IfOk result (λ settled. settled ≡ option_map (tick_settled bps.old number n) (process_of number targets.old.seen.processes)) }
    ensures after { OnOk result (targets.new.seen ≡ with_change (tick_process bps.old number n) number targets.old.seen) }
    ensures counted { OnOk result (bps.new ≡ option_map_or (counts_after bps.old number n) (process_of number targets.old.seen.processes) bps.old) }
    ensures points { uncounted bps.new ≡ uncounted bps.old }
{
    match targets.process_mut(number) {
        Some(process) => {
            let before = process.threads.count();
            let fate = tick_fate(alloc, process, bps, number, n)?;
            Ok(Some(settle(alloc, process, number, n, before, fate)?))
        }
        None => Ok(None),
    }
}

/// Executes the instruction of a thread of a process, raises the counts of the breakpoints that it hits then, and answers
/// what becomes of the process.
fn tick_fate(
    alloc: Global,
    process: &mut Process,
    bps: &mut Breakpoints,
    number: u32,
    n: u32,
) -> Result<Fate, AllocError>
    ensures fate { IfOk result (λ fate. fate ≡ tick_fate bps.old number n process.old.seen) }
    ensures after { OnOk result (process.new.seen ≡ stepped n process.old.seen) }
    ensures counted { OnOk result (bps.new ≡ counts_after bps.old number n process.old.seen) }
    ensures points { uncounted bps.new ≡ uncounted bps.old }
{
    let attached = process.attached;
    let plain = counted_in(alloc, process, n)?;
    match execute_one(process, n)? {
        Executed::Plain => {
            let hits = count(alloc, process, bps, number, n)?;
            hit_fate(alloc, plain, hits)
        }
        executed => fate_of(alloc, plain, attached, executed),
    }
}

/// Raises the counts of the breakpoints that a thread of a process hits where it stands, and tells which these are.
#[tactic(auto, using(crate::proofs::Counted::counted_alone))]
fn count(
    alloc: Global,
    process: &Process,
    bps: &mut Breakpoints,
    number: u32,
    n: u32,
) -> Result<Hits, AllocError>
    ensures ids { IfOk result (λ hits. hits.ids ≡ hits_at bps.old number n process.now.seen) }
    ensures stops { IfOk result (λ hits. hits.stops ≡ is_stopped bps.old number n process.now.seen) }
    ensures counted { OnOk result (bps.new ≡ raised_for bps.old number n process.now.seen) }
    ensures points { uncounted bps.new ≡ uncounted bps.old }
{
    match process.threads.get(n) {
        Some(thread) => bps.count(number, process.attached, thread.cpu.pc),
        None => Ok(Hits {
            ids: Texts::new(alloc),
            stops: false,
        }),
    }
}

/// What becomes of a process whose thread hits this, and has the plain state where nothing is hit.
fn hit_fate(alloc: Global, plain: ThreadState, hits: Hits) -> Result<Fate, AllocError>
    ensures { IfOk result (λ fate. fate ≡ lives (hit_state hits.ids hits.stops plain) hits.ids) }
{
    if hits.ids.is_empty() {
        return Ok(Fate::Lives {
            state: plain,
            hits: hits.ids,
        });
    }
    Ok(Fate::Lives {
        state: hit_state(alloc, plain, &hits)?,
        hits: hits.ids,
    })
}

/// The state of a thread that hits this: it is stopped, or it has the plain state. Where it is suspended, it names what it
/// hits.
fn hit_state(alloc: Global, plain: ThreadState, hits: &Hits) -> Result<ThreadState, AllocError>
    requires { is_empty hits.now.ids ≡ false }
    ensures { IfOk result (λ state. state ≡ hit_state hits.now.ids hits.now.stops plain) }
{
    if hits.stops {
        return stopped_by_breakpoints(alloc, &hits.ids);
    }
    match plain {
        ThreadState::Running { left } => Ok(ThreadState::Running { left }),
        ThreadState::Suspended { reason, .. } => Ok(ThreadState::Suspended {
            reason,
            hits: hits.ids.copy()?,
        }),
    }
}

/// The state of a thread of a process after an executed instruction without a hit.
fn counted_in(alloc: Global, process: &Process, n: u32) -> Result<ThreadState, AllocError>
    ensures { IfOk result (λ after. after ≡ counted_in (thread_at n process.now.seen)) }
{
    match process.threads.get(n) {
        Some(thread) => counted(alloc, &thread.state),
        None => Ok(ThreadState::Running { left: None }),
    }
}

/// The state of a thread after an executed instruction without a hit: it counts down what is left to step.
fn counted(alloc: Global, state: &ThreadState) -> Result<ThreadState, AllocError>
    ensures { IfOk result (λ after. after ≡ counted state.now) }
{
    match state {
        ThreadState::Running { left: None } => Ok(ThreadState::Running { left: None }),
        ThreadState::Running { left: Some(left) } => counted_down(alloc, *left),
        ThreadState::Suspended { reason, hits } => Ok(ThreadState::Suspended {
            reason: reason.copy()?,
            hits: hits.copy()?,
        }),
    }
}

fn counted_down(alloc: Global, left: u32) -> Result<ThreadState, AllocError>
    ensures { IfOk result (λ after. after ≡ counted_by (Some left)) }
{
    if left > 1 {
        Ok(ThreadState::Running {
            left: Some(left - 1),
        })
    } else {
        stopped_by_step(alloc)
    }
}
