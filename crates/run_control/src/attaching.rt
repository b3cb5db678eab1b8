//! Start, attach and detach.
ghost use Rattle.std.specs.Prelude.{◌≡◌, ◌<◌, map, Some, None, IfErr, IfOk, OnErr, OnOk};
ghost use Rattle.tcf_values.specs.Effects.{tells};
ghost use Rattle.target_contexts.specs.Refusals.{IsRefusalOf};
ghost use Rattle.target_contexts.specs.Changes.{with_change};
ghost use Rattle.target_contexts.specs.Starting.{first_state, started};
ghost use Rattle.run_control.specs.Laws.{uncounted};
ghost use Rattle.run_control.specs.Steering.{with_state};
ghost use Rattle.run_control.specs.Asking.{process_answer};
ghost use Rattle.run_control.specs.Attaching.{attach_after, attach_events, attach_fault, detach_after, detach_events, detach_fault, process_there, start_events, start_fault, with_states};
ghost use Rattle.run_control.specs.Commands.{events_of, left_of};
ghost use Rattle.run_control.specs.Naming.{process_named};
ghost use Rattle.run_control.specs.Refusing.{IfDue};
ghost use Rattle.run_control.specs.TargetValue.{target_of};

use crate::asking::process_answer;
use crate::named::live_process;
use crate::steering::{set_one, suspended};
use crate::telling::{
    tell_added, tell_all_resumed, tell_all_suspended, tell_changed, tell_statuses,
};
use breakpoints::Breakpoints;
use std::alloc::{AllocError, Global};
use target_contexts::{StartRefusal, Targets, ThreadState, Threads};
use tcf_values::{Effect, Events, Fault, Refusal, Text};

/// Processes.start: starts a process from the image of this name. With `attach` its one thread is suspended, else it runs.
pub(crate) fn start(
    alloc: Global,
    targets: &mut Targets,
    bps: &Breakpoints,
    file: &Text,
    attach: bool,
) -> Result<Effect, Refusal>
    ensures effect { IfOk result (λ effect. effect
        ≡ tells (start_events targets.old.seen.next (target_of targets.new.seen bps.now)) (process_answer (Some targets.old.seen.next) targets.new.seen.processes)) }
    ensures free { OnOk result (start_fault file.now targets.old.seen ≡ None) }
    ensures after { OnOk result (targets.new.seen ≡ started file.now attach targets.old.seen) }
    ensures refused { IfErr result (IsRefusalOf (start_fault file.now targets.old.seen)) }
    ensures kept { IfErr result (λ refusal. IfDue refusal (targets.new.seen ≡ targets.old.seen)) }
{
    let number = add(targets, file, attach)?;
    let mut events = Events::new(alloc);
    tell_added(targets, number, &mut events)?;
    tell_all_suspended(alloc, targets, number, &mut events)?;
    tell_statuses(targets, bps, &mut events)?;
    let answer = process_answer(alloc, targets, number)?;
    Ok(Effect::tells(alloc, events, answer))
}

/// The process more. A refused call changes nothing.
fn add(targets: &mut Targets, file: &Text, attach: bool) -> Result<u32, Refusal>
    ensures number { IfOk result (λ number. number ≡ targets.old.seen.next) }
    ensures free { OnOk result (start_fault file.now targets.old.seen ≡ None) }
    ensures after { OnOk result (targets.new.seen ≡ started file.now attach targets.old.seen) }
    ensures refused { IfErr result (IsRefusalOf (start_fault file.now targets.old.seen)) }
    ensures kept { OnErr result (targets.new.seen ≡ targets.old.seen) }
{
    match targets.add(file.as_bytes(), attach) {
        Ok(number) => Ok(number),
        Err(StartRefusal::Size) => Err(Fault::BadSize.into()),
        Err(StartRefusal::NoMemory) => Err(Refusal::NoMemory),
        Err(_) => Err(Fault::Other.into()),
    }
}

/// Processes.attach: the process is attached, its threads are suspended, and the counts of hits in it are dropped.
#[tactic(auto, using(crate::proofs::Counted::forgotten_alone))]
pub(crate) fn attach(
    alloc: Global,
    targets: &mut Targets,
    bps: &mut Breakpoints,
    id: &Text,
) -> Result<Events, Refusal>
    ensures events { IfOk result (λ events. events ≡ events_of (λ number. attach_events number (target_of targets.new.seen bps.new)) (process_named id.now)) }
    ensures free { OnOk result (attach_fault id.now targets.old.seen.processes ≡ None) }
    ensures after { OnOk result (target_of targets.new.seen bps.new ≡ left_of attach_after (process_named id.now) (target_of targets.old.seen bps.old)) }
    ensures refused { IfErr result (IsRefusalOf (attach_fault id.now targets.old.seen.processes)) }
    ensures kept { IfErr result (λ refusal. IfDue refusal (target_of targets.new.seen bps.new ≡ target_of targets.old.seen bps.old)) }
    ensures points { uncounted bps.new ≡ uncounted bps.old }
{
    let number = to_attach(targets, id)?;
    set_attached(alloc, targets, number, true)?;
    bps.forget(number);
    let mut events = Events::new(alloc);
    tell_changed(alloc, targets, number, &mut events)?;
    tell_all_suspended(alloc, targets, number, &mut events)?;
    tell_statuses(targets, bps, &mut events)?;
    Ok(events)
}

/// The checks of an attach.
fn to_attach(targets: &Targets, id: &Text) -> Result<u32, Fault>
    ensures number { IfOk result (λ number. process_named id.now ≡ Some number) }
    ensures free { OnOk result (attach_fault id.now targets.now.seen.processes ≡ None) }
    ensures due { IfErr result (λ fault. attach_fault id.now targets.now.seen.processes ≡ Some fault) }
{
    let number = live_process(targets, id)?;
    if targets.is_attached(number) {
        return Err(Fault::AlreadyAttached);
    }
    Ok(number)
}

/// Attaches a live process, and suspends its threads, or detaches it, and lets them run.
fn set_attached(
    alloc: Global,
    targets: &mut Targets,
    number: u32,
    attached: bool,
) -> Result<(), AllocError>
    ensures { OnOk result (targets.new.seen
        ≡ with_change (λ process. record (with_states (first_state attached) process) { attached = attached }) number targets.old.seen) }
{
    if let Some(process) = targets.process_mut(number) {
        set_states(alloc, &mut process.threads, attached)?;
        process.attached = attached;
    }
    Ok(())
}

/// Suspends all threads, or lets them run.
#[tactic(auto, using(crate::proofs::Loops::states_more))]
fn set_states(alloc: Global, threads: &mut Threads, attached: bool) -> Result<(), AllocError>
    ensures { OnOk result (threads.new ≡ map (with_state (first_state attached)) threads.old) }
{
    for place in 0..threads.count() {
        let state = state_when(alloc, attached)?;
        set_one(threads, place + 1, state);
    }
    Ok(())
}

/// The state of a thread when its process is attached or detached.
fn state_when(alloc: Global, attached: bool) -> Result<ThreadState, AllocError>
    ensures { IfOk result (λ state. state ≡ first_state attached) }
{
    if attached {
        suspended(alloc)
    } else {
        Ok(ThreadState::Running { left: None })
    }
}

/// Processes.detach: the process is no longer attached, and its threads run. Instructions that were left to step are
/// forgotten, and the counts of hits in it are dropped.
#[tactic(auto, using(crate::proofs::Counted::forgotten_alone))]
pub(crate) fn detach(
    alloc: Global,
    targets: &mut Targets,
    bps: &mut Breakpoints,
    id: &Text,
) -> Result<Events, Refusal>
    ensures events { IfOk result (λ events. events
        ≡ events_of (λ number. detach_events (process_there id.now targets.old.seen.processes) number (target_of targets.new.seen bps.new)) (process_named id.now)) }
    ensures free { OnOk result (detach_fault id.now targets.old.seen.processes ≡ None) }
    ensures after { OnOk result (target_of targets.new.seen bps.new ≡ left_of detach_after (process_named id.now) (target_of targets.old.seen bps.old)) }
    ensures refused { IfErr result (IsRefusalOf (detach_fault id.now targets.old.seen.processes)) }
    ensures kept { IfErr result (λ refusal. IfDue refusal (target_of targets.new.seen bps.new ≡ target_of targets.old.seen bps.old)) }
    ensures points { uncounted bps.new ≡ uncounted bps.old }
{
    let number = to_detach(targets, id)?;
    let stood = targets.suspended_threads(number)?;
    set_attached(alloc, targets, number, false)?;
    bps.forget(number);
    let mut events = Events::new(alloc);
    tell_changed(alloc, targets, number, &mut events)?;
    tell_all_resumed(alloc, number, &stood, &mut events)?;
    tell_statuses(targets, bps, &mut events)?;
    Ok(events)
}

/// The checks of a detach.
fn to_detach(targets: &Targets, id: &Text) -> Result<u32, Fault>
    ensures number { IfOk result (λ number. process_named id.now ≡ Some number) }
    ensures positive { IfOk result (λ number. 0 < number) }
    ensures free { OnOk result (detach_fault id.now targets.now.seen.processes ≡ None) }
    ensures due { IfErr result (λ fault. detach_fault id.now targets.now.seen.processes ≡ Some fault) }
{
    let number = live_process(targets, id)?;
    if !targets.is_attached(number) {
        return Err(Fault::Other);
    }
    Ok(number)
}
