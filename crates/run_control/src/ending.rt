//! The end of a process.
ghost use Rattle.std.specs.Prelude.{◌≡◌, ◌<◌, None, IfErr, IfOk, OnOk};
ghost use Rattle.target_contexts.specs.Refusals.{IsRefusalOf};
ghost use Rattle.target_contexts.specs.Named.{number_named};
ghost use Rattle.run_control.specs.Asking.{process_fault};
ghost use Rattle.run_control.specs.Commands.{events_of, left_of, terminate_events};
ghost use Rattle.run_control.specs.Ending.{end_after, end_events, terminate_fault};
ghost use Rattle.run_control.specs.Laws.{uncounted};
ghost use Rattle.run_control.specs.Naming.{process_named};
ghost use Rattle.run_control.specs.Refusing.{IfDue};
ghost use Rattle.run_control.specs.TargetValue.{target_of};

use crate::named::{live, live_process};
use crate::telling::{tell_ended, tell_statuses};
use breakpoints::Breakpoints;
use std::alloc::{AllocError, Global};
use target_contexts::Targets;
use tcf_values::{Events, Refusal, Text};

/// The code of a process that is terminated.
const TERMINATED: i32 = -1;

/// Ends a process, drops the counts of hits in it, and tells of it: contextRemoved of so many threads, which it had before
/// the input, and of the process, exited with the code, and the statuses after the end.
#[tactic(auto, using(crate::proofs::Counted::forgotten_alone))]
pub(crate) fn end(
    alloc: Global,
    targets: &mut Targets,
    bps: &mut Breakpoints,
    number: u32,
    count: u32,
    code: i32,
) -> Result<Events, AllocError>
    requires { 0 < number }
    ensures events { IfOk result (λ events. events ≡ end_events number count code (target_of targets.new.seen bps.new)) }
    ensures after { OnOk result (target_of targets.new.seen bps.new ≡ end_after number (target_of targets.old.seen bps.old)) }
    ensures points { uncounted bps.new ≡ uncounted bps.old }
{
    let mut events = Events::new(alloc);
    tell_ended(alloc, number, count, code, &mut events)?;
    targets.remove(number);
    bps.forget(number);
    tell_statuses(targets, bps, &mut events)?;
    Ok(events)
}

/// Ends a process on request.
fn terminated(
    alloc: Global,
    targets: &mut Targets,
    bps: &mut Breakpoints,
    number: u32,
) -> Result<Events, AllocError>
    requires { 0 < number }
    ensures events { IfOk result (λ events. events ≡ terminate_events number (target_of targets.old.seen bps.old) (target_of targets.new.seen bps.new)) }
    ensures after { OnOk result (target_of targets.new.seen bps.new ≡ end_after number (target_of targets.old.seen bps.old)) }
    ensures points { uncounted bps.new ≡ uncounted bps.old }
{
    let count = targets.thread_count(number);
    end(alloc, targets, bps, number, count, TERMINATED)
}

/// RunControl.terminate: ends the process that a process's or a thread's ID stands for.
pub(crate) fn terminate(
    alloc: Global,
    targets: &mut Targets,
    bps: &mut Breakpoints,
    id: &Text,
) -> Result<Events, Refusal>
    ensures events { IfOk result (λ events. events
        ≡ events_of (λ number. terminate_events number (target_of targets.old.seen bps.old) (target_of targets.new.seen bps.new)) (number_named id.now)) }
    ensures free { OnOk result (terminate_fault id.now targets.old.seen.processes ≡ None) }
    ensures after { OnOk result (target_of targets.new.seen bps.new ≡ left_of end_after (number_named id.now) (target_of targets.old.seen bps.old)) }
    ensures refused { IfErr result (IsRefusalOf (terminate_fault id.now targets.old.seen.processes)) }
    ensures kept { IfErr result (λ refusal. IfDue refusal (target_of targets.new.seen bps.new ≡ target_of targets.old.seen bps.old)) }
    ensures points { uncounted bps.new ≡ uncounted bps.old }
{
    let number = live(targets, id)?;
    Ok(terminated(alloc, targets, bps, number)?)
}

/// Processes.terminate: ends a process.
pub(crate) fn terminate_process(
    alloc: Global,
    targets: &mut Targets,
    bps: &mut Breakpoints,
    id: &Text,
) -> Result<Events, Refusal>
    ensures events { IfOk result (λ events. events
        ≡ events_of (λ number. terminate_events number (target_of targets.old.seen bps.old) (target_of targets.new.seen bps.new)) (process_named id.now)) }
    ensures free { OnOk result (process_fault id.now targets.old.seen.processes ≡ None) }
    ensures after { OnOk result (target_of targets.new.seen bps.new ≡ left_of end_after (process_named id.now) (target_of targets.old.seen bps.old)) }
    ensures refused { IfErr result (IsRefusalOf (process_fault id.now targets.old.seen.processes)) }
    ensures kept { IfErr result (λ refusal. IfDue refusal (target_of targets.new.seen bps.new ≡ target_of targets.old.seen bps.old)) }
    ensures points { uncounted bps.new ≡ uncounted bps.old }
{
    let number = live_process(targets, id)?;
    Ok(terminated(alloc, targets, bps, number)?)
}
