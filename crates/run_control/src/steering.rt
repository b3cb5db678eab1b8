//! Resume and suspend.
ghost use Rattle.std.specs.Prelude.{◌≡◌, ◌<◌, ◌≤ℤ◌, pos, [], Some, None, IfErr, IfOk, OnErr, OnOk};
ghost use Rattle.target_contexts.specs.Refusals.{IsRefusalOf};
ghost use Rattle.target_contexts.specs.ThreadList.{changed_numbered};
ghost use Rattle.target_contexts.specs.Named.{thread_named};
ghost use Rattle.target_contexts.specs.Starting.{suspended_text};
ghost use Rattle.run_control.specs.Commands.{events_of, left_of};
ghost use Rattle.run_control.specs.Refusing.{IfDue};
ghost use Rattle.run_control.specs.Steering.{is_no_count, left_by, most_steps, resume_after, resume_fault, state_after, suspend_after, suspend_events, suspend_fault, with_state};
ghost use Rattle.run_control.specs.Telling.{resumed_events};

use crate::named::live_thread;
use crate::telling::{tell_resumed, tell_suspended};
use std::alloc::{AllocError, Global};
use target_contexts::{Targets, ThreadState, Threads};
use tcf_values::{Events, Fault, Refusal, Text, Texts};

/// The mode that goes on.
const GO: i128 = 0;

/// The mode that steps so many instructions.
const STEP: i128 = 2;

/// How many instructions can be stepped or traced at once.
pub(crate) const MOST_STEPS: i128 = 64;

#[tactic(auto, unfolding(target_contexts::specs::Starting::suspended_text))]
fn suspended_text(alloc: Global) -> Result<Text, AllocError>
    ensures { IfOk result (λ text. text ≡ suspended_text) }
{
    Text::from_str(alloc, "Suspended")
}

/// The state of a thread that is suspended on request.
pub(crate) fn suspended(alloc: Global) -> Result<ThreadState, AllocError>
    ensures { IfOk result (λ state. state ≡ ThreadState.Suspended suspended_text []) }
{
    Ok(ThreadState::Suspended {
        reason: suspended_text(alloc)?,
        hits: Texts::new(alloc),
    })
}

/// Gives a thread of a live process another state.
pub(crate) fn set_state(targets: &mut Targets, number: u32, n: u32, state: ThreadState)
    ensures { targets.new.seen ≡ state_after state number n targets.old.seen }
{
    if let Some(process) = targets.process_mut(number) {
        set_one(&mut process.threads, n, state);
    }
}

/// Gives the thread of this number another state.
pub(crate) fn set_one(threads: &mut Threads, n: u32, state: ThreadState)
    ensures { threads.new ≡ changed_numbered (with_state state) n threads.old }
{
    if let Some(thread) = threads.get_mut(n) {
        thread.state = state;
    }
}

/// Whether a count is below 1 or above the most that there can be.
pub(crate) fn is_no_count(most: i128, count: i128) -> bool
    ensures { result ≡ is_no_count most count }
{
    count < 1 || most < count
}

/// RunControl.resume: the thread runs, in mode 2 until so many instructions are executed. Of mode and count any number
/// can be asked for. A refused call changes nothing.
pub(crate) fn resume(
    alloc: Global,
    targets: &mut Targets,
    id: &Text,
    mode: i128,
    count: i128,
) -> Result<Events, Refusal>
    ensures events { IfOk result (λ events. events ≡ events_of (λ pair. resumed_events pair.0 pair.1) (thread_named id.now)) }
    ensures free { OnOk result (resume_fault id.now mode count targets.old.seen.processes ≡ None) }
    ensures after { OnOk result (targets.new.seen ≡ left_of (λ pair. resume_after (left_by mode count) pair.0 pair.1) (thread_named id.now) targets.old.seen) }
    ensures refused { IfErr result (IsRefusalOf (resume_fault id.now mode count targets.old.seen.processes)) }
    ensures kept { OnErr result (targets.new.seen ≡ targets.old.seen) }
{
    let (number, n) = to_resume(targets, id, mode, count)?;
    let mut events = Events::new(alloc);
    tell_resumed(alloc, number, n, &mut events)?;
    set_state(targets, number, n, resumed(mode, count));
    Ok(events)
}

/// The state of a thread that is resumed: in mode 2 so many instructions are left to execute.
fn resumed(mode: i128, count: i128) -> ThreadState
    requires lower_bound { pos 1 ≤ℤ count }
    requires upper_bound { count ≤ℤ pos 64 }
    ensures { result ≡ ThreadState.Running (left_by mode count) }
{
    if mode == STEP {
        ThreadState::Running {
            left: Some(count as u32),
        }
    } else {
        ThreadState::Running { left: None }
    }
}

/// The checks of a resume.
fn to_resume(targets: &Targets, id: &Text, mode: i128, count: i128) -> Result<(u32, u32), Fault>
    ensures pair { IfOk result (λ pair. thread_named id.now ≡ Some pair) }
    ensures positive { IfOk result (λ pair. 0 < pair.0) }
    ensures numbered { IfOk result (λ pair. 0 < pair.1) }
    ensures lower_bound { OnOk result (pos 1 ≤ℤ count) }
    ensures upper_bound { OnOk result (count ≤ℤ pos 64) }
    ensures free { OnOk result (resume_fault id.now mode count targets.now.seen.processes ≡ None) }
    ensures due { IfErr result (λ fault. resume_fault id.now mode count targets.now.seen.processes ≡ Some fault) }
{
    let (number, n) = live_thread(targets, id)?;
    if mode != GO && mode != STEP {
        return Err(Fault::Unsupported);
    }
    if is_no_count(most_steps(mode), count) {
        return Err(Fault::BadNumber);
    }
    if targets.is_running(number, n) {
        return Err(Fault::AlreadyRunning);
    }
    Ok((number, n))
}

/// How many instructions a mode can have at most: mode 0 takes the count 1.
fn most_steps(mode: i128) -> i128
    ensures value { result ≡ most_steps mode }
    ensures upper_bound { result ≤ℤ pos 64 }
{
    if mode == STEP { MOST_STEPS } else { 1 }
}

/// RunControl.suspend: the thread is suspended on request.
pub(crate) fn suspend(alloc: Global, targets: &mut Targets, id: &Text) -> Result<Events, Refusal>
    ensures events { IfOk result (λ events. events ≡ events_of (λ pair. suspend_events pair.0 pair.1 targets.new.seen) (thread_named id.now)) }
    ensures free { OnOk result (suspend_fault id.now targets.old.seen.processes ≡ None) }
    ensures after { OnOk result (targets.new.seen ≡ left_of (λ pair. suspend_after pair.0 pair.1) (thread_named id.now) targets.old.seen) }
    ensures refused { IfErr result (IsRefusalOf (suspend_fault id.now targets.old.seen.processes)) }
    ensures kept { IfErr result (λ refusal. IfDue refusal (targets.new.seen ≡ targets.old.seen)) }
{
    let (number, n) = to_suspend(targets, id)?;
    let state = suspended(alloc)?;
    set_state(targets, number, n, state);
    let mut events = Events::new(alloc);
    tell_suspended(alloc, targets, number, n, &mut events)?;
    Ok(events)
}

/// The checks of a suspend.
fn to_suspend(targets: &Targets, id: &Text) -> Result<(u32, u32), Fault>
    ensures pair { IfOk result (λ pair. thread_named id.now ≡ Some pair) }
    ensures free { OnOk result (suspend_fault id.now targets.now.seen.processes ≡ None) }
    ensures due { IfErr result (λ fault. suspend_fault id.now targets.now.seen.processes ≡ Some fault) }
{
    let (number, n) = live_thread(targets, id)?;
    if !targets.is_running(number, n) {
        return Err(Fault::AlreadyStopped);
    }
    if !targets.is_attached(number) {
        return Err(Fault::Other);
    }
    Ok((number, n))
}
