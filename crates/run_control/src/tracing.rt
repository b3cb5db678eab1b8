//! Trace.run: several instructions of a suspended thread at once.
ghost use Rattle.std.specs.Prelude.{◌≡◌, ◌<◌, ◌≤◌, ◌≤ℤ◌, pos, length, unsigned_abs, Some, None, IfErr, IfOk, IfSome, OnOk, option_map};
ghost use Rattle.target_contexts.specs.Refusals.{IsRefusalOf};
ghost use Rattle.target_contexts.specs.Changes.{with_change};
ghost use Rattle.target_contexts.specs.Live.{process_of};
ghost use Rattle.target_contexts.specs.Named.{thread_named};
ghost use Rattle.run_control.specs.Commands.{left_of, trace_given};
ghost use Rattle.run_control.specs.Executing.{executed_of, executed_with, hits_at, stepped};
ghost use Rattle.run_control.specs.Laws.{uncounted};
ghost use Rattle.run_control.specs.Refusing.{IfDue};
ghost use Rattle.run_control.specs.TargetValue.{target_of};
ghost use Rattle.run_control.specs.Tracing.{trace_after, trace_fault, trace_of, traced_of, traced_process};

use crate::executing::{
    Executed, Settled, execute_one, fate_of, finish, pc_at, settle, stopped_by_step,
};
use crate::named::live_thread;
use crate::steering::{MOST_STEPS, is_no_count};
use breakpoints::Breakpoints;
use std::alloc::{AllocError, Global};
use target_contexts::{Process, Targets};
use tcf_values::{Answer, Effect, Fault, Numbers, Refusal, Text, Texts};

/// The addresses of the executed instructions, and what becomes of the process.
#[derive(Debug, Drop)]
struct Traced {
    addresses: Numbers,
    settled: Settled,
}

/// Executes up to count instructions of a suspended thread, until breakpoints are hit, an exception is raised or the process
/// exits, and answers how many were executed. Of the count any number can be asked for.
pub(crate) fn run(
    alloc: Global,
    targets: &mut Targets,
    bps: &mut Breakpoints,
    id: &Text,
    count: i128,
) -> Result<Effect, Refusal>
    ensures effect { IfOk result (λ effect. effect
        ≡ trace_given (unsigned_abs count) (thread_named id.now) (target_of targets.old.seen bps.old) (target_of targets.new.seen bps.new)) }
    ensures free { OnOk result (trace_fault id.now count targets.old.seen.processes ≡ None) }
    ensures after { OnOk result (target_of targets.new.seen bps.new
        ≡ left_of (λ pair. trace_after (unsigned_abs count) pair.0 pair.1) (thread_named id.now) (target_of targets.old.seen bps.old)) }
    ensures refused { IfErr result (IsRefusalOf (trace_fault id.now count targets.old.seen.processes)) }
    ensures kept { IfErr result (λ refusal. IfDue refusal (target_of targets.new.seen bps.new ≡ target_of targets.old.seen bps.old)) }
    ensures points { uncounted bps.new ≡ uncounted bps.old }
{
    let (number, n) = to_trace(targets, id, count)?;
    Ok(trace(alloc, targets, bps, number, n, count as u32)?)
}

/// The checks of a trace.
fn to_trace(targets: &Targets, id: &Text, count: i128) -> Result<(u32, u32), Fault>
    ensures pair { IfOk result (λ pair. thread_named id.now ≡ Some pair) }
    ensures positive { IfOk result (λ pair. 0 < pair.0) }
    ensures numbered { IfOk result (λ pair. 0 < pair.1) }
    ensures lower_bound { OnOk result (pos 1 ≤ℤ count) }
    ensures upper_bound { OnOk result (count ≤ℤ pos 64) }
    ensures free { OnOk result (trace_fault id.now count targets.now.seen.processes ≡ None) }
    ensures due { IfErr result (λ fault. trace_fault id.now count targets.now.seen.processes ≡ Some fault) }
{
    let (number, n) = live_thread(targets, id)?;
    if is_no_count(MOST_STEPS, count) {
        return Err(Fault::BadNumber);
    }
    if targets.is_running(number, n) {
        return Err(Fault::AlreadyRunning);
    }
    Ok((number, n))
}

/// Executes up to count instructions of a thread of a live process, and settles what becomes of them.
#[tactic(auto, using(crate::proofs::Settled::trace_after_is, crate::proofs::Settled::trace_effect_is))]
fn trace(
    alloc: Global,
    targets: &mut Targets,
    bps: &mut Breakpoints,
    number: u32,
    n: u32,
    count: u32,
) -> Result<Effect, AllocError>
    requires process { 0 < number }
    requires thread { 0 < n }
    ensures effect { IfOk result (λ effect. effect
        ≡ trace_given count (Some (number, n)) (target_of targets.old.seen bps.old) (target_of targets.new.seen bps.new)) }
    ensures after { OnOk result (target_of targets.new.seen bps.new ≡ trace_after count number n (target_of targets.old.seen bps.old)) }
    ensures points { uncounted bps.new ≡ uncounted bps.old }
{
    match execute_trace(alloc, targets, bps, number, n, count)? {
        Some(Traced { addresses, settled }) => {
            let executed = addresses.len() as u32;
            let events = finish(alloc, targets, bps, number, settled)?;
            Ok(Effect {
                events,
                progress: addresses,
                answer: Answer::Count(executed),
            })
        }
        None => Ok(Effect::gives(alloc, Answer::Count(0))),
    }
}

/// Executes the instructions, gives the thread its state, and answers what is left to be done; `None` where the process
/// doesn't live.
fn execute_trace(
    alloc: Global,
    targets: &mut Targets,
    bps: &Breakpoints,
    number: u32,
    n: u32,
    count: u32,
) -> Result<Option<Traced>, AllocError>
    requires process { 0 < number }
    requires thread { 0 < n }
    ensures done { IfOk result (λ traced. traced ≡ option_map (traced_of bps.now number n count) (process_of number targets.old.seen.processes)) }
    ensures few { IfOk result (λ traced. IfSome traced (λ some. length some.addresses ≤ count)) }
    ensures after { OnOk result (targets.new.seen ≡ with_change (traced_process bps.now number n count) number targets.old.seen) }
{
    match targets.process_mut(number) {
        Some(process) => {
            let before = process.threads.count();
            let attached = process.attached;
            let plain = stopped_by_step(alloc)?;
            let (addresses, stop) = execute_up_to(alloc, process, bps, number, n, count)?;
            let fate = fate_of(alloc, plain, attached, stop)?;
            let settled = settle(alloc, process, number, n, before, fate)?;
            Ok(Some(Traced { addresses, settled }))
        }
        None => Ok(None),
    }
}

/// Executes up to count instructions of a thread of a process. The answer has their addresses, and what came of the last one.
fn execute_up_to(
    alloc: Global,
    process: &mut Process,
    bps: &Breakpoints,
    number: u32,
    n: u32,
    count: u32,
) -> Result<(Numbers, Executed), AllocError>
    ensures trace { IfOk result (λ done. trace_of bps.now number n count process.old.seen
        ≡ record { process = process.new.seen; addresses = done.0; stop = done.1 }) }
    ensures few { IfOk result (λ done. length done.0 ≤ count) }
{
    let mut addresses = Numbers::new(alloc);
    for _step in 0..count {
        let pc = pc_at(process, n);
        let executed = execute_tested(process, bps, number, n)?;
        match executed {
            Executed::Plain => addresses.push(pc)?,
            Executed::Hit(_) | Executed::Exit(_) => {
                addresses.push(pc)?;
                return Ok((addresses, executed));
            }
            Executed::Exception => return Ok((addresses, executed)),
        }
    }
    Ok((addresses, Executed::Plain))
}

/// Executes one instruction of a thread of a process, and tests for breakpoints at its new pc. No count is raised.
fn execute_tested(
    process: &mut Process,
    bps: &Breakpoints,
    number: u32,
    n: u32,
) -> Result<Executed, AllocError>
    ensures executed { IfOk result (λ executed. executed ≡ executed_of bps.now number n process.old.seen) }
    ensures after { OnOk result (process.new.seen ≡ stepped n process.old.seen) }
{
    match execute_one(process, n)? {
        Executed::Plain => tested(process, bps, number, n),
        executed => Ok(executed),
    }
}

/// Tests for breakpoints where a thread of a process stands.
fn tested(process: &Process, bps: &Breakpoints, number: u32, n: u32) -> Result<Executed, AllocError>
    ensures { IfOk result (λ executed. executed ≡ executed_with (hits_at bps.now number n process.now.seen)) }
{
    match process.threads.get(n) {
        Some(thread) => {
            let hits = bps.hits(number, process.attached, thread.cpu.pc)?;
            Ok(executed_with(hits))
        }
        None => Ok(Executed::Plain),
    }
}

fn executed_with(hits: Texts) -> Executed
    ensures { result ≡ executed_with hits }
{
    if hits.is_empty() {
        Executed::Plain
    } else {
        Executed::Hit(hits)
    }
}
