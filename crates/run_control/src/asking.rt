//! The commands that ask: they change nothing and tell nothing.
ghost use Rattle.std.specs.Prelude.{◌≡◌, ◌<◌, map, All, Some, None, IfErr, IfNone, IfOk, OnOk};
ghost use Rattle.target_contexts.specs.Refusals.{IsRefusalOf};
ghost use Rattle.tcf_values.specs.Ids.{context_of};
ghost use Rattle.target_contexts.specs.Live.{process_of};
ghost use Rattle.target_contexts.specs.Named.{thread_at_pair, thread_named};
ghost use Rattle.run_control.specs.Naming.{is_empty, process_id, process_named};
ghost use Rattle.run_control.specs.Asking.{children_fault, children_named, children_of, context_answer, context_fault, data_named, listed_numbers, process_answer, process_answer_of, process_fault, processes_fault, processes_named, run_state, state_answer, state_fault};

use crate::named::{live_process, live_thread};
use crate::telling::{attached, process_id, thread_ids};
use std::alloc::{AllocError, Global};
use target_contexts::{Targets, Thread, ThreadState};
use tcf_values::{
    Answer, ContextData, ContextId, Duplicate, Fault, ProcessData, Refusal, RunState, Text, Texts,
    context_id,
};

/// RunControl.getContext: the data of a live process or thread.
pub(crate) fn context(targets: &Targets, id: &Text) -> Result<Answer, Refusal>
    ensures answer { IfOk result (λ answer. answer ≡ context_answer (data_named id.now targets.now.seen.processes)) }
    ensures free { OnOk result (context_fault id.now targets.now.seen.processes ≡ None) }
    ensures refused { IfErr result (IsRefusalOf (context_fault id.now targets.now.seen.processes)) }
{
    match data_named(targets, id)? {
        Some(context) => Ok(Answer::Context(context)),
        None => Err(Fault::BadContext.into()),
    }
}

/// The data of the live process or thread that a text names; `None` where there is none, whatever the memory.
fn data_named(targets: &Targets, id: &Text) -> Result<Option<ContextData>, AllocError>
    ensures data { IfOk result (λ found. found ≡ data_named id.now targets.now.seen.processes) }
    ensures missing { IfNone (data_named id.now targets.now.seen.processes) (result ≡ Ok None) }
{
    match context_id(id.as_bytes()) {
        Some(context) => targets.context(context),
        None => Ok(None),
    }
}

/// RunControl.getChildren: of the empty ID all processes, of a process its threads in order, of a thread none.
pub(crate) fn children(alloc: Global, targets: &Targets, id: &Text) -> Result<Texts, Refusal>
    ensures ids { IfOk result (λ ids. ids ≡ children_named id.now targets.now.seen.processes) }
    ensures free { OnOk result (children_fault id.now targets.now.seen.processes ≡ None) }
    ensures refused { IfErr result (IsRefusalOf (children_fault id.now targets.now.seen.processes)) }
{
    if is_empty(id) {
        return Ok(listed(alloc, targets, false)?);
    }
    match data_named(targets, id)? {
        Some(_) => Ok(children_of(alloc, targets, id)?),
        None => Err(Fault::BadContext.into()),
    }
}

fn is_empty(id: &Text) -> bool
    ensures { result ≡ is_empty id.now }
{
    matches!(id.as_bytes(), [])
}

/// The IDs of these processes.
fn process_ids(alloc: Global, numbers: &[u32]) -> Result<Texts, AllocError>
    requires { All (λ number. 0 < number) numbers.now }
    ensures { IfOk result (λ ids. ids ≡ map process_id numbers.now) }
{
    let mut ids = Texts::new(alloc);
    for number in numbers {
        ids.push(process_id(alloc, *number)?)?;
    }
    Ok(ids)
}

/// The threads of a process, in order.
fn children_of(alloc: Global, targets: &Targets, id: &Text) -> Result<Texts, AllocError>
    ensures { IfOk result (λ ids. ids ≡ children_of (context_of id.now) targets.now.seen.processes) }
{
    match context_id(id.as_bytes()) {
        Some(ContextId::Process(number)) => {
            thread_ids(alloc, number, targets.thread_count(number))
        }
        _ => Ok(Texts::new(alloc)),
    }
}

/// RunControl.getState: whether a live thread runs, or why and where it is suspended.
pub(crate) fn state(targets: &Targets, id: &Text) -> Result<Answer, Refusal>
    ensures answer { IfOk result (λ answer. answer ≡ state_answer (thread_at_pair (thread_named id.now) targets.now.seen.processes)) }
    ensures free { OnOk result (state_fault id.now targets.now.seen.processes ≡ None) }
    ensures refused { IfErr result (IsRefusalOf (state_fault id.now targets.now.seen.processes)) }
{
    let (number, n) = live_thread(targets, id)?;
    let thread = targets.thread(number, n).ok_or(Fault::BadContext)?;
    Ok(Answer::State(run_state(thread)?))
}

fn run_state(thread: &Thread) -> Result<RunState, AllocError>
    ensures { IfOk result (λ state. state ≡ run_state thread.now.cpu.pc thread.now.state) }
{
    match &thread.state {
        ThreadState::Running { .. } => Ok(RunState::Running),
        ThreadState::Suspended { reason, hits } => Ok(RunState::Suspended {
            pc: thread.cpu.pc,
            reason: reason.copy()?,
            hits: hits.copy()?,
        }),
    }
}

/// Processes.getContext: the data of a live process.
pub(crate) fn process(alloc: Global, targets: &Targets, id: &Text) -> Result<Answer, Refusal>
    ensures answer { IfOk result (λ answer. answer ≡ process_answer (process_named id.now) targets.now.seen.processes) }
    ensures free { OnOk result (process_fault id.now targets.now.seen.processes ≡ None) }
    ensures refused { IfErr result (IsRefusalOf (process_fault id.now targets.now.seen.processes)) }
{
    let number = live_process(targets, id)?;
    Ok(process_answer(alloc, targets, number)?)
}

/// The data of a live process.
pub(crate) fn process_answer(
    alloc: Global,
    targets: &Targets,
    number: u32,
) -> Result<Answer, AllocError>
    ensures { IfOk result (λ answer. answer ≡ process_answer_of number (process_of number targets.now.seen.processes)) }
{
    match targets.process(number) {
        Some(process) => Ok(Answer::Process(ProcessData {
            id: process_id(alloc, number)?,
            name: process.name.copy()?,
            attached: process.attached,
            can_terminate: true,
        })),
        None => Ok(Answer::Nothing),
    }
}

/// Processes.getChildren: of the empty ID all processes, or those that are attached, of a process none.
pub(crate) fn processes(
    alloc: Global,
    targets: &Targets,
    id: &Text,
    only_attached: bool,
) -> Result<Texts, Refusal>
    ensures ids { IfOk result (λ ids. ids ≡ processes_named id.now only_attached targets.now.seen.processes) }
    ensures free { OnOk result (processes_fault id.now targets.now.seen.processes ≡ None) }
    ensures refused { IfErr result (IsRefusalOf (processes_fault id.now targets.now.seen.processes)) }
{
    if is_empty(id) {
        return Ok(listed(alloc, targets, only_attached)?);
    }
    live_process(targets, id)?;
    Ok(Texts::new(alloc))
}

/// The IDs of all processes, or of those that are attached.
fn listed(alloc: Global, targets: &Targets, only_attached: bool) -> Result<Texts, AllocError>
    ensures { IfOk result (λ ids. ids ≡ map process_id (listed_numbers only_attached targets.now.seen.processes)) }
{
    process_ids(alloc, &numbers(targets, only_attached)?)
}

/// The numbers of all processes, or of those that are attached.
#[tactic(auto, using(crate::proofs::Positive::positive_numbers))]
fn numbers(targets: &Targets, only_attached: bool) -> Result<Vec<u32>, AllocError>
    ensures numbers { IfOk result (λ numbers. numbers.items ≡ listed_numbers only_attached targets.now.seen.processes) }
    ensures positive { IfOk result (λ numbers. All (λ number. 0 < number) numbers.items) }
{
    if only_attached {
        attached(targets)
    } else {
        targets.numbers()
    }
}
