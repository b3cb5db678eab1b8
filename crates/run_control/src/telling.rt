//! What the services tell of a process and its threads, as they are.
ghost use Rattle.std.specs.Prelude.{◌≡◌, ◌<◌, ◌++◌, ◌∷◌, [], filter, length, map, All, IfOk, OnOk, Some};
ghost use Rattle.std.specs.List.{flat_map};
ghost use Rattle.target_contexts.specs.Live.{process_of};
ghost use Rattle.target_contexts.specs.Named.{attached_in, is_attached};
ghost use Rattle.run_control.specs.Naming.{process_id, thread_id, thread_ids};
ghost use Rattle.run_control.specs.TargetValue.{target_of};
ghost use Rattle.run_control.specs.Telling.{added_events, all_suspended_events, changed_events, hit_events, made_events, resumed_event, resumed_events, several_events, statuses_in, suspended_events};
ghost use Rattle.target_contexts.specs.ThreadList.{numbered};
ghost use Rattle.target_contexts.specs.Threads.{numbers_to, thread_of};

use breakpoints::Breakpoints;
use std::alloc::{AllocError, Global};
use target_contexts::{Process, Targets, Thread, ThreadState, Threads};
use tcf_values::{ContextId, Duplicate, EventData, Events, Text, Texts, context_text};

/// The numbers of the attached processes, in order.
#[tactic(auto, using(crate::proofs::Positive::positive_attached))]
pub fn attached(targets: &Targets) -> Result<Vec<u32>, AllocError>
    ensures numbers { IfOk result (λ numbers. numbers.items ≡ attached_in targets.now.seen.processes) }
    ensures positive { IfOk result (λ numbers. All (λ number. 0 < number) numbers.items) }
{
    let numbers = targets.numbers()?;
    attached_among(*numbers.allocator(), targets, &numbers)
}

/// Those of these numbers that an attached process has.
fn attached_among(alloc: Global, targets: &Targets, numbers: &[u32]) -> Result<Vec<u32>, AllocError>
    ensures { IfOk result (λ attached. attached.items ≡ filter (λ number. is_attached (process_of number targets.now.seen.processes)) numbers.now) }
{
    let mut attached = Vec::new(alloc);
    for number in numbers {
        if targets.is_attached(*number) {
            attached.push(*number)?;
        }
    }
    Ok(attached)
}

/// The ID of a process.
pub(crate) fn process_id(alloc: Global, number: u32) -> Result<Text, AllocError>
    requires { 0 < number }
    ensures { IfOk result (λ id. id ≡ process_id number) }
{
    context_text(alloc, ContextId::Process(number))
}

/// The ID of a thread of a process.
fn thread_id(alloc: Global, number: u32, n: u32) -> Result<Text, AllocError>
    requires process { 0 < number }
    requires thread { 0 < n }
    ensures { IfOk result (λ id. id ≡ thread_id number n) }
{
    context_text(alloc, ContextId::Thread(number, n))
}

/// The IDs of so many threads of a process, in order.
#[tactic(auto, using(crate::proofs::Loops::ids_more))]
pub(crate) fn thread_ids(alloc: Global, number: u32, count: u32) -> Result<Texts, AllocError>
    requires { 0 < number }
    ensures { IfOk result (λ ids. ids ≡ thread_ids number count) }
{
    let mut ids = Texts::new(alloc);
    for place in 0..count {
        ids.push(thread_id(alloc, number, place + 1)?)?;
    }
    Ok(ids)
}

/// contextAdded, with a live process and its threads.
pub(crate) fn tell_added(
    targets: &Targets,
    number: u32,
    events: &mut Events,
) -> Result<(), AllocError>
    ensures { OnOk result (events.new ≡ events.old ++ added_events number (process_of number targets.now.seen.processes)) }
{
    if targets.process(number).is_some() {
        let list = targets.whole_context(number)?;
        events.push(EventData::CtxAdded { list })?;
    }
    Ok(())
}

/// contextAdded, with the threads of a process behind the first so many, where there is one.
pub(crate) fn tell_made(
    alloc: Global,
    process: &Process,
    number: u32,
    before: u32,
    events: &mut Events,
) -> Result<(), AllocError>
    requires { 0 < number }
    ensures { OnOk result (events.new ≡ events.old ++ made_events number before (Some process.now.seen)) }
{
    if process.threads.count() > before {
        let list = process.threads_behind(alloc, before, number)?;
        events.push(EventData::CtxAdded { list })?;
    }
    Ok(())
}

/// contextChanged, with all threads of a live process alone.
pub(crate) fn tell_changed(
    alloc: Global,
    targets: &Targets,
    number: u32,
    events: &mut Events,
) -> Result<(), AllocError>
    ensures { OnOk result (events.new ≡ events.old ++ changed_events number (process_of number targets.now.seen.processes)) }
{
    if let Some(process) = targets.process(number) {
        let list = process.threads_behind(alloc, 0, number)?;
        events.push(EventData::CtxChanged { list })?;
    }
    Ok(())
}

/// contextSuspended, where a thread of a live process is suspended.
pub(crate) fn tell_suspended(
    alloc: Global,
    targets: &Targets,
    number: u32,
    n: u32,
    events: &mut Events,
) -> Result<(), AllocError>
    ensures { OnOk result (events.new ≡ events.old ++ suspended_events number n (thread_of number n targets.now.seen.processes)) }
{
    match targets.thread(number, n) {
        Some(thread) => tell_stop(alloc, number, n, thread, events),
        None => Ok(()),
    }
}

/// contextSuspended, where this thread is suspended.
fn tell_stop(
    alloc: Global,
    number: u32,
    n: u32,
    thread: &Thread,
    events: &mut Events,
) -> Result<(), AllocError>
    requires process { 0 < number }
    requires thread { 0 < n }
    ensures { OnOk result (events.new ≡ events.old ++ suspended_events number n (Some thread.now)) }
{
    match &thread.state {
        ThreadState::Running { .. } => Ok(()),
        ThreadState::Suspended { reason, hits } => events.push(EventData::Suspended {
            id: thread_id(alloc, number, n)?,
            pc: thread.cpu.pc,
            reason: reason.copy()?,
            hits: hits.copy()?,
        }),
    }
}

/// contextSuspended of each thread of a live process that is suspended, in order.
pub(crate) fn tell_all_suspended(
    alloc: Global,
    targets: &Targets,
    number: u32,
    events: &mut Events,
) -> Result<(), AllocError>
    ensures { OnOk result (events.new ≡ events.old ++ all_suspended_events number (process_of number targets.now.seen.processes)) }
{
    match targets.process(number) {
        Some(process) => tell_stops(alloc, number, &process.threads, events),
        None => Ok(()),
    }
}

/// contextSuspended of each of these threads that is suspended.
#[tactic(auto, using(crate::proofs::Loops::stops_more))]
fn tell_stops(
    alloc: Global,
    number: u32,
    threads: &Threads,
    events: &mut Events,
) -> Result<(), AllocError>
    requires { 0 < number }
    ensures { OnOk result (events.new ≡ events.old ++ flat_map (λ n. suspended_events number n (numbered n threads.now)) (numbers_to (length threads.now))) }
{
    for place in 0..threads.count() {
        tell_one(alloc, number, place + 1, threads, events)?;
    }
    Ok(())
}

/// contextSuspended, where the thread of this number is suspended.
pub(crate) fn tell_one(
    alloc: Global,
    number: u32,
    n: u32,
    threads: &Threads,
    events: &mut Events,
) -> Result<(), AllocError>
    requires process { 0 < number }
    requires thread { 0 < n }
    ensures { OnOk result (events.new ≡ events.old ++ suspended_events number n (numbered n threads.now)) }
{
    match threads.get(n) {
        Some(thread) => tell_stop(alloc, number, n, thread, events),
        None => Ok(()),
    }
}

/// contextResumed.
pub(crate) fn tell_resumed(
    alloc: Global,
    number: u32,
    n: u32,
    events: &mut Events,
) -> Result<(), AllocError>
    requires process { 0 < number }
    requires thread { 0 < n }
    ensures { OnOk result (events.new ≡ events.old ++ resumed_events number n) }
{
    events.push(EventData::Resumed {
        id: thread_id(alloc, number, n)?,
    })
}

/// contextResumed of each of these threads of a process.
pub(crate) fn tell_all_resumed(
    alloc: Global,
    number: u32,
    threads: &[u32],
    events: &mut Events,
) -> Result<(), AllocError>
    requires process { 0 < number }
    requires threads { All (λ n. 0 < n) threads.now }
    ensures { OnOk result (events.new ≡ events.old ++ map (resumed_event number) threads.now) }
{
    for n in threads {
        tell_resumed(alloc, number, *n, events)?;
    }
    Ok(())
}

/// contextRemoved, with so many threads and their process, and exited.
pub(crate) fn tell_ended(
    alloc: Global,
    number: u32,
    count: u32,
    code: i32,
    events: &mut Events,
) -> Result<(), AllocError>
    requires { 0 < number }
    ensures { OnOk result (events.new
        ≡ events.old ++ EventData.CtxRemoved (thread_ids number count ++ process_id number ∷ []) ∷ EventData.Exited (process_id number) code ∷ []) }
{
    let mut list = thread_ids(alloc, number, count)?;
    list.push(process_id(alloc, number)?)?;
    events.push(EventData::CtxRemoved { list })?;
    events.push(EventData::Exited {
        id: process_id(alloc, number)?,
        code: code.into(),
    })
}

/// One status for each breakpoint, in the order of the list.
pub(crate) fn tell_statuses(
    targets: &Targets,
    bps: &Breakpoints,
    events: &mut Events,
) -> Result<(), AllocError>
    ensures { OnOk result (events.new ≡ events.old ++ statuses_in (target_of targets.now.seen bps.now)) }
{
    bps.add_statuses(&attached(targets)?, events)
}

/// What breakpoints come to that a thread hits, which runs on or is suspended: contextChanged of them where it runs on and
/// they are several, and the status of each, in the order of the list.
pub(crate) fn tell_hits(
    targets: &Targets,
    bps: &Breakpoints,
    runs: bool,
    ids: &[Text],
    events: &mut Events,
) -> Result<(), AllocError>
    ensures { OnOk result (events.new ≡ events.old ++ hit_events runs ids.now (target_of targets.now.seen bps.now)) }
{
    if ids.is_empty() {
        return Ok(());
    }
    if runs {
        tell_several(bps, ids, events)?;
    }
    bps.add_statuses_of(ids, &attached(targets)?, events)
}

/// contextChanged of the breakpoints of these IDs, where there are several.
fn tell_several(bps: &Breakpoints, ids: &[Text], events: &mut Events) -> Result<(), AllocError>
    ensures { OnOk result (events.new ≡ events.old ++ several_events ids.now bps.now) }
{
    if ids.len() > 1 {
        let list = bps.props_of(ids)?;
        events.push(EventData::BpChanged { list })?;
    }
    Ok(())
}
