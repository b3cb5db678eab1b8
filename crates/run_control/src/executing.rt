//! One instruction of a thread, and what becomes of its process by it.
ghost use Rattle.std.specs.Prelude.{◌≡◌, ◌<◌, ◌++◌, [], Some, IfOk, OnOk};
ghost use Rattle.target_contexts.specs.Threads.{in_thread, thread_at};
ghost use Rattle.run_control.specs.Laws.{uncounted};
ghost use Rattle.run_control.specs.Steering.{with_state};
ghost use Rattle.run_control.specs.Telling.{made_events, suspended_events};
ghost use Rattle.run_control.specs.TargetValue.{target_of};
ghost use Rattle.run_control.specs.Executing.{breakpoint_text, exception_code, exception_text, fate_by, halt_of, pc_at, spawned, step_text, stepped};
ghost use Rattle.run_control.specs.Settling.{finished, finished_events, settled_as, settled_in};

use crate::ending::end;
use crate::steering::set_one;
use crate::telling::{tell_hits, tell_made, tell_one};
use breakpoints::Breakpoints;
use rv32i_core::{Outcome, execute};
use std::alloc::{AllocError, Global};
use target_contexts::{Process, Targets, ThreadState};
use tcf_values::{Duplicate, Events, Text, Texts};

/// What came of one instruction.
#[derive(Debug, Drop)]
pub(crate) enum Executed {
    /// It is executed, and nothing more.
    Plain,
    /// It is executed, and at the new pc the thread hits the breakpoints of these IDs.
    Hit(Texts),
    /// It is executed, and is an exit with this code.
    Exit(i32),
    /// It raised an exception, and isn't executed.
    Exception,
}

/// What becomes of a process.
#[derive(Debug, Drop)]
pub(crate) enum Fate {
    /// It ends with this code.
    Ends(i32),
    /// It lives on.
    Lives {
        /// The state of the thread that executed.
        state: ThreadState,
        /// The IDs of the breakpoints that this thread hits, in the order of the list.
        hits: Texts,
    },
}

/// What becomes of a process, once its thread has its state.
#[derive(Debug, Drop)]
pub(crate) enum Settled {
    /// It is to end.
    Ends {
        /// With this code.
        code: i32,
        /// How many threads it had before the input.
        count: u32,
    },
    /// It lives on.
    Lives {
        /// What is told of the threads that began and of the one that executed.
        events: Events,
        /// Whether the latter runs on.
        runs: bool,
        /// The IDs of the breakpoints that it hits, in the order of the list.
        hits: Texts,
    },
}

/// How many pages of its memory an instruction can make own.
const STORED_PAGES: usize = 4;

/// The code of a process that an exception ends.
const EXCEPTION: i32 = -2;

#[tactic(auto, unfolding(crate::specs::Executing::step_text))]
fn step_text(alloc: Global) -> Result<Text, AllocError>
    ensures { IfOk result (λ text. text ≡ step_text) }
{
    Text::from_str(alloc, "Step")
}

#[tactic(auto, unfolding(crate::specs::Executing::breakpoint_text))]
fn breakpoint_text(alloc: Global) -> Result<Text, AllocError>
    ensures { IfOk result (λ text. text ≡ breakpoint_text) }
{
    Text::from_str(alloc, "Breakpoint")
}

#[tactic(auto, unfolding(crate::specs::Executing::exception_text))]
fn exception_text(alloc: Global) -> Result<Text, AllocError>
    ensures { IfOk result (λ text. text ≡ exception_text) }
{
    Text::from_str(alloc, "Exception")
}

/// The state of a thread that has executed all that was asked for.
pub(crate) fn stopped_by_step(alloc: Global) -> Result<ThreadState, AllocError>
    ensures { IfOk result (λ state. state ≡ ThreadState.Suspended step_text []) }
{
    Ok(ThreadState::Suspended {
        reason: step_text(alloc)?,
        hits: Texts::new(alloc),
    })
}

/// The state of a thread that breakpoints stop.
pub(crate) fn stopped_by_breakpoints(alloc: Global, hits: &Texts) -> Result<ThreadState, AllocError>
    ensures { IfOk result (λ state. state ≡ ThreadState.Suspended breakpoint_text hits.now) }
{
    Ok(ThreadState::Suspended {
        reason: breakpoint_text(alloc)?,
        hits: hits.copy()?,
    })
}

/// The state of a thread that raised an exception.
fn stopped_by_exception(alloc: Global) -> Result<ThreadState, AllocError>
    ensures { IfOk result (λ state. state ≡ ThreadState.Suspended exception_text []) }
{
    Ok(ThreadState::Suspended {
        reason: exception_text(alloc)?,
        hits: Texts::new(alloc),
    })
}

/// Executes one instruction of a thread of a process, without a test for breakpoints. A thread that it asks for begins,
/// where it can.
pub(crate) fn execute_one(process: &mut Process, n: u32) -> Result<Executed, AllocError>
    ensures executed { IfOk result (λ executed. executed ≡ halt_of n process.old.seen) }
    ensures after { OnOk result (process.new.seen ≡ stepped n process.old.seen) }
{
    process.memory.ready(STORED_PAGES)?;
    let Some(thread) = process.threads.get_mut(n) else {
        return Ok(Executed::Plain);
    };
    match execute(&mut thread.cpu, &mut process.memory) {
        Outcome::Next => Ok(Executed::Plain),
        Outcome::Exit(code) => Ok(Executed::Exit(code)),
        Outcome::Spawn { entry, argument } => {
            spawn(process, n, entry, argument)?;
            Ok(Executed::Plain)
        }
        Outcome::Exception => Ok(Executed::Exception),
    }
}

/// Begins the thread that a thread asks for, and gives this one the number of it, or 0 where none can begin.
fn spawn(process: &mut Process, n: u32, entry: u32, argument: u32) -> Result<(), AllocError>
    ensures { OnOk result (process.new.seen ≡ spawned n entry argument process.old.seen) }
{
    let number = process.begin_thread(entry, argument)?.unwrap_or(0);
    if let Some(thread) = process.threads.get_mut(n) {
        thread.cpu.answer(number);
    }
    Ok(())
}

/// Where a thread stands; 0 where there is none of this number.
pub(crate) fn pc_at(process: &Process, n: u32) -> u32
    ensures { result ≡ pc_at n process.now.seen }
{
    match process.threads.get(n) {
        Some(thread) => thread.cpu.pc,
        None => 0,
    }
}

/// What becomes of a process, attached or not, whose thread has the plain state where nothing else comes.
pub(crate) fn fate_of(
    alloc: Global,
    plain: ThreadState,
    attached: bool,
    executed: Executed,
) -> Result<Fate, AllocError>
    ensures { IfOk result (λ fate. fate ≡ fate_by plain attached executed) }
{
    match executed {
        Executed::Plain => Ok(Fate::Lives {
            state: plain,
            hits: Texts::new(alloc),
        }),
        Executed::Hit(hits) => Ok(Fate::Lives {
            state: stopped_by_breakpoints(alloc, &hits)?,
            hits,
        }),
        Executed::Exit(code) => Ok(Fate::Ends(code)),
        Executed::Exception if attached => Ok(Fate::Lives {
            state: stopped_by_exception(alloc)?,
            hits: Texts::new(alloc),
        }),
        Executed::Exception => Ok(Fate::Ends(EXCEPTION)),
    }
}

/// Gives the thread of a process, which had so many threads before the input, its state, where the process lives on.
pub(crate) fn settle(
    alloc: Global,
    process: &mut Process,
    number: u32,
    n: u32,
    before: u32,
    fate: Fate,
) -> Result<Settled, AllocError>
    requires process { 0 < number }
    requires thread { 0 < n }
    ensures settled { IfOk result (λ settled. settled ≡ settled_as number n before fate process.new.seen) }
    ensures after { OnOk result (process.new.seen ≡ settled_in n fate process.old.seen) }
{
    match fate {
        Fate::Ends(code) => Ok(Settled::Ends {
            code,
            count: before,
        }),
        Fate::Lives { state, hits } => {
            let runs = state.runs();
            let events = live_on(alloc, process, number, n, before, state)?;
            Ok(Settled::Lives { events, runs, hits })
        }
    }
}

/// Gives a thread of a process, which had so many threads before the input, its state, and tells of it.
fn live_on(
    alloc: Global,
    process: &mut Process,
    number: u32,
    n: u32,
    before: u32,
    state: ThreadState,
) -> Result<Events, AllocError>
    requires process { 0 < number }
    requires thread { 0 < n }
    ensures events { IfOk result (λ events. events
        ≡ made_events number before (Some process.new.seen) ++ suspended_events number n (thread_at n process.new.seen)) }
    ensures after { OnOk result (process.new.seen ≡ in_thread (with_state state) n process.old.seen) }
{
    set_one(&mut process.threads, n, state);
    let mut events = Events::new(alloc);
    tell_made(alloc, process, number, before, &mut events)?;
    tell_one(alloc, number, n, &process.threads, &mut events)?;
    Ok(events)
}

/// Ends a process, where that is its fate, and tells what is left to be told.
pub(crate) fn finish(
    alloc: Global,
    targets: &mut Targets,
    bps: &mut Breakpoints,
    number: u32,
    settled: Settled,
) -> Result<Events, AllocError>
    requires { 0 < number }
    ensures events { IfOk result (λ events. events ≡ finished_events number settled (target_of targets.new.seen bps.new)) }
    ensures after { OnOk result (target_of targets.new.seen bps.new ≡ finished number settled (target_of targets.old.seen bps.old)) }
    ensures points { uncounted bps.new ≡ uncounted bps.old }
{
    match settled {
        Settled::Ends { code, count } => end(alloc, targets, bps, number, count, code),
        Settled::Lives {
            mut events,
            runs,
            hits,
        } => {
            tell_hits(targets, bps, runs, hits.as_slice(), &mut events)?;
            Ok(events)
        }
    }
}
