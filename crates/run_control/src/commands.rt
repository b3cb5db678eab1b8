//! The commands of RunControl, Processes and Trace, executed.
ghost use Rattle.std.specs.Prelude.{◌≡◌, None, IfErr, IfOk, IsSome, IsTrue, OnErr, OnOk};
ghost use Rattle.tcf_values.specs.Effects.{tells};
ghost use Rattle.target_contexts.specs.Refusals.{IsRefusalOf};
ghost use Rattle.run_control.specs.Commands.{is_run, is_told, run_after, run_effect, run_fault, run_given, run_left};
ghost use Rattle.run_control.specs.Laws.{uncounted};
ghost use Rattle.run_control.specs.Refusing.{IfDue};
ghost use Rattle.run_control.specs.TargetValue.{target_of};

use crate::{asking, attaching, ending, steering, tracing};
use breakpoints::Breakpoints;
use std::alloc::{AllocError, Global};
use target_contexts::Targets;
use tcf_values::{Answer, Command, Effect, Events, Refusal};

/// Executes a command of RunControl (getContext, getChildren, getState, resume, suspend, terminate), of Processes
/// (getContext, getChildren, start, attach, detach, terminate) or of Trace (run).
///
/// A command that fails a check of its row answers the error report of the first one, and changes nothing: 16 where there
/// is no such live process or thread, 10 where a thread to be suspended is, 12 where a thread to be resumed or traced
/// runs, 13 where a process to be attached is, 15 where an image is too large, 20 where a count is out of its bounds, 23
/// where a mode isn't 0 or 2, and 1 for every other cause. That is found before any memory is asked for, so want of memory
/// can come in its place for the report alone, and then nothing has changed either. Where no check fails, the targets and
/// the breakpoints are valid after want of memory, and nothing more is known of them but that of the breakpoints only counts
/// of hits have changed. Nothing else of them ever does.
pub fn apply(
    alloc: Global,
    targets: &mut Targets,
    bps: &mut Breakpoints,
    command: &Command,
) -> Result<Effect, AllocError>
    requires { IsTrue (is_run command.now) }
    ensures effect { IfOk result (λ effect. effect ≡ run_effect command.now (target_of targets.old.seen bps.old)) }
    ensures after { OnOk result (target_of targets.new.seen bps.new ≡ run_after command.now (target_of targets.old.seen bps.old)) }
    ensures kept { OnErr result (IsSome (run_fault command.now targets.old.seen) → target_of targets.new.seen bps.new ≡ target_of targets.old.seen bps.old) }
    ensures points { uncounted bps.new ≡ uncounted bps.old }
{
    match execute(alloc, targets, bps, command) {
        Ok(effect) => Ok(effect),
        Err(Refusal::Due(fault)) => Effect::failed(alloc, fault),
        Err(Refusal::NoMemory) => Err(AllocError),
    }
}

/// Executes a command whose checks hold.
fn execute(
    alloc: Global,
    targets: &mut Targets,
    bps: &mut Breakpoints,
    command: &Command,
) -> Result<Effect, Refusal>
    requires { IsTrue (is_run command.now) }
    ensures given { IfOk result (λ effect. effect ≡ run_given command.now (target_of targets.old.seen bps.old) (target_of targets.new.seen bps.new)) }
    ensures free { OnOk result (run_fault command.now targets.old.seen ≡ None) }
    ensures left { OnOk result (target_of targets.new.seen bps.new ≡ run_left command.now (target_of targets.old.seen bps.old)) }
    ensures refused { IfErr result (IsRefusalOf (run_fault command.now targets.old.seen)) }
    ensures kept { IfErr result (λ refusal. IfDue refusal (target_of targets.new.seen bps.new ≡ target_of targets.old.seen bps.old)) }
    ensures points { uncounted bps.new ≡ uncounted bps.old }
{
    match command {
        Command::GetContext { id } => Ok(Effect::gives(alloc, asking::context(targets, id)?)),
        Command::GetChildren { id } => {
            let ids = asking::children(alloc, targets, id)?;
            Ok(Effect::gives(alloc, Answer::Ids(ids)))
        }
        Command::GetState { id } => Ok(Effect::gives(alloc, asking::state(targets, id)?)),
        Command::ProcContext { id } => {
            Ok(Effect::gives(alloc, asking::process(alloc, targets, id)?))
        }
        Command::ProcChildren { id, attached } => {
            let ids = asking::processes(alloc, targets, id, *attached)?;
            Ok(Effect::gives(alloc, Answer::Ids(ids)))
        }
        Command::ProcStart { file, attach, .. } => {
            attaching::start(alloc, targets, bps, file, *attach)
        }
        Command::TraceRun { id, count } => tracing::run(alloc, targets, bps, id, *count),
        _ => {
            let events = tell(alloc, targets, bps, command)?;
            Ok(Effect::tells(alloc, events, Answer::Nothing))
        }
    }
}

/// Executes a command that is answered by nothing but events.
fn tell(
    alloc: Global,
    targets: &mut Targets,
    bps: &mut Breakpoints,
    command: &Command,
) -> Result<Events, Refusal>
    requires { IsTrue (is_told command.now) }
    ensures given { IfOk result (λ events. tells events Answer.Nothing
        ≡ run_given command.now (target_of targets.old.seen bps.old) (target_of targets.new.seen bps.new)) }
    ensures free { OnOk result (run_fault command.now targets.old.seen ≡ None) }
    ensures left { OnOk result (target_of targets.new.seen bps.new ≡ run_left command.now (target_of targets.old.seen bps.old)) }
    ensures refused { IfErr result (IsRefusalOf (run_fault command.now targets.old.seen)) }
    ensures kept { IfErr result (λ refusal. IfDue refusal (target_of targets.new.seen bps.new ≡ target_of targets.old.seen bps.old)) }
    ensures points { uncounted bps.new ≡ uncounted bps.old }
{
    match command {
        Command::Resume { id, mode, count } => {
            steering::resume(alloc, targets, id, *mode, *count)
        }
        Command::Suspend { id } => steering::suspend(alloc, targets, id),
        Command::Terminate { id } => ending::terminate(alloc, targets, bps, id),
        Command::ProcAttach { id } => attaching::attach(alloc, targets, bps, id),
        Command::ProcDetach { id } => attaching::detach(alloc, targets, bps, id),
        Command::ProcTerminate { id } => ending::terminate_process(alloc, targets, bps, id),
        _ => unreachable!(),
    }
}
