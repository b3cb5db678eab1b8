//! The commands of the service Breakpoints.
ghost use Rattle.std.specs.Prelude.{◌≡◌, ◌++◌, [], None, IfErr, IfOk, IsTrue, OnOk, false};
ghost use Rattle.breakpoints.specs.Changes.{after, changes_list, done};
ghost use Rattle.breakpoints.specs.declared.breakpoints.BpDone.{BpDone};
ghost use Rattle.command_tables.specs.Canonical.{IsReadable};
ghost use Rattle.target_contexts.specs.Named.{attached_in};
ghost use Rattle.target_contexts.specs.Refusals.{IsRefusalOf};
ghost use Rattle.tcf_values.specs.Effects.{gives};
ghost use Rattle.target_hub.specs.BreakpointsRows.{added_events, ask_answer, ask_fault, breakpoints_after, breakpoints_effect, changed_events, effect_of, removed_events, status_events};
ghost use Rattle.target_hub.specs.Limits.{AreReadable, IsKnown};

use crate::target::Target;
use breakpoints::{BpDone, status_event};
use run_control::attached;
use std::alloc::{AllocError, Global};
use target_contexts::Targets;
use tcf_values::{
    Answer, BpProps, Command, Duplicate, Effect, EventData, Events, Fault, Props, Refusal, Text,
    Texts, report,
};

/// Executes a command of Breakpoints that changes the list.
#[tactic(auto, using(crate::proofs::Kept::after_readable, crate::proofs::Kept::codes_known))]
pub(crate) fn change(
    alloc: Global,
    target: &mut Target,
    channel: u64,
    command: &Command,
) -> Result<Effect, AllocError>
    requires change { IsTrue (changes_list command.now) }
    requires command { IsReadable command.now }
    requires breakpoints { AreReadable target.old.breakpoints }
    ensures effect { IfOk result (λ effect. effect ≡ breakpoints_effect channel command.now target.old) }
    ensures after { OnOk result (target.new ≡ breakpoints_after channel command.now target.old) }
    ensures readable { AreReadable target.new.breakpoints }
{
    let done = target.breakpoints.apply(channel, command)?;
    told(alloc, &target.contexts, &done)
}

/// What a change of the list tells.
fn told(alloc: Global, targets: &Targets, done: &BpDone) -> Result<Effect, AllocError>
    requires { IsKnown done.now }
    ensures { IfOk result (λ effect. effect ≡ effect_of (attached_in targets.now.seen.processes) done.now) }
{
    match done {
        BpDone::Failed(code) => Ok(Effect::gives(alloc, Answer::Failed(report(alloc, *code)?))),
        BpDone::Changed {
            removed,
            added,
            changed,
        } => {
            let attached = attached(targets)?;
            let mut events = Events::new(alloc);
            tell_removed(removed, &mut events)?;
            tell_added(added, &mut events)?;
            tell_changed(changed, &mut events)?;
            tell_statuses(alloc, &attached, added.as_slice(), &mut events)?;
            tell_statuses(alloc, &attached, changed.as_slice(), &mut events)?;
            Ok(Effect::tells(alloc, events, Answer::Nothing))
        }
    }
}

/// contextRemoved of these breakpoints, where there are some.
pub(crate) fn tell_removed(ids: &Texts, events: &mut Events) -> Result<(), AllocError>
    ensures { OnOk result (events.new ≡ events.old ++ removed_events ids.now) }
{
    if ids.is_empty() {
        return Ok(());
    }
    events.push(EventData::BpRemoved { list: ids.copy()? })
}

/// contextAdded of these breakpoints, where there are some.
fn tell_added(list: &Props, events: &mut Events) -> Result<(), AllocError>
    ensures { OnOk result (events.new ≡ events.old ++ added_events list.now) }
{
    if list.is_empty() {
        return Ok(());
    }
    events.push(EventData::BpAdded { list: list.copy()? })
}

/// contextChanged of these breakpoints, where there are some.
fn tell_changed(list: &Props, events: &mut Events) -> Result<(), AllocError>
    ensures { OnOk result (events.new ≡ events.old ++ changed_events list.now) }
{
    if list.is_empty() {
        return Ok(());
    }
    events.push(EventData::BpChanged { list: list.copy()? })
}

/// The status of each of these breakpoints, in order.
fn tell_statuses(
    alloc: Global,
    attached: &[u32],
    list: &[BpProps],
    events: &mut Events,
) -> Result<(), AllocError>
    ensures { OnOk result (events.new ≡ events.old ++ status_events attached.now list.now) }
{
    for props in list {
        events.push(status_event(alloc, props, attached)?)?;
    }
    Ok(())
}

/// Executes a command of Breakpoints that only asks.
pub(crate) fn ask(alloc: Global, target: &Target, command: &Command) -> Result<Effect, AllocError>
    requires { changes_list command.now ≡ false }
    ensures { IfOk result (λ effect. effect ≡ breakpoints_effect 0 command.now target.now) }
{
    match ask_answer(alloc, target, command) {
        Ok(answer) => Ok(Effect::gives(alloc, answer)),
        Err(Refusal::Due(fault)) => Effect::failed(alloc, fault),
        Err(Refusal::NoMemory) => Err(AllocError),
    }
}

/// The answer, where no check fails.
fn ask_answer(alloc: Global, target: &Target, command: &Command) -> Result<Answer, Refusal>
    requires { changes_list command.now ≡ false }
    ensures answer { IfOk result (λ answer. answer ≡ ask_answer command.now (attached_in target.now.contexts.processes) target.now.breakpoints) }
    ensures free { OnOk result (ask_fault command.now target.now ≡ None) }
    ensures refused { IfErr result (IsRefusalOf (ask_fault command.now target.now)) }
{
    match command {
        Command::BpIds => Ok(Answer::Ids(target.breakpoints.ids()?)),
        Command::BpProperties { id } => properties(target, id),
        Command::BpGetStatus { id } => status(target, id),
        Command::BpCapabilities { id } => capabilities(target, id),
        _ => Ok(Answer::Nothing),
    }
}

/// Breakpoints.getProperties.
fn properties(target: &Target, id: &Text) -> Result<Answer, Refusal>
    ensures answer { IfOk result (λ answer. answer ≡ ask_answer (Command.BpProperties id.now) [] target.now.breakpoints) }
    ensures free { OnOk result (ask_fault (Command.BpProperties id.now) target.now ≡ None) }
    ensures refused { IfErr result (IsRefusalOf (ask_fault (Command.BpProperties id.now) target.now)) }
{
    let props = target.breakpoints.props(id.as_bytes()).ok_or(Fault::Other)?;
    Ok(Answer::Bp(props.copy()?))
}

/// Breakpoints.getStatus.
fn status(target: &Target, id: &Text) -> Result<Answer, Refusal>
    ensures answer { IfOk result (λ answer. answer
        ≡ ask_answer (Command.BpGetStatus id.now) (attached_in target.now.contexts.processes) target.now.breakpoints) }
    ensures free { OnOk result (ask_fault (Command.BpGetStatus id.now) target.now ≡ None) }
    ensures refused { IfErr result (IsRefusalOf (ask_fault (Command.BpGetStatus id.now) target.now)) }
{
    target.breakpoints.props(id.as_bytes()).ok_or(Fault::Other)?;
    let attached = attached(&target.contexts)?;
    let status = target.breakpoints.status(id.as_bytes(), &attached)?;
    Ok(Answer::Status(status.ok_or(Fault::Other)?))
}

/// Breakpoints.getCapabilities: of the empty ID, or of a live process or thread.
fn capabilities(target: &Target, id: &Text) -> Result<Answer, Refusal>
    ensures answer { IfOk result (λ answer. answer ≡ Answer.Capabilities) }
    ensures free { OnOk result (ask_fault (Command.BpCapabilities id.now) target.now ≡ None) }
    ensures refused { IfErr result (IsRefusalOf (ask_fault (Command.BpCapabilities id.now) target.now)) }
{
    match id.as_bytes() {
        [] => Ok(Answer::Capabilities),
        text => {
            target.contexts.live(text).ok_or(Fault::BadContext)?;
            Ok(Answer::Capabilities)
        }
    }
}
