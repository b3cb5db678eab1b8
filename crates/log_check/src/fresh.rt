//! Whether answers that a peer may give from what it keeps are those of the target at their positions.
ghost use Rattle.std.specs.Prelude.{◌≡◌, ◌↔◌, ◌∷◌, ◌++◌, ◌-◌, [], ℕ, List, IfNone, IfOk, IfSome, OnErr, OnOk, drop, false, filter, length, option_copied, take, true};
ghost use Rattle.std.specs.List.{AllByRecursion};
ghost use Rattle.journal_text.specs.Inputs.{InputIsRead};
ghost use Rattle.target_contexts.specs.declared.process.Image.{Image as ImageValue};
ghost use Rattle.tcf_text.specs.Each.{Each};
ghost use Rattle.tcf_text.specs.Once.{Once};
ghost use Rattle.tcf_text.specs.declared.log.LogLine.{LogLine as Line};
ghost use Rattle.target_hub.specs.Fresh.{Fresh};
ghost use Rattle.target_hub.specs.History.{input_after, inputs_after};
ghost use Rattle.target_hub.specs.HubValue.{usable};
ghost use Rattle.target_hub.specs.Ordered.{ExecutesItsCommands, IsPlaced, through};
ghost use Rattle.target_hub.specs.Received.{read};
ghost use Rattle.target_hub.specs.Sent.{ReadCommand};
ghost use Rattle.log_check.specs.Barriers.{AreBarriers, AreLater, AreReached, AreWithin, BeginsFrom, GoesBy, IsAnswer, IsAtStart, IsFreshAnswer, IsFreshHere, IsLookedAt, IsStorableNumber, IsUnstorable, barrier_at, ends_stores};
ghost use Rattle.log_check.specs.Matching.{AreFront, passing, through_by, through_on};
ghost use Rattle.log_check.specs.Rules.{OnItsChannel};
ghost use Rattle.log_check.specs.Sorts.{AreSorted, HasItsSort, IsCommandOf, accepted_as, as_accepted, passes};

use crate::channel::{channel_of, first_line};
use crate::executed::executed_by;
use crate::replay::{first_input, follow, new_hub};
use crate::sorts::{Command, Sort, command_of, commands_in, is_sent_on, is_through, next_through};
use command_tables::read_command;
use std::alloc::{AllocError, Global};
use target_hub::{Answered, Done, Hub, Image, Input, asking_changes_nothing};
use tcf_text::LogLine;

/// A command behind which no peer answers from what it kept before: its number, and the position at which the target
/// executed it.
#[derive(Clone, Copy)]
struct Barrier {
    number: u64,
    place: u64,
}

/// Whether what peers keep ends at a command of this sort.
fn ends_stores(sort: Sort) -> bool
    ensures { result ≡ ends_stores sort }
{
    match sort {
        Sort::Storable => false,
        Sort::Through => false,
        Sort::Barrier => true,
    }
}

/// Whether the channel executes by the input what the target alone answers.
#[tactic(auto, using(crate::proofs::Ending::none_of, crate::proofs::Ending::nothing_of))]
fn goes_by(channel: u64, input: &Input) -> bool
    requires { InputIsRead input.now }
    ensures one { result ≡ true → (t : ReadCommand) × (through_by channel input.now ≡ t ∷ []) }
    ensures none { result ≡ false → through_by channel input.now ≡ [] }
{
    match executed_by(channel, input) {
        Some(executed) => is_through(executed.reading),
        None => false,
    }
}

/// The command that the channel executes by the input, if the target alone answers it, of those that go through behind the
/// first so many; and how many there are up to it.
#[tactic(auto, using(crate::proofs::Ending::goes_one, crate::proofs::Ending::goes_past, crate::proofs::Ending::goes_none))]
fn go_by<'a, 'b>(
    channel: u64,
    input: &Input,
    commands: &'b [Command<'a>],
    done: usize,
) -> (Option<&'b Command<'a>>, usize)
    requires { InputIsRead input.now }
    ensures { GoesBy (through_by channel input.now) (filter passes (drop done commands.now)) (option_copied result.0) (filter passes (drop result.1 commands.now)) }
{
    if goes_by(channel, input) {
        match next_through(commands, done) {
            Some((next, sent)) => (Some(sent), next),
            None => (None, done),
        }
    } else {
        (None, done)
    }
}

/// Adds the command that was executed at this place, if there is one and it is a barrier.
fn add_barrier(
    found: &mut Vec<Barrier>,
    sent: Option<&Command<'_>>,
    place: u64,
) -> Result<(), AllocError>
    ensures { OnOk result (found.new.items ≡ found.old.items ++ barrier_at (option_copied sent.entry) place) }
{
    match sent {
        Some(command) => {
            if ends_stores(command.sort) {
                found.push(Barrier {
                    number: command.number,
                    place,
                })?;
            }
            Ok(())
        }
        None => Ok(()),
    }
}

/// The barriers that the target executed. Their numbers and their places rise together.
fn executed_barriers(
    alloc: Global,
    channel: u64,
    inputs: &[Input],
    commands: &[Command<'_>],
) -> Result<Vec<Barrier>, AllocError>
    requires read { AllByRecursion InputIsRead inputs.now }
    requires sorted { AreSorted commands.now }
    requires executed { AreFront (through_on channel inputs.now) (passing commands.now) }
    ensures { IfOk result (λ found. (log : List Line) → as_accepted (filter passes commands.now) ≡ through log → AreBarriers log inputs.now channel found.items) }
{
    let mut found = Vec::new(alloc);
    let mut done = 0;
    let mut left = inputs;
    let mut place = 0u64;
    while let Some((input, after)) = first_input(left) {
        place += 1;
        let (sent, next) = go_by(channel, input, commands, done);
        add_barrier(&mut found, sent, place)?;
        done = next;
        left = after;
    }
    Ok(found)
}

/// The first of some barriers, and the others.
fn first_barrier(barriers: &[Barrier]) -> Option<(Barrier, &[Barrier])>
    ensures some { IfSome result (λ parts. barriers.now ≡ parts.0 ∷ parts.1.now) }
    ensures none { IfNone result (barriers.now ≡ []) }
{
    match barriers {
        [barrier, rest @ ..] => Some((*barrier, rest)),
        [] => None,
    }
}

/// How many barriers there are before the first that stands behind this position.
#[tactic(auto, using(crate::proofs::Freshness::within_first, crate::proofs::Freshness::within_next, crate::proofs::Freshness::within_here, crate::proofs::Freshness::within_all))]
fn count_within(barriers: &[Barrier], position: u64) -> usize
    ensures { AreWithin barriers.now position result }
{
    let mut count = 0;
    let mut rest = barriers;
    while let Some((barrier, after)) = first_barrier(rest) {
        if barrier.place > position {
            return count;
        }
        count += 1;
        rest = after;
    }
    count
}

/// The barriers from the first on that stands behind this position.
#[tactic(auto, using(crate::proofs::Freshness::are_later, crate::proofs::Freshness::count_most))]
fn behind(barriers: &[Barrier], position: u64) -> &[Barrier]
    ensures { AreLater barriers.now position result.now }
{
    let count = count_within(barriers, position);
    barriers.split_at(count).1
}

/// Whether the first of these barriers has no smaller number.
fn begins_from(number: u64, barriers: &[Barrier]) -> bool
    ensures { (result ≡ true) ↔ BeginsFrom number barriers.now }
{
    match barriers {
        [first, ..] => number <= first.number,
        [] => true,
    }
}

/// The command of this number, if any peer may answer it.
#[tactic(auto, using(crate::proofs::Freshness::other_sort, crate::proofs::Freshness::unsent, crate::proofs::Freshness::none_storable))]
fn storable_of<'a, 'b>(commands: &'b [Command<'a>], number: u64) -> Option<&'b Command<'a>>
    requires { AreSorted commands.now }
    ensures some { IfSome result (λ c. IsCommandOf commands.now number c.now) }
    ensures storable { IfSome result (λ c. c.now.sort ≡ Sort.Storable) }
    ensures none { IfNone result (IsUnstorable commands.now number) }
{
    match command_of(commands, number) {
        Some(command) => {
            if is_sent_on(command.sort) {
                None
            } else {
                Some(command)
            }
        }
        None => None,
    }
}

/// Whether any peer may answer the command of this number.
#[tactic(auto, using(crate::proofs::Freshness::storable_here))]
fn is_storable_number(commands: &[Command<'_>], number: u64) -> bool
    requires { AreSorted commands.now }
    ensures there { result ≡ true → IsStorableNumber commands.now number }
    ensures missing { result ≡ false → IsUnstorable commands.now number }
{
    match storable_of(commands, number) {
        Some(_) => true,
        None => false,
    }
}

/// The position at which the line's answer is looked at, if a peer may give it, and else the one that was reached.
#[tactic(auto, using(crate::proofs::Freshness::looked_there, crate::proofs::Freshness::looked_past))]
fn position_for(commands: &[Command<'_>], line: &LogLine, reached: u64) -> u64
    requires { AreSorted commands.now }
    ensures { IsLookedAt commands.now line.now reached result }
{
    match line {
        LogLine::Final {
            number,
            mark: Some(position),
            ..
        } => {
            if is_storable_number(commands, *number) {
                *position
            } else {
                reached
            }
        }
        _ => reached,
    }
}

/// Does the input.
fn go_on(hub: &mut Hub, input: &Input) -> Result<(), AllocError>
    requires read { InputIsRead input.now }
    requires fresh { hub.old.is_spent ≡ false }
    ensures { OnOk result (hub.new ≡ usable (input_after input.now hub.old.target)) }
{
    follow(hub, input)?;
    Ok(())
}

/// Does these inputs.
#[tactic(auto, using(crate::proofs::Running::first_read, crate::proofs::Running::rest_read))]
fn follow_all(hub: &mut Hub, inputs: &[Input]) -> Result<(), AllocError>
    requires read { AllByRecursion InputIsRead inputs.now }
    requires fresh { hub.old.is_spent ≡ false }
    ensures { OnOk result (hub.new ≡ usable (inputs_after inputs.now hub.old.target)) }
{
    let mut left = inputs;
    while let Some((input, after)) = first_input(left) {
        go_on(hub, input)?;
        left = after;
    }
    Ok(())
}

/// Does the inputs from one position to another, if there are so many, and tells whether there are.
#[tactic(auto, using(crate::proofs::Freshness::part_read, crate::proofs::Freshness::reached_is, crate::proofs::Freshness::not_on, crate::proofs::Freshness::not_within))]
fn go_to(hub: &mut Hub, inputs: &[Input], from: u64, to: u64) -> Result<bool, AllocError>
    requires read { AllByRecursion InputIsRead inputs.now }
    requires fresh { hub.old.is_spent ≡ false }
    ensures reached { IfOk result (λ there. (there ≡ true) ↔ AreReached inputs.now from to) }
    ensures after { IfOk result (λ there. there ≡ true → hub.new ≡ usable (inputs_after (take (to - from) (drop from inputs.now)) hub.old.target)) }
{
    if to < from {
        return Ok(false);
    }
    if (inputs.len() as u64) < to {
        return Ok(false);
    }
    let rest = inputs.split_at(from as usize).1;
    let next = rest.split_at((to - from) as usize).0;
    follow_all(hub, next)?;
    Ok(true)
}

/// Whether the answer is this data.
fn is_answer(done: &Done, body: &[u8]) -> bool
    ensures { (result ≡ true) ↔ (done.now.answer ≡ Answered.Result body.now) }
{
    match &done.answer {
        Answered::Result(given) => given.as_slice() == body,
        Answered::Unknown => false,
    }
}

/// Whether the target answers the command with this data.
fn answers(
    alloc: Global,
    hub: &mut Hub,
    command: &Command<'_>,
    body: &[u8],
) -> Result<bool, AllocError>
    requires sort { HasItsSort command.now }
    requires storable { command.now.sort ≡ Sort.Storable }
    requires fresh { hub.old.is_spent ≡ false }
    ensures answers { IfOk result (λ same. (same ≡ true) ↔ IsAnswer (read (accepted_as command.now)).reading hub.old.target body.now) }
    ensures stays { OnOk result (hub.new ≡ hub.old) }
{
    // A law: a target that is only asked stays as it is.
    asking_changes_nothing();
    let reading = read_command(alloc, command.service, command.name, command.body)?;
    let done = hub.execute(0, command.service, command.name, &reading)?;
    Ok(is_answer(&done, body))
}

/// Whether this answer to the command of this number, if a peer may give it, is the target's, and no barrier among the later
/// ones comes before the command.
#[tactic(auto, using(crate::proofs::Freshness::fresh_answer_is, crate::proofs::Freshness::not_begun, crate::proofs::Freshness::none_asked))]
fn is_fresh_answer(
    alloc: Global,
    hub: &mut Hub,
    commands: &[Command<'_>],
    later: &[Barrier],
    number: u64,
    body: &[u8],
) -> Result<bool, AllocError>
    requires sorted { AreSorted commands.now }
    requires fresh { hub.old.is_spent ≡ false }
    ensures fresh { IfOk result (λ fresh. (fresh ≡ true) ↔ IsFreshAnswer commands.now later.now number hub.old.target body.now) }
    ensures stays { OnOk result (hub.new ≡ hub.old) }
{
    match storable_of(commands, number) {
        Some(command) => {
            if begins_from(number, later) {
                answers(alloc, hub, command, body)
            } else {
                Ok(false)
            }
        }
        None => Ok(true),
    }
}

/// Whether the answer of the line, if a peer may give it, is the target's.
fn is_fresh_line(
    alloc: Global,
    hub: &mut Hub,
    commands: &[Command<'_>],
    later: &[Barrier],
    line: &LogLine,
) -> Result<bool, AllocError>
    requires sorted { AreSorted commands.now }
    requires fresh { hub.old.is_spent ≡ false }
    ensures fresh { IfOk result (λ fresh. (fresh ≡ true) ↔ IsFreshHere commands.now later.now hub.old.target line.now) }
    ensures stays { OnOk result (hub.new ≡ hub.old) }
{
    match line {
        LogLine::Final {
            number,
            mark: Some(_),
            body,
        } => {
            let fresh = is_fresh_answer(alloc, hub, commands, later, *number, body.as_slice())?;
            Ok(fresh)
        }
        LogLine::Unknown {
            number,
            mark: Some(_),
        } => Ok(!is_storable_number(commands, *number)),
        _ => Ok(true),
    }
}

/// Whether each answer that a peer may give is that of the target at its position, with no barrier between that position
/// and its command.
fn are_fresh(
    alloc: Global,
    hub: &mut Hub,
    inputs: &[Input],
    lines: &[LogLine],
    commands: &[Command<'_>],
    barriers: &[Barrier],
) -> Result<bool, AllocError>
    requires read { AllByRecursion InputIsRead inputs.now }
    requires sorted { AreSorted commands.now }
    requires fresh { hub.old.is_spent ≡ false }
    ensures { IfOk result (λ fresh. (images : List ImageValue) (k : ℕ) → IsAtStart images lines.now inputs.now k commands.now barriers.now hub.old → (fresh ≡ true) ↔ Fresh lines.now images inputs.now) }
{
    let mut position = 0u64;
    let mut later = barriers;
    let mut left = lines;
    while let Some((line, after)) = first_line(left) {
        let next = position_for(commands, line, position);
        if !go_to(hub, inputs, position, next)? {
            return Ok(false);
        }
        later = behind(later, next);
        if !is_fresh_line(alloc, hub, commands, later, line)? {
            return Ok(false);
        }
        position = next;
        left = after;
    }
    Ok(true)
}

/// Whether answers that a peer may give from what it keeps are those of the target.
#[tactic(auto, using(crate::proofs::Sorting::sorted, crate::proofs::Freshness::fresh_nowhere, crate::proofs::Freshness::executed_front, crate::proofs::Freshness::fresh_whole))]
pub(crate) fn is_fresh(
    alloc: Global,
    images: &[Image],
    inputs: &[Input],
    lines: &[LogLine],
) -> Result<bool, AllocError>
    requires read { AllByRecursion InputIsRead inputs.now }
    requires once { Once false lines.now }
    requires placed { Each (IsPlaced inputs.now) lines.now }
    requires executed { OnItsChannel lines.now inputs.now (ExecutesItsCommands inputs.now lines.now) }
    ensures { IfOk result (λ holds. (holds ≡ true) ↔ Fresh lines.now images.now inputs.now) }
{
    let Some(channel) = channel_of(inputs, lines) else {
        return Ok(true);
    };
    let found = commands_in(alloc, lines)?;
    let commands = found.as_slice();
    let barriers = executed_barriers(alloc, channel, inputs, commands)?;
    let mut hub = new_hub(alloc, images)?;
    are_fresh(
        alloc,
        &mut hub,
        inputs,
        lines,
        commands,
        barriers.as_slice(),
    )
}
