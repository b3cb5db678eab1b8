//! Whether the target executed what the client sent, in order, and nothing else.
ghost use Rattle.std.specs.Prelude.{◌≡◌, ◌↔◌, ◌∷◌, [], IfNone, IfOk, IfSome, drop, false, filter, flat_map, option_map, true};
ghost use Rattle.std.specs.List.{AllByRecursion};
ghost use Rattle.journal_text.specs.Inputs.{InputIsRead};
ghost use Rattle.tcf_text.specs.Once.{Once};
ghost use Rattle.target_hub.specs.Received.{answer_of, read};
ghost use Rattle.target_hub.specs.Sent.{executed_by, executed_on, is_through};
ghost use Rattle.log_check.specs.Matching.{AreFront, AreLeft, IsNamedAlike, Matched, NumbersAreFront, as_read, passing, passing_numbers, read_as, through_by, through_on};
ghost use Rattle.log_check.specs.Sorts.{AreSorted, IsSomeReading, accepted_as, as_accepted};
ghost use Rattle.log_check.specs.Rules.{OnItsChannel};
ghost use Rattle.target_hub.specs.Ordered.{ExecutesItsCommands};

use crate::channel::{channel_of, first_line, from_hello};
use crate::replay::first_input;
use crate::sorts::{Command, commands_in, is_through, is_through_number, next_through};
use command_tables::{Reading, WrittenCommand, read_command, readings_are_legal, write_command};
use std::alloc::{AllocError, Global};
use target_hub::Input;
use tcf_text::LogLine;
use tcf_values::Command as KnownCommand;

/// What a channel executed.
#[derive(Clone, Copy)]
pub(crate) struct ExecutedCommand<'a> {
    pub(crate) reading: &'a Reading,
    pub(crate) service: &'a [u8],
    pub(crate) name: &'a [u8],
}

/// What this channel executes by the input.
#[tactic(auto, using(crate::proofs::Running::executes_here, crate::proofs::Running::executes_other))]
pub(crate) fn executed_by(channel: u64, input: &Input) -> Option<ExecutedCommand<'_>>
    requires { InputIsRead input.now }
    ensures some { IfSome result (λ executed. executed_by channel input.now ≡ read_as executed ∷ []) }
    ensures none { IfNone result (executed_by channel input.now ≡ []) }
    ensures read { IfSome result (λ executed. IsSomeReading executed.reading.now) }
{
    match input {
        Input::Executed(other, reading, service, name) => {
            if *other == channel {
                Some(ExecutedCommand {
                    reading,
                    service: service.as_slice(),
                    name: name.as_slice(),
                })
            } else {
                None
            }
        }
        _ => None,
    }
}

/// Whether both have the same names and data.
fn is_same_text(one: &WrittenCommand, other: &WrittenCommand) -> bool
    ensures { (result ≡ true) ↔ (one.now ≡ other.now) }
{
    one.service.as_bytes() == other.service.as_bytes()
        && one.name.as_bytes() == other.name.as_bytes()
        && one.body.as_slice() == other.body.as_slice()
}

/// Whether two known commands are the same: those that are written the same are.
#[tactic(auto, using(crate::proofs::Running::known_same))]
fn is_same_command(
    alloc: Global,
    one: &KnownCommand,
    other: &KnownCommand,
) -> Result<bool, AllocError>
    requires one { IsSomeReading (Reading.Known one.now) }
    requires other { IsSomeReading (Reading.Known other.now) }
    ensures { IfOk result (λ same. (same ≡ true) ↔ (Reading.Known one.now ≡ Reading.Known other.now)) }
{
    // A law: what is read as a command can be written, and is read back.
    readings_are_legal();
    let one = write_command(alloc, one)?;
    let other = write_command(alloc, other)?;
    Ok(is_same_text(&one, &other))
}

/// Whether two readings are the same.
fn is_same_reading(alloc: Global, one: &Reading, other: &Reading) -> Result<bool, AllocError>
    requires one { IsSomeReading one.now }
    requires other { IsSomeReading other.now }
    ensures { IfOk result (λ same. (same ≡ true) ↔ (one.now ≡ other.now)) }
{
    match (one, other) {
        (Reading::Known(one), Reading::Known(other)) => is_same_command(alloc, one, other),
        (Reading::Unknown, Reading::Unknown) => Ok(true),
        (
            Reading::Bad { index, code },
            Reading::Bad {
                index: other_index,
                code: other_code,
            },
        ) => Ok(index == other_index && code == other_code),
        _ => Ok(false),
    }
}

/// Whether the command was sent under the names of the one that was executed.
fn is_named_alike(sent: &Command<'_>, executed: ExecutedCommand<'_>) -> bool
    ensures { (result ≡ true) ↔ IsNamedAlike sent.now executed.entry }
{
    sent.service == executed.service && sent.name == executed.name
}

/// Whether the command that was sent is the one that was executed.
#[tactic(auto, using(crate::proofs::Running::other_names, crate::proofs::Running::some_reading))]
fn is_same(
    alloc: Global,
    sent: &Command<'_>,
    executed: ExecutedCommand<'_>,
) -> Result<bool, AllocError>
    requires { IsSomeReading executed.reading.now }
    ensures { IfOk result (λ same. (same ≡ true) ↔ (read (accepted_as sent.now) ≡ read_as executed.entry)) }
{
    if !is_named_alike(sent, executed) {
        return Ok(false);
    }
    let reading = read_command(alloc, sent.service, sent.name, sent.body)?;
    is_same_reading(alloc, &reading, executed.reading)
}

/// How many commands were sent up to the next one that goes through, behind the first so many, if that is the one that was
/// executed.
#[tactic(auto, using(crate::proofs::Running::front_here, crate::proofs::Running::front_other, crate::proofs::Running::front_nothing))]
fn go_through(
    alloc: Global,
    commands: &[Command<'_>],
    done: usize,
    executed: ExecutedCommand<'_>,
) -> Result<Option<usize>, AllocError>
    requires { IsSomeReading executed.reading.now }
    ensures { IfOk result (λ next. Matched AreFront (read_as executed.entry ∷ []) (passing (drop done commands.now)) (option_map (λ n. passing (drop n commands.now)) next)) }
{
    match next_through(commands, done) {
        Some((next, sent)) => {
            if is_same(alloc, sent, executed)? {
                Ok(Some(next))
            } else {
                Ok(None)
            }
        }
        None => Ok(None),
    }
}

/// The same, where the target alone answers what was executed; a peer may have answered any other.
#[tactic(auto, using(crate::proofs::Running::through_here, crate::proofs::Running::through_else))]
fn go_if_through(
    alloc: Global,
    commands: &[Command<'_>],
    done: usize,
    executed: ExecutedCommand<'_>,
) -> Result<Option<usize>, AllocError>
    requires { IsSomeReading executed.reading.now }
    ensures { IfOk result (λ next. Matched AreFront (filter (λ c. is_through c.reading) (read_as executed.entry ∷ [])) (passing (drop done commands.now)) (option_map (λ n. passing (drop n commands.now)) next)) }
{
    if is_through(executed.reading) {
        go_through(alloc, commands, done, executed)
    } else {
        Ok(Some(done))
    }
}

/// The same of what the channel executes by the input.
#[tactic(auto, using(crate::proofs::Running::through_of, crate::proofs::Running::through_none))]
fn go_on(
    alloc: Global,
    channel: u64,
    input: &Input,
    commands: &[Command<'_>],
    done: usize,
) -> Result<Option<usize>, AllocError>
    requires { InputIsRead input.now }
    ensures { IfOk result (λ next. Matched AreFront (through_by channel input.now) (passing (drop done commands.now)) (option_map (λ n. passing (drop n commands.now)) next)) }
{
    match executed_by(channel, input) {
        Some(executed) => go_if_through(alloc, commands, done, executed),
        None => Ok(Some(done)),
    }
}

/// Whether the commands that the target alone answers, as far as it executed them, are those that went through, in order.
#[tactic(auto, using(crate::proofs::Running::through_first, crate::proofs::Running::through_next, crate::proofs::Running::through_not, crate::proofs::Running::through_last, crate::proofs::Running::first_read, crate::proofs::Running::rest_read))]
fn are_through(
    alloc: Global,
    channel: u64,
    inputs: &[Input],
    commands: &[Command<'_>],
) -> Result<bool, AllocError>
    requires { AllByRecursion InputIsRead inputs.now }
    ensures { IfOk result (λ holds. (holds ≡ true) ↔ AreFront (through_on channel inputs.now) (passing commands.now)) }
{
    let mut done = 0;
    let mut left = inputs;
    while let Some((input, after)) = first_input(left) {
        match go_on(alloc, channel, input, commands, done)? {
            Some(next) => {
                done = next;
                left = after;
            }
            None => return Ok(false),
        }
    }
    Ok(true)
}

/// How many commands were sent up to the first one, behind the first so many, that is the one that was executed.
#[tactic(auto, using(crate::proofs::Running::found_first, crate::proofs::Running::found_next, crate::proofs::Running::found_here, crate::proofs::Running::found_nowhere))]
fn find_sent(
    alloc: Global,
    commands: &[Command<'_>],
    done: usize,
    executed: ExecutedCommand<'_>,
) -> Result<Option<usize>, AllocError>
    requires { IsSomeReading executed.reading.now }
    ensures { IfOk result (λ next. Matched AreLeft (read_as executed.entry ∷ []) (as_read (drop done commands.now)) (option_map (λ n. as_read (drop n commands.now)) next)) }
{
    let mut at = done;
    while let Some(sent) = commands.get(at) {
        at += 1;
        if is_same(alloc, sent, executed)? {
            return Ok(Some(at));
        }
    }
    Ok(None)
}

/// The same of what the channel executes by the input.
#[tactic(auto, using(crate::proofs::Running::sent_of, crate::proofs::Running::sent_none))]
fn find_on(
    alloc: Global,
    channel: u64,
    input: &Input,
    commands: &[Command<'_>],
    done: usize,
) -> Result<Option<usize>, AllocError>
    requires { InputIsRead input.now }
    ensures { IfOk result (λ next. Matched AreLeft (executed_by channel input.now) (as_read (drop done commands.now)) (option_map (λ n. as_read (drop n commands.now)) next)) }
{
    match executed_by(channel, input) {
        Some(executed) => find_sent(alloc, commands, done, executed),
        None => Ok(Some(done)),
    }
}

/// Whether each command that was executed was sent, in order.
#[tactic(auto, using(crate::proofs::Running::sent_first, crate::proofs::Running::sent_next, crate::proofs::Running::sent_not, crate::proofs::Running::sent_last, crate::proofs::Running::first_read, crate::proofs::Running::rest_read))]
fn are_sent(
    alloc: Global,
    channel: u64,
    inputs: &[Input],
    commands: &[Command<'_>],
) -> Result<bool, AllocError>
    requires { AllByRecursion InputIsRead inputs.now }
    ensures { IfOk result (λ holds. (holds ≡ true) ↔ AreLeft (executed_on channel inputs.now) (as_read commands.now)) }
{
    let mut done = 0;
    let mut left = inputs;
    while let Some((input, after)) = first_input(left) {
        match find_on(alloc, channel, input, commands, done)? {
            Some(next) => {
                done = next;
                left = after;
            }
            None => return Ok(false),
        }
    }
    Ok(true)
}

/// The number of the command that the line answers, where it has a position and the target alone answers that command.
#[tactic(auto, using(crate::proofs::Running::answer_there, crate::proofs::Running::answer_none))]
fn answered_by(commands: &[Command<'_>], line: &LogLine) -> Option<u64>
    requires { AreSorted commands.now }
    ensures some { IfSome result (λ number. answer_of (as_accepted commands.now) line.now ≡ number ∷ []) }
    ensures none { IfNone result (answer_of (as_accepted commands.now) line.now ≡ []) }
{
    match line {
        LogLine::Final {
            number,
            mark: Some(_),
            ..
        } => {
            if is_through_number(commands, *number) {
                Some(*number)
            } else {
                None
            }
        }
        LogLine::Unknown {
            number,
            mark: Some(_),
        } => {
            if is_through_number(commands, *number) {
                Some(*number)
            } else {
                None
            }
        }
        _ => None,
    }
}

/// How many commands were sent up to the next one that goes through, behind the first so many, if it has this number.
#[tactic(auto, using(crate::proofs::Running::number_here, crate::proofs::Running::number_other, crate::proofs::Running::number_nothing))]
fn answer_next(commands: &[Command<'_>], done: usize, number: u64) -> Option<usize>
    ensures { Matched NumbersAreFront (number ∷ []) (passing_numbers (drop done commands.now)) (option_map (λ n. passing_numbers (drop n commands.now)) result) }
{
    match next_through(commands, done) {
        Some((next, sent)) => {
            if sent.number == number {
                Some(next)
            } else {
                None
            }
        }
        None => None,
    }
}

/// The same of the command that the line answers.
#[tactic(auto, using(crate::proofs::Running::answer_of_one, crate::proofs::Running::answer_of_none))]
fn answer_on(commands: &[Command<'_>], done: usize, line: &LogLine) -> Option<usize>
    requires { AreSorted commands.now }
    ensures { Matched NumbersAreFront (answer_of (as_accepted commands.now) line.now) (passing_numbers (drop done commands.now)) (option_map (λ n. passing_numbers (drop n commands.now)) result) }
{
    match answered_by(commands, line) {
        Some(number) => answer_next(commands, done, number),
        None => Some(done),
    }
}

/// Whether the lines answer the commands that went through in their order.
#[tactic(auto, using(crate::proofs::Running::answered_first, crate::proofs::Running::answered_next, crate::proofs::Running::answered_not, crate::proofs::Running::answered_last))]
fn are_answered(commands: &[Command<'_>], lines: &[LogLine]) -> bool
    requires { AreSorted commands.now }
    ensures { (result ≡ true) ↔ NumbersAreFront (flat_map (answer_of (as_accepted commands.now)) lines.now) (passing_numbers commands.now) }
{
    let mut done = 0;
    let mut left = lines;
    while let Some((line, after)) = first_line(left) {
        match answer_on(commands, done, line) {
            Some(next) => {
                done = next;
                left = after;
            }
            None => return false,
        }
    }
    true
}

/// Whether the target executed what went through, in order and with its answers in order, and nothing that wasn't sent.
#[tactic(auto, using(crate::proofs::Sorting::sorted, crate::proofs::Standing::no_channel, crate::proofs::Running::executes, crate::proofs::Running::not_answered, crate::proofs::Running::not_through))]
pub(crate) fn is_executed(
    alloc: Global,
    inputs: &[Input],
    lines: &[LogLine],
) -> Result<bool, AllocError>
    requires read { AllByRecursion InputIsRead inputs.now }
    requires once { Once false lines.now }
    ensures { IfOk result (λ holds. (holds ≡ true) ↔ OnItsChannel lines.now inputs.now (ExecutesItsCommands inputs.now lines.now)) }
{
    let Some(channel) = channel_of(inputs, lines) else {
        return Ok(true);
    };
    let found = commands_in(alloc, lines)?;
    let commands = found.as_slice();
    if !are_answered(commands, from_hello(lines)) {
        return Ok(false);
    }
    if !are_through(alloc, channel, inputs, commands)? {
        return Ok(false);
    }
    are_sent(alloc, channel, inputs, commands)
}
