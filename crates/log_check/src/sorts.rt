//! The commands that a log says were sent, each with how it is answered.
ghost use Rattle.std.specs.Prelude.{◌≡◌, ◌∷◌, [], ℕ, IfNone, IfOk, IfSome, drop, filter};
ghost use Rattle.std.specs.BTreeSet.{contains};
ghost use Rattle.std.specs.Ordering.{nat_cmp};
ghost use Rattle.tcf_text.specs.Lines.{bare_answer_of};
ghost use Rattle.target_hub.specs.Received.{is_through_number};
ghost use Rattle.target_hub.specs.Sent.{is_through};
ghost use Rattle.log_check.specs.Sorts.{AreOfLog, AreSorted, IsCommandIn, IsCommandOf, IsOfNone, as_accepted, is_bare, is_sent_on, passes, sort_by};

use crate::channel::first_line;
use crate::sets::{has, see};
use command_tables::{Reading, read_command};
use std::alloc::{AllocError, Global};
use std::collections::BTreeSet;
use tcf_text::LogLine;
use tcf_values::{is_changing, is_storable};

/// Which peers answer a command.
#[derive(Clone, Copy, Debug, PartialEq, Eq)]
pub(crate) enum Sort {
    /// Any peer may, from what it keeps.
    Storable,
    /// The target alone.
    Through,
    /// The target alone, and what peers keep ends there.
    Barrier,
}

/// A command of a log.
#[derive(Clone, Copy)]
pub(crate) struct Command<'a> {
    pub(crate) number: u64,
    pub(crate) service: &'a [u8],
    pub(crate) name: &'a [u8],
    pub(crate) body: &'a [u8],
    pub(crate) sort: Sort,
    /// Whether a message without a position answered it.
    pub(crate) is_bare: bool,
}

/// The sort of a command that is read so.
pub(crate) fn sort_of(reading: &Reading) -> Sort
    ensures { result ≡ sort_by reading.now }
{
    match reading {
        Reading::Known(command) => {
            if is_storable(command) {
                Sort::Storable
            } else if is_changing(command) {
                Sort::Barrier
            } else {
                Sort::Through
            }
        }
        Reading::Unknown => Sort::Barrier,
        Reading::Bad { .. } => Sort::Barrier,
    }
}

/// Whether no peer but the target answers a command of this sort.
pub(crate) fn is_sent_on(sort: Sort) -> bool
    ensures { result ≡ is_sent_on sort }
{
    match sort {
        Sort::Storable => false,
        Sort::Through => true,
        Sort::Barrier => true,
    }
}

/// Whether a command that is read so is one that the target alone answers.
pub(crate) fn is_through(reading: &Reading) -> bool
    ensures { result ≡ is_through reading.now }
{
    match reading {
        Reading::Known(command) => !is_storable(command),
        Reading::Unknown => true,
        Reading::Bad { .. } => true,
    }
}

/// The number of the command that a message without a position answers, as the line says.
fn bare_answer(line: &LogLine) -> Option<u64>
    ensures some { IfSome result (λ number. bare_answer_of line.now ≡ number ∷ []) }
    ensures none { IfNone result (bare_answer_of line.now ≡ []) }
{
    match line {
        LogLine::Final {
            number,
            mark: None,
            ..
        } => Some(*number),
        LogLine::Unknown { number, mark: None } => Some(*number),
        _ => None,
    }
}

/// The numbers of the commands that a message without a position answers.
#[tactic(auto, using(crate::proofs::Sorting::bare_first, crate::proofs::Sorting::bare_one, crate::proofs::Sorting::bare_other, crate::proofs::Sorting::bare_last))]
fn bare_answers(alloc: Global, lines: &[LogLine]) -> Result<BTreeSet<u64>, AllocError>
    ensures { IfOk result (λ bare. (q : ℕ) → contains nat_cmp bare q ≡ is_bare lines.now q) }
{
    let mut bare = BTreeSet::new(alloc);
    let mut left = lines;
    while let Some((line, after)) = first_line(left) {
        if let Some(number) = bare_answer(line) {
            see(&mut bare, number)?;
        }
        left = after;
    }
    Ok(bare)
}

/// The command of a line, where it says that one was sent.
fn command_in<'a>(
    alloc: Global,
    bare: &BTreeSet<u64>,
    line: &'a LogLine,
) -> Result<Option<Command<'a>>, AllocError>
    ensures command { IfOk result (IsCommandIn line.now) }
    ensures bare { IfOk result (λ command. IfSome command (λ c. c.is_bare ≡ contains nat_cmp bare.now c.number)) }
{
    match line {
        LogLine::Sent {
            number,
            service,
            name,
            body,
        } => {
            let service = service.as_slice();
            let name = name.as_slice();
            let body = body.as_slice();
            let reading = read_command(alloc, service, name, body)?;
            Ok(Some(Command {
                number: *number,
                service,
                name,
                body,
                sort: sort_of(&reading),
                is_bare: has(bare, *number),
            }))
        }
        _ => Ok(None),
    }
}

/// The commands that the log says were sent, in order.
#[tactic(auto, using(crate::proofs::Sorting::of_first, crate::proofs::Sorting::of_one, crate::proofs::Sorting::of_other, crate::proofs::Sorting::of_last))]
pub(crate) fn commands_in(alloc: Global, lines: &[LogLine]) -> Result<Vec<Command<'_>>, AllocError>
    ensures { IfOk result (λ commands. AreOfLog lines.now commands.items) }
{
    let bare = bare_answers(alloc, lines)?;
    let mut commands = Vec::new(alloc);
    let mut left = lines;
    while let Some((line, after)) = first_line(left) {
        if let Some(command) = command_in(alloc, &bare, line)? {
            commands.push(command)?;
        }
        left = after;
    }
    Ok(commands)
}

/// The command of this number, where the commands are numbered from 1 on.
#[tactic(auto, using(crate::proofs::Sorting::none_there))]
pub(crate) fn command_of<'a, 'b>(
    commands: &'b [Command<'a>],
    number: u64,
) -> Option<&'b Command<'a>>
    requires { AreSorted commands.now }
    ensures some { IfSome result (λ c. IsCommandOf commands.now number c.now) }
    ensures none { IfNone result (IsOfNone commands.now number) }
{
    if number == 0 {
        return None;
    }
    match commands.get((number - 1) as usize) {
        Some(command) => Some(command),
        None => None,
    }
}

/// Whether the command of this number is one that the target alone answers.
#[tactic(auto, using(crate::proofs::Sorting::through_there, crate::proofs::Sorting::through_none))]
pub(crate) fn is_through_number(commands: &[Command<'_>], number: u64) -> bool
    requires { AreSorted commands.now }
    ensures { result ≡ is_through_number number (as_accepted commands.now) }
{
    match command_of(commands, number) {
        Some(command) => is_sent_on(command.sort),
        None => false,
    }
}

/// Whether the command goes through to the target, which alone answers it.
fn passes(command: &Command<'_>) -> bool
    ensures { result ≡ passes command.now }
{
    is_sent_on(command.sort) && !command.is_bare
}

/// The next command that goes through to the target behind the first so many, and how many there are up to it and with it.
#[tactic(auto, using(crate::proofs::Sorting::passing_next, crate::proofs::Sorting::passing_here, crate::proofs::Sorting::passing_none))]
pub(crate) fn next_through<'a, 'b>(
    commands: &'b [Command<'a>],
    done: usize,
) -> Option<(usize, &'b Command<'a>)>
    ensures some { IfSome result (λ next. filter passes (drop done commands.now) ≡ next.1.now ∷ filter passes (drop next.0 commands.now)) }
    ensures none { IfNone result (filter passes (drop done commands.now) ≡ []) }
{
    let mut at = done;
    while let Some(command) = commands.get(at) {
        at += 1;
        if passes(command) {
            return Some((at, command));
        }
    }
    None
}
