//! Scripts: what a client is to do, line by line, read from a file.
ghost use Rattle.std.specs.Prelude.{◌≡◌, ◌++◌, Ok, Err, Some, option_map, IfOk, IfErr, OnOk, IsSome, false};
ghost use Rattle.std.specs.List.{AllByRecursion};
ghost use Rattle.tcf_schedules.specs.Refusal.{Refuses};
ghost use Rattle.tcf_schedules.specs.Said.{command_said};
ghost use Rattle.tcf_schedules.specs.Schedule.{is_skipped};
ghost use Rattle.tcf_schedules.specs.Script.{script_behind, script_words, script_value_of, script_said, script_line, added_by, RefusesLine, script_of, IsFit, IsForm, ScriptWantsMemory};
ghost use Rattle.tcf_schedules.specs.Words.{data_of};

use crate::laws::reads_the_script_line;
use crate::line::{CommandSays, service_in};
use crate::place::data;
use crate::reading::{bad, cut_line, is_blank_or_comment};
use crate::schedule::{TextFault, TextRefusal};
use crate::words::{cached_word, close_word, send_word, wait_word};
use cached_lines::{CachedSays, CachedWhat, cached_says};
use line_words::first_word;
use std::alloc::{AllocError, Global};
use tcf_outside::{Octets, Sequence};

/// One line of a script.
#[derive(Debug, Drop)]
pub enum ScriptLine {
    /// The client sends a command.
    Send {
        service: Octets,
        name: Octets,
        body: Octets,
    },
    /// The client goes on once none of its commands is pending.
    Wait,
    /// What the client's cache knows is written to its log.
    Cached {
        what: CachedWhat,
    },
    /// The client closes its channel.
    Close,
}

pub type Script = Sequence<ScriptLine>;

/// A line of a script: `send SERVICE COMMAND ARG ..`, `wait`, `cached KIND ..`, or `close`.
#[derive(Drop)]
pub(crate) enum ScriptSays<'a> {
    Sends {
        service: &'a [u8],
        command: CommandSays<'a>,
    },
    Waits,
    Asks(CachedSays<'a>),
    Closes,
}

/// What a line with this first word says.
#[tactic(auto, unfolding(crate::specs::Script::script_behind))]
fn says_behind<'a>(word: &[u8], rest: &'a [u8]) -> Option<ScriptSays<'a>>
    ensures { option_map script_said result ≡ script_behind word.now rest.now }
{
    if word == send_word() {
        let (service, command) = service_in(rest)?;
        Some(ScriptSays::Sends { service, command })
    } else if word == cached_word() {
        Some(ScriptSays::Asks(cached_says(rest)?))
    } else {
        None
    }
}

/// What a line of several words says.
fn words_say(line: &[u8]) -> Option<ScriptSays<'_>>
    ensures { option_map script_said result ≡ script_words line.now }
{
    let (word, rest) = first_word(line)?;
    says_behind(word, rest)
}

/// What the line says, if it has the form of one.
#[tactic(auto, unfolding(crate::specs::Script::script_value_of))]
fn script_says(line: &[u8]) -> Option<ScriptSays<'_>>
    ensures { option_map script_said result ≡ script_value_of line.now }
{
    if line == wait_word() {
        Some(ScriptSays::Waits)
    } else if line == close_word() {
        Some(ScriptSays::Closes)
    } else {
        words_say(line)
    }
}

fn sending(
    alloc: Global,
    service: &[u8],
    command: CommandSays<'_>,
) -> Result<ScriptLine, AllocError>
    ensures { IfOk result (λ made. made ≡ ScriptLine.Send service.now (command_said command.entry).0 (data_of (command_said command.entry).1)) }
{
    Ok(ScriptLine::Send {
        service: Octets::from_slice(alloc, service)?,
        name: Octets::from_slice(alloc, command.name)?,
        body: data(alloc, command.args)?,
    })
}

impl ScriptSays<'_> {
    /// The line itself.
    fn line(&self, alloc: Global) -> Result<ScriptLine, AllocError>
        ensures { IfOk result (λ made. made ≡ script_line (script_said self.now)) }
    {
        match self {
            ScriptSays::Sends { service, command } => sending(alloc, service, *command),
            ScriptSays::Waits => Ok(ScriptLine::Wait),
            ScriptSays::Asks(what) => Ok(ScriptLine::Cached {
                what: what.copied(alloc)?,
            }),
            ScriptSays::Closes => Ok(ScriptLine::Close),
        }
    }
}

/// Puts what the line of this number says last.
fn take_line(
    alloc: Global,
    number: u64,
    line: &[u8],
    script: &mut Script,
) -> Result<(), TextRefusal>
    ensures ok { OnOk result (option_map (λ more. script.old ++ more) (added_by line.now) ≡ Some script.new) }
    ensures bad { IfErr result (RefusesLine number (added_by line.now)) }
    ensures wants { result ≡ Err TextRefusal.NoMemory → IsSome (added_by line.now) }
    ensures kept { result ≡ Err TextRefusal.NoMemory → is_skipped line.now ≡ false }
{
    if is_blank_or_comment(line) {
        return Ok(());
    }
    match script_says(line) {
        Some(says) => {
            let made = says.line(alloc)?;
            script.push(made)?;
            Ok(())
        }
        None => Err(bad(number, TextFault::Form)),
    }
}

/// The script that the file's lines say. The first bad line refuses the file, and what is wrong with it is its form.
pub fn read_script(alloc: Global, file: &[u8]) -> Result<Script, TextRefusal>
    ensures ok { IfOk result (λ script. script_of file.now ≡ Ok script) }
    ensures bad { IfErr result (Refuses (script_of file.now)) }
    ensures form { IfErr result IsForm }
    ensures within { IfOk result (λ script. AllByRecursion IsFit script) }
    ensures wants { result ≡ Err TextRefusal.NoMemory → ScriptWantsMemory file.now }
{
    // What is read of a line is what it says, so the script is within its bounds.
    reads_the_script_line();
    let mut script = Script::new(alloc);
    let mut rest = file;
    let mut number = 0u64;
    while !rest.is_empty() {
        let (line, after) = cut_line(rest);
        number += 1;
        take_line(alloc, number, line, &mut script)?;
        rest = after;
    }
    Ok(script)
}
