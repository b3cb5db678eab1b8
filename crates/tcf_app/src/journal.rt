//! The runs of `journal` and of `check`: a journal is written of a schedule that is played, and a journal is judged.
ghost use Rattle.std.specs.Prelude.{◌≡◌, ◌+◌, ◌<◌, ◌≤◌, IfOk, length};
ghost use Rattle.std.specs.List.{AllByRecursion};
ghost use Rattle.chain_world.specs.World.{IsPlayable};
ghost use Rattle.journal_text.specs.Journal.{journal_of};
ghost use Rattle.tcf_schedules.specs.Plan.{plans_of};
ghost use Rattle.tcf_schedules.specs.Schedule.{chain_of, lines_of, meaning, schedule_of};
ghost use Rattle.tcf_app.specs.Ending.{Ends, EndsIn, IsJudgedEnding, chain_ending, journal_ending, verdict_ending};
ghost use Rattle.tcf_app.specs.Exit.{TellsFault};
ghost use Rattle.tcf_app.specs.Played.{journal_printed};
ghost use Rattle.tcf_app.specs.Texts.{differs_text, rule_word};

use crate::chain::play;
use crate::exit::Exit;
use crate::finish::{finish, finish_made, push_line};
use crate::refusing::refuse_line;
use chain_world::images_of;
use journal_text::{read_journal, write_journal};
use log_check::{Rule, judge};
use std::alloc::{AllocError, Global};
use tcf_outside::{Octets, Sink};
use tcf_schedules::{Schedule, TextFault, TextRefusal, chain_at, cut_line, read_schedule};
use world_laws::{every_schedule, read_is_playable};

/// How many lines the file has.
fn line_count(file: &[u8]) -> u64
    ensures lines { result ≡ length (lines_of file.now) }
    ensures few { result ≤ length file.now }
{
    let mut rest = file;
    let mut count = 0u64;
    while !rest.is_empty() {
        let (_, after) = cut_line(rest);
        count += 1;
        rest = after;
    }
    count
}

/// The journal of the chain at this place of the schedule, played.
fn text_of(alloc: Global, schedule: &Schedule, at: usize) -> Result<Octets, AllocError>
    requires playable { AllByRecursion IsPlayable (plans_of schedule.now.steps) }
    requires there { at < length schedule.now.chains }
    ensures { IfOk result (λ text. text ≡ journal_printed at (meaning schedule.now)) }
{
    // A history that is played is legal, so what it executes is read.
    every_schedule();
    let world = play(alloc, schedule)?;
    let images = images_of(alloc, schedule.images.as_slice())?;
    let mut text = Octets::new(alloc);
    write_journal(alloc, &images, world.history(), world.log(at), &mut text)?;
    Ok(text)
}

/// Writes the journal of the chain of this name, if the schedule has it.
fn journal_chain<S: Sink>(
    alloc: Global,
    file: &[u8],
    schedule: &Schedule,
    name: &[u8],
    out: &mut S,
) -> Exit
    requires { AllByRecursion IsPlayable (plans_of schedule.now.steps) }
    ensures ends { Ends (chain_ending (length (lines_of file.now)) (meaning schedule.now) (chain_of schedule.now.chains name.now)) result (S.seen out.old) (S.seen out.new) }
    ensures fault { TellsFault result (S.seen out.old) (S.seen out.new) }
{
    match chain_at(schedule.chains.as_slice(), name) {
        Some(at) => finish_made(out, text_of(alloc, schedule, at), Exit::Done),
        None => refuse_line(alloc, line_count(file) + 1, TextFault::Unknown, out),
    }
}

/// Plays the schedule that the file says, and puts the journal of the chain of this name.
pub(crate) fn journal_file<S: Sink>(alloc: Global, file: &[u8], name: &[u8], out: &mut S) -> Exit
    ensures ends { Ends (journal_ending file.now name.now) result (S.seen out.old) (S.seen out.new) }
    ensures fault { TellsFault result (S.seen out.old) (S.seen out.new) }
{
    read_is_playable();
    match read_schedule(alloc, file) {
        Ok(schedule) => journal_chain(alloc, file, &schedule, name, out),
        Err(TextRefusal::Bad { line, what }) => refuse_line(alloc, line, what, out),
        Err(TextRefusal::NoMemory) => Exit::NoMemory,
    }
}

/// The word of a rule.
#[tactic(auto, unfolding(crate::specs::Texts::rule_word))]
fn rule_word(rule: Rule) -> &'static [u8]
    ensures { result.now ≡ rule_word rule }
{
    match rule {
        Rule::Legal => b"legal",
        Rule::Once => b"once",
        Rule::Positions => b"positions",
        Rule::Order => b"order",
        Rule::Executed => b"executed",
        Rule::Fresh => b"fresh",
    }
}

/// The line that says that this is the first rule that a journal breaks.
#[tactic(auto, unfolding(crate::specs::Texts::differs_front))]
fn differs(alloc: Global, rule: Rule) -> Result<Octets, AllocError>
    ensures { IfOk result (λ text. text ≡ differs_text rule) }
{
    let mut text = Octets::new(alloc);
    push_line(&mut text, b"differs: ", rule_word(rule))?;
    Ok(text)
}

/// Judges the journal that the file says.
pub(crate) fn check_file<S: Sink>(alloc: Global, file: &[u8], out: &mut S) -> Exit
    ensures ends { EndsIn (IsJudgedEnding (journal_of file.now)) result (S.seen out.old) (S.seen out.new) }
    ensures fault { TellsFault result (S.seen out.old) (S.seen out.new) }
{
    match read_journal(alloc, file) {
        Ok(journal) => match judge(alloc, &journal) {
            Ok(None) => finish(out, b"ok\n", Exit::Done),
            Ok(Some(rule)) => finish_made(out, differs(alloc, rule), Exit::Differs { rule }),
            Err(_) => Exit::NoMemory,
        },
        Err(TextRefusal::Bad { line, what }) => refuse_line(alloc, line, what, out),
        Err(TextRefusal::NoMemory) => Exit::NoMemory,
    }
}
