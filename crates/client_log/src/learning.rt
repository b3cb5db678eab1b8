//! What the next line of a log teaches a cache, beside the lines before it.
ghost use Rattle.std.specs.Prelude.{◌≡◌, ◌++◌, OnOk, option_and_then, option_copied, slice_get};
ghost use Rattle.cache_learning.specs.Kept.{KeepsToo};
ghost use Rattle.cache_learning.specs.Lessons.{event_message, final_message};
ghost use Rattle.channel_core.specs.Wire.{hello, locator};
ghost use Rattle.tcf_text.specs.Lines.{accepted};
ghost use Rattle.client_log.specs.Lessons.{KeepsThese, lesson_of, numbered, reading_as};
ghost use Rattle.client_log.specs.Places.{command_of, place_of, sent_places};

use cache_learning::{hear_event, hear_final};
use knowledge::Knowledge;
use std::alloc::{AllocError, Global};
use tcf_text::LogLine;

fn place_at(places: &[usize], at: usize) -> Option<usize>
    ensures { result ≡ slice_get places.now at }
{
    places.get(at).copied()
}

fn line_at(lines: &[LogLine], at: usize) -> Option<&LogLine>
    ensures { option_copied result ≡ slice_get lines.now at }
{
    lines.get(at)
}

/// The line of the command of this number, found at once.
fn command_line<'a>(lines: &'a [LogLine], sent: &[usize], number: u64) -> Option<&'a LogLine>
    requires { sent.now ≡ sent_places lines.now }
    ensures { option_and_then command_of (option_copied result) ≡ numbered number (accepted lines.now) }
{
    let place = place_at(sent, number.saturating_sub(1) as usize)?;
    line_at(lines, place)
}

/// Learns the data of an answer to the command of a line.
fn learn_final(
    alloc: Global,
    cache: &mut Knowledge,
    command: &LogLine,
    body: &[u8],
) -> Result<(), AllocError>
    ensures { OnOk result (KeepsToo (final_message (reading_as (command_of command.now)) body.now) cache.old cache.new) }
{
    match command {
        LogLine::Sent {
            service,
            name,
            body: asked,
            ..
        } => hear_final(
            alloc,
            cache,
            service.as_slice(),
            name.as_slice(),
            asked.as_slice(),
            body,
        ),
        _ => Ok(()),
    }
}

/// Learns the data of an answer to the command of this number, where there is one.
fn learn_answer(
    alloc: Global,
    lines: &[LogLine],
    sent: &[usize],
    cache: &mut Knowledge,
    number: u64,
    body: &[u8],
) -> Result<(), AllocError>
    requires { sent.now ≡ sent_places lines.now }
    ensures { OnOk result (KeepsToo (final_message (reading_as (numbered number (accepted lines.now))) body.now) cache.old cache.new) }
{
    match command_line(lines, sent, number) {
        Some(command) => learn_final(alloc, cache, command, body),
        None => Ok(()),
    }
}

/// Learns the data of a Hello.
#[tactic(auto, unfolding(channel_core::specs::Wire::hello, channel_core::specs::Wire::locator))]
fn learn_hello(alloc: Global, cache: &mut Knowledge, body: &[u8]) -> Result<(), AllocError>
    ensures { OnOk result (KeepsToo (event_message locator hello body.now) cache.old cache.new) }
{
    hear_event(alloc, cache, b"Locator", b"Hello", body)
}

/// Learns what the next line teaches behind these lines, whose `sent` lines stand at these places.
pub(crate) fn learn(
    alloc: Global,
    lines: &[LogLine],
    sent: &[usize],
    cache: &mut Knowledge,
    line: &LogLine,
) -> Result<(), AllocError>
    requires { sent.now ≡ sent_places lines.now }
    ensures { OnOk result (KeepsThese (lesson_of (accepted lines.now) line.now) cache.old cache.new) }
{
    match line {
        LogLine::Hello { body, .. } => learn_hello(alloc, cache, body.as_slice()),
        LogLine::Event {
            service,
            name,
            body,
            ..
        } => hear_event(
            alloc,
            cache,
            service.as_slice(),
            name.as_slice(),
            body.as_slice(),
        ),
        LogLine::Final { number, body, .. } => {
            learn_answer(alloc, lines, sent, cache, *number, body.as_slice())
        }
        LogLine::Progress { .. } => Ok(()),
        LogLine::Unknown { .. } => Ok(()),
        LogLine::Sent { .. }
        | LogLine::Refused(_)
        | LogLine::Closed { .. }
        | LogLine::Ended(_)
        | LogLine::Cached { .. } => Ok(()),
    }
}

/// Notes the place of a `sent` line.
pub(crate) fn note_place(
    sent: &mut Vec<usize>,
    place: usize,
    line: &LogLine,
) -> Result<(), AllocError>
    ensures { OnOk result (sent.new.items ≡ sent.old.items ++ place_of place line.now) }
{
    if let LogLine::Sent { .. } = line {
        sent.push(place)?;
    }
    Ok(())
}
