//! The last lines that have a number.
ghost use Rattle.std.specs.Prelude.{◌≡◌, IfOk};
ghost use Rattle.tcf_app.specs.Texts.{fault_word, what_word, number_text, place_text, too_long_text, turns_text, bad_line_text, bad_stream_text};

use crate::exit::{BadPlace, StreamWhat};
use crate::finish::push_line;
use std::alloc::{AllocError, Global};
use tcf_outside::Octets;
use tcf_schedules::TextFault;

#[tactic(auto, unfolding(crate::specs::Texts::fault_word))]
fn fault_word(what: TextFault) -> &'static [u8]
    ensures { result.now ≡ fault_word what }
{
    match what {
        TextFault::Form => b"form",
        TextFault::Late => b"late",
        TextFault::Repeat => b"repeat",
        TextFault::Unknown => b"unknown",
        TextFault::Many => b"many",
    }
}

#[tactic(auto, unfolding(crate::specs::Texts::what_word))]
fn what_word(what: StreamWhat) -> &'static [u8]
    ensures { result.now ≡ what_word what }
{
    match what {
        StreamWhat::Escape => b"escape",
        StreamWhat::Long => b"long",
        StreamWhat::AfterEnd => b"after-end",
        StreamWhat::Unended => b"unended",
        StreamWhat::Empty => b"empty",
        StreamWhat::Kind => b"kind",
        StreamWhat::Field => b"field",
        StreamWhat::Token => b"token",
        StreamWhat::Level => b"level",
        StreamWhat::Trailing => b"trailing",
        StreamWhat::Body => b"body",
    }
}

/// A line of its front and a number.
fn number_line(alloc: Global, front: &[u8], number: u64) -> Result<Octets, AllocError>
    ensures { IfOk result (λ text. text ≡ number_text front.now number) }
{
    let number = format!(in alloc; "{number}")?;
    let mut text = Octets::new(alloc);
    push_line(&mut text, front, number.as_bytes())?;
    Ok(text)
}

/// The last line where the file that this word names is too long.
#[tactic(auto, unfolding(crate::specs::Texts::too_long_front))]
pub(crate) fn too_long(alloc: Global, word: u64) -> Result<Octets, AllocError>
    ensures { IfOk result (λ text. text ≡ too_long_text word) }
{
    number_line(alloc, b"file too long: word ", word)
}

/// The last line of a serving that took so many events.
#[tactic(auto, unfolding(crate::specs::Texts::turns_front))]
pub(crate) fn turns(alloc: Global, events: u32) -> Result<Octets, AllocError>
    ensures { IfOk result (λ text. text ≡ turns_text events) }
{
    number_line(alloc, b"turns ", u64::from(events))
}

/// A line of its front, a number, a colon and a word.
#[tactic(auto, unfolding(crate::specs::Texts::colon))]
fn place_line(alloc: Global, front: &[u8], place: u64, word: &[u8]) -> Result<Octets, AllocError>
    ensures { IfOk result (λ text. text ≡ place_text front.now place word.now) }
{
    let number = format!(in alloc; "{place}")?;
    let mut text = Octets::from_slice(alloc, front)?;
    text.extend(number.as_bytes())?;
    text.extend(b": ")?;
    text.extend(word)?;
    text.push(b'\n')?;
    Ok(text)
}

/// The last line where a line of a schedule is bad.
#[tactic(auto, unfolding(crate::specs::Texts::bad_line_front))]
pub(crate) fn bad_line(alloc: Global, line: u64, what: TextFault) -> Result<Octets, AllocError>
    ensures { IfOk result (λ text. text ≡ bad_line_text line what) }
{
    place_line(alloc, b"bad line ", line, fault_word(what))
}

/// The last line where a stream is bad.
#[tactic(auto, unfolding(crate::specs::Texts::bad_stream_front))]
pub(crate) fn bad_stream(alloc: Global, bad: BadPlace) -> Result<Octets, AllocError>
    ensures { IfOk result (λ text. text ≡ bad_stream_text bad) }
{
    place_line(alloc, b"bad stream at ", bad.offset, what_word(bad.what))
}
