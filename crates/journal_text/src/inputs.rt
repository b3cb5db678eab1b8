//! How an input is read from its line.
ghost use Rattle.std.specs.Prelude.{◌≡◌, IfOk, IfSome, Some, option_map};
ghost use Rattle.line_words.specs.Left.{words_left};
ghost use Rattle.journal_text.specs.Inputs.{InputIsRead, bad_said, channel_said, code_said, input_behind, input_of, known_said, names_said, ticked_said, unknown_said};

use command_tables::{Reading, read_command};
use line_words::WordsLeft;
use service_names::command_named;
use std::alloc::{AllocError, Global};
use target_hub::Input;
use tcf_outside::Octets;
use tcf_schedules::thread_id;
use tcf_text::{long_number, named_said, word_said};

/// `K` alone.
fn channel_said(words: WordsLeft<'_>) -> Option<u64>
    ensures { option_map (λ k. Input.Opened k) result ≡ channel_said Input.Opened (words_left words.entry) }
{
    long_number(words.only()?)
}

/// `THREAD`.
fn ticked_said(words: WordsLeft<'_>) -> Option<Input>
    ensures { result ≡ ticked_said (words_left words.entry) }
{
    let thread = thread_id(words.only()?)?;
    Some(Input::Ticked(thread))
}

/// `K SERVICE COMMAND ARGS`, of a command whose arguments are read.
fn known_said(alloc: Global, words: WordsLeft<'_>) -> Result<Option<Input>, AllocError>
    ensures value { IfOk result (λ input. input ≡ known_said (words_left words.entry)) }
    ensures read { IfOk result (λ input. IfSome input InputIsRead) }
{
    let Some((channel, words)) = words.first() else {
        return Ok(None);
    };
    let Some(channel) = long_number(channel) else {
        return Ok(None);
    };
    let Some(command) = named_said(alloc, words)? else {
        return Ok(None);
    };
    let reading = read_command(
        alloc,
        command.service.as_slice(),
        command.name.as_slice(),
        command.body.as_slice(),
    )?;
    match reading {
        Reading::Known(known) => Ok(Some(Input::Executed(
            channel,
            Reading::Known(known),
            command.service,
            command.name,
        ))),
        _ => Ok(None),
    }
}

/// The service and the name of a command.
#[derive(Drop)]
struct Names {
    service: Octets,
    name: Octets,
}

/// `SERVICE COMMAND` alone.
fn names_said(alloc: Global, words: WordsLeft<'_>) -> Result<Option<Names>, AllocError>
    ensures { IfOk result (λ names. option_map (λ n. (n.service, n.name)) names ≡ names_said (words_left words.entry)) }
{
    let Some((service, words)) = words.first() else {
        return Ok(None);
    };
    let Some(name) = words.only() else {
        return Ok(None);
    };
    let Some(service) = word_said(alloc, service)? else {
        return Ok(None);
    };
    let Some(name) = word_said(alloc, name)? else {
        return Ok(None);
    };
    Ok(Some(Names { service, name }))
}

/// `K SERVICE COMMAND`, of a command that the tables don't have.
fn unknown_said(alloc: Global, words: WordsLeft<'_>) -> Result<Option<Input>, AllocError>
    ensures value { IfOk result (λ input. input ≡ unknown_said (words_left words.entry)) }
    ensures read { IfOk result (λ input. IfSome input InputIsRead) }
{
    let Some((channel, words)) = words.first() else {
        return Ok(None);
    };
    let Some(channel) = long_number(channel) else {
        return Ok(None);
    };
    let Some(Names { service, name }) = names_said(alloc, words)? else {
        return Ok(None);
    };
    match command_named(service.as_slice(), name.as_slice()) {
        Some(_) => Ok(None),
        None => Ok(Some(Input::Executed(channel, Reading::Unknown, service, name))),
    }
}

/// The code of a refusal.
#[tactic(auto, unfolding(crate::specs::Inputs::code_said))]
fn code_said(word: &[u8]) -> Option<u8>
    ensures { result ≡ code_said word.now }
{
    match word {
        [b'2'] => Some(2),
        [b'3'] => Some(3),
        [b'8'] => Some(8),
        _ => None,
    }
}

/// `K INDEX CODE SERVICE COMMAND`, of a command that the tables have.
fn bad_said(alloc: Global, words: WordsLeft<'_>) -> Result<Option<Input>, AllocError>
    ensures value { IfOk result (λ input. input ≡ bad_said (words_left words.entry)) }
    ensures read { IfOk result (λ input. IfSome input InputIsRead) }
{
    let Some((channel, words)) = words.first() else {
        return Ok(None);
    };
    let Some((index, words)) = words.first() else {
        return Ok(None);
    };
    let Some((code, words)) = words.first() else {
        return Ok(None);
    };
    let Some(channel) = long_number(channel) else {
        return Ok(None);
    };
    let Some(index) = long_number(index) else {
        return Ok(None);
    };
    let Some(code) = code_said(code) else {
        return Ok(None);
    };
    let Some(Names { service, name }) = names_said(alloc, words)? else {
        return Ok(None);
    };
    let index = index as usize;
    match command_named(service.as_slice(), name.as_slice()) {
        Some(_) => Ok(Some(Input::Executed(channel, Reading::Bad { index, code }, service, name))),
        None => Ok(None),
    }
}

/// The input behind this first word.
#[tactic(auto, unfolding(crate::specs::Inputs::input_behind, crate::specs::Inputs::opened_word, crate::specs::Inputs::known_word, crate::specs::Inputs::unknown_word, crate::specs::Inputs::bad_word, crate::specs::Inputs::ticked_word, crate::specs::Inputs::closed_word))]
fn input_behind(
    alloc: Global,
    word: &[u8],
    words: WordsLeft<'_>,
) -> Result<Option<Input>, AllocError>
    ensures value { IfOk result (λ input. input ≡ input_behind word.now (words_left words.entry)) }
    ensures read { IfOk result (λ input. IfSome input InputIsRead) }
{
    if word == b"opened".as_slice() {
        Ok(channel_said(words).map(Input::Opened))
    } else if word == b"known".as_slice() {
        known_said(alloc, words)
    } else if word == b"unknown".as_slice() {
        unknown_said(alloc, words)
    } else if word == b"bad".as_slice() {
        bad_said(alloc, words)
    } else if word == b"ticked".as_slice() {
        Ok(ticked_said(words))
    } else if word == b"closed".as_slice() {
        Ok(channel_said(words).map(Input::Closed))
    } else {
        Ok(None)
    }
}

/// The input that the text says. None comes exactly where it says none. What is executed is always a reading of its
/// service and its name.
pub fn read_input(alloc: Global, text: &[u8]) -> Result<Option<Input>, AllocError>
    ensures value { IfOk result (λ input. input ≡ input_of text.now) }
    ensures read { IfOk result (λ input. IfSome input InputIsRead) }
{
    match WordsLeft::of(text).first() {
        Some((word, words)) => input_behind(alloc, word, words),
        None => Ok(None),
    }
}
