//! How a line of a log is read, where its words are shown so that they can be read back.
ghost use Rattle.std.specs.Prelude.{◌≡◌, IfOk, option_copied, option_map, true, Some};
ghost use Rattle.cached_lines.specs.Reading.{process_of};
ghost use Rattle.line_words.specs.Left.{words_left};
ghost use Rattle.tcf_text.specs.declared.reading.Answer.{Answer};
ghost use Rattle.tcf_text.specs.Reading.{sent_said, hello_said, event_said, answer_said, unknown_said, closed_said, reason_said, refused_said, cause_said, end_said, kind_said, value_said, asked_said, bytes_said, range_said, cached_said, answer_behind, line_behind, line_of, LinesAreReadBack};

use crate::log::{EndWhy, LogLine, RefusedWhy};
use crate::said::{data_said, long_number, mark_said, named_said, word_said};
use cached_lines::CachedWhat;
use line_words::{WordsLeft, are_words};
use std::alloc::{AllocError, Global};
use tcf_outside::Octets;
use tcf_values::{ContextId, context_id, number_within};

/// `N SERVICE COMMAND ARGS`.
fn sent_said(alloc: Global, words: WordsLeft<'_>) -> Result<Option<LogLine>, AllocError>
    ensures { IfOk result (λ line. line ≡ sent_said (words_left words.entry)) }
{
    let Some((number, words)) = words.first() else {
        return Ok(None);
    };
    let Some(number) = long_number(number) else {
        return Ok(None);
    };
    let Some(command) = named_said(alloc, words)? else {
        return Ok(None);
    };
    Ok(Some(LogLine::Sent {
        number,
        service: command.service,
        name: command.name,
        body: command.body,
    }))
}

/// `POS ARGS`.
fn hello_said(alloc: Global, words: WordsLeft<'_>) -> Result<Option<LogLine>, AllocError>
    ensures { IfOk result (λ line. line ≡ hello_said (words_left words.entry)) }
{
    let Some((mark, args)) = words.first() else {
        return Ok(None);
    };
    let Some(mark) = mark_said(mark) else {
        return Ok(None);
    };
    let Some(body) = data_said(alloc, args)? else {
        return Ok(None);
    };
    Ok(Some(LogLine::Hello { mark, body }))
}

/// `POS SERVICE EVENT ARGS`.
fn event_said(alloc: Global, words: WordsLeft<'_>) -> Result<Option<LogLine>, AllocError>
    ensures { IfOk result (λ line. line ≡ event_said (words_left words.entry)) }
{
    let Some((mark, words)) = words.first() else {
        return Ok(None);
    };
    let Some(mark) = mark_said(mark) else {
        return Ok(None);
    };
    let Some(event) = named_said(alloc, words)? else {
        return Ok(None);
    };
    Ok(Some(LogLine::Event {
        mark,
        service: event.service,
        name: event.name,
        body: event.body,
    }))
}

/// What a line says of the answer to a command: its number, its mark and its data.
#[derive(Drop)]
struct Answer {
    number: u64,
    mark: Option<u64>,
    body: Octets,
}

/// `N POS ARGS`.
fn answer_in(alloc: Global, words: WordsLeft<'_>) -> Result<Option<Answer>, AllocError>
    ensures { IfOk result (λ answer. option_map (λ (a : Answer). LogLine.Final a.number a.mark a.body) answer ≡ answer_said LogLine.Final (words_left words.entry)) }
{
    let Some((number, words)) = words.first() else {
        return Ok(None);
    };
    let Some((mark, args)) = words.first() else {
        return Ok(None);
    };
    let Some(number) = long_number(number) else {
        return Ok(None);
    };
    let Some(mark) = mark_said(mark) else {
        return Ok(None);
    };
    let Some(body) = data_said(alloc, args)? else {
        return Ok(None);
    };
    Ok(Some(Answer { number, mark, body }))
}

/// `N POS`.
fn unknown_said(words: WordsLeft<'_>) -> Option<LogLine>
    ensures { result ≡ unknown_said (words_left words.entry) }
{
    let (number, words) = words.first()?;
    let mark = words.only()?;
    Some(LogLine::Unknown {
        number: long_number(number)?,
        mark: mark_said(mark)?,
    })
}

/// `N`.
fn closed_said(words: WordsLeft<'_>) -> Option<LogLine>
    ensures { result ≡ closed_said (words_left words.entry) }
{
    let number = long_number(words.only()?)?;
    Some(LogLine::Closed { number })
}

#[tactic(auto, unfolding(crate::specs::Reading::reason_said, crate::specs::Log::refused_reason))]
fn reason_said(word: &[u8]) -> Option<RefusedWhy>
    ensures { result ≡ reason_said word.now }
{
    if word == b"Full".as_slice() {
        Some(RefusedWhy::Full)
    } else if word == b"NotOpen".as_slice() {
        Some(RefusedWhy::NotOpen)
    } else if word == b"TooLong".as_slice() {
        Some(RefusedWhy::TooLong)
    } else if word == b"Spent".as_slice() {
        Some(RefusedWhy::Spent)
    } else {
        None
    }
}

/// `REASON`.
fn refused_said(words: WordsLeft<'_>) -> Option<LogLine>
    ensures { result ≡ refused_said (words_left words.entry) }
{
    let why = reason_said(words.only()?)?;
    Some(LogLine::Refused(why))
}

#[tactic(auto, unfolding(crate::specs::Reading::cause_said, crate::specs::Log::end_cause))]
fn cause_said(word: &[u8]) -> Option<EndWhy>
    ensures { result ≡ cause_said word.now }
{
    if word == b"own".as_slice() {
        Some(EndWhy::Own)
    } else if word == b"eos".as_slice() {
        Some(EndWhy::Eos)
    } else if word == b"ended".as_slice() {
        Some(EndWhy::Ended)
    } else if word == b"protocol".as_slice() {
        Some(EndWhy::Protocol)
    } else if word == b"stream".as_slice() {
        Some(EndWhy::Stream)
    } else {
        None
    }
}

/// `CAUSE`.
fn end_said(words: WordsLeft<'_>) -> Option<LogLine>
    ensures { result ≡ end_said (words_left words.entry) }
{
    let why = cause_said(words.only()?)?;
    Some(LogLine::Ended(why))
}

/// What is asked by this kind of the ID.
#[tactic(auto, unfolding(crate::specs::Reading::kind_said, cached_lines::specs::Asked::context_word, cached_lines::specs::Asked::state_word, cached_lines::specs::Asked::register_word, cached_lines::specs::Asked::properties_word, cached_lines::specs::Asked::status_word))]
fn kind_said(kind: &[u8], id: Octets) -> Option<CachedWhat>
    ensures { result ≡ kind_said kind.now id }
{
    if kind == b"context".as_slice() {
        Some(CachedWhat::Context { id })
    } else if kind == b"state".as_slice() {
        Some(CachedWhat::State { id })
    } else if kind == b"register".as_slice() {
        Some(CachedWhat::Register { id })
    } else if kind == b"properties".as_slice() {
        Some(CachedWhat::Properties { id })
    } else if kind == b"status".as_slice() {
        Some(CachedWhat::Status { id })
    } else {
        None
    }
}

/// The value as it stands; `none` says that there is none.
#[tactic(auto, unfolding(crate::specs::Reading::value_said, crate::specs::Reading::none_value))]
fn value_said(alloc: Global, words: WordsLeft<'_>) -> Result<Option<Option<Octets>>, AllocError>
    ensures { IfOk result (λ value. value ≡ value_said (words_left words.entry)) }
{
    let Some(text) = words.text() else {
        return Ok(None);
    };
    if text == b"none".as_slice() {
        return Ok(Some(None));
    }
    if !are_words(text) {
        return Ok(None);
    }
    let value = Octets::from_slice(alloc, text)?;
    Ok(Some(Some(value)))
}

/// `ID VALUE`, behind the kind of what was asked.
fn asked_said(
    alloc: Global,
    kind: &[u8],
    words: WordsLeft<'_>,
) -> Result<Option<LogLine>, AllocError>
    ensures { IfOk result (λ line. line ≡ asked_said kind.now (words_left words.entry)) }
{
    let Some((id, words)) = words.first() else {
        return Ok(None);
    };
    let Some(id) = word_said(alloc, id)? else {
        return Ok(None);
    };
    let Some(what) = kind_said(kind, id) else {
        return Ok(None);
    };
    let Some(value) = value_said(alloc, words)? else {
        return Ok(None);
    };
    Ok(Some(LogLine::Cached { what, value }))
}

/// A range of bytes that was asked: its process, its address and its size.
#[derive(Clone, Copy)]
struct RangeSaid<'a> {
    id: &'a [u8],
    addr: u32,
    size: u32,
}

/// `ID ADDR SIZE`, and the words behind it.
fn range_said(words: WordsLeft<'_>) -> Option<(RangeSaid<'_>, WordsLeft<'_>)>
    ensures { option_map (λ parts. ((parts.0.id.now, (parts.0.addr, parts.0.size)), words_left parts.1)) result ≡ range_said (words_left words.entry) }
{
    let (id, words) = words.first()?;
    let (addr, words) = words.first()?;
    let (size, words) = words.first()?;
    let range = RangeSaid {
        id: process_said(id)?,
        addr: number_within(addr, 0, 65_535)?,
        size: number_within(size, 1, 65_536)?,
    };
    Some((range, words))
}

/// The text, if it is a process's spelling.
#[tactic(auto, unfolding(cached_lines::specs::Reading::process_of))]
fn process_said(text: &[u8]) -> Option<&[u8]>
    ensures { option_copied result ≡ process_of text.now }
{
    match context_id(text)? {
        ContextId::Process(_) => Some(text),
        ContextId::Thread(_, _) => None,
    }
}

/// `ID ADDR SIZE VALUE`.
fn bytes_said(alloc: Global, words: WordsLeft<'_>) -> Result<Option<LogLine>, AllocError>
    ensures { IfOk result (λ line. line ≡ bytes_said (words_left words.entry)) }
{
    let Some((range, words)) = range_said(words) else {
        return Ok(None);
    };
    let id = Octets::from_slice(alloc, range.id)?;
    let Some(value) = value_said(alloc, words)? else {
        return Ok(None);
    };
    let what = CachedWhat::Bytes {
        id,
        addr: range.addr,
        size: range.size,
    };
    Ok(Some(LogLine::Cached { what, value }))
}

/// `KIND ID VALUE`.
#[tactic(auto, unfolding(cached_lines::specs::Asked::bytes_word))]
fn cached_said(alloc: Global, words: WordsLeft<'_>) -> Result<Option<LogLine>, AllocError>
    ensures { IfOk result (λ line. line ≡ cached_said (words_left words.entry)) }
{
    let Some((kind, words)) = words.first() else {
        return Ok(None);
    };
    if kind == b"bytes".as_slice() {
        bytes_said(alloc, words)
    } else {
        asked_said(alloc, kind, words)
    }
}

/// `N POS ARGS`, of progress.
fn progress_said(alloc: Global, words: WordsLeft<'_>) -> Result<Option<LogLine>, AllocError>
    ensures { IfOk result (λ line. line ≡ answer_said LogLine.Progress (words_left words.entry)) }
{
    let Some(answer) = answer_in(alloc, words)? else {
        return Ok(None);
    };
    Ok(Some(LogLine::Progress {
        number: answer.number,
        mark: answer.mark,
        body: answer.body,
    }))
}

/// `N POS ARGS`, of a final result.
fn final_said(alloc: Global, words: WordsLeft<'_>) -> Result<Option<LogLine>, AllocError>
    ensures { IfOk result (λ line. line ≡ answer_said LogLine.Final (words_left words.entry)) }
{
    let Some(answer) = answer_in(alloc, words)? else {
        return Ok(None);
    };
    Ok(Some(LogLine::Final {
        number: answer.number,
        mark: answer.mark,
        body: answer.body,
    }))
}

/// The line behind this first word, of those that tell of a command.
#[tactic(auto, unfolding(crate::specs::Reading::answer_behind, crate::specs::Log::progress_word, crate::specs::Log::result_word, crate::specs::Log::unknown_word, crate::specs::Log::closed_word))]
fn answer_behind(
    alloc: Global,
    word: &[u8],
    words: WordsLeft<'_>,
) -> Result<Option<LogLine>, AllocError>
    ensures { IfOk result (λ line. line ≡ answer_behind word.now (words_left words.entry)) }
{
    if word == b"progress".as_slice() {
        progress_said(alloc, words)
    } else if word == b"result".as_slice() {
        final_said(alloc, words)
    } else if word == b"unknown".as_slice() {
        Ok(unknown_said(words))
    } else if word == b"closed".as_slice() {
        Ok(closed_said(words))
    } else {
        Ok(None)
    }
}

/// The line behind this first word.
#[tactic(auto, unfolding(crate::specs::Reading::line_behind, crate::specs::Log::sent_word, crate::specs::Reading::refused_word, crate::specs::Log::hello_word, crate::specs::Log::event_word, crate::specs::Reading::end_word, crate::specs::Reading::cached_word))]
fn line_behind(
    alloc: Global,
    word: &[u8],
    words: WordsLeft<'_>,
) -> Result<Option<LogLine>, AllocError>
    ensures { IfOk result (λ line. line ≡ line_behind word.now (words_left words.entry)) }
{
    if word == b"sent".as_slice() {
        sent_said(alloc, words)
    } else if word == b"refused".as_slice() {
        Ok(refused_said(words))
    } else if word == b"hello".as_slice() {
        hello_said(alloc, words)
    } else if word == b"event".as_slice() {
        event_said(alloc, words)
    } else if word == b"end".as_slice() {
        Ok(end_said(words))
    } else if word == b"cached".as_slice() {
        cached_said(alloc, words)
    } else {
        answer_behind(alloc, word, words)
    }
}

/// The line of a log that the text says, whose words are shown so that they can be read back. None comes exactly where it
/// says none.
pub fn read_line(alloc: Global, text: &[u8]) -> Result<Option<LogLine>, AllocError>
    ensures { IfOk result (λ line. line ≡ line_of text.now) }
{
    match WordsLeft::of(text).first() {
        Some((word, words)) => line_behind(alloc, word, words),
        None => Ok(None),
    }
}

/// The law that a line that is written so that it can be read back is read.
pub fn lines_are_read_back()
    ensures { LinesAreReadBack }
{}
