//! How a log is shown: each line's text, and the log's as a whole.
#![tactic(auto, using(crate::proofs::Growth::grows_later))]

ghost use Rattle.std.specs.Prelude.{◌≡◌, flat_map, ◌<◌, ◌++◌, ◌∷◌, decimal, true, option_copied, OnOk, OnErr};
ghost use Rattle.std.specs.Fmt.{digit_glyph};
ghost use Rattle.cached_lines.specs.Asked.{bytes_word};
ghost use Rattle.tcf_text.specs.Log.{sent_word, hello_word, event_word, unknown_word, refused_front, end_front, is_hidden, shown_byte, shown, readable, word_shown, word_text, rest_text, args_text, mark_text, refused_reason, end_cause, numbered, named_text, asked_text, value_text, cached_front, line_words, line_text, lines_text, log_text, Grows};

use crate::log::{EndWhy, LogLine, RefusedWhy, Showing};
use cached_lines::CachedWhat;
use itoa::Buffer;
use std::alloc::AllocError;
use tcf_outside::Octets;
use tcf_values::cut_at;

fn hex_digit(digit: u8) -> u8
    requires { digit < 16 }
    ensures { result ≡ digit_glyph true digit }
{
    if digit < 10 {
        b'0' + digit
    } else {
        b'A' + (digit - 10)
    }
}

fn is_hidden_byte(byte: u8) -> bool
    ensures { result ≡ is_hidden byte }
{
    byte <= b' ' || byte == b'%' || byte == 127
}

/// Appends a byte as it is shown.
fn show_byte(byte: u8, out: &mut Octets) -> Result<(), AllocError>
    ensures shown { OnOk result (out.new ≡ out.old ++ shown_byte byte) }
    ensures part { OnErr result (Grows out.old out.new) }
{
    if is_hidden_byte(byte) {
        out.extend(&[b'%', hex_digit(byte / 16), hex_digit(byte % 16)])
    } else {
        out.push(byte)
    }
}

/// Appends bytes as they are shown.
fn push_bytes(bytes: &[u8], out: &mut Octets) -> Result<(), AllocError>
    ensures shown { OnOk result (out.new ≡ out.old ++ flat_map shown_byte bytes.now) }
    ensures part { OnErr result (Grows out.old out.new) }
{
    for byte in bytes {
        show_byte(*byte, out)?;
    }
    Ok(())
}

/// Appends a word, or a part of data, as it is shown.
fn push_part(part: &[u8], out: &mut Octets) -> Result<(), AllocError>
    ensures shown { OnOk result (out.new ≡ out.old ++ shown part.now) }
    ensures part { OnErr result (Grows out.old out.new) }
{
    if part.is_empty() {
        return out.push(b'-');
    }
    push_bytes(part, out)
}

/// Appends a word so that it can be read back.
fn push_readable(word: &[u8], out: &mut Octets) -> Result<(), AllocError>
    ensures shown { OnOk result (out.new ≡ out.old ++ readable word.now) }
    ensures part { OnErr result (Grows out.old out.new) }
{
    match word {
        [] => out.push(b'-'),
        [b'-'] => out.extend(b"%2D"),
        [b'!', rest @ ..] => {
            out.extend(b"%21")?;
            push_bytes(rest, out)
        }
        _ => push_bytes(word, out),
    }
}

/// Appends a word as it is shown in this way.
fn push_word(how: Showing, word: &[u8], out: &mut Octets) -> Result<(), AllocError>
    ensures shown { OnOk result (out.new ≡ out.old ++ word_shown how word.now) }
    ensures part { OnErr result (Grows out.old out.new) }
{
    match how {
        Showing::Plain => push_part(word, out),
        Showing::Readable => push_readable(word, out),
    }
}

/// Appends a word, or a part of data, as it is shown: `-` where it is empty, else each byte as it is, but for blanks,
/// control bytes, `%` and DEL, which are shown as `%` and two upper-case hexadecimal digits. Where memory runs out
/// nothing is appended.
#[tactic(auto, using(crate::proofs::Growth::taken_back))]
pub fn show_part(part: &[u8], out: &mut Octets) -> Result<(), AllocError>
    ensures shown { OnOk result (out.new ≡ out.old ++ shown part.now) }
    ensures err { OnErr result (out.new ≡ out.old) }
{
    let length = out.len();
    if let Err(error) = push_part(part, out) {
        out.truncate(length);
        return Err(error);
    }
    Ok(())
}

/// Appends a blank and the word, shown in this way. Where memory runs out a part of it may be appended.
pub fn show_word(how: Showing, word: &[u8], out: &mut Octets) -> Result<(), AllocError>
    ensures shown { OnOk result (out.new ≡ out.old ++ word_text how word.now) }
    ensures part { OnErr result (Grows out.old out.new) }
{
    out.push(b' ')?;
    push_word(how, word, out)
}

/// Appends what stands behind the last zero, where something does.
fn show_rest(rest: &[u8], out: &mut Octets) -> Result<(), AllocError>
    ensures shown { OnOk result (out.new ≡ out.old ++ rest_text rest.now) }
    ensures part { OnErr result (Grows out.old out.new) }
{
    if rest.is_empty() {
        return Ok(());
    }
    out.extend(b" !")?;
    push_part(rest, out)
}

/// Appends the parts of the data, each behind a blank.
pub(crate) fn show_args(how: Showing, body: &[u8], out: &mut Octets) -> Result<(), AllocError>
    ensures shown { OnOk result (out.new ≡ out.old ++ args_text how body.now) }
    ensures part { OnErr result (Grows out.old out.new) }
{
    let mut rest = body;
    while let Some((part, after)) = cut_at(0, rest) {
        show_word(how, part, out)?;
        rest = after;
    }
    show_rest(rest, out)
}

/// Appends a blank and the number. Where memory runs out a part of it may be appended.
pub fn show_number(number: u64, out: &mut Octets) -> Result<(), AllocError>
    ensures shown { OnOk result (out.new ≡ out.old ++ 32 ∷ decimal number) }
    ensures part { OnErr result (Grows out.old out.new) }
{
    out.push(b' ')?;
    out.extend(Buffer::new().format(number).as_bytes())
}

fn show_mark(mark: Option<u64>, out: &mut Octets) -> Result<(), AllocError>
    ensures shown { OnOk result (out.new ≡ out.old ++ mark_text mark) }
    ensures part { OnErr result (Grows out.old out.new) }
{
    match mark {
        Some(mark) => show_number(mark, out),
        None => out.extend(b" -"),
    }
}

/// Appends a line's word and the number of a command.
fn show_numbered(word: &[u8], number: u64, out: &mut Octets) -> Result<(), AllocError>
    ensures shown { OnOk result (out.new ≡ out.old ++ numbered word.now number) }
    ensures part { OnErr result (Grows out.old out.new) }
{
    out.extend(word)?;
    show_number(number, out)
}

/// Appends the service, the name and the data of a command or an event, each word behind a blank. Where memory runs out a
/// part of it may be appended.
pub fn show_named(
    how: Showing,
    service: &[u8],
    name: &[u8],
    body: &[u8],
    out: &mut Octets,
) -> Result<(), AllocError>
    ensures shown { OnOk result (out.new ≡ out.old ++ named_text how service.now name.now body.now) }
    ensures part { OnErr result (Grows out.old out.new) }
{
    show_word(how, service, out)?;
    show_word(how, name, out)?;
    show_args(how, body, out)
}

#[tactic(auto, using(crate::proofs::Growth::grows_later), unfolding(crate::specs::Log::refused_reason))]
fn reason_word(why: RefusedWhy) -> &'static [u8]
    ensures { result.now ≡ refused_reason why }
{
    match why {
        RefusedWhy::Full => b"Full",
        RefusedWhy::NotOpen => b"NotOpen",
        RefusedWhy::TooLong => b"TooLong",
        RefusedWhy::Spent => b"Spent",
    }
}

#[tactic(auto, using(crate::proofs::Growth::grows_later), unfolding(crate::specs::Log::end_cause))]
fn cause_word(why: EndWhy) -> &'static [u8]
    ensures { result.now ≡ end_cause why }
{
    match why {
        EndWhy::Own => b"own",
        EndWhy::Eos => b"eos",
        EndWhy::Ended => b"ended",
        EndWhy::Protocol => b"protocol",
        EndWhy::Stream => b"stream",
    }
}

#[tactic(auto, using(crate::proofs::Growth::grows_later), unfolding(crate::specs::Log::sent_word))]
fn show_sent(
    how: Showing,
    number: u64,
    service: &[u8],
    name: &[u8],
    body: &[u8],
    out: &mut Octets,
) -> Result<(), AllocError>
    ensures shown { OnOk result (out.new ≡ out.old ++ (numbered sent_word number ++ named_text how service.now name.now body.now)) }
    ensures part { OnErr result (Grows out.old out.new) }
{
    show_numbered(b"sent", number, out)?;
    show_named(how, service, name, body, out)
}

#[tactic(auto, using(crate::proofs::Growth::grows_later), unfolding(crate::specs::Log::event_word))]
fn show_event(
    how: Showing,
    mark: Option<u64>,
    service: &[u8],
    name: &[u8],
    body: &[u8],
    out: &mut Octets,
) -> Result<(), AllocError>
    ensures shown { OnOk result (out.new ≡ out.old ++ (event_word ++ mark_text mark ++ named_text how service.now name.now body.now)) }
    ensures part { OnErr result (Grows out.old out.new) }
{
    out.extend(b"event")?;
    show_mark(mark, out)?;
    show_named(how, service, name, body, out)
}

#[tactic(auto, using(crate::proofs::Growth::grows_later), unfolding(crate::specs::Log::hello_word))]
fn show_hello(
    how: Showing,
    mark: Option<u64>,
    body: &[u8],
    out: &mut Octets,
) -> Result<(), AllocError>
    ensures shown { OnOk result (out.new ≡ out.old ++ (hello_word ++ mark_text mark ++ args_text how body.now)) }
    ensures part { OnErr result (Grows out.old out.new) }
{
    out.extend(b"hello")?;
    show_mark(mark, out)?;
    show_args(how, body, out)
}

#[tactic(auto, using(crate::proofs::Growth::grows_later), unfolding(crate::specs::Log::refused_front))]
fn show_refused(why: RefusedWhy, out: &mut Octets) -> Result<(), AllocError>
    ensures shown { OnOk result (out.new ≡ out.old ++ (refused_front ++ refused_reason why)) }
    ensures part { OnErr result (Grows out.old out.new) }
{
    out.extend(b"refused ")?;
    out.extend(reason_word(why))
}

#[tactic(auto, using(crate::proofs::Growth::grows_later), unfolding(crate::specs::Log::end_front))]
fn show_end(why: EndWhy, out: &mut Octets) -> Result<(), AllocError>
    ensures shown { OnOk result (out.new ≡ out.old ++ (end_front ++ end_cause why)) }
    ensures part { OnErr result (Grows out.old out.new) }
{
    out.extend(b"end ")?;
    out.extend(cause_word(why))
}

/// Appends an answer's word, the number of its command, its mark and its data.
fn show_answer(
    how: Showing,
    word: &[u8],
    number: u64,
    mark: Option<u64>,
    body: &[u8],
    out: &mut Octets,
) -> Result<(), AllocError>
    ensures shown { OnOk result (out.new ≡ out.old ++ (numbered word.now number ++ mark_text mark ++ args_text how body.now)) }
    ensures part { OnErr result (Grows out.old out.new) }
{
    show_numbered(word, number, out)?;
    show_mark(mark, out)?;
    show_args(how, body, out)
}

#[tactic(auto, using(crate::proofs::Growth::grows_later), unfolding(crate::specs::Log::unknown_word))]
fn show_unknown(number: u64, mark: Option<u64>, out: &mut Octets) -> Result<(), AllocError>
    ensures shown { OnOk result (out.new ≡ out.old ++ (numbered unknown_word number ++ mark_text mark)) }
    ensures part { OnErr result (Grows out.old out.new) }
{
    show_numbered(b"unknown", number, out)?;
    show_mark(mark, out)
}

/// Appends a word that says what was asked, and the ID.
fn show_kind(how: Showing, kind: &[u8], id: &Octets, out: &mut Octets) -> Result<(), AllocError>
    ensures shown { OnOk result (out.new ≡ out.old ++ (kind.now ++ word_text how id.now)) }
    ensures part { OnErr result (Grows out.old out.new) }
{
    out.extend(kind)?;
    show_word(how, id.as_slice(), out)
}

/// Appends the range of bytes that was asked.
#[tactic(auto, using(crate::proofs::Growth::grows_later), unfolding(cached_lines::specs::Asked::bytes_word))]
fn show_range(
    how: Showing,
    id: &Octets,
    addr: u32,
    size: u32,
    out: &mut Octets,
) -> Result<(), AllocError>
    ensures shown { OnOk result (out.new ≡ out.old ++ (bytes_word ++ word_text how id.now ++ 32 ∷ decimal addr ++ 32 ∷ decimal size)) }
    ensures part { OnErr result (Grows out.old out.new) }
{
    show_kind(how, b"bytes", id, out)?;
    show_number(u64::from(addr), out)?;
    show_number(u64::from(size), out)
}

/// Appends what was asked of the cache.
#[tactic(auto, using(crate::proofs::Growth::grows_later), unfolding(cached_lines::specs::Asked::context_word, cached_lines::specs::Asked::state_word, cached_lines::specs::Asked::register_word, cached_lines::specs::Asked::properties_word, cached_lines::specs::Asked::status_word))]
fn show_asked(how: Showing, what: &CachedWhat, out: &mut Octets) -> Result<(), AllocError>
    ensures shown { OnOk result (out.new ≡ out.old ++ asked_text how what.now) }
    ensures part { OnErr result (Grows out.old out.new) }
{
    match what {
        CachedWhat::Context { id } => show_kind(how, b"context", id, out),
        CachedWhat::State { id } => show_kind(how, b"state", id, out),
        CachedWhat::Register { id } => show_kind(how, b"register", id, out),
        CachedWhat::Properties { id } => show_kind(how, b"properties", id, out),
        CachedWhat::Status { id } => show_kind(how, b"status", id, out),
        CachedWhat::Bytes { id, addr, size } => show_range(how, id, *addr, *size, out),
    }
}

/// Appends what the cache had.
#[tactic(auto, using(crate::proofs::Growth::grows_later), unfolding(crate::specs::Log::none_word))]
fn show_value(value: Option<&Octets>, out: &mut Octets) -> Result<(), AllocError>
    ensures shown { OnOk result (out.new ≡ out.old ++ value_text (option_copied value.entry)) }
    ensures part { OnErr result (Grows out.old out.new) }
{
    match value {
        Some(value) => {
            out.push(b' ')?;
            out.extend(value.as_slice())
        }
        None => out.extend(b" none"),
    }
}

#[tactic(auto, using(crate::proofs::Growth::grows_later), unfolding(crate::specs::Log::cached_front))]
fn show_cached(
    how: Showing,
    what: &CachedWhat,
    value: Option<&Octets>,
    out: &mut Octets,
) -> Result<(), AllocError>
    ensures shown { OnOk result (out.new ≡ out.old ++ (cached_front ++ asked_text how what.now ++ value_text (option_copied value.entry))) }
    ensures part { OnErr result (Grows out.old out.new) }
{
    out.extend(b"cached ")?;
    show_asked(how, what, out)?;
    show_value(value, out)
}

/// Appends the line's text without the byte that ends it.
#[tactic(auto, using(crate::proofs::Growth::grows_later), unfolding(crate::specs::Log::progress_word, crate::specs::Log::result_word, crate::specs::Log::closed_word))]
fn write_words(how: Showing, line: &LogLine, out: &mut Octets) -> Result<(), AllocError>
    ensures shown { OnOk result (out.new ≡ out.old ++ line_words how line.now) }
    ensures part { OnErr result (Grows out.old out.new) }
{
    match line {
        LogLine::Sent {
            number,
            service,
            name,
            body,
        } => {
            show_sent(
                how,
                *number,
                service.as_slice(),
                name.as_slice(),
                body.as_slice(),
                out,
            )
        }
        LogLine::Refused(why) => show_refused(*why, out),
        LogLine::Hello { mark, body } => show_hello(how, *mark, body.as_slice(), out),
        LogLine::Event {
            mark,
            service,
            name,
            body,
        } => {
            show_event(
                how,
                *mark,
                service.as_slice(),
                name.as_slice(),
                body.as_slice(),
                out,
            )
        }
        LogLine::Progress { number, mark, body } => {
            show_answer(how, b"progress", *number, *mark, body.as_slice(), out)
        }
        LogLine::Final { number, mark, body } => {
            show_answer(how, b"result", *number, *mark, body.as_slice(), out)
        }
        LogLine::Unknown { number, mark } => show_unknown(*number, *mark, out),
        LogLine::Closed { number } => show_numbered(b"closed", *number, out),
        LogLine::Ended(why) => show_end(*why, out),
        LogLine::Cached { what, value } => show_cached(how, what, value.as_ref(), out),
    }
}

/// Appends the line's text and the byte that ends it.
fn push_line(how: Showing, line: &LogLine, out: &mut Octets) -> Result<(), AllocError>
    ensures shown { OnOk result (out.new ≡ out.old ++ line_text how line.now) }
    ensures part { OnErr result (Grows out.old out.new) }
{
    write_words(how, line, out)?;
    out.push(b'\n')
}

/// Appends the lines' texts.
fn push_lines(how: Showing, lines: &[LogLine], out: &mut Octets) -> Result<(), AllocError>
    ensures shown { OnOk result (out.new ≡ out.old ++ lines_text how lines.now) }
    ensures part { OnErr result (Grows out.old out.new) }
{
    for line in lines {
        push_line(how, line, out)?;
    }
    Ok(())
}

/// Appends the text of the lines, whose words are shown in this way. Where memory runs out nothing is appended.
#[tactic(auto, using(crate::proofs::Growth::taken_back))]
pub fn write_lines(how: Showing, lines: &[LogLine], out: &mut Octets) -> Result<(), AllocError>
    ensures ok { OnOk result (out.new ≡ out.old ++ lines_text how lines.now) }
    ensures err { OnErr result (out.new ≡ out.old) }
{
    let length = out.len();
    if let Err(error) = push_lines(how, lines, out) {
        out.truncate(length);
        return Err(error);
    }
    Ok(())
}

/// Appends the line's text and the byte that ends it. Where memory runs out nothing is appended.
#[tactic(auto, using(crate::proofs::Growth::taken_back))]
pub fn write_line(line: &LogLine, out: &mut Octets) -> Result<(), AllocError>
    ensures ok { OnOk result (out.new ≡ out.old ++ line_text Showing.Plain line.now) }
    ensures err { OnErr result (out.new ≡ out.old) }
{
    let length = out.len();
    if let Err(error) = push_line(Showing::Plain, line, out) {
        out.truncate(length);
        return Err(error);
    }
    Ok(())
}

/// Appends the text of the log as it is printed. Where memory runs out nothing is appended.
pub fn write_log(lines: &[LogLine], out: &mut Octets) -> Result<(), AllocError>
    ensures ok { OnOk result (out.new ≡ out.old ++ log_text lines.now) }
    ensures err { OnErr result (out.new ≡ out.old) }
{
    write_lines(Showing::Plain, lines, out)
}
