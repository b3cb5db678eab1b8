//! How the words and the data of a line are read, where they are shown so that they can be read back.
ghost use Rattle.std.specs.Prelude.{◌≡◌, IfOk, option_map};
ghost use Rattle.line_words.specs.Left.{words_left};
ghost use Rattle.line_words.specs.Words.{words_of};
ghost use Rattle.tcf_text.specs.Log.{is_hidden};
ghost use Rattle.tcf_text.specs.Said.{upper_digit, byte_said, next_byte, unshown, word_said, rest_said, last_said, data_said, named_said, long_number_of, mark_said, WordsAreReadBack, DataAreReadBack};

use itoa::Buffer;
use line_words::{WordsLeft, first_word};
use std::alloc::{AllocError, Global};
use std::str;
use tcf_outside::Octets;

/// A command, or an event, with its data.
#[derive(Debug, Drop)]
pub struct Named {
    pub service: Octets,
    pub name: Octets,
    pub body: Octets,
}

/// The number below 2^64 that the text says.
fn number_in(text: &str) -> Option<u64>
    ensures { result ≡ long_number_of text.now }
{
    match text.parse::<u64>() {
        Ok(number) if Buffer::new().format(number) == text => Some(number),
        _ => None,
    }
}

/// The number below 2^64 that the digits say. None comes exactly where they say none: also where they have a sign or a
/// leading zero, and where there are none.
#[tactic(auto, using(crate::proofs::Numbers::bytes_say_none))]
pub fn long_number(digits: &[u8]) -> Option<u64>
    ensures { result ≡ long_number_of digits.now }
{
    match str::from_utf8(digits) {
        Ok(text) => number_in(text),
        Err(_) => None,
    }
}

/// The mark that the text says: a number, or `-` where there is none.
#[tactic(auto, unfolding(crate::specs::Said::mark_said))]
pub fn mark_said(text: &[u8]) -> Option<Option<u64>>
    ensures { result ≡ mark_said text.now }
{
    if text == b"-".as_slice() {
        return Some(None);
    }
    let mark = long_number(text)?;
    Some(Some(mark))
}

fn is_hidden_byte(byte: u8) -> bool
    ensures { result ≡ is_hidden byte }
{
    byte <= b' ' || byte == b'%' || byte == 127
}

/// The number of an upper-case hexadecimal digit.
fn upper_digit(digit: u8) -> Option<u8>
    ensures { result ≡ upper_digit digit }
{
    match digit {
        b'0'..=b'9' => Some(digit - b'0'),
        b'A'..=b'F' => Some(digit - 55),
        _ => None,
    }
}

/// The byte that two digits say, but for zero.
#[tactic(auto, using(crate::proofs::Digits::digit_small))]
fn byte_said(high: u8, low: u8) -> Option<u8>
    ensures { result ≡ byte_said high low }
{
    let high = upper_digit(high)?;
    let low = upper_digit(low)?;
    let byte = high * 16 + low;
    if byte == 0 { None } else { Some(byte) }
}

/// The first byte that the text shows, and the text behind it.
fn next_byte(text: &[u8]) -> Option<(u8, &[u8])>
    ensures { option_map (λ parts. (parts.0, parts.1.now)) result ≡ next_byte text.now }
{
    match text {
        [b'%', high, low, rest @ ..] => {
            let byte = byte_said(*high, *low)?;
            Some((byte, rest))
        }
        [byte, rest @ ..] if !is_hidden_byte(*byte) => Some((*byte, rest)),
        _ => None,
    }
}

/// The bytes that the text shows.
fn unshown(alloc: Global, text: &[u8]) -> Result<Option<Octets>, AllocError>
    ensures { IfOk result (λ bytes. bytes ≡ unshown text.now) }
{
    let mut out = Octets::new(alloc);
    let mut rest = text;
    while !rest.is_empty() {
        match next_byte(rest) {
            Some((byte, after)) => {
                out.push(byte)?;
                rest = after;
            }
            None => return Ok(None),
        }
    }
    Ok(Some(out))
}

/// The word that the text shows. `%` and two upper-case hexadecimal digits are any byte but zero, and `-` alone is the
/// empty word. None comes exactly where the text shows no word: where it is empty or begins with `!`, and where it has
/// a blank, a control byte, DEL, or a `%` without its digits.
pub fn word_said(alloc: Global, text: &[u8]) -> Result<Option<Octets>, AllocError>
    ensures { IfOk result (λ word. word ≡ word_said text.now) }
{
    match text {
        [] | [b'!', ..] => Ok(None),
        [b'-'] => Ok(Some(Octets::new(alloc))),
        _ => unshown(alloc, text),
    }
}

/// The rest of some data, which is shown behind `!`.
fn rest_said(alloc: Global, text: &[u8]) -> Result<Option<Octets>, AllocError>
    ensures { IfOk result (λ rest. rest ≡ rest_said text.now) }
{
    if text.is_empty() {
        return Ok(None);
    }
    unshown(alloc, text)
}

/// The last word of some data: a part, or the rest.
fn last_said(alloc: Global, word: &[u8]) -> Result<Option<Octets>, AllocError>
    ensures { IfOk result (λ all. all ≡ last_said word.now) }
{
    match word {
        [] => Ok(None),
        [b'!', rest @ ..] => rest_said(alloc, rest),
        _ => match word_said(alloc, word)? {
            Some(mut part) => {
                part.push(0)?;
                Ok(Some(part))
            }
            None => Ok(None),
        },
    }
}

/// The data that the words of a text show.
fn data_in(alloc: Global, text: &[u8]) -> Result<Option<Octets>, AllocError>
    ensures { IfOk result (λ all. all ≡ data_said (words_of text.now)) }
{
    let mut out = Octets::new(alloc);
    let mut rest = text;
    while let Some((word, after)) = first_word(rest) {
        match word_said(alloc, word)? {
            Some(part) => {
                out.extend(part.as_slice())?;
                out.push(0)?;
                rest = after;
            }
            None => return Ok(None),
        }
    }
    match last_said(alloc, rest)? {
        Some(last) => {
            out.extend(last.as_slice())?;
            Ok(Some(out))
        }
        None => Ok(None),
    }
}

/// The data that the words show: a part each, which a zero ends. A last word that begins with `!` shows the rest, which
/// no zero ends. Without words there is no byte. None comes exactly where a word shows no part.
pub fn data_said(alloc: Global, words: WordsLeft<'_>) -> Result<Option<Octets>, AllocError>
    ensures { IfOk result (λ all. all ≡ data_said (words_left words.entry)) }
{
    match words.text() {
        Some(text) => data_in(alloc, text),
        None => Ok(Some(Octets::new(alloc))),
    }
}

/// The service, the name and the data that the words show, in this order.
pub fn named_said(alloc: Global, words: WordsLeft<'_>) -> Result<Option<Named>, AllocError>
    ensures { IfOk result (λ named. named ≡ named_said (words_left words.entry)) }
{
    let Some((service, words)) = words.first() else {
        return Ok(None);
    };
    let Some((name, args)) = words.first() else {
        return Ok(None);
    };
    let Some(service) = word_said(alloc, service)? else {
        return Ok(None);
    };
    let Some(name) = word_said(alloc, name)? else {
        return Ok(None);
    };
    let Some(body) = data_said(alloc, args)? else {
        return Ok(None);
    };
    Ok(Some(Named {
        service,
        name,
        body,
    }))
}

/// The law that a word that is written so that it can be read back is read.
pub fn words_are_read_back()
    ensures { WordsAreReadBack }
{}

/// The law that data that is written so that it can be read back is read.
pub fn data_are_read_back()
    ensures { DataAreReadBack }
{}
