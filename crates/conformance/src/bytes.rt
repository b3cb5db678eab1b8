//! How cases write bytes, and how the program shows them.
ghost use Rattle.std.specs.Prelude.{◌<◌, IfSome};

use crate::trouble::Trouble;
use std::alloc::{AllocError, Global};
use std::fmt::Write;
use tcf_outside::Octets;

/// The value of a hexadecimal digit; letters are capitals.
fn digit(byte: u8) -> Option<u8>
    ensures { IfSome result (λ value. value < 16) }
{
    match byte {
        b'0'..=b'9' => Some(byte - b'0'),
        b'A'..=b'F' => Some(byte - b'A' + 10),
        _ => None,
    }
}

/// Appends the byte that the first two digits give, and what stands behind them as it is.
fn push_escaped(part: &[u8], out: &mut Octets) -> Result<(), Trouble> {
    let [high, low, rest @ ..] = part else {
        return Err(Trouble::Form);
    };
    match (digit(*high), digit(*low)) {
        (Some(high), Some(low)) => out.push(16 * high + low)?,
        _ => return Err(Trouble::Form),
    }
    Ok(out.extend(rest)?)
}

/// Appends the bytes of the text, in which `%` and two digits stand for one byte.
fn push_text(text: &str, out: &mut Octets) -> Result<(), Trouble> {
    let mut parts = text.split('%');
    if let Some(front) = parts.next() {
        out.extend(front.as_bytes())?;
    }
    for part in parts {
        push_escaped(part.as_bytes(), out)?;
    }
    Ok(())
}

/// Appends what a word stands for: `3*ab` for `ababab`, and else its own bytes.
fn push_word(word: &str, out: &mut Octets) -> Result<(), Trouble> {
    if let Some((count, text)) = word.split_once('*')
        && let Ok(count) = count.parse::<u32>()
    {
        let mut once = Octets::new(out.allocator());
        push_text(text, &mut once)?;
        for _ in 0..count {
            out.extend(once.as_slice())?;
        }
        return Ok(());
    }
    push_text(word, out)
}

/// The text before the first blank, and that behind it.
pub fn cut(text: &str) -> (&str, &str) {
    text.split_once(' ').unwrap_or((text, ""))
}

/// The number that the text is.
pub fn number(text: &str) -> Result<u64, Trouble> {
    text.parse::<u64>().ok().ok_or(Trouble::Form)
}

/// Appends the bytes that the line gives: behind `|` those of a text and its end, behind `=` those that its words
/// stand for. Tells whether it is such a line, or says nothing.
pub fn push_line(line: &str, out: &mut Octets) -> Result<bool, Trouble> {
    if let Some(text) = line.strip_prefix('|') {
        out.extend(text.strip_prefix(' ').unwrap_or(text).as_bytes())?;
        out.push(b'\n')?;
        return Ok(true);
    }
    if let Some(words) = line.strip_prefix('=') {
        for word in words.split_whitespace() {
            push_word(word, out)?;
        }
        return Ok(true);
    }
    Ok(line.is_empty() || line.starts_with('#'))
}

/// The first line of the bytes, in the way in which cases write them, but for the blank, which is shown as it is. Of
/// a long line, the front.
pub fn shown(alloc: Global, bytes: &[u8]) -> Result<String, AllocError> {
    let mut text = String::new(alloc);
    for byte in bytes.iter().take(400) {
        match *byte {
            b'\n' => break,
            b'%' | 127.. | ..32 => write!(text, "%{byte:02X}")?,
            byte => text.push(char::from(byte))?,
        }
    }
    Ok(text)
}
