//! What a line asks of a cache, as it is read from the line, and without memory.
ghost use Rattle.std.specs.Prelude.{◌≡◌, IfOk, option_map};
ghost use Rattle.tcf_values.specs.Number.{number_of};
ghost use Rattle.line_words.specs.Words.{both};
ghost use Rattle.cached_lines.specs.Reading.{bytes_of, asking_bytes, cached_behind, cached_of};
ghost use Rattle.cached_lines.specs.Said.{cached_said};

use crate::what::CachedWhat;
use crate::words::{
    bytes_word, context_word, good_process, properties_word, register_word, state_word, status_word,
};
use line_words::{first_word, good_word};
use std::alloc::{AllocError, Global};
use tcf_outside::Octets;
use tcf_values::number_within;

/// The highest address of a byte.
const LAST_ADDRESS: u32 = 65_535;

/// The most bytes that a line asks for.
const MOST_BYTES: u32 = 65_536;

/// What a line asks of a client's cache, by its ID as it stands in the line.
#[derive(Clone, Copy)]
pub enum CachedSays<'a> {
    Context(&'a [u8]),
    State(&'a [u8]),
    Register(&'a [u8]),
    Properties(&'a [u8]),
    Status(&'a [u8]),
    Bytes { id: &'a [u8], addr: u32, size: u32 },
}

/// The address, and how many bytes.
fn range_in(text: &[u8]) -> Option<(u32, u32)>
    ensures { result ≡ both (number_of 0 65535) (number_of 1 65536) text.now }
{
    let (addr, size) = first_word(text)?;
    Some((
        number_within(addr, 0, LAST_ADDRESS)?,
        number_within(size, 1, MOST_BYTES)?,
    ))
}

/// The process, the address, and how many bytes.
fn bytes_in(text: &[u8]) -> Option<CachedSays<'_>>
    ensures { option_map cached_said result ≡ option_map asking_bytes (bytes_of text.now) }
{
    let (id, rest) = first_word(text)?;
    let id = good_process(id)?;
    let (addr, size) = range_in(rest)?;
    Some(CachedSays::Bytes { id, addr, size })
}

/// What is asked behind this first word.
#[tactic(auto, unfolding(crate::specs::Reading::cached_behind))]
fn says<'a>(word: &[u8], rest: &'a [u8]) -> Option<CachedSays<'a>>
    ensures { option_map cached_said result ≡ cached_behind word.now rest.now }
{
    if word == context_word() {
        Some(CachedSays::Context(good_word(rest)?))
    } else if word == state_word() {
        Some(CachedSays::State(good_word(rest)?))
    } else if word == register_word() {
        Some(CachedSays::Register(good_word(rest)?))
    } else if word == properties_word() {
        Some(CachedSays::Properties(good_word(rest)?))
    } else if word == status_word() {
        Some(CachedSays::Status(good_word(rest)?))
    } else if word == bytes_word() {
        bytes_in(rest)
    } else {
        None
    }
}

/// What the text asks: `context ID`, `state ID`, `register ID`, `properties ID`, `status ID`, where the ID is any
/// word, or `bytes ID ADDR SIZE`, where it is a process's, ADDR is from 0 to 65,535 and SIZE from 1 to 65,536. One
/// blank separates words, which have no zero byte and no end of a line. None comes exactly where the text has none
/// of these forms. It takes no memory.
pub fn cached_says(text: &[u8]) -> Option<CachedSays<'_>>
    ensures { option_map cached_said result ≡ cached_of text.now }
{
    let (word, rest) = first_word(text)?;
    says(word, rest)
}

impl CachedSays<'_> {
    /// The same, with an ID of its own.
    pub fn copied(&self, alloc: Global) -> Result<CachedWhat, AllocError>
        ensures { IfOk result (λ what. what ≡ cached_said self.now) }
    {
        match self {
            CachedSays::Context(id) => Ok(CachedWhat::Context {
                id: Octets::from_slice(alloc, id)?,
            }),
            CachedSays::State(id) => Ok(CachedWhat::State {
                id: Octets::from_slice(alloc, id)?,
            }),
            CachedSays::Register(id) => Ok(CachedWhat::Register {
                id: Octets::from_slice(alloc, id)?,
            }),
            CachedSays::Properties(id) => Ok(CachedWhat::Properties {
                id: Octets::from_slice(alloc, id)?,
            }),
            CachedSays::Status(id) => Ok(CachedWhat::Status {
                id: Octets::from_slice(alloc, id)?,
            }),
            CachedSays::Bytes { id, addr, size } => Ok(CachedWhat::Bytes {
                id: Octets::from_slice(alloc, id)?,
                addr: *addr,
                size: *size,
            }),
        }
    }
}
