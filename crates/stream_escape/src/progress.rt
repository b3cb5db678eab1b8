//! The progress within one message of a stream: its bytes so far, and where the next one stands.
ghost use Rattle.std.specs.Prelude.{◌≡◌, ◌≢◌, ℕ, ◌<◌, ◌≤◌, ◌++◌, ◌∷◌, [], List, length, take, slice_index, IfOk, IfErr, OnOk, OnErr, true, false};
ghost use Rattle.stream_escape.specs.Stream.{most_message, partly};
ghost use Rattle.stream_escape.specs.Value.{is_inside};
ghost use Rattle.stream_escape.specs.Feeding.{Takes};
ghost use Rattle.stream_escape.specs.Progress.{ending_of, Advances, IsRun, IsBlocked};

use crate::escape::{END_OF_MESSAGE, END_OF_STREAM, ESCAPE, PLAIN, first_escape};
use crate::stream::{Item, MESSAGE_LIMIT, StreamFault};
use std::alloc::Global;
use std::marker::Model;
use std::mem;
use tcf_outside::Octets;

/// Where the next byte stands.
#[derive(Clone, Copy, Debug, PartialEq, Eq)]
pub(crate) enum Place {
    InMessage,
    InEscape,
    AtEnd,
}

/// What has come of the stream since the last message ended.
#[derive(Debug, Drop)]
pub(crate) struct Progress {
    alloc: Global,
    place: Place,
    part: Octets,
}

impl Model for Progress {
    ghost use Rattle.stream_escape.specs.Stream.{Ending};

    ghost Value = { Ending };

    ghost use Rattle.stream_escape.specs.Progress.{ending_of};

    ghost view = { λ p. ending_of p.place p.part };
}

impl Progress {
    /// Nothing has come yet.
    pub(crate) fn new(alloc: Global) -> Self
        ensures { result ≡ partly [] false }
    {
        Progress {
            alloc,
            place: Place::InMessage,
            part: Octets::new(alloc),
        }
    }

    /// Whether a message or an escape has begun and not ended.
    pub(crate) fn is_inside(&self) -> bool
        ensures { result ≡ is_inside self.now }
    {
        match self.place {
            Place::InMessage => !self.part.is_empty(),
            Place::InEscape => true,
            Place::AtEnd => false,
        }
    }

    /// Reads the piece, which starts at this offset of the stream, to its end or to the first byte that isn't read.
    pub(crate) fn read(
        &mut self,
        start: u64,
        piece: &[u8],
        items: &mut Vec<Item>,
    ) -> Result<(), StreamFault>
        ensures { Takes start self.old piece.now items.old.items items.new.items result self.new }
    {
        let mut index = 0usize;
        while index < piece.len() {
            let offset = start.saturating_add(index as u64);
            index += self.advance(offset, &piece[index..], items)?;
        }
        Ok(())
    }

    /// Reads some of the bytes, of which the first has this offset in the stream, and answers how many.
    fn advance(
        &mut self,
        offset: u64,
        bytes: &[u8],
        items: &mut Vec<Item>,
    ) -> Result<usize, StreamFault>
        requires { 0 < length bytes.now }
        ensures some { IfOk result (λ count. 0 < count) }
        ensures within { IfOk result (λ count. count ≤ length bytes.now) }
        ensures ok { IfOk result (λ count. Advances self.old (take count bytes.now) items.old.items items.new.items self.new) }
        ensures blocked { IfErr result (IsBlocked offset self.old bytes.now) }
        ensures same { OnErr result (self.new ≡ self.old) }
        ensures nothing { OnErr result (items.new.items ≡ items.old.items) }
    {
        match self.place {
            Place::InMessage if bytes[0] == ESCAPE => {
                self.place = Place::InEscape;
                Ok(1)
            }
            Place::InMessage => take_run(&mut self.part, offset, bytes),
            Place::InEscape => {
                self.place = take_escaped(self.alloc, &mut self.part, offset, bytes[0], items)?;
                Ok(1)
            }
            Place::AtEnd => Err(StreamFault::AfterEnd { offset }),
        }
    }
}

/// Takes the bytes before the first escape into the message, as many as there is room for.
fn take_run(part: &mut Octets, offset: u64, bytes: &[u8]) -> Result<usize, StreamFault>
    requires some { 0 < length bytes.now }
    requires plain { slice_index bytes.now 0 ≢ 3 }
    ensures run { IfOk result (λ count. IsRun count bytes.now) }
    ensures ok { IfOk result (λ count. part.new ≡ part.old ++ take count bytes.now) }
    ensures room { OnOk result (length part.new ≤ most_message) }
    ensures full { IfErr result (λ fault. fault ≢ StreamFault.NoMemory → fault ≡ StreamFault.TooLong offset) }
    ensures limit { result ≡ Err (StreamFault.TooLong offset) → most_message ≤ length part.old }
    ensures same { OnErr result (part.new ≡ part.old) }
{
    let room = MESSAGE_LIMIT.saturating_sub(part.len()).min(bytes.len());
    if room == 0 {
        return Err(StreamFault::TooLong { offset });
    }
    let window = &bytes[..room];
    let count = first_escape(window).unwrap_or(room);
    part.extend(&window[..count])?;
    Ok(count)
}

/// Takes the byte behind an escape, and answers where the next one stands.
fn take_escaped(
    alloc: Global,
    part: &mut Octets,
    offset: u64,
    byte: u8,
    items: &mut Vec<Item>,
) -> Result<Place, StreamFault>
    ensures ok { IfOk result (λ place. Advances (partly part.old true) (byte ∷ []) items.old.items items.new.items (ending_of place part.new)) }
    ensures blocked { IfErr result (λ fault. (more : List ℕ) → IsBlocked offset (partly part.old true) (byte ∷ more) fault) }
    ensures same { OnErr result (part.new ≡ part.old) }
    ensures nothing { OnErr result (items.new.items ≡ items.old.items) }
{
    match byte {
        PLAIN if part.len() >= MESSAGE_LIMIT => Err(StreamFault::TooLong { offset }),
        PLAIN => {
            part.push(ESCAPE)?;
            Ok(Place::InMessage)
        }
        END_OF_MESSAGE => {
            items.reserve(1)?;
            let message = mem::replace(part, Octets::new(alloc));
            items.push_reserved(Item::Message(message));
            Ok(Place::InMessage)
        }
        END_OF_STREAM => {
            items.push(Item::End)?;
            part.clear();
            Ok(Place::AtEnd)
        }
        _ => Err(StreamFault::BadEscape { offset, byte }),
    }
}
