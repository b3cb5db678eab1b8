//! The reader's side: the items of a stream that comes in any pieces.
ghost use Rattle.std.specs.Prelude.{◌≡◌, ◌≢◌, ℕ, ◌≤◌, ◌++◌, ◌∷◌, [], List, length, None, Err, IfErr, MatchResult};
ghost use Rattle.stream_escape.specs.Stream.{Ending, framed, most_message, Reads};
ghost use Rattle.stream_escape.specs.declared.stream.Item.{Item};
ghost use Rattle.stream_escape.specs.declared.stream.Item.TheVariants.{Message};

use crate::progress::Progress;
use crate::stream::{Item, StreamFault};
use std::alloc::Global;
use std::marker::Model;

/// A reader of one stream, which is fed its bytes in any pieces.
#[derive(Debug, Drop)]
pub struct Unescape {
    progress: Progress,
    fault: Option<StreamFault>,
    offset: u64,
}

impl Model for Unescape {
    ghost use Rattle.stream_escape.specs.Value.{UnescapeValue, IsWithin};

    ghost Value = { UnescapeValue };

    ghost view = { λ u. record { ending = u.progress; fault = u.fault; offset = u.offset } };

    ghost invariant = { λ u. IsWithin u.progress };
}

impl Unescape {
    ghost use Rattle.stream_escape.specs.Value.{IsBetween, IsWithin, is_inside};
    ghost use Rattle.stream_escape.specs.Feeding.{Feeds};
    ghost use Rattle.stream_escape.specs.Fed.{fed};

    /// Begins a stream.
    pub fn new(alloc: Global) -> Self
        ensures between { IsBetween result }
        ensures offset { result.offset ≡ 0 }
    {
        Unescape {
            progress: Progress::new(alloc),
            fault: None,
            offset: 0,
        }
    }

    /// Reads the next piece of the stream, and appends the items that end in it. The first fault of the stream is
    /// answered, behind the items before it, and each later call answers it again and appends nothing. After want
    /// of memory the first items that end in the piece are appended, and each later call wants memory again.
    pub fn feed(&mut self, piece: &[u8], items: &mut Vec<Item>) -> Result<(), StreamFault>
        ensures feeds { Feeds self.old piece.now items.old.items items.new.items result self.new }

        // Where memory isn't wanting, the rules byte by byte give this and nothing else.
        ensures appended { result ≢ Err StreamFault.NoMemory → items.new.items ≡ items.old.items ++ (fed piece.now self.old).items }
        ensures answer { result ≢ Err StreamFault.NoMemory → result ≡ (fed piece.now self.old).answer }
        ensures after { result ≢ Err StreamFault.NoMemory → self.new ≡ (fed piece.now self.old).reader }

        // A stream that is read so far is not refused.
        ensures reads { (before : List ℕ) (its all : List Item) (ending : Ending) → self.old.fault ≡ None
            → Reads before its self.old.ending → Reads (before ++ piece.now) all ending
            → IfErr result (λ fault. fault ≡ StreamFault.NoMemory) }

        // One whole message in a piece of its own.
        ensures whole { (message : List ℕ) → IsBetween self.old → length message ≤ most_message → piece.now ≡ framed message
            → MatchResult result (λ _. (items.new.items ≡ items.old.items ++ Message message ∷ []) × IsBetween self.new) (λ fault. fault ≡ StreamFault.NoMemory) }
    {
        self.take_piece(piece, items)
    }

    fn take_piece(&mut self, piece: &[u8], items: &mut Vec<Item>) -> Result<(), StreamFault>
        ensures within { IsWithin self.old.ending }
        ensures feeds { Feeds self.old piece.now items.old.items items.new.items result self.new }
    {
        let start = self.offset;
        self.offset = start.saturating_add(piece.len() as u64);
        if let Some(fault) = self.fault {
            return Err(fault);
        }
        let answer = self.progress.read(start, piece, items);
        self.fault = answer.err();
        answer
    }

    /// How many bytes were fed, at most 2^64 - 1, where the count stands still.
    pub fn offset(&self) -> u64
        ensures { result ≡ self.now.offset }
    {
        self.offset
    }

    /// Whether a message or an escape has begun and not ended. After a fault it stays as it stood.
    pub fn inside(&self) -> bool
        ensures { result ≡ is_inside self.now.ending }
    {
        self.progress.is_inside()
    }
}
