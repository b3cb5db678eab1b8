//! The run of `show`: a stream is read in pieces, and the lines of each piece's messages are put.
ghost use Rattle.std.specs.Prelude.{◌≡◌, ◌≢◌, ◌==◌, ◌+◌, ◌++◌, ◌∷◌, [], None, count_by, IfOk, OnOk, OnErr, Err};
ghost use Rattle.tcf_outside.specs.Sink.{faults_at_end};
ghost use Rattle.stream_escape.specs.Value.{capped, IsBetween};
ghost use Rattle.tcf_message.specs.Message.{reading};
ghost use Rattle.tcf_app.specs.Exit.{TellsFault};
ghost use Rattle.tcf_app.specs.Show.{what_of, nothing, shown_message, shown_items, unended, PutsLines, PutsPart};
ghost use Rattle.tcf_app.specs.Pieces.{frame_length, frames_length, bad_behind, ShowsPiece};
ghost use Rattle.tcf_app.specs.Ending.{EndsIn, IsShownEnding};

use crate::exit::{BadPlace, Exit, StreamWhat};
use crate::finish::finish_made;
use crate::lines::bad_stream;
use std::alloc::{AllocError, Global};
use stream_escape::{Item, StreamFault, Unescape};
use tcf_message::{MessageFault, read};
use tcf_outside::{Octets, Sink, SinkRefusal, put_all};
use tcf_text::show_line;

/// The most bytes of a piece of the file.
const PIECE: usize = 65_536;

/// What is bad of a message that doesn't read.
fn what_of(fault: MessageFault) -> StreamWhat
    ensures { result ≡ what_of fault }
{
    match fault {
        MessageFault::Empty => StreamWhat::Empty,
        MessageFault::Unended { .. } => StreamWhat::Field,
        MessageFault::Kind { .. } => StreamWhat::Kind,
        MessageFault::Token { .. } => StreamWhat::Token,
        MessageFault::Level => StreamWhat::Level,
        MessageFault::Trailing { .. } => StreamWhat::Trailing,
        MessageFault::Body { .. } => StreamWhat::Body,
    }
}

/// What is bad behind the items of a piece.
fn bad_behind(answer: Result<(), StreamFault>) -> Result<Option<BadPlace>, AllocError>
    ensures bad { IfOk result (λ bad. bad ≡ bad_behind answer) }
    ensures remembered { OnOk result (answer ≢ Err StreamFault.NoMemory) }
{
    let (offset, what) = match answer {
        Ok(()) => return Ok(None),
        Err(StreamFault::BadEscape { offset, .. }) => (offset, StreamWhat::Escape),
        Err(StreamFault::TooLong { offset }) => (offset, StreamWhat::Long),
        Err(StreamFault::AfterEnd { offset }) => (offset, StreamWhat::AfterEnd),
        Err(StreamFault::NoMemory) => return Err(AllocError),
    };
    Ok(Some(BadPlace { offset, what }))
}

/// How many of the bytes are escaped on the stream.
fn escapes(bytes: &[u8]) -> usize
    ensures { result ≡ count_by (λ byte. byte == 3) bytes.now }
{
    bytes.iter().filter(|byte| **byte == 3).count()
}

/// The place behind an item that begins at this place, as far as a `u64` counts.
fn next_place(place: u64, item: &Item) -> u64
    ensures { result ≡ capped (place + frame_length item.now) }
{
    match item {
        Item::Message(bytes) => {
            let escapes = escapes(bytes.as_slice());
            place
                .saturating_add(bytes.len() as u64)
                .saturating_add(escapes as u64)
                .saturating_add(2)
        }
        Item::End => place,
    }
}

/// Appends the line of the message that begins at this place, or tells what is bad of it.
fn show_message(place: u64, bytes: &[u8], text: &mut Octets) -> Result<Option<BadPlace>, AllocError>
    ensures text { OnOk result (text.new ≡ text.old ++ (shown_message place (reading bytes.now) nothing).text) }
    ensures bad { IfOk result (λ bad. bad ≡ (shown_message place (reading bytes.now) nothing).bad) }
{
    match read(bytes) {
        Ok(message) => {
            show_line(&message, text)?;
            Ok(None)
        }
        Err(fault) => Ok(Some(BadPlace {
            offset: place,
            what: what_of(fault),
        })),
    }
}

/// Appends the line of the item that begins at this place, or tells what is bad of it.
#[tactic(auto, unfolding(crate::specs::Show::eos_line))]
fn show_item(place: u64, item: &Item, text: &mut Octets) -> Result<Option<BadPlace>, AllocError>
    ensures text { OnOk result (text.new ≡ text.old ++ (shown_items place (item.now ∷ []) None).text) }
    ensures bad { IfOk result (λ bad. bad ≡ (shown_items place (item.now ∷ []) None).bad) }
{
    match item {
        Item::Message(bytes) => show_message(place, bytes.as_slice(), text),
        Item::End => {
            text.extend(b"EOS\n")?;
            Ok(None)
        }
    }
}

/// Appends the lines of the items up to the first bad one, which is told. The first item begins at the place, which
/// goes on behind the last one where none is bad.
fn show_items(
    items: &[Item],
    place: &mut u64,
    text: &mut Octets,
) -> Result<Option<BadPlace>, AllocError>
    ensures text { OnOk result (text.new ≡ text.old ++ (shown_items place.old items.now None).text) }
    ensures bad { IfOk result (λ bad. bad ≡ (shown_items place.old items.now None).bad) }
    ensures place { IfOk result (λ bad. bad ≡ None → place.new ≡ capped (place.old + frames_length items.now)) }
{
    let mut at = *place;
    for item in items {
        let bad = show_item(at, item, text)?;
        if bad.is_some() {
            return Ok(bad);
        }
        at = next_place(at, item);
    }
    *place = at;
    Ok(None)
}

/// How far a stream is shown: what was read of it, where the next message begins (the length of what the messages
/// before it have on the stream, as far as a `u64` counts), and the lines of the piece that was read last.
#[derive(Drop)]
struct Shower {
    alloc: Global,
    unescape: Unescape,
    place: u64,
    text: Octets,
}

impl Shower {
    fn new(alloc: Global) -> Self
        ensures between { IsBetween result.unescape }
        ensures offset { result.unescape.offset ≡ 0 }
        ensures place { result.place ≡ 0 }
    {
        Shower {
            alloc,
            unescape: Unescape::new(alloc),
            place: 0,
            text: Octets::new(alloc),
        }
    }

    /// Reads one more piece of the stream, and has the lines of its messages up to the first bad place, which is told.
    fn show_piece(&mut self, piece: &[u8]) -> Result<Option<BadPlace>, AllocError>
        requires { self.old.unescape.fault ≡ None }
        ensures { IfOk result (λ bad. ShowsPiece self.old.unescape self.old.place piece.now bad
            self.new.text self.new.unescape self.new.place) }
    {
        self.text.clear();
        let mut items = Vec::new(self.alloc);
        let behind = bad_behind(self.unescape.feed(piece, &mut items))?;
        let bad = show_items(&items, &mut self.place, &mut self.text)?;
        Ok(bad.or(behind))
    }

    /// What is bad of a stream whose bytes have all come.
    fn bad_end(&self) -> Option<BadPlace>
        ensures { result ≡ unended self.now.unescape.offset self.now.unescape.ending }
    {
        if !self.unescape.inside() {
            return None;
        }
        Some(BadPlace {
            offset: self.unescape.offset(),
            what: StreamWhat::Unended,
        })
    }
}

/// Puts the lines of the file's messages, piece by piece, up to the first bad place, which is told.
fn put_lines<S: Sink>(
    alloc: Global,
    file: &[u8],
    out: &mut S,
) -> Result<Option<BadPlace>, SinkRefusal>
    ensures lines { IfOk result (λ bad. PutsLines file.now bad (S.seen out.old) (S.seen out.new)) }
    ensures part { OnErr result (PutsPart file.now (S.seen out.old) (S.seen out.new)) }
    ensures cause { (S.seen out.new).faults ≡ faults_at_end result (S.seen out.old).faults }
{
    let mut shower = Shower::new(alloc);
    let mut rest = file;
    while !rest.is_empty() {
        let (piece, after) = rest.split_at(rest.len().min(PIECE));
        let bad = shower.show_piece(piece)?;
        put_all(out, shower.text.as_slice())?;
        if bad.is_some() {
            return Ok(bad);
        }
        rest = after;
    }
    Ok(shower.bad_end())
}

/// Shows the messages of the file, and puts the last line where it is bad.
pub(crate) fn show_file<S: Sink>(alloc: Global, file: &[u8], out: &mut S) -> Exit
    ensures ends { EndsIn (IsShownEnding file.now) result (S.seen out.old) (S.seen out.new) }
    ensures fault { TellsFault result (S.seen out.old) (S.seen out.new) }
{
    match put_lines(alloc, file, out) {
        Ok(None) => Exit::Done,
        Ok(Some(bad)) => {
            let exit = Exit::BadStream {
                offset: bad.offset,
                what: bad.what,
            };
            finish_made(out, bad_stream(alloc, bad), exit)
        }
        Err(SinkRefusal::Failed) => Exit::SinkFault,
        Err(SinkRefusal::NoMemory) => Exit::NoMemory,
    }
}
