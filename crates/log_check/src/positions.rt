//! Whether positions never go back, and begin where the history opens a channel.
ghost use Rattle.std.specs.Prelude.{◌≡◌, ◌↔◌, true};
ghost use Rattle.tcf_text.specs.Each.{Each};
ghost use Rattle.tcf_text.specs.Lines.{later_or, mark_of};
ghost use Rattle.target_hub.specs.Ordered.{ComesAfter, IsPlaced};
ghost use Rattle.log_check.specs.Placed.{OpensThere, PlacedBy};

use crate::channel::{channel_at, first_line, is_placed_hello};
use target_hub::Input;
use tcf_text::LogLine;

/// The mark of a line that tells of a message.
fn mark_of(line: &LogLine) -> Option<Option<u64>>
    ensures { result ≡ mark_of line.now }
{
    match line {
        LogLine::Hello { mark, .. }
        | LogLine::Event { mark, .. }
        | LogLine::Progress { mark, .. }
        | LogLine::Final { mark, .. }
        | LogLine::Unknown { mark, .. } => Some(*mark),
        _ => None,
    }
}

/// The later mark, if there is one, and else the earlier.
fn later_or(later: Option<Option<u64>>, earlier: Option<Option<u64>>) -> Option<Option<u64>>
    ensures { result ≡ later_or later earlier }
{
    match later {
        Some(mark) => Some(mark),
        None => earlier,
    }
}

/// Whether a message with this mark can come behind the last one, of which this is the mark.
fn comes_after(last: Option<Option<u64>>, mark: Option<u64>) -> bool
    ensures { (result ≡ true) ↔ ComesAfter last mark }
{
    match (last, mark) {
        (None, _) => false,
        (Some(None), None) => true,
        (Some(None), Some(_)) => false,
        (Some(Some(before)), Some(position)) => before <= position,
        (Some(Some(_)), None) => false,
    }
}

/// Whether the history opens a channel at the position of a Hello, if it has one.
fn opens_there(inputs: &[Input], mark: Option<u64>) -> bool
    ensures { (result ≡ true) ↔ OpensThere inputs.now mark }
{
    match mark {
        Some(position) => channel_at(inputs, position).is_some(),
        None => true,
    }
}

/// What the lines so far said of positions.
#[derive(Clone, Copy)]
struct Marks {
    /// Whether one tells of a Hello with a position.
    placed: bool,
    /// The mark of the last message.
    last: Option<Option<u64>>,
}

/// Whether the line has its place behind those so far.
fn stands(inputs: &[Input], marks: Marks, line: &LogLine) -> bool
    ensures { (result ≡ true) ↔ PlacedBy inputs.now marks.placed marks.last line.now }
{
    match line {
        LogLine::Hello { mark, .. } => !marks.placed && opens_there(inputs, *mark),
        LogLine::Event { mark, .. }
        | LogLine::Progress { mark, .. }
        | LogLine::Final { mark, .. }
        | LogLine::Unknown { mark, .. } => comes_after(marks.last, *mark),
        _ => true,
    }
}

/// Whether each line has its place among the positions.
#[tactic(auto, using(crate::proofs::Placing::stand_first, crate::proofs::Placing::stand_next, crate::proofs::Placing::stand_not, crate::proofs::Placing::stand_last))]
pub(crate) fn is_placed(inputs: &[Input], lines: &[LogLine]) -> bool
    ensures { (result ≡ true) ↔ Each (IsPlaced inputs.now) lines.now }
{
    let mut marks = Marks {
        placed: false,
        last: None,
    };
    let mut left = lines;
    while let Some((line, after)) = first_line(left) {
        if !stands(inputs, marks, line) {
            return false;
        }
        marks = Marks {
            placed: marks.placed || is_placed_hello(line),
            last: later_or(mark_of(line), marks.last),
        };
        left = after;
    }
    true
}
