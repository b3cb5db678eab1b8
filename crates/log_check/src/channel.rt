//! The channel on which a log was made.
ghost use Rattle.std.specs.Prelude.{◌≡◌, ◌∷◌, [], ℕ, IfNone, IfSome, if◌then◌else◌};
ghost use Rattle.target_hub.specs.Ordered.{IsChannelOf, OpensAt, hello_position};
ghost use Rattle.tcf_text.specs.Lines.{from_hello, is_placed_hello};
ghost use Rattle.log_check.specs.Placed.{placed_position};

use target_hub::Input;
use tcf_text::LogLine;

/// Whether the line tells of a Hello with a position.
pub(crate) fn is_placed_hello(line: &LogLine) -> bool
    ensures { result ≡ is_placed_hello line.now }
{
    match line {
        LogLine::Hello { mark, .. } => mark.is_some(),
        _ => false,
    }
}

/// The first of some lines, and the others.
pub(crate) fn first_line(lines: &[LogLine]) -> Option<(&LogLine, &[LogLine])>
    ensures some { IfSome result (λ parts. lines.now ≡ parts.0.now ∷ parts.1.now) }
    ensures none { IfNone result (lines.now ≡ []) }
{
    match lines {
        [line, rest @ ..] => Some((line, rest)),
        [] => None,
    }
}

/// These lines, or the others.
fn chosen<'a>(these: bool, lines: &'a [LogLine], others: &'a [LogLine]) -> &'a [LogLine]
    ensures { result.now ≡ (if these then lines.now else others.now) }
{
    if these { lines } else { others }
}

/// The lines from the last Hello with a position on; none where there is no such Hello.
#[tactic(auto, using(crate::proofs::Opening::from_first, crate::proofs::Opening::from_next, crate::proofs::Opening::from_last))]
pub(crate) fn from_hello(lines: &[LogLine]) -> &[LogLine]
    ensures { result.now ≡ from_hello lines.now }
{
    let mut from: &[LogLine] = &[];
    let mut rest = lines;
    while let Some((line, after)) = first_line(rest) {
        from = chosen(is_placed_hello(line), rest, from);
        rest = after;
    }
    from
}

/// The channel that the input opens.
fn opened_by(input: &Input) -> Option<u64>
    ensures some { IfSome result (λ k. input.now ≡ Input.Opened k) }
    ensures none { IfNone result ((k : ℕ) → input.now ≡ Input.Opened k → ⊥) }
{
    match input {
        Input::Opened(channel) => Some(*channel),
        _ => None,
    }
}

/// The channel that the history opens at this position.
#[tactic(auto, using(crate::proofs::Opening::opens_at_get, crate::proofs::Opening::never_opens, crate::proofs::Opening::never_within, crate::proofs::Opening::never_at_zero))]
pub(crate) fn channel_at(inputs: &[Input], position: u64) -> Option<u64>
    ensures some { IfSome result (OpensAt inputs.now position) }
    ensures none { IfNone result ((k : ℕ) → OpensAt inputs.now position k → ⊥) }
{
    if position == 0 {
        return None;
    }
    match inputs.get((position - 1) as usize) {
        Some(input) => opened_by(input),
        None => None,
    }
}

/// The position of the Hello that the line tells of, if it has one.
fn placed_position(line: &LogLine) -> Option<u64>
    ensures { result ≡ placed_position line.now }
{
    match line {
        LogLine::Hello {
            mark: Some(position),
            ..
        } => Some(*position),
        _ => None,
    }
}

/// The position of the log's last Hello that has one.
#[tactic(auto, using(crate::proofs::Opening::position_first, crate::proofs::Opening::position_nowhere))]
fn hello_position(lines: &[LogLine]) -> Option<u64>
    ensures { result ≡ hello_position (from_hello lines.now) }
{
    match first_line(from_hello(lines)) {
        Some((line, _)) => placed_position(line),
        None => None,
    }
}

/// The channel on which the log was made: the one that the history opens at the position of the log's Hello.
#[tactic(auto, using(crate::proofs::Opening::channel_is, crate::proofs::Opening::channel_isnt, crate::proofs::Opening::no_hello))]
pub(crate) fn channel_of(inputs: &[Input], lines: &[LogLine]) -> Option<u64>
    ensures some { IfSome result (IsChannelOf lines.now inputs.now) }
    ensures none { IfNone result ((k : ℕ) → IsChannelOf lines.now inputs.now k → ⊥) }
{
    match hello_position(lines) {
        Some(position) => channel_at(inputs, position),
        None => None,
    }
}
