//! What a log says that it was told, message by message.
ghost use Rattle.std.specs.Prelude.{◌≡◌, ◌↔◌, ◌∷◌, [], IfNone, IfSome, option_map, true};
ghost use Rattle.target_hub.specs.Sent.{event_at, final_at, hello_at, progress_at, unknown_at};
ghost use Rattle.log_check.specs.Heard.{Heard, owed_by, owed_in, told_said};
ghost use Rattle.log_check.specs.Sorts.{AreSorted, as_accepted};

use crate::sorts::{Command, is_through_number};
use tcf_text::LogLine;

/// A message that the target owes to a channel, with its position.
#[derive(Clone, Copy)]
pub(crate) enum Message<'a> {
    Hello {
        position: u64,
        body: &'a [u8],
    },
    Event {
        position: u64,
        service: &'a [u8],
        name: &'a [u8],
        body: &'a [u8],
    },
    Progress {
        position: u64,
        body: &'a [u8],
    },
    Final {
        position: u64,
        body: &'a [u8],
    },
    Unknown {
        position: u64,
    },
}

/// The message that the line tells of, if the target owes it: any with a position, but for the final answer to a command
/// that a peer may answer too.
#[tactic(auto, using(crate::proofs::Ears::final_owed, crate::proofs::Ears::final_not_owed, crate::proofs::Ears::unknown_owed, crate::proofs::Ears::unknown_not_owed))]
fn says<'a>(commands: &[Command<'_>], line: &'a LogLine) -> Option<Message<'a>>
    requires { AreSorted commands.now }
    ensures some { IfSome result (λ message. owed_by (as_accepted commands.now) line.now ≡ told_said message ∷ []) }
    ensures none { IfNone result (owed_by (as_accepted commands.now) line.now ≡ []) }
{
    match line {
        LogLine::Hello {
            mark: Some(position),
            body,
        } => Some(Message::Hello {
            position: *position,
            body: body.as_slice(),
        }),
        LogLine::Event {
            mark: Some(position),
            service,
            name,
            body,
        } => Some(Message::Event {
            position: *position,
            service: service.as_slice(),
            name: name.as_slice(),
            body: body.as_slice(),
        }),
        LogLine::Progress {
            mark: Some(position),
            body,
            ..
        } => Some(Message::Progress {
            position: *position,
            body: body.as_slice(),
        }),
        LogLine::Final {
            number,
            mark: Some(position),
            body,
        } => {
            if is_through_number(commands, *number) {
                Some(Message::Final {
                    position: *position,
                    body: body.as_slice(),
                })
            } else {
                None
            }
        }
        LogLine::Unknown {
            number,
            mark: Some(position),
        } => {
            if is_through_number(commands, *number) {
                Some(Message::Unknown {
                    position: *position,
                })
            } else {
                None
            }
        }
        _ => None,
    }
}

/// The next message that the target owes, as the log tells of it, and the lines behind it.
#[tactic(auto, using(crate::proofs::Ears::owed_over, crate::proofs::Ears::owed_here, crate::proofs::Ears::owed_nowhere))]
pub(crate) fn next_owed<'a>(
    commands: &[Command<'_>],
    lines: &'a [LogLine],
) -> Option<(Message<'a>, &'a [LogLine])>
    requires { AreSorted commands.now }
    ensures some { IfSome result (λ parts. owed_in (as_accepted commands.now) lines.now ≡ told_said parts.0 ∷ owed_in (as_accepted commands.now) parts.1.now) }
    ensures none { IfNone result (owed_in (as_accepted commands.now) lines.now ≡ []) }
{
    let mut rest = lines;
    while let [line, after @ ..] = rest {
        if let Some(message) = says(commands, line) {
            return Some((message, after));
        }
        rest = after;
    }
    None
}

/// Whether the lines tell of no message that the target owes.
pub(crate) fn is_none_owed(commands: &[Command<'_>], lines: &[LogLine]) -> bool
    requires { AreSorted commands.now }
    ensures { (result ≡ true) ↔ (owed_in (as_accepted commands.now) lines.now ≡ []) }
{
    match next_owed(commands, lines) {
        Some(_) => false,
        None => true,
    }
}

/// Whether it is a Hello at this position with this data.
fn is_hello(message: Message<'_>, position: u64, body: &[u8]) -> bool
    ensures { (result ≡ true) ↔ (told_said message.entry ≡ hello_at position body.now) }
{
    match message {
        Message::Hello {
            position: other,
            body: told,
        } => other == position && told == body,
        _ => false,
    }
}

/// Whether it is this event at this position.
fn is_event(message: Message<'_>, position: u64, service: &[u8], name: &[u8], body: &[u8]) -> bool
    ensures { (result ≡ true) ↔ (told_said message.entry ≡ event_at position service.now name.now body.now) }
{
    match message {
        Message::Event {
            position: other,
            service: told_service,
            name: told_name,
            body: told,
        } => { other == position && told_service == service && told_name == name && told == body }
        _ => false,
    }
}

/// Whether it is progress at this position with this data.
fn is_progress(message: Message<'_>, position: u64, body: &[u8]) -> bool
    ensures { (result ≡ true) ↔ (told_said message.entry ≡ progress_at position body.now) }
{
    match message {
        Message::Progress {
            position: other,
            body: told,
        } => other == position && told == body,
        _ => false,
    }
}

/// Whether it is a final answer at this position with this data.
fn is_final(message: Message<'_>, position: u64, body: &[u8]) -> bool
    ensures { (result ≡ true) ↔ (told_said message.entry ≡ final_at position true body.now) }
{
    match message {
        Message::Final {
            position: other,
            body: told,
        } => other == position && told == body,
        _ => false,
    }
}

/// Whether it says at this position that a command isn't known.
fn is_unknown(message: Message<'_>, position: u64) -> bool
    ensures { (result ≡ true) ↔ (told_said message.entry ≡ unknown_at position true) }
{
    match message {
        Message::Unknown { position: other } => other == position,
        _ => false,
    }
}

/// Whether both are the same message.
fn is_same(one: Message<'_>, other: Message<'_>) -> bool
    ensures { (result ≡ true) ↔ (told_said one.entry ≡ told_said other.entry) }
{
    match other {
        Message::Hello { position, body } => is_hello(one, position, body),
        Message::Event {
            position,
            service,
            name,
            body,
        } => is_event(one, position, service, name, body),
        Message::Progress { position, body } => is_progress(one, position, body),
        Message::Final { position, body } => is_final(one, position, body),
        Message::Unknown { position } => is_unknown(one, position),
    }
}

/// The log's lines behind this message, where it tells of it next. Where it tells of none more no line is left.
#[tactic(auto, using(crate::proofs::Ears::hears_end, crate::proofs::Ears::hears_same, crate::proofs::Ears::hears_not))]
pub(crate) fn hear<'a>(
    commands: &[Command<'_>],
    message: Message<'_>,
    lines: &'a [LogLine],
) -> Option<&'a [LogLine]>
    requires { AreSorted commands.now }
    ensures { Heard (as_accepted commands.now) (told_said message.entry ∷ []) lines.now (option_map (λ rest. rest.now) result) }
{
    match next_owed(commands, lines) {
        None => Some(&[]),
        Some((told, rest)) => {
            if is_same(told, message) {
                Some(rest)
            } else {
                None
            }
        }
    }
}
