//! Reading a message: the fields from the left, and the limit of the body last.
ghost use Rattle.std.specs.Prelude.{IfOk, IfErr, Ok, Err};
ghost use Rattle.tcf_message.specs.Message.{MessageValue, Says, Gives, value_of, reading, by_kind, command_of, final_of, progress_of, not_known_of, event_of, flow_of};
ghost use Rattle.tcf_message.specs.Fault.{IsFault};

use crate::fields::{check_body, check_end, field_at, token_at};
use crate::level::level_of;
use crate::message::{Message, MessageFault};

#[tactic(auto, unfolding(crate::specs::Message::command_of))]
fn command(rest: &[u8]) -> Result<Message<'_>, MessageFault>
    ensures { Gives value_of result (command_of rest.now) }
{
    let (token, rest) = token_at(rest, 2)?;
    let (service, rest) = field_at(rest, 3 + token.len())?;
    let (name, body) = field_at(rest, 4 + token.len() + service.len())?;
    check_body(service.len() + name.len() + body.len())?;
    Ok(Message::Command {
        token,
        service,
        name,
        body,
    })
}

#[tactic(auto, unfolding(crate::specs::Message::final_of))]
fn final_result(rest: &[u8]) -> Result<Message<'_>, MessageFault>
    ensures { Gives value_of result (final_of rest.now) }
{
    let (token, body) = token_at(rest, 2)?;
    check_body(body.len())?;
    Ok(Message::Result { token, body })
}

#[tactic(auto, unfolding(crate::specs::Message::progress_of))]
fn progress(rest: &[u8]) -> Result<Message<'_>, MessageFault>
    ensures { Gives value_of result (progress_of rest.now) }
{
    let (token, body) = token_at(rest, 2)?;
    check_body(body.len())?;
    Ok(Message::Progress { token, body })
}

#[tactic(auto, unfolding(crate::specs::Message::not_known_of))]
fn not_known(rest: &[u8]) -> Result<Message<'_>, MessageFault>
    ensures { Gives value_of result (not_known_of rest.now) }
{
    let (token, rest) = token_at(rest, 2)?;
    check_end(rest, 3 + token.len())?;
    Ok(Message::NotKnown { token })
}

#[tactic(auto, unfolding(crate::specs::Message::event_of))]
fn event(rest: &[u8]) -> Result<Message<'_>, MessageFault>
    ensures { Gives value_of result (event_of rest.now) }
{
    let (service, rest) = field_at(rest, 2)?;
    let (name, body) = field_at(rest, 3 + service.len())?;
    check_body(service.len() + name.len() + body.len())?;
    Ok(Message::Event {
        service,
        name,
        body,
    })
}

#[tactic(auto, unfolding(crate::specs::Message::flow_of))]
fn flow(rest: &[u8]) -> Result<Message<'_>, MessageFault>
    ensures { Gives value_of result (flow_of rest.now) }
{
    let (text, rest) = field_at(rest, 2)?;
    let Some(level) = level_of(text) else {
        return Err(MessageFault::Level);
    };
    check_end(rest, 3 + text.len())?;
    Ok(Message::Flow { level })
}

/// The message of this kind, whose first byte is `first`.
#[tactic(auto, unfolding(crate::specs::Message::by_kind))]
fn by_kind<'a>(first: u8, kind: &[u8], rest: &'a [u8]) -> Result<Message<'a>, MessageFault>
    ensures { Gives value_of result (by_kind first kind.now rest.now) }
{
    match kind {
        [b'C'] => command(rest),
        [b'R'] => final_result(rest),
        [b'P'] => progress(rest),
        [b'N'] => not_known(rest),
        [b'E'] => event(rest),
        [b'F'] => flow(rest),
        _ => Err(MessageFault::Kind { byte: first }),
    }
}

#[tactic(auto, unfolding(crate::specs::Message::reading))]
fn whole(bytes: &[u8]) -> Result<Message<'_>, MessageFault>
    ensures { Gives value_of result (reading bytes.now) }
{
    let [first, ..] = bytes else {
        return Err(MessageFault::Empty);
    };
    let (kind, rest) = field_at(bytes, 0)?;
    by_kind(*first, kind, rest)
}

/// The message that the bytes say, all of the bytes, or their first fault from the left. It takes no memory.
pub fn read(bytes: &[u8]) -> Result<Message<'_>, MessageFault>
    // What is read is what the bytes say.
    ensures found { IfOk result (λ m. Says (value_of m) bytes.now) }
    // What the bytes say is read.
    ensures only { (m : MessageValue) → Says m bytes.now → Gives value_of result (Ok m) }
    // Bytes that say nothing have this fault,
    ensures fault { IfErr result (λ fault. IsFault fault bytes.now) }
    // and it is answered.
    ensures first { (fault : MessageFault) → IsFault fault bytes.now → Gives value_of result (Err fault) }
    // So each list of bytes has one answer.
    ensures exact { Gives value_of result (reading bytes.now) }
{
    whole(bytes)
}
