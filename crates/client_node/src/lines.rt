//! The lines of what a client's end took, and of why it closed.
ghost use Rattle.std.specs.Prelude.{◌≡◌, [], ◌∷◌, IfOk, Some, None};
ghost use Rattle.client_node.specs.Lines.{end_of, event_line, final_line, hello_line, progress_line, why_of};
ghost use Rattle.tcf_message.specs.Message.{reading};
ghost use Rattle.tcf_text.specs.declared.log.LogLine.{LogLine as Line};
ghost use Rattle.tcf_text.specs.declared.log.LogLine.TheVariants as lines;

use channel_core::{Cause, Incoming, SendRefusal};
use std::alloc::{AllocError, Global};
use tcf_message::{Message, read};
use tcf_outside::Octets;
use tcf_text::{EndWhy, LogLine, RefusedWhy};

/// Why a command isn't accepted; want of memory has no line.
pub(crate) fn why_of(why: SendRefusal) -> Option<RefusedWhy>
    ensures { result ≡ why_of why }
{
    match why {
        SendRefusal::Full => Some(RefusedWhy::Full),
        SendRefusal::NotOpen => Some(RefusedWhy::NotOpen),
        SendRefusal::TooLong => Some(RefusedWhy::TooLong),
        SendRefusal::Spent => Some(RefusedWhy::Spent),
        SendRefusal::NoMemory => None,
    }
}

/// Why the channel ended.
pub(crate) fn end_of(cause: Cause) -> EndWhy
    ensures { result ≡ end_of cause }
{
    match cause {
        Cause::Own => EndWhy::Own,
        Cause::Eos => EndWhy::Eos,
        Cause::Ended => EndWhy::Ended,
        Cause::Protocol { .. } => EndWhy::Protocol,
        Cause::Stream(_) => EndWhy::Stream,
    }
}

/// The line of a Hello that was taken; none where the message is no event.
pub(crate) fn hello_line(alloc: Global, incoming: &Incoming) -> Result<Option<LogLine>, AllocError>
    ensures { IfOk result (λ line. line ≡ hello_line incoming.now.mark (reading incoming.now.raw)) }
{
    let Ok(Message::Event { body, .. }) = read(incoming.raw.as_slice()) else {
        return Ok(None);
    };
    Ok(Some(LogLine::Hello {
        mark: incoming.mark,
        body: Octets::from_slice(alloc, body)?,
    }))
}

/// The line of another event that was taken; none where the message is no event.
pub(crate) fn event_line(alloc: Global, incoming: &Incoming) -> Result<Option<LogLine>, AllocError>
    ensures { IfOk result (λ line. line ≡ event_line incoming.now.mark (reading incoming.now.raw)) }
{
    let Ok(
        Message::Event {
            service,
            name,
            body,
        },
    ) = read(incoming.raw.as_slice())
    else {
        return Ok(None);
    };
    Ok(Some(LogLine::Event {
        mark: incoming.mark,
        service: Octets::from_slice(alloc, service)?,
        name: Octets::from_slice(alloc, name)?,
        body: Octets::from_slice(alloc, body)?,
    }))
}

/// The line of progress of the command of this number; none where the message is no progress.
pub(crate) fn progress_line(
    alloc: Global,
    number: u64,
    incoming: &Incoming,
) -> Result<Option<LogLine>, AllocError>
    ensures { IfOk result (λ line. line ≡ progress_line number incoming.now.mark (reading incoming.now.raw)) }
{
    let Ok(Message::Progress { body, .. }) = read(incoming.raw.as_slice()) else {
        return Ok(None);
    };
    Ok(Some(LogLine::Progress {
        number,
        mark: incoming.mark,
        body: Octets::from_slice(alloc, body)?,
    }))
}

/// The line of the final answer to the command of this number; none where the message is no answer.
pub(crate) fn final_line(
    alloc: Global,
    number: u64,
    incoming: &Incoming,
) -> Result<Option<LogLine>, AllocError>
    ensures { IfOk result (λ line. line ≡ final_line number incoming.now.mark (reading incoming.now.raw)) }
{
    let mark = incoming.mark;
    match read(incoming.raw.as_slice()) {
        Ok(Message::Result { body, .. }) => Ok(Some(LogLine::Final {
            number,
            mark,
            body: Octets::from_slice(alloc, body)?,
        })),
        Ok(Message::NotKnown { .. }) => Ok(Some(LogLine::Unknown { number, mark })),
        _ => Ok(None),
    }
}

/// The line of a command that was accepted.
pub(crate) fn sent_line(
    alloc: Global,
    number: u64,
    service: &[u8],
    name: &[u8],
    body: &[u8],
) -> Result<LogLine, AllocError>
    ensures { IfOk result (λ line. line ≡ lines.Sent number service.now name.now body.now) }
{
    Ok(LogLine::Sent {
        number,
        service: Octets::from_slice(alloc, service)?,
        name: Octets::from_slice(alloc, name)?,
        body: Octets::from_slice(alloc, body)?,
    })
}
