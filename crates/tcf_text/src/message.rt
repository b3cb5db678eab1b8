//! How a message of a stream is shown: one line, with its words and parts as the lines of a log have them.
#![tactic(auto, using(crate::proofs::Growth::grows_later))]

ghost use Rattle.std.specs.Prelude.{◌≡◌, ◌++◌, ◌∷◌, [], codes, OnOk, OnErr};
ghost use Rattle.std.specs.Fmt.{signed_decimal};
ghost use Rattle.tcf_message.specs.Message.{value_of};
ghost use Rattle.tcf_text.specs.Log.{word_text, args_text, named_text, Grows};
ghost use Rattle.tcf_text.specs.Shown.{message_words, message_line};

use crate::log::Showing;
use crate::show::{show_args, show_named, show_word};
use itoa::Buffer;
use std::alloc::AllocError;
use tcf_message::Message;
use tcf_outside::Octets;

/// Appends a type letter and a token.
fn show_token(letter: u8, token: &[u8], out: &mut Octets) -> Result<(), AllocError>
    ensures shown { OnOk result (out.new ≡ out.old ++ (letter ∷ [] ++ word_text Showing.Plain token.now)) }
    ensures part { OnErr result (Grows out.old out.new) }
{
    out.push(letter)?;
    show_word(Showing::Plain, token, out)
}

/// Appends a type letter, a token and the data of an answer.
fn show_answer(letter: u8, token: &[u8], body: &[u8], out: &mut Octets) -> Result<(), AllocError>
    ensures shown { OnOk result (out.new ≡ out.old ++ (letter ∷ [] ++ word_text Showing.Plain token.now ++ args_text Showing.Plain body.now)) }
    ensures part { OnErr result (Grows out.old out.new) }
{
    show_token(letter, token, out)?;
    show_args(Showing::Plain, body, out)
}

/// Appends a command.
fn show_command(
    token: &[u8],
    service: &[u8],
    name: &[u8],
    body: &[u8],
    out: &mut Octets,
) -> Result<(), AllocError>
    ensures shown { OnOk result (out.new ≡ out.old ++ (codes "C" ++ word_text Showing.Plain token.now ++ named_text Showing.Plain service.now name.now body.now)) }
    ensures part { OnErr result (Grows out.old out.new) }
{
    show_token(b'C', token, out)?;
    show_named(Showing::Plain, service, name, body, out)
}

/// Appends an event.
fn show_event(service: &[u8], name: &[u8], body: &[u8], out: &mut Octets) -> Result<(), AllocError>
    ensures shown { OnOk result (out.new ≡ out.old ++ (codes "E" ++ named_text Showing.Plain service.now name.now body.now)) }
    ensures part { OnErr result (Grows out.old out.new) }
{
    out.push(b'E')?;
    show_named(Showing::Plain, service, name, body, out)
}

/// Appends a flow control message.
fn show_flow(level: i8, out: &mut Octets) -> Result<(), AllocError>
    ensures shown { OnOk result (out.new ≡ out.old ++ (codes "F " ++ signed_decimal level)) }
    ensures part { OnErr result (Grows out.old out.new) }
{
    out.extend(b"F ")?;
    out.extend(Buffer::new().format(level).as_bytes())
}

/// Appends the message's line without the byte that ends it.
fn show_message(message: &Message<'_>, out: &mut Octets) -> Result<(), AllocError>
    ensures shown { OnOk result (out.new ≡ out.old ++ message_words (value_of message.now)) }
    ensures part { OnErr result (Grows out.old out.new) }
{
    match *message {
        Message::Command {
            token,
            service,
            name,
            body,
        } => show_command(token, service, name, body, out),
        Message::Result { token, body } => show_answer(b'R', token, body, out),
        Message::Progress { token, body } => show_answer(b'P', token, body, out),
        Message::NotKnown { token } => show_token(b'N', token, out),
        Message::Event {
            service,
            name,
            body,
        } => show_event(service, name, body, out),
        Message::Flow { level } => show_flow(level, out),
    }
}

/// Appends the message's line and the byte that ends it.
fn push_line(message: &Message<'_>, out: &mut Octets) -> Result<(), AllocError>
    ensures shown { OnOk result (out.new ≡ out.old ++ message_line (value_of message.now)) }
    ensures part { OnErr result (Grows out.old out.new) }
{
    show_message(message, out)?;
    out.push(b'\n')
}

/// Appends the message's line and the byte that ends it:
///
/// - `C TOKEN SERVICE COMMAND ARGS` for a command,
/// - `R TOKEN ARGS` for a final result, `P TOKEN ARGS` for progress, `N TOKEN` for a command that isn't recognised,
/// - `E SERVICE EVENT ARGS` for an event, and `F LEVEL` for flow control.
///
/// Where memory runs out nothing is appended.
#[tactic(auto, using(crate::proofs::Growth::taken_back))]
pub fn show_line(message: &Message<'_>, out: &mut Octets) -> Result<(), AllocError>
    ensures ok { OnOk result (out.new ≡ out.old ++ message_line (value_of message.now)) }
    ensures err { OnErr result (out.new ≡ out.old) }
{
    let length = out.len();
    if let Err(error) = push_line(message, out) {
        out.truncate(length);
        return Err(error);
    }
    Ok(())
}
