//! Writing a message in its one spelling.
ghost use Rattle.std.specs.Prelude.{◌≡◌, ◌++◌, [], codes, OnOk, OnErr};
ghost use Rattle.std.specs.Fmt.{decimal, signed_decimal};
ghost use Rattle.tcf_message.specs.Message.{◌•◌, IsWellFormed, HasPut, value_of, spelling};

use crate::message::Message;
use std::alloc::AllocError;
use tcf_outside::Octets;

/// Puts a field and the zero that ends it.
fn put_field(field: &[u8], out: &mut Octets) -> Result<(), AllocError>
    ensures ok { OnOk result (out.new ≡ out.old ++ (field.now • [])) }
    ensures err { OnErr result (HasPut (field.now • []) out.old out.new) }
{
    out.extend(field)?;
    out.push(0)
}

/// Puts two fields and the data behind them.
fn put_two(first: &[u8], second: &[u8], body: &[u8], out: &mut Octets) -> Result<(), AllocError>
    ensures ok { OnOk result (out.new ≡ out.old ++ (first.now • second.now • body.now)) }
    ensures err { OnErr result (HasPut (first.now • second.now • body.now) out.old out.new) }
{
    put_field(first, out)?;
    put_field(second, out)?;
    out.extend(body)
}

/// Puts the digits of a number.
fn put_number(number: u8, out: &mut Octets) -> Result<(), AllocError>
    ensures ok { OnOk result (out.new ≡ out.old ++ decimal number) }
    ensures err { OnErr result (HasPut (decimal number) out.old out.new) }
{
    if number >= 10 {
        put_number(number / 10, out)?;
    }
    out.push(b'0' + number % 10)
}

/// Puts the one spelling of a level.
fn put_level(level: i8, out: &mut Octets) -> Result<(), AllocError>
    ensures ok { OnOk result (out.new ≡ out.old ++ signed_decimal level) }
    ensures err { OnErr result (HasPut (signed_decimal level) out.old out.new) }
{
    if level < 0 {
        out.push(b'-')?;
    }
    put_number(level.unsigned_abs(), out)
}

/// Puts a flow control message.
fn put_flow(level: i8, out: &mut Octets) -> Result<(), AllocError>
    ensures ok { OnOk result (out.new ≡ out.old ++ (codes "F" • signed_decimal level • [])) }
    ensures err { OnErr result (HasPut (codes "F" • signed_decimal level • []) out.old out.new) }
{
    put_field(b"F", out)?;
    put_level(level, out)?;
    out.push(0)
}

/// Puts the one spelling of the message last. For want of memory a front of it is put, and the bytes that were
/// there stay.
pub fn write(message: &Message<'_>, out: &mut Octets) -> Result<(), AllocError>
    requires { IsWellFormed (value_of message.now) }
    ensures ok { OnOk result (out.new ≡ out.old ++ spelling (value_of message.now)) }
    ensures err { OnErr result (HasPut (spelling (value_of message.now)) out.old out.new) }
{
    match *message {
        Message::Command {
            token,
            service,
            name,
            body,
        } => {
            put_field(b"C", out)?;
            put_field(token, out)?;
            put_two(service, name, body, out)
        }
        Message::Result { token, body } => put_two(b"R", token, body, out),
        Message::Progress { token, body } => put_two(b"P", token, body, out),
        Message::NotKnown { token } => put_two(b"N", token, b"", out),
        Message::Event {
            service,
            name,
            body,
        } => {
            put_field(b"E", out)?;
            put_two(service, name, body, out)
        }
        Message::Flow { level } => put_flow(level, out),
    }
}
