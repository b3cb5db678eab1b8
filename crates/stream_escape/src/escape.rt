//! The writer's side: a message is escaped, and marks end it or the stream.
ghost use Rattle.std.specs.Prelude.{◌≡◌, ◌++◌, ◌∷◌, [], ◌==◌, position, OnOk, OnErr};
ghost use Rattle.stream_escape.specs.Stream.{escaped};

use std::alloc::AllocError;
use tcf_outside::Octets;

/// The byte that stands before each of those below.
pub(crate) const ESCAPE: u8 = 3;

/// With the escape before it, one byte 3 of a message.
pub(crate) const PLAIN: u8 = 0;

/// With the escape before it, the end of a message.
pub(crate) const END_OF_MESSAGE: u8 = 1;

/// With the escape before it, the end of the stream.
pub(crate) const END_OF_STREAM: u8 = 2;

/// The place of the first escape.
pub(crate) fn first_escape(bytes: &[u8]) -> Option<usize>
    ensures { result ≡ position (λ byte. byte == 3) bytes.now }
{
    bytes.iter().position(|byte| *byte == ESCAPE)
}

/// Appends the message's bytes, each 3 as `03 00`.
pub fn escape_into(message: &[u8], out: &mut Octets) -> Result<(), AllocError>
    ensures ok { OnOk result (out.new ≡ out.old ++ escaped message.now) }
    ensures err { OnErr result (out.new ≡ out.old) }
{
    if first_escape(message).is_none() {
        return out.extend(message);
    }
    let mut escaped = Octets::new(out.allocator());
    escape_runs(message, &mut escaped)?;
    out.extend(escaped.as_slice())
}

/// The same, but at want of memory some of the message's bytes are there.
fn escape_runs(message: &[u8], out: &mut Octets) -> Result<(), AllocError>
    ensures { OnOk result (out.new ≡ out.old ++ escaped message.now) }
{
    let mut rest = message;
    while let Some(place) = first_escape(rest) {
        let (run, behind) = rest.split_at(place);
        out.extend(run)?;
        out.extend(&[ESCAPE, PLAIN])?;
        rest = &behind[1..];
    }
    out.extend(rest)
}

/// Appends the mark that ends a message, `03 01`.
pub fn mark_eom(out: &mut Octets) -> Result<(), AllocError>
    ensures ok { OnOk result (out.new ≡ out.old ++ 3 ∷ 1 ∷ []) }
    ensures err { OnErr result (out.new ≡ out.old) }
{
    out.extend(&[ESCAPE, END_OF_MESSAGE])
}

/// Appends the mark that ends the stream, `03 02`.
pub fn mark_eos(out: &mut Octets) -> Result<(), AllocError>
    ensures ok { OnOk result (out.new ≡ out.old ++ 3 ∷ 2 ∷ []) }
    ensures err { OnErr result (out.new ≡ out.old) }
{
    out.extend(&[ESCAPE, END_OF_STREAM])
}
