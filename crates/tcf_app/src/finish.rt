//! The end of a run: its last text is put, and its exit is given.
ghost use Rattle.std.specs.Prelude.{◌≡◌, ◌++◌, ◌∷◌, [], IfOk, OnOk, OnErr};
ghost use Rattle.tcf_app.specs.Exit.{IsGivenUp, TellsFault};
ghost use Rattle.tcf_app.specs.Ending.{Ends};

use crate::exit::Exit;
use std::alloc::AllocError;
use tcf_outside::{Octets, Sink, SinkRefusal, put_all};

/// Puts the text, and gives the exit where all of it was put.
pub(crate) fn finish<S: Sink>(out: &mut S, text: &[u8], exit: Exit) -> Exit
    requires { IsGivenUp exit → ⊥ }
    ensures ends { Ends (record { exit = exit; text = text.now }) result (S.seen out.old) (S.seen out.new) }
    ensures fault { TellsFault result (S.seen out.old) (S.seen out.new) }
{
    match put_all(out, text) {
        Ok(()) => exit,
        Err(SinkRefusal::Failed) => Exit::SinkFault,
        Err(SinkRefusal::NoMemory) => Exit::NoMemory,
    }
}

/// Puts the text that was made, and gives the exit where all of it was put.
pub(crate) fn finish_made<S: Sink>(
    out: &mut S,
    made: Result<Octets, AllocError>,
    exit: Exit,
) -> Exit
    requires { IsGivenUp exit → ⊥ }
    ensures ends { IfOk made (λ text. Ends (record { exit = exit; text = text }) result
        (S.seen out.old) (S.seen out.new)) }
    ensures wanting { OnErr made ((result ≡ Exit.NoMemory) × (S.seen out.new ≡ S.seen out.old)) }
    ensures fault { TellsFault result (S.seen out.old) (S.seen out.new) }
{
    match made {
        Ok(text) => finish(out, text.as_slice(), exit),
        Err(_) => Exit::NoMemory,
    }
}

/// Appends the bytes, and byte 10 that ends the line.
pub(crate) fn push_line(out: &mut Octets, front: &[u8], rest: &[u8]) -> Result<(), AllocError>
    ensures { OnOk result (out.new ≡ out.old ++ (front.now ++ rest.now ++ 10 ∷ [])) }
{
    out.extend(front)?;
    out.extend(rest)?;
    out.push(b'\n')
}
