//! How a serving ends.
ghost use Rattle.std.specs.Prelude.{◌≡◌};
ghost use Rattle.serving_wires.specs.Ends.{end_of};

use tcf_wires::WireRefusal;

/// How the serving of an address ended.
#[derive(Clone, Copy, Debug, PartialEq, Eq)]
pub enum ServeEnd {
    /// `Stop` came, as the last of so many events.
    Stopped { events: u32 },
    /// All turns were taken, and `Stop` didn't come.
    Turns,
    /// The address couldn't be listened on, or the wires gave nothing any more.
    WireFault,
    /// Memory was wanting.
    NoMemory,
}

/// How a serving ended that came to this: a failed call ends it.
pub fn end_of(outcome: Result<ServeEnd, WireRefusal>) -> ServeEnd
    ensures { result ≡ end_of outcome }
{
    match outcome {
        Ok(end) => end,
        Err(WireRefusal::Failed) => ServeEnd::WireFault,
        Err(WireRefusal::NoMemory) => ServeEnd::NoMemory,
    }
}
