//! A thing that is served over wires.
ghost use Rattle.std.specs.Prelude.{◌≡◌, OnErr, OnOk};

use crate::sending::Sending;
use std::alloc::AllocError;
use tcf_wires::{WireEvent, Wires};

/// What heeds the events of wires, and says what is to be put on them.
pub trait Served {
    ghost use Rattle.serving_wires.specs.Program.{Behaviour};
    ghost use Rattle.serving_wires.specs.Turn.{Heeds, HeedsPart};

    /// Whom it connects to, and what it does with each event.
    ghost behaviour: { Behaviour Self };

    /// An event comes, and all that can be done with it is done: what is to be put is queued, a wire that opens begins,
    /// and where a connection is wanted the wires are asked for it at once.
    fn heed<W: Wires>(
        &mut self,
        event: WireEvent,
        sending: &mut Sending,
        wires: &mut W,
    ) -> Result<(), AllocError>
        ensures peer { OnOk result (behaviour.peer self.new ≡ behaviour.peer self.old) }
        ensures ok { OnOk result (Heeds behaviour event self.old self.new sending.old sending.new
            (W.seen wires.old) (W.seen wires.new)) }
        ensures err { OnErr result (HeedsPart behaviour event self.old sending.old
            (W.seen wires.old) (W.seen wires.new)) };

    /// Whether the next event is waited for. Where something is to be done meanwhile `Idle` comes at once if nothing else
    /// does.
    fn waits_for_events(&self) -> bool {
        true
    }
}
