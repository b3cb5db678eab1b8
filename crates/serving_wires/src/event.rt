//! What kind of event comes.
ghost use Rattle.std.specs.Prelude.{◌≡◌};
ghost use Rattle.serving_wires.specs.Serving.{is_stop};

use tcf_wires::WireEvent;

/// Whether the run is to end.
pub fn is_stop(event: &WireEvent) -> bool
    ensures { result ≡ is_stop event.now }
{
    match event {
        WireEvent::Stop => true,
        _ => false,
    }
}
