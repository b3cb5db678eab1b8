//! The run of what is served.
ghost use Rattle.std.specs.Prelude.{◌≡◌, IfOk, IsTrue};
ghost use Rattle.tcf_outside.specs.Faults.{Rose};
ghost use Rattle.tcf_wires.specs.Event.{can_come};
ghost use Rattle.tcf_wires.specs.Told.{noted};
ghost use Rattle.tcf_wires.specs.declared.call.WireCall.TheVariants.{Gave};
ghost use Rattle.serving_wires.specs.Calls.{Makes};
ghost use Rattle.serving_wires.specs.Ends.{end_of};
ghost use Rattle.serving_wires.specs.Serve.{GoesOn};
ghost use Rattle.serving_wires.specs.Turn.{TakesTurn};

use crate::end::ServeEnd;
use crate::event::is_stop;
use crate::laws::each_wire_is_carried;
use crate::sending::Sending;
use crate::served::Served;
use tcf_wires::{WireEvent, WireRefusal, Wires};

/// Serves what has begun, and whose wires are open: in each of the turns, of which there are 1 to 1,000,000,000, one event
/// is taken and heeded; then what is queued is put, one put a wire, in rising order of the channels. `Stop` ends the run.
///
/// A wire is shut once nothing is left to put after its end. What a wire doesn't take is put first after the next event;
/// what is queued for a wire that is lost is dropped.
pub fn serve<S: Served, W: Wires>(
    served: &mut S,
    sending: &mut Sending,
    wires: &mut W,
    turns: u32,
) -> Result<ServeEnd, WireRefusal>
    ensures serves { Makes (GoesOn S.behaviour (record { served = served.old; sending = sending.old }) (W.seen wires.old).unused turns (end_of result))
        (W.seen wires.old) (W.seen wires.new) }
    ensures fault { end_of result ≡ ServeEnd.WireFault → Rose (W.seen wires.old).faults (W.seen wires.new).faults }
{
    each_wire_is_carried();
    for before in 0..turns {
        let is_last = take_turn(served, sending, wires)?;
        if is_last {
            return Ok(ServeEnd::Stopped { events: before + 1 });
        }
    }
    Ok(ServeEnd::Turns)
}

/// Takes an event and puts what is queued then. Answers whether it was `Stop`.
pub fn take_turn<S: Served, W: Wires>(
    served: &mut S,
    sending: &mut Sending,
    wires: &mut W,
) -> Result<bool, WireRefusal>
    ensures turn { Makes (TakesTurn S.behaviour (record { served = served.old; sending = sending.old }) (record { served = served.new; sending = sending.new })
        (W.seen wires.old).unused (W.seen wires.new).unused result) (W.seen wires.old) (W.seen wires.new) }
{
    let event = next_event(served, wires)?;
    let is_last = is_stop(&event);
    served.heed(event, sending, wires)?;
    sending.flush(wires)?;
    Ok(is_last)
}

/// What comes next, for which is waited unless something is to be done meanwhile.
fn next_event<S: Served, W: Wires>(served: &S, wires: &mut W) -> Result<WireEvent, WireRefusal>
    ensures can { IfOk result (λ event. IsTrue (can_come (W.seen wires.old).unused event)) }
    ensures seen { W.seen wires.new ≡ noted result (Gave result) (W.seen wires.old) }
{
    wires.set_nonblocking(!served.waits_for_events());
    wires.next()
}
