//! The run of a served hub.
ghost use Rattle.std.specs.Prelude.{◌≡◌, []};
ghost use Rattle.tcf_outside.specs.Faults.{Rose};
ghost use Rattle.serving_wires.specs.Calls.{Makes};
ghost use Rattle.serving_wires.specs.Ends.{end_of};
ghost use Rattle.hub_serving.specs.Serve.{ServesHub};
ghost use Rattle.hub_serving.specs.Serving.{new_serving};

use crate::serving::Serving;
use serving_wires::{Sending, ServeEnd, each_wire_is_carried, end_of, serve};
use std::alloc::Global;
use tcf_wires::{WireRefusal, Wires};

/// Connects to the peer, then listens on the address, and serves a hub, with a lower channel for each connection that comes. In
/// each of the turns, of which there are 1 to 1,000,000,000, one event is taken and goes to the hub; all messages that can be
/// taken are taken, in rounds: in each round from above until nothing is left there, and then one message of each lower
/// channel, in rising order of the channels; then what is queued is put, one put a wire, in rising order too.
///
/// Where 64 lower channels are live, or the hub is closed, a further connection gets the end of the stream and is shut. A wire
/// is shut once nothing is left to put after its end. What a wire doesn't take is put first after the next event; what is
/// queued for a wire that is lost is dropped, and the hub learns of it by an event alone.
pub fn serve_hub<W: Wires>(
    alloc: Global,
    wires: &mut W,
    address: &str,
    peer: &str,
    turns: u32,
) -> ServeEnd
    ensures serves { Makes (ServesHub peer.now address.now turns result)
        (W.seen wires.old) (W.seen wires.new) }
    ensures fault { result ≡ ServeEnd.WireFault → Rose (W.seen wires.old).faults (W.seen wires.new).faults }
{
    end_of(try_serve(alloc, wires, address, peer, turns))
}

fn try_serve<W: Wires>(
    alloc: Global,
    wires: &mut W,
    address: &str,
    peer: &str,
    turns: u32,
) -> Result<ServeEnd, WireRefusal>
    ensures serves { Makes (ServesHub peer.now address.now turns (end_of result))
        (W.seen wires.old) (W.seen wires.new) }
    ensures fault { end_of result ≡ ServeEnd.WireFault → Rose (W.seen wires.old).faults (W.seen wires.new).faults }
{
    let mut serving = Serving::new(alloc, peer)?;
    let mut sending = Sending::new(alloc);
    connect_and_serve(&mut serving, &mut sending, wires, address, peer, turns)
}

/// Serves a hub that isn't connected yet.
fn connect_and_serve<W: Wires>(
    serving: &mut Serving,
    sending: &mut Sending,
    wires: &mut W,
    address: &str,
    peer: &str,
    turns: u32,
) -> Result<ServeEnd, WireRefusal>
    requires serving { serving.old ≡ new_serving peer.now }
    requires sending { sending.old ≡ [] }
    ensures serves { Makes (ServesHub peer.now address.now turns (end_of result))
        (W.seen wires.old) (W.seen wires.new) }
    ensures fault { end_of result ≡ ServeEnd.WireFault → Rose (W.seen wires.old).faults (W.seen wires.new).faults }
{
    each_wire_is_carried();
    let upper = wires.connect(peer)?;
    serving.connected(upper, sending)?;
    wires.listen(address)?;
    serve(serving, sending, wires, turns)
}
