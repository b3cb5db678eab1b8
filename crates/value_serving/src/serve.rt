//! The run of served value-adds.
ghost use Rattle.std.specs.Prelude.{◌≡◌};
ghost use Rattle.tcf_outside.specs.Faults.{Rose};
ghost use Rattle.serving_wires.specs.Calls.{Makes};
ghost use Rattle.serving_wires.specs.Ends.{end_of};
ghost use Rattle.value_serving.specs.Serve.{ServesValueAdds};

use crate::serving::Serving;
use serving_wires::{Sending, ServeEnd, each_wire_is_carried, end_of, serve};
use std::alloc::Global;
use tcf_wires::{WireRefusal, Wires};

/// Listens on the address, and serves one value-add for each connection that comes, whose peer has this ID and this
/// address. In each of the turns, of which there are 1 to 1,000,000,000, one event is taken and goes to its value-add; all
/// messages that can be taken are taken, from above until nothing is left there, then one from below, and again; then what
/// is queued is put, one put a wire, in rising order of the channels.
///
/// Where a value-add is redirected the wires are asked at once to connect to the peer. If they can't, that is the redirect's
/// error and no fault of the run. The new connection is the value-add's wire above; an earlier one is shut, and what was
/// queued for it is dropped.
///
/// Where 64 value-adds aren't closed, a further connection gets the end of the stream and is shut. A wire is shut once
/// nothing is left to put after its end. What a wire doesn't take is put first after the next event; what is queued for a
/// wire that is lost is dropped, and its value-add learns of it by an event alone.
pub fn serve_value<W: Wires>(
    alloc: Global,
    wires: &mut W,
    address: &str,
    peer: &str,
    turns: u32,
) -> ServeEnd
    ensures serves { Makes (ServesValueAdds peer.now address.now turns result)
        (W.seen wires.old) (W.seen wires.new) }
    ensures fault { result ≡ ServeEnd.WireFault → Rose (W.seen wires.old).faults (W.seen wires.new).faults }
{
    end_of(try_serve(alloc, wires, address, peer, turns))
}

fn try_serve<W: Wires>(
    alloc: Global,
    wires: &mut W,
    address: &str,
    peer: &str,
    turns: u32,
) -> Result<ServeEnd, WireRefusal>
    ensures serves { Makes (ServesValueAdds peer.now address.now turns (end_of result))
        (W.seen wires.old) (W.seen wires.new) }
    ensures fault { end_of result ≡ ServeEnd.WireFault → Rose (W.seen wires.old).faults (W.seen wires.new).faults }
{
    each_wire_is_carried();
    let mut serving = Serving::new(alloc, peer)?;
    let mut sending = Sending::new(alloc);
    wires.listen(address)?;
    serve(&mut serving, &mut sending, wires, turns)
}
