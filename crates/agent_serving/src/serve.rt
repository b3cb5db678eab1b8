//! The run of a served agent.
ghost use Rattle.std.specs.Prelude.{◌≡◌};
ghost use Rattle.tcf_outside.specs.Faults.{Rose};
ghost use Rattle.serving_wires.specs.Calls.{Makes};
ghost use Rattle.serving_wires.specs.Ends.{end_of};
ghost use Rattle.agent_serving.specs.Serve.{ServesAgent};

use crate::serving::Serving;
use agent_node::Image;
use serving_wires::{Sending, ServeEnd, each_wire_is_carried, end_of, serve};
use std::alloc::Global;
use tcf_wires::{WireRefusal, Wires};

/// Listens on the address, and serves an agent whose processes are started from these images. In each of the turns, of
/// which there are 1 to 1,000,000,000, one event is taken and goes to the agent; all messages that can be taken are
/// taken; then what is queued is put, one put a wire, in rising order of the channels.
///
/// Behind the wires stands an agent: what they take of each is a front of what some calls of a new one gave out on its channel,
/// which is what a legal history tells it.
///
/// Where 64 channels are live, a further connection gets the end of the stream and is shut. A wire is shut once nothing
/// is left to put after its channel's end. What a wire doesn't take is put first after the next event; what is queued
/// for a wire that is lost is dropped, and the agent learns of it by an event alone.
pub fn serve_agent<W: Wires>(
    alloc: Global,
    wires: &mut W,
    address: &str,
    turns: u32,
    images: Vec<Image>,
) -> ServeEnd
    ensures serves { Makes (ServesAgent images.items address.now turns result)
        (W.seen wires.old) (W.seen wires.new) }
    ensures fault { result ≡ ServeEnd.WireFault → Rose (W.seen wires.old).faults (W.seen wires.new).faults }
{
    end_of(try_serve(alloc, wires, address, turns, images))
}

fn try_serve<W: Wires>(
    alloc: Global,
    wires: &mut W,
    address: &str,
    turns: u32,
    images: Vec<Image>,
) -> Result<ServeEnd, WireRefusal>
    ensures serves { Makes (ServesAgent images.items address.now turns (end_of result))
        (W.seen wires.old) (W.seen wires.new) }
    ensures fault { end_of result ≡ ServeEnd.WireFault → Rose (W.seen wires.old).faults (W.seen wires.new).faults }
{
    each_wire_is_carried();
    let mut serving = Serving::new(alloc, images)?;
    let mut sending = Sending::new(alloc);
    wires.listen(address)?;
    serve(&mut serving, &mut sending, wires, turns)
}
