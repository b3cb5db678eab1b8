//! The run of `hub`: a hub is served, and the number of the events that it took is printed.
ghost use Rattle.hub_serving.specs.Serve.{ServesHub};
ghost use Rattle.serving_wires.specs.Calls.{Makes};
ghost use Rattle.tcf_app.specs.Exit.{TellsFault};
ghost use Rattle.tcf_app.specs.Ending.{EndsIn, IsServedEnding};

use crate::exit::Exit;
use crate::serving::report_serving;
use hub_serving::serve_hub;
use std::alloc::Global;
use tcf_outside::Sink;
use tcf_wires::Wires;

/// Serves a hub that connects to this peer, and puts how many events it took.
pub(crate) fn serve_peers<S: Sink, W: Wires>(
    alloc: Global,
    address: &str,
    peer: &str,
    turns: u32,
    out: &mut S,
    wires: &mut W,
) -> Exit
    ensures ends { Makes (λ calls. EndsIn (IsServedEnding (ServesHub peer.now address.now turns) turns calls) result
        (S.seen out.old) (S.seen out.new)) (W.seen wires.old) (W.seen wires.new) }
    ensures fault { TellsFault result (S.seen out.old) (S.seen out.new) }
{
    let end = serve_hub(alloc, wires, address, peer, turns);
    report_serving(alloc, end, turns, out)
}
