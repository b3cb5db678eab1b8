//! The run of `value`: value-adds are served, and the number of the events that they took is printed.
ghost use Rattle.serving_wires.specs.Calls.{Makes};
ghost use Rattle.value_serving.specs.Serve.{ServesValueAdds};
ghost use Rattle.tcf_app.specs.Exit.{TellsFault};
ghost use Rattle.tcf_app.specs.Ending.{EndsIn, IsServedEnding};

use crate::exit::Exit;
use crate::serving::report_serving;
use std::alloc::Global;
use tcf_outside::Sink;
use tcf_wires::Wires;
use value_serving::serve_value;

/// Serves value-adds of this peer, and puts how many events they took.
pub(crate) fn serve_adds<S: Sink, W: Wires>(
    alloc: Global,
    address: &str,
    peer: &str,
    turns: u32,
    out: &mut S,
    wires: &mut W,
) -> Exit
    ensures ends { Makes (λ calls. EndsIn (IsServedEnding (ServesValueAdds peer.now address.now turns) turns calls) result
        (S.seen out.old) (S.seen out.new)) (W.seen wires.old) (W.seen wires.new) }
    ensures fault { TellsFault result (S.seen out.old) (S.seen out.new) }
{
    let end = serve_value(alloc, wires, address, peer, turns);
    report_serving(alloc, end, turns, out)
}
