//! The run of `agent`: it is served, and the number of the events that it took is printed.
ghost use Rattle.agent_serving.specs.Serve.{ServesAgent};
ghost use Rattle.serving_wires.specs.Calls.{Makes};
ghost use Rattle.tcf_app.specs.Exit.{TellsFault};
ghost use Rattle.tcf_app.specs.Ending.{EndsIn, IsServedEnding};

use crate::exit::Exit;
use crate::serving::report_serving;
use agent_serving::{Image, serve_agent};
use std::alloc::Global;
use tcf_outside::Sink;
use tcf_wires::Wires;

/// Serves an agent with these images, and puts how many events it took.
pub(crate) fn serve_images<S: Sink, W: Wires>(
    alloc: Global,
    address: &str,
    turns: u32,
    images: Vec<Image>,
    out: &mut S,
    wires: &mut W,
) -> Exit
    ensures ends { Makes (λ calls. EndsIn (IsServedEnding (ServesAgent images.items address.now turns) turns calls) result
        (S.seen out.old) (S.seen out.new)) (W.seen wires.old) (W.seen wires.new) }
    ensures fault { TellsFault result (S.seen out.old) (S.seen out.new) }
{
    let end = serve_agent(alloc, wires, address, turns, images);
    report_serving(alloc, end, turns, out)
}
