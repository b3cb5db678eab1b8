//! The end of a run that served: the number of the events that were taken is printed.
ghost use Rattle.tcf_app.specs.Exit.{TellsFault};
ghost use Rattle.tcf_app.specs.Ending.{Ends, served_ending};

use crate::exit::Exit;
use crate::finish::finish_made;
use crate::lines::turns as turns_line;
use crate::refusing::report_wire_fault;
use serving_wires::ServeEnd;
use std::alloc::Global;
use tcf_outside::Sink;

/// Puts the text of a serving that ended so, of so many turns.
pub(crate) fn report_serving<S: Sink>(alloc: Global, end: ServeEnd, turns: u32, out: &mut S) -> Exit
    ensures ends { Ends (served_ending turns end) result (S.seen out.old) (S.seen out.new) }
    ensures fault { TellsFault result (S.seen out.old) (S.seen out.new) }
{
    match end {
        ServeEnd::Stopped { events } => finish_made(out, turns_line(alloc, events), Exit::Done),
        ServeEnd::Turns => finish_made(out, turns_line(alloc, turns), Exit::Turns),
        ServeEnd::WireFault => report_wire_fault(out),
        ServeEnd::NoMemory => Exit::NoMemory,
    }
}
