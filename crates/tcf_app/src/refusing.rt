//! The ends of runs that refuse something, or that the outside fails.
ghost use Rattle.std.specs.Prelude.{◌<◌, ◌^◌};
ghost use Rattle.tcf_app.specs.Exit.{TellsFault};
ghost use Rattle.tcf_app.specs.Reading.{HasRoom};
ghost use Rattle.tcf_app.specs.Ending.{Ends, EndsUnread, usage_ending, fault_ending, long_ending, wire_ending, bad_ending};

use crate::exit::Exit;
use crate::finish::{finish, finish_made};
use crate::lines::{bad_line, too_long};
use crate::reading::Unread;
use std::alloc::Global;
use tcf_outside::Sink;
use tcf_schedules::TextFault;

/// The words that the program knows.
const USAGE: &[u8] =
    b"usage: tcf chain FILE | show FILE | load NUMBER | agent ADDRESS TURNS [NAME=FILE ..] | value ADDRESS PEER TURNS | client ADDRESS SCRIPT TURNS | hub ADDRESS PEER TURNS | journal FILE NAME | check FILE\n";

/// Ends a run whose words are none of the forms.
#[tactic(auto, unfolding(crate::specs::Texts::usage_text))]
pub(crate) fn refuse_words<S: Sink>(out: &mut S) -> Exit
    ensures ends { Ends usage_ending result (S.seen out.old) (S.seen out.new) }
    ensures fault { TellsFault result (S.seen out.old) (S.seen out.new) }
{
    finish(out, USAGE, Exit::Usage)
}

/// Ends a run of which this word names a file that has more bytes than the limit.
fn refuse_length<S: Sink>(alloc: Global, word: u64, out: &mut S) -> Exit
    ensures ends { Ends (long_ending word) result (S.seen out.old) (S.seen out.new) }
    ensures fault { TellsFault result (S.seen out.old) (S.seen out.new) }
{
    finish_made(out, too_long(alloc, word), Exit::TooLong { word })
}

/// Ends a run whose file could not be read.
#[tactic(auto, unfolding(crate::specs::Texts::file_fault_text))]
fn report_file_fault<S: Sink>(out: &mut S) -> Exit
    ensures ends { Ends fault_ending result (S.seen out.old) (S.seen out.new) }
    ensures fault { TellsFault result (S.seen out.old) (S.seen out.new) }
{
    finish(out, b"file fault\n", Exit::FileFault)
}

/// Ends a run whose files weren't all read whole, of which the word at this place names the first.
pub(crate) fn refuse_unread<S: Sink>(alloc: Global, place: u64, unread: Unread, out: &mut S) -> Exit
    requires place { place < 2 ^ 63 }
    requires room { HasRoom unread }
    ensures ends { EndsUnread place unread result (S.seen out.old) (S.seen out.new) }
    ensures fault { TellsFault result (S.seen out.old) (S.seen out.new) }
{
    match unread {
        Unread::Longer(count) => refuse_length(alloc, place + count as u64, out),
        Unread::Failed(_) => report_file_fault(out),
        Unread::NoMemory => Exit::NoMemory,
    }
}

/// Ends a run of which this is the first bad line of a file.
pub(crate) fn refuse_line<S: Sink>(alloc: Global, line: u64, what: TextFault, out: &mut S) -> Exit
    ensures ends { Ends (bad_ending (record { line = line; what = what })) result (S.seen out.old) (S.seen out.new) }
    ensures fault { TellsFault result (S.seen out.old) (S.seen out.new) }
{
    finish_made(
        out,
        bad_line(alloc, line, what),
        Exit::BadText { line, what },
    )
}

/// Ends a run whose wires failed, or that has none.
#[tactic(auto, unfolding(crate::specs::Texts::wire_fault_text))]
pub fn report_wire_fault<S: Sink>(out: &mut S) -> Exit
    ensures ends { Ends wire_ending result (S.seen out.old) (S.seen out.new) }
    ensures fault { TellsFault result (S.seen out.old) (S.seen out.new) }
{
    finish(out, b"wire fault\n", Exit::WireFault)
}
