//! The line that sums up a chain's log.
#![tactic(auto, using(crate::proofs::Growth::grows_later))]

ghost use Rattle.std.specs.Prelude.{◌≡◌, ◌++◌, count_by, OnOk, OnErr};
ghost use Rattle.tcf_text.specs.Log.{sent_word, result_word, unknown_word, closed_word, event_word, Grows};
ghost use Rattle.load_schedules.specs.Summary.{is_sent, is_result, is_unknown, is_closed, is_event, counted, summary_line};

use itoa::Buffer;
use std::alloc::AllocError;
use tcf_outside::Octets;
use tcf_text::LogLine;

/// Appends a word and a number, each behind a blank.
fn push_count(word: &[u8], count: usize, out: &mut Octets) -> Result<(), AllocError>
    ensures ok { OnOk result (out.new ≡ out.old ++ counted word.now count) }
    ensures err { OnErr result (Grows out.old out.new) }
{
    out.push(b' ')?;
    out.extend(word)?;
    out.push(b' ')?;
    out.extend(Buffer::new().format(count).as_bytes())
}

#[tactic(auto, using(crate::proofs::Growth::grows_later), unfolding(tcf_text::specs::Log::sent_word))]
fn push_sent(log: &[LogLine], out: &mut Octets) -> Result<(), AllocError>
    ensures ok { OnOk result (out.new ≡ out.old ++ counted sent_word (count_by is_sent log.now)) }
    ensures err { OnErr result (Grows out.old out.new) }
{
    let count = log
        .iter()
        .filter(|line| matches!(line, LogLine::Sent { .. }))
        .count();
    push_count(b"sent", count, out)
}

#[tactic(auto, using(crate::proofs::Growth::grows_later), unfolding(tcf_text::specs::Log::result_word))]
fn push_results(log: &[LogLine], out: &mut Octets) -> Result<(), AllocError>
    ensures ok { OnOk result (out.new ≡ out.old ++ counted result_word (count_by is_result log.now)) }
    ensures err { OnErr result (Grows out.old out.new) }
{
    let count = log
        .iter()
        .filter(|line| matches!(line, LogLine::Final { .. }))
        .count();
    push_count(b"result", count, out)
}

#[tactic(auto, using(crate::proofs::Growth::grows_later), unfolding(tcf_text::specs::Log::unknown_word))]
fn push_unknown(log: &[LogLine], out: &mut Octets) -> Result<(), AllocError>
    ensures ok { OnOk result (out.new ≡ out.old ++ counted unknown_word (count_by is_unknown log.now)) }
    ensures err { OnErr result (Grows out.old out.new) }
{
    let count = log
        .iter()
        .filter(|line| matches!(line, LogLine::Unknown { .. }))
        .count();
    push_count(b"unknown", count, out)
}

#[tactic(auto, using(crate::proofs::Growth::grows_later), unfolding(tcf_text::specs::Log::closed_word))]
fn push_closed(log: &[LogLine], out: &mut Octets) -> Result<(), AllocError>
    ensures ok { OnOk result (out.new ≡ out.old ++ counted closed_word (count_by is_closed log.now)) }
    ensures err { OnErr result (Grows out.old out.new) }
{
    let count = log
        .iter()
        .filter(|line| matches!(line, LogLine::Closed { .. }))
        .count();
    push_count(b"closed", count, out)
}

#[tactic(auto, using(crate::proofs::Growth::grows_later), unfolding(tcf_text::specs::Log::event_word))]
fn push_events(log: &[LogLine], out: &mut Octets) -> Result<(), AllocError>
    ensures ok { OnOk result (out.new ≡ out.old ++ counted event_word (count_by is_event log.now)) }
    ensures err { OnErr result (Grows out.old out.new) }
{
    let count = log
        .iter()
        .filter(|line| matches!(line, LogLine::Event { .. }))
        .count();
    push_count(b"event", count, out)
}

/// Appends the line of this name and this log.
fn push_summary(name: &[u8], log: &[LogLine], out: &mut Octets) -> Result<(), AllocError>
    ensures ok { OnOk result (out.new ≡ out.old ++ summary_line name.now log.now) }
    ensures err { OnErr result (Grows out.old out.new) }
{
    out.extend(name)?;
    push_sent(log, out)?;
    push_results(log, out)?;
    push_unknown(log, out)?;
    push_closed(log, out)?;
    push_events(log, out)?;
    out.push(b'\n')
}

/// Appends the line that sums up the log of the chain of this name, `NAME sent N result N unknown N closed N event N`,
/// with how many such lines the log has, and the byte that ends it. A Hello is no event here. Where memory runs out
/// nothing is appended.
#[tactic(auto, using(tcf_text::proofs::Growth::taken_back))]
pub fn write_summary(name: &[u8], log: &[LogLine], out: &mut Octets) -> Result<(), AllocError>
    ensures ok { OnOk result (out.new ≡ out.old ++ summary_line name.now log.now) }
    ensures err { OnErr result (out.new ≡ out.old) }
{
    let length = out.len();
    if let Err(error) = push_summary(name, log, out) {
        out.truncate(length);
        return Err(error);
    }
    Ok(())
}
