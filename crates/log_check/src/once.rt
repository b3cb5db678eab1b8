//! Whether commands are numbered as they are sent, and each is answered once.
ghost use Rattle.std.specs.Prelude.{◌≡◌, ◌+◌, ◌↔◌, ◌||◌, ◌&&◌, ◌==◌, ℕ, IfOk, OnOk, false, true, None};
ghost use Rattle.tcf_text.specs.Once.{CanStandAfterEnd, Once, is_end};
ghost use Rattle.log_check.specs.Asked.{CanFollow, CanStand, IsAskedFor, IsCounted, IsNoted, IsUnasked, closed_by, is_asked};

use crate::channel::first_line;
use crate::sets::{forget, has, has_none, see};
use std::alloc::{AllocError, Global};
use std::collections::BTreeSet;
use tcf_text::{LogLine, RefusedWhy};

/// What the lines so far said of commands.
#[derive(Drop)]
struct Asked {
    /// How many were sent.
    sent: u64,
    /// The numbers of those that have no final answer.
    pending: BTreeSet<u64>,
    /// Whether the channel ended.
    ended: bool,
    /// The number of the last line, where that says that the channel closed while its command was pending.
    closed: Option<u64>,
}

/// Whether the line tells of the channel's end.
fn is_end(line: &LogLine) -> bool
    ensures { result ≡ is_end line.now }
{
    match line {
        LogLine::Ended(_) => true,
        _ => false,
    }
}

/// The number of the command of which the line says that the channel closed while it was pending.
fn closed_by(line: &LogLine) -> Option<u64>
    ensures { result ≡ closed_by line.now }
{
    match line {
        LogLine::Closed { number } => Some(*number),
        _ => None,
    }
}

/// Whether the line can stand behind the end of the channel.
fn can_stand_after_end(line: &LogLine) -> bool
    ensures { (result ≡ true) ↔ CanStandAfterEnd line.now }
{
    match line {
        LogLine::Refused(RefusedWhy::NotOpen) => true,
        LogLine::Cached { .. } => true,
        _ => false,
    }
}

/// Whether the line can stand behind one that says that the channel closed with this command pending.
fn can_follow(closed: Option<u64>, line: &LogLine) -> bool
    ensures { (result ≡ true) ↔ CanFollow closed line.now }
{
    match (closed, line) {
        (None, _) => true,
        (Some(number), LogLine::Closed { number: next }) => number < *next,
        (Some(_), LogLine::Ended(_)) => true,
        (Some(_), _) => false,
    }
}

impl Asked {
    fn new(alloc: Global) -> Self
        ensures { IsUnasked result }
    {
        Asked {
            sent: 0,
            pending: BTreeSet::new(alloc),
            ended: false,
            closed: None,
        }
    }

    /// Notes that a command was sent, if it has the next number.
    fn accept(&mut self, number: u64) -> Result<bool, AllocError>
        ensures next { IfOk result (λ is. (is ≡ true) ↔ (number ≡ self.old.sent + 1)) }
        ensures sent { IfOk result (λ is. is ≡ true → self.new.sent ≡ self.old.sent + 1) }
        ensures pending { IfOk result (λ is. is ≡ true → (q : ℕ) → is_asked self.new q ≡ (is_asked self.old q || (number == q))) }
        ensures ended { self.new.ended ≡ self.old.ended }
        ensures closed { self.new.closed ≡ self.old.closed }
    {
        if number == 0 || number - 1 != self.sent {
            return Ok(false);
        }
        self.sent = number;
        see(&mut self.pending, number)?;
        Ok(true)
    }

    /// Notes what the line says of a command, if that is pending, or of all, if none is.
    #[tactic(auto, using(crate::proofs::Asking::sent_one, crate::proofs::Asking::answered_one, crate::proofs::Asking::counted_none))]
    fn count(&mut self, line: &LogLine) -> Result<bool, AllocError>
        ensures asked_for { IfOk result (λ is. (is ≡ true) ↔ IsAskedFor self.old line.now) }
        ensures counted { IfOk result (λ is. is ≡ true → IsCounted line.now self.old self.new) }
        ensures ended { self.new.ended ≡ self.old.ended }
        ensures closed { self.new.closed ≡ self.old.closed }
    {
        match line {
            LogLine::Sent { number, .. } => self.accept(*number),
            LogLine::Progress { number, .. } => Ok(has(&self.pending, *number)),
            LogLine::Final { number, .. }
            | LogLine::Unknown { number, .. }
            | LogLine::Closed { number } => Ok(forget(&mut self.pending, *number)),
            LogLine::Ended(_) => Ok(has_none(&self.pending)),
            _ => Ok(true),
        }
    }

    /// Notes the line, if it can stand behind those so far.
    #[tactic(auto, using(crate::proofs::Asking::can_stand, crate::proofs::Asking::not_after_end, crate::proofs::Asking::not_behind, crate::proofs::Asking::not_asked_for))]
    fn take(&mut self, line: &LogLine) -> Result<bool, AllocError>
        ensures stands { IfOk result (λ stands. (stands ≡ true) ↔ CanStand self.old line.now) }
        ensures noted { IfOk result (λ stands. stands ≡ true → IsNoted line.now self.old self.new) }
    {
        if self.ended && !can_stand_after_end(line) {
            return Ok(false);
        }
        if !can_follow(self.closed, line) {
            return Ok(false);
        }
        if !self.count(line)? {
            return Ok(false);
        }
        self.ended = self.ended || is_end(line);
        self.closed = closed_by(line);
        Ok(true)
    }

    /// Notes all lines, if each can stand behind those before it, and the last is none of a closed command.
    #[tactic(auto, using(crate::proofs::Onces::once_first, crate::proofs::Onces::once_next, crate::proofs::Onces::once_not, crate::proofs::Onces::once_last))]
    fn take_all(&mut self, lines: &[LogLine]) -> Result<bool, AllocError>
        requires { IsUnasked self.old }
        ensures { IfOk result (λ holds. (holds ≡ true) ↔ Once false lines.now) }
    {
        let mut left = lines;
        while let Some((line, after)) = first_line(left) {
            if !self.take(line)? {
                return Ok(false);
            }
            left = after;
        }
        Ok(self.closed.is_none())
    }
}

/// Whether the `sent` lines number the commands from 1 on, each is answered once, and the channel ends as it should.
pub(crate) fn is_once(alloc: Global, lines: &[LogLine]) -> Result<bool, AllocError>
    ensures { IfOk result (λ holds. (holds ≡ true) ↔ Once false lines.now) }
{
    let mut asked = Asked::new(alloc);
    asked.take_all(lines)
}
