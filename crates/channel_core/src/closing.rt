//! How an end closes, and what can be done with it then.
ghost use Rattle.std.specs.Prelude.{◌≡◌, drop, false, None, slice_get};
ghost use Rattle.channel_core.specs.EndValue.{unless_spent};
ghost use Rattle.channel_core.specs.Closing.{after_drain, closed_for, closed_own, drained, has_queued, is_closed, is_told};

use crate::end::End;
use crate::held::Outgoing;
use crate::states::{Cause, EndState};
use std::mem::replace;
use tcf_outside::Octets;

impl EndState {
    /// Whether that is Closed.
    pub fn is_closed(self) -> bool
        ensures { result ≡ is_closed self }
    {
        match self {
            EndState::Closed(_) => true,
            EndState::Opening | EndState::Live | EndState::Reopening => false,
        }
    }
}

impl Cause {
    /// Whether the other side is told that this end closes.
    fn is_told(self) -> bool
        ensures { result ≡ is_told self }
    {
        match self {
            Cause::Own | Cause::Protocol { .. } | Cause::Stream(_) => true,
            Cause::Eos | Cause::Ended => false,
        }
    }
}

impl<T: Drop> End<T> {
    /// Closes the end by its own side. What wasn't taken is dropped, and the end of the stream is queued behind what is
    /// queued. A closed end stays as it is.
    pub fn close(&mut self)
        ensures { self.new ≡ unless_spent self.old self.old (closed_own self.old) }
    {
        if !self.spent && !self.state.is_closed() {
            self.close_for(Cause::Own);
        }
    }

    /// Closes the end, which isn't closed yet.
    pub(crate) fn close_for(&mut self, cause: Cause)
        requires { is_closed self.old.state ≡ false }
        ensures { self.new ≡ closed_for cause self.old }
    {
        self.state = EndState::Closed(cause);
        self.inbox.clear();
        self.stop = None;
        self.is_leaving = cause.is_told();
    }

    /// Takes the first pending command of a closed end, and answers its tag; `None` exactly where none is left, or where
    /// the end isn't closed.
    #[tactic(auto, using(crate::proofs::Naming::issued_first))]
    pub fn drain(&mut self) -> Option<T>
        ensures tag { result ≡ unless_spent self.old None (drained self.old) }
        ensures after { self.new ≡ unless_spent self.old self.old (after_drain self.old) }
    {
        if self.spent || !self.state.is_closed() {
            return None;
        }
        let (_token, tag) = self.pending.take_first()?;
        Some(tag)
    }

    /// Whether something is still to be sent.
    pub fn has_queued(&self) -> bool
        ensures { result ≡ has_queued self.now }
    {
        self.is_leaving || !self.queued.is_empty()
    }

    /// Takes the next message that is to be sent, or the end of the stream, escaped; `None` exactly where nothing is
    /// queued.
    pub fn take_out(&mut self) -> Option<Outgoing>
        ensures taken { result ≡ unless_spent self.old None (slice_get self.old.queued 0) }
        ensures after { self.new ≡ unless_spent self.old self.old (record self.old { queued = drop 1 self.old.queued }) }
    {
        if self.spent {
            return None;
        }
        if let Some(outgoing) = self.queued.pop_front() {
            return Some(outgoing);
        }
        if !self.is_leaving {
            return None;
        }
        self.is_leaving = false;
        Some(Outgoing {
            bytes: replace(&mut self.ready, Octets::new(self.alloc)),
            mark: None,
        })
    }
}
