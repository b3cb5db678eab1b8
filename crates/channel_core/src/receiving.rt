//! What comes: messages enter the inbox, and flow control is heard at once.
ghost use Rattle.std.specs.Prelude.{◌≡◌, ◌≢◌, true, false, Err, Some, OnErr, OnOk};
ghost use Rattle.channel_core.specs.EndValue.{unless_spent};
ghost use Rattle.tcf_message.specs.Message.{reading};
ghost use Rattle.channel_core.specs.Closing.{is_closed};
ghost use Rattle.channel_core.specs.Holding.{let_out, released};
ghost use Rattle.channel_core.specs.Heard.{kind_of};
ghost use Rattle.channel_core.specs.Receiving.{came_by, delivered, ended, entered, heard, item_came, is_over, stopped_by, with_last};

use crate::end::End;
use crate::held::{Arrived, Incoming};
use crate::states::{Cause, Reason};
use std::alloc::AllocError;
use stream_escape::{Item, StreamFault};
use tcf_message::{Message, MessageFault, read};
use tcf_outside::Octets;

/// What a message is to the end that it comes to.
pub enum Heard {
    /// Flow control, with the level that the other side tells.
    Level(i8),
    /// Another message.
    Message,
    /// No message.
    Bad(MessageFault),
}

fn kind_of(raw: &[u8]) -> Heard
    ensures { result ≡ kind_of (reading raw.now) }
{
    match read(raw) {
        Ok(Message::Flow { level }) => Heard::Level(level),
        Ok(_) => Heard::Message,
        Err(fault) => Heard::Bad(fault),
    }
}

impl<T: Drop> End<T> {
    /// Enters the end of the stream, unless a last entry has come; what has partly come is dropped.
    pub fn ended(&mut self)
        ensures { self.new ≡ unless_spent self.old self.old (ended self.old) }
    {
        if !self.spent && !self.is_over() {
            self.enter_last(Cause::Ended);
        }
    }

    /// Whether all that comes is ignored.
    fn is_over(&self) -> bool
        ensures { result ≡ is_over self.now }
    {
        self.state.is_closed() || self.stop.is_some()
    }

    /// Feeds the stream the next piece, and puts the messages that end in it into the inbox, each with this mark. Flow
    /// control is heard at once. A message outside the grammar, the end of the stream and a fault of the stream are the
    /// last entry, and what comes behind it is ignored, as it is on a closed end.
    #[tactic(auto, using(crate::proofs::Usable::delivered_kept))]
    pub fn deliver(&mut self, piece: &[u8], mark: Option<u64>) -> Result<(), AllocError>
        ensures delivered { OnOk result (self.new ≡ delivered piece.now mark self.old) }
        ensures memory { OnOk result (self.old.stream.fault ≢ Some StreamFault.NoMemory) }
        ensures usable { OnOk result (self.new.is_spent ≡ false) }
        ensures fresh { OnOk result (self.old.is_spent ≡ false) }
        ensures spent { OnErr result (self.new.is_spent ≡ true) }
    {
        if self.spent {
            return Err(AllocError);
        }
        let answer = self.take_in(piece, mark);
        if answer.is_err() {
            self.spent = true;
        }
        answer
    }

    fn take_in(&mut self, piece: &[u8], mark: Option<u64>) -> Result<(), AllocError>
        ensures delivered { OnOk result (self.new ≡ delivered piece.now mark self.old) }
        ensures memory { OnOk result (self.old.stream.fault ≢ Some StreamFault.NoMemory) }
    {
        let mut items = Vec::new(self.alloc);
        let answer = self.stream.feed(piece, &mut items);
        for item in items {
            if !self.is_over() {
                self.come(item, mark)?;
            }
        }
        self.heed(answer)
    }

    /// The stream's fault is the last entry; want of memory is none of its faults.
    fn heed(&mut self, answer: Result<(), StreamFault>) -> Result<(), AllocError>
        ensures stopped { OnOk result (self.new ≡ stopped_by answer self.old) }
        ensures memory { OnOk result (answer ≢ Err StreamFault.NoMemory) }
    {
        match answer {
            Ok(()) => Ok(()),
            Err(StreamFault::NoMemory) => Err(AllocError),
            Err(fault) => {
                self.stop_at(fault);
                Ok(())
            }
        }
    }

    fn come(&mut self, item: Item, mark: Option<u64>) -> Result<(), AllocError>
        requires { is_over self.old ≡ false }
        ensures { OnOk result (self.new ≡ item_came mark item self.old) }
    {
        match item {
            Item::Message(raw) => {
                self.came = self.came.saturating_add(1);
                self.hear(raw, mark)
            }
            Item::End => {
                self.enter_last(Cause::Eos);
                Ok(())
            }
        }
    }

    /// A message that is counted already.
    fn hear(&mut self, raw: Octets, mark: Option<u64>) -> Result<(), AllocError>
        requires { is_closed self.old.state ≡ false }
        ensures { OnOk result (self.new ≡ heard raw mark (reading raw) self.old) }
    {
        match kind_of(raw.as_slice()) {
            Heard::Level(level) => {
                self.told = level;
                self.release()
            }
            Heard::Message => {
                self.inbox.push_back(Arrived {
                    number: self.came,
                    incoming: Incoming { raw, mark },
                })?;
                self.tell_level()
            }
            Heard::Bad(fault) => {
                self.enter_last(Cause::Protocol {
                    message: self.came,
                    reason: Reason::Grammar(fault),
                });
                Ok(())
            }
        }
    }

    fn stop_at(&mut self, fault: StreamFault)
        ensures { self.new ≡ stopped_by (Err fault) self.old }
    {
        if !self.is_over() {
            self.enter_last(Cause::Stream(fault));
        }
    }

    /// What is held goes out, where it may.
    pub(crate) fn release(&mut self) -> Result<(), AllocError>
        requires { is_closed self.old.state ≡ false }
        ensures { OnOk result (self.new ≡ released self.old) }
    {
        if self.is_free() {
            self.let_out()
        } else {
            Ok(())
        }
    }

    /// What is held goes out in order, up to and with the first redirect.
    #[tactic(auto, using(crate::proofs::HeldTokens::rising_rest, crate::proofs::HeldTokens::within_rest))]
    fn let_out(&mut self) -> Result<(), AllocError>
        requires { is_closed self.old.state ≡ false }
        ensures { OnOk result (self.new ≡ let_out self.old.held self.old) }
    {
        while let Some(held) = self.held.pop_front() {
            let is_redirect = held.is_redirect;
            self.send_out(held)?;
            if is_redirect {
                return Ok(());
            }
        }
        Ok(())
    }

    fn enter_last(&mut self, cause: Cause)
        requires { is_closed self.old.state ≡ false }
        ensures { self.new ≡ with_last cause self.old }
    {
        self.stop = Some(cause);
    }
}
