//! Commands, answers and events are sent.
ghost use Rattle.std.specs.Prelude.{◌≡◌, ◌≢◌, ◌+◌, ◌++◌, ◌∷◌, [], ◌≤◌, Some, None, true, false, decimal, length, nat_lt, IfErr, IfOk, IfSome, OnErr, OnOk};
ghost use Rattle.tcf_message.specs.Message.{HasNoZero, IsToken, IsWellFormed, event, final, most_body, not_known, progress, value_of};
ghost use Rattle.channel_core.specs.Closing.{is_closed};
ghost use Rattle.channel_core.specs.Holding.{is_free, is_live, sent_out};
ghost use Rattle.channel_core.specs.Sending.{accepted, commanded, made, queued, refusal_to, sent_or_held};
ghost use Rattle.channel_core.specs.Wire.{is_redirect, redirect_name, locator};

use crate::end::{End, frame};
use crate::held::Held;
use crate::states::EndState;
use std::alloc::{AllocError, Global};
use tcf_message::{BODY_LIMIT, Message, decimal_token};
use tcf_outside::Octets;

/// How many commands can be pending, those that are held among them.
const MOST_PENDING: usize = 1024;

/// Why a command isn't accepted.
#[derive(Clone, Copy, Debug, PartialEq, Eq)]
pub enum SendRefusal {
    /// 1,024 commands are pending.
    Full,
    /// The end is closed.
    NotOpen,
    /// Service, name and data have more than 1,048,576 bytes together.
    TooLong,
    /// The last token was 2^64 - 1.
    Spent,
    /// Memory is wanting, in this call or in an earlier one.
    NoMemory,
}

/// A command that isn't accepted, with its tag.
#[derive(Drop)]
pub struct Refused<T> {
    /// The tag that the caller gave.
    pub tag: T,
    /// The first refusal that is due.
    pub why: SendRefusal,
}

#[tactic(auto, unfolding(crate::specs::Wire::locator, crate::specs::Wire::redirect_name))]
fn is_redirect(service: &[u8], name: &[u8]) -> bool
    ensures { result ≡ is_redirect service.now name.now }
{
    service == b"Locator".as_slice() && name == b"redirect".as_slice()
}

/// Whether service, name and data of so many bytes have more than the limit together.
fn is_too_long(service: usize, name: usize, body: usize) -> bool
    ensures { result ≡ nat_lt most_body (service + name + body) }
{
    service > BODY_LIMIT || name > BODY_LIMIT - service || body > BODY_LIMIT - service - name
}

/// The token of a number: its decimal digits.
fn token_of(alloc: Global, number: u64) -> Result<Octets, AllocError>
    ensures digits { IfOk result (λ token. token ≡ decimal number) }
    ensures formed { IfOk result (λ token. IsToken token) }
{
    // A law, which does nothing: the digits are a token.
    decimal_token();
    let digits = format!(in alloc; "{number}")?;
    Octets::from_slice(alloc, digits.as_bytes())
}

/// A command under its token, as it is sent.
fn held_command(
    alloc: Global,
    token: u64,
    service: &[u8],
    name: &[u8],
    body: &[u8],
    mark: Option<u64>,
) -> Result<Held, AllocError>
    requires service { HasNoZero service.now }
    requires name { HasNoZero name.now }
    requires size { length service.now + length name.now + length body.now ≤ most_body }
    ensures { IfOk result (λ held. held ≡ made token service.now name.now body.now mark) }
{
    let text = token_of(alloc, token)?;
    let message = Message::Command {
        token: text.as_slice(),
        service,
        name,
        body,
    };
    Ok(Held {
        token,
        is_redirect: is_redirect(service, name),
        outgoing: frame(alloc, &message, mark)?,
    })
}

impl<T: Drop> End<T> {
    /// Sends a command, and answers its token, a number from 1 to 2^64 - 1. Before the Hello, after a redirect and under a
    /// level above 0 it is held. Service and name have no zero, and with the data 1,048,576 bytes at most. A refused command changes nothing, but for want of memory, after which the end is spent. A refusal that is due is
    /// answered whatever the memory, unless the end is spent.
    pub fn send_command(
        &mut self,
        service: &[u8],
        name: &[u8],
        body: &[u8],
        tag: T,
        mark: Option<u64>,
    ) -> Result<u64, Refused<T>>
        requires service { HasNoZero service.now }
        requires name { HasNoZero name.now }
        ensures sent { OnOk result (self.new ≡ commanded service.now name.now body.now tag mark self.old) }
        ensures token { IfOk result (λ token. token ≡ self.old.last + 1) }
        ensures free { OnOk result (refusal_to service.now name.now body.now self.old ≡ None) }
        ensures tag { IfErr result (λ refused. refused.tag ≡ tag) }
        ensures refused { self.old.is_spent ≡ false
            → IfSome (refusal_to service.now name.now body.now self.old) (λ why. IfErr result (λ refused. refused.why ≡ why)) }
        ensures due { IfErr result (λ refused. refused.why ≢ SendRefusal.NoMemory → refusal_to service.now name.now body.now self.old ≡ Some refused.why) }
        ensures kept { IfErr result (λ refused. refused.why ≢ SendRefusal.NoMemory → self.new ≡ self.old) }
        ensures usable { OnOk result (self.new.is_spent ≡ false) }
        ensures fresh { OnOk result (self.old.is_spent ≡ false) }
        ensures spent { IfErr result (λ refused. refused.why ≡ SendRefusal.NoMemory → self.new.is_spent ≡ true) }
    {
        if self.spent {
            return Err(Refused {
                tag,
                why: SendRefusal::NoMemory,
            });
        }
        let answer = self.command(service, name, body, tag, mark);
        if let Err(
            Refused {
                why: SendRefusal::NoMemory,
                ..
            },
        ) = &answer
        {
            self.spent = true;
        }
        answer
    }

    fn command(
        &mut self,
        service: &[u8],
        name: &[u8],
        body: &[u8],
        tag: T,
        mark: Option<u64>,
    ) -> Result<u64, Refused<T>>
        requires service { HasNoZero service.now }
        requires name { HasNoZero name.now }
        ensures sent { OnOk result (self.new ≡ commanded service.now name.now body.now tag mark self.old) }
        ensures token { IfOk result (λ token. token ≡ self.old.last + 1) }
        ensures free { OnOk result (refusal_to service.now name.now body.now self.old ≡ None) }
        ensures tag { IfErr result (λ refused. refused.tag ≡ tag) }
        ensures refused { IfSome (refusal_to service.now name.now body.now self.old) (λ why. IfErr result (λ refused. refused.why ≡ why)) }
        ensures due { IfErr result (λ refused. refused.why ≢ SendRefusal.NoMemory → refusal_to service.now name.now body.now self.old ≡ Some refused.why) }
        ensures kept { IfErr result (λ refused. refused.why ≢ SendRefusal.NoMemory → self.new ≡ self.old) }
    {
        if let Some(why) = self.refusal(service, name, body) {
            return Err(Refused { tag, why });
        }
        match held_command(self.alloc, self.last + 1, service, name, body, mark) {
            Ok(held) => self.accept(held, tag),
            Err(AllocError) => Err(Refused {
                tag,
                why: SendRefusal::NoMemory,
            }),
        }
    }

    /// The first refusal that is due.
    fn refusal(&self, service: &[u8], name: &[u8], body: &[u8]) -> Option<SendRefusal>
        ensures { result ≡ refusal_to service.now name.now body.now self.now }
    {
        if self.state.is_closed() {
            Some(SendRefusal::NotOpen)
        } else if is_too_long(service.len(), name.len(), body.len()) {
            Some(SendRefusal::TooLong)
        } else if self.pending.len() >= MOST_PENDING {
            Some(SendRefusal::Full)
        } else if self.last == u64::MAX {
            Some(SendRefusal::Spent)
        } else {
            None
        }
    }

    /// A command that is accepted goes out, or is held.
    fn accept(&mut self, held: Held, tag: T) -> Result<u64, Refused<T>>
        requires open { is_closed self.old.state ≡ false }
        requires next { held.token ≡ self.old.last + 1 }
        ensures sent { OnOk result (self.new ≡ accepted held tag (sent_or_held held self.old)) }
        ensures token { IfOk result (λ token. token ≡ held.token) }
        ensures tag { IfErr result (λ refused. refused.tag ≡ tag) }
        ensures memory { IfErr result (λ refused. refused.why ≡ SendRefusal.NoMemory) }
    {
        let token = held.token;
        if self.put(held).is_err() {
            return Err(Refused {
                tag,
                why: SendRefusal::NoMemory,
            });
        }
        match self.remember(token, tag) {
            Ok(()) => Ok(token),
            Err(tag) => Err(Refused {
                tag,
                why: SendRefusal::NoMemory,
            }),
        }
    }

    /// The command with this token is pending; without memory its tag comes back.
    #[tactic(auto, using(crate::proofs::Naming::issued_more, crate::proofs::Naming::next_unissued, crate::proofs::HeldTokens::within_next))]
    fn remember(&mut self, token: u64, tag: T) -> Result<(), T>
        requires { token ≡ self.old.last + 1 }
        ensures pending { OnOk result (self.new ≡ record self.old { last = token; pending = self.old.pending ++ (token, tag) ∷ [] }) }
        ensures tag { IfErr result (λ back. back ≡ tag) }
    {
        match self.pending.issue(token, tag) {
            Ok(()) => {
                self.last = token;
                Ok(())
            }
            // For want of memory: that there are fewer than 1,024 was seen before the command was made.
            Err((tag, _)) => Err(tag),
        }
    }

    #[tactic(auto, using(crate::proofs::HeldTokens::rising_more, crate::proofs::HeldTokens::within_more))]
    fn put(&mut self, held: Held) -> Result<(), AllocError>
        requires open { is_closed self.old.state ≡ false }
        requires next { held.token ≡ self.old.last + 1 }
        ensures { OnOk result (self.new ≡ sent_or_held held self.old) }
    {
        if self.is_free() {
            self.send_out(held)
        } else {
            self.held.push_back(held)?;
            Ok(())
        }
    }

    /// Whether commands go out.
    pub(crate) fn is_free(&self) -> bool
        ensures { result ≡ is_free self.now }
    {
        self.state.is_live() && self.told <= 0
    }

    /// A command goes out; after a redirect the end is Reopening.
    pub(crate) fn send_out(&mut self, held: Held) -> Result<(), AllocError>
        requires { is_closed self.old.state ≡ false }
        ensures { OnOk result (self.new ≡ sent_out held self.old) }
    {
        self.queued.push_back(held.outgoing)?;
        if held.is_redirect {
            self.state = EndState::Reopening;
            self.redirect = Some(held.token);
        }
        Ok(())
    }

    /// Sends the final result of the other side's command with this token. A closed end does nothing. The token has 1 to
    /// 255 bytes and no zero, and the data has 1,048,576 bytes at most.
    pub fn send_answer(
        &mut self,
        token: &[u8],
        body: &[u8],
        mark: Option<u64>,
    ) -> Result<(), AllocError>
        requires { IsWellFormed (final token.now body.now) }
        ensures sent { OnOk result (self.new ≡ queued (final token.now body.now) mark self.old) }
        ensures usable { OnOk result (self.new.is_spent ≡ false) }
        ensures fresh { OnOk result (self.old.is_spent ≡ false) }
        ensures spent { OnErr result (self.new.is_spent ≡ true) }
    {
        self.send(&Message::Result { token, body }, mark)
    }

    /// Sends progress of the other side's command with this token. A closed end does nothing. The token has 1 to 255 bytes
    /// and no zero, and the data has 1,048,576 bytes at most.
    pub fn send_progress(
        &mut self,
        token: &[u8],
        body: &[u8],
        mark: Option<u64>,
    ) -> Result<(), AllocError>
        requires { IsWellFormed (progress token.now body.now) }
        ensures sent { OnOk result (self.new ≡ queued (progress token.now body.now) mark self.old) }
        ensures usable { OnOk result (self.new.is_spent ≡ false) }
        ensures fresh { OnOk result (self.old.is_spent ≡ false) }
        ensures spent { OnErr result (self.new.is_spent ≡ true) }
    {
        self.send(&Message::Progress { token, body }, mark)
    }

    /// Tells that the other side's command with this token isn't recognised. A closed end does nothing. The token has 1 to
    /// 255 bytes and no zero.
    pub fn send_unknown(&mut self, token: &[u8], mark: Option<u64>) -> Result<(), AllocError>
        requires { IsWellFormed (not_known token.now) }
        ensures sent { OnOk result (self.new ≡ queued (not_known token.now) mark self.old) }
        ensures usable { OnOk result (self.new.is_spent ≡ false) }
        ensures fresh { OnOk result (self.old.is_spent ≡ false) }
        ensures spent { OnErr result (self.new.is_spent ≡ true) }
    {
        self.send(&Message::NotKnown { token }, mark)
    }

    /// Sends an event. A closed end does nothing. Service and name have no zero, and with the data 1,048,576 bytes at most.
    pub fn send_event(
        &mut self,
        service: &[u8],
        name: &[u8],
        body: &[u8],
        mark: Option<u64>,
    ) -> Result<(), AllocError>
        requires { IsWellFormed (event service.now name.now body.now) }
        ensures sent { OnOk result (self.new ≡ queued (event service.now name.now body.now) mark self.old) }
        ensures usable { OnOk result (self.new.is_spent ≡ false) }
        ensures fresh { OnOk result (self.old.is_spent ≡ false) }
        ensures spent { OnErr result (self.new.is_spent ≡ true) }
    {
        self.send(
            &Message::Event {
                service,
                name,
                body,
            },
            mark,
        )
    }

    #[tactic(auto, using(crate::proofs::Usable::queued_kept))]
    fn send(&mut self, message: &Message<'_>, mark: Option<u64>) -> Result<(), AllocError>
        requires { IsWellFormed (value_of message.now) }
        ensures sent { OnOk result (self.new ≡ queued (value_of message.now) mark self.old) }
        ensures usable { OnOk result (self.new.is_spent ≡ false) }
        ensures fresh { OnOk result (self.old.is_spent ≡ false) }
        ensures spent { OnErr result (self.new.is_spent ≡ true) }
    {
        if self.spent {
            return Err(AllocError);
        }
        if self.state.is_closed() {
            return Ok(());
        }
        let answer = self.queue(message, mark);
        if answer.is_err() {
            self.spent = true;
        }
        answer
    }
}

impl EndState {
    fn is_live(self) -> bool
        ensures { result ≡ is_live self }
    {
        match self {
            EndState::Live => true,
            EndState::Opening | EndState::Reopening | EndState::Closed(_) => false,
        }
    }
}
