//! One entry is taken from the inbox.
ghost use Rattle.std.specs.Prelude.{◌≡◌, ◌≢◌, ◌<◌, ◌≤◌, ◌^◌, ◌↔◌, ◌&&◌, ℕ, [], None, Ok, Some, true, false, decimal, bytes_eq, IfOk, IfNone, IfSome, OnErr, OnOk};
ghost use Rattle.std.specs.List.{list_any};
ghost use Rattle.channel_core.specs.Closing.{is_closed};
ghost use Rattle.channel_core.specs.Farewell.{AreRising};
ghost use Rattle.channel_core.specs.Said.{view_of};
ghost use Rattle.channel_core.specs.Wire.{hello, is_done, locator, said_by, said_in};
ghost use Rattle.tcf_message.specs.Message.{value_of};
ghost use Rattle.channel_core.specs.Naming.{AreIssued, ComesOf, finished_by, token_at};
ghost use Rattle.channel_core.specs.Taking.{answer_judged, answered, broken, closes, greeted, is_held, message_taken, next_taken, place_of, sent_at, sent_place, stop_taken, taken_as};
ghost use Rattle.link_pool.specs.Rows.{Distinct, item_at};
ghost use Rattle.channel_core.specs.Level.{leveled};
ghost use Rattle.channel_core.specs.Receiving.{waiting_in};

use crate::end::End;
use crate::held::{Arrived, Held, Incoming};
use crate::states::{Cause, EndState, Reason};
use itoa::Buffer;
use link_pool::Pending;
use std::alloc::AllocError;
use std::collections::VecDeque;
use std::str;
use tcf_message::{Message, read};

/// What was taken.
#[derive(Drop)]
pub enum Taken<T> {
    /// The other side's event Locator Hello.
    Hello(Incoming),
    Command(Incoming),
    /// Another event.
    Event(Incoming),
    /// Progress of the command with this token.
    Progress(u64, Incoming),
    /// The final answer to the command with this tag.
    Final(T, Incoming),
    /// The end closed, for this cause.
    Closed(Cause),
}

/// What a message says to its taker.
#[derive(Clone, Copy)]
pub enum Said<'a> {
    /// Locator Hello.
    Greets,
    /// Another event.
    Tells,
    /// A command.
    Asks,
    /// Progress of the command with this token.
    GoesOn(&'a [u8]),
    /// The final answer to the command with this token, and whether a redirect is done by it.
    Answers(&'a [u8], bool),
}

/// What a message is to the end that it came to.
#[derive(Clone, Copy)]
pub enum Verdict {
    /// It came before the Hello.
    TooEarly,
    /// It answers no pending command that was sent.
    Stray,
    Greets,
    Tells,
    Asks,
    /// Progress of the pending command with this token.
    GoesOn(u64),
    /// A final answer under this token, which no held command has, and whether a redirect is done by it.
    Answers(u64, bool),
}

#[tactic(auto, unfolding(crate::specs::Wire::locator, crate::specs::Wire::hello))]
fn is_hello(service: &[u8], name: &[u8]) -> bool
    ensures { result ≡ (bytes_eq service.now locator && bytes_eq name.now hello) }
{
    service == b"Locator".as_slice() && name == b"Hello".as_slice()
}

/// Whether the data of a redirect's answer says that it is done: its first part is empty or `null`.
fn is_done(body: &[u8]) -> bool
    ensures { result ≡ is_done body.now }
{
    body.starts_with(b"\0") || body.starts_with(b"null\0")
}

fn said_by<'a>(message: &Message<'a>) -> Said<'a>
    ensures { view_of result ≡ said_by (value_of message.now) }
{
    match *message {
        Message::Command { .. } => Said::Asks,
        Message::Result { token, body } => Said::Answers(token, is_done(body)),
        Message::Progress { token, .. } => Said::GoesOn(token),
        Message::NotKnown { token } => Said::Answers(token, false),
        Message::Event { service, name, .. } if is_hello(service, name) => Said::Greets,
        Message::Event { .. } | Message::Flow { .. } => Said::Tells,
    }
}

fn meaning(raw: &[u8]) -> Said<'_>
    ensures { view_of result ≡ said_in raw.now }
{
    match read(raw) {
        Ok(message) => said_by(&message),
        Err(_) => Said::Tells,
    }
}

/// Whether a token stands for this number.
fn is_named(number: u64, token: &[u8]) -> bool
    ensures { result ≡ bytes_eq token.now (decimal number) }
{
    token == Buffer::new().format(number).as_bytes()
}

/// The number whose digits these are, without a sign or a leading zero.
fn number_in(digits: &[u8]) -> Option<u64>
    ensures found { IfSome result (λ n. digits.now ≡ decimal n) }
    ensures none { IfNone result ((n : ℕ) → n < 2 ^ 64 → digits.now ≢ decimal n) }
{
    let text = match str::from_utf8(digits) {
        Ok(text) => text,
        Err(_) => return None,
    };
    match text.parse::<u64>() {
        Ok(number) if is_named(number, digits) => Some(number),
        _ => None,
    }
}

/// Whether the command with this token is held: none is whose token is below the first one's.
#[tactic(auto, using(crate::proofs::HeldTokens::none_below, crate::proofs::HeldTokens::none_held))]
fn is_held(token: u64, held: &VecDeque<Held>) -> bool
    requires { AreRising 0 held.now.items }
    ensures { result ≡ is_held token held.now.items }
{
    let Some(first) = held.front() else {
        return false;
    };
    if token < first.token {
        return false;
    }
    held.iter().any(|held| held.token == token)
}

/// The token that these digits are, where it was issued and no held command has it.
fn sent_number(digits: &[u8], last: u64, held: &VecDeque<Held>) -> Option<u64>
    requires { AreRising 0 held.now.items }
    ensures found { IfSome result (λ n. (digits.now ≡ decimal n) × (is_held n held.now.items ≡ false)) }
    ensures none { IfNone result ((n : ℕ) → n ≤ last → digits.now ≡ decimal n → is_held n held.now.items ≡ true) }
{
    let token = number_in(digits)?;
    if token > last || is_held(token, held) {
        return None;
    }
    Some(token)
}

/// The token of the pending command that these digits name, where it was sent.
#[tactic(auto, using(crate::proofs::Naming::read_names_it, crate::proofs::Naming::read_names_none, crate::proofs::Naming::unsent_names_none))]
fn sent_token<T>(
    digits: &[u8],
    pending: &Pending<T>,
    last: u64,
    held: &VecDeque<Held>,
) -> Option<u64>
    requires issued { AreIssued last pending.now }
    requires rising { AreRising 0 held.now.items }
    ensures { result ≡ token_at (sent_at (place_of digits.now pending.now) pending.now held.now.items) pending.now }
{
    let token = sent_number(digits, last, held)?;
    if pending.find(token).is_none() {
        return None;
    }
    Some(token)
}

impl<T: Drop> End<T> {
    /// Takes the oldest entry of the inbox; `None` exactly where there is none. A last entry closes the end, and so does
    /// a message other than a Hello before the Hello, and an answer to a command that isn't pending or wasn't sent yet.
    pub fn next_message(&mut self) -> Result<Option<Taken<T>>, AllocError>
        ensures taken { IfOk result (λ taken. (taken, self.new) ≡ next_taken self.old) }
        ensures nothing { IfOk result (λ taken. (taken ≡ None) ↔ (waiting_in self.old ≡ 0)) }
        ensures idle { self.old.is_spent ≡ false → waiting_in self.old ≡ 0 → result ≡ Ok None }
        ensures closed { IfOk result (λ taken. closes taken ≡ true → is_closed self.new.state ≡ true) }
        ensures usable { OnOk result (self.new.is_spent ≡ false) }
        ensures fresh { OnOk result (self.old.is_spent ≡ false) }
        ensures spent { OnErr result (self.new.is_spent ≡ true) }
    {
        if self.spent {
            return Err(AllocError);
        }
        let answer = self.take_next();
        if answer.is_err() {
            self.spent = true;
        }
        answer
    }

    fn take_next(&mut self) -> Result<Option<Taken<T>>, AllocError>
        ensures taken { IfOk result (λ taken. (taken, self.new) ≡ next_taken self.old) }
        ensures idle { self.old.inbox ≡ [] → self.old.stop ≡ None → result ≡ Ok None }
    {
        match self.inbox.pop_front() {
            Some(Arrived { number, incoming }) => Ok(Some(self.take_message(number, incoming)?)),
            None => Ok(self.take_stop()),
        }
    }

    /// Takes the last entry, which closes the end.
    fn take_stop(&mut self) -> Option<Taken<T>>
        ensures { (result, self.new) ≡ stop_taken self.old.stop self.old }
    {
        let cause = self.stop?;
        self.close_for(cause);
        Some(Taken::Closed(cause))
    }

    fn take_message(&mut self, number: u64, incoming: Incoming) -> Result<Taken<T>, AllocError>
        requires { is_closed self.old.state ≡ false }
        ensures { IfOk result (λ taken. (Some taken, self.new) ≡ message_taken number incoming (said_in incoming.raw) self.old) }
    {
        match self.judge(incoming.raw.as_slice()) {
            Verdict::TooEarly => Ok(self.break_off(number, Reason::Early)),
            Verdict::Stray => Ok(self.break_off(number, Reason::Token)),
            Verdict::Greets => {
                self.greet()?;
                Ok(Taken::Hello(incoming))
            }
            Verdict::Tells => {
                self.tell_level()?;
                Ok(Taken::Event(incoming))
            }
            Verdict::Asks => {
                self.tell_level()?;
                Ok(Taken::Command(incoming))
            }
            Verdict::GoesOn(token) => {
                self.tell_level()?;
                Ok(Taken::Progress(token, incoming))
            }
            Verdict::Answers(token, done) => self.finish(number, incoming, token, done),
        }
    }

    #[tactic(auto, using(crate::proofs::Naming::as_progress))]
    fn judge(&self, raw: &[u8]) -> Verdict
        ensures { (number : ℕ) (incoming : Incoming) → ComesOf number incoming result self.now (message_taken number incoming (said_in raw.now) self.now) }
    {
        match meaning(raw) {
            Said::Greets => Verdict::Greets,
            _ if self.state == EndState::Opening => Verdict::TooEarly,
            Said::Tells => Verdict::Tells,
            Said::Asks => Verdict::Asks,
            Said::GoesOn(token) => match self.sent_token(token) {
                Some(token) => Verdict::GoesOn(token),
                None => Verdict::Stray,
            },
            Said::Answers(token, done) => self.judge_answer(token, done),
        }
    }

    /// The verdict on a final answer under these digits. Whether a command is pending under them shows where it is taken out.
    fn judge_answer(&self, digits: &[u8], done: bool) -> Verdict
        ensures { (number : ℕ) (incoming : Incoming)
            → ComesOf number incoming result self.now (taken_as number incoming (answer_judged done (sent_place digits.now self.now)) self.now) }
    {
        match sent_number(digits, self.last(), &self.held) {
            Some(token) => Verdict::Answers(token, done),
            None => Verdict::Stray,
        }
    }

    /// The token of the pending command that these digits name, where it was sent.
    fn sent_token(&self, digits: &[u8]) -> Option<u64>
        ensures { result ≡ token_at (sent_place digits.now self.now) self.now.pending }
    {
        sent_token(digits, &self.pending, self.last, &self.held)
    }

    /// Closes the end, since the message of this number breaks the protocol.
    fn break_off(&mut self, number: u64, reason: Reason) -> Taken<T>
        requires { is_closed self.old.state ≡ false }
        ensures { (Some result, self.new) ≡ broken number reason self.old }
    {
        let cause = Cause::Protocol {
            message: number,
            reason,
        };
        self.close_for(cause);
        Taken::Closed(cause)
    }

    /// A Hello came: the end is Live, unless it waits for the answer to a redirect.
    fn greet(&mut self) -> Result<(), AllocError>
        requires { is_closed self.old.state ≡ false }
        ensures { OnOk result (self.new ≡ greeted (leveled self.old)) }
    {
        self.tell_level()?;
        if self.redirect.is_none() || self.state != EndState::Reopening {
            self.state = EndState::Live;
        }
        self.release()
    }

    /// The command with this token has its final answer.
    #[tactic(auto, using(crate::proofs::Naming::issued_without))]
    fn finish(
        &mut self,
        number: u64,
        incoming: Incoming,
        token: u64,
        done: bool,
    ) -> Result<Taken<T>, AllocError>
        requires { is_closed self.old.state ≡ false }
        ensures taken { IfOk result (λ taken. (Some taken, self.new) ≡ finished_by number incoming token done (item_at token self.old.pending) self.old) }
        ensures differ { Distinct self.old.pending }
    {
        match self.pending.take(token) {
            Some(tag) => {
                self.tell_level()?;
                self.hear_answer(token, done)?;
                Ok(Taken::Final(tag, incoming))
            }
            None => Ok(self.break_off(number, Reason::Token)),
        }
    }

    /// The final answer to a redirect makes the end Live again, unless it is done.
    fn hear_answer(&mut self, token: u64, done: bool) -> Result<(), AllocError>
        requires { is_closed self.old.state ≡ false }
        ensures { OnOk result (self.new ≡ answered token done self.old) }
    {
        if self.redirect != Some(token) {
            return Ok(());
        }
        self.redirect = None;
        if done {
            return Ok(());
        }
        self.state = EndState::Live;
        self.release()
    }
}
