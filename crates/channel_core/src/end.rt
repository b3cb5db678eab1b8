//! One end of a channel.
ghost use Rattle.std.specs.Prelude.{◌≡◌, ◌++◌, ◌∷◌, [], true, false, IfOk, OnOk, length, option_map};
ghost use Rattle.channel_core.specs.Closing.{is_closed};
ghost use Rattle.tcf_message.specs.Message.{IsWellFormed, most_body, value_of};
ghost use Rattle.channel_core.specs.Level.{is_due, leveled};
ghost use Rattle.channel_core.specs.Receiving.{waiting_in};
ghost use Rattle.channel_core.specs.Wire.{said};

use crate::congestion::level;
use crate::held::{Arrived, Held, Outgoing};
use crate::states::{Cause, EndState};
use link_pool::{Pending, new_pending};
use std::alloc::{AllocError, Global};
use std::collections::VecDeque;
use std::marker::Model;
use stream_escape::{Unescape, escape_into, mark_eom, mark_eos};
use tcf_message::{Message, write};
use tcf_outside::Octets;

/// One end of a channel, whose pending commands bear tags of the caller's.
#[derive(Drop)]
pub struct End<T> {
    pub(crate) alloc: Global,
    pub(crate) state: EndState,
    pub(crate) redirect: Option<u64>,
    pub(crate) stream: Unescape,
    pub(crate) inbox: VecDeque<Arrived>,
    pub(crate) stop: Option<Cause>,
    pub(crate) came: u64,
    pub(crate) pending: Pending<T>,
    pub(crate) last: u64,
    pub(crate) held: VecDeque<Held>,
    pub(crate) queued: VecDeque<Outgoing>,
    pub(crate) told: i8,
    pub(crate) is_loud: bool,
    /// The bytes of the end of the stream, made at the beginning, so that closing takes no memory.
    pub(crate) ready: Octets,
    /// The end of the stream is to be sent behind what is queued.
    pub(crate) is_leaving: bool,
    pub(crate) spent: bool,
}

impl<T> Model for End<T> {
    ghost use Rattle.channel_core.specs.EndValue.{EndValue};

    ghost Value = { EndValue T };

    ghost use Rattle.std.specs.Prelude.{◌++◌};
    ghost use Rattle.channel_core.specs.Farewell.{IsReady, leaving_behind};

    ghost view = { λ e. record { state = e.state; redirect = e.redirect; stream = e.stream; inbox = e.inbox.items; stop = e.stop; came = e.came; pending = e.pending; last = e.last; held = e.held.items; queued = e.queued.items ++ leaving_behind e.is_leaving; told = e.told; is_loud = e.is_loud; is_spent = e.spent } };

    ghost invariant = { λ e. IsReady e.state e.inbox.items e.stop e.is_leaving e.ready e.pending e.last e.held.items };
}

impl<T> End<T> {
    ghost use Rattle.channel_core.specs.Beginning.{new_end, tag_of};
    ghost use Rattle.std.specs.Prelude.{◌+◌, ◌≤◌};

    /// Begins in Opening, with its Hello to be sent, whose data is `hello` and whose mark is this one: so many bytes at
    /// most that the event is within the limit of a message.
    #[tactic(auto, using(crate::proofs::Naming::none_issued, crate::proofs::HeldTokens::none_rising, crate::proofs::HeldTokens::none_within), unfolding(crate::specs::Wire::locator, crate::specs::Wire::hello))]
    pub fn new(alloc: Global, hello: &[u8], mark: Option<u64>) -> Result<End<T>, AllocError>
        requires { 12 + length hello.now ≤ most_body }
        ensures { IfOk result (λ e. e ≡ new_end hello.now mark) }
    {
        let message = Message::Event {
            service: b"Locator",
            name: b"Hello",
            body: hello,
        };
        let mut queued = VecDeque::new(alloc);
        queued.push_back(frame(alloc, &message, mark)?)?;
        let mut ready = Octets::new(alloc);
        mark_eos(&mut ready)?;
        Ok(End {
            alloc,
            state: EndState::Opening,
            redirect: None,
            stream: Unescape::new(alloc),
            inbox: VecDeque::new(alloc),
            stop: None,
            came: 0,
            pending: new_pending(alloc)?,
            last: 0,
            held: VecDeque::new(alloc),
            queued,
            told: 0,
            is_loud: false,
            ready,
            is_leaving: false,
            spent: false,
        })
    }

    /// The tag of the pending command with this token; `None` exactly where there is none.
    pub fn tag(&self, token: u64) -> Option<&T>
        ensures { option_map (λ tag. tag.now) result ≡ tag_of token self.now.pending }
    {
        self.pending.find(token)
    }

    /// The commands that are pending, those that are held among them, by their tokens, in order of issue.
    pub fn commands(&self) -> &Pending<T>
        ensures { result.now ≡ self.now.pending }
    {
        &self.pending
    }

    /// The token of the command that was accepted last; 0 before the first.
    pub fn last(&self) -> u64
        ensures { result ≡ self.now.last }
    {
        self.last
    }

    /// Where the end stands.
    pub fn state(&self) -> EndState
        ensures { result ≡ self.now.state }
    {
        self.state
    }

    /// How many commands are pending, those that are held among them; 1,024 at the most.
    pub fn pending(&self) -> usize
        ensures value { result ≡ length self.now.pending }
        ensures few { result ≤ 1024 }
    {
        self.pending.len()
    }

    /// How many entries stand in the inbox, the last one among them; none in that of a closed end.
    pub fn waiting(&self) -> usize
        ensures value { result ≡ waiting_in self.now }
        ensures closed { is_closed self.now.state ≡ true → result ≡ 0 }
    {
        match self.stop {
            Some(_) => self.inbox.len().saturating_add(1),
            None => self.inbox.len(),
        }
    }

    /// Tells the other side the level of the inbox, where that is due.
    pub(crate) fn tell_level(&mut self) -> Result<(), AllocError>
        requires { is_closed self.old.state ≡ false }
        ensures { OnOk result (self.new ≡ leveled self.old) }
    {
        let level = level(self.inbox.len());
        if is_due(self.is_loud, level) {
            self.queue(&Message::Flow { level }, None)?;
            self.is_loud = level > 0;
        }
        Ok(())
    }

    /// Queues a message.
    pub(crate) fn queue(
        &mut self,
        message: &Message<'_>,
        mark: Option<u64>,
    ) -> Result<(), AllocError>
        requires open { is_closed self.old.state ≡ false }
        requires message { IsWellFormed (value_of message.now) }
        ensures { OnOk result (self.new ≡ record self.old { queued = self.old.queued ++ said (value_of message.now) mark ∷ [] }) }
    {
        let outgoing = frame(self.alloc, message, mark)?;
        self.queued.push_back(outgoing)?;
        Ok(())
    }
}

/// Whether a level is to be told.
fn is_due(is_loud: bool, level: i8) -> bool
    ensures { result ≡ is_due is_loud level }
{
    if is_loud { level <= -50 } else { level > 0 }
}

/// How many bytes most messages have at the most.
const USUAL_BYTES: usize = 128;

/// How many bytes the mark of a message's end has.
const END_BYTES: usize = 2;

/// A list of bytes with room for so many.
fn room_for(alloc: Global, count: usize) -> Result<Octets, AllocError>
    ensures { IfOk result (λ bytes. bytes ≡ []) }
{
    Ok(Octets::from_vec(Vec::with_capacity(alloc, count)?))
}

/// A message as it is sent.
pub(crate) fn frame(
    alloc: Global,
    message: &Message<'_>,
    mark: Option<u64>,
) -> Result<Outgoing, AllocError>
    requires { IsWellFormed (value_of message.now) }
    ensures { IfOk result (λ outgoing. outgoing ≡ said (value_of message.now) mark) }
{
    let mut raw = room_for(alloc, USUAL_BYTES)?;
    write(message, &mut raw)?;
    let mut bytes = room_for(alloc, raw.len().saturating_add(END_BYTES))?;
    escape_into(raw.as_slice(), &mut bytes)?;
    mark_eom(&mut bytes)?;
    Ok(Outgoing { bytes, mark })
}
