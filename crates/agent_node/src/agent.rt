//! The agent.
ghost use Rattle.std.specs.Prelude.{◌≡◌, ◌↔◌, ◌+◌, ◌++◌, ◌∷◌, [], true, false, None, Some, Ok, filter, IfOk, IfSome, IsSome, OnErr, OnOk, length, slice_get};
ghost use Rattle.channel_core.specs.EndValue.{unless_spent};
ghost use Rattle.tcf_message.specs.Message.{IsToken, reading};
ghost use Rattle.target_contexts.specs.Named.{has_running};
ghost use Rattle.target_hub.specs.Passing.{running_in};
ghost use Rattle.target_hub.specs.Limits.{AreEvents};
ghost use Rattle.target_hub.specs.Sendable.{AreSendable, IsSendable};
ghost use Rattle.agent_node.specs.Agent.{IsIdle, IsRead, TakesNothing, after_giving, after_input, answered_to, asked, begun, channel_of, delivered, ended, executed, executed_read, given, gone, heard, is_full, is_refused, new_agent, opened, ticked, took, took_any, turned, waiting_at};
ghost use Rattle.agent_node.specs.Channels.{changed, is_kept, is_open, live_count, new_channel, place_of, told_all, with_end};

use crate::channel::new_channel;
use crate::target::{close, execute, new_hub, read_data, tick};
use crate::telling::{answer, tell_all};
use channel_core::{Incoming, Outgoing, Taken};
use channel_list::{Channels, Numbers};
use command_tables::Reading;
use std::alloc::{AllocError, Global};
use std::marker::Model;
use target_hub::{Done, Events, Hub, Image, Input};
use tcf_message::{Message, read};
use tcf_values::{Bytes, ContextId};

/// How many channels can be live.
const MOST_LIVE: usize = 64;

/// What a turn was.
#[derive(Debug, Drop)]
pub enum Turned {
    /// The channel isn't live, its inbox is empty, or the target takes no further input.
    Nothing,
    /// An entry was taken, and the input that it was, if it was one.
    Took(Option<Input>),
}

/// An agent. Contracts see the target, the number of its inputs so far, the channels, and whether memory was wanting in a
/// call: then the agent is spent and has no channels any more, each later call that may take memory answers want of it
/// again, and no call changes anything.
///
/// Neither these contracts nor the laws of this crate ask anything of the bytes that come on a channel.
#[derive(Drop)]
pub struct AgentNode {
    alloc: Global,
    hub: Hub,
    position: u64,
    numbers: Numbers,
    channels: Channels,
    spent: bool,
}

impl Model for AgentNode {
    ghost use Rattle.agent_node.specs.AgentValue.{AgentValue};

    ghost Value = { AgentValue };

    ghost view = { λ a. record { target = a.hub.target; position = a.position; numbers = a.numbers; channels = a.channels; is_spent = a.spent } };
}

impl AgentNode {
    /// Makes an agent whose processes are started from these images.
    pub fn new(alloc: Global, images: Vec<Image>) -> Result<AgentNode, AllocError>
        ensures { IfOk result (λ agent. agent ≡ new_agent images.items) }
    {
        Ok(AgentNode {
            alloc,
            hub: new_hub(alloc, images)?,
            position: 0,
            numbers: Numbers::new(alloc),
            channels: Channels::new(alloc),
            spent: false,
        })
    }

    /// Opens a channel under this number, with the agent's Hello to be sent, and answers whether it did: not where the
    /// number was given before, where 64 channels are live, or where the position is 2^64 - 1; then nothing changes, and that
    /// takes no memory.
    pub fn opened(&mut self, k: u64) -> Result<bool, AllocError>
        ensures opened { IfOk result (λ did. (did, self.new) ≡ opened k self.old) }
        ensures refused { self.old.is_spent ≡ false → is_refused k self.old ≡ true → result ≡ Ok false }
        ensures fresh { OnOk result (self.old.is_spent ≡ false) }
        ensures spent { OnErr result (self.new.is_spent ≡ true) }
        ensures silent { OnErr result (self.new.channels ≡ []) }
        ensures kept { self.old.is_spent ≡ true → self.new ≡ record self.old { channels = [] } }
    {
        self.fresh()?;
        let answer = self.try_open(k);
        if answer.is_err() {
            self.give_up();
        }
        answer
    }

    #[tactic(auto, unfolding(crate::specs::Agent::opened))]
    fn try_open(&mut self, k: u64) -> Result<bool, AllocError>
        ensures opened { IfOk result (λ did. (did, self.new) ≡ opened k self.old) }
        ensures refused { is_refused k self.old ≡ true → result ≡ Ok false }
    {
        if self.is_refused(k) {
            return Ok(false);
        }
        self.begin(k)?;
        Ok(true)
    }

    /// The channel begins; those that are done with are forgotten.
    #[tactic(auto, unfolding(crate::specs::Agent::begun))]
    fn begin(&mut self, k: u64) -> Result<(), AllocError>
        requires { is_full self.old ≡ false }
        ensures { OnOk result (self.new ≡ begun k self.old) }
    {
        self.position += 1;
        self.channels
            .open(new_channel(self.alloc, k, self.position)?)?;
        self.numbers.add(k)
    }

    fn is_refused(&self, k: u64) -> bool
        ensures { result ≡ is_refused k self.now }
    {
        self.numbers.has(k) || self.channels.live_count() >= MOST_LIVE || self.position == u64::MAX
    }

    /// Gives the channel the next bytes that came. Where it isn't live nothing happens.
    pub fn deliver(&mut self, k: u64, piece: &[u8]) -> Result<(), AllocError>
        ensures delivered { OnOk result (self.new ≡ delivered k piece.now self.old) }
        ensures fresh { OnOk result (self.old.is_spent ≡ false) }
        ensures spent { OnErr result (self.new.is_spent ≡ true) }
        ensures silent { OnErr result (self.new.channels ≡ []) }
        ensures kept { self.old.is_spent ≡ true → self.new ≡ record self.old { channels = [] } }
    {
        self.fresh()?;
        let answer = self.try_deliver(k, piece);
        if answer.is_err() {
            self.give_up();
        }
        answer
    }

    #[tactic(auto, unfolding(crate::specs::Agent::delivered))]
    fn try_deliver(&mut self, k: u64, piece: &[u8]) -> Result<(), AllocError>
        ensures delivered { OnOk result (self.new ≡ delivered k piece.now self.old) }
    {
        if let Some(channel) = self.channels.find_mut(k) {
            channel.come(piece, None)?;
        }
        Ok(())
    }

    /// Tells the channel that its bytes have ended. Where it isn't live nothing happens.
    #[tactic(auto, unfolding(crate::specs::Agent::ended))]
    pub fn ended(&mut self, k: u64)
        ensures { self.new ≡ ended k self.old }
    {
        if let Some(channel) = self.channels.find_mut(k) {
            channel.end.ended();
        }
    }

    /// Takes the oldest entry of the channel's inbox. A command is executed, and the end of the channel takes its
    /// breakpoints with it: both are inputs, which come back. `Nothing` exactly where the channel isn't live, its inbox is
    /// empty, or the position is 2^64 - 1; that takes no memory.
    #[tactic(auto, using(crate::proofs::Idle::turn_stays))]
    pub fn turn(&mut self, k: u64) -> Result<Turned, AllocError>
        ensures turned { IfOk result (λ what. (what, self.new) ≡ turned k self.old) }
        ensures nothing { IfOk result (λ what. (what ≡ Turned.Nothing) ↔ TakesNothing k self.old) }
        ensures idle { self.old.is_spent ≡ false → TakesNothing k self.old → result ≡ Ok Turned.Nothing }
        ensures fresh { OnOk result (self.old.is_spent ≡ false) }
        ensures spent { OnErr result (self.new.is_spent ≡ true) }
        ensures silent { OnErr result (self.new.channels ≡ []) }
        ensures kept { self.old.is_spent ≡ true → self.new ≡ record self.old { channels = [] } }
    {
        self.fresh()?;
        if self.waiting(k) == 0 {
            return Ok(Turned::Nothing);
        }
        let answer = self.try_turn(k);
        if answer.is_err() {
            self.give_up();
        }
        answer
    }

    #[tactic(auto, unfolding(crate::specs::Agent::turned))]
    fn try_turn(&mut self, k: u64) -> Result<Turned, AllocError>
        ensures turned { IfOk result (λ what. (what, self.new) ≡ turned k self.old) }
        ensures full { is_full self.old ≡ true → result ≡ Ok Turned.Nothing }
    {
        if self.position == u64::MAX {
            return Ok(Turned::Nothing);
        }
        let Some(channel) = self.channels.find_mut(k) else {
            return Ok(Turned::Nothing);
        };
        match channel.end.next_message()? {
            Some(what) => self.take(k, what),
            None => Ok(Turned::Nothing),
        }
    }

    /// Takes what the channel's end gave.
    #[tactic(auto, unfolding(crate::specs::Agent::took))]
    fn take(&mut self, k: u64, what: Taken<()>) -> Result<Turned, AllocError>
        requires { is_full self.old ≡ false }
        ensures took { IfOk result (λ turned. (turned, self.new) ≡ took k what self.old) }
    {
        match what {
            Taken::Command(incoming) => self.ask(k, &incoming),
            Taken::Closed(_) => self.go(k),
            Taken::Hello(_) | Taken::Event(_) | Taken::Progress(..) | Taken::Final(..) => {
                Ok(Turned::Took(None))
            }
        }
    }

    /// The channel is closed, and its breakpoints go.
    #[tactic(auto, unfolding(crate::specs::Agent::gone))]
    fn go(&mut self, k: u64) -> Result<Turned, AllocError>
        requires { is_full self.old ≡ false }
        ensures gone { IfOk result (λ turned. (turned, self.new) ≡ gone k self.old) }
    {
        let events = close(&mut self.hub, k)?;
        self.tell(&events)?;
        Ok(Turned::Took(Some(Input::Closed(k))))
    }

    /// Reads a command of the channel, and executes it.
    #[tactic(auto, unfolding(crate::specs::Agent::asked))]
    fn ask(&mut self, k: u64, incoming: &Incoming) -> Result<Turned, AllocError>
        requires { is_full self.old ≡ false }
        ensures asked { IfOk result (λ turned. (turned, self.new) ≡ asked k (reading incoming.now.raw) self.old) }
    {
        match read(incoming.raw.as_slice()) {
            Ok(
                Message::Command {
                    token,
                    service,
                    name,
                    body,
                },
            ) => self.execute(k, token, service, name, body),
            _ => Ok(Turned::Took(None)),
        }
    }

    /// Executes a command: what it tells goes to all, and its progress and its answer to the channel.
    #[tactic(auto, unfolding(crate::specs::Agent::executed))]
    fn execute(
        &mut self,
        k: u64,
        token: &[u8],
        service: &[u8],
        name: &[u8],
        body: &[u8],
    ) -> Result<Turned, AllocError>
        requires full { is_full self.old ≡ false }
        requires token { IsToken token.now }
        ensures executed { IfOk result (λ turned. (turned, self.new) ≡ executed k token.now service.now name.now body.now self.old) }
    {
        let service_word = Bytes::from_slice(self.alloc, service)?;
        let name_word = Bytes::from_slice(self.alloc, name)?;
        let reading = read_data(self.alloc, service, name, body)?;
        self.execute_read(k, token, service, name, &reading)?;
        Ok(Turned::Took(Some(Input::Executed(k, reading, service_word, name_word))))
    }

    /// Executes a command as it is read.
    #[tactic(auto, unfolding(crate::specs::Agent::executed_read))]
    fn execute_read(
        &mut self,
        k: u64,
        token: &[u8],
        service: &[u8],
        name: &[u8],
        reading: &Reading,
    ) -> Result<(), AllocError>
        requires full { is_full self.old ≡ false }
        requires token { IsToken token.now }
        requires read { IsRead service.now name.now reading.now }
        ensures { OnOk result (self.new ≡ executed_read k token.now service.now name.now reading.now self.old) }
    {
        let done = execute(&mut self.hub, k, service, name, reading)?;
        self.hear(k, token, &done)
    }

    /// What was done is the next input: all hear its events, and the caller its progress and its answer.
    #[tactic(auto, unfolding(crate::specs::Agent::heard))]
    fn hear(&mut self, k: u64, token: &[u8], done: &Done) -> Result<(), AllocError>
        requires full { is_full self.old ≡ false }
        requires token { IsToken token.now }
        requires events { AreEvents done.now.events }
        requires sendable { AreSendable done.now.events }
        requires fits { IsSendable done.now.answer }
        ensures { OnOk result (self.new ≡ heard k token.now done.now self.old) }
    {
        self.tell(&done.events)?;
        self.answer(k, token, done)
    }

    /// The caller hears the progress and the answer of its command.
    #[tactic(auto, unfolding(crate::specs::Agent::answered_to))]
    fn answer(&mut self, k: u64, token: &[u8], done: &Done) -> Result<(), AllocError>
        requires token { IsToken token.now }
        requires fits { IsSendable done.now.answer }
        ensures { OnOk result (self.new ≡ answered_to k token.now done.now self.old) }
    {
        if let Some(channel) = self.channels.find_mut(k) {
            answer(self.alloc, &mut channel.end, token, done, self.position)?;
        }
        Ok(())
    }

    /// An input was the next one, and told these events.
    #[tactic(auto, unfolding(crate::specs::Agent::after_input))]
    fn tell(&mut self, events: &Events) -> Result<(), AllocError>
        requires full { is_full self.old ≡ false }
        requires events { AreEvents events.now }
        requires sendable { AreSendable events.now }
        ensures told { OnOk result (self.new ≡ after_input events.now self.old) }
    {
        self.position += 1;
        tell_all(self.alloc, events, self.position, &mut self.channels)
    }

    /// Executes one instruction of a thread, and answers whether it did: not where it isn't a live thread that runs, or
    /// where the position is 2^64 - 1; then nothing changes.
    pub fn tick(&mut self, thread: ContextId) -> Result<bool, AllocError>
        ensures ticked { IfOk result (λ did. (did, self.new) ≡ ticked thread self.old) }
        ensures nothing { IfOk result (λ did. (did ≡ false) ↔ IsIdle thread self.old) }
        ensures full { self.old.is_spent ≡ false → is_full self.old ≡ true → result ≡ Ok false }
        ensures fresh { OnOk result (self.old.is_spent ≡ false) }
        ensures spent { OnErr result (self.new.is_spent ≡ true) }
        ensures silent { OnErr result (self.new.channels ≡ []) }
        ensures kept { self.old.is_spent ≡ true → self.new ≡ record self.old { channels = [] } }
    {
        self.fresh()?;
        let answer = self.try_tick(thread);
        if answer.is_err() {
            self.give_up();
        }
        answer
    }

    #[tactic(auto, unfolding(crate::specs::Agent::ticked))]
    fn try_tick(&mut self, thread: ContextId) -> Result<bool, AllocError>
        ensures ticked { IfOk result (λ did. (did, self.new) ≡ ticked thread self.old) }
        ensures full { is_full self.old ≡ true → result ≡ Ok false }
    {
        if self.position == u64::MAX {
            return Ok(false);
        }
        match tick(&mut self.hub, thread)? {
            Some(events) => {
                self.tell(&events)?;
                Ok(true)
            }
            None => Ok(false),
        }
    }

    /// Takes the next message of the channel that is to be sent, or the end of the stream, escaped; `None` exactly where
    /// nothing is queued, and so where the agent is spent.
    #[tactic(auto, unfolding(crate::specs::Agent::given, crate::specs::Agent::after_giving))]
    pub fn take_out(&mut self, k: u64) -> Option<Outgoing>
        ensures given { result ≡ given k self.old }
        ensures after { self.new ≡ after_giving k self.old }
    {
        let channel = self.channels.find_mut(k)?;
        channel.end.take_out()
    }

    /// The number of the target's inputs so far.
    pub fn position(&self) -> u64
        ensures { result ≡ self.now.position }
    {
        self.position
    }

    /// How many entries stand in the channel's inbox; 0 where the channel isn't live.
    pub fn waiting(&self, k: u64) -> usize
        ensures { result ≡ waiting_at (channel_of k self.now) }
    {
        match self.channels.find(k) {
            Some(channel) => channel.end.waiting(),
            None => 0,
        }
    }

    /// The threads that run, in the order of their processes.
    pub fn running(&self) -> Result<Vec<ContextId>, AllocError>
        ensures threads { IfOk result (λ threads. threads.items ≡ running_in self.now.target.contexts.processes) }
        ensures fresh { OnOk result (self.now.is_spent ≡ false) }
    {
        if self.spent {
            return Err(AllocError);
        }
        self.hub.running()
    }

    /// Whether a thread runs. The look ends at the first one that does.
    pub fn has_running(&self) -> bool
        ensures { result ≡ has_running self.now.target.contexts.processes }
    {
        self.hub.has_running()
    }

    /// Memory was wanting: the agent is spent, and its channels are gone.
    fn give_up(&mut self)
        ensures { self.new ≡ record self.old { channels = []; is_spent = true } }
    {
        self.spent = true;
        self.channels.clear();
    }

    /// Want of memory, where it was met before.
    fn fresh(&mut self) -> Result<(), AllocError>
        ensures fresh { OnOk result (self.old.is_spent ≡ false) }
        ensures same { OnOk result (self.new ≡ self.old) }
        ensures spent { OnErr result (self.old.is_spent ≡ true) }
        ensures gone { OnErr result (self.new ≡ record self.old { channels = []; is_spent = true }) }
    {
        if self.spent {
            self.give_up();
            return Err(AllocError);
        }
        Ok(())
    }
}
