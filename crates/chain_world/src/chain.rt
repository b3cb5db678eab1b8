//! A chain: a client, its way to the agent, and the numbers of its channels there.
ghost use Rattle.std.specs.Prelude.{◌≡◌, ◌+◌, false, IfOk, OnOk, find};
ghost use Rattle.std.specs.List.{list_all};
ghost use Rattle.cached_lines.specs.Asked.{IsAsked};
ghost use Rattle.tcf_message.specs.Message.{HasNoZero};
ghost use Rattle.agent_node.specs.Agent.{channel_of, opened as agent_opened, waiting_at};
ghost use Rattle.agent_node.specs.Channels.{end_in};
ghost use Rattle.chain_route.specs.Route.{sent_down, sent_up};
ghost use Rattle.chain_world.specs.Chain.{agent_emptied, all_dropped, all_down, all_taken_down, all_up, asked, both, carried_down, carried_up, client_emptied, closed, cut, delivered_down, delivered_over, delivered_under, delivered_up, is_last_quiet, is_opened, is_quiet, new_chain, none_reached, none_waits, numbered, opened, parts_came, parts_delivered, queue_of, reached, sent, takes_down, takes_up, turned_down, turned_on, turning, waiting_up, waits_at};

use agent_node::{AgentNode, Turned};
use cached_lines::CachedWhat;
use chain_route::{MOST_BYTES, MOST_WAITING, Route};
use channel_core::Outgoing;
use client_node::ClientNode;
use std::alloc::{AllocError, Global};
use std::marker::Model;
use target_hub::Input;
use value_node::Side;

/// A chain.
#[derive(Drop)]
pub struct Chain {
    pub client: ClientNode,
    pub route: Route,
    /// The channel on the agent, once the way has reached it.
    pub channel: Option<u64>,
    /// The channels before that one, in order.
    pub earlier: Vec<u64>,
}

impl Model for Chain {
    ghost use Rattle.chain_route.specs.contracts.route.Route as one_route;
    ghost use Rattle.chain_world.specs.ChainValue.{ChainValue, chain_code};
    ghost use Rattle.std.specs.Coded.{codes};

    ghost Value = { ChainValue };

    ghost coded = { chain_code (Prim.hlevel codes) one_route.the_row.coded };

    ghost view = { λ c. record { client = c.client; route = c.route; channel = c.channel; earlier = c.earlier.items } };
}

impl Chain {
    /// A chain with so many value-adds, in which nothing is opened.
    pub(crate) fn new(alloc: Global, adds: usize) -> Result<Chain, AllocError>
        ensures { IfOk result (λ chain. chain ≡ new_chain adds) }
    {
        Ok(Chain {
            client: ClientNode::new(alloc)?,
            route: Route::new(alloc, adds)?,
            channel: None,
            earlier: Vec::new(alloc),
        })
    }

    /// Whether the client connected.
    pub(crate) fn is_opened(&self) -> bool
        ensures { result ≡ is_opened self.now }
    {
        self.client.state().is_some()
    }

    // ---- connections

    /// The client connects. Answers whether it is the agent to which it does; then the caller has the agent open a channel.
    pub(crate) fn open(&mut self) -> Result<bool, AllocError>
        requires { is_opened self.old ≡ false }
        ensures { IfOk result (λ reaches. (reaches, self.new) ≡ opened self.old) }
    {
        self.client.opened()?;
        let reaches = self.route.connect(0)?;
        if !reaches {
            self.carry_up()?;
        }
        Ok(reaches)
    }

    /// The agent opens a channel under this number; answers whether it did. To a channel that the agent refuses the end of
    /// the stream comes down.
    #[tactic(auto, unfolding(crate::specs::Chain::reached))]
    pub(crate) fn reach(&mut self, k: u64, agent: &mut AgentNode) -> Result<bool, AllocError>
        ensures reached { OnOk result (both self.new agent.new ≡ reached k self.old agent.old) }
        ensures did { IfOk result (λ did. did ≡ (agent_opened k agent.old).0) }
    {
        self.number(Some(k))?;
        let did = agent.opened(k)?;
        self.route.reach(did)?;
        self.carry_up()?;
        Ok(did)
    }

    /// No number is left for a channel: the end of the stream comes down.
    pub(crate) fn reach_none(&mut self) -> Result<(), AllocError>
        ensures { OnOk result (self.new ≡ none_reached self.old) }
    {
        self.number(None)?;
        self.route.reach(false)?;
        self.carry_up()
    }

    /// The channel has this number from now on.
    fn number(&mut self, channel: Option<u64>) -> Result<(), AllocError>
        ensures { OnOk result (self.new ≡ numbered channel self.old) }
    {
        if let Some(k) = self.channel {
            self.earlier.push(k)?;
        }
        self.channel = channel;
        Ok(())
    }

    /// This hop is cut, and both of its ends have ended; nothing happens where it isn't live.
    pub(crate) fn cut(&mut self, hop: usize, agent: &mut AgentNode)
        ensures { both self.new agent.new ≡ cut hop self.old agent.old }
    {
        if !self.route.cut(hop) {
            return;
        }
        if hop == 0 {
            self.client.ended();
        }
        if hop == self.route.adds() {
            if let Some(k) = self.channel {
                agent.ended(k);
            }
        }
    }

    /// The next bytes in flight on this hop arrive at the node above it, as one piece: a value-add, or the agent.
    pub(crate) fn deliver_over(
        &mut self,
        hop: usize,
        count: usize,
        agent: &mut AgentNode,
    ) -> Result<(), AllocError>
        ensures { OnOk result (both self.new agent.new ≡ delivered_over hop count self.old agent.old) }
    {
        if hop == self.route.adds() {
            return self.deliver_up(count, agent);
        }
        self.route.deliver(hop, Side::Below, count)
    }

    /// The next bytes in flight on this hop arrive at the node below it, as one piece: a value-add, or the client.
    pub(crate) fn deliver_under(&mut self, hop: usize, count: usize) -> Result<(), AllocError>
        ensures { OnOk result (self.new ≡ delivered_under hop count self.old) }
    {
        match hop.checked_sub(1) {
            Some(below) => self.route.deliver(below, Side::Above, count),
            None => self.deliver_down(count),
        }
    }

    // ---- the client

    /// The client sends a command.
    pub(crate) fn send(
        &mut self,
        service: &[u8],
        name: &[u8],
        body: &[u8],
    ) -> Result<(), AllocError>
        requires service { HasNoZero service.now }
        requires name { HasNoZero name.now }
        ensures { OnOk result (self.new ≡ sent service.now name.now body.now self.old) }
    {
        self.client.send(service, name, body)?;
        self.carry_up()
    }

    /// The client asks its cache.
    pub(crate) fn ask(&mut self, what: &CachedWhat) -> Result<(), AllocError>
        requires { IsAsked what.now }
        ensures { OnOk result (self.new ≡ asked what.now self.old) }
    {
        self.client.cached(what)
    }

    /// The client closes its channel.
    pub(crate) fn close(&mut self) -> Result<(), AllocError>
        ensures { OnOk result (self.new ≡ closed self.old) }
    {
        self.client.close()?;
        self.carry_up()
    }

    /// The next bytes in flight arrive at the client, as one piece.
    pub(crate) fn deliver_down(&mut self, count: usize) -> Result<(), AllocError>
        ensures { OnOk result (self.new ≡ delivered_down count self.old) }
    {
        if !self.takes_down() {
            return Ok(());
        }
        let parts = self.route.arrive_down(count)?;
        come(&mut self.client, &parts)?;
        self.carry_up()
    }

    /// The client takes an entry of its inbox.
    pub(crate) fn turn_down(&mut self) -> Result<(), AllocError>
        ensures { OnOk result (self.new ≡ turned_down self.old) }
    {
        self.client.turn()?;
        self.carry_up()
    }

    /// All bytes in flight arrive at the client, in pieces, until its inbox is full.
    #[tactic(auto, using(crate::proofs::Pieces::all_down_on, crate::proofs::Pieces::all_down_still, crate::proofs::Pieces::all_down_none))]
    pub(crate) fn deliver_all_down(&mut self) -> Result<(), AllocError>
        ensures { OnOk result (self.new ≡ all_down self.old) }
    {
        while self.takes_down() && !self.route.is_empty_down() {
            self.deliver_down(MOST_BYTES)?;
        }
        Ok(())
    }

    /// The client takes all that is in its inbox.
    #[tactic(auto, using(crate::proofs::Repeats::one_turn_down))]
    pub(crate) fn take_all_down(&mut self) -> Result<(), AllocError>
        ensures { OnOk result (self.new ≡ all_taken_down self.old) }
    {
        let waiting = self.client.waiting();
        for counter in 0..waiting {
            self.turn_down()?;
        }
        Ok(())
    }

    /// Whether a piece may arrive at the client.
    fn takes_down(&self) -> bool
        ensures { result ≡ takes_down self.now }
    {
        self.route.is_live(0) && self.client.waiting() < MOST_WAITING
    }

    /// What the client queued is in flight.
    fn carry_up(&mut self) -> Result<(), AllocError>
        ensures { OnOk result (self.new ≡ carried_up self.old) }
    {
        carry_from_client(&mut self.client, &mut self.route)
    }

    // ---- the agent

    /// The next bytes in flight arrive at the agent, as one piece.
    pub(crate) fn deliver_up(
        &mut self,
        count: usize,
        agent: &mut AgentNode,
    ) -> Result<(), AllocError>
        ensures { OnOk result (both self.new agent.new ≡ delivered_up count self.old agent.old) }
    {
        let Some(k) = self.channel else {
            return Ok(());
        };
        if !self.takes_up(k, agent) {
            return Ok(());
        }
        let parts = self.route.arrive_up(count)?;
        deliver(agent, k, &parts)?;
        self.carry_down(agent)
    }

    /// The agent takes an entry of the oldest channel of the chain in which one waits, and answers the input that it was,
    /// if it was one.
    pub(crate) fn turn_up(&self, agent: &mut AgentNode) -> Result<Option<Input>, AllocError>
        ensures { IfOk result (λ input. (input, agent.new) ≡ turned_on (turning self.now.earlier self.now.channel agent.old) agent.old) }
    {
        let Some(k) = self.turning(agent) else {
            return Ok(None);
        };
        match agent.turn(k)? {
            Turned::Took(input) => Ok(input),
            Turned::Nothing => Ok(None),
        }
    }

    /// The oldest channel in which an entry waits, and else the last one.
    fn turning(&self, agent: &AgentNode) -> Option<u64>
        ensures { result ≡ turning self.now.earlier self.now.channel agent.now }
    {
        match first_waiting(agent, self.earlier.as_slice()) {
            Some(k) => Some(k),
            None => self.channel,
        }
    }

    /// All bytes in flight arrive at the agent, in pieces, until its inbox is full.
    #[tactic(auto, using(crate::proofs::Pieces::all_up_on, crate::proofs::Pieces::all_up_still, crate::proofs::Pieces::all_up_none, crate::proofs::Pieces::all_up_unopened))]
    pub(crate) fn deliver_all_up(&mut self, agent: &mut AgentNode) -> Result<(), AllocError>
        ensures { OnOk result (both self.new agent.new ≡ all_up self.old agent.old) }
    {
        let Some(k) = self.channel else {
            return Ok(());
        };
        while self.takes_up(k, agent) && !self.route.is_empty_up() {
            self.deliver_up(MOST_BYTES, agent)?;
        }
        Ok(())
    }

    /// Whether a piece may arrive at the agent.
    fn takes_up(&self, k: u64, agent: &AgentNode) -> bool
        ensures { result ≡ takes_up k self.now agent.now }
    {
        self.route.is_live(self.route.adds()) && agent.waiting(k) < MOST_WAITING
    }

    /// What the agent queued for this chain is in flight; what it queued for an earlier channel is dropped.
    pub(crate) fn carry_down(&mut self, agent: &mut AgentNode) -> Result<(), AllocError>
        ensures { OnOk result (both self.new agent.new ≡ carried_down self.old agent.old) }
    {
        drop_all(agent, self.earlier.as_slice());
        match self.channel {
            Some(k) => carry_from_agent(agent, k, &mut self.route),
            None => Ok(()),
        }
    }

    /// How many entries wait in the inboxes of the chain's channels at the agent; as many turns take them all.
    pub(crate) fn waiting_up(&self, agent: &AgentNode) -> u128
        ensures { result ≡ waiting_up self.now.earlier self.now.channel agent.now }
    {
        let last = match self.channel {
            Some(k) => agent.waiting(k),
            None => 0,
        };
        let before: u128 = self.earlier.iter().map(|k| agent.waiting(*k) as u128).sum();
        before + last as u128
    }

    /// Whether nothing is in flight, and nothing waits in an inbox.
    pub(crate) fn is_quiet(&self, agent: &AgentNode) -> bool
        ensures { result ≡ is_quiet self.now agent.now }
    {
        self.route.is_quiet()
            && self.client.waiting() == 0
            && is_last_quiet(agent, self.channel)
            && are_quiet(agent, self.earlier.as_slice())
    }
}

/// What the client queued is in flight.
#[tactic(auto, using(crate::proofs::Routes::sent_on, crate::proofs::Routes::none_sent, crate::proofs::Carried::client_goes_on, crate::proofs::Carried::client_is_empty))]
fn carry_from_client(client: &mut ClientNode, route: &mut Route) -> Result<(), AllocError>
    ensures client { OnOk result (client.new ≡ client_emptied client.old) }
    ensures route { OnOk result (route.new ≡ sent_up (queue_of client.old.channel) route.old) }
{
    while let Some(out) = client.take_out() {
        route.send_up(out)?;
    }
    Ok(())
}

/// What the agent queued for this channel is in flight.
#[tactic(auto, using(crate::proofs::Routes::sent_down_on, crate::proofs::Routes::none_sent_down, crate::proofs::Queued::agent_is_done))]
fn carry_from_agent(agent: &mut AgentNode, k: u64, route: &mut Route) -> Result<(), AllocError>
    ensures agent { OnOk result (agent.new ≡ agent_emptied k agent.old) }
    ensures route { OnOk result (route.new ≡ sent_down (queue_of (end_in (channel_of k agent.old))) route.old) }
{
    while let Some(out) = agent.take_out(k) {
        route.send_down(out)?;
    }
    Ok(())
}

/// The first of these channels in which an entry waits.
fn first_waiting(agent: &AgentNode, channels: &[u64]) -> Option<u64>
    ensures { result ≡ find (waits_at agent.now) channels.now }
{
    channels.iter().copied().find(|k| agent.waiting(*k) > 0)
}

/// Whether no entry waits in this channel, if there is one.
fn is_last_quiet(agent: &AgentNode, channel: Option<u64>) -> bool
    ensures { result ≡ is_last_quiet channel agent.now }
{
    match channel {
        Some(k) => agent.waiting(k) == 0,
        None => true,
    }
}

/// Whether no entry waits in any of these channels.
fn are_quiet(agent: &AgentNode, channels: &[u64]) -> bool
    ensures { result ≡ list_all (none_waits agent.now) channels.now }
{
    channels.iter().all(|k| agent.waiting(*k) == 0)
}

/// What the agent queued for these channels is dropped.
fn drop_all(agent: &mut AgentNode, channels: &[u64])
    ensures { agent.new ≡ all_dropped channels.now agent.old }
{
    for k in channels {
        drop_queue(agent, *k);
    }
}

/// What the agent queued for this channel is dropped.
fn drop_queue(agent: &mut AgentNode, k: u64)
    ensures { agent.new ≡ agent_emptied k agent.old }
{
    while agent.take_out(k).is_some() {}
}

/// The parts of a piece arrive at the client.
fn come(client: &mut ClientNode, parts: &[Outgoing]) -> Result<(), AllocError>
    ensures { OnOk result (client.new ≡ parts_came parts.now client.old) }
{
    for part in parts {
        client.deliver(part.bytes.as_slice(), part.mark)?;
    }
    Ok(())
}

/// The parts of a piece arrive at the agent.
fn deliver(agent: &mut AgentNode, k: u64, parts: &[Outgoing]) -> Result<(), AllocError>
    ensures { OnOk result (agent.new ≡ parts_delivered k parts.now agent.old) }
{
    for part in parts {
        agent.deliver(k, part.bytes.as_slice())?;
    }
    Ok(())
}
