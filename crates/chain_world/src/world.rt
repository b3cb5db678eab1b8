//! The world: one agent, and the chains of a schedule, played step by step.
ghost use Rattle.std.specs.Prelude.{◌≡◌, ◌<◌, true, false, IfOk, IfSome, OnErr, OnOk, length, slice_get};
ghost use Rattle.cached_lines.specs.Asked.{IsAsked};
ghost use Rattle.tcf_message.specs.Message.{HasNoZero};
ghost use Rattle.std.specs.List.{AllByRecursion};
ghost use Rattle.tcf_schedules.specs.Plan.{plan_of, plans_of};
ghost use Rattle.chain_world.specs.Chain.{all_down, all_taken_down, all_up, is_opened, none_reached, turned_down};
ghost use Rattle.chain_world.specs.World.{IsNotRepeated, IsPlayable, IsSingle, add_rounded, add_turned, adds_in, adds_of, agent_taken, agent_turned, all_carried, all_round_down, asked_at, carried, closed_at, connected_at, cut_at, delivered_at, image_of, images_of, log_at, new_chains, new_world, on_chain, opened_at, opening, played, quiet_at, reached_at, reached_with, repeated, round_all, round_at, round_of, rounded_up, rounds, run, sent_at, tick_of, ticked_in, turned_at, turned_down_at, turned_up_at, with_agent, with_input};

use crate::chain::Chain;
use agent_node::{AgentNode, Image};
use cached_lines::CachedWhat;
use std::alloc::{AllocError, Global};
use std::marker::Model;
use target_hub::Input;
use tcf_outside::Duplicate;
use tcf_schedules::{ChainHead, NamedImage, Schedule, ScheduleStep};
use tcf_text::LogLine;
use tcf_values::ContextId;
use value_node::Side;

/// One agent and its chains. Contracts see them, the history of the target, and whether memory was wanting in a call: then
/// the world is spent, and each later call answers want of memory again.
#[derive(Drop)]
pub struct World {
    alloc: Global,
    agent: AgentNode,
    /// The number of the next channel, while one is left.
    next: Option<u64>,
    chains: Vec<Chain>,
    history: Vec<Input>,
    spent: bool,
}

impl Model for World {
    ghost use Rattle.chain_world.specs.WorldValue.{WorldValue, world_code};
    ghost use Rattle.chain_world.specs.contracts.chain.Chain as one_chain;
    ghost use Rattle.std.specs.Coded.{codes};

    ghost Value = { WorldValue };

    ghost coded = { world_code (Prim.hlevel codes) one_chain.the_row.coded (Prim.hlevel codes) };

    ghost view = { λ w. record { agent = w.agent; next = w.next; chains = w.chains.items; history = w.history.items; is_spent = w.spent } };
}

impl World {
    /// Makes the world that a schedule begins with: its images and its chains, in which nothing is opened.
    pub fn new(alloc: Global, schedule: &Schedule) -> Result<World, AllocError>
        ensures begins { IfOk result (λ world. world ≡ new_world (images_of schedule.now.images) (adds_of schedule.now.chains)) }
        ensures chains { IfOk result (λ world. length world.chains ≡ length schedule.now.chains) }
    {
        Ok(World {
            alloc,
            agent: AgentNode::new(alloc, images_of(alloc, schedule.images.as_slice())?)?,
            next: Some(0),
            chains: new_chains(alloc, schedule.chains.as_slice())?,
            history: Vec::new(alloc),
            spent: false,
        })
    }

    /// Plays a step. Where its chain, its hop or its node isn't there nothing happens. What it sends has no zero byte, and
    /// what it asks has a form.
    pub fn play(&mut self, step: &ScheduleStep) -> Result<(), AllocError>
        requires { IsPlayable (plan_of step.now) }
        ensures played { OnOk result (self.new ≡ played (plan_of step.now) self.old) }
        ensures fresh { OnOk result (self.old.is_spent ≡ false) }
        ensures spent { OnErr result (self.new.is_spent ≡ true) }
    {
        if self.spent {
            return Err(AllocError);
        }
        let answer = self.try_play(step);
        if answer.is_err() {
            self.spent = true;
        }
        answer
    }

    /// Plays the steps, in order. There are as many chains as before.
    pub fn play_all(&mut self, steps: &[ScheduleStep]) -> Result<(), AllocError>
        requires { AllByRecursion IsPlayable (plans_of steps.now) }
        ensures played { OnOk result (self.new ≡ run (plans_of steps.now) self.old) }
        ensures chains { OnOk result (length self.new.chains ≡ length self.old.chains) }
    {
        for step in steps {
            self.play(step)?;
        }
        Ok(())
    }

    fn try_play(&mut self, step: &ScheduleStep) -> Result<(), AllocError>
        requires { IsPlayable (plan_of step.now) }
        ensures { OnOk result (self.new ≡ played (plan_of step.now) self.old) }
    {
        match step {
            ScheduleStep::Times { count, step } => self.play_times(*count, step),
            _ => self.play_once(step),
        }
    }

    /// Plays the step so many times.
    #[tactic(auto, using(crate::proofs::Repeats::once_more, crate::proofs::Kept::single_isnt_repeated))]
    fn play_times(&mut self, count: u32, step: &ScheduleStep) -> Result<(), AllocError>
        requires single { IsSingle (plan_of step.now) }
        requires playable { IsPlayable (plan_of step.now) }
        ensures { OnOk result (self.new ≡ repeated count (played (plan_of step.now)) self.old) }
    {
        for counter in 0..count {
            self.play_once(step)?;
        }
        Ok(())
    }

    /// Plays a step that isn't one repeated.
    fn play_once(&mut self, step: &ScheduleStep) -> Result<(), AllocError>
        requires single { IsNotRepeated (plan_of step.now) }
        requires playable { IsPlayable (plan_of step.now) }
        ensures { OnOk result (self.new ≡ played (plan_of step.now) self.old) }
    {
        match step {
            ScheduleStep::Opens { chain } => self.open(*chain),
            ScheduleStep::Send {
                chain,
                service,
                name,
                body,
            } => self.send(*chain, service.as_slice(), name.as_slice(), body.as_slice()),
            ScheduleStep::Deliver {
                chain,
                hop,
                up,
                count,
            } => self.deliver(*chain, *hop, *up, *count as usize),
            ScheduleStep::Turn { chain, node, up } => self.turn(*chain, *node, *up),
            ScheduleStep::Tick { thread } => self.tick(*thread),
            ScheduleStep::Close { chain } => self.close(*chain),
            ScheduleStep::Cut { chain, hop } => {
                self.cut(*chain, *hop);
                Ok(())
            }
            ScheduleStep::Cached { chain, what } => self.ask(*chain, what),
            ScheduleStep::Rounds { count } => self.rounds(*count),
            ScheduleStep::Times { .. } => unreachable!(),
        }
    }

    /// The client of the chain at this place connects. A second time nothing happens.
    fn open(&mut self, at: usize) -> Result<(), AllocError>
        ensures { OnOk result (self.new ≡ opened_at at self.old) }
    {
        match self.chains.get(at) {
            Some(chain) if !chain.is_opened() => self.connect(at),
            _ => Ok(()),
        }
    }

    /// The client of an unopened chain connects; where that is to the agent, it opens the next number.
    fn connect(&mut self, at: usize) -> Result<(), AllocError>
        requires { IfSome (slice_get self.old.chains at) (λ chain. is_opened chain ≡ false) }
        ensures { OnOk result (IfSome (slice_get self.old.chains at) (λ chain. self.new ≡ connected_at at chain self.old)) }
    {
        let Some(chain) = self.chains.get_mut(at) else {
            return Ok(());
        };
        if chain.open()? {
            self.reach(at)?;
        }
        Ok(())
    }

    /// The way of the chain has reached the agent, which opens the next number; where none is left the channel is refused.
    fn reach(&mut self, at: usize) -> Result<(), AllocError>
        ensures { OnOk result (self.new ≡ reached_at at self.old) }
    {
        match self.next {
            Some(k) => self.reach_with(at, k),
            None => self.reach_none(at),
        }
    }

    /// The agent opens this number for the chain, and what it told is in flight.
    fn reach_with(&mut self, at: usize, k: u64) -> Result<(), AllocError>
        ensures { OnOk result (self.new ≡ reached_with k at self.old) }
    {
        let Some(chain) = self.chains.get_mut(at) else {
            return Ok(());
        };
        self.next = k.checked_add(1);
        let did = chain.reach(k, &mut self.agent)?;
        self.tell_opened(did, k)
    }

    /// No number is left for the chain.
    fn reach_none(&mut self, at: usize) -> Result<(), AllocError>
        ensures { OnOk result (self.new ≡ on_chain none_reached at self.old) }
    {
        match self.chains.get_mut(at) {
            Some(chain) => chain.reach_none(),
            None => Ok(()),
        }
    }

    /// The client of the chain sends a command.
    fn send(
        &mut self,
        at: usize,
        service: &[u8],
        name: &[u8],
        body: &[u8],
    ) -> Result<(), AllocError>
        requires service { HasNoZero service.now }
        requires name { HasNoZero name.now }
        ensures sent { OnOk result (self.new ≡ sent_at at service.now name.now body.now self.old) }
    {
        match self.chains.get_mut(at) {
            Some(chain) => chain.send(service, name, body),
            None => Ok(()),
        }
    }

    /// The next bytes in flight on a hop of the chain arrive as one piece, at the node above it or at the one below it.
    fn deliver(&mut self, at: usize, hop: usize, up: bool, count: usize) -> Result<(), AllocError>
        ensures { OnOk result (self.new ≡ delivered_at at hop up count self.old) }
    {
        match self.chains.get_mut(at) {
            Some(chain) if up => chain.deliver_over(hop, count, &mut self.agent),
            Some(chain) => chain.deliver_under(hop, count),
            None => Ok(()),
        }
    }

    /// A node of the chain takes an entry that travels up, or down.
    fn turn(&mut self, at: usize, node: usize, up: bool) -> Result<(), AllocError>
        ensures { OnOk result (self.new ≡ turned_at at node up self.old) }
    {
        if up {
            self.turn_up(at, node)
        } else {
            self.turn_down(at, node)
        }
    }

    /// A node takes an entry that came up: a value-add, or the agent.
    fn turn_up(&mut self, at: usize, node: usize) -> Result<(), AllocError>
        ensures { OnOk result (self.new ≡ turned_up_at at node self.old) }
    {
        let Some(below) = node.checked_sub(1) else {
            return Ok(());
        };
        if below < self.adds(at) {
            self.turn_add(at, below, Side::Below)
        } else {
            self.turn_agent(at)
        }
    }

    /// A node takes an entry that came down: a value-add, or the client.
    fn turn_down(&mut self, at: usize, node: usize) -> Result<(), AllocError>
        ensures { OnOk result (self.new ≡ turned_down_at at node self.old) }
    {
        match node.checked_sub(1) {
            Some(below) => self.turn_add(at, below, Side::Above),
            None => self.turn_client(at),
        }
    }

    /// How many value-adds the chain has.
    fn adds(&self, at: usize) -> usize
        ensures { result ≡ adds_in (slice_get self.now.chains at) }
    {
        match self.chains.get(at) {
            Some(chain) => chain.route.adds(),
            None => 0,
        }
    }

    /// A value-add of the chain takes an entry from a side; where it connects to the agent, that opens the next number.
    fn turn_add(&mut self, at: usize, add: usize, side: Side) -> Result<(), AllocError>
        ensures { OnOk result (self.new ≡ add_turned at add side (slice_get self.old.chains at) self.old) }
    {
        let Some(chain) = self.chains.get_mut(at) else {
            return Ok(());
        };
        if chain.route.turn(add, side)? {
            self.reach(at)?;
        }
        Ok(())
    }

    /// The agent takes an entry that came up on the chain, and what it told is in flight.
    fn turn_agent(&mut self, at: usize) -> Result<(), AllocError>
        ensures { OnOk result (self.new ≡ agent_turned at (slice_get self.old.chains at) self.old) }
    {
        let Some(chain) = self.chains.get(at) else {
            return Ok(());
        };
        let input = chain.turn_up(&mut self.agent)?;
        self.tell(input)
    }

    /// The client of the chain takes an entry that came down.
    fn turn_client(&mut self, at: usize) -> Result<(), AllocError>
        ensures { OnOk result (self.new ≡ on_chain turned_down at self.old) }
    {
        match self.chains.get_mut(at) {
            Some(chain) => chain.turn_down(),
            None => Ok(()),
        }
    }

    /// A thread executes one instruction, where it lives and runs.
    fn tick(&mut self, thread: ContextId) -> Result<(), AllocError>
        ensures { OnOk result (self.new ≡ ticked_in thread self.old) }
    {
        let did = self.agent.tick(thread)?;
        self.tell_ticked(did, thread)
    }

    /// The client of the chain closes its channel.
    fn close(&mut self, at: usize) -> Result<(), AllocError>
        ensures { OnOk result (self.new ≡ closed_at at self.old) }
    {
        match self.chains.get_mut(at) {
            Some(chain) => chain.close(),
            None => Ok(()),
        }
    }

    /// The client of the chain asks its cache.
    fn ask(&mut self, at: usize, what: &CachedWhat) -> Result<(), AllocError>
        requires { IsAsked what.now }
        ensures { OnOk result (self.new ≡ asked_at at what.now self.old) }
    {
        match self.chains.get_mut(at) {
            Some(chain) => chain.ask(what),
            None => Ok(()),
        }
    }

    /// A hop of the chain is cut.
    fn cut(&mut self, at: usize, hop: usize)
        ensures { self.new ≡ cut_at at hop self.old }
    {
        if let Some(chain) = self.chains.get_mut(at) {
            chain.cut(hop, &mut self.agent);
        }
    }

    /// So many rounds.
    #[tactic(auto, using(crate::proofs::Repeats::one_round))]
    fn rounds(&mut self, count: u32) -> Result<(), AllocError>
        ensures { OnOk result (self.new ≡ rounds count self.old) }
    {
        for counter in 0..count {
            self.round_all()?;
        }
        Ok(())
    }

    /// A round on each chain, in order.
    #[tactic(auto, using(crate::proofs::Repeats::one_chain))]
    fn round_all(&mut self) -> Result<(), AllocError>
        ensures { OnOk result (self.new ≡ round_all (length self.old.chains) 0 self.old) }
    {
        let count = self.chains.len();
        for at in 0..count {
            self.round(at)?;
        }
        Ok(())
    }

    /// All that is in flight on the chain arrives and is taken, if it is opened.
    fn round(&mut self, at: usize) -> Result<(), AllocError>
        ensures { OnOk result (self.new ≡ round_at at self.old) }
    {
        match self.chains.get(at) {
            Some(chain) if chain.is_opened() => self.round_of(at),
            _ => Ok(()),
        }
    }

    /// All that is in flight on a chain arrives and is taken, hop by hop, first up and then down.
    fn round_of(&mut self, at: usize) -> Result<(), AllocError>
        ensures { OnOk result (self.new ≡ round_of at self.old) }
    {
        self.round_up(at)?;
        self.turn_all_agent(at)?;
        self.round_down(at)?;
        self.take_all_down(at)
    }

    /// What is in flight up to each value-add arrives and is taken, from the lowest on; and what is in flight up to the
    /// agent arrives.
    #[tactic(auto, using(crate::proofs::Repeats::one_add_up))]
    fn round_up(&mut self, at: usize) -> Result<(), AllocError>
        ensures { OnOk result (self.new ≡ rounded_up at self.old) }
    {
        let adds = self.adds(at);
        for add in 0..adds {
            self.round_add(at, add, Side::Below)?;
        }
        self.deliver_all_up(at)
    }

    /// What is in flight down to each value-add arrives and is taken, from the highest on.
    #[tactic(auto, using(crate::proofs::Repeats::one_add_down))]
    fn round_down(&mut self, at: usize) -> Result<(), AllocError>
        ensures { OnOk result (self.new ≡ all_round_down at self.old) }
    {
        let adds = self.adds(at);
        for counter in 0..adds {
            self.round_add(at, adds - 1 - counter, Side::Above)?;
        }
        Ok(())
    }

    /// All that is in flight to a side of a value-add arrives, and is taken.
    #[tactic(auto, using(crate::proofs::Repeats::one_turn_add))]
    fn round_add(&mut self, at: usize, add: usize, side: Side) -> Result<(), AllocError>
        ensures { OnOk result (self.new ≡ add_rounded at add side self.old) }
    {
        let waiting = match self.chains.get_mut(at) {
            Some(chain) => {
                chain.route.deliver_all(add, side)?;
                chain.route.waiting(add, side)
            }
            None => 0,
        };
        for counter in 0..waiting {
            self.turn_add(at, add, side)?;
        }
        Ok(())
    }

    /// All that is in flight up the chain arrives at the agent.
    fn deliver_all_up(&mut self, at: usize) -> Result<(), AllocError>
        ensures { OnOk result (self.new ≡ with_agent all_up at self.old) }
    {
        match self.chains.get_mut(at) {
            Some(chain) => chain.deliver_all_up(&mut self.agent),
            None => Ok(()),
        }
    }

    /// All that is in flight down the chain arrives at the client, and is taken.
    fn take_all_down(&mut self, at: usize) -> Result<(), AllocError>
        ensures { OnOk result (self.new ≡ on_chain (λ chain. all_taken_down (all_down chain)) at self.old) }
    {
        match self.chains.get_mut(at) {
            Some(chain) => {
                chain.deliver_all_down()?;
                chain.take_all_down()
            }
            None => Ok(()),
        }
    }

    /// The agent takes all that waits in the inboxes of the chain's channels.
    #[tactic(auto, using(crate::proofs::Repeats::one_turn_up))]
    fn turn_all_agent(&mut self, at: usize) -> Result<(), AllocError>
        ensures { OnOk result (self.new ≡ agent_taken at self.old) }
    {
        let waiting = match self.chains.get(at) {
            Some(chain) => chain.waiting_up(&self.agent),
            None => 0,
        };
        for counter in 0..waiting {
            self.turn_agent(at)?;
        }
        Ok(())
    }

    /// The opening is an input where the agent did it, and what it told is in flight.
    fn tell_opened(&mut self, did: bool, k: u64) -> Result<(), AllocError>
        ensures { OnOk result (self.new ≡ carried (with_input (opening did k) self.old)) }
    {
        if did {
            self.history.push(Input::Opened(k))?;
        }
        self.carry_down()
    }

    /// The instruction is an input where the agent did it, and what it told is in flight.
    fn tell_ticked(&mut self, did: bool, thread: ContextId) -> Result<(), AllocError>
        ensures { OnOk result (self.new ≡ carried (with_input (tick_of did thread) self.old)) }
    {
        if did {
            self.history.push(Input::Ticked(thread))?;
        }
        self.carry_down()
    }

    /// An input is the next of the history, if there is one, and what it told is in flight.
    fn tell(&mut self, input: Option<Input>) -> Result<(), AllocError>
        ensures { OnOk result (self.new ≡ carried (with_input input self.old)) }
    {
        if let Some(input) = input {
            self.history.push(input)?;
        }
        self.carry_down()
    }

    /// What the agent queued for each chain is in flight.
    #[tactic(auto, unfolding(crate::specs::World::carried))]
    fn carry_down(&mut self) -> Result<(), AllocError>
        ensures { OnOk result (self.new ≡ carried self.old) }
    {
        carry_all(&mut self.chains, &mut self.agent)
    }

    /// The inputs of the target so far.
    pub fn history(&self) -> &[Input]
        ensures { result.now ≡ self.now.history }
    {
        self.history.as_slice()
    }

    /// The log of the client of the chain at this place.
    pub fn log(&self, chain: usize) -> &[LogLine]
        requires { chain < length self.now.chains }
        ensures { result.now ≡ log_at chain self.now }
    {
        self.chains[chain].client.log()
    }

    /// Whether no byte is in flight on the chain at this place, and no entry waits in an inbox.
    pub fn quiet(&self, chain: usize) -> bool
        requires { chain < length self.now.chains }
        ensures { result ≡ quiet_at chain self.now }
    {
        self.chains[chain].is_quiet(&self.agent)
    }
}

/// The images of a schedule, as the target has them.
pub fn images_of(alloc: Global, named: &[NamedImage]) -> Result<Vec<Image>, AllocError>
    ensures { IfOk result (λ images. images.items ≡ images_of named.now) }
{
    let mut images = Vec::new(alloc);
    for image in named {
        images.push(image_of(image)?)?;
    }
    Ok(images)
}

/// An image of a schedule, as the target has it.
fn image_of(named: &NamedImage) -> Result<Image, AllocError>
    ensures { IfOk result (λ image. image ≡ image_of named.now) }
{
    Ok(Image {
        name: named.name.copy()?,
        bytes: named.bytes.copy()?,
    })
}

/// The chains of a header, in which nothing is opened.
fn new_chains(alloc: Global, heads: &[ChainHead]) -> Result<Vec<Chain>, AllocError>
    ensures { IfOk result (λ chains. chains.items ≡ new_chains (adds_of heads.now)) }
{
    let mut chains = Vec::new(alloc);
    for head in heads {
        chains.push(Chain::new(alloc, head.adds)?)?;
    }
    Ok(chains)
}

/// What the agent queued for each of these chains is in flight.
fn carry_all(chains: &mut Vec<Chain>, agent: &mut AgentNode) -> Result<(), AllocError>
    ensures chains { OnOk result (chains.new.items ≡ (all_carried chains.old.items agent.old).chains) }
    ensures agent { OnOk result (agent.new ≡ (all_carried chains.old.items agent.old).agent) }
{
    for chain in chains.iter_mut() {
        chain.carry_down(agent)?;
    }
    Ok(())
}
