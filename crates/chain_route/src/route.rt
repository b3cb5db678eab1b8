//! The way from a client to the agent.
ghost use Rattle.std.specs.Prelude.{◌≡◌, ◌+◌, ◌<◌, ◌==◌, ◌∷◌, [], IfOk, OnOk, length};
ghost use Rattle.std.specs.List.{list_all};
ghost use Rattle.value_node.specs.Value.{ended};
ghost use Rattle.chain_route.specs.Hop.{cut as hop_cut};
ghost use Rattle.chain_route.specs.Lane.{arriving};
ghost use Rattle.chain_route.specs.Route.{all_delivered_at, arrived_down, arrived_up, beside, connected, cut, delivered_at, ended_below, flight_down, flight_up, hops_of, is_add_quiet, is_hop_quiet, is_live, is_quiet, joined, last_of, made_at, new_route, on_add, on_hop, peer_of, reached, refused, sent_down, sent_up, turned, upper_below, waiting_in, with_carried, with_upper};

use crate::hop::Hop;
use crate::passing::{carry, deliver, deliver_all};
use channel_core::Outgoing;
use std::alloc::{AllocError, Global};
use std::marker::Model;
use tcf_values::Text;
use value_node::{Side, ValueNode, ValueTurn};

/// The hops from a client up to the agent, and the value-adds between them that were made so far, the nearest to the
/// client first. Hop 0 leads up from the client, and hop i + 1 from value-add i; hop i leads up to value-add i, and the
/// last one to the agent.
#[derive(Drop)]
pub struct Route {
    alloc: Global,
    hops: Vec<Hop>,
    adds: Vec<ValueNode>,
}

impl Model for Route {
    ghost use Rattle.chain_route.specs.RouteValue.{RouteValue, route_code};
    ghost use Rattle.chain_route.specs.contracts.hop.Hop as hop;
    ghost use Rattle.value_node.specs.contracts.value.ValueNode as value;

    ghost Value = { RouteValue };

    ghost coded = { route_code hop.the_row.coded value.the_row.coded };

    ghost view = { λ r. record { hops = r.hops.items; adds = r.adds.items } };
}

impl Route {
    /// A way with so many value-adds, on which nothing is connected.
    pub fn new(alloc: Global, adds: usize) -> Result<Route, AllocError>
        ensures { IfOk result (λ route. route ≡ new_route adds) }
    {
        Ok(Route {
            alloc,
            hops: hops_of(alloc, adds)?,
            adds: Vec::new(alloc),
        })
    }

    // ---- connections

    /// The node below this hop connects: a value-add above the hop is made anew. Answers whether it is the agent that is
    /// above it; then nothing is done, and the caller has the agent open a channel.
    pub fn connect(&mut self, hop: usize) -> Result<bool, AllocError>
        ensures { IfOk result (λ reaches. (reaches, self.new) ≡ connected hop self.old) }
    {
        if hop >= self.last() {
            return Ok(true);
        }
        self.make(hop)?;
        self.join(hop)?;
        self.carry(hop, Side::Below)?;
        Ok(false)
    }

    /// The value-add above a hop is made anew, and those that an earlier one had above it are gone.
    fn make(&mut self, hop: usize) -> Result<(), AllocError>
        ensures { OnOk result (self.new ≡ made_at hop self.old) }
    {
        let add = ValueNode::new(self.alloc, self.peer(hop)?)?;
        self.adds.truncate(hop);
        self.adds.push(add)?;
        Ok(())
    }

    /// The agent opened a channel for the node below the last hop, or refused it: then the end of the stream comes down, and
    /// nothing goes up.
    pub fn reach(&mut self, did: bool) -> Result<(), AllocError>
        ensures { OnOk result (self.new ≡ reached did self.old) }
    {
        let last = self.last();
        if did {
            self.join(last)
        } else {
            self.refuse(last)
        }
    }

    /// The hop begins anew with the end of the stream, which comes down, and so does the upper end of a value-add below it.
    fn refuse(&mut self, hop: usize) -> Result<(), AllocError>
        ensures { OnOk result (self.new ≡ refused hop self.old) }
    {
        if let Some(hop) = self.hops.get_mut(hop) {
            hop.refuse()?;
        }
        self.begin_below(hop)
    }

    /// The hop begins anew with nothing in flight, and so does the upper end of a value-add below it, whose Hello goes up.
    fn join(&mut self, hop: usize) -> Result<(), AllocError>
        ensures { OnOk result (self.new ≡ joined hop self.old) }
    {
        if let Some(hop) = self.hops.get_mut(hop) {
            hop.connect();
        }
        self.begin_below(hop)
    }

    /// The upper end of a value-add below a hop begins, and its Hello goes up.
    fn begin_below(&mut self, hop: usize) -> Result<(), AllocError>
        ensures { OnOk result (self.new ≡ upper_below hop self.old) }
    {
        match hop.checked_sub(1) {
            Some(below) => self.begin_upper(below),
            None => Ok(()),
        }
    }

    /// The upper end of a value-add that waits for a connection begins, and its Hello goes up.
    fn begin_upper(&mut self, at: usize) -> Result<(), AllocError>
        ensures { OnOk result (self.new ≡ with_upper at self.old) }
    {
        if let Some(add) = self.adds.get_mut(at) {
            add.connected()?;
        }
        self.carry(at, Side::Above)
    }

    /// The place of the hop that leads to the agent.
    fn last(&self) -> usize
        ensures { result ≡ last_of self.now }
    {
        self.hops.len().saturating_sub(1)
    }

    /// The name of the peer of the value-add above a hop that isn't the last.
    fn peer(&self, hop: usize) -> Result<Text, AllocError>
        ensures { IfOk result (λ peer. peer ≡ peer_of hop self.now) }
    {
        // In more bits than a place has, so that no sum is too large.
        let above = hop as u128 + 1;
        if above == self.last() as u128 {
            return Text::from_str(self.alloc, "Agent");
        }
        let name = format!(in self.alloc; "V{}", above + 1)?;
        Text::from_str(self.alloc, name.as_str())
    }

    // ---- a value-add, by its place

    /// What the value-add at this place queued on this side is in flight.
    fn carry(&mut self, at: usize, side: Side) -> Result<(), AllocError>
        ensures { OnOk result (self.new ≡ with_carried side at self.old) }
    {
        let Some(add) = self.adds.get_mut(at) else {
            return Ok(());
        };
        match self.hops.get_mut(beside(at, side)) {
            Some(hop) => carry(add, hop, side),
            None => Ok(()),
        }
    }

    /// The next bytes in flight arrive as one piece at this side of the value-add at this place; nothing where the hop
    /// isn't live, or where 200 entries wait.
    pub fn deliver(&mut self, at: usize, side: Side, count: usize) -> Result<(), AllocError>
        ensures { OnOk result (self.new ≡ delivered_at side at count self.old) }
    {
        let Some(add) = self.adds.get_mut(at) else {
            return Ok(());
        };
        match self.hops.get_mut(beside(at, side)) {
            Some(hop) => deliver(add, hop, side, count),
            None => Ok(()),
        }
    }

    /// All bytes in flight to this side of the value-add arrive, in pieces, until its inbox is full.
    pub fn deliver_all(&mut self, at: usize, side: Side) -> Result<(), AllocError>
        ensures { OnOk result (self.new ≡ all_delivered_at side at self.old) }
    {
        let Some(add) = self.adds.get_mut(at) else {
            return Ok(());
        };
        match self.hops.get_mut(beside(at, side)) {
            Some(hop) => deliver_all(add, hop, side),
            None => Ok(()),
        }
    }

    /// How many entries wait at this side of the value-add; none where there is none.
    pub fn waiting(&self, at: usize, side: Side) -> usize
        ensures { result ≡ waiting_in side at self.now }
    {
        match self.adds.get(at) {
            Some(add) => add.waiting(side),
            None => 0,
        }
    }

    /// The value-add takes an entry from this side. Where that makes it connect to the agent, nothing is connected yet,
    /// and the answer is true: the caller has the agent open a channel.
    pub fn turn(&mut self, at: usize, side: Side) -> Result<bool, AllocError>
        ensures { IfOk result (λ reaches. (reaches, self.new) ≡ turned side at self.old) }
    {
        let Some(add) = self.adds.get_mut(at) else {
            return Ok(false);
        };
        let turn = add.turn(side)?;
        self.carry(at, Side::Below)?;
        self.carry(at, Side::Above)?;
        match turn {
            ValueTurn::Connect => self.connect(at + 1),
            ValueTurn::Nothing | ValueTurn::Took => Ok(false),
        }
    }

    // ---- a hop, by its place

    /// The hop is cut, and the value-adds at its ends have ended; answers whether it was live. Nothing happens where it
    /// wasn't.
    pub fn cut(&mut self, hop: usize) -> bool
        ensures { (result, self.new) ≡ cut hop self.old }
    {
        if !self.is_live(hop) {
            return false;
        }
        self.lose(hop);
        self.end(hop, Side::Below);
        self.end_below(hop);
        true
    }

    /// The connection is lost, with all that is in flight on the hop.
    fn lose(&mut self, hop: usize)
        ensures { self.new ≡ on_hop hop_cut hop self.old }
    {
        if let Some(hop) = self.hops.get_mut(hop) {
            hop.cut();
        }
    }

    /// The bytes that come to this side of the value-add at this place have ended.
    fn end(&mut self, at: usize, side: Side)
        ensures { self.new ≡ on_add (ended side) at self.old }
    {
        if let Some(add) = self.adds.get_mut(at) {
            add.ended(side);
        }
    }

    /// Those that come from the hop to the value-add below it have ended.
    fn end_below(&mut self, hop: usize)
        ensures { self.new ≡ ended_below hop self.old }
    {
        if let Some(below) = hop.checked_sub(1) {
            self.end(below, Side::Above);
        }
    }

    /// Whether the hop is live.
    pub fn is_live(&self, hop: usize) -> bool
        ensures { result ≡ is_live hop self.now }
    {
        match self.hops.get(hop) {
            Some(hop) => hop.is_live,
            None => false,
        }
    }

    // ---- the client's side, and the agent's

    /// What the client queued goes up.
    pub fn send_up(&mut self, out: Outgoing) -> Result<(), AllocError>
        ensures { OnOk result (self.new ≡ sent_up (out ∷ []) self.old) }
    {
        match self.hops.get_mut(0) {
            Some(hop) => hop.send_up(out),
            None => Ok(()),
        }
    }

    /// What the agent queued goes down.
    pub fn send_down(&mut self, out: Outgoing) -> Result<(), AllocError>
        ensures { OnOk result (self.new ≡ sent_down (out ∷ []) self.old) }
    {
        let last = self.last();
        match self.hops.get_mut(last) {
            Some(hop) => hop.send_down(out),
            None => Ok(()),
        }
    }

    /// The next bytes in flight to the client arrive.
    pub fn arrive_down(&mut self, count: usize) -> Result<Vec<Outgoing>, AllocError>
        ensures parts { IfOk result (λ parts. parts.items ≡ arriving count (flight_down self.old)) }
        ensures stays { OnOk result (self.new ≡ arrived_down count self.old) }
    {
        match self.hops.get_mut(0) {
            Some(hop) => hop.down.arrive(count),
            None => Ok(Vec::new(self.alloc)),
        }
    }

    /// The next bytes in flight to the agent arrive.
    pub fn arrive_up(&mut self, count: usize) -> Result<Vec<Outgoing>, AllocError>
        ensures parts { IfOk result (λ parts. parts.items ≡ arriving count (flight_up self.old)) }
        ensures stays { OnOk result (self.new ≡ arrived_up count self.old) }
    {
        let last = self.last();
        match self.hops.get_mut(last) {
            Some(hop) => hop.up.arrive(count),
            None => Ok(Vec::new(self.alloc)),
        }
    }

    /// Whether nothing is in flight to the client.
    pub fn is_empty_down(&self) -> bool
        ensures { result ≡ (length (flight_down self.now) == 0) }
    {
        match self.hops.get(0) {
            Some(hop) => hop.down.is_empty(),
            None => true,
        }
    }

    /// Whether nothing is in flight to the agent.
    pub fn is_empty_up(&self) -> bool
        ensures { result ≡ (length (flight_up self.now) == 0) }
    {
        match self.hops.get(self.last()) {
            Some(hop) => hop.up.is_empty(),
            None => true,
        }
    }

    /// How many value-adds the way has, those too that aren't made yet.
    pub fn adds(&self) -> usize
        ensures { result ≡ last_of self.now }
    {
        self.last()
    }

    /// Whether nothing is in flight on any hop, and nothing waits in an inbox of a value-add.
    pub fn is_quiet(&self) -> bool
        ensures { result ≡ is_quiet self.now }
    {
        are_hops_quiet(&self.hops) && are_adds_quiet(&self.adds)
    }
}

/// Whether nothing is in flight on these hops.
fn are_hops_quiet(hops: &[Hop]) -> bool
    ensures { result ≡ list_all is_hop_quiet hops.now }
{
    hops.iter()
        .all(|hop| hop.up.is_empty() && hop.down.is_empty())
}

/// Whether nothing waits in an inbox of these value-adds.
fn are_adds_quiet(adds: &[ValueNode]) -> bool
    ensures { result ≡ list_all is_add_quiet adds.now }
{
    adds.iter().all(|add| add.waiting(Side::Below) == 0 && add.waiting(Side::Above) == 0)
}

/// The place of the hop on this side of the value-add at this place.
fn beside(at: usize, side: Side) -> usize
    requires { at + 1 < 18446744073709551616 }
    ensures { result ≡ beside side at }
{
    match side {
        Side::Below => at,
        Side::Above => at + 1,
    }
}

/// The hops of a way with so many value-adds, none of them connected.
#[tactic(auto, using(crate::proofs::Hops::one_more_hop))]
fn hops_of(alloc: Global, adds: usize) -> Result<Vec<Hop>, AllocError>
    ensures { IfOk result (λ hops. hops.items ≡ hops_of adds) }
{
    let mut hops = Vec::new(alloc);
    hops.push(Hop::new(alloc))?;
    for counter in 0..adds {
        hops.push(Hop::new(alloc))?;
    }
    Ok(hops)
}
