//! An agent with what came on its channels, and what each event makes of them.
ghost use Rattle.std.specs.Prelude.{◌≡◌, [], IfOk, OnOk};
ghost use Rattle.serving_wires.specs.Going.{DoesAlone};
ghost use Rattle.serving_wires.specs.Sending.{begun, opened_by};
ghost use Rattle.agent_serving.specs.Serving.{acted, behaviour, heard_on, new_serving, opened_on, passed_at};

use crate::gathering::{gather, gather_all};
use crate::passing::pass_on;
use crate::ticking::idle;
use agent_node::{AgentNode, Image};
use serving_wires::{Came, END_OF_STREAM, Intake, Roster, Sending, Served};
use std::alloc::{AllocError, Global};
use std::marker::Model;
use tcf_wires::{WireEvent, Wires};

/// A served agent, with what came on each of its channels and waits. A channel whose end was taken is forgotten.
#[derive(Drop)]
pub struct Serving {
    alloc: Global,
    agent: AgentNode,
    lines: Roster<Intake>,
}

impl Model for Serving {
    ghost use Rattle.agent_serving.specs.ServingValue.{ServingValue};

    ghost Value = { ServingValue };

    ghost view = { λ s. record { agent = s.agent; lines = s.lines } };
}

impl Serving {
    pub fn new(alloc: Global, images: Vec<Image>) -> Result<Serving, AllocError>
        ensures { IfOk result (λ serving. serving ≡ new_serving images.items) }
    {
        Ok(Serving {
            alloc,
            agent: AgentNode::new(alloc, images)?,
            lines: Roster::new(alloc),
        })
    }

    #[tactic(auto, unfolding(crate::specs::Serving::acted))]
    fn act(&mut self, event: WireEvent, sending: &mut Sending) -> Result<(), AllocError>
        ensures { OnOk result (DoesAlone [] (acted event self.old) self.new (opened_by event sending.old) sending.new) }
    {
        match event {
            WireEvent::Opened(channel) => self.open(channel, sending),
            WireEvent::Piece(channel, bytes) => self.hear(channel, Came::Piece(bytes), sending),
            WireEvent::Ended(channel) | WireEvent::Lost(channel) => {
                self.hear(channel, Came::End, sending)
            }
            WireEvent::Idle => idle(&mut self.agent),
            WireEvent::Stop => Ok(()),
        }
    }

    /// A peer connected. For a channel that the agent refuses the end of the stream is all that is sent.
    fn open(&mut self, channel: u64, sending: &mut Sending) -> Result<(), AllocError>
        ensures { OnOk result (DoesAlone [] (opened_on channel self.old) self.new (begun channel sending.old) sending.new) }
    {
        sending.begin(channel)?;
        if self.agent.opened(channel)? {
            return self.lines.push(channel, Intake::new(self.alloc));
        }
        sending.queue(channel, END_OF_STREAM)?;
        sending.close(channel);
        Ok(())
    }

    /// Something came on a channel. On an unknown one it is dropped. Behind the channel's end what is still queued for it is
    /// the last.
    fn hear(&mut self, channel: u64, came: Came, sending: &mut Sending) -> Result<(), AllocError>
        ensures { OnOk result (DoesAlone [] (heard_on channel came self.old) self.new sending.old sending.new) }
    {
        if let Some(place) = self.lines.place_of(channel) {
            if hear_at(&mut self.agent, &mut self.lines, place, channel, came)? {
                gather(&mut self.agent, channel, sending)?;
                sending.close(channel);
                self.lines.remove(place);
            }
        }
        Ok(())
    }
}

impl Served for Serving {
    ghost behaviour = { behaviour };

    /// An event comes: it goes to the agent, all messages that can be taken are taken, and what the agent tells is queued.
    #[tactic(auto, unfolding(crate::specs::Serving::handled))]
    fn heed<W: Wires>(
        &mut self,
        event: WireEvent,
        sending: &mut Sending,
        wires: &mut W,
    ) -> Result<(), AllocError> {
        self.act(event, sending)?;
        gather_all(&mut self.agent, &self.lines, sending)
    }

    /// While a thread of the target runs it goes on.
    fn waits_for_events(&self) -> bool {
        !self.agent.has_running()
    }
}

/// Something came on the channel at a place, and goes to the agent; all messages that can be taken are taken. Answers whether
/// the end of the channel was.
fn hear_at(
    agent: &mut AgentNode,
    lines: &mut Roster<Intake>,
    place: usize,
    channel: u64,
    came: Came,
) -> Result<bool, AllocError>
    ensures { IfOk result (λ is_over. (is_over, record { agent = agent.new; lines = lines.new }) ≡ passed_at place channel came (record { agent = agent.old; lines = lines.old })) }
{
    match lines.get_mut(place) {
        Some(line) => {
            line.push(came)?;
            pass_on(agent, channel, line)
        }
        None => Ok(false),
    }
}
