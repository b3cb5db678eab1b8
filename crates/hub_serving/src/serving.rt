//! The hub with the lines of its wires, and what each event makes of them.
ghost use Rattle.std.specs.Prelude.{◌≡◌, IfOk, OnErr, OnOk};
ghost use Rattle.serving_wires.specs.Going.{DoesAlone};
ghost use Rattle.serving_wires.specs.Sending.{begun, opened_by};
ghost use Rattle.hub_serving.specs.Serving.{acted, behaviour, connected_on, handled, heard_on, new_serving, opened_on};

use crate::gathering::gather;
use crate::hub::Hub;
use crate::line::{Line, new_line};
use crate::passing::pass_on;
use hub_node::HubSide;
use serving_wires::{Came, END_OF_STREAM, Roster, Sending, Served};
use std::alloc::{AllocError, Global};
use std::marker::Model;
use tcf_values::Text;
use tcf_wires::{WireEvent, Wires};

/// A served hub.
#[derive(Drop)]
pub struct Serving {
    alloc: Global,
    /// Whom it connects to.
    peer: Text,
    hub: Hub,
    /// The line of the wire above first, and then those of the lower channels in the order of their opening.
    lines: Roster<Line>,
}

impl Model for Serving {
    ghost use Rattle.hub_serving.specs.ServingValue.{ServingValue};

    ghost Value = { ServingValue };

    ghost view = { λ s. record { peer = s.peer; hub = s.hub; lines = s.lines } };
}

impl Serving {
    /// A hub that isn't connected yet.
    pub fn new(alloc: Global, peer: &str) -> Result<Serving, AllocError>
        ensures { IfOk result (λ serving. serving ≡ new_serving peer.now) }
    {
        Ok(Serving {
            alloc,
            peer: Text::from_str(alloc, peer)?,
            hub: Hub::new(alloc)?,
            lines: Roster::new(alloc),
        })
    }

    /// The wire of this channel is the one above.
    pub(crate) fn connected(
        &mut self,
        channel: u64,
        sending: &mut Sending,
    ) -> Result<(), AllocError>
        ensures serving { OnOk result (self.new ≡ connected_on channel self.old) }
        ensures sending { OnOk result (sending.new ≡ begun channel sending.old) }
    {
        sending.begin(channel)?;
        self.lines
            .push(channel, new_line(self.alloc, HubSide::Above, channel))
    }

    /// What an event is to the hub, before anything is passed on.
    #[tactic(auto, unfolding(crate::specs::Serving::acted))]
    fn act(&mut self, event: WireEvent, sending: &mut Sending) -> Result<(), AllocError>
        ensures peer { OnOk result (self.new.peer ≡ self.old.peer) }
        ensures acts { OnOk result ((peer : _) → DoesAlone peer (acted event self.old) self.new (opened_by event sending.old) sending.new) }
    {
        match event {
            WireEvent::Opened(channel) => self.open(channel, sending),
            WireEvent::Piece(channel, bytes) => self.hear(channel, Came::Piece(bytes)),
            WireEvent::Ended(channel) | WireEvent::Lost(channel) => self.hear(channel, Came::End),
            WireEvent::Idle | WireEvent::Stop => Ok(()),
        }
    }

    /// A connection came: the hub opens a lower channel for it. Where it refuses that the connection is sent the end of the
    /// stream alone.
    fn open(&mut self, channel: u64, sending: &mut Sending) -> Result<(), AllocError>
        ensures peer { OnOk result (self.new.peer ≡ self.old.peer) }
        ensures opens { OnOk result ((peer : _) → DoesAlone peer (opened_on channel self.old) self.new (begun channel sending.old) sending.new) }
    {
        sending.begin(channel)?;
        if self.hub.opened(channel)? {
            let side = HubSide::Below(channel);
            return self
                .lines
                .push(channel, new_line(self.alloc, side, channel));
        }
        sending.queue(channel, END_OF_STREAM)?;
        sending.close(channel);
        Ok(())
    }

    /// Something came on a channel, and waits behind what is there. On a channel of no line it is dropped.
    #[tactic(auto, unfolding(crate::specs::Serving::heard_on))]
    fn hear(&mut self, channel: u64, came: Came) -> Result<(), AllocError>
        ensures { OnOk result (self.new ≡ heard_on channel came self.old) }
    {
        if let Some(place) = self.lines.place_of(channel) {
            if let Some(line) = self.lines.get_mut(place) {
                line.intake.push(came)?;
            }
        }
        Ok(())
    }
}

impl Served for Serving {
    ghost behaviour = { behaviour };

    /// An event comes: it goes to the hub, all messages that can be taken are taken, and what the hub has to send is queued.
    fn heed<W: Wires>(
        &mut self,
        event: WireEvent,
        sending: &mut Sending,
        _wires: &mut W,
    ) -> Result<(), AllocError> {
        self.act(event, sending)?;
        pass_on(&mut self.hub, &mut self.lines)?;
        gather(self.alloc, &mut self.hub, &mut self.lines, sending)
    }
}
