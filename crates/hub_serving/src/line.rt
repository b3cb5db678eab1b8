//! The line of one wire: whose it is, and what came on it and waits.
ghost use Rattle.std.specs.Prelude.{◌≡◌, OnOk};
ghost use Rattle.hub_serving.specs.Lines.{can_give, came_to, given_of, left_of, new_line};

use crate::hub::Hub;
use hub_node::HubSide;
use serving_wires::{Came, Intake};
use std::alloc::{AllocError, Global};

/// What is kept of a wire.
#[derive(Drop)]
pub struct Line {
    pub channel: u64,
    /// The side of the hub that it is the wire of.
    pub side: HubSide,
    pub intake: Intake,
}

/// The line of a wire on which nothing came yet.
pub(crate) fn new_line(alloc: Global, side: HubSide, channel: u64) -> Line
    ensures { result ≡ new_line side channel }
{
    Line {
        channel,
        side,
        intake: Intake::new(alloc),
    }
}

impl Line {
    /// Whether what waits first can be given to the hub.
    pub(crate) fn can_give(&self, hub: &Hub) -> bool
        ensures { result ≡ can_give hub.now self.now }
    {
        self.intake.has_next(0) && self.intake.has_next(hub.waiting(self.side))
    }

    /// Gives the hub what waits first, if it can be given.
    pub(crate) fn give(&mut self, hub: &mut Hub) -> Result<(), AllocError>
        ensures hub { OnOk result (hub.new ≡ given_of self.old hub.old) }
        ensures line { OnOk result (self.new ≡ left_of hub.old self.old) }
    {
        if let Some(came) = self.intake.next(hub.waiting(self.side)) {
            give(hub, self.side, &came)?;
        }
        Ok(())
    }
}

/// Gives the hub what came on a side.
fn give(hub: &mut Hub, side: HubSide, came: &Came) -> Result<(), AllocError>
    ensures { OnOk result (hub.new ≡ came_to side came.now hub.old) }
{
    match came {
        Came::Piece(bytes) => hub.deliver(side, bytes.as_slice()),
        Came::End => {
            hub.ended(side);
            Ok(())
        }
    }
}
