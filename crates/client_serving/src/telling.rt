//! What a client is given, and what it tells.
ghost use Rattle.std.specs.Prelude.{◌≡◌, OnOk};
ghost use Rattle.client_serving.specs.Begun.{all_queued};
ghost use Rattle.client_serving.specs.Serving.{came_to, client_emptied, queue_of};

use client_node::ClientNode;
use serving_wires::{Came, Sending};
use std::alloc::AllocError;

/// Gives the client what came on its wire, where nothing has a mark.
pub(crate) fn give(client: &mut ClientNode, came: &Came) -> Result<(), AllocError>
    ensures { OnOk result (client.new ≡ came_to came.now client.old) }
{
    match came {
        Came::Piece(bytes) => client.deliver(bytes.as_slice(), None),
        Came::End => {
            client.ended();
            Ok(())
        }
    }
}

/// Queues all that the client has to send.
pub(crate) fn gather(
    client: &mut ClientNode,
    channel: u64,
    sending: &mut Sending,
) -> Result<(), AllocError>
    ensures client { OnOk result (client.new ≡ client_emptied client.old) }
    ensures sending { OnOk result (sending.new ≡ all_queued channel (queue_of client.old.channel) sending.old) }
{
    while let Some(outgoing) = client.take_out() {
        sending.queue(channel, outgoing.bytes.as_slice())?;
    }
    Ok(())
}
