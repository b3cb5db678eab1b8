//! How the run of a client ends.
ghost use Rattle.std.specs.Prelude.{◌≡◌};
ghost use Rattle.client_serving.specs.Serving.{cause_of};

use channel_core::{Cause, EndState};
use client_node::ClientNode;

/// How the run of a client ended.
#[derive(Clone, Copy, Debug, PartialEq, Eq)]
pub enum ClientEnd {
    /// The last line of the script was done and nothing was pending, and the client has closed its channel.
    Done,
    /// Before that the channel closed otherwise than by the script; or `Stop` came, and the cause is `Ended`.
    Ended { cause: Cause },
    /// All turns were taken before that.
    Turns,
}

/// A run that ended, and the client as it stood then, with its log.
#[derive(Drop)]
pub struct ClientRun {
    /// How it ended.
    pub end: ClientEnd,
    /// The client then.
    pub client: ClientNode,
}

/// Why the client's channel is closed, if it is.
pub(crate) fn cause_of(client: &ClientNode) -> Option<Cause>
    ensures { result ≡ cause_of client.now.channel }
{
    match client.state() {
        Some(EndState::Closed(cause)) => Some(cause),
        _ => None,
    }
}
