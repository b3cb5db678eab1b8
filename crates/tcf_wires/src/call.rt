//! A call of the wires, as it is told.
use crate::event::{Put, WireEvent, WireRefusal};
use tcf_outside::Octets;

/// A call of the wires with its arguments and its answer. A call that wanted memory isn't told.
#[derive(Debug, Drop)]
pub enum WireCall {
    /// A `listen`: the address, and whether it could be listened on.
    Listened(Octets, Result<(), WireRefusal>),
    /// A `connect`: the peer, and the number of the new channel.
    Connected(Octets, Result<u64, WireRefusal>),
    /// A `next`: what came.
    Gave(Result<WireEvent, WireRefusal>),
    /// A `put`: the channel, the piece that was offered whole, and what became of it.
    Offered(u64, Octets, Put),
    /// A `shut`: the channel.
    Shut(u64),
}
