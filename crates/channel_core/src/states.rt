//! Where an end stands, and why it is closed.
use stream_escape::StreamFault;
use tcf_message::MessageFault;

/// Where an end of a channel stands.
#[derive(Clone, Copy, Debug, PartialEq, Eq)]
pub enum EndState {
    /// It waits for the other side's Hello.
    Opening,
    /// The other side's Hello has come.
    Live,
    /// It sent a redirect, and waits for its answer, or for the Hello of the peer behind it.
    Reopening,
    /// The channel is closed, for this cause.
    Closed(Cause),
}

/// Why an end is closed.
#[derive(Clone, Copy, Debug, PartialEq, Eq)]
pub enum Cause {
    /// By its own side.
    Own,
    /// The other side ended its stream.
    Eos,
    /// The bytes have ended.
    Ended,
    /// The other side broke the protocol with this message, counted from 1.
    Protocol { message: u64, reason: Reason },
    /// The bytes are no stream.
    Stream(StreamFault),
}

/// How a message breaks the protocol.
#[derive(Clone, Copy, Debug, PartialEq, Eq)]
pub enum Reason {
    /// Its bytes are no message.
    Grammar(MessageFault),
    /// It came before the Hello.
    Early,
    /// It answers a command that isn't pending, or that wasn't sent yet.
    Token,
}
