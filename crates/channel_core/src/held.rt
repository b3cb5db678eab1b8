//! What waits at an end: what came and wasn't taken, what is held, and what is queued to be sent.
use tcf_outside::Octets;

/// A message that came, with the mark that its bytes had.
#[derive(Debug, Drop)]
pub struct Incoming {
    /// The message, unescaped.
    pub raw: Octets,
    /// The mark of the bytes; no mark ever goes on a wire.
    pub mark: Option<u64>,
}

/// Bytes to be sent, and the mark to be put beside them.
#[derive(Debug, Drop)]
pub struct Outgoing {
    /// A whole message or the end of the stream, escaped.
    pub bytes: Octets,
    /// The mark that the caller gave beside the message; no mark ever goes on a wire.
    pub mark: Option<u64>,
}

/// A message in the inbox, other than flow control.
#[derive(Debug, Drop)]
pub struct Arrived {
    /// Its number among all that came, from 1 on.
    pub number: u64,
    pub incoming: Incoming,
}

/// A command that is accepted and not sent yet.
#[derive(Debug, Drop)]
pub struct Held {
    pub token: u64,
    pub is_redirect: bool,
    pub outgoing: Outgoing,
}
