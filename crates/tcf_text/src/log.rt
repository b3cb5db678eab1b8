//! A client's log: what each of its lines says, and its text.
use cached_lines::CachedWhat;
use tcf_outside::Octets;

/// How the words and the data of a line are shown.
#[derive(Clone, Copy, Debug, PartialEq, Eq)]
pub enum Showing {
    /// As a log is printed.
    Plain,
    /// So that each can be read back: of a word a first `!` is shown as `%21`, and a `-` that stands alone as `%2D`.
    Readable,
}

/// Why a command was not accepted.
#[derive(Clone, Copy, Debug, PartialEq, Eq)]
pub enum RefusedWhy {
    /// 1,024 commands are pending.
    Full,
    /// The channel isn't open.
    NotOpen,
    /// Service, command and data together have more than 1,048,576 bytes.
    TooLong,
    /// The last token was the last one that there is.
    Spent,
}

/// Why a channel ended.
#[derive(Clone, Copy, Debug, PartialEq, Eq)]
pub enum EndWhy {
    /// It was closed here.
    Own,
    /// The other side ended its stream.
    Eos,
    /// The connection ended.
    Ended,
    /// The other side broke the protocol.
    Protocol,
    /// The bytes were no stream of messages.
    Stream,
}

/// One line of a client's log. Commands are numbered from 1 as they are accepted. A mark is the position of the
/// target's history that the message has, where it has one.
#[derive(Debug, Drop)]
pub enum LogLine {
    /// A command was accepted.
    Sent {
        number: u64,
        service: Octets,
        name: Octets,
        body: Octets,
    },
    /// A command was refused.
    Refused(RefusedWhy),
    /// The event `Locator Hello` was taken.
    Hello {
        mark: Option<u64>,
        body: Octets,
    },
    /// Another event was taken.
    Event {
        mark: Option<u64>,
        service: Octets,
        name: Octets,
        body: Octets,
    },
    /// Word of a command's progress was taken.
    Progress {
        number: u64,
        mark: Option<u64>,
        body: Octets,
    },
    /// A command's final result was taken.
    Final {
        number: u64,
        mark: Option<u64>,
        body: Octets,
    },
    /// The answer was taken that the other side doesn't know the command.
    Unknown {
        number: u64,
        mark: Option<u64>,
    },
    /// The channel closed while the command was pending.
    Closed {
        number: u64,
    },
    /// The channel ended.
    Ended(EndWhy),
    /// The client's cache was asked. The value is shown as it stands; there is none where it isn't known.
    Cached {
        what: CachedWhat,
        value: Option<Octets>,
    },
}
