//! A message, whose parts lie in the bytes that it was read from, and what is wrong with bytes that are none.

/// The most bytes that service, name and data of a message have together, without the zeros that end fields.
pub const BODY_LIMIT: usize = 1_048_576;

/// The most bytes of a token.
pub const TOKEN_LIMIT: usize = 255;

/// A message. A token has 1 to 255 bytes; service, name and token have no zero byte; data has any bytes.
#[derive(Clone, Copy, Debug, PartialEq, Eq)]
pub enum Message<'a> {
    /// `C`: a command, which is answered under its token.
    Command {
        token: &'a [u8],
        service: &'a [u8],
        name: &'a [u8],
        body: &'a [u8],
    },
    /// `R`: the final result of the command with this token.
    Result {
        token: &'a [u8],
        body: &'a [u8],
    },
    /// `P`: progress of the command with this token.
    Progress {
        token: &'a [u8],
        body: &'a [u8],
    },
    /// `N`: the command with this token isn't recognised.
    NotKnown {
        token: &'a [u8],
    },
    /// `E`: an event of a service.
    Event {
        service: &'a [u8],
        name: &'a [u8],
        body: &'a [u8],
    },
    /// `F`: how congested the sender is, from -100 to 100.
    Flow {
        level: i8,
    },
}

/// The first fault from the left of bytes that are no message. Places count from 0, in bytes.
#[derive(Clone, Copy, Debug, PartialEq, Eq)]
pub enum MessageFault {
    /// There is no byte.
    Empty,
    /// The field that begins at this place has no zero behind it.
    Unended { place: usize },
    /// The first field is none of the six letters; the message begins with this byte.
    Kind { byte: u8 },
    /// The token has this many bytes, which aren't 1 to 255.
    Token { length: usize },
    /// The level isn't a whole number from -100 to 100 in its one spelling.
    Level,
    /// The message goes on at this place, behind its last field.
    Trailing { place: usize },
    /// Service, name and data have this many bytes together, more than `BODY_LIMIT`.
    Body { length: usize },
}
