//! How a run ends.
ghost use Rattle.std.specs.Prelude.{◌≡◌};
ghost use Rattle.tcf_app.specs.Exit.{status_of};

use channel_core::Cause;
use log_check::Rule;
use tcf_schedules::TextFault;

/// What is bad at a place of a stream of messages.
#[derive(Clone, Copy, Debug, PartialEq, Eq)]
pub enum StreamWhat {
    /// The byte behind an escape is 3 or more.
    Escape,
    /// With this byte the message has more than 1,049,600 bytes.
    Long,
    /// The byte stands behind the end of the stream.
    AfterEnd,
    /// The file ends inside a message or an escape.
    Unended,
    /// The message has no byte.
    Empty,
    /// The message's first field is none of the six letters.
    Kind,
    /// A field of the message has no zero behind it.
    Field,
    /// The message's token hasn't 1 to 255 bytes.
    Token,
    /// The message's level isn't a whole number from -100 to 100 in its one spelling.
    Level,
    /// The message goes on behind its last field.
    Trailing,
    /// The message's service, name and data have more than 1,048,576 bytes together.
    Body,
}

/// The first place that is bad of a stream. An offset counts the bytes before it, and stands still at 2^64 - 1. It is
/// that of the byte that isn't read, that of the file's end, or that of the first byte of the message that doesn't
/// read (of the escape that ends it, where it has none).
#[derive(Clone, Copy, Debug, PartialEq, Eq)]
pub struct BadPlace {
    /// How many bytes stand before it.
    pub offset: u64,
    /// What is bad there.
    pub what: StreamWhat,
}

/// How a run ends.
#[derive(Clone, Copy, Debug, PartialEq, Eq)]
pub enum Exit {
    /// The run did what the words ask for, and all its text was put.
    Done,
    /// The words are none of the forms.
    Usage,
    /// This line of the schedule or the script, counted from 1, is the first bad one.
    BadText { line: u64, what: TextFault },
    /// A file could not be read.
    FileFault,
    /// A text could not be put whole.
    SinkFault,
    /// The address could not be listened on or connected to, or the wires gave nothing any more.
    WireFault,
    /// All turns were taken before the run had its end.
    Turns,
    /// There was not enough memory.
    NoMemory,
    /// The stream is bad at this offset, which counts the bytes before it.
    BadStream { offset: u64, what: StreamWhat },
    /// A client's channel closed for this cause before its script was done.
    Ended { cause: Cause },
    /// The file that this word names, counted from 1, has more than 16,777,216 bytes.
    TooLong { word: u64 },
    /// This is the first rule that the journal breaks.
    Differs { rule: Rule },
}

impl Exit {
    /// The status with which the program ends.
    pub fn status(self) -> u8
        ensures { result ≡ status_of self }
    {
        match self {
            Exit::Done => 0,
            Exit::Usage => 1,
            Exit::BadText { .. } => 2,
            Exit::FileFault => 3,
            Exit::SinkFault => 4,
            Exit::WireFault => 5,
            Exit::Turns => 6,
            Exit::NoMemory => 7,
            Exit::BadStream { .. } => 8,
            Exit::Ended { .. } => 9,
            Exit::TooLong { .. } => 10,
            Exit::Differs { .. } => 11,
        }
    }
}
