//! What is read of an answer and of an event, and what an event is written as.
use tcf_outside::Octets;
use tcf_values::{Answer, EventData, Text};

/// What the data of an answer is read as.
#[derive(Debug, Drop)]
pub enum ReadAnswer {
    Known(Answer),
    /// The row of the command doesn't read the data.
    Bad,
}

/// What an event is read as.
#[derive(Debug, Drop)]
pub enum ReadEvent {
    Known(EventData),
    /// The services have no such event.
    Foreign,
    /// They have one, and it doesn't read the data.
    Bad,
}

/// An event as it is sent: the names of the service and of the event, and the data.
#[derive(Debug, Drop)]
pub struct WrittenEvent {
    pub service: Text,
    pub name: Text,
    pub body: Octets,
}
