//! The rules of a journal.

/// A rule of a journal. Each is asked only where those before it are met.
#[derive(Clone, Copy, Debug, PartialEq, Eq)]
pub enum Rule {
    /// Each input can come after those before it.
    Legal,
    /// Commands are numbered as they are sent, and each is answered once.
    Once,
    /// Positions never go back, and begin where the history opens a channel.
    Positions,
    /// What was received is what the target told, in order.
    Order,
    /// The target executed what was sent, in order, and nothing else.
    Executed,
    /// Answers that a peer may give from what it keeps are those of the target.
    Fresh,
}
