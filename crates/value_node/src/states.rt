//! Where a value-add stands, which sides it has, and what a turn of it was.

/// A side of a value-add.
#[derive(Clone, Copy, Debug, PartialEq, Eq)]
pub enum Side {
    /// That of the client, or of the value-add that is nearer to it.
    Below,
    /// That of the agent, or of the value-add that is nearer to it.
    Above,
}

/// Where a value-add stands.
#[derive(Clone, Copy, Debug, PartialEq, Eq)]
pub enum Bind {
    /// It answers commands itself.
    Unbound,
    /// It does a redirect to its peer, and waits for the peer's Hello.
    Opening,
    /// It passes on all that comes.
    Bound,
    /// Its channel to the one who asks is closed, and so is the one to its peer, where it had one.
    Closed,
}

/// What a turn was.
#[derive(Clone, Copy, Debug, PartialEq, Eq)]
pub enum ValueTurn {
    /// Nothing was taken.
    Nothing,
    /// An entry was taken.
    Took,
    /// A redirect was taken, for which a connection to the peer is wanted.
    Connect,
}
