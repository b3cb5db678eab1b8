//! The sides of a hub.

/// A side of a hub: the one channel above, or the lower channel of this number.
#[derive(Clone, Copy, Debug, PartialEq, Eq)]
pub enum HubSide {
    Above,
    Below(u64),
}
