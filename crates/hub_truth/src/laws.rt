//! The law of those who listen behind a hub.
ghost use Rattle.hub_truth.specs.HubTruth.{PeersBehindAHubKnowTruth};

/// The law that where a hub takes from above what the history of a target tells it, each command that was sent above has one
/// final answer at most, which goes to the channel that it came from, under its token there; and that a peer below, who
/// hears all events since it came and the answers to its own commands alone, knows by each front of what it is told what is
/// true of the target at the last position in it.
///
/// Nothing is asked of the other peers, nor of the bytes that come from below.
pub fn peers_behind_a_hub_know_truth()
    ensures { PeersBehindAHubKnowTruth }
{}
