//! The laws of whole chains, over every schedule and of each round.
ghost use Rattle.chain_world.specs.Past.{WorldIsPlayed};
ghost use Rattle.chain_world.specs.Remembering.{StandsByItsPast};
ghost use Rattle.chain_world.specs.Standing.{StandsAfterEverySchedule};
ghost use Rattle.chain_world.specs.Until.{RoundsGoOn};

/// The law that after every schedule the agent, each client and each way between them is what its calls made of it, that
/// what a client and the agent gave and got is what the way got and gave there, and that no two channels have one number.
///
/// These calls are the world's past, which is a function of the schedule: each step writes down the calls that its nodes get by it,
/// and does to the world what playing it does.
pub fn a_world_stands()
    ensures stands { StandsAfterEverySchedule }
    ensures played { WorldIsPlayed }
    ensures past { StandsByItsPast }
{}

/// The law that a round goes on until all has arrived and was taken, whatever the chain and the world. When it has brought what
/// is in flight to the client, or to the agent on a channel of the chain, nothing is in flight there, or 200 entries wait, or the
/// hop isn't live. When the client has taken, nothing waits there; when a value-add has, it takes nothing more from that side;
/// and when the agent has, nothing waits in the chain's channels, or it is full. Entries that wait are counted below
/// 18,446,744,073,709,551,615.
pub fn a_round_goes_on()
    ensures { RoundsGoOn }
{}
