//! The laws of a way, over any calls and whatever bytes come.
ghost use Rattle.chain_route.specs.Carrying.{CarriesAfterAllCalls};
ghost use Rattle.chain_route.specs.Making.{CarriesByItsCalls};
ghost use Rattle.chain_route.specs.Until.{AllArriveAtAdds};

/// The law that each hop of a way carries what one of its nodes gave it to the other one, in order and with its marks, and
/// that each value-add is what its calls make of a new one, whatever the calls of the way are. The bytes above a value-add end
/// only where the hop above it is cut by one of these calls.
///
/// A hop that is live was lost at neither end, and one that isn't was lost to each end that was ever used. All that a value-add
/// queued was given, none waits for a connection but the last one for the agent, and the last hop isn't live before the agent is
/// reached.
///
/// The value-adds and their calls by which it carries are a function of the calls of the way: each call of it is these calls of its
/// value-adds, by the way before it.
pub fn each_hop_carries()
    ensures carries { CarriesAfterAllCalls }
    ensures made { CarriesByItsCalls }
{}

/// The law of a round's delivery to a side of a value-add: when it is over nothing is in flight there, or 200 entries wait at
/// that side, or the hop isn't live.
pub fn all_arrive_at_adds()
    ensures { AllArriveAtAdds }
{}
