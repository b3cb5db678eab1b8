//! The laws of relays.
ghost use Rattle.relay_laws.specs.Contained.{KeepsContainment, TwoKeepContainment};
ghost use Rattle.relay_laws.specs.ValueTraffic.{ItsTrafficGoesOn, ItsTrafficIsReal, ValueAddIsARelay};

/// The law that a relay, whatever it is made of, keeps containment.
///
/// Whenever it has sent a message below, what is learned of all that it sent there is a part of what is
/// learned of all that it had taken from above by then, each answer with the command of its token. The
/// commands from below have tokens of their own. Nothing is asked of what the messages say: they need not be
/// true of any target.
pub fn a_relay_keeps_containment()
    ensures { KeepsContainment }
{}

/// The law that two relays in a row keep containment together, where the hop between them loses nothing but
/// what comes last.
///
/// Whenever the lower one has sent a message below, what is learned of all that it sent there is a part of
/// what is learned of all that the upper one had taken from above when it had sent the last message that the
/// lower one took.
pub fn two_relays_keep_containment()
    ensures { TwoKeepContainment }
{}

/// The law that a bound value-add is a relay, whatever calls are made of it and whatever bytes come.
///
/// `relay`: its traffic since it was bound is that of a relay.
///
/// `real`: that traffic is what its ends took and queued. The commands are those that were taken below, and
/// those that were queued above or are held there; where both ends were closed for it, the last one may have
/// been refused. The messages are those for below that were taken above, and all that was queued below since
/// it was bound, flow control and the end of the stream aside. The end from above stands in it where that was
/// taken.
///
/// `goes_on`: after more calls the traffic is the same one, and more behind it; so its order is that of time.
pub fn a_value_add_is_a_relay()
    ensures relay { ValueAddIsARelay }
    ensures real { ItsTrafficIsReal }
    ensures goes_on { ItsTrafficGoesOn }
{}
