//! The laws of a value-add, over any calls and whatever bytes come.
ghost use Rattle.value_node.specs.OwnLaws.{AnswersItself, AsksNothingBelow, ConnectsWhenAsked};
ghost use Rattle.value_node.specs.RelayLaws.{AfterAllCalls, AfterAllDeeds, AnswersRightly, EndsAreRuns, ForwardsInOrder, KnowsWhatItHeard, PassesAllOn, StopsAfterTheEnd};

/// The laws of what a value-add relays. They ask nothing of the bytes that come, from below or from above, and neither do
/// the other laws here.
///
/// `runs`: its calls are runs of its ends. Each end is what the calls that it got make of a new one, the lower since the
/// value-add was made, the upper since its connection. The lower end is open until the value-add is closed. An earlier
/// connection never brought a Hello. All that is sent can be read.
///
/// `forwards`: each command taken from below since it was bound is sent above or answered from the store, in order. Those
/// that were sent above are, in order and each once, with their data and their marks, a front of those not answered so; and
/// those that are held are the rest, while it is bound.
///
/// `passes`: what is said below since it was bound, flow control and the end of the stream aside, are exactly the answers from
/// the store and the events, the progress and the answers that were taken from above, in order, with their marks and their
/// data, each answer under the token of its own command, which was sent before and not yet answered.
///
/// `stops`: once the end from above was taken the end of the stream is said below, and nothing after it.
pub fn a_value_add_relays()
    ensures runs { AfterAllCalls EndsAreRuns }
    ensures forwards { AfterAllDeeds ForwardsInOrder }
    ensures passes { AfterAllDeeds PassesAllOn }
    ensures stops { AfterAllCalls StopsAfterTheEnd }
{}

/// The laws of what a value-add answers from what it heard.
///
/// `rightly`: each command that it answers from its store is a storable one, its answer is that of what the messages heard
/// before teach, at the position of the last one, and each barrier that was sent above before has been answered.
///
/// `knows`: what a bound one knows is what the messages that it heard teach, at the position of the last one.
pub fn a_value_add_answers_from_what_it_heard()
    ensures rightly { AfterAllDeeds AnswersRightly }
    ensures knows { AfterAllDeeds KnowsWhatItHeard }
{}

/// The laws of what a value-add says itself, and when it connects.
///
/// `answers`: what it said below before it was bound, flow control and the end of the stream aside, are Hellos and answers to
/// the commands that it took until then, each once and in order, without marks; the last answer before it was bound is that
/// of a redirect, without an error.
///
/// `connects`: one that took no command has not connected, and doesn't wait for a connection.
///
/// `asks_nothing`: it sends no command below.
pub fn a_value_add_answers_itself()
    ensures answers { AfterAllCalls AnswersItself }
    ensures connects { AfterAllCalls ConnectsWhenAsked }
    ensures asks_nothing { AfterAllCalls AsksNothingBelow }
{}
