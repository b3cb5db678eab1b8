//! The laws of an agent, over any calls and whatever bytes come.
ghost use Rattle.agent_node.specs.AgentLaws.{AgentTellsTheTruth};
ghost use Rattle.agent_node.specs.Apart.{EachIsToldItsOwn, OneHistoryTellsTheSame};
ghost use Rattle.agent_node.specs.Openings.{AtMost64AreLive, EachOpensWhereItMay};
ghost use Rattle.agent_node.specs.Sights.{SeesNothingElse};
ghost use Rattle.agent_node.specs.Strangers.{NoStrangersAfterAnyCalls};

/// The law that the history of the inputs is legal; that each channel is told exactly what the history says, each answer
/// under the token of its own command; that the history executes on a channel, in order, what was taken from it; and that a
/// channel is live until its end closes. It asks nothing of the bytes that come, and neither do the other laws here.
pub fn an_agent_tells_the_truth()
    ensures { AgentTellsTheTruth }
{}

/// The laws that one channel touches another by the history of the target alone.
///
/// `own`: what was queued for a channel, flow control and the end of the stream aside, is a function of the history and
/// of the tokens of the commands that were taken from it. The history also says whether it is live.
///
/// `same`: of any two agents with the same images, where the histories of their inputs are the same, a channel is live in
/// both or in neither, the same commands were taken from it, and where these had the same tokens the same was queued for it,
/// with the same marks. So the bytes of one channel change what another one is told by inputs of the history, or not at
/// all.
///
/// `nothing_else`: of any two agents with the same images, where the calls on a channel are the same, between the same inputs
/// of the history, all that its end is and did is the same: its state, its inbox, what it took, and what was queued for it
/// and given out, flow control and the end of the stream with it.
///
/// Nothing is asked of the bytes that come on any channel, of their pieces, or of the order of the calls.
pub fn channels_touch_by_the_history_alone()
    ensures own { EachIsToldItsOwn }
    ensures same { OneHistoryTellsTheSame }
    ensures nothing_else { SeesNothingElse }
{}

/// The law that an agent has no channel under a number that it didn't open.
pub fn an_agent_has_no_strangers()
    ensures { NoStrangersAfterAnyCalls }
{}

/// The law that at most 64 channels of an agent are live at once, whatever the calls.
pub fn at_most_64_are_live()
    ensures { AtMost64AreLive }
{}

/// The law that no channel is opened under a number exactly where one was opened under it before, 64 are live, or
/// the position is 2^64 - 1.
pub fn a_channel_opens_where_it_may()
    ensures { EachOpensWhereItMay }
{}
