//! The law of what the target tells.
ghost use Rattle.target_truth.specs.StoredLaws.{IsAnsweredAlike, IsWrittenAt};
ghost use Rattle.target_truth.specs.Laws.{IsTrueAfterEachMessage};
ghost use Rattle.target_truth.specs.Listening.{EachInputKeepsTruth};
ghost use Rattle.target_truth.specs.Listening.{LaterListenersKnowTruth, ListenersKnowTruth};

/// The law that after each single message that a legal history tells a channel, all that a peer knows from the messages
/// so far is true of the target at the position of that message.
pub fn what_is_told_is_true()
    ensures { IsTrueAfterEachMessage }
{}

/// The law that each input keeps true what a peer knows who hears all events that the target tells a channel,
/// but maybe only some of the answers: behind a hub, say, each peer hears the answers to its own commands. It
/// may begin to listen anywhere, with whatever is true of the target there; where the channel isn't open yet,
/// with anything.
///
/// `one`: where it knew what is true before an input, it knows what is true of the target after the input, as
/// soon as it heard the first message of it and after each further one. Where it heard nothing of the input,
/// what it knew before is still true.
///
/// `all`: over any inputs, what it knows by what it heard up to a message is true at that message's position,
/// and what it knows by all that it heard is true of the target as it is then.
///
/// `later`: so it is where it begins behind any message, also between two of one input.
pub fn each_input_keeps_truth()
    ensures one { EachInputKeepsTruth }
    ensures all { ListenersKnowTruth }
    ensures later { LaterListenersKnowTruth }
{}

/// The law that what is answered from facts that hold of the target, and from blocks whose bytes are known, is what the
/// target answers. So the same data are written at each position of a history.
pub fn a_stored_answer_is_what_the_target_answers()
    ensures alike { IsAnsweredAlike }
    ensures written { IsWrittenAt }
{}
