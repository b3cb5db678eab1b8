//! The laws of what is known.
ghost use Rattle.knowledge.specs.Laws.{BlocksAreLearned, BlocksStaySame, CoveredIsInside, FactsStaySame, IsMonotone, OthersStayUnanswered, RangesStaySame, ReadIsKnown, RepliesStaySame};

/// The law that who knows a part of what another knows still does when both take a message.
pub fn learning_is_monotone()
    ensures { IsMonotone }
{}

/// The law that each byte of a range that is read is one that is known.
pub fn what_is_read_is_known()
    ensures { ReadIsKnown }
{}

/// The law that each byte of the blocks after a message is one that is known after it, where it was so before.
pub fn blocks_are_learned()
    ensures { BlocksAreLearned }
{}

/// The law that who know the same but for bytes still do when both take a message, and that it makes the same of their
/// blocks.
pub fn the_same_learn_the_same()
    ensures facts { FactsStaySame }
    ensures blocks { BlocksStaySame }
{}

/// The law that a range which a cache covers lies in the memory, so that no range out of it could be answered.
pub fn what_is_covered_is_inside()
    ensures { CoveredIsInside }
{}

/// The law that who know the same but for bytes and keep the same blocks answer the same, and use the same range.
pub fn the_same_answer_the_same()
    ensures answers { RepliesStaySame }
    ensures ranges { RangesStaySame }
{}

/// The law that no command is answered but those that are storable.
pub fn others_stay_unanswered()
    ensures { OthersStayUnanswered }
{}
