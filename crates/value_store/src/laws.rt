//! The laws of what the answers of a store teach, and of whose registers are known.
ghost use Rattle.value_store.specs.Laws.{LearnedHaveStates, PartsAreGrounded, StatesStay, StoredAnswersTeachNothingNew};

/// The law that whoever learns an answer which a store gives of what it knows learns nothing but what the messages of
/// that store teach, where it knows nothing else before.
pub fn a_stored_answer_teaches_nothing_new()
    ensures { StoredAnswersTeachNothingNew }
{}

/// The law that registers are learned of no thread but those of which it is known whether they run. So a part of what is
/// grounded is grounded too.
pub fn what_is_learned_has_states()
    ensures stay { StatesStay }
    ensures learned { LearnedHaveStates }
    ensures parts { PartsAreGrounded }
{}
