//! The laws of what a value-add has answered and what it has not, over any calls and whatever bytes come.
ghost use Rattle.node_answers.specs.AgentAnswering.{ServesAllAfterAnyCalls};
ghost use Rattle.node_answers.specs.Lacking.{EndsWhereClosed, IsAnsweredWhereNonePends};
ghost use Rattle.value_node.specs.RelayLaws.{AfterAllCalls};
ghost use Rattle.node_answers.specs.Answering.{AnswersBound, AnswersUnbound};
ghost use Rattle.node_answers.specs.Waiting.{AnswersWhatItCan};

/// The law that a value-add has answered each command that it took from below, where their tokens count from 1: while it is
/// unbound always, each redirect with an error; while it is bound where nothing is held above, each command that was sent there
/// was answered, and a Hello was taken behind each answer without an error to a redirect. Then a Hello stands also below behind each
/// answer without an error to a redirect.
pub fn a_value_add_answers_all()
    ensures unbound { AfterAllCalls AnswersUnbound }
    ensures bound { AfterAllCalls AnswersBound }
{}

/// The law of what a value-add has not answered, where the tokens of the commands that it took from below count from 1 and its
/// lower end is open: exactly the redirect that it does while it connects, and the commands that are pending above while it is
/// bound. Where an answer without an error to a redirect has no Hello behind it below, it is bound and waits for that Hello above.
pub fn what_a_value_add_has_not_answered()
    ensures { AfterAllCalls AnswersWhatItCan }
{}

/// The law that on each channel an agent has answered each command that it took, where their tokens count from 1, and each
/// redirect with an error; that it sends no command, and that all that it sends can be read.
pub fn an_agent_answers_all()
    ensures { ServesAllAfterAnyCalls }
{}

/// The law that each accepted command has its final answer in the log where none is pending, and that the log has its end exactly
/// where the channel was closed.
pub fn a_log_lacks_what_is_pending()
    ensures answered { IsAnsweredWhereNonePends }
    ensures ended { EndsWhereClosed }
{}
