//! The laws that what the target tells and answers can be sent, over every target that is bounded.
ghost use Rattle.target_hub.specs.HistoryLaws.{StaysBounded};
ghost use Rattle.target_hub.specs.Sendable.{AnswersAreSendable, ClosingsTellSendable, CommandsKeepShort, CommandsTellSendable, TicksKeepShort, TicksTellSendable};

/// The law that each event and each answer fits into a message, the event together with its service and its name, which
/// have no zero byte.
pub fn what_is_told_can_be_sent()
    ensures commands { CommandsTellSendable }
    ensures answers { AnswersAreSendable }
    ensures ticks { TicksTellSendable }
    ensures closings { ClosingsTellSendable }
    ensures short_commands { CommandsKeepShort }
    ensures short_ticks { TicksKeepShort }
{}

/// The law that what the target holds is bounded after every legal list of inputs, from the images alone on.
pub fn every_history_is_bounded()
    ensures { StaysBounded }
{}
