//! The laws of how long the data of events and answers are.
ghost use Rattle.reply_tables.specs.Sizes.{AnswersFit, EventsFit, ProgressFits, RefusalsFit, ReportsAreSmall};

/// The law that an event and an answer of small values have at most 1,048,576 bytes of data, the event together with its
/// service and its name, and so have every refusal and every progress. The report of each code is small.
pub fn what_is_small_fits()
    ensures events { EventsFit }
    ensures answers { AnswersFit }
    ensures refusals { RefusalsFit }
    ensures progress { ProgressFits }
    ensures reports { ReportsAreSmall }
{}
