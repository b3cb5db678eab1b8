//! The law of what canonical data are read as.
ghost use Rattle.reply_tables.specs.ReadingLaws.{AnswersReadBack, BytesReadBack, EventsReadBack};

/// The law that the canonical data of an event within the limits, and of an answer within the limits of its command's
/// row, are read as that event and as that answer where they are UTF-8, and else as none. An answer of bytes is one
/// that its type allows.
pub fn what_is_written_is_read()
    ensures events { EventsReadBack }
    ensures answers { AnswersReadBack }
    ensures bytes { BytesReadBack }
{}
