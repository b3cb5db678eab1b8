//! Laws of an end.
ghost use Rattle.channel_core.specs.Greeting.{WaitsForHello};
ghost use Rattle.channel_core.specs.Laws.{GivesEach, GoesOut};
ghost use Rattle.channel_core.specs.ReceivingLaws.{EndsFairly, QueuesReadable, ReceivesInOrder, WhereAQueueComes};
ghost use Rattle.channel_core.specs.QueueLaws.{ClosesOnlySo, QueuesItsMessages, QueuesNoCommand, QueuesWhatIsSent, TakesNothingClosed};
ghost use Rattle.channel_core.specs.RunLaws.{AfterAllCalls, CountsAnswers, EndsOnce, HoldsNoneWhereFree, IsLoudAsTold, IsUnspent, QueuesInOrder, SendsInOrder, StaysClosed, TakesOwnAnswers};

/// The law that `drain` gives each pending tag of a closed end once, in order of issue.
pub fn every_pending_tag_is_drained<T>()
    ensures { GivesEach T }
{}

/// The law that the held commands go out in order, up to and with the first redirect, and the others stay held.
pub fn the_held_go_out_up_to_a_redirect<T>()
    ensures { GoesOut T }
{}

/// The law that a new end isn't spent after any list of calls of which none wants memory.
pub fn calls_with_memory_spend_nothing<T>()
    ensures { AfterAllCalls {T = T} IsUnspent }
{}

/// The law that after every list of calls of a new end what was taken out to be sent, and then what is queued, is all
/// that was queued, in order.
pub fn what_is_queued_goes_out_in_order<T>()
    ensures { AfterAllCalls {T = T} QueuesInOrder }
{}

/// The law that after every list of calls the commands that were queued are, in order, a front of those that were
/// accepted, and the rest are held.
pub fn commands_are_sent_in_order<T>()
    ensures { AfterAllCalls {T = T} SendsInOrder }
{}

/// The law that tokens count from 1; that pending are, in order of issue, the accepted commands that have no final
/// answer and weren't drained; and that each final answer that is taken is the first one to a command that was sent,
/// under its token and with its tag.
pub fn each_answer_is_that_of_a_sent_command<T>()
    ensures counted { AfterAllCalls {T = T} CountsAnswers }
    ensures own { AfterAllCalls {T = T} TakesOwnAnswers }
{}

/// The law that the end of the stream is queued at most once, by the closing, and last; and that a closed end stays
/// closed for its cause, with an empty inbox, and queues nothing more.
pub fn a_closed_end_stays_closed<T>()
    ensures once { AfterAllCalls {T = T} EndsOnce }
    ensures stays { AfterAllCalls {T = T} StaysClosed }
{}

/// The law that a live end that wasn't last told a level above 0 holds nothing.
pub fn nothing_is_held_where_commands_go_out<T>()
    ensures { AfterAllCalls {T = T} HoldsNoneWhereFree }
{}

/// The law that the level that was told last is above 0 exactly where the end is loud, and none was told or one of 0 or
/// less where it isn't; and that the inbox of an open end has more than 50 messages where it is loud, and at most 100
/// where it isn't.
pub fn the_level_told_fits_the_inbox<T>()
    ensures { AfterAllCalls {T = T} IsLoudAsTold }
{}

/// The law of what an end receives of a queue that can be read, whatever is called of the end, and in whatever pieces
/// the queue's bytes come, each with the mark of its message, as far as they come. The messages that it received are, in
/// order and with their marks, a front of those of the queue, flow control aside. Until it is closed or a last entry has
/// come, they are all that have come wholly, and it was told the last level among these. It never closes by a fault of the
/// stream or of a message's grammar, and by the end of the stream only where that was queued and all messages were
/// received.
pub fn what_was_queued_is_received<T>()
    ensures order { WhereAQueueComes {T = T} ReceivesInOrder }
    ensures causes { WhereAQueueComes {T = T} EndsFairly }
{}

/// The law that after every list of calls all that was queued is a queue that can be read, where the Hello and each
/// message that was given to be sent can be; and that the end is closed where the queue has the end of the stream.
pub fn what_is_queued_can_be_read<T>()
    ensures { QueuesReadable T }
{}

/// The law that an end's Hello and then what its node sends are queued, in order, and that nothing else is: flow control,
/// the end of the stream and commands aside. Where no command is sent, none is queued.
pub fn only_what_is_sent_is_queued<T>()
    ensures plain { QueuesWhatIsSent T }
    ensures none { QueuesNoCommand T }
    ensures messages { QueuesItsMessages T }
{}

/// The law that a closed end takes nothing, and stays as it is.
pub fn a_closed_end_takes_nothing<T>()
    ensures { AfterAllCalls {T = T} TakesNothingClosed }
{}

/// The law that an open end closes exactly with a last entry that is taken, or by its own side, and by no other call; and
/// that no call opens a closed one.
pub fn an_end_closes_only_so<T>()
    ensures { AfterAllCalls {T = T} ClosesOnlySo }
{}

/// The law that no command is queued before the Hello of the other side was taken.
pub fn no_command_goes_out_before_the_hello<T>()
    ensures { AfterAllCalls {T = T} WaitsForHello }
{}
