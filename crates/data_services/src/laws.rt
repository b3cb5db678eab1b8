//! The laws of the commands, over every target.
ghost use Rattle.data_services.specs.Laws.{AskingChangesNothing, FailureChangesNothing, MemorySetIsGot, OrderStays, OtherThreadsStay, OthersStay, RegisterSetIsGot, ThreadsStay};

/// The law that a command that an error answers changes nothing, and that no event tells of it.
pub fn a_failure_changes_nothing()
    ensures { FailureChangesNothing }
{}

/// The law that a command that only asks changes nothing, and that no event tells of it.
pub fn asking_changes_nothing()
    ensures { AskingChangesNothing }
{}

/// The law that a command leaves every process as it was but those whose memory or registers it sets, and every thread but
/// those whose registers it sets.
pub fn other_processes_stay()
    ensures processes { OthersStay }
    ensures threads { OtherThreadsStay }
{}

/// The law that no command of Memory or Registers makes a thread run or stop, attaches a process, or starts or ends one.
pub fn threads_stay()
    ensures threads { ThreadsStay }
    ensures order { OrderStays }
{}

/// The law that the bytes that are set are got again: from the same range of memory, and from the same register,
/// unless it is x0.
pub fn what_is_set_is_got()
    ensures memory { MemorySetIsGot }
    ensures register { RegisterSetIsGot }
{}
