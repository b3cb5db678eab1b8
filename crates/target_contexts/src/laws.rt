//! The laws of a list of live processes, and of the threads of one: to start, change or end one leaves the others as they
//! are, and the list orderly; and the law of the process that starts.
ghost use Rattle.target_contexts.specs.Laws.{BeginsOneThread, ChangeStaysOrderly, ChangesOne, ChangesOneThread, EndStaysOrderly, EndsOne, PutBackChangesNothing, StartStaysOrderly, StartsOne, ThreadPutBack};
ghost use Rattle.target_contexts.specs.Loaded.{FileIsLoaded, OthersStandAtZero, RegistersAreZero};
ghost use Rattle.target_contexts.specs.Whole.{BeginStaysWhole, StartIsWhole, StartStands};

/// The law that a process that starts is the one of its number, and that all others stay.
pub fn a_start_adds_one()
    ensures { StartsOne }
{}

/// The law that a process that is written is the one of its number, and that all others and all numbers stay.
pub fn a_change_changes_one()
    ensures { ChangesOne }
{}

/// The law that a process that is written as it was changes nothing.
pub fn a_process_put_back_changes_nothing()
    ensures { PutBackChangesNothing }
{}

/// The law that a process that ends is gone, and that all others stay.
pub fn an_end_ends_one()
    ensures { EndsOne }
{}

/// The law that at most 64 processes live, under numbers from 1 on that rise strictly and lie below the next one, which
/// is at most 2^32: where this holds, it holds after a start, a change and an end.
pub fn they_stay_orderly()
    ensures start { StartStaysOrderly }
    ensures change { ChangeStaysOrderly }
    ensures end { EndStaysOrderly }
{}

/// The law that a start from an ELF file without a fault, and one from another image of at most 65,536 bytes, makes a
/// process whose processor and memory are such as the machine has them, with one thread, which is suspended where the
/// debugger is attached and else runs; and that a thread that begins leaves them such.
pub fn a_start_makes_a_whole_process()
    ensures whole { StartIsWhole }
    ensures state { StartStands }
    ensures thread { BeginStaysWhole }
{}

/// The law that a thread that is changed is the one of its number, and one that begins is the one of the number behind the
/// last, and that all other threads, the name, the debugger and the memory stay; and that a thread that is written as it
/// was changes nothing.
pub fn a_thread_changes_alone()
    ensures change { ChangesOneThread }
    ensures back { ThreadPutBack }
    ensures begin { BeginsOneThread }
{}

/// The law that a process that is started from an ELF file without a fault has the memory that the file is loaded with,
/// and begins at its entry; that every other image stands in memory from the address 0 on, where its process begins; and
/// that all registers are 0.
pub fn a_file_is_started_as_it_is_loaded()
    ensures file { FileIsLoaded }
    ensures others { OthersStandAtZero }
    ensures registers { RegistersAreZero }
{}
