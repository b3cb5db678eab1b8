//! The laws that names, reasons and hits stay short.
ghost use Rattle.target_contexts.specs.Short.{BeginStaysShort, ChangeStaysShort, EndStaysShort, FoundIsShort, StartStaysShort, ThreadStaysShort};

/// The law that a process has 1 to 8 threads and a name of at most 65,536 bytes, the reason why a thread stands at most 255,
/// and what it hit is at most 256 IDs of at most 255 bytes: where this holds of all processes, it holds of each that is
/// found, and of all after a start, an end, and a change that keeps it; and a process keeps it where a thread begins or is
/// changed.
pub fn they_stay_short()
    ensures found { FoundIsShort }
    ensures start { StartStaysShort }
    ensures change { ChangeStaysShort }
    ensures end { EndStaysShort }
    ensures begin { BeginStaysShort }
    ensures thread { ThreadStaysShort }
{}
