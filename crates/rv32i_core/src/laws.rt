//! The law of the machine, over every processor and every memory.
ghost use Rattle.rv32i_core.specs.Laws.{BeginningsAreWithin, EndsAreSigned, ReadsAreWords, ResultsStayWithin, StepsStayWithin, WritesStayWithin};

/// The law that the machine stays within its bounds.
///
/// `steps`: where a processor has 32 registers and a pc below 2^32 and memory 65,536 bytes below 256, it is so after each
/// instruction that goes on, and a thread that an instruction asks for begins with numbers below 2^32. `ends`: the code of a
/// program's end is a signed number of 32 bits. `reads` and `writes`: a number that is read from a register is below 2^32, and
/// such a number that is written there leaves the processor within its bounds; so do the result of a call of the environment
/// (`results`) and a beginning with such numbers (`beginnings`).
pub fn the_machine_stays_within()
    ensures steps { StepsStayWithin }
    ensures ends { EndsAreSigned }
    ensures reads { ReadsAreWords }
    ensures writes { WritesStayWithin }
    ensures results { ResultsStayWithin }
    ensures beginnings { BeginningsAreWithin }
{}
