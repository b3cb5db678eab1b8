//! The law of what is read.
ghost use Rattle.command_tables.specs.ReadingLaws.{KnownAreReadable, ReadingsAreLegal};

/// The law that whatever data is read as is a reading of the command's names: a command of that name, within the limits
/// of what is read, or a fault of one of its arguments, or that there is no such command.
///
/// `legal`: it is a known command, which some data is read as, a fault, or that there is none.
///
/// `known`: each command that some data is read as has the name that it is read under, and is within the limits.
pub fn readings_are_legal()
    ensures legal { ReadingsAreLegal }
    ensures known { KnownAreReadable }
{}
