//! The laws that names, reasons and hits stay short.
ghost use Rattle.run_control.specs.Short.{CommandsKeepShort, TicksKeepShort};

/// The law that the names of the processes, the reasons why their threads stand and what they hit stay short, whatever
/// command is executed and whatever thread executes an instruction, where there are at most 256 breakpoints, under IDs of
/// at most 255 bytes.
pub fn the_processes_stay_short()
    ensures commands { CommandsKeepShort }
    ensures ticks { TicksKeepShort }
{}
