//! The laws of run control, over every target.
ghost use Rattle.run_control.specs.Laws.{CommandsCountAlone, CommandsKeepList, CommandsKeepOrder, CommandsKeepSound, EndsOnce, TicksCountAlone, TicksKeepList, TicksKeepOrder, TicksKeepSound, TouchesOne};

/// The law that the end of a process is told by one exit with its code, that the process is gone, and that all others
/// stay.
pub fn an_end_is_told_once()
    ensures { EndsOnce }
{}

/// The law that a tick touches no other process than that of its thread.
pub fn a_tick_touches_one()
    ensures { TouchesOne }
{}

/// The law that after a command a suspended thread's process is attached, and so is that of a thread whose instructions
/// are counted, where this was so before.
pub fn a_command_keeps_threads_attached()
    ensures { CommandsKeepSound }
{}

/// The same law of a tick.
pub fn a_tick_keeps_threads_attached()
    ensures { TicksKeepSound }
{}

/// The law that the processes stay orderly, whatever command is executed and whatever thread executes an instruction.
pub fn the_processes_stay_orderly()
    ensures commands { CommandsKeepOrder }
    ensures ticks { TicksKeepOrder }
{}

/// The law that of the breakpoints nothing but the counts of hits changes, whatever command of run control is executed and
/// whatever thread executes an instruction, and that the counts stay of 32 bits.
pub fn only_counts_change()
    ensures commands { CommandsCountAlone }
    ensures ticks { TicksCountAlone }
    ensures commands_keep { CommandsKeepList }
    ensures ticks_keep { TicksKeepList }
{}
