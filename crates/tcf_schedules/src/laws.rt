//! What the definitions of the texts of schedules and of scripts mean, as laws: functions that do nothing, with a
//! contract.
ghost use Rattle.tcf_schedules.specs.Reading.{ReadsTheText};
ghost use Rattle.tcf_schedules.specs.Schedule.{ReadsWhatIsSaid, ReadsWithin, RefusesTheFirst};
ghost use Rattle.tcf_schedules.specs.Script.{ReadsTheScriptLine, ReadsTheScript, RefusesTheScript, ScriptsAreFit};

/// A line says a value exactly where it is the value's text.
pub fn reads_the_text()
    ensures { ReadsTheText }
{}

/// A file gives a schedule exactly where its lines say that schedule.
pub fn reads_what_is_said()
    ensures { ReadsWhatIsSaid }
{}

/// The steps of a schedule that a file gives are those that its chains can have.
pub fn what_is_read_is_within()
    ensures { ReadsWithin }
{}

/// A file is refused for its first bad line: the lines before it are an accepted file, and no accepted file begins
/// with the lines up to it.
pub fn refuses_the_first()
    ensures { RefusesTheFirst }
{}

/// A line of a script says a value exactly where it is the value's text.
pub fn reads_the_script_line()
    ensures { ReadsTheScriptLine }
{}

/// A file gives a script exactly where its lines say that script.
pub fn reads_the_script()
    ensures { ReadsTheScript }
{}

/// A file is refused as a script for its first line that isn't skipped and says nothing, and for its form.
pub fn refuses_the_script()
    ensures { RefusesTheScript }
{}

/// The lines of a script that a file gives are those that a script can have.
pub fn scripts_are_fit()
    ensures { ScriptsAreFit }
{}
