//! Laws of what `show` makes of a file: functions that do nothing, whose contracts hold of all lists of bytes.
ghost use Rattle.tcf_app.specs.Show.{EachIsShown, IsShownOnce};

/// Each file is shown in exactly one way: its lines, and at most one bad place.
pub fn one_outcome()
    ensures some { EachIsShown }
    ensures once { IsShownOnce }
{}
