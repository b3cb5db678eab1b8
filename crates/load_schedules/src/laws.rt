//! What the definition of the schedule means, as laws: functions that do nothing, with a contract.
ghost use Rattle.load_schedules.specs.Generated.{GeneratesWhatIsSaid, GeneratesWithin};

/// The schedule that a number gives is one that a file says.
pub fn generates_what_is_said()
    ensures { GeneratesWhatIsSaid }
{}

/// The steps of the schedule that a number gives are those that its chains can have.
pub fn what_is_generated_is_within()
    ensures { GeneratesWithin }
{}
