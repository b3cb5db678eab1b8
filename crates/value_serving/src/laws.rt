//! The laws of served value-adds.
ghost use Rattle.value_serving.specs.Left.{LeavesNothing};
ghost use Rattle.value_serving.specs.Limits.{NoMoreThan64Stand};
ghost use Rattle.value_serving.specs.Passages.{PassagesAgree};
ghost use Rattle.value_serving.specs.Served.{ServedAreValueAdds};

/// The law that what is served are value-adds, whatever comes and whatever connects are answered, where each
/// connection has a channel of its own. Each that stands is what some calls make of a new one. All that was ever
/// queued for its wire below is what it gave out below in these calls; and all that came on this wire is, in order,
/// what it got below in these calls, and then what waits for it. So it is with its wire above and what it gave out
/// and got above since the last connection. It has nothing more to send. Only while the answer of a connect is waited
/// for it stands as it stood before the last event, and what that brought is neither got nor waits.
pub fn what_is_served_are_value_adds()
    ensures { ServedAreValueAdds }
{}

/// The law that what a value-add gives out on its sides in some calls, since the wire of the side opened, is what its
/// ends give out in them, as `value_node` says it.
///
/// So the laws of a value-add hold of what is put on wires: that it forwards in order, passes all on and says
/// nothing after the end (`value_node::a_value_add_relays`), that it answers rightly from what it heard
/// (`value_node::a_value_add_answers_from_what_it_heard`), and what it says itself
/// (`value_node::a_value_add_answers_itself`).
pub fn what_passes_is_given_out_by_the_ends()
    ensures { PassagesAgree }
{}

/// The law that messages are taken until none can be, and what waits is given until nothing can be, however much
/// there is. After any events that wires can give, and any answers of connects, no value-add that stands can take
/// a message, and nothing that waits can be given to it; its inboxes have entries only where they may not be taken
/// now: those from below wait while a redirect is done, and while 1,024 commands are pending above.
pub fn nothing_is_left_to_do()
    ensures { LeavesNothing }
{}

/// The law that no more than 64 value-adds stand, whatever comes and whatever connects are answered.
pub fn no_more_than_64_stand()
    ensures { NoMoreThan64Stand }
{}
