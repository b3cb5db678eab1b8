//! One end of a channel: what it has taken and sent, what is pending and held, and how it closes. Messages, flow control
//! and the Hello are those of the TCF specification's protocol page, redirects those of its page of the Locator service.
#![tactic(auto)]

mod closing;
mod congestion;
mod end;
mod held;
mod laws;
mod receiving;
mod sending;
mod states;
mod taking;

pub use congestion::level;
pub use end::End;
pub use held::{Arrived, Held, Incoming, Outgoing};
pub use laws::{
    a_closed_end_stays_closed, a_closed_end_takes_nothing, an_end_closes_only_so,
    calls_with_memory_spend_nothing, commands_are_sent_in_order,
    each_answer_is_that_of_a_sent_command, every_pending_tag_is_drained,
    no_command_goes_out_before_the_hello, nothing_is_held_where_commands_go_out,
    only_what_is_sent_is_queued, the_held_go_out_up_to_a_redirect, the_level_told_fits_the_inbox,
    what_is_queued_can_be_read, what_is_queued_goes_out_in_order, what_was_queued_is_received,
};
pub use link_pool::Pending;
pub use sending::{Refused, SendRefusal};
pub use states::{Cause, EndState, Reason};
pub use taking::Taken;
