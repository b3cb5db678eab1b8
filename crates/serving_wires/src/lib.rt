//! What all serving commands share: what came and waits, what is to be put, and connections under their numbers.
#![tactic(auto)]

pub mod end;
pub mod event;
pub mod flushing;
pub mod intake;
pub mod laws;
pub mod outbox;
pub mod roster;
pub mod run;
pub mod sending;
pub mod served;

pub use end::{ServeEnd, end_of};
pub use event::is_stop;
pub use flushing::{OnWire, flush_rows};
pub use intake::{Came, Intake};
pub use laws::{
    a_flush_is_in_place, a_flush_is_on_one_wire, an_outbox_is_what_is_left, each_wire_is_carried,
    what_is_flushed_is_carried,
};
pub use outbox::{END_OF_STREAM, Outbox};
pub use roster::Roster;
pub use run::{serve, take_turn};
pub use sending::Sending;
pub use served::Served;
