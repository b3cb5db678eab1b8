//! The answers and the events of the services, both ways: read from their data, and written as it.
#![tactic(auto)]

pub mod answers;
pub mod event_reading;
pub mod event_writing;
pub mod fitting;
pub mod laws;
pub mod parts;
pub mod refusals;
pub mod replies;
pub mod results;
pub mod rows;
pub mod writing;

pub use answers::read_answer;
pub use event_reading::read_event;
pub use event_writing::write_event;
pub use fitting::what_is_small_fits;
pub use laws::what_is_written_is_read;
pub use refusals::write_refusal;
pub use replies::{ReadAnswer, ReadEvent, WrittenEvent};
pub use rows::{Kind, Row};
pub use writing::write_answer;
