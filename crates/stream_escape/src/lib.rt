//! The escape layer of a TCF channel: messages are marked off in a stream of bytes, and read out of it again.
#![tactic(auto)]

pub mod escape;
pub mod laws;
mod progress;
pub mod stream;
pub mod unescape;

pub use escape::{escape_into, mark_eom, mark_eos};
pub use laws::{
    a_piece_is_fed, any_pieces, each_goes_on, frames_are_read, front_of_frame, one_fault,
    one_reading, pieces_are_one,
};
pub use stream::{Item, MESSAGE_LIMIT, StreamFault};
pub use unescape::Unescape;
