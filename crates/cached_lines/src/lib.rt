//! What a line of a schedule, a script or a log asks of a client's cache, and how it is spelled and read.
#![tactic(auto)]

pub mod laws;
pub mod says;
pub mod what;
mod words;

pub use laws::cached_round_trip;
pub use says::{CachedSays, cached_says};
pub use what::CachedWhat;
