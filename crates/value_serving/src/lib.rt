//! Value-adds that are served over wires: one for each connection that comes, with a wire of its own to its peer.
#![tactic(auto)]

mod add;
pub mod laws;
mod passing;
pub mod serve;
mod serving;

pub use laws::{
    no_more_than_64_stand, nothing_is_left_to_do, what_is_served_are_value_adds,
    what_passes_is_given_out_by_the_ends,
};
pub use serve::serve_value;
pub use serving_wires::ServeEnd;
