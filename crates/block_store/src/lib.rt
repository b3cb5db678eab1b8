//! The store in which a peer keeps the blocks of memory that it has learned from answers.
#![tactic(auto)]

pub mod block;
mod filing;
pub mod laws;
pub mod store;

pub use block::Block;
pub use laws::{
    a_dropped_range_is_gone, no_dropped_byte_is_read, the_added_is_covered, the_store_stays_small,
};
pub use store::BlockStore;
