//! The JSON of the services' values: how each kind is written, in one canonical form, and how it is read.
#![tactic(auto)]

pub mod blobs;
pub mod canonical;
pub mod contexts;
pub mod fields;
pub mod lists;
pub mod locations;
pub mod members;
pub mod part;
pub mod peers;
pub mod plain;
pub mod processes;
pub mod props;
pub mod ranges;
pub mod reports;
pub mod states;
pub mod statuses;
pub mod words;

pub use blobs::{blob_of, blob_value};
pub use canonical::Json;
pub use contexts::context_value;
pub use fields::{default_member, is_object};
pub use part::{kind, put, put_blob, put_empty, put_json, texts_lack_zero};
pub use peers::{peers_of, peers_value};
pub use props::bp_value;
pub use states::{hits_of, hits_value};
pub use statuses::status_value;
