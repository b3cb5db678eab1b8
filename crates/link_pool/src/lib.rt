//! Lists that are linked by numbers, and the commands that wait for their answers.
#![tactic(auto)]

mod linking;
pub mod node;
pub mod pending;
pub mod pool;

pub use node::{Link, Node};
pub use pending::{IssueRefusal, Pending, new_pending};
pub use pool::Pool;
