//! The wires: connections over which bytes come and go, with wires that follow a script and real ones.
#![tactic(auto)]

pub mod call;
pub mod event;
pub mod real;
pub mod script;
pub mod wires;

pub use call::WireCall;
pub use event::{Put, WireEvent, WireRefusal};
pub use real::RealWires;
pub use script::WireScript;
pub use wires::Wires;
