//! The plain values that the services speak of: identifiers, properties, commands, answers and events.
#![tactic(auto)]

pub mod answer;
pub mod command;
pub mod cut;
pub mod effect;
pub mod errors;
pub mod event;
pub mod faults;
pub mod ids;
pub mod number;
pub mod text;
pub mod values;

pub use answer::Answer;
pub use command::{Command, is_changing, is_storable};
pub use cut::cut_at;
pub use effect::{Effect, Events, Numbers};
pub use errors::{ErrorReport, format_of_code, report};
pub use event::EventData;
pub use faults::{Fault, Refusal};
pub use ids::{
    ContextId, PC, RegisterId, context_id, context_round_trip, context_text, register_id,
    register_round_trip, register_text,
};
pub use number::number_within;
pub use tcf_outside::{Duplicate, Sequence};
pub use text::{Bytes, Text, Texts};
pub use values::{
    BpProps, BpStatus, ContextData, Contexts, Instance, Instances, Location, Locations, Place,
    ProcessData, Props, Range, Ranges, RunState,
};
