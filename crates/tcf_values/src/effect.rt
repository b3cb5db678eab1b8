//! What the target gives when a command is executed.
ghost use Rattle.std.specs.Prelude.{◌≡◌, IfOk};
ghost use Rattle.tcf_values.specs.Effects.{failed, gives, tells};

use crate::answer::Answer;
use crate::errors::report;
use crate::event::EventData;
use crate::faults::Fault;
use std::alloc::{AllocError, Global};
use tcf_outside::Sequence;

pub type Events = Sequence<EventData>;

/// The addresses of executed instructions, in order.
pub type Numbers = Sequence<u32>;

/// What comes of an executed command. Every channel hears the events, and then the caller alone the progress and the
/// answer.
#[derive(Debug, Drop)]
pub struct Effect {
    pub events: Events,
    /// One message of progress for each.
    pub progress: Numbers,
    pub answer: Answer,
}

impl Effect {
    /// Events and an answer, without progress. It takes no memory.
    pub fn tells(alloc: Global, events: Events, answer: Answer) -> Self
        ensures { result ≡ tells events answer }
    {
        Effect {
            events,
            progress: Numbers::new(alloc),
            answer,
        }
    }

    /// Nothing but an answer. It takes no memory.
    pub fn gives(alloc: Global, answer: Answer) -> Self
        ensures { result ≡ gives answer }
    {
        Effect::tells(alloc, Events::new(alloc), answer)
    }

    /// Nothing but the error report of a fault.
    #[tactic(auto, unfolding(crate::specs::Effects::failed))]
    pub fn failed(alloc: Global, fault: Fault) -> Result<Self, AllocError>
        ensures { IfOk result (λ effect. effect ≡ failed fault) }
    {
        let report = report(alloc, fault.code())?;
        Ok(Effect::gives(alloc, Answer::Failed(report)))
    }
}
