//! What comes of a command as it is read.
ghost use Rattle.std.specs.Prelude.{◌≡◌};
ghost use Rattle.target_hub.specs.Answering.{only};

use std::alloc::Global;
use tcf_outside::Octets;
use tcf_values::{Events, Numbers};

/// The final answer to a command.
#[derive(Debug, Drop)]
pub enum Answered {
    /// There is no such service, or the service has no such command.
    Unknown,
    /// The data of the final result.
    Result(Octets),
}

/// What comes of a command. Every channel hears the events, and then the caller alone the progress and the answer.
#[derive(Debug, Drop)]
pub struct Done {
    /// The addresses of executed instructions, with one message of progress for each.
    pub progress: Numbers,
    pub events: Events,
    pub answer: Answered,
}

impl Done {
    /// An answer, and nothing else.
    pub(crate) fn only(alloc: Global, answer: Answered) -> Done
        ensures { result ≡ only answer }
    {
        Done {
            progress: Numbers::new(alloc),
            events: Events::new(alloc),
            answer,
        }
    }
}
