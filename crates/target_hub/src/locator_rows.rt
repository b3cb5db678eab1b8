//! The commands of the service Locator, on an agent.
ghost use Rattle.std.specs.Prelude.{◌≡◌, IfOk};
ghost use Rattle.tcf_values.specs.declared.answer.Answer.{Answer};
ghost use Rattle.target_hub.specs.LocatorRows.{locator_answer};

use std::alloc::{AllocError, Global};
use tcf_values::{Answer, Command, Texts, report};

/// The code of a redirect to a peer that isn't known.
const UNKNOWN_PEER: u8 = 7;

/// What an agent, which knows no peers, answers to a command of Locator.
pub(crate) fn answer(alloc: Global, command: &Command) -> Result<Answer, AllocError>
    ensures { IfOk result (λ answer. answer ≡ locator_answer command.now) }
{
    match command {
        Command::GetPeers => Ok(Answer::Peers(Texts::new(alloc))),
        Command::Redirect { .. } => Ok(Answer::Failed(report(alloc, UNKNOWN_PEER)?)),
        _ => Ok(Answer::Nothing),
    }
}
