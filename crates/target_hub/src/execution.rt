//! A command of a channel, executed by its service.
ghost use Rattle.std.specs.Prelude.{◌≡◌, IfOk, OnOk};
ghost use Rattle.command_tables.specs.Canonical.{IsReadable};
ghost use Rattle.target_hub.specs.Execution.{exec_after, exec_effect};
ghost use Rattle.target_hub.specs.Limits.{AreReadable};

use crate::target::Target;
use crate::{breakpoints_rows, locator_rows};
use std::alloc::{AllocError, Global};
use tcf_values::{Command, Effect};

/// Executes a command of a channel. After want of memory the target is valid, and nothing more is known of it.
#[tactic(auto, unfolding(crate::specs::Execution::exec_effect, crate::specs::Execution::exec_after), using(crate::proofs::Points::readable_like))]
pub(crate) fn execute(
    alloc: Global,
    target: &mut Target,
    channel: u64,
    command: &Command,
) -> Result<Effect, AllocError>
    requires command { IsReadable command.now }
    requires breakpoints { AreReadable target.old.breakpoints }
    ensures effect { IfOk result (λ effect. effect ≡ exec_effect channel command.now target.old) }
    ensures after { OnOk result (target.new ≡ exec_after channel command.now target.old) }
    ensures readable { AreReadable target.new.breakpoints }
{
    match command {
        Command::Sync | Command::GetPeers | Command::Redirect { .. } => {
            let answer = locator_rows::answer(alloc, command)?;
            Ok(Effect::gives(alloc, answer))
        }
        Command::BpSet { .. }
        | Command::BpAdd { .. }
        | Command::BpChange { .. }
        | Command::BpEnable { .. }
        | Command::BpDisable { .. }
        | Command::BpRemove { .. } => breakpoints_rows::change(alloc, target, channel, command),
        Command::BpIds
        | Command::BpProperties { .. }
        | Command::BpGetStatus { .. }
        | Command::BpCapabilities { .. } => breakpoints_rows::ask(alloc, target, command),
        Command::MemGet { .. }
        | Command::MemSet { .. }
        | Command::RegGet { .. }
        | Command::RegSet { .. }
        | Command::RegGetm { .. }
        | Command::RegSetm { .. } => data_services::apply(alloc, &mut target.contexts, command),
        _ => run_control::apply(
            alloc,
            &mut target.contexts,
            &mut target.breakpoints,
            command,
        ),
    }
}
