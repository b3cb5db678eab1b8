//! The commands of Memory and Registers, executed.
ghost use Rattle.std.specs.Prelude.{◌≡◌, IfErr, IfOk, IsTrue, OnErr, OnOk};
ghost use Rattle.data_services.specs.Commands.{data_after, data_effect, data_fault, is_data};
ghost use Rattle.target_contexts.specs.Refusals.{IsRefusalOf};

use crate::{locations, memory, registers};
use std::alloc::{AllocError, Global};
use target_contexts::Targets;
use tcf_values::{Answer, Command, Effect, Refusal};

/// Executes a command of Memory or Registers: get and set of Memory, and get, set, getm and setm of Registers.
///
/// A command that fails a check of its row answers the error report of the first one, and changes nothing: 16 where
/// there is no such live process, thread or register, 14 where the thread runs, 15 where a size, a length or the number
/// of locations is out of its bounds, 17 where an address lies outside memory or a pc would be no multiple of 4. That is
/// found before any memory is asked for, so want of memory can come in its place for the report alone. After want of
/// memory the targets are as they were.
pub fn apply(alloc: Global, targets: &mut Targets, command: &Command) -> Result<Effect, AllocError>
    requires { IsTrue (is_data command.now) }
    ensures effect { IfOk result (λ effect. effect ≡ data_effect command.now targets.old.seen) }
    ensures after { OnOk result (targets.new.seen ≡ data_after command.now targets.old.seen) }
    ensures kept { OnErr result (targets.new.seen ≡ targets.old.seen) }
{
    match execute(alloc, targets, command) {
        Ok(effect) => Ok(effect),
        Err(Refusal::Due(fault)) => Effect::failed(alloc, fault),
        Err(Refusal::NoMemory) => Err(AllocError),
    }
}

/// Executes a command whose checks hold.
fn execute(alloc: Global, targets: &mut Targets, command: &Command) -> Result<Effect, Refusal>
    requires { IsTrue (is_data command.now) }
    ensures effect { IfOk result (λ effect. effect ≡ data_effect command.now targets.old.seen) }
    ensures after { OnOk result (targets.new.seen ≡ data_after command.now targets.old.seen) }
    ensures refused { IfErr result (IsRefusalOf (data_fault command.now targets.old.seen)) }
    ensures kept { OnErr result (targets.new.seen ≡ targets.old.seen) }
{
    match command {
        Command::MemGet { id, addr, size, .. } => {
            let bytes = memory::get(alloc, targets, id, *addr, *size)?;
            Ok(Effect::gives(alloc, Answer::Blob(bytes)))
        }
        Command::MemSet {
            id,
            addr,
            size,
            bytes,
            ..
        } => {
            let events = memory::set(alloc, targets, id, *addr, *size, bytes)?;
            Ok(Effect::tells(alloc, events, Answer::Nothing))
        }
        Command::RegGet { id } => {
            let bytes = registers::get(alloc, targets, id)?;
            Ok(Effect::gives(alloc, Answer::Blob(bytes)))
        }
        Command::RegSet { id, bytes } => {
            let events = registers::set(alloc, targets, id, bytes)?;
            Ok(Effect::tells(alloc, events, Answer::Nothing))
        }
        Command::RegGetm { list } => {
            let bytes = locations::get(alloc, targets, list)?;
            Ok(Effect::gives(alloc, Answer::Blob(bytes)))
        }
        Command::RegSetm { list, bytes } => {
            let events = locations::set(alloc, targets, list, bytes)?;
            Ok(Effect::tells(alloc, events, Answer::Nothing))
        }
        _ => unreachable!(),
    }
}
