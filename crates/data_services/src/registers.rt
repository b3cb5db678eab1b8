//! The commands of the service Registers for one register.
ghost use Rattle.std.specs.Prelude.{◌≡◌, ◌==◌, ◌∷◌, [], if◌then◌else◌, length, IfErr, IfOk, OnErr, OnOk};
ghost use Rattle.tcf_values.specs.Ids.{register_of};
ghost use Rattle.data_services.specs.Bytes.{word_of};
ghost use Rattle.target_contexts.specs.Refusals.{IsRefusalOf};
ghost use Rattle.data_services.specs.Named.{holder_of};
ghost use Rattle.data_services.specs.RegisterRows.{register_get_fault, register_bytes, register_set_fault, register_after, with_register_word};

use crate::named::{suspended_register, thread_with};
use crate::parts::{number_in, put_number, word_bytes, word_of};
use std::alloc::{AllocError, Global};
use target_contexts::{Process, Targets};
use tcf_values::{Bytes, Duplicate, EventData, Events, Fault, PC, Refusal, RegisterId, Text};

/// Registers.get: the four bytes of a register.
pub(crate) fn get(alloc: Global, targets: &Targets, id: &Text) -> Result<Bytes, Refusal>
    ensures bytes { IfOk result (λ bytes. bytes ≡ register_bytes (register_of id.now) (holder_of id.now targets.now.seen.processes)) }
    ensures free { OnOk result (register_get_fault id.now targets.now.seen.processes ≡ None) }
    ensures refused { IfErr result (IsRefusalOf (register_get_fault id.now targets.now.seen.processes)) }
{
    let register = suspended_register(targets, id)?;
    let thread = thread_with(targets, register).ok_or(Fault::BadContext)?;
    let word = word_bytes(number_in(&thread.cpu, register.index));
    Ok(Bytes::from_slice(alloc, &word)?)
}

/// Registers.set: gives a register the number of four bytes, and tells of the change. A refused call changes nothing.
pub(crate) fn set(
    alloc: Global,
    targets: &mut Targets,
    id: &Text,
    bytes: &Bytes,
) -> Result<Events, Refusal>
    ensures events { IfOk result (λ events. events ≡ EventData.RegChanged id.now ∷ []) }
    ensures free { OnOk result (register_set_fault id.now bytes.now targets.old.seen.processes ≡ None) }
    ensures after { OnOk result (targets.new.seen ≡ register_after (register_of id.now) (word_of bytes.now) targets.old.seen) }
    ensures refused { IfErr result (IsRefusalOf (register_set_fault id.now bytes.now targets.old.seen.processes)) }
    ensures kept { OnErr result (targets.new.seen ≡ targets.old.seen) }
{
    let (register, number) = number_to_set(targets, id, bytes)?;
    let events = register_changed(alloc, id)?;
    if let Some(process) = targets.process_mut(register.process) {
        put_word(process, register, number);
    }
    Ok(events)
}

/// Gives a register of a process another number. A thread that isn't there has none.
fn put_word(process: &mut Process, register: RegisterId, number: u32)
    ensures { process.new.seen ≡ with_register_word register number process.old.seen }
{
    if let Some(thread) = process.threads.get_mut(register.thread) {
        put_number(&mut thread.cpu, register.index, number);
    }
}

/// The checks of a set.
fn number_to_set(targets: &Targets, id: &Text, bytes: &Bytes) -> Result<(RegisterId, u32), Fault>
    ensures register { IfOk result (λ set. register_of id.now ≡ Some set.0) }
    ensures number { IfOk result (λ set. set.1 ≡ word_of bytes.now) }
    ensures free { OnOk result (register_set_fault id.now bytes.now targets.now.seen.processes ≡ None) }
    ensures due { IfErr result (λ fault. register_set_fault id.now bytes.now targets.now.seen.processes ≡ Some fault) }
{
    let register = suspended_register(targets, id)?;
    let number = word_in(bytes.as_slice()).ok_or(Fault::BadSize)?;
    if register.index == PC && number % 4 != 0 {
        return Err(Fault::BadAddress);
    }
    Ok((register, number))
}

/// The number of exactly four bytes.
fn word_in(bytes: &[u8]) -> Option<u32>
    ensures { result ≡ (if length bytes.now == 4 then Some (word_of bytes.now) else None) }
{
    match bytes {
        [a, b, c, d] => Some(word_of([*a, *b, *c, *d])),
        _ => None,
    }
}

/// What tells of a change of one register.
pub(crate) fn register_changed(alloc: Global, id: &Text) -> Result<Events, AllocError>
    ensures { IfOk result (λ events. events ≡ EventData.RegChanged id.now ∷ []) }
{
    let mut events = Events::new(alloc);
    events.push(EventData::RegChanged { id: id.copy()? })?;
    Ok(events)
}
