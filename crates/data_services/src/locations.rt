//! The commands of the service Registers for several locations: getm and setm.
ghost use Rattle.std.specs.Prelude.{◌≡◌, ◌∷◌, [], length, All, IfErr, IfOk, OnErr, OnOk};
ghost use Rattle.target_contexts.specs.Refusals.{IsRefusalOf};
ghost use Rattle.data_services.specs.Parts.{IsInside, bytes_of, part_named, parts_named, sizes};
ghost use Rattle.data_services.specs.RegisterRows.{location_fault, name_one, registers_after, registers_events, registers_get_fault, registers_set_fault};

use crate::named::suspended_register;
use crate::parts::{Part, bytes_of, has_size, names_off_after, put_parts};
use crate::registers::register_changed;
use arrayvec::ArrayVec;
use std::alloc::{AllocError, Global};
use target_contexts::Targets;
use tcf_values::{Bytes, EventData, Events, Fault, Location, Locations, Refusal, Text};

/// How many locations one command can have.
const MOST: usize = 256;

/// How many bytes a register has.
const WIDTH: i128 = 4;

/// What locations name. It takes no memory, so that a fault is found before any is asked for.
type Parts = ArrayVec<Part, MOST>;

/// Registers.getm: the bytes of the locations, in order.
pub(crate) fn get(alloc: Global, targets: &Targets, list: &Locations) -> Result<Bytes, Refusal>
    ensures bytes { IfOk result (λ bytes. bytes ≡ bytes_of targets.now.seen.processes (parts_named list.now)) }
    ensures free { OnOk result (registers_get_fault list.now targets.now.seen.processes ≡ None) }
    ensures refused { IfErr result (IsRefusalOf (registers_get_fault list.now targets.now.seen.processes)) }
{
    let parts = parts_to_get(targets, list.as_slice())?;
    Ok(bytes_of(alloc, targets, parts.as_slice())?)
}

/// Registers.setm: puts the bytes into the locations, in order, and tells of the change. A refused call changes
/// nothing.
pub(crate) fn set(
    alloc: Global,
    targets: &mut Targets,
    list: &Locations,
    bytes: &Bytes,
) -> Result<Events, Refusal>
    ensures events { IfOk result (λ events. events ≡ registers_events list.now) }
    ensures free { OnOk result (registers_set_fault list.now bytes.now targets.old.seen ≡ None) }
    ensures after { OnOk result (targets.new.seen ≡ registers_after list.now bytes.now targets.old.seen) }
    ensures refused { IfErr result (IsRefusalOf (registers_set_fault list.now bytes.now targets.old.seen)) }
    ensures kept { OnErr result (targets.new.seen ≡ targets.old.seen) }
{
    let parts = parts_to_set(targets, list, bytes)?;
    let events = registers_changed(alloc, list.as_slice())?;
    put_parts(targets, parts.as_slice(), bytes.as_slice());
    Ok(events)
}

/// The checks of a getm.
fn parts_to_get(targets: &Targets, list: &[Location]) -> Result<Parts, Fault>
    ensures parts { IfOk result (λ parts. parts.items ≡ parts_named list.now) }
    ensures inside { IfOk result (λ parts. All IsInside parts.items) }
    ensures free { OnOk result (registers_get_fault list.now targets.now.seen.processes ≡ None) }
    ensures due { IfErr result (λ fault. registers_get_fault list.now targets.now.seen.processes ≡ Some fault) }
{
    if list.len() > MOST {
        return Err(Fault::BadSize);
    }
    let mut parts = Parts::new();
    for location in list {
        parts.push(part_to_get(targets, location)?);
    }
    Ok(parts)
}

/// The checks of one location. Of offset and size any number can be asked for.
fn part_to_get(targets: &Targets, location: &Location) -> Result<Part, Fault>
    ensures part { IfOk result (λ part. part_named location.now ≡ Some part) }
    ensures inside { IfOk result IsInside }
    ensures free { OnOk result (location_fault targets.now.seen.processes location.now ≡ None) }
    ensures due { IfErr result (λ fault. location_fault targets.now.seen.processes location.now ≡ Some fault) }
{
    let register = suspended_register(targets, &location.register)?;
    let Location { offset, size, .. } = location;
    if *offset < 0 || *size < 1 || *size > WIDTH || *offset > WIDTH - *size {
        return Err(Fault::BadSize);
    }
    Ok(Part {
        register,
        offset: *offset as usize,
        size: *size as usize,
    })
}

/// The checks of a setm.
fn parts_to_set(targets: &Targets, list: &Locations, bytes: &Bytes) -> Result<Parts, Fault>
    ensures parts { IfOk result (λ parts. parts.items ≡ parts_named list.now) }
    ensures inside { IfOk result (λ parts. All IsInside parts.items) }
    ensures size { IfOk result (λ parts. sizes parts.items ≡ length bytes.now) }
    ensures free { OnOk result (registers_set_fault list.now bytes.now targets.now.seen ≡ None) }
    ensures due { IfErr result (λ fault. registers_set_fault list.now bytes.now targets.now.seen ≡ Some fault) }
{
    let parts = parts_to_get(targets, list.as_slice())?;
    if !has_size(parts.as_slice(), bytes.len()) {
        return Err(Fault::BadSize);
    }
    if names_off_after(targets, parts.as_slice(), bytes.as_slice()) {
        return Err(Fault::BadAddress);
    }
    Ok(parts)
}

/// What tells of a setm: nothing without a location, the one register that is named, or that there are several.
fn registers_changed(alloc: Global, list: &[Location]) -> Result<Events, AllocError>
    ensures { IfOk result (λ events. events ≡ registers_events list.now) }
{
    match list.first() {
        None => Ok(Events::new(alloc)),
        Some(first) if name_one(&first.register, list) => register_changed(alloc, &first.register),
        Some(_) => several_changed(alloc),
    }
}

/// Whether all locations name this register. A register has one spelling.
fn name_one(register: &Text, list: &[Location]) -> bool
    ensures { result ≡ name_one register.now list.now }
{
    list.iter().all(|location| location.register.as_bytes() == register.as_bytes())
}

/// What tells of a change of several registers.
fn several_changed(alloc: Global) -> Result<Events, AllocError>
    ensures { IfOk result (λ events. events ≡ EventData.RegsChanged ∷ []) }
{
    let mut events = Events::new(alloc);
    events.push(EventData::RegsChanged)?;
    Ok(events)
}
