//! The commands of the service Memory.
ghost use Rattle.std.specs.Prelude.{◌≡◌, ◌+◌, ◌≤◌, ◌<◌, pos, length, false, true, IfErr, IfOk, OnErr, OnOk, unsigned_abs};
ghost use Rattle.data_services.specs.Bytes.{part_of, with_part};
ghost use Rattle.target_contexts.specs.Refusals.{IsRefusalOf};
ghost use Rattle.target_contexts.specs.Named.{number_named};
ghost use Rattle.data_services.specs.Named.{process_named};
ghost use Rattle.data_services.specs.MemoryRows.{is_no_size, is_outside, memory_get_fault, memory_bytes, memory_set_fault, memory_events, memory_after};

use crate::named::live_process;
use rv32i_core::Memory;
use std::alloc::{AllocError, Global};
use target_contexts::{Targets, a_process_put_back_changes_nothing};
use tcf_values::{
    Bytes, ContextId, EventData, Events, Fault, Range, Ranges, Refusal, Text, context_text,
};

/// How many bytes a memory has, and how many one access can have.
const MOST: i128 = 65_536;

/// Where the bytes of a set go.
#[derive(Clone, Copy, Debug)]
struct Span {
    process: u32,
    first: u32,
}

/// Memory.get: the bytes of a range. Of size and address any number can be asked for.
pub(crate) fn get(
    alloc: Global,
    targets: &Targets,
    id: &Text,
    addr: i128,
    size: i128,
) -> Result<Bytes, Refusal>
    ensures bytes { IfOk result (λ bytes. bytes ≡ memory_bytes addr size (process_named id.now targets.now.seen.processes)) }
    ensures free { OnOk result (memory_get_fault id.now addr size targets.now.seen.processes ≡ None) }
    ensures refused { IfErr result (IsRefusalOf (memory_get_fault id.now addr size targets.now.seen.processes)) }
{
    let number = live_process(targets, id)?;
    let process = targets.process(number).ok_or(Fault::BadContext)?;
    let count = access_size(size)?;
    let first = first_place(addr, count)?;
    Ok(range_of(alloc, &process.memory, first, count)?)
}

/// Memory.set: puts the bytes over those of a range, and tells of the change. Of size and address any number can be
/// asked for. A refused call changes nothing.
pub(crate) fn set(
    alloc: Global,
    targets: &mut Targets,
    id: &Text,
    addr: i128,
    size: i128,
    bytes: &Bytes,
) -> Result<Events, Refusal>
    ensures events { IfOk result (λ events. events ≡ memory_events (number_named id.now) addr size) }
    ensures free { OnOk result (memory_set_fault id.now addr size bytes.now targets.old.seen.processes ≡ None) }
    ensures after { OnOk result (targets.new.seen ≡ memory_after id.now addr bytes.now targets.old.seen) }
    ensures refused { IfErr result (IsRefusalOf (memory_set_fault id.now addr size bytes.now targets.old.seen.processes)) }
    ensures kept { OnErr result (targets.new.seen ≡ targets.old.seen) }
{
    a_process_put_back_changes_nothing();
    let span = span_to_set(targets, id, addr, size, bytes)?;
    let events = memory_changed(alloc, span.process, addr, size)?;
    if let Some(process) = targets.process_mut(span.process) {
        put(&mut process.memory, span.first, bytes.as_slice())?;
    }
    Ok(events)
}

/// The checks of a set.
fn span_to_set(
    targets: &Targets,
    id: &Text,
    addr: i128,
    size: i128,
    bytes: &Bytes,
) -> Result<Span, Fault>
    ensures process { IfOk result (λ span. number_named id.now ≡ Some span.process) }
    ensures positive { IfOk result (λ span. 0 < span.process) }
    ensures first { IfOk result (λ span. span.first ≡ unsigned_abs addr) }
    ensures inside { IfOk result (λ span. span.first + length bytes.now ≤ 65536) }
    ensures free { OnOk result (memory_set_fault id.now addr size bytes.now targets.now.seen.processes ≡ None) }
    ensures due { IfErr result (λ fault. memory_set_fault id.now addr size bytes.now targets.now.seen.processes ≡ Some fault) }
{
    let process = live_process(targets, id)?;
    let count = access_size(size)?;
    if bytes.len() != count as usize {
        return Err(Fault::BadSize);
    }
    let first = first_place(addr, count)?;
    Ok(Span { process, first })
}

/// The size of an access, which is from 0 to 65,536.
fn access_size(size: i128) -> Result<u32, Fault>
    ensures size { IfOk result (λ count. size ≡ pos count) }
    ensures most { IfOk result (λ count. count ≤ 65536) }
    ensures free { OnOk result (is_no_size size ≡ false) }
    ensures due { OnErr result (is_no_size size ≡ true) }
    ensures fault { IfErr result (λ fault. fault ≡ Fault.BadSize) }
{
    if size < 0 || size > MOST {
        return Err(Fault::BadSize);
    }
    Ok(size as u32)
}

/// The first address of a range that lies in memory.
fn first_place(addr: i128, count: u32) -> Result<u32, Fault>
    requires { count ≤ 65536 }
    ensures first { IfOk result (λ first. addr ≡ pos first) }
    ensures inside { IfOk result (λ first. first + count ≤ 65536) }
    ensures free { OnOk result (is_outside addr (pos count) ≡ false) }
    ensures due { OnErr result (is_outside addr (pos count) ≡ true) }
    ensures fault { IfErr result (λ fault. fault ≡ Fault.BadAddress) }
{
    if addr < 0 || addr > MOST - i128::from(count) {
        return Err(Fault::BadAddress);
    }
    Ok(addr as u32)
}

/// The bytes of a range, page by page.
#[tactic(auto, using(crate::proofs::Ranges::some_left))]
fn range_of(alloc: Global, memory: &Memory, first: u32, count: u32) -> Result<Bytes, AllocError>
    requires { first + count ≤ 65536 }
    ensures { IfOk result (λ bytes. bytes ≡ part_of first count memory.now.bytes) }
{
    let size = count as usize;
    let mut bytes = Vec::with_capacity(alloc, size)?;
    while bytes.len() < size {
        let rest = memory.rest_of_page(first + bytes.len() as u32);
        let some = rest.len().min(size - bytes.len());
        bytes.extend_from_slice(&rest[..some])?;
    }
    Ok(Bytes::from_vec(bytes))
}

/// Puts the bytes over those from an address on. No other byte is written, and where memory is wanting none is.
fn put(memory: &mut Memory, first: u32, bytes: &[u8]) -> Result<(), AllocError>
    requires { first + length bytes.now ≤ 65536 }
    ensures put { OnOk result (memory.new.bytes ≡ with_part first bytes.now memory.old.bytes) }
    ensures kept { OnErr result (memory.new ≡ memory.old) }
{
    memory.write_range(first, bytes)?;
    Ok(())
}

/// What tells of a set: nothing where it has no byte, else the process and the range.
fn memory_changed(alloc: Global, process: u32, addr: i128, size: i128) -> Result<Events, AllocError>
    requires { 0 < process }
    ensures { IfOk result (λ events. events ≡ memory_events (Some process) addr size) }
{
    let mut events = Events::new(alloc);
    if size > 0 {
        let mut list = Ranges::new(alloc);
        list.push(Range { addr, size })?;
        let id = context_text(alloc, ContextId::Process(process))?;
        events.push(EventData::MemChanged { id, list })?;
    }
    Ok(events)
}
