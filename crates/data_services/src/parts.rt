//! Registers, and parts of them: some of a register's four bytes, which are its number with the least byte first.
ghost use Rattle.std.specs.Prelude.{◌≡◌, ◌==◌, ◌++◌, length, All, IfOk, OnOk};
ghost use Rattle.data_services.specs.Bytes.{word_bytes, word_of};
ghost use Rattle.data_services.specs.Named.{thread_with};
ghost use Rattle.data_services.specs.Parts.{IsInside, number_in, with_number, bytes_in, bytes_of, with_part_bytes, with_register_bytes, with_parts, cpu_after, is_off, is_part_of, names_off, sizes};
ghost use Rattle.target_contexts.specs.Changes.{with_change};

use crate::named::thread_with;
use rv32i_core::Cpu;
use std::alloc::{AllocError, Global};
use target_contexts::{Process, Targets, a_change_changes_one};
use tcf_values::{Bytes, PC, RegisterId};

/// Some of the four bytes of a register: the first of them, and how many.
#[derive(Clone, Copy, Debug)]
pub(crate) struct Part {
    pub register: RegisterId,
    pub offset: usize,
    pub size: usize,
}

impl Default for Part {
    fn default() -> Self {
        Part {
            register: RegisterId {
                process: 0,
                thread: 0,
                index: 0,
            },
            offset: 0,
            size: 0,
        }
    }
}

/// The four bytes of a number, the least first.
#[tactic(auto, unfolding(crate::specs::Bytes::word_bytes))]
pub(crate) fn word_bytes(number: u32) -> [u8; 4]
    ensures { result ≡ word_bytes number }
{
    number.to_le_bytes()
}

/// The number of four bytes, the least first.
#[tactic(auto, unfolding(crate::specs::Bytes::word_of))]
pub(crate) fn word_of(bytes: [u8; 4]) -> u32
    ensures { result ≡ word_of bytes }
{
    u32::from_le_bytes(bytes)
}

/// The number in x0 to x31, or the pc. x0 reads 0 whatever stands in its place.
pub(crate) fn number_in(cpu: &Cpu, index: u8) -> u32
    ensures { result ≡ number_in index cpu.now }
{
    match index {
        0 => 0,
        1..=31 => cpu.x[index as usize],
        _ => cpu.pc,
    }
}

/// Puts a number into x1 to x31 or the pc. What is put into x0 is lost.
pub(crate) fn put_number(cpu: &mut Cpu, index: u8, number: u32)
    ensures { cpu.new ≡ with_number index number cpu.old }
{
    match index {
        0 => {}
        1..=31 => cpu.x[index as usize] = number,
        _ => cpu.pc = number,
    }
}

/// The bytes of parts, in order. A thread that isn't there has none.
pub(crate) fn bytes_of(
    alloc: Global,
    targets: &Targets,
    parts: &[Part],
) -> Result<Bytes, AllocError>
    requires { All IsInside parts.now }
    ensures { IfOk result (λ bytes. bytes ≡ bytes_of targets.now.seen.processes parts.now) }
{
    let mut bytes = Bytes::new(alloc);
    for part in parts {
        add_bytes(&mut bytes, targets, part)?;
    }
    Ok(bytes)
}

/// Puts the bytes of a part last.
fn add_bytes(bytes: &mut Bytes, targets: &Targets, part: &Part) -> Result<(), AllocError>
    requires { IsInside part.now }
    ensures { OnOk result (bytes.new ≡ bytes.old ++ bytes_in part.now (thread_with targets.now.seen.processes part.now.register)) }
{
    if let Some(thread) = thread_with(targets, part.register) {
        let word = word_bytes(number_in(&thread.cpu, part.register.index));
        bytes.extend(&word[part.offset..part.offset + part.size])?;
    }
    Ok(())
}

/// Whether the parts have exactly so many bytes in all.
pub(crate) fn has_size(parts: &[Part], size: usize) -> bool
    ensures { result ≡ (sizes parts.now == size) }
{
    let mut left = size;
    for part in parts {
        if part.size > left {
            return false;
        }
        left -= part.size;
    }
    left == 0
}

/// Puts bytes over a part of one of these registers.
fn put_bytes(cpu: &mut Cpu, part: &Part, bytes: &[u8])
    requires inside { IsInside part.now }
    requires size { length bytes.now ≡ part.now.size }
    ensures { cpu.new ≡ with_register_bytes part.now bytes.now cpu.old }
{
    let index = part.register.index;
    let mut word = word_bytes(number_in(cpu, index));
    word[part.offset..part.offset + part.size].copy_from_slice(bytes);
    put_number(cpu, index, word_of(word));
}

/// Puts bytes over a part in the registers of its process. A thread that isn't there takes none.
fn put_in_process(process: &mut Process, part: &Part, bytes: &[u8])
    requires inside { IsInside part.now }
    requires size { length bytes.now ≡ part.now.size }
    ensures { process.new.seen ≡ with_part_bytes part.now bytes.now process.old.seen }
{
    if let Some(thread) = process.threads.get_mut(part.register.thread) {
        put_bytes(&mut thread.cpu, part, bytes);
    }
}

/// Puts bytes over a part. A process that isn't there takes none.
fn put_part(targets: &mut Targets, part: &Part, bytes: &[u8])
    requires inside { IsInside part.now }
    requires size { length bytes.now ≡ part.now.size }
    ensures { targets.new.seen ≡ with_change (with_part_bytes part.now bytes.now) part.now.register.process targets.old.seen }
{
    if let Some(process) = targets.process_mut(part.register.process) {
        put_in_process(process, part, bytes);
    }
}

/// Puts bytes over parts, in order: each part takes as many of them as it has.
pub(crate) fn put_parts(targets: &mut Targets, parts: &[Part], bytes: &[u8])
    requires inside { All IsInside parts.now }
    requires size { sizes parts.now ≡ length bytes.now }
    ensures { targets.new.seen ≡ with_parts parts.now bytes.now targets.old.seen }
{
    let mut rest = bytes;
    for part in parts {
        let (first, later) = rest.split_at(part.size);
        put_part(targets, part, first);
        rest = later;
    }
}

/// Whether a part is of a register of this thread.
fn is_part_of(process: u32, thread: u32, part: &Part) -> bool
    ensures { result ≡ is_part_of process thread part.now }
{
    part.register.process == process && part.register.thread == thread
}

/// The registers of one thread after bytes are put over parts, as [`put_parts`] does.
fn cpu_after(process: u32, thread: u32, cpu: Cpu, parts: &[Part], bytes: &[u8]) -> Cpu
    requires inside { All IsInside parts.now }
    requires size { sizes parts.now ≡ length bytes.now }
    ensures { result ≡ cpu_after process thread parts.now bytes.now cpu }
{
    let mut after = cpu;
    let mut rest = bytes;
    for part in parts {
        let (first, later) = rest.split_at(part.size);
        if is_part_of(process, thread, part) {
            put_bytes(&mut after, part, first);
        }
        rest = later;
    }
    after
}

/// Whether the pc of the thread with a register would be no multiple of 4 after bytes are put over parts.
fn is_off_after(targets: &Targets, register: RegisterId, parts: &[Part], bytes: &[u8]) -> bool
    requires inside { All IsInside parts.now }
    requires size { sizes parts.now ≡ length bytes.now }
    ensures { result ≡ is_off (thread_with (with_parts parts.now bytes.now targets.now.seen).processes register) }
{
    a_change_changes_one();
    match thread_with(targets, register) {
        Some(found) => {
            cpu_after(register.process, register.thread, found.cpu, parts, bytes).pc % 4 != 0
        }
        None => false,
    }
}

/// Whether a pc that one of the parts is of would be no multiple of 4 after bytes are put over the parts.
pub(crate) fn names_off_after(targets: &Targets, parts: &[Part], bytes: &[u8]) -> bool
    requires inside { All IsInside parts.now }
    requires size { sizes parts.now ≡ length bytes.now }
    ensures { result ≡ names_off (with_parts parts.now bytes.now targets.now.seen).processes parts.now }
{
    for part in parts {
        if part.register.index == PC && is_off_after(targets, part.register, parts, bytes) {
            return true;
        }
    }
    false
}
