//! Reading a file: first all checks in their order, which take no memory, and then the parts.
ghost use Rattle.std.specs.List.{AllPairs};
ghost use Rattle.std.specs.Option.{option_to_list};
ghost use Rattle.std.specs.Prelude.{◌≡◌, ◌≢◌, ℕ, ◌+◌, ◌%◌, ◌<◌, ◌≤◌, ◌++◌, length, All, IfOk, IfErr, IfSome, OnOk, None, Err};
ghost use Rattle.elf_image.specs.Fault.{fault_of, is_entry};
ghost use Rattle.elf_image.specs.Header.{HasHeaders, IsElf, entry_of, header_count};
ghost use Rattle.elf_image.specs.Image.{Answers, AreApart, LiesInMemory, Loads, Refuses, bytes_part, part_at, parts_of, placed, zeros};
ghost use Rattle.elf_image.specs.Segments.{HasItsBytes, program_header};

use crate::fault::ElfFault;
use crate::header::{FILE_HEADER, entry, has_table, header_count, header_fault};
use crate::part::{Part, PartBytes};
use crate::program::{Parts, Program};
use crate::segments::{ProgramHeader, misplaced_segment, overlapping_segment, program_header};
use std::alloc::{AllocError, Global};

/// How many addresses a memory has.
const MEMORY_SIZE: u32 = 65_536;

/// Whether a program can begin at the address.
fn is_entry(entry: u32) -> bool
    ensures { result ≡ is_entry entry }
{
    entry % 4 == 0 && entry < MEMORY_SIZE
}

/// The first fault of a file, in the order of the checks.
fn fault_of(file: &[u8]) -> Option<ElfFault>
    ensures fault { result ≡ fault_of file.now }
    ensures own { IfSome result (λ fault. fault ≢ ElfFault.NoMemory) }
{
    if file.len() < FILE_HEADER {
        return Some(ElfFault::Short);
    }
    if let Some(place) = header_fault(file) {
        return Some(ElfFault::Header { place });
    }
    if !has_table(file) {
        return Some(ElfFault::Short);
    }
    if let Some(index) = misplaced_segment(file) {
        return Some(ElfFault::Segment { index });
    }
    if let Some(index) = overlapping_segment(file) {
        return Some(ElfFault::Overlap { index });
    }
    if !is_entry(entry(file)) {
        return Some(ElfFault::Entry);
    }
    None
}

/// The bytes that a segment has in the file, at its address.
fn bytes_part(alloc: Global, file: &[u8], header: ProgramHeader) -> Result<Part, AllocError>
    requires { header.offset + header.file_size ≤ length file.now }
    ensures { IfOk result (λ part. part ≡ bytes_part file.now header) }
{
    let start = header.offset as usize;
    let mut bytes = PartBytes::new(alloc);
    bytes.extend(&file[start..start + header.file_size as usize])?;
    Ok(Part {
        addr: header.addr,
        bytes,
    })
}

/// Puts the part of the program header with this index last, if it has one.
fn add_part(alloc: Global, file: &[u8], index: usize, parts: &mut Parts) -> Result<(), AllocError>
    requires headers { HasHeaders file.now }
    requires index { index < header_count file.now }
    requires bytes { HasItsBytes (length file.now) (program_header file.now index) }
    ensures { OnOk result (parts.new ≡ parts.old ++ option_to_list (part_at file.now index)) }
{
    let header = program_header(file, index);
    if !header.has_bytes() {
        return Ok(());
    }
    parts.push(bytes_part(alloc, file, header)?)
}

/// The parts of a file, in the order of its program headers.
fn parts(alloc: Global, file: &[u8]) -> Result<Parts, AllocError>
    requires headers { HasHeaders file.now }
    requires bytes { (index : ℕ) → index < header_count file.now →
        HasItsBytes (length file.now) (program_header file.now index) }
    ensures { IfOk result (λ parts. parts ≡ parts_of file.now) }
{
    let mut parts = Parts::new(alloc);
    let count = header_count(file);
    for index in 0..count {
        add_part(alloc, file, index, &mut parts)?;
    }
    Ok(parts)
}

/// The program of a file, or why there is none.
fn program(alloc: Global, file: &[u8]) -> Result<Program, ElfFault>
    ensures { Answers file.now result }
{
    match fault_of(file) {
        Some(fault) => Err(fault),
        None => Ok(Program {
            entry: entry(file),
            parts: parts(alloc, file)?,
        }),
    }
}

/// Reads an ELF32 executable for RISC-V as the parts that a memory of 65,536 bytes gets. Section headers, flags, and
/// program headers of other types than 1 are ignored, and so are parts without a byte in the file.
///
/// The faults are looked for in this order: a file of fewer than 52 bytes (`Short`); a field of the file header with
/// another value (`Header`); a program header that doesn't lie in the file (`Short`); a segment that is misplaced
/// (`Segment`); one that shares an address with an earlier one (`Overlap`); and an entry that is no multiple of 4
/// below 65,536 (`Entry`). Memory is asked for only where there is none.
pub fn read(alloc: Global, bytes: &[u8]) -> Result<Program, ElfFault>
    requires { IsElf bytes.now }

    // A fault is answered whatever the memory. Without one there is a program, or want of memory.
    ensures fault { IfSome (fault_of bytes.now) (λ fault. result ≡ Err fault) }
    ensures refused { IfErr result (Refuses bytes.now) }
    ensures sound { OnOk result (fault_of bytes.now ≡ None) }

    // A part for each segment with bytes in the file; placed over zeros they are the memory that is loaded.
    ensures parts { IfOk result (λ program. program.parts ≡ parts_of bytes.now) }
    ensures image { IfOk result (λ program. Loads bytes.now program.entry (placed program.parts zeros)) }

    // The parts lie in memory and have no address in common, and the program can begin at its entry.
    ensures inside { IfOk result (λ program. All LiesInMemory program.parts) }
    ensures apart { IfOk result (λ program. AllPairs AreApart program.parts) }
    ensures aligned { IfOk result (λ program. program.entry % 4 ≡ 0) }
    ensures below { IfOk result (λ program. program.entry < 65536) }
{
    program(alloc, bytes)
}
