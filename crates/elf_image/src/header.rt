//! The file header ("ELF Header" and "ELF Identification").
ghost use Rattle.std.specs.Prelude.{◌≡◌, ◌<◌, ◌≤◌, ◌^◌, ◌↔◌, length, IsTrue};
ghost use Rattle.elf_image.specs.Header.{IsElf, entry_of, first_other, has_table, header_count, header_fault, identification, object, sizes, table_place};

use crate::numbers::{half_at, word_at};

/// How many bytes a file header has.
pub(crate) const FILE_HEADER: usize = 52;

/// How many bytes a program header has.
pub(crate) const PROGRAM_HEADER: usize = 32;

/// How many program headers a file can have.
const MOST_HEADERS: u16 = 64;

// The places of fields, and the values that are taken, by the standard's names.
const EI_CLASS: usize = 4;

const ELFCLASS32: u8 = 1;

const EI_DATA: usize = 5;

const ELFDATA2LSB: u8 = 1;

const EI_VERSION: usize = 6;

const E_TYPE: usize = 16;

const ET_EXEC: u16 = 2;

const E_MACHINE: usize = 18;

const EM_RISCV: u16 = 243;

const E_VERSION: usize = 20;

const EV_CURRENT: u8 = 1;

const E_ENTRY: usize = 24;

const E_PHOFF: usize = 28;

const E_EHSIZE: usize = 40;

const E_PHENTSIZE: usize = 42;

const E_PHNUM: usize = 44;

/// Whether the bytes begin as an ELF file does: with the byte 7F, and with E, L and F ("ELF Identification"). It takes
/// no memory.
pub fn is_elf(bytes: &[u8]) -> bool
    ensures { IsTrue result ↔ IsElf bytes.now }
{
    bytes.starts_with(b"\x7fELF")
}

/// The place of the first field of the identification with a value that isn't taken.
#[tactic(auto, unfolding(crate::specs::Header::first_other))]
fn identification_fault(file: &[u8]) -> Option<usize>
    requires { 52 ≤ length file.now }
    ensures { result ≡ first_other file.now identification }
{
    if file[EI_CLASS] != ELFCLASS32 {
        Some(EI_CLASS)
    } else if file[EI_DATA] != ELFDATA2LSB {
        Some(EI_DATA)
    } else if file[EI_VERSION] != EV_CURRENT {
        Some(EI_VERSION)
    } else {
        None
    }
}

/// The same of the fields that say what kind of file it is.
#[tactic(auto, unfolding(crate::specs::Header::first_other))]
fn object_fault(file: &[u8]) -> Option<usize>
    requires { 52 ≤ length file.now }
    ensures { result ≡ first_other file.now object }
{
    if half_at(file, E_TYPE) != ET_EXEC {
        Some(E_TYPE)
    } else if half_at(file, E_MACHINE) != EM_RISCV {
        Some(E_MACHINE)
    } else if word_at(file, E_VERSION) != u32::from(EV_CURRENT) {
        Some(E_VERSION)
    } else {
        None
    }
}

/// The same of the fields that say how large the headers are.
#[tactic(auto, unfolding(crate::specs::Header::first_other))]
fn sizes_fault(file: &[u8]) -> Option<usize>
    requires { 52 ≤ length file.now }
    ensures { result ≡ first_other file.now sizes }
{
    if usize::from(half_at(file, E_EHSIZE)) != FILE_HEADER {
        Some(E_EHSIZE)
    } else if usize::from(half_at(file, E_PHENTSIZE)) != PROGRAM_HEADER {
        Some(E_PHENTSIZE)
    } else if half_at(file, E_PHNUM) > MOST_HEADERS {
        Some(E_PHNUM)
    } else {
        None
    }
}

/// The place of the first field of the file header with a value that isn't taken.
#[tactic(auto, using(crate::proofs::Order::header_in_parts))]
pub(crate) fn header_fault(file: &[u8]) -> Option<usize>
    requires { 52 ≤ length file.now }
    ensures { result ≡ header_fault file.now }
{
    identification_fault(file)
        .or(object_fault(file))
        .or(sizes_fault(file))
}

/// The address at which the program begins.
pub(crate) fn entry(file: &[u8]) -> u32
    requires { 52 ≤ length file.now }
    ensures { result ≡ entry_of file.now }
{
    word_at(file, E_ENTRY)
}

/// Where the first program header stands.
pub(crate) fn table_place(file: &[u8]) -> usize
    requires { 52 ≤ length file.now }
    ensures place { result ≡ table_place file.now }
    ensures bound { result < 2 ^ 32 }
{
    word_at(file, E_PHOFF) as usize
}

/// How many program headers there are.
pub(crate) fn header_count(file: &[u8]) -> usize
    requires { 52 ≤ length file.now }
    ensures count { result ≡ header_count file.now }
    ensures bound { result < 2 ^ 16 }
{
    usize::from(half_at(file, E_PHNUM))
}

/// Whether each program header lies in the file.
pub(crate) fn has_table(file: &[u8]) -> bool
    requires { 52 ≤ length file.now }
    ensures { result ≡ has_table file.now }
{
    let count = header_count(file);
    count == 0 || table_place(file) + PROGRAM_HEADER * count <= file.len()
}
