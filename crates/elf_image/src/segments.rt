//! Program headers, and the segments among them ("Program Header").
ghost use Rattle.std.specs.Prelude.{◌≡◌, ◌+◌, ◌<◌, length};
ghost use Rattle.elf_image.specs.Header.{HasHeaders, header_count};
ghost use Rattle.elf_image.specs.Segments.{has_bytes, is_misplaced, is_misplaced_at, is_segment, misplaced_segment, overlap_at, overlapping_segment, overlaps_earlier, program_header, share_address};

use crate::header::{PROGRAM_HEADER, header_count, table_place};
use crate::numbers::word_at;

/// The type of a program header that is of a segment.
const PT_LOAD: u32 = 1;

// The places of a program header's fields in it, by the standard's names.
const P_TYPE: usize = 0;

const P_OFFSET: usize = 4;

const P_VADDR: usize = 8;

const P_FILESZ: usize = 16;

const P_MEMSZ: usize = 20;

/// How many addresses a memory has.
const MEMORY_SIZE: u64 = 65_536;

/// What a program header says. Sizes count bytes.
#[derive(Clone, Copy, Debug, PartialEq, Eq)]
pub(crate) struct ProgramHeader {
    pub(crate) kind: u32,
    /// Where the bytes begin in the file.
    pub(crate) offset: u32,
    /// The address of the first byte.
    pub(crate) addr: u32,
    pub(crate) file_size: u32,
    /// The bytes past those of the file are zeros.
    pub(crate) memory_size: u32,
}

impl ProgramHeader {
    /// Whether it is of a segment, with bytes in memory.
    fn is_segment(self) -> bool
        ensures { result ≡ is_segment self }
    {
        self.kind == PT_LOAD && self.memory_size > 0
    }

    /// Whether it is of a segment with bytes in the file.
    pub(crate) fn has_bytes(self) -> bool
        ensures { result ≡ has_bytes self }
    {
        self.is_segment() && self.file_size > 0
    }

    /// Whether it has more bytes in the file than in memory, bytes outside a file of so many bytes, or an address past
    /// the memory.
    fn is_misplaced(self, size: usize) -> bool
        ensures { result ≡ is_misplaced size self }
    {
        self.file_size > self.memory_size
            || (self.file_size > 0 && self.bytes_end() > size as u64)
            || self.end() > MEMORY_SIZE
    }

    /// Whether both have an address in common.
    fn share_address(self, other: ProgramHeader) -> bool
        ensures { result ≡ share_address self other }
    {
        u64::from(self.addr) < other.end() && u64::from(other.addr) < self.end()
    }

    /// Where the bytes end in the file.
    fn bytes_end(self) -> u64
        ensures { result ≡ self.offset + self.file_size }
    {
        u64::from(self.offset) + u64::from(self.file_size)
    }

    /// The address behind the last byte.
    fn end(self) -> u64
        ensures { result ≡ self.addr + self.memory_size }
    {
        u64::from(self.addr) + u64::from(self.memory_size)
    }
}

/// The program header with this index.
#[tactic(auto, unfolding(crate::specs::Segments::program_header))]
pub(crate) fn program_header(file: &[u8], index: usize) -> ProgramHeader
    requires headers { HasHeaders file.now }
    requires index { index < header_count file.now }
    ensures { result ≡ program_header file.now index }
{
    let place = table_place(file) + PROGRAM_HEADER * index;
    ProgramHeader {
        kind: word_at(file, place + P_TYPE),
        offset: word_at(file, place + P_OFFSET),
        addr: word_at(file, place + P_VADDR),
        file_size: word_at(file, place + P_FILESZ),
        memory_size: word_at(file, place + P_MEMSZ),
    }
}

/// Whether the program header with this index is of a segment that is misplaced.
#[tactic(auto, unfolding(crate::specs::Segments::is_misplaced_at))]
fn is_misplaced_at(file: &[u8], index: usize) -> bool
    requires headers { HasHeaders file.now }
    requires index { index < header_count file.now }
    ensures { result ≡ is_misplaced_at file.now index }
{
    let header = program_header(file, index);
    header.is_segment() && header.is_misplaced(file.len())
}

/// The index of the first segment that is misplaced.
pub(crate) fn misplaced_segment(file: &[u8]) -> Option<usize>
    requires { HasHeaders file.now }
    ensures { result ≡ misplaced_segment file.now }
{
    let count = header_count(file);
    for index in 0..count {
        if is_misplaced_at(file, index) {
            return Some(index);
        }
    }
    None
}

/// Whether both program headers are of segments with an address in common.
#[tactic(auto, unfolding(crate::specs::Segments::overlap_at))]
fn overlap_at(file: &[u8], index: usize, earlier: usize) -> bool
    requires headers { HasHeaders file.now }
    requires index { index < header_count file.now }
    requires earlier { earlier < header_count file.now }
    ensures { result ≡ overlap_at file.now index earlier }
{
    let one = program_header(file, earlier);
    let other = program_header(file, index);
    one.is_segment() && other.is_segment() && one.share_address(other)
}

/// Whether the segment with this index shares an address with an earlier one.
fn overlaps_earlier(file: &[u8], index: usize) -> bool
    requires headers { HasHeaders file.now }
    requires index { index < header_count file.now }
    ensures { result ≡ overlaps_earlier file.now index }
{
    for earlier in 0..index {
        if overlap_at(file, index, earlier) {
            return true;
        }
    }
    false
}

/// The index of the first segment that shares an address with an earlier one.
pub(crate) fn overlapping_segment(file: &[u8]) -> Option<usize>
    requires { HasHeaders file.now }
    ensures { result ≡ overlapping_segment file.now }
{
    let count = header_count(file);
    for index in 0..count {
        if overlaps_earlier(file, index) {
            return Some(index);
        }
    }
    None
}
