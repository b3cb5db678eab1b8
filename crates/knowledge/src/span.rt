//! Ranges of memory, and parts of registers.
ghost use Rattle.std.specs.Prelude.{◌≡◌, ◌<◌, ◌≤◌, ◌+◌, true, false, length, unsigned_abs, IfSome, IfNone};
ghost use Rattle.knowledge.specs.Reply.{range_of};
ghost use Rattle.knowledge.specs.Rows.{are_of_range, is_outside, is_part};

use tcf_values::Location;

/// How many bytes a memory has.
const MOST: i128 = 65_536;

/// Addresses of a memory that stand one after another.
#[derive(Clone, Copy, Debug)]
pub(crate) struct Span {
    pub addr: u32,
    pub size: u32,
}

/// Addresses of the memory of a process, by its number.
#[derive(Clone, Copy, Debug)]
pub(crate) struct Asked {
    pub process: u32,
    pub addr: u32,
    pub size: u32,
}

/// Some of the four bytes of a register: the first of them, and how many.
#[derive(Clone, Copy, Debug)]
pub(crate) struct Part {
    pub offset: usize,
    pub size: usize,
}

/// The addresses of a range; none where it has some outside of memory.
pub(crate) fn span_of(addr: i128, size: i128) -> Option<Span>
    ensures inside { IfSome result (λ span. is_outside addr size ≡ false) }
    ensures first { IfSome result (λ span. span.addr ≡ unsigned_abs addr) }
    ensures count { IfSome result (λ span. span.size ≡ unsigned_abs size) }
    ensures outside { IfNone result (is_outside addr size ≡ true) }
{
    if addr < 0 || MOST < addr || size < 0 || MOST - addr < size {
        return None;
    }
    Some(Span {
        addr: addr as u32,
        size: size as u32,
    })
}

/// Where bytes stand that a range was asked for; none where they aren't as many, or the range has addresses outside of
/// memory.
pub(crate) fn first_of(addr: i128, size: i128, bytes: &[u8]) -> Option<u32>
    ensures whole { IfSome result (λ first. are_of_range addr size bytes.now ≡ true) }
    ensures first { IfSome result (λ first. first ≡ unsigned_abs addr) }
    ensures some { IfSome result (λ first. 0 < length bytes.now) }
    ensures none { IfNone result (are_of_range addr size bytes.now ≡ false) }
{
    let span = span_of(addr, size)?;
    if span.size as usize == bytes.len() && 0 < bytes.len() {
        Some(span.addr)
    } else {
        None
    }
}

/// The part of a register that a location asks for; none where that can't be asked for.
pub(crate) fn part_of(location: &Location) -> Option<Part>
    ensures offset { IfSome result (λ part. part.offset ≡ unsigned_abs location.now.offset) }
    ensures size { IfSome result (λ part. part.size ≡ unsigned_abs location.now.size) }
    ensures inside { IfSome result (λ part. part.offset + part.size ≤ 4) }
    ensures part { IfSome result (λ part. is_part location.now ≡ true) }
    ensures none { IfNone result (is_part location.now ≡ false) }
{
    if location.offset < 0
        || 4 < location.offset
        || location.size < 1
        || 4 - location.offset < location.size
    {
        return None;
    }
    Some(Part {
        offset: location.offset as usize,
        size: location.size as usize,
    })
}

/// How many bytes of a register a location asks for; none where that can't be asked for.
pub(crate) fn part_size(location: &Location) -> Option<usize>
    ensures size { IfSome result (λ size. size ≡ unsigned_abs location.now.size) }
    ensures part { IfSome result (λ size. is_part location.now ≡ true) }
    ensures none { IfNone result (is_part location.now ≡ false) }
{
    Some(part_of(location)?.size)
}

/// The range of a process's memory that is asked for; none where the memory doesn't have it, or it has no byte.
pub(crate) fn asked_of(process: u32, addr: i128, size: i128) -> Option<Asked>
    ensures range { result ≡ range_of addr size process }
    ensures some { IfSome result (λ asked. 1 ≤ asked.size) }
{
    let Span { addr, size } = span_of(addr, size)?;
    if size == 0 {
        return None;
    }
    Some(Asked {
        process,
        addr,
        size,
    })
}
