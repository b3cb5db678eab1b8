//! Memory: 65,536 bytes at the addresses 0 to 65,535, in pages of 256 bytes.
ghost use Rattle.std.specs.Bool.{OnFalse, OnTrue};
ghost use Rattle.std.specs.Prelude.{◌≡◌, ◌<◌, ◌≤◌, ◌+◌, ◌-◌, ◌/◌, ◌%◌, ◌↔◌, drop, length, slice_get, slice_set, take, false, IsTrue, IsNone, IsSome, IfOk, IfSome, OnErr, OnOk, Some};
ghost use Rattle.std.specs.Rc.{rc_slice_items};
ghost use Rattle.rv32i_core.specs.Bytes.{byte_at, halfword_at, image_memory, is_inside, with_byte, with_bytes, with_halfword, with_word, word_at};
ghost use Rattle.rv32i_core.specs.Owning.{AreOwn, BecomeOwn, RangeIsOwn};
ghost use Rattle.rv32i_core.specs.PageKind.{own, own_count, shared, to_own};
ghost use Rattle.rv32i_core.specs.Pages.{IsPaged, image_kinds, page_at};

use crate::image::{Pages, memory_pages};
use crate::page::{PAGE, Page, make_own, make_range_own};
use std::alloc::{AllocError, Global};
use std::marker::Model;
use std::rc::RcSlice;

/// How many bytes a memory has.
const SIZE: usize = 65_536;

/// The memory of one processor, 65,536 bytes ("Memory", 1.4). Addresses count bytes from 0.
///
/// It has 256 pages of 256 bytes. A page for which nothing was written is absent, all zeros, or shared with the image
/// that the memory was made from. What is written makes its page own, which takes one of the memory's spare pages.
/// Contracts see the bytes, how many spare pages there are, and how each page is kept.
#[derive(Drop)]
pub struct Memory {
    pages: Vec<Page>,
    spare: Vec<Box<[u8; 256]>>,
}

impl Model for Memory {
    ghost use Rattle.std.specs.Prelude.{length, map};
    ghost use Rattle.rv32i_core.specs.PageKind.{MemoryValue};
    ghost use Rattle.rv32i_core.specs.Pages.{IsWhole, kind_of, pages_bytes};

    ghost Value = { MemoryValue };

    ghost view = { λ memory. record { bytes = pages_bytes memory.pages.items; spare = length memory.spare.items; kinds = map kind_of memory.pages.items } };

    ghost invariant = { λ memory. IsWhole memory.pages.items };
}

impl Memory {
    /// A memory with an image at the address 0, and zeros behind it. The image's pages are shared, and nothing is kept
    /// for the others, so that none is own. There are no spare pages. The only refusal is want of memory.
    #[tactic(auto, using(crate::proofs::Owned::none_own_at_first))]
    pub fn new(alloc: Global, image: &Pages) -> Result<Memory, AllocError>
        ensures bytes { IfOk result (λ memory. memory.bytes ≡ image_memory image.now) }
        ensures kinds { IfOk result (λ memory. memory.kinds ≡ image_kinds (length image.now / 256)) }
        ensures none_own { IfOk result (λ memory. own_count memory.kinds ≡ 0) }
        ensures spare { IfOk result (λ memory. memory.spare ≡ 0) }
    {
        Ok(Memory {
            pages: memory_pages(alloc, image)?,
            spare: Vec::new(alloc),
        })
    }

    /// What always holds of a memory: 65,536 bytes in 256 pages, and an absent page has zeros alone. The call does
    /// nothing.
    #[tactic(auto, using(crate::proofs::Memories::size, crate::proofs::Memories::count, crate::proofs::Memories::zeros))]
    pub fn is_paged(&self)
        ensures { IsPaged self.now }
    {
        let _pages = &self.pages;
    }

    /// The 256 bytes of a page that is shared, as they are kept; `None` exactly where the page of this number isn't
    /// shared, or is past 255. Takes no memory.
    #[tactic(auto, using(crate::proofs::Joined::kind_at, crate::proofs::Joined::kind_past, crate::proofs::Memories::page_there))]
    pub fn shared(&self, page: u32) -> Option<&RcSlice<u8>>
        ensures kind { IsSome result ↔ (slice_get self.now.kinds page ≡ Some shared) }
        ensures bytes { IfSome result (λ kept. rc_slice_items kept.now ≡ page_at page self.now.bytes) }
    {
        match self.pages.get(page as usize) {
            Some(page) => match page {
                Page::Shared(kept) => Some(kept),
                Page::Absent | Page::Own(_) => None,
            },
            None => None,
        }
    }

    /// Makes the spare at least so many pages; it is never less than it was. Nothing else changes, also where memory is
    /// wanting.
    pub fn ready(&mut self, count: usize) -> Result<(), AllocError>
        requires { count ≤ 256 }
        ensures room { OnOk result (count ≤ self.new.spare) }
        ensures more { self.old.spare ≤ self.new.spare }
        ensures bytes { self.new.bytes ≡ self.old.bytes }
        ensures kinds { self.new.kinds ≡ self.old.kinds }
    {
        while self.spare.len() < count {
            let page = Box::new(*self.spare.allocator(), [0; 256])?;
            self.spare.push(page)?;
        }
        Ok(())
    }

    /// The byte at an address; `None` exactly past 65,535.
    #[tactic(auto, using(crate::proofs::Joined::none_past))]
    pub fn read(&self, place: u32) -> Option<u8>
        ensures size { length self.now.bytes ≡ 65536 }
        ensures outside { IsNone result ↔ (65535 < place) }
        ensures byte { result ≡ slice_get self.now.bytes place }
    {
        self.get(place)
    }

    #[tactic(auto, using(crate::proofs::Joined::byte_there, crate::proofs::Joined::byte_past, crate::proofs::Joined::whole_size))]
    fn get(&self, place: u32) -> Option<u8>
        ensures size { length self.now.bytes ≡ 65536 }
        ensures byte { result ≡ slice_get self.now.bytes place }
    {
        let page = self.pages.get(place as usize / PAGE)?;
        page.get(place as usize % PAGE)
    }

    /// The bytes from an address on, up to the end of its page; none past 65,535. Takes no memory.
    #[tactic(auto, using(crate::proofs::Memories::rest_there, crate::proofs::Memories::rest_past, crate::proofs::Joined::wide_at, crate::proofs::Joined::whole_size))]
    pub fn rest_of_page(&self, place: u32) -> &[u8]
        ensures size { length self.now.bytes ≡ 65536 }
        ensures bytes { result.now ≡ take (256 - place % 256) (drop place self.now.bytes) }
    {
        match self.pages.get(place as usize / PAGE) {
            Some(page) => page.rest(place as usize % PAGE),
            None => &[],
        }
    }

    /// Puts a byte at an address. The answer is `false` exactly past 65,535, and then nothing changes. Else the byte's
    /// page is own then, for which it takes a spare page where it wasn't; all others stay as they were kept.
    pub fn write(&mut self, place: u32, byte: u8) -> bool
        requires { 1 ≤ self.old.spare }
        ensures size { length self.new.bytes ≡ 65536 }
        ensures inside { IsTrue result ↔ (place ≤ 65535) }
        ensures written { OnTrue result (self.new.bytes ≡ slice_set self.old.bytes place byte) }
        ensures kinds { OnTrue result (self.new.kinds ≡ slice_set self.old.kinds (place / 256) own) }
        ensures spare { OnTrue result (self.new.spare + to_own (slice_get self.old.kinds (place / 256)) ≡ self.old.spare) }
        ensures kept { OnFalse result (self.new ≡ self.old) }
    {
        if !self.has(1, place) {
            return false;
        }
        self.put(place, byte);
        true
    }

    /// Puts bytes over those from an address on. The answer is `false` exactly where they don't fit, which is said
    /// whatever the memory, and then nothing changes; nor does it where memory is wanting. Else the pages with a byte of
    /// the range are own then, and all others stay as they were kept. The spare pages stay.
    #[tactic(auto, using(crate::proofs::Owned::range_all_own, crate::proofs::Owned::empty_range, crate::proofs::Owned::nothing_put))]
    pub fn write_range(&mut self, place: u32, bytes: &[u8]) -> Result<bool, AllocError>
        ensures outside { 65536 < place + length bytes.now → result ≡ Ok false }
        ensures inside { IfOk result (λ done. IsTrue done ↔ (place + length bytes.now ≤ 65536)) }
        ensures written { IfOk result (λ done. OnTrue done (self.new.bytes ≡ with_bytes place bytes.now self.old.bytes)) }
        ensures kinds { IfOk result (λ done. OnTrue done (RangeIsOwn place (length bytes.now) self.old.kinds self.new.kinds)) }
        ensures refused { IfOk result (λ done. OnFalse done (self.new ≡ self.old)) }
        ensures kept { OnErr result (self.new ≡ self.old) }
        ensures spare { self.new.spare ≡ self.old.spare }
    {
        if place as usize > SIZE || bytes.len() > SIZE - place as usize {
            return Ok(false);
        }
        if bytes.is_empty() {
            return Ok(true);
        }
        self.own_range(place, bytes.len())?;
        self.fill(place, bytes);
        Ok(true)
    }

    /// Makes the pages own that have one of so many bytes from an address on.
    #[tactic(auto, using(crate::proofs::Owned::range_own, crate::proofs::Owned::whole_kept))]
    fn own_range(&mut self, place: u32, count: usize) -> Result<(), AllocError>
        requires some { 0 < count }
        requires inside { place + count ≤ 65536 }
        ensures bytes { self.new.bytes ≡ self.old.bytes }
        ensures kinds { OnOk result (RangeIsOwn place count self.old.kinds self.new.kinds) }
        ensures spare { self.new.spare ≡ self.old.spare }
        ensures kept { OnErr result (self.new ≡ self.old) }
    {
        let first = place as usize / PAGE;
        let end = (place as usize + count - 1) / PAGE + 1;
        let mut fresh = zero_pages(*self.spare.allocator(), end - first)?;
        make_range_own(&mut self.pages, first, end, &mut fresh);
        Ok(())
    }

    /// Puts bytes over those from an address on, whose pages are own.
    #[tactic(auto, using(crate::proofs::Owned::one_put_more, crate::proofs::Owned::nothing_put))]
    fn fill(&mut self, place: u32, bytes: &[u8])
        requires inside { place + length bytes.now ≤ 65536 }
        requires own { AreOwn place (length bytes.now) self.old.kinds }
        ensures bytes { self.new.bytes ≡ with_bytes place bytes.now self.old.bytes }
        ensures kinds { self.new.kinds ≡ self.old.kinds }
        ensures spare { self.new.spare ≡ self.old.spare }
    {
        for (offset, byte) in bytes.iter().enumerate() {
            self.put_own(place + offset as u32, *byte);
        }
    }

    /// Whether so many bytes from an address on lie in memory; the address does not wrap.
    #[tactic(auto, using(crate::proofs::Joined::whole_size))]
    pub(crate) fn has(&self, count: usize, place: u32) -> bool
        requires { count ≤ 4 }
        ensures size { length self.now.bytes ≡ 65536 }
        ensures inside { result ≡ is_inside count place }
    {
        let _pages = &self.pages;
        place as usize + count <= SIZE
    }

    #[tactic(auto, using(crate::proofs::Joined::index_there, crate::proofs::Joined::wide_at))]
    pub(crate) fn byte(&self, place: u32) -> u8
        requires { place < 65536 }
        ensures { result ≡ byte_at self.now.bytes place }
    {
        let page = &self.pages[place as usize / PAGE];
        page.byte(place as usize % PAGE)
    }

    pub(crate) fn halfword(&self, place: u32) -> u16
        requires { place + 1 < 65536 }
        ensures { result ≡ halfword_at self.now.bytes place }
    {
        u16::from_le_bytes([self.byte(place), self.byte(place + 1)])
    }

    pub(crate) fn word(&self, place: u32) -> u32
        requires { place + 3 < 65536 }
        ensures { result ≡ word_at self.now.bytes place }
    {
        if place % 256 <= 252 {
            self.word_of_page(place)
        } else {
            self.word_of_bytes(place)
        }
    }

    /// The number in four bytes that lie in one page.
    #[tactic(auto, using(crate::proofs::Joined::word_there, crate::proofs::Joined::wide_at))]
    fn word_of_page(&self, place: u32) -> u32
        requires inside { place < 65536 }
        requires one { place % 256 ≤ 252 }
        ensures { result ≡ word_at self.now.bytes place }
    {
        let page = &self.pages[place as usize / PAGE];
        page.word(place as usize % PAGE)
    }

    fn word_of_bytes(&self, place: u32) -> u32
        requires { place + 3 < 65536 }
        ensures { result ≡ word_at self.now.bytes place }
    {
        u32::from_le_bytes([
            self.byte(place),
            self.byte(place + 1),
            self.byte(place + 2),
            self.byte(place + 3),
        ])
    }

    /// Puts a byte at an address, whose page is made own first.
    fn put(&mut self, place: u32, byte: u8)
        requires inside { place < 65536 }
        requires room { 1 ≤ self.old.spare }
        ensures size { length self.new.bytes ≡ 65536 }
        ensures bytes { self.new.bytes ≡ slice_set self.old.bytes place byte }
        ensures kinds { self.new.kinds ≡ slice_set self.old.kinds (place / 256) own }
        ensures spare { self.new.spare + to_own (slice_get self.old.kinds (place / 256)) ≡ self.old.spare }
    {
        self.make_own(place as usize / PAGE);
        self.put_own(place, byte);
    }

    /// Makes the page of this number own.
    #[tactic(auto, using(crate::proofs::Owned::to_own_small, crate::proofs::Owned::get_set_same, crate::proofs::Memories::count, crate::proofs::Owned::whole_kept))]
    fn make_own(&mut self, page: usize)
        requires inside { page < 256 }
        requires room { 1 ≤ self.old.spare }
        ensures bytes { self.new.bytes ≡ self.old.bytes }
        ensures kinds { self.new.kinds ≡ slice_set self.old.kinds page own }
        ensures owned { slice_get self.new.kinds page ≡ Some own }
        ensures spare { self.new.spare + to_own (slice_get self.old.kinds page) ≡ self.old.spare }
    {
        make_own(&mut self.pages, page, &mut self.spare);
    }

    /// Puts a byte into a page that is own.
    #[tactic(auto, using(crate::proofs::Joined::byte_written, crate::proofs::Joined::wide_at, crate::proofs::Joined::whole_written, crate::proofs::Joined::kinds_kept, crate::proofs::Joined::kind_at))]
    fn put_own(&mut self, place: u32, byte: u8)
        requires inside { place < 65536 }
        requires own { slice_get self.old.kinds (place / 256) ≡ Some own }
        ensures size { length self.new.bytes ≡ 65536 }
        ensures bytes { self.new.bytes ≡ slice_set self.old.bytes place byte }
        ensures kinds { self.new.kinds ≡ self.old.kinds }
        ensures spare { self.new.spare ≡ self.old.spare }
    {
        let page = &mut self.pages[place as usize / PAGE];
        page.put(place as usize % PAGE, byte);
    }

    /// Puts the lowest 8 bits of a number at an address.
    #[tactic(auto, using(crate::proofs::Owned::one_becomes))]
    pub(crate) fn set_byte(&mut self, place: u32, value: u32)
        requires inside { place < 65536 }
        requires room { 1 ≤ self.old.spare }
        ensures bytes { self.new.bytes ≡ with_byte place value self.old.bytes }
        ensures pages { BecomeOwn 1 self.old self.new }
    {
        self.put(place, (value % 0x100) as u8);
    }

    /// Puts the lowest 16 bits of a number at an address, the lowest byte first.
    #[tactic(auto, using(crate::proofs::Owned::both_become))]
    pub(crate) fn set_halfword(&mut self, place: u32, value: u32)
        requires inside { place + 1 < 65536 }
        requires room { 2 ≤ self.old.spare }
        ensures bytes { self.new.bytes ≡ with_halfword place value self.old.bytes }
        ensures pages { BecomeOwn 2 self.old self.new }
    {
        self.set_byte(place, value);
        self.set_byte(place + 1, value >> 8);
    }

    /// Puts a number at an address, the lowest byte first.
    #[tactic(auto, using(crate::proofs::Owned::fewer_become))]
    pub(crate) fn set_word(&mut self, place: u32, value: u32)
        requires inside { place + 3 < 65536 }
        requires room { 4 ≤ self.old.spare }
        ensures bytes { self.new.bytes ≡ with_word place value self.old.bytes }
        ensures pages { BecomeOwn 4 self.old self.new }
    {
        if place % 256 <= 252 {
            self.set_word_of_page(place, value);
            return;
        }
        self.set_word_of_halves(place, value);
    }

    /// Puts a number into four bytes that lie in one page.
    #[tactic(auto, using(crate::proofs::Owned::one_becomes))]
    fn set_word_of_page(&mut self, place: u32, value: u32)
        requires inside { place < 65536 }
        requires one { place % 256 ≤ 252 }
        requires room { 1 ≤ self.old.spare }
        ensures bytes { self.new.bytes ≡ with_word place value self.old.bytes }
        ensures pages { BecomeOwn 1 self.old self.new }
    {
        self.make_own(place as usize / PAGE);
        self.put_own_word(place, value);
    }

    #[tactic(auto, using(crate::proofs::Owned::both_become))]
    fn set_word_of_halves(&mut self, place: u32, value: u32)
        requires inside { place + 3 < 65536 }
        requires room { 4 ≤ self.old.spare }
        ensures bytes { self.new.bytes ≡ with_word place value self.old.bytes }
        ensures pages { BecomeOwn 4 self.old self.new }
    {
        self.set_halfword(place, value);
        self.set_halfword(place + 2, value >> 16);
    }

    /// Puts a number into four bytes of a page that is own.
    #[tactic(auto, using(crate::proofs::Stored::word_written, crate::proofs::Joined::wide_at, crate::proofs::Joined::whole_written, crate::proofs::Joined::kinds_kept, crate::proofs::Joined::kind_at))]
    fn put_own_word(&mut self, place: u32, value: u32)
        requires inside { place < 65536 }
        requires one { place % 256 ≤ 252 }
        requires own { slice_get self.old.kinds (place / 256) ≡ Some own }
        ensures bytes { self.new.bytes ≡ with_word place value self.old.bytes }
        ensures kinds { self.new.kinds ≡ self.old.kinds }
        ensures spare { self.new.spare ≡ self.old.spare }
    {
        let page = &mut self.pages[place as usize / PAGE];
        page.put_word(place as usize % PAGE, value);
    }
}

/// So many pages of zeros.
fn zero_pages(alloc: Global, count: usize) -> Result<Vec<Box<[u8; 256]>>, AllocError>
    ensures { IfOk result (λ pages. length pages.items ≡ count) }
{
    let mut pages = Vec::new(alloc);
    while pages.len() < count {
        pages.push(Box::new(alloc, [0; 256])?)?;
    }
    Ok(pages)
}
