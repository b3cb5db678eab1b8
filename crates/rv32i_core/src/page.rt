//! One page of a memory: 256 bytes, kept in one of three ways.
ghost use Rattle.std.specs.Prelude.{◌≡◌, ◌<◌, ◌≤◌, ◌+◌, ◌-◌, drop, length, map, slice_get, slice_index, slice_set, Some};
ghost use Rattle.rv32i_core.specs.Bytes.{with_word, word_at};
ghost use Rattle.rv32i_core.specs.Owning.{PagesAreOwn};
ghost use Rattle.rv32i_core.specs.PageKind.{own, to_own};
ghost use Rattle.rv32i_core.specs.Pages.{IsWhole, kind_of, page_bytes};

use std::rc::RcSlice;

/// How many bytes a page has.
pub(crate) const PAGE: usize = 256;

/// A page of a memory.
#[derive(Drop)]
pub(crate) enum Page {
    /// Zeros alone. Nothing is kept for it.
    Absent,
    /// A page of an image, kept once for all memories that were made from it.
    Shared(RcSlice<u8>),
    /// A page that is kept for this memory alone.
    Own(Box<[u8; 256]>),
}

/// The bytes of every absent page.
static ZEROS: [u8; 256] = [0; 256];

impl Page {
    fn bytes(&self) -> &[u8]
        ensures { result.now ≡ page_bytes self.now }
    {
        match self {
            Page::Absent => &ZEROS,
            Page::Shared(kept) => kept.as_slice(),
            Page::Own(kept) => kept.as_slice(),
        }
    }

    pub(crate) fn get(&self, at: usize) -> Option<u8>
        ensures { result ≡ slice_get (page_bytes self.now) at }
    {
        self.bytes().get(at).copied()
    }

    pub(crate) fn byte(&self, at: usize) -> u8
        requires wide { length (page_bytes self.now) ≡ 256 }
        requires inside { at < 256 }
        ensures { result ≡ slice_index (page_bytes self.now) at }
    {
        let bytes = self.bytes();
        bytes[at]
    }

    /// The bytes from one on.
    pub(crate) fn rest(&self, at: usize) -> &[u8]
        requires wide { length (page_bytes self.now) ≡ 256 }
        requires inside { at ≤ 256 }
        ensures { result.now ≡ drop at (page_bytes self.now) }
    {
        let bytes = self.bytes();
        &bytes[at..]
    }

    /// The number in four bytes, the lowest first.
    pub(crate) fn word(&self, at: usize) -> u32
        requires wide { length (page_bytes self.now) ≡ 256 }
        requires inside { at ≤ 252 }
        ensures { result ≡ word_at (page_bytes self.now) at }
    {
        let bytes = self.bytes();
        u32::from_le_bytes([bytes[at], bytes[at + 1], bytes[at + 2], bytes[at + 3]])
    }

    /// Makes it own, with the bytes that it has. Where it wasn't, it takes a page of the spare.
    pub(crate) fn make_own(&mut self, spare: &mut Vec<Box<[u8; 256]>>)
        requires wide { length (page_bytes self.old) ≡ 256 }
        requires room { to_own (Some (kind_of self.old)) ≤ length spare.old.items }
        ensures bytes { page_bytes self.new ≡ page_bytes self.old }
        ensures wide { length (page_bytes self.new) ≡ 256 }
        ensures kind { kind_of self.new ≡ own }
        ensures spare { length spare.new.items + to_own (Some (kind_of self.old)) ≡ length spare.old.items }
    {
        match self {
            Page::Own(_) => {}
            Page::Absent | Page::Shared(_) => {
                if let Some(mut page) = spare.pop() {
                    page.copy_from_slice(self.bytes());
                    *self = Page::Own(page);
                }
            }
        }
    }

    /// Puts a byte into an own page.
    pub(crate) fn put(&mut self, at: usize, byte: u8)
        requires wide { length (page_bytes self.old) ≡ 256 }
        requires own { kind_of self.old ≡ own }
        requires inside { at < 256 }
        ensures bytes { page_bytes self.new ≡ slice_set (page_bytes self.old) at byte }
        ensures wide { length (page_bytes self.new) ≡ 256 }
        ensures kind { kind_of self.new ≡ own }
    {
        if let Page::Own(kept) = self {
            kept[at] = byte;
        }
    }

    /// Puts a number into four bytes of an own page, the lowest first.
    pub(crate) fn put_word(&mut self, at: usize, value: u32)
        requires wide { length (page_bytes self.old) ≡ 256 }
        requires own { kind_of self.old ≡ own }
        requires inside { at ≤ 252 }
        ensures bytes { page_bytes self.new ≡ with_word at value (page_bytes self.old) }
        ensures wide { length (page_bytes self.new) ≡ 256 }
        ensures kind { kind_of self.new ≡ own }
    {
        if let Page::Own(kept) = self {
            let high = value >> 16;
            kept[at] = (value % 0x100) as u8;
            kept[at + 1] = ((value >> 8) % 0x100) as u8;
            kept[at + 2] = (high % 0x100) as u8;
            kept[at + 3] = ((high >> 8) % 0x100) as u8;
        }
    }
}

/// Makes the page of this number own.
#[tactic(auto, using(crate::proofs::Joined::wide_at, crate::proofs::Joined::same_written, crate::proofs::Joined::kinds_set, crate::proofs::Joined::kind_at))]
pub(crate) fn make_own(pages: &mut Vec<Page>, page: usize, spare: &mut Vec<Box<[u8; 256]>>)
    requires whole { IsWhole pages.old.items }
    requires inside { page < 256 }
    requires room { to_own (slice_get (map kind_of pages.old.items) page) ≤ length spare.old.items }
    ensures bytes { map page_bytes pages.new.items ≡ map page_bytes pages.old.items }
    ensures count { length pages.new.items ≡ 256 }
    ensures kinds { map kind_of pages.new.items ≡ slice_set (map kind_of pages.old.items) page own }
    ensures spare { length spare.new.items + to_own (slice_get (map kind_of pages.old.items) page) ≡ length spare.old.items }
{
    let kept = &mut pages[page];
    kept.make_own(spare);
}

/// Makes the pages from one on up to another own.
#[tactic(auto, using(crate::proofs::Owned::none_own, crate::proofs::Owned::one_own_more, crate::proofs::Owned::to_own_small, crate::proofs::Owned::whole_kept))]
pub(crate) fn make_range_own(
    pages: &mut Vec<Page>,
    first: usize,
    end: usize,
    spare: &mut Vec<Box<[u8; 256]>>,
)
    requires whole { IsWhole pages.old.items }
    requires order { first ≤ end }
    requires inside { end ≤ 256 }
    requires room { end - first ≤ length spare.old.items }
    ensures bytes { map page_bytes pages.new.items ≡ map page_bytes pages.old.items }
    ensures count { length pages.new.items ≡ 256 }
    ensures kinds { PagesAreOwn first end (map kind_of pages.old.items) (map kind_of pages.new.items) }
{
    for page in first..end {
        make_own(pages, page, spare);
    }
}
