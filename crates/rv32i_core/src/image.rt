//! The pages of an image, which all memories that are made from it share.
ghost use Rattle.std.specs.Prelude.{◌≡◌, ◌≤◌, ◌-◌, ◌/◌, ◌++◌, length, map, replicate, IfOk};
ghost use Rattle.std.specs.Rc.{rc_slice_items};
ghost use Rattle.rv32i_core.specs.Bytes.{image_memory};
ghost use Rattle.rv32i_core.specs.PageKind.{absent, shared};
ghost use Rattle.rv32i_core.specs.Pages.{AreWide, image_kinds, kind_of, page_bytes, pages_bytes};

use crate::page::Page;
use std::alloc::{AllocError, Global};
use std::marker::Model;
use std::rc::RcSlice;

/// How many pages a memory has.
pub(crate) const PAGES: usize = 256;

/// The pages of an image. Contracts see its bytes, a multiple of 256 and at most 65,536.
#[derive(Drop)]
pub struct Pages {
    pub(crate) pages: Vec<RcSlice<u8>>,
}

impl Model for Pages {
    ghost use Rattle.std.specs.Prelude.{List, ℕ, map};
    ghost use Rattle.std.specs.Rc.{rc_slice_items};
    ghost use Rattle.rv32i_core.specs.Pages.{IsImage, joined};

    ghost Value = { List ℕ };

    ghost view = { λ image. joined (map (λ page. rc_slice_items page) image.pages.items) };

    ghost invariant = { λ image. IsImage (map (λ page. rc_slice_items page) image.pages.items) };
}

/// The pages of a memory with this image at the address 0.
#[tactic(auto, using(crate::proofs::Images::few_shared, crate::proofs::Images::image_pages, crate::proofs::Images::image_wide, crate::proofs::Images::kinds_of_image))]
pub(crate) fn memory_pages(alloc: Global, image: &Pages) -> Result<Vec<Page>, AllocError>
    ensures count { IfOk result (λ pages. length pages.items ≡ 256) }
    ensures wide { IfOk result (λ pages. AreWide (map page_bytes pages.items)) }
    ensures bytes { IfOk result (λ pages. pages_bytes pages.items ≡ image_memory image.now) }
    ensures kinds { IfOk result (λ pages. map kind_of pages.items ≡ image_kinds (length image.now / 256)) }
{
    let shared = shared_pages(alloc, &image.pages)?;
    with_absent(shared)
}

/// The pages of an image, each shared.
#[tactic(auto, using(crate::proofs::Images::shared_more))]
fn shared_pages(alloc: Global, pages: &[RcSlice<u8>]) -> Result<Vec<Page>, AllocError>
    ensures count { IfOk result (λ made. length made.items ≡ length pages.now) }
    ensures bytes { IfOk result (λ made. map page_bytes made.items ≡ map (λ page. rc_slice_items page) pages.now) }
    ensures kinds { IfOk result (λ made. map kind_of made.items ≡ replicate (length pages.now) shared) }
{
    let mut made = Vec::with_capacity(alloc, PAGES)?;
    for page in pages {
        made.push(Page::Shared(page.clone()?))?;
    }
    Ok(made)
}

/// The pages with absent ones behind them, 256 in all.
#[tactic(auto, using(crate::proofs::Images::absent_more))]
fn with_absent(pages: Vec<Page>) -> Result<Vec<Page>, AllocError>
    requires { length pages.items ≤ 256 }
    ensures count { IfOk result (λ made. length made.items ≡ 256) }
    ensures bytes { IfOk result (λ made. map page_bytes made.items ≡ map page_bytes pages.items ++ replicate (256 - length pages.items) (replicate 256 0)) }
    ensures kinds { IfOk result (λ made. map kind_of made.items ≡ map kind_of pages.items ++ replicate (256 - length pages.items) absent) }
{
    let mut made = pages;
    while made.len() < PAGES {
        made.push(Page::Absent)?;
    }
    Ok(made)
}
