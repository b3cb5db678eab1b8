//! An image is cut into pages.
ghost use Rattle.std.specs.Prelude.{◌≡◌, ◌≤◌, ◌-◌, ◌++◌, length, replicate, IfOk};
ghost use Rattle.rv32i_core.specs.Bytes.{image_memory};
ghost use Rattle.rv32i_core.specs.Pages.{filled_up};

use crate::image::{PAGES, Pages};
use crate::page::PAGE;
use std::alloc::{AllocError, Global};
use std::rc::RcSlice;

/// Cuts an image of at most 65,536 bytes into pages of 256 bytes, the last one filled up with zeros. The only refusal is
/// want of memory.
#[tactic(auto, using(crate::proofs::Images::part_more, crate::proofs::Images::wide_push, crate::proofs::Images::cut_whole, crate::proofs::Images::cut_last, crate::proofs::Images::few_whole, crate::proofs::Images::few_last, crate::proofs::Images::filled_memory))]
pub fn pages(alloc: Global, bytes: &[u8]) -> Result<Pages, AllocError>
    requires { length bytes.now ≤ 65536 }
    ensures bytes { IfOk result (λ image. image ≡ filled_up bytes.now) }
    ensures memory { IfOk result (λ image. image_memory image ≡ image_memory bytes.now) }
{
    let mut pages = Vec::with_capacity(alloc, PAGES)?;
    let mut rest = bytes;
    while let Some((page, later)) = rest.split_at_checked(PAGE) {
        pages.push(RcSlice::from_slice(alloc, page)?)?;
        rest = later;
    }
    if rest.is_empty() {
        return Ok(Pages { pages });
    }
    pages.push(RcSlice::from_vec(padded(alloc, rest, PAGE)?)?)?;
    Ok(Pages { pages })
}

/// The bytes with zeros behind them, so many in all.
fn padded(alloc: Global, front: &[u8], size: usize) -> Result<Vec<u8>, AllocError>
    requires { length front.now ≤ size }
    ensures bytes { IfOk result (λ made. made.items ≡ front.now ++ replicate (size - length front.now) 0) }
    ensures size { IfOk result (λ made. length made.items ≡ size) }
{
    let mut bytes = Vec::with_capacity(alloc, size)?;
    bytes.extend_from_slice(front)?;
    bytes.resize(size, 0)?;
    Ok(bytes)
}
