//! The memory that an ELF file is loaded with.
ghost use Rattle.std.specs.Prelude.{◌≡◌, ◌≤◌, ◌+◌, length, All, IfOk};
ghost use Rattle.elf_image.specs.Image.{LiesInMemory, placed, with_part, zeros};
ghost use Rattle.rv32i_core.specs.Bytes.{image_memory};
ghost use Rattle.target_contexts.specs.Loading.{is_elf};

use elf_image::{Part, Parts};
use rv32i_core::{Pages, pages};
use std::alloc::{AllocError, Global};

/// How many bytes a memory has.
const MEMORY_SIZE: usize = 65_536;

/// Whether the bytes are those of an ELF file.
#[tactic(auto, unfolding(crate::specs::Loading::is_elf))]
pub(crate) fn is_elf(bytes: &[u8]) -> bool
    ensures { result ≡ is_elf bytes.now }
{
    elf_image::is_elf(bytes)
}

/// The pages of a memory with these parts, and with zeros where there is none.
#[tactic(auto, using(crate::proofs::Placing::all_of_memory))]
pub(crate) fn loaded_pages(alloc: Global, parts: &Parts) -> Result<Pages, AllocError>
    requires { All LiesInMemory parts.now }
    ensures { IfOk result (λ pages. image_memory pages ≡ placed parts.now zeros) }
{
    let memory = loaded_memory(alloc, parts.as_slice())?;
    pages(alloc, &memory)
}

fn loaded_memory(alloc: Global, parts: &[Part]) -> Result<Vec<u8>, AllocError>
    requires { All LiesInMemory parts.now }
    ensures bytes { IfOk result (λ memory. memory.items ≡ placed parts.now zeros) }
    ensures size { IfOk result (λ memory. length memory.items ≡ 65536) }
{
    let mut memory = zeros(alloc)?;
    place_all(&mut memory, parts);
    Ok(memory)
}

/// The bytes of a memory without parts.
fn zeros(alloc: Global) -> Result<Vec<u8>, AllocError>
    ensures bytes { IfOk result (λ memory. memory.items ≡ zeros) }
    ensures size { IfOk result (λ memory. length memory.items ≡ 65536) }
{
    vec![in alloc; 0; MEMORY_SIZE]
}

/// Places the parts one after another.
#[tactic(auto, using(crate::proofs::Placing::placed_more, crate::proofs::Placing::part_within))]
fn place_all(memory: &mut [u8], parts: &[Part])
    requires size { length memory.old ≡ 65536 }
    requires inside { All LiesInMemory parts.now }
    ensures bytes { memory.new ≡ placed parts.now memory.old }
    ensures size { length memory.new ≡ 65536 }
{
    for part in parts {
        place(memory, part);
    }
}

/// Puts the bytes of a part at its addresses.
fn place(memory: &mut [u8], part: &Part)
    requires { part.now.addr + length part.now.bytes ≤ length memory.old }
    ensures bytes { memory.new ≡ with_part part.now memory.old }
    ensures size { length memory.new ≡ length memory.old }
{
    let bytes = part.bytes.as_slice();
    let start = part.addr as usize;
    memory[start..start + bytes.len()].copy_from_slice(bytes);
}
