//! Why a file can't be loaded.
ghost use Rattle.std.specs.Prelude.{◌≡◌};

use std::alloc::AllocError;

/// Why an ELF file is refused. Places count the bytes of the file from 0, and indices its program headers from 0.
#[derive(Clone, Copy, Debug, PartialEq, Eq)]
pub enum ElfFault {
    /// The file has fewer than the 52 bytes of a file header, or a program header doesn't lie in it.
    Short,
    /// The field of the file header at this place has a value that isn't taken: the file is no ELF32 executable for
    /// RISC-V with the lowest byte first, or it has more than 64 program headers.
    Header { place: usize },
    /// The segment has more bytes in the file than in memory, bytes outside the file, or an address past 65,535.
    Segment { index: usize },
    /// The segment shares an address with an earlier one.
    Overlap { index: usize },
    /// The entry is no multiple of 4 below 65,536.
    Entry,
    /// The file is not at fault.
    NoMemory,
}

impl From<AllocError> for ElfFault {
    ghost use Rattle.elf_image.specs.declared.fault.ElfFault.TheVariants.{NoMemory};

    ghost from_gives = { λ _ fault. fault ≡ NoMemory };

    fn from(_error: AllocError) -> Self {
        ElfFault::NoMemory
    }
}
