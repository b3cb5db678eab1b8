//! Numbers in a file, the lowest byte first ("ELF Header": ELFDATA2LSB).
ghost use Rattle.std.specs.Prelude.{◌≡◌, ◌<◌, ◌+◌, length};
ghost use Rattle.elf_image.specs.Numbers.{half_at, word_at};

/// The number in two bytes of a file.
#[tactic(auto, unfolding(crate::specs::Numbers::half_at))]
pub(crate) fn half_at(file: &[u8], place: usize) -> u16
    requires { place + 1 < length file.now }
    ensures { result ≡ half_at file.now place }
{
    u16::from_le_bytes([file[place], file[place + 1]])
}

/// The number in four bytes of a file.
#[tactic(auto, unfolding(crate::specs::Numbers::half_at, crate::specs::Numbers::word_at))]
pub(crate) fn word_at(file: &[u8], place: usize) -> u32
    requires { place + 3 < length file.now }
    ensures { result ≡ word_at file.now place }
{
    u32::from_le_bytes([
        file[place],
        file[place + 1],
        file[place + 2],
        file[place + 3],
    ])
}
