//! A block of a process's memory, and how it lies to a range of addresses.
ghost use Rattle.std.specs.Prelude.{◌≡◌, ◌≤◌, ◌+◌};
ghost use Rattle.block_store.specs.Blocks.{end_of, has_range, overlaps, part};
ghost use Rattle.block_store.specs.Likeness.{is_like};

use tcf_values::Bytes;

/// Bytes of a process's memory that stand one after another.
#[derive(Debug, Drop)]
pub struct Block {
    /// The number of the process.
    pub process: u32,
    /// The address of the first byte. The block can end past the last address.
    pub addr: u32,
    pub bytes: Bytes,
}

impl Block {
    /// Whether the block is of this process and has the whole range.
    pub(crate) fn has_range(&self, process: u32, addr: u32, size: u32) -> bool
        ensures { result ≡ has_range process addr size self.now }
    {
        self.process == process
            && self.addr <= addr
            && (addr - self.addr) as usize + size as usize <= self.bytes.len()
    }

    /// Whether the block is of this process and has a byte of the range.
    pub(crate) fn overlaps(&self, process: u32, addr: u32, size: u32) -> bool
        ensures { result ≡ overlaps process addr size self.now }
    {
        self.process == process
            && u64::from(self.addr) < u64::from(addr) + u64::from(size)
            && (addr < self.addr || ((addr - self.addr) as usize) < self.bytes.len())
    }

    /// Whether the block is of this process, and has so many bytes from this address on.
    pub(crate) fn is_like(&self, process: u32, addr: u32, len: usize) -> bool
        ensures { result ≡ is_like process addr len self.now }
    {
        process == self.process && addr == self.addr && len == self.bytes.len()
    }

    /// The bytes of a range that the block has.
    pub(crate) fn part(&self, addr: u32, size: u32) -> &[u8]
        requires starts { self.now.addr ≤ addr }
        requires ends { addr + size ≤ end_of self.now }
        ensures { result.now ≡ part addr size self.now }
    {
        let start = (addr - self.addr) as usize;
        &self.bytes.as_slice()[start..start + size as usize]
    }
}
