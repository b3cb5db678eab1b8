//! The store of blocks, the most recently used first.
ghost use Rattle.std.specs.Prelude.{◌≡◌, ◌<◌, ◌≤◌, [], length, reverse, option_map, is_some, IfOk, IsOk};
ghost use Rattle.link_pool.specs.Lists.{rows_of};
ghost use Rattle.block_store.specs.Filed.{IsFiled, blocks_of};
ghost use Rattle.block_store.specs.Store.{IsKept, added, covered, touched, without_process, without_range};

use crate::block::Block;
use crate::filing::{
    BY_USE, LISTS, ROOM, count_after, displaced, list_for, list_of, place_of, replace,
    take_out_range,
};
use link_pool::Pool;
use std::alloc::{AllocError, Global};
use std::marker::Model;
use tcf_values::Bytes;

/// At most 64 blocks, each with at least one byte. Contracts see the list of blocks, the most recently used first. What
/// is asked of a process is looked for among its blocks alone.
#[derive(Drop)]
pub struct BlockStore {
    pool: Pool<Block>,
    count: usize,
}

impl Model for BlockStore {
    ghost use Rattle.std.specs.Prelude.{List};
    ghost use Rattle.link_pool.specs.Lists.{rows_of};
    ghost use Rattle.block_store.specs.declared.block.Block.{Block};
    ghost use Rattle.block_store.specs.Owners.{IsStored, turned};

    ghost Value = { List Block };

    ghost view = { λ s. turned (rows_of 0 s.pool.lists) };

    ghost invariant = { λ s. IsStored s.pool.lists s.pool.room s.count };
}

impl BlockStore {
    /// Makes an empty store, with room for all the blocks that it can keep.
    pub fn new(alloc: Global) -> Result<BlockStore, AllocError>
        ensures { IfOk result (λ store. store ≡ []) }
    {
        let mut pool = Pool::new(alloc, LISTS)?;
        pool.reserve(ROOM)?;
        Ok(BlockStore { pool, count: 0 })
    }

    /// Puts a block first, in place of one of the same process, address and length, and drops the last past 64. It
    /// takes no memory, so it never answers want of it.
    pub fn add(&mut self, process: u32, addr: u32, bytes: Bytes) -> Result<(), AllocError>
        requires { 0 < length bytes }
        ensures done { IsOk result }
        ensures added { self.new ≡ added (record { process = process; addr = addr; bytes = bytes }) self.old }
    {
        let block = Block {
            process,
            addr,
            bytes,
        };
        let list = list_for(&self.pool, process);
        let gone = displaced(&self.pool, list, &block, self.count);
        let _key = replace(&mut self.pool, list, block, gone);
        self.count = count_after(self.count, gone);
        Ok(())
    }

    /// The bytes of a range, from the first block that has the whole range; `None` exactly where no single block has
    /// it.
    pub fn cover(&self, process: u32, addr: u32, size: u32) -> Option<&[u8]>
        requires { 1 ≤ size }
        ensures value { option_map (λ bytes. bytes.now) result ≡ covered process addr size self.now }
        ensures kept { IsKept self.now }
    {
        let place = place_of(&self.pool, process, addr, size)?;
        let block = self.pool.item(place.key)?;
        Some(block.part(addr, size))
    }

    /// Moves the first block that has the whole range to the front; false exactly where no single block has it, and
    /// then nothing changes.
    pub fn touch(&mut self, process: u32, addr: u32, size: u32) -> bool
        requires { 1 ≤ size }
        ensures there { result ≡ is_some (covered process addr size self.old) }
        ensures moved { self.new ≡ touched process addr size self.old }
    {
        match place_of(&self.pool, process, addr, size) {
            Some(place) => {
                self.pool.move_last(BY_USE, place.key);
                self.pool.move_last(place.list, place.key);
                true
            }
            None => false,
        }
    }

    /// Drops every block of the process.
    pub fn drop_process(&mut self, process: u32)
        ensures { self.new ≡ without_process process self.old }
    {
        if let Some(list) = list_of(&self.pool, process) {
            self.count -= self.pool.unlink_list(list);
        }
    }

    /// Drops every block of the process that has a byte of the range.
    pub fn drop_range(&mut self, process: u32, addr: u32, size: u32)
        requires { 1 ≤ size }
        ensures { self.new ≡ without_range process addr size self.old }
    {
        if let Some(list) = list_of(&self.pool, process) {
            self.count -= take_out_range(&mut self.pool, list, process, addr, size);
        }
    }

    /// Drops every block.
    pub fn clear(&mut self)
        ensures { self.new ≡ [] }
    {
        self.pool.unlink_list(BY_USE);
        self.count = 0;
    }

    /// The pool that keeps the blocks: all of them in list 0, the least recently used first, and each once more in the
    /// list of its process.
    pub fn pool(&self) -> &Pool<Block>
        ensures by_use { blocks_of (rows_of 0 result.now.lists) ≡ reverse self.now }
        ensures filed { IsFiled result.now.lists }
    {
        &self.pool
    }
}
