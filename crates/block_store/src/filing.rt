//! How a pool keeps blocks: all of them by use in list 0, and each once more in a list of its process.
ghost use Rattle.std.specs.Prelude.{◌≡◌, ◌<◌, ◌≤◌, ◌+◌, ◌++◌, ◌∷◌, [], length, nat_le, if◌then◌else◌, option_map, IfNone, IfSome, None};
ghost use Rattle.link_pool.specs.Rows.{first_key};
ghost use Rattle.link_pool.specs.Lists.{IsWhole, item_of, rows_of};
ghost use Rattle.block_store.specs.Filed.{IsIn, rows_for};
ghost use Rattle.block_store.specs.Owners.{HasOwners, IsListOf, MakesRoom, count_after, is_owner, left_by, lists_left_by, owner_of, places, turned};
ghost use Rattle.block_store.specs.Store.{IsKept};
ghost use Rattle.block_store.specs.Walks.{fits, key_if, last_key, last_with, newer, passes, rows_beside};

use crate::block::Block;
use link_pool::Pool;

/// How many blocks a store keeps.
const MOST: usize = 64;
/// The list of all blocks, the most recently used last.
pub(crate) const BY_USE: usize = 0;
/// How many lists there are: one by use, and one more for processes than there can be blocks.
pub(crate) const LISTS: usize = MOST + 2;
/// How many blocks there is room for: a new one stands beside the 64 before another goes.
pub(crate) const ROOM: usize = MOST + 1;

/// Which blocks are looked for in a list.
#[derive(Clone, Copy)]
pub(crate) enum Wanted {
    /// Those of the process that have the whole range.
    Range { process: u32, addr: u32, size: u32 },
    /// Those of the process that have a byte of the range.
    Byte { process: u32, addr: u32, size: u32 },
    /// Those of the process that have so many bytes from this address on.
    Like { process: u32, addr: u32, len: usize },
}

/// Where a block stands: in this list besides list 0, and under this key.
#[derive(Clone, Copy)]
pub(crate) struct Place {
    pub(crate) list: usize,
    pub(crate) key: usize,
}

impl Wanted {
    fn fits(&self, block: &Block) -> bool
        ensures { result ≡ fits self.now block.now }
    {
        match *self {
            Wanted::Range {
                process,
                addr,
                size,
            } => block.has_range(process, addr, size),
            Wanted::Byte {
                process,
                addr,
                size,
            } => block.overlaps(process, addr, size),
            Wanted::Like { process, addr, len } => block.is_like(process, addr, len),
        }
    }
}

/// The process whose blocks a list has; `None` exactly where it has none.
fn owner(pool: &Pool<Block>, list: usize) -> Option<u32>
    ensures { result ≡ owner_of (rows_of list pool.now.lists) }
{
    let key = pool.first(list)?;
    Some(pool.item(key)?.process)
}

fn is_of(pool: &Pool<Block>, list: usize, process: u32) -> bool
    ensures { result ≡ is_owner process (owner_of (rows_of list pool.now.lists)) }
{
    match owner(pool, list) {
        Some(owner) => owner == process,
        None => false,
    }
}

/// The list of a process; `None` only where it has no block.
pub(crate) fn list_of(pool: &Pool<Block>, process: u32) -> Option<usize>
    requires { HasOwners pool.now.lists }
    ensures list { IfSome result (λ list. IsListOf process list pool.now.lists) }
    ensures none { IfNone result (rows_for process (rows_of 0 pool.now.lists) ≡ []) }
{
    for list in 1..LISTS {
        if is_of(pool, list, process) {
            return Some(list);
        }
    }
    None
}

/// A list that is of no process. There is one while there are at most 64 blocks.
fn free_list(pool: &Pool<Block>) -> usize
    requires owners { HasOwners pool.now.lists }
    requires few { length (rows_of 0 pool.now.lists) ≤ 64 }
    ensures first { 0 < result }
    ensures last { result < 66 }
    ensures empty { rows_of result pool.now.lists ≡ [] }
{
    for list in 1..LISTS {
        if pool.first(list).is_none() {
            return list;
        }
    }
    unreachable!()
}

/// The list in which a block of the process is put: its own, or else one that is of no process.
pub(crate) fn list_for(pool: &Pool<Block>, process: u32) -> usize
    requires owners { HasOwners pool.now.lists }
    requires few { length (rows_of 0 pool.now.lists) ≤ 64 }
    ensures { IsListOf process result pool.now.lists }
{
    match list_of(pool, process) {
        Some(list) => list,
        None => free_list(pool),
    }
}

fn fits_at(pool: &Pool<Block>, key: usize, wanted: &Wanted) -> bool
    ensures value { result ≡ passes (fits wanted.now) (item_of key pool.now.lists) }
    ensures whole { IsWhole pool.now.lists }
{
    match pool.item(key) {
        Some(block) => wanted.fits(block),
        None => false,
    }
}

fn newer(fits: bool, key: usize, found: Option<usize>) -> Option<usize>
    ensures { result ≡ newer fits key found }
{
    if fits { Some(key) } else { found }
}

/// The key of the last block of a list that is wanted; `None` exactly where none is.
fn last_wanted(pool: &Pool<Block>, list: usize, wanted: &Wanted) -> Option<usize>
    ensures { result ≡ last_key (fits wanted.now) (rows_of list pool.now.lists) }
{
    let mut found = None;
    let mut at = pool.first(list);
    while let Some(key) = at {
        found = newer(fits_at(pool, key, wanted), key, found);
        at = pool.after(list, key);
    }
    found
}

/// Where the last block stands that has the whole range; `None` exactly where none has it.
pub(crate) fn place_of(pool: &Pool<Block>, process: u32, addr: u32, size: u32) -> Option<Place>
    requires { HasOwners pool.now.lists }
    ensures key { option_map (λ place. place.key) result ≡ last_with process addr size pool.now.lists }
    ensures list { IfSome result (λ place. IsListOf process place.list pool.now.lists) }
{
    let wanted = Wanted::Range {
        process,
        addr,
        size,
    };
    let list = list_of(pool, process)?;
    let key = last_wanted(pool, list, &wanted)?;
    Some(Place { list, key })
}

fn oldest_of_many(pool: &Pool<Block>, count: usize) -> Option<usize>
    ensures { result ≡ (if nat_le 64 count then first_key (rows_of 0 pool.now.lists) else None) }
{
    if count < MOST {
        return None;
    }
    pool.first(BY_USE)
}

/// The key of the block that a new one takes the place of: one of the same process, address and length, or else the
/// least recently used one where there are 64. Its list is given, and how many blocks there are.
pub(crate) fn displaced(
    pool: &Pool<Block>,
    list: usize,
    block: &Block,
    count: usize,
) -> Option<usize>
    requires owners { HasOwners pool.now.lists }
    requires list { IsListOf block.now.process list pool.now.lists }
    requires kept { IsKept (turned (rows_of 0 pool.now.lists)) }
    requires count { count ≡ length (rows_of 0 pool.now.lists) }
    ensures room { MakesRoom block.now result (rows_of 0 pool.now.lists) }
    ensures there { IfSome result (λ key. IsIn key 0 pool.now.lists) }
{
    let like = Wanted::Like {
        process: block.process,
        addr: block.addr,
        len: block.bytes.len(),
    };
    match last_wanted(pool, list, &like) {
        Some(key) => Some(key),
        None => oldest_of_many(pool, count),
    }
}

/// How many blocks there are once a new one has come and this one is gone.
pub(crate) fn count_after(count: usize, gone: Option<usize>) -> usize
    requires { count ≤ 64 }
    ensures { result ≡ count_after count gone }
{
    match gone {
        Some(_) => count,
        None => count + 1,
    }
}

fn take_out(pool: &mut Pool<Block>, gone: Option<usize>)
    ensures left { pool.new.lists ≡ lists_left_by gone pool.old.lists }
    ensures room { IfSome gone (λ key. IsIn key 0 pool.old.lists → pool.new.room ≡ pool.old.room + 1) }
    ensures same { IfNone gone (pool.new.room ≡ pool.old.room) }
{
    if let Some(key) = gone {
        pool.unlink(key);
    }
}

/// Puts a block last in its lists, and then takes another one out. It answers the key of the new block, which is none
/// that a block had before: the other one goes once the new one stands.
pub(crate) fn replace(
    pool: &mut Pool<Block>,
    list: usize,
    block: Block,
    gone: Option<usize>,
) -> usize
    requires owners { HasOwners pool.old.lists }
    requires list { IsListOf block.process list pool.old.lists }
    requires room { 0 < pool.old.room }
    requires there { IfSome gone (λ key. IsIn key 0 pool.old.lists) }
    ensures owners { HasOwners pool.new.lists }
    ensures rows { rows_of 0 pool.new.lists ≡ left_by gone (rows_of 0 pool.old.lists) ++ (result, block) ∷ [] }
    ensures fresh { item_of result pool.old.lists ≡ None }
    ensures places { places pool.old ≤ places pool.new }
{
    let key = pool.push(BY_USE, Some(list), block).unwrap();
    take_out(pool, gone);
    key
}

/// Takes a block out where it is wanted, and answers whether it was.
fn take_out_wanted(pool: &mut Pool<Block>, key: usize, wanted: &Wanted) -> bool
    ensures gone { result ≡ passes (fits wanted.now) (item_of key pool.old.lists) }
    ensures left { pool.new.lists ≡ lists_left_by (key_if result key) pool.old.lists }
    ensures room { pool.new.room ≡ pool.old.room + (if result then 1 else 0) }
    ensures whole { IsWhole pool.old.lists }
{
    if fits_at(pool, key, wanted) {
        pool.unlink(key);
        return true;
    }
    false
}

/// Takes every block of a list out that has a byte of the range, and answers how many.
pub(crate) fn take_out_range(
    pool: &mut Pool<Block>,
    list: usize,
    process: u32,
    addr: u32,
    size: u32,
) -> usize
    requires owners { HasOwners pool.old.lists }
    requires list { IsListOf process list pool.old.lists }
    ensures owners { HasOwners pool.new.lists }
    ensures rows { rows_of 0 pool.new.lists ≡ rows_beside process addr size (rows_of 0 pool.old.lists) }
    ensures room { pool.new.room ≡ pool.old.room + result }
    ensures count { result + length (rows_of 0 pool.new.lists) ≡ length (rows_of 0 pool.old.lists) }
{
    let wanted = Wanted::Byte {
        process,
        addr,
        size,
    };
    let before = pool.room();
    let mut at = pool.first(list);
    while let Some(key) = at {
        at = pool.after(list, key);
        take_out_wanted(pool, key, &wanted);
    }
    // Each block that goes leaves room for one more.
    pool.room() - before
}
