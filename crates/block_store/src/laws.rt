//! The laws of the store.
ghost use Rattle.block_store.specs.Laws.{AddedIsCovered, DroppedIsGone, DroppedIsUnread, StaysSmall};

/// The law that a store never has more than 64 blocks, nor two of the same process, address and length, whatever is
/// done to it.
pub fn the_store_stays_small()
    ensures { StaysSmall }
{}

/// The law that a block which was just added covers its range with its own bytes.
pub fn the_added_is_covered()
    ensures { AddedIsCovered }
{}

/// The law that no block has a byte of a range that was just dropped.
pub fn a_dropped_range_is_gone()
    ensures { DroppedIsGone }
{}

/// The law that no range is read that has a byte of a range that was just dropped.
pub fn no_dropped_byte_is_read()
    ensures { DroppedIsUnread }
{}
