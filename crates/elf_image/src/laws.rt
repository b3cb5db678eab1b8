//! Laws of what files are loaded as: functions that do nothing, whose contracts hold of all files.
ghost use Rattle.elf_image.specs.Laws.{IsLoadedOnce, OverlapIsShared, PartsAreLoaded};

/// A file without a fault is loaded: its memory is its parts, placed over zeros.
pub fn the_parts_are_loaded()
    ensures { PartsAreLoaded }
{}

/// A file is loaded with one entry and one memory at most.
pub fn one_memory_is_loaded()
    ensures { IsLoadedOnce }
{}

/// Two segments are told to overlap exactly where they have an address in common.
pub fn an_overlap_is_a_shared_address()
    ensures { OverlapIsShared }
{}
