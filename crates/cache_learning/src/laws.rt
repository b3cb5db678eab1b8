//! The law of what is kept.
ghost use Rattle.cache_learning.specs.Kept.{KeptIsLearned};

/// The law that each fact that is kept of some messages is one that they teach.
pub fn what_is_kept_was_learned()
    ensures { KeptIsLearned }
{}
