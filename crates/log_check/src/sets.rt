//! Sets of numbers.
ghost use Rattle.std.specs.Prelude.{◌≡◌, ◌↔◌, ◌||◌, ◌&&◌, ◌==◌, ℕ, OnOk, false, not, true};
ghost use Rattle.std.specs.BTreeSet.{contains};
ghost use Rattle.std.specs.Ordering.{nat_cmp};

use std::alloc::AllocError;
use std::collections::BTreeSet;

/// Adds a number to a set.
#[tactic(auto, using(crate::proofs::Seeing::seen_more))]
pub(crate) fn see(set: &mut BTreeSet<u64>, number: u64) -> Result<(), AllocError>
    ensures { OnOk result ((q : ℕ) → contains nat_cmp set.new q ≡ (contains nat_cmp set.old q || (number == q))) }
{
    set.insert(number)?;
    Ok(())
}

/// Takes a number out of a set, and tells whether it was there.
#[tactic(auto, using(crate::proofs::Seeing::seen_less))]
pub(crate) fn forget(set: &mut BTreeSet<u64>, number: u64) -> bool
    ensures was { result ≡ contains nat_cmp set.old number }
    ensures left { (q : ℕ) → contains nat_cmp set.new q ≡ (contains nat_cmp set.old q && not (number == q)) }
{
    set.remove(&number)
}

/// Whether the set has this number.
pub(crate) fn has(set: &BTreeSet<u64>, number: u64) -> bool
    ensures { result ≡ contains nat_cmp set.now number }
{
    set.contains(&number)
}

/// Whether the set has no number.
#[tactic(auto, using(crate::proofs::Seeing::none_seen, crate::proofs::Seeing::no_number))]
pub(crate) fn has_none(set: &BTreeSet<u64>) -> bool
    ensures { (result ≡ true) ↔ ((q : ℕ) → contains nat_cmp set.now q ≡ false) }
{
    set.is_empty()
}
