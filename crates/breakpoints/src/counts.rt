//! How often a breakpoint was hit, by process.
ghost use Rattle.std.specs.Prelude.{◌≡◌, ◌==◌, ◌<◌, ◌++◌, ◌∷◌, [], find, length, option_copied, position, IfOk, IfSome, OnOk};
ghost use Rattle.breakpoints.specs.Counts.{count_of, raised, without};

use std::alloc::{AllocError, Global};
use std::marker::Model;

/// How often a breakpoint was hit in each process. Contracts see the counts that were raised, each beside its process, in
/// the order of the first hits.
#[derive(Debug, Drop)]
pub struct Counts {
    inner: Vec<(u32, u32)>,
}

impl Model for Counts {
    ghost use Rattle.std.specs.Prelude.{ℕ, List};

    ghost Value = { List (ℕ × ℕ) };

    ghost view = { λ c. c.inner.items };
}

impl Counts {
    /// Makes counts that are all 0, which takes no memory yet.
    pub fn new(alloc: Global) -> Counts
        ensures { result ≡ [] }
    {
        Counts {
            inner: Vec::new(alloc),
        }
    }

    /// The count of a process.
    pub fn of_process(&self, process: u32) -> u32
        ensures { result ≡ count_of process self.now }
    {
        match entry_of(&self.inner, process) {
            Some(entry) => entry.1,
            None => 0,
        }
    }

    /// The same counts with that of a process raised by one. At 4,294,967,295 it stays.
    pub(crate) fn raised(&self, process: u32) -> Result<Counts, AllocError>
        ensures { IfOk result (λ counts. counts ≡ raised process self.now) }
    {
        let mut inner = Vec::from_slice(*self.inner.allocator(), &self.inner)?;
        raise(&mut inner, process)?;
        Ok(Counts { inner })
    }

    /// Drops the count of a process.
    pub(crate) fn forget(&mut self, process: u32)
        ensures { self.new ≡ without process self.old }
    {
        self.inner.retain(|entry| entry.0 != process);
    }

    /// Drops all counts.
    pub(crate) fn clear(&mut self)
        ensures { self.new ≡ [] }
    {
        self.inner.clear();
    }
}

/// Raises the count of a process, as far as 32 bits go.
#[tactic(auto, using(crate::proofs::Raising::raised_there, crate::proofs::Raising::raised_new))]
fn raise(counts: &mut Vec<(u32, u32)>, process: u32) -> Result<(), AllocError>
    ensures { OnOk result (counts.new.items ≡ raised process counts.old.items) }
{
    match place_of(counts, process) {
        Some(place) => {
            let (process, count) = counts[place];
            counts[place] = (process, count.saturating_add(1));
            Ok(())
        }
        None => {
            push_first(counts, process)?;
            Ok(())
        }
    }
}

/// Puts the count of a process last that is hit for the first time.
fn push_first(counts: &mut Vec<(u32, u32)>, process: u32) -> Result<(), AllocError>
    ensures { OnOk result (counts.new.items ≡ counts.old.items ++ (process, 1) ∷ []) }
{
    counts.push((process, 1))?;
    Ok(())
}

/// The count of a process, beside its number.
fn entry_of(counts: &[(u32, u32)], process: u32) -> Option<&(u32, u32)>
    ensures { option_copied result ≡ find (λ entry. entry.0 == process) counts.now }
{
    counts.iter().find(|entry| entry.0 == process)
}

/// Where the count of a process stands.
#[tactic(auto, using(crate::proofs::Raising::place_within))]
fn place_of(counts: &[(u32, u32)], process: u32) -> Option<usize>
    ensures place { result ≡ position (λ entry. entry.0 == process) counts.now }
    ensures inside { IfSome result (λ place. place < length counts.now) }
{
    counts.iter().position(|entry| entry.0 == process)
}
