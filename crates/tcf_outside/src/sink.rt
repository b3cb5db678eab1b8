//! A sink that text is put into: the trait, a sink in memory, and the loop that puts a text whole.
ghost use Rattle.std.specs.Prelude.{◌≡◌, ◌≤◌, ◌++◌, ◌∷◌, [], Some, length, IfOk, OnOk, OnErr};
ghost use Rattle.tcf_outside.specs.Sink.{Took, TookFront, faults_at_end};

use crate::sequence::Octets;
use std::alloc::{AllocError, Global};
use std::marker::Model;

/// Why a put takes nothing: a fault of the outside, or want of memory.
#[derive(Clone, Copy, Debug, PartialEq, Eq)]
pub enum SinkRefusal {
    Failed,
    NoMemory,
}

impl From<AllocError> for SinkRefusal {
    ghost use Rattle.tcf_outside.specs.declared.sink.SinkRefusal.TheVariants.{NoMemory};

    ghost from_gives = { λ _ refusal. refusal ≡ NoMemory };

    fn from(_error: AllocError) -> Self {
        SinkRefusal::NoMemory
    }
}

/// Something that takes bytes in order, as a file that is written.
pub trait Sink {
    ghost use Rattle.tcf_outside.specs.Sink.{SinkSeen, taken, faults_after};

    /// All bytes that were taken, where they are told, and how many puts were faults.
    ghost seen: { Self → SinkSeen };

    /// Takes some of the piece's first bytes, and answers how many. To take none of a piece that has bytes is a
    /// fault, as a failed put is. A put that wants memory takes none.
    fn put(&mut self, piece: &[u8]) -> Result<usize, SinkRefusal>
        ensures count { IfOk result (λ count. count ≤ length piece.now) }
        ensures took { Took (taken result piece.now) (seen self.old) (seen self.new) }
        ensures cause { (seen self.new).faults ≡ faults_after result piece.now (seen self.old).faults };
}

/// A sink in memory, which tells all bytes that it took. It can be made to take few bytes at a time, and to fail
/// at some puts.
#[derive(Debug, Drop)]
pub struct MemorySink {
    told: Octets,
    failing: Vec<usize>,
    puts: usize,
    most: usize,
    faults: u64,
}

impl Model for MemorySink {
    ghost use Rattle.tcf_outside.specs.Memory.{MemorySinkValue};

    ghost Value = { MemorySinkValue };

    ghost view = { λ m. record { told = m.told; failing = m.failing.items; puts = m.puts; most = m.most; faults = m.faults } };
}

impl MemorySink {
    /// A sink that takes all that it is offered.
    pub fn new(alloc: Global) -> Self
        ensures { result ≡ record { told = []; failing = []; puts = 0; most = usize.MAX; faults = 0 } }
    {
        MemorySink {
            told: Octets::new(alloc),
            failing: Vec::new(alloc),
            puts: 0,
            most: usize::MAX,
            faults: 0,
        }
    }

    /// Makes each put take at most so many bytes.
    pub fn take_at_most(&mut self, most: usize)
        ensures { self.new ≡ record self.old { most = most } }
    {
        self.most = most;
    }

    /// Makes a put fail, counted from 0.
    pub fn fail_at(&mut self, put: usize) -> Result<(), AllocError>
        ensures ok { OnOk result (self.new ≡ record self.old { failing = self.old.failing ++ put ∷ [] }) }
        ensures err { OnErr result (self.new ≡ self.old) }
    {
        self.failing.push(put)?;
        Ok(())
    }

    /// All bytes that were taken.
    pub fn told(&self) -> &[u8]
        ensures { result.now ≡ self.now.told }
    {
        self.told.as_slice()
    }
}

impl Sink for MemorySink {
    ghost seen = { λ m. record { told = Some m.told; faults = m.faults } };

    fn put(&mut self, piece: &[u8]) -> Result<usize, SinkRefusal> {
        let number = self.puts;
        self.puts = self.puts.saturating_add(1);
        if self.failing.contains(&number) {
            self.faults = self.faults.saturating_add(1);
            return Err(SinkRefusal::Failed);
        }
        let count = piece.len().min(self.most);
        self.told.extend(&piece[..count])?;
        if count == 0 && !piece.is_empty() {
            self.faults = self.faults.saturating_add(1);
        }
        Ok(count)
    }
}

/// Puts all the bytes, a piece at a time as the sink takes them. The first put that is a fault ends it, as a
/// failure.
#[tactic(auto, using(crate::proofs::Told::added_more))]
pub fn put_all<S: Sink>(sink: &mut S, bytes: &[u8]) -> Result<(), SinkRefusal>
    ensures put { OnOk result (Took bytes.now (S.seen sink.old) (S.seen sink.new)) }
    ensures part { OnErr result (TookFront bytes.now (S.seen sink.old) (S.seen sink.new)) }
    ensures cause { (S.seen sink.new).faults ≡ faults_at_end result (S.seen sink.old).faults }
{
    let mut done = 0usize;
    while done < bytes.len() {
        let count = sink.put(&bytes[done..])?;
        if count == 0 {
            return Err(SinkRefusal::Failed);
        }
        done += count;
    }
    Ok(())
}
