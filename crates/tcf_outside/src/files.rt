//! Files that are read whole: the trait, and files in memory.
ghost use Rattle.std.specs.Prelude.{◌≡◌, ◌++◌, ◌∷◌, [], Some, IfOk, OnOk, OnErr};
ghost use Rattle.tcf_outside.specs.Files.{content_of, read_of};

use crate::sequence::{Duplicate, Octets, Sequence};
use std::alloc::{AllocError, AllocFailed, Global};
use std::marker::Model;

/// What a read gives: all bytes of the file, or that it has more of them than the limit.
#[derive(Debug, Drop)]
pub enum FileRead {
    Whole(Octets),
    Longer,
}

/// Why a read gives nothing: a fault of the outside, or want of memory.
#[derive(Clone, Copy, Debug, PartialEq, Eq)]
pub enum ReadRefusal {
    Failed,
    NoMemory,
}

impl From<AllocError> for ReadRefusal {
    ghost use Rattle.tcf_outside.specs.declared.files.ReadRefusal.TheVariants.{NoMemory};

    ghost from_gives = { λ _ refusal. refusal ≡ NoMemory };

    fn from(_error: AllocError) -> Self {
        ReadRefusal::NoMemory
    }
}

impl<T: Drop> From<AllocFailed<T>> for ReadRefusal {
    ghost use Rattle.tcf_outside.specs.declared.files.ReadRefusal.TheVariants.{NoMemory};

    ghost from_gives = { λ _ refusal. refusal ≡ NoMemory };

    fn from(_failed: AllocFailed<T>) -> Self {
        ReadRefusal::NoMemory
    }
}

/// A file in memory: its name and its bytes.
#[derive(Debug, Drop)]
pub struct HeldFile {
    pub name: Octets,
    pub bytes: Octets,
}

/// Files under names, each read whole.
pub trait Files {
    ghost use Rattle.tcf_outside.specs.Files.{FilesSeen, IsReadOf, IsWithin, names_after, faults_after};

    /// The files that there are and the names of the reads so far, where they are told, and how many reads failed.
    ghost seen: { Self → FilesSeen };

    /// Reads the file of this name whole, if it has at most `limit` bytes. A name that isn't there is an empty
    /// file. A read that wants memory is as if it had not been asked for.
    fn read(&mut self, name: &str, limit: usize) -> Result<FileRead, ReadRefusal>
        ensures content { IfOk result (IsReadOf name.now limit (seen self.old).held) }
        ensures within { IfOk result (IsWithin limit) }
        ensures kept { (seen self.new).held ≡ (seen self.old).held }
        ensures noted { (seen self.new).names ≡ names_after result name.now (seen self.old).names }
        ensures cause { (seen self.new).faults ≡ faults_after result (seen self.old).faults };
}

/// Files in memory, which tell what they hold and which names were read. They can be made to fail at some reads.
#[derive(Debug, Drop)]
pub struct MemoryFiles {
    alloc: Global,
    files: Vec<HeldFile>,
    names: Vec<Octets>,
    failing: Vec<usize>,
    faults: u64,
}

impl Model for MemoryFiles {
    ghost use Rattle.tcf_outside.specs.Memory.{MemoryFilesValue};

    ghost Value = { MemoryFilesValue };

    ghost view = { λ m. record { files = m.files.items; names = m.names.items; failing = m.failing.items; faults = m.faults } };
}

impl MemoryFiles {
    /// No files, and no read that fails.
    pub fn new(alloc: Global) -> Self
        ensures { result ≡ record { files = []; names = []; failing = []; faults = 0 } }
    {
        MemoryFiles {
            alloc,
            files: Vec::new(alloc),
            names: Vec::new(alloc),
            failing: Vec::new(alloc),
            faults: 0,
        }
    }

    /// Adds a file. A name that is there already keeps its first file.
    pub fn hold(&mut self, name: &str, bytes: &[u8]) -> Result<(), AllocError>
        ensures ok { OnOk result (self.new ≡ record self.old { files = self.old.files ++ record { name = name.now; bytes = bytes.now } ∷ [] }) }
        ensures err { OnErr result (self.new ≡ self.old) }
    {
        let name = Octets::from_slice(self.alloc, name.as_bytes())?;
        let bytes = Octets::from_slice(self.alloc, bytes)?;
        self.files.push(HeldFile { name, bytes })?;
        Ok(())
    }

    /// Makes a read fail, counted from 0 over the reads that didn't want memory.
    pub fn fail_at(&mut self, read: usize) -> Result<(), AllocError>
        ensures ok { OnOk result (self.new ≡ record self.old { failing = self.old.failing ++ read ∷ [] }) }
        ensures err { OnErr result (self.new ≡ self.old) }
    {
        self.failing.push(read)?;
        Ok(())
    }

    /// The names of the reads so far, in order.
    pub fn names(&self) -> &[Octets]
        ensures { result.now ≡ self.now.names }
    {
        self.names.as_slice()
    }
}

/// The bytes of the file of this name, of which there are none where it isn't there.
fn content<'a>(files: &'a [HeldFile], name: &[u8]) -> &'a [u8]
    ensures { result.now ≡ content_of name.now files.now }
{
    for file in files {
        if file.name.as_slice() == name {
            return file.bytes.as_slice();
        }
    }
    &[]
}

/// A copy of the bytes, if there are at most `limit`.
fn read_within(alloc: Global, bytes: &[u8], limit: usize) -> Result<FileRead, AllocError>
    ensures { IfOk result (λ answer. answer ≡ read_of bytes.now limit) }
{
    if limit < bytes.len() {
        return Ok(FileRead::Longer);
    }
    Ok(FileRead::Whole(Octets::from_slice(alloc, bytes)?))
}

impl Files for MemoryFiles {
    ghost seen = { λ m. record { held = Some m.files; names = Some m.names; faults = m.faults } };

    fn read(&mut self, name: &str, limit: usize) -> Result<FileRead, ReadRefusal> {
        let noted = Octets::from_slice(self.alloc, name.as_bytes())?;
        let answer = read_within(self.alloc, content(&self.files, name.as_bytes()), limit)?;
        let fails = self.failing.contains(&self.names.len());
        self.names.push(noted)?;
        if fails {
            self.faults = self.faults.saturating_add(1);
            return Err(ReadRefusal::Failed);
        }
        Ok(answer)
    }
}
