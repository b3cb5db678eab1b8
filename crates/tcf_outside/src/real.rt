//! The real objects: files of the system and its standard output. They tell nothing of what they hold or took.
ghost use Rattle.std.specs.Prelude.{◌≡◌, None};

use crate::files::{FileRead, Files, ReadRefusal};
use crate::sequence::Octets;
use crate::sink::{Sink, SinkRefusal};
use std::alloc::Global;
use std::io::{ErrorKind, Read, Write};
use std::{fs, io, rt};

/// The files that the runtime reaches.
#[derive(Drop)]
pub struct RealFiles<R: rt::Files + Drop> {
    runtime: R,
    alloc: Global,
    faults: u64,
}

impl<R: rt::Files + Drop> RealFiles<R> {
    pub fn new(runtime: R, alloc: Global) -> Self
        ensures { result.faults ≡ 0 }
    {
        RealFiles {
            runtime,
            alloc,
            faults: 0,
        }
    }

    /// The first bytes of the file, at most one more than `limit`, so that a longer file shows itself.
    fn front(&self, name: &str, limit: usize) -> io::Result<Vec<u8>> {
        let file = fs::open(&self.runtime, name)?;
        let mut bytes = Vec::new(self.alloc);
        let most = u64::try_from(limit).unwrap_or(u64::MAX).saturating_add(1);
        file.take(most).read_to_end(&mut bytes)?;
        Ok(bytes)
    }
}

impl<R: rt::Files + Drop> Files for RealFiles<R> {
    ghost seen = { λ files. record { held = None; names = None; faults = files.faults } };

    fn read(&mut self, name: &str, limit: usize) -> Result<FileRead, ReadRefusal> {
        match self.front(name, limit) {
            Ok(bytes) if bytes.len() <= limit => Ok(FileRead::Whole(Octets::from_vec(bytes))),
            Ok(_) => Ok(FileRead::Longer),
            Err(error) if error.kind() == ErrorKind::OutOfMemory => Err(ReadRefusal::NoMemory),
            Err(_) => {
                self.faults = self.faults.saturating_add(1);
                Err(ReadRefusal::Failed)
            }
        }
    }
}

/// A writer, as standard output.
#[derive(Drop)]
pub struct RealSink<W: Write + Drop> {
    writer: W,
    faults: u64,
}

impl<W: Write + Drop> RealSink<W> {
    pub fn new(writer: W) -> Self
        ensures { result.faults ≡ 0 }
    {
        RealSink { writer, faults: 0 }
    }
}

impl<W: Write + Drop> Sink for RealSink<W> {
    ghost seen = { λ sink. record { told = None; faults = sink.faults } };

    fn put(&mut self, piece: &[u8]) -> Result<usize, SinkRefusal> {
        match self.writer.write(piece) {
            Ok(count) if count > 0 || piece.is_empty() => Ok(count),
            Err(error) if error.kind() == ErrorKind::OutOfMemory => Err(SinkRefusal::NoMemory),
            Ok(_) | Err(_) => {
                self.faults = self.faults.saturating_add(1);
                Err(SinkRefusal::Failed)
            }
        }
    }
}
