//! What lies outside the core: files that are read and a sink that text is put into, with objects in memory
//! and real ones, and the one list type, which contracts see as a list.
#![tactic(auto)]

pub mod files;
pub mod real;
pub mod sequence;
pub mod sink;

pub use files::{FileRead, Files, HeldFile, MemoryFiles, ReadRefusal};
pub use real::{RealFiles, RealSink};
pub use sequence::{Duplicate, Octets, Sequence};
pub use sink::{MemorySink, Sink, SinkRefusal, put_all};
