//! ELF32 executables for RISC-V (System V Application Binary Interface, generic part: "ELF Header" and "Program
//! Header"), read with their first fault as the parts that a memory of 65,536 bytes gets.
#![tactic(auto)]

mod fault;
mod header;
mod laws;
mod numbers;
mod part;
mod program;
mod reading;
mod segments;

pub use fault::ElfFault;
pub use header::is_elf;
pub use laws::{an_overlap_is_a_shared_address, one_memory_is_loaded, the_parts_are_loaded};
pub use part::{Part, PartBytes};
pub use program::{Parts, Program};
pub use reading::read;
