//! The RISC-V base instruction set RV32I and its extension M: what a word says, and what it does to one processor with
//! 65,536 bytes of memory.
//!
//! Sections named here are those of "The RISC-V Instruction Set Manual, volume I: Unprivileged ISA",
//! version 20191213.
#![tactic(auto)]

mod cutting;
mod decoding;
mod execution;
mod image;
mod instructions;
mod integers;
mod laws;
mod page;
mod ram;
mod registers;

pub use cutting::pages;
pub use decoding::decode;
pub use execution::{Outcome, execute};
pub use image::Pages;
pub use instructions::{BranchKind, ImmKind, Instruction, LoadKind, OpKind, StoreKind};
pub use laws::the_machine_stays_within;
pub use ram::Memory;
pub use registers::Cpu;
