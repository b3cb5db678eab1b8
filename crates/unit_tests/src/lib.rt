//! Tests of single crates: of what no proof reaches, the files of the system and its connections; of pools and of pending
//! commands; of `elf_image`; and of what the target lends, pages that are shared and breakpoints by their address. What the
//! target answers and tells is tried by the rows of the program `service_rows`.
#![tactic(auto)]

#[cfg(test)]
mod elf;
#[cfg(test)]
mod files;
#[cfg(test)]
mod pages;
#[cfg(test)]
mod points;
#[cfg(test)]
mod pool;
#[cfg(test)]
mod wires;
