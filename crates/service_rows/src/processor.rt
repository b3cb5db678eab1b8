//! The rows of one processor with its memory. Their numbers are in hexadecimal digits.
use crate::rows::Board;
use crate::tables::put_text;
use crate::words::first;
use anyhow::{Context, Result, ensure};
use rv32i_core::{Cpu, Memory, decode, execute, pages};
use std::alloc::Global;
use tcf_outside::Octets;

/// How many bytes an image can have.
const MOST_BYTES: usize = 65_536;

fn number(word: &str) -> Result<u32> {
    u32::from_str_radix(word, 16).context("no number")
}

/// A memory with these bytes at 0; one of zeros where there are none.
fn memory(alloc: Global, word: &str) -> Result<Memory> {
    let bytes = hex::decode(alloc, word)?;
    ensure!(bytes.len() <= MOST_BYTES, "no memory");
    Ok(Memory::new(alloc, &pages(alloc, bytes.as_slice())?)?)
}

/// Writes a byte, and tells whether it lies in memory.
fn write_byte(memory: &mut Memory, place: u32, byte: u8) -> Result<bool> {
    memory.ready(1)?;
    Ok(memory.write(place, byte))
}

/// Puts a word at an address, the lowest byte first. Bytes outside memory are left out.
fn put_word(memory: &mut Memory, place: u32, word: u32) -> Result<()> {
    let mut place = place;
    for byte in word.to_le_bytes() {
        let _ = write_byte(memory, place, byte)?;
        place = place.wrapping_add(1);
    }
    Ok(())
}

/// Writes bytes from an address on, and puts whether all lie in memory.
fn put_write(alloc: Global, memory: &mut Memory, words: &str, out: &mut Octets) -> Result<()> {
    let (place, code) = first(words);
    let mut place = number(place)?;
    let mut inside = true;
    for byte in &hex::decode(alloc, code)? {
        inside = write_byte(memory, place, *byte)? && inside;
        place = place.wrapping_add(1);
    }
    put_text(if inside { "inside" } else { "outside" }, out)
}

/// Puts the byte at an address.
fn put_byte(alloc: Global, memory: &Memory, word: &str, out: &mut Octets) -> Result<()> {
    match memory.read(number(word)?) {
        Some(byte) => put_text(format!(in alloc; "{byte:x}")?.as_str(), out),
        None => put_text("outside", out),
    }
}

/// Puts the instruction that a word is.
fn put_instruction(alloc: Global, word: &str, out: &mut Octets) -> Result<()> {
    match decode(number(word)?) {
        Some(instruction) => put_text(format!(in alloc; "{instruction:?}")?.as_str(), out),
        None => put_text("none", out),
    }
}

/// Sets the register of `xN=VALUE`.
fn set_register(cpu: &mut Cpu, word: &str) -> Result<()> {
    let (name, value) = word.split_once('=').context("no value")?;
    let index = name.strip_prefix('x').context("no register")?;
    let register = cpu.x.get_mut(index.parse::<usize>()?);
    *register.context("no register")? = number(value)?;
    Ok(())
}

/// A processor at an address with these registers, and zeros in the others.
fn cpu(pc: &str, registers: &str) -> Result<Cpu> {
    let mut cpu = Cpu {
        pc: number(pc)?,
        x: [0; 32],
    };
    for word in registers.split_whitespace() {
        set_register(&mut cpu, word)?;
    }
    Ok(cpu)
}

/// Appends the registers that are not as they were.
fn add_changes(before: &Cpu, now: &Cpu, line: &mut String) -> Result<()> {
    for (index, (old, new)) in before.x.iter().zip(now.x.iter()).enumerate() {
        if old != new {
            write!(line, " x{index}={new:x}")?;
        }
    }
    Ok(())
}

/// Puts a word at the pc, executes it, and puts what comes of it, the pc and the registers that changed.
fn put_step(alloc: Global, memory: &mut Memory, words: &str, out: &mut Octets) -> Result<()> {
    let (pc, words) = first(words);
    let (word, registers) = first(words);
    let before = cpu(pc, registers)?;
    put_word(memory, before.pc, number(word)?)?;
    memory.ready(4)?;
    let mut now = before;
    let outcome = execute(&mut now, memory);
    let mut line = format!(in alloc; "{outcome:?} pc={:x}", now.pc)?;
    add_changes(&before, &now, &mut line)?;
    put_text(line.as_str(), out)
}

/// A processor's memory, at first of zeros.
#[derive(Drop)]
pub struct Processor {
    alloc: Global,
    memory: Memory,
}

impl Processor {
    pub fn new(alloc: Global) -> Result<Processor> {
        Ok(Processor {
            alloc,
            memory: memory(alloc, "")?,
        })
    }

    fn restart(&mut self, words: &str) -> Result<()> {
        self.memory = memory(self.alloc, words)?;
        Ok(())
    }
}

impl Board for Processor {
    fn play(&mut self, row: &str, out: &mut Octets) -> Result<()> {
        let (kind, words) = first(row);
        match kind {
            "decode" => put_instruction(self.alloc, words, out),
            "memory" => self.restart(words),
            "write" => put_write(self.alloc, &mut self.memory, words, out),
            "byte" => put_byte(self.alloc, &self.memory, words, out),
            "step" => put_step(self.alloc, &mut self.memory, words, out),
            _ => put_text("no row", out),
        }
    }
}
