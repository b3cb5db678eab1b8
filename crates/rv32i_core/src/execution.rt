//! What each instruction does: a function for each family, in the manual's order.
ghost use Rattle.std.specs.Bool.{OnFalse};
ghost use Rattle.std.specs.Prelude.{◌≡◌, ◌≢◌, ◌<◌, ◌≤◌, List, ℕ, if◌then◌else◌};
ghost use Rattle.rv32i_core.specs.Integers.{unsigned};
ghost use Rattle.rv32i_core.specs.Listing.{NamesRegisters};
ghost use Rattle.rv32i_core.specs.Machine.{effect, is_taken, jump_step, link_step, loaded, machine, next_step, result_step, step_of, stored};
ghost use Rattle.rv32i_core.specs.Owning.{BecomeOwn};
ghost use Rattle.rv32i_core.specs.Word.{sign_extended};

use crate::decoding::decode;
use crate::instructions::{BranchKind, ImmKind, Instruction, LoadKind, OpKind, StoreKind};
use crate::integers::{immediate_operation, operation};
use crate::ram::Memory;
use crate::registers::Cpu;

/// What the execution of one instruction came to.
#[derive(Clone, Copy, Debug, PartialEq, Eq)]
pub enum Outcome {
    /// The instruction is done, and `pc` is on the next one.
    Next,
    /// The program asked to end, by ECALL with 93 in x17. The status is x10 as a signed number.
    Exit(i32),
    /// The program asked for a thread, by ECALL with 1000 in x17: one that begins at the address in x10, with the number
    /// in x11 as its argument.
    Spawn { entry: u32, argument: u32 },
    /// The instruction can't be done.
    Exception,
}

/// Executes the instruction at `pc` ("RV32I Base Integer Instruction Set", 2). Takes no memory.
///
/// An exception is a fetch or a data access with a byte past 65,535, a word that [`decode`] doesn't
/// know, a taken jump to an address that is no multiple of 4, EBREAK, and ECALL with another number
/// than 93 and 1000 in x17. After `Exit`, `Spawn` and `Exception` the processor and its memory are as
/// they were, so `pc` stays on the instruction.
///
/// The memory has to have 4 spare pages or more, since the bytes of a store can lie in two pages. At most
/// four pages become own, and all others stay as they were kept.
#[tactic(auto, using(crate::proofs::Owned::none_become), unfolding(crate::specs::Machine::machine))]
pub fn execute(cpu: &mut Cpu, memory: &mut Memory) -> Outcome
    requires { 4 ≤ memory.old.spare }
    ensures step { step_of result cpu.new memory.new.bytes ≡ machine cpu.old memory.old.bytes }
    ensures cpu_kept { result ≢ Outcome.Next → cpu.new ≡ cpu.old }
    ensures memory_kept { result ≢ Outcome.Next → memory.new ≡ memory.old }
    ensures pages { BecomeOwn 4 memory.old memory.new }
{
    if !memory.has(4, cpu.pc) {
        return Outcome::Exception;
    }
    match decode(memory.word(cpu.pc)) {
        Some(instruction) => perform(cpu, memory, instruction),
        None => Outcome::Exception,
    }
}

/// Does what an instruction says.
#[tactic(auto, using(crate::proofs::Owned::none_become))]
fn perform(cpu: &mut Cpu, memory: &mut Memory, instruction: Instruction) -> Outcome
    requires registers { NamesRegisters instruction }
    requires room { 4 ≤ memory.old.spare }
    ensures step { step_of result cpu.new memory.new.bytes ≡ effect instruction cpu.old memory.old.bytes }
    ensures cpu_kept { result ≢ Outcome.Next → cpu.new ≡ cpu.old }
    ensures memory_kept { result ≢ Outcome.Next → memory.new ≡ memory.old }
    ensures pages { BecomeOwn 4 memory.old memory.new }
{
    match instruction {
        Instruction::ImmOp { kind, rd, rs1, imm } => op_imm(cpu, kind, rd, rs1, imm),
        Instruction::Lui { rd, imm } => lui(cpu, rd, imm),
        Instruction::Auipc { rd, imm } => auipc(cpu, rd, imm),
        Instruction::Op { kind, rd, rs1, rs2 } => op(cpu, kind, rd, rs1, rs2),
        Instruction::Jal { rd, imm } => jal(cpu, rd, imm),
        Instruction::Jalr { rd, rs1, imm } => jalr(cpu, rd, rs1, imm),
        Instruction::Branch {
            kind,
            rs1,
            rs2,
            imm,
        } => branch(cpu, kind, rs1, rs2, imm),
        Instruction::Load { kind, rd, rs1, imm } => load(cpu, memory, kind, rd, rs1, imm),
        Instruction::Store {
            kind,
            rs1,
            rs2,
            imm,
        } => store(cpu, memory, kind, rs1, rs2, imm),
        Instruction::Fence => advance(cpu),
        Instruction::Ecall => environment_call(cpu),
        Instruction::Ebreak => Outcome::Exception,
    }
}

/// Goes on to the instruction that follows.
fn advance(cpu: &mut Cpu) -> Outcome
    ensures next { result ≡ Outcome.Next }
    ensures step { (m : List ℕ) → step_of result cpu.new m ≡ next_step cpu.old m }
{
    cpu.pc = cpu.following();
    Outcome::Next
}

// ---- integer computational instructions (2.4)

/// Puts a number into `rd` and goes on.
fn put(cpu: &mut Cpu, rd: u8, value: u32) -> Outcome
    requires { rd < 32 }
    ensures next { result ≡ Outcome.Next }
    ensures step { (m : List ℕ) → step_of result cpu.new m ≡ result_step rd value cpu.old m }
{
    cpu.write(rd, value);
    advance(cpu)
}

fn op_imm(cpu: &mut Cpu, kind: ImmKind, rd: u8, rs1: u8, imm: i32) -> Outcome
    requires rd { rd < 32 }
    requires rs1 { rs1 < 32 }
    ensures next { result ≡ Outcome.Next }
    ensures step { (m : List ℕ) → step_of result cpu.new m ≡ effect (Instruction.ImmOp kind rd rs1 imm) cpu.old m }
{
    let value = immediate_operation(kind, cpu.read(rs1), imm);
    put(cpu, rd, value)
}

fn lui(cpu: &mut Cpu, rd: u8, imm: i32) -> Outcome
    requires { rd < 32 }
    ensures next { result ≡ Outcome.Next }
    ensures step { (m : List ℕ) → step_of result cpu.new m ≡ effect (Instruction.Lui rd imm) cpu.old m }
{
    put(cpu, rd, imm.cast_unsigned())
}

fn auipc(cpu: &mut Cpu, rd: u8, imm: i32) -> Outcome
    requires { rd < 32 }
    ensures next { result ≡ Outcome.Next }
    ensures step { (m : List ℕ) → step_of result cpu.new m ≡ effect (Instruction.Auipc rd imm) cpu.old m }
{
    let value = cpu.pc.wrapping_add_signed(imm);
    put(cpu, rd, value)
}

fn op(cpu: &mut Cpu, kind: OpKind, rd: u8, rs1: u8, rs2: u8) -> Outcome
    requires rd { rd < 32 }
    requires rs1 { rs1 < 32 }
    requires rs2 { rs2 < 32 }
    ensures next { result ≡ Outcome.Next }
    ensures step { (m : List ℕ) → step_of result cpu.new m ≡ effect (Instruction.Op kind rd rs1 rs2) cpu.old m }
{
    let value = operation(kind, cpu.read(rs1), cpu.read(rs2));
    put(cpu, rd, value)
}

// ---- control transfer instructions (2.5)

/// Goes to an address, which has to be a multiple of 4.
fn jump(cpu: &mut Cpu, target: u32) -> Outcome
    ensures step { (m : List ℕ) → step_of result cpu.new m ≡ jump_step target cpu.old m }
    ensures kept { result ≢ Outcome.Next → cpu.new ≡ cpu.old }
{
    if target % 4 != 0 {
        return Outcome::Exception;
    }
    cpu.pc = target;
    Outcome::Next
}

/// Goes to an address and leaves the address of the instruction that follows in `rd`; where the jump
/// can't be done, `rd` stays too.
fn jump_and_link(cpu: &mut Cpu, rd: u8, target: u32) -> Outcome
    requires { rd < 32 }
    ensures step { (m : List ℕ) → step_of result cpu.new m ≡ link_step rd target cpu.old m }
    ensures kept { result ≢ Outcome.Next → cpu.new ≡ cpu.old }
{
    if target % 4 != 0 {
        return Outcome::Exception;
    }
    cpu.write(rd, cpu.following());
    cpu.pc = target;
    Outcome::Next
}

fn jal(cpu: &mut Cpu, rd: u8, imm: i32) -> Outcome
    requires { rd < 32 }
    ensures step { (m : List ℕ) → step_of result cpu.new m ≡ effect (Instruction.Jal rd imm) cpu.old m }
    ensures kept { result ≢ Outcome.Next → cpu.new ≡ cpu.old }
{
    let target = cpu.pc.wrapping_add_signed(imm);
    jump_and_link(cpu, rd, target)
}

fn jalr(cpu: &mut Cpu, rd: u8, rs1: u8, imm: i32) -> Outcome
    requires rd { rd < 32 }
    requires rs1 { rs1 < 32 }
    ensures step { (m : List ℕ) → step_of result cpu.new m ≡ effect (Instruction.Jalr rd rs1 imm) cpu.old m }
    ensures kept { result ≢ Outcome.Next → cpu.new ≡ cpu.old }
{
    let target = cpu.read(rs1).wrapping_add_signed(imm) & !1;
    jump_and_link(cpu, rd, target)
}

fn branch(cpu: &mut Cpu, kind: BranchKind, rs1: u8, rs2: u8, imm: i32) -> Outcome
    requires rs1 { rs1 < 32 }
    requires rs2 { rs2 < 32 }
    ensures step { (m : List ℕ) → step_of result cpu.new m ≡ effect (Instruction.Branch kind rs1 rs2 imm) cpu.old m }
    ensures kept { result ≢ Outcome.Next → cpu.new ≡ cpu.old }
{
    if is_branch_taken(kind, cpu.read(rs1), cpu.read(rs2)) {
        let target = cpu.pc.wrapping_add_signed(imm);
        jump(cpu, target)
    } else {
        advance(cpu)
    }
}

fn is_branch_taken(kind: BranchKind, a: u32, b: u32) -> bool
    ensures { result ≡ is_taken kind a b }
{
    match kind {
        BranchKind::Beq => a == b,
        BranchKind::Bne => a != b,
        BranchKind::Blt => a.cast_signed() < b.cast_signed(),
        BranchKind::Bge => a.cast_signed() >= b.cast_signed(),
        BranchKind::Bltu => a < b,
        BranchKind::Bgeu => a >= b,
    }
}

// ---- load and store instructions (2.6)

fn load(cpu: &mut Cpu, memory: &Memory, kind: LoadKind, rd: u8, rs1: u8, imm: i32) -> Outcome
    requires rd { rd < 32 }
    requires rs1 { rs1 < 32 }
    ensures step { step_of result cpu.new memory.now.bytes ≡ effect (Instruction.Load kind rd rs1 imm) cpu.old memory.now.bytes }
    ensures kept { result ≢ Outcome.Next → cpu.new ≡ cpu.old }
{
    let place = cpu.read(rs1).wrapping_add_signed(imm);
    match load_number(memory, kind, place) {
        Some(value) => put(cpu, rd, value),
        None => Outcome::Exception,
    }
}

/// The number that a load reads; `None` where a byte of it lies outside memory.
fn load_number(memory: &Memory, kind: LoadKind, place: u32) -> Option<u32>
    ensures { result ≡ loaded kind place memory.now.bytes }
{
    match kind {
        LoadKind::Lb if memory.has(1, place) => Some(sign_extend_byte(memory.byte(place))),
        LoadKind::Lh if memory.has(2, place) => Some(sign_extend_halfword(memory.halfword(place))),
        LoadKind::Lw if memory.has(4, place) => Some(memory.word(place)),
        LoadKind::Lbu if memory.has(1, place) => Some(u32::from(memory.byte(place))),
        LoadKind::Lhu if memory.has(2, place) => Some(u32::from(memory.halfword(place))),
        _ => None,
    }
}

fn sign_extend_byte(byte: u8) -> u32
    ensures { result ≡ unsigned (sign_extended 8 byte) }
{
    i32::from(byte.cast_signed()).cast_unsigned()
}

fn sign_extend_halfword(halfword: u16) -> u32
    ensures { result ≡ unsigned (sign_extended 16 halfword) }
{
    i32::from(halfword.cast_signed()).cast_unsigned()
}

#[tactic(auto, using(crate::proofs::Owned::none_become))]
fn store(cpu: &mut Cpu, memory: &mut Memory, kind: StoreKind, rs1: u8, rs2: u8, imm: i32) -> Outcome
    requires rs1 { rs1 < 32 }
    requires rs2 { rs2 < 32 }
    requires room { 4 ≤ memory.old.spare }
    ensures step { step_of result cpu.new memory.new.bytes ≡ effect (Instruction.Store kind rs1 rs2 imm) cpu.old memory.old.bytes }
    ensures cpu_kept { result ≢ Outcome.Next → cpu.new ≡ cpu.old }
    ensures memory_kept { result ≢ Outcome.Next → memory.new ≡ memory.old }
    ensures pages { BecomeOwn 4 memory.old memory.new }
{
    let place = cpu.read(rs1).wrapping_add_signed(imm);
    if store_number(memory, kind, place, cpu.read(rs2)) {
        advance(cpu)
    } else {
        Outcome::Exception
    }
}

/// Puts a number's lowest bytes into memory; `false` where one of them lies outside, and then nothing
/// changes.
#[tactic(auto, using(crate::proofs::Owned::none_become, crate::proofs::Owned::fewer_become))]
fn store_number(memory: &mut Memory, kind: StoreKind, place: u32, value: u32) -> bool
    requires { 4 ≤ memory.old.spare }
    ensures written { (if result then Some memory.new.bytes else None) ≡ stored kind place value memory.old.bytes }
    ensures kept { OnFalse result (memory.new ≡ memory.old) }
    ensures pages { BecomeOwn 4 memory.old memory.new }
{
    match kind {
        StoreKind::Sb if memory.has(1, place) => memory.set_byte(place, value),
        StoreKind::Sh if memory.has(2, place) => memory.set_halfword(place, value),
        StoreKind::Sw if memory.has(4, place) => memory.set_word(place, value),
        _ => return false,
    }
    true
}

// ---- environment call (2.8)

/// The number in x17 by which a program asks to end.
const EXIT: u32 = 93;

/// The number in x17 by which a program asks for a thread.
const SPAWN: u32 = 1000;

fn environment_call(cpu: &Cpu) -> Outcome
    ensures step { (m : List ℕ) → step_of result cpu.now m ≡ effect Instruction.Ecall cpu.now m }
{
    match cpu.read(17) {
        EXIT => Outcome::Exit(cpu.read(10).cast_signed()),
        SPAWN => Outcome::Spawn {
            entry: cpu.read(10),
            argument: cpu.read(11),
        },
        _ => Outcome::Exception,
    }
}
