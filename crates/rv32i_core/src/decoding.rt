//! Reads an instruction from its word: by opcode first, then by the fields that tell one opcode's
//! instructions apart.
ghost use Rattle.std.specs.Prelude.{◌≡◌, ◌<◌, ◌/◌, ◌%◌, ◌^◌, IfSome};
ghost use Rattle.rv32i_core.specs.Listing.{NamesRegisters, alternate_operations, base_operations, branch_row, entry_at, entry_under, immediate_shift_row, instruction_of, jalr_row, load_row, misc_mem_row, multiplications, op_imm_row, op_row, operations, store_row, system_row};
ghost use Rattle.rv32i_core.specs.Word.{funct3_of, funct7_of, immediate_b, immediate_i, immediate_j, immediate_s, immediate_u, opcode_of, rd_of, rs1_of, rs2_of};

use crate::instructions::{BranchKind, ImmKind, Instruction, LoadKind, OpKind, StoreKind};

// The opcodes by the manual's names.
const LUI: u32 = 0b011_0111;

const AUIPC: u32 = 0b001_0111;

const JAL: u32 = 0b110_1111;

const JALR: u32 = 0b110_0111;

const BRANCH: u32 = 0b110_0011;

const LOAD: u32 = 0b000_0011;

const STORE: u32 = 0b010_0011;

const OP_IMM: u32 = 0b001_0011;

const OP: u32 = 0b011_0011;

const MISC_MEM: u32 = 0b000_1111;

const SYSTEM: u32 = 0b111_0011;

/// Reads a word as an instruction of RV32I or of the extension M, with its fields. The answer is `None` exactly where
/// the manual's listing of the two has no such word ("RV32/64G Instruction Set Listings", 24).
///
/// FENCE is known by its opcode and funct3 alone; of opcode SYSTEM only the words of ECALL and
/// EBREAK are instructions.
#[tactic(auto, unfolding(crate::specs::Listing::instruction_of))]
pub fn decode(word: u32) -> Option<Instruction>
    ensures listed { result ≡ instruction_of word }
    ensures registers { IfSome result NamesRegisters }
{
    match opcode(word) {
        LUI => Some(Instruction::Lui {
            rd: rd(word),
            imm: u_immediate(word),
        }),
        AUIPC => Some(Instruction::Auipc {
            rd: rd(word),
            imm: u_immediate(word),
        }),
        JAL => Some(Instruction::Jal {
            rd: rd(word),
            imm: j_immediate(word),
        }),
        JALR => decode_jalr(word),
        BRANCH => decode_branch(word),
        LOAD => decode_load(word),
        STORE => decode_store(word),
        OP_IMM => decode_op_imm(word),
        OP => decode_op(word),
        MISC_MEM => decode_misc_mem(word),
        SYSTEM => decode_system(word),
        _ => None,
    }
}

// ---- opcodes with several instructions

fn decode_jalr(word: u32) -> Option<Instruction>
    ensures listed { result ≡ jalr_row word }
    ensures registers { IfSome result NamesRegisters }
{
    match funct3(word) {
        0b000 => Some(Instruction::Jalr {
            rd: rd(word),
            rs1: rs1(word),
            imm: i_immediate(word),
        }),
        _ => None,
    }
}

fn decode_branch(word: u32) -> Option<Instruction>
    ensures listed { result ≡ branch_row word }
    ensures registers { IfSome result NamesRegisters }
{
    let kind = match funct3(word) {
        0b000 => BranchKind::Beq,
        0b001 => BranchKind::Bne,
        0b100 => BranchKind::Blt,
        0b101 => BranchKind::Bge,
        0b110 => BranchKind::Bltu,
        0b111 => BranchKind::Bgeu,
        _ => return None,
    };
    Some(Instruction::Branch {
        kind,
        rs1: rs1(word),
        rs2: rs2(word),
        imm: b_immediate(word),
    })
}

fn decode_load(word: u32) -> Option<Instruction>
    ensures listed { result ≡ load_row word }
    ensures registers { IfSome result NamesRegisters }
{
    let kind = match funct3(word) {
        0b000 => LoadKind::Lb,
        0b001 => LoadKind::Lh,
        0b010 => LoadKind::Lw,
        0b100 => LoadKind::Lbu,
        0b101 => LoadKind::Lhu,
        _ => return None,
    };
    Some(Instruction::Load {
        kind,
        rd: rd(word),
        rs1: rs1(word),
        imm: i_immediate(word),
    })
}

fn decode_store(word: u32) -> Option<Instruction>
    ensures listed { result ≡ store_row word }
    ensures registers { IfSome result NamesRegisters }
{
    let kind = match funct3(word) {
        0b000 => StoreKind::Sb,
        0b001 => StoreKind::Sh,
        0b010 => StoreKind::Sw,
        _ => return None,
    };
    Some(Instruction::Store {
        kind,
        rs1: rs1(word),
        rs2: rs2(word),
        imm: s_immediate(word),
    })
}

fn decode_op_imm(word: u32) -> Option<Instruction>
    ensures listed { result ≡ op_imm_row word }
    ensures registers { IfSome result NamesRegisters }
{
    let kind = match funct3(word) {
        0b000 => ImmKind::Addi,
        0b010 => ImmKind::Slti,
        0b011 => ImmKind::Sltiu,
        0b100 => ImmKind::Xori,
        0b110 => ImmKind::Ori,
        0b111 => ImmKind::Andi,
        _ => return decode_immediate_shift(word),
    };
    Some(Instruction::ImmOp {
        kind,
        rd: rd(word),
        rs1: rs1(word),
        imm: i_immediate(word),
    })
}

fn decode_immediate_shift(word: u32) -> Option<Instruction>
    ensures listed { result ≡ immediate_shift_row word }
    ensures registers { IfSome result NamesRegisters }
{
    let kind = match (funct7(word), funct3(word)) {
        (0b000_0000, 0b001) => ImmKind::Slli,
        (0b000_0000, 0b101) => ImmKind::Srli,
        (0b010_0000, 0b101) => ImmKind::Srai,
        _ => return None,
    };
    Some(Instruction::ImmOp {
        kind,
        rd: rd(word),
        rs1: rs1(word),
        imm: rs2(word) as i32,
    })
}

fn decode_op(word: u32) -> Option<Instruction>
    ensures listed { result ≡ op_row word }
    ensures registers { IfSome result NamesRegisters }
{
    Some(Instruction::Op {
        kind: operation_kind(funct7(word), funct3(word))?,
        rd: rd(word),
        rs1: rs1(word),
        rs2: rs2(word),
    })
}

fn operation_kind(funct7: u32, funct3: u32) -> Option<OpKind>
    ensures { result ≡ entry_under funct7 funct3 operations }
{
    match funct7 {
        0b000_0000 => base_kind(funct3),
        0b000_0001 => multiplication_kind(funct3),
        0b010_0000 => alternate_kind(funct3),
        _ => None,
    }
}

fn base_kind(funct3: u32) -> Option<OpKind>
    ensures { result ≡ entry_at funct3 base_operations }
{
    match funct3 {
        0b000 => Some(OpKind::Add),
        0b001 => Some(OpKind::Sll),
        0b010 => Some(OpKind::Slt),
        0b011 => Some(OpKind::Sltu),
        0b100 => Some(OpKind::Xor),
        0b101 => Some(OpKind::Srl),
        0b110 => Some(OpKind::Or),
        0b111 => Some(OpKind::And),
        _ => None,
    }
}

fn multiplication_kind(funct3: u32) -> Option<OpKind>
    ensures { result ≡ entry_at funct3 multiplications }
{
    match funct3 {
        0b000 => Some(OpKind::Mul),
        0b001 => Some(OpKind::Mulh),
        0b010 => Some(OpKind::Mulhsu),
        0b011 => Some(OpKind::Mulhu),
        0b100 => Some(OpKind::Div),
        0b101 => Some(OpKind::Divu),
        0b110 => Some(OpKind::Rem),
        0b111 => Some(OpKind::Remu),
        _ => None,
    }
}

fn alternate_kind(funct3: u32) -> Option<OpKind>
    ensures { result ≡ entry_at funct3 alternate_operations }
{
    match funct3 {
        0b000 => Some(OpKind::Sub),
        0b101 => Some(OpKind::Sra),
        _ => None,
    }
}

fn decode_misc_mem(word: u32) -> Option<Instruction>
    ensures listed { result ≡ misc_mem_row word }
    ensures registers { IfSome result NamesRegisters }
{
    match funct3(word) {
        0b000 => Some(Instruction::Fence),
        _ => None,
    }
}

fn decode_system(word: u32) -> Option<Instruction>
    ensures listed { result ≡ system_row word }
    ensures registers { IfSome result NamesRegisters }
{
    match word {
        0x0000_0073 => Some(Instruction::Ecall),
        0x0010_0073 => Some(Instruction::Ebreak),
        _ => None,
    }
}

// ---- fields

/// The number in `count` bits of a word, of which `low` is the lowest.
fn field(word: u32, low: u32, count: u32) -> u32
    requires low { low < 32 }
    requires count { count < 32 }
    ensures { result ≡ word / 2 ^ low % 2 ^ count }
{
    (word >> low) % (1 << count)
}

fn opcode(word: u32) -> u32
    ensures { result ≡ opcode_of word }
{
    field(word, 0, 7)
}

fn rd(word: u32) -> u8
    ensures { result ≡ rd_of word }
{
    field(word, 7, 5) as u8
}

fn funct3(word: u32) -> u32
    ensures { result ≡ funct3_of word }
{
    field(word, 12, 3)
}

fn rs1(word: u32) -> u8
    ensures { result ≡ rs1_of word }
{
    field(word, 15, 5) as u8
}

fn rs2(word: u32) -> u8
    ensures { result ≡ rs2_of word }
{
    field(word, 20, 5) as u8
}

fn funct7(word: u32) -> u32
    ensures { result ≡ funct7_of word }
{
    word >> 25
}

// ---- immediates: the sign is bit 31 of the word, which a shift to the right copies

fn i_immediate(word: u32) -> i32
    ensures { result ≡ immediate_i word }
{
    word.cast_signed() >> 20
}

fn s_immediate(word: u32) -> i32
    ensures { result ≡ immediate_s word }
{
    let high = word.cast_signed() >> 25;
    (high << 5) + field(word, 7, 5) as i32
}

fn b_immediate(word: u32) -> i32
    ensures { result ≡ immediate_b word }
{
    let sign = word.cast_signed() >> 31;
    let rest = (field(word, 7, 1) << 11) + (field(word, 25, 6) << 5) + (field(word, 8, 4) << 1);
    (sign << 12) + rest as i32
}

fn u_immediate(word: u32) -> i32
    ensures { result ≡ immediate_u word }
{
    (word & 0xffff_f000).cast_signed()
}

fn j_immediate(word: u32) -> i32
    ensures { result ≡ immediate_j word }
{
    let sign = word.cast_signed() >> 31;
    let rest = (field(word, 12, 8) << 12) + (field(word, 20, 1) << 11) + (field(word, 21, 10) << 1);
    (sign << 20) + rest as i32
}
