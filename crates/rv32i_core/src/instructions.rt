//! The instructions of RV32I and of its extension M by the manual's names, with the fields of their words.

/// The operations on a register and an immediate ("Integer Computational Instructions", 2.4).
#[derive(Clone, Copy, Debug, PartialEq, Eq)]
pub enum ImmKind {
    Addi,
    Slti,
    Sltiu,
    Xori,
    Ori,
    Andi,
    Slli,
    Srli,
    Srai,
}

/// The operations on two registers ("Integer Computational Instructions", 2.4, and "\"M\" Standard Extension for Integer
/// Multiplication and Division", 7).
#[derive(Clone, Copy, Debug, PartialEq, Eq)]
pub enum OpKind {
    Add,
    Sub,
    Sll,
    Slt,
    Sltu,
    Xor,
    Srl,
    Sra,
    Or,
    And,
    Mul,
    Mulh,
    Mulhsu,
    Mulhu,
    Div,
    Divu,
    Rem,
    Remu,
}

/// The conditional branches ("Control Transfer Instructions", 2.5).
#[derive(Clone, Copy, Debug, PartialEq, Eq)]
pub enum BranchKind {
    Beq,
    Bne,
    Blt,
    Bge,
    Bltu,
    Bgeu,
}

/// The loads ("Load and Store Instructions", 2.6).
#[derive(Clone, Copy, Debug, PartialEq, Eq)]
pub enum LoadKind {
    Lb,
    Lh,
    Lw,
    Lbu,
    Lhu,
}

/// The stores ("Load and Store Instructions", 2.6).
#[derive(Clone, Copy, Debug, PartialEq, Eq)]
pub enum StoreKind {
    Sb,
    Sh,
    Sw,
}

/// One instruction ("RV32I Base Instruction Set" and "RV32M Standard Extension" in "RV32/64G Instruction Set Listings",
/// 24).
///
/// `rd`, `rs1` and `rs2` are numbers of registers, 0 to 31. `imm` is the sign-extended immediate of
/// the instruction's format; for SLLI, SRLI and SRAI it is the shift's amount, 0 to 31. Offsets and
/// addresses count bytes.
#[derive(Clone, Copy, Debug, PartialEq, Eq)]
pub enum Instruction {
    Lui {
        rd: u8,
        imm: i32,
    },
    Auipc {
        rd: u8,
        imm: i32,
    },
    Jal {
        rd: u8,
        imm: i32,
    },
    Jalr {
        rd: u8,
        rs1: u8,
        imm: i32,
    },
    Load {
        kind: LoadKind,
        rd: u8,
        rs1: u8,
        imm: i32,
    },
    ImmOp {
        kind: ImmKind,
        rd: u8,
        rs1: u8,
        imm: i32,
    },
    Branch {
        kind: BranchKind,
        rs1: u8,
        rs2: u8,
        imm: i32,
    },
    Store {
        kind: StoreKind,
        rs1: u8,
        rs2: u8,
        imm: i32,
    },
    Op {
        kind: OpKind,
        rd: u8,
        rs1: u8,
        rs2: u8,
    },
    Fence,
    Ecall,
    Ebreak,
}
