//! What the integer computational instructions compute ("Integer Computational Instructions", 2.4), and those of the
//! extension M ("\"M\" Standard Extension for Integer Multiplication and Division", 7).
ghost use Rattle.std.specs.Int.{w64};
ghost use Rattle.std.specs.Prelude.{◌≡◌, ◌*◌, ◌*ℤ◌, pos, FitsSigned};
ghost use Rattle.rv32i_core.specs.Integers.{amount, immediate_result, operation_result, quotient, remainder, shifted_right_signed, signed, signed_quotient, signed_remainder, upper};

use crate::instructions::{ImmKind, OpKind};

/// The operation on the number in rs1 and the immediate.
pub(crate) fn immediate_operation(kind: ImmKind, a: u32, imm: i32) -> u32
    ensures { result ≡ immediate_result kind a imm }
{
    let b = imm.cast_unsigned();
    match kind {
        ImmKind::Addi => a.wrapping_add(b),
        ImmKind::Slti => u32::from(a.cast_signed() < imm),
        ImmKind::Sltiu => u32::from(a < b),
        ImmKind::Xori => a ^ b,
        ImmKind::Ori => a | b,
        ImmKind::Andi => a & b,
        ImmKind::Slli => a.wrapping_shl(b),
        ImmKind::Srli => a.wrapping_shr(b),
        ImmKind::Srai => shift_right_signed(a, b),
    }
}

/// The operation on the numbers in rs1 and rs2.
pub(crate) fn operation(kind: OpKind, a: u32, b: u32) -> u32
    ensures { result ≡ operation_result kind a b }
{
    match kind {
        OpKind::Add => a.wrapping_add(b),
        OpKind::Sub => a.wrapping_sub(b),
        OpKind::Sll => a.wrapping_shl(b),
        OpKind::Slt => u32::from(a.cast_signed() < b.cast_signed()),
        OpKind::Sltu => u32::from(a < b),
        OpKind::Xor => a ^ b,
        OpKind::Srl => a.wrapping_shr(b),
        OpKind::Sra => shift_right_signed(a, b),
        OpKind::Or => a | b,
        OpKind::And => a & b,
        OpKind::Mul => a.wrapping_mul(b),
        OpKind::Mulh => upper_signed(a, b),
        OpKind::Mulhsu => upper_mixed(a, b),
        OpKind::Mulhu => upper_unsigned(a, b),
        OpKind::Div => signed_quotient(a, b),
        OpKind::Divu => quotient(a, b),
        OpKind::Rem => signed_remainder(a, b),
        OpKind::Remu => remainder(a, b),
    }
}

/// Shifts by the lowest five bits of `b` and copies the sign bit into the upper bits.
#[tactic(auto, using(crate::proofs::Shift::signed_shift))]
fn shift_right_signed(a: u32, b: u32) -> u32
    ensures { result ≡ shifted_right_signed a (amount b) }
{
    a.cast_signed().wrapping_shr(b).cast_unsigned()
}

/// The upper 32 of the 64 bits of a product.
fn upper(x: i64, y: i64) -> u32
    requires { FitsSigned w64 (x *ℤ y) }
    ensures { result ≡ upper (x *ℤ y) }
{
    ((x * y).cast_unsigned() >> 32) as u32
}

/// The upper half of the product of two signed numbers.
#[tactic(auto, using(crate::proofs::Products::signed_fits))]
fn upper_signed(a: u32, b: u32) -> u32
    ensures { result ≡ upper (signed a *ℤ signed b) }
{
    upper(i64::from(a.cast_signed()), i64::from(b.cast_signed()))
}

/// The upper half of the product of a signed number and an unsigned one.
#[tactic(auto, using(crate::proofs::Products::mixed_fits))]
fn upper_mixed(a: u32, b: u32) -> u32
    ensures { result ≡ upper (signed a *ℤ pos b) }
{
    upper(i64::from(a.cast_signed()), i64::from(b))
}

/// The upper half of the product of two unsigned numbers.
#[tactic(auto, using(crate::proofs::Products::unsigned_fits))]
fn upper_unsigned(a: u32, b: u32) -> u32
    ensures { result ≡ upper (pos a *ℤ pos b) }
{
    ((u64::from(a) * u64::from(b)) >> 32) as u32
}

fn quotient(a: u32, b: u32) -> u32
    ensures { result ≡ quotient a b }
{
    if b == 0 { u32::MAX } else { a / b }
}

fn remainder(a: u32, b: u32) -> u32
    ensures { result ≡ remainder a b }
{
    if b == 0 { a } else { a % b }
}

/// The quotient of the signed numbers, rounded toward 0.
#[tactic(auto, using(crate::proofs::Divisions::signed_back, crate::proofs::Divisions::quotient_kept))]
fn signed_quotient(a: u32, b: u32) -> u32
    ensures { result ≡ signed_quotient a b }
{
    if b == 0 {
        u32::MAX
    } else {
        a.cast_signed()
            .wrapping_div(b.cast_signed())
            .cast_unsigned()
    }
}

/// The remainder of the signed numbers, with the dividend's sign.
#[tactic(auto, using(crate::proofs::Divisions::signed_back))]
fn signed_remainder(a: u32, b: u32) -> u32
    ensures { result ≡ signed_remainder a b }
{
    if b == 0 {
        a
    } else {
        a.cast_signed()
            .wrapping_rem(b.cast_signed())
            .cast_unsigned()
    }
}
