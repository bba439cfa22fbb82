//! The operations on two registers. (RV32I, Integer Register-Register Operations; M)
#![tactic(auto, unfolding(rv32_table::specs::Meaning::register_meaning))]

ghost use Rattle.std.specs.Prelude.{◌≡◌};
ghost use Rattle.rv32_table.specs.Meaning.{register_meaning};

use crate::product::{high_mixed, high_signed, high_unsigned};
use crate::quotient::{quotient_signed, quotient_unsigned, remainder_signed, remainder_unsigned};
use crate::word::{low_word, signed};
use rv32_table::RegOp;

/// What an operation on two registers answers, for the values `x` of rs1 and `y` of rs2. Sums, differences and products
/// wrap. A shift takes the low five bits of `y`. A quotient by zero has all bits set, and the remainder is then `x`;
/// that of -2^31 by -1 is -2^31, and the remainder is then 0. (RV32I, Integer Register-Register Operations; M)
#[inline(always)]
pub fn operate(op: RegOp, x: u32, y: u32) -> u32
    ensures { result ≡ register_meaning op x y }
{
    match op {
        RegOp::Add => x.wrapping_add(y),
        RegOp::Sub => difference(x, y),
        RegOp::Sll => x.wrapping_shl(y),
        RegOp::Slt => is_less_signed(x, y),
        RegOp::Sltu => is_less_unsigned(x, y),
        RegOp::Xor => x ^ y,
        RegOp::Srl => x.wrapping_shr(y),
        RegOp::Sra => shift_signed(x, y),
        RegOp::Or => x | y,
        RegOp::And => x & y,
        RegOp::Mul => x.wrapping_mul(y),
        RegOp::Mulh => high_signed(x, y),
        RegOp::Mulhsu => high_mixed(x, y),
        RegOp::Mulhu => high_unsigned(x, y),
        RegOp::Div => quotient_signed(x, y),
        RegOp::Divu => quotient_unsigned(x, y),
        RegOp::Rem => remainder_signed(x, y),
        RegOp::Remu => remainder_unsigned(x, y),
    }
}

/// SUB: the difference, wrapped.
fn difference(x: u32, y: u32) -> u32
    ensures { result ≡ register_meaning RegOp.Sub x y }
{
    x.wrapping_sub(y)
}

/// SLT: 1 where `x` is less, both signed, and else 0.
fn is_less_signed(x: u32, y: u32) -> u32
    ensures { result ≡ register_meaning RegOp.Slt x y }
{
    u32::from(signed(x) < signed(y))
}

/// SLTU: 1 where `x` is less, both unsigned, and else 0.
fn is_less_unsigned(x: u32, y: u32) -> u32
    ensures { result ≡ register_meaning RegOp.Sltu x y }
{
    u32::from(x < y)
}

/// SRA: `x`, signed, shifted to the right by the low five bits of `y`, rounded down.
fn shift_signed(x: u32, y: u32) -> u32
    ensures { result ≡ register_meaning RegOp.Sra x y }
{
    low_word(signed(x).wrapping_shr(y))
}
