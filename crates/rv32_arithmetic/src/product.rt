//! The high words of products. (M, Multiplication Operations)
#![tactic(auto, unfolding(rv32_table::specs::Meaning::register_meaning))]

ghost use Rattle.std.specs.Prelude.{◌≡◌};
ghost use Rattle.rv32_table.specs.Meaning.{register_meaning, high_word};

use crate::word::signed;
use rv32_table::RegOp;

/// MULH: both are signed.
pub(crate) fn high_signed(x: u32, y: u32) -> u32
    ensures { result ≡ register_meaning RegOp.Mulh x y }
{
    high_word(i64::from(signed(x)) * i64::from(signed(y)))
}

/// MULHSU: `x` is signed, and `y` is unsigned.
pub(crate) fn high_mixed(x: u32, y: u32) -> u32
    ensures { result ≡ register_meaning RegOp.Mulhsu x y }
{
    high_word(i64::from(signed(x)) * i64::from(y))
}

/// MULHU: both are unsigned.
pub(crate) fn high_unsigned(x: u32, y: u32) -> u32
    ensures { result ≡ register_meaning RegOp.Mulhu x y }
{
    ((u64::from(x) * u64::from(y)) >> 32) as u32
}

/// The high word of a number in two's complement.
fn high_word(number: i64) -> u32
    ensures { result ≡ high_word number }
{
    (number.cast_unsigned() >> 32) as u32
}
