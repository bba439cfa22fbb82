//! Quotients and remainders. (M, Division Operations)
#![tactic(auto, unfolding(rv32_table::specs::Meaning::register_meaning))]

ghost use Rattle.std.specs.Prelude.{◌≡◌};
ghost use Rattle.rv32_table.specs.Meaning.{register_meaning};

use crate::word::{low_word, signed};
use rv32_table::RegOp;

/// What a quotient by zero is: all bits set.
const BY_ZERO: u32 = u32::MAX;

/// DIV: the quotient rounded toward zero, both signed. By zero it is -1, and that of -2^31 by -1 is -2^31.
pub(crate) fn quotient_signed(x: u32, y: u32) -> u32
    ensures { result ≡ register_meaning RegOp.Div x y }
{
    if y == 0 {
        return BY_ZERO;
    }
    low_word(signed(x).wrapping_div(signed(y)))
}

/// DIVU: the quotient, both unsigned. By zero it is 2^32 - 1.
pub(crate) fn quotient_unsigned(x: u32, y: u32) -> u32
    ensures { result ≡ register_meaning RegOp.Divu x y }
{
    if y == 0 {
        return BY_ZERO;
    }
    x / y
}

/// REM: the remainder with the dividend's sign, both signed. By zero it is the dividend, and that of -2^31 by -1 is 0.
pub(crate) fn remainder_signed(x: u32, y: u32) -> u32
    ensures { result ≡ register_meaning RegOp.Rem x y }
{
    if y == 0 {
        return x;
    }
    low_word(signed(x).wrapping_rem(signed(y)))
}

/// REMU: the remainder, both unsigned. By zero it is the dividend.
pub(crate) fn remainder_unsigned(x: u32, y: u32) -> u32
    ensures { result ≡ register_meaning RegOp.Remu x y }
{
    if y == 0 {
        return x;
    }
    x % y
}
