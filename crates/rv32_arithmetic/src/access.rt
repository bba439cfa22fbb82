//! How many bytes loads and stores have, and what a load makes of them. (RV32I, Load and Store Instructions)

ghost use Rattle.std.specs.Prelude.{◌≡◌, ◌*◌, ◌^◌, ◌<◌};
ghost use Rattle.rv32_table.specs.Fields.{signed};
ghost use Rattle.rv32_table.specs.Meaning.{load_width, store_width, load_meaning, low_word};

use crate::word::low_word;
use rv32_table::{LoadOp, StoreOp};

/// How many bytes a load has: 1, 2 or 4. (RV32I, Load and Store Instructions)
pub fn load_width(op: LoadOp) -> u32
    ensures { result ≡ load_width op }
{
    match op {
        LoadOp::Lb | LoadOp::Lbu => 1,
        LoadOp::Lh | LoadOp::Lhu => 2,
        LoadOp::Lw => 4,
    }
}

/// How many bytes a store has, the low ones of rs2: 1, 2 or 4. (RV32I, Load and Store Instructions)
pub fn store_width(op: StoreOp) -> u32
    ensures { result ≡ store_width op }
{
    match op {
        StoreOp::Sb => 1,
        StoreOp::Sh => 2,
        StoreOp::Sw => 4,
    }
}

/// What a load puts into rd, for the number that its bytes are, the lowest byte first: LB and LH extend the sign, LBU
/// and LHU zeros. (RV32I, Load and Store Instructions)
#[tactic(auto, unfolding(rv32_table::specs::Meaning::load_meaning))]
pub fn extend(op: LoadOp, loaded: u32) -> u32
    requires { loaded < 2 ^ (8 * load_width op) }
    ensures { result ≡ load_meaning op loaded }
{
    match op {
        LoadOp::Lb => extend_byte(loaded as u8),
        LoadOp::Lh => extend_half(loaded as u16),
        LoadOp::Lw | LoadOp::Lbu | LoadOp::Lhu => loaded,
    }
}

/// LB: a byte with its sign extended.
fn extend_byte(loaded: u8) -> u32
    ensures { result ≡ low_word (signed 8 loaded) }
{
    low_word(i32::from(loaded.cast_signed()))
}

/// LH: two bytes with their sign extended.
fn extend_half(loaded: u16) -> u32
    ensures { result ≡ low_word (signed 16 loaded) }
{
    low_word(i32::from(loaded.cast_signed()))
}
