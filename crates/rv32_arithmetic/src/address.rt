//! Where jumps and branches lead, and where loads and stores go.

ghost use Rattle.std.specs.Prelude.{◌≡◌};
ghost use Rattle.rv32_table.specs.Meaning.{target_of, jump_target};

/// The word that lies `offset` after `from`, modulo 2^32: the target of JAL and of a branch, from the pc, and the
/// address of a load or a store, from the value of rs1. (RV32I, Control Transfer Instructions, Load and Store
/// Instructions)
pub fn target(from: u32, offset: i32) -> u32
    ensures { result ≡ target_of from offset }
{
    from.wrapping_add_signed(offset)
}

/// The target of JALR, for the value `x` of rs1: the sum modulo 2^32, with its lowest bit cleared. (RV32I,
/// Unconditional Jumps)
pub fn jump_target(x: u32, imm: i32) -> u32
    ensures { result ≡ jump_target x imm }
{
    target(x, imm) / 2 * 2
}
