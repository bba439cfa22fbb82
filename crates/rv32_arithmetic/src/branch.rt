//! Which branches are taken. (RV32I, Conditional Branches)

ghost use Rattle.std.specs.Prelude.{◌≡◌, int_lt};
ghost use Rattle.rv32_table.specs.Meaning.{branch_meaning, signed_of};

use crate::word::signed;
use rv32_table::BranchOp;

/// Whether a branch is taken, for the values `x` of rs1 and `y` of rs2. (RV32I, Conditional Branches)
#[tactic(auto, unfolding(rv32_table::specs::Meaning::branch_meaning))]
pub fn is_taken(op: BranchOp, x: u32, y: u32) -> bool
    ensures { result ≡ branch_meaning op x y }
{
    match op {
        BranchOp::Beq => x == y,
        BranchOp::Bne => x != y,
        BranchOp::Blt => is_less(x, y),
        BranchOp::Bge => !is_less(x, y),
        BranchOp::Bltu => x < y,
        BranchOp::Bgeu => x >= y,
    }
}

/// Whether `x` is less, both signed.
fn is_less(x: u32, y: u32) -> bool
    ensures { result ≡ int_lt (signed_of x) (signed_of y) }
{
    signed(x) < signed(y)
}
