//! The cost of each instruction in cycles.
//!
//! Plain instructions cost 1, taken jumps and branches 2, loads and stores 2, multiplications 3, divisions and
//! remainders 34, and a host call 10 and one for each byte that it moves. The numbers are this project's own; they
//! stand in `specs/Costs.antt`.
#![tactic(auto)]

ghost use Rattle.std.specs.Prelude.{◌≡◌, ◌^◌, ◌<◌};
ghost use Rattle.cycle_table.specs.Costs.{cost_of, register_cost};

use rv32_table::{Instr, RegOp};

#[cfg(test)]
mod tests;

/// The cycles of a plain instruction, fences, EBREAK and a branch that isn't taken among them.
const PLAIN: u64 = 1;

/// The cycles of a taken jump or branch.
const JUMP: u64 = 2;

/// The cycles of a load or a store.
const ACCESS: u64 = 2;

/// The cycles of a multiplication.
const MULTIPLY: u64 = 3;

/// The cycles of a division.
const DIVIDE: u64 = 34;

/// The cycles of a host call that moves no byte.
const CALL: u64 = 10;

/// The cycles of an instruction that ends without a trap. `taken` says whether a branch is taken; JAL and JALR always
/// are. `moved` is how many bytes a host call moves. Other instructions ignore both.
pub fn cost(instr: &Instr, taken: bool, moved: u64) -> u64
    requires { moved < 2 ^ 32 }
    ensures { result ≡ cost_of instr.now taken moved }
{
    match *instr {
        Instr::Lui { .. } | Instr::Auipc { .. } | Instr::OpImm { .. } => PLAIN,
        Instr::Fence { .. } | Instr::FenceI { .. } | Instr::Ebreak => PLAIN,
        Instr::Jal { .. } | Instr::Jalr { .. } => JUMP,
        Instr::Branch { .. } if taken => JUMP,
        Instr::Branch { .. } => PLAIN,
        Instr::Load { .. } | Instr::Store { .. } => ACCESS,
        Instr::Op { op, .. } => register_cost(op),
        Instr::Ecall => CALL + moved,
    }
}

/// The cycles of an operation on registers.
fn register_cost(op: RegOp) -> u64
    ensures { result ≡ register_cost op }
{
    match op {
        RegOp::Mul | RegOp::Mulh | RegOp::Mulhsu | RegOp::Mulhu => MULTIPLY,
        RegOp::Div | RegOp::Divu | RegOp::Rem | RegOp::Remu => DIVIDE,
        _ => PLAIN,
    }
}
