//! The operations on a register and an immediate. (RV32I, Integer Register-Immediate Instructions)

ghost use Rattle.std.specs.Prelude.{◌≡◌};
ghost use Rattle.rv32_table.specs.Meaning.{immediate_meaning, register_form};

use crate::register::operate;
use crate::word::low_word;
use rv32_table::{ImmOp, RegOp};

/// What an operation on a register and an immediate answers, for the value `x` of rs1 and the sign-extended immediate:
/// what the operation on two registers does for the word that the immediate is. So SLTIU reads the immediate as
/// unsigned, and a shift takes its low five bits. (RV32I, Integer Register-Immediate Instructions)
pub fn operate_immediate(op: ImmOp, x: u32, imm: i32) -> u32
    ensures { result ≡ immediate_meaning op x imm }
{
    operate(register_form(op), x, low_word(imm))
}

/// The operation on two registers that an operation with an immediate is.
fn register_form(op: ImmOp) -> RegOp
    ensures { result ≡ register_form op }
{
    match op {
        ImmOp::Addi => RegOp::Add,
        ImmOp::Slti => RegOp::Slt,
        ImmOp::Sltiu => RegOp::Sltu,
        ImmOp::Xori => RegOp::Xor,
        ImmOp::Ori => RegOp::Or,
        ImmOp::Andi => RegOp::And,
        ImmOp::Slli => RegOp::Sll,
        ImmOp::Srli => RegOp::Srl,
        ImmOp::Srai => RegOp::Sra,
    }
}
