//! The words of the statements that are instructions: their names in lower case.

ghost use Rattle.std.specs.Prelude.{◌≡◌};
ghost use Rattle.rv32_asm.specs.Words.{branch_word, load_word, store_word, immediate_word, register_word};

use rv32_table::{BranchOp, ImmOp, LoadOp, RegOp, StoreOp};

/// The word of a branch.
pub(crate) fn branch_word(op: BranchOp) -> &'static str
    ensures { result.now ≡ branch_word op }
{
    match op {
        BranchOp::Beq => "beq",
        BranchOp::Bne => "bne",
        BranchOp::Blt => "blt",
        BranchOp::Bge => "bge",
        BranchOp::Bltu => "bltu",
        BranchOp::Bgeu => "bgeu",
    }
}

/// The word of a load.
pub(crate) fn load_word(op: LoadOp) -> &'static str
    ensures { result.now ≡ load_word op }
{
    match op {
        LoadOp::Lb => "lb",
        LoadOp::Lh => "lh",
        LoadOp::Lw => "lw",
        LoadOp::Lbu => "lbu",
        LoadOp::Lhu => "lhu",
    }
}

/// The word of a store.
pub(crate) fn store_word(op: StoreOp) -> &'static str
    ensures { result.now ≡ store_word op }
{
    match op {
        StoreOp::Sb => "sb",
        StoreOp::Sh => "sh",
        StoreOp::Sw => "sw",
    }
}

/// The word of an operation on a register and an immediate.
pub(crate) fn immediate_word(op: ImmOp) -> &'static str
    ensures { result.now ≡ immediate_word op }
{
    match op {
        ImmOp::Addi => "addi",
        ImmOp::Slti => "slti",
        ImmOp::Sltiu => "sltiu",
        ImmOp::Xori => "xori",
        ImmOp::Ori => "ori",
        ImmOp::Andi => "andi",
        ImmOp::Slli => "slli",
        ImmOp::Srli => "srli",
        ImmOp::Srai => "srai",
    }
}

/// The word of an operation on two registers.
pub(crate) fn register_word(op: RegOp) -> &'static str
    ensures { result.now ≡ register_word op }
{
    match op {
        RegOp::Add => "add",
        RegOp::Sub => "sub",
        RegOp::Sll => "sll",
        RegOp::Slt => "slt",
        RegOp::Sltu => "sltu",
        RegOp::Xor => "xor",
        RegOp::Srl => "srl",
        RegOp::Sra => "sra",
        RegOp::Or => "or",
        RegOp::And => "and",
        RegOp::Mul => "mul",
        RegOp::Mulh => "mulh",
        RegOp::Mulhsu => "mulhsu",
        RegOp::Mulhu => "mulhu",
        RegOp::Div => "div",
        RegOp::Divu => "divu",
        RegOp::Rem => "rem",
        RegOp::Remu => "remu",
    }
}
