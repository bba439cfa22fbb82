//! From a word to its instruction.

ghost use Rattle.std.specs.Prelude.{◌≡◌, ◌↔◌, All, IfSome, None};
ghost use Rattle.rv32_table.specs.Fits.{Fits};
ghost use Rattle.rv32_table.specs.Table.{table, Matches, decoded};
ghost use Rattle.rv32_table.specs.Encoded.{encoded};
ghost use Rattle.rv32_table.specs.Fields.{opcode_of};
ghost use Rattle.rv32_table.specs.ByFields.{by_opcode, jump_by_fields, branch_at, branch_by_fields, load_at};
ghost use Rattle.rv32_table.specs.ByFields.{load_by_fields, store_at, store_by_fields, immediate_at, shift_at};
ghost use Rattle.rv32_table.specs.ByFields.{op_imm_by_fields, register_at, plain_at, other_at, multiply_at};
ghost use Rattle.rv32_table.specs.ByFields.{op_by_fields, fence_by_fields, system_by_fields, shift_by_fields};
ghost use Rattle.rv32_table.specs.ByFields.{immediate_by_fields, plain_shift_at, sign_shift_at};

use crate::fields::{
    funct3, funct7, immediate_b, immediate_i, immediate_j, immediate_s, immediate_u, opcode, rd,
    rest, rs1, rs2,
};
use crate::instruction::{BranchOp, ImmOp, Instr, LoadOp, RegOp, StoreOp};
use crate::opcode::{
    AUIPC, BRANCH, EBREAK, ECALL, FENCE, JAL, JALR, LOAD, LUI, OP, OP_IMM, STORE, SYSTEM,
};

/// The branch with this funct3.
fn branch_op(funct3: u32) -> Option<BranchOp>
    ensures { result ≡ branch_at funct3 }
{
    match funct3 {
        0 => Some(BranchOp::Beq),
        1 => Some(BranchOp::Bne),
        4 => Some(BranchOp::Blt),
        5 => Some(BranchOp::Bge),
        6 => Some(BranchOp::Bltu),
        7 => Some(BranchOp::Bgeu),
        _ => None,
    }
}

/// The load with this funct3.
fn load_op(funct3: u32) -> Option<LoadOp>
    ensures { result ≡ load_at funct3 }
{
    match funct3 {
        0 => Some(LoadOp::Lb),
        1 => Some(LoadOp::Lh),
        2 => Some(LoadOp::Lw),
        4 => Some(LoadOp::Lbu),
        5 => Some(LoadOp::Lhu),
        _ => None,
    }
}

/// The store with this funct3.
fn store_op(funct3: u32) -> Option<StoreOp>
    ensures { result ≡ store_at funct3 }
{
    match funct3 {
        0 => Some(StoreOp::Sb),
        1 => Some(StoreOp::Sh),
        2 => Some(StoreOp::Sw),
        _ => None,
    }
}

/// The operation with an immediate that isn't a shift, with this funct3.
fn immediate_op(funct3: u32) -> Option<ImmOp>
    ensures { result ≡ immediate_at funct3 }
{
    match funct3 {
        0 => Some(ImmOp::Addi),
        2 => Some(ImmOp::Slti),
        3 => Some(ImmOp::Sltiu),
        4 => Some(ImmOp::Xori),
        6 => Some(ImmOp::Ori),
        7 => Some(ImmOp::Andi),
        _ => None,
    }
}

/// The shift by an immediate with this funct7 and funct3.
fn shift_op(funct7: u32, funct3: u32) -> Option<ImmOp>
    ensures { result ≡ shift_at funct7 funct3 }
{
    match funct7 {
        0 => plain_shift_op(funct3),
        0b010_0000 => sign_shift_op(funct3),
        _ => None,
    }
}

/// The shift by an immediate with the funct7 0 and this funct3.
fn plain_shift_op(funct3: u32) -> Option<ImmOp>
    ensures { result ≡ plain_shift_at funct3 }
{
    match funct3 {
        1 => Some(ImmOp::Slli),
        5 => Some(ImmOp::Srli),
        _ => None,
    }
}

/// The shift by an immediate with the funct7 0100000 and this funct3.
fn sign_shift_op(funct3: u32) -> Option<ImmOp>
    ensures { result ≡ sign_shift_at funct3 }
{
    match funct3 {
        5 => Some(ImmOp::Srai),
        _ => None,
    }
}

/// The operation on registers with this funct7 and funct3.
fn register_op(funct7: u32, funct3: u32) -> Option<RegOp>
    ensures { result ≡ register_at funct7 funct3 }
{
    match funct7 {
        0 => plain_op(funct3),
        0b010_0000 => other_op(funct3),
        1 => multiply_op(funct3),
        _ => None,
    }
}

/// The operation on registers with the funct7 0 and this funct3.
fn plain_op(funct3: u32) -> Option<RegOp>
    ensures { result ≡ plain_at funct3 }
{
    match funct3 {
        0 => Some(RegOp::Add),
        1 => Some(RegOp::Sll),
        2 => Some(RegOp::Slt),
        3 => Some(RegOp::Sltu),
        4 => Some(RegOp::Xor),
        5 => Some(RegOp::Srl),
        6 => Some(RegOp::Or),
        7 => Some(RegOp::And),
        _ => None,
    }
}

/// The operation on registers with the funct7 0100000 and this funct3.
fn other_op(funct3: u32) -> Option<RegOp>
    ensures { result ≡ other_at funct3 }
{
    match funct3 {
        0 => Some(RegOp::Sub),
        5 => Some(RegOp::Sra),
        _ => None,
    }
}

/// The multiplication or division with this funct3.
fn multiply_op(funct3: u32) -> Option<RegOp>
    ensures { result ≡ multiply_at funct3 }
{
    match funct3 {
        0 => Some(RegOp::Mul),
        1 => Some(RegOp::Mulh),
        2 => Some(RegOp::Mulhsu),
        3 => Some(RegOp::Mulhu),
        4 => Some(RegOp::Div),
        5 => Some(RegOp::Divu),
        6 => Some(RegOp::Rem),
        7 => Some(RegOp::Remu),
        _ => None,
    }
}

/// A word with the opcode of JALR.
fn decode_jalr(word: u32) -> Option<Instr>
    ensures { result ≡ jump_by_fields word }
{
    if funct3(word) != 0 {
        return None;
    }
    Some(Instr::Jalr {
        rd: rd(word),
        rs1: rs1(word),
        imm: immediate_i(word),
    })
}

/// A word with the opcode of the branches.
fn decode_branch(word: u32) -> Option<Instr>
    ensures { result ≡ branch_by_fields word }
{
    Some(Instr::Branch {
        op: branch_op(funct3(word))?,
        rs1: rs1(word),
        rs2: rs2(word),
        offset: immediate_b(word),
    })
}

/// A word with the opcode of the loads.
fn decode_load(word: u32) -> Option<Instr>
    ensures { result ≡ load_by_fields word }
{
    Some(Instr::Load {
        op: load_op(funct3(word))?,
        rd: rd(word),
        rs1: rs1(word),
        imm: immediate_i(word),
    })
}

/// A word with the opcode of the stores.
fn decode_store(word: u32) -> Option<Instr>
    ensures { result ≡ store_by_fields word }
{
    Some(Instr::Store {
        op: store_op(funct3(word))?,
        rs1: rs1(word),
        rs2: rs2(word),
        imm: immediate_s(word),
    })
}

/// A word with the opcode of the operations with an immediate.
fn decode_op_imm(word: u32) -> Option<Instr>
    ensures { result ≡ op_imm_by_fields word }
{
    match funct3(word) {
        1 | 5 => decode_shift(word),
        _ => decode_immediate(word),
    }
}

/// A word with the opcode of the operations with an immediate and a funct3 of the shifts.
fn decode_shift(word: u32) -> Option<Instr>
    ensures { result ≡ shift_by_fields word }
{
    Some(Instr::OpImm {
        op: shift_op(funct7(word), funct3(word))?,
        rd: rd(word),
        rs1: rs1(word),
        imm: i32::from(rs2(word)),
    })
}

/// A word with the opcode of the operations with an immediate and another funct3.
fn decode_immediate(word: u32) -> Option<Instr>
    ensures { result ≡ immediate_by_fields word }
{
    Some(Instr::OpImm {
        op: immediate_op(funct3(word))?,
        rd: rd(word),
        rs1: rs1(word),
        imm: immediate_i(word),
    })
}

/// A word with the opcode of the operations on registers.
fn decode_op(word: u32) -> Option<Instr>
    ensures { result ≡ op_by_fields word }
{
    Some(Instr::Op {
        op: register_op(funct7(word), funct3(word))?,
        rd: rd(word),
        rs1: rs1(word),
        rs2: rs2(word),
    })
}

/// A word with the opcode of the fences.
fn decode_fence(word: u32) -> Option<Instr>
    ensures { result ≡ fence_by_fields word }
{
    match funct3(word) {
        0 => Some(Instr::Fence { rest: rest(word) }),
        1 => Some(Instr::FenceI { rest: rest(word) }),
        _ => None,
    }
}

/// A word with the opcode of ECALL and EBREAK.
fn decode_system(word: u32) -> Option<Instr>
    ensures { result ≡ system_by_fields word }
{
    match word {
        ECALL => Some(Instr::Ecall),
        EBREAK => Some(Instr::Ebreak),
        _ => None,
    }
}

/// The instruction that a word is, and None exactly where the word is illegal: it matches no row of the instruction
/// table. It fits, and its word is this one.
#[inline(always)]
pub fn decode(word: u32) -> Option<Instr>
    ensures row { result ≡ decoded word }
    ensures illegal { (result ≡ None) ↔ All (λ row. ¬ Matches word row) table }
    ensures fits { IfSome result Fits }
    ensures back { IfSome result (λ instr. encoded instr ≡ word) }
{
    decode_fields(word)
}

/// The instruction that a word is by its fields.
#[inline(always)]
fn decode_fields(word: u32) -> Option<Instr>
    ensures { result ≡ by_opcode (opcode_of word) word }
{
    match opcode(word) {
        LUI => Some(Instr::Lui {
            rd: rd(word),
            imm: immediate_u(word),
        }),
        AUIPC => Some(Instr::Auipc {
            rd: rd(word),
            imm: immediate_u(word),
        }),
        JAL => Some(Instr::Jal {
            rd: rd(word),
            offset: immediate_j(word),
        }),
        JALR => decode_jalr(word),
        BRANCH => decode_branch(word),
        LOAD => decode_load(word),
        STORE => decode_store(word),
        OP_IMM => decode_op_imm(word),
        OP => decode_op(word),
        FENCE => decode_fence(word),
        SYSTEM => decode_system(word),
        _ => None,
    }
}
