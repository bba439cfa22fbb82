//! From an instruction to its word.

ghost use Rattle.std.specs.Prelude.{◌≡◌, ◌+◌, ◌*◌, ◌%◌, ◌^◌, ◌<◌, ◌≤◌};
ghost use Rattle.rv32_table.specs.Fits.{Fits};
ghost use Rattle.rv32_table.specs.Table.{decoded};
ghost use Rattle.rv32_table.specs.Encoded.{encoded, part, word_of, word_i, word_s, word_b, word_u, word_j, word_op_imm};
ghost use Rattle.rv32_table.specs.Encoded.{branch_funct3, load_funct3, store_funct3, immediate_funct3, shift_funct7};
ghost use Rattle.rv32_table.specs.Encoded.{register_funct3, register_funct7};

use crate::fields::field;
use crate::instruction::{BranchOp, ImmOp, Instr, LoadOp, RegOp, StoreOp};
use crate::opcode::{AUIPC, BRANCH, EBREAK, ECALL, FENCE, JAL, JALR, LOAD, LUI, OP, OP_IMM, STORE};

/// The funct3 of a branch.
fn branch_funct3(op: BranchOp) -> u32
    ensures value { result ≡ branch_funct3 op }
    ensures below { result < 8 }
{
    match op {
        BranchOp::Beq => 0,
        BranchOp::Bne => 1,
        BranchOp::Blt => 4,
        BranchOp::Bge => 5,
        BranchOp::Bltu => 6,
        BranchOp::Bgeu => 7,
    }
}

/// The funct3 of a load.
fn load_funct3(op: LoadOp) -> u32
    ensures value { result ≡ load_funct3 op }
    ensures below { result < 8 }
{
    match op {
        LoadOp::Lb => 0,
        LoadOp::Lh => 1,
        LoadOp::Lw => 2,
        LoadOp::Lbu => 4,
        LoadOp::Lhu => 5,
    }
}

/// The funct3 of a store.
fn store_funct3(op: StoreOp) -> u32
    ensures value { result ≡ store_funct3 op }
    ensures below { result < 8 }
{
    match op {
        StoreOp::Sb => 0,
        StoreOp::Sh => 1,
        StoreOp::Sw => 2,
    }
}

/// The funct3 of an operation with an immediate.
fn immediate_funct3(op: ImmOp) -> u32
    ensures value { result ≡ immediate_funct3 op }
    ensures below { result < 8 }
{
    match op {
        ImmOp::Addi => 0,
        ImmOp::Slli => 1,
        ImmOp::Slti => 2,
        ImmOp::Sltiu => 3,
        ImmOp::Xori => 4,
        ImmOp::Srli | ImmOp::Srai => 5,
        ImmOp::Ori => 6,
        ImmOp::Andi => 7,
    }
}

/// The funct7 of a shift by an immediate; 0 for the other operations, which have none.
fn shift_funct7(op: ImmOp) -> u32
    ensures value { result ≡ shift_funct7 op }
    ensures below { result < 128 }
{
    match op {
        ImmOp::Srai => 0b010_0000,
        _ => 0,
    }
}

/// The funct3 of an operation on registers.
fn register_funct3(op: RegOp) -> u32
    ensures value { result ≡ register_funct3 op }
    ensures below { result < 8 }
{
    match op {
        RegOp::Add | RegOp::Sub | RegOp::Mul => 0,
        RegOp::Sll | RegOp::Mulh => 1,
        RegOp::Slt | RegOp::Mulhsu => 2,
        RegOp::Sltu | RegOp::Mulhu => 3,
        RegOp::Xor | RegOp::Div => 4,
        RegOp::Srl | RegOp::Sra | RegOp::Divu => 5,
        RegOp::Or | RegOp::Rem => 6,
        RegOp::And | RegOp::Remu => 7,
    }
}

/// The funct7 of an operation on registers.
fn register_funct7(op: RegOp) -> u32
    ensures value { result ≡ register_funct7 op }
    ensures below { result < 128 }
{
    match op {
        RegOp::Sub | RegOp::Sra => 0b010_0000,
        RegOp::Mul
        | RegOp::Mulh
        | RegOp::Mulhsu
        | RegOp::Mulhu
        | RegOp::Div
        | RegOp::Divu
        | RegOp::Rem
        | RegOp::Remu => 1,
        _ => 0,
    }
}

/// The word with these fields.
#[tactic(auto, unfolding(crate::specs::Encoded::word_of))]
fn word_of(opcode: u32, rd: u32, funct3: u32, rs1: u32, rs2: u32, funct7: u32) -> u32
    requires opcode { opcode < 128 }
    requires rd { rd < 32 }
    requires funct3 { funct3 < 8 }
    requires rs1 { rs1 < 32 }
    requires rs2 { rs2 < 32 }
    requires funct7 { funct7 < 128 }
    ensures { result ≡ word_of opcode rd funct3 rs1 rs2 funct7 }
{
    let low = opcode + (rd << 7) + (funct3 << 12);
    let high = (rs1 << 15) + (rs2 << 20) + (funct7 << 25);
    low + high
}

/// So many bits of a number in two's complement, from the bit `low` on.
fn part(number: i32, low: u32, count: u32) -> u32
    requires part { count < 32 }
    requires inside { low + count ≤ 32 }
    requires below { low < 32 }
    ensures { result ≡ part number low count }
{
    field(number.cast_unsigned(), low, count)
}

/// A word of the form I.
fn word_i(opcode: u32, rd: u8, funct3: u32, rs1: u8, imm: i32) -> u32
    requires opcode { opcode < 128 }
    requires rd { rd < 32 }
    requires funct3 { funct3 < 8 }
    requires rs1 { rs1 < 32 }
    ensures { result ≡ word_i opcode rd funct3 rs1 imm }
{
    let (low, high) = (part(imm, 0, 5), part(imm, 5, 7));
    word_of(opcode, u32::from(rd), funct3, u32::from(rs1), low, high)
}

/// A word of the form S.
fn word_s(opcode: u32, funct3: u32, rs1: u8, rs2: u8, imm: i32) -> u32
    requires opcode { opcode < 128 }
    requires funct3 { funct3 < 8 }
    requires rs1 { rs1 < 32 }
    requires rs2 { rs2 < 32 }
    ensures { result ≡ word_s opcode funct3 rs1 rs2 imm }
{
    let (low, high) = (part(imm, 0, 5), part(imm, 5, 7));
    word_of(opcode, low, funct3, u32::from(rs1), u32::from(rs2), high)
}

/// A word of the form B.
fn word_b(opcode: u32, funct3: u32, rs1: u8, rs2: u8, offset: i32) -> u32
    requires opcode { opcode < 128 }
    requires funct3 { funct3 < 8 }
    requires rs1 { rs1 < 32 }
    requires rs2 { rs2 < 32 }
    ensures { result ≡ word_b opcode funct3 rs1 rs2 offset }
{
    let low = (part(offset, 1, 4) << 1) + part(offset, 11, 1);
    let high = (part(offset, 12, 1) << 6) + part(offset, 5, 6);
    word_of(opcode, low, funct3, u32::from(rs1), u32::from(rs2), high)
}

/// A word of the form U.
fn word_u(opcode: u32, rd: u8, imm: u32) -> u32
    requires opcode { opcode < 128 }
    requires rd { rd < 32 }
    requires low { imm % 2 ^ 12 ≡ 0 }
    ensures { result ≡ word_u opcode rd imm }
{
    opcode + (u32::from(rd) << 7) + imm
}

/// A word of the form J.
fn word_j(opcode: u32, rd: u8, offset: i32) -> u32
    requires opcode { opcode < 128 }
    requires rd { rd < 32 }
    ensures { result ≡ word_j opcode rd offset }
{
    let low = opcode + (u32::from(rd) << 7);
    let middle = (part(offset, 12, 8) << 12) + (part(offset, 11, 1) << 20);
    let high = (part(offset, 1, 10) << 21) + (part(offset, 20, 1) << 31);
    low + middle + high
}

/// The word of an operation with an immediate.
fn word_op_imm(op: ImmOp, rd: u8, rs1: u8, imm: i32) -> u32
    requires rd { rd < 32 }
    requires rs1 { rs1 < 32 }
    ensures { result ≡ word_op_imm op rd rs1 imm }
{
    if !op.is_shift() {
        return word_i(OP_IMM, rd, immediate_funct3(op), rs1, imm);
    }
    let (rd, rs1, amount) = (u32::from(rd), u32::from(rs1), part(imm, 0, 5));
    word_of(
        OP_IMM,
        rd,
        immediate_funct3(op),
        rs1,
        amount,
        shift_funct7(op),
    )
}

/// The word of an operation on registers.
fn word_op(op: RegOp, rd: u8, rs1: u8, rs2: u8) -> u32
    requires rd { rd < 32 }
    requires rs1 { rs1 < 32 }
    requires rs2 { rs2 < 32 }
    ensures { result ≡ word_of OP rd (register_funct3 op) rs1 rs2 (register_funct7 op) }
{
    let (rd, rs1, rs2) = (u32::from(rd), u32::from(rs1), u32::from(rs2));
    word_of(OP, rd, register_funct3(op), rs1, rs2, register_funct7(op))
}

/// The word of an instruction that fits, which [`crate::decode`] gives back.
pub fn encode(instr: &Instr) -> u32
    requires { Fits instr.now }
    ensures word { result ≡ encoded instr.now }
    ensures back { decoded result ≡ Some instr.now }
{
    encode_form(instr)
}

/// The word of an instruction, by its form.
fn encode_form(instr: &Instr) -> u32
    requires { Fits instr.now }
    ensures { result ≡ encoded instr.now }
{
    match *instr {
        Instr::Lui { rd, imm } => word_u(LUI, rd, imm),
        Instr::Auipc { rd, imm } => word_u(AUIPC, rd, imm),
        Instr::Jal { rd, offset } => word_j(JAL, rd, offset),
        Instr::Jalr { rd, rs1, imm } => word_i(JALR, rd, 0, rs1, imm),
        Instr::Branch {
            op,
            rs1,
            rs2,
            offset,
        } => word_b(BRANCH, branch_funct3(op), rs1, rs2, offset),
        Instr::Load { op, rd, rs1, imm } => word_i(LOAD, rd, load_funct3(op), rs1, imm),
        Instr::Store { op, rs1, rs2, imm } => word_s(STORE, store_funct3(op), rs1, rs2, imm),
        Instr::OpImm { op, rd, rs1, imm } => word_op_imm(op, rd, rs1, imm),
        Instr::Op { op, rd, rs1, rs2 } => word_op(op, rd, rs1, rs2),
        Instr::Fence { rest } => FENCE + rest,
        Instr::FenceI { rest } => FENCE + (1 << 12) + rest,
        Instr::Ecall => ECALL,
        Instr::Ebreak => EBREAK,
    }
}
