//! Words of an assembler (LLVM, `llvm-mc -triple riscv32 -mattr=+m`), and words that the manual leaves out.

use super::*;
use std::process::Abort;
use std::test::Fail;

fn jalr(rd: u8, rs1: u8, imm: i32) -> Instr {
    Instr::Jalr { rd, rs1, imm }
}

fn branch(op: BranchOp, rs1: u8, rs2: u8, offset: i32) -> Instr {
    Instr::Branch {
        op,
        rs1,
        rs2,
        offset,
    }
}

fn load(op: LoadOp, rd: u8, rs1: u8, imm: i32) -> Instr {
    Instr::Load { op, rd, rs1, imm }
}

fn store(op: StoreOp, rs1: u8, rs2: u8, imm: i32) -> Instr {
    Instr::Store { op, rs1, rs2, imm }
}

fn op_imm(op: ImmOp, rd: u8, rs1: u8, imm: i32) -> Instr {
    Instr::OpImm { op, rd, rs1, imm }
}

fn op(op: RegOp, rd: u8, rs1: u8, rs2: u8) -> Instr {
    Instr::Op { op, rd, rs1, rs2 }
}

/// Each word is the instruction beside it, both ways.
fn both_ways(rt: &impl Abort, rows: &[(u32, Instr)]) {
    for (word, instr) in rows {
        assert_eq!(rt; decode(*word), Some(*instr));
        assert!(rt; instr.fits());
        assert_eq!(rt; encode(instr), *word);
    }
}

/// LUI, AUIPC, JAL, fences and system calls.
#[test]
fn upper_jumps_and_fences(rt: HostRuntime) -> Result<(), Fail> {
    let rows = [
        (
            0x1234_50b7,
            Instr::Lui {
                rd: 1,
                imm: 0x1234_5000,
            },
        ),
        (
            0xffff_ffb7,
            Instr::Lui {
                rd: 31,
                imm: 0xffff_f000,
            },
        ),
        (
            0x0000_0017,
            Instr::Auipc {
                rd: 0,
                imm: 0x0000_0000,
            },
        ),
        (
            0x0000_1297,
            Instr::Auipc {
                rd: 5,
                imm: 0x0000_1000,
            },
        ),
        (
            0x0010_00ef,
            Instr::Jal {
                rd: 1,
                offset: 2_048,
            },
        ),
        (
            0x8000_006f,
            Instr::Jal {
                rd: 0,
                offset: -1_048_576,
            },
        ),
        (
            0x7fff_ffef,
            Instr::Jal {
                rd: 31,
                offset: 1_048_574,
            },
        ),
        (0xffff_f16f, Instr::Jal { rd: 2, offset: -2 }),
        (0x0ff0_000f, Instr::Fence { rest: 0x0ff0_0000 }),
        (0x0000_100f, Instr::FenceI { rest: 0 }),
        (0x0000_0073, Instr::Ecall),
        (0x0010_0073, Instr::Ebreak),
        (0xffff_8f8f, Instr::Fence { rest: 0xffff_8f80 }),
        (0xffff_9f8f, Instr::FenceI { rest: 0xffff_8f80 }),
    ];
    both_ways(&rt, &rows);
    Ok(())
}

/// JALR and the branches.
#[test]
fn branches(rt: HostRuntime) -> Result<(), Fail> {
    let rows = [
        (0x0001_00e7, jalr(1, 2, 0)),
        (0x800f_8067, jalr(0, 31, -2_048)),
        (0x7ff3_02e7, jalr(5, 6, 2_047)),
        (0x8020_8063, branch(BranchOp::Beq, 1, 2, -4_096)),
        (0x7e41_9fe3, branch(BranchOp::Bne, 3, 4, 4_094)),
        (0x0062_c0e3, branch(BranchOp::Blt, 5, 6, 2_048)),
        (0xfe83_dfe3, branch(BranchOp::Bge, 7, 8, -2)),
        (0x00a4_e063, branch(BranchOp::Bltu, 9, 10, 0)),
        (0x01ef_ff63, branch(BranchOp::Bgeu, 31, 30, 30)),
    ];
    both_ways(&rt, &rows);
    Ok(())
}

/// Loads and stores.
#[test]
fn loads_and_stores(rt: HostRuntime) -> Result<(), Fail> {
    let rows = [
        (0xfff1_0083, load(LoadOp::Lb, 1, 2, -1)),
        (0x7ff2_1183, load(LoadOp::Lh, 3, 4, 2_047)),
        (0x8003_2283, load(LoadOp::Lw, 5, 6, -2_048)),
        (0x0004_4383, load(LoadOp::Lbu, 7, 8, 0)),
        (0x5555_5483, load(LoadOp::Lhu, 9, 10, 1_365)),
        (0xfe11_0fa3, store(StoreOp::Sb, 2, 1, -1)),
        (0x7e32_1fa3, store(StoreOp::Sh, 4, 3, 2_047)),
        (0x8053_2023, store(StoreOp::Sw, 6, 5, -2_048)),
    ];
    both_ways(&rt, &rows);
    Ok(())
}

/// Operations with an immediate.
#[test]
fn immediates(rt: HostRuntime) -> Result<(), Fail> {
    let rows = [
        (0x05d0_0893, op_imm(ImmOp::Addi, 17, 0, 93)),
        (0x0000_0013, op_imm(ImmOp::Addi, 0, 0, 0)),
        (0x8001_2093, op_imm(ImmOp::Slti, 1, 2, -2_048)),
        (0xfff2_3193, op_imm(ImmOp::Sltiu, 3, 4, -1)),
        (0x7ff3_4293, op_imm(ImmOp::Xori, 5, 6, 2_047)),
        (0x0014_6393, op_imm(ImmOp::Ori, 7, 8, 1)),
        (0xffe5_7493, op_imm(ImmOp::Andi, 9, 10, -2)),
        (0x01f1_1093, op_imm(ImmOp::Slli, 1, 2, 31)),
        (0x0002_5193, op_imm(ImmOp::Srli, 3, 4, 0)),
        (0x41f3_5293, op_imm(ImmOp::Srai, 5, 6, 31)),
    ];
    both_ways(&rt, &rows);
    Ok(())
}

/// Operations on registers.
#[test]
fn registers(rt: HostRuntime) -> Result<(), Fail> {
    let rows = [
        (0x0031_00b3, op(RegOp::Add, 1, 2, 3)),
        (0x4062_8233, op(RegOp::Sub, 4, 5, 6)),
        (0x0094_13b3, op(RegOp::Sll, 7, 8, 9)),
        (0x00c5_a533, op(RegOp::Slt, 10, 11, 12)),
        (0x00f7_36b3, op(RegOp::Sltu, 13, 14, 15)),
        (0x0128_c833, op(RegOp::Xor, 16, 17, 18)),
        (0x015a_59b3, op(RegOp::Srl, 19, 20, 21)),
        (0x418b_db33, op(RegOp::Sra, 22, 23, 24)),
        (0x01bd_6cb3, op(RegOp::Or, 25, 26, 27)),
        (0x01ee_fe33, op(RegOp::And, 28, 29, 30)),
    ];
    both_ways(&rt, &rows);
    Ok(())
}

/// Multiplications and divisions.
#[test]
fn multiplications(rt: HostRuntime) -> Result<(), Fail> {
    let rows = [
        (0x03f0_0fb3, op(RegOp::Mul, 31, 0, 31)),
        (0x0231_10b3, op(RegOp::Mulh, 1, 2, 3)),
        (0x0262_a233, op(RegOp::Mulhsu, 4, 5, 6)),
        (0x0294_33b3, op(RegOp::Mulhu, 7, 8, 9)),
        (0x02c5_c533, op(RegOp::Div, 10, 11, 12)),
        (0x02f7_56b3, op(RegOp::Divu, 13, 14, 15)),
        (0x0328_e833, op(RegOp::Rem, 16, 17, 18)),
        (0x035a_79b3, op(RegOp::Remu, 19, 20, 21)),
    ];
    both_ways(&rt, &rows);
    Ok(())
}

/// Of the words with an opcode and no other bit, eleven are instructions.
#[test]
fn opcodes(rt: HostRuntime) -> Result<(), Fail> {
    let legal = [
        0x37, 0x17, 0x6f, 0x67, 0x63, 0x03, 0x23, 0x13, 0x33, 0x0f, 0x73,
    ];
    for word in 0..128u32 {
        assert_eq!(rt; decode(word).is_some(), legal.contains(&word), "{word}");
    }
    Ok(())
}

/// Values of funct3 and funct7 that no row has, shift amounts with bit 25 set, and no bits at all or all bits.
#[test]
fn reserved(rt: HostRuntime) -> Result<(), Fail> {
    let words = [
        0x0000_1067,
        0x0000_2067,
        0x0000_3067,
        0x0000_4067,
        0x0000_5067,
        0x0000_6067,
        0x0000_7067,
        0x0000_2063,
        0x0000_3063,
        0x0000_3003,
        0x0000_6003,
        0x0000_7003,
        0x0000_3023,
        0x0000_4023,
        0x0000_5023,
        0x0000_6023,
        0x0000_7023,
        0x0000_200f,
        0x0000_300f,
        0x0000_400f,
        0x0000_500f,
        0x0000_600f,
        0x0000_700f,
        0x0200_1013,
        0x0200_5013,
        0x4200_5013,
        0x4000_1013,
        0x8000_5013,
        0x4000_1033,
        0x4000_2033,
        0x4000_3033,
        0x4000_4033,
        0x4000_6033,
        0x4000_7033,
        0x0400_0033,
        0x0600_0033,
        0x8000_0033,
        0x4200_0033,
        0x0000_1073,
        0x0000_0000,
        0xffff_ffff,
    ];
    for word in words {
        assert_eq!(rt; decode(word), None, "{word}");
    }
    Ok(())
}

/// ECALL and EBREAK with one bit above the opcode changed: each is the other with bit 20, and else no instruction.
#[test]
fn changed_calls(rt: HostRuntime) -> Result<(), Fail> {
    for bit in 7..32u32 {
        let changed = 1u32 << bit;
        let ecall = if bit == 20 { Some(Instr::Ebreak) } else { None };
        assert_eq!(rt; decode(0x0000_0073 ^ changed), ecall, "{bit}");
        let ebreak = if bit == 20 { Some(Instr::Ecall) } else { None };
        assert_eq!(rt; decode(0x0010_0073 ^ changed), ebreak, "{bit}");
    }
    Ok(())
}

/// Instructions that have no word.
#[test]
fn refused(rt: HostRuntime) -> Result<(), Fail> {
    let instrs = [
        Instr::Lui { rd: 32, imm: 0 },
        Instr::Lui { rd: 1, imm: 4095 },
        Instr::Auipc { rd: 1, imm: 1 },
        Instr::Jal { rd: 1, offset: 1 },
        Instr::Jal {
            rd: 1,
            offset: 1_048_576,
        },
        Instr::Jal {
            rd: 1,
            offset: -1_048_578,
        },
        jalr(1, 32, 0),
        jalr(1, 2, 2_048),
        branch(BranchOp::Beq, 1, 2, 3),
        branch(BranchOp::Beq, 1, 2, 4_096),
        branch(BranchOp::Beq, 1, 2, -4_098),
        branch(BranchOp::Beq, 1, 32, 0),
        load(LoadOp::Lw, 1, 2, -2_049),
        store(StoreOp::Sw, 255, 2, 0),
        store(StoreOp::Sw, 1, 2, 2_048),
        op_imm(ImmOp::Addi, 1, 2, 2_048),
        op_imm(ImmOp::Slli, 1, 2, 32),
        op_imm(ImmOp::Srai, 1, 2, -1),
        op(RegOp::Add, 1, 2, 32),
        Instr::Fence { rest: 0x0000_0001 },
        Instr::FenceI { rest: 0x0000_1000 },
    ];
    for instr in instrs {
        assert_eq!(rt; instr.fits(), false);
    }
    Ok(())
}
