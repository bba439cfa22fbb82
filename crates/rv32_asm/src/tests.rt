//! Statements, and the words that LLVM's assembler gives for them (`tools/statement_rows.py`).

mod assembling;
mod generating;

use super::*;
use std::alloc::Global;
use std::process::Abort;
use std::test::Fail;

/// The statement of each row's word is the row's text, appended to what stands there.
fn disassembled(rt: &impl Abort, alloc: Global, rows: &[(u32, &str)]) -> Result<(), Fail> {
    for (word, text) in rows {
        let mut into = Vec::new(alloc);
        into.push(b'>')?;
        assert_eq!(rt; disassemble(*word, &mut into), Ok(()));
        assert_eq!(rt; into.first().copied(), Some(b'>'));
        assert_eq!(rt; into.as_slice().get(1..), Some(text.as_bytes()), "{word}");
    }
    Ok(())
}

/// Jumps, branches, loads and stores, with the ends of each range.
#[test]
fn transfers_and_accesses(rt: HostRuntime) -> Result<(), Fail> {
    let rows = [
        (0x0000_0037, "lui x0, 0"),
        (0xffff_ffb7, "lui x31, 1048575"),
        (0x8000_04b7, "lui x9, 524288"),
        (0x0000_1097, "auipc x1, 1"),
        (0xffff_ef17, "auipc x30, 1048574"),
        (0x8000_006f, "jal x0, -1048576"),
        (0x7fff_ffef, "jal x31, 1048574"),
        (0xffff_f0ef, "jal x1, -2"),
        (0x0010_016f, "jal x2, 2048"),
        (0x0000_01ef, "jal x3, 0"),
        (0x0000_8067, "jalr x0, 0(x1)"),
        (0x800f_82e7, "jalr x5, -2048(x31)"),
        (0x7ff0_0fe7, "jalr x31, 2047(x0)"),
        (0x81f0_0063, "beq x0, x31, -4096"),
        (0x7f43_8fe3, "beq x7, x20, 4094"),
        (0xfe0f_8de3, "beq x31, x0, -6"),
        (0x81e0_9063, "bne x1, x30, -4096"),
        (0x7f54_1fe3, "bne x8, x21, 4094"),
        (0xfe0f_9ee3, "bne x31, x0, -4"),
        (0x81d1_4063, "blt x2, x29, -4096"),
        (0x7f64_cfe3, "blt x9, x22, 4094"),
        (0xfe0f_cfe3, "blt x31, x0, -2"),
        (0x81c1_d063, "bge x3, x28, -4096"),
        (0x7f75_5fe3, "bge x10, x23, 4094"),
        (0x000f_d063, "bge x31, x0, 0"),
        (0x81b2_6063, "bltu x4, x27, -4096"),
        (0x7f85_efe3, "bltu x11, x24, 4094"),
        (0x000f_e163, "bltu x31, x0, 2"),
        (0x81a2_f063, "bgeu x5, x26, -4096"),
        (0x7f96_7fe3, "bgeu x12, x25, 4094"),
        (0x000f_f263, "bgeu x31, x0, 4"),
        (0x800f_8003, "lb x0, -2048(x31)"),
        (0x7ff1_8583, "lb x11, 2047(x3)"),
        (0xffc0_0f83, "lb x31, -4(x0)"),
        (0x800f_1083, "lh x1, -2048(x30)"),
        (0x7ff2_1603, "lh x12, 2047(x4)"),
        (0xffd0_1f03, "lh x30, -3(x0)"),
        (0x800e_a103, "lw x2, -2048(x29)"),
        (0x7ff2_a683, "lw x13, 2047(x5)"),
        (0xffe0_2e83, "lw x29, -2(x0)"),
        (0x800e_4183, "lbu x3, -2048(x28)"),
        (0x7ff3_4703, "lbu x14, 2047(x6)"),
        (0xfff0_4e03, "lbu x28, -1(x0)"),
        (0x800d_d203, "lhu x4, -2048(x27)"),
        (0x7ff3_d783, "lhu x15, 2047(x7)"),
        (0x0000_5d83, "lhu x27, 0(x0)"),
        (0x805d_0023, "sb x5, -2048(x26)"),
        (0x7f04_0fa3, "sb x16, 2047(x8)"),
        (0x01a0_00a3, "sb x26, 1(x0)"),
        (0x806c_9023, "sh x6, -2048(x25)"),
        (0x7f14_9fa3, "sh x17, 2047(x9)"),
        (0x0190_1123, "sh x25, 2(x0)"),
        (0x807c_2023, "sw x7, -2048(x24)"),
        (0x7f25_2fa3, "sw x18, 2047(x10)"),
        (0x0180_21a3, "sw x24, 3(x0)"),
    ];
    disassembled(&rt, rt.alloc(), &rows)
}

/// Operations, with the ends of each range, fences and system calls.
#[test]
fn operations(rt: HostRuntime) -> Result<(), Fail> {
    let rows = [
        (0x800f_8013, "addi x0, x31, -2048"),
        (0x7ff2_8893, "addi x17, x5, 2047"),
        (0xffd0_8013, "addi x0, x1, -3"),
        (0x800f_2093, "slti x1, x30, -2048"),
        (0x7ff3_2913, "slti x18, x6, 2047"),
        (0xffe1_2013, "slti x0, x2, -2"),
        (0x800e_b113, "sltiu x2, x29, -2048"),
        (0x7ff3_b993, "sltiu x19, x7, 2047"),
        (0xfff1_b013, "sltiu x0, x3, -1"),
        (0x800e_4193, "xori x3, x28, -2048"),
        (0x7ff4_4a13, "xori x20, x8, 2047"),
        (0x0002_4013, "xori x0, x4, 0"),
        (0x800d_e213, "ori x4, x27, -2048"),
        (0x7ff4_ea93, "ori x21, x9, 2047"),
        (0x0012_e013, "ori x0, x5, 1"),
        (0x800d_7293, "andi x5, x26, -2048"),
        (0x7ff5_7b13, "andi x22, x10, 2047"),
        (0x0023_7013, "andi x0, x6, 2"),
        (0x000f_9093, "slli x1, x31, 0"),
        (0x01f0_1a13, "slli x20, x0, 31"),
        (0x0014_9013, "slli x0, x9, 1"),
        (0x000f_5113, "srli x2, x30, 0"),
        (0x01f0_da93, "srli x21, x1, 31"),
        (0x0085_5093, "srli x1, x10, 8"),
        (0x400e_d193, "srai x3, x29, 0"),
        (0x41f1_5b13, "srai x22, x2, 31"),
        (0x40f5_d113, "srai x2, x11, 15"),
        (0x00df_8033, "add x0, x31, x13"),
        (0x0000_8fb3, "add x31, x1, x0"),
        (0x40ef_00b3, "sub x1, x30, x14"),
        (0x4051_0f33, "sub x30, x2, x5"),
        (0x00fe_9133, "sll x2, x29, x15"),
        (0x00a1_9eb3, "sll x29, x3, x10"),
        (0x010e_21b3, "slt x3, x28, x16"),
        (0x00f2_2e33, "slt x28, x4, x15"),
        (0x011d_b233, "sltu x4, x27, x17"),
        (0x0142_bdb3, "sltu x27, x5, x20"),
        (0x012d_42b3, "xor x5, x26, x18"),
        (0x0193_4d33, "xor x26, x6, x25"),
        (0x013c_d333, "srl x6, x25, x19"),
        (0x01e3_dcb3, "srl x25, x7, x30"),
        (0x414c_53b3, "sra x7, x24, x20"),
        (0x4034_5c33, "sra x24, x8, x3"),
        (0x015b_e433, "or x8, x23, x21"),
        (0x0084_ebb3, "or x23, x9, x8"),
        (0x016b_74b3, "and x9, x22, x22"),
        (0x00d5_7b33, "and x22, x10, x13"),
        (0x037a_8533, "mul x10, x21, x23"),
        (0x0325_8ab3, "mul x21, x11, x18"),
        (0x038a_15b3, "mulh x11, x20, x24"),
        (0x0376_1a33, "mulh x20, x12, x23"),
        (0x0399_a633, "mulhsu x12, x19, x25"),
        (0x03c6_a9b3, "mulhsu x19, x13, x28"),
        (0x03a9_36b3, "mulhu x13, x18, x26"),
        (0x0217_3933, "mulhu x18, x14, x1"),
        (0x03b8_c733, "div x14, x17, x27"),
        (0x0267_c8b3, "div x17, x15, x6"),
        (0x03c8_57b3, "divu x15, x16, x28"),
        (0x02b8_5833, "divu x16, x16, x11"),
        (0x03d7_e833, "rem x16, x15, x29"),
        (0x0308_e7b3, "rem x15, x17, x16"),
        (0x03e7_78b3, "remu x17, x14, x30"),
        (0x0359_7733, "remu x14, x18, x21"),
        (0x0ff0_000f, "fence"),
        (0x0000_100f, "fence.i"),
        (0x0000_0073, "ecall"),
        (0x0010_0073, "ebreak"),
    ];
    disassembled(&rt, rt.alloc(), &rows)
}

/// Words that are no instruction, fences with other fields, and words that shorter statements stand for too.
#[test]
fn numbers(rt: HostRuntime) -> Result<(), Fail> {
    let rows = [
        (0x0000_0000, ".word 0"),
        (0xffff_ffff, ".word 4294967295"),
        (0x4000_1013, ".word 1073745939"),
        (0x0000_000f, ".word 15"),
        (0x0ff0_0f8f, ".word 267390863"),
        (0x8330_000f, ".word 2200961039"),
        (0x0010_100f, ".word 1052687"),
        (0x05d0_0893, "addi x17, x0, 93"),
        (0x0000_0013, "addi x0, x0, 0"),
        (0x0000_8067, "jalr x0, 0(x1)"),
        (0x0000_006f, "jal x0, 0"),
    ];
    disassembled(&rt, rt.alloc(), &rows)
}
