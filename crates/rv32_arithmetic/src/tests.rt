//! Values by the rules of the manual, computed over whole numbers in Python (`tools/arithmetic_values.py`).

use super::*;
use rv32_table::{BranchOp, ImmOp, LoadOp, RegOp, StoreOp};
use std::process::Abort;
use std::test::Fail;

mod told_apart;

/// The operation of each row answers the row's last word for the two before.
fn answers(rt: &impl Abort, rows: &[(RegOp, u32, u32, u32)]) {
    for (op, x, y, answer) in rows {
        assert_eq!(rt; operate(*op, *x, *y), *answer);
    }
}

/// Sums and differences wrap; comparisons at the ends of both readings.
#[test]
fn sums_and_comparisons(rt: HostRuntime) -> Result<(), Fail> {
    let rows = [
        (RegOp::Add, 0xffff_ffff, 1, 0),
        (RegOp::Add, 0x7fff_ffff, 1, 0x8000_0000),
        (RegOp::Add, 0x1234_5678, 0x9abc_def0, 0xacf1_3568),
        (RegOp::Sub, 0, 1, 0xffff_ffff),
        (RegOp::Sub, 0x8000_0000, 1, 0x7fff_ffff),
        (RegOp::Sub, 7, 7, 0),
        (RegOp::Xor, 0xff00_ff00, 0x0ff0_0ff0, 0xf0f0_f0f0),
        (RegOp::Or, 0xff00_ff00, 0x0ff0_0ff0, 0xfff0_fff0),
        (RegOp::And, 0xff00_ff00, 0x0ff0_0ff0, 0x0f00_0f00),
        (RegOp::Slt, 0x8000_0000, 0x7fff_ffff, 1),
        (RegOp::Slt, 0x7fff_ffff, 0x8000_0000, 0),
        (RegOp::Slt, 0xffff_ffff, 0, 1),
        (RegOp::Slt, 0, 0xffff_ffff, 0),
        (RegOp::Slt, 5, 5, 0),
        (RegOp::Slt, 4, 5, 1),
        (RegOp::Sltu, 0x8000_0000, 0x7fff_ffff, 0),
        (RegOp::Sltu, 0x7fff_ffff, 0x8000_0000, 1),
        (RegOp::Sltu, 0xffff_ffff, 0, 0),
        (RegOp::Sltu, 0, 0xffff_ffff, 1),
        (RegOp::Sltu, 5, 5, 0),
        (RegOp::Sltu, 4, 5, 1),
    ];
    answers(&rt, &rows);
    Ok(())
}

/// A shift is by the low five bits of its amount.
#[test]
fn shifts(rt: HostRuntime) -> Result<(), Fail> {
    let rows = [
        (RegOp::Sll, 0x8000_0081, 0, 0x8000_0081),
        (RegOp::Sll, 0x8000_0081, 1, 0x0000_0102),
        (RegOp::Sll, 0x8000_0081, 31, 0x8000_0000),
        (RegOp::Sll, 0x8000_0081, 32, 0x8000_0081),
        (RegOp::Sll, 0x8000_0081, 33, 0x0000_0102),
        (RegOp::Sll, 0x8000_0081, 0xffff_ffff, 0x8000_0000),
        (RegOp::Srl, 0x8000_0081, 0, 0x8000_0081),
        (RegOp::Srl, 0x8000_0081, 1, 0x4000_0040),
        (RegOp::Srl, 0x8000_0081, 31, 1),
        (RegOp::Srl, 0x8000_0081, 32, 0x8000_0081),
        (RegOp::Srl, 0x8000_0081, 33, 0x4000_0040),
        (RegOp::Srl, 0x8000_0081, 0xffff_ffff, 1),
        (RegOp::Sra, 0x8000_0081, 0, 0x8000_0081),
        (RegOp::Sra, 0x8000_0081, 1, 0xc000_0040),
        (RegOp::Sra, 0x8000_0081, 31, 0xffff_ffff),
        (RegOp::Sra, 0x8000_0081, 32, 0x8000_0081),
        (RegOp::Sra, 0x8000_0081, 33, 0xc000_0040),
        (RegOp::Sra, 0x8000_0081, 0xffff_ffff, 0xffff_ffff),
        (RegOp::Srl, 0x4000_0081, 33, 0x2000_0040),
        (RegOp::Sra, 0x4000_0081, 33, 0x2000_0040),
        (RegOp::Sll, 0xffff_ffff, 0xffff_ffe4, 0xffff_fff0),
        (RegOp::Srl, 0xffff_ffff, 0xffff_ffe4, 0x0fff_ffff),
    ];
    answers(&rt, &rows);
    Ok(())
}

/// Products of each mix of signs.
#[test]
fn products(rt: HostRuntime) -> Result<(), Fail> {
    let rows = [
        (RegOp::Mul, 0xffff_ffff, 0xffff_ffff, 1),
        (RegOp::Mul, 0x8000_0000, 0x8000_0000, 0),
        (RegOp::Mul, 0x8000_0000, 0xffff_ffff, 0x8000_0000),
        (RegOp::Mul, 0xffff_fff9, 3, 0xffff_ffeb),
        (RegOp::Mul, 3, 0xffff_fff9, 0xffff_ffeb),
        (RegOp::Mul, 0x7fff_ffff, 0x7fff_ffff, 1),
        (RegOp::Mul, 0x1234_5678, 0x9abc_def0, 0x242d_2080),
        (RegOp::Mulh, 0xffff_ffff, 0xffff_ffff, 0),
        (RegOp::Mulh, 0x8000_0000, 0x8000_0000, 0x4000_0000),
        (RegOp::Mulh, 0x8000_0000, 0xffff_ffff, 0),
        (RegOp::Mulh, 0xffff_fff9, 3, 0xffff_ffff),
        (RegOp::Mulh, 3, 0xffff_fff9, 0xffff_ffff),
        (RegOp::Mulh, 0x7fff_ffff, 0x7fff_ffff, 0x3fff_ffff),
        (RegOp::Mulh, 0x1234_5678, 0x9abc_def0, 0xf8cc_93d6),
        (RegOp::Mulhsu, 0xffff_ffff, 0xffff_ffff, 0xffff_ffff),
        (RegOp::Mulhsu, 0x8000_0000, 0x8000_0000, 0xc000_0000),
        (RegOp::Mulhsu, 0x8000_0000, 0xffff_ffff, 0x8000_0000),
        (RegOp::Mulhsu, 0xffff_fff9, 3, 0xffff_ffff),
        (RegOp::Mulhsu, 3, 0xffff_fff9, 2),
        (RegOp::Mulhsu, 0x7fff_ffff, 0x7fff_ffff, 0x3fff_ffff),
        (RegOp::Mulhsu, 0x1234_5678, 0x9abc_def0, 0x0b00_ea4e),
        (RegOp::Mulhu, 0xffff_ffff, 0xffff_ffff, 0xffff_fffe),
        (RegOp::Mulhu, 0x8000_0000, 0x8000_0000, 0x4000_0000),
        (RegOp::Mulhu, 0x8000_0000, 0xffff_ffff, 0x7fff_ffff),
        (RegOp::Mulhu, 0xffff_fff9, 3, 2),
        (RegOp::Mulhu, 3, 0xffff_fff9, 2),
        (RegOp::Mulhu, 0x7fff_ffff, 0x7fff_ffff, 0x3fff_ffff),
        (RegOp::Mulhu, 0x1234_5678, 0x9abc_def0, 0x0b00_ea4e),
    ];
    answers(&rt, &rows);
    Ok(())
}

/// Quotients and remainders by zero, of -2^31 by -1, and of each mix of signs.
#[test]
fn quotients(rt: HostRuntime) -> Result<(), Fail> {
    let rows = [
        (RegOp::Div, 7, 0, 0xffff_ffff),
        (RegOp::Div, 0xffff_fff9, 0, 0xffff_ffff),
        (RegOp::Div, 0, 0, 0xffff_ffff),
        (RegOp::Div, 0x8000_0000, 0xffff_ffff, 0x8000_0000),
        (RegOp::Div, 0x7fff_ffff, 0xffff_ffff, 0x8000_0001),
        (RegOp::Div, 0xffff_fff9, 2, 0xffff_fffd),
        (RegOp::Div, 7, 0xffff_fffe, 0xffff_fffd),
        (RegOp::Div, 0xffff_fff9, 0xffff_fffe, 3),
        (RegOp::Div, 7, 2, 3),
        (RegOp::Div, 0x8000_0000, 0x7fff_ffff, 0xffff_ffff),
        (RegOp::Rem, 7, 0, 7),
        (RegOp::Rem, 0xffff_fff9, 0, 0xffff_fff9),
        (RegOp::Rem, 0, 0, 0),
        (RegOp::Rem, 0x8000_0000, 0xffff_ffff, 0),
        (RegOp::Rem, 0x7fff_ffff, 0xffff_ffff, 0),
        (RegOp::Rem, 0xffff_fff9, 2, 0xffff_ffff),
        (RegOp::Rem, 7, 0xffff_fffe, 1),
        (RegOp::Rem, 0xffff_fff9, 0xffff_fffe, 0xffff_ffff),
        (RegOp::Rem, 7, 2, 1),
        (RegOp::Rem, 0x8000_0000, 0x7fff_ffff, 0xffff_ffff),
        (RegOp::Divu, 7, 0, 0xffff_ffff),
        (RegOp::Divu, 0xffff_ffff, 0, 0xffff_ffff),
        (RegOp::Divu, 0x8000_0000, 0xffff_ffff, 0),
        (RegOp::Divu, 0xffff_fff9, 2, 0x7fff_fffc),
        (RegOp::Divu, 7, 0xffff_fffe, 0),
        (RegOp::Divu, 0xffff_ffff, 3, 0x5555_5555),
        (RegOp::Remu, 7, 0, 7),
        (RegOp::Remu, 0xffff_ffff, 0, 0xffff_ffff),
        (RegOp::Remu, 0x8000_0000, 0xffff_ffff, 0x8000_0000),
        (RegOp::Remu, 0xffff_fff9, 2, 1),
        (RegOp::Remu, 7, 0xffff_fffe, 7),
        (RegOp::Remu, 0xffff_ffff, 3, 0),
    ];
    answers(&rt, &rows);
    Ok(())
}

/// Immediates are sign-extended, also that of SLTIU.
#[test]
fn immediates(rt: HostRuntime) -> Result<(), Fail> {
    let rows = [
        (ImmOp::Addi, 0, -1, 0xffff_ffff),
        (ImmOp::Addi, 0xffff_ffff, 1, 0),
        (ImmOp::Addi, 0x7fff_ffff, 2_047, 0x8000_07fe),
        (ImmOp::Addi, 5, -2_048, 0xffff_f805),
        (ImmOp::Slti, 0x8000_0000, -2_048, 1),
        (ImmOp::Slti, 0xffff_f800, -2_048, 0),
        (ImmOp::Slti, 5, -1, 0),
        (ImmOp::Slti, 0xffff_ffff, 0, 1),
        (ImmOp::Sltiu, 5, -1, 1),
        (ImmOp::Sltiu, 0xffff_ffff, -1, 0),
        (ImmOp::Sltiu, 0xffff_f7ff, -2_048, 1),
        (ImmOp::Sltiu, 0xffff_f800, -2_048, 0),
        (ImmOp::Sltiu, 0xffff_ffff, 2_047, 0),
        (ImmOp::Sltiu, 0, 1, 1),
        (ImmOp::Sltiu, 1, 1, 0),
        (ImmOp::Xori, 0x1234_5678, -1, 0xedcb_a987),
        (ImmOp::Ori, 0x1234_5678, -2_048, 0xffff_fe78),
        (ImmOp::Andi, 0x1234_5678, -16, 0x1234_5670),
        (ImmOp::Andi, 0xffff_ffff, 2_047, 0x0000_07ff),
        (ImmOp::Slli, 0x8000_0081, 0, 0x8000_0081),
        (ImmOp::Slli, 0x8000_0081, 31, 0x8000_0000),
        (ImmOp::Srli, 0x8000_0081, 31, 1),
        (ImmOp::Srai, 0x8000_0081, 0, 0x8000_0081),
        (ImmOp::Srai, 0x8000_0081, 1, 0xc000_0040),
        (ImmOp::Srai, 0x8000_0081, 31, 0xffff_ffff),
    ];
    for (op, x, imm, answer) in rows {
        assert_eq!(rt; operate_immediate(op, x, imm), answer);
    }
    Ok(())
}

/// Each branch where both are equal, where the first is less signed, and where it is less unsigned.
#[test]
fn branches(rt: HostRuntime) -> Result<(), Fail> {
    let rows = [
        (BranchOp::Beq, 0xffff_ffff, 0xffff_ffff, true),
        (BranchOp::Beq, 0x8000_0000, 0x7fff_ffff, false),
        (BranchOp::Beq, 0x7fff_ffff, 0x8000_0000, false),
        (BranchOp::Beq, 0, 0xffff_ffff, false),
        (BranchOp::Beq, 0xffff_ffff, 0, false),
        (BranchOp::Bne, 0xffff_ffff, 0xffff_ffff, false),
        (BranchOp::Bne, 0x8000_0000, 0x7fff_ffff, true),
        (BranchOp::Bne, 0x7fff_ffff, 0x8000_0000, true),
        (BranchOp::Bne, 0, 0xffff_ffff, true),
        (BranchOp::Bne, 0xffff_ffff, 0, true),
        (BranchOp::Blt, 0xffff_ffff, 0xffff_ffff, false),
        (BranchOp::Blt, 0x8000_0000, 0x7fff_ffff, true),
        (BranchOp::Blt, 0x7fff_ffff, 0x8000_0000, false),
        (BranchOp::Blt, 0, 0xffff_ffff, false),
        (BranchOp::Blt, 0xffff_ffff, 0, true),
        (BranchOp::Bge, 0xffff_ffff, 0xffff_ffff, true),
        (BranchOp::Bge, 0x8000_0000, 0x7fff_ffff, false),
        (BranchOp::Bge, 0x7fff_ffff, 0x8000_0000, true),
        (BranchOp::Bge, 0, 0xffff_ffff, true),
        (BranchOp::Bge, 0xffff_ffff, 0, false),
        (BranchOp::Bltu, 0xffff_ffff, 0xffff_ffff, false),
        (BranchOp::Bltu, 0x8000_0000, 0x7fff_ffff, false),
        (BranchOp::Bltu, 0x7fff_ffff, 0x8000_0000, true),
        (BranchOp::Bltu, 0, 0xffff_ffff, true),
        (BranchOp::Bltu, 0xffff_ffff, 0, false),
        (BranchOp::Bgeu, 0xffff_ffff, 0xffff_ffff, true),
        (BranchOp::Bgeu, 0x8000_0000, 0x7fff_ffff, true),
        (BranchOp::Bgeu, 0x7fff_ffff, 0x8000_0000, false),
        (BranchOp::Bgeu, 0, 0xffff_ffff, false),
        (BranchOp::Bgeu, 0xffff_ffff, 0, true),
    ];
    for (op, x, y, taken) in rows {
        assert_eq!(rt; is_taken(op, x, y), taken);
    }
    Ok(())
}

/// Targets wrap at 2^32 both ways, and that of JALR is even.
#[test]
fn targets(rt: HostRuntime) -> Result<(), Fail> {
    let rows = [
        (0, -4, 0xffff_fffc, 0xffff_fffc),
        (0xffff_ffff, 1, 0, 0),
        (0xffff_fffc, 8, 4, 4),
        (0x0001_0000, -4_096, 0x0000_f000, 0x0000_f000),
        (0x0001_0000, 1_048_574, 0x0010_fffe, 0x0010_fffe),
        (0x7fff_ffff, 2_147_483_647, 0xffff_fffe, 0xffff_fffe),
        (0x8000_0000, -2_147_483_648, 0, 0),
        (7, -2, 5, 4),
        (7, 0, 7, 6),
        (7, 1, 8, 8),
        (0xffff_ffff, 0, 0xffff_ffff, 0xffff_fffe),
        (0, -1, 0xffff_ffff, 0xffff_fffe),
    ];
    for (from, offset, sum, even) in rows {
        assert_eq!(rt; target(from, offset), sum);
        assert_eq!(rt; jump_target(from, offset), even);
    }
    Ok(())
}

/// The bytes of loads and stores, and what a load makes of its bytes where the sign changes.
#[test]
fn accesses(rt: HostRuntime) -> Result<(), Fail> {
    let loads = [
        (LoadOp::Lb, 1),
        (LoadOp::Lh, 2),
        (LoadOp::Lw, 4),
        (LoadOp::Lbu, 1),
        (LoadOp::Lhu, 2),
    ];
    for (op, width) in loads {
        assert_eq!(rt; load_width(op), width);
    }
    for (op, width) in [(StoreOp::Sb, 1), (StoreOp::Sh, 2), (StoreOp::Sw, 4)] {
        assert_eq!(rt; store_width(op), width);
    }
    let bytes: [(u8, u32); 5] = [
        (0, 0),
        (0x7f, 0x0000_007f),
        (0x80, 0xffff_ff80),
        (0xaa, 0xffff_ffaa),
        (0xff, 0xffff_ffff),
    ];
    for (byte, signed) in bytes {
        let loaded = u32::from(byte);
        assert_eq!(rt; extend(LoadOp::Lb, loaded), signed);
        assert_eq!(rt; extend(LoadOp::Lbu, loaded), loaded);
    }
    let halves: [(u16, u32); 6] = [
        (0, 0),
        (0x0080, 0x0000_0080),
        (0x7fff, 0x0000_7fff),
        (0x8000, 0xffff_8000),
        (0xaaaa, 0xffff_aaaa),
        (0xffff, 0xffff_ffff),
    ];
    for (half, signed) in halves {
        let loaded = u32::from(half);
        assert_eq!(rt; extend(LoadOp::Lh, loaded), signed);
        assert_eq!(rt; extend(LoadOp::Lhu, loaded), loaded);
    }
    for word in [0, 0x80, 0x7fff_ffff, 0x8000_0000, 0xffff_ffff] {
        assert_eq!(rt; extend(LoadOp::Lw, word), word);
    }
    Ok(())
}
