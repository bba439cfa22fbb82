//! Operands on which an operation answers what no other does, so that a meaning which is another's shows
//! (`tools/arithmetic_values.py`, told apart).

use super::*;

const REGISTERS: [RegOp; 18] = [
    RegOp::Add,
    RegOp::Sub,
    RegOp::Sll,
    RegOp::Slt,
    RegOp::Sltu,
    RegOp::Xor,
    RegOp::Srl,
    RegOp::Sra,
    RegOp::Or,
    RegOp::And,
    RegOp::Mul,
    RegOp::Mulh,
    RegOp::Mulhsu,
    RegOp::Mulhu,
    RegOp::Div,
    RegOp::Divu,
    RegOp::Rem,
    RegOp::Remu,
];

const IMMEDIATES: [ImmOp; 9] = [
    ImmOp::Addi,
    ImmOp::Slti,
    ImmOp::Sltiu,
    ImmOp::Xori,
    ImmOp::Ori,
    ImmOp::Andi,
    ImmOp::Slli,
    ImmOp::Srli,
    ImmOp::Srai,
];

const LOADS: [LoadOp; 5] = [LoadOp::Lb, LoadOp::Lh, LoadOp::Lw, LoadOp::Lbu, LoadOp::Lhu];

const STORES: [StoreOp; 3] = [StoreOp::Sb, StoreOp::Sh, StoreOp::Sw];

const BRANCHES: [BranchOp; 6] = [
    BranchOp::Beq,
    BranchOp::Bne,
    BranchOp::Blt,
    BranchOp::Bge,
    BranchOp::Bltu,
    BranchOp::Bgeu,
];

/// Each operation on registers has rows, whose answer it alone gives.
#[test]
fn registers(rt: HostRuntime) -> Result<(), Fail> {
    let rows = [
        (RegOp::Add, 0xffff_f765, 0x8000_24ad, 0x8000_1c12),
        (RegOp::Add, 0x80f8_5fad, 0x7fff_e8ac, 0x00f8_4859),
        (RegOp::Add, 0x0000_02d1, 0x7fff_fed3, 0x8000_01a4),
        (RegOp::Sub, 0x7fff_c549, 0xffff_e24a, 0x7fff_e2ff),
        (RegOp::Sub, 0x0000_7dad, 0xffff_ff2e, 0x0000_7e7f),
        (RegOp::Sub, 0x129a_d8f2, 0x0000_00a3, 0x129a_d84f),
        (RegOp::Sll, 0x6dd0_b82d, 0xae9c_1986, 0x742e_0b40),
        (RegOp::Sll, 0x7fff_ffec, 0x8000_026a, 0xffff_b000),
        (RegOp::Sll, 0xffff_ffa7, 0xffff_fff1, 0xff4e_0000),
        (RegOp::Slt, 0x8000_5e4b, 15, 1),
        (RegOp::Slt, 0xffff_cc9f, 18, 1),
        (RegOp::Slt, 0xffff_9045, 0x7ffb_a6c0, 1),
        (RegOp::Sltu, 0x8000_0020, 58, 0),
        (RegOp::Sltu, 0x6f42_ee5d, 0xfffc_913d, 1),
        (RegOp::Sltu, 71, 0xffff_fff4, 1),
        (RegOp::Xor, 0x7fff_fff9, 0xfffe_14d6, 0x8001_eb2f),
        (RegOp::Xor, 0x8000_0031, 0x7fff_ac70, 0xffff_ac41),
        (RegOp::Xor, 0x0000_36b3, 0x1509_776e, 0x1509_41dd),
        (RegOp::Srl, 0xe313_623d, 2, 0x38c4_d88f),
        (RegOp::Srl, 0xf510_cf6a, 0x7fff_ff51, 0x0000_7a88),
        (RegOp::Srl, 0x8004_2e7c, 0x8000_b717, 0x0000_0100),
        (RegOp::Sra, 0xffff_fcde, 0x7fff_ffd5, 0xffff_ffff),
        (RegOp::Sra, 0x8000_38a2, 0xffff_ff99, 0xffff_ffc0),
        (RegOp::Sra, 0xa70f_578e, 0x0000_2637, 0xffff_ff4e),
        (RegOp::Or, 0x7fff_8ed6, 0x137a_25f8, 0x7fff_affe),
        (RegOp::Or, 0x0000_c99f, 0x0000_034a, 0x0000_cbdf),
        (RegOp::Or, 0x8006_272b, 0x8000_0071, 0x8006_277b),
        (RegOp::And, 0xe88d_c211, 0xffff_f98b, 0xe88d_c001),
        (RegOp::And, 0xffff_ff7b, 0xb2a6_62d2, 0xb2a6_6252),
        (RegOp::And, 0x0819_c9bc, 0x09c7_0191, 0x0801_0190),
        (RegOp::Mul, 0x7fff_f455, 0xb663_92b7, 0x642f_22c3),
        (RegOp::Mul, 0xffff_08ad, 0xffff_83e5, 0x77e6_49c1),
        (RegOp::Mul, 0x8000_04d8, 0x7fff_ffe9, 0x7fff_9098),
        (RegOp::Mulh, 0x8000_001c, 0xffff_fa66, 0x0000_02cc),
        (RegOp::Mulh, 0x8000_0053, 0x8000_2fe4, 0x3fff_e7e4),
        (RegOp::Mulh, 0x9e09_019f, 0xffff_ffd2, 17),
        (RegOp::Mulhsu, 0x8000_77e8, 0xffff_fd93, 0x8000_791e),
        (RegOp::Mulhsu, 0xa472_f9f2, 0xffff_fd90, 0xa472_fad1),
        (RegOp::Mulhsu, 0xfffa_74e6, 0xffff_38eb, 0xfffa_74ea),
        (RegOp::Mulhu, 0xffff_fdb0, 0x8000_0329, 0x8000_0200),
        (RegOp::Mulhu, 0xffff_f77c, 0x8000_0009, 0x7fff_fbc6),
        (RegOp::Mulhu, 0x8000_0029, 0xffff_ff56, 0x7fff_ffd3),
        (RegOp::Div, 0xffff_a9a3, 0xffff_eafc, 4),
        (RegOp::Div, 0xffff_47dc, 0x0000_229a, 0xffff_fffb),
        (RegOp::Div, 0x7ffb_46c9, 0x9731_45c5, 0xffff_ffff),
        (RegOp::Divu, 0xffff_fe08, 0xffff_ca64, 1),
        (RegOp::Divu, 0x8000_001d, 0x8003_5566, 0),
        (RegOp::Divu, 0xd782_a650, 0x0000_2e82, 0x0004_a244),
        (RegOp::Rem, 0xa2ab_2387, 0x0000_4809, 0xffff_bca5),
        (RegOp::Rem, 0x88f8_70e0, 0xc544_d390, 0xfe6e_c9c0),
        (RegOp::Rem, 0xffff_ffe6, 0x7ffc_797d, 0xffff_ffe6),
        (RegOp::Remu, 0x7fff_f572, 0x8001_46c4, 0x7fff_f572),
        (RegOp::Remu, 0x7fff_ffb3, 0xffff_ffda, 0x7fff_ffb3),
        (RegOp::Remu, 0x8000_0065, 0x0000_a28e, 0x0000_884d),
    ];
    for (op, x, y, answer) in rows {
        for other in REGISTERS {
            assert_eq!(rt;
                operate(other, x, y) == answer,
                other == op,
                "{op:?} {other:?} {x} {y}"
            );
        }
    }
    for op in REGISTERS {
        assert!(rt; rows.iter().any(|row| row.0 == op));
    }
    Ok(())
}

/// Each operation with an immediate has rows, whose answer it alone gives, also of the operations on registers but its
/// own.
#[test]
fn immediates(rt: HostRuntime) -> Result<(), Fail> {
    let rows = [
        (ImmOp::Addi, RegOp::Add, 0x68cb_d359, -850, 0x68cb_d007),
        (ImmOp::Addi, RegOp::Add, 0xa00e_c8a6, 1_643, 0xa00e_cf11),
        (ImmOp::Addi, RegOp::Add, 0x5f95_eae4, -1_095, 0x5f95_e69d),
        (ImmOp::Slti, RegOp::Slt, 0x8000_06a4, 1_400, 1),
        (ImmOp::Slti, RegOp::Slt, 0x8000_1f8e, 101, 1),
        (ImmOp::Slti, RegOp::Slt, 0xf4d7_aa9d, 2_006, 1),
        (ImmOp::Sltiu, RegOp::Sltu, 0x0000_05ad, -1_173, 1),
        (ImmOp::Sltiu, RegOp::Sltu, 0xffff_fc85, 158, 0),
        (ImmOp::Sltiu, RegOp::Sltu, 0xffff_fe98, 238, 0),
        (ImmOp::Xori, RegOp::Xor, 0x8006_2509, -1_703, 0x7ff9_dc50),
        (ImmOp::Xori, RegOp::Xor, 0x7fff_ec63, -412, 0x8000_1207),
        (ImmOp::Xori, RegOp::Xor, 0x1509_776e, -890, 0xeaf6_8be8),
        (ImmOp::Ori, RegOp::Or, 0x7fff_8ed6, 1_323, 0x7fff_8fff),
        (ImmOp::Ori, RegOp::Or, 0x58a6_c3b8, -1_196, 0xffff_fbfc),
        (ImmOp::Ori, RegOp::Or, 0x0004_135c, -364, 0xffff_ffdc),
        (ImmOp::Andi, RegOp::And, 0xe88d_c211, 1_045, 17),
        (ImmOp::Andi, RegOp::And, 0x8000_040b, -989, 0x8000_0403),
        (ImmOp::Andi, RegOp::And, 0xe74f_f642, -1_789, 0xe74f_f002),
        (ImmOp::Slli, RegOp::Sll, 0x6dd0_b82d, 15, 0x5c16_8000),
        (ImmOp::Slli, RegOp::Sll, 0x2c32_e8fa, 26, 0xe800_0000),
        (ImmOp::Slli, RegOp::Sll, 0x7fff_ecc1, 15, 0xf660_8000),
        (ImmOp::Srli, RegOp::Srl, 0xffff_647f, 1, 0x7fff_b23f),
        (ImmOp::Srli, RegOp::Srl, 0xffff_fe91, 4, 0x0fff_ffe9),
        (ImmOp::Srli, RegOp::Srl, 0xffff_fe29, 17, 0x0000_7fff),
        (ImmOp::Srai, RegOp::Sra, 0x8000_001b, 27, 0xffff_fff0),
        (ImmOp::Srai, RegOp::Sra, 0x8000_05f5, 22, 0xffff_fe00),
        (ImmOp::Srai, RegOp::Sra, 0xffff_df93, 7, 0xffff_ffbf),
    ];
    for (op, form, x, imm, answer) in rows {
        for other in IMMEDIATES {
            assert_eq!(rt;
                operate_immediate(other, x, imm) == answer,
                other == op,
                "{op:?} {other:?} {x} {imm}"
            );
        }
        for other in REGISTERS {
            let y = imm.cast_unsigned();
            assert_eq!(rt;
                operate(other, x, y) == answer,
                other == form,
                "{op:?} {other:?} {x} {imm}"
            );
        }
    }
    for op in IMMEDIATES {
        assert!(rt; rows.iter().any(|row| row.0 == op));
    }
    Ok(())
}

/// The low bytes of a word, of which there are 1, 2 or 4.
fn low_bytes(word: u32, width: u32) -> u32 {
    match width {
        1 => word % 256,
        2 => word % 65_536,
        _ => word,
    }
}

/// What a load makes of the low bytes of a word.
fn loaded(op: LoadOp, word: u32) -> u32 {
    match load_width(op) {
        1 => extend(op, word % 256),
        2 => extend(op, word % 65_536),
        _ => extend(op, word),
    }
}

/// Each load has rows, whose answer it alone gives.
#[test]
fn loads(rt: HostRuntime) -> Result<(), Fail> {
    let rows = [
        (LoadOp::Lb, 0x9abc_f0f1, 0xffff_fff1),
        (LoadOp::Lh, 0x9abc_f0f1, 0xffff_f0f1),
        (LoadOp::Lw, 0x9abc_f0f1, 0x9abc_f0f1),
        (LoadOp::Lbu, 0x9abc_f0f1, 0x0000_00f1),
        (LoadOp::Lhu, 0x9abc_f0f1, 0x0000_f0f1),
        (LoadOp::Lb, 0x8081_90fe, 0xffff_fffe),
        (LoadOp::Lh, 0x8081_90fe, 0xffff_90fe),
        (LoadOp::Lw, 0x8081_90fe, 0x8081_90fe),
        (LoadOp::Lbu, 0x8081_90fe, 0x0000_00fe),
        (LoadOp::Lhu, 0x8081_90fe, 0x0000_90fe),
        (LoadOp::Lb, 0x7fff_8080, 0xffff_ff80),
        (LoadOp::Lh, 0x7fff_8080, 0xffff_8080),
        (LoadOp::Lw, 0x7fff_8080, 0x7fff_8080),
        (LoadOp::Lbu, 0x7fff_8080, 0x0000_0080),
        (LoadOp::Lhu, 0x7fff_8080, 0x0000_8080),
    ];
    for (op, word, answer) in rows {
        for other in LOADS {
            assert_eq!(rt;
                loaded(other, word) == answer,
                other == op,
                "{op:?} {other:?} {word}"
            );
        }
    }
    for op in LOADS {
        assert!(rt; rows.iter().any(|row| row.0 == op));
    }
    Ok(())
}

/// Each store has rows, whose bytes it alone stores.
#[test]
fn stores(rt: HostRuntime) -> Result<(), Fail> {
    let rows = [
        (StoreOp::Sb, 0x9abc_f0f1, 0x0000_00f1),
        (StoreOp::Sh, 0x9abc_f0f1, 0x0000_f0f1),
        (StoreOp::Sw, 0x9abc_f0f1, 0x9abc_f0f1),
        (StoreOp::Sb, 0x8081_90fe, 0x0000_00fe),
        (StoreOp::Sh, 0x8081_90fe, 0x0000_90fe),
        (StoreOp::Sw, 0x8081_90fe, 0x8081_90fe),
        (StoreOp::Sb, 0x7fff_8080, 0x0000_0080),
        (StoreOp::Sh, 0x7fff_8080, 0x0000_8080),
        (StoreOp::Sw, 0x7fff_8080, 0x7fff_8080),
    ];
    for (op, word, stored) in rows {
        for other in STORES {
            let bytes = low_bytes(word, store_width(other));
            assert_eq!(rt; bytes == stored, other == op, "{op:?} {other:?} {word}");
        }
    }
    for op in STORES {
        assert!(rt; rows.iter().any(|row| row.0 == op));
    }
    Ok(())
}

/// Each branch is taken as its row says, in the order of `BRANCHES`, and any two of them differ on a row.
#[test]
fn branches(rt: HostRuntime) -> Result<(), Fail> {
    let rows = [
        (5, 5, [true, false, false, true, false, true]),
        (
            0xffff_fff9,
            0xffff_fff9,
            [true, false, false, true, false, true],
        ),
        (4, 5, [false, true, true, false, true, false]),
        (5, 4, [false, true, false, true, false, true]),
        (
            0xffff_fff9,
            0xffff_fffe,
            [false, true, true, false, true, false],
        ),
        (
            0x8000_0000,
            0x7fff_ffff,
            [false, true, true, false, false, true],
        ),
        (
            0x7fff_ffff,
            0x8000_0000,
            [false, true, false, true, true, false],
        ),
        (0xffff_ffff, 0, [false, true, true, false, false, true]),
        (0, 0xffff_ffff, [false, true, false, true, true, false]),
    ];
    for (x, y, taken) in rows {
        for (op, is) in BRANCHES.iter().zip(taken) {
            assert_eq!(rt; is_taken(*op, x, y), is, "{op:?} {x} {y}");
        }
    }
    for op in BRANCHES {
        for other in BRANCHES {
            let differ = rows.iter().any(|row| is_taken(op, row.0, row.1)
                != is_taken(other, row.0, row.1));
            assert_eq!(rt; differ, other != op, "{op:?} {other:?}");
        }
    }
    Ok(())
}
