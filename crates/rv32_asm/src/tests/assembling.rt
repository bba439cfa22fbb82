//! Texts, and the bytes that LLVM's assembler gives for them (`tools/statement_rows.py`), and texts with a fault.

use super::*;

/// Where the programs begin: its low twelve bits are 2,048.
const AT: u32 = 67_584;

/// The bytes of both headers.
const HEADERS: usize = 84;

/// The file of a text that begins at a place.
fn file_at(rt: &impl Abort, alloc: Global, text: &str, at: u32) -> Result<Vec<u8>, AsmFault> {
    assert!(rt; text.len() <= 4_194_304 && at <= 4_294_901_760);
    assemble(alloc, text.as_bytes(), at)
}

/// Each text stands for these words, where it begins at this place.
fn assembled(rt: &impl Abort, alloc: Global, at: u32, rows: &[(&str, &[u32])]) -> Result<(), Fail> {
    for (text, words) in rows {
        let file = file_at(rt, alloc, text, at)?;
        let mut wanted = Vec::new(alloc);
        for word in *words {
            wanted.extend_from_slice(&word.to_le_bytes())?;
        }
        assert_eq!(rt;
            file.as_slice().get(HEADERS..),
            Some(wanted.as_slice()),
            "{text}"
        );
    }
    Ok(())
}

/// Registers by their use, numbers, blanks, comments, labels, and the statements of two instructions.
#[test]
fn programs(rt: HostRuntime) -> Result<(), Fail> {
    let rows: [(&str, &[u32]); 20] = [
        (
            "add zero, zero, x0\nadd ra, ra, x0\nadd sp, sp, x0\nadd gp, gp, x0\n\
            add tp, tp, x0\nadd t0, t0, x0\nadd t1, t1, x0\nadd t2, t2, x0\n\
            add s0, s0, x0\nadd s1, s1, x0\nadd a0, a0, x0\nadd a1, a1, x0\n\
            add a2, a2, x0\nadd a3, a3, x0\nadd a4, a4, x0\nadd a5, a5, x0\n\
            add a6, a6, x0\nadd a7, a7, x0\nadd s2, s2, x0\nadd s3, s3, x0\n\
            add s4, s4, x0\nadd s5, s5, x0\nadd s6, s6, x0\nadd s7, s7, x0\n\
            add s8, s8, x0\nadd s9, s9, x0\nadd s10, s10, x0\nadd s11, s11, x0\n\
            add t3, t3, x0\nadd t4, t4, x0\nadd t5, t5, x0\nadd t6, t6, x0\n\
            add fp, fp, x0",
            &[
                0x0000_0033,
                0x0000_80b3,
                0x0001_0133,
                0x0001_81b3,
                0x0002_0233,
                0x0002_82b3,
                0x0003_0333,
                0x0003_83b3,
                0x0004_0433,
                0x0004_84b3,
                0x0005_0533,
                0x0005_85b3,
                0x0006_0633,
                0x0006_86b3,
                0x0007_0733,
                0x0007_87b3,
                0x0008_0833,
                0x0008_88b3,
                0x0009_0933,
                0x0009_89b3,
                0x000a_0a33,
                0x000a_8ab3,
                0x000b_0b33,
                0x000b_8bb3,
                0x000c_0c33,
                0x000c_8cb3,
                0x000d_0d33,
                0x000d_8db3,
                0x000e_0e33,
                0x000e_8eb3,
                0x000f_0f33,
                0x000f_8fb3,
                0x0004_0433,
            ],
        ),
        (
            "nop\nret\nj -2\naddi x5, x6, 0x7fF",
            &[0x0000_0013, 0x0000_8067, 0xffff_f06f, 0x7ff3_0293],
        ),
        (" \t lw\tx7 , -4 ( x8 ) # a comment", &[0xffc4_2383]),
        (
            "a: nop\nb:nop # b\n beq x1, x2, a\n jal x1, c\n bne x3, x4, b\nc: j c\n j a\n",
            &[
                0x0000_0013,
                0x0000_0013,
                0xfe20_8ce3,
                0x0080_00ef,
                0xfe41_9ae3,
                0x0000_006f,
                0xfe9f_f06f,
            ],
        ),
        (
            "j end\r\nx1: .word x1\nnop: .word end\nend:",
            &[0x00c0_006f, 0x0001_0804, 0x0001_080c],
        ),
        (
            ".word 4294967295\n.word -2147483648\n.word 0xdeadbeef",
            &[0xffff_ffff, 0x8000_0000, 0xdead_beef],
        ),
        ("li x5, 0", &[0x0000_02b7, 0x0002_8293]),
        ("li x5, 1", &[0x0000_02b7, 0x0012_8293]),
        ("li x5, -1", &[0x0000_02b7, 0xfff2_8293]),
        ("li x5, 2047", &[0x0000_02b7, 0x7ff2_8293]),
        ("li x5, 2048", &[0x0000_12b7, 0x8002_8293]),
        ("li x5, -2048", &[0x0000_02b7, 0x8002_8293]),
        ("li x5, -2049", &[0xffff_f2b7, 0x7ff2_8293]),
        ("li x5, 2147483647", &[0x8000_02b7, 0xfff2_8293]),
        ("li x5, 2147483648", &[0x8000_02b7, 0x0002_8293]),
        ("li x5, -2147483648", &[0x8000_02b7, 0x0002_8293]),
        ("li x5, 4294967295", &[0x0000_02b7, 0xfff2_8293]),
        ("li x5, 305422335", &[0x1234_62b7, 0xfff2_8293]),
        (
            "la x9, far\nfar: la sp, end\nend:",
            &[0x0001_14b7, 0x8084_8493, 0x0001_1137, 0x8101_0113],
        ),
        (
            ".byte 255\n.byte -128\n.byte 7\n.zero 2\n.byte 1\n.balign 8\n.byte 2\n.balign 1\n.balign 4",
            &[0x0007_80ff, 0x0000_0100, 0x0000_0002],
        ),
    ];
    assembled(&rt, rt.alloc(), AT, &rows)?;
    // the addresses 0, 2,047, 2,048 and the last one whose low twelve bits are -2,048
    let labels: [(u32, &str, &[u32]); 4] = [
        (0, "a: la x5, a", &[0x0000_02b7, 0x0002_8293]),
        (
            2_044,
            ".zero 3\na: .byte 0\nla x5, a",
            &[0x0000_0000, 0x0000_02b7, 0x7ff2_8293],
        ),
        (2_048, "a: la x5, a", &[0x0000_12b7, 0x8002_8293]),
        (4_294_899_712, "a: la x5, a", &[0xffff_02b7, 0x8002_8293]),
    ];
    for (at, text, words) in labels {
        assembled(&rt, rt.alloc(), at, &[(text, words)])?;
    }
    Ok(())
}

/// Jumps and branches as far as they go, and a multiple of 4,096: the word at an offset of the file.
#[test]
fn far_targets(rt: HostRuntime) -> Result<(), Fail> {
    let rows: [(&str, usize, u32); 5] = [
        ("nop\n.balign 4096\necall", 84 + 2_048, 0x0000_0073),
        ("back: .zero 4096\n beq x1, x2, back", 4_180, 0x8020_8063),
        (
            "bltu x3, x4, far\n.zero 4088\n.byte 0\n.byte 0\nfar:",
            84,
            0x7e41_efe3,
        ),
        ("back: .zero 1048576\n jal x5, back", 1_048_660, 0x8000_02ef),
        (
            "jal x6, far\n.zero 1048568\n.byte 0\n.byte 0\nfar:",
            84,
            0x7fff_f36f,
        ),
    ];
    for (text, offset, word) in rows {
        let file = file_at(&rt, rt.alloc(), text, AT)?;
        let found = file.as_slice().get(offset..offset + 4);
        assert_eq!(rt; found, Some(word.to_le_bytes().as_slice()), "{text}");
    }
    Ok(())
}

/// A quoted text with each escape, and with signs that begin nothing in it.
#[test]
fn quoted_text(rt: HostRuntime) -> Result<(), Fail> {
    let text = ".ascii \"a\\n\\t\\0\\\\\\\"# : b\" # \"c\"\r\n.ascii \"\"";
    let bytes: [u8; 11] = [
        0x61, 0x0a, 0x09, 0x00, 0x5c, 0x22, 0x23, 0x20, 0x3a, 0x20, 0x62,
    ];
    let file = file_at(&rt, rt.alloc(), text, AT)?;
    assert_eq!(rt; file.as_slice().get(HEADERS..), Some(bytes.as_slice()));
    Ok(())
}

/// The whole file of a program of one instruction, field by field (System V gABI, "ELF Header" and "Program Header").
#[test]
fn whole_file(rt: HostRuntime) -> Result<(), Fail> {
    let wanted = b"\x7fELF\x01\x01\x01\x00\x00\x00\x00\x00\x00\x00\x00\x00\
        \x02\x00\xf3\x00\x01\x00\x00\x00\x00\x08\x01\x00\x34\x00\x00\x00\x00\x00\x00\x00\x00\x00\x00\x00\
        \x34\x00\x20\x00\x01\x00\x00\x00\x00\x00\x00\x00\
        \x01\x00\x00\x00\x54\x00\x00\x00\x00\x08\x01\x00\x00\x08\x01\x00\x04\x00\x00\x00\x04\x00\x00\x00\
        \x07\x00\x00\x00\x04\x00\x00\x00\x73\x00\x00\x00";
    let file = file_at(&rt, rt.alloc(), "ecall", AT)?;
    assert_eq!(rt; file.as_slice(), wanted.as_slice());
    assert_eq!(rt; file_at(&rt, rt.alloc(), "", AT)?.len(), HEADERS);
    Ok(())
}

/// The first fault of each text.
#[test]
fn faults(rt: HostRuntime) -> Result<(), Fail> {
    let rows = [
        ("addi x5, x0, 4096", 1, AsmKind::Range),
        ("nop\n\x7f", 2, AsmKind::Byte),
        ("nop\r", 1, AsmKind::Byte),
        ("nop\r\r\nnop", 1, AsmKind::Byte),
        ("nop # ä", 1, AsmKind::Byte),
        ("1a: foo \x7f", 1, AsmKind::Byte),
        ("1a: foo", 1, AsmKind::Label),
        ("a : nop", 1, AsmKind::Label),
        ("nop\na: nop\na: nop", 3, AsmKind::Label),
        (":", 1, AsmKind::Label),
        ("ADDI x5, x0, 1", 1, AsmKind::Word),
        ("nopx", 1, AsmKind::Word),
        ("addi,x5, x0, 1", 1, AsmKind::Word),
        ("li x5, 4294967296\nfoo", 2, AsmKind::Word),
        ("addi", 1, AsmKind::Operands),
        ("addi x5 x0, 1", 1, AsmKind::Operands),
        ("addi x5, x0, 1,", 1, AsmKind::Operands),
        ("addi x5, x0, +1", 1, AsmKind::Operands),
        ("addi x5, x0, 0X1", 1, AsmKind::Operands),
        ("addi x5, x0, 00000000001", 1, AsmKind::Operands),
        ("addi x32, x0, 1", 1, AsmKind::Operands),
        ("lw x5, (x6)", 1, AsmKind::Operands),
        ("lw x5, 4(x6", 1, AsmKind::Operands),
        ("nop x5", 1, AsmKind::Operands),
        ("li x5, a\na:", 1, AsmKind::Operands),
        ("la x5, 4", 1, AsmKind::Operands),
        (".ascii \"a", 1, AsmKind::Operands),
        (".ascii \"a\\q\"", 1, AsmKind::Operands),
        (".ascii \"a\" b", 1, AsmKind::Operands),
        ("j nowhere", 1, AsmKind::Unknown),
        (".byte 256\nj nowhere", 1, AsmKind::Range),
        ("j nowhere\n.byte 256", 1, AsmKind::Unknown),
        ("jal x1, 1", 1, AsmKind::Range),
        ("jal x1, 1048576", 1, AsmKind::Range),
        ("jal x1, -1048578", 1, AsmKind::Range),
        ("beq x0, x0, 4096", 1, AsmKind::Range),
        ("bne x0, x0, -4098", 1, AsmKind::Range),
        ("lui x5, 1048576", 1, AsmKind::Range),
        ("slli x5, x5, 32", 1, AsmKind::Range),
        ("sw x5, -2049(x5)", 1, AsmKind::Range),
        ("li x5, -2147483649", 1, AsmKind::Range),
        (".word 4294967296", 1, AsmKind::Range),
        (".byte -129", 1, AsmKind::Range),
        (".zero 1048577", 1, AsmKind::Range),
        (".zero -1", 1, AsmKind::Range),
        (".balign 3", 1, AsmKind::Range),
        (".balign 8192", 1, AsmKind::Range),
        (".balign 0", 1, AsmKind::Range),
        (".byte 1\nnop", 2, AsmKind::Range),
        (".byte 1\n.word 5", 2, AsmKind::Range),
    ];
    for (text, line, kind) in rows {
        let fault = file_at(&rt, rt.alloc(), text, AT).err();
        assert_eq!(rt; fault, Some(AsmFault::Bad { line, kind }), "{text}");
    }
    Ok(())
}

/// A program past the last place, and one of too many bytes.
#[test]
fn too_long(rt: HostRuntime) -> Result<(), Fail> {
    let bad = |line| Some(AsmFault::Bad {
        line,
        kind: AsmKind::TooLong,
    });
    assert_eq!(rt;
        file_at(&rt, rt.alloc(), "nop\nnop", 4_294_901_756).err(),
        bad(2)
    );
    assert_eq!(rt;
        file_at(&rt, rt.alloc(), "nop", 4_294_901_756)?.len(),
        HEADERS + 4
    );
    let mut text = String::new(rt.alloc());
    for _ in 0..16 {
        text.push_str(".zero 1048576\n")?;
    }
    assert_eq!(rt; file_at(&rt, rt.alloc(), text.as_str(), AT).err(), bad(16));
    Ok(())
}
