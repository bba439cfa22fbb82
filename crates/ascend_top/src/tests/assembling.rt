//! The commands `asm` and `disasm`.

use super::*;

/// A text that exits, and its lines as they are disassembled.
const TEXT: &str = " li a7, 93 # exit\nagain: ecall\n j again";

const LINES: &str = "00010000 000008b7 lui x17, 0
00010004 05d88893 addi x17, x17, 93
00010008 00000073 ecall
0001000c ffdff06f jal x0, -4
";

/// A host with this text in `t`, a text with a fault in `f`, one that is too long in `l`, and a file in `a`.
fn host_with(alloc: Global, failing: &[u64], file: &[u8]) -> Result<MemHost, Fail> {
    let mut host = MemHost::new(alloc, failing.to_vec(alloc)?);
    host.add("t", TEXT.as_bytes())?;
    host.add("f", b"nop\naddi x5, x0, 4096\n")?;
    let long = vec![in alloc; 32; 4_194_305]?;
    host.add("l", long.as_slice())?;
    host.add("a", file)?;
    Ok(host)
}

/// Words, the status, and what is printed; the file `a` is `ecall` and three bytes more.
const ASM_ROWS: [(&str, u8, &str); 14] = [
    ("asm text=t elf=b", 0, ""),
    ("asm text=f elf=o", 4, "asm line 2 Range\n"),
    ("asm text=a elf=o", 4, "asm line 1 Byte\n"),
    ("asm text=t elf=o at=2", 4, "setting at\n"),
    ("asm text=none elf=o at=4294901760", 4, "setting at\n"),
    ("asm text=t elf=o at=4294901756", 4, "asm line 1 TooLong\n"),
    ("asm text=none elf=o", 5, ""),
    ("asm text=l elf=o", 13, "long text\n"),
    ("asm text=t", 2, "usage word 3\n"),
    (
        "disasm elf=a",
        0,
        "00010000 00000073 ecall\n00010004 206f6f62 .word 544173922\n",
    ),
    ("disasm elf=a size=65536", 3, "elf Outside 0\n"),
    ("disasm elf=a base=1", 4, "setting base\n"),
    ("disasm elf=t", 3, "elf Short\n"),
    ("disasm elf=none", 5, ""),
];

#[test]
fn texts_are_assembled_and_listed(rt: HostRuntime) -> Result<(), Fail> {
    let alloc = rt.alloc();
    let file = elf(alloc, &[0x73], "boo !!!")?;
    for (line, status, printed) in ASM_ROWS {
        let mut host = host_with(alloc, &[], file.as_slice())?;
        compare(&rt, alloc, line, &mut host, status, printed, None)?;
    }
    Ok(())
}

/// What was assembled is disassembled, but where a segment isn't executable; and it runs.
#[test]
fn an_assembled_file_is_listed(rt: HostRuntime) -> Result<(), Fail> {
    let alloc = rt.alloc();
    let mut host = host_with(alloc, &[], b"")?;
    compare(&rt, alloc, "asm text=t elf=b", &mut host, 0, "", None)?;
    let wanted = elf(alloc, &[0x8b7, 0x05d8_8893, 0x73, 0xffdf_f06f], "")?;
    assert!(rt; host.file("b") == Some(wanted.as_slice()));
    compare(&rt, alloc, "disasm elf=b", &mut host, 0, LINES, None)?;
    let mut readable = wanted;
    if let Some(flags) = readable.get_mut(76) {
        *flags = 6;
    }
    host.add("c", readable.as_slice())?;
    compare(&rt, alloc, "disasm elf=c", &mut host, 0, LINES, None)
}

#[test]
fn each_call_of_both_fails_in_turn(rt: HostRuntime) -> Result<(), Fail> {
    let alloc = rt.alloc();
    let file = elf(alloc, &[0x73], "")?;
    for line in ["asm text=t elf=o", "disasm elf=a"] {
        for number in [1, 2] {
            let mut host = host_with(alloc, &[number], file.as_slice())?;
            compare(&rt, alloc, line, &mut host, 5, "", None)?;
        }
    }
    Ok(())
}
