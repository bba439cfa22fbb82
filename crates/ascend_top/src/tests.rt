mod assembling;
mod checking;
mod forging;
mod generating;
mod running;
mod slots;

ghost use Rattle.std.specs.Prelude.{◌≡◌, ◌<◌, ◌≤◌, ◌^◌};
ghost use Rattle.bus_watch.specs.Log.{fresh_tap};

use super::*;
use asc_outside::{FaultyMemory, HonestMemory, Host, HostFault, MemHost, UntrustedMemory};
use bus_watch::Recorder;
use std::alloc::{AllocError, Global};
use std::process::Abort;
use std::test::Fail;

/// `addi x17, x0, 93` and `ecall`.
const EXIT: [u32; 2] = [0x05d0_0893, 0x0000_0073];

/// Writes the text behind it, and exits.
const HELLO: [u32; 9] = [
    0x0010_0513, // addi x10, x0, 1
    0x0001_05b7, // lui x11, 0x10
    0x0245_8593, // addi x11, x11, 36
    0x0060_0613, // addi x12, x0, 6
    0x0400_0893, // addi x17, x0, 64
    0x0000_0073, // ecall
    0x0000_0513, // addi x10, x0, 0
    0x05d0_0893, // addi x17, x0, 93
    0x0000_0073, // ecall
];

/// An ELF file of one segment at 65,536 with these words, and then this text.
fn elf(alloc: Global, words: &[u32], text: &str) -> Result<Vec<u8>, AllocError> {
    elf_at(alloc, 65_536, words, text)
}

/// The same with the segment at this address.
fn elf_at(alloc: Global, at: u32, words: &[u32], text: &str) -> Result<Vec<u8>, AllocError> {
    let mut code = Vec::new(alloc);
    for word in words {
        code.extend_from_slice(&word.to_le_bytes())?;
    }
    code.extend_from_slice(text.as_bytes())?;
    let length = u32::try_from(code.len()).unwrap_or(0);
    let mut file = Vec::new(alloc);
    file.extend_from_slice(b"\x7fELF\x01\x01\x01\0\0\0\0\0\0\0\0\0\x02\0\xf3\0")?;
    for word in [1, at, 52, 0, 0] {
        file.extend_from_slice(&u32::to_le_bytes(word))?;
    }
    for half in [52, 32, 1, 0, 0, 0] {
        file.extend_from_slice(&u16::to_le_bytes(half))?;
    }
    for word in [1, 84, at, at, length, length, 7, 4] {
        file.extend_from_slice(&u32::to_le_bytes(word))?;
    }
    file.extend_from_slice(code.as_slice())?;
    Ok(file)
}

/// Reads six bytes of the input, writes those that it got, and exits with their number.
const COPY: [u32; 11] = [
    0x0002_05b7, // lui x11, 0x20
    0x0060_0613, // addi x12, x0, 6
    0x03f0_0893, // addi x17, x0, 63
    0x0000_0073, // ecall
    0x0005_0613, // addi x12, x10, 0
    0x0010_0513, // addi x10, x0, 1
    0x0400_0893, // addi x17, x0, 64
    0x0000_0073, // ecall
    0x0006_0513, // addi x10, x12, 0
    0x05d0_0893, // addi x17, x0, 93
    0x0000_0073, // ecall
];

/// A host with a key of 32 bytes in `k`, one of 31 in `s` and one of 33 in `l`, a program in `a`, and the input `hello`
/// in `i`.
fn host(alloc: Global, failing: &[u64], program: &[u8]) -> Result<MemHost, Fail> {
    let mut host = MemHost::new(alloc, failing.to_vec(alloc)?);
    for (name, length) in [("k", 32), ("s", 31), ("l", 33)] {
        let key = vec![in alloc; 7; length]?;
        host.add(name, key.as_slice())?;
    }
    host.add("a", program)?;
    host.add("i", b"hello")?;
    Ok(host)
}

fn words(alloc: Global, line: &str) -> Result<Vec<String>, AllocError> {
    line.split_ascii_whitespace()
        .map(|word| String::from_str(alloc, word))
        .try_collect(alloc)
}

/// Takes a line's words to a host and a memory, and compares the status, what is printed and the file `o`.
fn compare_over<R: Abort, M: UntrustedMemory>(
    rt: &R,
    alloc: Global,
    line: &str,
    host: &mut MemHost,
    memory: &mut M,
    tap: &mut Recorder,
    status: u8,
    printed: &str,
    output: Option<&str>,
) -> Result<(), Fail>
    requires fresh { (M.state memory.old).count ≡ 0 }
    requires moved { (M.state memory.old).moved < 2 ^ 62 }
    requires tap { tap.old ≡ fresh_tap }
{
    let words = words(alloc, line)?;
    let ended = ascend(alloc, words.as_slice(), host, memory, tap);
    assert!(rt; ended == status, "{line}: {ended}");
    assert!(rt; host.printed() == printed.as_bytes(), "{line}");
    assert!(rt; host.file("o") == output.map(str::as_bytes), "{line}");
    Ok(())
}

/// The same over a memory that does as it is asked.
fn compare<R: Abort>(
    rt: &R,
    alloc: Global,
    line: &str,
    host: &mut MemHost,
    status: u8,
    printed: &str,
    output: Option<&str>,
) -> Result<(), Fail> {
    let mut memory = HonestMemory::new(alloc);
    let mut tap = Recorder::new(alloc);
    compare_over(
        rt,
        alloc,
        line,
        host,
        &mut memory,
        &mut tap,
        status,
        printed,
        output,
    )
}

/// The words, the status, the printed text and the output of `EXIT`.
const ROWS: [(&str, u8, &str, Option<&str>); 26] = [
    (
        "flat output=o elf=a",
        0,
        "end exit 0\ninstructions 2\n",
        Some(""),
    ),
    (
        "flat elf=a output=o budget=2",
        0,
        "end exit 0\ninstructions 2\n",
        Some(""),
    ),
    (
        "flat elf=a output=o budget=1",
        9,
        "end budget\ninstructions 1\n",
        Some(""),
    ),
    (
        "flat elf=a output=o size=69632",
        0,
        "end exit 0\ninstructions 2\n",
        Some(""),
    ),
    (
        "flat elf=a output=o base=65536",
        0,
        "end exit 0\ninstructions 2\n",
        Some(""),
    ),
    ("flat elf=a output=o size=65536", 3, "elf Outside 0\n", None),
    ("flat elf=a output=o base=69632", 3, "elf Outside 0\n", None),
    ("", 2, "usage word 1\n", None),
    ("run", 2, "usage word 2\n", None),
    ("run elf=a elf=b", 2, "usage word 3\n", None),
    ("run elf=a key=k output=o plb=01", 2, "usage word 5\n", None),
    ("run elf=a key=k output=o plb=0", 4, "setting plb\n", None),
    (
        "run elf=a key=k output=o rates=256,256",
        4,
        "setting rates\n",
        None,
    ),
    (
        "run elf=a key=k output=o rates=256",
        4,
        "setting first\n",
        None,
    ),
    (
        "run elf=a key=k output=o size=4095",
        4,
        "setting size\n",
        None,
    ),
    ("flat elf=a output=o size=4097", 4, "setting size\n", None),
    ("flat elf=a output=o base=1", 4, "setting base\n", None),
    (
        "flat elf=a output=o base=4294963200",
        4,
        "setting base\n",
        None,
    ),
    (
        "run elf=b key=s output=o budget=1000000001",
        4,
        "setting budget\n",
        None,
    ),
    (
        "flat elf=a output=o budget=1000000001 base=1 size=1",
        4,
        "setting size\n",
        None,
    ),
    ("run elf=b key=s output=o", 4, "key length 31\n", None),
    ("run elf=b key=l output=o", 13, "long key\n", None),
    ("run elf=b key=k output=o", 5, "", None),
    ("run elf=a key=b output=o", 5, "", None),
    ("flat elf=a output=o input=b", 5, "", None),
    ("flat elf=k output=o input=b", 3, "elf Short\n", None),
];

#[test]
fn commands_end(rt: HostRuntime) -> Result<(), Fail> {
    let alloc = rt.alloc();
    let exit = elf(alloc, &EXIT, "")?;
    for (line, status, printed, output) in ROWS {
        let mut host = host(alloc, &[], exit.as_slice())?;
        compare(&rt, alloc, line, &mut host, status, printed, output)?;
    }
    Ok(())
}

/// Programs with the text that is behind them, and how their runs end, and their output.
const PROGRAMS: [(&[u32], &str, u8, &str, &str); 6] = [
    (
        &[0x0070_0513, 0x05d0_0893, 0x0000_0073],
        "",
        0,
        "end exit 7\ninstructions 3\n",
        "",
    ),
    (
        &HELLO,
        "hello\n",
        0,
        "end exit 0\ninstructions 9\n",
        "hello\n",
    ),
    (
        &[0x0000_0013, 0xffff_ffff],
        "",
        1,
        "end trap Illegal 65540\ninstructions 1\n",
        "",
    ),
    // addi x5, x0, 2; jalr x0, 0(x5)
    (
        &[0x0020_0293, 0x0002_8067],
        "",
        1,
        "end trap FetchMisaligned 65540\ninstructions 1\n",
        "",
    ),
    // lui x5, 0x100; lw x6, 0(x5)
    (
        &[0x0010_02b7, 0x0002_a303],
        "",
        1,
        "end trap LoadFault 65540\ninstructions 1\n",
        "",
    ),
    (
        &[0x0010_0073],
        "",
        1,
        "end trap Breakpoint 65536\ninstructions 0\n",
        "",
    ),
];

#[test]
fn runs_end(rt: HostRuntime) -> Result<(), Fail> {
    let alloc = rt.alloc();
    for (program, text, status, printed, output) in PROGRAMS {
        let file = elf(alloc, program, text)?;
        let mut host = host(alloc, &[], file.as_slice())?;
        let line = "flat elf=a output=o";
        compare(&rt, alloc, line, &mut host, status, printed, Some(output))?;
    }
    Ok(())
}

#[test]
fn the_input_is_read(rt: HostRuntime) -> Result<(), Fail> {
    let alloc = rt.alloc();
    let copy = elf(alloc, &COPY, "")?;
    let mut given = host(alloc, &[], copy.as_slice())?;
    let line = "flat elf=a output=o input=i";
    let printed = "end exit 5\ninstructions 11\n";
    compare(&rt, alloc, line, &mut given, 0, printed, Some("hello"))?;
    let mut long = host(alloc, &[], copy.as_slice())?;
    let input = vec![in alloc; 0; 1_048_577]?;
    long.add("i", input.as_slice())?;
    let line = "flat elf=a output=o input=i";
    compare(&rt, alloc, line, &mut long, 13, "long input\n", None)?;
    let mut program = host(alloc, &[], copy.as_slice())?;
    let file = vec![in alloc; 0; 16_777_217]?;
    program.add("a", file.as_slice())?;
    compare(&rt, alloc, line, &mut program, 13, "long elf\n", None)
}
