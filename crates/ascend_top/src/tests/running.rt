//! The command `run`, by rows that were worked out by hand.

ghost use Rattle.std.specs.Prelude.{◌≡◌, ◌<◌, ◌≤◌, ◌^◌};

use super::*;
use asc_outside::{BUCKET_BYTES, Failed, MemStop, ScriptedMemory, empty_bucket};

/// Settings of 4,096 bytes at 0 and a cache of one line, whose slots take 496 cycles and start at 256, 1,008, 1,760 and
/// so on.
pub(super) const SMALL: &str = "run elf=a key=k output=o trace=t size=4096 sets=1 ways=1 first=0";

/// `lw x5, 64(x0)`, and exits.
pub(super) const LOAD: [u32; 3] = [0x0400_2283, 0x05d0_0893, 0x0000_0073];

/// Jumps to itself.
pub(super) const JUMP: [u32; 1] = [0x0000_006f];

/// The ten lines of a report: the ending, instructions, cycles, last, fetches, real, dummies, choices, code, altered.
pub(super) fn report(alloc: Global, end: &str, numbers: [u64; 9]) -> Result<String, AllocError> {
    let mut text = format!(in alloc; "end {end}\n")?;
    let names = [
        "instructions",
        "cycles",
        "last",
        "fetches",
        "real",
        "dummies",
        "choices",
        "code",
        "altered",
    ];
    for (name, number) in names.iter().zip(numbers.iter()) {
        write!(text, "{name} {number}\n")?;
    }
    Ok(text)
}

/// Programs at 0, the words behind those of `SMALL`, the status, the ending and the report's numbers.
const ROWS: [(&[u32], &str, u8, &str, [u64; 9]); 13] = [
    (&LOAD, "", 0, "exit 0", [3, 3_019, 3_019, 2, 4, 0, 0, 0, 0]),
    // addi x5, x0, 2; jalr x0, 0(x5)
    (
        &[0x0020_0293, 0x0002_8067],
        "",
        1,
        "trap FetchMisaligned 4",
        [1, 2, 2, 0, 0, 0, 0, 0, 0],
    ),
    // bne x0, x0, 2 goes on; beq x0, x0, 2 doesn't
    (
        &[0x0000_1163, 0x05d0_0893, 0x0000_0073],
        "",
        0,
        "exit 0",
        [3, 13, 13, 0, 0, 0, 0, 0, 0],
    ),
    (
        &[0x0000_0163],
        "",
        1,
        "trap FetchMisaligned 0",
        [0, 1, 1, 0, 0, 0, 0, 0, 0],
    ),
    // host calls: a read of 4 bytes at the input's end, and one of none
    (
        &[0x0040_0613, 0x03f0_0893, 0x73, 0x05d0_0893, 0x73],
        "",
        0,
        "exit 0",
        [5, 24, 24, 0, 0, 0, 0, 0, 0],
    ),
    (
        &[0x03f0_0893, 0x73, 0x05d0_0893, 0x73],
        "",
        0,
        "exit 0",
        [4, 23, 23, 0, 0, 0, 0, 0, 0],
    ),
    // a read of 4 bytes to 4,094, one of file 7, and the call 1000
    (
        &[
            0x0000_15b7,
            0xffe5_8593,
            0x0040_0613,
            0x03f0_0893,
            0x73,
            0x05d0_0893,
            0x73,
        ],
        "",
        0,
        "exit 242",
        [7, 26, 26, 0, 0, 0, 0, 0, 0],
    ),
    (
        &[0x0070_0513, 0x03f0_0893, 0x73, 0x05d0_0893, 0x73],
        "",
        0,
        "exit 247",
        [5, 24, 24, 0, 0, 0, 0, 0, 0],
    ),
    (
        &[0x3e80_0893, 0x73, 0x05d0_0893, 0x73],
        "",
        0,
        "exit 218",
        [4, 23, 23, 0, 0, 0, 0, 0, 0],
    ),
    (
        &LOAD,
        "rates=256 leak=0",
        0,
        "exit 0",
        [3, 3_019, 3_019, 2, 4, 0, 0, 0, 0],
    ),
    (
        &JUMP,
        "rates=256 leak=0 time=6000",
        8,
        "time 6001",
        [3_000, 6_001, 6_016, 0, 0, 8, 0, 0, 0],
    ),
    (
        &JUMP,
        "leak=2 epoch=32768 time=200000",
        8,
        "time 200001",
        [100_000, 200_001, 200_000, 0, 0, 53, 1, 3, 0],
    ),
    (
        &LOAD,
        "time=200",
        8,
        "time 256",
        [0, 1, 200, 0, 0, 0, 0, 0, 0],
    ),
];

#[test]
fn small_runs_end(rt: HostRuntime) -> Result<(), Fail> {
    let alloc = rt.alloc();
    for (program, more, status, end, numbers) in ROWS {
        let file = elf_at(alloc, 0, program, "")?;
        let mut host = host(alloc, &[], file.as_slice())?;
        let line = format!(in alloc; "{SMALL} {more}")?;
        let printed = report(alloc, end, numbers)?;
        compare(&rt, alloc, &line, &mut host, status, &printed, Some(""))?;
        // the trace of each holds
        let words = words(alloc, "check trace=t")?;
        let mut memory = HonestMemory::new(alloc);
        let mut tap = Recorder::new(alloc);
        let ended = ascend(alloc, words.as_slice(), &mut host, &mut memory, &mut tap);
        assert!(rt; ended == 0, "{more}");
        let bits = if numbers[6] == 1 { 2 } else { 0 };
        let code = numbers[7];
        let held = format!(in alloc; "{printed}holds code {code} bits {bits}\n")?;
        assert!(rt; host.printed() == held.as_bytes(), "{more}");
    }
    Ok(())
}

/// Programs at 65,536 with the default settings and the text that is behind them, the words, the status, the ending,
/// the report's numbers and the output.
const DEFAULT_ROWS: [(&[u32], &str, &str, u8, &str, [u64; 9], &str); 3] = [
    (
        &EXIT,
        "",
        "run elf=a key=k output=o",
        0,
        "exit 0",
        [2, 12, 12, 0, 0, 0, 0, 0, 0],
        "",
    ),
    (
        &HELLO,
        "hello\n",
        "run elf=a key=k output=o input=i",
        0,
        "exit 0",
        [9, 34, 34, 0, 0, 0, 0, 0, 0],
        "hello\n",
    ),
    (
        &HELLO,
        "hello\n",
        "run elf=a key=k output=o budget=0",
        9,
        "budget",
        [0, 1, 1, 0, 0, 0, 0, 0, 0],
        "",
    ),
];

#[test]
fn runs_with_defaults_end(rt: HostRuntime) -> Result<(), Fail> {
    let alloc = rt.alloc();
    for (program, text, line, status, end, numbers, output) in DEFAULT_ROWS {
        let file = elf(alloc, program, text)?;
        let mut host = host(alloc, &[], file.as_slice())?;
        let printed = report(alloc, end, numbers)?;
        compare(&rt, alloc, line, &mut host, status, &printed, Some(output))?;
    }
    Ok(())
}

/// The traces of a run without an access, and of one with four, each with its leaf.
const TRACES: [(&[u32], u32, &str, &str); 2] = [
    (
        &EXIT,
        65_536,
        "run elf=a key=k output=o trace=t",
        "ascend trace 1
levels 13
rates 256 1024 4096 16384
first 3
epoch 65536
leak 16
end 12
",
    ),
    (
        &LOAD,
        0,
        SMALL,
        "ascend trace 1
levels 5
rates 256 1024 4096 16384
first 0
epoch 65536
leak 16
access 256 6 12
access 1008 11 12
access 1760 6 12
access 2512 0 12
end 3019
",
    ),
];

#[test]
fn traces_are_written(rt: HostRuntime) -> Result<(), Fail> {
    let alloc = rt.alloc();
    for (program, at, line, trace) in TRACES {
        let file = elf_at(alloc, at, program, "")?;
        let mut host = host(alloc, &[], file.as_slice())?;
        let words = words(alloc, line)?;
        let mut memory = HonestMemory::new(alloc);
        let mut tap = Recorder::new(alloc);
        let ended = ascend(alloc, words.as_slice(), &mut host, &mut memory, &mut tap);
        assert!(rt; ended == 0);
        assert!(rt; host.file("t") == Some(trace.as_bytes()));
    }
    Ok(())
}

#[test]
fn each_call_fails_in_turn(rt: HostRuntime) -> Result<(), Fail> {
    let alloc = rt.alloc();
    let hello = elf(alloc, &HELLO, "hello\n")?;
    let printed = report(alloc, "exit 0", [9, 34, 34, 0, 0, 0, 0, 0, 0])?;
    let line = "run elf=a key=k output=o input=i trace=t";
    for (number, status, printed, output, traced) in [
        (0, 0, printed.as_str(), Some("hello\n"), true),
        (1, 5, "", None, false),
        (2, 5, "", None, false),
        (3, 5, "", None, false),
        (4, 5, "", None, false),
        (5, 5, "", Some("hello\n"), false),
        (6, 5, "", Some("hello\n"), true),
    ] {
        let mut host = host(alloc, &[number], hello.as_slice())?;
        compare(&rt, alloc, line, &mut host, status, printed, output)?;
        assert!(rt; host.file("t").is_some() == traced);
    }
    // without an input the third call is the write of the output
    let mut third = host(alloc, &[3], hello.as_slice())?;
    let line = "run elf=a key=k output=o trace=t";
    compare(&rt, alloc, line, &mut third, 5, "", None)?;
    assert!(rt; third.file("t").is_none());
    // the print of a refusal's text fails
    let mut host = host(alloc, &[2], hello.as_slice())?;
    compare(
        &rt,
        alloc,
        "run elf=a key=s output=o",
        &mut host,
        4,
        "",
        None,
    )
}

/// The end of a run whose move with this number, counted from 1, fails, of slots of twelve: the cycle after the move's.
fn end_at(number: u64) -> u64
    requires some { 1 ≤ number }
    requires few { number ≤ 48 }
{
    let start = 256 + 752 * ((number - 1) / 12);
    match (number - 1) % 12 {
        read if read < 6 => start + 40 * read + 1,
        write => start + 256 + 40 * (write - 6) + 1,
    }
}

/// Runs `LOAD` with words behind those of `SMALL` over a memory, and compares the status, the report, and how many
/// moves the tap noted.
fn load_over<R: Abort, M: UntrustedMemory>(
    rt: &R,
    alloc: Global,
    more: &str,
    memory: &mut M,
    status: u8,
    end: &str,
    numbers: [u64; 9],
    moves: u64,
) -> Result<(), Fail>
    requires fresh { (M.state memory.old).count ≡ 0 }
    requires moved { (M.state memory.old).moved < 2 ^ 62 }
{
    let file = elf_at(alloc, 0, &LOAD, "")?;
    let mut host = host(alloc, &[], file.as_slice())?;
    let mut tap = Recorder::new(alloc);
    let line = format!(in alloc; "{SMALL} {more}")?;
    let printed = report(alloc, end, numbers)?;
    compare_over(
        rt,
        alloc,
        &line,
        &mut host,
        memory,
        &mut tap,
        status,
        &printed,
        Some(""),
    )?;
    assert!(rt; tap.log().moves.len() as u64 == moves, "{end}");
    Ok(())
}

#[test]
fn each_move_fails_in_turn(rt: HostRuntime) -> Result<(), Fail> {
    let alloc = rt.alloc();
    for number in 1..=48u64 {
        let mut memory = FaultyMemory::new(alloc, vec![in alloc; number]?);
        let last = end_at(number);
        let real = (number - 1) / 12 + 1;
        let numbers = if real < 4 {
            [0, 1, last, 0, real, 0, 0, 0, 0]
        } else {
            [1, 2_258, last, 1, real, 0, 0, 0, 0]
        };
        load_over(&rt, alloc, "", &mut memory, 10, "device", numbers, number)?;
    }
    Ok(())
}

/// One block at the top above two: line 0's parent displaces it after the second slot, which ends at 1,504, and there
/// is no room for it.
#[test]
fn a_displaced_block_finds_no_room(rt: HostRuntime) -> Result<(), Fail> {
    let alloc = rt.alloc();
    let mut memory = HonestMemory::new(alloc);
    load_over(
        &rt,
        alloc,
        "plb=1 roots=1 stash=0",
        &mut memory,
        7,
        "stash 1",
        [0, 1, 1_504, 0, 2, 0, 0, 0, 0],
        24,
    )
}

/// Every bucket of the paths of the leaves 6, 11, 6 and 0 is answered with zero bytes. Of their buckets 0, 2, 6 and 3
/// were written before. The first block that should be there is line 0, which the second slot wrote; its fetch's reads
/// end at 2,512 + 6 * 40.
#[test]
fn a_lost_block_is_missed(rt: HostRuntime) -> Result<(), Fail> {
    let alloc = rt.alloc();
    let replies = vec![in alloc; empty_bucket(); 24]?;
    let mut memory = ScriptedMemory::new(alloc, replies, 42)?;
    load_over(
        &rt,
        alloc,
        "",
        &mut memory,
        6,
        "integrity Missing 0",
        [1, 2_258, 2_752, 1, 4, 0, 0, 0, 11],
        42,
    )
}

/// A memory that can't be prepared. It tells no buckets, and counts as many faults as it was asked to prepare.
#[derive(Drop)]
struct Unprepared {
    memory: HonestMemory,
}

impl UntrustedMemory for Unprepared {
    ghost use Rattle.std.specs.Prelude.{None};
    ghost use Rattle.asc_outside.specs.Memories.{told_by_buckets};

    ghost state = { λ m. record (told_by_buckets m.memory) { faults = m.memory.count; told = None } };

    fn prepare(&mut self, buckets: u32) -> Result<(), MemStop> {
        let _ = self.memory.prepare(buckets);
        Err(MemStop::Failed)
    }

    fn read(
        &mut self,
        time: u64,
        bucket: u32,
        into: &mut [u8; BUCKET_BYTES],
    ) -> Result<(), Failed> {
        self.memory.read(time, bucket, into)
    }

    fn write(&mut self, time: u64, bucket: u32, bytes: &[u8; BUCKET_BYTES]) -> Result<(), MemStop> {
        self.memory.write(time, bucket, bytes)
    }
}

#[test]
fn nothing_runs_over_an_unprepared_memory(rt: HostRuntime) -> Result<(), Fail> {
    let alloc = rt.alloc();
    let mut memory = Unprepared {
        memory: HonestMemory::new(alloc),
    };
    load_over(&rt, alloc, "", &mut memory, 10, "device", [0; 9], 0)
}
