ghost use Rattle.std.specs.Prelude.{◌≡◌, ◌<◌, ◌*◌, length};
ghost use Rattle.data_cache.specs.Contents.{CacheBelow};

use crate::{Cache, FlatLines, LineStore, Never, read_flat, step_cached};
use asc_base::Line;
use rv32_core::{Core, Ended, Files};
use std::alloc::Global;
use std::process::Abort;
use std::test::Fail;

/// A line of 64 times this byte.
fn filled(byte: u8) -> Line {
    Line([byte; 64])
}

/// A line of these bytes, and zeros behind them.
fn padded(bytes: &[u8]) -> Line {
    let mut line = [0u8; 64];
    for place in 0..64usize {
        if place < bytes.len() {
            line[place] = bytes[place];
        }
    }
    Line(line)
}

/// What was answered: it is never a stop.
fn answered<T>(answer: Result<T, Never>) -> T {
    match answer {
        Ok(value) => value,
        Err(never) => match never {},
    }
}

#[test]
fn writes_back_at_an_eviction(rt: HostRuntime) -> Result<(), Fail> {
    let mut flat = FlatLines::new(rt.alloc(), &[filled(1), filled(2), filled(3)])?;
    let mut cache = Cache::new(rt.alloc(), 1, 2)?;
    answered(cache.write_line(&mut flat, 0, &filled(7)));
    let mut two = [0u8; 2];
    answered(cache.write(&mut flat, 1, 62, &[8, 9]));
    answered(cache.read(&mut flat, 1, 61, &mut two));
    assert!(rt; two == [2, 8]);
    assert!(rt; answered(flat.fetch(0)) == filled(1));
    answered(cache.read(&mut flat, 2, 0, &mut two));
    assert!(rt; two == [3, 3]);
    assert!(rt; answered(flat.fetch(0)) == filled(7));
    assert!(rt; answered(flat.fetch(1)) == filled(2));
    Ok(())
}

/// One use of a line through a cache over 16 lines, told by a number, and the same on a plain list: whether what was
/// read is the same.
fn used_alike(cache: &mut Cache, flat: &mut FlatLines, plain: &mut [u8; 1024], number: u64) -> bool
    requires lines { length flat.old ≡ 16 }
    requires below { CacheBelow 16 cache.old }
    ensures lines { length flat.new ≡ 16 }
    ensures below { CacheBelow 16 cache.new }
{
    let bytes = number.to_le_bytes();
    let line = (number % 16) as u32;
    let start = 64 * line as usize;
    let offset = (number / 16 % 57) as usize;
    let count = (number / 1024 % 9) as usize;
    let at = start + offset;
    match number / 16384 % 8 {
        0 => {
            answered(cache.write_line(flat, line, &filled(bytes[4])));
            plain[start..start + 64].fill(bytes[4]);
            true
        }
        1..=3 => {
            answered(cache.write(flat, line, offset, &bytes[..count]));
            plain[at..at + count].copy_from_slice(&bytes[..count]);
            true
        }
        _ => {
            let mut into = [0u8; 8];
            read_flat(cache, flat, line, offset, &mut into[..count]);
            into[..count] == plain[at..at + count]
        }
    }
}

#[test]
fn uses_as_a_plain_list(rt: HostRuntime) -> Result<(), Fail> {
    for (seed, sets, ways) in [(1, 1, 1), (2, 1, 3), (3, 4, 1), (4, 3, 2), (5, 16, 2)] {
        let mut flat = FlatLines::new(rt.alloc(), &[filled(0); 16])?;
        let mut cache = Cache::new(rt.alloc(), sets, ways)?;
        let mut plain = [0u8; 1024];
        let mut state: u64 = seed;
        for step in 0..400 {
            state = state
                .wrapping_mul(6364136223846793005)
                .wrapping_add(1442695040888963407);
            assert!(rt;
                used_alike(&mut cache, &mut flat, &mut plain, state >> 24),
                "seed {seed}, step {step}"
            );
        }
    }
    Ok(())
}

/// Lines, and how many were fetched.
#[derive(Drop)]
struct Counting {
    flat: FlatLines,
    fetches: u64,
}

impl LineStore for Counting {
    ghost use Rattle.std.specs.Prelude.{Some, length};
    ghost use Rattle.data_cache.specs.Lines.{FlatStep, FlatStep-length, FlatStep-answers, FlatStep-told};
    ghost use Rattle.data_cache.specs.Lines.{FlatStep-fetch, FlatStep-store};
    ghost use Rattle.data_cache.specs.declared.flat.Never.{Never};

    type Stop = Never;

    ghost lines = { λ s. length s.flat };

    ghost told = { λ s. Some s.flat };

    ghost ready = { λ _. Unit {0} };

    ghost step = { λ s request answer t. FlatStep s.flat request answer t.flat };

    fn fetch(&mut self, line: u32) -> Result<Line, Never> {
        self.fetches = self.fetches.saturating_add(1);
        self.flat.fetch(line)
    }

    fn store(&mut self, line: u32, value: &Line) -> Result<(), Never> {
        self.flat.store(line, value)
    }

    ghost keeps_lines = { λ s t request answer h. FlatStep-length s.flat t.flat request answer h };

    ghost stays_ready = { λ s t request bytes ready h. tt };

    ghost answers = { λ s t request bytes h. FlatStep-answers Never s.flat t.flat request bytes h };

    ghost told_lines = { λ s list e. FlatStep-told s.flat list e };

    ghost tells_fetch = { λ s t line bytes h. FlatStep-fetch Never s.flat t.flat line bytes h };

    ghost tells_store = { λ s t line value done h. FlatStep-store Never s.flat t.flat line value done h };
}

/// At most 20 instructions over a cache and a memory of lines from address 0 on.
fn run_over(core: &mut Core, files: &mut Files, cache: &mut Cache, lines: &mut Counting) -> Ended
    requires base { core.old.base ≡ 0 }
    requires size { core.old.size ≡ 64 * length lines.old.flat }
    requires below { CacheBelow (length lines.old.flat) cache.old }
    requires lines { length lines.old.flat ≡ 64 }
    ensures lines { length lines.new.flat ≡ 64 }
{
    for _step in 0..20 {
        let done = answered(step_cached(core, files, 0, cache, lines));
        match done.ended {
            Ended::No => (),
            ended => return ended,
        }
    }
    Ended::No
}

/// A line with a program that reads so many bytes of its input to an address of line 0 or 1, writes them from there,
/// and exits with their number.
fn copying(address: u32, count: u8) -> Line {
    // addi x11, x0, 0; addi x12, x0, 0; addi x17, x0, 63; ecall; addi x10, x0, 1; addi x17, x0, 64; ecall;
    // addi x17, x0, 93; ecall
    let mut program: [u32; 9] = [
        0x0000_0593,
        0x0000_0613,
        0x03f0_0893,
        0x0000_0073,
        0x0010_0513,
        0x0400_0893,
        0x0000_0073,
        0x05d0_0893,
        0x0000_0073,
    ];
    program[0] |= (address & 0x7f) << 20;
    program[1] |= (count as u32) << 20;
    let mut line = [0u8; 64];
    for i in 0..program.len() {
        line[4 * i..4 * i + 4].copy_from_slice(&program[i].to_le_bytes());
    }
    Line(line)
}

/// Runs it through a cache over 64 lines, with this input. So many lines are fetched, and at the end line 1 of the
/// memory has these bytes, and zeros behind them.
fn compare_copying(
    rt: &impl Abort,
    alloc: Global,
    sets: u32,
    ways: u32,
    address: u32,
    input: &[u8],
    fetches: u64,
    behind: &[u8],
) -> Result<(), Fail>
    requires sets { 0 < sets }
    requires ways { 0 < ways }
{
    let Ok(count) = u8::try_from(input.len()) else {
        return Err("an input".into());
    };
    let mut list = [filled(0); 64];
    list[0] = copying(address, count);
    let flat = FlatLines::new(alloc, &list)?;
    let mut lines = Counting { flat, fetches: 0 };
    let mut cache = Cache::new(alloc, sets, ways)?;
    let mut files = Files::new(alloc, input, 64)?;
    let mut core = Core::new(0, 0, 4096, 4096);
    let ended = run_over(&mut core, &mut files, &mut cache, &mut lines);
    assert!(rt; ended == Ended::Exit { status: count });
    assert!(rt; files.output() == input);
    assert!(rt; lines.fetches == fetches, "{} fetches", lines.fetches);
    assert!(rt; answered(lines.flat.fetch(1)) == padded(behind));
    Ok(())
}

/// A buffer that crosses from line 0 into line 1, and one that is line 1. Where there is one way for both lines, the
/// code lets the buffer's line go and the buffer the code's; else each is fetched once, the covered line too, and
/// nothing is written back at the end.
#[test]
fn host_calls_cross_a_line(rt: HostRuntime) -> Result<(), Fail> {
    let alloc = rt.alloc();
    for (address, input, behind) in [
        (60u32, b"crossing".as_slice(), b"sing".as_slice()),
        (64, [7; 64].as_slice(), [7; 64].as_slice()),
    ] {
        compare_copying(&rt, alloc, 1, 1, address, input, 5, behind)?;
        compare_copying(&rt, alloc, 1, 2, address, input, 2, b"")?;
        compare_copying(&rt, alloc, 4, 2, address, input, 2, b"")?;
    }
    Ok(())
}
