//! The slots of small runs: when they start, whose they are, and how many moves there are.

ghost use Rattle.std.specs.Prelude.{◌≡◌};

use super::running::{JUMP, LOAD, SMALL};
use super::*;
use asc_base::{Address, Counter, Point};
use bus_watch::{Event, Log};

/// The starts that were noted.
fn starts(alloc: Global, log: &Log) -> Result<Vec<u64>, Fail> {
    let mut starts = Vec::new(alloc);
    for event in &log.events {
        if let Event::Access { start, .. } = event {
            starts.push(*start)?;
        }
    }
    Ok(starts)
}

/// The points whose leaves were drawn.
fn points(alloc: Global, log: &Log) -> Result<Vec<Point>, Fail> {
    let mut points = Vec::new(alloc);
    for event in &log.events {
        if let Event::Drawn { point, .. } = event {
            points.push(*point)?;
        }
    }
    Ok(points)
}

/// What the tap noted of a run of a program with words behind those of `SMALL`.
fn run_small(alloc: Global, program: &[u32], more: &str) -> Result<Recorder, Fail> {
    let file = elf_at(alloc, 0, program, "")?;
    let mut host = host(alloc, &[], file.as_slice())?;
    let line = format!(in alloc; "{SMALL} {more}")?;
    let words = words(alloc, &line)?;
    let mut memory = HonestMemory::new(alloc);
    let mut tap = Recorder::new(alloc);
    let _ = ascend(alloc, words.as_slice(), &mut host, &mut memory, &mut tap);
    Ok(tap)
}

/// Programs, the words behind those of `SMALL`, the numbers of slots and of moves, and the starts of some slots, counted
/// from 0. Each slot takes 496 cycles and makes twelve moves.
const STARTS: [(&[u32], &str, usize, usize, &[(usize, u64)]); 5] = [
    (&LOAD, "time=200", 0, 0, &[]),
    (
        &LOAD,
        "",
        4,
        48,
        &[(0, 256), (1, 1_008), (2, 1_760), (3, 2_512)],
    ),
    (
        &LOAD,
        "rates=256 leak=0",
        4,
        48,
        &[(0, 256), (1, 1_008), (2, 1_760), (3, 2_512)],
    ),
    (
        &JUMP,
        "rates=256 leak=0 time=6000",
        8,
        96,
        &[(3, 2_512), (4, 3_264), (5, 4_016), (6, 4_768), (7, 5_520)],
    ),
    // the 44th slot ends at 33,088, and the next one comes at the rate that was chosen there
    (
        &JUMP,
        "leak=2 epoch=32768 time=200000",
        53,
        636,
        &[(43, 32_592), (44, 49_472), (52, 184_512)],
    ),
];

#[test]
fn slots_start_at_the_rate(rt: HostRuntime) -> Result<(), Fail> {
    let alloc = rt.alloc();
    for (program, more, slots, moves, some) in STARTS {
        let tap = run_small(alloc, program, more)?;
        let starts = starts(alloc, tap.log())?;
        assert!(rt; starts.len() == slots, "{more}");
        for (number, start) in some {
            assert!(rt; starts.get(*number) == Some(start), "{more}: {number}");
        }
        assert!(rt; tap.log().moves.len() == moves, "{more}");
    }
    Ok(())
}

/// A block whose counter has group 0.
fn real(address: u32, own: u16) -> Point {
    Point::Real(Address(address), Counter { group: 0, own })
}

/// The load's line 1 and its program's line 0 have one parent, block 64.
#[test]
fn each_slot_is_of_a_block(rt: HostRuntime) -> Result<(), Fail> {
    let alloc = rt.alloc();
    let tap = run_small(alloc, &LOAD, "")?;
    let points = points(alloc, tap.log())?;
    let wanted = [real(64, 0), real(0, 0), real(1, 0), real(0, 1)];
    assert!(rt; points.as_slice() == wanted.as_slice());
    Ok(())
}
