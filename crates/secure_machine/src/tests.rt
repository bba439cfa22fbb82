//! Rows that were worked out by hand.

ghost use Rattle.std.specs.Prelude.{◌≡◌, ◌<◌, ◌^◌, length};
ghost use Rattle.bus_watch.specs.Log.{fresh_tap};

use crate::{Ending, Report, run};
use asc_base::{Config, Settings, WideRates};
use asc_outside::{FaultyMemory, HonestMemory, UntrustedMemory};
use bucket_codec::Codec;
use bus_watch::{Bus, Recorder};
use elf_loader::parse;
use leaf_function::KeyedLeaf;
use pmmac_tags::Tagger;
use std::alloc::{AllocError, Global};
use std::process::Abort;
use std::test::Fail;

const KEY: [u8; 32] = [
    0, 1, 2, 3, 4, 5, 6, 7, 8, 9, 10, 11, 12, 13, 14, 15, 16, 17, 18, 19, 20, 21, 22, 23, 24, 25,
    26, 27, 28, 29, 30, 31,
];

const RATES: [u64; 16] = [
    256, 1_024, 4_096, 16_384, 0, 0, 0, 0, 0, 0, 0, 0, 0, 0, 0, 0,
];

/// The default settings.
fn settings() -> Settings {
    Settings {
        size: 1_048_576,
        base: 0,
        sets: 64,
        ways: 8,
        plb: 32,
        roots: 16,
        ic: 14,
        stash: 200,
        budget: 10_000_000,
        time: 268_435_456,
        leak: 16,
        rates: WideRates {
            list: RATES,
            count: 4,
        },
        first: 3,
        epoch: 65_536,
    }
}

/// Those of 4,096 bytes and a cache of one line, whose slots take 496 cycles.
fn small() -> Settings {
    let mut settings = settings();
    settings.size = 4_096;
    settings.sets = 1;
    settings.ways = 1;
    settings.first = 0;
    settings
}

/// An ELF file with one segment: these words at an address, from where it starts.
fn elf(alloc: Global, at: u32, words: &[u32]) -> Result<Vec<u8>, AllocError>
    requires { length words.now < 100 }
{
    let size = 4 * words.len() as u32;
    let mut file = Vec::new(alloc);
    file.extend_from_slice(
        b"\x7fELF\x01\x01\x01\x00\x00\x00\x00\x00\x00\x00\x00\x00\x02\x00\xf3\x00",
    )?;
    for word in [1, at, 52, 0, 0] {
        file.extend_from_slice(&u32::to_le_bytes(word))?;
    }
    for half in [52, 32, 1, 0, 0, 0] {
        file.extend_from_slice(&u16::to_le_bytes(half))?;
    }
    for word in [1, 84, at, at, size, size, 7, 4096] {
        file.extend_from_slice(&u32::to_le_bytes(word))?;
    }
    for word in words {
        file.extend_from_slice(&u32::to_le_bytes(*word))?;
    }
    Ok(file)
}

/// What is reported of these words at an address.
fn ran<M: UntrustedMemory>(
    rt: &impl Abort,
    alloc: Global,
    settings: &Settings,
    at: u32,
    words: &[u32],
    memory: &mut M,
    tap: &mut Recorder,
) -> Report
    requires words { length words.now < 100 }
    requires fresh { (M.state memory.old).count ≡ 0 }
    requires moved { (M.state memory.old).moved < 2 ^ 62 }
    requires tap { tap.old ≡ fresh_tap }
{
    let config = match Config::check(settings) {
        Ok(config) => config,
        Err(setting) => panic!(rt; "{setting:?} isn't in its range"),
    };
    let levels = config.shape.levels;
    assert!(rt; levels >= 1);
    assert!(rt; levels <= 20);
    let file = match elf(alloc, at, words) {
        Ok(file) => file,
        Err(_) => panic!(rt; "no file"),
    };
    let image = match parse(alloc, &file, config.base, config.size) {
        Ok(image) => image,
        Err(fault) => panic!(rt; "{fault:?}"),
    };
    let leaf = KeyedLeaf::new(&KEY, levels);
    let mut bus = Bus::new(memory, tap);
    match run(
        alloc,
        &config,
        &image,
        &[],
        leaf,
        Tagger::new(&KEY),
        Codec::new(&KEY),
        &mut bus,
    ) {
        Ok(report) => report,
        Err(_) => panic!(rt; "no memory"),
    }
}

/// A report's numbers: instructions, cycles, last, fetches, real, dummies, choices and code.
fn numbers(report: &Report) -> [u64; 8] {
    [
        report.instructions,
        report.cycles,
        report.last,
        report.fetches,
        report.real,
        report.dummies,
        u64::from(report.choices),
        report.code,
    ]
}

const ROW_1: [u32; 2] = [0x05d00893, 0x00000073];

const ROW_2: [u32; 11] = [
    0x00100513, 0x000105b7, 0x02458593, 0x00600613, 0x04000893, 0x00000073, 0x00000513, 0x05d00893,
    0x00000073, 0x6c6c6568, 0x00000a6f,
];

const ROW_3: [u32; 3] = [0x04002283, 0x05d00893, 0x00000073];

const JUMP: [u32; 1] = [0x0000006f];

#[test]
fn exits(rt: HostRuntime) -> Result<(), Fail> {
    let mut memory = HonestMemory::new(rt.alloc());
    let mut tap = Recorder::new(rt.alloc());
    let report = ran(
        &rt,
        rt.alloc(),
        &settings(),
        65_536,
        &ROW_1,
        &mut memory,
        &mut tap,
    );
    assert!(rt; report.ending == Ending::Exit { status: 0 });
    assert!(rt; numbers(&report) == [2, 12, 12, 0, 0, 0, 0, 0]);
    Ok(())
}

#[test]
fn writes_its_output(rt: HostRuntime) -> Result<(), Fail> {
    let mut memory = HonestMemory::new(rt.alloc());
    let mut tap = Recorder::new(rt.alloc());
    let report = ran(
        &rt,
        rt.alloc(),
        &settings(),
        65_536,
        &ROW_2,
        &mut memory,
        &mut tap,
    );
    assert!(rt; report.ending == Ending::Exit { status: 0 });
    assert!(rt; report.output.as_slice() == b"hello\n".as_slice());
    assert!(rt; numbers(&report) == [9, 34, 34, 0, 0, 0, 0, 0]);
    Ok(())
}

#[test]
fn loads_a_line(rt: HostRuntime) -> Result<(), Fail> {
    let mut memory = HonestMemory::new(rt.alloc());
    let mut tap = Recorder::new(rt.alloc());
    let report = ran(&rt, rt.alloc(), &small(), 0, &ROW_3, &mut memory, &mut tap);
    assert!(rt; report.ending == Ending::Exit { status: 0 });
    assert!(rt; numbers(&report) == [3, 3_019, 3_019, 2, 4, 0, 0, 0]);
    assert!(rt; tap.log().moves.len() == 48);
    Ok(())
}

#[test]
fn ends_in_time(rt: HostRuntime) -> Result<(), Fail> {
    let mut settings = small();
    settings.rates.count = 1;
    settings.leak = 0;
    settings.time = 6_000;
    let mut memory = HonestMemory::new(rt.alloc());
    let mut tap = Recorder::new(rt.alloc());
    let report = ran(&rt, rt.alloc(), &settings, 0, &JUMP, &mut memory, &mut tap);
    assert!(rt; report.ending == Ending::TimeUp { at: 6_001 });
    assert!(rt; numbers(&report) == [3_000, 6_001, 6_016, 0, 0, 8, 0, 0]);
    let mut settings = small();
    settings.leak = 2;
    settings.epoch = 32_768;
    settings.time = 200_000;
    let mut memory = HonestMemory::new(rt.alloc());
    let mut tap = Recorder::new(rt.alloc());
    let report = ran(&rt, rt.alloc(), &settings, 0, &JUMP, &mut memory, &mut tap);
    assert!(rt; report.ending == Ending::TimeUp { at: 200_001 });
    assert!(rt; numbers(&report) == [100_000, 200_001, 200_000, 0, 0, 53, 1, 3]);
    let mut settings = small();
    settings.time = 200;
    let mut memory = HonestMemory::new(rt.alloc());
    let mut tap = Recorder::new(rt.alloc());
    let report = ran(&rt, rt.alloc(), &settings, 0, &ROW_3, &mut memory, &mut tap);
    assert!(rt; report.ending == Ending::TimeUp { at: 256 });
    assert!(rt; numbers(&report) == [0, 1, 200, 0, 0, 0, 0, 0]);
    Ok(())
}

#[test]
fn stops_early(rt: HostRuntime) -> Result<(), Fail> {
    let mut memory = FaultyMemory::new(rt.alloc(), vec![in rt.alloc(); 3]?);
    let mut tap = Recorder::new(rt.alloc());
    let report = ran(&rt, rt.alloc(), &small(), 0, &ROW_3, &mut memory, &mut tap);
    assert!(rt; report.ending == Ending::Device);
    assert!(rt; numbers(&report) == [0, 1, 337, 0, 1, 0, 0, 0]);
    assert!(rt; tap.log().moves.len() == 3);
    let mut none = settings();
    none.budget = 0;
    let mut memory = HonestMemory::new(rt.alloc());
    let mut tap = Recorder::new(rt.alloc());
    let report = ran(
        &rt,
        rt.alloc(),
        &none,
        65_536,
        &ROW_2,
        &mut memory,
        &mut tap,
    );
    assert!(rt; report.ending == Ending::Budget);
    assert!(rt; report.output.len() == 0);
    assert!(rt; numbers(&report) == [0, 1, 1, 0, 0, 0, 0, 0]);
    Ok(())
}
