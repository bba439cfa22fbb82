//! Calls over honest, altering and failing memories, with answers that were worked out by hand.

ghost use Rattle.std.specs.Prelude.{◌≡◌, ◌<◌, ◌^◌, [], None, IfOk};
ghost use Rattle.asc_base.specs.Settings.{IsConfig};
ghost use Rattle.oram_frontend.specs.Oram.{CanServe};
ghost use Rattle.rate_enforcer.specs.State.{Rests};

mod altering;

use crate::Oram;
use altering::{Altering, Change};
use asc_base::{
    Address, Config, Counter, Evidence, Leaf, Line, Message, Point, Settings, Stop, WideRates,
};
use asc_outside::{FaultyMemory, HonestMemory, UntrustedMemory};
use bucket_codec::Codec;
use bus_watch::{Bus, Event, Log, Recorder, Watch};
use leaf_function::{KeyedLeaf, LeafFn, TableLeaf};
use pmmac_tags::Tagger;
use rate_enforcer::Port;
use std::alloc::Global;
use std::process::Abort;
use std::test::Fail;
use unified_tree::Tree;

const KEY: [u8; 32] = [
    0, 1, 2, 3, 4, 5, 6, 7, 8, 9, 10, 11, 12, 13, 14, 15, 16, 17, 18, 19, 20, 21, 22, 23, 24, 25,
    26, 27, 28, 29, 30, 31,
];

/// What is asked for.
#[derive(Clone, Copy, Debug, PartialEq, Eq)]
enum Call {
    /// The line of a number.
    Fetch(u32),
    /// That so many equal bytes take the place of the line of a number.
    Store(u32, u8),
}

use Call::{Fetch, Store};

/// An answer: the line, where one was fetched, and the end of the last slot; or the stop.
type Answer = Result<(Option<Line>, u64), Stop>;

/// The default settings, but for a time in cycles.
fn defaults(time: u64) -> Settings {
    let list = [
        256, 1_024, 4_096, 16_384, 0, 0, 0, 0, 0, 0, 0, 0, 0, 0, 0, 0,
    ];
    Settings {
        size: 1_048_576,
        base: 0,
        sets: 64,
        ways: 8,
        plb: 32,
        roots: 16,
        ic: 14,
        stash: 200,
        budget: 10_000_000,
        time,
        leak: 16,
        rates: WideRates { list, count: 4 },
        first: 3,
        epoch: 65_536,
    }
}

/// The settings of 4,096 bytes, whose slots take 496 cycles, at one rate of 256.
fn small(time: u64) -> Settings {
    let list = [256, 0, 0, 0, 0, 0, 0, 0, 0, 0, 0, 0, 0, 0, 0, 0];
    Settings {
        size: 4_096,
        sets: 1,
        ways: 1,
        rates: WideRates { list, count: 1 },
        first: 0,
        ..defaults(time)
    }
}

/// The configuration of settings.
fn checked(rt: &impl Abort, settings: &Settings) -> Config
    ensures { IsConfig result }
{
    match Config::check(settings) {
        Ok(config) => config,
        Err(setting) => panic!(rt; "{setting:?} isn't in its range"),
    }
}

/// Leaves that are all 0, of so many levels.
fn zeros(alloc: Global, levels: u32) -> TableLeaf
    ensures { result.levels ≡ levels }
{
    TableLeaf::new(alloc, Vec::new(alloc), Leaf(0), levels)
}

/// A new port with these leaves, over a bus that is prepared for so many slots.
fn prepared<L: LeafFn, M: UntrustedMemory, W: Watch>(
    rt: &impl Abort,
    alloc: Global,
    config: &Config,
    leaves: L,
    slots: u64,
    bus: &mut Bus<'_, M, W>,
) -> Port<L>
    requires config { IsConfig config.now }
    requires levels { L.levels leaves ≡ config.now.shape.levels }
    requires fresh { (M.state bus.old.memory.now).count ≡ 0 }
    requires moved { (M.state bus.old.memory.now).moved < 2 ^ 62 }
    requires events { (W.state bus.old.tap.now).log.events ≡ [] }
    requires moves { (W.state bus.old.tap.now).log.moves ≡ [] }
    ensures rests { Rests 0 result.clock result.tree (L.levels result.leaves)
        (M.state bus.new.memory.now) (W.state bus.new.tap.now) }
    ensures shape { result.tree.shape ≡ config.now.shape }
{
    let olat = config.shape.olat();
    assert!(rt; slots < 1_000);
    assert!(rt; olat < 10_000);
    assert!(rt; config.time <= 64 + slots * olat);
    let tree = match Tree::new(alloc, &config.shape, config.stash, Codec::new(&KEY)) {
        Ok(tree) => tree,
        Err(_) => panic!(rt; "no tree"),
    };
    match bus.prepare(config.shape.buckets, config.shape.levels, slots) {
        Ok(()) => Port::new(config, leaves, tree),
        Err(stop) => panic!(rt; "{stop:?} of the bus"),
    }
}

/// A new encrypted memory with these leaves, over a bus that is prepared for all slots before the time of the settings.
fn started<L: LeafFn, M: UntrustedMemory, W: Watch>(
    rt: &impl Abort,
    alloc: Global,
    config: &Config,
    leaves: L,
    bus: &mut Bus<'_, M, W>,
) -> Oram<L>
    requires config { IsConfig config.now }
    requires levels { L.levels leaves ≡ config.now.shape.levels }
    requires fresh { (M.state bus.old.memory.now).count ≡ 0 }
    requires moved { (M.state bus.old.memory.now).moved < 2 ^ 62 }
    requires events { (W.state bus.old.tap.now).log.events ≡ [] }
    requires moves { (W.state bus.old.tap.now).log.moves ≡ [] }
    ensures serves { CanServe result.front result.port.clock result.port.tree (L.levels result.port.leaves)
        (M.state bus.new.memory.now) (W.state bus.new.tap.now) }
    ensures lines { result.front.shape.lines ≡ config.now.shape.lines }
{
    let olat = config.shape.olat();
    assert!(rt; 0 < olat);
    let slots = config.time / olat + 1;
    let port = prepared(rt, alloc, config, leaves, slots, bus);
    match Oram::new(alloc, config, Tagger::new(&KEY), port) {
        Ok(oram) => oram,
        Err(_) => panic!(rt; "no counters"),
    }
}

/// The answer to a call at the last end. A line that there isn't is answered as a device that failed.
fn ask<L: LeafFn, M: UntrustedMemory, W: Watch>(
    oram: &mut Oram<L>,
    bus: &mut Bus<'_, M, W>,
    lines: u32,
    call: Call,
) -> Answer
    requires serves { oram.old.stop ≡ None → CanServe oram.old.front oram.old.port.clock oram.old.port.tree
        (L.levels oram.old.port.leaves) (M.state bus.old.memory.now) (W.state bus.old.tap.now) }
    requires lines { oram.old.front.shape.lines ≡ lines }
    ensures serves { oram.new.stop ≡ None → CanServe oram.new.front oram.new.port.clock oram.new.port.tree
        (L.levels oram.new.port.leaves) (M.state bus.new.memory.now) (W.state bus.new.tap.now) }
    ensures lines { oram.new.front.shape.lines ≡ lines }
{
    let asked = oram.last();
    match call {
        Fetch(line) if line < lines => match oram.fetch(bus, asked, line) {
            Ok((value, end)) => Ok((Some(value), end)),
            Err(stop) => Err(stop),
        },
        Store(line, byte) if line < lines => {
            match oram.store(bus, asked, line, &Line([byte; 64])) {
                Ok(end) => Ok((None, end)),
                Err(stop) => Err(stop),
            }
        }
        _ => Err(Stop::Device),
    }
}

/// The answers to calls one after another, each at the last end.
fn ask_all<L: LeafFn, M: UntrustedMemory, W: Watch>(
    alloc: Global,
    oram: &mut Oram<L>,
    bus: &mut Bus<'_, M, W>,
    lines: u32,
    calls: &[Call],
) -> Result<Vec<Answer>, Fail>
    requires serves { oram.old.stop ≡ None → CanServe oram.old.front oram.old.port.clock oram.old.port.tree
        (L.levels oram.old.port.leaves) (M.state bus.old.memory.now) (W.state bus.old.tap.now) }
    requires lines { oram.old.front.shape.lines ≡ lines }
{
    let mut all = Vec::new(alloc);
    for call in calls {
        all.push(ask(oram, bus, lines, *call))?;
    }
    Ok(all)
}

/// What is left of calls.
#[derive(Drop)]
struct Outcome {
    /// Their answers.
    answers: Vec<Answer>,
    /// How many slots that were asked for have started, and how many dummies.
    real: u64,
    dummies: u64,
    /// The last end.
    last: u64,
    /// How many moves were made.
    moves: usize,
    /// The points that were drawn.
    points: Vec<Point>,
    /// The times and the buckets of the altered replies.
    altered: Vec<(u64, u32)>,
}

/// What is left of calls to a new encrypted memory over an outer one.
fn outcome_of<L: LeafFn, M: UntrustedMemory>(
    rt: &impl Abort,
    alloc: Global,
    config: &Config,
    leaves: L,
    memory: &mut M,
    calls: &[Call],
) -> Result<Outcome, Fail>
    requires config { IsConfig config.now }
    requires levels { L.levels leaves ≡ config.now.shape.levels }
    requires fresh { (M.state memory.old).count ≡ 0 }
    requires moved { (M.state memory.old).moved < 2 ^ 62 }
{
    let mut tap = Recorder::new(alloc);
    let mut bus = Bus::new(memory, &mut tap);
    let mut oram = started(rt, alloc, config, leaves, &mut bus);
    let answers = ask_all(alloc, &mut oram, &mut bus, config.shape.lines, calls)?;
    Ok(Outcome {
        answers,
        real: oram.real(),
        dummies: oram.dummies(),
        last: oram.last(),
        moves: tap.log().moves.len(),
        points: points(alloc, tap.log())?,
        altered: altered(alloc, tap.log())?,
    })
}

/// The points that were drawn.
fn points(alloc: Global, log: &Log) -> Result<Vec<Point>, Fail> {
    let mut points = Vec::new(alloc);
    for event in &log.events {
        if let Event::Drawn { point, .. } = event {
            points.push(*point)?;
        }
    }
    Ok(points)
}

/// The times and the buckets of the altered replies.
fn altered(alloc: Global, log: &Log) -> Result<Vec<(u64, u32)>, Fail> {
    let mut altered = Vec::new(alloc);
    for reply in &log.altered {
        altered.push((reply.time, reply.bucket))?;
    }
    Ok(altered)
}

/// A stop by evidence, without the tags and the line that a bad tag shows.
fn plain(answer: Answer) -> Answer {
    match answer {
        Err(Stop::Integrity(Evidence::BadTag { message, .. })) => {
            bad_tag(message.address, message.counter)
        }
        other => other,
    }
}

/// The stop by a bad tag of a block under a counter, without tags and line.
fn bad_tag(address: Address, counter: Counter) -> Answer {
    let message = Message {
        address,
        counter,
        line: Line([0; 64]),
    };
    Err(Stop::Integrity(Evidence::BadTag {
        message,
        found: [0; 16],
        computed: [0; 16],
    }))
}

/// The point of a block under a counter.
fn real(address: u32, group: u64, own: u16) -> Point {
    Point::Real(Address(address), Counter { group, own })
}

/// The counter (0,1).
const ONCE: Counter = Counter { group: 0, own: 1 };

/// The counter (0,2).
const TWICE: Counter = Counter { group: 0, own: 2 };

/// Three calls for line 0.
const ROW: [Call; 3] = [Store(0, 1), Store(0, 2), Fetch(0)];

#[test]
fn more_held_blocks_take_fewer_accesses(rt: HostRuntime) -> Result<(), Fail> {
    let alloc = rt.alloc();
    for (plb, accesses) in [(1, 9), (32, 6)] {
        let config = checked(
            &rt,
            &Settings {
                plb,
                ..defaults(200_000)
            },
        );
        let leaves = zeros(alloc, config.shape.levels);
        let mut memory = HonestMemory::new(alloc);
        let calls = [Fetch(0), Fetch(32), Fetch(0)];
        let left = outcome_of(&rt, alloc, &config, leaves, &mut memory, &calls)?;
        assert_eq!(rt; (left.real, left.dummies), (accesses, 0));
        let last = left.answers.last().copied();
        assert_eq!(rt; last, Some(Ok((Some(Line([0; 64])), left.last))));
    }
    Ok(())
}

#[test]
fn stored_lines_are_fetched(rt: HostRuntime) -> Result<(), Fail> {
    let alloc = rt.alloc();
    let config = checked(&rt, &small(6_000));
    let leaves = zeros(alloc, config.shape.levels);
    let mut memory = HonestMemory::new(alloc);
    let left = outcome_of(&rt, alloc, &config, leaves, &mut memory, &ROW)?;
    let wanted = [
        Ok((None, 1_504)),
        Ok((None, 2_256)),
        Ok((Some(Line([2; 64])), 3_008)),
    ];
    assert_eq!(rt; left.answers.as_slice(), wanted.as_slice());
    assert_eq!(rt; (left.real, left.dummies, left.last), (4, 0, 3_008));
    assert_eq!(rt; left.moves, 48);
    Ok(())
}

#[test]
fn stores_move_a_group(rt: HostRuntime) -> Result<(), Fail> {
    let alloc = rt.alloc();
    let config = checked(
        &rt,
        &Settings {
            ic: 2,
            ..small(30_000)
        },
    );
    assert!(rt; 1 <= config.shape.levels && config.shape.levels <= 20);
    let leaves = KeyedLeaf::new(&KEY, config.shape.levels);
    let mut memory = HonestMemory::new(alloc);
    let calls = [Store(0, 1), Store(0, 2), Store(0, 3), Store(0, 4)];
    let left = outcome_of(&rt, alloc, &config, leaves, &mut memory, &calls)?;
    assert_eq!(rt; (left.real, left.last), (37, 27_824));
    let mut wanted = Vec::new(alloc);
    wanted.push(real(64, 0, 0))?;
    for own in 0..4u16 {
        wanted.push(real(0, 0, own))?;
    }
    for address in 1..32u32 {
        wanted.push(real(address, 0, 0))?;
    }
    wanted.push(real(0, 1, 0))?;
    assert_eq!(rt; left.points.as_slice(), wanted.as_slice());
    Ok(())
}

#[test]
fn two_groups_move(rt: HostRuntime) -> Result<(), Fail> {
    let alloc = rt.alloc();
    let config = checked(
        &rt,
        &Settings {
            ic: 2,
            roots: 1,
            plb: 2,
            ..small(40_000)
        },
    );
    assert_eq!(rt; (config.shape.total, config.shape.levels), (67, 5));
    let leaves = zeros(alloc, config.shape.levels);
    let mut memory = HonestMemory::new(alloc);
    let calls = [
        Fetch(0),
        Fetch(32),
        Fetch(0),
        Fetch(32),
        Fetch(0),
        Fetch(32),
        Fetch(0),
    ];
    let left = outcome_of(&rt, alloc, &config, leaves, &mut memory, &calls)?;
    assert_eq!(rt; (left.real, left.last), (48, 36_096));
    // the last fetch: block 64 moves, and is held; the 32 lines move, and line 0 is accessed
    assert_eq!(rt; left.points.len(), 48);
    let wanted = [
        (13, real(64, 0, 3)),
        (14, real(64, 1, 0)),
        (15, real(0, 0, 3)),
        (16, real(1, 0, 0)),
        (46, real(31, 0, 0)),
        (47, real(0, 1, 0)),
    ];
    for (place, point) in wanted {
        assert_eq!(rt; left.points.get(place).copied(), Some(point));
    }
    Ok(())
}

#[test]
fn displaced_block_finds_no_place(rt: HostRuntime) -> Result<(), Fail> {
    let alloc = rt.alloc();
    let config = checked(
        &rt,
        &Settings {
            stash: 0,
            plb: 1,
            ..defaults(40_000)
        },
    );
    let leaves = zeros(alloc, config.shape.levels);
    let mut memory = HonestMemory::new(alloc);
    let left = outcome_of(
        &rt,
        alloc,
        &config,
        leaves,
        &mut memory,
        &[Fetch(0), Store(0, 1)],
    )?;
    let full = Err(Stop::StashFull { held: 1 });
    assert_eq!(rt; left.answers.as_slice(), [full, full].as_slice());
    assert_eq!(rt; (left.real, left.last, left.moves), (2, 35_040, 56));
    Ok(())
}

#[test]
fn altered_replies_are_evidence(rt: HostRuntime) -> Result<(), Fail> {
    let alloc = rt.alloc();
    let config = checked(&rt, &small(6_000));
    let address = Address(0);
    let stop = |evidence| Err(Stop::Integrity(evidence));
    let doubled = stop(Evidence::Doubled { address });
    let missing = stop(Evidence::Missing {
        address,
        counter: TWICE,
    });
    let bad_slot = |slot| stop(Evidence::BadSlot { bucket: 31, slot });
    let rows = [
        (
            Change::Flip {
                number: 24,
                bit: 672,
            },
            bad_tag(address, TWICE),
        ),
        (
            Change::Flip {
                number: 24,
                bit: 152,
            },
            stop(Evidence::OffPath {
                bucket: 31,
                slot: 0,
            }),
        ),
        (
            Change::Flip {
                number: 24,
                bit: 801,
            },
            bad_slot(1),
        ),
        (
            Change::Flip {
                number: 24,
                bit: 64,
            },
            bad_slot(0),
        ),
        (
            Change::Flip {
                number: 24,
                bit: 120,
            },
            missing,
        ),
        (
            Change::Flip {
                number: 24,
                bit: 127,
            },
            bad_slot(0),
        ),
        (
            Change::Flip {
                number: 24,
                bit: 160,
            },
            bad_tag(address, TWICE),
        ),
        (
            Change::Flip {
                number: 19,
                bit: 64,
            },
            doubled,
        ),
        (Change::Blank { number: 24 }, missing),
        (
            Change::Replay {
                number: 18,
                from: 19,
            },
            bad_tag(address, TWICE),
        ),
        (Change::Swap { number: 18, at: 23 }, doubled),
    ];
    for (change, wanted) in rows {
        let leaves = zeros(alloc, config.shape.levels);
        let mut memory = Altering::new(alloc, change);
        let calls = [Store(0, 1), Store(0, 2), Fetch(0), Store(0, 3)];
        let left = outcome_of(&rt, alloc, &config, leaves, &mut memory, &calls)?;
        let mut found = Vec::new(alloc);
        for answer in &left.answers {
            found.push(plain(*answer))?;
        }
        let all = [Ok((None, 1_504)), Ok((None, 2_256)), wanted, wanted];
        assert_eq!(rt; found.as_slice(), all.as_slice(), "{change:?}");
        assert_eq!(rt; (left.last, left.moves), (2_752, 42), "{change:?}");
    }
    Ok(())
}

#[test]
fn flipped_tag_is_shown(rt: HostRuntime) -> Result<(), Fail> {
    let alloc = rt.alloc();
    let config = checked(&rt, &small(6_000));
    let leaves = zeros(alloc, config.shape.levels);
    let mut memory = Altering::new(
        alloc,
        Change::Flip {
            number: 24,
            bit: 672,
        },
    );
    let left = outcome_of(&rt, alloc, &config, leaves, &mut memory, &ROW)?;
    let last = left.answers.last().copied();
    let Some(Err(Stop::Integrity(evidence))) = last else {
        panic!(rt; "no evidence");
    };
    let Evidence::BadTag {
        message,
        found,
        computed,
    } = evidence
    else {
        panic!(rt; "no bad tag");
    };
    assert_eq!(rt; (message.address, message.counter), (Address(0), TWICE));
    assert_eq!(rt; message.line, Line([2; 64]));
    let mut bits = 0u32;
    for place in 0..16usize {
        let differing = (found[place] ^ computed[place]).count_ones();
        bits = bits.saturating_add(differing);
    }
    assert_eq!(rt; bits, 1);
    Ok(())
}

#[test]
fn blanked_line_is_missing(rt: HostRuntime) -> Result<(), Fail> {
    let alloc = rt.alloc();
    let config = checked(&rt, &small(6_000));
    let leaves = zeros(alloc, config.shape.levels);
    let mut memory = Altering::new(alloc, Change::Blank { number: 18 });
    let calls = [Store(0, 1), Fetch(1), Fetch(0)];
    let left = outcome_of(&rt, alloc, &config, leaves, &mut memory, &calls)?;
    let missing = Evidence::Missing {
        address: Address(0),
        counter: ONCE,
    };
    let wanted = [
        Ok((None, 1_504)),
        Ok((Some(Line([0; 64])), 2_256)),
        Err(Stop::Integrity(missing)),
    ];
    assert_eq!(rt; left.answers.as_slice(), wanted.as_slice());
    assert_eq!(rt; left.last, 2_752);
    // the eighteenth reply is that of the third slot's lowest bucket
    assert_eq!(rt; left.altered.as_slice(), [(1_960, 31)].as_slice());
    Ok(())
}

#[test]
fn failed_moves_stop(rt: HostRuntime) -> Result<(), Fail> {
    let alloc = rt.alloc();
    let config = checked(&rt, &small(6_000));
    for number in 1..49u64 {
        let mut memory = FaultyMemory::new(alloc, vec![in alloc; number]?);
        let leaves = zeros(alloc, config.shape.levels);
        let calls = [Store(0, 1), Store(0, 2), Fetch(0), Fetch(0)];
        let left = outcome_of(&rt, alloc, &config, leaves, &mut memory, &calls)?;
        // the first call takes two slots of twelve moves, each other one
        let slot = (number - 1) / 12;
        let at = (number - 1) % 12;
        let turn = if at > 5 { 16 } else { 0 };
        let first = if slot < 2 {
            Err(Stop::Device)
        } else {
            Ok((None, 1_504))
        };
        let second = if slot < 3 {
            Err(Stop::Device)
        } else {
            Ok((None, 2_256))
        };
        let wanted = [first, second, Err(Stop::Device), Err(Stop::Device)];
        assert_eq!(rt; left.answers.as_slice(), wanted.as_slice(), "move {number}");
        assert_eq!(rt;
            left.last,
            256 + 752 * slot + 40 * at + turn + 1,
            "move {number}"
        );
        assert_eq!(rt;
            (left.real, left.moves as u64),
            (slot + 1, number),
            "move {number}"
        );
    }
    Ok(())
}
