//! Slots at times that were worked out by hand.

ghost use Rattle.std.specs.Prelude.{◌≡◌, ◌<◌, ◌^◌, [], None};
ghost use Rattle.asc_base.specs.Settings.{IsConfig};
ghost use Rattle.rate_enforcer.specs.State.{Rests};

use crate::Port;
use asc_base::{
    Address, Config, Counter, Entry, Evidence, Leaf, Line, Point, Settings, Stop, WideRates,
};
use asc_outside::{FaultyMemory, HonestMemory, UntrustedMemory};
use bucket_codec::Codec;
use bus_watch::{Bus, Event, Log, Recorder, Watch};
use leaf_function::{LeafFn, TableLeaf};
use std::alloc::Global;
use std::process::Abort;
use std::test::Fail;
use unified_tree::Tree;

const KEY: [u8; 32] = [
    0, 1, 2, 3, 4, 5, 6, 7, 8, 9, 10, 11, 12, 13, 14, 15, 16, 17, 18, 19, 20, 21, 22, 23, 24, 25,
    26, 27, 28, 29, 30, 31,
];

/// The configuration of 4,096 bytes, whose slots take 496 cycles, with the first rates of four, the least of them in
/// force, a leakage budget in bits, and a time in cycles.
fn small(rt: &impl Abort, rates: u32, leak: u64, time: u64) -> Config
    ensures { IsConfig result }
{
    let list = [
        256, 1_024, 4_096, 16_384, 0, 0, 0, 0, 0, 0, 0, 0, 0, 0, 0, 0,
    ];
    let settings = Settings {
        size: 4_096,
        base: 0,
        sets: 1,
        ways: 1,
        plb: 32,
        roots: 16,
        ic: 14,
        stash: 200,
        budget: 10_000_000,
        time,
        leak,
        rates: WideRates { list, count: rates },
        first: 0,
        epoch: 32_768,
    };
    match Config::check(&settings) {
        Ok(config) => config,
        Err(setting) => panic!(rt; "{setting:?} isn't in its range"),
    }
}

/// Leaves that are all 0, of so many levels.
fn zeros(alloc: Global, levels: u32) -> TableLeaf
    ensures { result.levels ≡ levels }
{
    TableLeaf::new(alloc, Vec::new(alloc), Leaf(0), levels)
}

/// A new port with these leaves, over a bus that is prepared for so many slots.
fn started<L: LeafFn, M: UntrustedMemory, W: Watch>(
    rt: &impl Abort,
    alloc: Global,
    config: &Config,
    leaves: L,
    slots: u64,
    bus: &mut Bus<'_, M, W>,
) -> Port<L>
    requires config { IsConfig config.now }
    requires levels { L.levels leaves ≡ config.now.shape.levels }
    requires fresh { (M.state bus.old.memory.now).count ≡ 0 }
    requires moved { (M.state bus.old.memory.now).moved < 2 ^ 62 }
    requires events { (W.state bus.old.tap.now).log.events ≡ [] }
    requires moves { (W.state bus.old.tap.now).log.moves ≡ [] }
    ensures rests { Rests 0 result.clock result.tree (L.levels result.leaves)
        (M.state bus.new.memory.now) (W.state bus.new.tap.now) }
    ensures config { result.clock.config ≡ config.now }
{
    let olat = config.shape.olat();
    assert!(rt; slots < 1_000);
    assert!(rt; olat < 10_000);
    assert!(rt; config.time <= 64 + slots * olat);
    let tree = match Tree::new(alloc, &config.shape, config.stash, Codec::new(&KEY)) {
        Ok(tree) => tree,
        Err(_) => panic!(rt; "no tree"),
    };
    match bus.prepare(config.shape.buckets, config.shape.levels, slots) {
        Ok(()) => Port::new(config, leaves, tree),
        Err(stop) => panic!(rt; "{stop:?} of the bus"),
    }
}

/// What a port answers to a request at a time, or at its last end where that is later, whose slot is then closed.
fn served<L: LeafFn, M: UntrustedMemory, W: Watch>(
    port: &mut Port<L>,
    bus: &mut Bus<'_, M, W>,
    asked: u64,
) -> Result<u64, Stop>
    requires { port.old.clock.stop ≡ None → Rests 0 port.old.clock port.old.tree (L.levels port.old.leaves)
        (M.state bus.old.memory.now) (W.state bus.old.tap.now) }
    ensures { port.new.clock.stop ≡ None → Rests 0 port.new.clock port.new.tree (L.levels port.new.leaves)
        (M.state bus.new.memory.now) (W.state bus.new.tap.now) }
{
    let zero = Counter { group: 0, own: 0 };
    let from = asked.max(port.last());
    let slot = match port.open(bus, from, Point::Real(Address(64), zero)) {
        Ok(slot) => slot,
        Err(stop) => return Err(stop),
    };
    match port.close(bus, slot) {
        Ok(end) => Ok(end),
        Err(stop) => Err(stop),
    }
}

/// What a port answers that is idle until a time, or the time of its settings where that is earlier.
fn idled<L: LeafFn, M: UntrustedMemory, W: Watch>(
    port: &mut Port<L>,
    bus: &mut Bus<'_, M, W>,
    time: u64,
) -> Result<u64, Stop>
    requires { port.old.clock.stop ≡ None → Rests 0 port.old.clock port.old.tree (L.levels port.old.leaves)
        (M.state bus.old.memory.now) (W.state bus.old.tap.now) }
    ensures { port.new.clock.stop ≡ None → Rests 0 port.new.clock port.new.tree (L.levels port.new.leaves)
        (M.state bus.new.memory.now) (W.state bus.new.tap.now) }
{
    let until = time.min(port.clock.config.time);
    match port.idle_until(bus, until) {
        Ok(end) => Ok(end),
        Err(stop) => Err(stop),
    }
}

/// What is at hand of an entry's address in the slot of a request, and is taken; where nothing is, the entry is put.
fn swapped<L: LeafFn, M: UntrustedMemory, W: Watch>(
    port: &mut Port<L>,
    bus: &mut Bus<'_, M, W>,
    entry: Entry,
) -> Result<Option<Entry>, Stop>
    requires rests { port.old.clock.stop ≡ None → Rests 0 port.old.clock port.old.tree (L.levels port.old.leaves)
        (M.state bus.old.memory.now) (W.state bus.old.tap.now) }
    requires leaf { entry.leaf.0 ≡ 0 }
    ensures { port.new.clock.stop ≡ None → Rests 0 port.new.clock port.new.tree (L.levels port.new.leaves)
        (M.state bus.new.memory.now) (W.state bus.new.tap.now) }
{
    if entry.address.0 >= port.clock.config.shape.total {
        return Err(Stop::NoMemory);
    }
    let from = port.last();
    let slot = match port.open(bus, from, Point::Dummy(1_000)) {
        Ok(slot) => slot,
        Err(stop) => return Err(stop),
    };
    match port.take(&slot, entry.address) {
        Some(found) => {
            return match port.close(bus, slot) {
                Ok(_) => Ok(Some(found)),
                Err(stop) => Err(stop),
            };
        }
        None => {}
    }
    port.put(&slot, entry);
    match port.close(bus, slot) {
        Ok(_) => Ok(None),
        Err(stop) => Err(stop),
    }
}

/// Puts an entry at hand behind the slot of a request.
fn appended<L: LeafFn, M: UntrustedMemory, W: Watch>(
    port: &mut Port<L>,
    bus: &mut Bus<'_, M, W>,
    entry: Entry,
) -> Result<(), Stop>
    requires rests { port.old.clock.stop ≡ None → Rests 0 port.old.clock port.old.tree (L.levels port.old.leaves)
        (M.state bus.old.memory.now) (W.state bus.old.tap.now) }
    requires leaf { entry.leaf.0 ≡ 0 }
    ensures { port.new.clock.stop ≡ None → Rests 0 port.new.clock port.new.tree (L.levels port.new.leaves)
        (M.state bus.new.memory.now) (W.state bus.new.tap.now) }
{
    if entry.address.0 >= port.clock.config.shape.total {
        return Err(Stop::NoMemory);
    }
    let from = port.last();
    let slot = match port.open(bus, from, Point::Dummy(1_001)) {
        Ok(slot) => slot,
        Err(stop) => return Err(stop),
    };
    match port.close(bus, slot) {
        Ok(_) => {}
        Err(stop) => return Err(stop),
    }
    match port.append(entry) {
        Ok(()) => Ok(()),
        Err(stop) => Err(stop),
    }
}

/// The time after the reads of the slot of a request, which is given up with a stop.
fn aborted<L: LeafFn, M: UntrustedMemory, W: Watch>(
    port: &mut Port<L>,
    bus: &mut Bus<'_, M, W>,
    stop: Stop,
) -> Result<u64, Stop>
    requires rests { port.old.clock.stop ≡ None → Rests 0 port.old.clock port.old.tree (L.levels port.old.leaves)
        (M.state bus.old.memory.now) (W.state bus.old.tap.now) }
    ensures { port.new.clock.stop ≡ None → Rests 0 port.new.clock port.new.tree (L.levels port.new.leaves)
        (M.state bus.new.memory.now) (W.state bus.new.tap.now) }
{
    let from = port.last();
    match port.open(bus, from, Point::Dummy(1_002)) {
        Ok(slot) => Ok(port.abort(slot, stop)),
        Err(stop) => Err(stop),
    }
}

/// The starts that were noted, each with when it was asked for.
fn starts(alloc: Global, log: &Log) -> Result<Vec<(u64, Option<u64>)>, Fail> {
    let mut starts = Vec::new(alloc);
    for event in &log.events {
        if let Event::Access { start, asked } = event {
            starts.push((*start, *asked))?;
        }
    }
    Ok(starts)
}

/// The indices that were chosen.
fn chosen(alloc: Global, log: &Log) -> Result<Vec<u32>, Fail> {
    let mut indices = Vec::new(alloc);
    for event in &log.events {
        if let Event::Chosen { index } = event {
            indices.push(*index)?;
        }
    }
    Ok(indices)
}

#[test]
fn starts_are_enforced(rt: HostRuntime) -> Result<(), Fail> {
    let alloc = rt.alloc();
    let config = small(&rt, 1, 0, 6_000);
    let mut memory = HonestMemory::new(alloc);
    let mut tap = Recorder::new(alloc);
    let mut bus = Bus::new(&mut memory, &mut tap);
    let leaves = zeros(alloc, config.shape.levels);
    let mut port = started(&rt, alloc, &config, leaves, 20, &mut bus);
    assert_eq!(rt; served(&mut port, &mut bus, 0), Ok(752));
    assert_eq!(rt; served(&mut port, &mut bus, 752), Ok(1_504));
    assert_eq!(rt; served(&mut port, &mut bus, 1_504), Ok(2_256));
    assert_eq!(rt; served(&mut port, &mut bus, 2_256), Ok(3_008));
    assert_eq!(rt;
        (port.clock.real, port.dummies(), port.last()),
        (4, 0, 3_008)
    );
    let wanted = [
        (256, Some(0)),
        (1_008, Some(752)),
        (1_760, Some(1_504)),
        (2_512, Some(2_256)),
    ];
    assert_eq!(rt; starts(alloc, tap.log())?.as_slice(), wanted.as_slice());
    Ok(())
}

#[test]
fn dummies_pass(rt: HostRuntime) -> Result<(), Fail> {
    let alloc = rt.alloc();
    let config = small(&rt, 1, 0, 6_000);
    let mut memory = HonestMemory::new(alloc);
    let mut tap = Recorder::new(alloc);
    let mut bus = Bus::new(&mut memory, &mut tap);
    let leaves = zeros(alloc, config.shape.levels);
    let mut port = started(&rt, alloc, &config, leaves, 20, &mut bus);
    assert_eq!(rt; served(&mut port, &mut bus, 257), Ok(1_504));
    assert_eq!(rt; (port.clock.real, port.dummies()), (1, 1));
    let wanted = [(256, None), (1_008, Some(257))];
    assert_eq!(rt; starts(alloc, tap.log())?.as_slice(), wanted.as_slice());
    let mut memory = HonestMemory::new(alloc);
    let mut tap = Recorder::new(alloc);
    let mut bus = Bus::new(&mut memory, &mut tap);
    let leaves = zeros(alloc, config.shape.levels);
    let mut port = started(&rt, alloc, &config, leaves, 20, &mut bus);
    assert_eq!(rt; idled(&mut port, &mut bus, 6_000), Ok(6_016));
    assert_eq!(rt;
        (port.clock.real, port.dummies(), port.last()),
        (0, 8, 6_016)
    );
    Ok(())
}

#[test]
fn time_is_up(rt: HostRuntime) -> Result<(), Fail> {
    let alloc = rt.alloc();
    let config = small(&rt, 1, 0, 200);
    let mut memory = HonestMemory::new(alloc);
    let mut tap = Recorder::new(alloc);
    let mut bus = Bus::new(&mut memory, &mut tap);
    let leaves = zeros(alloc, config.shape.levels);
    let mut port = started(&rt, alloc, &config, leaves, 20, &mut bus);
    assert_eq!(rt; idled(&mut port, &mut bus, 200), Ok(200));
    assert_eq!(rt;
        served(&mut port, &mut bus, 0),
        Err(Stop::TimeUp { at: 256 })
    );
    assert_eq!(rt;
        served(&mut port, &mut bus, 100),
        Err(Stop::TimeUp { at: 256 })
    );
    assert_eq!(rt; (port.clock.real, port.dummies(), port.last()), (0, 0, 0));
    assert_eq!(rt; (tap.log().moves.len(), tap.log().events.len()), (0, 0));
    Ok(())
}

#[test]
fn one_choice_falls(rt: HostRuntime) -> Result<(), Fail> {
    let alloc = rt.alloc();
    let config = small(&rt, 4, 2, 200_000);
    let mut memory = HonestMemory::new(alloc);
    let mut tap = Recorder::new(alloc);
    let mut bus = Bus::new(&mut memory, &mut tap);
    let leaves = zeros(alloc, config.shape.levels);
    let mut port = started(&rt, alloc, &config, leaves, 500, &mut bus);
    assert_eq!(rt; idled(&mut port, &mut bus, 200_000), Ok(200_000));
    assert_eq!(rt;
        (
            port.dummies(),
            port.learner().choices(),
            port.learner().code()
        ),
        (53, 1, 3)
    );
    assert_eq!(rt; chosen(alloc, tap.log())?.as_slice(), [3].as_slice());
    let all = starts(alloc, tap.log())?;
    assert_eq!(rt;
        (all.len(), all.get(44).copied()),
        (53, Some((49_472, None)))
    );
    Ok(())
}

#[test]
fn failed_moves_stop(rt: HostRuntime) -> Result<(), Fail> {
    let alloc = rt.alloc();
    let config = small(&rt, 1, 0, 6_000);
    for number in 1..37u64 {
        let mut memory = FaultyMemory::new(alloc, vec![in alloc; number]?);
        let mut tap = Recorder::new(alloc);
        let mut bus = Bus::new(&mut memory, &mut tap);
        let leaves = zeros(alloc, config.shape.levels);
        let mut port = started(&rt, alloc, &config, leaves, 20, &mut bus);
        // the slots are one that is asked for, a dummy, and another one that is asked for
        let slot = (number - 1) / 12;
        let at = (number - 1) % 12;
        let turn = if at > 5 { 16 } else { 0 };
        let first = if slot == 0 {
            Err(Stop::Device)
        } else {
            Ok(752)
        };
        assert_eq!(rt; served(&mut port, &mut bus, 0), first, "move {number}");
        assert_eq!(rt;
            served(&mut port, &mut bus, 1_009),
            Err(Stop::Device),
            "move {number}"
        );
        assert_eq!(rt;
            served(&mut port, &mut bus, 2_000),
            Err(Stop::Device),
            "move {number}"
        );
        assert_eq!(rt;
            port.last(),
            256 + 752 * slot + 40 * at + turn + 1,
            "move {number}"
        );
        let counts = [(1, 0), (1, 1), (2, 1)];
        assert_eq!(rt;
            Some((port.clock.real, port.dummies())),
            counts.get(slot as usize).copied(),
            "move {number}"
        );
        assert_eq!(rt; tap.log().moves.len() as u64, number);
    }
    Ok(())
}

#[test]
fn entries_go_through(rt: HostRuntime) -> Result<(), Fail> {
    let alloc = rt.alloc();
    let config = small(&rt, 1, 0, 6_000);
    let mut memory = HonestMemory::new(alloc);
    let mut tap = Recorder::new(alloc);
    let mut bus = Bus::new(&mut memory, &mut tap);
    let leaves = zeros(alloc, config.shape.levels);
    let mut port = started(&rt, alloc, &config, leaves, 20, &mut bus);
    let entry = Entry {
        address: Address(3),
        leaf: Leaf(0),
        line: Line([7; 64]),
        tag: [5; 16],
    };
    assert_eq!(rt; swapped(&mut port, &mut bus, entry), Ok(None));
    assert_eq!(rt; swapped(&mut port, &mut bus, entry), Ok(Some(entry)));
    assert_eq!(rt; appended(&mut port, &mut bus, entry), Ok(()));
    // the first one is in the tree by then
    assert_eq!(rt; appended(&mut port, &mut bus, entry), Ok(()));
    let doubled = Stop::Integrity(Evidence::Doubled {
        address: Address(3),
    });
    assert_eq!(rt; served(&mut port, &mut bus, 0), Err(doubled));
    assert_eq!(rt; idled(&mut port, &mut bus, 6_000), Err(doubled));
    assert_eq!(rt; appended(&mut port, &mut bus, entry), Err(doubled));
    assert_eq!(rt;
        (port.clock.real, port.dummies(), port.last()),
        (5, 0, 3_504)
    );
    assert_eq!(rt; tap.log().moves.len(), 54);
    Ok(())
}

#[test]
fn first_stop_stays(rt: HostRuntime) -> Result<(), Fail> {
    let alloc = rt.alloc();
    let config = small(&rt, 1, 0, 6_000);
    let mut memory = HonestMemory::new(alloc);
    let mut tap = Recorder::new(alloc);
    let mut bus = Bus::new(&mut memory, &mut tap);
    let leaves = zeros(alloc, config.shape.levels);
    let mut port = started(&rt, alloc, &config, leaves, 20, &mut bus);
    let stop = Stop::StashFull { held: 9 };
    assert_eq!(rt; aborted(&mut port, &mut bus, stop), Ok(496));
    assert_eq!(rt; aborted(&mut port, &mut bus, Stop::Device), Err(stop));
    assert_eq!(rt; served(&mut port, &mut bus, 0), Err(stop));
    assert_eq!(rt; (port.clock.real, port.dummies(), port.last()), (1, 0, 496));
    assert_eq!(rt; tap.log().moves.len(), 6);
    Ok(())
}
