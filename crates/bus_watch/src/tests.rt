//! What the tap notes of moves over the memories of tests.

ghost use Rattle.std.specs.Prelude.{◌≡◌, ◌<◌, ◌≤◌, ◌+◌, ◌*◌, ◌^◌, ℕ, false, [], OnOk, OnErr, IsErrOf};
ghost use Rattle.asc_base.specs.Shape.{IsShape};
ghost use Rattle.bus_watch.specs.Made.{Ran};
ghost use Rattle.bus_watch.specs.Path.{along, reads};
ghost use Rattle.bus_watch.specs.Ready.{IsReady};
ghost use Rattle.bus_watch.specs.RunEnd.{Whole, end_of};

use crate::{Bus, BusStop, Move, Recorder, Watch};
use asc_base::{Leaf, MOVE_CYCLES, Shape};
use asc_outside::{
    BUCKET_BYTES, FaultyMemory, HonestMemory, ScriptedMemory, UntrustedMemory, empty_bucket,
};
use std::test::Fail;

const SEVENS: [u8; BUCKET_BYTES] = [7; BUCKET_BYTES];

const MOVES: [Move; 3] = [
    Move {
        time: 10,
        write: true,
        bucket: 0,
    },
    Move {
        time: 20,
        write: false,
        bucket: 0,
    },
    Move {
        time: 30,
        write: false,
        bucket: 1,
    },
];

// Prepares so many buckets, writes sevens to bucket 0, reads it, and reads bucket 1. It answers what the three moves
// were answered.
fn make_moves<M: UntrustedMemory>(
    memory: &mut M,
    tap: &mut Recorder,
    buckets: u32,
) -> Result<[Result<(), BusStop>; 3], BusStop>
    requires fresh { (M.state memory.old).count ≡ 0 }
    requires unmoved { (M.state memory.old).moved ≡ 0 }
    requires some { 1 < buckets }
{
    let mut bus = Bus::new(memory, tap);
    bus.prepare(buckets, 1, 1)?;
    let mut bytes = empty_bucket();
    let written = bus.write(10, 0, &SEVENS);
    let first = bus.read(20, 0, &mut bytes);
    let second = bus.read(30, 1, &mut bytes);
    Ok([written, first, second])
}

#[test]
fn failed_moves_are_noted(rt: HostRuntime) -> Result<(), Fail> {
    let alloc = rt.alloc();
    for (number, answers) in [
        (1, [Err(BusStop::Device), Ok(()), Ok(())]),
        (2, [Ok(()), Err(BusStop::Device), Ok(())]),
        (3, [Ok(()), Ok(()), Err(BusStop::Device)]),
        (4, [Ok(()), Ok(()), Ok(())]),
    ] {
        let mut memory = FaultyMemory::new(alloc, vec![in alloc; number]?);
        let mut tap = Recorder::new(alloc);
        assert_eq!(rt;
            make_moves(&mut memory, &mut tap, 2)?,
            answers,
            "move {number}"
        );
        assert_eq!(rt; tap.log().moves.as_slice(), MOVES.as_slice());
        assert!(rt; tap.log().altered.is_empty());
    }
    Ok(())
}

#[test]
fn replies_that_differ_are_noted(rt: HostRuntime) -> Result<(), Fail> {
    let alloc = rt.alloc();
    for (first, second, altered) in [
        (SEVENS, empty_bucket(), [].as_slice()),
        (empty_bucket(), empty_bucket(), [20].as_slice()),
        (SEVENS, SEVENS, [30].as_slice()),
        (empty_bucket(), SEVENS, [20, 30].as_slice()),
    ] {
        let mut memory = ScriptedMemory::new(alloc, vec![in alloc; first, second]?, 3)?;
        let mut tap = Recorder::new(alloc);
        assert_eq!(rt;
            make_moves(&mut memory, &mut tap, 2)?,
            [Ok(()), Ok(()), Ok(())]
        );
        let mut times = Vec::new(alloc);
        for reply in &tap.log().altered {
            times.push(reply.time)?;
        }
        assert_eq!(rt; times.as_slice(), altered);
    }
    Ok(())
}

#[test]
fn reads_past_the_script_fail(rt: HostRuntime) -> Result<(), Fail> {
    let alloc = rt.alloc();
    let mut memory = ScriptedMemory::new(alloc, vec![in alloc; SEVENS]?, 0)?;
    let mut tap = Recorder::new(alloc);
    let answers = make_moves(&mut memory, &mut tap, 2)?;
    assert_eq!(rt; answers, [Ok(()), Ok(()), Err(BusStop::Device)]);
    assert_eq!(rt; tap.log().moves.as_slice(), MOVES.as_slice());
    Ok(())
}

#[test]
fn largest_tree_is_prepared(rt: HostRuntime) -> Result<(), Fail> {
    let mut memory = HonestMemory::new(rt.alloc());
    let mut tap = Recorder::new(rt.alloc());
    let answers = make_moves(&mut memory, &mut tap, 262_143)?;
    assert_eq!(rt; answers, [Ok(()), Ok(()), Ok(())]);
    assert!(rt; tap.log().altered.is_empty());
    Ok(())
}

// Reads the buckets along the path of a leaf, from the root down.
fn read_along<M: UntrustedMemory, W: Watch>(
    bus: &mut Bus<'_, M, W>,
    shape: &Shape,
    start: u64,
    leaf: Leaf,
) -> Result<(), BusStop>
    requires shape { IsShape shape.now }
    requires leaf { leaf.0 < 2 ^ shape.now.levels }
    requires small { shape.now.levels ≤ 20 }
    requires start { start < 2 ^ 39 }
    requires ready { IsReady shape.now.buckets (shape.now.levels + 1) 0
        (M.state bus.old.memory.now) (W.state bus.old.tap.now) }
    ensures read { OnOk result
        (Ran M.state W.state Whole (reads shape.now.levels start leaf.0) [] bus.old bus.new) }
    ensures cut { OnErr result ((level : ℕ) × (level ≤ shape.now.levels)
        × Ran M.state W.state (end_of result) (along shape.now.levels false start leaf.0 (level + 1))
        [] bus.old bus.new) }
    ensures cause { IsErrOf result BusStop.Device
        → (M.state bus.old.memory.now).faults < (M.state bus.new.memory.now).faults }
{
    let mut bytes = empty_bucket();
    for level in 0..shape.levels + 1 {
        let at = start + MOVE_CYCLES * u64::from(level);
        match bus.read(at, shape.bucket_on(leaf, level), &mut bytes) {
            Ok(()) => {}
            Err(stop) => return Err(stop),
        }
    }
    Ok(())
}

// Prepares a bus for a slot, and reads a path.
fn read_first_path<M: UntrustedMemory, W: Watch>(
    bus: &mut Bus<'_, M, W>,
    shape: &Shape,
    leaf: Leaf,
) -> Result<(), BusStop>
    requires fresh { (M.state bus.old.memory.now).count ≡ 0 }
    requires moved { (M.state bus.old.memory.now).moved < 2 ^ 62 }
    requires shape { IsShape shape.now }
    requires leaf { leaf.0 < 2 ^ shape.now.levels }
    requires small { shape.now.levels ≤ 20 }
{
    bus.prepare(shape.buckets, shape.levels, 1)?;
    read_along(bus, shape, 64, leaf)
}

#[test]
fn path_is_read_from_the_root_down(rt: HostRuntime) -> Result<(), Fail> {
    let mut memory = HonestMemory::new(rt.alloc());
    let mut tap = Recorder::new(rt.alloc());
    let shape = Shape::new(20, 4).ok_or("shape")?;
    assert_eq!(rt; shape.levels, 3);
    let mut bus = Bus::new(&mut memory, &mut tap);
    assert_eq!(rt; read_first_path(&mut bus, &shape, Leaf(5)), Ok(()));
    let mut seen = Vec::new(rt.alloc());
    for at in &tap.log().moves {
        seen.push((at.time, at.write, at.bucket))?;
    }
    assert_eq!(rt;
        seen.as_slice(),
        [
            (64, false, 0),
            (104, false, 2),
            (144, false, 5),
            (184, false, 12)
        ]
        .as_slice()
    );
    Ok(())
}
