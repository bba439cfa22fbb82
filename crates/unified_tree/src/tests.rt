ghost use Rattle.std.specs.Prelude.{◌≡◌, ◌<◌, ◌≤◌, ◌+◌, ◌*◌, ◌^◌, None, IfOk};
ghost use Rattle.asc_base.specs.Shape.{IsShape};
ghost use Rattle.unified_tree.specs.Tree.{TreeState};

use crate::{Tree, TreeStop, pass_by};
use asc_base::{Address, Entry, Leaf, Line, NoMemory, Shape};
use asc_outside::{
    BUCKET_BYTES, FaultyMemory, HonestMemory, ScriptedMemory, UntrustedMemory, empty_bucket,
};
use bucket_codec::Codec;
use bus_watch::{Bus, Event, Move, Recorder, Watch};
use std::alloc::Global;
use std::process::Abort;
use std::test::Fail;

const KEY: [u8; 32] = [
    0, 1, 2, 3, 4, 5, 6, 7, 8, 9, 10, 11, 12, 13, 14, 15, 16, 17, 18, 19, 20, 21, 22, 23, 24, 25,
    26, 27, 28, 29, 30, 31,
];

// An entry of an address with a leaf.
fn entry(address: u32, leaf: u32) -> Entry {
    Entry {
        address: Address(address),
        leaf: Leaf(leaf),
        line: Line([3; 64]),
        tag: [4; 16],
    }
}

// A tap that keeps which buckets of its mirror were changed, in order, and to what.
#[derive(Drop)]
struct Keeping {
    tap: Recorder,
    changed: Vec<(u32, [u8; BUCKET_BYTES])>,
}

impl Keeping {
    // A tap that was told nothing.
    fn new(alloc: Global) -> Keeping {
        Keeping {
            tap: Recorder::new(alloc),
            changed: Vec::new(alloc),
        }
    }
}

impl Watch for Keeping {
    ghost state = { λ k. k.tap };

    fn prepare(&mut self, buckets: u32, moves: u64, events: u64) -> Result<(), NoMemory> {
        self.tap.prepare(buckets, moves, events)
    }

    fn moved(&mut self, at: Move) {
        self.tap.moved(at);
    }

    fn note(&mut self, event: Event) {
        self.tap.note(event);
    }

    fn replied(
        &mut self,
        time: u64,
        bucket: u32,
        bytes: &[u8; BUCKET_BYTES],
    ) -> Result<(), NoMemory> {
        self.tap.replied(time, bucket, bytes)
    }

    fn written(&mut self, bucket: u32, bytes: &[u8; BUCKET_BYTES]) -> Result<(), NoMemory> {
        match self.changed.push((bucket, *bytes)) {
            Ok(()) => self.tap.written(bucket, bytes),
            Err(_) => Err(NoMemory),
        }
    }
}

// The first buckets of a path were changed in the mirror, so many of them, and no other bucket: each to the text of its
// slots under the seed that follows that of the one above. The two upper ones have these slots, the others are empty.
fn compare_mirror(
    rt: &impl Abort,
    tap: &Keeping,
    count: usize,
    path: &[u32; 6],
    upper: &[[Option<Entry>; 4]; 2],
) {
    let codec = Codec::new(&KEY);
    assert_eq!(rt; tap.changed.len(), count);
    for level in 0..6usize {
        let mut text = empty_bucket();
        match level {
            0 | 1 => codec.seal(level as u64 + 1, &upper[level], &mut text),
            _ => codec.seal(level as u64 + 1, &[None; 4], &mut text),
        }
        if level < count {
            assert!(rt;
                tap.changed.get(level) == Some(&(path[level], text)),
                "level {level}"
            );
        }
    }
}

// A tree with these entries at hand, and room for those of a path.
fn filled(alloc: Global, shape: &Shape, stash: u32, entries: &[Entry]) -> Result<Tree, Fail>
    requires shape { IsShape shape.now }
    requires stash { stash ≤ 4096 }
    ensures shape { IfOk result (λ (tree : TreeState). tree.shape ≡ shape.now) }
    ensures path { IfOk result (λ (tree : TreeState). tree.path ≡ None) }
    ensures seed { IfOk result (λ (tree : TreeState). tree.seed ≡ 1) }
    ensures spare { IfOk result (λ (tree : TreeState). 4 * (shape.now.levels + 1) + 2 ≤ tree.spare) }
{
    let mut tree = match Tree::new(alloc, shape, stash, Codec::new(&KEY)) {
        Ok(tree) => tree,
        Err(_) => return Err("a tree".into()),
    };
    for entry in entries {
        if entry.address.0 >= shape.total
            || entry.leaf.0 >= 1 << shape.levels
            || tree.held() > 999
        {
            return Err("an entry".into());
        }
        if tree.put(*entry).is_err() || tree.room().is_err() {
            return Err("a place".into());
        }
    }
    Ok(tree)
}

// The slot of the first dummy over a bus that was prepared for two, and after an Ok the read of a second leaf's path in
// the next one: the answers, and how many entries are at hand after each.
fn slot_and_read<M: UntrustedMemory, W: Watch>(
    tree: &mut Tree,
    bus: &mut Bus<'_, M, W>,
    shape: &Shape,
    leaf: Leaf,
    next: Leaf,
) -> Result<(Result<(), TreeStop>, u32, u32), Fail>
    requires shape { IsShape shape.now }
    requires same { tree.old.shape ≡ shape.now }
    requires small { shape.now.levels ≤ 20 }
    requires path { tree.old.path ≡ None }
    requires seed { tree.old.seed ≡ 1 }
    requires spare { 4 * (shape.now.levels + 1) ≤ tree.old.spare }
    requires fresh { (M.state bus.old.memory.now).count ≡ 0 }
    requires moved { (M.state bus.old.memory.now).moved < 2 ^ 62 }
{
    if leaf.0 >= 1 << shape.levels || next.0 >= 1 << shape.levels || tree.held() > 999 {
        return Err("a leaf".into());
    }
    match bus.prepare(shape.buckets, shape.levels, 2) {
        Ok(()) => {}
        Err(_) => return Err("a bus".into()),
    }
    match pass_by(tree, bus, 256, 0, leaf) {
        Ok(()) => {}
        Err(stop) => return Ok((Err(stop), tree.held(), tree.held())),
    }
    let held = tree.held();
    if tree.room().is_err() || held > 999 {
        return Err("room".into());
    }
    match tree.read_path(bus, 1008, next) {
        Ok(()) => Ok((Ok(()), held, tree.held())),
        Err(_) => Err("a second read".into()),
    }
}

#[test]
fn full_before_a_write(rt: HostRuntime) -> Result<(), Fail> {
    let alloc = rt.alloc();
    let shape = Shape::new(64, 16).ok_or("shape")?;
    let five = [
        entry(0, 16),
        entry(1, 16),
        entry(2, 16),
        entry(3, 16),
        entry(4, 16),
    ];
    let four = [Some(five[0]), Some(five[1]), Some(five[2]), Some(five[3])];
    for (number, wanted, moves, changed, held, found) in [
        (5, Err(TreeStop::Full { held: 1 }), 6, 0, 5, 5),
        (4, Ok(()), 18, 6, 0, 4),
    ] {
        let mut tree = filled(alloc, &shape, 0, &five[..number])?;
        let mut memory = HonestMemory::new(alloc);
        let mut tap = Keeping::new(alloc);
        let mut bus = Bus::new(&mut memory, &mut tap);
        let answer = slot_and_read(&mut tree, &mut bus, &shape, Leaf(0), Leaf(16))?;
        assert_eq!(rt; answer, (wanted, held, found));
        // six reads, and then, where there was room, six writes and six reads
        let made = tap.tap.log().moves.as_slice();
        assert_eq!(rt; made.len(), moves);
        for place in 0..made.len() {
            assert_eq!(rt; made[place].write, place / 6 == 1);
        }
        compare_mirror(
            &rt,
            &tap,
            changed,
            &[0, 1, 3, 7, 15, 31],
            &[four, [None; 4]],
        );
        // what is at hand then is as it was put there
        for entry in &five[..number] {
            assert_eq!(rt; tree.take(entry.address), Some(*entry));
        }
        assert_eq!(rt; tree.held(), 0);
    }
    Ok(())
}

#[test]
fn failed_moves_end(rt: HostRuntime) -> Result<(), Fail> {
    let alloc = rt.alloc();
    let shape = Shape::new(64, 16).ok_or("shape")?;
    // the fifth may go to level 1, the others to the root alone, where the last finds no place
    let six = [
        entry(1, 31),
        entry(2, 31),
        entry(5, 12),
        entry(3, 31),
        entry(4, 31),
        entry(6, 31),
    ];
    let root = [Some(six[0]), Some(six[1]), Some(six[3]), Some(six[4])];
    let upper = [root, [Some(six[2]), None, None, None]];
    for number in 1..13u64 {
        let mut tree = filled(alloc, &shape, 200, &six)?;
        let mut memory = FaultyMemory::new(alloc, vec![in alloc; number]?);
        let mut tap = Keeping::new(alloc);
        let mut bus = Bus::new(&mut memory, &mut tap);
        let answer = slot_and_read(&mut tree, &mut bus, &shape, Leaf(3), Leaf(3))?;
        assert_eq!(rt; answer, (Err(TreeStop::Device), 6, 6));
        let turn = if number > 6 { 16 } else { 0 };
        assert_eq!(rt; tree.ended(), 256 + 40 * (number - 1) + turn + 1);
        assert_eq!(rt; tap.tap.log().moves.len() as u64, number);
        // the buckets above the failed write are changed, and its own is as it was
        let changed = number.saturating_sub(7) as usize;
        compare_mirror(&rt, &tap, changed, &[0, 1, 3, 7, 16, 34], &upper);
    }
    Ok(())
}

// An entry in a slot of a path's bucket: the bucket's level, the slot, and the entry's address and leaf.
type Placed = (usize, usize, u32, u32);

// The slots of the bucket at a level.
fn slots_at(level: usize, placed: &[Placed]) -> [Option<Entry>; 4] {
    let mut slots = [None; 4];
    for (at, slot, address, leaf) in placed {
        if *at == level && *slot < 4 {
            slots[*slot] = Some(entry(*address, *leaf));
        }
    }
    slots
}

// One byte is changed of each slot of the bucket at a level that is named.
fn break_slots(level: usize, broken: &[(usize, usize)], text: &mut [u8; BUCKET_BYTES]) {
    for (at, slot) in broken {
        if *at == level && *slot < 4 {
            text[8 + 92 * *slot + 1] ^= 1;
        }
    }
}

// The replies of a path whose buckets have these entries, and these slots broken.
fn replies_of(
    alloc: Global,
    placed: &[Placed],
    broken: &[(usize, usize)],
) -> Result<Vec<[u8; BUCKET_BYTES]>, Fail> {
    let codec = Codec::new(&KEY);
    let mut replies = Vec::new(alloc);
    for level in 0..6usize {
        let mut text = empty_bucket();
        codec.seal(level as u64 + 7, &slots_at(level, placed), &mut text);
        break_slots(level, broken, &mut text);
        replies.push(text)?;
    }
    Ok(replies)
}

#[test]
fn first_evidence_is_named(rt: HostRuntime) -> Result<(), Fail> {
    let alloc = rt.alloc();
    let shape = Shape::new(64, 16).ok_or("shape")?;
    let bad = |bucket: u32, slot: u32| TreeStop::BadSlot { bucket, slot };
    let off = |bucket: u32, slot: u32| TreeStop::OffPath { bucket, slot };
    let doubled = |address: u32| TreeStop::Doubled {
        address: Address(address),
    };
    // On the path of leaf 0, whose buckets are 0, 1, 3 and so on: what they hold, which slots are broken, the first
    // evidence, and how many entries are at hand then, where that of address 9 was before.
    let rows: [(&[Placed], &[(usize, usize)], TreeStop, u32); 12] = [
        // a bucket's broken slot comes before what its other slots hold
        (&[(0, 0, 1, 0), (1, 0, 2, 31)], &[(1, 2)], bad(1, 2), 2),
        (&[(0, 0, 9, 0)], &[(0, 3)], bad(0, 3), 1),
        // what the buckets above hold has joined, and of two broken ones the upper one is named
        (&[(0, 0, 1, 0)], &[(2, 1)], bad(3, 1), 2),
        (
            &[(0, 0, 1, 0), (2, 0, 3, 0)],
            &[(1, 3), (2, 0)],
            bad(1, 3),
            2,
        ),
        // slot by slot
        (&[(0, 0, 1, 0), (1, 0, 2, 31)], &[], off(1, 0), 2),
        (&[(0, 0, 1, 0), (1, 1, 2, 31)], &[], off(1, 1), 2),
        (
            &[(0, 0, 1, 0), (1, 0, 1, 0), (1, 1, 2, 31)],
            &[],
            doubled(1),
            2,
        ),
        (&[(0, 0, 1, 0), (0, 1, 9, 0)], &[], doubled(9), 2),
        // the evidence of an upper bucket comes before a broken one below
        (&[(0, 0, 1, 0), (0, 1, 1, 3)], &[(1, 0)], doubled(1), 2),
        (&[(0, 0, 1, 0), (1, 0, 2, 31)], &[(2, 2)], off(1, 0), 2),
        (&[(1, 3, 1, 0), (2, 0, 1, 0)], &[], doubled(1), 2),
        // an entry of leaf 8 has the path's bucket at level 1, and not that at level 2
        (&[(1, 0, 3, 8), (2, 1, 4, 8)], &[(3, 0)], off(3, 1), 2),
    ];
    for (placed, broken, wanted, held) in rows {
        let mut tree = filled(alloc, &shape, 200, &[entry(9, 5)])?;
        let mut memory = ScriptedMemory::new(alloc, replies_of(alloc, placed, broken)?, 0)?;
        let mut tap = Recorder::new(alloc);
        let mut bus = Bus::new(&mut memory, &mut tap);
        let answer = slot_and_read(&mut tree, &mut bus, &shape, Leaf(0), Leaf(0))?;
        assert_eq!(rt; answer, (Err(wanted), held, held));
        assert_eq!(rt; tree.ended(), 496);
        assert_eq!(rt; (tap.log().moves.len(), tap.log().altered.len()), (6, 6));
    }
    Ok(())
}
