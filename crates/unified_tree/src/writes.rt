//! A path is written.

ghost use Rattle.std.specs.Prelude.{◌≡◌, ◌==◌, ◌<◌, ◌≤◌, ◌+◌, ◌^◌, ℕ, true, [], List, Option, length, slice_get};
ghost use Rattle.std.specs.Prelude.{vec_capacity, OnOk, IfErr};
ghost use Rattle.asc_base.specs.Shape.{IsShape};
ghost use Rattle.asc_base.specs.TreeShape.{shared_of};
ghost use Rattle.bus_watch.specs.Made.{Ran};
ghost use Rattle.bus_watch.specs.Path.{along, writes, writes_start};
ghost use Rattle.bus_watch.specs.Ready.{IsReady};
ghost use Rattle.bus_watch.specs.RunEnd.{Whole, end_at};
ghost use Rattle.oram_contents.specs.PathWritten.{depths_of, places_of, four_slots, sealed};
ghost use Rattle.path_evict.specs.Placed.{taken_at};
ghost use Rattle.path_evict.specs.Placement.{stands_at};

use crate::join::{SLOTS, shares};
use crate::stop::Cut;
use asc_base::{Entry, Leaf, MOVE_CYCLES, Shape, TURN_CYCLES};
use asc_outside::{UntrustedMemory, empty_bucket};
use bucket_codec::Codec;
use bus_watch::{Bus, Watch};
use oram_stash::Stash;

/// The greatest level at which the paths to two leaves have the same bucket.
fn depth(levels: u32, x: Leaf, y: Leaf) -> u32
    requires small { levels ≤ 20 }
    ensures depth { result ≡ shared_of levels x.0 y.0 }
    ensures inside { result ≤ levels }
{
    let mut level = levels;
    while level > 0 && !shares(levels, x, y, level) {
        level -= 1;
    }
    level
}

/// The depths of the entries at hand on the path of a leaf.
pub(crate) fn depths_on(hand: &Stash, levels: u32, leaf: Leaf, into: &mut Vec<u32>)
    requires small { levels ≤ 20 }
    requires room { length hand.now.entries ≤ vec_capacity into.old }
    ensures depths { into.new.items ≡ depths_of levels leaf.0 hand.now.entries }
    ensures capacity { vec_capacity into.old ≤ vec_capacity into.new }
{
    into.clear();
    for entry in hand.iter() {
        match into.push(depth(levels, entry.leaf, leaf)) {
            Ok(()) => {}
            Err(_) => unreachable!(),
        }
    }
}

/// Whether a place is this level.
fn stands(place: Option<u32>, level: u32) -> bool
    ensures { result ≡ stands_at level place }
{
    match place {
        Some(place) => place == level,
        None => false,
    }
}

/// The entry of this number, from 0 on, among those whose place is this level.
fn nth_at(hand: &Stash, places: &[Option<u32>], level: u32, number: u32) -> Option<Entry>
    requires { length places.now ≡ length hand.now.entries }
    ensures { result ≡ slice_get (taken_at level places.now hand.now.entries) number }
{
    let mut at = 0;
    let mut left = number;
    for entry in hand.iter() {
        let place = places[at];
        at += 1;
        if !stands(place, level) {
            continue;
        }
        if left == 0 {
            return Some(*entry);
        }
        left -= 1;
    }
    None
}

/// The slots of the bucket at a level.
fn slots_on(hand: &Stash, places: &[Option<u32>], level: u32) -> [Option<Entry>; SLOTS]
    requires { length places.now ≡ length hand.now.entries }
    ensures { result ≡ four_slots (taken_at level places.now hand.now.entries) }
{
    let first = nth_at(hand, places, level, 0);
    let second = nth_at(hand, places, level, 1);
    let third = nth_at(hand, places, level, 2);
    let last = nth_at(hand, places, level, 3);
    [first, second, third, last]
}

/// Writes the buckets of a path from the root down, each under the next seed.
pub(crate) fn write_buckets<M: UntrustedMemory, W: Watch>(
    bus: &mut Bus<'_, M, W>,
    codec: &Codec,
    shape: &Shape,
    start: u64,
    leaf: Leaf,
    seed: u64,
    hand: &Stash,
    places: &[Option<u32>],
) -> Result<(), Cut>
    requires shape { IsShape shape.now }
    requires small { shape.now.levels ≤ 20 }
    requires leaf { leaf.0 < 2 ^ shape.now.levels }
    requires start { start < 2 ^ 39 }
    requires seed_from { 0 < seed }
    requires seed { seed < 2 ^ 63 }
    requires counted { length places.now ≡ length hand.now.entries }
    requires places { places.now ≡ places_of shape.now.levels leaf.0 hand.now.entries }
    requires ready { IsReady shape.now.buckets (shape.now.levels + 1) 0
        (M.state bus.old.memory.now) (W.state bus.old.tap.now) }
    ensures ran { OnOk result (Ran M.state W.state Whole (writes shape.now.levels start leaf.0) [] bus.old bus.new) }
    ensures within { IfErr result (λ cut. cut.level ≤ shape.now.levels) }
    ensures cut { IfErr result (λ cut. Ran M.state W.state (end_at cut.stop)
        (along shape.now.levels true (writes_start shape.now.levels start) leaf.0 (cut.level + 1)) [] bus.old bus.new) }
    ensures altered { (W.state bus.new.tap.now).log.altered ≡ (W.state bus.old.tap.now).log.altered }
    ensures mirror { OnOk result ((W.state bus.new.tap.now).mirror ≡ sealed codec.now shape.now.levels leaf.0 seed
        hand.now.entries (W.state bus.old.tap.now).mirror (shape.now.levels + 1)) }
    ensures mirror_cut { IfErr result (λ cut. (W.state bus.new.tap.now).mirror
        ≡ sealed codec.now shape.now.levels leaf.0 seed hand.now.entries (W.state bus.old.tap.now).mirror cut.level) }
{
    let first = start + MOVE_CYCLES * (u64::from(shape.levels) + 1) + TURN_CYCLES;
    for level in 0..shape.levels + 1 {
        let at = first + MOVE_CYCLES * u64::from(level);
        let slots = slots_on(hand, places, level);
        let mut text = empty_bucket();
        codec.seal(seed + u64::from(level), &slots, &mut text);
        match bus.write(at, shape.bucket_on(leaf, level), &text) {
            Ok(()) => {}
            Err(stop) => return Err(Cut { stop, level }),
        }
    }
    Ok(())
}
