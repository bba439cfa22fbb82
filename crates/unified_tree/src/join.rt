//! The entries of a path's buckets join the hand.

ghost use Rattle.std.specs.Prelude.{◌≡◌, ◌==◌, ◌<◌, ◌≤◌, ◌+◌, ◌*◌, ◌^◌, length};
ghost use Rattle.asc_base.specs.Shape.{IsShape};
ghost use Rattle.asc_base.specs.TreeShape.{bucket_of};
ghost use Rattle.bucket_codec.specs.Bucket.{opened, AreSlots, AreInRange};
ghost use Rattle.bucket_codec.specs.Slot.{IsSlot, IsInRange};
ghost use Rattle.oram_contents.specs.Shapes.{AreOfShape};
ghost use Rattle.oram_contents.specs.PathRead.{join_slot, join_slots, join_bucket, path_read};
ghost use Rattle.unified_tree.specs.Joined.{hand_then, slots_joined, bucket_joined, path_joined};
ghost use Rattle.unified_tree.specs.Stops.{Says};

use crate::stop::TreeStop;
use asc_base::{Entry, Leaf, Shape};
use asc_outside::BUCKET_BYTES;
use bucket_codec::{BadSlot, Codec};
use oram_stash::{Doubled, Stash};

/// The slots of a bucket.
pub(crate) const SLOTS: usize = 4;

/// Whether two leaves have the same bucket at a level.
pub(crate) fn shares(levels: u32, x: Leaf, y: Leaf, level: u32) -> bool
    requires small { levels ≤ 20 }
    requires level { level ≤ levels }
    ensures { result ≡ (bucket_of levels x.0 level == bucket_of levels y.0 level) }
{
    x.0 >> (levels - level) == y.0 >> (levels - level)
}

/// What a slot holds joins the hand.
fn join_slot(
    hand: &mut Stash,
    shape: &Shape,
    leaf: Leaf,
    level: u32,
    slot: u32,
    found: &Option<Entry>,
) -> Result<(), TreeStop>
    requires shape { IsShape shape.now }
    requires small { shape.now.levels ≤ 20 }
    requires leaf { leaf.0 < 2 ^ shape.now.levels }
    requires level { level ≤ shape.now.levels }
    requires room { 0 < hand.old.spare }
    requires found { IsSlot found.now × IsInRange shape.now found.now }
    ensures says { Says result (join_slot shape.now.levels leaf.0 level slot found.now hand.old.entries)
        hand.new.entries }
    ensures joined { hand.new.entries
        ≡ hand_then (join_slot shape.now.levels leaf.0 level slot found.now hand.old.entries)
        hand.old.entries (λ next. next) }
    ensures spare { hand.old.spare ≤ hand.new.spare + 1 }
    ensures more { length hand.new.entries ≤ length hand.old.entries + 1 }
    ensures of_shape { AreOfShape shape.now hand.old.entries → AreOfShape shape.now hand.new.entries }
{
    let entry = match found {
        Some(entry) => *entry,
        None => return Ok(()),
    };
    if !shares(shape.levels, entry.leaf, leaf, level) {
        let bucket = shape.bucket_on(leaf, level);
        return Err(TreeStop::OffPath { bucket, slot });
    }
    match hand.put(entry) {
        Ok(()) => Ok(()),
        Err(Doubled) => Err(TreeStop::Doubled {
            address: entry.address,
        }),
    }
}

/// The slots of a bucket join the hand.
fn join_slots(
    hand: &mut Stash,
    shape: &Shape,
    leaf: Leaf,
    level: u32,
    slots: &[Option<Entry>; SLOTS],
) -> Result<(), TreeStop>
    requires shape { IsShape shape.now }
    requires small { shape.now.levels ≤ 20 }
    requires leaf { leaf.0 < 2 ^ shape.now.levels }
    requires level { level ≤ shape.now.levels }
    requires room { 4 ≤ hand.old.spare }
    requires slots { AreSlots slots.now × AreInRange shape.now slots.now }
    ensures says { Says result (join_slots shape.now.levels leaf.0 level 0 slots.now hand.old.entries)
        hand.new.entries }
    ensures joined { hand.new.entries ≡ slots_joined shape.now.levels leaf.0 level 0 slots.now hand.old.entries }
    ensures spare { hand.old.spare ≤ hand.new.spare + 4 }
    ensures more { length hand.new.entries ≤ length hand.old.entries + 4 }
    ensures of_shape { AreOfShape shape.now hand.old.entries → AreOfShape shape.now hand.new.entries }
{
    for slot in 0..SLOTS {
        match join_slot(hand, shape, leaf, level, slot as u32, &slots[slot]) {
            Ok(()) => {}
            Err(stop) => return Err(stop),
        }
    }
    Ok(())
}

/// A bucket is opened, and its slots join the hand.
fn join_bucket(
    hand: &mut Stash,
    codec: &Codec,
    shape: &Shape,
    leaf: Leaf,
    level: u32,
    text: &[u8; BUCKET_BYTES],
) -> Result<(), TreeStop>
    requires shape { IsShape shape.now }
    requires small { shape.now.levels ≤ 20 }
    requires leaf { leaf.0 < 2 ^ shape.now.levels }
    requires level { level ≤ shape.now.levels }
    requires room { 4 ≤ hand.old.spare }
    ensures says { Says result (join_bucket shape.now.levels leaf.0 level
        (opened codec.now shape.now text.now) hand.old.entries) hand.new.entries }
    ensures joined { hand.new.entries ≡ bucket_joined shape.now.levels leaf.0 level
        (opened codec.now shape.now text.now) hand.old.entries }
    ensures spare { hand.old.spare ≤ hand.new.spare + 4 }
    ensures more { length hand.new.entries ≤ length hand.old.entries + 4 }
    ensures of_shape { AreOfShape shape.now hand.old.entries → AreOfShape shape.now hand.new.entries }
{
    match codec.open(text, shape) {
        Ok(slots) => join_slots(hand, shape, leaf, level, &slots),
        Err(BadSlot { slot }) => {
            let bucket = shape.bucket_on(leaf, level);
            Err(TreeStop::BadSlot { bucket, slot })
        }
    }
}

/// The buckets of a path join the hand, from the root down.
pub(crate) fn join_buckets(
    hand: &mut Stash,
    codec: &Codec,
    shape: &Shape,
    leaf: Leaf,
    texts: &[[u8; BUCKET_BYTES]],
) -> Result<(), TreeStop>
    requires shape { IsShape shape.now }
    requires small { shape.now.levels ≤ 20 }
    requires leaf { leaf.0 < 2 ^ shape.now.levels }
    requires all { length texts.now ≡ shape.now.levels + 1 }
    requires room { 4 * (shape.now.levels + 1) ≤ hand.old.spare }
    ensures says { Says result (path_read codec.now shape.now leaf.0 texts.now hand.old.entries) hand.new.entries }
    ensures joined { hand.new.entries ≡ path_joined codec.now shape.now leaf.0 texts.now hand.old.entries }
    ensures spare { hand.old.spare ≤ hand.new.spare + 4 * (shape.now.levels + 1) }
    ensures more { length hand.new.entries ≤ length hand.old.entries + 4 * (shape.now.levels + 1) }
    ensures of_shape { AreOfShape shape.now hand.old.entries → AreOfShape shape.now hand.new.entries }
{
    for level in 0..shape.levels + 1 {
        match join_bucket(hand, codec, shape, leaf, level, &texts[level as usize]) {
            Ok(()) => {}
            Err(stop) => return Err(stop),
        }
    }
    Ok(())
}
