ghost use Rattle.std.specs.Prelude.{◌≡◌, ◌<◌, ◌≤◌, ◌+◌, ◌^◌, ℕ, false, [], length, vec_capacity, OnOk, IfErr};
ghost use Rattle.asc_base.specs.Shape.{IsShape};
ghost use Rattle.bus_watch.specs.Made.{Ran};
ghost use Rattle.bus_watch.specs.Path.{along, reads};
ghost use Rattle.bus_watch.specs.Ready.{IsReady};
ghost use Rattle.bus_watch.specs.RunEnd.{Whole, end_at};
ghost use Rattle.unified_tree.specs.Reads.{log_after};

use crate::stop::Cut;
use asc_base::{Leaf, MOVE_CYCLES, Shape};
use asc_outside::{BUCKET_BYTES, UntrustedMemory, empty_bucket};
use bus_watch::{Bus, Watch};

/// Reads the buckets of a path from the root down, and keeps the replies.
pub(crate) fn read_buckets<M: UntrustedMemory, W: Watch>(
    bus: &mut Bus<'_, M, W>,
    shape: &Shape,
    start: u64,
    leaf: Leaf,
    texts: &mut Vec<[u8; BUCKET_BYTES]>,
) -> Result<(), Cut>
    requires shape { IsShape shape.now }
    requires small { shape.now.levels ≤ 20 }
    requires leaf { leaf.0 < 2 ^ shape.now.levels }
    requires start { start < 2 ^ 39 }
    requires ready { IsReady shape.now.buckets (shape.now.levels + 1) 0
        (M.state bus.old.memory.now) (W.state bus.old.tap.now) }
    requires texts { shape.now.levels + 1 ≤ vec_capacity texts.old }
    ensures ran { OnOk result (Ran M.state W.state Whole (reads shape.now.levels start leaf.0) [] bus.old bus.new) }
    ensures within { IfErr result (λ cut. cut.level ≤ shape.now.levels) }
    ensures cut { IfErr result (λ cut. Ran M.state W.state (end_at cut.stop)
        (along shape.now.levels false start leaf.0 (cut.level + 1)) [] bus.old bus.new) }
    ensures mirror { (W.state bus.new.tap.now).mirror ≡ (W.state bus.old.tap.now).mirror }
    ensures count { OnOk result (length texts.new.items ≡ shape.now.levels + 1) }
    ensures log { OnOk result ((W.state bus.new.tap.now).log ≡ log_after shape.now.levels start leaf.0
        (W.state bus.old.tap.now).mirror 0 (W.state bus.old.tap.now).log texts.new.items) }
    ensures capacity { vec_capacity texts.old ≤ vec_capacity texts.new }
{
    texts.clear();
    for level in 0..shape.levels + 1 {
        let at = start + MOVE_CYCLES * u64::from(level);
        let mut text = empty_bucket();
        match bus.read(at, shape.bucket_on(leaf, level), &mut text) {
            Ok(()) => {}
            Err(stop) => return Err(Cut { stop, level }),
        }
        match texts.push(text) {
            Ok(()) => {}
            Err(_) => unreachable!(),
        }
    }
    Ok(())
}
