//! When the moves of a slot are made.

ghost use Rattle.std.specs.Prelude.{◌≡◌, ℕ, ◌+◌, ◌*◌, ◌^◌, ◌<◌, ◌≤◌, Some, length, slice_get};
ghost use Rattle.std.specs.Option.{option_map};
ghost use Rattle.bus_watch.specs.declared.log.Move.{Move};
ghost use Rattle.bus_watch.specs.Path.{slot_moves};
ghost use Rattle.bus_schedule.specs.Schedule.{moves_before_time, move_time_of};

use asc_base::{MOVE_CYCLES, TURN_CYCLES};

/// The time of the k-th move of a slot, from 0, in cycles: first come the reads of its path from the root down,
/// then, after the turn, the writes. The slot begins at `start`, and the leaves of the tree are at level `levels`.
pub fn move_time(start: u64, levels: u32, k: u32) -> u64
    requires start { start < 2 ^ 40 }
    requires levels { levels ≤ 20 }
    requires number { k < 2 * (levels + 1) }
    ensures time { result ≡ move_time_of start levels k }
    ensures of_slot { (leaf : ℕ)
        → option_map (λ (m : Move). m.time) (slice_get (slot_moves levels start leaf) k) ≡ Some result }
{
    let time = start + MOVE_CYCLES * u64::from(k);
    if k <= levels {
        time
    } else {
        time + TURN_CYCLES
    }
}

/// How many moves of a slot come before a time, in cycles. The slot begins at `start`, and the leaves of the tree
/// are at level `levels`.
pub fn moves_before(start: u64, levels: u32, end: u64) -> u32
    requires start { start < 2 ^ 40 }
    requires levels { levels ≤ 20 }
    requires end { end < 2 ^ 40 }
    ensures { (leaf : ℕ) → result ≡ length (moves_before_time end (slot_moves levels start leaf)) }
{
    let path = u64::from(levels) + 1;
    let since = end.saturating_sub(start);
    let since_turn = since.saturating_sub(MOVE_CYCLES * path + TURN_CYCLES);
    let reads = since.div_ceil(MOVE_CYCLES).min(path);
    let writes = since_turn.div_ceil(MOVE_CYCLES).min(path);
    (reads + writes) as u32
}
