//! One slot of the timetable after the other.

ghost use Rattle.std.specs.Prelude.{◌≡◌, ℕ, ◌+◌, ◌^◌, ◌<◌, ◌≤◌};
ghost use Rattle.asc_base.specs.TreeShape.{olat_of};
ghost use Rattle.bus_schedule.specs.Timetable.{Public, most_of, rate_at, falls, first_beat, beat_after};
ghost use Rattle.bus_schedule.specs.Timing.{IsTimingOf};

use crate::{epoch_of, slot_after};
use asc_base::{MOVE_CYCLES, TURN_CYCLES};

/// Where a timetable stands between two slots.
#[derive(Clone, Copy, Debug, PartialEq, Eq)]
pub struct Beat {
    /// When the next slot starts, in cycles.
    pub next: u64,
    /// The rate in force, in cycles.
    pub rate: u32,
    /// The greatest epoch of an end so far, 0 before the first end.
    pub reached: u32,
    /// How many choices fell.
    pub choices: u32,
}

/// What decides where choices fall.
#[derive(Clone, Copy, Debug, PartialEq, Eq)]
pub struct Timing {
    /// The level of the tree's leaves, at most 20.
    pub levels: u32,
    /// The length of epoch 0 in cycles, 1 to 2^40.
    pub epoch: u64,
    /// How many choices are allowed.
    pub most: u32,
}

/// How many choices are allowed among so many rates, of which there are some, by a budget of so many bits.
pub fn most_choices(count: u32, leak: u32) -> u32
    requires { 0 < count }
    ensures { result ≡ most_of count leak }
{
    if count <= 1 { 0 } else { leak / count.ilog2() }
}

/// Before the first slot, which starts at the first rate.
pub fn first_slot(rate: u32) -> Beat
    ensures { (p : Public) → rate ≡ rate_at p.rates p.first → result ≡ first_beat p }
{
    Beat {
        next: u64::from(rate),
        rate,
        reached: 0,
        choices: 0,
    }
}

/// The end of the slot that is next, which starts before 2^39.
fn end_of(beat: &Beat, timing: &Timing) -> u64
    requires start { beat.now.next < 2 ^ 39 }
    requires levels { timing.now.levels ≤ 20 }
    ensures end { result ≡ beat.now.next + olat_of timing.now.levels }
    ensures time { result < 2 ^ 40 }
{
    beat.next + 2 * (u64::from(timing.levels) + 1) * MOVE_CYCLES + TURN_CYCLES
}

/// Whether a choice falls at the end of the slot that is next, which starts before 2^39.
pub fn choice_falls(beat: &Beat, timing: &Timing) -> bool
    requires start { beat.now.next < 2 ^ 39 }
    requires levels { timing.now.levels ≤ 20 }
    requires some { 1 ≤ timing.now.epoch }
    requires most { timing.now.epoch ≤ 2 ^ 40 }
    ensures { result ≡ falls timing.now.epoch timing.now.most beat.now.reached beat.now.choices
        (beat.now.next + olat_of timing.now.levels) }
{
    let epoch = epoch_of(end_of(beat, timing), timing.epoch);
    beat.reached < epoch && beat.choices < timing.most
}

/// Where the timetable stands after the slot that is next, which starts before 2^39. Where a choice falls at its end
/// it takes the rate `chosen`, in cycles.
pub fn next_slot(beat: &Beat, timing: &Timing, chosen: u32) -> Beat
    requires start { beat.now.next < 2 ^ 39 }
    requires levels { timing.now.levels ≤ 20 }
    requires some { 1 ≤ timing.now.epoch }
    requires most { timing.now.epoch ≤ 2 ^ 40 }
    ensures { (p : Public) (index : ℕ) → IsTimingOf p timing.now → chosen ≡ rate_at p.rates index
        → result ≡ beat_after p beat.now index }
{
    let end = end_of(beat, timing);
    let reached = beat.reached.max(epoch_of(end, timing.epoch));
    if choice_falls(beat, timing) {
        return Beat {
            next: slot_after(end, chosen),
            rate: chosen,
            reached,
            choices: beat.choices + 1,
        };
    }
    Beat {
        next: slot_after(end, beat.rate),
        rate: beat.rate,
        reached,
        choices: beat.choices,
    }
}
