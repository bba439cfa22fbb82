//! How far the choices of a trace are known, slot by slot.

ghost use Rattle.std.specs.Prelude.{◌≡◌, ◌↔◌, ℕ, ◌+◌, ◌^◌, ◌<◌};
ghost use Rattle.std.specs.Prelude.{◌≤◌, List, MatchOption, IfSome, IfNone, length, slice_index};
ghost use Rattle.asc_base.specs.TreeShape.{olat_of};
ghost use Rattle.bus_schedule.specs.Timetable.{count_of, first_beat};
ghost use Rattle.bus_schedule.specs.Timing.{IsTimingOf};
ghost use Rattle.bus_trace.specs.Grammar.{IsHeader};
ghost use Rattle.bus_trace.specs.Trace.{public_of};
ghost use Rattle.trace_checker.specs.Steps.{Follows, IsEarly, IsSound, IsSoundNext};
ghost use Rattle.trace_checker.specs.Steps.{MayStartNext, TakesIndex, TakesNext, first_start};
ghost use Rattle.trace_checker.specs.declared.progress.Next.TheVariants.{Known, Open};

use asc_base::{MOVE_CYCLES, TURN_CYCLES};
use bus_schedule::{
    Beat, Timing, choice_falls, first_slot, most_choices, next_slot, slot_after, with_digit,
};
use bus_trace::Header;

/// What is known of the next slot.
#[derive(Clone, Copy, Debug)]
pub(crate) enum Next {
    /// Its start and its rate, as the timetable stands.
    Known(Beat),
    /// Where the timetable stood before the last slot, at whose end a choice fell.
    Open(Beat),
}

/// How far the choices are known.
#[derive(Clone, Copy, Debug)]
pub(crate) struct Progress {
    /// The digits that are known.
    pub(crate) code: u64,
    /// The next slot.
    pub(crate) next: Next,
}

/// A slot whose start is known.
#[derive(Clone, Copy, Debug)]
pub(crate) struct Slot {
    /// The digits that are known.
    pub(crate) code: u64,
    /// As the timetable stands before the slot.
    pub(crate) beat: Beat,
}

/// What decides where choices fall.
pub(crate) fn timing_of(header: &Header) -> Timing
    requires count { header.now.rates.count ≡ count_of (public_of header.now) }
    requires header { IsHeader (public_of header.now) }
    ensures { IsTimingOf (public_of header.now) result }
{
    Timing {
        levels: header.levels,
        epoch: header.epoch,
        most: most_choices(header.rates.count, header.leak),
    }
}

/// Before the first access, which starts at the first rate.
pub(crate) fn first(header: &Header) -> Progress
    requires count { header.now.rates.count ≡ count_of (public_of header.now) }
    requires header { IsHeader (public_of header.now) }
    ensures { result ≡ record { code = 0; next = Known (first_beat (public_of header.now)) } }
{
    Progress {
        code: 0,
        next: Next::Known(first_slot(header.rates.list[header.first as usize])),
    }
}

/// The least start that the next slot may have.
pub(crate) fn first_from(header: &Header, next: Next) -> u64
    requires count { header.now.rates.count ≡ count_of (public_of header.now) }
    requires header { IsHeader (public_of header.now) }
    requires early { IsEarly next }
    ensures { result ≡ first_start (public_of header.now) next }
{
    match next {
        Next::Known(beat) => beat.next,
        Next::Open(before) => before.next + olat(header.levels) + u64::from(header.rates.list[0]),
    }
}

/// The cycles of a slot.
pub(crate) fn olat(levels: u32) -> u64
    requires { levels ≤ 20 }
    ensures { result ≡ olat_of levels }
{
    2 * (u64::from(levels) + 1) * MOVE_CYCLES + TURN_CYCLES
}

/// The index of the rate that gives this start after a slot's end, both in cycles.
fn index_at(rates: &[u32], end: u64, start: u64) -> Option<usize>
    requires { end < 2 ^ 40 }
    ensures none { IfNone result ((index : ℕ) → index < length rates.now
        → ¬ (end + slice_index rates.now index ≡ start)) }
    ensures some { IfSome result (λ index. (index < length rates.now)
        × (end + slice_index rates.now index ≡ start)) }
{
    for (index, rate) in rates.iter().enumerate() {
        if slot_after(end, *rate) == start {
            return Some(index);
        }
    }
    None
}

/// The first index of a rate that gives a start from this time on after a slot's end, both in cycles.
pub(crate) fn index_from(rates: &[u32], end: u64, time: u64) -> Option<usize>
    requires { end < 2 ^ 40 }
    ensures none { IfNone result ((index : ℕ) → index < length rates.now
        → end + slice_index rates.now index < time) }
    ensures some { IfSome result (λ index. (index < length rates.now)
        × (time ≤ end + slice_index rates.now index)
        × ((lower : ℕ) → lower < index → end + slice_index rates.now lower < time)) }
{
    for (index, rate) in rates.iter().enumerate() {
        if time <= slot_after(end, *rate) {
            return Some(index);
        }
    }
    None
}

/// The slot that starts at this cycle, where the next one may.
pub(crate) fn slot_at(
    header: &Header,
    timing: &Timing,
    progress: Progress,
    start: u64,
) -> Option<Slot>
    requires count { header.now.rates.count ≡ count_of (public_of header.now) }
    requires header { IsHeader (public_of header.now) }
    requires timing { IsTimingOf (public_of header.now) timing.now }
    requires sound { IsSound (public_of header.now) progress }
    ensures { MatchOption result (¬ MayStartNext (public_of header.now) progress.next start)
        (TakesNext (public_of header.now) progress.code progress.next start) }
{
    match progress.next {
        Next::Known(beat) => {
            if beat.next != start {
                return None;
            }
            Some(Slot {
                code: progress.code,
                beat,
            })
        }
        Next::Open(before) => slot_with(header, timing, progress.code, before, start),
    }
}

/// The slot that starts at this cycle, where a choice that fell at the end before gives the start.
fn slot_with(header: &Header, timing: &Timing, code: u64, before: Beat, start: u64) -> Option<Slot>
    requires count { header.now.rates.count ≡ count_of (public_of header.now) }
    requires header { IsHeader (public_of header.now) }
    requires timing { IsTimingOf (public_of header.now) timing.now }
    requires sound { IsSoundNext (public_of header.now) code (Open before) }
    ensures { MatchOption result (¬ MayStartNext (public_of header.now) (Open before) start)
        (TakesIndex (public_of header.now) code before start) }
{
    let rates = &header.rates.list[..header.rates.count as usize];
    let index = index_at(rates, before.next + olat(header.levels), start)?;
    Some(Slot {
        code: with_digit(code, header.rates.count, before.choices, index as u32),
        beat: next_slot(&before, timing, rates[index]),
    })
}

/// What is known after a slot, which starts before 2^39.
pub(crate) fn after(header: &Header, timing: &Timing, slot: Slot) -> Progress
    requires count { header.now.rates.count ≡ count_of (public_of header.now) }
    requires header { IsHeader (public_of header.now) }
    requires timing { IsTimingOf (public_of header.now) timing.now }
    requires start { slot.beat.next < 2 ^ 39 }
    ensures { Follows (public_of header.now) slot result }
{
    if choice_falls(&slot.beat, timing) {
        return Progress {
            code: slot.code,
            next: Next::Open(slot.beat),
        };
    }
    Progress {
        code: slot.code,
        next: Next::Known(next_slot(&slot.beat, timing, header.rates.list[0])),
    }
}
