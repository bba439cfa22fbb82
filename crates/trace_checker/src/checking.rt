//! The check: once through the accesses, with the choices that are known so far, and then the end.

ghost use Rattle.std.specs.Prelude.{◌≡◌, ◌+◌, ◌*◌, ◌^◌, ◌<◌, ◌≤◌, MatchResult, length};
ghost use Rattle.bus_schedule.specs.Timetable.{bits_of, choices_of, count_of};
ghost use Rattle.bus_schedule.specs.Timing.{IsTimingOf};
ghost use Rattle.bus_trace.specs.Grammar.{IsHeader, IsTrace};
ghost use Rattle.bus_trace.specs.Trace.{lists_of, public_of};
ghost use Rattle.trace_checker.specs.Checker.{Says};
ghost use Rattle.trace_checker.specs.Steps.{IsSoundNext, Knows, OpenAt};
ghost use Rattle.trace_checker.specs.declared.progress.Next.TheVariants.{Open};

use crate::progress::{
    Next, Progress, after, first, first_from, index_from, olat, slot_at, timing_of,
};
use crate::verdict::Verdict;
use bus_schedule::{Beat, Timing, moves_before, with_digit};
use bus_trace::{Header, Trace};

/// The number of the line of an access, or of the end where there are so many accesses.
fn line_of(index: usize) -> u64
    requires { index < 2 ^ 63 }
    ensures { result ≡ 7 + index }
{
    7 + index as u64
}

/// What is known after an access, or the verdict where no choices allow it.
fn with_access(
    trace: &Trace,
    timing: &Timing,
    progress: Progress,
    index: usize,
) -> Result<Progress, Verdict>
    requires count { trace.now.header.rates.count ≡ count_of (public_of trace.now.header) }
    requires ranges { IsTrace (lists_of trace.now) }
    requires timing { IsTimingOf (public_of trace.now.header) timing.now }
    requires index { index < length trace.now.accesses.items }
    requires knows { Knows (lists_of trace.now) index progress }
    ensures { MatchResult result (Knows (lists_of trace.now) (index + 1)) (Says (lists_of trace.now)) }
{
    let seen = trace.accesses[index];
    let Some(slot) = slot_at(&trace.header, timing, progress, seen.start) else {
        return Err(Verdict::Fails {
            line: line_of(index),
            found: seen.start,
            wanted: first_from(&trace.header, progress.next),
        });
    };
    let moves = moves_before(seen.start, trace.header.levels, trace.end);
    if moves != seen.moves {
        return Err(Verdict::Fails {
            line: line_of(index),
            found: u64::from(seen.moves),
            wanted: u64::from(moves),
        });
    }
    Ok(after(&trace.header, timing, slot))
}

/// How many bits so many choices tell.
fn bits(header: &Header, choices: u32) -> u32
    requires count { header.now.rates.count ≡ count_of (public_of header.now) }
    requires header { IsHeader (public_of header.now) }
    requires choices { choices ≤ choices_of (public_of header.now) }
    ensures { result ≡ choices * bits_of (count_of (public_of header.now)) }
{
    choices * header.rates.count.ilog2()
}

/// How many choices fell by a time, where one more than so many fell by the end of a slot.
fn fallen_by(choices: u32, end: u64, time: u64) -> u32
    requires { choices < 2 ^ 31 }
    ensures over { end ≤ time → result ≡ choices + 1 }
    ensures cut { time < end → result ≡ choices }
    ensures most { result ≤ choices + 1 }
{
    if end <= time { choices + 1 } else { choices }
}

/// The verdict at the end where a choice fell at the end of the last slot, before which the timetable stood so.
fn with_open_end(trace: &Trace, code: u64, before: Beat) -> Verdict
    requires count { trace.now.header.rates.count ≡ count_of (public_of trace.now.header) }
    requires ranges { IsTrace (lists_of trace.now) }
    requires sound { IsSoundNext (public_of trace.now.header) code (Open before) }
    requires opened { OpenAt (lists_of trace.now) (length trace.now.accesses.items) code before }
    ensures { Says (lists_of trace.now) result }
{
    let header = &trace.header;
    let count = header.rates.count;
    let rates = &header.rates.list[..count as usize];
    let end = before.next + olat(header.levels);
    let Some(index) = index_from(rates, end, trace.end) else {
        return Verdict::Fails {
            line: line_of(trace.accesses.len()),
            found: trace.end,
            wanted: end + u64::from(rates[rates.len() - 1]),
        };
    };
    let fell = fallen_by(before.choices, end, trace.end);
    Verdict::Holds {
        code: with_digit(code, count, before.choices, index as u32),
        bits: bits(header, fell),
    }
}

/// The verdict at the end, after all accesses.
fn with_end(trace: &Trace, progress: Progress) -> Verdict
    requires count { trace.now.header.rates.count ≡ count_of (public_of trace.now.header) }
    requires ranges { IsTrace (lists_of trace.now) }
    requires knows { Knows (lists_of trace.now) (length trace.now.accesses.items) progress }
    ensures { Says (lists_of trace.now) result }
{
    match progress.next {
        Next::Known(beat) => {
            if beat.next < trace.end {
                return Verdict::Fails {
                    line: line_of(trace.accesses.len()),
                    found: trace.end,
                    wanted: beat.next,
                };
            }
            Verdict::Holds {
                code: progress.code,
                bits: bits(&trace.header, beat.choices),
            }
        }
        Next::Open(before) => with_open_end(trace, progress.code, before),
    }
}

/// Whether some choices of rates make the slots of a trace: its starts are the timetable's, and its numbers of moves
/// the schedule's.
///
/// Where some do, `code` is the least code of such choices, and `bits` what the choices tell that fell by the end.
/// Else the verdict names the first line that none allows, what stands there and what should: of an access its start,
/// or where some choices give the start its number of moves; of the end its time, where each choice makes one more
/// slot before it.
///
/// The numbers of the trace are in their ranges, and its header has as many rates as it says.
pub fn check(trace: &Trace) -> Verdict
    requires count { trace.now.header.rates.count ≡ count_of (public_of trace.now.header) }
    requires ranges { IsTrace (lists_of trace.now) }
    ensures { Says (lists_of trace.now) result }
{
    let timing = timing_of(&trace.header);
    let mut progress = first(&trace.header);
    for index in 0..trace.accesses.len() {
        match with_access(trace, &timing, progress, index) {
            Ok(more) => progress = more,
            Err(verdict) => return verdict,
        }
    }
    with_end(trace, progress)
}
