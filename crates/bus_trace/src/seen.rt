//! What a log shows of its slots.

ghost use Rattle.std.specs.Prelude.{◌≡◌, ◌≤◌, ◌+◌, All, IfOk, IsTrue, map, length, filter, nat_lt};
ghost use Rattle.std.specs.List.Sorted.{IsNonDecreasingBy};
ghost use Rattle.bus_watch.specs.declared.log.Move.{Move as MoveValue};
ghost use Rattle.bus_watch.specs.Recorder.{lists_of};
ghost use Rattle.asc_base.specs.declared.block.Leaf.{Leaf as LeafValue};
ghost use Rattle.bus_schedule.specs.Shown.{starts_of, leaves_of};
ghost use Rattle.bus_trace.specs.Grammar.{IsSeen};
ghost use Rattle.bus_trace.specs.OfLog.{moves_in, seen_in, seen_of};

use crate::trace::Seen;
use asc_base::{Leaf, MOVE_CYCLES, TURN_CYCLES};
use bus_watch::{Event, Log, Move};
use std::alloc::{AllocError, Global};

/// The starts of the slots, in order.
fn starts(alloc: Global, events: &[Event]) -> Result<Vec<u64>, AllocError>
    ensures { IfOk result (λ starts. starts.items ≡ starts_of events.now) }
{
    let mut starts = Vec::new(alloc);
    for event in events {
        if let Event::Access { start, .. } = event {
            starts.push(*start)?;
        }
    }
    Ok(starts)
}

/// The leaves that are drawn, in order.
fn leaves(alloc: Global, events: &[Event]) -> Result<Vec<Leaf>, AllocError>
    ensures { IfOk result (λ leaves. map (λ (leaf : LeafValue). leaf.0) leaves.items ≡ leaves_of events.now) }
{
    let mut leaves = Vec::new(alloc);
    for event in events {
        if let Event::Drawn { leaf, .. } = event {
            leaves.push(*leaf)?;
        }
    }
    Ok(leaves)
}

/// Whether the moves are in the order of their times.
fn are_ordered(moves: &[Move]) -> bool
    ensures { IsTrue result → IsNonDecreasingBy (λ (m : MoveValue). m.time) moves.now }
{
    for place in 1..moves.len() {
        if moves[place].time < moves[place - 1].time {
            return false;
        }
    }
    true
}

/// How many moves are made before a time. Where they are in order they aren't gone through.
fn moves_before(moves: &[Move], ordered: bool, time: u64) -> usize
    requires { IsTrue ordered → IsNonDecreasingBy (λ (m : MoveValue). m.time) moves.now }
    ensures { result ≡ length (filter (λ (m : MoveValue). nat_lt m.time time) moves.now) }
{
    if ordered {
        moves.partition_point(|m| m.time < time)
    } else {
        moves.iter().filter(|m| m.time < time).count()
    }
}

/// How many moves are made in the cycles of a slot.
fn moves_in(levels: u32, start: u64, moves: &[Move], ordered: bool) -> usize
    requires levels { levels ≤ 20 }
    requires start { start ≤ 536870912 }
    requires ordered { IsTrue ordered → IsNonDecreasingBy (λ (m : MoveValue). m.time) moves.now }
    ensures { result ≡ moves_in levels start moves.now }
{
    let olat = 2 * (levels as u64 + 1) * MOVE_CYCLES + TURN_CYCLES;
    moves_before(moves, ordered, start + olat) - moves_before(moves, ordered, start)
}

/// What these moves show of a slot.
fn slot(levels: u32, start: u64, leaf: Leaf, moves: &[Move], ordered: bool) -> Seen
    requires levels { levels ≤ 20 }
    requires ranges { IsSeen levels (seen_of levels moves.now (start, leaf.0)) }
    requires ordered { IsTrue ordered → IsNonDecreasingBy (λ (m : MoveValue). m.time) moves.now }
    ensures { result ≡ seen_of levels moves.now (start, leaf.0) }
{
    Seen {
        start,
        leaf,
        moves: moves_in(levels, start, moves, ordered) as u32,
    }
}

/// What the log shows of its slots: each start goes with the leaf that has its place.
pub(crate) fn seen(alloc: Global, levels: u32, log: &Log) -> Result<Vec<Seen>, AllocError>
    requires levels { levels ≤ 20 }
    requires ranges { All (IsSeen levels) (seen_in levels (lists_of log.now)) }
    ensures { IfOk result (λ seen. seen.items ≡ seen_in levels (lists_of log.now)) }
{
    let starts = starts(alloc, &log.events)?;
    let leaves = leaves(alloc, &log.events)?;
    let ordered = are_ordered(&log.moves);
    let mut seen = Vec::new(alloc);
    for place in 0..starts.len().min(leaves.len()) {
        let slot = slot(levels, starts[place], leaves[place], &log.moves, ordered);
        seen.push(slot)?;
    }
    Ok(seen)
}
