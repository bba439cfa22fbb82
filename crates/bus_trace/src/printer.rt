//! From a log to the text of its trace.

ghost use Rattle.std.specs.Prelude.{◌≡◌, ◌≤◌, ◌++◌, ◌∷◌, [], OnOk, OnErr, IfOk, Some, length, map, take, string_bytes};
ghost use Rattle.std.specs.List.{flat_map};
ghost use Rattle.bus_watch.specs.Recorder.{lists_of};
ghost use Rattle.bus_schedule.specs.Shown.{starts_of, leaves_of};
ghost use Rattle.bus_trace.specs.Grammar.{IsTrace};
ghost use Rattle.bus_trace.specs.OfLog.{trace_of};
ghost use Rattle.bus_trace.specs.Trace.{public_of, header_lines, access_line, spaced, text_of, trace_text};

use crate::seen::seen;
use crate::trace::{Header, Seen};
use asc_base::NoMemory;
use bus_watch::Log;
use std::alloc::{AllocError, Global};

/// Appends numbers, with a space before each.
fn add_numbers(text: &mut String, numbers: &[u32]) -> Result<(), AllocError>
    ensures { OnOk result (string_bytes text.new ≡ string_bytes text.old ++ spaced numbers.now) }
{
    for number in numbers {
        write!(text, " {number}")?;
    }
    Ok(())
}

/// Appends the lines of accesses.
fn add_accesses(text: &mut String, accesses: &[Seen]) -> Result<(), AllocError>
    ensures { OnOk result (string_bytes text.new ≡ string_bytes text.old ++ text_of (map access_line accesses.now)) }
{
    for seen in accesses {
        let start = seen.start;
        let leaf = seen.leaf.0;
        let moves = seen.moves;
        write!(text, "access {start} {leaf} {moves}\n")?;
    }
    Ok(())
}

/// Appends the lines of a header.
fn add_header(text: &mut String, header: &Header) -> Result<(), AllocError>
    requires { header.now.rates.count ≤ 16 }
    ensures { OnOk result (string_bytes text.new
        ≡ string_bytes text.old ++ text_of (header_lines (public_of header.now))) }
{
    let levels = header.levels;
    let first = header.first;
    let epoch = header.epoch;
    let leak = header.leak;
    write!(text, "ascend trace 1\nlevels {levels}\nrates")?;
    add_numbers(text, &header.rates.list[..header.rates.count as usize])?;
    write!(text, "\nfirst {first}\nepoch {epoch}\nleak {leak}\n")
}

/// The text of the trace of a log.
fn text(alloc: Global, header: &Header, log: &Log, end: u64) -> Result<String, AllocError>
    requires count { header.now.rates.count ≤ 16 }
    requires ranges { IsTrace (trace_of (public_of header.now) (lists_of log.now) end) }
    ensures { IfOk result (λ text. string_bytes text
        ≡ trace_text (trace_of (public_of header.now) (lists_of log.now) end)) }
{
    let seen = seen(alloc, header.levels, log)?;
    let mut text = String::new(alloc);
    add_header(&mut text, header)?;
    add_accesses(&mut text, &seen)?;
    write!(text, "end {end}\n")?;
    Ok(text)
}

/// Appends the text of the log's trace: the header's lines, one line for each slot with its start, its leaf and the
/// number of moves in its cycles, and the line of the end.
///
/// All numbers are in their ranges. After `NoMemory` `into` is as before.
pub fn print(header: &Header, log: &Log, end: u64, into: &mut Vec<u8>) -> Result<(), NoMemory>
    requires count { header.now.rates.count ≤ 16 }
    requires ranges { IsTrace (trace_of (public_of header.now) (lists_of log.now) end) }
    requires drawn { length (starts_of log.now.events.items) ≤ length (leaves_of log.now.events.items) }
    ensures ok { OnOk result (into.new.items
        ≡ into.old.items ++ trace_text (trace_of (public_of header.now) (lists_of log.now) end)) }
    ensures err { OnErr result (into.new.items ≡ into.old.items) }
{
    let text = text(*into.allocator(), header, log, end).map_err(|_| NoMemory)?;
    into.extend_from_slice(text.as_bytes())
        .map_err(|_| NoMemory)
}
