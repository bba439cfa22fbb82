//! From a text to the trace that it is.

ghost use Rattle.std.specs.Prelude.{◌≡◌, ◌⊎◌, ℕ, ◌+◌, ◌≤◌, ◌++◌, List, IfErr, IfOk, MatchResult};
ghost use Rattle.asc_base.specs.Settings.{AreRates, greatest_rate};
ghost use Rattle.asc_base.specs.TreeShape.{olat_of};
ghost use Rattle.bus_trace.specs.Grammar.{IsHeader, TraceText};
ghost use Rattle.bus_trace.specs.Reader.{IsFirstFault};
ghost use Rattle.bus_trace.specs.Reading.{HasRates, IsFaultOf};
ghost use Rattle.bus_trace.specs.Trace.{TraceLists, header_lines, public_of, lists_of, text_of};
ghost use Rattle.bus_trace.specs.declared.fault.TraceKind.{TraceKind as Kind};
ghost use Rattle.bus_trace.specs.declared.fault.TraceFault.TheVariants.{Bad, NoMemory};

use crate::fault::{TraceFault, TraceKind};
use crate::lines::{Item, next_item, number_line, rates_line, title_rest};
use crate::trace::{Header, Trace};
use asc_base::{MOVE_CYCLES, Rates, TURN_CYCLES};
use std::alloc::Global;

/// The least length of the first epoch, in cycles.
fn least_epoch(levels: u64, rates: &Rates) -> u64
    requires levels { levels ≤ 20 }
    requires rates { AreRates rates.now.list rates.now.count }
    ensures { result ≡ olat_of levels + greatest_rate rates.now.list rates.now.count }
{
    let olat = 2 * (levels + 1) * MOVE_CYCLES + TURN_CYCLES;
    let greatest = rates.list[..rates.count as usize]
        .iter()
        .fold(0, |greatest: u32, rate| greatest.max(*rate));
    olat + u64::from(greatest)
}

/// The header with which a text begins, and what follows it.
fn read_header(text: &[u8]) -> Result<(Header, &[u8]), TraceFault>
    ensures header { MatchResult result (λ read. (text.now ≡ text_of (header_lines (public_of read.0)) ++ read.1.now)
        × IsHeader (public_of read.0)) (IsFaultOf text.now) }
    ensures rates { IfOk result (λ read. HasRates read.0.rates (public_of read.0).rates) }
{
    let rest = title_rest(text)?;
    let (levels, rest) = number_line(rest, 2, b"levels", 1, 20)?;
    let (rates, rest) = rates_line(rest)?;
    let (first, rest) = number_line(rest, 4, b"first", 0, u64::from(rates.count) - 1)?;
    let (epoch, rest) = number_line(rest, 5, b"epoch", least_epoch(levels, &rates), 268_435_456)?;
    let (leak, rest) = number_line(rest, 6, b"leak", 0, 60)?;
    let header = Header {
        levels: levels as u32,
        rates,
        first: first as u32,
        epoch,
        leak: leak as u32,
    };
    Ok((header, rest))
}

/// The trace of a text that goes on with this behind its header.
fn read_items(alloc: Global, header: Header, text: &[u8]) -> Result<Trace, TraceFault>
    requires { IsHeader (public_of header) }
    ensures text { MatchResult result
        (λ trace. (whole : List ℕ) → whole ≡ text_of (header_lines (public_of header)) ++ text.now
        → TraceText whole (lists_of trace))
        (λ fault. (whole : List ℕ) → whole ≡ text_of (header_lines (public_of header)) ++ text.now
        → IsFaultOf whole fault) }
    ensures header { IfOk result (λ trace. trace.header ≡ header) }
{
    let mut accesses = Vec::new(alloc);
    let mut rest = text;
    let mut number = 7;
    loop {
        let (item, after) = next_item(rest, number, header.levels)?;
        number += 1;
        match item {
            Item::Access(seen) => match accesses.push(seen) {
                Ok(()) => {}
                Err(_) => return Err(TraceFault::NoMemory),
            },
            Item::End(end) => {
                if !after.is_empty() {
                    return Err(TraceFault::Bad {
                        line: number,
                        kind: TraceKind::Extra,
                    });
                }
                return Ok(Trace {
                    header,
                    accesses,
                    end,
                });
            }
        }
        rest = after;
    }
}

/// The trace of a text, from its first line to its last.
fn read_all(alloc: Global, text: &[u8]) -> Result<Trace, TraceFault>
    ensures trace { MatchResult result (λ trace. TraceText text.now (lists_of trace)) (IsFaultOf text.now) }
    ensures rates { IfOk result (λ trace. HasRates trace.header.rates (public_of trace.header).rates) }
{
    let (header, rest) = read_header(text)?;
    read_items(alloc, header, rest)
}

/// The trace that a text is.
///
/// A text that is no trace's is refused: the fault has the number of its first line at fault, counted from 1, and what
/// is wrong with that line. Only want of memory is answered besides.
pub fn read(alloc: Global, text: &[u8]) -> Result<Trace, TraceFault>
    ensures trace { IfOk result (λ trace. TraceText text.now (lists_of trace)) }
    ensures rates { IfOk result (λ trace. HasRates trace.header.rates (public_of trace.header).rates) }
    ensures fault { IfErr result (IsFaultOf text.now) }

    // What is a trace's text is read as that trace, and any other is refused with its first fault, where there is
    // memory.
    ensures is_read { (t : TraceLists) → TraceText text.now t
        → MatchResult result (λ trace. lists_of trace ≡ t) (λ fault. fault ≡ NoMemory) }
    ensures is_refused { (line : ℕ) (kind : Kind) → IsFirstFault text.now line kind
        → MatchResult result (λ trace. ⊥) (λ fault. (fault ≡ Bad line kind) ⊎ (fault ≡ NoMemory)) }
{
    read_all(alloc, text)
}
