//! The rates of a header's line.

ghost use Rattle.std.specs.Prelude.{◌≡◌, ℕ, ◌<◌, ◌≤◌, ◌++◌, ◌∷◌, ◌↔◌, [], List, IsTrue, IfOk, MatchOption, MatchResult};
ghost use Rattle.std.specs.Prelude.{codes, length, replicate, take};
ghost use Rattle.std.specs.List.Sorted.{IsStrictlyIncreasing};
ghost use Rattle.asc_base.specs.Settings.{AreRates, IsPowerTo};
ghost use Rattle.bus_trace.specs.Reading.{AreAllRates, AreNumbers, HasRates, Holds, IsFound, IsLineFault, IsLineOf};
ghost use Rattle.bus_trace.specs.Reading.{IsList};
ghost use Rattle.bus_trace.specs.Trace.{line};

use crate::fault::TraceKind;
use crate::number::{behind, next_number};
use asc_base::Rates;

/// The greatest rate, in cycles.
const GREATEST: u64 = 1_048_576;

/// The numbers of a line of rates, as far as they can be rates.
#[derive(Clone, Copy, Debug)]
struct Found {
    /// The numbers that were kept.
    rates: Rates,
    /// Whether these are all: none was too great, and there were at most 16.
    all: bool,
}

/// No number yet.
fn nothing() -> Found
    ensures { Holds result [] }
{
    Found {
        rates: Rates {
            list: [0; 16],
            count: 0,
        },
        all: true,
    }
}

/// What was found, with one number more.
fn with_number(found: Found, number: u64) -> Found
    ensures { (numbers : List ℕ) → Holds found numbers → Holds result (numbers ++ number ∷ []) }
{
    let mut list = found.rates.list;
    let count = found.rates.count;
    if found.all && count < 16 && number <= GREATEST {
        list[count as usize] = number as u32;
        return Found {
            rates: Rates {
                list,
                count: count + 1,
            },
            all: true,
        };
    }
    Found {
        rates: found.rates,
        all: false,
    }
}

/// The numbers of a text, each of which is behind a space.
fn numbers(text: &[u8]) -> Option<Found>
    ensures { MatchOption result ((numbers : List ℕ) → ¬ IsList text.now numbers) (IsFound text.now) }
{
    let mut found = nothing();
    let mut rest = text;
    loop {
        let (number, after) = next_number(rest)?;
        found = with_number(found, number);
        if after.is_empty() {
            return Some(found);
        }
        rest = after;
    }
}

/// Whether each number is below the next.
fn rise(numbers: &[u32]) -> bool
    ensures { IsTrue result ↔ IsStrictlyIncreasing numbers.now }
{
    for place in 1..numbers.len() {
        if numbers[place - 1] >= numbers[place] {
            return false;
        }
    }
    true
}

/// Whether so many rates are allowed.
fn is_count(count: u32) -> bool
    ensures { IsTrue result ↔ IsPowerTo 4 count }
{
    for power in 0..=4u32 {
        if count == 1 << power {
            return true;
        }
    }
    false
}

/// Whether the numbers are 1, 2, 4, 8 or 16 rising ones in the range of rates.
fn are_rates(rates: &Rates) -> bool
    requires { rates.now.count ≤ 16 }
    ensures { IsTrue result ↔ AreRates rates.now.list rates.now.count }
{
    let numbers = &rates.list[..rates.count as usize];
    if !is_count(rates.count) {
        return false;
    }
    rise(numbers)
        && numbers
            .iter()
            .all(|rate| 64 <= *rate && u64::from(*rate) <= GREATEST)
}

/// The rates that a line says.
pub(crate) fn rates_of(text: &[u8]) -> Result<Rates, TraceKind>
    ensures line { MatchResult result
        (λ rates. IsLineOf (line (codes "rates")) AreAllRates text.now (take rates.count rates.list))
        (IsLineFault (line (codes "rates")) AreNumbers AreAllRates text.now) }
    ensures rates { IfOk result (λ rates. HasRates rates (take rates.count rates.list)) }
{
    let Some(after) = behind(text, b"rates") else {
        return Err(TraceKind::Form);
    };
    let Some(found) = numbers(after) else {
        return Err(TraceKind::Form);
    };
    if !found.all {
        return Err(TraceKind::Range);
    }
    if !are_rates(&found.rates) {
        return Err(TraceKind::Range);
    }
    Ok(found.rates)
}
