//! The line that stands first in a text, as each place of a trace wants it.

ghost use Rattle.std.specs.Prelude.{◌≡◌, ℕ, ◌≤◌, ◌<◌, ◌^◌, ◌∷◌, [], MatchOption, MatchResult, IfOk};
ghost use Rattle.std.specs.Prelude.{take, codes};
ghost use Rattle.asc_base.specs.Settings.{IsFromTo};
ghost use Rattle.bus_trace.specs.Grammar.{IsShort, IsSeen};
ghost use Rattle.bus_trace.specs.Reader.{IsUnended};
ghost use Rattle.bus_trace.specs.Reading.{AreAllRates, AreNumbers, BeginsLine, HasRates, IsAnything, IsItem};
ghost use Rattle.bus_trace.specs.Reading.{IsLineFault, IsLineOf, IsShortItem, RefusesLine, TakesLine};
ghost use Rattle.bus_trace.specs.Reading.{item_line, seen_with, title_line};
ghost use Rattle.bus_trace.specs.Trace.{line};

use crate::fault::{TraceFault, TraceKind};
use crate::number::{Three, one_number, three_numbers};
use crate::rates::rates_of;
use crate::trace::Seen;
use asc_base::{Leaf, Rates};

/// The first line of a trace.
const TITLE: &[u8] = b"ascend trace 1";

/// The latest cycle that a trace names.
const LATEST: u64 = 536_870_912;

/// What a line behind the header says.
#[derive(Clone, Copy, Debug, PartialEq, Eq)]
pub(crate) enum Item {
    /// An access.
    Access(Seen),
    /// The time of the end, in cycles.
    End(u64),
}

/// The line that stands first, and what follows its line feed.
fn first_line(text: &[u8]) -> Option<(&[u8], &[u8])>
    ensures { MatchOption result (IsUnended text.now) (λ parts. BeginsLine text.now parts.0.now parts.1.now) }
{
    let end = text.iter().position(|byte| *byte == b'\n')?;
    Some((&text[..end], &text[end + 1..]))
}

/// The number of a line, which is a word and a number of `least` to `most`.
fn number_of(text: &[u8], word: &[u8], least: u64, most: u64) -> Result<u64, TraceKind>
    requires { most < 10 ^ 10 }
    ensures { MatchResult result
        (IsLineOf (λ (n : ℕ). line word.now (n ∷ [])) (IsFromTo least most) text.now)
        (IsLineFault (λ (n : ℕ). line word.now (n ∷ [])) IsShort (IsFromTo least most) text.now) }
{
    let Some(number) = one_number(text, word) else {
        return Err(TraceKind::Form);
    };
    if number < least || most < number {
        return Err(TraceKind::Range);
    }
    Ok(number)
}

/// What a line behind the header says, where the leaves of the tree are at level `levels`.
fn item_of(text: &[u8], levels: u32) -> Result<Item, TraceKind>
    requires { levels ≤ 20 }
    ensures { MatchResult result (IsLineOf item_line (IsItem levels) text.now)
        (IsLineFault item_line IsShortItem (IsItem levels) text.now) }
{
    if let Some(three) = three_numbers(text, b"access") {
        return match seen_of(three, levels) {
            Some(seen) => Ok(Item::Access(seen)),
            None => Err(TraceKind::Range),
        };
    }
    let Some(end) = one_number(text, b"end") else {
        return Err(TraceKind::Form);
    };
    if end > LATEST {
        return Err(TraceKind::Range);
    }
    Ok(Item::End(end))
}

/// An access with these numbers, where they are in their ranges.
fn seen_of(three: Three, levels: u32) -> Option<Seen>
    requires { levels ≤ 20 }
    ensures { MatchOption result (¬ IsSeen levels (seen_with three.first three.second three.third))
        (λ seen. (seen ≡ seen_with three.first three.second three.third) × IsSeen levels seen) }
{
    if three.first > LATEST {
        return None;
    }
    if three.second >= 1 << levels {
        return None;
    }
    if three.third < 1 {
        return None;
    }
    if three.third > 2 * (u64::from(levels) + 1) {
        return None;
    }
    Some(Seen {
        start: three.first,
        leaf: Leaf(three.second as u32),
        moves: three.third as u32,
    })
}

/// The first line of a trace, and what follows it.
pub(crate) fn title_rest(text: &[u8]) -> Result<&[u8], TraceFault>
    ensures { MatchResult result (λ rest. TakesLine title_line IsAnything text.now tt rest.now)
        (RefusesLine title_line IsAnything IsAnything 1 text.now) }
{
    let Some((line, rest)) = first_line(text) else {
        return Err(TraceFault::Bad {
            line: 1,
            kind: TraceKind::Cut,
        });
    };
    if line != TITLE {
        return Err(TraceFault::Bad {
            line: 1,
            kind: TraceKind::Form,
        });
    }
    Ok(rest)
}

/// The number of the line that stands first, and what follows the line. It has this number, and is to be a word and a
/// number of `least` to `most`.
pub(crate) fn number_line<'t>(
    text: &'t [u8],
    number: u64,
    word: &[u8],
    least: u64,
    most: u64,
) -> Result<(u64, &'t [u8]), TraceFault>
    requires { most < 10 ^ 10 }
    ensures { MatchResult result
        (λ taken. TakesLine (λ (n : ℕ). line word.now (n ∷ [])) (IsFromTo least most) text.now taken.0 taken.1.now)
        (RefusesLine (λ (n : ℕ). line word.now (n ∷ [])) IsShort (IsFromTo least most) number text.now) }
{
    let Some((line, rest)) = first_line(text) else {
        return Err(TraceFault::Bad {
            line: number,
            kind: TraceKind::Cut,
        });
    };
    match number_of(line, word, least, most) {
        Ok(said) => Ok((said, rest)),
        Err(kind) => Err(TraceFault::Bad { line: number, kind }),
    }
}

/// The rates of the line that stands first, which is the third, and what follows the line.
pub(crate) fn rates_line(text: &[u8]) -> Result<(Rates, &[u8]), TraceFault>
    ensures line { MatchResult result (λ taken. TakesLine (line (codes "rates")) AreAllRates text.now
        (take taken.0.count taken.0.list) taken.1.now)
        (RefusesLine (line (codes "rates")) AreNumbers AreAllRates 3 text.now) }
    ensures rates { IfOk result (λ taken. HasRates taken.0 (take taken.0.count taken.0.list)) }
{
    let Some((line, rest)) = first_line(text) else {
        return Err(TraceFault::Bad {
            line: 3,
            kind: TraceKind::Cut,
        });
    };
    match rates_of(line) {
        Ok(rates) => Ok((rates, rest)),
        Err(kind) => Err(TraceFault::Bad { line: 3, kind }),
    }
}

/// What the line that stands first says, which has this number and is behind the header, and what follows the line.
pub(crate) fn next_item(text: &[u8], number: u64, levels: u32) -> Result<(Item, &[u8]), TraceFault>
    requires { levels ≤ 20 }
    ensures { MatchResult result (λ taken. TakesLine item_line (IsItem levels) text.now taken.0 taken.1.now)
        (RefusesLine item_line IsShortItem (IsItem levels) number text.now) }
{
    let Some((line, rest)) = first_line(text) else {
        return Err(TraceFault::Bad {
            line: number,
            kind: TraceKind::Cut,
        });
    };
    match item_of(line, levels) {
        Ok(said) => Ok((said, rest)),
        Err(kind) => Err(TraceFault::Bad { line: number, kind }),
    }
}
