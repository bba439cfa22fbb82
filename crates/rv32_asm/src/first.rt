//! The first pass: labels, their places, and how many bytes there are.

ghost use Rattle.std.specs.Prelude.{◌≡◌, ◌≤◌, ◌<◌, ◌+◌, ◌^◌, ℕ, Ok, IfOk, IfSome, length, unsigned_abs, if◌then◌else◌};
ghost use Rattle.std.specs.Prelude.{[]};
ghost use Rattle.rv32_asm.specs.Lines.{lines_of};
ghost use Rattle.rv32_asm.specs.Registers.{IsReady};
ghost use Rattle.rv32_asm.specs.Values.{is_multiple};
ghost use Rattle.rv32_asm.specs.LineViews.{lines_from};
ghost use Rattle.rv32_asm.specs.OperandViews.{statement_view, text_view};
ghost use Rattle.rv32_asm.specs.Passes.{Labels as Listing, statement_of, is_zero_count, padding, size, size_of};
ghost use Rattle.rv32_asm.specs.Passes.{labelled, grown, measured, first_pass};
ghost use Rattle.rv32_asm.specs.PassViews.{labels_of, measure_of, found_view, Gives, GivesProgram};

use crate::fault::{AsmFault, AsmKind};
use crate::form::form_of;
use crate::labels::{Labels, define};
use crate::lines::{is_text, parts_of, split_line, without_comment, word_length};
use crate::operands::{Line, statement_with};
use crate::problem::Problem;
use crate::quoted::unescaped_length;
use crate::values::is_multiple;
use indexmap::IndexMap;
use std::alloc::Global;

/// The most bytes of a program.
const MOST_BYTES: u64 = 16_000_000;

/// The greatest place.
const GREATEST_PLACE: u64 = 4_294_901_760;

/// The most zero bytes of one statement.
const MOST_ZEROS: i64 = 1_048_576;

/// The statement of a line, if it has one, from where its word begins.
pub(crate) fn statement_of(text: &[u8]) -> Result<Option<Line<'_>>, AsmKind>
    ensures value { found_view result ≡ statement_of text.now }
    ensures ready { IfOk result (λ found. IfSome found IsReady) }
{
    if text.is_empty() {
        return Ok(None);
    }
    let count = word_length(text);
    let Some(form) = form_of(&text[..count]) else {
        return Err(AsmKind::Word);
    };
    match statement_with(form, &text[count..]) {
        Some(statement) => Ok(Some(statement)),
        None => Err(AsmKind::Operands),
    }
}

/// How many zero bytes stand before the next multiple.
pub(crate) fn padding(place: u64, multiple: u64) -> u64
    requires { 1 ≤ multiple }
    ensures value { result ≡ padding place multiple }
    ensures below { result < multiple }
{
    (multiple - place % multiple) % multiple
}

/// Whether a statement may have so many zero bytes.
pub(crate) fn is_zero_count(count: i64) -> bool
    ensures { result ≡ is_zero_count count }
{
    0 <= count && count <= MOST_ZEROS
}

/// How many zero bytes there are.
fn zeros(count: i64) -> u64
    ensures value { result ≡ (if is_zero_count count then unsigned_abs count else 0) }
    ensures small { result < 2 ^ 63 }
{
    if is_zero_count(count) {
        count.unsigned_abs()
    } else {
        0
    }
}

/// How many bytes lead to the next multiple.
fn up_to_multiple(place: u64, multiple: i64) -> u64
    ensures value { result ≡ (if is_multiple multiple then padding place (unsigned_abs multiple) else 0) }
    ensures small { result < 2 ^ 63 }
{
    if is_multiple(multiple) {
        padding(place, multiple.unsigned_abs())
    } else {
        0
    }
}

/// How many bytes a statement stands for at a place. One whose number is out of its range has none yet.
fn size(statement: Line<'_>, place: u64) -> u64
    ensures value { result ≡ size (statement_view statement.entry) place }
    ensures small { result < 2 ^ 63 }
{
    match statement {
        Line::Plain(_) | Line::Numbered(..) | Line::Relative(..) | Line::Word(_) => 4,
        Line::Puts(..) => 8,
        Line::Byte(_) => 1,
        Line::Text(text) => unescaped_length(text) as u64,
        Line::Zeros(count) => zeros(count),
        Line::Multiple(multiple) => up_to_multiple(place, multiple),
    }
}

/// The same of a line's statement, if it has one.
fn size_of(statement: Option<Line<'_>>, place: u64) -> u64
    ensures value { (found : _) → found_view (Ok statement.entry) ≡ Ok found → result ≡ size_of found place }
    ensures small { result < 2 ^ 63 }
{
    match statement {
        Some(statement) => size(statement, place),
        None => 0,
    }
}

/// So many bytes, if there may be so many.
fn grown(at: u64, count: u64) -> Result<u64, Problem>
    requires place { at < 2 ^ 32 }
    requires small { count < 2 ^ 63 + 2 ^ 32 }
    ensures value { (labels : Listing) → Gives (measure_of labels) result (grown at count labels) }
    ensures within { IfOk result (λ count. at + count ≤ 4_294_901_760) }
{
    if count <= MOST_BYTES && at + count <= GREATEST_PLACE {
        Ok(count)
    } else {
        Err(Problem::Kind(AsmKind::TooLong))
    }
}

/// The first pass over a line that stands behind so many bytes: how many there are after it.
fn measured<'t>(
    at: u64,
    line: &'t [u8],
    count: u64,
    labels: &mut Labels<'t>,
) -> Result<u64, Problem>
    requires { at + count ≤ 4_294_901_760 }
    ensures value { Gives (measure_of (labels_of labels.new)) result
        (measured at line.now (measure_of (labels_of labels.old) count)) }
    ensures within { IfOk result (λ more. at + more ≤ 4_294_901_760) }
{
    if !is_text(line) {
        return Err(Problem::Kind(AsmKind::Byte));
    }
    let (label, text) = parts_of(without_comment(line));
    let place = at + count;
    define(label, place as u32, labels)?;
    let statement = statement_of(text)?;
    grown(at, count + size_of(statement, place))
}

/// The first pass over a text: the labels and their places, and how many bytes there are.
pub(crate) fn first_pass(alloc: Global, text: &[u8], at: u64) -> Result<(Labels<'_>, u64), AsmFault>
    requires place { at ≤ 4_294_901_760 }
    requires short { length text.now ≤ 4_194_304 }
    ensures value { GivesProgram (λ found. measure_of (labels_of found.0) found.1) result
        (first_pass at 1 (lines_of text.now) (measure_of [] 0)) }
    ensures within { IfOk result (λ found. at + found.1 ≤ 4_294_901_760) }
{
    let mut labels = IndexMap::new(alloc);
    let mut count = 0;
    let mut line = 1;
    let mut rest = Some(text);
    while let Some(text) = rest {
        let (bytes, next) = split_line(text);
        match measured(at, bytes, count, &mut labels) {
            Ok(more) => count = more,
            Err(problem) => return Err(problem.in_line(line)),
        }
        line += 1;
        rest = next;
    }
    Ok((labels, count))
}
