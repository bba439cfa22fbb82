//! The second pass: the bytes of each statement.

ghost use Rattle.std.specs.Prelude.{◌≡◌, ◌≤◌, ◌<◌, ◌+◌, ◌^◌, ◌++◌, [], Ok, OnOk, IfOk, IfSome, length, replicate};
ghost use Rattle.std.specs.Int.{to_le_bytes, w32};
ghost use Rattle.rv32_table.specs.Fits.{Fits};
ghost use Rattle.rv32_table.specs.Meaning.{low_word};
ghost use Rattle.rv32_asm.specs.Lines.{lines_of};
ghost use Rattle.rv32_asm.specs.Operands.{Relative, Puts, Bytes4, Bytes1, Zeros, Multiple};
ghost use Rattle.rv32_asm.specs.OperandViews.{target_view, statement_view};
ghost use Rattle.rv32_asm.specs.Registers.{HasRegisters, IsReady};
ghost use Rattle.rv32_asm.specs.Passes.{value_of, offset_to, instruction_bytes, word_of, bytes_of, valued, first_pass};
ghost use Rattle.rv32_asm.specs.Passes.{second_pass};
ghost use Rattle.rv32_asm.specs.PassViews.{labels_of, measure_of, behind_bytes, Gives, GivesProgram};

use crate::fault::{AsmFault, AsmKind};
use crate::first::{is_zero_count, padding, statement_of};
use crate::labels::{Labels, place_of};
use crate::lines::{parts_of, split_line, without_comment};
use crate::operands::{Line, Operand};
use crate::problem::Problem;
use crate::quoted::{push, push_unescaped};
use crate::values::{is_multiple, lower_of, numbered, upper_of};
use asc_base::NoMemory;
use rv32_table::{Instr, encode};
use std::alloc::Global;

/// The number that a target is: a number itself, or the place of a label.
fn value_of(target: Operand<'_>, labels: &Labels<'_>) -> Result<i64, AsmKind>
    ensures { result ≡ value_of (target_view target.entry) (labels_of labels.now) }
{
    match target {
        Operand::Number(number) => Ok(number),
        Operand::Label(name) => match place_of(name, labels) {
            Some(place) => Ok(i64::from(place)),
            None => Err(AsmKind::Unknown),
        },
    }
}

/// The offset that leads from a place to a target: a number itself.
fn offset_to(target: Operand<'_>, place: u64, labels: &Labels<'_>) -> Result<i64, AsmKind>
    requires { place ≤ 4_294_901_760 }
    ensures { result ≡ offset_to (target_view target.entry) place (labels_of labels.now) }
{
    match target {
        Operand::Number(number) => Ok(number),
        Operand::Label(name) => match place_of(name, labels) {
            Some(to) => Ok(i64::from(to) - place as i64),
            None => Err(AsmKind::Unknown),
        },
    }
}

/// The word of a number in either reading, at a place that is a multiple of four.
fn word_of(place: u64, value: i64) -> Result<u32, AsmKind>
    ensures { result ≡ word_of place value }
{
    if place % 4 != 0 || value < -2_147_483_648 || value > 4_294_967_295 {
        return Err(AsmKind::Range);
    }
    Ok(low_word(value))
}

/// The low word of a number: the number modulo 2^32.
fn low_word(number: i64) -> u32
    ensures { result ≡ low_word number }
{
    (number.cast_unsigned() % (1 << 32)) as u32
}

/// Appends bytes.
pub(crate) fn push_all(bytes: &[u8], into: &mut Vec<u8>) -> Result<(), NoMemory>
    ensures { OnOk result (into.new.items ≡ into.old.items ++ bytes.now) }
{
    into.extend_from_slice(bytes).map_err(|_| NoMemory)
}

/// Appends a word, the lowest byte first.
fn push_word(word: u32, into: &mut Vec<u8>) -> Result<(), NoMemory>
    ensures { OnOk result (into.new.items ≡ into.old.items ++ to_le_bytes w32 word) }
{
    push_all(&word.to_le_bytes(), into)
}

/// Appends so many zero bytes.
fn push_zeros(count: u64, into: &mut Vec<u8>) -> Result<(), NoMemory>
    ensures { OnOk result (into.new.items ≡ into.old.items ++ replicate count 0) }
{
    for _ in 0..count {
        push_all(&[0], into)?;
    }
    Ok(())
}

/// Appends the bytes of an instruction, at a place that is a multiple of four.
fn push_instr(place: u64, instr: Option<Instr>, into: &mut Vec<u8>) -> Result<(), Problem>
    requires { IfSome instr Fits }
    ensures { Gives (λ _. into.new.items) result (behind_bytes into.old.items (instruction_bytes place instr)) }
{
    let Some(instr) = instr else {
        return Err(Problem::Kind(AsmKind::Range));
    };
    if place % 4 != 0 {
        return Err(Problem::Kind(AsmKind::Range));
    }
    push_word(encode(&instr), into)?;
    Ok(())
}

/// Appends the bytes of an instruction whose offset leads to a target.
fn push_relative(
    place: u64,
    instr: Instr,
    target: Operand<'_>,
    labels: &Labels<'_>,
    into: &mut Vec<u8>,
) -> Result<(), Problem>
    requires place { place ≤ 4_294_901_760 }
    requires registers { HasRegisters instr }
    ensures { Gives (λ _. into.new.items) result
        (behind_bytes into.old.items
        (bytes_of (Relative instr (target_view target.entry)) place (labels_of labels.now))) }
{
    let offset = offset_to(target, place, labels)?;
    push_instr(place, numbered(instr, offset), into)
}

/// Appends the bytes of the two instructions that put a target into a register.
fn push_halves(
    place: u64,
    rd: u8,
    target: Operand<'_>,
    labels: &Labels<'_>,
    into: &mut Vec<u8>,
) -> Result<(), Problem>
    requires { rd < 32 }
    ensures { Gives (λ _. into.new.items) result
        (behind_bytes into.old.items (bytes_of (Puts rd (target_view target.entry)) place (labels_of labels.now))) }
{
    let value = value_of(target, labels)?;
    let word = word_of(place, value)?;
    push_word(encode(&upper_of(rd, word)), into)?;
    push_word(encode(&lower_of(rd, word)), into)?;
    Ok(())
}

/// Appends the four bytes of a target.
fn push_four(
    place: u64,
    target: Operand<'_>,
    labels: &Labels<'_>,
    into: &mut Vec<u8>,
) -> Result<(), Problem>
    ensures { Gives (λ _. into.new.items) result
        (behind_bytes into.old.items (bytes_of (Bytes4 (target_view target.entry)) place (labels_of labels.now))) }
{
    let value = value_of(target, labels)?;
    let word = word_of(place, value)?;
    push_word(word, into)?;
    Ok(())
}

/// Appends the byte of a number in either reading.
fn push_byte(number: i64, into: &mut Vec<u8>) -> Result<(), Problem>
    ensures { Gives (λ _. into.new.items) result (behind_bytes into.old.items (bytes_of (Bytes1 number) 0 [])) }
{
    if number < -128 || number > 255 {
        return Err(Problem::Kind(AsmKind::Range));
    }
    push((low_word(number) % 256) as u8, into)?;
    Ok(())
}

/// Appends so many zero bytes, if a statement may have so many.
fn push_count(count: i64, into: &mut Vec<u8>) -> Result<(), Problem>
    ensures { Gives (λ _. into.new.items) result (behind_bytes into.old.items (bytes_of (Zeros count) 0 [])) }
{
    if !is_zero_count(count) {
        return Err(Problem::Kind(AsmKind::Range));
    }
    push_zeros(count.unsigned_abs(), into)?;
    Ok(())
}

/// Appends zero bytes up to the next multiple.
fn push_padding(place: u64, multiple: i64, into: &mut Vec<u8>) -> Result<(), Problem>
    ensures { Gives (λ _. into.new.items) result (behind_bytes into.old.items (bytes_of (Multiple multiple) place [])) }
{
    if !is_multiple(multiple) {
        return Err(Problem::Kind(AsmKind::Range));
    }
    push_zeros(padding(place, multiple.unsigned_abs()), into)?;
    Ok(())
}

/// Appends what a statement at a place stands for.
fn push_statement(
    place: u64,
    statement: Line<'_>,
    labels: &Labels<'_>,
    into: &mut Vec<u8>,
) -> Result<(), Problem>
    requires place { place ≤ 4_294_901_760 }
    requires ready { IsReady statement }
    ensures { Gives (λ _. into.new.items) result
        (behind_bytes into.old.items (bytes_of (statement_view statement.entry) place (labels_of labels.now))) }
{
    match statement {
        Line::Plain(instr) => push_instr(place, Some(instr), into),
        Line::Numbered(instr, number) => push_instr(place, numbered(instr, number), into),
        Line::Relative(instr, target) => push_relative(place, instr, target, labels, into),
        Line::Puts(rd, target) => push_halves(place, rd, target, labels, into),
        Line::Word(target) => push_four(place, target, labels, into),
        Line::Byte(number) => push_byte(number, into),
        Line::Text(text) => {
            push_unescaped(text, into)?;
            Ok(())
        }
        Line::Zeros(count) => push_count(count, into),
        Line::Multiple(multiple) => push_padding(place, multiple, into),
    }
}

/// The second pass over a line at a place.
fn push_line(
    place: u64,
    line: &[u8],
    labels: &Labels<'_>,
    into: &mut Vec<u8>,
) -> Result<(), Problem>
    requires { place ≤ 4_294_901_760 }
    ensures { Gives (λ _. into.new.items) result
        (behind_bytes into.old.items (valued place line.now (labels_of labels.now))) }
{
    let (_, code) = parts_of(without_comment(line));
    match statement_of(code)? {
        Some(statement) => push_statement(place, statement, labels, into),
        None => Ok(()),
    }
}

/// The second pass over a text, behind a first one that found these labels and so many bytes: the bytes of all
/// statements.
pub(crate) fn second_pass(
    alloc: Global,
    text: &[u8],
    at: u64,
    labels: &Labels<'_>,
    count: u64,
) -> Result<Vec<u8>, AsmFault>
    requires place { at ≤ 4_294_901_760 }
    requires short { length text.now ≤ 4_194_304 }
    requires measured { first_pass at 1 (lines_of text.now) (measure_of [] 0)
        ≡ Ok (measure_of (labels_of labels.now) count) }
    ensures value { GivesProgram (λ bytes. bytes.items) result
        (second_pass at 1 (lines_of text.now) (labels_of labels.now) []) }
    ensures sized { IfOk result (λ bytes. length bytes.items ≡ count) }
{
    let mut into = Vec::new(alloc);
    let mut line = 1;
    let mut rest = Some(text);
    while let Some(text) = rest {
        let (bytes, next) = split_line(text);
        let place = at + into.len() as u64;
        match push_line(place, bytes, labels, &mut into) {
            Ok(()) => {}
            Err(problem) => return Err(problem.in_line(line)),
        }
        line += 1;
        rest = next;
    }
    Ok(into)
}
