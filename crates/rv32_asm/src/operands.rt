//! The operands of a statement.

ghost use Rattle.std.specs.Prelude.{◌≡◌, ◌<◌, Some, IfSome, option_map};
ghost use Rattle.rv32_asm.specs.Scanning.{register_of, number_of};
ghost use Rattle.rv32_asm.specs.Operands.{behind, is_end, part_of, behind_part, target_of, label_of, register_at};
ghost use Rattle.rv32_asm.specs.Operands.{number_at, register_and_comma, lone, access, register_number};
ghost use Rattle.rv32_asm.specs.Operands.{register_target, register_label, register_access, registers_number};
ghost use Rattle.rv32_asm.specs.Operands.{registers_target, two_registers, three_registers, quoted, whole};
ghost use Rattle.rv32_asm.specs.Operands.{statement_with};
ghost use Rattle.rv32_table.specs.Fits.{Fits};
ghost use Rattle.rv32_asm.specs.Registers.{IsReady};
ghost use Rattle.rv32_asm.specs.OperandViews.{target_view, statement_view, read_view, text_view, lone_view};
ghost use Rattle.rv32_asm.specs.OperandViews.{with_target_view, with_targets_view};

use crate::form::Form;
use crate::quoted::quoted_length;
use crate::scanning::{after_blanks, is_name, number_of, part_length, register_of};
use rv32_table::{ImmOp, Instr};

/// A number, or the name of a label.
#[derive(Clone, Copy)]
pub(crate) enum Operand<'t> {
    Number(i64),
    Label(&'t [u8]),
}

/// A statement with its operands. The numbers and offsets of its instruction are still 0.
#[derive(Clone, Copy)]
pub(crate) enum Line<'t> {
    /// An instruction that has no number.
    Plain(Instr),
    /// An instruction whose immediate is this number.
    Numbered(Instr, i64),
    /// An instruction whose offset leads to this target.
    Relative(Instr, Operand<'t>),
    /// A number or a place is put into a register.
    Puts(u8, Operand<'t>),
    /// Four bytes.
    Word(Operand<'t>),
    /// One byte.
    Byte(i64),
    /// The bytes of a quoted text, with its escapes as they stand.
    Text(&'t [u8]),
    /// So many zero bytes.
    Zeros(i64),
    /// Zero bytes up to the next multiple.
    Multiple(i64),
}

/// What follows this byte, which stands behind blanks.
fn behind(byte: u8, text: &[u8]) -> Option<&[u8]>
    requires { 0 < byte }
    ensures { text_view result ≡ behind byte text.now }
{
    let text = after_blanks(text);
    if text.is_empty() || text[0] != byte {
        return None;
    }
    Some(&text[1..])
}

/// Whether nothing but blanks follows.
fn is_end(text: &[u8]) -> bool
    ensures { result ≡ is_end text.now }
{
    after_blanks(text).is_empty()
}

/// The register, number or label that stands behind blanks.
fn part_of(text: &[u8]) -> &[u8]
    ensures { result.now ≡ part_of text.now }
{
    let text = after_blanks(text);
    &text[..part_length(text)]
}

/// What follows it.
fn behind_part(text: &[u8]) -> &[u8]
    ensures { result.now ≡ behind_part text.now }
{
    let text = after_blanks(text);
    &text[part_length(text)..]
}

/// A register, and what follows it.
fn register_at(text: &[u8]) -> Option<(u8, &[u8])>
    ensures value { read_view result ≡ register_at text.now }
    ensures registers { IfSome result (λ f. f.0 < 32) }
{
    Some((register_of(part_of(text))?, behind_part(text)))
}

/// A number, and what follows it.
fn number_at(text: &[u8]) -> Option<(i64, &[u8])>
    ensures { read_view result ≡ number_at text.now }
{
    Some((number_of(part_of(text))?, behind_part(text)))
}

/// A register, and what follows the comma behind it.
fn register_and_comma(text: &[u8]) -> Option<(u8, &[u8])>
    ensures value { read_view result ≡ register_and_comma text.now }
    ensures registers { IfSome result (λ f. f.0 < 32) }
{
    let (register, rest) = register_at(text)?;
    Some((register, behind(b',', rest)?))
}

/// The last operand as it stands, if nothing but blanks follows.
fn last_part(text: &[u8]) -> Option<&[u8]>
    ensures { text_view result ≡ lone (λ part. Some part) text.now }
{
    if is_end(behind_part(text)) {
        Some(part_of(text))
    } else {
        None
    }
}

/// A register as the last operand.
fn last_register(text: &[u8]) -> Option<u8>
    ensures value { result ≡ lone register_of text.now }
    ensures registers { IfSome result (λ register. register < 32) }
{
    register_of(last_part(text)?)
}

/// A number as the last operand.
fn last_number(text: &[u8]) -> Option<i64>
    ensures { result ≡ lone number_of text.now }
{
    number_of(last_part(text)?)
}

/// A label or a number.
fn target_of(part: &[u8]) -> Option<Operand<'_>>
    ensures { lone_view result ≡ target_of part.now }
{
    if is_name(part) {
        return Some(Operand::Label(part));
    }
    Some(Operand::Number(number_of(part)?))
}

/// A label.
fn label_of(part: &[u8]) -> Option<Operand<'_>>
    ensures { lone_view result ≡ label_of part.now }
{
    if is_name(part) {
        Some(Operand::Label(part))
    } else {
        None
    }
}

/// A target as the last operand.
fn last_target(text: &[u8]) -> Option<Operand<'_>>
    ensures { lone_view result ≡ lone target_of text.now }
{
    target_of(last_part(text)?)
}

/// A label as the last operand.
fn last_label(text: &[u8]) -> Option<Operand<'_>>
    ensures { lone_view result ≡ lone label_of text.now }
{
    label_of(last_part(text)?)
}

/// A number in front of a register in round brackets, as the last operand.
fn access(text: &[u8]) -> Option<(i64, u8)>
    ensures value { result ≡ access text.now }
    ensures registers { IfSome result (λ f. f.1 < 32) }
{
    let (number, rest) = number_at(text)?;
    let (register, rest) = register_at(behind(b'(', rest)?)?;
    if is_end(behind(b')', rest)?) {
        Some((number, register))
    } else {
        None
    }
}

fn register_number(text: &[u8]) -> Option<(u8, i64)>
    ensures value { result ≡ register_number text.now }
    ensures registers { IfSome result (λ f. f.0 < 32) }
{
    let (register, rest) = register_and_comma(text)?;
    Some((register, last_number(rest)?))
}

fn register_target(text: &[u8]) -> Option<(u8, Operand<'_>)>
    ensures value { with_target_view result ≡ register_target text.now }
    ensures registers { IfSome result (λ f. f.0 < 32) }
{
    let (register, rest) = register_and_comma(text)?;
    Some((register, last_target(rest)?))
}

fn register_label(text: &[u8]) -> Option<(u8, Operand<'_>)>
    ensures value { with_target_view result ≡ register_label text.now }
    ensures registers { IfSome result (λ f. f.0 < 32) }
{
    let (register, rest) = register_and_comma(text)?;
    Some((register, last_label(rest)?))
}

fn register_access(text: &[u8]) -> Option<(u8, i64, u8)>
    ensures value { result ≡ register_access text.now }
    ensures registers { IfSome result (λ f. (f.0 < 32) × (f.2 < 32)) }
{
    let (register, rest) = register_and_comma(text)?;
    let (number, base) = access(rest)?;
    Some((register, number, base))
}

fn registers_number(text: &[u8]) -> Option<(u8, u8, i64)>
    ensures value { result ≡ registers_number text.now }
    ensures registers { IfSome result (λ f. (f.0 < 32) × (f.1 < 32)) }
{
    let (first, rest) = register_and_comma(text)?;
    let (second, number) = register_number(rest)?;
    Some((first, second, number))
}

fn registers_target(text: &[u8]) -> Option<(u8, u8, Operand<'_>)>
    ensures value { with_targets_view result ≡ registers_target text.now }
    ensures registers { IfSome result (λ f. (f.0 < 32) × (f.1 < 32)) }
{
    let (first, rest) = register_and_comma(text)?;
    let (second, target) = register_target(rest)?;
    Some((first, second, target))
}

fn two_registers(text: &[u8]) -> Option<(u8, u8)>
    ensures value { result ≡ two_registers text.now }
    ensures registers { IfSome result (λ f. (f.0 < 32) × (f.1 < 32)) }
{
    let (first, rest) = register_and_comma(text)?;
    Some((first, last_register(rest)?))
}

fn three_registers(text: &[u8]) -> Option<(u8, u8, u8)>
    ensures value { result ≡ three_registers text.now }
    ensures registers { IfSome result (λ f. (f.0 < 32) × (f.1 < 32) × (f.2 < 32)) }
{
    let (first, rest) = register_and_comma(text)?;
    let (second, third) = two_registers(rest)?;
    Some((first, second, third))
}

/// A text in double quotes as the last operand: what stands between the quotes.
fn quoted(text: &[u8]) -> Option<&[u8]>
    ensures { text_view result ≡ quoted text.now }
{
    let inside = behind(b'"', text)?;
    let count = quoted_length(inside)?;
    if is_end(&inside[count + 1..]) {
        Some(&inside[..count])
    } else {
        None
    }
}

/// An instruction whose statement has no operands.
fn whole(instr: Instr, text: &[u8]) -> Option<Line<'_>>
    requires { Fits instr }
    ensures value { option_map statement_view result ≡ whole instr text.now }
    ensures ready { IfSome result IsReady }
{
    if is_end(text) {
        Some(Line::Plain(instr))
    } else {
        None
    }
}

/// The statement of a form with these operands; none where their number or form is another.
pub(crate) fn statement_with(form: Form, text: &[u8]) -> Option<Line<'_>>
    ensures value { option_map statement_view result ≡ statement_with form text.now }
    ensures ready { IfSome result IsReady }
{
    match form {
        Form::Lui => {
            let (rd, number) = register_number(text)?;
            Some(Line::Numbered(Instr::Lui { rd, imm: 0 }, number))
        }
        Form::Auipc => {
            let (rd, number) = register_number(text)?;
            Some(Line::Numbered(Instr::Auipc { rd, imm: 0 }, number))
        }
        Form::Jal => {
            let (rd, target) = register_target(text)?;
            Some(Line::Relative(Instr::Jal { rd, offset: 0 }, target))
        }
        Form::Jump => {
            let target = last_target(text)?;
            Some(Line::Relative(Instr::Jal { rd: 0, offset: 0 }, target))
        }
        Form::Jalr => {
            let (rd, number, rs1) = register_access(text)?;
            Some(Line::Numbered(Instr::Jalr { rd, rs1, imm: 0 }, number))
        }
        Form::Branch(op) => {
            let (rs1, rs2, target) = registers_target(text)?;
            Some(Line::Relative(
                Instr::Branch {
                    op,
                    rs1,
                    rs2,
                    offset: 0,
                },
                target,
            ))
        }
        Form::Load(op) => {
            let (rd, number, rs1) = register_access(text)?;
            Some(Line::Numbered(
                Instr::Load {
                    op,
                    rd,
                    rs1,
                    imm: 0,
                },
                number,
            ))
        }
        Form::Store(op) => {
            let (rs2, number, rs1) = register_access(text)?;
            Some(Line::Numbered(
                Instr::Store {
                    op,
                    rs1,
                    rs2,
                    imm: 0,
                },
                number,
            ))
        }
        Form::OpImm(op) => {
            let (rd, rs1, number) = registers_number(text)?;
            Some(Line::Numbered(
                Instr::OpImm {
                    op,
                    rd,
                    rs1,
                    imm: 0,
                },
                number,
            ))
        }
        Form::Op(op) => {
            let (rd, rs1, rs2) = three_registers(text)?;
            Some(Line::Plain(Instr::Op { op, rd, rs1, rs2 }))
        }
        Form::Ecall => whole(Instr::Ecall, text),
        Form::Ebreak => whole(Instr::Ebreak, text),
        Form::Fence => whole(Instr::Fence { rest: 0x0ff0_0000 }, text),
        Form::FenceI => whole(Instr::FenceI { rest: 0 }, text),
        Form::Nop => whole(
            Instr::OpImm {
                op: ImmOp::Addi,
                rd: 0,
                rs1: 0,
                imm: 0,
            },
            text,
        ),
        Form::Ret => whole(
            Instr::Jalr {
                rd: 0,
                rs1: 1,
                imm: 0,
            },
            text,
        ),
        Form::Li => {
            let (rd, number) = register_number(text)?;
            Some(Line::Puts(rd, Operand::Number(number)))
        }
        Form::La => {
            let (rd, label) = register_label(text)?;
            Some(Line::Puts(rd, label))
        }
        Form::Word => Some(Line::Word(last_target(text)?)),
        Form::Byte => Some(Line::Byte(last_number(text)?)),
        Form::Ascii => Some(Line::Text(quoted(text)?)),
        Form::Zero => Some(Line::Zeros(last_number(text)?)),
        Form::Balign => Some(Line::Multiple(last_number(text)?)),
    }
}
