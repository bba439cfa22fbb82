//! From words to statements.

ghost use Rattle.std.specs.Prelude.{◌≡◌, ◌++◌, ◌^◌, ◌<◌, Some, OnOk, OnErr};
ghost use Rattle.std.specs.Fmt.{DisplaysOnOk};
ghost use Rattle.rv32_table.specs.Fits.{Fits};
ghost use Rattle.rv32_asm.specs.Disassembly.{text_of, instruction_text, upper_text, access_text, number_operand_text};
ghost use Rattle.rv32_asm.specs.Disassembly.{registers_text, fence_text, fence_i_text};

use crate::words::{branch_word, immediate_word, load_word, register_word, store_word};
use asc_base::NoMemory;
use rv32_table::{Instr, decode};
use std::fmt;

/// A word, printed as its statement.
#[derive(Clone, Copy)]
struct Statement(u32);

impl fmt::Display for Statement {
    ghost output = { λ statement. Some (text_of statement.0) };

    fn fmt<W: fmt::Write>(&self, f: &mut fmt::Formatter<W>) -> fmt::Result {
        let word = self.0;
        match decode(word) {
            Some(instr) => print(f, word, instr),
            None => write!(f, ".word {word}"),
        }
    }
}

/// The statement of a word that is this instruction.
fn print<W: fmt::Write>(f: &mut fmt::Formatter<W>, word: u32, instr: Instr) -> fmt::Result
    ensures { DisplaysOnOk W.write_str_gives f.old result (Some (instruction_text word instr)) f.new }
{
    match instr {
        Instr::Lui { rd, imm } => upper(f, "lui", rd, imm),
        Instr::Auipc { rd, imm } => upper(f, "auipc", rd, imm),
        Instr::Jal { rd, offset } => write!(f, "jal x{rd}, {offset}"),
        Instr::Jalr { rd, rs1, imm } => access(f, "jalr", rd, imm, rs1),
        Instr::Branch {
            op,
            rs1,
            rs2,
            offset,
        } => number_operand(f, branch_word(op), rs1, rs2, offset),
        Instr::Load { op, rd, rs1, imm } => access(f, load_word(op), rd, imm, rs1),
        Instr::Store { op, rs1, rs2, imm } => access(f, store_word(op), rs2, imm, rs1),
        Instr::OpImm { op, rd, rs1, imm } => number_operand(f, immediate_word(op), rd, rs1, imm),
        Instr::Op { op, rd, rs1, rs2 } => registers(f, register_word(op), rd, rs1, rs2),
        Instr::Fence { rest } => fence(f, word, rest),
        Instr::FenceI { rest } => fence_i(f, word, rest),
        Instr::Ecall => write!(f, "ecall"),
        Instr::Ebreak => write!(f, "ebreak"),
    }
}

/// A register and the high twenty bits of an immediate.
fn upper<W: fmt::Write>(f: &mut fmt::Formatter<W>, name: &str, rd: u8, imm: u32) -> fmt::Result
    ensures { DisplaysOnOk W.write_str_gives f.old result (Some (upper_text name.now rd imm)) f.new }
{
    let high = imm >> 12;
    write!(f, "{name} x{rd}, {high}")
}

/// A register, and a number in front of a register in round brackets.
fn access<W: fmt::Write>(
    f: &mut fmt::Formatter<W>,
    name: &str,
    register: u8,
    imm: i32,
    rs1: u8,
) -> fmt::Result
    ensures { DisplaysOnOk W.write_str_gives f.old result (Some (access_text name.now register imm rs1)) f.new }
{
    write!(f, "{name} x{register}, {imm}(x{rs1})")
}

/// Two registers and a number.
fn number_operand<W: fmt::Write>(
    f: &mut fmt::Formatter<W>,
    name: &str,
    first: u8,
    second: u8,
    number: i32,
) -> fmt::Result
    ensures { DisplaysOnOk W.write_str_gives f.old result
        (Some (number_operand_text name.now first second number)) f.new }
{
    write!(f, "{name} x{first}, x{second}, {number}")
}

/// Three registers.
fn registers<W: fmt::Write>(
    f: &mut fmt::Formatter<W>,
    name: &str,
    rd: u8,
    rs1: u8,
    rs2: u8,
) -> fmt::Result
    ensures { DisplaysOnOk W.write_str_gives f.old result (Some (registers_text name.now rd rs1 rs2)) f.new }
{
    write!(f, "{name} x{rd}, x{rs1}, x{rs2}")
}

/// The fence of all accesses before it and after it, or a number.
fn fence<W: fmt::Write>(f: &mut fmt::Formatter<W>, word: u32, rest: u32) -> fmt::Result
    ensures { DisplaysOnOk W.write_str_gives f.old result (Some (fence_text word rest)) f.new }
{
    if rest == 0x0ff0_0000 {
        write!(f, "fence")
    } else {
        write!(f, ".word {word}")
    }
}

/// The fence of fetches without operands, or a number.
fn fence_i<W: fmt::Write>(f: &mut fmt::Formatter<W>, word: u32, rest: u32) -> fmt::Result
    ensures { DisplaysOnOk W.write_str_gives f.old result (Some (fence_i_text word rest)) f.new }
{
    if rest == 0 {
        write!(f, "fence.i")
    } else {
        write!(f, ".word {word}")
    }
}

/// Appends the statement that names the word's own row of the instruction table, never `nop`, `ret`, `j`, `li` or
/// `la`: lower case, registers as `x0` to `x31`, `, ` between operands, offsets and immediates as decimal numbers, no
/// line feed. A word that is no instruction, and a fence with other fields than `fence` and `fence.i` stand for, is
/// `.word ` and its number. After `NoMemory` `into` is as before.
pub fn disassemble(word: u32, into: &mut Vec<u8>) -> Result<(), NoMemory>
    ensures ok { OnOk result (into.new.items ≡ into.old.items ++ text_of word) }
    ensures err { OnErr result (into.new.items ≡ into.old.items) }
{
    let text = Statement(word)
        .to_string(*into.allocator())
        .map_err(|_| NoMemory)?;
    into.extend_from_slice(text.as_bytes())
        .map_err(|_| NoMemory)
}
