//! The lines of a program's statements.
ghost use Rattle.std.specs.Prelude.{◌≡◌, ◌++◌, ◌<◌, ◌≤◌, ◌+◌, ◌/◌, ◌%◌, ◌^◌, ◌∷◌, [], OnOk, IfOk, length, nat_lt};
ghost use Rattle.std.specs.Prelude.{if◌then◌else◌};
ghost use Rattle.elf_loader.specs.Elf.{header_at, header_count};
ghost use Rattle.elf_loader.specs.Faults.{IsReadable};
ghost use Rattle.ascend_top.specs.Disasm.{column, hex_digit, lines_of, listing_of, segment_lines, word_line};

use asc_base::NoMemory;
use rv32_asm::disassemble;
use std::alloc::Global;

/// The greatest number of program headers.
const HEADERS: u32 = 256;

/// A hexadecimal digit in lower case.
fn hex_digit(digit: u64) -> u8
    requires { digit < 16 }
    ensures { result ≡ hex_digit digit }
{
    let digit = digit as u8;
    if digit < 10 {
        b'0' + digit
    } else {
        b'a' - 10 + digit
    }
}

/// The hexadecimal digit of a number above so many bits.
fn digit_above(number: u64, bits: u32) -> u8
    requires { bits < 64 }
    ensures { result ≡ hex_digit (number / 2 ^ bits % 16) }
{
    hex_digit((number >> bits) % 16)
}

/// Appends bytes.
fn push(bytes: &[u8], into: &mut Vec<u8>) -> Result<(), NoMemory>
    ensures { OnOk result (into.new.items ≡ into.old.items ++ bytes.now) }
{
    into.extend_from_slice(bytes).map_err(|_| NoMemory)
}

/// Appends eight hexadecimal digits of a number, the highest first, and a space.
fn push_column(number: u64, into: &mut Vec<u8>) -> Result<(), NoMemory>
    ensures { OnOk result (into.new.items ≡ into.old.items ++ column number) }
{
    let digits = [
        digit_above(number, 28),
        digit_above(number, 24),
        digit_above(number, 20),
        digit_above(number, 16),
        digit_above(number, 12),
        digit_above(number, 8),
        digit_above(number, 4),
        hex_digit(number % 16),
        b' ',
    ];
    push(&digits, into)
}

/// Appends the line of a word at an address.
fn push_line(address: u64, word: u32, into: &mut Vec<u8>) -> Result<(), NoMemory>
    ensures { OnOk result (into.new.items ≡ into.old.items ++ word_line address word) }
{
    push_column(address, into)?;
    push_column(u64::from(word), into)?;
    disassemble(word, into)?;
    push(b"\n", into)
}

/// Appends the lines of bytes from an address on, one for each whole word.
fn push_lines(address: u64, bytes: &[u8], into: &mut Vec<u8>) -> Result<(), NoMemory>
    requires { address < 2 ^ 32 }
    ensures { OnOk result (into.new.items ≡ into.old.items ++ lines_of address bytes.now) }
{
    let mut address = address;
    let mut rest = bytes;
    while rest.len() >= 4 {
        let word = u32::from_le_bytes([rest[0], rest[1], rest[2], rest[3]]);
        push_line(address, word, into)?;
        address += 4;
        rest = &rest[4..];
    }
    Ok(())
}

/// Appends the lines of the segment of this index, if it is one.
fn push_segment(file: &[u8], index: u32, into: &mut Vec<u8>) -> Result<(), NoMemory>
    requires { IsReadable file.now }
    ensures { OnOk result (into.new.items ≡ into.old.items ++
        (if nat_lt index (header_count file.now) then segment_lines file.now (header_at file.now index) else [])) }
{
    match elf_loader::part(file, index) {
        Some((address, flags, bytes)) if flags % 2 == 1 => {
            push_lines(u64::from(address), bytes, into)
        }
        _ => Ok(()),
    }
}

/// The lines of a file, in the order of its program headers.
pub(crate) fn listing_of(alloc: Global, file: &[u8]) -> Result<Vec<u8>, NoMemory>
    requires { IsReadable file.now }
    ensures { IfOk result (λ text. text.items ≡ listing_of file.now) }
{
    let mut text = Vec::new(alloc);
    for index in 0..HEADERS {
        push_segment(file, index, &mut text)?;
    }
    Ok(text)
}
