//! The smallest parts of a line: blanks, names, registers and numbers.

ghost use Rattle.std.specs.Prelude.{◌≡◌, ◌<◌, ◌≤◌, ◌^◌, length, IfSome, pos, neg_ℤ, ◌<ℤ◌, ◌≤ℤ◌, position, bytes_eq};
ghost use Rattle.std.specs.List.{list_all};
ghost use Rattle.rv32_asm.specs.Scanning.{is_blank, is_between, begins_name, goes_on_name, is_name, is_part};
ghost use Rattle.rv32_asm.specs.Scanning.{blank_length, after_blanks, part_length, register_of, digits_after};
ghost use Rattle.rv32_asm.specs.Scanning.{digits_of, natural, number_of};

/// A space or a tab.
pub(crate) fn is_blank(byte: u8) -> bool
    ensures { result ≡ is_blank byte }
{
    byte == b' ' || byte == b'\t'
}

/// A letter or `_`.
fn begins_name(byte: u8) -> bool
    ensures { result ≡ begins_name byte }
{
    matches!(byte, b'a'..=b'z' | b'A'..=b'Z' | b'_')
}

/// A letter, a digit or `_`.
fn goes_on_name(byte: u8) -> bool
    ensures { result ≡ goes_on_name byte }
{
    begins_name(byte) || matches!(byte, b'0'..=b'9')
}

/// Whether all bytes are letters, digits or `_`.
fn all_go_on(text: &[u8]) -> bool
    ensures { result ≡ list_all goes_on_name text.now }
{
    text.iter().all(|byte| goes_on_name(*byte))
}

/// Whether a text is a name: a letter or `_`, and then letters, digits and `_`, at most 64 in all.
pub(crate) fn is_name(text: &[u8]) -> bool
    ensures { result ≡ is_name text.now }
{
    if text.is_empty() {
        return false;
    }
    begins_name(text[0]) && text.len() <= 64 && all_go_on(text)
}

/// A byte of a register, a number or a label.
fn is_part(byte: u8) -> bool
    ensures { result ≡ is_part byte }
{
    goes_on_name(byte) || byte == b'-'
}

/// How many blanks stand in front.
fn blank_length(text: &[u8]) -> usize
    ensures value { result ≡ blank_length text.now }
    ensures within { result ≤ length text.now }
{
    text.iter().take_while(|byte| is_blank(**byte)).count()
}

/// The text behind its blanks.
pub(crate) fn after_blanks(text: &[u8]) -> &[u8]
    ensures { result.now ≡ after_blanks text.now }
{
    &text[blank_length(text)..]
}

/// How many bytes of a register, a number or a label stand in front.
pub(crate) fn part_length(text: &[u8]) -> usize
    ensures value { result ≡ part_length text.now }
    ensures within { result ≤ length text.now }
{
    text.iter().take_while(|byte| is_part(**byte)).count()
}

/// The registers, in the order of their numbers.
const NUMBERED: [&str; 32] = [
    "x0", "x1", "x2", "x3", "x4", "x5", "x6", "x7", "x8", "x9", "x10", "x11", "x12", "x13", "x14",
    "x15", "x16", "x17", "x18", "x19", "x20", "x21", "x22", "x23", "x24", "x25", "x26", "x27",
    "x28", "x29", "x30", "x31",
];

/// The same by their use.
const NAMED: [&str; 32] = [
    "zero", "ra", "sp", "gp", "tp", "t0", "t1", "t2", "s0", "s1", "a0", "a1", "a2", "a3", "a4",
    "a5", "a6", "a7", "s2", "s3", "s4", "s5", "s6", "s7", "s8", "s9", "s10", "s11", "t3", "t4",
    "t5", "t6",
];

/// The first place at which this name stands.
fn place_of(names: &[&str], text: &[u8]) -> Option<usize>
    ensures value { result ≡ position (λ name. bytes_eq name.now text.now) names.now }
    ensures within { IfSome result (λ place. place < length names.now) }
{
    names.iter().position(|name| name.as_bytes() == text)
}

/// The number of a register, below 32.
#[tactic(auto, unfolding(crate::specs::Scanning::numbered, crate::specs::Scanning::named))]
pub(crate) fn register_of(text: &[u8]) -> Option<u8>
    ensures value { result ≡ register_of text.now }
    ensures within { IfSome result (λ register. register < 32) }
{
    if text == "fp".as_bytes() {
        return Some(8);
    }
    let place = match place_of(&NUMBERED, text) {
        Some(place) => place,
        None => place_of(&NAMED, text)?,
    };
    Some(place as u8)
}

/// The number that digits are.
fn digits(radix: u32, text: &[u8]) -> Option<u64>
    requires some { 2 ≤ radix }
    requires radix { radix ≤ 16 }
    requires most { length text.now ≤ 10 }
    ensures value { result ≡ digits_after radix 0 text.now }
    ensures small { IfSome result (λ number. number < 2 ^ 40) }
{
    let mut number = 0u64;
    for byte in text {
        let digit = char::from(*byte).to_digit(radix)?;
        number = number * u64::from(radix) + u64::from(digit);
    }
    Some(number)
}

/// The number that one digit or more are, at most so many.
fn digits_of(radix: u32, most: usize, text: &[u8]) -> Option<i64>
    requires some { 2 ≤ radix }
    requires radix { radix ≤ 16 }
    requires most { most ≤ 10 }
    ensures value { result ≡ natural radix most text.now }
    ensures small { IfSome result (λ number. (number <ℤ pos (2 ^ 40)) × (pos 0 ≤ℤ number)) }
{
    if text.is_empty() || text.len() > most {
        return None;
    }
    Some(digits(radix, text)? as i64)
}

/// The same number below zero.
fn negative(number: i64) -> i64
    requires low { pos 0 ≤ℤ number }
    requires high { number <ℤ pos (2 ^ 40) }
    ensures { result ≡ neg_ℤ number }
{
    -number
}

/// The number that a text is.
pub(crate) fn number_of(text: &[u8]) -> Option<i64>
    ensures { result ≡ number_of text.now }
{
    if !text.is_empty() && text[0] == b'-' {
        return Some(negative(digits_of(10, 10, &text[1..])?));
    }
    match text.strip_prefix("0x".as_bytes()) {
        Some(digits) => digits_of(16, 8, digits),
        None => digits_of(10, 10, text),
    }
}
