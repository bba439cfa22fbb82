//! Quoted texts and their escapes.

ghost use Rattle.std.specs.Prelude.{◌≡◌, ◌++◌, [], ◌∷◌, ◌<◌, ◌≤◌, false, length, IfSome, OnOk};
ghost use Rattle.rv32_asm.specs.Operands.{is_escape, quoted_length, escaped, unescaped};

use asc_base::NoMemory;

/// Whether a letter stands behind a backslash.
fn is_escape(letter: u8) -> bool
    ensures { result ≡ is_escape letter }
{
    matches!(letter, b'n' | b't' | b'0' | b'\\' | b'"')
}

/// The byte that a letter behind a backslash stands for.
fn escaped(letter: u8) -> u8
    ensures { result ≡ escaped letter }
{
    match letter {
        b'n' => b'\n',
        b't' => b'\t',
        b'0' => 0,
        _ => letter,
    }
}

/// How many bytes stand before the quote that closes a text, where it is closed and each escape is one.
pub(crate) fn quoted_length(text: &[u8]) -> Option<usize>
    ensures value { result ≡ quoted_length false text.now }
    ensures within { IfSome result (λ count. count < length text.now) }
{
    let mut is_escaped = false;
    for (place, byte) in text.iter().enumerate() {
        if is_escaped {
            if !is_escape(*byte) {
                return None;
            }
            is_escaped = false;
        } else if *byte == b'"' {
            return Some(place);
        } else {
            is_escaped = *byte == b'\\';
        }
    }
    None
}

/// How many bytes a quoted text stands for.
pub(crate) fn unescaped_length(text: &[u8]) -> usize
    ensures value { result ≡ length (unescaped false text.now) }
    ensures within { result ≤ length text.now }
{
    let mut count = 0;
    let mut is_escaped = false;
    for byte in text {
        if is_escaped {
            is_escaped = false;
            count += 1;
            continue;
        }
        if *byte == b'\\' {
            is_escaped = true;
            continue;
        }
        count += 1;
    }
    count
}

/// Appends the bytes that a quoted text stands for.
pub(crate) fn push_unescaped(text: &[u8], into: &mut Vec<u8>) -> Result<(), NoMemory>
    ensures { OnOk result (into.new.items ≡ into.old.items ++ unescaped false text.now) }
{
    let mut is_escaped = false;
    for byte in text {
        if is_escaped {
            push(escaped(*byte), into)?;
            is_escaped = false;
        } else if *byte == b'\\' {
            is_escaped = true;
        } else {
            push(*byte, into)?;
        }
    }
    Ok(())
}

/// Appends a byte.
pub(crate) fn push(byte: u8, into: &mut Vec<u8>) -> Result<(), NoMemory>
    ensures { OnOk result (into.new.items ≡ into.old.items ++ byte ∷ []) }
{
    into.push(byte).map_err(|_| NoMemory)
}
