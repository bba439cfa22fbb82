//! The lines of a text, and what a line is made of.

ghost use Rattle.std.specs.Prelude.{◌≡◌, ◌≤◌, ◌<◌, ◌∷◌, [], length, IfSome};
ghost use Rattle.std.specs.List.{list_all};
ghost use Rattle.rv32_asm.specs.Lines.{lines_of, is_text_byte, quote_after, place_outside, without_comment, parts_of};
ghost use Rattle.rv32_asm.specs.Lines.{word_length};
ghost use Rattle.rv32_asm.specs.LineViews.{line_end, without_return, lines_from, parts_view};

use crate::scanning::{after_blanks, is_blank};

/// Whether a place in a line is in a quoted text.
#[derive(Clone, Copy, Debug, PartialEq, Eq)]
pub(crate) enum Quote {
    /// It is not.
    Outside,
    /// It is.
    Inside,
    /// It is, behind a backslash.
    Escaped,
}

impl Quote {
    /// The state behind a byte.
    fn after(self, byte: u8) -> Quote
        ensures { result ≡ quote_after self byte }
    {
        match (self, byte) {
            (Quote::Outside, b'"') | (Quote::Escaped, _) => Quote::Inside,
            (Quote::Inside, b'"') => Quote::Outside,
            (Quote::Inside, b'\\') => Quote::Escaped,
            (unchanged, _) => unchanged,
        }
    }
}

/// Where the first such byte outside of quoted text stands, or else the length.
fn place_outside(line: &[u8], stop: u8) -> usize
    ensures value { result ≡ place_outside stop Quote.Outside line.now }
    ensures within { result ≤ length line.now }
{
    let mut quote = Quote::Outside;
    for (place, byte) in line.iter().enumerate() {
        if quote == Quote::Outside && *byte == stop {
            return place;
        }
        quote = quote.after(*byte);
    }
    line.len()
}

/// How many bytes stand before the first line feed, or all.
fn line_end(text: &[u8]) -> usize
    ensures value { result ≡ line_end text.now }
    ensures within { result ≤ length text.now }
{
    text.iter().take_while(|byte| **byte != b'\n').count()
}

/// The first line of a text, and what follows its line feed.
#[tactic(auto, using(crate::proofs::LineLaws::first_of_lines, crate::proofs::LineLaws::last_of_lines))]
pub(crate) fn split_line(text: &[u8]) -> (&[u8], Option<&[u8]>)
    ensures lines { lines_of text.now ≡ result.0.now ∷ lines_from result.1 }
    ensures shorter { IfSome result.1 (λ rest. length rest.now < length text.now) }
{
    let end = line_end(text);
    if end == text.len() {
        return (text, None);
    }
    (without_return(&text[..end]), Some(&text[end + 1..]))
}

/// A line without the carriage return before its line feed.
fn without_return(line: &[u8]) -> &[u8]
    ensures { result.now ≡ without_return line.now }
{
    if line.is_empty() || line[line.len() - 1] != b'\r' {
        return line;
    }
    &line[..line.len() - 1]
}

/// Whether each byte is one of a text's.
pub(crate) fn is_text(line: &[u8]) -> bool
    ensures { result ≡ list_all is_text_byte line.now }
{
    line.iter().all(|byte| is_text_byte(*byte))
}

/// A byte that a line may have.
fn is_text_byte(byte: u8) -> bool
    ensures { result ≡ is_text_byte byte }
{
    matches!(byte, b' '..=b'~') || byte == b'\t'
}

/// A line without its comment.
pub(crate) fn without_comment(line: &[u8]) -> &[u8]
    ensures { result.now ≡ without_comment line.now }
{
    &line[..place_outside(line, b'#')]
}

/// The label of a line, and the rest of the line, without the blanks in front of both.
pub(crate) fn parts_of(code: &[u8]) -> (Option<&[u8]>, &[u8])
    ensures { parts_view result ≡ parts_of code.now }
{
    let colon = place_outside(code, b':');
    if colon == code.len() {
        return (None, after_blanks(code));
    }
    (
        Some(after_blanks(&code[..colon])),
        after_blanks(&code[colon + 1..]),
    )
}

/// How many bytes the word in front has.
pub(crate) fn word_length(text: &[u8]) -> usize
    ensures value { result ≡ word_length text.now }
    ensures within { result ≤ length text.now }
{
    text.iter().take_while(|byte| !is_blank(**byte)).count()
}
