//! Numbers in a line: each has a space before it and no leading zero, and at most ten digits.

ghost use Rattle.std.specs.Prelude.{◌≡◌, ◌≢◌, ◌++◌, ℕ, ◌≤◌, ◌∷◌, [], List, MatchOption, length, take, drop};
ghost use Rattle.std.specs.Fmt.{decimal};
ghost use Rattle.std.specs.Str.Parse.{AllDigits, digits_value};
ghost use Rattle.bus_trace.specs.Grammar.{IsShort, AreShort};
ghost use Rattle.bus_trace.specs.Reading.{BeginsNoDigit, BeginsNumber};
ghost use Rattle.bus_trace.specs.Trace.{line};
ghost use Rattle.bus_trace.specs.declared.number.Three.{Three as ThreeNumbers};

/// The digit that stands first in the number 0 alone.
const ZERO: u8 = b'0';

/// Three numbers of a line.
#[derive(Clone, Copy, Debug)]
pub(crate) struct Three {
    pub(crate) first: u64,
    pub(crate) second: u64,
    pub(crate) third: u64,
}

/// How many digits stand first.
fn digits_first(text: &[u8]) -> usize
    ensures within { result ≤ length text.now }
    ensures digits { AllDigits 10 (take result text.now) }
    ensures ends { BeginsNoDigit (drop result text.now) }
{
    for (place, byte) in text.iter().enumerate() {
        if !byte.is_ascii_digit() {
            return place;
        }
    }
    text.len()
}

/// What so many digits say.
fn value(digits: &[u8]) -> u64
    requires digits { AllDigits 10 digits.now }
    requires few { length digits.now ≤ 10 }
    ensures { result ≡ digits_value 10 digits.now }
{
    let mut value = 0;
    for digit in digits {
        value = value * 10 + u64::from(*digit - b'0');
    }
    value
}

/// The number that these digits are.
fn number(digits: &[u8]) -> Option<u64>
    requires { AllDigits 10 digits.now }
    ensures { MatchOption result ((n : ℕ) → IsShort n → digits.now ≡ decimal n → ⊥)
        (λ n. IsShort n × (digits.now ≡ decimal n)) }
{
    if digits.is_empty() {
        return None;
    }
    if digits.len() > 10 {
        return None;
    }
    if digits[0] == ZERO && digits.len() > 1 {
        return None;
    }
    Some(value(digits))
}

/// What follows a word that stands first.
pub(crate) fn behind<'t>(text: &'t [u8], word: &[u8]) -> Option<&'t [u8]>
    ensures { MatchOption result ((rest : List ℕ) → text.now ≢ word.now ++ rest)
        (λ rest. text.now ≡ word.now ++ rest.now) }
{
    text.strip_prefix(word)
}

/// The space and the number that stand first, and the rest.
pub(crate) fn next_number(text: &[u8]) -> Option<(u64, &[u8])>
    ensures { MatchOption result ((n : ℕ) (rest : List ℕ) → BeginsNumber text.now n rest → ⊥)
        (λ found. BeginsNumber text.now found.0 found.1.now) }
{
    let digits = behind(text, b" ")?;
    let (digits, rest) = digits.split_at(digits_first(digits));
    let number = number(digits)?;
    Some((number, rest))
}

/// The number behind a word, where the line is these two.
pub(crate) fn one_number(text: &[u8], word: &[u8]) -> Option<u64>
    ensures { MatchOption result ((n : ℕ) → IsShort n → text.now ≡ line word.now (n ∷ []) → ⊥)
        (λ n. IsShort n × (text.now ≡ line word.now (n ∷ []))) }
{
    let (number, rest) = next_number(behind(text, word)?)?;
    if !rest.is_empty() {
        return None;
    }
    Some(number)
}

/// The three numbers behind a word, where the line is these.
pub(crate) fn three_numbers(text: &[u8], word: &[u8]) -> Option<Three>
    ensures { MatchOption result
        ((x y z : ℕ) → IsShort x → IsShort y → IsShort z → text.now ≡ line word.now (x ∷ y ∷ z ∷ []) → ⊥)
        (λ (three : ThreeNumbers). IsShort three.first × IsShort three.second × IsShort three.third
        × (text.now ≡ line word.now (three.first ∷ three.second ∷ three.third ∷ []))) }
{
    let (first, rest) = next_number(behind(text, word)?)?;
    let (second, rest) = next_number(rest)?;
    let (third, rest) = next_number(rest)?;
    if !rest.is_empty() {
        return None;
    }
    Some(Three {
        first,
        second,
        third,
    })
}
