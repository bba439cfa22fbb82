ghost use Rattle.std.specs.Prelude.{◌≡◌};
ghost use Rattle.std.specs.Char.{is_ascii_digit};
ghost use Rattle.std.specs.List.{list_all};
ghost use Rattle.ascend_words.specs.Numbers.{is_number, number_of};

/// Whether the text is a number: `0`, or a digit from 1 to 9 and at most nine more digits.
fn is_number(text: &[u8]) -> bool
    ensures { result ≡ is_number text.now }
{
    let Some((first, more)) = text.split_first() else {
        return false;
    };
    if !are_digits(text) {
        return false;
    }
    if more.len() > 9 {
        return false;
    }
    *first != b'0' || more.is_empty()
}

/// Whether each byte is a decimal digit.
fn are_digits(text: &[u8]) -> bool
    ensures { result ≡ list_all is_ascii_digit text.now }
{
    text.iter().all(|byte| byte.is_ascii_digit())
}

/// The number that is written so.
pub(crate) fn number(text: &str) -> Option<u64>
    ensures { result ≡ number_of text.now }
{
    if !is_number(text.as_bytes()) {
        return None;
    }
    text.parse().ok()
}
