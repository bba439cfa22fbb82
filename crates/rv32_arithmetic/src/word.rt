//! Words and the numbers that they are in two's complement.

ghost use Rattle.std.specs.Prelude.{◌≡◌};
ghost use Rattle.rv32_table.specs.Meaning.{signed_of, low_word};

/// The number that a word is in two's complement.
pub(crate) fn signed(word: u32) -> i32
    ensures { result ≡ signed_of word }
{
    word.cast_signed()
}

/// The word that a number is in two's complement: the number modulo 2^32.
pub(crate) fn low_word(number: i32) -> u32
    ensures { result ≡ low_word number }
{
    number.cast_unsigned()
}
