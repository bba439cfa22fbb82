//! Laws of the assembler, over every word. The calls do nothing.

ghost use Rattle.std.specs.Prelude.{◌≡◌, ◌≤◌, ◌<◌, ◌+◌, ◌%◌, ◌^◌, ℕ, Ok, length};
ghost use Rattle.std.specs.Int.{to_le_bytes, w32};
ghost use Rattle.rv32_asm.specs.Disassembly.{text_of};
ghost use Rattle.rv32_asm.specs.File.{assembled, file_of};
ghost use Rattle.rv32_asm.specs.Generator.{generated_text, generated_file, start};

use rv32_table::decoded_is_encoded;

/// What [`crate::disassemble`] writes for a word assembles to the four bytes of that word, at each place that is a
/// multiple of four.
pub fn statements_are_their_words()
    ensures { (at word : ℕ) → at % 4 ≡ 0 → at + 4 ≤ 4_294_901_760 → word < 2 ^ 32
        → assembled at (text_of word) ≡ Ok (file_of at (to_le_bytes w32 word)) }
{
    decoded_is_encoded();
}

/// Whatever the seed, the text that is made from it and a count of at most 65,536 words is short enough to assemble,
/// and assembles at 65,536 to the program with its data.
pub fn generated_texts_assemble()
    ensures short { (seed count : ℕ) → count ≤ 65_536 → length (generated_text seed count) ≤ 4_194_304 }
    ensures file { (seed count : ℕ) → count ≤ 65_536
        → assembled start (generated_text seed count) ≡ Ok (generated_file seed count) }
{}
