//! Laws of the instruction table, over every word and every instruction. The calls do nothing.

ghost use Rattle.std.specs.Prelude.{◌≡◌, ℕ, ◌↔◌, ◌^◌, ◌<◌, All, AllPairs, Some, None};
ghost use Rattle.rv32_table.specs.Fits.{Fits};
ghost use Rattle.rv32_table.specs.Meaning.{meaning_of};
ghost use Rattle.rv32_table.specs.Table.{table, Matches, decoded, instruction_of};
ghost use Rattle.rv32_table.specs.Encoded.{encoded};
ghost use Rattle.rv32_table.specs.declared.instruction.Instr.{Instr};

/// A word matches at most one row of the table.
pub fn at_most_one_row()
    ensures { (word : ℕ) → AllPairs (λ r s. ¬ (Matches word r × Matches word s)) table }
{}

/// A word is illegal exactly where it matches no row.
pub fn outside_is_illegal()
    ensures { (word : ℕ) → (decoded word ≡ None) ↔ All (λ row. ¬ Matches word row) table }
{}

/// The meaning beside a row is that of the instruction which the row makes of a word.
pub fn rows_have_their_meanings()
    ensures { (word : ℕ) → All (λ row. row.meaning ≡ meaning_of (instruction_of row.form word)) table }
{}

/// The word of an instruction that fits is a word, and that instruction.
pub fn encoded_is_decoded()
    ensures word { (instr : Instr) → Fits instr → encoded instr < 2 ^ 32 }
    ensures back { (instr : Instr) → Fits instr → decoded (encoded instr) ≡ Some instr }
{}

/// What a word is fits, and its word is this one.
pub fn decoded_is_encoded()
    ensures fits { (word : ℕ) (instr : Instr) → word < 2 ^ 32 → decoded word ≡ Some instr → Fits instr }
    ensures back { (word : ℕ) (instr : Instr) → word < 2 ^ 32 → decoded word ≡ Some instr → encoded instr ≡ word }
{}
