//! Laws of generated programs on the flat machine. The calls do nothing.

ghost use Rattle.std.specs.Prelude.{◌≡◌, ◌≤◌, ◌<◌, ◌+◌, ◌*◌, ◌^◌, ℕ, List, [], ◌∷◌, ◌++◌, Ok, All, length};
ghost use Rattle.std.specs.List.{fold};
ghost use Rattle.asc_base.specs.Memory.{IsMemory};
ghost use Rattle.elf_loader.specs.Faults.{IsFaultless};
ghost use Rattle.rv32_core.specs.Machine.{Machine};
ghost use Rattle.rv32_core.specs.FlatRun.{flat_run};
ghost use Rattle.rv32_asm.specs.File.{assembled};
ghost use Rattle.rv32_asm.specs.Generator.{start, generated_text};
ghost use Rattle.generated_run.specs.Hash.{hash_after, hash_of};
ghost use Rattle.generated_run.specs.Leads.{Leads};
ghost use Rattle.generated_run.specs.States.{code, laid, Surroundings, HasRoom, regs, machine_before, IsTurning};
ghost use Rattle.generated_run.specs.Written.{run_of_file, IsWritten};

use rv32_asm::generated_texts_assemble;

/// Pieces of a run: no instruction leads nowhere else, and one piece behind another is one piece.
pub fn pieces_lead_on()
    ensures none { (machine : Machine) (memory : List ℕ) → Leads 0 machine memory machine memory }
    ensures both { (count more : ℕ) (machine next last : Machine) (memory after end : List ℕ)
        → Leads count machine memory next after → Leads more next after last end
        → Leads (count + more) machine memory last end }
{}

/// The loop of a program whose words stand in a memory that has room for them: six instructions lead to it, with no
/// word taken; a turn is eight instructions, takes the first of the words that are left, and keeps the invariant; and
/// once no word is left, fifteen instructions more write the hash and exit.
pub fn loop_keeps_its_invariant()
    ensures first { (around : Surroundings) (all : List ℕ) → HasRoom around (30 + length all) → 1 ≤ length all
        → (next : Machine) × (after : List ℕ)
        × Leads 6 (machine_before around 0 (regs 0 0 0 0 0 0 0 0) [])
        (laid around.front (code ++ (length all ∷ all)) around.back) next after
        × IsTurning around all [] all next after }
    ensures turn { (around : Surroundings) (all taken left : List ℕ) (word : ℕ) (machine : Machine) (memory : List ℕ)
        → HasRoom around (30 + length all) → All (λ word. word < 2 ^ 32) all
        → IsTurning around all taken (word ∷ left) machine memory
        → (next : Machine) × (after : List ℕ) × Leads 8 machine memory next after
        × IsTurning around all (taken ++ word ∷ []) left next after }
    ensures last { (around : Surroundings) (all : List ℕ) (machine : Machine) (memory : List ℕ) (n : ℕ)
        → HasRoom around (30 + length all) → IsTurning around all all [] machine memory → 15 ≤ n
        → IsWritten 15 (fold hash_after 0 all) (flat_run n machine memory) }
{}

/// The loader accepts a generated file exactly for a memory that has room from 65,536 on for the program's 29 words,
/// the count and the data words.
pub fn generated_programs_fit()
    ensures accepted { (seed words base size : ℕ) (file : List ℕ) → words ≤ 65_536
        → assembled start (generated_text seed words) ≡ Ok file
        → base ≤ start → start + 4 * (30 + words) ≤ base + size → IsFaultless base size file }
    ensures low { (seed words base size : ℕ) (file : List ℕ) → words ≤ 65_536
        → assembled start (generated_text seed words) ≡ Ok file → IsFaultless base size file → base ≤ start }
    ensures high { (seed words base size : ℕ) (file : List ℕ) → words ≤ 65_536
        → assembled start (generated_text seed words) ≡ Ok file → IsFaultless base size file
        → start + 4 * (30 + words) ≤ base + size }
{
    generated_texts_assemble();
}

/// A generated program, in any memory for which the loader accepts its file, with any input: the flat run of
/// `8 * words + 21` instructions or more ends after exactly so many with the exit 0, and its output is the four bytes
/// of the hash of the data words, the least first.
pub fn generated_programs_hash()
    ensures { (seed words base size n : ℕ) (file input : List ℕ) → IsMemory base size → 1 ≤ words → words ≤ 65_536
        → assembled start (generated_text seed words) ≡ Ok file → IsFaultless base size file → 8 * words + 21 ≤ n
        → IsWritten (8 * words + 21) (hash_of seed words) (run_of_file base size file input n) }
{
    generated_texts_assemble();
}
