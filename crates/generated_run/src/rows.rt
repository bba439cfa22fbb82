//! Worked rows. The calls do nothing.

ghost use Rattle.std.specs.Prelude.{◌≡◌, [], ◌∷◌};
ghost use Rattle.rv32_core.specs.FlatRun.{Exited, flat_run, machine_at_start, output_limit};
ghost use Rattle.rv32_asm.specs.File.{words};
ghost use Rattle.rv32_asm.specs.Generator.{start, generated_words, generated_file};
ghost use Rattle.generated_run.specs.Hash.{hash_of};
ghost use Rattle.generated_run.specs.Written.{run_of_file, IsWritten};

/// The programs of seed 0 with one word and of seed 7 with three, computed instruction by instruction, where the memory
/// begins with the program; and the first as the law has it, in a memory of 1,048,576 bytes from 0 on. The hashes were
/// computed apart from this program (`tools/generated_words.py`).
pub fn worked_programs()
    ensures one_word { let run = flat_run 40 (machine_at_start start start 4096 start [] output_limit)
        (words (generated_words 0 1)) in
        (run.ending ≡ Exited 0) × (run.instructions ≡ 29)
        × (run.machine.files.output ≡ 0x7e ∷ 0x7b ∷ 0x05 ∷ 0x14 ∷ []) }
    ensures three_words { let run = flat_run 45 (machine_at_start start start 4096 start [] output_limit)
        (words (generated_words 7 3)) in
        (run.ending ≡ Exited 0) × (run.instructions ≡ 45)
        × (run.machine.files.output ≡ 0x7d ∷ 0x0c ∷ 0x2f ∷ 0x8d ∷ []) }
    ensures hash { hash_of 0 1 ≡ 0x1405_7b7e }
    ensures by_law { IsWritten 29 (hash_of 0 1) (run_of_file 0 1_048_576 (generated_file 0 1) [] 29) }
{}
