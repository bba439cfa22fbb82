//! Laws of reports of generated programs. The calls do nothing.

ghost use Rattle.std.specs.Prelude.{◌≡◌, ◌≤◌, ◌+◌, ◌*◌, ℕ, List};
ghost use Rattle.std.specs.Int.{to_le_bytes, w32};
ghost use Rattle.asc_base.specs.declared.settings.Config.{Config};
ghost use Rattle.elf_loader.specs.declared.image.Image.{Image};
ghost use Rattle.generated_report.specs.Loaded.{IsGenerated};
ghost use Rattle.generated_run.specs.Hash.{hash_of};
ghost use Rattle.rv32_core.specs.declared.outcome.TrapKind.{TrapKind};
ghost use Rattle.secure_machine.specs.Run.{IsFlatReport};
ghost use Rattle.secure_machine.specs.declared.report.Ending.TheVariants.{Exit, Trap};
ghost use Rattle.secure_machine.specs.declared.report.Report.{Report};

use generated_run::generated_programs_hash;

/// A report that is flat RV32IM's, of a generated program with N data words: it has at most 8N + 21 instructions. An
/// exit has the status 0 and comes after exactly so many, and the output is then the four bytes of the hash of the data
/// words, the least first. It doesn't trap.
pub fn generated_reports_have_the_hash()
    ensures few { (config : Config) (image : Image) (input : List ℕ) (report : Report) (seed words : ℕ)
        → IsGenerated config image seed words → IsFlatReport config image input report
        → report.instructions ≤ 8 * words + 21 }
    ensures exit { (config : Config) (image : Image) (input : List ℕ) (report : Report) (seed words status : ℕ)
        → IsGenerated config image seed words → IsFlatReport config image input report
        → report.ending ≡ Exit status
        → (status ≡ 0) × (report.instructions ≡ 8 * words + 21)
        × (report.output.items ≡ to_le_bytes w32 (hash_of seed words)) }
    ensures trap { (config : Config) (image : Image) (input : List ℕ) (report : Report) (seed words pc : ℕ)
        (kind : TrapKind) → IsGenerated config image seed words → IsFlatReport config image input report
        → report.ending ≡ Trap kind pc → ⊥ }
{
    generated_programs_hash();
}
