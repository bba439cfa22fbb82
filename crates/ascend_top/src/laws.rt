//! Laws of the crates below, taken together, and of what a run leaves. The calls do nothing.

ghost use Rattle.std.specs.Prelude.{◌≡◌, ◌<◌, ◌≤◌, ℕ, List, [], ◌∷◌, Option, Some, IsSome};
ghost use Rattle.asc_base.specs.Settings.{config_of};
ghost use Rattle.asc_base.specs.declared.block.Counter.{Counter};
ghost use Rattle.asc_base.specs.declared.settings.Config.{Config};
ghost use Rattle.asc_outside.specs.Host.{Files, HostState};
ghost use Rattle.bus_schedule.specs.Timetable.{public_of};
ghost use Rattle.bus_watch.specs.declared.log.Move.{Move};
ghost use Rattle.elf_loader.specs.Elf.{entry_of};
ghost use Rattle.elf_loader.specs.Faults.{IsFaultless};
ghost use Rattle.elf_loader.specs.Layout.{image_bytes};
ghost use Rattle.play_run.specs.Shows.{IsWholePlay};
ghost use Rattle.run_play.specs.Rows.{small};
ghost use Rattle.run_play.specs.Slots.{first_pace};
ghost use Rattle.rv32_asm.specs.File.{file_of};
ghost use Rattle.secure_machine.specs.Full.{NoSlotIsFull};
ghost use Rattle.secure_machine.specs.Plays.{play_report};
ghost use Rattle.secure_machine.specs.Rows.{IsSaid};
ghost use Rattle.secure_machine.specs.declared.report.Ending.TheVariants.{Exit};
ghost use Rattle.secure_machine.specs.declared.report.Report.{Report};
ghost use Rattle.ascend_words.specs.Grammar.{IsWords, Pair};
ghost use Rattle.ascend_words.specs.Settings.{settings_of, text_in};
ghost use Rattle.ascend_words.specs.declared.table.Command.{Command};
ghost use Rattle.ascend_words.specs.declared.table.Name.TheVariants.{Output, Trace};
ghost use Rattle.ascend_top.specs.Assembled.{IsInside, memory_of};
ghost use Rattle.ascend_top.specs.Command.{AreRight};
ghost use Rattle.ascend_top.specs.Complete.{HasRoom};
ghost use Rattle.ascend_top.specs.FlatRun.{file_in};
ghost use Rattle.ascend_top.specs.EncryptedRun.{keys_from};
ghost use Rattle.ascend_top.specs.Headline.{Headline, IsAlways, IsCutShort, IsFlatOrPrefix, RunsEncrypted};
ghost use Rattle.ascend_top.specs.Headline.{program_play};
ghost use Rattle.ascend_top.specs.Instance.{HaveKey, short_read, short_words};
ghost use Rattle.ascend_top.specs.Instance.{IsExit, IsForgedRun, IsQuiet, IsShort, IsUnmoved};
ghost use Rattle.ascend_top.specs.Lent.{Lent};
ghost use Rattle.ascend_top.specs.Run.{IsRun, run_report_steps};
ghost use Rattle.ascend_top.specs.Steps.{AllDone, PrintsMore};
ghost use Rattle.ascend_top.specs.Texts.{run_text};
ghost use Rattle.ascend_top.specs.declared.commands.flat.Program.{Program};
ghost use Rattle.ascend_top.specs.declared.commands.run.Encrypted.{Encrypted as EncryptedRun};

/// `parse` accepts every file that `assemble` gives, where the program is inside the memory: the memory has the
/// program's bytes at their place and zeros elsewhere, and the first instruction is the program's first. A program of
/// one word, `ecall`, is inside the default memory.
pub fn assembled_files_are_accepted()
    ensures faultless { (base size at : ℕ) (bytes : List ℕ) → IsInside base size at bytes
        → IsFaultless base size (file_of at bytes) }
    ensures memory { (base size at : ℕ) (bytes : List ℕ) → IsInside base size at bytes
        → image_bytes base size (file_of at bytes) ≡ memory_of base size at bytes }
    ensures entry { (base size at : ℕ) (bytes : List ℕ) → IsInside base size at bytes
        → entry_of (file_of at bytes) ≡ at }
    ensures one { IsInside 0 1_048_576 4_096 (115 ∷ 0 ∷ 0 ∷ 0 ∷ []) }
{}

/// A run over a memory that told its buckets and didn't fail, and no slot of whose Play finds too many blocks to keep,
/// is the whole Play of its program: its report is the Play's, and the log's events are those of the Play's slots, one
/// by one. So its status is 0, 1, 8 or 9, as the Play ends.
pub fn runs_over_honest_memory_are_plays()
    ensures { (command : Command) (given : List Pair) (told : Option Files) (lent : Lent) (run : EncryptedRun)
        → (ran : IsRun command given told lent run) → IsSome lent.memory.told
        → ¬ (lent.memory.faults < lent.memory'.faults)
        → NoSlotIsFull (keys_from ran.begin.program.config ran.begin.key) ran.begin.program.config.stash
        (program_play ran.begin.program)
        → IsWholePlay ran.begin.program.config (program_play ran.begin.program) (play_report run.report)
        lent.tap'.log }
{}

/// Where a run over encrypted memory was reported, the output file is the report's output, unless the file of the trace
/// has its name; the file of the trace has the trace's text; and the text that was printed is the report's.
pub fn reported_runs_leave_their_files()
    ensures output { (given : List Pair) (run : EncryptedRun) (old new : HostState) (files : Files)
        → AllDone (run_report_steps given run) old new → new.files ≡ Some files
        → (text_in given Trace ≡ Some (file_in given Output) → ⊥)
        → files (file_in given Output) ≡ Some run.report.output.items }
    ensures trace { (given : List Pair) (run : EncryptedRun) (old new : HostState) (files : Files) (name : List ℕ)
        → AllDone (run_report_steps given run) old new → new.files ≡ Some files → text_in given Trace ≡ Some name
        → files name ≡ Some run.trace.items }
    ensures printed { (given : List Pair) (run : EncryptedRun) (old new : HostState)
        → AllDone (run_report_steps given run) old new
        → PrintsMore old.printed (run_text run.report run.altered) new.printed }
{}

/// The premises of completeness can be met. Where the first slot of a run would start at or after the time of its
/// settings, no slot finds too many blocks. The words `gen seed=0 words=1 key=k output=o time=16384` are read, and are
/// a command that runs over encrypted memory; over any files of which `k` has the length of a key nothing is refused
/// before the run; and no slot of its Play finds too many blocks. [`crate::outside_with_key`] makes such files, with a
/// memory and a tap.
pub fn completeness_can_be_met()
    ensures late { (command : Command) (given : List Pair) (files : Files)
        → (let config = config_of (settings_of given) in
        config.time ≤ (first_pace (public_of config)).beat.next) → HasRoom command given files }
    ensures read { IsWords short_words short_read }
    ensures encrypted { RunsEncrypted short_read.command }
    ensures right { (files : Files) → HaveKey files → AreRight short_read files }
    ensures room { (files : Files) → HasRoom short_read.command short_read.given files }
{}

/// The headline has instances, and its words refuse others. It holds of a program that exits after two instructions, in
/// twelve cycles and before its first slot, of the report that says so, and of an empty log, whatever the key is; it
/// holds of no report with another status, where no reply was altered. Where memory ran out before the first slot its
/// rest holds, up to the time 0. And a move without a slot is in no schedule, whatever the settings and the end time
/// are. By a forgery it holds of every report that ends with the last read, where a line of any block was accepted by
/// its valid tag that stood in an altered reply, and nothing was tagged: also of one that says status 1 of the program
/// that exits with 0, which isn't flat RV32IM's.
pub fn headlines_have_rows()
    ensures exit { (program : Program) → IsExit program → (key : List ℕ) (lent : Lent) → IsUnmoved lent
        → (report : Report) → IsShort (Exit 0) report → Headline program key lent report }
    ensures other_status { (program : Program) → IsExit program → (key : List ℕ) (lent : Lent) → IsQuiet lent
        → (report : Report) → IsShort (Exit 1) report → Headline program key lent report → ⊥ }
    ensures cut_short { (program : Program) → program.config ≡ small → (lent : Lent) → IsUnmoved lent
        → IsCutShort program lent }
    ensures no_move { (config : Config) (lent : Lent) (end : ℕ) (move : Move) → IsQuiet lent
        → lent.tap'.log.moves ≡ move ∷ [] → IsAlways config lent end → ⊥ }
    ensures forged { (program : Program) (key : List ℕ) (lent : Lent) (a : ℕ) (c : Counter) (l : List ℕ)
        → IsForgedRun program key lent a c l → (report : Report) → report.last ≡ 457
        → Headline program key lent report }
    ensures not_flat { (program : Program) → IsExit program → (report : Report) → IsSaid 2 (Exit 1) report
        → IsFlatOrPrefix program report → ⊥ }
{}
