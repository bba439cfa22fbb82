//! Reports in each of their endings, in numbers. The functions do nothing: each states laws in its contract.

ghost use Rattle.std.specs.Prelude.{◌≡◌, ◌≤◌, ℕ, false, List, [], ◌∷◌, Some};
ghost use Rattle.asc_base.specs.declared.block.Counter.{Counter};
ghost use Rattle.asc_base.specs.declared.block.Leaf.{Leaf};
ghost use Rattle.asc_base.specs.declared.stop.Evidence.{Evidence};
ghost use Rattle.asc_base.specs.declared.stop.Evidence.TheVariants.{BadSlot, Missing};
ghost use Rattle.asc_outside.specs.Memory.{zero_buckets};
ghost use Rattle.bus_watch.specs.Log.{TapState, LogLists};
ghost use Rattle.bus_watch.specs.declared.log.Event.{Event};
ghost use Rattle.bus_watch.specs.declared.log.Event.TheVariants.{Access, Drawn};
ghost use Rattle.elf_loader.specs.declared.image.Image.{Image};
ghost use Rattle.log_replay.specs.Rows.{log_of, dummy_events, block_events, displaced, broken_log};
ghost use Rattle.oram_contents.specs.Entries.{Keys, message_of};
ghost use Rattle.oram_contents.specs.Starts.{empty_log};
ghost use Rattle.oram_contents.specs.Verdict.{is_first};
ghost use Rattle.play_run.specs.Shows.{IsPlayed};
ghost use Rattle.posmap_counters.specs.Counters.{first_counter};
ghost use Rattle.run_play.specs.Halt.{Overfull, halt};
ghost use Rattle.run_play.specs.Play as how;
ghost use Rattle.run_play.specs.PlayEvents.{play_events, said_of_all};
ghost use Rattle.run_play.specs.Programs.{exit_words, hello_words, load_words, misaligned_words, play_at, real};
ghost use Rattle.run_play.specs.Rows.{small, no_budget, no_time};
ghost use Rattle.rv32_core.specs.declared.outcome.TrapKind.{TrapKind};
ghost use Rattle.rv32_core.specs.declared.outcome.TrapKind.TheVariants.{FetchMisaligned};
ghost use Rattle.secure_machine.specs.Fed.{IsFed};
ghost use Rattle.secure_machine.specs.Judged.{EndsInOrder, EndsReplayed, ShowsEnding};
ghost use Rattle.secure_machine.specs.Rows.{IsLoaded, IsSaid, load_lines};
ghost use Rattle.secure_machine.specs.Run.{IsFlatReport};
ghost use Rattle.secure_machine.specs.Spent.{IsSpentOn};
ghost use Rattle.secure_machine.specs.declared.report.Ending.{Ending};
ghost use Rattle.secure_machine.specs.declared.report.Ending.TheVariants.{Exit, Trap, Budget, TimeUp, StashFull};
ghost use Rattle.secure_machine.specs.declared.report.Ending.TheVariants.{Integrity, Device};
ghost use Rattle.secure_machine.specs.declared.report.Report.{Report};

/// What logs show of each ending. A run that ended by itself, or by the time, before its first slot left a log of no
/// events and buckets of zero bytes. A log of a block's first slot, behind which another block is appended, one too
/// many, shows a full stash; one of a block that was accessed before, whose slot finds nothing, that it is missing; and
/// one whose reads broke off that the memory failed. None of these is an exit's, nor does a dummy's slot show evidence
/// or a full stash, and without a move no memory failed.
pub fn endings_have_rows()
    ensures exit { (keys : Keys) (stash status : ℕ) (tap : TapState) → tap.log ≡ empty_log
        → tap.mirror ≡ zero_buckets keys.shape.buckets → EndsReplayed keys stash (Exit status) tap }
    ensures trap { (keys : Keys) (stash pc : ℕ) (kind : TrapKind) (tap : TapState) → tap.log ≡ empty_log
        → tap.mirror ≡ zero_buckets keys.shape.buckets → EndsReplayed keys stash (Trap kind pc) tap }
    ensures budget { (keys : Keys) (stash : ℕ) (tap : TapState) → tap.log ≡ empty_log
        → tap.mirror ≡ zero_buckets keys.shape.buckets → EndsReplayed keys stash Budget tap }
    ensures time_up { (keys : Keys) (stash at : ℕ) (tap : TapState) → tap.log ≡ empty_log
        → tap.mirror ≡ zero_buckets keys.shape.buckets → EndsReplayed keys stash (TimeUp at) tap }
    ensures full { (keys : Keys) (a b : ℕ) (d : Counter) (l : List ℕ) → (b ≡ a → ⊥)
        → (let log = log_of (block_events keys a first_counter (displaced (message_of b d l))) in
        EndsInOrder keys (StashFull 1) log × ShowsEnding keys 0 (StashFull 1) log) }
    ensures evidence { (keys : Keys) (stash a : ℕ) (c : Counter) → is_first c ≡ false
        → (let log = log_of (block_events keys a c []) in
        let ending = Integrity (Missing (record { 0 = a }) c) in
        EndsInOrder keys ending log × ShowsEnding keys stash ending log) }
    ensures device { (keys : Keys) (stash level : ℕ) → level ≤ keys.shape.levels
        → EndsInOrder keys Device (broken_log keys level)
        × ShowsEnding keys stash Device (broken_log keys level) }
    ensures no_exit { (keys : Keys) (stash a status : ℕ) (c : Counter) → is_first c ≡ false
        → ShowsEnding keys stash (Exit status) (log_of (block_events keys a c [])) → ⊥ }
    ensures no_evidence { (keys : Keys) (stash : ℕ) (evidence : Evidence)
        → ShowsEnding keys stash (Integrity evidence) (log_of (dummy_events keys 0)) → ⊥ }
    ensures no_full { (keys : Keys) (stash held : ℕ)
        → ShowsEnding keys stash (StashFull held) (log_of (dummy_events keys 0)) → ⊥ }
    ensures no_device { (keys : Keys) (events : List Event) → EndsInOrder keys Device (log_of events) → ⊥ }
{}

/// Reports that are those of a play or of a play cut by a stop, in each ending: a trap, a budget of no instruction,
/// less time than the first slot's start, each with no slot; a load that is cut where too many blocks stay after the
/// reads of its fourth slot; and one whose first slot shows evidence. `reports_have_rows` of play_run has an exit, a
/// load, and one that a failing move cuts.
pub fn reports_have_rows()
    ensures trap { (log : LogLists) → log.events ≡ [] → IsPlayed small (play_at small 0 misaligned_words) (record {
      ending = how.Trapped FetchMisaligned 4;
      instructions = 1;
      cycles = 2;
      last = 2;
      fetches = 0;
      real = 0;
      dummies = 0;
      choices = 0;
      code = 0;
    }) log }
    ensures budget { (log : LogLists) → log.events ≡ [] → IsPlayed no_budget (play_at no_budget 65536 hello_words)
        (record {
          ending = how.Budget;
          instructions = 0;
          cycles = 1;
          last = 1;
          fetches = 0;
          real = 0;
          dummies = 0;
          choices = 0;
          code = 0;
        }) log }
    ensures time_up { (log : LogLists) → log.events ≡ [] → IsPlayed no_time (play_at no_time 0 load_words) (record {
      ending = how.TimeUp 256;
      instructions = 0;
      cycles = 1;
      last = 200;
      fetches = 0;
      real = 0;
      dummies = 0;
      choices = 0;
      code = 0;
    }) log }
    ensures full { (log : LogLists)
        → said_of_all log.events ≡ play_events (halt 5 (play_at small 0 load_words) 4 (Overfull 201)).slots
        → IsPlayed small (play_at small 0 load_words) (record {
          ending = how.StashFull 201;
          instructions = 1;
          cycles = 2258;
          last = 2752;
          fetches = 1;
          real = 4;
          dummies = 0;
          choices = 0;
          code = 0;
        }) log }
    ensures evidence { (log : LogLists) (leaf : Leaf)
        → log.events ≡ Access 256 (Some 1) ∷ Drawn (real 64 0 0) leaf ∷ []
        → IsPlayed small (play_at small 0 load_words) (record {
          ending = how.Integrity (BadSlot 0 0);
          instructions = 0;
          cycles = 1;
          last = 496;
          fetches = 0;
          real = 1;
          dummies = 0;
          choices = 0;
          code = 0;
        }) log }
{}

/// Reports of flat RV32IM, by a program of two instructions, the second of which exits: after both it has exited with
/// 0; after the first the run goes on, so that budget or time may have been used up then, or a stop have come. And by
/// one whose second instruction jumps to an address that no instruction has: after the first the next one traps. No
/// report says that the first program exits with 1, or after three instructions, or that it goes on after both.
pub fn flat_reports_have_rows()
    ensures exit { (image : Image) (report : Report) → IsLoaded exit_words image → IsSaid 2 (Exit 0) report
        → IsFlatReport small image [] report }
    ensures trap { (image : Image) (report : Report) → IsLoaded misaligned_words image
        → IsSaid 1 (Trap FetchMisaligned 4) report → IsFlatReport small image [] report }
    ensures budget { (image : Image) (report : Report) → IsLoaded exit_words image → IsSaid 1 Budget report
        → IsFlatReport small image [] report }
    ensures time_up { (at : ℕ) (image : Image) (report : Report) → IsLoaded exit_words image
        → IsSaid 1 (TimeUp at) report → IsFlatReport small image [] report }
    ensures full { (held : ℕ) (image : Image) (report : Report) → IsLoaded exit_words image
        → IsSaid 1 (StashFull held) report → IsFlatReport small image [] report }
    ensures evidence { (evidence : Evidence) (image : Image) (report : Report) → IsLoaded exit_words image
        → IsSaid 1 (Integrity evidence) report → IsFlatReport small image [] report }
    ensures device { (image : Image) (report : Report) → IsLoaded exit_words image → IsSaid 1 Device report
        → IsFlatReport small image [] report }
    ensures other_status { (image : Image) (report : Report) → IsLoaded exit_words image
        → IsSaid 2 (Exit 1) report → IsFlatReport small image [] report → ⊥ }
    ensures more { (ending : Ending) (image : Image) (report : Report) → IsLoaded exit_words image
        → IsSaid 3 ending report → IsFlatReport small image [] report → ⊥ }
    ensures no_end { (image : Image) (report : Report) → IsLoaded exit_words image → IsSaid 2 Budget report
        → IsFlatReport small image [] report → ⊥ }
{}

/// Reports of the machine that is fed with answered lines, and of spent cycles. A load over a cache of one line is fed
/// with the line that it loads and with the program's own again, and exits; with no line no report says that it does. A
/// program that exits before its first slot spent twelve cycles: one for its image line, one for its addition and ten
/// for the exit, and no report that it exits says eleven.
pub fn fed_reports_have_rows()
    ensures load { (image : Image) (report : Report) → IsLoaded load_words image → IsSaid 3 (Exit 0) report
        → IsFed small image [] report load_lines }
    ensures unfed { (image : Image) (report : Report) → IsLoaded load_words image → IsSaid 3 (Exit 0) report
        → IsFed small image [] report [] → ⊥ }
    ensures spent { (image : Image) (report : Report) → IsLoaded exit_words image → IsSaid 2 (Exit 0) report
        → report.cycles ≡ 12 → (log : LogLists) → log.events ≡ [] → IsSpentOn small image [] report log }
    ensures less { (image : Image) (report : Report) → IsLoaded exit_words image → IsSaid 2 (Exit 0) report
        → report.cycles ≡ 11 → (log : LogLists) → log.events ≡ [] → IsSpentOn small image [] report log → ⊥ }
{}
