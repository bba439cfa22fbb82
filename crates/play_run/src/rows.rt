//! What a run shows of its play, in numbers. The functions do nothing: each states laws in its contract.

ghost use Rattle.std.specs.Prelude.{◌≡◌, [], ◌∷◌, replicate, Some};
ghost use Rattle.asc_base.specs.declared.block.Leaf.{Leaf};
ghost use Rattle.bus_watch.specs.Log.{LogLists};
ghost use Rattle.bus_watch.specs.declared.log.Event.TheVariants.{Access, Drawn};
ghost use Rattle.play_run.specs.Shows.{IsPlayed};
ghost use Rattle.run_play.specs.Play.{Exited, Device};
ghost use Rattle.run_play.specs.PlayEvents.{Starts, Draws, said_of_all};
ghost use Rattle.run_play.specs.Programs.{exit_words, load_words, memory_with, play_at, real, tags};
ghost use Rattle.run_play.specs.Rows.{default_config, small};

/// A program that exits at once shows its play by an empty log and its report. A load shows it by a log that says the
/// starts, the points and the blocks of four slots. A log with the start and the point of the first of them, whatever
/// the leaf is, and a report that the memory failed at the end of its third read, show the play that is cut there. A
/// report that it failed at the end of a thirteenth move shows none of the play, whatever the log says.
pub fn reports_have_rows()
    ensures exit { (log : LogLists) → log.events ≡ [] → IsPlayed default_config
        (play_at default_config 65536 exit_words) (record {
          ending = Exited 0;
          instructions = 2;
          cycles = 12;
          last = 12;
          fetches = 0;
          real = 0;
          dummies = 0;
          choices = 0;
          code = 0;
        }) log }
    ensures load { (log : LogLists) → said_of_all log.events
        ≡ Starts 256 (Some 1) ∷ Draws (real 64 0 0)
        ∷ Starts 1008 (Some 752) ∷ Draws (real 0 0 0) ∷ tags 0 0 1 (memory_with 64 0 load_words)
        ∷ Starts 1760 (Some 1504) ∷ Draws (real 1 0 0) ∷ tags 1 0 1 (replicate 64 0)
        ∷ Starts 2512 (Some 2258) ∷ Draws (real 0 0 1) ∷ tags 0 0 2 (memory_with 64 0 load_words) ∷ []
        → IsPlayed small (play_at small 0 load_words) (record {
          ending = Exited 0;
          instructions = 3;
          cycles = 3019;
          last = 3019;
          fetches = 2;
          real = 4;
          dummies = 0;
          choices = 0;
          code = 0;
        }) log }
    ensures cut { (log : LogLists) (leaf : Leaf)
        → log.events ≡ Access 256 (Some 1) ∷ Drawn (real 64 0 0) leaf ∷ []
        → IsPlayed small (play_at small 0 load_words) (record {
          ending = Device;
          instructions = 0;
          cycles = 1;
          last = 337;
          fetches = 0;
          real = 1;
          dummies = 0;
          choices = 0;
          code = 0;
        }) log }
    ensures no_cut { (log : LogLists) → IsPlayed small (play_at small 0 load_words) (record {
      ending = Device;
      instructions = 0;
      cycles = 1;
      last = 753;
      fetches = 0;
      real = 1;
      dummies = 0;
      choices = 0;
      code = 0;
    }) log → ⊥ }
{}
