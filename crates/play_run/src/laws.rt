//! Laws of runs over an encrypted memory. The functions do nothing: each states laws in its contract.

ghost use Rattle.std.specs.Prelude.{◌≡◌, ◌<◌, ◌≤◌, ◌+◌, ◌*◌, ◌⊎◌, ℕ, suc, min, List, [], ◌∷◌, ◌++◌, None, Ok, Err};
ghost use Rattle.std.specs.Prelude.{length, replicate};
ghost use Rattle.asc_base.specs.Has.{Has};
ghost use Rattle.asc_base.specs.Settings.{IsConfig};
ghost use Rattle.asc_base.specs.TreeShape.{olat_of};
ghost use Rattle.asc_base.specs.declared.block.Line.{Line};
ghost use Rattle.asc_base.specs.declared.settings.Config.{Config};
ghost use Rattle.asc_base.specs.declared.stop.Stop.{Stop};
ghost use Rattle.bus_schedule.specs.Timetable.{public_of};
ghost use Rattle.bus_watch.specs.Log.{LogLists};
ghost use Rattle.data_cache.specs.Cached.{cache_access};
ghost use Rattle.data_cache.specs.CacheLists.{line_in};
ghost use Rattle.data_cache.specs.Contents.{Contents, write_line_plan};
ghost use Rattle.data_cache.specs.Lines.{LineRequest};
ghost use Rattle.encrypted_run.specs.Refined.{empty_cache};
ghost use Rattle.oram_contents.specs.Entries.{Keys, AreKeys};
ghost use Rattle.oram_contents.specs.Forgery.{Forgery};
ghost use Rattle.oram_frontend.specs.Oram.{OramState, OramStep, Told, Wait};
ghost use Rattle.oram_play.specs.Playing.{PlaysAs};
ghost use Rattle.play_run.specs.Follows.{Follows, with_fetches, StopLeaves};
ghost use Rattle.play_run.specs.Given.{CallsPlay, RequestPlays, RequestStops, WaitPlays, WaitStops};
ghost use Rattle.play_run.specs.Shows.{RunShows, StopShows, shown_report, IsPlayed, IsWholePlay, IsOwn};
ghost use Rattle.play_run.specs.Stands.{spent, numbers_of, StandsInImage, StandsInRun, EndsIn, InstructionLeaves};
ghost use Rattle.play_run.specs.Timed.{TimedState, TimedStep, CanAsk};
ghost use Rattle.request_plan.specs.Plan.{Plan, Ends, Stops, through};
ghost use Rattle.request_plan.specs.Play.{play, bare};
ghost use Rattle.run_play.specs.Play.{Play, PlayEnding, Budget, TimeUp, play_of};
ghost use Rattle.run_play.specs.PlayEvents.{PlayReport};
ghost use Rattle.run_play.specs.Requests.{Standing, standing_at_start};
ghost use Rattle.run_play.specs.Slots.{Slot, Numbers};
ghost use Rattle.run_play.specs.Turns.{line_slots};
ghost use Rattle.rv32_core.specs.Machine.{Machine, IsCore};
ghost use Rattle.rv32_core.specs.StepPlan.{step_plan};
ghost use Rattle.rv32_core.specs.declared.outcome.Done.{Done};

/// Each call of an encrypted memory that stands in a play takes the slots of the play's request, and where it is
/// stopped leaves a cut of them; so does a wait with its dummies; and a new one stands where the play begins. Else the
/// log shows a forgery. These are the premises of the laws below.
pub fn calls_take_slots()
    ensures { (keys : Keys) → AreKeys keys → (levels : ℕ) (config : Config) → IsConfig config
        → CallsPlay keys levels config }
{}

/// A plan of requests for lines that an encrypted memory answers takes the slots of the play of that plan, answers what
/// the play does, and stands where it stands; and one that is stopped leaves of all these slots what the stop says.
/// Else its log shows a forgery.
pub fn plans_take_slots<A, B>()
    ensures ends { (keys : Keys) (levels : ℕ) (config : Config) → AreKeys keys → RequestPlays keys levels config
        → (plan : Plan LineRequest (List ℕ) B A) (slots : List Slot) (now : Standing) (s t : TimedState) (outcome : A)
        → Follows keys levels config slots now s → Ends (TimedStep keys levels keys.shape.lines) plan s t outcome
        → Forgery keys t.oram.port.tap.log
        ⊎ (let whole = play (line_slots config) plan now in
        Follows keys levels config (slots ++ bare whole.records) whole.held t × (outcome ≡ whole.outcome)) }
    ensures stops { (keys : Keys) (levels : ℕ) (config : Config) → AreKeys keys → RequestPlays keys levels config
        → RequestStops keys levels config → (plan : Plan LineRequest (List ℕ) B A) (slots : List Slot) (now : Standing)
        (s t : TimedState) (stop : Stop) (left : B) → Follows keys levels config slots now s
        → CanAsk levels keys.shape.lines s → Stops (TimedStep keys levels keys.shape.lines) plan s t stop left
        → Forgery keys t.oram.port.tap.log
        ⊎ (let whole = play (line_slots config) plan now in
        StopLeaves levels (slots ++ bare whole.records) whole.held (with_fetches now.numbers t.fetches) stop
        t.oram.port) }
{}

/// A run that begins over an encrypted memory that stands where the play begins stands in the Play of its image and
/// machine, from image line to image line: each is written whole into the cache, takes the slots of the play's line,
/// and costs a cycle. Behind the last the run stands before its first instruction. A line that is stopped shows the
/// Play cut by the stop, or its end where no time is left.
pub fn image_lines_take_slots()
    ensures start { (keys : Keys) (levels : ℕ) (config : Config) (memory marked : List ℕ) (machine : Machine)
        (o : OramState) → 0 < config.sets → 0 < config.ways → length memory ≡ 64 * keys.shape.lines
        → ((line : ℕ) → line < keys.shape.lines → Has line marked ⊎ (line_in memory line ≡ replicate 64 0))
        → PlaysAs keys levels config [] (standing_at_start config) o
        → StandsInImage keys levels config (play_of config memory marked machine) memory machine marked
        (empty_cache config.sets config.ways) (record { oram = o; clock = 0; fetches = 0 }) }
    ensures line { (keys : Keys) (levels : ℕ) (config : Config) → AreKeys keys → RequestPlays keys levels config
        → (whole : Play) (memory : List ℕ) (machine : Machine) (line : ℕ) (marked : List ℕ) (value : Line)
        (cache after : Contents) (s t : TimedState) → line < keys.shape.lines → length (value.0) ≡ 64
        → value.0 ≡ line_in memory line → StandsInImage keys levels config whole memory machine (line ∷ marked) cache s
        → Ends (TimedStep keys levels keys.shape.lines) (write_line_plan cache line value) s t after
        → Forgery keys t.oram.port.tap.log
        ⊎ (StandsInImage keys levels config whole memory machine marked after (spent 1 t)
        × ((bound : ℕ) → config.time + olat_of config.shape.levels ≤ bound → s.clock ≤ bound → t.clock ≤ bound)) }
    ensures done { (keys : Keys) (levels : ℕ) (config : Config) (whole : Play) (memory : List ℕ) (machine : Machine)
        (cache : Contents) (s : TimedState) → StandsInImage keys levels config whole memory machine [] cache s
        → StandsInRun keys levels config whole 0 config.budget machine cache s }
    ensures stops { (keys : Keys) (levels : ℕ) (config : Config) → AreKeys keys → RequestPlays keys levels config
        → RequestStops keys levels config → (whole : Play) (memory : List ℕ) (machine : Machine) (line : ℕ)
        (marked : List ℕ) (value : Line) (cache left : Contents) (s t : TimedState) (stop : Stop)
        → line < keys.shape.lines → length (value.0) ≡ 64 → CanAsk levels keys.shape.lines s
        → StandsInImage keys levels config whole memory machine (line ∷ marked) cache s
        → Stops (TimedStep keys levels keys.shape.lines) (write_line_plan cache line value) s t stop left
        → Forgery keys t.oram.port.tap.log
        ⊎ StopShows levels config whole (numbers_of 0 s.clock t.fetches) stop t.oram.port }
{}

/// Where a run stands in a whole play before an instruction, the real cache's requests take the slots of the play's
/// instruction, and the core comes to its machine and ending: the run stands before the next one at the end of the
/// cost, or ends with the exit or the trap. A request that is stopped shows the play cut by the stop, or its end where
/// no time is left. Where no time or no instruction is left the run ends so.
pub fn instructions_stand_in_the_play()
    ensures ends { (keys : Keys) (levels : ℕ) (config : Config) → AreKeys keys → RequestPlays keys levels config
        → (machine : Machine) → IsCore machine.core → machine.core.size ≡ 64 * keys.shape.lines → (whole : Play)
        (before left : ℕ) (cache after : Contents) (s t : TimedState) (end : Machine × Done) → s.clock < config.time
        → StandsInRun keys levels config whole before (suc left) machine cache s
        → Ends (TimedStep keys levels keys.shape.lines)
        (through (cache_access machine.core.base) (step_plan machine) cache) s t (after, end)
        → Forgery keys t.oram.port.tap.log
        ⊎ (InstructionLeaves keys levels config whole before left s.clock (end.0) after (spent (end.1).cost t)
        (end.1).ended
        × ((bound : ℕ) → config.time + olat_of config.shape.levels ≤ bound → s.clock ≤ bound → t.clock ≤ bound)
        × ((end.1).cost ≤ 34 + machine.core.size)) }
    ensures stops { (keys : Keys) (levels : ℕ) (config : Config) → AreKeys keys → RequestPlays keys levels config
        → RequestStops keys levels config → (machine : Machine) → IsCore machine.core
        → machine.core.size ≡ 64 * keys.shape.lines → (whole : Play) (before more : ℕ) (cache : Contents)
        (s t : TimedState) (stop : Stop) (left : Contents × Machine) → s.clock < config.time
        → CanAsk levels keys.shape.lines s → StandsInRun keys levels config whole before (suc more) machine cache s
        → Stops (TimedStep keys levels keys.shape.lines)
        (through (cache_access machine.core.base) (step_plan machine) cache) s t stop left
        → Forgery keys t.oram.port.tap.log
        ⊎ StopShows levels config whole (numbers_of before s.clock t.fetches) stop t.oram.port }
    ensures time { (keys : Keys) (levels : ℕ) (config : Config) (whole : Play) (before left : ℕ) (machine : Machine)
        (cache : Contents) (s : TimedState) → config.time ≤ s.clock
        → StandsInRun keys levels config whole before (suc left) machine cache s
        → EndsIn keys levels config whole (TimeUp s.clock) (numbers_of before s.clock s.fetches) config.time s.oram }
    ensures budget { (keys : Keys) (levels : ℕ) (config : Config) (whole : Play) (before : ℕ) (machine : Machine)
        (cache : Contents) (s : TimedState) → StandsInRun keys levels config whole before 0 machine cache s
        → EndsIn keys levels config whole Budget (numbers_of before s.clock s.fetches) (min s.clock config.time)
        s.oram }
{}

/// Where no more instructions come, the slots up to the end pass and the log shows the whole play; or one of them is
/// stopped, and it shows the play cut by the stop. What a run shows of a play is its report: as many slots, choices and
/// the code as the log counts.
pub fn ends_show_the_play()
    ensures waits { (keys : Keys) (levels : ℕ) (config : Config) → WaitPlays keys levels config → (whole : Play)
        (ending : PlayEnding) (numbers : Numbers) (until : ℕ) (old new : OramState) (told : Told)
        → EndsIn keys levels config whole ending numbers until old
        → OramStep keys levels old (Wait until) (Ok told) new
        → Forgery keys new.port.tap.log ⊎ RunShows levels whole ending numbers told.end new.port.tap.log }
    ensures stops { (keys : Keys) (levels : ℕ) (config : Config) → WaitStops keys levels config → (whole : Play)
        (ending : PlayEnding) (numbers : Numbers) (until : ℕ) (old new : OramState) (stop : Stop)
        → EndsIn keys levels config whole ending numbers until old → old.stop ≡ None
        → OramStep keys levels old (Wait until) (Err stop) new
        → Forgery keys new.port.tap.log ⊎ StopShows levels config whole numbers stop new.port }
    ensures reports { (config : Config) (whole : Play) (ending : PlayEnding) (numbers : Numbers) (last : ℕ)
        (log : LogLists) → RunShows config.shape.levels whole ending numbers last log
        → IsPlayed config whole (shown_report (public_of config) ending numbers last log) log }
{}

/// A run that is played and ends by no stop of its memory's is the whole play: its report is the play's, and the log's
/// events are those of its slots, one by one.
pub fn own_ends_show_the_whole_play()
    ensures { (config : Config) (whole : Play) (report : PlayReport) (log : LogLists)
        → IsPlayed config whole report log → IsOwn report.ending → IsWholePlay config whole report log }
{}
