//! What a core over a cache over an encrypted memory computes: what the flat machine does, or the log shows a forgery.
//!
//! The crate has laws alone; the calls do nothing.
#![tactic(auto)]

ghost use Rattle.std.specs.Prelude.{◌≡◌, ◌<◌, ◌+◌, ◌*◌, ◌⊎◌, ℕ, List, [], All, None, Ok, Err, length, replicate};
ghost use Rattle.asc_base.specs.Has.{Has};
ghost use Rattle.asc_base.specs.Settings.{IsConfig};
ghost use Rattle.asc_base.specs.declared.block.Line.{Line};
ghost use Rattle.asc_base.specs.declared.settings.Config.{Config};
ghost use Rattle.asc_base.specs.declared.stop.Evidence.{Evidence};
ghost use Rattle.asc_base.specs.declared.stop.Stop.{Stop};
ghost use Rattle.asc_base.specs.declared.stop.Stop.TheVariants.{Integrity};
ghost use Rattle.data_cache.specs.Cached.{cache_access};
ghost use Rattle.data_cache.specs.CacheLists.{line_in};
ghost use Rattle.data_cache.specs.Contents.{Contents, write_line_plan};
ghost use Rattle.data_cache.specs.Lines.{LineRequest};
ghost use Rattle.encrypted_run.specs.Refined.{OramLine, Computes, IsPrefix, empty_cache, loaded};
ghost use Rattle.fed_run.specs.Whole.{cache_image, cache_run};
ghost use Rattle.oram_contents.specs.Counts.{zero_line};
ghost use Rattle.oram_contents.specs.Entries.{Keys, AreKeys};
ghost use Rattle.oram_contents.specs.Forgery.{Forgery};
ghost use Rattle.oram_frontend.specs.Oram.{OramState, OramStep, Wait, Told};
ghost use Rattle.oram_lines.specs.Lines.{IsNew};
ghost use Rattle.request_plan.specs.Plan.{Plan, Ends, Stops, through};
ghost use Rattle.rv32_core.specs.Access.{spliced};
ghost use Rattle.rv32_core.specs.FlatMachine.{flat_step};
ghost use Rattle.rv32_core.specs.FlatRun.{flat_run};
ghost use Rattle.rv32_core.specs.Machine.{Machine, IsCore};
ghost use Rattle.rv32_core.specs.RunPlan.{RunEnd, run_plan};
ghost use Rattle.rv32_core.specs.StepPlan.{step_plan};
ghost use Rattle.rv32_core.specs.declared.outcome.Done.{Done};

/// Where a cache over an encrypted memory stands for a list of bytes, an instruction of a core over it is the flat
/// machine's on that list, a run is the flat run, and a line that is written whole changes its own bytes alone; and
/// they stand for the bytes then. Or the log shows a forgery.
pub fn runs_refine_flat_runs()
    ensures line { (keys : Keys) → AreKeys keys → (levels line : ℕ) (value : Line) → line < keys.shape.lines
        → length value.0 ≡ 64 → (memory : List ℕ) (old new : OramState) (cache after : Contents)
        → Computes keys levels cache memory old
        → Ends (OramLine keys levels) (write_line_plan cache line value) old new after
        → Forgery keys new.port.tap.log ⊎ Computes keys levels after (spliced memory (64 * line) value.0) new }
    ensures instruction { (keys : Keys) → AreKeys keys → (levels : ℕ) (machine : Machine) → IsCore machine.core
        → machine.core.size ≡ 64 * keys.shape.lines
        → (memory : List ℕ) (old new : OramState) (cache after : Contents) (end : Machine × Done)
        → Computes keys levels cache memory old
        → Ends (OramLine keys levels) (through (cache_access machine.core.base) (step_plan machine) cache) old new
        (after, end)
        → Forgery keys new.port.tap.log
        ⊎ ((now : List ℕ) × (flat_step machine memory ≡ record { machine = end.0; memory = now; done = end.1 })
        × Computes keys levels after now new) }
    ensures run { (keys : Keys) → AreKeys keys → (levels : ℕ) (machine : Machine) → IsCore machine.core
        → machine.core.size ≡ 64 * keys.shape.lines
        → (n : ℕ) (memory : List ℕ) (old new : OramState) (cache after : Contents) (end : RunEnd)
        → Computes keys levels cache memory old
        → Ends (OramLine keys levels) (through (cache_access machine.core.base) (run_plan n 0 machine) cache) old new
        (after, end)
        → Forgery keys new.port.tap.log
        ⊎ (let run = flat_run n machine memory in
        (run.instructions ≡ end.instructions) × (run.machine ≡ end.machine) × (run.ending ≡ end.ending)
        × Computes keys levels after run.memory new) }
{}

/// An empty cache over a new encrypted memory stands for zeros. Lines of an image that are written whole through it
/// make the image, where every other line of it is zeros; and dummies change nothing. So a whole run over a new
/// encrypted memory, the image lines first and then so many instructions at most, is the flat run on the image: as many
/// instructions, the machine with its output, the ending and the bytes. Or the log shows a forgery.
pub fn whole_runs_refine_flat_runs()
    ensures start { (keys : Keys) → AreKeys keys → (levels : ℕ) (config : Config) (o : OramState) (sets ways : ℕ)
        → IsConfig config → IsNew keys config levels o → 0 < sets → 0 < ways
        → Computes keys levels (empty_cache sets ways) (replicate (64 * keys.shape.lines) 0) o }
    ensures wait { (keys : Keys) → AreKeys keys → (levels : ℕ) (memory : List ℕ) (cache : Contents)
        (old new : OramState) (time : ℕ) (told : Told) → Computes keys levels cache memory old
        → OramStep keys levels old (Wait time) (Ok told) new
        → Forgery keys new.port.tap.log ⊎ Computes keys levels cache memory new }
    ensures image { (image marked : List ℕ) (count : ℕ) → length image ≡ 64 * count
        → All (λ line. line < count) marked
        → ((k : ℕ) → k < count → Has k marked ⊎ (line_in image k ≡ zero_line))
        → loaded image marked (replicate (64 * count) 0) ≡ image }
    ensures lines { (keys : Keys) → AreKeys keys → (levels : ℕ) (image marked : List ℕ)
        → length image ≡ 64 * keys.shape.lines → All (λ line. line < keys.shape.lines) marked
        → (memory : List ℕ) (old new : OramState) (cache after : Contents) → Computes keys levels cache memory old
        → Ends (OramLine keys levels) (cache_image image marked cache) old new after
        → Forgery keys new.port.tap.log ⊎ Computes keys levels after (loaded image marked memory) new }
    ensures run { (keys : Keys) → AreKeys keys → (levels : ℕ) (config : Config) (image marked : List ℕ)
        (machine : Machine) (sets ways n : ℕ) → IsConfig config → length image ≡ 64 * keys.shape.lines
        → All (λ line. line < keys.shape.lines) marked
        → ((k : ℕ) → k < keys.shape.lines → Has k marked ⊎ (line_in image k ≡ zero_line))
        → IsCore machine.core → machine.core.size ≡ 64 * keys.shape.lines → 0 < sets → 0 < ways
        → (old new : OramState) (after : Contents) (end : RunEnd) → IsNew keys config levels old
        → Ends (OramLine keys levels) (cache_run image marked n machine (empty_cache sets ways)) old new (after, end)
        → Forgery keys new.port.tap.log
        ⊎ (let run = flat_run n machine image in
        (run.instructions ≡ end.instructions) × (run.machine ≡ end.machine) × (run.ending ≡ end.ending)
        × Computes keys levels after run.memory new) }
{}

/// A run that is stopped in a request, for whatever reason: the instructions that it reports as finished finish in the
/// flat run on the image, none of which ends it, and leave the machine that it leaves, output and all. Or the log shows
/// a forgery.
pub fn stopped_runs_are_prefixes()
    ensures run { (keys : Keys) → AreKeys keys → (levels n before base : ℕ) (machine : Machine) (memory : List ℕ)
        (old new : OramState) (cache : Contents) (stop : Stop) (left : Contents × (ℕ × Machine))
        → IsCore machine.core → machine.core.base ≡ base → machine.core.size ≡ 64 * keys.shape.lines
        → Computes keys levels cache memory old
        → Stops (OramLine keys levels) (through (cache_access base) (run_plan n before machine) cache) old new stop left
        → Forgery keys new.port.tap.log
        ⊎ ((k : ℕ) × ((left.1).0 ≡ before + k) × IsPrefix k machine memory ((left.1).1)) }
    ensures whole { (keys : Keys) → AreKeys keys → (levels : ℕ) (config : Config) (image marked : List ℕ)
        (machine : Machine) (sets ways n : ℕ) → IsConfig config → length image ≡ 64 * keys.shape.lines
        → All (λ line. line < keys.shape.lines) marked
        → ((k : ℕ) → k < keys.shape.lines → Has k marked ⊎ (line_in image k ≡ zero_line))
        → IsCore machine.core → machine.core.size ≡ 64 * keys.shape.lines → 0 < sets → 0 < ways
        → (old new : OramState) (stop : Stop) (left : Contents × (ℕ × Machine)) → IsNew keys config levels old
        → Stops (OramLine keys levels) (cache_run image marked n machine (empty_cache sets ways)) old new stop left
        → Forgery keys new.port.tap.log ⊎ IsPrefix ((left.1).0) machine image ((left.1).1) }
    ensures forged { (keys : Keys) → AreKeys keys → (levels : ℕ) (plan : Plan LineRequest (List ℕ) Contents Contents)
        (old new : OramState) (stop : Stop) (left : Contents) → Stops (OramLine keys levels) plan old new stop left
        → Forgery keys old.port.tap.log → Forgery keys new.port.tap.log }
{}

/// Where no reply was altered, and the encrypted memory hasn't stopped before, none of these is stopped by evidence: a
/// line that is written whole, an instruction, a run, a whole run over a new encrypted memory, and dummies up to a
/// time.
pub fn honest_runs_are_not_blamed()
    ensures line { (keys : Keys) → AreKeys keys → (levels line : ℕ) (value : Line) (memory : List ℕ)
        (old new : OramState) (cache left : Contents) (evidence : Evidence) → Computes keys levels cache memory old
        → old.stop ≡ None
        → Stops (OramLine keys levels) (write_line_plan cache line value) old new (Integrity evidence) left
        → new.port.tap.log.altered ≡ [] → ⊥ }
    ensures instruction { (keys : Keys) → AreKeys keys → (levels : ℕ) (machine : Machine) (base : ℕ) (memory : List ℕ)
        (old new : OramState) (cache : Contents) (left : Contents × Machine) (evidence : Evidence)
        → Computes keys levels cache memory old → old.stop ≡ None
        → Stops (OramLine keys levels) (through (cache_access base) (step_plan machine) cache) old new
        (Integrity evidence) left → new.port.tap.log.altered ≡ [] → ⊥ }
    ensures run { (keys : Keys) → AreKeys keys → (levels n before base : ℕ) (machine : Machine) (memory : List ℕ)
        (old new : OramState) (cache : Contents) (left : Contents × (ℕ × Machine)) (evidence : Evidence)
        → Computes keys levels cache memory old → old.stop ≡ None
        → Stops (OramLine keys levels) (through (cache_access base) (run_plan n before machine) cache) old new
        (Integrity evidence) left → new.port.tap.log.altered ≡ [] → ⊥ }
    ensures whole { (keys : Keys) → AreKeys keys → (levels : ℕ) (config : Config) (image marked : List ℕ)
        (machine : Machine) (sets ways n : ℕ) → IsConfig config → 0 < sets → 0 < ways → (old new : OramState)
        (left : Contents × (ℕ × Machine)) (evidence : Evidence) → IsNew keys config levels old → old.stop ≡ None
        → Stops (OramLine keys levels) (cache_run image marked n machine (empty_cache sets ways)) old new
        (Integrity evidence) left → new.port.tap.log.altered ≡ [] → ⊥ }
    ensures wait { (keys : Keys) → AreKeys keys → (levels : ℕ) (memory : List ℕ) (cache : Contents)
        (old new : OramState) (time : ℕ) (evidence : Evidence) → Computes keys levels cache memory old
        → old.stop ≡ None → OramStep keys levels old (Wait time) (Err (Integrity evidence)) new
        → new.port.tap.log.altered ≡ [] → ⊥ }
{}
