//! Laws of chains of a store's steps below a core and a cache. The calls do nothing. A machine that runs instruction by
//! instruction, as by `data_cache::step_cached`, joins them by `fed_runs_go_on`.
//!
//! What is asked of single steps is asked of those from where the store's `holds` alone. `noted` is a list in which
//! such a step notes the line that a fetch is answered with, and nothing else.

ghost use Rattle.std.specs.Prelude.{◌≡◌, ◌⊎◌, ℕ, ◌*◌, ◌<◌, List, [], ◌++◌, Some, Ok, Err, All, length, replicate};
ghost use Rattle.request_plan.specs.Plan.{Ends, Stops, through, Alike};
ghost use Rattle.request_plan.specs.Laws.{AnswersKeep, Within, NotesAnswers, StopsUnnoted};
ghost use Rattle.rv32_core.specs.FlatMachine.{flat_step};
ghost use Rattle.rv32_core.specs.FlatRun.{flat_run};
ghost use Rattle.rv32_core.specs.LineList.{WholeWrite};
ghost use Rattle.rv32_core.specs.Machine.{Machine, IsCore};
ghost use Rattle.rv32_core.specs.RunPlan.{RunEnd, run_plan};
ghost use Rattle.rv32_core.specs.StepPlan.{step_plan};
ghost use Rattle.rv32_core.specs.declared.outcome.Done.{Done};
ghost use Rattle.data_cache.specs.Lines.{IsLineAnswer};
ghost use Rattle.data_cache.specs.CacheLists.{Sets, Lines, no_lines, sets_after, line_in};
ghost use Rattle.data_cache.specs.Contents.{Contents, write_line_plan};
ghost use Rattle.data_cache.specs.Standing.{StandFor};
ghost use Rattle.data_cache.specs.Cached.{cache_access, lists_access, StandsAs, StandsLeft};
ghost use Rattle.fed_run.specs.Fed.{Ends as EndsAs, Starves, NotedLine, NoneLeft, fed_step, fed_run};
ghost use Rattle.fed_run.specs.Answered.{line_source, AreLines, Beside, feed_of};
ghost use Rattle.fed_run.specs.Whole.{cache_run, lists_run, fed};

use data_cache::LineStore;

/// A store with something that its answers keep, as that it isn't stopped. A stop may break it.
pub trait KeptStore: LineStore {
    /// It holds.
    ghost holds: { Self → Type 0 };
}

/// An image line that is written whole into a cache, with its bytes of the list of bytes, notes no line, also where it
/// is stopped. The list of bytes then stands for the cache as before, and the lists after this use of the line.
pub fn image_line_is_fed<S: KeptStore>()
    ensures ends { (count ways line : ℕ) (memory : List ℕ) → line < count → length memory ≡ 64 * count
        → AnswersKeep S.step S.holds → (noted : S → List NotedLine)
        → NotesAnswers (Within S.holds S.step) line_source noted
        → (old new : S) (cache after : Contents) (sets : Sets) → S.holds old
        → StandsAs count ways cache (record { memory = memory; sets = sets })
        → Ends S.step (write_line_plan cache line (record { 0 = line_in memory line })) old new after
        → (noted new ≡ noted old) × S.holds new
        × StandsAs count ways after (record {
          memory = memory;
          sets = sets_after ways sets (record { line = line; kind = WholeWrite });
        }) }
    ensures stops { (count ways line : ℕ) (memory : List ℕ) → line < count → length memory ≡ 64 * count
        → AnswersKeep S.step S.holds → (noted : S → List NotedLine)
        → NotesAnswers (Within S.holds S.step) line_source noted → StopsUnnoted (Within S.holds S.step) noted
        → (old new : S) (cache left : Contents) (sets : Sets) (stop : S.Stop) → S.holds old
        → StandsAs count ways cache (record { memory = memory; sets = sets })
        → Stops S.step (write_line_plan cache line (record { 0 = line_in memory line })) old new stop left
        → noted new ≡ noted old }
{}

/// An instruction of a core over a cache, whatever its store answers, asks as the cache's lists do. Where it is a chain
/// of steps of a store that notes the lines which it answers, it is the instruction of the machine that is fed with
/// exactly these lines, each for its fetch, in order: the machine, the answer, and the lists and the list of bytes that
/// stand for the cache then. Where it is stopped, the machine that is fed with the lines noted until then starves.
pub fn instruction_is_fed<S: KeptStore>()
    ensures asks { (count ways : ℕ) (machine : Machine) → IsCore machine.core → machine.core.size ≡ 64 * count
        → (cache : Contents) (lists : Lines) → StandsAs count ways cache lists
        → Alike IsLineAnswer
        (λ (left : Contents × Machine) (c : Sets × Machine). StandsLeft count (left.0) (c.0) × (left.1 ≡ c.1))
        (λ (a : Contents × (Machine × Done)) (d : Lines × (Machine × Done)).
        StandsAs count ways (a.0) (d.0) × (a.1 ≡ d.1))
        (through (cache_access machine.core.base) (step_plan machine) cache)
        (through (lists_access machine.core.base ways) (step_plan machine) lists) }
    ensures ends { (count ways : ℕ) (machine : Machine) → IsCore machine.core → machine.core.size ≡ 64 * count
        → AnswersKeep S.step S.holds → (noted : S → List NotedLine)
        → NotesAnswers (Within S.holds S.step) line_source noted
        → (old new : S) (cache after : Contents) (lists : Lines) (end : Machine × Done) → S.holds old
        → StandsAs count ways cache lists
        → Ends S.step (through (cache_access machine.core.base) (step_plan machine) cache) old new (after, end)
        → (lines : List NotedLine) × (now : Lines) × (noted new ≡ noted old ++ lines) × AreLines lines × S.holds new
        × StandsAs count ways after now
        × ((more : List NotedLine) → AreLines more
        → fed_step ways machine (feed_of lists (lines ++ more))
        ≡ Ok (record { machine = end.0; feed = feed_of now more; done = end.1 })) }
    ensures stops { (count ways : ℕ) (machine : Machine) → IsCore machine.core → machine.core.size ≡ 64 * count
        → AnswersKeep S.step S.holds → (noted : S → List NotedLine)
        → NotesAnswers (Within S.holds S.step) line_source noted → StopsUnnoted (Within S.holds S.step) noted
        → (old new : S) (cache : Contents) (lists : Lines) (stop : S.Stop) (left : Contents × Machine) → S.holds old
        → StandsAs count ways cache lists
        → Stops S.step (through (cache_access machine.core.base) (step_plan machine) cache) old new stop left
        → (lines : List NotedLine) × (noted new ≡ noted old ++ lines) × AreLines lines
        × (fed_step ways machine (feed_of lists lines) ≡ Err NoneLeft) }
    ensures keeps { (base : ℕ) (machine : Machine) → IsCore machine.core
        → (old new : S) (cache after : Contents) (end : Machine × Done)
        → Ends S.step (through (cache_access base) (step_plan machine) cache) old new (after, end)
        → IsCore ((end.0).core)
        × ((end.0).core.base ≡ machine.core.base) × ((end.0).core.size ≡ machine.core.size) }
{}

/// A run of at most n instructions over a cache, by such a chain, is the run of the machine that is fed with exactly
/// the lines that were noted: as many instructions, the machine, and the ending. Where it is stopped, the machine that
/// is fed with the lines noted until then finishes the same instructions, starves in the next one, and uses them all.
/// The lines are noted in the store's own list, or, in the last two, in one beside it.
pub fn run_is_fed<S: KeptStore>()
    ensures asks { (count ways n : ℕ) (machine : Machine) → IsCore machine.core → machine.core.size ≡ 64 * count
        → (cache : Contents) (lists : Lines) → StandsAs count ways cache lists
        → Alike IsLineAnswer
        (λ (left : Contents × (ℕ × Machine)) (c : Sets × (ℕ × Machine)).
        StandsLeft count (left.0) (c.0) × (left.1 ≡ c.1))
        (λ (a : Contents × RunEnd) (d : Lines × RunEnd). StandsAs count ways (a.0) (d.0) × (a.1 ≡ d.1))
        (through (cache_access machine.core.base) (run_plan n 0 machine) cache)
        (through (lists_access machine.core.base ways) (run_plan n 0 machine) lists) }
    ensures ends { (count ways n : ℕ) (machine : Machine) → IsCore machine.core → machine.core.size ≡ 64 * count
        → AnswersKeep S.step S.holds → (noted : S → List NotedLine)
        → NotesAnswers (Within S.holds S.step) line_source noted
        → (old new : S) (cache after : Contents) (lists : Lines) (end : RunEnd) → S.holds old
        → StandsAs count ways cache lists
        → Ends S.step (through (cache_access machine.core.base) (run_plan n 0 machine) cache) old new (after, end)
        → (lines : List NotedLine) × (now : Lines) × (noted new ≡ noted old ++ lines) × AreLines lines × S.holds new
        × StandsAs count ways after now
        × ((more : List NotedLine) → AreLines more
        → fed_run ways n machine (feed_of lists (lines ++ more))
        ≡ record {
          instructions = end.instructions;
          machine = end.machine;
          feed = feed_of now more;
          ending = EndsAs end.ending;
        }) }
    ensures stops { (count ways n : ℕ) (machine : Machine) → IsCore machine.core → machine.core.size ≡ 64 * count
        → AnswersKeep S.step S.holds → (noted : S → List NotedLine)
        → NotesAnswers (Within S.holds S.step) line_source noted → StopsUnnoted (Within S.holds S.step) noted
        → (old new : S) (cache : Contents) (lists : Lines) (stop : S.Stop) (left : Contents × (ℕ × Machine))
        → S.holds old
        → StandsAs count ways cache lists
        → Stops S.step (through (cache_access machine.core.base) (run_plan n 0 machine) cache) old new stop left
        → (lines : List NotedLine) × (noted new ≡ noted old ++ lines) × AreLines lines
        × (let run = fed_run ways n machine (feed_of lists lines) in
        (run.instructions ≡ (left.1).0) × (run.machine ≡ (left.1).1) × (run.feed.left ≡ [])
        × (run.ending ≡ Starves)) }
    ensures answered { (count ways n : ℕ) (machine : Machine) → IsCore machine.core → machine.core.size ≡ 64 * count
        → (old new : S) (cache after : Contents) (lists : Lines) (end : RunEnd) → StandsAs count ways cache lists
        → Ends S.step (through (cache_access machine.core.base) (run_plan n 0 machine) cache) old new (after, end)
        → (lines : List NotedLine) × (now : Lines)
        × Ends (Beside S.step) (through (cache_access machine.core.base) (run_plan n 0 machine) cache) (old, [])
        (new, lines) (after, end)
        × AreLines lines × StandsAs count ways after now
        × ((more : List NotedLine) → AreLines more
        → fed_run ways n machine (feed_of lists (lines ++ more))
        ≡ record {
          instructions = end.instructions;
          machine = end.machine;
          feed = feed_of now more;
          ending = EndsAs end.ending;
        }) }
    ensures answered_stop { (count ways n : ℕ) (machine : Machine) → IsCore machine.core
        → machine.core.size ≡ 64 * count
        → (old new : S) (cache : Contents) (lists : Lines) (stop : S.Stop) (left : Contents × (ℕ × Machine))
        → StandsAs count ways cache lists
        → Stops S.step (through (cache_access machine.core.base) (run_plan n 0 machine) cache) old new stop left
        → (lines : List NotedLine)
        × Stops (Beside S.step) (through (cache_access machine.core.base) (run_plan n 0 machine) cache) (old, [])
        (new, lines) stop left
        × AreLines lines
        × (let run = fed_run ways n machine (feed_of lists lines) in
        (run.instructions ≡ (left.1).0) × (run.machine ≡ (left.1).1) × (run.feed.left ≡ [])
        × (run.ending ≡ Starves)) }
{}

/// A whole run over a cache that is empty at its start: the image lines, in their order, are written whole into it, and
/// the instructions follow, in one plan. It asks as the cache's lists do, and by such a chain it is the run of the
/// machine that is fed with exactly the lines that were noted. Where it is stopped, that was in the image lines, before
/// which no line was noted; or in an instruction, for which the machine that is fed starves.
pub fn whole_run_is_fed<S: KeptStore>()
    ensures asks { (count ways sets n : ℕ) (image marked : List ℕ) (machine : Machine) → 0 < sets → 0 < ways
        → All (λ line. line < count) marked → length image ≡ 64 * count
        → IsCore machine.core → machine.core.size ≡ 64 * count
        → Alike IsLineAnswer
        (λ (left : Contents × (ℕ × Machine)) (c : Sets × (ℕ × Machine)).
        StandsLeft count (left.0) (c.0) × (left.1 ≡ c.1))
        (λ (a : Contents × RunEnd) (d : Lines × RunEnd). StandsAs count ways (a.0) (d.0) × (a.1 ≡ d.1))
        (cache_run image marked n machine (record { ways = ways; sets = replicate sets [] }))
        (lists_run ways marked n machine (record { memory = image; sets = no_lines sets })) }
    ensures ends { (count ways sets n : ℕ) (image marked : List ℕ) (machine : Machine) → 0 < sets → 0 < ways
        → All (λ line. line < count) marked → length image ≡ 64 * count
        → IsCore machine.core → machine.core.size ≡ 64 * count
        → AnswersKeep S.step S.holds → (noted : S → List NotedLine)
        → NotesAnswers (Within S.holds S.step) line_source noted
        → (old new : S) (after : Contents) (end : RunEnd) → S.holds old
        → Ends S.step (cache_run image marked n machine (record { ways = ways; sets = replicate sets [] })) old new
        (after, end)
        → (lines : List NotedLine) × (now : Lines) × (noted new ≡ noted old ++ lines) × AreLines lines × S.holds new
        × StandsAs count ways after now
        × ((more : List NotedLine) → AreLines more
        → fed ways sets image marked n machine (lines ++ more)
        ≡ record {
          instructions = end.instructions;
          machine = end.machine;
          feed = feed_of now more;
          ending = EndsAs end.ending;
        }) }
    ensures stops { (count ways sets n : ℕ) (image marked : List ℕ) (machine : Machine) → 0 < sets → 0 < ways
        → All (λ line. line < count) marked → length image ≡ 64 * count
        → IsCore machine.core → machine.core.size ≡ 64 * count
        → AnswersKeep S.step S.holds → (noted : S → List NotedLine)
        → NotesAnswers (Within S.holds S.step) line_source noted → StopsUnnoted (Within S.holds S.step) noted
        → (old new : S) (stop : S.Stop) (left : Contents × (ℕ × Machine)) → S.holds old
        → Stops S.step (cache_run image marked n machine (record { ways = ways; sets = replicate sets [] })) old new
        stop left
        → ((noted new ≡ noted old) × (left.1 ≡ (0, machine)))
        ⊎ ((lines : List NotedLine) × (noted new ≡ noted old ++ lines) × AreLines lines
        × (let run = fed ways sets image marked n machine lines in
        (run.instructions ≡ (left.1).0) × (run.machine ≡ (left.1).1) × (run.feed.left ≡ [])
        × (run.ending ≡ Starves))) }
{}

/// Over a store whose lines are told after an instruction or a run, where cache and store stood for a list of bytes
/// before it, it is the flat machine's instruction, or the flat run, on that list; and they stand for its bytes then.
pub fn told_run_is_flat<S: LineStore>()
    ensures instruction { (count : ℕ) (machine : Machine) → IsCore machine.core → machine.core.size ≡ 64 * count
        → (memory : List ℕ) (old new : S) (cache after : Contents) (end : Machine × Done) → S.lines old ≡ count
        → ((list : List (List ℕ)) → S.told old ≡ Some list → StandFor cache list memory)
        → Ends S.step (through (cache_access machine.core.base) (step_plan machine) cache) old new (after, end)
        → (list : List (List ℕ)) → S.told new ≡ Some list
        → (now : List ℕ) × (flat_step machine memory ≡ record { machine = end.0; memory = now; done = end.1 })
        × StandFor after list now }
    ensures run { (count : ℕ) (machine : Machine) → IsCore machine.core → machine.core.size ≡ 64 * count
        → (n : ℕ) (memory : List ℕ) (old new : S) (cache after : Contents) (end : RunEnd) → S.lines old ≡ count
        → ((list : List (List ℕ)) → S.told old ≡ Some list → StandFor cache list memory)
        → Ends S.step (through (cache_access machine.core.base) (run_plan n 0 machine) cache) old new (after, end)
        → (list : List (List ℕ)) → S.told new ≡ Some list
        → let run = flat_run n machine memory in
        (run.instructions ≡ end.instructions) × (run.machine ≡ end.machine) × (run.ending ≡ end.ending)
        × StandFor after list run.memory }
{}
