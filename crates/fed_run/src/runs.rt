//! Laws of the machine that is fed. The calls do nothing.

ghost use Rattle.std.specs.Prelude.{◌≡◌, ℕ, suc, ◌+◌, ◌≤◌, List, ◌++◌};
ghost use Rattle.rv32_core.specs.FlatRun.{FlatEnding, Budget};
ghost use Rattle.rv32_core.specs.Machine.{Machine};
ghost use Rattle.fed_run.specs.Fed.{Feed, NotedLine, Ends, fed_step, fed_from, fed_run, fed_gone_on, IsDone, with_more};
ghost use Rattle.fed_run.specs.Fed.{run_with_more};

/// A run that is fed is its first instruction and the run from there, and n instructions and then k more are n + k:
/// where all n finished it goes on from there, and one that ended, starved or refused a line stays as it is. Never more
/// than n finish; and the run of as many instructions as a run finished is done with them, and leaves its machine.
pub fn fed_runs_go_on()
    ensures none { (ways : ℕ) (machine : Machine) (feed : Feed)
        → fed_run ways 0 machine feed
        ≡ record { instructions = 0; machine = machine; feed = feed; ending = Ends Budget } }
    ensures first { (ways n : ℕ) (machine : Machine) (feed : Feed)
        → fed_run ways (suc n) machine feed
        ≡ fed_from (fed_run ways n) machine feed (fed_step ways machine feed) }
    ensures parts { (ways n more : ℕ) (machine : Machine) (feed : Feed)
        → fed_run ways (n + more) machine feed ≡ fed_gone_on ways more (fed_run ways n machine feed) }
    ensures at_most { (ways n : ℕ) (machine : Machine) (feed : Feed) → (fed_run ways n machine feed).instructions ≤ n }
    ensures finished { (ways n : ℕ) (machine : Machine) (feed : Feed) → let run = fed_run ways n machine feed in
        let same = fed_run ways run.instructions machine feed in
        (same.instructions ≡ run.instructions) × (same.machine ≡ run.machine) × IsDone same.ending }
{}

/// Fed with fewer lines is the beginning of Fed with more: a run that ended ends so, and leaves the others; the
/// instructions that finished finish, and leave the same machine; and the output begins with that of fewer lines.
pub fn more_lines_go_on()
    ensures ended { (ways n : ℕ) (machine : Machine) (feed : Feed) (more : List NotedLine) (ending : FlatEnding)
        → (fed_run ways n machine feed).ending ≡ Ends ending
        → fed_run ways n machine (with_more more feed) ≡ run_with_more more (fed_run ways n machine feed) }
    ensures finished { (ways n : ℕ) (machine : Machine) (feed : Feed) (more : List NotedLine)
        → let run = fed_run ways n machine feed in
        let same = fed_run ways run.instructions machine (with_more more feed) in
        (same.instructions ≡ run.instructions) × (same.machine ≡ run.machine) }
    ensures output { (ways n : ℕ) (machine : Machine) (feed : Feed) (more : List NotedLine) → (rest : List ℕ)
        × ((fed_run ways n machine (with_more more feed)).machine.files.output
        ≡ (fed_run ways n machine feed).machine.files.output ++ rest) }
{}
