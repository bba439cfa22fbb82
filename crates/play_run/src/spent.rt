//! Laws of what the clock of a run is made of. The functions do nothing: each states laws in its contract.

ghost use Rattle.std.specs.Prelude.{◌≡◌, ◌≤◌, ◌+◌, ℕ, suc, max, List, [], ◌∷◌, None, Some, Result, Ok, Err, replicate};
ghost use Rattle.asc_base.specs.TreeShape.{olat_of};
ghost use Rattle.asc_base.specs.declared.block.Leaf.{Leaf};
ghost use Rattle.asc_base.specs.declared.block.Point.{Point};
ghost use Rattle.asc_base.specs.declared.settings.Config.{Config};
ghost use Rattle.asc_base.specs.declared.stop.Stop.{Stop};
ghost use Rattle.bus_watch.specs.declared.log.Event.TheVariants.{Access, Drawn, Chosen};
ghost use Rattle.data_cache.specs.Lines.{LineRequest};
ghost use Rattle.fed_run.specs.Fed.{Feed, FedStep, Unfed, Ends as EndsAs, fed_step, fed_run, numbered};
ghost use Rattle.fed_run.specs.Fed.{over_image_line, program_line};
ghost use Rattle.oram_contents.specs.Entries.{Keys};
ghost use Rattle.oram_frontend.specs.Oram.{OramState, OramStep, Told, Wait};
ghost use Rattle.oram_frontend.specs.Slots.{FitKeys};
ghost use Rattle.oram_lines.specs.Lines.{IsNew};
ghost use Rattle.play_run.specs.Spent.{waits, fed_cost, IsSpent, SpentAtStop};
ghost use Rattle.play_run.specs.Stands.{spent};
ghost use Rattle.play_run.specs.Timed.{TimedState, TimedStep, CanAsk};
ghost use Rattle.request_plan.specs.Plan.{Plan, Ends, Stops};
ghost use Rattle.rv32_core.specs.FlatRun.{Budget, machine_at_start, output_limit};
ghost use Rattle.rv32_core.specs.Machine.{Machine};
ghost use Rattle.rv32_core.specs.declared.outcome.Ended.TheVariants.{No, Exit, Trap};
ghost use Rattle.rv32_core.specs.declared.outcome.TrapKind.{TrapKind};

/// The clock of an encrypted memory is the costs that were spent and what was waited for its slots: for each that was
/// asked for, its end less the time for which it was asked. So it begins, so a plan of requests that are answered
/// leaves it, and so does a cost; and no request takes the clock back, nor further than a slot's cycles after the time
/// of the settings. Where a plan is stopped, the clock before it is no more than that by the log then; and where no
/// time is left, the slot that came too late starts less than a slot's cycles and the greatest rate after that. A wait
/// adds nothing, also where it is stopped, since nobody waits for a dummy. All of this holds whatever the memory
/// replies.
pub fn cycles_are_spent<A, B>()
    ensures start { (keys : Keys) (levels : ℕ) (config : Config) (s : TimedState) → IsNew keys config levels s.oram
        → s.clock ≡ 0 → IsSpent levels 0 s }
    ensures ends { (keys : Keys) (levels count costs : ℕ) (plan : Plan LineRequest (List ℕ) B A) (s t : TimedState)
        (outcome : A) → FitKeys keys s.oram.port → CanAsk levels count s → IsSpent levels costs s
        → Ends (TimedStep keys levels count) plan s t outcome → IsSpent levels costs t }
    ensures onward { (keys : Keys) (levels count costs : ℕ) (plan : Plan LineRequest (List ℕ) B A) (s t : TimedState)
        (outcome : A) → FitKeys keys s.oram.port → CanAsk levels count s → IsSpent levels costs s
        → Ends (TimedStep keys levels count) plan s t outcome → s.clock ≤ t.clock }
    ensures soon { (keys : Keys) (levels count costs : ℕ) (plan : Plan LineRequest (List ℕ) B A) (s t : TimedState)
        (outcome : A) → FitKeys keys s.oram.port → CanAsk levels count s → IsSpent levels costs s
        → Ends (TimedStep keys levels count) plan s t outcome → let config = s.oram.port.clock.config in
        t.clock ≤ max s.clock (config.time + olat_of config.shape.levels) }
    ensures stops { (keys : Keys) (levels count costs : ℕ) (plan : Plan LineRequest (List ℕ) B A) (s t : TimedState)
        (stop : Stop) (left : B) → FitKeys keys s.oram.port → CanAsk levels count s → IsSpent levels costs s
        → Stops (TimedStep keys levels count) plan s t stop left
        → SpentAtStop s.oram.port.clock.config levels costs s.clock stop t.oram.port }
    ensures cost { (levels costs cost : ℕ) (s : TimedState) → IsSpent levels costs s
        → IsSpent levels (costs + cost) (spent cost s) }
    ensures waits { (keys : Keys) (levels until : ℕ) (old new : OramState) (answer : Result Told Stop)
        → OramStep keys levels old (Wait until) answer new
        → waits levels new.port.tap.log ≡ waits levels old.port.tap.log }
{}

/// The cost of the instructions that finish is that of the first and of those behind it: an exit is the last, and a
/// trap costs nothing, nor does an instruction that isn't fed. Where the first m of them finished and the machine goes
/// on, the cost of m + n is theirs and that of n from there; and else no other finishes.
pub fn finished_costs_go_on()
    ensures none { (ways : ℕ) (machine : Machine) (feed : Feed) → fed_cost ways 0 machine feed ≡ 0 }
    ensures goes_on { (ways n : ℕ) (machine : Machine) (feed : Feed) (step : FedStep)
        → fed_step ways machine feed ≡ Ok step → step.done.ended ≡ No
        → fed_cost ways (suc n) machine feed ≡ step.done.cost + fed_cost ways n step.machine step.feed }
    ensures exits { (ways n status : ℕ) (machine : Machine) (feed : Feed) (step : FedStep)
        → fed_step ways machine feed ≡ Ok step → step.done.ended ≡ Exit status
        → fed_cost ways (suc n) machine feed ≡ step.done.cost }
    ensures traps { (ways n : ℕ) (kind : TrapKind) (pc : ℕ) (machine : Machine) (feed : Feed) (step : FedStep)
        → fed_step ways machine feed ≡ Ok step → step.done.ended ≡ Trap kind pc
        → fed_cost ways (suc n) machine feed ≡ 0 }
    ensures starves { (ways n : ℕ) (why : Unfed) (machine : Machine) (feed : Feed)
        → fed_step ways machine feed ≡ Err why
        → fed_cost ways (suc n) machine feed ≡ 0 }
    ensures parts { (ways m n : ℕ) (machine : Machine) (feed : Feed) → let run = fed_run ways m machine feed in
        run.ending ≡ EndsAs Budget
        → fed_cost ways (m + n) machine feed ≡ fed_cost ways m machine feed + fed_cost ways n run.machine run.feed }
    ensures ended { (ways m n : ℕ) (machine : Machine) (feed : Feed)
        → ((fed_run ways m machine feed).ending ≡ EndsAs Budget → ⊥)
        → fed_cost ways (m + n) machine feed ≡ fed_cost ways m machine feed }
{}

/// Worked rows. Of two slots of 176 cycles, a dummy's from 128 on and one from 368 on that was asked for at 130, the
/// second is waited for from 130 to 544. A load costs 2 cycles, an addition 1 and an exit 10, where the load is fed
/// with its line and the addition with the program's again; with the load's line alone the addition starves.
pub fn worked_costs_and_waits()
    ensures waits { (one two : Point) (first second : Leaf) → waits 1 (record {
      moves = [];
      events = Access 128 None ∷ Drawn one first ∷ Chosen 0 ∷ Access 368 (Some 130) ∷ Drawn two second ∷ [];
      altered = [];
    }) ≡ 414 }
    ensures exits { fed_cost 1 9 (machine_at_start 0 0 128 0 [] output_limit)
        (over_image_line (numbered 1 (replicate 64 7) ∷ numbered 0 program_line ∷ [])) ≡ 13 }
    ensures starves { fed_cost 1 9 (machine_at_start 0 0 128 0 [] output_limit)
        (over_image_line (numbered 1 (replicate 64 7) ∷ [])) ≡ 2 }
{}
