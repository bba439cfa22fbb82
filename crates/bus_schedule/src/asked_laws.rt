//! Laws of the slots that serve what was asked for. The functions do nothing: each states a law in its contract.

ghost use Rattle.std.specs.Prelude.{◌≡◌, ℕ, ◌+◌, ◌<◌, ◌≤◌, None, Some, List, [], ◌∷◌, ◌++◌};
ghost use Rattle.asc_base.specs.TreeShape.{olat_of};
ghost use Rattle.bus_watch.specs.declared.log.Event.{Event};
ghost use Rattle.bus_watch.specs.declared.log.Event.TheVariants.{Access};
ghost use Rattle.bus_watch.specs.Log.{LogLists};
ghost use Rattle.bus_schedule.specs.Timetable.{Public, start_at, end_at, first_from};
ghost use Rattle.bus_schedule.specs.Shown.{starts_of};
ghost use Rattle.bus_schedule.specs.Asked.{IsFirstFrom, ServesPromptly};
ghost use Rattle.bus_schedule.specs.Scheduled.{log_code, IsScheduled, Between};
ghost use Rattle.bus_schedule.specs.Rows.{first_slot_log};

/// Every real slot of a log is the first that starts at or after the time at which it was asked for: so it is of a log
/// without events, with events more that are no start, with a dummy more, and with a real slot more that is the first
/// from its time on. Of such a log it is so of each real slot, and where the log is scheduled, that slot starts at the
/// first start of the log's code that isn't before the time at which it was asked for.
pub fn slots_serve_promptly()
    ensures empty { ServesPromptly [] }
    ensures kept { (events more : List Event) → starts_of more ≡ [] → ServesPromptly events
        → ServesPromptly (events ++ more) }
    ensures dummy { (events : List Event) (start : ℕ) → ServesPromptly events
        → ServesPromptly (events ++ Access start None ∷ []) }
    ensures real { (events : List Event) (start asked : ℕ) → ServesPromptly events
        → IsFirstFrom asked (starts_of events) start → ServesPromptly (events ++ Access start (Some asked) ∷ []) }
    ensures each { (before after : List Event) (start asked : ℕ)
        → ServesPromptly (before ++ Access start (Some asked) ∷ after) → IsFirstFrom asked (starts_of before) start }
    ensures scheduled { (p : Public) (end start asked : ℕ) (before after : List Event) (log : LogLists)
        → IsScheduled p end log → ServesPromptly log.events
        → log.events ≡ before ++ Access start (Some asked) ∷ after → start ≡ first_from p (log_code p log) asked }
{}

/// Between two slots the next one is the first that starts at or after a time, where it doesn't start before it and the
/// last one ended less than a slot's cycles after it, so that it started before it.
pub fn next_slot_is_first()
    ensures { (p : Public) (n time : ℕ) (log : LogLists) → Between p n log
        → time ≤ start_at p (log_code p log) n → end_at p (log_code p log) n < time + olat_of p.levels
        → IsFirstFrom time (starts_of log.events) (start_at p (log_code p log) n) }
{}

/// After a slot from 128 on, one that was asked for at 129 may start at 432; one that was asked for at 128 may not,
/// since the slot at 128 was the first from there on, and neither may one that was asked for at 433.
pub fn asked_rows()
    ensures served { ServesPromptly ((first_slot_log []).events ++ Access 432 (Some 129) ∷ []) }
    ensures passed_by { ServesPromptly ((first_slot_log []).events ++ Access 432 (Some 128) ∷ []) → ⊥ }
    ensures too_soon { ServesPromptly ((first_slot_log []).events ++ Access 432 (Some 433) ∷ []) → ⊥ }
{}
