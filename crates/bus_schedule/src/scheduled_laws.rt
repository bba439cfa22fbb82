//! Laws of how far a log has come in the schedule. The functions do nothing: each states a law in its contract.

ghost use Rattle.std.specs.Prelude.{◌≡◌, ℕ, suc, ◌+◌, ◌*◌, ◌^◌, ◌<◌, ◌≤◌, All, Bool, true, false, Option, List, []};
ghost use Rattle.std.specs.Prelude.{◌∷◌, ◌++◌, length};
ghost use Rattle.asc_base.specs.Settings.{IsConfig};
ghost use Rattle.asc_base.specs.TreeShape.{olat_of, move_cycles};
ghost use Rattle.asc_base.specs.declared.settings.Config.{Config};
ghost use Rattle.asc_base.specs.declared.block.Leaf.{Leaf};
ghost use Rattle.asc_base.specs.declared.block.Message.{Message};
ghost use Rattle.asc_base.specs.declared.block.Line.{Line};
ghost use Rattle.asc_base.specs.declared.block.Point.{Point};
ghost use Rattle.bus_watch.specs.declared.log.Move.{Move};
ghost use Rattle.bus_watch.specs.declared.log.Event.{Event};
ghost use Rattle.bus_watch.specs.declared.log.Event.TheVariants.{Access, Drawn, Tagged, Accepted, Chosen, Answered};
ghost use Rattle.bus_watch.specs.Log.{LogLists, with_event};
ghost use Rattle.bus_schedule.specs.Timetable.{Public, public_of, count_of, choices_of, rate_at, falls_next};
ghost use Rattle.bus_schedule.specs.Timetable.{beat_with, beat_at, start_at, end_at};
ghost use Rattle.bus_watch.specs.Path.{along, reads, writes_start, slot_moves};
ghost use Rattle.bus_schedule.specs.Rows.{two_rates, longer_epoch, first_slot_log, idle_log};
ghost use Rattle.bus_schedule.specs.Shown.{starts_of, leaves_of, indices_of, AreSilent};
ghost use Rattle.bus_schedule.specs.Scheduled.{log_code, IsScheduled, HasChosen, Between, Inside, ShowsNoMore};

/// Before the first event and move no slot is done.
pub fn log_starts()
    ensures { (p : Public) (log : LogLists) → log.events ≡ [] → log.moves ≡ [] → Between p 0 log }
{}

/// Between two slots a log is scheduled up to each time from the last end to the next start. In a slot it is
/// scheduled up to each time after its start and before its end that parts the moves that were made from the others.
/// So with some of its reads, up to each time after the last of them and not after the next, or after the reads' end;
/// and with all of its reads and some of its writes likewise. A slot that was given up after its reads, or at a move
/// that failed, ends at such a time.
pub fn log_is_scheduled()
    ensures between { (p : Public) (n end : ℕ) (log : LogLists) → Between p n log
        → end_at p (log_code p log) n ≤ end → end ≤ start_at p (log_code p log) n → IsScheduled p end log }
    ensures inside { (p : Public) (n start leaf end : ℕ) (part rest : List Move) (log : LogLists)
        → Inside p n leaf part log → start ≡ start_at p (log_code p log) n
        → slot_moves p.levels start leaf ≡ part ++ rest
        → All (λ (m : Move). m.time < end) part → All (λ (m : Move). end ≤ m.time) rest
        → start < end → end < start + olat_of p.levels → IsScheduled p end log }
    ensures reads { (p : Public) (n start leaf made end : ℕ) (log : LogLists)
        → Inside p n leaf (along p.levels false start leaf made) log → start ≡ start_at p (log_code p log) n
        → made ≤ p.levels + 1 → start < end → start + move_cycles * made < end + move_cycles
        → end ≤ start + move_cycles * made → IsScheduled p end log }
    ensures writes { (p : Public) (n start leaf made end : ℕ) (log : LogLists)
        → Inside p n leaf (reads p.levels start leaf ++ along p.levels true (writes_start p.levels start) leaf made) log
        → start ≡ start_at p (log_code p log) n → made ≤ p.levels + 1
        → writes_start p.levels start + move_cycles * made < end + move_cycles
        → end ≤ writes_start p.levels start + move_cycles * made → end < start + olat_of p.levels
        → IsScheduled p end log }
{}

/// The choice at a slot's end is noted by the time of that end, and not before; and no more choices are noted than
/// fall. So the log of one slot, at whose end a choice falls, is scheduled up to the cycle before the end without the
/// choice alone, and up to the end with it alone; and a log of two choices, where one is allowed, is scheduled up to
/// no time. Where epoch 1 starts later, at 400, no choice falls at that end; and none falls before the first slot, so
/// not two.
pub fn scheduled_rows()
    ensures before { IsScheduled two_rates 303 (first_slot_log []) }
    ensures early { (index : ℕ) → IsScheduled two_rates 303 (first_slot_log (Chosen index ∷ [])) → ⊥ }
    ensures missed { IsScheduled two_rates 304 (first_slot_log []) → ⊥ }
    ensures noted { IsScheduled two_rates 304 (first_slot_log (Chosen 1 ∷ [])) }
    ensures no_rate { IsScheduled two_rates 304 (first_slot_log (Chosen 2 ∷ [])) → ⊥ }
    ensures twice { (end first second : ℕ)
        → IsScheduled two_rates end (idle_log (Chosen first ∷ Chosen second ∷ [])) → ⊥ }
    ensures twice_after { (end first second : ℕ)
        → IsScheduled two_rates end (first_slot_log (Chosen first ∷ Chosen second ∷ [])) → ⊥ }
    ensures idle { IsScheduled two_rates 0 (idle_log []) }
    ensures longer { IsScheduled longer_epoch 304 (first_slot_log []) }
    ensures longer_idle { IsScheduled longer_epoch 0 (idle_log []) }
    ensures longer_twice { IsScheduled longer_epoch 0 (idle_log (Chosen 1 ∷ Chosen 1 ∷ [])) → ⊥ }
{}

/// A slot begins at its time, and its leaf is drawn.
pub fn slot_begins()
    ensures inside { (p : Public) (n start : ℕ) (asked : Option ℕ) (point : Point) (leaf : Leaf)
        (old mid new : LogLists) → Between p n old → start ≡ start_at p (log_code p old) n
        → mid ≡ with_event old (Access start asked) → new ≡ with_event mid (Drawn point leaf)
        → Inside p n leaf.0 [] new }
    ensures code { (p : Public) (start : ℕ) (asked : Option ℕ) (point : Point) (leaf : Leaf) (old mid new : LogLists)
        → mid ≡ with_event old (Access start asked) → new ≡ with_event mid (Drawn point leaf)
        → log_code p new ≡ log_code p old }
{}

/// Events that show nothing of slots keep how far a log has come, in a slot too, where moves may be made besides.
pub fn slot_goes_on()
    ensures between { (p : Public) (n : ℕ) (old new : LogLists) → Between p n old → ShowsNoMore old new
        → new.moves ≡ old.moves → Between p n new }
    ensures inside { (p : Public) (n leaf : ℕ) (part more : List Move) (old new : LogLists)
        → Inside p n leaf part old → ShowsNoMore old new → new.moves ≡ old.moves ++ more
        → Inside p n leaf (part ++ more) new }
    ensures code { (p : Public) (old new : LogLists) → ShowsNoMore old new → log_code p new ≡ log_code p old }
    ensures same { (old new : LogLists) → new.events ≡ old.events → ShowsNoMore old new }
    ensures more { (events : List Event) (old new : LogLists) → new.events ≡ old.events ++ events → AreSilent events
        → ShowsNoMore old new }
    ensures joined { (old mid new : LogLists) → ShowsNoMore old mid → ShowsNoMore mid new → ShowsNoMore old new }
{}

/// A tag that is put on or accepted, and a line that is answered, show nothing of slots; nor do no events, nor two
/// lists of which neither does.
pub fn events_are_silent()
    ensures none { AreSilent [] }
    ensures both { (xs ys : List Event) → AreSilent xs → AreSilent ys → AreSilent (xs ++ ys) }
    ensures tagged { (message : Message) → AreSilent (Tagged message ∷ []) }
    ensures accepted { (message : Message) (tag : List ℕ) → AreSilent (Accepted message tag ∷ []) }
    ensures answered { (line : ℕ) (value : Line) → AreSilent (Answered line value ∷ []) }
{}

/// A slot whose moves are all made ends where no choice falls at its end, and the rate stays.
pub fn slot_ends()
    ensures between { (p : Public) (n leaf : ℕ) (log : LogLists)
        → Inside p n leaf (slot_moves p.levels (start_at p (log_code p log) n) leaf) log
        → falls_next p (beat_at p (log_code p log) n) ≡ false → Between p (suc n) log }
    ensures beat { (p : Public) (code n : ℕ) → falls_next p (beat_at p code n) ≡ false
        → beat_at p code (suc n) ≡ beat_with p (beat_at p code n) (beat_at p code n).rate (beat_at p code n).choices }
{}

/// Where a choice falls at its end, it ends with the choice: the code has one digit more, and the rate is the
/// chosen one.
pub fn slot_ends_with_choice()
    ensures between { (p : Public) (n leaf index : ℕ) (old new : LogLists)
        → Inside p n leaf (slot_moves p.levels (start_at p (log_code p old) n) leaf) old
        → falls_next p (beat_at p (log_code p old) n) ≡ true → index < count_of p
        → new ≡ with_event old (Chosen index) → Between p (suc n) new }
    ensures code { (p : Public) (n index : ℕ) (old new : LogLists) → HasChosen p n old → index < count_of p
        → new ≡ with_event old (Chosen index)
        → log_code p new ≡ log_code p old + index * count_of p ^ length (indices_of old.events) }
    ensures before { (p : Public) (n index : ℕ) (old new : LogLists) → HasChosen p n old → index < count_of p
        → new ≡ with_event old (Chosen index) → beat_at p (log_code p new) n ≡ beat_at p (log_code p old) n }
    ensures beat { (p : Public) (n index : ℕ) (old new : LogLists) → HasChosen p n old
        → falls_next p (beat_at p (log_code p old) n) ≡ true → index < count_of p
        → new ≡ with_event old (Chosen index)
        → beat_at p (log_code p new) (suc n)
        ≡ beat_with p (beat_at p (log_code p old) n) (rate_at p.rates index)
        ((beat_at p (log_code p old) n).choices + 1) }
{}

/// A log has no more choices than are allowed, and its code is below the number of codes with so many digits; so has
/// a log that is scheduled up to any time, as after every stop. Where a choice among `2 ^ bits` rates takes so many
/// bits, the codes of so many choices are at most `2 ^ leak`: the code tells no more bits than the budget.
pub fn code_is_bounded()
    ensures choices { (p : Public) (n : ℕ) (log : LogLists) → HasChosen p n log
        → length (indices_of log.events) ≤ choices_of p }
    ensures code { (p : Public) (n : ℕ) (log : LogLists) → HasChosen p n log
        → log_code p log < count_of p ^ length (indices_of log.events) }
    ensures scheduled_choices { (p : Public) (end : ℕ) (log : LogLists) → IsScheduled p end log
        → length (indices_of log.events) ≤ choices_of p }
    ensures scheduled_code { (p : Public) (end : ℕ) (log : LogLists) → IsScheduled p end log
        → log_code p log < count_of p ^ length (indices_of log.events) }
    ensures codes { (p : Public) (bits end : ℕ) (log : LogLists) → count_of p ≡ 2 ^ bits → IsScheduled p end log
        → count_of p ^ length (indices_of log.events) ≤ 2 ^ p.leak }
    ensures budget { (p : Public) (bits end : ℕ) (log : LogLists) → count_of p ≡ 2 ^ bits → IsScheduled p end log
        → log_code p log < 2 ^ p.leak }
    ensures config { (config : Config) (end : ℕ) (log : LogLists) → IsConfig config
        → IsScheduled (public_of config) end log → log_code (public_of config) log < 2 ^ config.leak }
{}

/// Two logs that are scheduled up to the same time have the same starts where they have the same code, and the same
/// moves where they have the same leaves besides.
pub fn schedule_decides()
    ensures starts { (p : Public) (end : ℕ) (one other : LogLists) → IsScheduled p end one → IsScheduled p end other
        → log_code p one ≡ log_code p other → starts_of one.events ≡ starts_of other.events }
    ensures moves { (p : Public) (end : ℕ) (one other : LogLists) → IsScheduled p end one → IsScheduled p end other
        → log_code p one ≡ log_code p other → leaves_of one.events ≡ leaves_of other.events
        → one.moves ≡ other.moves }
{}
