//! Laws of a learner and a log that go through the timetable together, slot by slot. The calls do nothing.

ghost use Rattle.std.specs.Prelude.{◌≡◌, ℕ, suc, ◌+◌, ◌*◌, ◌^◌, ◌<◌, ◌≤◌, true, false, Option, None, Some, List};
ghost use Rattle.std.specs.Prelude.{[], ◌∷◌, ◌++◌};
ghost use Rattle.asc_base.specs.Settings.{IsConfig};
ghost use Rattle.asc_base.specs.TreeShape.{olat_of, move_cycles};
ghost use Rattle.asc_base.specs.declared.block.Leaf.{Leaf};
ghost use Rattle.asc_base.specs.declared.block.Point.{Point};
ghost use Rattle.asc_base.specs.declared.settings.Config.{Config};
ghost use Rattle.asc_outside.specs.Memory.{MemoryState};
ghost use Rattle.bus_watch.specs.declared.log.Event.{Event};
ghost use Rattle.bus_watch.specs.declared.log.Event.TheVariants.{Access, Drawn, Chosen};
ghost use Rattle.bus_watch.specs.declared.log.Move.{Move};
ghost use Rattle.bus_watch.specs.Log.{LogLists, TapState, with_event};
ghost use Rattle.bus_watch.specs.Made.{Made};
ghost use Rattle.bus_watch.specs.Path.{along, reads, writes_start, slot_moves};
ghost use Rattle.bus_watch.specs.RunEnd.{RunEnd};
ghost use Rattle.bus_schedule.specs.Timetable.{public_of, first_from};
ghost use Rattle.bus_schedule.specs.Shown.{AreSilent};
ghost use Rattle.bus_schedule.specs.Scheduled.{log_code, ShowsNoMore};
ghost use Rattle.epoch_learner.specs.LearnerRule.{real_count, waiting};
ghost use Rattle.epoch_learner.specs.Learner.{learner_at_start, after_access, after_end, choice_by_sums};
ghost use Rattle.epoch_learner.specs.Stands.{Stands, StandsIn, IsFirstFor, KeepsPace, one_slot, noted};
ghost use Rattle.epoch_learner.specs.declared.Learner.{Learner};

/// Before the first slot a new learner and an empty log stand at the start, and the first slot starts at the first
/// rate.
pub fn learners_stand()
    ensures { (config : Config) (log : LogLists) → IsConfig config → log.events ≡ [] → log.moves ≡ []
        → Stands config 0 0 (learner_at_start config).rate (learner_at_start config) log }
{}

/// A slot begins at its time, is seen by the learner, and its leaf is drawn. Where it was asked for, it is the first
/// from its time on.
pub fn stands_begin()
    ensures { (config : Config) (n last next : ℕ) (learner : Learner) (asked : Option ℕ) (point : Point) (leaf : Leaf)
        (old mid new : LogLists) → Stands config n last next learner old
        → IsFirstFor (olat_of config.shape.levels) last next asked → mid ≡ with_event old (Access next asked)
        → new ≡ with_event mid (Drawn point leaf)
        → StandsIn config n next leaf.0 [] (after_access learner next asked) new }
{}

/// Events that show nothing of slots keep it so, in a slot too, where moves may be made besides. So does a run of bus
/// calls that notes no other events.
pub fn stands_go_on()
    ensures between { (config : Config) (n last next : ℕ) (learner : Learner) (old new : LogLists)
        → Stands config n last next learner old → ShowsNoMore old new → new.moves ≡ old.moves
        → Stands config n last next learner new }
    ensures inside { (config : Config) (n start leaf : ℕ) (part more : List Move) (learner : Learner)
        (old new : LogLists) → StandsIn config n start leaf part learner old → ShowsNoMore old new
        → new.moves ≡ old.moves ++ more → StandsIn config n start leaf (part ++ more) learner new }
    ensures ran_between { (config : Config) (n last next : ℕ) (learner : Learner) (cut : RunEnd) (events : List Event)
        (m m2 : MemoryState) (t t2 : TapState) → Stands config n last next learner t.log → AreSilent events
        → Made cut [] events m m2 t t2 → Stands config n last next learner t2.log }
    ensures ran_inside { (config : Config) (n start leaf : ℕ) (part more : List Move) (learner : Learner) (cut : RunEnd)
        (events : List Event) (m m2 : MemoryState) (t t2 : TapState)
        → StandsIn config n start leaf part learner t.log → AreSilent events
        → Made cut more events m m2 t t2 → StandsIn config n start leaf (part ++ more) learner t2.log }
{}

/// A slot whose moves are all made ends: where the learner answers None at its end, as it is; where it answers an
/// index, with this choice noted. The next slot starts at the end plus the rate that is then in force.
pub fn stands_end()
    ensures passed { (config : Config) (n start leaf end : ℕ) (learner : Learner) (log : LogLists)
        → StandsIn config n start leaf (slot_moves config.shape.levels start leaf) learner log
        → end ≡ start + olat_of config.shape.levels → choice_by_sums learner end ≡ None
        → Stands config (suc n) end (end + (after_end learner end).rate) (after_end learner end) log }
    ensures chosen { (config : Config) (n start leaf end index : ℕ) (learner : Learner) (old new : LogLists)
        → StandsIn config n start leaf (slot_moves config.shape.levels start leaf) learner old
        → end ≡ start + olat_of config.shape.levels → choice_by_sums learner end ≡ Some index
        → new ≡ with_event old (Chosen index)
        → Stands config (suc n) end (end + (after_end learner end).rate) (after_end learner end) new }
{}

/// Between two slots the log keeps the pace up to each time from the last end to the next start. In a slot it does,
/// with some of its reads, up to each time after the last of them and not after the next, or after the reads' end; and
/// with some of its writes likewise, before the slot's end. A log that keeps the pace tells no more bits than the
/// budget.
pub fn stands_keep_pace()
    ensures between { (config : Config) (n last next end : ℕ) (learner : Learner) (log : LogLists)
        → Stands config n last next learner log → last ≤ end → end ≤ next → KeepsPace config end log }
    ensures reads { (config : Config) (n start leaf made end : ℕ) (learner : Learner) (log : LogLists)
        → StandsIn config n start leaf (along config.shape.levels false start leaf made) learner log
        → made ≤ config.shape.levels + 1 → start < end → start + move_cycles * made < end + move_cycles
        → end ≤ start + move_cycles * made → KeepsPace config end log }
    ensures writes { (config : Config) (n start leaf made end : ℕ) (learner : Learner) (log : LogLists)
        → StandsIn config n start leaf
        (reads config.shape.levels start leaf
        ++ along config.shape.levels true (writes_start config.shape.levels start) leaf made) learner log
        → made ≤ config.shape.levels + 1
        → writes_start config.shape.levels start + move_cycles * made < end + move_cycles
        → end ≤ writes_start config.shape.levels start + move_cycles * made → end < start + olat_of config.shape.levels
        → KeepsPace config end log }
    ensures budget { (config : Config) (end : ℕ) (log : LogLists) → IsConfig config → KeepsPace config end log
        → log_code (public_of config) log < 2 ^ config.leak }
{}

/// The next slot starts at the last end plus the rate in force, 64 to 1,048,576 cycles later, and each slot took its
/// cycles. It is the first that starts at or after a time that isn't behind it, where the last slot ended less than a
/// slot's cycles after the time.
pub fn next_slots_follow()
    ensures next { (config : Config) (n last next : ℕ) (learner : Learner) (log : LogLists)
        → Stands config n last next learner log → next ≡ last + learner.rate }
    ensures apart { (config : Config) (n last next : ℕ) (learner : Learner) (log : LogLists)
        → Stands config n last next learner log → (last + 64 ≤ next) × (next ≤ last + 1048576) }
    ensures took { (config : Config) (n last next : ℕ) (learner : Learner) (log : LogLists)
        → Stands config n last next learner log → n * olat_of config.shape.levels ≤ last }
    ensures first { (config : Config) (n last next time : ℕ) (learner : Learner) (log : LogLists)
        → Stands config n last next learner log → time ≤ next → last < time + olat_of config.shape.levels
        → first_from (public_of config) (log_code (public_of config) log) time ≡ next }
{}

/// A learner's sums never pass their bounds: at each slot that starts before 2^29 it can see the access, and then the
/// slot's end.
pub fn sums_stay_small()
    ensures saw { (config : Config) (n last next : ℕ) (learner : Learner) (asked : Option ℕ) (log : LogLists)
        → Stands config n last next learner log → next < 2 ^ 29
        → (learner.real + real_count asked < 2 ^ 32) × (learner.waste + waiting next asked < 2 ^ 60) }
    ensures ended { (config : Config) (n start leaf end : ℕ) (part : List Move) (learner : Learner) (log : LogLists)
        → StandsIn config n start leaf part learner log → end ≡ start + olat_of config.shape.levels → start < 2 ^ 29
        → (end < 2 ^ 40) × (learner.since ≤ end) × (learner.real < 2 ^ 32) × (learner.waste < 2 ^ 60) }
{}

/// So the first slot of every configuration, a dummy: with its moves made the log stands in it and keeps the pace up
/// to the cycle before its end, and with the choice that falls at the end, if one does, it stands behind the slot and
/// keeps the pace up to its end.
pub fn first_slot_stands()
    ensures inside { (config : Config) (leaf : Leaf) → IsConfig config
        → StandsIn config 0 (learner_at_start config).rate leaf.0
        (slot_moves config.shape.levels (learner_at_start config).rate leaf.0)
        (after_access (learner_at_start config) (learner_at_start config).rate None) (one_slot config leaf) }
    ensures before { (config : Config) (leaf : Leaf) (end : ℕ) → IsConfig config
        → end + 1 ≡ (learner_at_start config).rate + olat_of config.shape.levels
        → KeepsPace config end (one_slot config leaf) }
    ensures done { (config : Config) (leaf : Leaf) (end : ℕ) (learner : Learner) → IsConfig config
        → end ≡ (learner_at_start config).rate + olat_of config.shape.levels
        → learner ≡ after_access (learner_at_start config) (learner_at_start config).rate None
        → Stands config 1 end (end + (after_end learner end).rate) (after_end learner end)
        (noted (choice_by_sums learner end) (one_slot config leaf)) }
    ensures at_end { (config : Config) (leaf : Leaf) (end : ℕ) (learner : Learner) → IsConfig config
        → end ≡ (learner_at_start config).rate + olat_of config.shape.levels
        → learner ≡ after_access (learner_at_start config) (learner_at_start config).rate None
        → KeepsPace config end (noted (choice_by_sums learner end) (one_slot config leaf)) }
{}
