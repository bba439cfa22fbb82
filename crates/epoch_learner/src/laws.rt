//! Laws of learners, over every configuration, timetable and log. The calls do nothing.

ghost use Rattle.std.specs.Prelude.{◌≡◌, ℕ, ◌+◌, ◌-◌, ◌^◌, ◌<◌, ◌≤◌, true, false, List, [], ◌∷◌, ◌++◌, Option, length};
ghost use Rattle.std.specs.Int.{abs_diff};
ghost use Rattle.std.specs.List.Sorted.{IsStrictlyIncreasing};
ghost use Rattle.asc_base.specs.Settings.{IsConfig};
ghost use Rattle.asc_base.specs.TreeShape.{olat_of};
ghost use Rattle.asc_base.specs.declared.settings.Config.{Config};
ghost use Rattle.bus_watch.specs.declared.log.Event.{Event};
ghost use Rattle.bus_watch.specs.declared.log.Event.TheVariants.{Access, Chosen};
ghost use Rattle.bus_schedule.specs.declared.beat.Beat.{Beat};
ghost use Rattle.bus_schedule.specs.Timetable.{Public, bits_of, rate_at, public_of, first_beat, beat_after, falls_next};
ghost use Rattle.bus_schedule.specs.Shown.{starts_of, indices_of};
ghost use Rattle.bus_schedule.specs.Rows.{four_rates, two_rates, first_slot_log};
ghost use Rattle.epoch_learner.specs.LearnerRule.{nearest, index_by_sums, learner_rule};
ghost use Rattle.epoch_learner.specs.Heard.{Heard, nothing_heard, with_access, with_choice, hears, heard_of};
ghost use Rattle.epoch_learner.specs.Heard.{told_by, IsByRule, AreByRule, ChoosesByRule};
ghost use Rattle.epoch_learner.specs.declared.Learner.{Learner};
ghost use Rattle.epoch_learner.specs.Learner.{IsLearnerOf, Follows, Remembers, HasCode, rates_of, apart_at};
ghost use Rattle.epoch_learner.specs.Learner.{learner_at_start, after_access, falls_at, chosen_at, after_end};
ghost use Rattle.epoch_learner.specs.Learner.{next_end};

/// A learner stands where the timetable does: a new one at its first slot, and each one that does before an access does
/// after it.
pub fn learners_follow()
    ensures new { (config : Config) → IsConfig config → IsLearnerOf config (learner_at_start config) }
    ensures start { (config : Config) → IsConfig config
        → Follows config (first_beat (public_of config)) (learner_at_start config) }
    ensures access { (config : Config) (beat : Beat) (learner : Learner) (start : ℕ) (asked : Option ℕ)
        → Follows config beat learner → Follows config beat (after_access learner start asked) }
{}

/// At the end of the slot that is next a choice falls exactly where the timetable has one. The learner stands again
/// where the timetable does, with the index that it chose; where no choice falls the index is of no matter.
pub fn ends_follow()
    ensures falls { (config : Config) (beat : Beat) (learner : Learner) → Follows config beat learner
        → falls_at learner (next_end (public_of config) beat) ≡ falls_next (public_of config) beat }
    ensures passed { (config : Config) (beat : Beat) (learner : Learner) (index : ℕ) → Follows config beat learner
        → falls_next (public_of config) beat ≡ false
        → Follows config (beat_after (public_of config) beat index)
        (after_end learner (next_end (public_of config) beat)) }
    ensures chosen { (config : Config) (beat : Beat) (learner : Learner) → Follows config beat learner
        → falls_next (public_of config) beat ≡ true
        → Follows config
        (beat_after (public_of config) beat (chosen_at learner (next_end (public_of config) beat)))
        (after_end learner (next_end (public_of config) beat)) }
{}

/// A new learner remembers nothing, each access is remembered, and at a choice all before it is forgotten.
pub fn learners_remember()
    ensures start { (config : Config) → Remembers (learner_at_start config) nothing_heard }
    ensures access { (learner : Learner) (heard : Heard) (start : ℕ) (asked : Option ℕ) (ended : ℕ)
        → Remembers learner heard
        → Remembers (after_access learner start asked)
        (with_access heard (record { start = start; asked = asked }) ended) }
    ensures passed { (learner : Learner) (heard : Heard) (end : ℕ) → falls_at learner end ≡ false
        → Remembers learner heard → Remembers (after_end learner end) heard }
    ensures chosen { (learner : Learner) (heard : Heard) (end : ℕ) → falls_at learner end ≡ true → heard.ended ≡ end
        → Remembers (after_end learner end) (with_choice heard) }
    ensures rule { (learner : Learner) (heard : Heard) (end : ℕ) → Remembers learner heard
        → learner_rule (rates_of learner) learner.olat heard.accesses (end - heard.since) ≡ chosen_at learner end }
{}

/// The code of a learner has the choices so far as its digits: none at first, and at each choice its index more.
pub fn codes_grow()
    ensures start { (config : Config) → HasCode (public_of config) [] (learner_at_start config) }
    ensures access { (p : Public) (indices : List ℕ) (learner : Learner) (start : ℕ) (asked : Option ℕ)
        → HasCode p indices learner → HasCode p indices (after_access learner start asked) }
    ensures passed { (p : Public) (indices : List ℕ) (learner : Learner) (end : ℕ) → falls_at learner end ≡ false
        → HasCode p indices learner → HasCode p indices (after_end learner end) }
    ensures chosen { (config : Config) (beat : Beat) (indices : List ℕ) (learner : Learner) (end : ℕ)
        → Follows config beat learner → falls_at learner end ≡ true → HasCode (public_of config) indices learner
        → HasCode (public_of config) (indices ++ chosen_at learner end ∷ []) (after_end learner end) }
{}

/// What a log tells goes on with each event, and only starts of slots and choices of rates tell anything. Choices
/// that are by the rule stay so, whatever follows that is no choice, and with one more that is.
pub fn logs_go_on()
    ensures heard { (olat : ℕ) (heard : Heard) (events : List Event) (event : Event)
        → heard_of olat heard (events ++ event ∷ []) ≡ hears olat (heard_of olat heard events) event }
    ensures silent { (olat : ℕ) (heard : Heard) (events more : List Event) → starts_of more ≡ []
        → indices_of more ≡ [] → heard_of olat heard (events ++ more) ≡ heard_of olat heard events }
    ensures empty { (rates : List ℕ) (olat : ℕ) (heard : Heard) → AreByRule rates olat heard [] }
    ensures kept { (rates : List ℕ) (olat : ℕ) (heard : Heard) (events more : List Event) → indices_of more ≡ []
        → AreByRule rates olat heard events → AreByRule rates olat heard (events ++ more) }
    ensures more { (rates : List ℕ) (olat : ℕ) (heard : Heard) (events : List Event) (event : Event)
        → AreByRule rates olat heard events → IsByRule rates olat (heard_of olat heard events) event
        → AreByRule rates olat heard (events ++ event ∷ []) }
{}

/// A learner that remembers what a log tells remembers what it tells with an access more, after which the last end is
/// that access's, with events more that tell nothing, and with a choice more at the last end.
pub fn logs_are_remembered()
    ensures access { (p : Public) (learner : Learner) (events : List Event) (start : ℕ) (asked : Option ℕ)
        → Remembers learner (told_by p events)
        → Remembers (after_access learner start asked) (told_by p (events ++ Access start asked ∷ [])) }
    ensures ended { (p : Public) (events : List Event) (start : ℕ) (asked : Option ℕ)
        → (told_by p (events ++ Access start asked ∷ [])).ended ≡ start + olat_of p.levels }
    ensures silent { (p : Public) (events more : List Event) → starts_of more ≡ [] → indices_of more ≡ []
        → told_by p (events ++ more) ≡ told_by p events }
    ensures chosen { (config : Config) (beat : Beat) (learner : Learner) (events : List Event) (index : ℕ)
        → Follows config beat learner → falls_next (public_of config) beat ≡ true
        → (told_by (public_of config) events).ended ≡ next_end (public_of config) beat
        → Remembers (after_end learner (next_end (public_of config) beat))
        (told_by (public_of config) (events ++ Chosen index ∷ [])) }
{}

/// A learner that stands where the timetable does and remembers what a log tells chooses by the rule over that log.
pub fn learners_choose_by_rule()
    ensures { (config : Config) (beat : Beat) (learner : Learner) (events : List Event) → Follows config beat learner
        → Remembers learner (told_by (public_of config) events)
        → (told_by (public_of config) events).ended ≡ next_end (public_of config) beat
        → ChoosesByRule (public_of config) events
        → ChoosesByRule (public_of config)
        (events ++ Chosen (chosen_at learner (next_end (public_of config) beat)) ∷ []) }
{}

/// Of rates that rise, no rate is nearer to a number than the nearest, and none that is as near is smaller.
pub fn nearest_is_near()
    ensures within { (rates : List ℕ) (number : ℕ) → 0 < length rates → nearest rates number < length rates }
    ensures near { (rates : List ℕ) (number k : ℕ) → k < length rates
        → abs_diff number (rate_at rates (nearest rates number)) ≤ abs_diff number (rate_at rates k) }
    ensures tie { (rates : List ℕ) (number k : ℕ) → IsStrictlyIncreasing rates → k < length rates
        → abs_diff number (rate_at rates k) ≡ abs_diff number (rate_at rates (nearest rates number))
        → rate_at rates (nearest rates number) ≤ rate_at rates k }
{}

/// A choice takes one of the rates: the nearest to the idle cycles for each real access, the smaller on a tie; and the
/// greatest rate where there was no real access.
pub fn choices_take_the_nearest()
    ensures within { (config : Config) (learner : Learner) (end : ℕ) → IsLearnerOf config learner
        → chosen_at learner end < learner.rates.count }
    ensures rates { (config : Config) (learner : Learner) → IsLearnerOf config learner
        → length (rates_of learner) ≡ learner.rates.count }
    ensures greatest { (config : Config) (learner : Learner) (end k : ℕ) → IsLearnerOf config learner
        → learner.real ≡ 0 → k < length (rates_of learner)
        → rate_at (rates_of learner) k ≤ rate_at (rates_of learner) (chosen_at learner end) }
    ensures near { (learner : Learner) (end k : ℕ) → 0 < learner.real → k < length (rates_of learner)
        → apart_at learner end (chosen_at learner end) ≤ apart_at learner end k }
    ensures tie { (config : Config) (learner : Learner) (end k : ℕ) → IsLearnerOf config learner → 0 < learner.real
        → k < length (rates_of learner)
        → apart_at learner end k ≡ apart_at learner end (chosen_at learner end)
        → rate_at (rates_of learner) (chosen_at learner end) ≤ rate_at (rates_of learner) k }
{}

/// The rule on some sums: ten real accesses in slots of 496 cycles up to the end 33,088, the first in epoch 1. With
/// 3,000 cycles waited in all it takes the second of four rates; with 21,728 there is a tie between the first two,
/// which the first wins, and with 10 fewer the second is nearer. Without a real access it takes the greatest. So in a
/// log of a dummy the greatest rate is by the rule, and no other.
pub fn rule_rows()
    ensures waited { index_by_sums four_rates.rates 496 33088 10 3000 ≡ 1 }
    ensures tie { index_by_sums four_rates.rates 496 33088 10 21728 ≡ 0 }
    ensures nearer { index_by_sums four_rates.rates 496 33088 10 21718 ≡ 1 }
    ensures none { index_by_sums four_rates.rates 496 33088 0 0 ≡ 3 }
    ensures dummy { ChoosesByRule two_rates (first_slot_log (Chosen 1 ∷ [])).events }
    ensures other { ChoosesByRule two_rates (first_slot_log (Chosen 0 ∷ [])).events → ⊥ }
{}

/// No more choices fall than are allowed, none where there is one rate alone or the budget is below the bits of one
/// choice, and the codes of all choices tell no more bits than the budget.
pub fn choices_are_few()
    ensures kept { (config : Config) (learner : Learner) (end : ℕ) → IsLearnerOf config learner
        → IsLearnerOf config (after_end learner end) }
    ensures last { (learner : Learner) (end : ℕ) → learner.most ≤ learner.choices → falls_at learner end ≡ false }
    ensures one { (config : Config) (learner : Learner) (end : ℕ) → IsLearnerOf config learner
        → config.rates.count ≡ 1 → falls_at learner end ≡ false }
    ensures few { (config : Config) (learner : Learner) (end : ℕ) → IsLearnerOf config learner
        → config.leak < bits_of config.rates.count → falls_at learner end ≡ false }
    ensures code { (config : Config) (learner : Learner) → IsLearnerOf config learner
        → learner.code < learner.rates.count ^ learner.choices }
    ensures bits { (config : Config) (learner : Learner) → IsLearnerOf config learner
        → learner.rates.count ^ learner.choices ≤ 2 ^ config.leak }
{}
