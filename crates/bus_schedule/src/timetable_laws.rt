//! Laws of timetables and codes, for any public part of a configuration and any code. The functions do nothing: each
//! states a law in its contract.

ghost use Rattle.std.specs.Prelude.{◌≡◌, ℕ, suc, ◌+◌, ◌-◌, ◌*◌, ◌/◌, ◌^◌, ◌<◌, ◌≤◌, ◌↔◌, true, false, All, List};
ghost use Rattle.std.specs.Prelude.{[], ◌∷◌, ◌++◌, length, slice_index};
ghost use Rattle.std.specs.List.Sorted.{IsStrictlyIncreasing};
ghost use Rattle.asc_base.specs.TreeShape.{olat_of};
ghost use Rattle.asc_base.specs.Settings.{IsPowerTo, IsConfig};
ghost use Rattle.asc_base.specs.declared.settings.Config.{Config};
ghost use Rattle.bus_schedule.specs.Timetable.{Public, AgreeTo, public_of, count_of, bits_of, choices_of, epoch_at};
ghost use Rattle.bus_schedule.specs.Timetable.{digit_of, rate_at, falls_next, beat_at, start_at, end_at, starts};
ghost use Rattle.bus_schedule.specs.Timetable.{timetable, fallen, first_from};
ghost use Rattle.bus_schedule.specs.Schedule.{RiseBy, GoesOn};
ghost use Rattle.bus_schedule.specs.Shown.{code_of};
ghost use Rattle.bus_schedule.specs.Rows.{four_rates};

/// The first slot starts at the first rate, and each further one at the end of the one before it plus the rate in
/// force, which is one of the rates. So slots don't overlap.
pub fn slots_apart()
    ensures first { (p : Public) (code : ℕ) → start_at p code 0 ≡ rate_at p.rates p.first }
    ensures next { (p : Public) (code n : ℕ)
        → start_at p code (suc n) ≡ end_at p code (suc n) + (beat_at p code (suc n)).rate }
    ensures rate { (p : Public) (code n : ℕ) → p.first < count_of p
        → (index : ℕ) × (index < count_of p) × ((beat_at p code n).rate ≡ rate_at p.rates index) }
    ensures apart { (p : Public) (code n : ℕ) → start_at p code n + olat_of p.levels ≤ start_at p code (suc n) }
    ensures timetable { (p : Public) (code end : ℕ) → RiseBy (olat_of p.levels) (timetable p code end) }
{}

/// A timetable has the starts of the slots that began before its time, and goes on from those for earlier times.
pub fn timetables_go_on()
    ensures between { (p : Public) (code n end : ℕ) → end_at p code n ≤ end → end ≤ start_at p code n
        → timetable p code end ≡ starts p code n }
    ensures inside { (p : Public) (code n end : ℕ) → start_at p code n < end → end ≤ start_at p code (suc n)
        → timetable p code end ≡ starts p code (suc n) }
    ensures later { (p : Public) (code end later : ℕ) → end ≤ later
        → GoesOn (λ start. start) end (timetable p code end) (timetable p code later) }
{}

/// Epoch i begins at `epoch * (2 ^ i - 1)`. A choice falls at the end of a slot exactly where its epoch is later than
/// that of the end before it, and where fewer choices have fallen than are allowed. The rate that it takes is in force
/// from there on, and stays where no choice falls; the digits of the code are the choices, the least first.
pub fn choices_fall()
    ensures epoch { (epoch time i : ℕ) → 1 ≤ epoch → time < 2 ^ 40 → epoch * (2 ^ i - 1) ≤ time
        → time < epoch * (2 ^ (i + 1) - 1) → epoch_at epoch time ≡ i }
    ensures in_epoch { (epoch time : ℕ) → 1 ≤ epoch → time < 2 ^ 40
        → (epoch * (2 ^ epoch_at epoch time - 1) ≤ time) × (time < epoch * (2 ^ (epoch_at epoch time + 1) - 1)) }
    ensures falls { (p : Public) (code n : ℕ) → 1 ≤ p.epoch → (falls_next p (beat_at p code n) ≡ true)
        ↔ ((epoch_at p.epoch (end_at p code n) < epoch_at p.epoch (end_at p code (suc n)))
        × ((beat_at p code n).choices < choices_of p)) }
    ensures chosen { (p : Public) (code n : ℕ) → falls_next p (beat_at p code n) ≡ true
        → ((beat_at p code (suc n)).rate ≡ rate_at p.rates (digit_of code (count_of p) (beat_at p code n).choices))
        × ((beat_at p code (suc n)).choices ≡ (beat_at p code n).choices + 1) }
    ensures kept { (p : Public) (code n : ℕ) → falls_next p (beat_at p code n) ≡ false
        → ((beat_at p code (suc n)).rate ≡ (beat_at p code n).rate)
        × ((beat_at p code (suc n)).choices ≡ (beat_at p code n).choices) }
{}

/// The starts up to a choice depend on the choices before it alone.
pub fn choices_decide()
    ensures starts { (p : Public) (code other places n : ℕ) → AgreeTo p code other places
        → (beat_at p code n).choices ≤ places → starts p code (suc n) ≡ starts p other (suc n) }
    ensures timetable { (p : Public) (code other places n end : ℕ) → AgreeTo p code other places
        → (beat_at p code n).choices ≤ places → end ≤ end_at p code (suc n)
        → timetable p code end ≡ timetable p other end }
{}

/// The first starts of some timetables. Where slots take 176 cycles and epoch 0 takes 400, the second and the fifth end
/// are the first in epochs 1 and 2. Two rates under two bits have a choice at each of them, and under one bit at the
/// first alone; four rates under one bit have none, and neither has one rate.
pub fn starts_rows()
    ensures two { starts (record { levels = 1; rates = 64 ∷ 128 ∷ []; first = 0; epoch = 400; leak = 2 }) 1 8
        ≡ 64 ∷ 304 ∷ 608 ∷ 912 ∷ 1216 ∷ 1456 ∷ 1696 ∷ 1936 ∷ [] }
    ensures one { starts (record { levels = 1; rates = 64 ∷ 128 ∷ []; first = 0; epoch = 400; leak = 1 }) 1 8
        ≡ 64 ∷ 304 ∷ 608 ∷ 912 ∷ 1216 ∷ 1520 ∷ 1824 ∷ 2128 ∷ [] }
    ensures four { starts
        (record { levels = 1; rates = 64 ∷ 128 ∷ 256 ∷ 512 ∷ []; first = 1; epoch = 400; leak = 1 }) 3 5
        ≡ 128 ∷ 432 ∷ 736 ∷ 1040 ∷ 1344 ∷ [] }
    ensures alone { starts (record { levels = 5; rates = 256 ∷ []; first = 0; epoch = 65536; leak = 0 }) 0 8
        ≡ 256 ∷ 1008 ∷ 1760 ∷ 2512 ∷ 3264 ∷ 4016 ∷ 4768 ∷ 5520 ∷ [] }
{}

/// The timetable of four rates under code 3 up to 200,000 has 53 starts. The 44th slot ends at 33,088, where the one
/// choice falls, so the 45th starts at 49,472, and the first start from 200,000 on is 201,392.
pub fn timetable_rows()
    ensures starts { timetable four_rates 3 4000 ≡ 256 ∷ 1008 ∷ 1760 ∷ 2512 ∷ 3264 ∷ [] }
    ensures count { length (timetable four_rates 3 200000) ≡ 53 }
    ensures end { end_at four_rates 3 44 ≡ 33088 }
    ensures next { start_at four_rates 3 44 ≡ 49472 }
    ensures first { first_from four_rates 3 200000 ≡ 201392 }
    ensures before { fallen four_rates 3 33087 ≡ 0 }
    ensures fallen { fallen four_rates 3 33088 ≡ 1 }
{}

/// No more choices fall than the budget has bits for, where a choice among `2 ^ bits` rates takes so many bits: none
/// where there is one rate, or where the budget has fewer bits than one choice takes.
pub fn choices_are_few()
    ensures most { (p : Public) (code n : ℕ) → (beat_at p code n).choices ≤ choices_of p }
    ensures allowed { (p : Public) (bits : ℕ) → 1 ≤ bits → count_of p ≡ 2 ^ bits → choices_of p ≡ p.leak / bits }
    ensures one_rate { (p : Public) → count_of p ≤ 1 → choices_of p ≡ 0 }
    ensures small_budget { (p : Public) → p.leak < bits_of (count_of p) → choices_of p ≡ 0 }
    ensures budget { (p : Public) → bits_of (count_of p) * choices_of p ≤ p.leak }
    ensures bits { (bits : ℕ) → bits_of (2 ^ bits) ≡ bits }
{}

/// Each timetable is that of a code below the number of codes of the choices that may fall, which is at most
/// `2 ^ leak` where the number of rates is a power of two. So at most so many timetables have a given public part and
/// a given time; and likewise up to a given number of choices.
pub fn timetables_are_few()
    ensures all { (p : Public) (code end : ℕ) → 1 ≤ count_of p
        → (other : ℕ) × (other < count_of p ^ choices_of p) × (timetable p other end ≡ timetable p code end) }
    ensures up_to { (p : Public) (code places n end : ℕ) → 1 ≤ count_of p → (beat_at p code n).choices ≤ places
        → end ≤ end_at p code (suc n)
        → (other : ℕ) × (other < count_of p ^ places) × (timetable p other end ≡ timetable p code end) }
    ensures codes { (p : Public) (bits places : ℕ) → count_of p ≡ 2 ^ bits → places ≤ choices_of p
        → count_of p ^ places ≤ 2 ^ p.leak }
    ensures budget { (p : Public) (bits code end : ℕ) → count_of p ≡ 2 ^ bits
        → (other : ℕ) × (other < 2 ^ p.leak) × (timetable p other end ≡ timetable p code end) }
{}

/// The public part of a configuration has 1, 2, 4, 8 or 16 rates, which rise, the first rate is among them, and epoch 0
/// isn't empty.
pub fn public_parts()
    ensures count { (config : Config) → IsConfig config → count_of (public_of config) ≡ config.rates.count }
    ensures power { (config : Config) → IsConfig config → IsPowerTo 4 (count_of (public_of config)) }
    ensures first { (config : Config) → IsConfig config → (public_of config).first < count_of (public_of config) }
    ensures epoch { (config : Config) → IsConfig config → 1 ≤ (public_of config).epoch }
    ensures rise { (config : Config) → IsConfig config → IsStrictlyIncreasing (public_of config).rates }
{}

/// The code of digits is the number that has them, the least first; and a digit at a place above those of a code leaves
/// the others.
pub fn codes_have_digits()
    ensures appended { (base index : ℕ) (digits : List ℕ)
        → code_of base (digits ++ index ∷ []) ≡ code_of base digits + index * base ^ length digits }
    ensures below { (base : ℕ) (digits : List ℕ) → All (λ digit. digit < base) digits
        → code_of base digits < base ^ length digits }
    ensures digits { (base place : ℕ) (digits : List ℕ) → All (λ digit. digit < base) digits → place < length digits
        → digit_of (code_of base digits) base place ≡ slice_index digits place }
    ensures highest { (base code places index : ℕ) → code < base ^ places → index < base
        → digit_of (code + index * base ^ places) base places ≡ index }
    ensures lower { (base code places index place : ℕ) → 1 ≤ base → place < places
        → digit_of (code + index * base ^ places) base place ≡ digit_of code base place }
{}
