//! Laws of starts, slot by slot, and of what they tell of the code. The functions do nothing: each states a law in its
//! contract.

ghost use Rattle.std.specs.Prelude.{◌≡◌, ◌↔◌, ℕ, suc, ◌+◌, ◌*◌, ◌^◌, ◌<◌, ◌≤◌, true, List, length, take, slice_index};
ghost use Rattle.std.specs.List.Sorted.{IsStrictlyIncreasing};
ghost use Rattle.asc_base.specs.TreeShape.{olat_of};
ghost use Rattle.bus_schedule.specs.Timetable.{Public, AgreeTo, count_of, digit_of, rate_at, falls_next};
ghost use Rattle.bus_schedule.specs.Timetable.{first_beat, beat_by, beat_at, start_at, end_at, starts, timetable};
ghost use Rattle.bus_schedule.specs.Timetable.{ended_by, fallen, first_from};
ghost use Rattle.bus_schedule.specs.Rows.{four_rates};

/// Where the timetable stands before the first slot, and after each one.
pub fn beats_go_on()
    ensures first { (p : Public) (code : ℕ) → beat_at p code 0 ≡ first_beat p }
    ensures next { (p : Public) (code n : ℕ) → beat_at p code (suc n) ≡ beat_by p code (beat_at p code n) }
    ensures starts { (p : Public) (code n : ℕ) → length (starts p code n) ≡ n }
    ensures at { (p : Public) (code n k : ℕ) → k < n → slice_index (starts p code n) k ≡ start_at p code k }
    ensures order { (p : Public) (code k n : ℕ) → k ≤ n → start_at p code k ≤ start_at p code n }
    ensures length { (p : Public) (code n : ℕ) → n * olat_of p.levels ≤ end_at p code n }
    ensures ended { (p : Public) (code n : ℕ) → end_at p code n ≤ start_at p code n }
{}

/// A timetable has the first starts, those below its time, and no others. There are at most as many as slots go into
/// the time, and one.
pub fn timetables_have_starts()
    ensures has { (p : Public) (code end k : ℕ) → (k < length (timetable p code end)) ↔ (start_at p code k < end) }
    ensures is { (p : Public) (code end : ℕ) → timetable p code end ≡ starts p code (length (timetable p code end)) }
    ensures at { (p : Public) (code end k : ℕ) → k < length (timetable p code end)
        → slice_index (timetable p code end) k ≡ start_at p code k }
    ensures first { (p : Public) (code end k : ℕ) → k ≤ length (timetable p code end)
        → take k (timetable p code end) ≡ starts p code k }
    ensures few { (p : Public) (code end : ℕ)
        → length (timetable p code end) * olat_of p.levels ≤ end + olat_of p.levels }
{}

/// The first start from a time on isn't before it, and every earlier one is. So between two slots it is the next start,
/// for a time that isn't behind it, where the last slot ended less than a slot's cycles after the time.
pub fn first_starts()
    ensures from { (p : Public) (code time : ℕ) → time ≤ first_from p code time }
    ensures others { (p : Public) (code time k : ℕ) → start_at p code k < first_from p code time
        → start_at p code k < time }
    ensures is { (p : Public) (code time n : ℕ) → time ≤ start_at p code n
        → ((k : ℕ) → k < n → start_at p code k < time) → first_from p code time ≡ start_at p code n }
    ensures next { (p : Public) (code time n : ℕ) → time ≤ start_at p code n
        → end_at p code n < time + olat_of p.levels → first_from p code time ≡ start_at p code n }
{}

/// Between two slots all before have ended, and in one all but that one; so as many choices fell by then as fall in so
/// many slots.
pub fn slots_end_by()
    ensures between { (p : Public) (code n end : ℕ) → end_at p code n ≤ end → end ≤ start_at p code n
        → ended_by p code end ≡ n }
    ensures inside { (p : Public) (code n end : ℕ) → start_at p code n < end → end < end_at p code (suc n)
        → ended_by p code end ≡ n }
    ensures fallen { (p : Public) (code n end : ℕ) → ended_by p code end ≡ n
        → fallen p code end ≡ (beat_at p code n).choices }
{}

/// Where the rates rise, a rate has one index, so a start that comes after a choice tells its digit, and the starts up
/// to a slot's tell the digits of all choices that fell before it. How many choices fell the starts tell alone.
pub fn starts_tell_digits()
    ensures rates { (rates : List ℕ) (i j : ℕ) → IsStrictlyIncreasing rates → i < length rates → j < length rates
        → rate_at rates i ≡ rate_at rates j → i ≡ j }
    ensures next { (p : Public) (code other n : ℕ) → IsStrictlyIncreasing p.rates → 1 ≤ count_of p
        → AgreeTo p code other (beat_at p code n).choices → falls_next p (beat_at p code n) ≡ true
        → start_at p code (suc n) ≡ start_at p other (suc n)
        → digit_of code (count_of p) (beat_at p code n).choices
        ≡ digit_of other (count_of p) (beat_at p code n).choices }
    ensures starts { (p : Public) (code other n : ℕ) → IsStrictlyIncreasing p.rates → 1 ≤ count_of p
        → ((k : ℕ) → k ≤ n → start_at p code k ≡ start_at p other k)
        → AgreeTo p code other (beat_at p code n).choices }
    ensures fallen { (p : Public) (code other end : ℕ) → timetable p code end ≡ timetable p other end
        → fallen p code end ≡ fallen p other end }
{}

/// Of two codes that have the same first digits, the one that has no more digits isn't greater. Where it has one more
/// at most, the next digit of both decides.
pub fn codes_compare()
    ensures least { (p : Public) (code other places : ℕ) → 1 ≤ count_of p → code < count_of p ^ places
        → AgreeTo p code other places → code ≤ other }
    ensures next { (p : Public) (code other places : ℕ) → 1 ≤ count_of p → code < count_of p ^ suc places
        → AgreeTo p code other places → digit_of code (count_of p) places ≤ digit_of other (count_of p) places
        → code ≤ other }
    ensures less { (p : Public) (code other places : ℕ) → 1 ≤ count_of p → code < count_of p ^ suc places
        → AgreeTo p code other places → digit_of code (count_of p) places < digit_of other (count_of p) places
        → code < other }
{}

/// A start tells a digit: of the codes under which the 45th slot of four rates starts at 49,472, each has the digit 3
/// first, and 3 is the least.
pub fn digit_rows()
    ensures digit { (other : ℕ) → start_at four_rates other 44 ≡ 49472 → digit_of other 4 0 ≡ 3 }
    ensures least { (other : ℕ) → start_at four_rates other 44 ≡ 49472 → 3 ≤ other }
{}
