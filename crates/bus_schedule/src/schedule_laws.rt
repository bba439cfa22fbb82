//! Laws of the moves of slots, for any tree and any lists of starts and leaves. The functions do nothing: each
//! states a law in its contract.

ghost use Rattle.std.specs.Prelude.{◌≡◌, ◌↔◌, ℕ, zero, suc, ◌+◌, ◌*◌, ◌<◌, ◌≤◌, All, Bool, true, false, List, []};
ghost use Rattle.std.specs.Prelude.{◌∷◌, ◌++◌, length, take};
ghost use Rattle.asc_base.specs.TreeShape.{olat_of, move_cycles};
ghost use Rattle.bus_watch.specs.declared.log.Move.{Move};
ghost use Rattle.bus_schedule.specs.Timetable.{Public, timetable};
ghost use Rattle.bus_watch.specs.Path.{along, reads, reads_end, writes_start, writes, slot_moves};
ghost use Rattle.bus_schedule.specs.Schedule.{moves_of, moves_before_time, schedule, RiseBy, MovesRise, GoesOn};

/// The moves of one slot more come after those of the slots before it. A slot has a read and a write of each bucket
/// of its path; its first moves are reads, and writes follow once all reads are made.
pub fn slots_join()
    ensures joined { (levels start leaf : ℕ) (starts leaves : List ℕ) → length starts ≡ length leaves
        → moves_of levels (starts ++ start ∷ []) (leaves ++ leaf ∷ [])
        ≡ moves_of levels starts leaves ++ slot_moves levels start leaf }
    ensures number { (levels start leaf : ℕ) → length (slot_moves levels start leaf) ≡ 2 * (levels + 1) }
    ensures reads { (levels start leaf k : ℕ) → k ≤ levels + 1
        → take k (slot_moves levels start leaf) ≡ along levels false start leaf k }
    ensures writes { (levels start leaf k : ℕ) → k ≤ levels + 1
        → take (levels + 1 + k) (slot_moves levels start leaf)
        ≡ reads levels start leaf ++ along levels true (writes_start levels start) leaf k }
{}

/// The moves of a slot are made in its cycles, a move's cycles apart at least, and so are those of slots that don't
/// overlap. The writes come after the turn at the reads' end.
pub fn moves_rise()
    ensures within { (levels start leaf : ℕ)
        → All (λ (m : Move). (start ≤ m.time) × (m.time + move_cycles ≤ start + olat_of levels))
        (slot_moves levels start leaf) }
    ensures reads { (levels start leaf : ℕ)
        → All (λ (m : Move). m.time + move_cycles ≤ reads_end levels start) (reads levels start leaf) }
    ensures writes { (levels start leaf : ℕ)
        → All (λ (m : Move). writes_start levels start ≤ m.time) (writes levels start leaf) }
    ensures slot { (levels start leaf : ℕ) → MovesRise (slot_moves levels start leaf) }
    ensures slots { (levels : ℕ) (starts leaves : List ℕ) → RiseBy (olat_of levels) starts
        → MovesRise (moves_of levels starts leaves) }
{}

/// A time cuts off nothing of slots that are over by then, and of the slot that it falls into what isn't before it.
/// Where slots don't overlap, all before one that has started are over. A slot has a move before a time exactly where
/// it starts before it.
pub fn moves_are_cut()
    ensures over { (levels end : ℕ) (starts leaves : List ℕ) → All (λ start. start + olat_of levels ≤ end) starts
        → moves_before_time end (moves_of levels starts leaves) ≡ moves_of levels starts leaves }
    ensures inside { (levels end start leaf : ℕ) (starts leaves : List ℕ) → length starts ≡ length leaves
        → All (λ earlier. earlier + olat_of levels ≤ end) starts
        → moves_before_time end (moves_of levels (starts ++ start ∷ []) (leaves ++ leaf ∷ []))
        ≡ moves_of levels starts leaves ++ moves_before_time end (slot_moves levels start leaf) }
    ensures started { (levels end start : ℕ) (starts : List ℕ) → RiseBy (olat_of levels) (starts ++ start ∷ [])
        → start ≤ end → All (λ earlier. earlier + olat_of levels ≤ end) starts }
    ensures begun { (levels start leaf end : ℕ)
        → (0 < length (moves_before_time end (slot_moves levels start leaf))) ↔ (start < end) }
{}

/// The moves up to a later time go on from those up to an earlier one, where the slots that are added start at the
/// earlier time or after it. So a schedule for a later time goes on from that for an earlier one, where the leaves
/// begin alike.
pub fn moves_go_on()
    ensures moves { (levels end later : ℕ) (starts leaves others more : List ℕ) → end ≤ later
        → RiseBy (olat_of levels) starts → All (λ start. end ≤ start) others → length starts ≡ length leaves
        → GoesOn (λ (m : Move). m.time) end (moves_before_time end (moves_of levels starts leaves))
        (moves_before_time later (moves_of levels (starts ++ others) (leaves ++ more))) }
    ensures schedule { (p : Public) (code end later : ℕ) (leaves more : List ℕ) → end ≤ later
        → length leaves ≡ length (timetable p code end)
        → GoesOn (λ (m : Move). m.time) end (schedule p code leaves end) (schedule p code (leaves ++ more) later) }
{}
