//! Laws of a front end's plans. The functions do nothing: each states laws in its contract.

ghost use Rattle.std.specs.Prelude.{◌≡◌, ℕ, ◌<◌, [], ◌∷◌, ◌++◌, map};
ghost use Rattle.std.specs.List.{flat_map, range_with_len};
ghost use Rattle.std.specs.Option.{option_map_or};
ghost use Rattle.request_plan.specs.Plan.{Outcomes};
ghost use Rattle.request_plan.specs.Play.{play, bare};
ghost use Rattle.asc_base.specs.Settings.{IsConfig};
ghost use Rattle.asc_base.specs.declared.settings.Config.{Config};
ghost use Rattle.asc_base.specs.Shape.{IsAddress};
ghost use Rattle.asc_base.specs.declared.block.Address.{Address};
ghost use Rattle.asc_base.specs.declared.block.Line.{Line};
ghost use Rattle.posmap_counters.specs.Group.{line_in};
ghost use Rattle.posmap_lookaside.specs.Held.{displaced};
ghost use Rattle.posmap_lookaside.specs.declared.held.Held.{Held};
ghost use Rattle.posmap_lookaside.specs.Rows.{row, default_sizes, small_sizes, in_turn};
ghost use Rattle.posmap_lookaside.specs.Walk.{OnChip, chip_at_start, walk};
ghost use Rattle.oram_walk.specs.Front.{FrontState, IsFront, IsAfter, first_front, sizes_of};
ghost use Rattle.oram_walk.specs.Memory.{memory};
ghost use Rattle.oram_walk.specs.Plans.{visit_plan, hold_plan, request_plan, fetch_plan, store_plan};
ghost use Rattle.oram_walk.specs.declared.slots.Purpose.{Purpose};
ghost use Rattle.oram_walk.specs.Shadows.{Displaced, ShowsAlways, visit_shown, IsVisited};
ghost use Rattle.oram_walk.specs.Shows.{Shows, shown_by};
ghost use Rattle.oram_walk.specs.Rows.{requests, start, zeros, default_shape, flat_shape, rooted_shape};
ghost use Rattle.oram_walk.specs.declared.slots.Purpose.TheVariants.{Keep, Replace};

/// Whatever is answered, what is held after a request follows from what was held and the line alone: it is what is held
/// after the walk to that line.
pub fn requests_hold_by_addresses()
    ensures request { (state : FrontState) (asked line : ℕ) (purpose : Purpose)
        → Outcomes (λ (now, _). IsAfter state line now) (request_plan state asked (record { 0 = line }) purpose) }
    ensures fetch { (state : FrontState) (asked line : ℕ)
        → Outcomes (λ (now, _). IsAfter state line now) (fetch_plan state asked line) }
    ensures store { (state : FrontState) (asked line : ℕ) (value : Line)
        → Outcomes (λ (now, _). IsAfter state line now) (store_plan state asked line value) }
{}

/// Whatever is answered, an access that is asked for shows exactly what the roots and the held groups say: the block
/// under its counter, after the group move that it needs at its greatest own count, in which the children that aren't
/// held are accessed under theirs. Afterwards the parent has the group after an access to the child, and the other
/// groups stay; children that are held have the next group counter after a group move, and all other held counters
/// stay. A block that comes to be held shows the one that it displaces, under its counter, with its group's line.
pub fn accesses_follow_the_groups()
    ensures shows { (state : FrontState) (asked : ℕ) (address : Address) (purpose : Purpose) → IsFront state
        → IsAddress state.shape address
        → ShowsAlways (visit_shown state address purpose) (visit_plan state asked address purpose) }
    ensures groups { (state : FrontState) (asked : ℕ) (address : Address) (purpose : Purpose) → IsFront state
        → IsAddress state.shape address
        → Outcomes (λ (now, _). IsVisited state address now) (visit_plan state asked address purpose) }
    ensures displaced { (state : FrontState) (held : Held)
        → ShowsAlways (option_map_or (λ last.
        Displaced last.address.0 last.counter (record { 0 = line_in last.group }) ∷ [])
        (displaced state.plb held state.held) []) (hold_plan state held) }
{}

/// A request over a memory that shows the counters shows exactly its walk: its accesses in order, each under its
/// counters before and after and with its purpose, and with the line that is found, that of its children's counters or
/// a data line as it is in memory; and after a refill the block that it displaces, under its counter and with the line
/// of its children's counters. The memory and the front end then show the counters after the walk,
/// and the line that is seen is the one in memory. At the start a memory of zeros shows the counters.
pub fn requests_show_the_walk()
    ensures request { (cycles asked line : ℕ) (state : FrontState) (put : Purpose) (lines : ℕ → Line) (chip : OnChip)
        → line < state.shape.lines → Shows state lines chip
        → let walked = walk (sizes_of state) chip line in
        let played = play (memory cycles) (request_plan state asked (record { 0 = line }) put) lines in
        (bare (played.records) ≡ flat_map (shown_by (sizes_of state) lines put) (walked.accesses))
        × Shows ((played.outcome).0) (played.held) (walked.chip)
        × (((played.outcome).1).line ≡ lines line) }
    ensures fetch { (cycles asked line : ℕ) (state : FrontState) (lines : ℕ → Line) (chip : OnChip)
        → line < state.shape.lines → Shows state lines chip
        → let walked = walk (sizes_of state) chip line in
        let played = play (memory cycles) (fetch_plan state asked line) lines in
        (bare (played.records) ≡ flat_map (shown_by (sizes_of state) lines Keep) (walked.accesses))
        × Shows ((played.outcome).0) (played.held) (walked.chip)
        × (((played.outcome).1).line ≡ lines line) }
    ensures store { (cycles asked line : ℕ) (value : Line) (state : FrontState) (lines : ℕ → Line) (chip : OnChip)
        → line < state.shape.lines → Shows state lines chip
        → let walked = walk (sizes_of state) chip line in
        let played = play (memory cycles) (store_plan state asked line value) lines in
        (bare (played.records) ≡ flat_map (shown_by (sizes_of state) lines (Replace value)) (walked.accesses))
        × Shows ((played.outcome).0) (played.held) (walked.chip) }
    ensures start { (config : Config) → IsConfig config → Shows (first_front config) zeros chip_at_start }
{}

/// The plans on rows: over a memory of zeros they access and append what the walk does. On the default shape lines 0,
/// 32 and 0 take 9 accesses where one block is held, and 6 where 32 are. With own counts of two bits four stores
/// of line 0 of 64 take 37 accesses, the last of which moves a group. Under one root with two held blocks lines 0, 32,
/// 0, 32, 0, 32 and 0 take 48, of which the last moves two groups; in the first of these a block is held.
pub fn plans_have_rows()
    ensures nine { (requests (start default_shape 16 14 1) 0 zeros Keep (0 ∷ 32 ∷ 0 ∷ [])).0
        ≡ row (default_sizes 1) (0 ∷ 32 ∷ 0 ∷ []) }
    ensures six { (requests (start default_shape 16 14 32) 0 zeros Keep (0 ∷ 32 ∷ 0 ∷ [])).0
        ≡ row (default_sizes 32) (0 ∷ 32 ∷ 0 ∷ []) }
    ensures one_move { requests (start flat_shape 2 2 32) 0 zeros (Replace (zeros 0)) (0 ∷ 0 ∷ 0 ∷ 0 ∷ [])
        ≡ (
          (1, 64, 0, 0) ∷ (1, 0, 0, 0) ∷ (1, 0, 0, 1) ∷ (1, 0, 0, 2)
              ∷ (1, 0, 0, 3) ∷ map (λ child. (1, child, 0, 0)) (range_with_len 1 31) ++ (1, 0, 1, 0) ∷ [],
          27824,
        ) }
    ensures two_moves { requests (start rooted_shape 1 2 2) 0 zeros Keep in_turn
        ≡ (row (small_sizes 3 2) in_turn, 36096) }
{}
