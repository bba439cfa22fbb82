//! Laws of the walk. The functions do nothing: each states laws in its contract.

ghost use Rattle.std.specs.Prelude.{◌≡◌, ◌≢◌, ℕ, ◌+◌, ◌^◌, ◌<◌, ◌≤◌, List, [], ◌∷◌, ◌++◌, length, map, All, AllPairs};
ghost use Rattle.std.specs.Prelude.{None};
ghost use Rattle.std.specs.Prelude.{Some};
ghost use Rattle.std.specs.List.{range_with_len};
ghost use Rattle.asc_base.specs.TreeShape.{layer_first, parent_of};
ghost use Rattle.posmap_counters.specs.Bounds.{AreCounters};
ghost use Rattle.posmap_counters.specs.Counters.{counter_at};
ghost use Rattle.posmap_lookaside.specs.Walk.{WalkSizes, OnChip, chip_at_start, points_of, walk, walks};
ghost use Rattle.posmap_lookaside.specs.Walk.{held_after, IsHeldList};
ghost use Rattle.posmap_lookaside.specs.Rows.{default_sizes, small_sizes, in_turn, row};

/// A walk keeps the counters within bounds, each access counted. So in requests one after another no point comes twice,
/// as long as there are fewer than 2 ^ 64 accesses.
pub fn walks_have_points_once()
    ensures bounds { (sizes : WalkSizes) (chip : OnChip) (line accesses : ℕ) → 1 ≤ sizes.ic
        → line < layer_first sizes.lines sizes.layers
        → AreCounters sizes.lines sizes.layers sizes.ic (counter_at chip.counters) None accesses
        → AreCounters sizes.lines sizes.layers sizes.ic (counter_at (walk sizes chip line).chip.counters) None
        (accesses + length (walk sizes chip line).accesses) }
    ensures apart { (sizes : WalkSizes) (chip : OnChip) (lines : List ℕ) (accesses : ℕ) → 1 ≤ sizes.ic
        → All (λ line. line < layer_first sizes.lines sizes.layers) lines
        → AreCounters sizes.lines sizes.layers sizes.ic (counter_at chip.counters) None accesses
        → accesses + length (walks sizes chip lines).accesses < 2 ^ 64
        → AllPairs (λ p q. p ≢ q) (points_of (walks sizes chip lines).accesses) }
    ensures start { (sizes : WalkSizes) (lines : List ℕ) → 1 ≤ sizes.ic
        → All (λ line. line < layer_first sizes.lines sizes.layers) lines
        → length (walks sizes chip_at_start lines).accesses < 2 ^ 64
        → AllPairs (λ p q. p ≢ q) (points_of (walks sizes chip_at_start lines).accesses) }
{}

/// What is held after a walk follows from what was held and the line alone. It has room, its addresses are distinct
/// ones of position-map blocks, and the first of them is the line's parent, where it has one.
pub fn walks_hold_by_addresses()
    ensures held { (sizes : WalkSizes) (chip : OnChip) (line : ℕ)
        → (walk sizes chip line).chip.held ≡ held_after sizes chip.held line }
    ensures list { (sizes : WalkSizes) (held : List ℕ) (line : ℕ) → line < layer_first sizes.lines sizes.layers
        → IsHeldList sizes held → IsHeldList sizes (held_after sizes held line) }
    ensures first { (sizes : WalkSizes) (held : List ℕ) (line parent : ℕ) → 1 ≤ sizes.plb → 1 ≤ sizes.layers
        → parent_of sizes.lines sizes.layers line ≡ Some parent
        → (rest : List ℕ) × (held_after sizes held line ≡ parent ∷ rest) }
    ensures start { (sizes : WalkSizes) → IsHeldList sizes [] }
{}

/// The walk on rows. On the default shape of 16,384 lines in three layers, lines 0, 32 and 0 take 9 accesses where one
/// block is held, of which each refill displaces the block before it, and 6 where 32 are. With own counts of two bits,
/// four requests for line 0 of 64 take 37 accesses, the last a group move. Under one root and with two held blocks,
/// lines 0, 32, 0, 32, 0, 32 and 0 take 48: the last request moves the two blocks under the root, of which one is held
/// and is renumbered, and then 32 lines.
pub fn walks_have_rows()
    ensures nine { row (default_sizes 1) (0 ∷ 32 ∷ 0 ∷ [])
        ≡ (1, 16896, 0, 0) ∷ (1, 16384, 0, 0) ∷ (0, 16896, 1, 0) ∷ (1, 0, 0, 0)
        ∷ (1, 16896, 1, 0) ∷ (0, 16384, 0, 1) ∷ (1, 16385, 0, 0) ∷ (0, 16896, 2, 0) ∷ (1, 32, 0, 0)
        ∷ (1, 16896, 2, 0) ∷ (0, 16385, 0, 1) ∷ (1, 16384, 0, 1) ∷ (0, 16896, 3, 0) ∷ (1, 0, 0, 1) ∷ [] }
    ensures six { row (default_sizes 32) (0 ∷ 32 ∷ 0 ∷ [])
        ≡ (1, 16896, 0, 0) ∷ (1, 16384, 0, 0) ∷ (1, 0, 0, 0)
        ∷ (1, 16385, 0, 0) ∷ (1, 32, 0, 0)
        ∷ (1, 0, 0, 1) ∷ [] }
    ensures one_move { row (small_sizes 2 32) (0 ∷ 0 ∷ 0 ∷ 0 ∷ [])
        ≡ (1, 64, 0, 0) ∷ (1, 0, 0, 0) ∷ (1, 0, 0, 1) ∷ (1, 0, 0, 2)
        ∷ (1, 0, 0, 3) ∷ map (λ child. (1, child, 0, 0)) (range_with_len 1 31) ++ (1, 0, 1, 0) ∷ [] }
    ensures two_moves { row (small_sizes 3 2) in_turn
        ≡ (1, 66, 0, 0) ∷ (1, 64, 0, 0) ∷ (1, 0, 0, 0)
        ∷ (1, 65, 0, 0) ∷ (0, 64, 0, 1) ∷ (1, 32, 0, 0)
        ∷ (1, 64, 0, 1) ∷ (0, 65, 0, 1) ∷ (1, 0, 0, 1)
        ∷ (1, 65, 0, 1) ∷ (0, 64, 0, 2) ∷ (1, 32, 0, 1)
        ∷ (1, 64, 0, 2) ∷ (0, 65, 0, 2) ∷ (1, 0, 0, 2)
        ∷ (1, 65, 0, 2) ∷ (0, 64, 0, 3) ∷ (1, 32, 0, 2)
        ∷ (1, 64, 0, 3) ∷ (1, 64, 1, 0) ∷ (0, 65, 1, 0)
        ∷ (1, 0, 0, 3) ∷ map (λ child. (1, child, 0, 0)) (range_with_len 1 31) ++ (1, 0, 1, 0) ∷ [] }
    ensures counts { (length (walks (default_sizes 1) chip_at_start (0 ∷ 32 ∷ 0 ∷ [])).accesses ≡ 9)
        × (length (walks (default_sizes 32) chip_at_start (0 ∷ 32 ∷ 0 ∷ [])).accesses ≡ 6)
        × (length (walks (small_sizes 2 32) chip_at_start (0 ∷ 0 ∷ 0 ∷ 0 ∷ [])).accesses ≡ 37)
        × (length (walks (small_sizes 3 2) chip_at_start in_turn).accesses ≡ 48) }
    ensures apart { AllPairs (λ p q. p ≢ q) (points_of (walks (small_sizes 3 2) chip_at_start in_turn).accesses) }
    ensures held { (held_after (small_sizes 3 2) (65 ∷ 64 ∷ []) 0 ≡ 64 ∷ 65 ∷ [])
        × (held_after (small_sizes 3 2) (65 ∷ 66 ∷ []) 0 ≡ 64 ∷ 66 ∷ []) }
{}
