//! Laws of placed entries and of those that stay, of any items. The functions do nothing: each states a law in its
//! contract.

ghost use Rattle.std.specs.Prelude.{◌≡◌, ℕ, ◌+◌, ◌^◌, ◌<◌, ◌≤◌, Bool, true, List, [], ◌∷◌, Option, Some, None, All};
ghost use Rattle.std.specs.Prelude.{AllPairs, length, map, count_by, ◌==◌};
ghost use Rattle.asc_base.specs.Has.{Has};
ghost use Rattle.asc_base.specs.TreeShape.{bucket_of, shared_of};
ghost use Rattle.asc_base.specs.declared.block.Entry.{Entry};
ghost use Rattle.path_evict.specs.Eviction.{eviction};
ghost use Rattle.path_evict.specs.Placed.{where_placed, taken_at, kept, count_below};
ghost use Rattle.path_evict.specs.Placement.{slots, left, Fits, IsPlacement};
ghost use Rattle.path_evict.specs.Rest.{rest};

/// What a list of places makes of a list of items beside it. Each item stays or is taken by one level, so the copies
/// add up; the items that are placed somewhere were among the items, and keep their order: whatever each earlier and
/// later item have, each earlier and later one of those have.
pub fn items_are_placed<T, U>()
    ensures copies { (p : T → Bool) (levels : ℕ) (depths : List ℕ) (places : List (Option ℕ)) (items : List T)
        → Fits depths places → All (λ depth. depth ≤ levels) depths → length items ≡ length depths
        → count_by p (kept places items) + count_below p places items (levels + 1) ≡ count_by p items }
    ensures stay { (places : List (Option ℕ)) (items : List T) → length places ≡ length items
        → length (kept places items) ≡ left places }
    ensures room { (level : ℕ) (depths : List ℕ) (places : List (Option ℕ)) (items : List T)
        → IsPlacement depths places → length (taken_at level places items) ≤ slots }
    ensures deep { (depth : T → ℕ) (level : ℕ) (places : List (Option ℕ)) (items : List T)
        → Fits (map depth items) places → All (λ x. level ≤ depth x) (taken_at level places items) }
    ensures among { (test : Option ℕ → Bool) (places : List (Option ℕ)) (items : List T) (x : T)
        → Has x (where_placed test places items) → Has x items }
    ensures order { (before : T → T → Bool) (test : Option ℕ → Bool) (places : List (Option ℕ)) (items : List T)
        → AllPairs (λ x y. before x y ≡ true) items
        → AllPairs (λ x y. before x y ≡ true) (where_placed test places items) }
    ensures parts { (part : T → U) (test : Option ℕ → Bool) (places : List (Option ℕ)) (items : List T)
        → map part (where_placed test places items) ≡ where_placed test places (map part items) }
{}

/// What a level takes has the level's bucket on its path.
pub fn entries_are_on_their_paths()
    ensures { (levels leaf level : ℕ) (places : List (Option ℕ)) (entries : List Entry)
        → leaf < 2 ^ levels → All (λ (entry : Entry). entry.leaf.0 < 2 ^ levels) entries
        → Fits (map (λ (entry : Entry). shared_of levels entry.leaf.0 leaf) entries) places
        → All (λ (entry : Entry). bucket_of levels entry.leaf.0 level ≡ bucket_of levels leaf level)
        (taken_at level places entries) }
{}

/// No more must stay than there are.
pub fn rest_is_some_of_all()
    ensures { (depths : List ℕ) (levels : ℕ) → rest depths levels ≤ length depths }
{}

/// The laws at six entries of depths 1, 0, 0, 0, 0, 0 on a path with levels 0 and 1: the last one stays.
pub fn laws_have_instances()
    ensures rule { eviction (1 ∷ 0 ∷ 0 ∷ 0 ∷ 0 ∷ 0 ∷ []) 1
        ≡ Some 1 ∷ Some 0 ∷ Some 0 ∷ Some 0 ∷ Some 0 ∷ None ∷ [] }
    ensures rest { rest (1 ∷ 0 ∷ 0 ∷ 0 ∷ 0 ∷ 0 ∷ []) 1 ≡ 1 }
    ensures level { taken_at {A = ℕ} 0 (Some 1 ∷ Some 0 ∷ None ∷ Some 0 ∷ []) (7 ∷ 8 ∷ 9 ∷ 8 ∷ []) ≡ 8 ∷ 8 ∷ [] }
    ensures stays { kept {A = ℕ} (Some 1 ∷ Some 0 ∷ None ∷ Some 0 ∷ []) (7 ∷ 8 ∷ 9 ∷ 8 ∷ []) ≡ 9 ∷ [] }
    ensures copies { count_below (λ n. n == 8) (Some 1 ∷ Some 0 ∷ None ∷ Some 0 ∷ []) (7 ∷ 8 ∷ 9 ∷ 8 ∷ []) 2 ≡ 2 }
    ensures fits { IsPlacement (1 ∷ 0 ∷ []) (eviction (1 ∷ 0 ∷ []) 1) }
{}
