//! Laws of held blocks and their addresses. The functions do nothing: each states laws in its contract.

ghost use Rattle.std.specs.Prelude.{◌≡◌, ◌≢◌, ℕ, ◌+◌, ◌≤◌, Bool, false, nat_eq, if◌then◌else◌, List, [], ◌∷◌, length};
ghost use Rattle.std.specs.Prelude.{take, slice_get, count_by, AllPairs, option_map, is_some, None, Some};
ghost use Rattle.std.specs.Option.{option_map_or};
ghost use Rattle.asc_base.specs.declared.block.Address.{Address};
ghost use Rattle.posmap_counters.specs.Counters.{is_among};
ghost use Rattle.posmap_lookaside.specs.declared.held.Held.{Held};
ghost use Rattle.posmap_lookaside.specs.Held.{held_at, promoted, changed, inserted, displaced, addresses_of};
ghost use Rattle.posmap_lookaside.specs.Addresses.{used, AreDistinct};
ghost use Rattle.posmap_lookaside.specs.Rows.{block};

/// A block is held where its address is in the list; finding a block uses its address, which goes first; a change that
/// keeps each block's address keeps the addresses; a block that is inserted goes first, and what is past the capacity
/// falls off the end; what is displaced is the block whose address comes first past the capacity, none where there is
/// none.
pub fn addresses_follow()
    ensures held { (list : List Held) (address : Address)
        → is_some (held_at list address) ≡ is_among (addresses_of list) address.0 }
    ensures promoted { (list : List Held) (address : Address)
        → addresses_of (promoted list address) ≡ used (addresses_of list) address.0 }
    ensures changed { (change : Held → Held) (list : List Held) (address : Address)
        → ((held : Held) → (change held).address ≡ held.address)
        → addresses_of (changed change list address) ≡ addresses_of list }
    ensures inserted { (capacity : ℕ) (held : Held) (list : List Held)
        → addresses_of (inserted capacity held list) ≡ take capacity (held.address.0 ∷ addresses_of list) }
    ensures displaced { (capacity : ℕ) (held : Held) (list : List Held)
        → option_map (λ h. h.address.0) (displaced capacity held list)
        ≡ slice_get (held.address.0 ∷ addresses_of list) capacity }
{}

/// Addresses stay distinct: where one is used, and where one that isn't there is put in front, as far as there is room.
/// Each test counts the same before and after, the address that is displaced included.
pub fn addresses_stay_distinct()
    ensures apart { (list : List ℕ) → AreDistinct list → AllPairs (λ earlier later. earlier ≢ later) list }
    ensures used { (list : List ℕ) (address : ℕ) → AreDistinct list → AreDistinct (used list address) }
    ensures used_length { (list : List ℕ) (address : ℕ) → length (used list address) ≡ length list }
    ensures used_counts { (p : ℕ → Bool) (list : List ℕ) (address : ℕ)
        → count_by p (used list address) ≡ count_by p list }
    ensures put { (capacity : ℕ) (list : List ℕ) (address : ℕ) → is_among list address ≡ false → AreDistinct list
        → AreDistinct (take capacity (address ∷ list)) }
    ensures put_counts { (p : ℕ → Bool) (capacity : ℕ) (list : List ℕ) (address : ℕ) → length list ≤ capacity
        → count_by p (take capacity (address ∷ list))
        + option_map_or (λ last. (if p last then 1 else 0)) (slice_get (address ∷ list) capacity) 0
        ≡ count_by p (address ∷ list) }
{}

/// Held blocks keep their values: where one is found, all; where one is changed, all others; where one is inserted, all
/// others but the one that is displaced, which was held and isn't any more.
pub fn held_blocks_keep_values()
    ensures promoted { (list : List Held) (found address : Address)
        → held_at (promoted list found) address ≡ held_at list address }
    ensures changed { (change : Held → Held) (list : List Held) (address : Address)
        → ((held : Held) → (change held).address ≡ held.address)
        → held_at (changed change list address) address ≡ option_map change (held_at list address) }
    ensures unchanged { (change : Held → Held) (list : List Held) (address other : Address)
        → ((held : Held) → (change held).address ≡ held.address) → other.0 ≢ address.0
        → held_at (changed change list address) other ≡ held_at list other }
    ensures inserted { (capacity : ℕ) (held : Held) (list : List Held) → 1 ≤ capacity
        → held_at (inserted capacity held list) held.address ≡ Some held }
    ensures kept { (capacity : ℕ) (held : Held) (list : List Held) (other : Address)
        → displaced capacity held list ≡ None → other.0 ≢ held.address.0
        → held_at (inserted capacity held list) other ≡ held_at list other }
    ensures left { (capacity : ℕ) (held last : Held) (list : List Held) (other : Address) → length list ≤ capacity
        → displaced capacity held list ≡ Some last → other.0 ≢ held.address.0 → other.0 ≢ last.address.0
        → held_at (inserted capacity held list) other ≡ held_at list other }
    ensures displaced { (capacity : ℕ) (held last : Held) (list : List Held) → 1 ≤ capacity → length list ≤ capacity
        → displaced capacity held list ≡ Some last → AreDistinct (addresses_of list)
        → is_among (addresses_of list) held.address.0 ≡ false → held_at list last.address ≡ Some last }
    ensures gone { (capacity : ℕ) (held last : Held) (list : List Held) → length list ≤ capacity
        → displaced capacity held list ≡ Some last → AreDistinct (addresses_of list)
        → is_among (addresses_of list) held.address.0 ≡ false
        → held_at (inserted capacity held list) last.address ≡ None }
{}

/// The definitions on a list of blocks 2 and 1 with room for two: block 1 that is found goes first; block 3 that is
/// inserted displaces block 1; a block that isn't held leaves the list. A list with an address twice isn't distinct.
pub fn laws_have_instances()
    ensures promoted { promoted (block 2 ∷ block 1 ∷ []) (record { 0 = 1 }) ≡ block 1 ∷ block 2 ∷ [] }
    ensures absent { promoted (block 2 ∷ block 1 ∷ []) (record { 0 = 3 }) ≡ block 2 ∷ block 1 ∷ [] }
    ensures inserted { inserted 2 (block 3) (block 2 ∷ block 1 ∷ []) ≡ block 3 ∷ block 2 ∷ [] }
    ensures displaced { displaced 2 (block 3) (block 2 ∷ block 1 ∷ []) ≡ Some (block 1) }
    ensures gone { held_at (inserted 2 (block 3) (block 2 ∷ block 1 ∷ [])) (record { 0 = 1 }) ≡ None }
    ensures used { used (2 ∷ 1 ∷ []) 1 ≡ 1 ∷ 2 ∷ [] }
    ensures distinct { AreDistinct (2 ∷ 1 ∷ []) }
    ensures twice { AreDistinct (1 ∷ 1 ∷ []) → ⊥ }
{}
