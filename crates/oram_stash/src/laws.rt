//! Laws of entries in order of arrival. The functions do nothing: each states a law in its contract.

ghost use Rattle.std.specs.Prelude.{◌≡◌, ◌≢◌, ℕ, ◌+◌, ◌≤◌, Bool, true, false, List, [], ◌∷◌, ◌++◌, Option, Some, None};
ghost use Rattle.std.specs.Prelude.{is_some, is_none, length, count_by, slice_get, if◌then◌else◌};
ghost use Rattle.asc_base.specs.Has.{Has};
ghost use Rattle.asc_base.specs.declared.block.Address.{Address};
ghost use Rattle.asc_base.specs.declared.block.Entry.{Entry};
ghost use Rattle.path_evict.specs.Placed.{where_placed};
ghost use Rattle.oram_stash.specs.Entries.{is_of, held, without, AreApart, IsPlacedAmong};

/// What is held under an address is the first entry of that address, and where addresses differ the only one.
pub fn addresses_find_entries()
    ensures found { (entries : List Entry) (address : Address) (entry : Entry) → held entries address ≡ Some entry
        → (entry.address.0 ≡ address.0) × Has entry entries }
    ensures absent { (entries : List Entry) (address : Address) (entry : Entry) → held entries address ≡ None
        → Has entry entries → entry.address.0 ≢ address.0 }
    ensures alone { (entries : List Entry) (entry : Entry) → AreApart entries → Has entry entries
        → held entries entry.address ≡ Some entry }
    ensures one { (entries : List Entry) (address : Address) → AreApart entries
        → count_by (is_of address) entries ≤ 1 }
{}

/// Two entries whose addresses differ: each is held under its address, and is left without the other.
pub fn two_entries_are_apart()
    ensures apart { (first second : Entry) → first.address.0 ≢ second.address.0 → AreApart (first ∷ second ∷ []) }
    ensures held { (first second : Entry) → first.address.0 ≢ second.address.0
        → (held (first ∷ second ∷ []) first.address ≡ Some first)
        × (held (first ∷ second ∷ []) second.address ≡ Some second) }
    ensures left { (first second : Entry) → first.address.0 ≢ second.address.0
        → (without (first ∷ second ∷ []) first.address ≡ second ∷ [])
        × (without (first ∷ second ∷ []) second.address ≡ first ∷ []) }
{}

/// What is left when the entry of an address is taken out: the others, in order. What was taken counts for one.
pub fn others_are_left()
    ensures none { (entries : List Entry) (address : Address) → held entries address ≡ None
        → without entries address ≡ entries }
    ensures length { (entries : List Entry) (address : Address) (entry : Entry) → held entries address ≡ Some entry
        → length (without entries address) + 1 ≡ length entries }
    ensures counts { (p : Entry → Bool) (entries : List Entry) (address : Address) (entry : Entry)
        → held entries address ≡ Some entry
        → count_by p (without entries address) + (if p entry then 1 else 0) ≡ count_by p entries }
    ensures others { (entries : List Entry) (address other : Address) → address.0 ≢ other.0
        → held (without entries address) other ≡ held entries other }
    ensures gone { (entries : List Entry) (address : Address) → AreApart entries
        → held (without entries address) address ≡ None }
    ensures left { (entries : List Entry) (address : Address) (entry : Entry) → AreApart entries
        → Has entry (without entries address) → Has entry entries × (entry.address.0 ≢ address.0) }
    ensures apart { (entries : List Entry) (address : Address) → AreApart entries
        → AreApart (without entries address) }
{}

/// What is held when one entry more has arrived. Addresses still differ where none was held under its address.
pub fn last_entry_is_found()
    ensures held { (entries : List Entry) (last : Entry) (address : Address) → held (entries ++ last ∷ []) address
        ≡ (if is_some (held entries address) then held entries address else held (last ∷ []) address) }
    ensures counts { (p : Entry → Bool) (entries : List Entry) (last : Entry)
        → count_by p (entries ++ last ∷ []) ≡ count_by p entries + (if p last then 1 else 0) }
    ensures apart { (entries : List Entry) (last : Entry) → AreApart entries → held entries last.address ≡ None
        → AreApart (entries ++ last ∷ []) }
{}

/// What is held among the entries that are placed somewhere, or that stay.
pub fn placed_entries_are_found()
    ensures none { (test : Option ℕ → Bool) (places : List (Option ℕ)) (entries : List Entry) (address : Address)
        → held entries address ≡ None → held (where_placed test places entries) address ≡ None }
    ensures found { (test : Option ℕ → Bool) (places : List (Option ℕ)) (entries : List Entry) (address : Address)
        (entry : Entry) → AreApart entries → held (where_placed test places entries) address ≡ Some entry
        → held entries address ≡ Some entry }
    ensures apart { (test : Option ℕ → Bool) (places : List (Option ℕ)) (entries : List Entry) → AreApart entries
        → AreApart (where_placed test places entries) }
{}

/// The entries whose place meets a test are as many as the places that do, each stands beside such a place, and an
/// entry beside a place is found exactly where that place does. So of two entries of which the first alone has a place,
/// the first is placed, and the second stays.
pub fn places_decide_entries()
    ensures counts { (test : Option ℕ → Bool) (places : List (Option ℕ)) (entries : List Entry)
        → length places ≡ length entries → length (where_placed test places entries) ≡ count_by test places }
    ensures placed { (test : Option ℕ → Bool) (places : List (Option ℕ)) (entries : List Entry) (entry : Entry)
        → Has entry (where_placed test places entries) → IsPlacedAmong test places entries entry }
    ensures found { (test : Option ℕ → Bool) (places : List (Option ℕ)) (entries : List Entry) (at : ℕ)
        (place : Option ℕ) (entry : Entry) → AreApart entries → slice_get places at ≡ Some place
        → slice_get entries at ≡ Some entry → test place ≡ true
        → held (where_placed test places entries) entry.address ≡ Some entry }
    ensures absent { (test : Option ℕ → Bool) (places : List (Option ℕ)) (entries : List Entry) (at : ℕ)
        (place : Option ℕ) (entry : Entry) → AreApart entries → slice_get places at ≡ Some place
        → slice_get entries at ≡ Some entry → test place ≡ false
        → held (where_placed test places entries) entry.address ≡ None }
    ensures two { (first second : Entry) (level : ℕ)
        → (where_placed is_some (Some level ∷ None ∷ []) (first ∷ second ∷ []) ≡ first ∷ [])
        × (where_placed is_none (Some level ∷ None ∷ []) (first ∷ second ∷ []) ≡ second ∷ []) }
{}
