//! Laws of lists that are looked up by a test, of any elements. The functions do nothing: each states a law
//! in its contract.

ghost use Rattle.std.specs.Prelude.{◌≡◌, ℕ, ◌+◌, ◌<◌, ◌≤◌, ◌⊎◌, Bool, All, List, ◌∷◌, ◌++◌, Some, None, true, false};
ghost use Rattle.std.specs.Prelude.{length, take, drop, set, find, position, count_by, slice_index_or, if◌then◌else◌};
ghost use Rattle.std.specs.Option.{option_map};
ghost use Rattle.asc_base.specs.Has.{Has};
ghost use Rattle.asc_base.specs.Lookup.{without_first, changed_first, promoted_first};

/// What stands in a list: it stands at a place, what holds of all holds of it, and of two lists one behind the other
/// it stands in one.
pub fn items_stand_in_lists<T>()
    ensures place { (list : List T) (i : ℕ) (other : T) → i < length list → Has (slice_index_or list i other) list }
    ensures each { (test : T → Bool) (list : List T) (item : T) → All (λ x. test x ≡ true) list → Has item list
        → test item ≡ true }
    ensures all { (test : T → Bool) (list : List T) → ((item : T) → Has item list → test item ≡ true)
        → All (λ x. test x ≡ true) list }
    ensures parts { (first second : List T) (item : T) → Has item (first ++ second) → Has item first ⊎ Has item second }
    ensures first { (first second : List T) (item : T) → Has item first → Has item (first ++ second) }
    ensures second { (first second : List T) (item : T) → Has item second → Has item (first ++ second) }
{}

/// What is taken out of a list by a test: it is the list without the element at the first place that meets the test,
/// what was found counts for one of the list's, and what another test finds stays.
pub fn first_is_taken_out<T>()
    ensures place { (test : T → Bool) (list : List T) (i : ℕ) (other : T) → position test list ≡ Some i
        → (find test list ≡ Some (slice_index_or list i other))
        × (without_first test list ≡ take i list ++ drop (i + 1) list) }
    ensures found { (test : T → Bool) (list : List T) (found : T) → find test list ≡ Some found
        → (test found ≡ true) × Has found list }
    ensures none { (test : T → Bool) (list : List T) → find test list ≡ None → without_first test list ≡ list }
    ensures absent { (test : T → Bool) (list : List T) (item : T) → find test list ≡ None → Has item list
        → test item ≡ false }
    ensures left { (test : T → Bool) (list : List T) (item : T) → Has item (without_first test list) → Has item list }
    ensures length { (test : T → Bool) (list : List T) (found : T) → find test list ≡ Some found
        → length (without_first test list) + 1 ≡ length list }
    ensures counts { (p test : T → Bool) (list : List T) (found : T) → find test list ≡ Some found
        → count_by p (without_first test list) + (if p found then 1 else 0) ≡ count_by p list }
    ensures taken { (test : T → Bool) (list : List T) (found : T) → count_by test list ≤ 1
        → find test list ≡ Some found → find test (without_first test list) ≡ None }
    ensures others { (test other : T → Bool) (list : List T) → ((x : T) → test x ≡ true → other x ≡ false)
        → find other (without_first test list) ≡ find other list }
{}

/// What a change in place leaves: the list with the element at the first place that meets the test changed, what the
/// test finds, changed, and what another test finds.
pub fn first_is_changed<T>()
    ensures place { (change : T → T) (test : T → Bool) (list : List T) (i : ℕ) (other : T) → position test list ≡ Some i
        → changed_first change test list ≡ set list i (change (slice_index_or list i other)) }
    ensures found { (change : T → T) (test : T → Bool) (list : List T)
        → ((x : T) → test x ≡ true → test (change x) ≡ true)
        → find test (changed_first change test list) ≡ option_map change (find test list) }
    ensures others { (change : T → T) (test other : T → Bool) (list : List T)
        → ((x : T) → test x ≡ true → (other x ≡ false) × (other (change x) ≡ false))
        → find other (changed_first change test list) ≡ find other list }
{}

/// What a promotion leaves: the element that was found, in front of the others, all counts, and what each test finds.
pub fn first_is_promoted<T>()
    ensures front { (test : T → Bool) (list : List T) (found : T) → find test list ≡ Some found
        → promoted_first test list ≡ found ∷ without_first test list }
    ensures none { (test : T → Bool) (list : List T) → find test list ≡ None → promoted_first test list ≡ list }
    ensures counts { (p test : T → Bool) (list : List T) → count_by p (promoted_first test list) ≡ count_by p list }
    ensures found { (test : T → Bool) (list : List T) → find test (promoted_first test list) ≡ find test list }
    ensures others { (test other : T → Bool) (list : List T) → ((x : T) → test x ≡ true → other x ≡ false)
        → find other (promoted_first test list) ≡ find other list }
{}
