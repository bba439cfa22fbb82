//! Laws of counters, of what changes them, and of the lines that hold them. The functions do nothing: each states laws
//! in its contract.

ghost use Rattle.std.specs.Prelude.{◌≡◌, ◌≢◌, ℕ, ◌+◌, ◌^◌, ◌<◌, ◌≤◌, ◌==◌, ◌⊎◌, All, AllPairs, if◌then◌else◌};
ghost use Rattle.std.specs.Prelude.{◌-◌, ◌%◌, List, [], ◌∷◌, ◌++◌, length, map, take, replicate};
ghost use Rattle.std.specs.Prelude.{slice_index, slice_set};
ghost use Rattle.std.specs.Prelude.{is_none, false, None, Some};
ghost use Rattle.asc_base.specs.declared.block.Counter.{Counter};
ghost use Rattle.asc_base.specs.Bytes.{AreBytes};
ghost use Rattle.posmap_counters.specs.Group.{IsGroup, line_of, line_in, group_in};
ghost use Rattle.posmap_counters.specs.Counters.{Counters, counter_at, first_counter, IsBefore, IsNotAfter};
ghost use Rattle.posmap_counters.specs.Counters.{point_of, Change, block_of, changed_counter, after, after_all, points};
ghost use Rattle.posmap_counters.specs.Counters.{all_points};
ghost use Rattle.posmap_counters.specs.Counters.{Access, MoveChild, RenumberChild, child_move, siblings, group_move};
ghost use Rattle.posmap_counters.specs.Counters.{asked_changes};
ghost use Rattle.posmap_counters.specs.Counters.{HasRoom, NoneWraps};
ghost use Rattle.posmap_counters.specs.Bounds.{AreCounters};
ghost use Rattle.posmap_counters.specs.Families.{HasCounters, IsMoving, HasOneGroup, move_points, family_group};
ghost use Rattle.posmap_counters.specs.Families.{family_line, HasRoots};
ghost use Rattle.posmap_counters.specs.Group.{GroupState, first_group, stepped_group, moved_group, asked_group};
ghost use Rattle.posmap_counters.specs.Rows.{two_siblings, their_group};
ghost use Rattle.asc_base.specs.TreeShape.{layer_first, layer_count, parent_of, children_of};

/// Lines and groups are inverse: what is read from the line of a group is that group, and the line of the group that is
/// read from a line is that line. So every line is that of exactly one group.
pub fn lines_and_groups()
    ensures group { (group : GroupState) → IsGroup group → group_in (line_in group) ≡ group }
    ensures line { (line : List ℕ) → length line ≡ 64 → AreBytes line → line_in (group_in line) ≡ line }
    ensures zeros { line_in first_group ≡ replicate 64 0 }
{}

/// What is read from a line is a group, and a group that is stepped or moved is one.
pub fn groups_are_groups()
    ensures read { (line : List ℕ) → length line ≡ 64 → AreBytes line → IsGroup (group_in line) }
    ensures stepped { (ic child : ℕ) (group : GroupState) → ic ≤ 14 → IsGroup group
        → IsGroup (stepped_group ic group child) }
    ensures moved { (group : GroupState) → IsGroup (moved_group group) }
{}

/// The line of a position-map block by its children's counters. Where they share their group counter, they are those of
/// the family's group, which is read back from the line where they are in range; no other group has them; and the line
/// of a family that was never accessed is zeros.
pub fn families_have_lines()
    ensures family { (count : ℕ → Counter) (first number : ℕ) → number ≤ 32 → HasOneGroup count first number
        → HasCounters count first number (family_group count (first, number)) }
    ensures only { (count : ℕ → Counter) (first number : ℕ) (group : GroupState) → 1 ≤ number
        → length group.own ≡ 32 → HasCounters count first number group
        → group ≡ family_group count (first, number) }
    ensures group { (count : ℕ → Counter) (first number : ℕ) → number ≤ 32 → (count first).group < 2 ^ 64
        → ((child : ℕ) → child < number → (count (first + child)).own < 16384)
        → IsGroup (family_group count (first, number)) }
    ensures blank { (count : ℕ → Counter) (first number : ℕ) → 1 ≤ number
        → ((child : ℕ) → child < number → count (first + child) ≡ first_counter)
        → family_line count (first, number) ≡ replicate 64 0 }
{}

/// The order of counters is strict and total, and nothing is before (0,0).
pub fn counters_are_ordered()
    ensures irreflexive { (c : Counter) → IsBefore c c → ⊥ }
    ensures transitive { (c d e : Counter) → IsBefore c d → IsBefore d e → IsBefore c e }
    ensures before_then { (c d e : Counter) → IsBefore c d → IsNotAfter d e → IsBefore c e }
    ensures then_before { (c d e : Counter) → IsNotAfter c d → IsBefore d e → IsBefore c e }
    ensures not_after { (c d e : Counter) → IsNotAfter c d → IsNotAfter d e → IsNotAfter c e }
    ensures total { (c d : Counter) → IsBefore c d ⊎ IsNotAfter d c }
    ensures first { (c : Counter) → IsNotAfter first_counter c }
{}

/// A change gives its own block a counter, and leaves those of all others, as do changes one after another.
pub fn changes_are_of_one_block()
    ensures put { (lines layers : ℕ) (counters : Counters) (change : Change) (address : ℕ)
        → counter_at (after lines layers counters change) address
        ≡ (if address == block_of change then changed_counter lines layers counters change
        else counter_at counters address) }
    ensures block { (lines layers : ℕ) (counters : Counters) (change : Change)
        → counter_at (after lines layers counters change) (block_of change)
        ≡ changed_counter lines layers counters change }
    ensures other { (lines layers : ℕ) (counters : Counters) (change : Change) (address : ℕ)
        → address ≢ block_of change
        → counter_at (after lines layers counters change) address ≡ counter_at counters address }
    ensures others { (lines layers : ℕ) (counters : Counters) (changes : List Change) (address : ℕ)
        → All (λ change. address ≢ block_of change) changes
        → counter_at (after_all lines layers counters changes) address ≡ counter_at counters address }
{}

/// Counters rise: changes that wrap no group counter lower no block's counter, and each gives its own block a later
/// one.
pub fn counters_rise()
    ensures block { (lines layers : ℕ) (counters : Counters) (change : Change) → HasRoom lines layers counters change
        → IsBefore (counter_at counters (block_of change))
        (counter_at (after lines layers counters change) (block_of change)) }
    ensures others { (lines layers : ℕ) (counters : Counters) (change : Change) (address : ℕ)
        → HasRoom lines layers counters change
        → IsNotAfter (counter_at counters address) (counter_at (after lines layers counters change) address) }
    ensures all { (lines layers : ℕ) (counters : Counters) (changes : List Change) (address : ℕ)
        → NoneWraps lines layers counters changes
        → IsNotAfter (counter_at counters address) (counter_at (after_all lines layers counters changes) address) }
{}

/// No pair of an address and a counter is accessed twice, as long as no group counter wraps.
pub fn no_point_twice()
    ensures { (lines layers : ℕ) (counters : Counters) (changes : List Change) → NoneWraps lines layers counters changes
        → AllPairs (λ p q. p ≢ q) (all_points lines layers counters changes) }
{}

/// Changes one after another: those of two lists joined are those of the first, and then those of the second.
pub fn changes_join()
    ensures counters { (lines layers : ℕ) (counters : Counters) (xs ys : List Change)
        → after_all lines layers counters (xs ++ ys) ≡ after_all lines layers (after_all lines layers counters xs) ys }
    ensures points { (lines layers : ℕ) (counters : Counters) (xs ys : List Change)
        → all_points lines layers counters (xs ++ ys)
        ≡ all_points lines layers counters xs ++ all_points lines layers (after_all lines layers counters xs) ys }
    ensures room { (lines layers : ℕ) (counters : Counters) (xs ys : List Change) → NoneWraps lines layers counters xs
        → NoneWraps lines layers (after_all lines layers counters xs) ys → NoneWraps lines layers counters (xs ++ ys) }
{}

/// A change raises no group counter by more than one. So none wraps in changes that are few enough: from the start on,
/// in fewer than 2 ^ 64.
pub fn few_changes_wrap_none()
    ensures bound { (lines layers : ℕ) (counters : Counters) (changes : List Change) (bound : ℕ)
        → ((address : ℕ) → (counter_at counters address).group ≤ bound) → (address : ℕ)
        → (counter_at (after_all lines layers counters changes) address).group ≤ bound + length changes }
    ensures room { (lines layers : ℕ) (counters : Counters) (changes : List Change) (bound : ℕ)
        → ((address : ℕ) → (counter_at counters address).group ≤ bound) → bound + length changes < 2 ^ 64
        → NoneWraps lines layers counters changes }
    ensures start { (lines layers : ℕ) (changes : List Change) → length changes < 2 ^ 64
        → NoneWraps lines layers [] changes }
{}

/// A family, the children of one block, has the counters of a group: at the start those of the first group; after an
/// access to a child, whose own count isn't at its greatest, those of the stepped group; and changes of other families
/// leave them. So it has one group counter.
pub fn families_keep_counters()
    ensures start { (first number : ℕ) → HasCounters (counter_at []) first number first_group }
    ensures one_group { (count : ℕ → Counter) (first number : ℕ) (group : GroupState)
        → HasCounters count first number group → HasOneGroup count first number }
    ensures step { (lines layers : ℕ) (counters : Counters) (ic first number child : ℕ) (group : GroupState)
        → child < number → number ≤ length group.own → is_none (parent_of lines layers (first + child)) ≡ false
        → slice_index group.own child < 2 ^ ic - 1 → HasCounters (counter_at counters) first number group
        → HasCounters (counter_at (after lines layers counters (Access (first + child)))) first number
        (stepped_group ic group child) }
    ensures other { (lines layers : ℕ) (counters : Counters) (change : Change) (parent first number : ℕ)
        (group : GroupState) → parent < layer_first lines layers
        → children_of lines layers parent ≡ Some (first, number)
        → parent_of lines layers (block_of change) ≢ Some parent
        → HasCounters (counter_at counters) first number group
        → HasCounters (counter_at (after lines layers counters change)) first number group }
{}

/// A group move goes a child at a time, and each of its prefixes has its counters: the children that are done have the
/// next group counter, the others still theirs. In the end the family has the counters of the moved group.
pub fn families_move()
    ensures begins { (count : ℕ → Counter) (first number : ℕ) (group : GroupState)
        → HasCounters count first number group → IsMoving count first number 0 group }
    ensures child { (lines layers : ℕ) (counters : Counters) (first number done : ℕ) (group : GroupState)
        (held : List ℕ)
        → done < number → IsMoving (counter_at counters) first number done group
        → IsMoving (counter_at (after lines layers counters (child_move held (first + done)))) first number (done + 1)
        group }
    ensures ends { (count : ℕ → Counter) (first number : ℕ) (group : GroupState)
        → IsMoving count first number number group → HasCounters count first number (moved_group group) }
    ensures prefix { (lines layers : ℕ) (counters : Counters) (address parent first number done : ℕ)
        (group : GroupState) (held : List ℕ) → parent_of lines layers address ≡ Some parent
        → children_of lines layers parent ≡ Some (first, number) → done ≤ number
        → HasCounters (counter_at counters) first number group
        → IsMoving (counter_at (after_all lines layers counters (take done (group_move lines layers held address))))
        first number done group }
    ensures whole { (lines layers : ℕ) (counters : Counters) (address parent first number : ℕ) (group : GroupState)
        (held : List ℕ) → parent_of lines layers address ≡ Some parent
        → children_of lines layers parent ≡ Some (first, number) → HasCounters (counter_at counters) first number group
        → HasCounters (counter_at (after_all lines layers counters (group_move lines layers held address))) first number
        (moved_group group) }
{}

/// A group move has the points that the group gives. It is of the children of one block, and leaves the counters of all
/// others.
pub fn moves_are_of_one_family()
    ensures points { (lines layers : ℕ) (counters : Counters) (address parent first number : ℕ) (group : GroupState)
        (held : List ℕ) → parent_of lines layers address ≡ Some parent
        → children_of lines layers parent ≡ Some (first, number) → HasCounters (counter_at counters) first number group
        → all_points lines layers counters (group_move lines layers held address)
        ≡ move_points held first number group }
    ensures siblings { (lines layers address parent : ℕ) → address < layer_first lines layers
        → parent_of lines layers address ≡ Some parent
        → All (λ sibling. parent_of lines layers sibling ≡ Some parent) (siblings lines layers address) }
    ensures children { (lines layers address parent : ℕ) (held : List ℕ) → address < layer_first lines layers
        → parent_of lines layers address ≡ Some parent
        → All (λ change. parent_of lines layers (block_of change) ≡ Some parent)
        (group_move lines layers held address) }
    ensures others { (lines layers : ℕ) (counters : Counters) (held : List ℕ) (address parent other : ℕ)
        → address < layer_first lines layers → parent_of lines layers address ≡ Some parent
        → parent_of lines layers other ≢ Some parent
        → counter_at (after_all lines layers counters (group_move lines layers held address)) other
        ≡ counter_at counters other }
    ensures families { (lines layers : ℕ) (counters : Counters) (held : List ℕ)
        (address parent other first number : ℕ) (group : GroupState)
        → address < layer_first lines layers → parent_of lines layers address ≡ Some parent
        → other < layer_first lines layers → children_of lines layers other ≡ Some (first, number) → other ≢ parent
        → HasCounters (counter_at counters) first number group
        → HasCounters (counter_at (after_all lines layers counters (group_move lines layers held address))) first number
        group }
{}

/// What an access to a child changes, where a group has the counters of its family. Where the child's own count is at
/// least `2^ic - 1`, which is where a step answers `MustMove`, all children move first and then the child is accessed;
/// else the child alone is accessed. The family then has the counters that `Group::asked` makes.
pub fn asked_changes_are_steps()
    ensures must_move { (lines layers ic first number child : ℕ) (group : GroupState) (counters : Counters)
        (held : List ℕ) → child < number → HasCounters (counter_at counters) first number group
        → 2 ^ ic - 1 ≤ slice_index group.own child
        → asked_changes lines layers ic held counters (first + child)
        ≡ group_move lines layers held (first + child) ++ Access (first + child) ∷ [] }
    ensures stepped { (lines layers ic first number child : ℕ) (group : GroupState) (counters : Counters)
        (held : List ℕ) → child < number → HasCounters (counter_at counters) first number group
        → slice_index group.own child < 2 ^ ic - 1
        → asked_changes lines layers ic held counters (first + child) ≡ Access (first + child) ∷ [] }
    ensures counters { (lines layers ic parent first number child : ℕ) (group : GroupState) (counters : Counters)
        (held : List ℕ) → 1 ≤ ic → parent_of lines layers (first + child) ≡ Some parent
        → children_of lines layers parent ≡ Some (first, number) → child < number → number ≤ 32
        → length group.own ≡ 32 → HasCounters (counter_at counters) first number group
        → HasCounters (counter_at (after_all lines layers counters
        (asked_changes lines layers ic held counters (first + child)))) first number (asked_group ic group child) }
{}

/// The counters of the top layer, which are on chip: each is a group counter alone, 0 at the start. An access to a
/// block of that layer raises its own by one, and no group move comes before it; all other changes leave them.
pub fn roots_keep_counters()
    ensures place { (lines layers address : ℕ) → address < layer_first lines layers
        → parent_of lines layers address ≡ None → (layer_first lines (layers - 1) ≤ address)
        × (address - layer_first lines (layers - 1) < layer_count lines (layers - 1)) }
    ensures start { (lines layers number : ℕ) → HasRoots lines layers (counter_at []) (replicate number 0) }
    ensures step { (lines layers : ℕ) (counters : Counters) (address : ℕ) (roots : List ℕ)
        → length roots ≡ layer_count lines (layers - 1) → address < layer_first lines layers
        → parent_of lines layers address ≡ None → HasRoots lines layers (counter_at counters) roots
        → HasRoots lines layers (counter_at (after lines layers counters (Access address)))
        (slice_set roots (address - layer_first lines (layers - 1))
        ((slice_index roots (address - layer_first lines (layers - 1)) + 1) % 2 ^ 64)) }
    ensures other { (lines layers : ℕ) (counters : Counters) (change : Change) (roots : List ℕ)
        → parent_of lines layers (block_of change) ≢ None → HasRoots lines layers (counter_at counters) roots
        → HasRoots lines layers (counter_at (after lines layers counters change)) roots }
    ensures asked { (lines layers ic : ℕ) (counters : Counters) (held roots : List ℕ) (address : ℕ) → 1 ≤ ic
        → address < layer_first lines layers → parent_of lines layers address ≡ None
        → HasRoots lines layers (counter_at counters) roots
        → asked_changes lines layers ic held counters address ≡ Access address ∷ [] }
{}

/// Counters stay bounded: the two numbers of a counter are together at most the number of accesses, own counts have
/// their bits, those of the top layer are 0, and the children of one block share their group counter, unless they are
/// moving. This holds at the start and after each change, so that no group counter wraps in fewer than 2 ^ 64 accesses,
/// although a child that is renumbered isn't accessed: an own count has to reach its greatest before.
pub fn counters_are_bounded()
    ensures start { (lines layers ic : ℕ) → AreCounters lines layers ic (counter_at []) None 0 }
    ensures access { (lines layers ic : ℕ) (counters : Counters) (address accesses : ℕ)
        → address < layer_first lines layers → (counter_at counters address).own < 2 ^ ic - 1
        → AreCounters lines layers ic (counter_at counters) None accesses
        → AreCounters lines layers ic (counter_at (after lines layers counters (Access address))) None (accesses + 1) }
    ensures begins { (lines layers ic : ℕ) (count : ℕ → Counter) (parent accesses : ℕ)
        → AreCounters lines layers ic count None accesses → AreCounters lines layers ic count (Some parent) accesses }
    ensures child { (lines layers ic : ℕ) (counters : Counters) (address parent accesses : ℕ)
        → parent_of lines layers address ≡ Some parent
        → AreCounters lines layers ic (counter_at counters) (Some parent) accesses
        → AreCounters lines layers ic (counter_at (after lines layers counters (MoveChild address))) (Some parent)
        (accesses + 1) }
    ensures renumbered { (lines layers ic : ℕ) (counters : Counters) (address parent accesses : ℕ)
        → parent_of lines layers address ≡ Some parent → (counter_at counters address).group < accesses
        → AreCounters lines layers ic (counter_at counters) (Some parent) accesses
        → AreCounters lines layers ic (counter_at (after lines layers counters (RenumberChild address))) (Some parent)
        accesses }
    ensures ends { (lines layers ic : ℕ) (count : ℕ → Counter) (parent first number accesses : ℕ)
        → children_of lines layers parent ≡ Some (first, number) → HasOneGroup count first number
        → AreCounters lines layers ic count (Some parent) accesses → AreCounters lines layers ic count None accesses }
    ensures asked { (lines layers ic : ℕ) (counters : Counters) (held : List ℕ) (address accesses : ℕ) → 1 ≤ ic
        → address < layer_first lines layers → AreCounters lines layers ic (counter_at counters) None accesses
        → AreCounters lines layers ic
        (counter_at (after_all lines layers counters (asked_changes lines layers ic held counters address))) None
        (accesses + length (all_points lines layers counters (asked_changes lines layers ic held counters address))) }
    ensures room { (lines layers ic : ℕ) (counters : Counters) (held : List ℕ) (address accesses : ℕ) → 1 ≤ ic
        → address < layer_first lines layers → AreCounters lines layers ic (counter_at counters) None accesses
        → accesses + length (all_points lines layers counters (asked_changes lines layers ic held counters address))
        < 2 ^ 64 → NoneWraps lines layers counters (asked_changes lines layers ic held counters address) }
{}

/// The definitions on rows, and laws at instances: the line of a group counter of 1 and an own count of 5; two siblings
/// in 64 lines under three layers, of which the first is at the greatest own count of two bits, and the second held;
/// and a change without room, where the group counter would wrap.
pub fn laws_have_instances()
    ensures line { line_in (record { group = 1; own = 5 ∷ replicate 31 0 })
        ≡ replicate 7 0 ++ 1 ∷ 0 ∷ 20 ∷ replicate 54 0 }
    ensures group { family_group (counter_at two_siblings) (64, 2) ≡ their_group }
    ensures has { HasCounters (counter_at two_siblings) 64 2 their_group }
    ensures changes { asked_changes 64 3 2 (65 ∷ []) two_siblings 64
        ≡ MoveChild 64 ∷ RenumberChild 65 ∷ Access 64 ∷ [] }
    ensures points { all_points 64 3 two_siblings (asked_changes 64 3 2 (65 ∷ []) two_siblings 64)
        ≡ point_of 64 (record { group = 0; own = 3 }) ∷ point_of 64 (record { group = 1; own = 0 }) ∷ [] }
    ensures counters { map (counter_at (after_all 64 3 two_siblings
        (asked_changes 64 3 2 (65 ∷ []) two_siblings 64))) (64 ∷ 65 ∷ 66 ∷ [])
        ≡ record { group = 1; own = 1 } ∷ record { group = 1; own = 0 } ∷ first_counter ∷ [] }
    ensures moved { asked_group 2 their_group 0 ≡ record { group = 1; own = 1 ∷ replicate 31 0 } }
    ensures moving { IsMoving (counter_at (after 64 3 two_siblings (MoveChild 64))) 64 2 1 their_group }
    ensures roots { HasRoots 64 3 (counter_at (after 64 3 [] (Access 66))) (1 ∷ []) }
    ensures points_by_group { move_points (65 ∷ []) 64 2 their_group
        ≡ point_of 64 (record { group = 0; own = 3 }) ∷ [] }
    ensures wraps { HasRoom 64 3 ((66, record { group = 2 ^ 64 - 1; own = 0 }) ∷ []) (Access 66) → ⊥ }
{}
