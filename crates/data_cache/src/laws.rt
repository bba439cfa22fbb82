//! Laws of the cache's lists. The calls do nothing.

ghost use Rattle.std.specs.Prelude.{◌≡◌, ℕ, ◌+◌, ◌*◌, ◌%◌, ◌<◌, ◌≤◌, List, [], ◌∷◌, length, replicate};
ghost use Rattle.std.specs.Prelude.{Some, slice_index_or};
ghost use Rattle.std.specs.Option.{option_map_or};
ghost use Rattle.request_plan.specs.Plan.{Alike, Ends};
ghost use Rattle.rv32_core.specs.Access.{Access, IsAccess, slice_of, spliced};
ghost use Rattle.rv32_core.specs.LineList.{LineUse, Read, Write, WholeWrite};
ghost use Rattle.data_cache.specs.Lines.{Fetch, Store, IsLineAnswer};
ghost use Rattle.data_cache.specs.CacheLists.{Sets, Lines, no_lines, set_of, requests_of, requests_along, use_set};
ghost use Rattle.data_cache.specs.CacheLists.{Requests, line_in};
ghost use Rattle.data_cache.specs.CacheLists.{read_lines, write_lines, write_whole_line};
ghost use Rattle.data_cache.specs.Contents.{Contents, read_plan, write_plan, write_line_plan, find_line, held_in};
ghost use Rattle.data_cache.specs.declared.set.Held.{Held};
ghost use Rattle.data_cache.specs.Mirror.{Mirrors};
ghost use Rattle.data_cache.specs.Cached.{cache_access, lists_access, use_at, HasBytes, StandsAs, StandsLeft};
ghost use Rattle.data_cache.specs.Standing.{StandFor};
ghost use Rattle.asc_base.specs.declared.block.Line.{Line};

use crate::store::LineStore;

/// Where lists of kept lines and a list of bytes stand for what a cache holds, the cache asks its store as the lists
/// do, whatever lines are answered, and the lists and the list of bytes, in which each fetched line took its place,
/// stand for what it holds then; a read answers their bytes. After a stop they stand for it too.
pub fn asks_as_its_lists()
    ensures read { (count : ℕ) (cache : Contents) (lines : Lines) (line offset count_read : ℕ)
        → Mirrors count cache lines
        → line < count → offset + count_read ≤ 64
        → Alike IsLineAnswer
        (λ (left : Contents) (sets : Sets). Mirrors count left (record { memory = lines.memory; sets = sets }))
        (λ (a : Contents × List ℕ) (d : Lines × List ℕ). Mirrors count (a.0) (d.0) × (a.1 ≡ d.1))
        (read_plan cache line offset count_read) (read_lines (cache.ways) lines line offset count_read) }
    ensures write { (count : ℕ) (cache : Contents) (lines : Lines) (line offset : ℕ) (bytes : List ℕ)
        → Mirrors count cache lines → line < count → offset + length bytes ≤ 64
        → Alike IsLineAnswer
        (λ (left : Contents) (sets : Sets). Mirrors count left (record { memory = lines.memory; sets = sets }))
        (Mirrors count) (write_plan cache line offset bytes) (write_lines (cache.ways) lines line offset bytes) }
    ensures write_line { (count : ℕ) (cache : Contents) (lines : Lines) (line : ℕ) (value : Line)
        → Mirrors count cache lines → line < count → length (value.0) ≡ 64
        → Alike IsLineAnswer
        (λ (left : Contents) (sets : Sets). Mirrors count left (record { memory = lines.memory; sets = sets }))
        (Mirrors count) (write_line_plan cache line value) (write_whole_line (cache.ways) lines line (value.0)) }
    ensures access { (count base ways : ℕ) → base % 64 ≡ 0 → (cache : Contents) (lines : Lines) (access : Access)
        → StandsAs count ways cache lines → IsAccess base (64 * count) access → HasBytes access
        → Alike IsLineAnswer (StandsLeft count)
        (λ (a : Contents × List ℕ) (d : Lines × List ℕ). StandsAs count ways (a.0) (d.0) × (a.1 ≡ d.1))
        (cache_access base cache access) (lists_access base ways lines access) }
{}

/// A use makes exactly the requests of the lists, in order, whatever is answered: a dirty victim's store, and then
/// the fetch of a line that isn't kept, where the use needs its bytes.
/// And so does an access of a core to a memory whose first line begins at `base`.
pub fn uses_make_their_requests()
    ensures uses { (ways : ℕ) (memory : List ℕ) (sets : Sets) (use_of : LineUse)
        → Requests (use_set ways (set_of sets use_of.line) memory use_of) (requests_of ways memory sets use_of) }
    ensures accesses { (base ways : ℕ) (lists : Lines) (access : Access)
        → Requests (lists_access base ways lists access)
        (requests_of ways lists.memory lists.sets (use_at base access)) }
{}

/// A cache that holds nothing has empty lists, over any list of bytes.
pub fn empty_cache_has_empty_lists()
    ensures { (count sets ways : ℕ) (memory : List ℕ) → 0 < sets → 0 < ways → length memory ≡ 64 * count
        → Mirrors count (record { ways = ways; sets = replicate sets [] })
        (record { memory = memory; sets = no_lines sets }) }
{}

/// A cache and the list of its store stand for one list of bytes, each line of which is the held one, or else the
/// store's; and a cache that holds nothing, for the bytes of which the store's lines are the parts.
pub fn stand_for_one_list()
    ensures one { (cache : Contents) (list : List (List ℕ)) (memory : List ℕ) (n : ℕ) → StandFor cache list memory
        → n < length list → line_in memory n
        ≡ option_map_or (λ (h : Held). h.value.0) (find_line n (held_in cache n)) (slice_index_or list n []) }
    ensures start { (sets ways : ℕ) (list : List (List ℕ)) (memory : List ℕ) → 0 < sets → 0 < ways
        → length memory ≡ 64 * length list
        → ((n : ℕ) → n < length list → slice_index_or list n [] ≡ line_in memory n)
        → StandFor (record { ways = ways; sets = replicate sets [] }) list memory }
{}

/// Where the store's lines are told after a call, store and cache stand for a list of bytes if they did before it: a
/// read gives bytes of that list and leaves it, and a write changes its own bytes of it alone.
pub fn reads_the_flat_bytes<S: LineStore>()
    ensures read { (old new : S) (cache after : Contents) (line offset count : ℕ) (bytes memory : List ℕ)
        → line < S.lines old → offset + count ≤ 64
        → ((list : List (List ℕ)) → S.told old ≡ Some list → StandFor cache list memory)
        → Ends S.step (read_plan cache line offset count) old new (after, bytes)
        → (list : List (List ℕ)) → S.told new ≡ Some list
        → StandFor after list memory × (bytes ≡ slice_of memory (64 * line + offset) count) }
    ensures write { (old new : S) (cache after : Contents) (line offset : ℕ) (bytes memory : List ℕ)
        → line < S.lines old → offset + length bytes ≤ 64
        → ((list : List (List ℕ)) → S.told old ≡ Some list → StandFor cache list memory)
        → Ends S.step (write_plan cache line offset bytes) old new after
        → (list : List (List ℕ)) → S.told new ≡ Some list
        → StandFor after list (spliced memory (64 * line + offset) bytes) }
    ensures write_line { (old new : S) (cache after : Contents) (line : ℕ) (value : Line) (memory : List ℕ)
        → line < S.lines old → length (value.0) ≡ 64
        → ((list : List (List ℕ)) → S.told old ≡ Some list → StandFor cache list memory)
        → Ends S.step (write_line_plan cache line value) old new after
        → (list : List (List ℕ)) → S.told new ≡ Some list
        → StandFor after list (spliced memory (64 * line) (value.0)) }
{}

/// Worked rows: one set of one way, in which an image line is used and put out by line 1; one set of two ways; and a
/// line that is written twice and stored once.
pub fn worked_requests()
    ensures one_way { requests_along 1 [] (no_lines 1)
        (record { line = 0; kind = WholeWrite } ∷ record { line = 0; kind = Read } ∷ record { line = 1; kind = Read }
        ∷ record { line = 0; kind = Read } ∷ record { line = 0; kind = Read } ∷ [])
        ≡ Store 0 [] ∷ Fetch 1 ∷ Fetch 0 ∷ [] }
    ensures two_ways { requests_along 2 [] (no_lines 1)
        (record { line = 0; kind = Read } ∷ record { line = 1; kind = Read } ∷ record { line = 0; kind = Read }
        ∷ record { line = 2; kind = Read } ∷ record { line = 0; kind = Read } ∷ record { line = 1; kind = Read } ∷ [])
        ≡ Fetch 0 ∷ Fetch 1 ∷ Fetch 2 ∷ Fetch 1 ∷ [] }
    ensures stored_once { requests_along 1 [] (no_lines 1)
        (record { line = 0; kind = Write } ∷ record { line = 0; kind = Write } ∷ record { line = 1; kind = Read }
        ∷ record { line = 2; kind = Read } ∷ [])
        ≡ Fetch 0 ∷ Store 0 [] ∷ Fetch 1 ∷ Fetch 2 ∷ [] }
{}
