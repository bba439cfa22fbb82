//! Laws of a slot's parts. The functions do nothing: each states a law in its contract.

ghost use Rattle.std.specs.Prelude.{◌≡◌, ◌<◌, ◌+◌, ◌^◌, ◌⊎◌, ℕ, List, [], ◌∷◌, ◌++◌, length, Option, None, Some, Ok};
ghost use Rattle.std.specs.Prelude.{map, flat_map, take};
ghost use Rattle.asc_base.specs.Has.{Has};
ghost use Rattle.asc_base.specs.declared.block.Counter.{Counter};
ghost use Rattle.asc_base.specs.declared.block.Entry.{Entry};
ghost use Rattle.asc_base.specs.declared.block.Point.{Point};
ghost use Rattle.asc_base.specs.declared.block.Point.TheVariants.{Dummy};
ghost use Rattle.asc_base.specs.declared.shape.Shape.{Shape};
ghost use Rattle.bucket_codec.specs.Bucket.{opened};
ghost use Rattle.bus_watch.specs.Log.{LogLists, TapState};
ghost use Rattle.bus_watch.specs.declared.log.Event.TheVariants.{Tagged};
ghost use Rattle.oram_stash.specs.Entries.{without};
ghost use Rattle.oram_contents.specs.Contents.{Contents, after_write, entries_of};
ghost use Rattle.oram_contents.specs.Counts.{Ghost, line_at};
ghost use Rattle.oram_contents.specs.Entries.{Keys, AreKeys, real, message_of, entry_of};
ghost use Rattle.oram_contents.specs.Forgery.{Forgery, LastDrawn};
ghost use Rattle.oram_contents.specs.Home.{Home, AreInForm};
ghost use Rattle.oram_contents.specs.PathRead.{path_read};
ghost use Rattle.oram_contents.specs.PathWritten.{stays, sealed};
ghost use Rattle.oram_contents.specs.Provenance.{Always, Sound};
ghost use Rattle.oram_contents.specs.Shapes.{AreOfShape};
ghost use Rattle.oram_contents.specs.Slots.{drawn_events, IsRead, IsFound, IsPut, IsAccess, IsRefill, IsPass};
ghost use Rattle.oram_contents.specs.Slots.{MayDraw, MayRise};
ghost use Rattle.oram_contents.specs.Steps.{Adds, opened_at, taken, stored, landed, closed};
ghost use Rattle.oram_contents.specs.Verdict.{line_found};
ghost use Rattle.unified_tree.specs.Joined.{path_joined};
ghost use Rattle.unified_tree.specs.Left.{LeftByRead, LeftByReadCut, LeftByTake, LeftByPut, LeftByWrite};
ghost use Rattle.unified_tree.specs.Left.{LeftByPutCut, LeftByWriteCut};
ghost use Rattle.unified_tree.specs.Slot.{contents_of, WasRead};
ghost use Rattle.unified_tree.specs.Tree.{TreeState};
ghost use Rattle.unified_tree.specs.declared.stop.TreeStop.{TreeStop};

/// What the tree's calls leave of tree and tap are the steps on the contents that they are: a read after the events of
/// its slot's start, a put after its tag was noted, and a write; for every tag key and leaf function.
pub fn calls_step_contents()
    ensures read { (keys : Keys) (old : LogLists) (tap tap2 : TapState) (tree tree2 : TreeState) (start : ℕ)
        (asked : Option ℕ) (p : Point) → keys.shape ≡ tree.shape → keys.pads ≡ tree.key
        → Adds old tap.log (drawn_events keys start asked p) [] → tap2.log.events ≡ tap.log.events
        → WasRead tree.key tree.shape start (keys.leaf_of p) (Ok tt) tap tap2 tree.hand tree2.hand
        → AreOfShape tree.shape tree2.hand → IsRead keys old tap2.log (contents_of tree tap) start p tree2.hand }
    ensures put { (keys : Keys) (tap tap2 : TapState) (tree tree2 : TreeState) (a : ℕ) (c : Counter) (l : List ℕ)
        → tree2.hand ≡ tree.hand ++ entry_of keys a c l ∷ [] → tree2.seed ≡ tree.seed → tap2.mirror ≡ tap.mirror
        → Adds tap.log tap2.log (Tagged (message_of a c l) ∷ []) []
        → IsPut keys tap.log tap2.log (contents_of tree tap) (contents_of tree2 tap2) a c l }
    ensures write { (keys : Keys) (tap tap2 : TapState) (tree tree2 : TreeState) (leaf : ℕ) → keys.shape ≡ tree.shape
        → keys.pads ≡ tree.key → tree2.hand ≡ stays tree.shape.levels leaf tree.hand
        → tap2.mirror ≡ sealed tree.key tree.shape.levels leaf tree.seed tree.hand tap.mirror (tree.shape.levels + 1)
        → tree2.seed ≡ tree.seed + (tree.shape.levels + 1)
        → contents_of tree2 tap2 ≡ after_write keys.pads keys.shape.levels leaf (contents_of tree tap) }
{}

/// A path's read and its write, with what is found, taken and put between them, are one slot: a dummy's, one of a block
/// that is put back, or a refill's.
pub fn parts_make_slots()
    ensures pass { (keys : Keys) (old mid new : LogLists) (now after : Contents) (start n : ℕ) (joined : List Entry)
        → IsRead keys old mid now start (Dummy n) joined → Adds mid new [] []
        → after ≡ after_write keys.pads keys.shape.levels (keys.leaf_of (Dummy n)) (record now { hand = joined })
        → IsPass keys old new now after start n }
    ensures access { (keys : Keys) (old mid looked last new : LogLists) (now put after : Contents) (start a : ℕ)
        (c d : Counter) (joined : List Entry) (found : Option Entry) (l : List ℕ)
        → IsRead keys old mid now start (real a c) joined → IsFound keys mid looked joined a c found
        → IsPut keys looked last (record now { hand = without joined (record { 0 = a }) }) put a d l
        → Adds last new [] [] → after ≡ after_write keys.pads keys.shape.levels (keys.leaf_of (real a c)) put
        → IsAccess keys old new now after start a c d found l }
    ensures refill { (keys : Keys) (old mid looked new : LogLists) (now after : Contents) (start a : ℕ) (c : Counter)
        (joined : List Entry) (found : Option Entry)
        → IsRead keys old mid now start (real a c) joined → IsFound keys mid looked joined a c found
        → Adds looked new [] [] → after ≡ after_write keys.pads keys.shape.levels (keys.leaf_of (real a c))
        (record now { hand = without joined (record { 0 = a }) })
        → IsRefill keys old new now after start a c found }
{}

/// What is at hand after a path's read, up to its first evidence, is what was there, and behind it a beginning of the
/// entries that the replies have, by level and slot. Where there is no evidence it is the hand that the read says.
pub fn reads_join_a_beginning()
    ensures beginning { (key : List ℕ) (shape : Shape) (leaf : ℕ) (texts : List (List ℕ)) (hand : List Entry)
        → (n : ℕ) × (path_joined key shape leaf texts hand
        ≡ hand ++ take n (flat_map entries_of (map (opened key shape) texts))) }
    ensures whole { (key : List ℕ) (shape : Shape) (leaf : ℕ) (texts : List (List ℕ)) (hand joined : List Entry)
        → path_read key shape leaf texts hand ≡ Ok joined → path_joined key shape leaf texts hand ≡ joined }
{}

/// The tree's calls keep what is known of the contents, for every tag key and leaf function: after an answer, and after
/// a refusal, what holds always and what is known unless the log shows a forgery; and where no reply was altered each
/// block has one place. After a refused read what joined up to the first evidence is known too; where no reply was
/// altered there is no evidence, and each block stands where it stood. So it does after a write that broke off, whose
/// entries are still at hand. What is found by a take is the block's line, or the log shows a forgery. A refused put
/// has noted its message, and the hand is as it was.
pub fn calls_keep_contents()
    ensures read_always { (keys : Keys) (old : LogLists) (tap tap2 : TapState) (tree tree2 : TreeState) (start : ℕ)
        (asked : Option ℕ) (p : Point) → LeftByRead keys tap tap2 tree tree2 old start asked p
        → Always keys old (contents_of tree tap) → Always keys tap2.log (contents_of tree2 tap2) }
    ensures read_sound { (keys : Keys) (old : LogLists) (tap tap2 : TapState) (tree tree2 : TreeState) (start : ℕ)
        (asked : Option ℕ) (p : Point) → LeftByRead keys tap tap2 tree tree2 old start asked p
        → (g : Ghost) → g.path ≡ None → MayDraw g p → Sound keys old g (contents_of tree tap)
        → Sound keys tap2.log (opened_at g p (keys.leaf_of p)) (contents_of tree2 tap2) }
    ensures read_home { (keys : Keys) → AreKeys keys → (old : LogLists) (tap tap2 : TapState) (tree tree2 : TreeState)
        (start : ℕ) (asked : Option ℕ) (p : Point) → LeftByRead keys tap tap2 tree tree2 old start asked p
        → tap2.log.altered ≡ [] → (g : Ghost) → g.path ≡ None → Home keys g (contents_of tree tap)
        → Home keys (opened_at g p (keys.leaf_of p)) (contents_of tree2 tap2) }
    ensures read_cut_always { (keys : Keys) (old : LogLists) (tap tap2 : TapState) (tree tree2 : TreeState) (start : ℕ)
        (asked : Option ℕ) (p : Point) (stop : TreeStop)
        → LeftByReadCut keys tap tap2 tree tree2 old start asked p stop
        → Always keys old (contents_of tree tap) → Always keys tap2.log (contents_of tree2 tap2) }
    ensures read_cut_sound { (keys : Keys) (old : LogLists) (tap tap2 : TapState) (tree tree2 : TreeState) (start : ℕ)
        (asked : Option ℕ) (p : Point) (stop : TreeStop)
        → LeftByReadCut keys tap tap2 tree tree2 old start asked p stop
        → (g : Ghost) → g.path ≡ None → MayDraw g p → Sound keys old g (contents_of tree tap)
        → Sound keys tap2.log (opened_at g p (keys.leaf_of p)) (contents_of tree2 tap2) }
    ensures read_cut_home { (keys : Keys) → AreKeys keys → (old : LogLists) (tap tap2 : TapState)
        (tree tree2 : TreeState) (start : ℕ) (asked : Option ℕ) (p : Point) (stop : TreeStop)
        → LeftByReadCut keys tap tap2 tree tree2 old start asked p stop → tap2.log.altered ≡ []
        → AreInForm keys tap.mirror → Always keys old (contents_of tree tap)
        → (g : Ghost) → g.path ≡ None → Sound keys old g (contents_of tree tap) → Home keys g (contents_of tree tap)
        → Home keys g (contents_of tree2 tap2) }
    ensures take_always { (keys : Keys) (tap tap2 : TapState) (tree tree2 : TreeState) (a : ℕ) (c : Counter)
        (found : Option Entry) → LeftByTake keys tap tap2 tree tree2 a c found
        → Always keys tap.log (contents_of tree tap) → Always keys tap2.log (contents_of tree2 tap2) }
    ensures take_sound { (keys : Keys) → AreKeys keys → (tap tap2 : TapState) (tree tree2 : TreeState) (g : Ghost)
        (a : ℕ) (c : Counter) (found : Option Entry) → LeftByTake keys tap tap2 tree tree2 a (g.count a) found
        → g.path ≡ Some (keys.leaf_of (real a (g.count a))) → g.pend ≡ Some a
        → LastDrawn tap.log.events a (g.count a) → MayRise keys g a c
        → Always keys tap.log (contents_of tree tap) → Sound keys tap.log g (contents_of tree tap)
        → Forgery keys tap2.log ⊎ (Sound keys tap2.log (taken g a c) (contents_of tree2 tap2)
        × (line_found found ≡ line_at keys.shape g a)) }
    ensures take_home { (keys : Keys) (tap tap2 : TapState) (tree tree2 : TreeState) (g : Ghost) (a : ℕ) (c : Counter)
        (found : Option Entry) → LeftByTake keys tap tap2 tree tree2 a (g.count a) found → g.flight ≡ None
        → MayRise keys g a c → Home keys g (contents_of tree tap)
        → Home keys (taken g a c) (contents_of tree2 tap2) }
    ensures put_always { (keys : Keys) → AreKeys keys → (tap tap2 : TapState) (tree tree2 : TreeState) (a : ℕ)
        (c : Counter) (l : List ℕ) → LeftByPut keys tap tap2 tree tree2 a c l → a < keys.shape.total → length l ≡ 64
        → Always keys tap.log (contents_of tree tap) → Always keys tap2.log (contents_of tree2 tap2) }
    ensures put_sound { (keys : Keys) (tap tap2 : TapState) (tree tree2 : TreeState) (g : Ghost) (a : ℕ) (l : List ℕ)
        → LeftByPut keys tap tap2 tree tree2 a (g.count a) l → g.flight ≡ Some a → (Has a g.held → ⊥)
        → l ≡ line_at keys.shape (stored g a l) a → Sound keys tap.log g (contents_of tree tap)
        → Sound keys tap2.log (landed (stored g a l)) (contents_of tree2 tap2) }
    ensures put_home { (keys : Keys) (tap tap2 : TapState) (tree tree2 : TreeState) (g : Ghost) (a : ℕ) (l : List ℕ)
        → LeftByPut keys tap tap2 tree tree2 a (g.count a) l → g.flight ≡ Some a
        → Home keys g (contents_of tree tap) → Home keys (landed (stored g a l)) (contents_of tree2 tap2) }
    ensures put_cut_always { (keys : Keys) (tap tap2 : TapState) (tree tree2 : TreeState) (a : ℕ) (c : Counter)
        (l : List ℕ) → LeftByPutCut keys tap tap2 tree tree2 a c l
        → Always keys tap.log (contents_of tree tap) → Always keys tap2.log (contents_of tree2 tap2) }
    ensures put_cut_sound { (keys : Keys) (tap tap2 : TapState) (tree tree2 : TreeState) (g : Ghost) (a : ℕ)
        (l : List ℕ) → LeftByPutCut keys tap tap2 tree tree2 a (g.count a) l → g.flight ≡ Some a
        → (Has a g.held → ⊥) → l ≡ line_at keys.shape g a → Sound keys tap.log g (contents_of tree tap)
        → Sound keys tap2.log (landed g) (contents_of tree2 tap2) }
    ensures write_always { (keys : Keys) → AreKeys keys → (tap tap2 : TapState) (tree tree2 : TreeState) (leaf : ℕ)
        → LeftByWrite keys tap tap2 tree tree2 leaf → leaf < 2 ^ keys.shape.levels → tree.seed < 2 ^ 63
        → Always keys tap.log (contents_of tree tap) → Always keys tap2.log (contents_of tree2 tap2) }
    ensures write_sound { (keys : Keys) → AreKeys keys → (tap tap2 : TapState) (tree tree2 : TreeState) (leaf : ℕ)
        → LeftByWrite keys tap tap2 tree tree2 leaf → leaf < 2 ^ keys.shape.levels → tree.seed < 2 ^ 63
        → Always keys tap.log (contents_of tree tap) → (g : Ghost) → g.path ≡ Some leaf
        → Sound keys tap.log g (contents_of tree tap) → Sound keys tap2.log (closed g) (contents_of tree2 tap2) }
    ensures write_home { (keys : Keys) → AreKeys keys → (tap tap2 : TapState) (tree tree2 : TreeState) (leaf : ℕ)
        → LeftByWrite keys tap tap2 tree tree2 leaf → leaf < 2 ^ keys.shape.levels → tree.seed < 2 ^ 63
        → Always keys tap.log (contents_of tree tap) → (g : Ghost) → g.path ≡ Some leaf
        → Home keys g (contents_of tree tap) → Home keys (closed g) (contents_of tree2 tap2) }
    ensures write_cut_always { (keys : Keys) → AreKeys keys → (tap tap2 : TapState) (tree tree2 : TreeState)
        (leaf level used : ℕ) → LeftByWriteCut keys tap tap2 tree tree2 leaf level used
        → leaf < 2 ^ keys.shape.levels → tree.seed < 2 ^ 63
        → Always keys tap.log (contents_of tree tap) → Always keys tap2.log (contents_of tree2 tap2) }
    ensures write_cut_sound { (keys : Keys) (tap tap2 : TapState) (tree tree2 : TreeState) (leaf level used : ℕ)
        → LeftByWriteCut keys tap tap2 tree tree2 leaf level used → (g : Ghost) → g.path ≡ Some leaf
        → Sound keys tap.log g (contents_of tree tap) → Sound keys tap2.log g (contents_of tree2 tap2) }
    ensures write_cut_home { (keys : Keys) (tap tap2 : TapState) (tree tree2 : TreeState) (leaf level used : ℕ)
        → LeftByWriteCut keys tap tap2 tree tree2 leaf level used → (g : Ghost) → g.path ≡ Some leaf
        → Home keys g (contents_of tree tap) → Home keys g (contents_of tree2 tap2) }
{}
