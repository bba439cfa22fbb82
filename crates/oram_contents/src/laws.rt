//! Laws of contents and of the invariant. The functions do nothing: each states a law in its contract.

ghost use Rattle.std.specs.Prelude.{IsTrue, ◌↔◌, true, count_by, ◌==◌, ◌*◌, ◌≡◌, ◌<◌, ◌≤◌, ◌+◌, ◌-◌, ◌%◌, ◌^◌, ◌⊎◌, ℕ};
ghost use Rattle.std.specs.Prelude.{suc, false, List, [], ◌∷◌, ◌++◌, length, All, replicate, slice_index, slice_set};
ghost use Rattle.std.specs.Prelude.{Bool, Option, None, Some, Ok, flat_map, slice_get, slice_index_or};
ghost use Rattle.asc_base.specs.Shape.{IsShape, shape_of};
ghost use Rattle.bucket_codec.specs.Pad.{pad_key};
ghost use Rattle.leaf_function.specs.Leaf.{leaf_key};
ghost use Rattle.pmmac_tags.specs.Tag.{tag_key};
ghost use Rattle.asc_base.specs.TreeShape.{parent_of, children_of};
ghost use Rattle.asc_base.specs.declared.block.Counter.{Counter};
ghost use Rattle.asc_base.specs.declared.block.Entry.{Entry};
ghost use Rattle.asc_base.specs.declared.block.Message.{Message};
ghost use Rattle.asc_base.specs.declared.block.Point.{Point};
ghost use Rattle.bus_watch.specs.Log.{LogLists};
ghost use Rattle.bus_watch.specs.declared.log.Altered.{Altered};
ghost use Rattle.bus_watch.specs.declared.log.Event.{Event};
ghost use Rattle.bus_watch.specs.declared.log.Move.{Move};
ghost use Rattle.bus_watch.specs.declared.log.Event.TheVariants.{Tagged, Answered};
ghost use Rattle.oram_stash.specs.Entries.{without};
ghost use Rattle.asc_base.specs.declared.shape.Shape.{Shape};
ghost use Rattle.posmap_counters.specs.Counters.{IsBefore, first_counter, next_group, next_own};
ghost use Rattle.posmap_counters.specs.Group.{group_of, own_of};
ghost use Rattle.oram_contents.specs.Contents.{Contents, after_write, IsReadTo};
ghost use Rattle.oram_contents.specs.Entries.{Keys, AreKeys, keys_by, real, message_of, entry_of};
ghost use Rattle.oram_contents.specs.Entries.{entries_in, entries_at};
ghost use Rattle.asc_base.specs.Has.{Has};
ghost use Rattle.oram_contents.specs.Counts.{Ghost, IsAway, line_at, put_at};
ghost use Rattle.oram_contents.specs.Chip.{HeldBlock, Chip, AreGroups, first_chip, root_place, root_stepped};
ghost use Rattle.oram_contents.specs.Chip.{with_group};
ghost use Rattle.oram_contents.specs.Chip.{addresses, recount_held, with_held, with_used};
ghost use Rattle.oram_contents.specs.Groups.{IsGroupOf, AreCounters, AreSmall, moved_of};
ghost use Rattle.oram_contents.specs.Home.{Home, AreInForm, copies, flying, total};
ghost use Rattle.oram_contents.specs.Fold.{Fold, IsCut, LogEnd, Whole, with_entry, is_open_for, fold_events, whole};
ghost use Rattle.oram_contents.specs.Fold.{contents_of_log};
ghost use Rattle.bus_watch.specs.Path.{along, reads, slot_moves, writes_start};
ghost use Rattle.asc_base.specs.TreeShape.{bucket_of, move_cycles, shared_of};
ghost use Rattle.bucket_codec.specs.Bucket.{Holds, bucket_text, opened, seed_in, slot_entries};
ghost use Rattle.oram_contents.specs.Copies.{copies_to};
ghost use Rattle.oram_contents.specs.PathWritten.{places_of, sealed, slots_at, stays};
ghost use Rattle.path_evict.specs.Placed.{taken_at};
ghost use Rattle.oram_stash.specs.Entries.{AreApart};
ghost use Rattle.oram_stash.specs.Entries.{held};
ghost use Rattle.oram_contents.specs.Shapes.{AreOfShape};
ghost use Rattle.asc_base.specs.TreeShape.{layer_first};
ghost use Rattle.asc_base.specs.declared.block.Line.{Line};
ghost use Rattle.oram_contents.specs.PathRead.{path_read, replies, reply_at};
ghost use Rattle.oram_contents.specs.Verdict.{judged, line_found, first_of, append_verdict, log_verdict, note_events};
ghost use Rattle.oram_contents.specs.Verdict.{put_events, IsOfPoint, slot_verdict};
ghost use Rattle.oram_contents.specs.Decided.{draws, shows_forgery};
ghost use Rattle.oram_contents.specs.Forgery.{Forgery, LastDrawn};
ghost use Rattle.oram_contents.specs.Provenance.{Sound, Always};
ghost use Rattle.oram_contents.specs.Steps.{Adds, opened_at, raised, taken, stored, landed, closed, inserted};
ghost use Rattle.oram_contents.specs.Starts.{empty_log, first_ghost, first_contents, first_slot, altered_log};
ghost use Rattle.asc_base.specs.declared.block.Point.TheVariants.{Dummy};
ghost use Rattle.asc_outside.specs.Memory.{zero_buckets};
ghost use Rattle.oram_contents.specs.Slots.{drawn_events, MayDraw, IsRead, IsFound, MayRise, IsPut, HasSeeds, IsAccess};
ghost use Rattle.oram_contents.specs.Slots.{IsRefill};
ghost use Rattle.oram_contents.specs.Slots.{IsPass, IsEnd, ArePasses, IsBetween, done, refilled, passed_by};

/// The contents of a log that a slot lengthens are the slot's step on the contents before.
pub fn slots_step_contents()
    ensures access { (keys : Keys) (first : Fold) (old new : LogLists) (now after : Contents) (start a : ℕ)
        (c d : Counter) (found : Option Entry) (l : List ℕ)
        → ((reply : Altered) → Has reply old.altered → reply.before ≤ length old.events)
        → whole keys first old ≡ now → IsAccess keys old new now after start a c d found l
        → whole keys first new ≡ after }
    ensures refill { (keys : Keys) (first : Fold) (old new : LogLists) (now after : Contents) (start a : ℕ)
        (c : Counter) (found : Option Entry)
        → ((reply : Altered) → Has reply old.altered → reply.before ≤ length old.events)
        → whole keys first old ≡ now → IsRefill keys old new now after start a c found
        → (whole keys first new ≡ after) × ((fold_events keys new.altered 0 new.events first).path
        ≡ Some (real a c, keys.leaf_of (real a c))) }
    ensures pass { (keys : Keys) (first : Fold) (old new : LogLists) (now after : Contents) (start n : ℕ)
        → ((reply : Altered) → Has reply old.altered → reply.before ≤ length old.events)
        → whole keys first old ≡ now → IsPass keys old new now after start n → whole keys first new ≡ after }
    ensures append { (keys : Keys) (first : Fold) (old new : LogLists) (now : Contents) (m : Message)
        → whole keys first old ≡ now
        → is_open_for m (fold_events keys old.altered 0 old.events first).path ≡ false
        → new.events ≡ old.events ++ Tagged m ∷ [] → new.altered ≡ old.altered
        → whole keys first new ≡ with_entry now (entry_of keys m.address.0 m.counter m.line.0) }
{}

/// The verdict on a log that a slot, an append, a slot's end or an answer lengthens: that before, and else that of the
/// slot or the append.
pub fn verdicts_are_the_first()
    ensures slot { (keys : Keys) (stash : ℕ) (first : Fold) (old new : LogLists) (start : ℕ) (asked : Option ℕ)
        (p : Point) (note : Option (Message × List ℕ)) (put : Option Message) (extra : List Altered)
        → ((reply : Altered) → Has reply old.altered → reply.before ≤ length old.events)
        → new.events ≡ old.events ++ (drawn_events keys start asked p ++ (note_events note ++ put_events put))
        → new.altered ≡ old.altered ++ extra
        → All (λ (reply : Altered). reply.before ≡ length old.events + 2) extra → IsOfPoint put p
        → log_verdict keys stash first new ≡ first_of (log_verdict keys stash first old)
        (slot_verdict keys stash p (keys.leaf_of p) (path_read keys.pads keys.shape (keys.leaf_of p)
        (replies keys.shape.levels start (keys.leaf_of p) (whole keys first old).mirror extra)
        (whole keys first old).hand) put) }
    ensures append { (keys : Keys) (stash : ℕ) (first : Fold) (old new : LogLists) (m : Message)
        → is_open_for m (fold_events keys old.altered 0 old.events first).path ≡ false
        → new.events ≡ old.events ++ Tagged m ∷ [] → new.altered ≡ old.altered
        → log_verdict keys stash first new
        ≡ first_of (log_verdict keys stash first old) (append_verdict stash m.address (whole keys first old).hand) }
    ensures ended { (keys : Keys) (stash : ℕ) (first : Fold) (old new : LogLists) → IsEnd old new
        → log_verdict keys stash first new ≡ log_verdict keys stash first old }
    ensures answered { (keys : Keys) (stash : ℕ) (first : Fold) (old new : LogLists) (line : ℕ) (value : Line)
        → new.events ≡ old.events ++ Answered line value ∷ [] → new.altered ≡ old.altered
        → log_verdict keys stash first new ≡ log_verdict keys stash first old }
{}

/// A forgery stays one however the log goes on.
pub fn forgeries_stay()
    ensures { (keys : Keys) (old new : LogLists) (events : List Event) (altered : List Altered)
        → Adds old new events altered → Forgery keys old → Forgery keys new }
{}

/// What a forgery accepts stood in a slot of an altered reply that is in the form, with address, line and tag.
pub fn forged_lines_were_held()
    ensures { (keys : Keys) (log : LogLists) (f : Forgery keys log)
        → (e : Entry) × Holds keys.pads keys.shape f.reply.bytes e × (e.address.0 ≡ f.message.address.0)
        × (e.line.0 ≡ f.message.line.0) × (e.tag ≡ f.found) }
{}

/// Whether a log shows a forgery is a test of its lists.
pub fn forgeries_are_decided()
    ensures { (keys : Keys) (log : LogLists) → IsTrue (shows_forgery keys log) ↔ Forgery keys log }
{}

/// A path read keeps the invariant.
pub fn reads_keep()
    ensures sound { (keys : Keys) (old new : LogLists) (g : Ghost) (now : Contents) (start : ℕ) (p : Point)
        (joined : List Entry) → IsRead keys old new now start p joined → g.path ≡ None → MayDraw g p
        → Sound keys old g now → Sound keys new (opened_at g p (keys.leaf_of p)) (record now { hand = joined }) }
    ensures always { (keys : Keys) (old new : LogLists) (g : Ghost) (now : Contents) (start : ℕ) (p : Point)
        (joined : List Entry) → IsRead keys old new now start p joined
        → Always keys old now → Always keys new (record now { hand = joined }) }
{}

/// A block is taken out of the hand and comes to a later counter: the invariant is kept, and what was found has the
/// block's line, or the log shows a forgery.
pub fn takes_keep()
    ensures sound { (keys : Keys) → AreKeys keys → (old new : LogLists) (g : Ghost) (now : Contents) (a : ℕ)
        (c : Counter) (found : Option Entry) → g.path ≡ Some (keys.leaf_of (real a (g.count a))) → g.pend ≡ Some a
        → LastDrawn old.events a (g.count a) → MayRise keys g a c
        → IsFound keys old new now.hand a (g.count a) found → Always keys old now → Sound keys old g now
        → Forgery keys new
        ⊎ (Sound keys new (taken g a c) (record now { hand = without now.hand (record { 0 = a }) })
        × (line_found found ≡ line_at keys.shape g a)) }
    ensures always { (keys : Keys) (old new : LogLists) (now : Contents) (a : ℕ) (c : Counter) (found : Option Entry)
        → IsFound keys old new now.hand a c found → Always keys old now
        → Always keys new (record now { hand = without now.hand (record { 0 = a }) }) }
{}

/// The block in flight is put back: a line of it is stored, tagged under its counter, and joins the hand.
pub fn puts_keep()
    ensures sound { (keys : Keys) (old new : LogLists) (g : Ghost) (now after : Contents) (a : ℕ) (l : List ℕ)
        → g.flight ≡ Some a → (Has a g.held → ⊥) → l ≡ line_at keys.shape (stored g a l) a
        → IsPut keys old new now after a (g.count a) l → Sound keys old g now
        → Sound keys new (landed (stored g a l)) after }
    ensures always { (keys : Keys) → AreKeys keys → (old new : LogLists) (now after : Contents) (a : ℕ) (c : Counter)
        (l : List ℕ) → a < keys.shape.total → length l ≡ 64
        → ((e : Entry) → Has e now.hand → e.address.0 ≡ a → ⊥) → IsPut keys old new now after a c l
        → Always keys old now → Always keys new after }
{}

/// The open path is written, and closed by it.
pub fn writes_keep()
    ensures sound { (keys : Keys) → AreKeys keys → (log : LogLists) (now : Contents) (leaf : ℕ)
        → leaf < 2 ^ keys.shape.levels → HasSeeds now → Always keys log now → (g : Ghost) → g.path ≡ Some leaf
        → Sound keys log g now → Sound keys log (closed g) (after_write keys.pads keys.shape.levels leaf now) }
    ensures always { (keys : Keys) → AreKeys keys → (log : LogLists) (now : Contents) (leaf : ℕ)
        → leaf < 2 ^ keys.shape.levels → HasSeeds now → Always keys log now
        → Always keys log (after_write keys.pads keys.shape.levels leaf now) }
{}

/// A slot or an append that stops keeps what is known; what comes after it is of the log alone. A slot stops in its
/// reads with nothing joined to the hand, whatever they gave; in its writes, behind any number of them, with those
/// buckets of the open path written, any number of seeds used up, and the hand as it was. An append whose address is
/// at hand leaves its message noted, and the hand as it was.
pub fn stops_keep()
    ensures reading { (keys : Keys) (old new : LogLists) (now : Contents) (start : ℕ) (asked : Option ℕ) (p : Point)
        (altered : List Altered) → Adds old new (drawn_events keys start asked p) altered
        → (g : Ghost) → g.path ≡ None → MayDraw g p → Sound keys old g now
        → Sound keys new (opened_at g p (keys.leaf_of p)) now }
    ensures reading_always { (keys : Keys) (old new : LogLists) (now : Contents) (start : ℕ) (asked : Option ℕ)
        (p : Point) (altered : List Altered)
        → Adds old new (drawn_events keys start asked p) altered
        → All (λ (reply : Altered). reply.before ≡ length old.events + 2) altered
        → Always keys old now → Always keys new now }
    ensures writing { (keys : Keys) (log : LogLists) (g : Ghost) (now : Contents) (leaf n : ℕ) → g.path ≡ Some leaf
        → n ≤ keys.shape.levels + 1 → Sound keys log g now
        → Sound keys log g (record now {
          mirror = sealed keys.pads keys.shape.levels leaf now.seed now.hand now.mirror n;
        }) }
    ensures writing_always { (keys : Keys) → AreKeys keys → (log : LogLists) (now : Contents) (leaf n used : ℕ)
        → leaf < 2 ^ keys.shape.levels → n ≤ keys.shape.levels + 1 → HasSeeds now → Always keys log now
        → Always keys log (record now {
          mirror = sealed keys.pads keys.shape.levels leaf now.seed now.hand now.mirror n;
          seed = now.seed + used;
        }) }
    ensures appending { (keys : Keys) (old new : LogLists) (g : Ghost) (now : Contents) (a : ℕ) (l : List ℕ)
        → g.flight ≡ Some a → (Has a g.held → ⊥) → l ≡ line_at keys.shape g a
        → Adds old new (Tagged (message_of a (g.count a) l) ∷ []) [] → Sound keys old g now
        → Sound keys new (landed g) now }
    ensures appending_always { (keys : Keys) (old new : LogLists) (now : Contents) (m : Message)
        → Adds old new (Tagged m ∷ []) [] → Always keys old now → Always keys new now }
{}

/// An access after which the block is put back: the invariant is kept, and what was found has the block's line, or the
/// log shows a forgery.
pub fn accesses_keep()
    ensures sound { (keys : Keys) → AreKeys keys → (old new : LogLists) (g : Ghost) (now after : Contents) (start a : ℕ)
        (c : Counter) (found : Option Entry) (l : List ℕ)
        → IsAccess keys old new now after start a (g.count a) c found l
        → IsBetween g → g.pend ≡ Some a → MayRise keys g a c → (Has a g.held → ⊥)
        → l ≡ line_at keys.shape (done g a c l) a → length l ≡ 64 → HasSeeds now
        → Always keys old now → Sound keys old g now
        → Forgery keys new ⊎ (Sound keys new (done g a c l) after × (line_found found ≡ line_at keys.shape g a)) }
    ensures always { (keys : Keys) → AreKeys keys → (old new : LogLists) (g : Ghost) (now after : Contents)
        (start a : ℕ) (c : Counter) (found : Option Entry) (l : List ℕ)
        → IsAccess keys old new now after start a (g.count a) c found l
        → a < keys.shape.total → length l ≡ 64 → HasSeeds now → Always keys old now → Always keys new after }
{}

/// The same for a refill, after which the block is in flight.
pub fn refills_keep()
    ensures sound { (keys : Keys) → AreKeys keys → (old new : LogLists) (g : Ghost) (now after : Contents) (start a : ℕ)
        (c : Counter) (found : Option Entry) → IsRefill keys old new now after start a (g.count a) found
        → g.path ≡ None → g.pend ≡ Some a → MayRise keys g a c → HasSeeds now
        → Always keys old now → Sound keys old g now
        → Forgery keys new ⊎ (Sound keys new (refilled g a c) after × (line_found found ≡ line_at keys.shape g a)) }
    ensures always { (keys : Keys) → AreKeys keys → (old new : LogLists) (g : Ghost) (now after : Contents)
        (start a : ℕ) (c : Counter) (found : Option Entry) → IsRefill keys old new now after start a (g.count a) found
        → HasSeeds now → Always keys old now → Always keys new after }
{}

/// A slot's end, with a choice or without, changes neither contents nor what is known of them; nor does an answer.
pub fn ends_keep()
    ensures contents { (keys : Keys) (first : Fold) (old new : LogLists) → IsEnd old new
        → whole keys first new ≡ whole keys first old }
    ensures sound { (keys : Keys) (old new : LogLists) (g : Ghost) (now : Contents) → IsEnd old new
        → Sound keys old g now → Sound keys new g now }
    ensures always { (keys : Keys) (old new : LogLists) (now : Contents) → IsEnd old new
        → Always keys old now → Always keys new now }
    ensures forgery { (keys : Keys) (old new : LogLists) → IsEnd old new → Forgery keys old → Forgery keys new }
    ensures answered { (keys : Keys) (old new : LogLists) (now : Contents) (line : ℕ) (value : Line)
        → Adds old new (Answered line value ∷ []) [] → (g : Ghost) → Sound keys old g now → Sound keys new g now }
    ensures answered_always { (keys : Keys) (old new : LogLists) (now : Contents) (line : ℕ) (value : Line)
        → Adds old new (Answered line value ∷ []) [] → Always keys old now → Always keys new now }
    ensures answered_contents { (keys : Keys) (first : Fold) (old new : LogLists) (line : ℕ) (value : Line)
        → Adds old new (Answered line value ∷ []) [] → whole keys first new ≡ whole keys first old }
{}

/// Dummies, however many, each with the choice at its end where one falls, keep what is known, whichever block waits
/// for its slot or is in flight.
pub fn dummies_keep()
    ensures contents { (keys : Keys) → AreKeys keys → (k : ℕ) (first : Fold) (old new : LogLists) (g : Ghost)
        (now after : Contents) (n : ℕ) → ArePasses keys k old new now after n
        → Always keys old now → whole keys first old ≡ now → Always keys new after × (whole keys first new ≡ after) }
    ensures sound { (keys : Keys) → AreKeys keys → (k : ℕ) (old new : LogLists) (g : Ghost) (now after : Contents)
        (n : ℕ) → ArePasses keys k old new now after n → g.path ≡ None → n ≡ g.dummies
        → Always keys old now → Sound keys old g now
        → Always keys new after × Sound keys new (passed_by k g) after }
    ensures home { (keys : Keys) → AreKeys keys → (k : ℕ) (old new : LogLists) (g : Ghost) (now after : Contents)
        (n : ℕ) → ArePasses keys k old new now after n → new.altered ≡ [] → g.path ≡ None
        → Always keys old now → Home keys g now → Always keys new after × Home keys (passed_by k g) after }
{}

/// Between slots: the block in flight is held, or put at hand; a held one is renumbered; a block's slot comes next; and
/// a group move begins, is further by a child or ends, or a parent is a step ahead of a block.
pub fn changes_between_keep()
    ensures inserted { (keys : Keys) → AreKeys keys → (log : LogLists) (g : Ghost) (now : Contents) (plb a : ℕ)
        → g.flight ≡ Some a → Sound keys log g now → Sound keys log (inserted g plb a) now }
    ensures appended { (keys : Keys) (old new : LogLists) (g : Ghost) (now after : Contents) (a : ℕ) (l : List ℕ)
        → g.flight ≡ Some a → (Has a g.held → ⊥) → l ≡ line_at keys.shape g a
        → IsPut keys old new now after a (g.count a) l → Sound keys old g now → Sound keys new (landed g) after }
    ensures renumbered { (keys : Keys) → AreKeys keys → (log : LogLists) (g : Ghost) (now : Contents) (a : ℕ)
        (c : Counter) → IsAway g a → IsBefore (g.count a) c
        → ((p : ℕ) → parent_of keys.shape.lines keys.shape.layers a ≡ Some p → IsAway g p)
        → Sound keys log g now → Sound keys log (raised g a c g.pend) now }
    ensures next { (keys : Keys) → AreKeys keys → (log : LogLists) (g : Ghost) (now : Contents) (a : ℕ)
        → g.pend ≡ None → Sound keys log g now → Sound keys log (record g { pend = Some a }) now }
    ensures marked { (keys : Keys) (log : LogLists) (g : Ghost) (now : Contents) (move : Option (ℕ × ℕ))
        (stepped : Option ℕ) → Sound keys log g now
        → Sound keys log (record g { move = move; stepped = stepped }) now }
{}

/// Where no reply is altered each block that was accessed has one place, and every other block has none: over a path's
/// read, a block that is taken out, a path's write, and so over whole slots; and over what comes between them.
pub fn blocks_are_home()
    ensures read { (keys : Keys) → AreKeys keys → (g : Ghost) (now : Contents) (start leaf : ℕ) (joined : List Entry)
        (dummies : ℕ) → leaf < 2 ^ keys.shape.levels → g.path ≡ None
        → IsReadTo keys.pads keys.shape start leaf [] now joined → Home keys g now
        → Home keys (record g { path = Some leaf; dummies = dummies }) (record now { hand = joined }) }
    ensures taken { (keys : Keys) (g : Ghost) (now : Contents) (a : ℕ) (c : Counter) (found : Option Entry)
        → g.flight ≡ None → IsBefore (g.count a) c → held now.hand (record { 0 = a }) ≡ found
        → judged keys a (g.count a) found ≡ None → Home keys g now
        → Home keys (taken g a c) (record now { hand = without now.hand (record { 0 = a }) }) }
    ensures written { (keys : Keys) → AreKeys keys → (g : Ghost) (now : Contents) (leaf : ℕ)
        → leaf < 2 ^ keys.shape.levels → g.path ≡ Some leaf → AreOfShape keys.shape now.hand
        → length now.mirror ≡ keys.shape.buckets → 0 < now.seed → HasSeeds now → Home keys g now
        → Home keys (closed g) (after_write keys.pads keys.shape.levels leaf now) }
    ensures access { (keys : Keys) → AreKeys keys → (old new : LogLists) (g : Ghost) (now after : Contents)
        (start a : ℕ) (c : Counter) (found : Option Entry) (l : List ℕ)
        → IsAccess keys old new now after start a (g.count a) c found l → new.altered ≡ []
        → g.path ≡ None → g.flight ≡ None → a < keys.shape.total → length l ≡ 64 → IsBefore (g.count a) c → HasSeeds now
        → Always keys old now → Home keys g now → Home keys (done g a c l) after }
    ensures refill { (keys : Keys) → AreKeys keys → (old new : LogLists) (g : Ghost) (now after : Contents)
        (start a : ℕ) (c : Counter) (found : Option Entry)
        → IsRefill keys old new now after start a (g.count a) found → new.altered ≡ []
        → g.path ≡ None → g.flight ≡ None → IsBefore (g.count a) c → HasSeeds now
        → Always keys old now → Home keys g now → Home keys (refilled g a c) after }
    ensures inserted { (keys : Keys) (g : Ghost) (now : Contents) (plb a : ℕ) → g.flight ≡ Some a
        → length g.held ≤ plb → Home keys g now → Home keys (inserted g plb a) now }
    ensures appended { (keys : Keys) (g : Ghost) (now : Contents) (a : ℕ) (e : Entry) → e.address.0 ≡ a
        → g.flight ≡ Some a → Home keys g now → Home keys (landed g) (with_entry now e) }
    ensures renumbered { (keys : Keys) (g : Ghost) (now : Contents) (a : ℕ) (c : Counter) (pend : Option ℕ)
        → IsBefore first_counter (g.count a) → IsBefore (g.count a) c → Home keys g now
        → Home keys (raised g a c pend) now }
{}

/// The group of a block on chip goes on showing its children's counters: as it is read from the block's line, over the
/// step of a child and the child's slot, and over a group move, a child at a time.
pub fn groups_show_counters()
    ensures read { (shape : Shape) (g : Ghost) (p first number : ℕ) (l : List ℕ) → IsShape shape → p < shape.total
        → children_of shape.lines shape.layers p ≡ Some (first, number)
        → ((k : ℕ) → k < number → g.stepped ≡ Some (first + k) → ⊥) → moved_of g.move p ≡ 0
        → l ≡ line_at shape g p → AreCounters shape g → IsGroupOf shape g p (group_of l) (own_of l) }
    ensures stepped { (shape : Shape) (g : Ghost) (p first number group : ℕ) (own : List ℕ) (child : ℕ)
        → children_of shape.lines shape.layers p ≡ Some (first, number) → child < number → number ≤ length own
        → g.stepped ≡ None → moved_of g.move p ≡ 0 → IsGroupOf shape g p group own
        → IsGroupOf shape (record g { stepped = Some (first + child) }) p group
        (slice_set own child (slice_index own child + 1)) }
    ensures taken { (shape : Shape) (g : Ghost) (p first number group : ℕ) (own : List ℕ) (child : ℕ)
        → children_of shape.lines shape.layers p ≡ Some (first, number) → child < number
        → g.stepped ≡ Some (first + child) → moved_of g.move p ≡ 0 → IsGroupOf shape g p group own
        → IsGroupOf shape (record g {
          count = put_at g.count (first + child) (next_own (g.count (first + child)));
          stepped = None;
        }) p group own }
    ensures moved { (shape : Shape) (g : Ghost) (p first number group : ℕ) (own : List ℕ) (child : ℕ)
        → children_of shape.lines shape.layers p ≡ Some (first, number) → child < number
        → g.stepped ≡ None → g.move ≡ Some (p, child) → IsGroupOf shape g p group own
        → IsGroupOf shape (record g {
          count = put_at g.count (first + child) (next_group (g.count (first + child)));
          move = Some (p, child + 1);
        }) p group own }
    ensures ended { (shape : Shape) (g : Ghost) (p first number group : ℕ) (own : List ℕ)
        → children_of shape.lines shape.layers p ≡ Some (first, number)
        → g.stepped ≡ None → g.move ≡ Some (p, number) → IsGroupOf shape g p group own
        → IsGroupOf shape (record g { move = None }) p ((group + 1) % 2 ^ 64) (replicate 32 0) }
{}

/// Whatever is altered or forged, each bucket's bytes stay in the form of a bucket: from the start on, and over every
/// slot.
pub fn buckets_stay_in_form()
    ensures start { (keys : Keys) → AreInForm keys (zero_buckets keys.shape.buckets) }
    ensures access { (keys : Keys) → AreKeys keys → (old new : LogLists) (g : Ghost) (now after : Contents)
        (start a : ℕ) (c : Counter) (found : Option Entry) (l : List ℕ)
        → IsAccess keys old new now after start a (g.count a) c found l → a < keys.shape.total → length l ≡ 64
        → HasSeeds now → Always keys old now → AreInForm keys now.mirror → AreInForm keys after.mirror }
    ensures refill { (keys : Keys) → AreKeys keys → (old new : LogLists) (g : Ghost) (now after : Contents)
        (start a : ℕ) (found : Option Entry) → IsRefill keys old new now after start a (g.count a) found
        → HasSeeds now → Always keys old now → AreInForm keys now.mirror → AreInForm keys after.mirror }
    ensures dummies { (keys : Keys) → AreKeys keys → (k : ℕ) (old new : LogLists) (g : Ghost) (now after : Contents)
        (n : ℕ) → ArePasses keys k old new now after n → Always keys old now → AreInForm keys now.mirror
        → Always keys new after × AreInForm keys after.mirror }
{}

/// The start is sound and at home, and there is a first slot of each kind. Of the logs of two slots with an altered
/// reply one shows a forgery: the line that stood in the reply is accepted, and another one was put back. None is shown
/// where the line that was put back is accepted, whether it stood in the reply or another one did, nor where a line is
/// accepted that didn't stand there. The test of lists says so. The one that shows a forgery is a log of two slots, an
/// access and a refill that finds what stood in the reply, where the paths of both share the root alone: the reply
/// stands in its place then, and hides the line that was put back (elsewhere on the path that would be `Doubled`).
pub fn instances_are_there()
    ensures sound { (keys : Keys) → Sound keys empty_log first_ghost (first_contents keys) }
    ensures always { (keys : Keys) → Always keys empty_log (first_contents keys) }
    ensures home { (keys : Keys) → Home keys first_ghost (first_contents keys) }
    ensures dummy { (keys : Keys) → AreKeys keys → (start : ℕ)
        → ArePasses keys 1 empty_log (first_slot keys start (Dummy 0) []) (first_contents keys)
        (after_write keys.pads keys.shape.levels (keys.leaf_of (Dummy 0)) (first_contents keys)) 0 }
    ensures access { (keys : Keys) → AreKeys keys → (start a : ℕ) (c : Counter) (l : List ℕ)
        → IsAccess keys empty_log (first_slot keys start (real a first_counter) (Tagged (message_of a c l) ∷ []))
        (first_contents keys) (after_write keys.pads keys.shape.levels (keys.leaf_of (real a first_counter))
        (with_entry (first_contents keys) (entry_of keys a c l))) start a first_counter c None l }
    ensures refill { (keys : Keys) → AreKeys keys → (start a : ℕ)
        → IsRefill keys empty_log (first_slot keys start (real a first_counter) []) (first_contents keys)
        (after_write keys.pads keys.shape.levels (keys.leaf_of (real a first_counter)) (first_contents keys)) start a
        first_counter None }
    ensures two_slots { (keys : Keys) → AreKeys keys → (a : ℕ) (c : Counter) → a < keys.shape.total
        → (c ≡ first_counter → ⊥) → (put found : List ℕ) → length found ≡ 64
        → shared_of keys.shape.levels (keys.leaf_of (real a first_counter)) (keys.leaf_of (real a c)) ≡ 0
        → (mid : LogLists) × (between : Contents) × (after : Contents)
        × IsAccess keys empty_log mid (first_contents keys) between 256 a first_counter c None put
        × IsRefill keys mid (altered_log keys a c put found found) between after 1008 a c
        (Some (entry_of keys a c found)) }
    ensures forged { (keys : Keys) → AreKeys keys → (a : ℕ) (c : Counter) → a < keys.shape.total
        → (put found : List ℕ) → length found ≡ 64 → (found ≡ put → ⊥)
        → Forgery keys (altered_log keys a c put found found) }
    ensures forged_shown { (keys : Keys) → AreKeys keys → (a : ℕ) (c : Counter) → a < keys.shape.total
        → (put found : List ℕ) → length found ≡ 64 → (found ≡ put → ⊥)
        → shows_forgery keys (altered_log keys a c put found found) ≡ true }
    ensures tagged { (keys : Keys) (a : ℕ) (c : Counter) (put stood : List ℕ)
        → Forgery keys (altered_log keys a c put stood put) → ⊥ }
    ensures tagged_shown { (keys : Keys) (a : ℕ) (c : Counter) (put stood : List ℕ)
        → shows_forgery keys (altered_log keys a c put stood put) ≡ false }
    ensures elsewhere { (keys : Keys) → AreKeys keys → (a : ℕ) (c : Counter) → a < keys.shape.total
        → (put stood found : List ℕ) → length stood ≡ 64 → (found ≡ stood → ⊥)
        → Forgery keys (altered_log keys a c put stood found) → ⊥ }
{}

/// Three keys are keys of every shape that there is: each leaf is one of its tree's. So those are that a chip derives
/// from its master key.
pub fn chips_have_keys()
    ensures shape { (shape : Shape) (pads tags leaves : List ℕ) → IsShape shape
        → AreKeys (keys_by shape pads tags leaves) }
    ensures sized { (lines roots : ℕ) (pads tags leaves : List ℕ) → 1 ≤ lines → lines ≤ 262144 → 1 ≤ roots
        → AreKeys (keys_by (shape_of lines roots) pads tags leaves) }
    ensures derived { (lines roots : ℕ) (master : List ℕ) → 1 ≤ lines → lines ≤ 262144 → 1 ≤ roots
        → AreKeys (keys_by (shape_of lines roots) (pad_key master) (tag_key master) (leaf_key master)) }
{}

/// Where no reply is altered no path read gives evidence, and what is found for a block is right.
pub fn honest_slots_pass()
    ensures read { (keys : Keys) → AreKeys keys → (log : LogLists) (g : Ghost) (now : Contents) → log.altered ≡ []
        → Always keys log now → Sound keys log g now → Home keys g now → (start leaf : ℕ)
        → leaf < 2 ^ keys.shape.levels → g.path ≡ None → AreInForm keys now.mirror
        → (joined : List Entry) × IsReadTo keys.pads keys.shape start leaf [] now joined }
    ensures found { (keys : Keys) → AreKeys keys → (log : LogLists) (g : Ghost) (now : Contents) → log.altered ≡ []
        → Always keys log now → Sound keys log g now → Home keys g now → (a : ℕ) → a < keys.shape.total
        → g.path ≡ Some (keys.leaf_of (real a (g.count a))) → count_by (λ b. b == a) g.held ≡ 0 → flying a g.flight ≡ 0
        → judged keys a (g.count a) (held now.hand (record { 0 = a })) ≡ None }
    ensures written { (keys : Keys) → AreKeys keys → (leaf : ℕ) (now : Contents) → leaf < 2 ^ keys.shape.levels
        → AreOfShape keys.shape now.hand → length now.mirror ≡ keys.shape.buckets → 0 < now.seed → HasSeeds now
        → AreInForm keys now.mirror → AreInForm keys (after_write keys.pads keys.shape.levels leaf now).mirror }
{}

/// The contents of a log by how it ended. Where the last move was a write that failed, or in which memory ran out, the
/// buckets above are written; where it was a read, none is; and after a finished slot all are.
pub fn ends_show_contents()
    ensures write { (keys : Keys) (first : Fold) (log : LogLists) (before : List Move) (end : LogEnd)
        (start level : ℕ) (p : Point) (leaf : ℕ) → IsCut end → level ≤ keys.shape.levels
        → log.moves ≡ before ++ (reads keys.shape.levels start leaf
        ++ along keys.shape.levels true (writes_start keys.shape.levels start) leaf (level + 1))
        → (fold_events keys log.altered 0 log.events first).path ≡ Some (p, leaf)
        → (contents_of_log keys first log end).mirror
        ≡ sealed keys.pads keys.shape.levels leaf (fold_events keys log.altered 0 log.events first).now.seed
        (fold_events keys log.altered 0 log.events first).now.hand
        (fold_events keys log.altered 0 log.events first).now.mirror level }
    ensures read { (keys : Keys) (first : Fold) (log : LogLists) (before : List Move) (end : LogEnd) (start n leaf : ℕ)
        → log.moves ≡ before ++ along keys.shape.levels false start leaf (suc n)
        → (contents_of_log keys first log end).mirror ≡ (fold_events keys log.altered 0 log.events first).now.mirror }
    ensures finished { (keys : Keys) (first : Fold) (log : LogLists) (before : List Move) (start leaf : ℕ)
        → log.moves ≡ before ++ slot_moves keys.shape.levels start leaf
        → contents_of_log keys first log Whole ≡ whole keys first log }
{}

/// The chip goes on showing the counters of all blocks: at the start, where a block's slot comes next, where a block of
/// the top layer or the first held block is stepped, and where a child's slot takes it.
pub fn chip_shows_counters()
    ensures start { (shape : Shape) (plb roots : ℕ) → AreGroups shape plb first_ghost (first_chip roots) }
    ensures waits { (shape : Shape) → IsShape shape → (plb : ℕ) (g : Ghost) (chip : Chip) → AreGroups shape plb g chip
        → (a : ℕ)
        → ((p : ℕ) → parent_of shape.lines shape.layers a ≡ Some p → (rest : List ℕ) × (g.held ≡ p ∷ rest))
        → AreGroups shape plb (record g { pend = Some a }) chip }
    ensures root { (shape : Shape) → IsShape shape → (plb : ℕ) (g : Ghost) (chip : Chip) → AreGroups shape plb g chip
        → (a : ℕ) → a < shape.total → parent_of shape.lines shape.layers a ≡ None
        → root_place shape a < length chip.roots → g.stepped ≡ None
        → AreGroups shape plb (record g { stepped = Some a }) (root_stepped shape a chip) }
    ensures stepped { (shape : Shape) → IsShape shape → (plb : ℕ) (g : Ghost) (roots : List ℕ) (h : HeldBlock)
        (rest : List HeldBlock) → AreGroups shape plb g (record { roots = roots; held = h ∷ rest })
        → (first number child : ℕ) → children_of shape.lines shape.layers h.address ≡ Some (first, number)
        → child < number → number ≤ length h.group.own → g.stepped ≡ None → moved_of g.move h.address ≡ 0
        → AreGroups shape plb (record g { stepped = Some (first + child) }) (record {
          roots = roots;
          held = with_group h (record {
            group = h.group.group;
            own = slice_set h.group.own child (slice_index h.group.own child + 1);
          }) ∷ rest;
        }) }
    ensures taken { (shape : Shape) → IsShape shape → (plb : ℕ) (g : Ghost) (roots : List ℕ) (h : HeldBlock)
        (rest : List HeldBlock) → AreGroups shape plb g (record { roots = roots; held = h ∷ rest })
        → (first number child : ℕ) → children_of shape.lines shape.layers h.address ≡ Some (first, number)
        → child < number → g.stepped ≡ Some (first + child) → moved_of g.move h.address ≡ 0
        → (Has (first + child) g.held → ⊥)
        → AreGroups shape plb (taken g (first + child) (next_own (g.count (first + child))))
        (record { roots = roots; held = h ∷ rest }) }
    ensures root_taken { (shape : Shape) → IsShape shape → (plb : ℕ) (g : Ghost) (chip : Chip)
        → AreGroups shape plb g chip → (a : ℕ) → a < shape.total → parent_of shape.lines shape.layers a ≡ None
        → g.stepped ≡ Some a → (Has a g.held → ⊥) → AreGroups shape plb (taken g a (next_group (g.count a))) chip }
{}

/// So it does over a group move, in which each child is moved in its slot or, where it is held, renumbered; and where a
/// block is held or a held one is used.
pub fn chip_shows_moves()
    ensures begins { (shape : Shape) → IsShape shape → (plb : ℕ) (g : Ghost) (roots : List ℕ) (h : HeldBlock)
        (rest : List HeldBlock) → AreGroups shape plb g (record { roots = roots; held = h ∷ rest }) → g.move ≡ None
        → AreGroups shape plb (record g { move = Some (h.address, 0) }) (record { roots = roots; held = h ∷ rest }) }
    ensures child { (shape : Shape) → IsShape shape → (plb : ℕ) (g : Ghost) (roots : List ℕ) (h : HeldBlock)
        (rest : List HeldBlock) → AreGroups shape plb g (record { roots = roots; held = h ∷ rest })
        → (first number child : ℕ) → children_of shape.lines shape.layers h.address ≡ Some (first, number)
        → child < number → g.stepped ≡ None → g.move ≡ Some (h.address, child) → (Has (first + child) g.held → ⊥)
        → AreGroups shape plb (record (taken g (first + child) (next_group (g.count (first + child)))) {
          move = Some (h.address, child + 1);
        }) (record { roots = roots; held = h ∷ rest }) }
    ensures renumbered { (shape : Shape) → IsShape shape → (plb : ℕ) (g : Ghost) (roots : List ℕ) (h : HeldBlock)
        (rest : List HeldBlock) → AreGroups shape plb g (record { roots = roots; held = h ∷ rest })
        → (first number child : ℕ) → children_of shape.lines shape.layers h.address ≡ Some (first, number)
        → child < number → g.stepped ≡ None → g.move ≡ Some (h.address, child)
        → AreGroups shape plb (record g {
          count = put_at g.count (first + child) (next_group (g.count (first + child)));
          move = Some (h.address, child + 1);
        }) (record {
          roots = roots;
          held = h ∷ recount_held (first + child) (next_group (g.count (first + child))) rest;
        }) }
    ensures ends { (shape : Shape) → IsShape shape → (plb : ℕ) (g : Ghost) (roots : List ℕ) (h : HeldBlock)
        (rest : List HeldBlock) → AreGroups shape plb g (record { roots = roots; held = h ∷ rest })
        → (first number : ℕ) → children_of shape.lines shape.layers h.address ≡ Some (first, number) → g.stepped ≡ None
        → g.move ≡ Some (h.address, number) → AreGroups shape plb (record g { move = None }) (record {
          roots = roots;
          held = with_group h (record { group = (h.group.group + 1) % 2 ^ 64; own = replicate 32 0 }) ∷ rest;
        }) }
    ensures inserted { (shape : Shape) (plb : ℕ) (g : Ghost) (chip : Chip) → AreGroups shape plb g chip
        → (h : HeldBlock) → h.counter ≡ g.count h.address
        → IsGroupOf shape g h.address h.group.group h.group.own → (Has h.address g.held → ⊥)
        → h.address < shape.total → (family : ℕ × ℕ) × (children_of shape.lines shape.layers h.address ≡ Some family)
        → g.pend ≡ None → AreGroups shape plb (inserted g plb h.address) (with_held plb h chip) }
    ensures used { (shape : Shape) (plb : ℕ) (g : Ghost) (chip : Chip) → AreGroups shape plb g chip → (p : ℕ)
        → g.pend ≡ None
        → AreGroups shape plb (record g { held = addresses (with_used p chip).held }) (with_used p chip) }
{}

/// What stands in the buckets after the first w writes of a path, and so after all of them. A bucket on the path at a
/// level that was written is the seal of what the rule places there, under a seed of its own; every other bucket is as
/// before; and a bucket that was written opens to just these slots, and has that seed.
pub fn buckets_are_as_written()
    ensures path { (keys : Keys) → AreKeys keys → (leaf w level : ℕ) (now : Contents) → leaf < 2 ^ keys.shape.levels
        → w ≤ keys.shape.levels + 1 → level < w → length now.mirror ≡ keys.shape.buckets
        → slice_get (sealed keys.pads keys.shape.levels leaf now.seed now.hand now.mirror w)
        (bucket_of keys.shape.levels leaf level)
        ≡ Some (bucket_text keys.pads (now.seed + level) (slots_at keys.shape.levels leaf now.hand level)) }
    ensures others { (keys : Keys) (leaf w bucket : ℕ) (now : Contents)
        → ((level : ℕ) → level < w → bucket_of keys.shape.levels leaf level ≡ bucket → ⊥)
        → slice_get (sealed keys.pads keys.shape.levels leaf now.seed now.hand now.mirror w) bucket
        ≡ slice_get now.mirror bucket }
    ensures opened { (keys : Keys) → AreKeys keys → (leaf w level : ℕ) (now : Contents) → leaf < 2 ^ keys.shape.levels
        → w ≤ keys.shape.levels + 1 → level < w → length now.mirror ≡ keys.shape.buckets
        → AreOfShape keys.shape now.hand → 0 < now.seed → HasSeeds now
        → let bytes = slice_index_or (sealed keys.pads keys.shape.levels leaf now.seed now.hand now.mirror w)
        (bucket_of keys.shape.levels leaf level) [] in
        (opened keys.pads keys.shape bytes ≡ Ok (slots_at keys.shape.levels leaf now.hand level))
        × (seed_in bytes ≡ now.seed + level) }
    ensures sized { (keys : Keys) (leaf w : ℕ) (now : Contents)
        → length (sealed keys.pads keys.shape.levels leaf now.seed now.hand now.mirror w) ≡ length now.mirror }
{}

/// What a path's read leaves at hand: the entries that were there, and behind them those of the path's replies in
/// order, and nothing else. So each block's copies add up, and addresses at hand go on to differ.
pub fn entries_are_joined()
    ensures joined { (keys : Keys) (start leaf : ℕ) (altered : List Altered) (now : Contents) (joined : List Entry)
        → IsReadTo keys.pads keys.shape start leaf altered now joined
        → joined ≡ now.hand ++ flat_map (entries_in keys)
        (replies keys.shape.levels start leaf now.mirror altered) }
    ensures copies { (keys : Keys) (start leaf : ℕ) (altered : List Altered) (now : Contents) (joined : List Entry)
        → IsReadTo keys.pads keys.shape start leaf altered now joined → (a : ℕ)
        → copies a joined ≡ copies a now.hand + total (λ level. copies a (entries_in keys
        (reply_at now.mirror altered (start + move_cycles * level) (bucket_of keys.shape.levels leaf level))))
        (keys.shape.levels + 1) }
    ensures unaltered { (keys : Keys) (start leaf : ℕ) (now : Contents) (joined : List Entry)
        → IsReadTo keys.pads keys.shape start leaf [] now joined → (a : ℕ)
        → copies a joined ≡ copies a now.hand + total
        (λ level. copies a (entries_at keys now.mirror (bucket_of keys.shape.levels leaf level)))
        (keys.shape.levels + 1) }
    ensures apart { (keys : Keys) (start leaf : ℕ) (altered : List Altered) (now : Contents) (joined : List Entry)
        → IsReadTo keys.pads keys.shape start leaf altered now joined → AreApart now.hand → AreApart joined }
{}

/// What a path's write makes of the entries at hand: each that is placed was at hand, and its bucket is on the path of
/// its own leaf too; a bucket takes four at most, and has them all in its slots; what stays was at hand; and none is
/// lost or doubled, whatever is counted: of each block, those that stay and those that are placed are those before.
pub fn entries_are_placed()
    ensures on_path { (keys : Keys) → AreKeys keys → (leaf level : ℕ) (hand : List Entry) (e : Entry)
        → leaf < 2 ^ keys.shape.levels → level ≤ keys.shape.levels → AreOfShape keys.shape hand
        → Has e (slot_entries (slots_at keys.shape.levels leaf hand level))
        → Has e hand × (bucket_of keys.shape.levels leaf level ≡ bucket_of keys.shape.levels e.leaf.0 level) }
    ensures number { (levels leaf level : ℕ) (hand : List Entry)
        → (length (taken_at level (places_of levels leaf hand) hand) ≤ 4)
        × (slot_entries (slots_at levels leaf hand level) ≡ taken_at level (places_of levels leaf hand) hand) }
    ensures stay { (levels leaf : ℕ) (hand : List Entry) (e : Entry) → Has e (stays levels leaf hand) → Has e hand }
    ensures copies { (test : Entry → Bool) (levels leaf : ℕ) (hand : List Entry)
        → count_by test (stays levels leaf hand) + copies_to test levels leaf hand (levels + 1)
        ≡ count_by test hand }
{}

/// Counters keep their room, and siblings their common group: at the start, where a counter changes within its room,
/// and where a group move begins or ends.
pub fn counters_keep_room()
    ensures start { (shape : Shape) → AreCounters shape first_ghost }
    ensures changed { (shape : Shape) (g : Ghost) (a : ℕ) (c : Counter) (move : Option (ℕ × ℕ)) → IsShape shape
        → shape.total ≡ layer_first shape.lines shape.layers → c.group < 2 ^ 64 → c.own < 16384
        → ((p : ℕ) → p < shape.total → parent_of shape.lines shape.layers a ≡ Some p → moved_of move p ≡ 0
        → c.group ≡ (g.count a).group)
        → ((p : ℕ) → moved_of move p ≡ 0 → moved_of g.move p ≡ 0)
        → AreCounters shape g → AreCounters shape (record g { count = put_at g.count a c; move = move }) }
    ensures begun { (shape : Shape) (g : Ghost) (p : ℕ) → g.move ≡ None → AreCounters shape g
        → AreCounters shape (record g { move = Some (p, 0) }) }
    ensures ended { (shape : Shape) (g : Ghost) (p first number group : ℕ) (own : List ℕ)
        → children_of shape.lines shape.layers p ≡ Some (first, number) → g.stepped ≡ None
        → g.move ≡ Some (p, number) → IsGroupOf shape g p group own → AreCounters shape g
        → AreCounters shape (record g { move = None }) }
{}

/// Counters stay small: from the start on, however the log goes on, and where a counter changes within its room. So
/// they do where a point more is drawn and its block comes to the next group, or to the next own count where that has
/// room; and where a held child is renumbered, though nothing is drawn, since a sibling is past its group's first
/// counter: the one whose own count is the greatest, or one that was moved. So while fewer than 2 ^ 28 points are drawn
/// no group count wraps, and each own count fits its place in a line; that fewer are drawn is known of a port, whose
/// slots take their cycles (`counters_are_low` of oram_lines).
pub fn counters_stay_small()
    ensures start { (shape : Shape) (ic : ℕ) → AreSmall shape ic empty_log (λ a. first_counter) }
    ensures grown { (shape : Shape) (ic : ℕ) (old new : LogLists) (events : List Event) (altered : List Altered)
        (count : ℕ → Counter) → Adds old new events altered → AreSmall shape ic old count
        → AreSmall shape ic new count }
    ensures changed { (shape : Shape) (ic : ℕ) (log : LogLists) (count : ℕ → Counter) (a : ℕ) (c : Counter)
        → (parent_of shape.lines shape.layers a ≡ None → c.own ≡ 0) → c.own ≤ 2 ^ ic - 1
        → c.group + c.own ≤ count_by draws log.events → AreSmall shape ic log count
        → AreSmall shape ic log (put_at count a c) }
    ensures drawn { (shape : Shape) (ic : ℕ) (old new : LogLists) (count : ℕ → Counter) (a : ℕ) (c : Counter)
        → a < shape.total → count_by draws old.events < count_by draws new.events
        → (c ≡ next_group (count a)) ⊎ ((c ≡ next_own (count a)) × ((count a).own < 2 ^ ic - 1)
        × (parent_of shape.lines shape.layers a ≡ None → ⊥))
        → AreSmall shape ic old count → AreSmall shape ic new (put_at count a c) }
    ensures renumbered { (shape : Shape) (ic : ℕ) (log : LogLists) (count : ℕ → Counter) (a sibling : ℕ)
        → a < shape.total → sibling < shape.total
        → IsBefore (record { group = (count a).group; own = 0 }) (count sibling)
        → AreSmall shape ic log count → AreSmall shape ic log (put_at count a (next_group (count a))) }
    ensures fits { (shape : Shape) (ic : ℕ) (log : LogLists) (count : ℕ → Counter) → ic ≤ 14
        → count_by draws log.events < 2 ^ 28 → AreSmall shape ic log count → (a : ℕ) → a < shape.total
        → ((count a).group < 2 ^ 28) × ((count a).own < 16384) }
{}

/// A data line whose counter is on top is stored, dummies pass, and it is accessed again: what is found is what was
/// stored, or the log shows a forgery.
pub fn stored_is_found()
    ensures { (keys : Keys) → AreKeys keys → (l0 l1 l2 l3 : LogLists) (g : Ghost) (n0 n1 n2 n3 : Contents)
        (s1 s2 a k : ℕ) (c1 c2 : Counter) (found1 found2 : Option Entry) (v1 v2 : List ℕ)
        → IsAccess keys l0 l1 n0 n1 s1 a (g.count a) c1 found1 v1 → ArePasses keys k l1 l2 n1 n2 g.dummies
        → IsAccess keys l2 l3 n2 n3 s2 a c1 c2 found2 v2
        → children_of keys.shape.lines keys.shape.layers a ≡ None
        → parent_of keys.shape.lines keys.shape.layers a ≡ None
        → a < keys.shape.total → IsBefore (g.count a) c1 → IsBefore c1 c2 → (Has a g.held → ⊥)
        → length v1 ≡ 64 → length v2 ≡ 64 → HasSeeds n0 → HasSeeds n2 → IsBetween g → g.pend ≡ Some a
        → Always keys l0 n0 → Sound keys l0 g n0 → Forgery keys l3 ⊎ (line_found found2 ≡ v1) }
{}
