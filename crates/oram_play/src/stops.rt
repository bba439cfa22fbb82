//! Laws of what a stop leaves of the slots of a play. The functions do nothing: each states laws in its contract.

ghost use Rattle.std.specs.Prelude.{◌≡◌, ◌<◌, ◌≤◌, ◌+◌, ◌⊎◌, ℕ, List, [], ◌∷◌, ◌++◌, None, Some, Err};
ghost use Rattle.asc_base.specs.declared.block.Line.{Line};
ghost use Rattle.asc_base.specs.declared.block.Message.{Message};
ghost use Rattle.asc_base.specs.declared.settings.Config.{Config};
ghost use Rattle.asc_base.specs.declared.stop.Stop.{Stop};
ghost use Rattle.data_cache.specs.Lines.{LineRequest};
ghost use Rattle.oram_contents.specs.Counts.{Ghost, line_at};
ghost use Rattle.oram_contents.specs.Entries.{Keys, AreKeys};
ghost use Rattle.oram_contents.specs.Forgery.{Forgery};
ghost use Rattle.oram_contents.specs.Slots.{MayRise};
ghost use Rattle.oram_frontend.specs.Access.{SlotStep};
ghost use Rattle.oram_frontend.specs.Oram.{OramState, OramStep, Fetch, Store, Wait};
ghost use Rattle.oram_frontend.specs.Slots.{FitKeys};
ghost use Rattle.oram_play.specs.InTurn.{AnsweredAccess};
ghost use Rattle.oram_play.specs.OnPlay.{IsOnPlay, FindsLines};
ghost use Rattle.oram_play.specs.Playing.{PlaysAs, LeavesOf, called};
ghost use Rattle.oram_lines.specs.Lines.{IsRequest};
ghost use Rattle.oram_lines.specs.Standing.{IsKnown};
ghost use Rattle.oram_play.specs.Shown.{lines_in_turn};
ghost use Rattle.oram_play.specs.Stopped.{AccessLeaves, AppendLeaves, WaitLeaves, WasFound};
ghost use Rattle.oram_play.specs.StopsInTurn.{StopsInTurn, StopsNext, IsOnWalk, IsStopped};
ghost use Rattle.oram_play.specs.Taken.{HasTaken};
ghost use Rattle.oram_play.specs.Walked.{put_for};
ghost use Rattle.oram_walk.specs.Plans.{fetch_plan, store_plan};
ghost use Rattle.oram_walk.specs.Request.{Slot as AccessSlot, Append};
ghost use Rattle.oram_walk.specs.declared.slots.Access.{Access};
ghost use Rattle.oram_walk.specs.declared.slots.Purpose.TheVariants.{Keep, Replace};
ghost use Rattle.posmap_lookaside.specs.Walk.{IsHeldList, walk};
ghost use Rattle.rate_enforcer.specs.PortStep.{PortState, Resting};
ghost use Rattle.run_play.specs.Requests.{Standing, request_slots, requested, walk_sizes, data_line};
ghost use Rattle.run_play.specs.Slots.{Pace, Numbers, Slot};

/// An access that is stopped leaves a part of the slots that it would take: the log says the slots before the one that
/// stopped and what was done of that one, the stop is one that can come there, and the port's last end is that of the
/// stop; or, where no slot is left that starts before the time of the settings, all dummies before it. So does an
/// append, behind the last slot, and a wait.
pub fn stopped_accesses_are_cut()
    ensures slot { (keys : Keys) (levels notes : ℕ) (access : Access) (stop : Stop) (old new : PortState)
        (slots : List Slot) (pace : Pace) (numbers : Numbers) → FitKeys keys old → Resting notes levels old
        → HasTaken old slots pace → SlotStep keys levels old (AccessSlot access) (Err stop) new
        → AccessLeaves keys levels numbers slots pace access old stop new }
    ensures append { (keys : Keys) (levels notes : ℕ) (message : Message) (stop : Stop) (old new : PortState)
        (slots : List Slot) (slot : Slot) (pace : Pace) → Resting (notes + 1) levels old
        → HasTaken old (slots ++ slot ∷ []) pace → slot.appended ≡ None
        → SlotStep keys levels old (Append message) (Err stop) new
        → AppendLeaves levels slots slot message stop new }
    ensures wait { (keys : Keys) (levels notes time : ℕ) (stop : Stop) (old new : OramState) (slots : List Slot)
        (pace : Pace) (numbers : Numbers) → FitKeys keys old.port → Resting notes levels old.port → old.stop ≡ None
        → HasTaken old.port slots pace → OramStep keys levels old (Wait time) (Err stop) new
        → WaitLeaves keys levels numbers slots pace time old.port stop new.port }
{}

/// A fetch or a store that is stopped took slots access by access up to there, as an answered one does: then an access
/// was stopped, which is asked for at the end of the last answered one, or an append behind it, or room was wanting. If
/// each answered access had the line of a memory that shows the counters, they are the first of the walk, and what was
/// stopped is the next access of it, or the append behind the last one. The run can be noted answer by answer up to
/// there: where these are the lines of a memory, so are those of the accesses.
pub fn stopped_requests_take_slots_in_turn()
    ensures fetch { (keys : Keys) (levels notes asked line : ℕ) (stop : Stop) (old new : OramState)
        (slots : List Slot) (pace : Pace) (numbers : Numbers) → FitKeys keys old.port → Resting notes levels old.port
        → old.stop ≡ None → HasTaken old.port slots pace → OramStep keys levels old (Fetch asked line) (Err stop) new
        → IsStopped keys levels numbers asked line Keep (fetch_plan old.front asked line) slots pace stop old new }
    ensures store { (keys : Keys) (levels notes asked line : ℕ) (value : Line) (stop : Stop) (old new : OramState)
        (slots : List Slot) (pace : Pace) (numbers : Numbers) → FitKeys keys old.port → Resting notes levels old.port
        → old.stop ≡ None → HasTaken old.port slots pace
        → OramStep keys levels old (Store asked line value) (Err stop) new
        → IsStopped keys levels numbers asked line (Replace value) (store_plan old.front asked line value) slots pace
        stop old new }
{}

/// Where a stopped request is on the walk of the play's request over a memory, in which is also what was found where it
/// stopped, it leaves a cut of the play, or its log shows a forgery: a slot of it was stopped, or all its slots were
/// taken before one that is too late.
pub fn stopped_walks_cut_plays()
    ensures { (keys : Keys) (levels : ℕ) (config : Config) (now : Standing) (request : LineRequest)
        (slots : List Slot) (stop : Stop) (new : PortState) → now.late ≡ None
        → (stops : StopsInTurn keys levels config now.numbers now.clock slots now.pace stop new) (lines : ℕ → Line)
        → IsOnPlay config now request stops.accesses lines stops.next → FindsLines lines stops.next
        → Forgery keys new.tap.log ⊎ LeavesOf levels slots (request_slots config now request) stop new }
{}

/// A line that was found in the slot of an access that stopped later is the block's, where this is known of the port
/// before it, or the log shows a forgery.
pub fn lines_found_before_stops_are_right()
    ensures { (keys : Keys) → AreKeys keys → (g : Ghost) (access : Access) (line : Line) (old new : PortState)
        → IsKnown keys g old → WasFound keys access line old new → g.pend ≡ Some access.address.0
        → access.counter ≡ g.count access.address.0 → MayRise keys g access.address.0 access.next
        → Forgery keys new.tap.log ⊎ (line.0 ≡ line_at keys.shape g access.address.0) }
{}

/// What was stopped on a request's walk over a memory with the data lines as last stored is on the walk of the play's
/// request, over that memory as the accesses before left it.
pub fn stopped_walks_are_on_plays()
    ensures { (config : Config) (now : Standing) (request : LineRequest) (lines : ℕ → Line)
        → 1 ≤ config.shape.layers → IsHeldList (walk_sizes config) now.chip.held
        → requested request < config.shape.lines
        → ((a : ℕ) → a < config.shape.lines → (lines a).0 ≡ data_line now.data_lines a)
        → (keys : Keys) (levels : ℕ) (numbers : Numbers) (asked : ℕ) (slots : List Slot) (pace : Pace) (stop : Stop)
        (old new : PortState) (accesses : List AnsweredAccess)
        (next : StopsNext keys levels numbers asked slots pace stop old new)
        → IsOnWalk (walk_sizes config) lines (put_for request)
        (walk (walk_sizes config) now.chip (requested request)).accesses accesses next
        → IsOnPlay config now request accesses (lines_in_turn lines accesses) next }
{}

/// Where an encrypted memory stands where a play stands, a request that is stopped leaves a cut of the play, or its log
/// shows a forgery: all slots of the play's request were taken before one that is too late; or one of them was stopped,
/// and the log says the slots before it and the part of it that was done.
pub fn stopped_requests_cut_plays()
    ensures { (keys : Keys) → AreKeys keys → (levels : ℕ) (config : Config) (slots : List Slot) (now : Standing)
        (old : OramState) → PlaysAs keys levels config slots now old → (stop : Stop) (new : OramState)
        (request : LineRequest) → IsRequest config.shape.lines (called now.clock request) → old.stop ≡ None
        → OramStep keys levels old (called now.clock request) (Err stop) new
        → Forgery keys new.port.tap.log ⊎ LeavesOf levels slots (request_slots config now request) stop new.port }
{}
