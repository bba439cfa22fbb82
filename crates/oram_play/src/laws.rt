//! Laws of the slots that an encrypted memory takes. The functions do nothing: each states laws in its contract.

ghost use Rattle.std.specs.Prelude.{◌≡◌, ◌<◌, ◌≤◌, ◌+◌, ◌⊎◌, ℕ, true, false, List, [], ◌∷◌, ◌++◌, Option, None, Some};
ghost use Rattle.std.specs.Prelude.{Ok, max};
ghost use Rattle.std.specs.Option.{option_map};
ghost use Rattle.asc_base.specs.Settings.{IsConfig};
ghost use Rattle.asc_base.specs.TreeShape.{olat_of};
ghost use Rattle.asc_base.specs.declared.block.Line.{Line};
ghost use Rattle.asc_base.specs.declared.block.Message.{Message};
ghost use Rattle.asc_base.specs.declared.settings.Config.{Config};
ghost use Rattle.bus_schedule.specs.Timetable.{public_of};
ghost use Rattle.data_cache.specs.Lines.{LineRequest};
ghost use Rattle.oram_contents.specs.Contents.{Contents};
ghost use Rattle.oram_contents.specs.Counts.{line_at as ghost_line};
ghost use Rattle.oram_contents.specs.Entries.{Keys, AreKeys};
ghost use Rattle.oram_contents.specs.Forgery.{Forgery};
ghost use Rattle.oram_contents.specs.Starts.{empty_log};
ghost use Rattle.oram_contents.specs.Verdict.{is_first};
ghost use Rattle.oram_frontend.specs.Access.{SlotStep};
ghost use Rattle.oram_frontend.specs.Oram.{OramState, OramStep, Told, Fetch, Store, Wait};
ghost use Rattle.oram_frontend.specs.Slots.{FitKeys};
ghost use Rattle.oram_play.specs.Taken.{HasTaken, IsPaceOf, put_in, with_appended, asked_start, asked_slots};
ghost use Rattle.oram_play.specs.Taken.{slots_taken};
ghost use Rattle.oram_play.specs.InCalls.{PlayCall, AnsweredInPlay, calls_slots, AreTold};
ghost use Rattle.oram_play.specs.InTurn.{AnsweredAccess, AreInTurn};
ghost use Rattle.oram_play.specs.Answered.{IsAnswered};
ghost use Rattle.oram_play.specs.AtHome.{IsAtHome, Place, StandsAt};
ghost use Rattle.oram_play.specs.Playing.{PlaysAs, called, IsTold};
ghost use Rattle.oram_play.specs.Shown.{AreShownAs};
ghost use Rattle.oram_play.specs.Walked.{AreWalked, put_for, taken_in_turn};
ghost use Rattle.oram_lines.specs.Lines.{IsNew, IsRequest};
ghost use Rattle.oram_lines.specs.Noted.{AreAnswersIn};
ghost use Rattle.oram_walk.specs.Plans.{fetch_plan, store_plan};
ghost use Rattle.oram_walk.specs.Shows.{Shows};
ghost use Rattle.oram_walk.specs.Request.{Slot as AccessSlot, Append, Answer};
ghost use Rattle.oram_walk.specs.declared.slots.Access.{Access};
ghost use Rattle.oram_walk.specs.declared.slots.Purpose.TheVariants.{Keep, Replace};
ghost use Rattle.oram_walk.specs.declared.slots.Seen.{Seen};
ghost use Rattle.posmap_counters.specs.Counters.{counter_at};
ghost use Rattle.posmap_lookaside.specs.Walk.{OnChip, IsHeldList, WalkAccess, walk};
ghost use Rattle.posmap_lookaside.specs.declared.held.Held.{Held};
ghost use Rattle.rate_enforcer.specs.PortStep.{PortState, Resting, contents};
ghost use Rattle.run_play.specs.Requests.{StoredLines, data_line, standing_at_start};
ghost use Rattle.run_play.specs.Requests.{Standing, Taken, line_at, access_slot, one_by_one, put_back, message_of};
ghost use Rattle.run_play.specs.Requests.{request_slots, request_done, requested, value_of, walk_sizes};
ghost use Rattle.run_play.specs.Slots.{Pace, Numbers, Slot, first_pace, passed};

/// A port with an empty log has taken no slot. Whatever a port has taken, between two slots the pace that its slots
/// leave is the port's: where the next slot starts, where the last one ended, and what the learner knows.
pub fn ports_keep_the_pace()
    ensures start { (s : PortState) → s.tap.log ≡ empty_log → s.clock.dummies ≡ 0
        → HasTaken s [] (first_pace (public_of s.clock.config)) }
    ensures stands { (levels notes : ℕ) (s : PortState) (slots : List Slot) (pace : Pace) → HasTaken s slots pace
        → Resting notes levels s → IsPaceOf s pace }
{}

/// An answered access takes the dummies that start before it is asked for, and then its own slot, with the line that
/// is answered; that slot starts before the time of the settings, and the answer's time is its end. So the log says
/// these slots' starts, who asked for them, their points, what is put back, and the choices at their ends, whatever the
/// memory replied. An append stands behind the last slot, and an answer takes none. A
/// port that waits takes the dummies that start before the time.
pub fn answered_requests_take_slots()
    ensures slot { (keys : Keys) (levels notes : ℕ) (access : Access) (seen : Seen) (old new : PortState)
        (slots : List Slot) (pace : Pace) (numbers : Numbers) → FitKeys keys old → Resting notes levels old
        → HasTaken old slots pace → SlotStep keys levels old (AccessSlot access) (Ok seen) new
        → let config = old.clock.config in
        let taken = asked_slots config numbers pace access seen.line None in
        HasTaken new (slots ++ taken.slots) taken.pace
        × (asked_start config numbers pace access < config.time)
        × (seen.end ≡ asked_start config numbers pace access + olat_of config.shape.levels) }
    ensures append { (keys : Keys) (levels notes : ℕ) (message : Message) (seen : Seen) (old new : PortState)
        (slots : List Slot) (slot : Slot) (pace : Pace) → FitKeys keys old → Resting (notes + 1) levels old
        → HasTaken old (slots ++ slot ∷ []) pace → slot.appended ≡ None
        → SlotStep keys levels old (Append message) (Ok seen) new
        → HasTaken new (slots ++ with_appended slot message ∷ []) pace }
    ensures answer { (keys : Keys) (levels notes line : ℕ) (value : Line) (seen : Seen) (old new : PortState)
        (slots : List Slot) (pace : Pace) → FitKeys keys old → Resting (notes + 1) levels old
        → HasTaken old slots pace → SlotStep keys levels old (Answer line value) (Ok seen) new
        → HasTaken new slots pace }
    ensures wait { (keys : Keys) (levels notes time : ℕ) (told : Told) (old new : OramState) (slots : List Slot)
        (pace : Pace) (numbers : Numbers) → FitKeys keys old.port → Resting notes levels old.port
        → HasTaken old.port slots pace → OramStep keys levels old (Wait time) (Ok told) new
        → let more = passed (public_of old.port.clock.config) numbers time pace in
        HasTaken new.port (slots ++ more.slots) more.pace × (told.end ≡ max time more.pace.heard.ended) }
{}

/// An answered fetch or store takes slots access by access. Its first access is asked for at the request's time, and
/// each other one at the end of the one before; each slot starts before the time of the settings; a message that is
/// appended stands behind the slot of the access that came last; and the time that is told is the end of the last one.
/// If each was answered with the line of a memory that shows the counters, these are the accesses of the walk: in
/// order, the same blocks under the same counters, with the same purposes and the lines that are found, and the same
/// blocks appended. They are, where the answers are noted as those of such a memory; then the front end and the memory
/// show the counters after the walk, and a fetch tells its line.
pub fn answered_requests_take_slots_in_turn()
    ensures fetch { (keys : Keys) (levels notes asked line : ℕ) (told : Told) (old new : OramState) (slots : List Slot)
        (pace : Pace) (numbers : Numbers) → FitKeys keys old.port → Resting notes levels old.port
        → HasTaken old.port slots pace → OramStep keys levels old (Fetch asked line) (Ok told) new
        → (seen : Seen) × (told.line ≡ Some seen.line)
        × (done : IsAnswered keys levels numbers asked told.end line Keep (fetch_plan old.front asked line) seen slots
        pace old new)
        × ((lines : ℕ → Line) (chip : OnChip) → line < old.front.shape.lines → Shows old.front lines chip
        → AreAnswersIn lines done.answers → seen.line ≡ lines line) }
    ensures store { (keys : Keys) (levels notes asked line : ℕ) (value : Line) (told : Told) (old new : OramState)
        (slots : List Slot) (pace : Pace) (numbers : Numbers) → FitKeys keys old.port → Resting notes levels old.port
        → HasTaken old.port slots pace → OramStep keys levels old (Store asked line value) (Ok told) new
        → (told.line ≡ None)
        × IsAnswered keys levels numbers asked told.end line (Replace value) (store_plan old.front asked line value)
        told.end slots pace old new }
{}

/// These slots are those of the play's access to the same block under the same counter, where it puts the same message
/// back; behind them stands what the play appends.
pub fn accesses_take_asked_slots()
    ensures { (config : Config) (value : Option (List ℕ)) (now : Standing) (walked : WalkAccess) (access : Access)
        (line : Line) → now.clock ≡ access.asked → walked.address ≡ access.address.0 → walked.counter ≡ access.counter
        → put_back config now.data_lines value walked walked.purpose ≡ put_in access line access.purpose
        → asked_start config now.numbers now.pace access < config.time
        → access_slot config value now walked
        ≡ slots_taken config now access line
        (option_map (message_of config walked.counters now.data_lines) walked.displaced) }
{}

/// Accesses that show what those of a request's walk show, over a memory that has the data lines as last stored, are
/// the walk's: what each puts back and what is appended behind it is what the play puts back and appends.
pub fn shown_accesses_are_walked()
    ensures { (config : Config) (stored : StoredLines) (lines : ℕ → Line) (chip : OnChip) (request : LineRequest)
        (accesses : List AnsweredAccess) → 1 ≤ config.shape.layers → IsHeldList (walk_sizes config) chip.held
        → requested request < config.shape.lines
        → ((a : ℕ) → a < config.shape.lines → (lines a).0 ≡ data_line stored a)
        → AreShownAs (walk_sizes config) lines (put_for request)
        (walk (walk_sizes config) chip (requested request)).accesses accesses
        → AreWalked config stored (value_of request) (walk (walk_sizes config) chip (requested request)).accesses
        accesses }
{}

/// Where accesses that are asked for one after another are those of a walk, the play takes just their slots, and stands
/// at the end of the last one; where that is the walk of a request, these are the slots of the play's request, which is
/// then answered.
pub fn walked_accesses_take_play_slots()
    ensures accesses { (config : Config) (value : Option (List ℕ)) (now : Standing) (walked : List WalkAccess)
        (accesses : List AnsweredAccess) (end : ℕ) → now.late ≡ None
        → AreInTurn config now.numbers now.clock accesses now.pace end
        → AreWalked config now.data_lines value walked accesses
        → one_by_one (access_slot config value) walked now ≡ taken_in_turn config now accesses end }
    ensures request { (config : Config) (now : Standing) (request : LineRequest) (accesses : List AnsweredAccess)
        (end : ℕ) → now.late ≡ None → AreInTurn config now.numbers now.clock accesses now.pace end
        → let walked = walk (walk_sizes config) now.chip (requested request) in
        AreWalked config now.data_lines (value_of request) walked.accesses accesses
        → let taken = taken_in_turn config now accesses end in
        let answered : Taken = record {
          slots = taken.slots;
          standing = request_done request (record taken.standing { chip = walked.chip });
        } in
        request_slots config now request ≡ answered }
{}

/// An encrypted memory that stands where a play stands stands where the play stands after each request that it answers,
/// or its log shows a forgery: it took the slots of the play's request, the time that is told is the play's clock, and
/// a fetch tells the line as last stored. So it is from the start, with no slot, where it waits, with the dummies that
/// pass, and behind any number of requests and waits, with all their slots.
pub fn requests_stand_as_plays()
    ensures start { (keys : Keys) → AreKeys keys → (levels : ℕ) (config : Config) (o : OramState) → IsConfig config
        → IsNew keys config levels o → o.port.clock.config ≡ config
        → PlaysAs keys levels config [] (standing_at_start config) o }
    ensures request { (keys : Keys) → AreKeys keys → (levels : ℕ) (config : Config) (slots : List Slot)
        (now : Standing) (request : LineRequest) (told : Told) (old new : OramState)
        → PlaysAs keys levels config slots now old → IsRequest config.shape.lines (called now.clock request)
        → OramStep keys levels old (called now.clock request) (Ok told) new
        → Forgery keys new.port.tap.log
        ⊎ (let taken = request_slots config now request in
        PlaysAs keys levels config (slots ++ taken.slots) (taken.standing) new
        × (told.end ≡ taken.standing.clock) × IsTold now request told.line) }
    ensures wait { (keys : Keys) → AreKeys keys → (levels : ℕ) (config : Config) (slots : List Slot) (now : Standing)
        (time : ℕ) (told : Told) (old new : OramState) → PlaysAs keys levels config slots now old
        → OramStep keys levels old (Wait time) (Ok told) new
        → let more = passed (public_of config) now.numbers time now.pace in
        PlaysAs keys levels config (slots ++ more.slots) (record now { pace = more.pace }) new
        × (told.end ≡ max time more.pace.heard.ended) }
    ensures calls { (keys : Keys) → AreKeys keys → (levels : ℕ) (config : Config) (slots : List Slot) (now : Standing)
        (old : OramState) (calls : List PlayCall) (end : Standing) (new : OramState)
        → PlaysAs keys levels config slots now old
        → (answered : AnsweredInPlay keys levels config now old calls end new)
        → Forgery keys new.port.tap.log
        ⊎ (PlaysAs keys levels config (slots ++ calls_slots config now calls) end new
        × AreTold keys levels config now old calls end new answered) }
{}

/// Where an encrypted memory stands where a play stands, its blocks have the play's counters and lines, and the blocks
/// that it holds are the walk's. While no reply was altered each block is at home: it stands at one place, under the
/// play's counter and with its layer's line, or, where it was never accessed, nowhere. So it is from the start on,
/// after each request that is answered, and behind any number of them, with waits between them.
pub fn blocks_of_plays_are_at_home()
    ensures counters { (keys : Keys) → AreKeys keys → (levels : ℕ) (config : Config) (slots : List Slot)
        (now : Standing) (o : OramState) → (x : PlaysAs keys levels config slots now o)
        → (a : ℕ) → a < keys.shape.total → x.ghost.count a ≡ counter_at now.chip.counters a }
    ensures lines { (keys : Keys) → AreKeys keys → (levels : ℕ) (config : Config) (slots : List Slot)
        (now : Standing) (o : OramState) → (x : PlaysAs keys levels config slots now o)
        → (a : ℕ) → a < keys.shape.total
        → ghost_line keys.shape x.ghost a ≡ line_at config now.chip.counters now.data_lines a }
    ensures held { (keys : Keys) → AreKeys keys → (levels : ℕ) (config : Config) (slots : List Slot)
        (now : Standing) (o : OramState) → (x : PlaysAs keys levels config slots now o)
        → x.ghost.held ≡ now.chip.held }
    ensures home { (keys : Keys) → AreKeys keys → (levels : ℕ) (config : Config) (slots : List Slot) (now : Standing)
        (o : OramState) → PlaysAs keys levels config slots now o → o.port.tap.log.altered ≡ []
        → IsAtHome keys config now o.front.held (contents o.port) }
    ensures start { (keys : Keys) → AreKeys keys → (levels : ℕ) (config : Config) (o : OramState) → IsConfig config
        → IsNew keys config levels o → o.port.clock.config ≡ config
        → IsAtHome keys config (standing_at_start config) o.front.held (contents o.port) }
    ensures request { (keys : Keys) → AreKeys keys → (levels : ℕ) (config : Config) (slots : List Slot)
        (now : Standing) (request : LineRequest) (told : Told) (old new : OramState)
        → PlaysAs keys levels config slots now old → IsRequest config.shape.lines (called now.clock request)
        → OramStep keys levels old (called now.clock request) (Ok told) new → new.port.tap.log.altered ≡ []
        → IsAtHome keys config (request_slots config now request).standing new.front.held (contents new.port) }
    ensures wait { (keys : Keys) → AreKeys keys → (levels : ℕ) (config : Config) (slots : List Slot) (now : Standing)
        (time : ℕ) (told : Told) (old new : OramState) → PlaysAs keys levels config slots now old
        → OramStep keys levels old (Wait time) (Ok told) new → new.port.tap.log.altered ≡ []
        → IsAtHome keys config now new.front.held (contents new.port) }
    ensures calls { (keys : Keys) → AreKeys keys → (levels : ℕ) (config : Config) (o : OramState) → IsConfig config
        → IsNew keys config levels o → o.port.clock.config ≡ config → (calls : List PlayCall) (end : Standing)
        (new : OramState) → AnsweredInPlay keys levels config (standing_at_start config) o calls end new
        → new.port.tap.log.altered ≡ [] → IsAtHome keys config end new.front.held (contents new.port) }
{}

/// What it is that blocks are at home: each that was accessed stands at exactly one place, among the held ones, at hand
/// or in a bucket on the path of its leaf, outside of the chip by its entry; and each other stands nowhere.
pub fn blocks_at_home_have_one_place()
    ensures somewhere { (keys : Keys) (config : Config) (now : Standing) (held : List Held) (contents : Contents)
        → IsAtHome keys config now held contents → (a : ℕ) → a < keys.shape.total
        → is_first (counter_at now.chip.counters a) ≡ false
        → (place : Place) × StandsAt keys config now contents a place }
    ensures once { (keys : Keys) (config : Config) (now : Standing) (held : List Held) (contents : Contents)
        → IsAtHome keys config now held contents → (a : ℕ) → a < keys.shape.total → (p q : Place)
        → StandsAt keys config now contents a p → StandsAt keys config now contents a q → p ≡ q }
    ensures nowhere { (keys : Keys) (config : Config) (now : Standing) (held : List Held) (contents : Contents)
        → IsAtHome keys config now held contents → (a : ℕ) → a < keys.shape.total
        → is_first (counter_at now.chip.counters a) ≡ true → (place : Place)
        → StandsAt keys config now contents a place → ⊥ }
{}
