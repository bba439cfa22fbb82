//! Laws of plays and halts. The functions do nothing: each states laws in its contract.

ghost use Rattle.std.specs.Prelude.{◌≡◌, ◌<◌, ◌≤◌, ◌^◌, ◌*◌, ◌+◌, ◌⊎◌, All, min, true, false, replicate, ℕ, suc};
ghost use Rattle.std.specs.Prelude.{List, [], ◌∷◌, ◌++◌};
ghost use Rattle.std.specs.Prelude.{length, map, take, slice_get};
ghost use Rattle.std.specs.Prelude.{Option, Some, None};
ghost use Rattle.asc_base.specs.Settings.{IsConfig};
ghost use Rattle.asc_base.specs.TreeShape.{olat_of};
ghost use Rattle.asc_base.specs.declared.settings.Config.{Config};
ghost use Rattle.bus_schedule.specs.Shown.{starts_of, indices_of};
ghost use Rattle.asc_base.specs.declared.block.Message.{Message};
ghost use Rattle.asc_base.specs.declared.block.Point.{Point};
ghost use Rattle.bus_schedule.specs.Timetable.{Public, public_of, count_of};
ghost use Rattle.epoch_learner.specs.Heard.{told_by};
ghost use Rattle.bus_watch.specs.declared.log.Event.{Event};
ghost use Rattle.asc_base.specs.Memory.{IsMemory};
ghost use Rattle.asc_base.specs.Has.{Has};
ghost use Rattle.data_cache.specs.Cached.{lists_access, HasBytes};
ghost use Rattle.data_cache.specs.CacheLists.{Lines, Requests, no_lines, requests_of, requests_along, sets_after};
ghost use Rattle.data_cache.specs.CacheLists.{line_in, write_whole_line};
ghost use Rattle.data_cache.specs.Lines.{LineRequest};
ghost use Rattle.posmap_lookaside.specs.Walk.{WalkAccess, walk};
ghost use Rattle.request_plan.specs.Plan.{Plan, through};
ghost use Rattle.request_plan.specs.Play.{bare, play};
ghost use Rattle.rv32_core.specs.Access.{Access, IsAccess};
ghost use Rattle.rv32_core.specs.FlatMachine.{flat_step};
ghost use Rattle.rv32_core.specs.LineList.{step_lines};
ghost use Rattle.rv32_core.specs.Machine.{CoreState, Machine, IsCore};
ghost use Rattle.rv32_core.specs.StepPlan.{step_plan};
ghost use Rattle.run_play.specs.Slots.{Slot, Numbers, Pace, first_pace, passed, pace_after, slot_next, dummy_next};
ghost use Rattle.run_play.specs.Requests.{StoredLines, Standing, access_slot, request_done, requested, take_slot};
ghost use Rattle.run_play.specs.Requests.{value_of, walk_sizes, followed, one_by_one, request_slots};
ghost use Rattle.run_play.specs.Play.{Play, Budget, after_slots, access_turn, instruction, comes_to, times_out};
ghost use Rattle.run_play.specs.Play.{after_requests, image_use, play_from, play_of};
ghost use Rattle.run_play.specs.Halt.{Stop, ending_of, end_of, Fits, cut_at, unprepared, halt, IsHalted};
ghost use Rattle.run_play.specs.PlayEvents.{PlayEvent, said_of_all, play_events, starts_in, points_in, indices_in};
ghost use Rattle.run_play.specs.PlayEvents.{choices_in, code_in};
ghost use Rattle.run_play.specs.OnTime.{heard_in, IsPace, AreOnTime};
ghost use Rattle.run_play.specs.Turns.{access_slots, Matches, line_slots, Takes, Comes};
ghost use Rattle.run_play.specs.Honest.{stored_by, IsHonest};
ghost use Rattle.run_play.specs.Flat.{without_bytes, IsFlat};

/// A play goes on instruction by instruction: where no instruction is left it ends with the budget, where no time is
/// left with the time, and else the slots of the next instruction's requests are taken, and what comes of them depends
/// on whether a slot came too late and how the instruction ended. Slots that were taken before stand before all others.
/// Requests one after another are the first of them, and then, unless a slot came too late, the others.
pub fn play_goes_on()
    ensures budget { (config : Config) (machine : Machine) (lines : Lines) (now : Standing)
        → play_from config 0 machine lines now ≡ comes_to config Budget now }
    ensures late { (config : Config) (n : ℕ) (machine : Machine) (lines : Lines) (now : Standing)
        → config.time ≤ now.clock → play_from config (suc n) machine lines now ≡ times_out config now.clock now }
    ensures next { (config : Config) (n : ℕ) (machine : Machine) (lines : Lines) (now : Standing)
        → now.clock < config.time → let step = instruction config.ways machine lines in
        let taken = one_by_one (request_slots config) (bare step.records) now in
        play_from config (suc n) machine lines now
        ≡ after_slots taken.slots
        (after_requests config (play_from config n ((step.outcome).0) step.held) taken.standing
        ((step.outcome).1).cost taken.standing.late ((step.outcome).1).ended) }
    ensures twice { (one two : List Slot) (rest : Play)
        → after_slots one (after_slots two rest) ≡ after_slots (one ++ two) rest }
    ensures requests { (config : Config) (first others : List LineRequest) (now : Standing) → now.late ≡ None
        → one_by_one (request_slots config) (first ++ others) now
        ≡ (let taken = one_by_one (request_slots config) first now in
        followed taken (one_by_one (request_slots config) others) taken.standing.late) }
{}

/// A core's accesses, one after another through a server that takes the slots of each, take the slots of all their
/// requests, and leave what stands after them; the lines behind the machine and the outcome are those without slots.
pub fn instructions_take_slots<A, B>()
    ensures { (config : Config) (core : CoreState) (plan : Plan Access (List ℕ) B A) (lines : Lines) (now : Standing)
        → now.late ≡ None → let whole = play (access_turn config.ways core) plan lines in
        Matches (play (access_slots config core) plan (lines, now)) whole
        (one_by_one (request_slots config) (bare whole.records) now) }
{}

/// A plan of requests for lines that makes these, whatever is answered, takes their slots one by one through a server
/// that takes the slots of each, and leaves what stands after them.
pub fn requests_take_slots<A, B>()
    ensures { (config : Config) (plan : Plan LineRequest (List ℕ) B A) (requests : List LineRequest) (now : Standing)
        → Requests plan requests → now.late ≡ None
        → Takes (play (line_slots config) plan now) (one_by_one (request_slots config) requests now) }
{}

/// Once a slot came too late these servers make none any more, and what stands stays as it is.
pub fn late_servers_are_quiet()
    ensures request { (config : Config) (now : Standing) (request : LineRequest) (late : ℕ) → now.late ≡ Some late
        → let turn = line_slots config now request in (turn.records ≡ []) × (turn.held ≡ now) }
    ensures access { (config : Config) (core : CoreState) (lines : Lines) (now : Standing) (access : Access) (late : ℕ)
        → now.late ≡ Some late
        → let turn = access_slots config core (lines, now) access in
        (turn.records ≡ []) × ((turn.held).1 ≡ now) }
{}

/// An instruction of a play is the flat machine's, and its requests are those that the cache's lists make of the
/// instruction's lines in the line list. A play ends as the flat run does: an exit and a trap are the flat run's after
/// as many instructions, at the budget all are finished, and when time is up the flat run goes on.
pub fn plays_are_flat()
    ensures instruction { (ways : ℕ) (machine : Machine) (lines : Lines)
        → let step = instruction ways machine lines in
        flat_step machine lines.memory
        ≡ record { machine = (step.outcome).0; memory = step.held.memory; done = (step.outcome).1 } }
    ensures lines { (ways : ℕ) (machine : Machine) (lines : Lines) → IsMemory machine.core.base machine.core.size
        → map without_bytes (bare (instruction ways machine lines).records)
        ≡ requests_along ways [] lines.sets (step_lines machine lines.memory) }
    ensures ends { (config : Config) (memory marked : List ℕ) (machine : Machine)
        → let run = play_of config memory marked machine in
        IsFlat machine memory config.budget run.numbers.instructions run.ending }
{}

/// A play that is cut in a slot is the slots before it and a part of that one, with the numbers that it leaves, also
/// where slots were done before the play goes on. So its starts and points are the first of the play's, and its events
/// the first of the play's.
pub fn halts_are_prefixes()
    ensures at { (levels : ℕ) (run : Play) (stop : Stop) (before later : List Slot) (cut : Slot)
        → run.slots ≡ before ++ cut ∷ later
        → halt levels run (suc (length before)) stop ≡ cut_at levels stop before cut }
    ensures later { (levels : ℕ) (run : Play) (stop : Stop) (done before later : List Slot) (cut : Slot)
        → run.slots ≡ before ++ cut ∷ later
        → halt levels (after_slots done run) (suc (length (done ++ before))) stop
        ≡ cut_at levels stop (done ++ before) cut }
    ensures none { (levels : ℕ) (run : Play) (stop : Stop) → halt levels run 0 stop ≡ unprepared }
    ensures behind { (levels : ℕ) (run : Play) (stop : Stop) (k : ℕ) → length run.slots < k
        → halt levels run k stop ≡ run }
    ensures starts { (levels : ℕ) (run : Play) (k : ℕ) (stop : Stop) → k ≤ length run.slots
        → starts_in (halt levels run k stop).slots ≡ take k (starts_in run.slots) }
    ensures points { (levels : ℕ) (run : Play) (k : ℕ) (stop : Stop) → k ≤ length run.slots
        → points_in (halt levels run k stop).slots ≡ take k (points_in run.slots) }
    ensures numbers { (levels : ℕ) (run : Play) (k : ℕ) (stop : Stop) (slot : Slot)
        → slice_get run.slots k ≡ Some slot
        → ((halt levels run (suc k) stop).numbers ≡ slot.left)
        × ((halt levels run (suc k) stop).ending ≡ ending_of stop)
        × ((halt levels run (suc k) stop).last ≡ end_of levels slot.start stop) }
    ensures events { (levels : ℕ) (run : Play) (k : ℕ) (stop : Stop) → (rest : List PlayEvent)
        × (play_events run.slots ≡ play_events (halt levels run k stop).slots ++ rest) }
{}

/// A run that is halted is some slots of the play and a part of the next one, cut by a stop that can come there, and
/// every such cut is one. It ends after that slot's start, and by its end.
pub fn halted_runs_are_cuts()
    ensures parts { (levels : ℕ) (whole run : Play) → (h : IsHalted levels whole run)
        → (before later : List Slot) × (whole.slots ≡ before ++ h.slot ∷ later)
        × (run ≡ cut_at levels h.stop before h.slot) }
    ensures cut { (levels : ℕ) (whole : Play) (stop : Stop) (before later : List Slot) (slot : Slot)
        → whole.slots ≡ before ++ slot ∷ later → Fits levels stop slot
        → IsHalted levels whole (cut_at levels stop before slot) }
    ensures ends { (levels : ℕ) (whole run : Play) → (h : IsHalted levels whole run)
        → (h.slot.start < run.last) × (run.last ≤ h.slot.start + olat_of levels) }
{}

/// The slots that start before a time pass one by one: none, or a dummy and then the others; the slot that is next then
/// isn't before the time.
pub fn dummies_pass()
    ensures none { (p : Public) (numbers : Numbers) (time : ℕ) (pace : Pace) → time ≤ pace.beat.next
        → passed p numbers time pace ≡ record { slots = []; pace = pace } }
    ensures one { (p : Public) (numbers : Numbers) (time : ℕ) (pace : Pace) → pace.beat.next < time
        → let more = passed p numbers time (pace_after p pace None) in
        passed p numbers time pace ≡ record { slots = dummy_next p pace numbers ∷ more.slots; pace = more.pace } }
    ensures far { (p : Public) (numbers : Numbers) (time : ℕ) (pace : Pace)
        → time ≤ (passed p numbers time pace).pace.beat.next }
{}

/// An access takes the first slot that starts at or after the clock, where it starts before the time of the settings,
/// and is too late else; the slots that pass before it start before the clock. Accesses one after another are the first
/// of them, and then, unless a slot came too late, the others; and what is answered to a request is answered after
/// them.
pub fn accesses_take_slots()
    ensures early { (config : Config) (value : Option (List ℕ)) (now : Standing) (access : WalkAccess)
        → let before = passed (public_of config) now.numbers (min now.clock config.time) now.pace in
        before.pace.beat.next < config.time
        → (access_slot config value now access ≡ take_slot config value now access before true)
        × (now.clock ≤ before.pace.beat.next) }
    ensures late { (config : Config) (value : Option (List ℕ)) (now : Standing) (access : WalkAccess)
        → let before = passed (public_of config) now.numbers (min now.clock config.time) now.pace in
        config.time ≤ before.pace.beat.next
        → access_slot config value now access ≡ take_slot config value now access before false }
    ensures passed { (p : Public) (numbers : Numbers) (time : ℕ) (pace : Pace)
        → All (λ start. start < time) (starts_in (passed p numbers time pace).slots) }
    ensures accesses { (config : Config) (value : Option (List ℕ)) (first others : List WalkAccess) (now : Standing)
        → now.late ≡ None
        → one_by_one (access_slot config value) (first ++ others) now
        ≡ (let taken = one_by_one (access_slot config value) first now in
        followed taken (one_by_one (access_slot config value) others) taken.standing.late) }
    ensures answered { (config : Config) (now : Standing) (request : LineRequest)
        → let walked = walk (walk_sizes config) now.chip (requested request) in
        let taken = one_by_one (access_slot config (value_of request)) walked.accesses now in
        taken.standing.late ≡ None
        → ((request_slots config now request).slots ≡ taken.slots)
        × ((request_slots config now request).standing
        ≡ request_done request (record taken.standing { chip = walked.chip })) }
{}

/// Where a pace is that after some slots, it is so after a slot more, after dummies, and after the slots of requests:
/// the timetable stands where the code of these slots' choices leads to, the learner heard these slots, and the dummies
/// are counted. What a log tells that says the events of slots is what is heard of them.
pub fn slots_keep_the_pace()
    ensures start { (p : Public) → IsPace p [] (first_pace p) }
    ensures slot { (p : Public) → 0 < count_of p → (slots : List Slot) (pace : Pace) (numbers : Numbers)
        (asked : Option ℕ) (point : Point) (put appended : Option Message) → IsPace p slots pace
        → IsPace p (slots ++ slot_next p pace numbers asked point put appended ∷ []) (pace_after p pace asked) }
    ensures dummies { (p : Public) → 0 < count_of p → (slots : List Slot) (pace : Pace) (numbers : Numbers) (time : ℕ)
        → IsPace p slots pace → let more = passed p numbers time pace in IsPace p (slots ++ more.slots) more.pace }
    ensures requests { (config : Config) → IsConfig config → (slots : List Slot) (now : Standing)
        (requests : List LineRequest) → IsPace (public_of config) slots now.pace
        → let taken = one_by_one (request_slots config) requests now in
        IsPace (public_of config) (slots ++ taken.slots) taken.standing.pace }
    ensures log { (p : Public) (events : List Event) (slots : List Slot) → said_of_all events ≡ play_events slots
        → told_by p events ≡ heard_in p slots }
{}

/// At the start of a run the lines that aren't the image's stand for the bytes. An image line that is loaded stands for
/// them from then on, and they do after an instruction's requests. Where no slot came too late these requests' lines
/// were stored in order; and over all lines the requests that the cache's lists make of an access are answered by the
/// bytes, so that the access reads and writes them.
pub fn plays_stay_honest()
    ensures start { (ways sets count : ℕ) (memory marked : List ℕ) → 0 < sets
        → ((line : ℕ) → line < count → Has line marked ⊎ (line_in memory line ≡ replicate 64 0))
        → IsHonest ways count marked (record { memory = memory; sets = no_lines sets }) [] }
    ensures load { (ways count line : ℕ) (pending : List ℕ) (lines : Lines) (stored : StoredLines) → 0 < ways
        → IsHonest ways count (line ∷ pending) lines stored
        → IsHonest ways count pending (record lines { sets = sets_after ways lines.sets (image_use line) })
        (stored_by stored (requests_of ways lines.memory lines.sets (image_use line))) }
    ensures instruction { (ways count : ℕ) (pending : List ℕ) (machine : Machine) (lines : Lines)
        (stored : StoredLines) → 0 < ways → IsCore machine.core → machine.core.size ≡ 64 * count
        → length lines.memory ≡ 64 * count → IsHonest ways count pending lines stored
        → let step = instruction ways machine lines in
        IsHonest ways count pending step.held (stored_by stored (bare step.records)) }
    ensures stored { (config : Config) (requests : List LineRequest) (now : Standing)
        → (one_by_one (request_slots config) requests now).standing.late ≡ None
        → (one_by_one (request_slots config) requests now).standing.data_lines
        ≡ stored_by now.data_lines requests }
    ensures answered { (config : Config) (ways count : ℕ) (core : CoreState) (access : Access) (lines : Lines)
        (now : Standing) → IsAccess core.base (64 * count) access → HasBytes access
        → length lines.memory ≡ 64 * count → IsHonest ways count [] lines now.data_lines
        → let turn = access_turn ways core lines access in
        (play (line_slots config) (lists_access core.base ways lines access) now).outcome
        ≡ (turn.held, turn.answer) }
{}

/// Through the cache's lists, over a server of requests that knows the stored lines alone: an image line that is
/// written whole takes the slots of its requests, and leaves the bytes as they are; and where stored lines and kept
/// ones stand for the bytes, an instruction takes the slots of the play's instruction and leaves what stands after
/// them, and unless a slot came too late it comes to the play's lines, machine and ending.
pub fn lists_take_slots()
    ensures image { (config : Config) (ways line : ℕ) (value : List ℕ) (lines : Lines) (now : Standing)
        → now.late ≡ None → Takes (play (line_slots config) (write_whole_line ways lines line value) now)
        (one_by_one (request_slots config) (requests_of ways lines.memory lines.sets (image_use line)) now) }
    ensures written { (config : Config) (ways line : ℕ) (value : List ℕ) (lines : Lines) (now : Standing)
        → 64 * line + 64 ≤ length lines.memory → value ≡ line_in lines.memory line
        → (play (line_slots config) (write_whole_line ways lines line value) now).outcome
        ≡ record lines { sets = sets_after ways lines.sets (image_use line) } }
    ensures instruction { (config : Config) (ways count : ℕ) (machine : Machine) (lines : Lines) (now : Standing)
        → 0 < ways → IsCore machine.core → machine.core.size ≡ 64 * count → length lines.memory ≡ 64 * count
        → IsHonest ways count [] lines now.data_lines → now.late ≡ None
        → let step = instruction ways machine lines in
        Comes (play (line_slots config) (through (lists_access machine.core.base ways) (step_plan machine) lines) now)
        step (one_by_one (request_slots config) (bare step.records) now) }
{}

/// The slots of a play, the dummies among them, start as the timetable of its code says, up to its end time; its
/// choices are as many as fall by then, and its code is in the leakage budget. What a log says, where it says the
/// events of slots, are their starts and choices.
pub fn plays_are_scheduled()
    ensures slots { (config : Config) → IsConfig config → (memory marked : List ℕ) (machine : Machine)
        → let run = play_of config memory marked machine in AreOnTime (public_of config) run.last run.slots }
    ensures code { (config : Config) (end : ℕ) (slots : List Slot) → IsConfig config
        → AreOnTime (public_of config) end slots
        → (code_in (public_of config) slots < count_of (public_of config) ^ choices_in slots)
        × (code_in (public_of config) slots < 2 ^ config.leak) }
    ensures log { (events : List Event) (slots : List Slot) → said_of_all events ≡ play_events slots
        → (starts_of events ≡ starts_in slots) × (indices_of events ≡ indices_in slots) }
{}

/// Where the first slot would start at or after the time of the settings, a play has no slot.
pub fn plays_without_time_have_no_slots()
    ensures { (config : Config) (memory marked : List ℕ) (machine : Machine)
        → config.time ≤ (first_pace (public_of config)).beat.next
        → (play_of config memory marked machine).slots ≡ [] }
{}
