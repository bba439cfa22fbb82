//! The laws of chains of steps that follow plans. The calls do nothing.

ghost use Rattle.std.specs.Prelude.{◌≡◌, ◌⊎◌, ℕ, suc, Bool, true, false, List, [], ◌∷◌, ◌++◌, length, Option, Some};
ghost use Rattle.std.specs.Prelude.{Result, Ok, Err};
ghost use Rattle.std.specs.List.{flat_map};
ghost use Rattle.request_plan.specs.Plan.{Plan, Done, Ends, Stops, bind, through, Reply, caught, Refused, Ended, Asks};
ghost use Rattle.request_plan.specs.Plan.{Outcomes, ComesTo};
ghost use Rattle.request_plan.specs.Play.{served, Turn, bare, play, IsHalt, halt};
ghost use Rattle.request_plan.specs.Course.{Source, Finished, course, after_course, UsesAll};
ghost use Rattle.request_plan.specs.Laws.{AnswersKeep, Within, EndsBelow, StopsBelow, GivesBelow, RefusesBelow, Tells};
ghost use Rattle.request_plan.specs.Laws.{NotesAnswers};
ghost use Rattle.request_plan.specs.Laws.{StopsUnnoted, StaysClean, TakesTurns, CutsTurns, EndsTurns, StaysQuiet};
ghost use Rattle.request_plan.specs.Laws.{AnswersCarry};
ghost use Rattle.request_plan.specs.Laws.{StopsCarry};
ghost use Rattle.request_plan.specs.Press.{PressState, loaded, Prints, IsSound, IsFew, sheets_to, pages_of, pages};
ghost use Rattle.request_plan.specs.Press.{IsFirstPage};
ghost use Rattle.request_plan.specs.Press.{IsJam, IsOut, shift, IsLike, IsEmpty, told_sheets, count_sheet, numbers};
ghost use Rattle.request_plan.specs.Press.{FolderState};
ghost use Rattle.request_plan.specs.Press.{leaflet_plan, Folds, sheets_plan, with_sheet, hand_out};
ghost use Rattle.request_plan.specs.Press.{HandsUpTo, DeskState, HasSoundPress, desk_plan, HandsOut};
ghost use Rattle.request_plan.specs.Press.{AsksForRest, IsRest};
ghost use Rattle.request_plan.specs.declared.press.Halted.{Halted};
ghost use Rattle.request_plan.specs.declared.press.Halted.TheVariants.{NoPaper, Jammed};

use crate::{Follows, Guarded, Kept, Knows, Says, Stepped};

/// One plan after another ends where the first ends and the second ends from there, and only so.
/// It is stopped in the first, or in the second after the first's end, and only so; `put` says what
/// a stop in the first leaves in the words of the second.
pub fn one_after_another<S: Stepped, A, B, C, D>()
    ensures ends { (put : B → C) (first : Plan S.Request S.Answer B A)
        (next : A → Plan S.Request S.Answer C D) (start middle end : S) (a : A) (d : D)
        → Ends S.step first start middle a → Ends S.step (next a) middle end d
        → Ends S.step (bind put first next) start end d }
    ensures ends_only_so { (put : B → C) (first : Plan S.Request S.Answer B A)
        (next : A → Plan S.Request S.Answer C D) (start end : S) (d : D)
        → Ends S.step (bind put first next) start end d
        → (a : A) × (middle : S)
        × Ends S.step first start middle a × Ends S.step (next a) middle end d }
    ensures stops_in_first { (put : B → C) (first : Plan S.Request S.Answer B A)
        (next : A → Plan S.Request S.Answer C D) (start end : S) (stop : S.Stop) (left : B)
        → Stops S.step first start end stop left
        → Stops S.step (bind put first next) start end stop (put left) }
    ensures stops_in_second { (put : B → C) (first : Plan S.Request S.Answer B A)
        (next : A → Plan S.Request S.Answer C D)
        (start middle end : S) (a : A) (stop : S.Stop) (left : C)
        → Ends S.step first start middle a → Stops S.step (next a) middle end stop left
        → Stops S.step (bind put first next) start end stop left }
    ensures stops_only_so { (put : B → C) (first : Plan S.Request S.Answer B A)
        (next : A → Plan S.Request S.Answer C D) (start end : S) (stop : S.Stop) (left : C)
        → Stops S.step (bind put first next) start end stop left
        → ((b : B) × Stops S.step first start end stop b × (left ≡ put b))
        ⊎ ((a : A) × (middle : S)
        × Ends S.step first start middle a × Stops S.step (next a) middle end stop left) }
{}

/// What each answered step keeps holds along a chain: each of its steps is one from where it holds, and it holds at
/// the end. Every law of single steps can so be asked of the steps from where it holds alone.
pub fn invariant_kept<S: Kept, A, B>()
    ensures ends { AnswersKeep S.step S.holds
        → (plan : Plan S.Request S.Answer B A) (start end : S) (a : A)
        → S.holds start → Ends S.step plan start end a → Ends (Within S.holds S.step) plan start end a × S.holds end }
    ensures stops { AnswersKeep S.step S.holds
        → (plan : Plan S.Request S.Answer B A) (start end : S) (stop : S.Stop) (left : B)
        → S.holds start → Stops S.step plan start end stop left
        → Stops (Within S.holds S.step) plan start end stop left }
{}

/// What is known of a value and of the rest of its plan, and is carried over each answer, is known at a chain's end;
/// and a chain that is stopped has what it gives there of the stop and of what is left.
pub fn carried_along<S: Knows<A, B>, A, B>()
    ensures ends { AnswersCarry S.step S.known
        → (plan : Plan S.Request S.Answer B A) (start end : S) (a : A)
        → Ends S.step plan start end a → S.known start plan → S.known end (Done a) }
    ensures stops { AnswersCarry S.step S.known → StopsCarry S.step S.known S.known_left
        → (plan : Plan S.Request S.Answer B A) (start end : S) (stop : S.Stop) (left : B)
        → Stops S.step plan start end stop left → S.known start plan → S.known_left end stop left }
{}

/// What every outcome of a plan has, whatever is answered, the outcome of each chain has. One plan after another has
/// the outcomes of the second after those of the first, and its requests are those of the first, and those of the
/// second after each outcome of the first.
pub fn outcomes_and_requests<S: Stepped, A: Says, B, C, D: Says>()
where
    S::Request: Says,
    ensures has { (plan : Plan S.Request S.Answer B A) → Outcomes A.says plan
        → (start end : S) (a : A) → Ends S.step plan start end a → A.says a }
    ensures outcomes { (put : B → C) (first : Plan S.Request S.Answer B A)
        (next : A → Plan S.Request S.Answer C D)
        → Outcomes A.says first → ((a : A) → A.says a → Outcomes D.says (next a))
        → Outcomes D.says (bind put first next) }
    ensures requests { (put : B → C)
        (first : Plan S.Request S.Answer B A) (next : A → Plan S.Request S.Answer C D)
        → Asks S.Request.says first → Outcomes A.says first → ((a : A) → A.says a → Asks S.Request.says (next a))
        → Asks S.Request.says (bind put first next) }
{}

/// What follows a plan of the requests of a layer `T` follows, below in `S`, that plan through the layer. It is asked
/// of the layer that each answer is the end of its plan below, and each stop a stop of it; `held` is what the layer
/// holds itself, and `left` what it holds after a stop.
pub fn through_a_layer<T: Kept, S: Stepped<Stop = T::Stop>, H, L, A, B>()
    ensures ends { AnswersKeep T.step T.holds → (below : T → S) (held : T → H)
        (serve : H → T.Request → Plan S.Request S.Answer L (H × T.Answer))
        → EndsBelow S.step (Within T.holds T.step) below held serve
        → (plan : Plan T.Request T.Answer B A) (start end : T) (a : A)
        → T.holds start → Ends T.step plan start end a
        → Ends S.step (through serve plan (held start)) (below start) (below end) (held end, a) }
    ensures stops { AnswersKeep T.step T.holds
        → (below : T → S) (held : T → H) (left : T → L)
        (serve : H → T.Request → Plan S.Request S.Answer L (H × T.Answer))
        → EndsBelow S.step (Within T.holds T.step) below held serve
        → StopsBelow S.step (Within T.holds T.step) below held left serve
        → (plan : Plan T.Request T.Answer B A) (start end : T) (stop : T.Stop) (b : B)
        → T.holds start → Stops T.step plan start end stop b
        → Stops S.step (through serve plan (held start)) (below start) (below end)
        stop (left end, b) }
{}

/// The same through a layer that may refuse a request, which is no stop below: where it answers with a stop, that
/// plan ends with a refusal, or is stopped below. A layer that holds nothing, and whose requests come to what their
/// plans come to, is one.
pub fn through_a_refusing_layer<T: Kept, S: Stepped, H, K, L, A, B>()
    ensures ends { AnswersKeep T.step T.holds → (below : T → S) (held : T → H)
        (serve : H → T.Request → Plan S.Request S.Answer L (Reply K H T.Answer))
        → GivesBelow S.step (Within T.holds T.step) below held serve
        → (plan : Plan T.Request T.Answer B A) (start end : T) (a : A)
        → T.holds start → Ends T.step plan start end a
        → Ends S.step (caught serve plan (held start)) (below start) (below end) (Ended (held end) a) }
    ensures stops { AnswersKeep T.step T.holds
        → (below : T → S) (held : T → H) (left : T → L) (refusal : T.Stop → K) (cause : T.Stop → S.Stop)
        (serve : H → T.Request → Plan S.Request S.Answer L (Reply K H T.Answer))
        → GivesBelow S.step (Within T.holds T.step) below held serve
        → RefusesBelow S.step (Within T.holds T.step) below held left refusal cause serve
        → (plan : Plan T.Request T.Answer B A) (start end : T) (stop : T.Stop) (b : B)
        → T.holds start → Stops T.step plan start end stop b
        → Ends S.step (caught serve plan (held start)) (below start) (below end) (Refused (refusal stop) b)
        ⊎ Stops S.step (caught serve plan (held start)) (below start) (below end) (cause stop) (left end, b) }
    ensures by_plans { (serve : T.Request → Plan S.Request S.Answer (Unit {0}) (Reply S.Stop (Unit {0}) T.Answer))
        (plan : Plan T.Request T.Answer B A) (start end : S) (a : A)
        → Ends (λ (old : S) (q : T.Request) (x : Result T.Answer S.Stop) (new : S). ComesTo S.step (serve q) old x new)
        plan start end a
        → Ends S.step (caught (λ (held : Unit {0}) (q : T.Request). serve q) plan tt) start end (Ended tt a) }
    ensures stops_by_plans { (serve : T.Request → Plan S.Request S.Answer (Unit {0}) (Reply S.Stop (Unit {0}) T.Answer))
        (plan : Plan T.Request T.Answer B A) (start end : S) (stop : S.Stop) (b : B)
        → Stops (λ (old : S) (q : T.Request) (x : Result T.Answer S.Stop) (new : S). ComesTo S.step (serve q) old x new)
        plan start end stop b
        → Ends S.step (caught (λ (held : Unit {0}) (q : T.Request). serve q) plan tt) start end (Refused stop b)
        ⊎ Stops S.step (caught (λ (held : Unit {0}) (q : T.Request). serve q) plan tt) start end stop (tt, b) }
{}

/// Where each step tells what it was served from, as an honest memory tells its contents, the plan of a chain is
/// served by what was told at its start, to the chain's outcome and what is told at its end.
pub fn told_is_served<S: Kept, H, A, B>()
    ensures { AnswersKeep S.step S.holds
        → (told : S → Option H) (serve : H → S.Request → S.Answer × H) → Tells (Within S.holds S.step) told serve
        → (plan : Plan S.Request S.Answer B A) (start end : S) (a : A)
        → S.holds start → Ends S.step plan start end a → (after : H) → told end ≡ Some after
        → (before : H) × (told start ≡ Some before) × (served serve plan before ≡ (a, after)) }
{}

/// Where a value notes what it answers, the plan of a chain was run on exactly what was noted: it finishes on these
/// items with the chain's outcome, and a stopped chain's plan uses them all.
pub fn noted_is_run<S: Kept, N, A, B>()
    ensures ends { AnswersKeep S.step S.holds
        → (source : S.Request → Source N S.Answer) (noted : S → List N)
        → NotesAnswers (Within S.holds S.step) source noted
        → (plan : Plan S.Request S.Answer B A) (start end : S) (a : A)
        → S.holds start → Ends S.step plan start end a
        → (items : List N) × (noted end ≡ noted start ++ items)
        × ((more : List N) → course source plan (items ++ more) ≡ Finished a more) }
    ensures stops { AnswersKeep S.step S.holds
        → (source : S.Request → Source N S.Answer) (noted : S → List N)
        → NotesAnswers (Within S.holds S.step) source noted → StopsUnnoted (Within S.holds S.step) noted
        → (plan : Plan S.Request S.Answer B A) (start end : S) (stop : S.Stop) (left : B)
        → S.holds start → Stops S.step plan start end stop left
        → (items : List N) × (noted end ≡ noted start ++ items)
        × UsesAll (course source plan items) }
{}

/// One plan after another runs on a list of items as the first does, and from there as the second: a stop in the
/// first is a stop of both. On no item a plan is starved at its first request that needs one, or finishes.
pub fn one_run_after_another<S: Stepped, N, A, B, C, D>()
    ensures joins { (source : S.Request → Source N S.Answer) (put : B → C) (first : Plan S.Request S.Answer B A)
        (next : A → Plan S.Request S.Answer C D) (items : List N)
        → course source (bind put first next) items
        ≡ after_course put (λ (a : A) (rest : List N). course source (next a) rest) (course source first items) }
    ensures none { (source : S.Request → Source N S.Answer) (plan : Plan S.Request S.Answer B A)
        → UsesAll (course source plan []) }
{}

/// Where each step that ends clean takes a server's turn, from whatever the value stands for, and notes the items of
/// its records, a chain that ends clean has the outcome of the plan's play, and noted the items of its records. A
/// chain stopped by a stop that cuts noted those of the records before one of them, and a part of that one's, which
/// leaves what the plan does: the play's halt at that record (`none` is what is left at no record). One with a late
/// stop noted the whole play.
pub fn play_or_cut<S: Follows, A, B>()
    ensures ends { AnswersKeep S.step S.holds
        → (serve : S.Held → S.Request → Turn S.Record S.Held S.Answer)
        (noted : S → List S.Item) (items : S.Record → List S.Item)
        → StaysClean (Within S.holds S.step) S.clean
        → TakesTurns (Within S.holds S.step) serve S.stands_for noted items S.clean
        → (plan : Plan S.Request S.Answer B A) (start end : S) (a : A)
        → S.holds start → Ends S.step plan start end a → S.clean end → (held : S.Held) → S.stands_for start held
        → let whole = play serve plan held in
        (a ≡ whole.outcome) × S.stands_for end whole.held
        × (noted end ≡ noted start ++ flat_map items (bare (whole.records))) }
    ensures cut { AnswersKeep S.step S.holds
        → (serve : S.Held → S.Request → Turn S.Record S.Held S.Answer)
        (noted : S → List S.Item) (items : S.Record → List S.Item)
        → StaysClean (Within S.holds S.step) S.clean
        → TakesTurns (Within S.holds S.step) serve S.stands_for noted items S.clean
        → CutsTurns (Within S.holds S.step) serve S.stands_for noted items S.cuts S.part S.clean
        → (plan : Plan S.Request S.Answer B A) (start end : S) (stop : S.Stop) (left : B)
        → S.holds start → Stops S.step plan start end stop left → S.cuts stop → S.clean end
        → (held : S.Held) → S.stands_for start held
        → (done : List S.Record) × (cut : S.Record) × (some : List S.Item) × IsHalt (play serve plan held) done cut left
        × (noted end ≡ noted start ++ flat_map items done ++ some) × S.part stop end cut some }
    ensures halt { (none : B) (serve : S.Held → S.Request
        → Turn S.Record S.Held S.Answer) (plan : Plan S.Request S.Answer B A) (held : S.Held)
        (done : List S.Record) (cut : S.Record) (left : B) → IsHalt (play serve plan held) done cut left
        → halt none (play serve plan held) (suc (length done)) ≡ (done ++ cut ∷ [], left) }
    ensures late { AnswersKeep S.step S.holds
        → (serve : S.Held → S.Request → Turn S.Record S.Held S.Answer)
        (noted : S → List S.Item) (items : S.Record → List S.Item)
        → StaysClean (Within S.holds S.step) S.clean
        → TakesTurns (Within S.holds S.step) serve S.stands_for noted items S.clean
        → EndsTurns (Within S.holds S.step) serve S.stands_for noted items S.late S.quiet S.clean
        → StaysQuiet serve S.stands_for S.quiet
        → (plan : Plan S.Request S.Answer B A) (start end : S) (stop : S.Stop) (left : B)
        → S.holds start → Stops S.step plan start end stop left → S.late stop → S.clean end
        → (held : S.Held) → S.stands_for start held
        → let whole = play serve plan held in
        S.stands_for end whole.held × (noted end ≡ noted start ++ flat_map items (bare (whole.records))) }
{}

/// The press and the folder meet all that the laws ask, from where the press hasn't jammed. A jammed press answers so
/// for good. A press that jams within its third sheet printed two sheets' pages and one page, and its server's play
/// is cut in its third record; one whose paper ends before it printed the whole play.
pub fn press_meets_the_laws()
    ensures keeps { AnswersKeep Prints IsSound }
    ensures clean { StaysClean (Within IsSound Prints) IsFew }
    ensures turns { TakesTurns (Within IsSound Prints) shift IsLike pages pages_of IsFew }
    ensures cuts { CutsTurns (Within IsSound Prints) shift IsLike pages pages_of IsJam IsFirstPage IsFew }
    ensures late { EndsTurns (Within IsSound Prints) shift IsLike pages pages_of IsOut IsEmpty IsFew }
    ensures quiet { StaysQuiet shift IsLike IsEmpty }
    ensures notes { NotesAnswers (Within IsSound Prints) numbers (λ (p : PressState). sheets_to p.sheets) }
    ensures unnoted { StopsUnnoted (Within IsSound Prints) (λ (p : PressState). sheets_to p.sheets) }
    ensures tells { Tells (Within IsSound Prints) told_sheets count_sheet }
    ensures folder_ends { EndsBelow Prints Folds
        (λ (f : FolderState). f.press) (λ (f : FolderState). f.leaflets) leaflet_plan }
    ensures folder_stops { StopsBelow Prints Folds
        (λ (f : FolderState). f.press) (λ (f : FolderState). f.leaflets) (λ (f : FolderState). tt) leaflet_plan }
    ensures for_good { (p : PressState) → p.jammed ≡ true → Prints p tt (Err Jammed) p }
    ensures two_sheets { Ends Prints (sheets_plan 2) (loaded 3 2)
        (record { sheets = 2; paper = 1; sound = 0; jammed = false }) 2 }
    ensures third_is_cut { Stops Prints (sheets_plan 3) (loaded 3 2)
        (record { sheets = 2; paper = 1; sound = 0; jammed = true }) Jammed 1 }
    ensures third_is_late { Stops Prints (sheets_plan 3) (loaded 2 9)
        (record { sheets = 2; paper = 0; sound = 7; jammed = false }) NoPaper 1 }
    ensures third_halt { halt 0 (play shift (sheets_plan 3) (0, 3)) 3 ≡ (1 ∷ 2 ∷ 3 ∷ [], 1) }
    ensures third_pages { pages (record { sheets = 2; paper = 1; sound = 0; jammed = true }) ≡ 2 ∷ 3 ∷ 4 ∷ 5 ∷ 6 ∷ [] }
    ensures late_pages { pages (record { sheets = 2; paper = 0; sound = 7; jammed = false })
        ≡ flat_map pages_of (bare ((play shift (sheets_plan 3) (0, 2)).records)) }
    ensures handed { ComesTo Prints (hand_out 1 tt) (loaded 3 2) (Ok 1) (with_sheet (loaded 3 2)) }
    ensures refused { ComesTo Prints (hand_out 0 tt) (loaded 3 2) (Err NoPaper) (with_sheet (loaded 3 2)) }
{}

/// The desk meets what the laws of a layer that may refuse ask, and what those of what is carried along ask, from
/// where its press hasn't jammed. Two sheets of two are handed out; the third of two is refused, and the third of
/// three jams: each is a chain of the desk, and so one of its plans over the press. Where a plan asks for as many
/// sheets as are left, none is left at its end, and at a stop as many as the plan leaves. The same three chains, where
/// a request is one that comes to what its plan comes to.
pub fn desk_meets_the_laws()
    ensures keeps { AnswersKeep HandsOut HasSoundPress }
    ensures gives { GivesBelow Prints (Within HasSoundPress HandsOut)
        (λ (d : DeskState). d.press) (λ (d : DeskState). d.left) desk_plan }
    ensures refuses { RefusesBelow Prints (Within HasSoundPress HandsOut)
        (λ (d : DeskState). d.press) (λ (d : DeskState). d.left) (λ (d : DeskState). tt)
        (λ (stop : Halted). stop) (λ (stop : Halted). stop) desk_plan }
    ensures carries { AnswersCarry HandsOut AsksForRest }
    ensures stops_carry { StopsCarry HandsOut AsksForRest IsRest }
    ensures two_handed { Ends HandsOut (sheets_plan 2) (record { press = loaded 3 9; left = 2 })
        (record { press = record { sheets = 2; paper = 1; sound = 7; jammed = false }; left = 0 }) 2 }
    ensures two_handed_below { Ends Prints (caught desk_plan (sheets_plan 2) 2) (loaded 3 9)
        (record { sheets = 2; paper = 1; sound = 7; jammed = false }) (Ended 0 2) }
    ensures third_refused { Stops HandsOut (sheets_plan 3) (record { press = loaded 3 9; left = 2 })
        (record { press = record { sheets = 2; paper = 1; sound = 7; jammed = false }; left = 0 }) NoPaper 1 }
    ensures third_refused_below { Ends Prints (caught desk_plan (sheets_plan 3) 2) (loaded 3 9)
        (record { sheets = 2; paper = 1; sound = 7; jammed = false }) (Refused NoPaper 1) }
    ensures third_jams { Stops HandsOut (sheets_plan 3) (record { press = loaded 3 2; left = 3 })
        (record { press = record { sheets = 2; paper = 1; sound = 0; jammed = true }; left = 1 }) Jammed 1 }
    ensures third_jams_below { Stops Prints (caught desk_plan (sheets_plan 3) 3) (loaded 3 2)
        (record { sheets = 2; paper = 1; sound = 0; jammed = true }) Jammed (tt, 1) }
    ensures rest_at_end { (start end : DeskState) (last : ℕ)
        → Ends HandsOut (sheets_plan start.left) start end last → end.left ≡ 0 }
    ensures rest_at_stop { (start end : DeskState) (stop : Halted) (left : ℕ)
        → Stops HandsOut (sheets_plan start.left) start end stop left → left ≡ end.left }
    ensures by_plans { Ends (HandsUpTo 2) (sheets_plan 2) (loaded 3 9)
        (record { sheets = 2; paper = 1; sound = 7; jammed = false }) 2 }
    ensures by_plans_below { Ends Prints (caught (λ (held : Unit {0}) (q : Unit {0}). hand_out 2 q) (sheets_plan 2) tt)
        (loaded 3 9) (record { sheets = 2; paper = 1; sound = 7; jammed = false }) (Ended tt 2) }
    ensures refused_by_plans { Stops (HandsUpTo 2) (sheets_plan 3) (loaded 3 9)
        (record { sheets = 3; paper = 0; sound = 6; jammed = false }) NoPaper 1 }
    ensures refused_by_plans_below { Ends Prints
        (caught (λ (held : Unit {0}) (q : Unit {0}). hand_out 2 q) (sheets_plan 3) tt)
        (loaded 3 9) (record { sheets = 3; paper = 0; sound = 6; jammed = false }) (Refused NoPaper 1) }
    ensures jams_by_plans { Stops (HandsUpTo 9) (sheets_plan 3) (loaded 3 2)
        (record { sheets = 2; paper = 1; sound = 0; jammed = true }) Jammed 1 }
    ensures jams_by_plans_below { Stops Prints
        (caught (λ (held : Unit {0}) (q : Unit {0}). hand_out 9 q) (sheets_plan 3) tt)
        (loaded 3 2) (record { sheets = 2; paper = 1; sound = 0; jammed = true }) Jammed (tt, 1) }
{}
