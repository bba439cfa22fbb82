//! Laws of the answers to all accesses along a request. The functions do nothing: each states laws in its contract.

ghost use Rattle.std.specs.Prelude.{◌≡◌, ◌<◌, ◌⊎◌, ℕ, [], None, Ok, length};
ghost use Rattle.asc_base.specs.TreeShape.{children_of};
ghost use Rattle.asc_base.specs.declared.block.Line.{Line};
ghost use Rattle.asc_base.specs.declared.stop.Stop.{Stop};
ghost use Rattle.asc_base.specs.declared.stop.Stop.TheVariants.{NoMemory};
ghost use Rattle.oram_contents.specs.Counts.{Ghost, put_at};
ghost use Rattle.oram_contents.specs.Entries.{Keys, AreKeys};
ghost use Rattle.oram_contents.specs.Forgery.{Forgery};
ghost use Rattle.oram_contents.specs.Starts.{first_ghost};
ghost use Rattle.oram_lines.specs.Noted.{NotedState, NotedStep, AreAnswersIn, lines_behind, IsMemoryOf, AreRunsNoted};
ghost use Rattle.oram_lines.specs.Noted.{StopsAt, IsDueRequest};
ghost use Rattle.oram_lines.specs.Standing.{StandsFor, IsCalm, SameData};
ghost use Rattle.oram_walk.specs.Front.{FrontState};
ghost use Rattle.oram_walk.specs.Plans.{FrontPlan, fetch_plan, store_plan};
ghost use Rattle.oram_walk.specs.Request.{Request, Steps};
ghost use Rattle.oram_walk.specs.Rows.{zeros};
ghost use Rattle.oram_walk.specs.declared.slots.Seen.{Seen};
ghost use Rattle.rate_enforcer.specs.Counts.{IsCounted};
ghost use Rattle.rate_enforcer.specs.PortStep.{PortState, PortStep, Idle};
ghost use Rattle.request_plan.specs.Plan.{Ends, Stops};

/// Each access along a fetch or a store is answered with its block's line in a memory that had the lines of all blocks
/// outside before, and that changes by what is put back and appended; afterwards it has the lines outside again, or the
/// log shows a forgery. At the start it is a memory of zeros, and waiting changes no line.
pub fn answers_are_lines()
    ensures start { (keys : Keys) → AreKeys keys → IsMemoryOf keys first_ghost zeros }
    ensures wait { (keys : Keys) → AreKeys keys → (levels : ℕ) (front : FrontState) (g : Ghost) (s t : PortState)
        (time end : ℕ) → StandsFor keys levels 0 front g s → IsCalm g → IsCounted s.clock s.tap.log
        → (lines : ℕ → Line) → IsMemoryOf keys g lines
        → PortStep keys.leaf_of levels s (Idle time) (Ok (record { found = None; end = end })) t
        → (h : Ghost) × StandsFor keys levels 0 front h t × IsCalm h × SameData keys g h × IsMemoryOf keys h lines }
    ensures fetch { (keys : Keys) → AreKeys keys → (levels : ℕ) (front : FrontState) (g : Ghost) (s : PortState)
        (asked line : ℕ) → StandsFor keys levels 0 front g s → IsCalm g → line < keys.shape.lines
        → (lines : ℕ → Line) → IsMemoryOf keys g lines → (t : NotedState) (later : FrontState) (seen : Seen)
        → Ends (Steps (NotedStep keys levels)) (fetch_plan front asked line) (record { port = s; answers = [] }) t
        (later, seen)
        → Forgery keys t.port.tap.log ⊎ ((h : Ghost) × StandsFor keys levels 0 later h t.port × IsCalm h
        × SameData keys g h × (seen.line.0 ≡ g.data_lines line) × AreAnswersIn lines t.answers
        × IsMemoryOf keys h (lines_behind lines t.answers)) }
    ensures store { (keys : Keys) → AreKeys keys → (levels : ℕ) (front : FrontState) (g : Ghost) (s : PortState)
        (asked line : ℕ) (value : Line) → StandsFor keys levels 0 front g s → IsCalm g → line < keys.shape.lines
        → length value.0 ≡ 64 → (lines : ℕ → Line) → IsMemoryOf keys g lines
        → (t : NotedState) (later : FrontState) (end : ℕ)
        → Ends (Steps (NotedStep keys levels)) (store_plan front asked line value) (record { port = s; answers = [] }) t
        (later, end)
        → Forgery keys t.port.tap.log ⊎ ((h : Ghost) × StandsFor keys levels 0 later h t.port × IsCalm h
        × ((b : ℕ) → children_of keys.shape.lines keys.shape.layers b ≡ None
        → h.data_lines b ≡ put_at g.data_lines line value.0 b)
        × AreAnswersIn lines t.answers × IsMemoryOf keys h (lines_behind lines t.answers)) }
{}

/// The same of the accesses before a stop; and where an access is stopped, and not for want of memory, it is due in the
/// memory that they leave: its block waits there for its slot, and has its line in that memory.
pub fn stopped_answers_are_lines()
    ensures fetch { (keys : Keys) → AreKeys keys → (levels : ℕ) (front : FrontState) (g : Ghost) (s : PortState)
        (asked line : ℕ) → StandsFor keys levels 0 front g s → IsCalm g → line < keys.shape.lines
        → (lines : ℕ → Line) → IsMemoryOf keys g lines → (mid : PortState) (last : Request) (t : NotedState)
        (stop : Stop) (left : FrontState)
        → Stops (Steps (StopsAt keys levels mid last)) (fetch_plan front asked line)
        (record { port = s; answers = [] }) t stop left
        → Forgery keys t.port.tap.log
        ⊎ (AreAnswersIn lines t.answers
        × ((stop ≡ NoMemory) ⊎ IsDueRequest keys (lines_behind lines t.answers) last mid)) }
    ensures store { (keys : Keys) → AreKeys keys → (levels : ℕ) (front : FrontState) (g : Ghost) (s : PortState)
        (asked line : ℕ) (value : Line) → StandsFor keys levels 0 front g s → IsCalm g → line < keys.shape.lines
        → length value.0 ≡ 64 → (lines : ℕ → Line) → IsMemoryOf keys g lines
        → (mid : PortState) (last : Request) (t : NotedState) (stop : Stop) (left : FrontState)
        → Stops (Steps (StopsAt keys levels mid last)) (store_plan front asked line value)
        (record { port = s; answers = [] }) t stop left
        → Forgery keys t.port.tap.log
        ⊎ (AreAnswersIn lines t.answers
        × ((stop ≡ NoMemory) ⊎ IsDueRequest keys (lines_behind lines t.answers) last mid)) }
{}

/// Each run of a front end's plan over a port is one in which its answers are noted behind others, and the other way
/// round; so is each that is stopped: of plans whose outcome is a line, and of those whose outcome is a time.
pub fn runs_are_noted()
    ensures lines { (keys : Keys) (levels : ℕ) (plan : FrontPlan Seen) → AreRunsNoted keys levels plan }
    ensures times { (keys : Keys) (levels : ℕ) (plan : FrontPlan ℕ) → AreRunsNoted keys levels plan }
{}
