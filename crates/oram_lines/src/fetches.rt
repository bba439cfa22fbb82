ghost use Rattle.std.specs.Prelude.{◌≡◌, ◌<◌, ◌⊎◌, ℕ, None, length};
ghost use Rattle.asc_base.specs.TreeShape.{children_of};
ghost use Rattle.asc_base.specs.declared.block.Line.{Line};
ghost use Rattle.oram_contents.specs.Counts.{Ghost, put_at};
ghost use Rattle.oram_contents.specs.Entries.{Keys, AreKeys};
ghost use Rattle.oram_contents.specs.Forgery.{Forgery};
ghost use Rattle.oram_frontend.specs.Access.{SlotStep};
ghost use Rattle.oram_lines.specs.Standing.{StandsFor, IsCalm, SameData};
ghost use Rattle.oram_walk.specs.Front.{FrontState};
ghost use Rattle.oram_walk.specs.Plans.{fetch_plan, store_plan};
ghost use Rattle.oram_walk.specs.Request.{Steps};
ghost use Rattle.oram_walk.specs.declared.slots.Seen.{Seen};
ghost use Rattle.request_plan.specs.Plan.{Ends};
ghost use Rattle.rate_enforcer.specs.PortStep.{PortState};

/// A fetch answers the line's bytes and leaves all lines as they are, and a store changes the one line, or the log
/// shows a forgery.
pub fn lines_are_kept()
    ensures fetch { (keys : Keys) → AreKeys keys → (levels : ℕ) (front : FrontState) (g : Ghost) (s : PortState)
        (asked line : ℕ) → StandsFor keys levels 0 front g s → IsCalm g → line < keys.shape.lines
        → (t : PortState) (later : FrontState) (seen : Seen)
        → Ends (Steps (SlotStep keys levels)) (fetch_plan front asked line) s t (later, seen)
        → Forgery keys t.tap.log ⊎ ((h : Ghost) × StandsFor keys levels 0 later h t × IsCalm h × SameData keys g h
        × (seen.line.0 ≡ g.data_lines line)) }
    ensures store { (keys : Keys) → AreKeys keys → (levels : ℕ) (front : FrontState) (g : Ghost) (s : PortState)
        (asked line : ℕ) (value : Line) → StandsFor keys levels 0 front g s → IsCalm g → line < keys.shape.lines
        → length value.0 ≡ 64 → (t : PortState) (later : FrontState) (end : ℕ)
        → Ends (Steps (SlotStep keys levels)) (store_plan front asked line value) s t (later, end)
        → Forgery keys t.tap.log ⊎ ((h : Ghost) × StandsFor keys levels 0 later h t × IsCalm h
        × ((b : ℕ) → children_of keys.shape.lines keys.shape.layers b ≡ None
        → h.data_lines b ≡ put_at g.data_lines line value.0 b)) }
{}
