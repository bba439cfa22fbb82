//! Laws of lines. The functions do nothing: each states a law in its contract.

ghost use Rattle.std.specs.Prelude.{◌≡◌, ◌<◌, ◌≤◌, ◌^◌, ◌⊎◌, ℕ, None, Some, length};
ghost use Rattle.asc_base.specs.Has.{Has};
ghost use Rattle.oram_contents.specs.Counts.{Ghost, line_at};
ghost use Rattle.oram_contents.specs.Entries.{Keys, AreKeys, real};
ghost use Rattle.oram_contents.specs.Forgery.{Forgery};
ghost use Rattle.oram_contents.specs.Slots.{MayRise};
ghost use Rattle.oram_contents.specs.Steps.{landed, inserted};
ghost use Rattle.asc_base.specs.declared.block.Line.{Line};
ghost use Rattle.asc_base.specs.declared.block.Message.{Message};
ghost use Rattle.oram_frontend.specs.Slots.{IsServedSlot, IsServedAppend, IsServedAnswer, Keeps};
ghost use Rattle.oram_lines.specs.Standing.{IsKnown, Undrawn, StandsFor, FitsPurpose, after_access, later};
ghost use Rattle.oram_walk.specs.Front.{FrontState};
ghost use Rattle.oram_walk.specs.declared.slots.Access.{Access};
ghost use Rattle.oram_walk.specs.declared.slots.Seen.{Seen};
ghost use Rattle.rate_enforcer.specs.PortStep.{PortState};

/// What an answered access keeps of what is known: the answered line is the block's, or the log shows a forgery.
pub fn known_requests()
    ensures slot { (keys : Keys) → AreKeys keys → (g : Ghost) (access : Access) (seen : Seen) (old new : PortState)
        (levels least : ℕ) → IsKnown keys g old → (x : IsServedSlot keys access seen old new)
        → Keeps keys levels least old new → g.flight ≡ None → g.pend ≡ Some access.address.0
        → access.counter ≡ g.count access.address.0 → MayRise keys g access.address.0 access.next
        → (Has access.address.0 g.held → ⊥) → Undrawn old.tap.log.events (real access.address.0 access.counter)
        → FitsPurpose keys.shape access.address.0 access.purpose
        → Forgery keys new.tap.log
        ⊎ (IsKnown keys (after_access keys.shape (later g x.passed) access access.purpose) new
        × (seen.line.0 ≡ line_at keys.shape g access.address.0)) }
{}

/// The same of an append, an answer, and a block that comes to be held.
pub fn known_between()
    ensures append { (keys : Keys) → AreKeys keys → (g : Ghost) (m : Message) (old new : PortState) (levels least : ℕ)
        → IsKnown keys g old → IsServedAppend keys m old new → Keeps keys levels least old new
        → g.flight ≡ Some m.address.0 → m.counter ≡ g.count m.address.0 → m.line.0 ≡ line_at keys.shape g m.address.0
        → (Has m.address.0 g.held → ⊥) → IsKnown keys (landed g) new }
    ensures answer { (keys : Keys) → AreKeys keys → (g : Ghost) (line : ℕ) (value : Line) (old new : PortState)
        (levels least : ℕ) → IsKnown keys g old → IsServedAnswer line value old new → Keeps keys levels least old new
        → IsKnown keys g new }
    ensures insert { (keys : Keys) → AreKeys keys → (g : Ghost) (s : PortState) (plb a : ℕ) → IsKnown keys g s
        → g.flight ≡ Some a → length g.held ≤ plb → IsKnown keys (inserted g plb a) s }
{}

/// Between slots each block's counters are below these bounds: a slot draws one point and takes its cycles, and none
/// starts at or after the time of the settings.
pub fn counters_are_low()
    ensures each { (keys : Keys) → AreKeys keys → (levels least : ℕ) (front : FrontState) (g : Ghost) (s : PortState)
        → StandsFor keys levels least front g s → (a : ℕ) → a < keys.shape.total
        → ((g.count a).group < 2 ^ 28) × ((g.count a).own < 16384) }
{}
