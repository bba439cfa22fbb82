//! Laws of a port's states. The functions do nothing: each states a law in its contract.

ghost use Rattle.std.specs.Prelude.{◌≡◌, ◌≤◌, ℕ, [], ◌∷◌};
ghost use Rattle.asc_base.specs.declared.block.Point.{Point};
ghost use Rattle.asc_outside.specs.Memory.{MemoryState};
ghost use Rattle.bus_watch.specs.Log.{TapState, with_event};
ghost use Rattle.bus_watch.specs.Made.{Made};
ghost use Rattle.bus_watch.specs.RunEnd.{Whole};
ghost use Rattle.bus_watch.specs.declared.log.Event.{Event};
ghost use Rattle.rate_enforcer.specs.PortStep.{PortStep, IsNote, port_of, silent, Note};
ghost use Rattle.rate_enforcer.specs.State.{Rests, Opens};
ghost use Rattle.rate_enforcer.specs.declared.clock.Clock.{Clock};
ghost use Rattle.rate_enforcer.specs.declared.port.OpenSlot.{OpenSlot};
ghost use Rattle.unified_tree.specs.Tree.{TreeState};

/// Noting an event that begins no slot and is no choice is a step of a port whose bus notes it: in a slot and between
/// two slots there is room for one note less.
pub fn notes_are_steps()
    ensures { (leaf_of : Point → ℕ) (levels : ℕ) (event : Event) (clock : Clock) (tree : TreeState)
        (m m2 : MemoryState) (t t2 : TapState) → IsNote event → Made Whole [] (event ∷ []) m m2 t t2 → m2 ≡ m
        → t2.log ≡ with_event t.log event → t2.mirror ≡ t.mirror
        → PortStep leaf_of levels (port_of clock tree m t) (Note event) (Ok silent) (port_of clock tree m2 t2) }
{}

/// Where there is room for some notes, in a slot or between two, there is for fewer.
pub fn fewer_notes_fit()
    ensures between { (fewer notes levels : ℕ) (clock : Clock) (tree : TreeState) (m : MemoryState) (t : TapState)
        → fewer ≤ notes → Rests notes clock tree levels m t → Rests fewer clock tree levels m t }
    ensures inside { (fewer notes levels : ℕ) (clock : Clock) (slot : OpenSlot) (tree : TreeState) (m : MemoryState)
        (t : TapState) → fewer ≤ notes → Opens notes clock slot tree levels m t
        → Opens fewer clock slot tree levels m t }
{}
