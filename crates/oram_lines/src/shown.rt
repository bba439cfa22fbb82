//! Laws of a front end's chip. The functions do nothing: each states laws in its contract.

ghost use Rattle.std.specs.Prelude.{◌≡◌, ◌<◌, ◌+◌, ◌^◌, ℕ, List, ◌∷◌, Bool, true, is_some, None, Some, count_by};
ghost use Rattle.asc_base.specs.Has.{Has};
ghost use Rattle.asc_base.specs.TreeShape.{children_of};
ghost use Rattle.asc_base.specs.declared.block.Address.{Address};
ghost use Rattle.asc_base.specs.declared.block.Line.{Line};
ghost use Rattle.bus_watch.specs.Log.{LogLists};
ghost use Rattle.oram_contents.specs.Counts.{Ghost, line_at};
ghost use Rattle.oram_contents.specs.Decided.{draws};
ghost use Rattle.oram_contents.specs.Entries.{Keys, AreKeys};
ghost use Rattle.oram_contents.specs.Groups.{AreSmall};
ghost use Rattle.oram_lines.specs.Shown.{ParentFirst, IsStepped, IsInserted, IsFirst, HasUsed, IsMoved, IsRenumbered};
ghost use Rattle.oram_lines.specs.Shown.{IsEnded, IsFull};
ghost use Rattle.oram_lines.specs.Standing.{IsShown};
ghost use Rattle.asc_base.specs.Settings.{IsConfig};
ghost use Rattle.asc_base.specs.declared.settings.Config.{Config};
ghost use Rattle.oram_contents.specs.Starts.{first_ghost};
ghost use Rattle.oram_walk.specs.Front.{FrontState, first_front, counter_in, with_held, full_parent};
ghost use Rattle.posmap_counters.specs.Group.{GroupState};
ghost use Rattle.posmap_lookaside.specs.Addresses.{used};
ghost use Rattle.posmap_lookaside.specs.Held.{held_at, promoted};

/// A front end's chip shows the counters of all blocks at the start, and goes on showing them over an access that is
/// asked for, where a block comes to be held and where a held one is used. What it shows depends on counters, on what
/// is held and on what is under way alone.
pub fn chip_shows()
    ensures start { (keys : Keys) → AreKeys keys → (config : Config) → IsConfig config → config.shape ≡ keys.shape
        → IsShown keys (first_front config) first_ghost }
    ensures same { (keys : Keys) → AreKeys keys → (front : FrontState) (g h : Ghost) → h.count ≡ g.count
        → h.held ≡ g.held → h.stepped ≡ g.stepped → h.pend ≡ g.pend → h.move ≡ g.move → IsShown keys front g
        → IsShown keys front h }
    ensures step { (keys : Keys) → AreKeys keys → (front : FrontState) (g : Ghost) (log : LogLists) (a : Address)
        → IsShown keys front g → AreSmall keys.shape front.ic log g.count → count_by draws log.events < 2 ^ 40
        → a.0 < keys.shape.total → g.stepped ≡ None → g.pend ≡ None → g.move ≡ None → ParentFirst keys g a.0
        → (Has a.0 g.held → ⊥) → full_parent front a ≡ None → IsStepped keys front g log a }
    ensures insert { (keys : Keys) → AreKeys keys → (front : FrontState) (g : Ghost) (a : Address) (line : Line)
        → IsShown keys front g → g.pend ≡ None → g.stepped ≡ None → g.move ≡ None → a.0 < keys.shape.total
        → (Has a.0 g.held → ⊥) → counter_in front a ≡ g.count a.0 → line.0 ≡ line_at keys.shape g a.0
        → (family : ℕ × ℕ) × (children_of keys.shape.lines keys.shape.layers a.0 ≡ Some family)
        → IsInserted keys front g a line }
    ensures used { (keys : Keys) → AreKeys keys → (front : FrontState) (g : Ghost) (p : Address)
        → IsShown keys front g → g.pend ≡ None
        → IsShown keys (with_held front (promoted front.held p)) (record g { held = used g.held p.0 }) }
    ensures first { (keys : Keys) → AreKeys keys → (front : FrontState) (g : Ghost) (p : Address)
        → IsShown keys front g → is_some (held_at front.held p) ≡ true
        → (rest : List ℕ) × (used g.held p.0 ≡ p.0 ∷ rest) }
{}

/// So it does over a group move of the first held block's children: where it begins, over a child's slot or a held
/// child's next counter, and where it ends. A full parent is the first held block.
pub fn chip_shows_group_moves()
    ensures full { (keys : Keys) → AreKeys keys → (front : FrontState) (g : Ghost) (a p : Address)
        (group : GroupState) → IsShown keys front g → ParentFirst keys g a.0 → a.0 < keys.shape.total
        → full_parent front a ≡ Some (p, group) → IsFull keys front a p group }
    ensures begins { (keys : Keys) → AreKeys keys → (front : FrontState) (g : Ghost) (p : Address)
        (group : GroupState) (first number : ℕ) → IsShown keys front g → IsFirst front p group
        → children_of keys.shape.lines keys.shape.layers p.0 ≡ Some (first, number) → g.move ≡ None
        → IsShown keys front (record g { move = Some (p.0, 0) }) }
    ensures child { (keys : Keys) → AreKeys keys → (front : FrontState) (g : Ghost) (p : Address)
        (group : GroupState) (first number : ℕ) → IsShown keys front g → IsFirst front p group
        → children_of keys.shape.lines keys.shape.layers p.0 ≡ Some (first, number) → (log : LogLists) (i : ℕ)
        → AreSmall keys.shape front.ic log g.count → count_by draws log.events < 2 ^ 40 → g.stepped ≡ None
        → g.pend ≡ None → g.move ≡ Some (p.0, i) → i < number → (Has (first + i) g.held → ⊥)
        → IsMoved keys front g log p group first i }
    ensures held_child { (keys : Keys) → AreKeys keys → (front : FrontState) (g : Ghost) (p : Address)
        (group : GroupState) (first number : ℕ) → IsShown keys front g → IsFirst front p group
        → children_of keys.shape.lines keys.shape.layers p.0 ≡ Some (first, number) → (log : LogLists) (i : ℕ)
        → AreSmall keys.shape front.ic log g.count → count_by draws log.events < 2 ^ 40 → g.stepped ≡ None
        → g.pend ≡ None → g.move ≡ Some (p.0, i) → i < number → HasUsed number group
        → IsRenumbered keys front g log p group first i }
    ensures ends { (keys : Keys) → AreKeys keys → (front : FrontState) (g : Ghost) (p : Address)
        (group : GroupState) (first number : ℕ) → IsShown keys front g → IsFirst front p group
        → children_of keys.shape.lines keys.shape.layers p.0 ≡ Some (first, number) → g.stepped ≡ None
        → g.move ≡ Some (p.0, number) → IsEnded keys front g p group }
{}
