//! A whole slot made of a path's read and its write: how the contracts of the two compose.

ghost use Rattle.std.specs.Prelude.{◌≡◌, ◌<◌, ◌≤◌, ◌+◌, ◌*◌, ◌^◌, ◌++◌, ◌∷◌, [], None, length};
ghost use Rattle.std.specs.Prelude.{IfErr, IsErrOf, OnOk, OnErr};
ghost use Rattle.asc_base.specs.declared.block.Point.TheVariants.{Dummy};
ghost use Rattle.bus_watch.specs.Made.{Ran};
ghost use Rattle.bus_watch.specs.Path.{slot_moves};
ghost use Rattle.bus_watch.specs.Ready.{IsReady};
ghost use Rattle.bus_watch.specs.RunEnd.{Whole};
ghost use Rattle.bus_watch.specs.declared.log.Event.TheVariants.{Access, Drawn};
ghost use Rattle.oram_contents.specs.Counts.{Ghost};
ghost use Rattle.oram_contents.specs.Entries.{Keys, AreKeys};
ghost use Rattle.oram_contents.specs.Home.{Home};
ghost use Rattle.oram_contents.specs.Provenance.{Always, Sound};
ghost use Rattle.oram_contents.specs.Slots.{IsPass, passed};
ghost use Rattle.oram_contents.specs.Steps.{opened_at};
ghost use Rattle.unified_tree.specs.Slot.{contents_of};
ghost use Rattle.unified_tree.specs.Stopped.{StopsSlot};
ghost use Rattle.unified_tree.specs.Tree.{IsSameTree};

use crate::stop::TreeStop;
use crate::tree::Tree;
use asc_base::{Leaf, Point};
use asc_outside::UntrustedMemory;
use bus_watch::{Bus, Event, Watch};

/// The slot of the dummy of a number, which starts at a time, in cycles, and takes nothing out and puts nothing back.
/// Its start and its leaf are noted first, on every answer, and nothing else is. It is refused where the path's read or
/// its write is.
pub fn pass_by<M: UntrustedMemory, W: Watch>(
    tree: &mut Tree,
    bus: &mut Bus<'_, M, W>,
    start: u64,
    number: u64,
    leaf: Leaf,
) -> Result<(), TreeStop>
    requires path { tree.old.path ≡ None }
    requires leaf { leaf.0 < 2 ^ tree.old.shape.levels }
    requires start { start < 2 ^ 39 }
    requires spare { 4 * (tree.old.shape.levels + 1) ≤ tree.old.spare }
    requires few { length tree.old.hand < 2 ^ 20 }
    requires seed { tree.old.seed < 2 ^ 63 }
    requires ready { IsReady tree.old.shape.buckets (2 * (tree.old.shape.levels + 1)) 2
        (M.state bus.old.memory.now) (W.state bus.old.tap.now) }
    ensures ran { OnOk result (Ran M.state W.state Whole (slot_moves tree.old.shape.levels start leaf.0)
        (Access start None ∷ Drawn (Dummy number) leaf ∷ []) bus.old bus.new) }
    ensures passed { OnOk result ((keys : Keys) → keys.shape ≡ tree.old.shape → keys.pads ≡ tree.old.key
        → keys.leaf_of (Dummy number) ≡ leaf.0
        → IsPass keys (W.state bus.old.tap.now).log (W.state bus.new.tap.now).log
        (contents_of tree.old (W.state bus.old.tap.now)) (contents_of tree.new (W.state bus.new.tap.now))
        start number) }
    ensures sound { OnOk result ((keys : Keys) → AreKeys keys → keys.shape ≡ tree.old.shape → keys.pads ≡ tree.old.key
        → keys.leaf_of (Dummy number) ≡ leaf.0 → (g : Ghost) → g.path ≡ None → number ≡ g.dummies
        → Always keys (W.state bus.old.tap.now).log (contents_of tree.old (W.state bus.old.tap.now))
        → Sound keys (W.state bus.old.tap.now).log g (contents_of tree.old (W.state bus.old.tap.now))
        → Always keys (W.state bus.new.tap.now).log (contents_of tree.new (W.state bus.new.tap.now))
        × Sound keys (W.state bus.new.tap.now).log (passed g) (contents_of tree.new (W.state bus.new.tap.now))) }
    ensures home { OnOk result ((keys : Keys) → AreKeys keys → keys.shape ≡ tree.old.shape → keys.pads ≡ tree.old.key
        → keys.leaf_of (Dummy number) ≡ leaf.0 → (W.state bus.new.tap.now).log.altered ≡ []
        → (g : Ghost) → g.path ≡ None
        → Always keys (W.state bus.old.tap.now).log (contents_of tree.old (W.state bus.old.tap.now))
        → Home keys g (contents_of tree.old (W.state bus.old.tap.now))
        → Home keys (passed g) (contents_of tree.new (W.state bus.new.tap.now))) }
    ensures always { (keys : Keys) → AreKeys keys → keys.shape ≡ tree.old.shape → keys.pads ≡ tree.old.key
        → keys.leaf_of (Dummy number) ≡ leaf.0
        → Always keys (W.state bus.old.tap.now).log (contents_of tree.old (W.state bus.old.tap.now))
        → Always keys (W.state bus.new.tap.now).log (contents_of tree.new (W.state bus.new.tap.now)) }
    ensures sound_err { OnErr result ((keys : Keys) → AreKeys keys → keys.shape ≡ tree.old.shape
        → keys.pads ≡ tree.old.key → keys.leaf_of (Dummy number) ≡ leaf.0
        → (g : Ghost) → g.path ≡ None → number ≡ g.dummies
        → Sound keys (W.state bus.old.tap.now).log g (contents_of tree.old (W.state bus.old.tap.now))
        → Sound keys (W.state bus.new.tap.now).log (opened_at g (Dummy number) leaf.0)
        (contents_of tree.new (W.state bus.new.tap.now))) }
    ensures noted { (W.state bus.new.tap.now).log.events
        ≡ (W.state bus.old.tap.now).log.events ++ (Access start None ∷ Drawn (Dummy number) leaf ∷ []) }
    ensures stopped { IfErr result (λ stop. StopsSlot M.state W.state start number leaf.0 stop tree.old tree.new bus.old
        bus.new) }
    ensures cause { IsErrOf result TreeStop.Device
        → (M.state bus.old.memory.now).faults < (M.state bus.new.memory.now).faults }
    ensures kept { IsSameTree tree.old tree.new }
    ensures path { OnOk result (tree.new.path ≡ None) }
{
    bus.note(Event::Access { start, asked: None });
    bus.note(Event::Drawn {
        point: Point::Dummy(number),
        leaf,
    });
    match tree.read_path(bus, start, leaf) {
        Ok(()) => {}
        Err(stop) => return Err(stop),
    }
    match tree.write_path(bus, start, leaf) {
        Ok(()) => Ok(()),
        Err(stop) => Err(stop),
    }
}
