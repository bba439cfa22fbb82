ghost use Rattle.std.specs.Prelude.{◌≡◌};

use asc_base::{Line, Message, Stop};
use asc_outside::UntrustedMemory;
use bus_watch::{Bus, Watch};
use leaf_function::LeafFn;
use oram_walk::{Access, Seen, Slots};
use pmmac_tags::Tagger;
use rate_enforcer::Port;

/// The slots of a port, with the memory and the tap that a bus has lent for a call.
#[derive(Drop)]
pub struct PortSlots<'p, 'b, M: UntrustedMemory, W: Watch, L: LeafFn> {
    /// The memory.
    pub memory: &'b mut M,
    /// The tap.
    pub tap: &'b mut W,
    /// The port.
    pub port: &'p mut Port<L>,
    /// The tags.
    pub tagger: &'p Tagger,
}

impl<'p, 'b, M: UntrustedMemory, W: Watch, L: LeafFn> PortSlots<'p, 'b, M, W, L> {
    /// The slots of a port over a memory and a tap.
    pub fn new(
        memory: &'b mut M,
        tap: &'b mut W,
        port: &'p mut Port<L>,
        tagger: &'p Tagger,
    ) -> PortSlots<'p, 'b, M, W, L>
        ensures same_memory { result.memory.ghost_name ≡ memory.entry.ghost_name }
        ensures same_tap { result.tap.ghost_name ≡ tap.entry.ghost_name }
        ensures same_port { result.port.ghost_name ≡ port.entry.ghost_name }
        ensures memory { result.memory.now ≡ memory.old }
        ensures tap { result.tap.now ≡ tap.old }
        ensures port { result.port.now ≡ port.old }
        ensures tagger { result.tagger.now ≡ tagger.now }
    {
        PortSlots {
            memory,
            tap,
            port,
            tagger,
        }
    }
}

impl<'p, 'b, M: UntrustedMemory, W: Watch, L: LeafFn> Slots for PortSlots<'p, 'b, M, W, L> {
    ghost use Rattle.std.specs.Prelude.{◌≡◌, ◌<◌};
    ghost use Rattle.oram_frontend.specs.Access.{SlotStep};
    ghost use Rattle.rate_enforcer.specs.PortStep.{port_of};
    ghost use Rattle.rate_enforcer.specs.Served.{keys_of};
    ghost use Rattle.rate_enforcer.specs.State.{Rests};
    ghost use Rattle.oram_frontend.specs.Same.{IsSameSlots};
    ghost use Rattle.std.proofs.Common.{ap};
    ghost use Rattle.asc_base.specs.declared.shape.Shape.{Shape};

    ghost step = { λ old request answer new.
        SlotStep (keys_of old.port.now.tree old.tagger.now (L.leaf_of old.port.now.leaves))
        (L.levels old.port.now.leaves)
        (port_of old.port.now.clock old.port.now.tree (M.state old.memory.now) (W.state old.tap.now))
        request answer
        (port_of new.port.now.clock new.port.now.tree (M.state new.memory.now) (W.state new.tap.now))
        × IsSameSlots old new };

    ghost total = { λ slots. slots.port.now.tree.shape.total };

    ghost last = { λ slots. slots.port.now.clock.last };

    ghost rests = { λ slots. Rests 0 slots.port.now.clock slots.port.now.tree (L.levels slots.port.now.leaves)
        (M.state slots.memory.now) (W.state slots.tap.now) };

    ghost ended = { λ slots. Rests 0 slots.port.now.clock slots.port.now.tree (L.levels slots.port.now.leaves)
        (M.state slots.memory.now) (W.state slots.tap.now)
        × Rests 1 slots.port.now.clock slots.port.now.tree (L.levels slots.port.now.leaves)
        (M.state slots.memory.now) (W.state slots.tap.now) × (0 < slots.port.now.tree.spare) };

    fn access(&mut self, access: &Access) -> Result<Seen, Stop> {
        let mut bus = Bus::new(self.memory, self.tap);
        crate::access::access(&mut bus, self.port, self.tagger, access)
    }

    fn append(&mut self, message: &Message) -> Result<(), Stop> {
        let mut bus = Bus::new(self.memory, self.tap);
        crate::access::append(&mut bus, self.port, self.tagger, message)
    }

    fn answered(&mut self, line: u32, value: &Line) {
        let mut bus = Bus::new(self.memory, self.tap);
        crate::access::answer(&mut bus, line, value);
    }

    ghost goes_on = { λ slots h. h.0 };

    ghost keeps_total = { λ old new request answer h. ap (λ (s : Shape). s.total) h.1.tree.shape };
}
