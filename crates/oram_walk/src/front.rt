//! What a front end holds on chip.

ghost use Rattle.std.specs.Prelude.{◌≡◌, ◌+◌, ◌<◌, ◌≤◌, IfOk, IfSome, IsNone, OnOk, OnErr, length, is_some, None};
ghost use Rattle.asc_base.specs.Settings.{IsConfig};
ghost use Rattle.asc_base.specs.Shape.{IsAddress, parent_in, children_in};
ghost use Rattle.posmap_lookaside.specs.Held.{held_at, promoted, changed, with_counter, with_group, inserted};
ghost use Rattle.posmap_lookaside.specs.Held.{displaced};
ghost use Rattle.oram_walk.specs.Front.{FrontState, IsFront, first_front, root_place, counter_in, with_held, stepped};
ghost use Rattle.oram_walk.specs.Front.{full_parent};

use asc_base::{Address, Config, Counter, NoMemory, Shape};
use posmap_counters::{Group, Step};
use posmap_lookaside::{Held, Lookaside};
use std::alloc::Global;
use std::marker::Model;

/// The front end of an ORAM: the counters of the top layer's blocks, and the position-map blocks that are held on chip
/// with the counters of their children.
#[derive(Drop)]
pub struct Front {
    shape: Shape,
    ic: u32,
    roots: Vec<u64>,
    held: Lookaside,
}

impl Model for Front {
    ghost use Rattle.oram_walk.specs.Front.{FrontState, IsFront};

    ghost Value = { FrontState };

    ghost view = { λ front. record {
      shape = front.shape;
      ic = front.ic;
      roots = front.roots.items;
      held = front.held.list;
      plb = front.held.capacity;
    } };

    ghost invariant = { λ front. IsFront (record {
      shape = front.shape;
      ic = front.ic;
      roots = front.roots.items;
      held = front.held.list;
      plb = front.held.capacity;
    }) };
}

impl Front {
    /// The front end of a configuration: it holds nothing, over a tree in which no block was accessed.
    ///
    /// Err where there is no memory.
    pub fn new(alloc: Global, config: &Config) -> Result<Front, NoMemory>
        requires { IsConfig config.now }
        ensures front { IfOk result (λ front. front ≡ first_front config.now) }
        ensures whole { IfOk result IsFront }
    {
        let held = Lookaside::new(alloc, config.plb)?;
        let top = config.shape.layers as usize - 1;
        match Vec::from_elem(alloc, 0, config.shape.counts[top] as usize) {
            Ok(roots) => Ok(Front {
                shape: config.shape,
                ic: config.ic,
                roots,
                held,
            }),
            Err(_) => Err(NoMemory),
        }
    }

    /// The number of layers. No block has so many ancestors.
    pub(crate) fn layers(&self) -> u32
        ensures layers { result ≡ self.now.shape.layers }
        ensures whole { IsFront self.now }
    {
        self.shape.layers
    }

    /// The parent of a block; None for a block of the top layer.
    pub(crate) fn parent(&self, address: Address) -> Option<Address>
        requires { IsAddress self.now.shape address }
        ensures parent { result ≡ parent_in self.now.shape address }
        ensures inside { IfSome result (IsAddress self.now.shape) }
        ensures whole { IsFront self.now }
    {
        self.shape.parent(address)
    }

    /// The first child of a block and the number of its children; None for a data line.
    pub(crate) fn family(&self, parent: Address) -> Option<(Address, u32)>
        requires { IsAddress self.now.shape parent }
        ensures family { result ≡ children_in self.now.shape parent }
        ensures inside { IfSome result (λ (first, number). first.0 + number ≤ self.now.shape.total) }
        ensures few { IfSome result (λ (_, number). number ≤ 32) }
        ensures whole { IsFront self.now }
    {
        self.shape.children(parent)
    }

    /// The counter of a block of the top layer, or of one whose parent is held; (0,0) for any other.
    pub(crate) fn counter(&self, address: Address) -> Counter
        requires { IsAddress self.now.shape address }
        ensures { result ≡ counter_in self.now address }
    {
        let Some(parent) = self.shape.parent(address) else {
            return Counter {
                group: self.roots[self.root(address)],
                own: 0,
            };
        };
        match self.held.group(parent) {
            Some(group) => group.counter(self.shape.child_index(address)),
            None => Counter { group: 0, own: 0 },
        }
    }

    /// Steps the counter of a block of the top layer, or of one whose parent is held, which isn't at its greatest.
    pub(crate) fn step(&mut self, address: Address)
        requires { IsAddress self.old.shape address }
        ensures front { self.new ≡ stepped self.old address }
        ensures whole { IsFront self.new }
    {
        let Some(parent) = self.shape.parent(address) else {
            let place = self.root(address);
            self.roots[place] = self.roots[place].wrapping_add(1);
            return;
        };
        if let Some(mut group) = self.held.group(parent) {
            group.step(self.shape.child_index(address), self.ic);
            self.held.set_group(parent, group);
        }
    }

    /// The parent of a block whose own count is at its greatest, with its group: all its children have to move before
    /// the block is accessed.
    pub(crate) fn full_parent(&self, address: Address) -> Option<(Address, Group)>
        requires { IsAddress self.now.shape address }
        ensures full { result ≡ full_parent self.now address }
        ensures inside { IfSome result (λ (parent, _). IsAddress self.now.shape parent) }
        ensures whole { IsFront self.now }
    {
        let parent = self.shape.parent(address)?;
        let mut group = self.held.group(parent)?;
        let before = group;
        match group.step(self.shape.child_index(address), self.ic) {
            Step::MustMove => Some((parent, before)),
            Step::Stepped => None,
        }
    }

    /// Whether a block is held. It is the most recently used one then.
    pub(crate) fn find(&mut self, address: Address) -> bool
        ensures held { result ≡ is_some (held_at self.old.held address) }
        ensures front { self.new ≡ with_held self.old (promoted self.old.held address) }
        ensures whole { IsFront self.new }
    {
        self.held.find(address).is_some()
    }

    /// Gives a held block another counter, and answers whether it is held.
    pub(crate) fn renumber(&mut self, address: Address, counter: Counter) -> bool
        ensures held { result ≡ is_some (held_at self.old.held address) }
        ensures front { self.new ≡ with_held self.old (changed (with_counter counter) self.old.held address) }
        ensures whole { IsFront self.new }
    {
        self.held.set_counter(address, counter)
    }

    /// Gives a held block another group.
    pub(crate) fn regroup(&mut self, address: Address, group: Group)
        ensures front { self.new ≡ with_held self.old (changed (with_group group) self.old.held address) }
        ensures whole { IsFront self.new }
    {
        self.held.set_group(address, group);
    }

    /// Holds a block that isn't held. The answer is the one that it displaces.
    ///
    /// Err where there is no memory; then all is as before.
    pub(crate) fn insert(&mut self, held: Held) -> Result<Option<Held>, NoMemory>
        requires fresh { IsNone (held_at self.old.held held.address) }
        requires inside { IsAddress self.old.shape held.address }
        ensures front { OnOk result (self.new ≡ with_held self.old (inserted self.old.plb held self.old.held)) }
        ensures last { IfOk result (λ last. last ≡ displaced self.old.plb held self.old.held) }
        ensures inside { IfOk result (λ last. IfSome last (λ block. IsAddress self.old.shape block.address)) }
        ensures err { OnErr result (self.new ≡ self.old) }
        ensures whole { IsFront self.new }
    {
        self.held.insert(held)
    }

    /// The place of a block of the top layer among the roots.
    fn root(&self, address: Address) -> usize
        requires inside { IsAddress self.now.shape address }
        requires top { parent_in self.now.shape address ≡ None }
        ensures place { result ≡ root_place self.now.shape address }
        ensures below { result < length self.now.roots }
    {
        (address.0 - self.shape.firsts[self.shape.layers as usize - 1]) as usize
    }
}
