ghost use Rattle.std.specs.Prelude.{◌≡◌, ◌<◌, ◌≤◌, ◌+◌, ◌*◌, ◌^◌, ◌++◌, ◌∷◌, ◌↔◌, [], ℕ, ⊤, Some, None, length};
ghost use Rattle.std.specs.Prelude.{IfOk, OnOk, OnErr, OnSome, IfNone, IsErr, IsOk, IsSome, IsErrOf};
ghost use Rattle.asc_base.specs.Shape.{IsShape};
ghost use Rattle.bus_watch.specs.Made.{Ran};
ghost use Rattle.bus_watch.specs.Path.{reads, reads_end, writes};
ghost use Rattle.bus_watch.specs.Ready.{IsReady};
ghost use Rattle.bus_watch.specs.RunEnd.{Whole, end_at};
ghost use Rattle.oram_contents.specs.PathWritten.{stays, sealed, rest_of};
ghost use Rattle.oram_contents.specs.Shapes.{AreOfShape};
ghost use Rattle.oram_stash.specs.Entries.{held, without};
ghost use Rattle.unified_tree.specs.Cut.{CutRead, CutWrite};
ghost use Rattle.unified_tree.specs.Slot.{WasRead, GainsNow};
ghost use Rattle.unified_tree.specs.Stops.{IfRead, IfWritten};
ghost use Rattle.unified_tree.specs.Tree.{TreeState, IsSameTree};

use crate::join::{SLOTS, join_buckets};
use crate::reads::read_buckets;
use crate::stop::{OpenPath, TreeStop, stop_of};
use crate::writes::{depths_on, write_buckets};
use asc_base::{Address, Entry, Leaf, MOVE_CYCLES, NoMemory, Shape, TURN_CYCLES};
use asc_outside::{BUCKET_BYTES, UntrustedMemory};
use bucket_codec::Codec;
use bus_watch::{Bus, Watch};
use oram_stash::{Doubled, Stash};
use path_evict::{plan, remainder};
use std::alloc::Global;
use std::marker::Model;

/// The entries at hand, and the tree of buckets behind a bus.
///
/// The tree itself is the tap's mirror, opened. A slot reads a path, whose entries join those at hand, and writes it
/// again with what goes into its buckets.
#[derive(Drop)]
pub struct Tree {
    shape: Shape,
    stash: u32,
    codec: Codec,
    hand: Stash,
    seed: u64,
    path: Option<OpenPath>,
    ended: u64,
    texts: Vec<[u8; BUCKET_BYTES]>,
    depths: Vec<u32>,
    places: Vec<Option<u32>>,
}

impl Model for Tree {
    ghost use Rattle.unified_tree.specs.Tree.{TreeState};

    ghost Value = { TreeState };

    ghost use Rattle.unified_tree.specs.Inside.{IsTree, tree_of};

    ghost view = { tree_of };

    ghost invariant = { IsTree };
}

impl Tree {
    /// A tree without entries at hand, whose next seed is 1, for so many entries that may stay: at most 4,096, as the
    /// settings allow.
    pub fn new(alloc: Global, shape: &Shape, stash: u32, codec: Codec) -> Result<Tree, NoMemory>
        requires shape { IsShape shape.now }
        requires stash { stash ≤ 4096 }
        ensures shape { IfOk result (λ tree. tree.shape ≡ shape.now) }
        ensures stash { IfOk result (λ tree. tree.stash ≡ stash) }
        ensures key { IfOk result (λ tree. tree.key ≡ codec) }
        ensures hand { IfOk result (λ tree. tree.hand ≡ []) }
        ensures spare { IfOk result (λ tree. stash + 4 * (shape.now.levels + 1) + 2 ≤ tree.spare) }
        ensures seed { IfOk result (λ tree. tree.seed ≡ 1) }
        ensures path { IfOk result (λ tree. tree.path ≡ None) }
        ensures ended { IfOk result (λ tree. tree.ended ≡ 0) }
    {
        let buckets = shape.levels as usize + 1;
        let room = stash as usize + SLOTS * buckets + 2;
        let mut hand = Stash::new(alloc);
        match hand.reserve(room) {
            Ok(()) => {}
            Err(NoMemory) => return Err(NoMemory),
        }
        let mut depths = Vec::new(alloc);
        match depths.reserve(room) {
            Ok(()) => {}
            Err(_) => return Err(NoMemory),
        }
        let mut places = Vec::new(alloc);
        match places.reserve(room) {
            Ok(()) => {}
            Err(_) => return Err(NoMemory),
        }
        let mut texts = Vec::new(alloc);
        match texts.reserve(buckets) {
            Ok(()) => {}
            Err(_) => return Err(NoMemory),
        }
        Ok(Tree {
            shape: *shape,
            stash,
            codec,
            hand,
            seed: 1,
            path: None,
            ended: 0,
            texts,
            depths,
            places,
        })
    }

    /// Makes room for the entries of a path and two more. It takes no memory where there is room.
    pub fn room(&mut self) -> Result<(), NoMemory>
        ensures same { IsSameTree self.old self.new }
        ensures hand { self.new.hand ≡ self.old.hand }
        ensures seed { self.new.seed ≡ self.old.seed }
        ensures path { self.new.path ≡ self.old.path }
        ensures ended { self.new.ended ≡ self.old.ended }
        ensures ok { OnOk result (4 * (self.old.shape.levels + 1) + 2 ≤ self.new.spare) }
        ensures kept { self.old.spare ≤ self.new.spare }
        ensures free { 4 * (self.old.shape.levels + 1) + 2 ≤ self.old.spare → IsOk result }
    {
        let more = SLOTS * (self.shape.levels as usize + 1) + 2;
        let all = self.hand.len() + more;
        self.depths.clear();
        self.places.clear();
        match self.hand.reserve(more) {
            Ok(()) => {}
            Err(NoMemory) => return Err(NoMemory),
        }
        match self.depths.reserve(all) {
            Ok(()) => {}
            Err(_) => return Err(NoMemory),
        }
        match self.places.reserve(all) {
            Ok(()) => Ok(()),
            Err(_) => Err(NoMemory),
        }
    }

    /// Reads the path of a leaf in the slot that starts at a time, in cycles: a read every 40 cycles from there on, of
    /// the path's buckets from the root down. After the last one the entries in the replies join those at hand, up to
    /// the first evidence. An Ok leaves the path open.
    ///
    /// A bucket with a slot that isn't in the form is a `BadSlot`, and none of its entries joins. Slot by slot, an
    /// entry whose leaf doesn't have the bucket on its path is an `OffPath`, and one of whose address there is one at
    /// hand a `Doubled`. `Device` and `NoMemory` are the bus's; no further move is made then, and nothing joins.
    pub fn read_path<M: UntrustedMemory, W: Watch>(
        &mut self,
        bus: &mut Bus<'_, M, W>,
        start: u64,
        leaf: Leaf,
    ) -> Result<(), TreeStop>
        requires path { self.old.path ≡ None }
        requires leaf { leaf.0 < 2 ^ self.old.shape.levels }
        requires start { start < 2 ^ 39 }
        requires spare { 4 * (self.old.shape.levels + 1) ≤ self.old.spare }
        requires few { length self.old.hand < 2 ^ 20 }
        requires ready { IsReady self.old.shape.buckets (self.old.shape.levels + 1) 0
            (M.state bus.old.memory.now) (W.state bus.old.tap.now) }
        ensures ran { IfRead result
            (Ran M.state W.state Whole (reads self.old.shape.levels start leaf.0) [] bus.old bus.new)
            (λ stop. CutRead M.state W.state (end_at stop) start leaf.0 self.old self.new bus.old bus.new) }
        ensures read { IfRead result
            (WasRead self.old.key self.old.shape start leaf.0 result
            (W.state bus.old.tap.now) (W.state bus.new.tap.now) self.old.hand self.new.hand)
            (λ _. self.new.hand ≡ self.old.hand) }
        ensures gains { GainsNow (W.state bus.old.tap.now).log (W.state bus.new.tap.now).log }
        ensures mirror { (W.state bus.new.tap.now).mirror ≡ (W.state bus.old.tap.now).mirror }
        ensures kept { IsSameTree self.old self.new }
        ensures seed { self.new.seed ≡ self.old.seed }
        ensures path { OnOk result (self.new.path ≡ Some (record { start = start; leaf = leaf })) }
        ensures path_err { OnErr result (self.new.path ≡ None) }
        ensures ended { OnErr result (IfRead result (self.new.ended ≡ reads_end self.old.shape.levels start)
            (λ _. self.new.ended ≤ reads_end self.old.shape.levels start)) }
        ensures ended_ok { OnOk result (self.new.ended ≡ self.old.ended) }
        ensures spare { self.old.spare ≤ self.new.spare + 4 * (self.old.shape.levels + 1) }
        ensures more { length self.new.hand ≤ length self.old.hand + 4 * (self.old.shape.levels + 1) }
        ensures of_shape { AreOfShape self.new.shape self.new.hand }
        ensures cause { IsErrOf result TreeStop.Device
            → (M.state bus.old.memory.now).faults < (M.state bus.new.memory.now).faults }
    {
        match read_buckets(bus, &self.shape, start, leaf, &mut self.texts) {
            Ok(()) => {}
            Err(cut) => {
                self.ended = start + MOVE_CYCLES * u64::from(cut.level) + 1;
                return Err(stop_of(cut.stop));
            }
        }
        match join_buckets(&mut self.hand, &self.codec, &self.shape, leaf, &self.texts) {
            Ok(()) => {
                self.path = Some(OpenPath { start, leaf });
                Ok(())
            }
            Err(stop) => {
                self.ended = start + MOVE_CYCLES * (u64::from(self.shape.levels) + 1);
                Err(stop)
            }
        }
    }

    /// Writes the path that is open: 16 cycles after its reads, a write every 40 cycles, of its buckets from the root
    /// down, each sealed under the next seed. What the rule of eviction puts into them leaves the hand. An Ok leaves no
    /// path open, and at most as many entries at hand as may stay.
    ///
    /// `Full` where more would stay, with their number, and then no write is made. `Device` and `NoMemory` are the
    /// bus's; no further move is made then, the buckets above are written, and the hand is as before.
    pub fn write_path<M: UntrustedMemory, W: Watch>(
        &mut self,
        bus: &mut Bus<'_, M, W>,
        start: u64,
        leaf: Leaf,
    ) -> Result<(), TreeStop>
        requires path { self.old.path ≡ Some (record { start = start; leaf = leaf }) }
        requires seed { self.old.seed < 2 ^ 63 }
        requires ready { IsReady self.old.shape.buckets (self.old.shape.levels + 1) 0
            (M.state bus.old.memory.now) (W.state bus.old.tap.now) }
        ensures ran { IfWritten result
            (Ran M.state W.state Whole (writes self.old.shape.levels start leaf.0) [] bus.old bus.new)
            (λ _. bus.new ≡ bus.old)
            (λ stop. CutWrite M.state W.state (end_at stop) start leaf.0 self.old self.new bus.old bus.new) }
        ensures altered { (W.state bus.new.tap.now).log.altered ≡ (W.state bus.old.tap.now).log.altered }
        ensures mirror { OnOk result ((W.state bus.new.tap.now).mirror
            ≡ sealed self.old.key self.old.shape.levels leaf.0 self.old.seed self.old.hand
            (W.state bus.old.tap.now).mirror (self.old.shape.levels + 1)) }
        ensures hand { OnOk result (self.new.hand ≡ stays self.old.shape.levels leaf.0 self.old.hand) }
        ensures hand_err { OnErr result (self.new.hand ≡ self.old.hand) }
        ensures full { IfWritten result (rest_of self.old.shape.levels leaf.0 self.old.hand ≤ self.old.stash)
            (λ held. (held ≡ rest_of self.old.shape.levels leaf.0 self.old.hand) × (self.old.stash < held))
            (λ _. rest_of self.old.shape.levels leaf.0 self.old.hand ≤ self.old.stash) }
        ensures stay { OnOk result (length self.new.hand ≡ rest_of self.old.shape.levels leaf.0 self.old.hand) }
        ensures few { OnOk result (length self.new.hand ≤ self.old.stash) }
        ensures of_shape { AreOfShape self.new.shape self.new.hand }
        ensures kept { IsSameTree self.old self.new }
        ensures seed { OnOk result (self.new.seed ≡ self.old.seed + (self.old.shape.levels + 1)) }
        ensures path { OnOk result (self.new.path ≡ None) }
        ensures path_err { OnErr result (self.new.path ≡ self.old.path) }
        ensures spare { self.old.spare ≤ self.new.spare }
        ensures refused { IfWritten result (self.new.ended ≡ self.old.ended)
            (λ _. (self.new.ended ≡ reads_end self.old.shape.levels start) × (self.new.seed ≡ self.old.seed))
            (λ _. ⊤) }
        ensures cause { IsErrOf result TreeStop.Device
            → (M.state bus.old.memory.now).faults < (M.state bus.new.memory.now).faults }
    {
        let reads_end = start + MOVE_CYCLES * (u64::from(self.shape.levels) + 1);
        depths_on(&self.hand, self.shape.levels, leaf, &mut self.depths);
        let (rest, _) = remainder(&self.depths, self.shape.levels);
        if rest > self.stash as usize {
            self.ended = reads_end;
            return Err(TreeStop::Full { held: rest as u32 });
        }
        match plan(&self.depths, self.shape.levels, &mut self.places) {
            Ok(()) => {}
            Err(NoMemory) => unreachable!(),
        }
        match write_buckets(
            bus,
            &self.codec,
            &self.shape,
            start,
            leaf,
            self.seed,
            &self.hand,
            &self.places,
        ) {
            Ok(()) => {}
            Err(cut) => {
                self.seed += u64::from(cut.level) + 1;
                self.ended = reads_end + TURN_CYCLES + MOVE_CYCLES * u64::from(cut.level) + 1;
                return Err(stop_of(cut.stop));
            }
        }
        self.hand.keep_unplaced(&self.places);
        self.seed += u64::from(self.shape.levels) + 1;
        self.path = None;
        Ok(())
    }

    /// Takes the entry of an address out of those at hand, None where there is none.
    pub fn take(&mut self, address: Address) -> Option<Entry>
        ensures taken { result ≡ held self.old.hand address }
        ensures same { IsSameTree self.old self.new }
        ensures hand { self.new.hand ≡ without self.old.hand address }
        ensures seed { self.new.seed ≡ self.old.seed }
        ensures path { self.new.path ≡ self.old.path }
        ensures ended { self.new.ended ≡ self.old.ended }
        ensures spare { OnSome result (self.old.spare + 1 ≤ self.new.spare) }
        ensures none { IfNone result (self.new ≡ self.old) }
    {
        self.hand.take(address)
    }

    /// Puts an entry behind those at hand. It is refused where one of its address is there.
    pub fn put(&mut self, entry: Entry) -> Result<(), Doubled>
        requires spare { 0 < self.old.spare }
        requires few { length self.old.hand < 2 ^ 20 }
        requires address { entry.address.0 < self.old.shape.total }
        requires leaf { entry.leaf.0 < 2 ^ self.old.shape.levels }
        ensures refused { IsErr result ↔ IsSome (held self.old.hand entry.address) }
        ensures same { IsSameTree self.old self.new }
        ensures hand { OnOk result (self.new.hand ≡ self.old.hand ++ entry ∷ []) }
        ensures hand_err { OnErr result (self.new.hand ≡ self.old.hand) }
        ensures seed { self.new.seed ≡ self.old.seed }
        ensures path { self.new.path ≡ self.old.path }
        ensures ended { self.new.ended ≡ self.old.ended }
        ensures spare { self.old.spare ≤ self.new.spare + 1 }
    {
        self.hand.put(entry)
    }

    /// How many entries are at hand.
    pub fn held(&self) -> u32
        ensures held { result ≡ length self.now.hand }
        ensures of_shape { AreOfShape self.now.shape self.now.hand }
    {
        self.hand.len() as u32
    }

    /// The end time that the last failed move or refused path left, in cycles.
    pub fn ended(&self) -> u64
        ensures { result ≡ self.now.ended }
    {
        self.ended
    }
}
