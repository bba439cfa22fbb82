ghost use Rattle.std.specs.Prelude.{◌≡◌, ◌<◌, ◌≤◌, ◌+◌, ◌-◌, ◌*◌, ◌^◌, ◌++◌, ◌∷◌, [], ℕ, None, Some, Err};
ghost use Rattle.std.specs.Prelude.{max, min, length, List, OnOk, OnErr, IfOk, IfErr, OnSome, IfNone, MatchResult, Ok};
ghost use Rattle.asc_base.specs.Settings.{IsConfig};
ghost use Rattle.asc_base.specs.TreeShape.{olat_of};
ghost use Rattle.asc_base.specs.declared.stop.Stop.{Stop as StopValue};
ghost use Rattle.asc_base.specs.declared.stop.Stop.TheVariants.{TimeUp, StashFull};
ghost use Rattle.asc_outside.specs.Memory.{MemoryState};
ghost use Rattle.bus_watch.specs.Log.{TapState, LogLists};
ghost use Rattle.bus_watch.specs.Path.{reads, reads_end};
ghost use Rattle.bus_watch.specs.Ready.{IsReady};
ghost use Rattle.bus_watch.specs.RunEnd.{Whole};
ghost use Rattle.epoch_learner.specs.Stands.{IsFirstFor, KeepsPace};
ghost use Rattle.oram_contents.specs.Contents.{after_write};
ghost use Rattle.oram_contents.specs.PathWritten.{rest_of};
ghost use Rattle.oram_contents.specs.Slots.{IsRead, IsEnd, IsDummy};
ghost use Rattle.oram_contents.specs.Verdict.{append_verdict};
ghost use Rattle.oram_stash.specs.Entries.{held, without};
ghost use Rattle.unified_tree.specs.Slot.{contents_of};
ghost use Rattle.unified_tree.specs.Tree.{IsSameTree};
ghost use Rattle.rate_enforcer.specs.Breaks.{ReadStops, WriteStops, DummyStops, PassesStop};
ghost use Rattle.rate_enforcer.specs.Counts.{IsCounted};
ghost use Rattle.rate_enforcer.specs.Clock.{with_dummy, with_real};
ghost use Rattle.rate_enforcer.specs.PortStep.{PortStep, OpenBreaks, port_of, silent, told, took};
ghost use Rattle.rate_enforcer.specs.PortStep.{Open, Take, Put, Close, Abort, Join, Idle};
ghost use Rattle.rate_enforcer.specs.Served.{keys_of, begin_events, HavePassed, IsServed};
ghost use Rattle.rate_enforcer.specs.State.{Rests, IsOpen, Opens, Stopped, IsUp};
ghost use Rattle.rate_enforcer.specs.Stops.{RanTo, RanStop, Judges, first_stop};

use crate::clock::Clock;
use crate::stop::{earlier, stop_of};
use asc_base::{Address, Config, Entry, Evidence, Leaf, MOVE_CYCLES, NoMemory, Point, Stop};
use asc_outside::UntrustedMemory;
use bus_watch::{Bus, Event, Watch};
use epoch_learner::Learner;
use leaf_function::LeafFn;
use oram_stash::Doubled;
use unified_tree::Tree;

/// A slot whose reads are done. It must be spent, by `close` or by `abort`.
pub struct OpenSlot {
    /// When it started, in cycles.
    pub start: u64,
    /// The leaf of its path.
    pub leaf: Leaf,
}

/// Slots at enforced times over a tree.
///
/// Contracts see a port as its clock, its tree and its leaf function, so these fields are public. A caller that changes
/// one of them itself goes around the port, and nothing is said of it here.
#[derive(Drop)]
pub struct Port<L: LeafFn> {
    /// How far it has come in the timetable.
    pub clock: Clock,
    /// The tree.
    pub tree: Tree,
    /// The leaves.
    pub leaves: L,
}

impl<L: LeafFn> Port<L> {
    /// A port before the first slot, over a new tree of the configuration's shape and stash. It takes no memory.
    pub fn new(config: &Config, leaves: L, tree: Tree) -> Port<L>
        requires config { IsConfig config.now }
        requires shape { tree.shape ≡ config.now.shape }
        requires stash { tree.stash ≡ config.now.stash }
        requires hand { tree.hand ≡ [] }
        requires seed { tree.seed ≡ 1 }
        requires path { tree.path ≡ None }
        requires levels { L.levels leaves ≡ config.now.shape.levels }
        ensures rests { (notes left : ℕ) (memory : MemoryState) (tap : TapState) → tap.log.events ≡ []
            → tap.log.moves ≡ [] → config.now.time ≤ 64 + left * olat_of config.now.shape.levels
            → IsReady config.now.shape.buckets (2 * (config.now.shape.levels + 1) * left) (6 * left + notes) memory tap
            → Rests notes result.clock result.tree (L.levels result.leaves) memory tap }
        ensures leaves { result.leaves ≡ leaves }
        ensures tree { result.tree ≡ tree }
        ensures config { result.clock.config ≡ config.now }
        ensures last { result.clock.last ≡ 0 }
        ensures dummies { result.clock.dummies ≡ 0 }
        ensures real { result.clock.real ≡ 0 }
        ensures counts { (log : LogLists) → log.events ≡ [] → IsCounted result.clock log }
        ensures stop { result.clock.stop ≡ None }
    {
        let learner = Learner::new(config);
        let clock = Clock {
            config: *config,
            learner,
            next: u64::from(learner.rate()),
            last: 0,
            dummies: 0,
            real: 0,
            stop: None,
        };
        Port {
            clock,
            tree,
            leaves,
        }
    }

    /// Keeps a stop, and the end that it left.
    fn stop_at(&mut self, last: u64, stop: Stop)
        ensures clock { self.new.clock ≡ record self.old.clock { last = last; stop = Some stop } }
        ensures tree { self.new.tree ≡ self.old.tree }
        ensures leaves { self.new.leaves ≡ self.old.leaves }
    {
        self.clock.last = last;
        self.clock.stop = Some(stop);
    }

    /// Begins the next slot, and reads its path.
    fn begin<M: UntrustedMemory, W: Watch>(
        &mut self,
        bus: &mut Bus<'_, M, W>,
        asked: Option<u64>,
        point: Point,
    ) -> Result<OpenSlot, Stop>
        requires rests { Rests 0 self.old.clock self.old.tree (L.levels self.old.leaves)
            (M.state bus.old.memory.now) (W.state bus.old.tap.now) }
        requires early { self.old.clock.next < self.old.clock.config.time }
        requires first { IsFirstFor (olat_of self.old.clock.config.shape.levels) self.old.clock.last
            self.old.clock.next asked }
        ensures leaves { self.new.leaves ≡ self.old.leaves }
        ensures kept { IsSameTree self.old.tree self.new.tree }
        ensures config { self.new.clock.config ≡ self.old.clock.config }
        ensures counts { IsCounted self.old.clock (W.state bus.old.tap.now).log
            → IsCounted self.new.clock (W.state bus.new.tap.now).log }
        ensures next { self.new.clock.next ≡ self.old.clock.next }
        ensures last { OnOk result (self.new.clock.last ≡ self.old.clock.last) }
        ensures dummies { OnOk result (self.new.clock.dummies ≡ with_dummy asked self.old.clock.dummies) }
        ensures real { OnOk result (self.new.clock.real ≡ with_real asked self.old.clock.real) }
        ensures unasked { asked ≡ None → self.new.clock.real ≡ self.old.clock.real }
        ensures opens { (notes : ℕ) → Rests notes self.old.clock self.old.tree (L.levels self.old.leaves)
            (M.state bus.old.memory.now) (W.state bus.old.tap.now)
            → IfOk result (λ slot. Opens (notes + 3) self.new.clock slot self.new.tree (L.levels self.new.leaves)
            (M.state bus.new.memory.now) (W.state bus.new.tap.now)) }
        ensures leaf { IfOk result (λ slot. slot.leaf.0 ≡ L.leaf_of self.old.leaves point) }
        ensures start { IfOk result (λ slot. slot.start ≡ self.old.clock.next) }
        ensures seed { self.new.tree.seed ≡ self.old.tree.seed }
        ensures mirror { (W.state bus.new.tap.now).mirror ≡ (W.state bus.old.tap.now).mirror }
        ensures noted { OnOk result ((W.state bus.new.tap.now).log.events ≡ (W.state bus.old.tap.now).log.events
            ++ begin_events self.old.clock.next asked point (L.leaf_of self.old.leaves point)) }
        ensures moves { OnOk result ((W.state bus.new.tap.now).log.moves ≡ (W.state bus.old.tap.now).log.moves
            ++ reads self.old.tree.shape.levels self.old.clock.next (L.leaf_of self.old.leaves point)) }
        ensures read { (tags : List ℕ) → OnOk result (IsRead (keys_of self.old.tree tags (L.leaf_of self.old.leaves))
            (W.state bus.old.tap.now).log (W.state bus.new.tap.now).log
            (contents_of self.old.tree (W.state bus.old.tap.now)) self.old.clock.next point self.new.tree.hand) }
        ensures spare { OnOk result (2 ≤ self.new.tree.spare) }
        ensures few { OnOk result (length self.new.tree.hand
            ≤ self.old.clock.config.stash + 4 * (self.old.clock.config.shape.levels + 1)) }
        ensures ran { OnOk result (RanTo M.state W.state Whole bus.old bus.new) }
        ensures ran_err { IfErr result (λ stop. RanStop M.state W.state stop bus.old bus.new) }
        ensures never { IfErr result (λ stop. (at : ℕ) → stop ≡ TimeUp at → ⊥) }
        ensures stopped { IfErr result (λ stop. Stopped self.old.clock.config self.new.clock stop
            (W.state bus.new.tap.now).log) }
        ensures breaks { (tags : List ℕ) → IfErr result (λ stop. ReadStops
            (keys_of self.old.tree tags (L.leaf_of self.old.leaves)) stop
            (W.state bus.old.tap.now).log (W.state bus.new.tap.now).log
            (contents_of self.old.tree (W.state bus.old.tap.now)) (contents_of self.new.tree (W.state bus.new.tap.now))
            self.old.clock.next asked point) }
    {
        match self.tree.room() {
            Ok(()) => {}
            Err(NoMemory) => {
                let last = self.clock.last;
                self.stop_at(last, Stop::NoMemory);
                return Err(Stop::NoMemory);
            }
        }
        let leaf = self.leaves.leaf(point);
        let start = self.clock.next;
        bus.note(Event::Access { start, asked });
        self.clock.learner.saw(start, asked);
        self.clock.count(asked);
        bus.note(Event::Drawn { point, leaf });
        match self.tree.read_path(bus, start, leaf) {
            Ok(()) => Ok(OpenSlot { start, leaf }),
            Err(stop) => {
                let last = self.tree.ended();
                let stop = stop_of(stop);
                self.stop_at(last, stop);
                Err(stop)
            }
        }
    }

    /// Writes the path of the open slot, and answers its end.
    ///
    /// `StashFull` where more entries would stay at hand than may, and then no write is made. `Device` and `NoMemory`
    /// are the bus's. After each of them the port has stopped.
    pub fn close<M: UntrustedMemory, W: Watch>(
        &mut self,
        bus: &mut Bus<'_, M, W>,
        slot: OpenSlot,
    ) -> Result<u64, Stop>
        requires opens { Opens 0 self.old.clock slot self.old.tree (L.levels self.old.leaves)
            (M.state bus.old.memory.now) (W.state bus.old.tap.now) }
        ensures leaves { self.new.leaves ≡ self.old.leaves }
        ensures kept { IsSameTree self.old.tree self.new.tree }
        ensures config { self.new.clock.config ≡ self.old.clock.config }
        ensures counts { IsCounted self.old.clock (W.state bus.old.tap.now).log
            → IsCounted self.new.clock (W.state bus.new.tap.now).log }
        ensures dummies { self.new.clock.dummies ≡ self.old.clock.dummies }
        ensures real { self.new.clock.real ≡ self.old.clock.real }
        ensures rests { (notes : ℕ) → Opens notes self.old.clock slot self.old.tree (L.levels self.old.leaves)
            (M.state bus.old.memory.now) (W.state bus.old.tap.now)
            → OnOk result (Rests notes self.new.clock self.new.tree (L.levels self.new.leaves)
            (M.state bus.new.memory.now) (W.state bus.new.tap.now)) }
        ensures end { IfOk result (λ end. (end ≡ self.new.clock.last)
            × (end ≡ slot.start + olat_of self.old.clock.config.shape.levels)) }
        ensures next { OnOk result (self.old.clock.next < self.new.clock.next) }
        ensures next_err { OnErr result (self.new.clock.next ≡ self.old.clock.next) }
        ensures spare { self.old.tree.spare ≤ self.new.tree.spare }
        ensures written { OnOk result (contents_of self.new.tree (W.state bus.new.tap.now)
            ≡ after_write self.old.tree.key self.old.tree.shape.levels slot.leaf.0
            (contents_of self.old.tree (W.state bus.old.tap.now))) }
        ensures ended { OnOk result (IsEnd (W.state bus.old.tap.now).log (W.state bus.new.tap.now).log) }
        ensures altered { (W.state bus.new.tap.now).log.altered ≡ (W.state bus.old.tap.now).log.altered }
        ensures hand_err { OnErr result (self.new.tree.hand ≡ self.old.tree.hand) }
        ensures full { IfErr result (λ stop. (held : ℕ) → stop ≡ StashFull held
            → (held ≡ rest_of self.old.tree.shape.levels slot.leaf.0 self.old.tree.hand)
            × (self.old.tree.stash < held) × (bus.new ≡ bus.old)) }
        ensures ran { OnOk result (RanTo M.state W.state Whole bus.old bus.new) }
        ensures ran_err { IfErr result (λ stop. RanStop M.state W.state stop bus.old bus.new) }
        ensures never { IfErr result (λ stop. (at : ℕ) → stop ≡ TimeUp at → ⊥) }
        ensures stopped { IfErr result (λ stop. Stopped self.old.clock.config self.new.clock stop
            (W.state bus.new.tap.now).log) }
        ensures breaks { (tags : List ℕ) → IfErr result (λ stop. WriteStops
            (keys_of self.old.tree tags (L.leaf_of self.old.leaves)) self.old.tree.stash stop
            (W.state bus.old.tap.now).log (W.state bus.new.tap.now).log
            (contents_of self.old.tree (W.state bus.old.tap.now)) (contents_of self.new.tree (W.state bus.new.tap.now))
            slot.start slot.leaf.0) }
        ensures step { MatchResult result (λ end. PortStep (L.leaf_of self.old.leaves) (L.levels self.old.leaves)
            (port_of self.old.clock self.old.tree (M.state bus.old.memory.now) (W.state bus.old.tap.now))
            Close (Ok (told end))
            (port_of self.new.clock self.new.tree (M.state bus.new.memory.now) (W.state bus.new.tap.now)))
            (λ stop. PortStep (L.leaf_of self.old.leaves) (L.levels self.old.leaves)
            (port_of self.old.clock self.old.tree (M.state bus.old.memory.now) (W.state bus.old.tap.now))
            Close (Err stop)
            (port_of self.new.clock self.new.tree (M.state bus.new.memory.now) (W.state bus.new.tap.now))) }
    {
        let OpenSlot { start, leaf } = slot;
        let end = start + self.clock.config.shape.olat();
        match self.tree.write_path(bus, start, leaf) {
            Ok(()) => {
                self.clock.end_slot(bus, end);
                Ok(end)
            }
            Err(stop) => {
                let last = self.tree.ended();
                let stop = stop_of(stop);
                self.stop_at(last, stop);
                Err(stop)
            }
        }
    }

    /// A slot that nobody asked for.
    fn dummy<M: UntrustedMemory, W: Watch>(&mut self, bus: &mut Bus<'_, M, W>) -> Result<(), Stop>
        requires rests { Rests 0 self.old.clock self.old.tree (L.levels self.old.leaves)
            (M.state bus.old.memory.now) (W.state bus.old.tap.now) }
        requires early { self.old.clock.next < self.old.clock.config.time }
        ensures leaves { self.new.leaves ≡ self.old.leaves }
        ensures kept { IsSameTree self.old.tree self.new.tree }
        ensures config { self.new.clock.config ≡ self.old.clock.config }
        ensures counts { IsCounted self.old.clock (W.state bus.old.tap.now).log
            → IsCounted self.new.clock (W.state bus.new.tap.now).log }
        ensures dummies { OnOk result (self.new.clock.dummies ≡ self.old.clock.dummies + 1) }
        ensures real { self.new.clock.real ≡ self.old.clock.real }
        ensures rests { (notes : ℕ) → Rests notes self.old.clock self.old.tree (L.levels self.old.leaves)
            (M.state bus.old.memory.now) (W.state bus.old.tap.now)
            → OnOk result (Rests notes self.new.clock self.new.tree (L.levels self.new.leaves)
            (M.state bus.new.memory.now) (W.state bus.new.tap.now)) }
        ensures last { OnOk result (self.new.clock.last
            ≡ self.old.clock.next + olat_of self.old.clock.config.shape.levels) }
        ensures next { OnOk result (self.old.clock.next < self.new.clock.next) }
        ensures next_err { OnErr result (self.new.clock.next ≡ self.old.clock.next) }
        ensures passed { (tags : List ℕ) → OnOk result (IsDummy (keys_of self.old.tree tags (L.leaf_of self.old.leaves))
            (W.state bus.old.tap.now).log (W.state bus.new.tap.now).log
            (contents_of self.old.tree (W.state bus.old.tap.now)) (contents_of self.new.tree (W.state bus.new.tap.now))
            self.old.clock.next self.old.clock.dummies) }
        ensures ran { OnOk result (RanTo M.state W.state Whole bus.old bus.new) }
        ensures ran_err { IfErr result (λ stop. RanStop M.state W.state stop bus.old bus.new) }
        ensures never { IfErr result (λ stop. (at : ℕ) → stop ≡ TimeUp at → ⊥) }
        ensures stopped { IfErr result (λ stop. Stopped self.old.clock.config self.new.clock stop
            (W.state bus.new.tap.now).log) }
        ensures breaks { (tags : List ℕ) → IfErr result (λ stop. DummyStops
            (keys_of self.old.tree tags (L.leaf_of self.old.leaves)) self.old.tree.stash stop
            (W.state bus.old.tap.now).log (W.state bus.new.tap.now).log
            (contents_of self.old.tree (W.state bus.old.tap.now)) (contents_of self.new.tree (W.state bus.new.tap.now))
            self.old.clock.next self.old.clock.dummies) }
    {
        let point = Point::Dummy(self.clock.dummies);
        let slot = match self.begin(bus, None, point) {
            Ok(slot) => slot,
            Err(stop) => return Err(stop),
        };
        match self.close(bus, slot) {
            Ok(_) => {}
            Err(stop) => return Err(stop),
        }
        Ok(())
    }

    /// Does all slots that start before a time.
    fn pass_until<M: UntrustedMemory, W: Watch>(
        &mut self,
        bus: &mut Bus<'_, M, W>,
        time: u64,
    ) -> Result<(), Stop>
        requires rests { Rests 0 self.old.clock self.old.tree (L.levels self.old.leaves)
            (M.state bus.old.memory.now) (W.state bus.old.tap.now) }
        requires in_time { time ≤ self.old.clock.config.time }
        ensures leaves { self.new.leaves ≡ self.old.leaves }
        ensures kept { IsSameTree self.old.tree self.new.tree }
        ensures config { self.new.clock.config ≡ self.old.clock.config }
        ensures counts { IsCounted self.old.clock (W.state bus.old.tap.now).log
            → IsCounted self.new.clock (W.state bus.new.tap.now).log }
        ensures rests { (notes : ℕ) → Rests notes self.old.clock self.old.tree (L.levels self.old.leaves)
            (M.state bus.old.memory.now) (W.state bus.old.tap.now)
            → OnOk result (Rests notes self.new.clock self.new.tree (L.levels self.new.leaves)
            (M.state bus.new.memory.now) (W.state bus.new.tap.now)) }
        ensures passed { (tags : List ℕ) → OnOk result (HavePassed
            (keys_of self.old.tree tags (L.leaf_of self.old.leaves)) self.old.tree.stash
            (self.new.clock.dummies - self.old.clock.dummies)
            (W.state bus.old.tap.now).log (W.state bus.new.tap.now).log
            (contents_of self.old.tree (W.state bus.old.tap.now)) (contents_of self.new.tree (W.state bus.new.tap.now))
            self.old.clock.dummies) }
        ensures more { OnOk result (self.old.clock.dummies ≤ self.new.clock.dummies) }
        ensures real { self.new.clock.real ≡ self.old.clock.real }
        ensures reached { OnOk result (time ≤ self.new.clock.next) }
        ensures early { OnErr result (self.new.clock.next < time) }
        ensures last { OnOk result (self.new.clock.last
            < max self.old.clock.last time + olat_of self.old.clock.config.shape.levels) }
        ensures ran { OnOk result (RanTo M.state W.state Whole bus.old bus.new) }
        ensures ran_err { IfErr result (λ stop. RanStop M.state W.state stop bus.old bus.new) }
        ensures never { IfErr result (λ stop. (at : ℕ) → stop ≡ TimeUp at → ⊥) }
        ensures stopped { IfErr result (λ stop. Stopped self.old.clock.config self.new.clock stop
            (W.state bus.new.tap.now).log) }
        ensures breaks { (tags : List ℕ) → IfErr result (λ stop. PassesStop
            (keys_of self.old.tree tags (L.leaf_of self.old.leaves)) self.old.tree.stash stop
            (W.state bus.old.tap.now).log (W.state bus.new.tap.now).log
            (contents_of self.old.tree (W.state bus.old.tap.now)) (contents_of self.new.tree (W.state bus.new.tap.now))
            self.new.clock.next self.old.clock.dummies) }
    {
        while self.clock.next < time {
            match self.dummy(bus) {
                Ok(()) => {}
                Err(stop) => return Err(stop),
            }
        }
        Ok(())
    }

    /// Opens the first slot that starts at or after the time, in cycles, at which it is asked for, which isn't before
    /// the last end: it does the slots before it as dummies, and reads its path for a point.
    ///
    /// `TimeUp` where that slot wouldn't start before the time of the settings: then all slots that start before that
    /// time are done. `Integrity`, `StashFull`, `Device` and `NoMemory` may come in each slot. After each stop the port
    /// has stopped, and every later call answers the same one and asks the bus nothing.
    pub fn open<M: UntrustedMemory, W: Watch>(
        &mut self,
        bus: &mut Bus<'_, M, W>,
        asked: u64,
        point: Point,
    ) -> Result<OpenSlot, Stop>
        requires rests { self.old.clock.stop ≡ None → Rests 0 self.old.clock self.old.tree (L.levels self.old.leaves)
            (M.state bus.old.memory.now) (W.state bus.old.tap.now) }
        requires asked { self.old.clock.stop ≡ None → self.old.clock.last ≤ asked }
        ensures leaves { self.new.leaves ≡ self.old.leaves }
        ensures kept { IsSameTree self.old.tree self.new.tree }
        ensures config { self.new.clock.config ≡ self.old.clock.config }
        ensures counts { IsCounted self.old.clock (W.state bus.old.tap.now).log
            → IsCounted self.new.clock (W.state bus.new.tap.now).log }
        ensures opens { (notes : ℕ) → Rests notes self.old.clock self.old.tree (L.levels self.old.leaves)
            (M.state bus.old.memory.now) (W.state bus.old.tap.now)
            → IfOk result (λ slot. Opens (notes + 3) self.new.clock slot self.new.tree (L.levels self.new.leaves)
            (M.state bus.new.memory.now) (W.state bus.new.tap.now)) }
        ensures leaf { IfOk result (λ slot. slot.leaf.0 ≡ L.leaf_of self.old.leaves point) }
        ensures asked { OnOk result (IsFirstFor (olat_of self.old.clock.config.shape.levels) self.new.clock.last
            self.new.clock.next (Some asked)) }
        ensures read { (tags : List ℕ) → OnOk result (IsServed (keys_of self.old.tree tags (L.leaf_of self.old.leaves))
            self.old.tree.stash (W.state bus.old.tap.now).log (W.state bus.new.tap.now).log
            (contents_of self.old.tree (W.state bus.old.tap.now)) (contents_of self.new.tree (W.state bus.new.tap.now))
            self.old.clock.dummies self.new.clock asked point) }
        ensures spare { OnOk result (2 ≤ self.new.tree.spare) }
        ensures few { OnOk result (length self.new.tree.hand
            ≤ self.old.clock.config.stash + 4 * (self.old.clock.config.shape.levels + 1)) }
        ensures ran { OnOk result (RanTo M.state W.state Whole bus.old bus.new) }
        ensures ran_err { self.old.clock.stop ≡ None
            → IfErr result (λ stop. RanStop M.state W.state stop bus.old bus.new) }
        ensures up { self.old.clock.stop ≡ None → IfErr result (λ stop. (at : ℕ) → stop ≡ TimeUp at
            → IsUp self.old.clock.config at asked self.new.clock (W.state bus.new.tap.now).log) }
        ensures sticky { (stop : StopValue) → self.old.clock.stop ≡ Some stop
            → (result ≡ Err stop) × (self.new ≡ self.old) × (bus.new ≡ bus.old) }
        ensures stopped { self.old.clock.stop ≡ None
            → IfErr result (λ stop. Stopped self.old.clock.config self.new.clock stop
            (W.state bus.new.tap.now).log) }
        ensures real { OnOk result (self.new.clock.real ≡ self.old.clock.real + 1) }
        ensures breaks { self.old.clock.stop ≡ None → (tags : List ℕ) → IfErr result (λ stop. OpenBreaks
            (L.leaf_of self.old.leaves) (L.levels self.old.leaves) asked point stop
            (port_of self.old.clock self.old.tree (M.state bus.old.memory.now) (W.state bus.old.tap.now))
            (port_of self.new.clock self.new.tree (M.state bus.new.memory.now) (W.state bus.new.tap.now)) tags) }
        ensures step { MatchResult result (λ _. PortStep (L.leaf_of self.old.leaves) (L.levels self.old.leaves)
            (port_of self.old.clock self.old.tree (M.state bus.old.memory.now) (W.state bus.old.tap.now))
            (Open asked point) (Ok silent)
            (port_of self.new.clock self.new.tree (M.state bus.new.memory.now) (W.state bus.new.tap.now)))
            (λ stop. PortStep (L.leaf_of self.old.leaves) (L.levels self.old.leaves)
            (port_of self.old.clock self.old.tree (M.state bus.old.memory.now) (W.state bus.old.tap.now))
            (Open asked point) (Err stop)
            (port_of self.new.clock self.new.tree (M.state bus.new.memory.now) (W.state bus.new.tap.now))) }
    {
        if let Some(stop) = self.clock.stop {
            return Err(stop);
        }
        let from = asked.min(self.clock.config.time);
        match self.pass_until(bus, from) {
            Ok(()) => {}
            Err(stop) => return Err(stop),
        }
        if self.clock.next >= self.clock.config.time {
            let stop = Stop::TimeUp {
                at: self.clock.next,
            };
            self.clock.stop = Some(stop);
            return Err(stop);
        }
        let slot = match self.begin(bus, Some(asked), point) {
            Ok(slot) => slot,
            Err(stop) => return Err(stop),
        };
        Ok(slot)
    }

    /// Does all slots that start before a time, in cycles, as dummies, and answers the greater of it and the last end.
    /// The time isn't after that of the settings.
    ///
    /// `Integrity`, `StashFull`, `Device` and `NoMemory` may come in each slot, and then the port has stopped. After a
    /// stop it answers the same one, and asks the bus nothing.
    pub fn idle_until<M: UntrustedMemory, W: Watch>(
        &mut self,
        bus: &mut Bus<'_, M, W>,
        time: u64,
    ) -> Result<u64, Stop>
        requires rests { self.old.clock.stop ≡ None → Rests 0 self.old.clock self.old.tree (L.levels self.old.leaves)
            (M.state bus.old.memory.now) (W.state bus.old.tap.now) }
        requires in_time { time ≤ self.old.clock.config.time }
        ensures leaves { self.new.leaves ≡ self.old.leaves }
        ensures kept { IsSameTree self.old.tree self.new.tree }
        ensures config { self.new.clock.config ≡ self.old.clock.config }
        ensures counts { IsCounted self.old.clock (W.state bus.old.tap.now).log
            → IsCounted self.new.clock (W.state bus.new.tap.now).log }
        ensures rests { (notes : ℕ) → Rests notes self.old.clock self.old.tree (L.levels self.old.leaves)
            (M.state bus.old.memory.now) (W.state bus.old.tap.now)
            → OnOk result (Rests notes self.new.clock self.new.tree (L.levels self.new.leaves)
            (M.state bus.new.memory.now) (W.state bus.new.tap.now)) }
        ensures end { IfOk result (λ end. end ≡ max time self.new.clock.last) }
        ensures passed { (tags : List ℕ) → OnOk result (HavePassed
            (keys_of self.old.tree tags (L.leaf_of self.old.leaves)) self.old.tree.stash
            (self.new.clock.dummies - self.old.clock.dummies)
            (W.state bus.old.tap.now).log (W.state bus.new.tap.now).log
            (contents_of self.old.tree (W.state bus.old.tap.now)) (contents_of self.new.tree (W.state bus.new.tap.now))
            self.old.clock.dummies) }
        ensures reached { OnOk result (time ≤ self.new.clock.next) }
        ensures pace { IfOk result (λ end. KeepsPace self.old.clock.config end (W.state bus.new.tap.now).log) }
        ensures ran { OnOk result (RanTo M.state W.state Whole bus.old bus.new) }
        ensures ran_err { self.old.clock.stop ≡ None
            → IfErr result (λ stop. RanStop M.state W.state stop bus.old bus.new) }
        ensures never { self.old.clock.stop ≡ None → IfErr result (λ stop. (at : ℕ) → stop ≡ TimeUp at → ⊥) }
        ensures sticky { (stop : StopValue) → self.old.clock.stop ≡ Some stop
            → (result ≡ Err stop) × (self.new ≡ self.old) × (bus.new ≡ bus.old) }
        ensures stopped { self.old.clock.stop ≡ None
            → IfErr result (λ stop. Stopped self.old.clock.config self.new.clock stop
            (W.state bus.new.tap.now).log) }
        ensures real { self.new.clock.real ≡ self.old.clock.real }
        ensures breaks { self.old.clock.stop ≡ None → (tags : List ℕ) → IfErr result (λ stop. PassesStop
            (keys_of self.old.tree tags (L.leaf_of self.old.leaves)) self.old.tree.stash stop
            (W.state bus.old.tap.now).log (W.state bus.new.tap.now).log
            (contents_of self.old.tree (W.state bus.old.tap.now)) (contents_of self.new.tree (W.state bus.new.tap.now))
            self.new.clock.next self.old.clock.dummies) }
        ensures step { MatchResult result (λ end. PortStep (L.leaf_of self.old.leaves) (L.levels self.old.leaves)
            (port_of self.old.clock self.old.tree (M.state bus.old.memory.now) (W.state bus.old.tap.now))
            (Idle time) (Ok (told end))
            (port_of self.new.clock self.new.tree (M.state bus.new.memory.now) (W.state bus.new.tap.now)))
            (λ stop. PortStep (L.leaf_of self.old.leaves) (L.levels self.old.leaves)
            (port_of self.old.clock self.old.tree (M.state bus.old.memory.now) (W.state bus.old.tap.now))
            (Idle time) (Err stop)
            (port_of self.new.clock self.new.tree (M.state bus.new.memory.now) (W.state bus.new.tap.now))) }
    {
        if let Some(stop) = self.clock.stop {
            return Err(stop);
        }
        match self.pass_until(bus, time) {
            Ok(()) => {}
            Err(stop) => return Err(stop),
        }
        Ok(time.max(self.clock.last))
    }

    /// Takes the entry of an address out of those at hand in the slot that is open, None where there is none.
    pub fn take(&mut self, slot: &OpenSlot, address: Address) -> Option<Entry>
        requires is_open { IsOpen self.old.clock slot.now self.old.tree }
        ensures taken { result ≡ held self.old.tree.hand address }
        ensures hand { self.new.tree.hand ≡ without self.old.tree.hand address }
        ensures spare { OnSome result (self.old.tree.spare + 1 ≤ self.new.tree.spare) }
        ensures none { IfNone result (self.new ≡ self.old) }
        ensures clock { self.new.clock ≡ self.old.clock }
        ensures leaves { self.new.leaves ≡ self.old.leaves }
        ensures kept { IsSameTree self.old.tree self.new.tree }
        ensures seed { self.new.tree.seed ≡ self.old.tree.seed }
        ensures opens { (notes : ℕ) (memory : MemoryState) (tap : TapState)
            → Opens notes self.old.clock slot.now self.old.tree (L.levels self.old.leaves) memory tap
            → Opens notes self.new.clock slot.now self.new.tree (L.levels self.new.leaves) memory tap }
        ensures step { (memory : MemoryState) (tap : TapState) → PortStep (L.leaf_of self.old.leaves)
            (L.levels self.old.leaves) (port_of self.old.clock self.old.tree memory tap) (Take address)
            (Ok (took result)) (port_of self.new.clock self.new.tree memory tap) }
    {
        self.tree.take(address)
    }

    /// Puts an entry behind those at hand in the slot that is open. None of its address is at hand.
    pub fn put(&mut self, slot: &OpenSlot, entry: Entry)
        requires is_open { IsOpen self.old.clock slot.now self.old.tree }
        requires absent { held self.old.tree.hand entry.address ≡ None }
        requires spare { 0 < self.old.tree.spare }
        requires few { length self.old.tree.hand < 2 ^ 20 }
        requires address { entry.address.0 < self.old.tree.shape.total }
        requires leaf { entry.leaf.0 < 2 ^ self.old.tree.shape.levels }
        ensures hand { self.new.tree.hand ≡ self.old.tree.hand ++ entry ∷ [] }
        ensures spare { self.old.tree.spare ≤ self.new.tree.spare + 1 }
        ensures clock { self.new.clock ≡ self.old.clock }
        ensures leaves { self.new.leaves ≡ self.old.leaves }
        ensures kept { IsSameTree self.old.tree self.new.tree }
        ensures seed { self.new.tree.seed ≡ self.old.tree.seed }
        ensures opens { (notes : ℕ) (memory : MemoryState) (tap : TapState)
            → Opens notes self.old.clock slot.now self.old.tree (L.levels self.old.leaves) memory tap
            → Opens notes self.new.clock slot.now self.new.tree (L.levels self.new.leaves) memory tap }
        ensures step { (memory : MemoryState) (tap : TapState) → PortStep
            (L.leaf_of self.old.leaves) (L.levels self.old.leaves)
            (port_of self.old.clock self.old.tree memory tap) (Put entry) (Ok silent)
            (port_of self.new.clock self.new.tree memory tap) }
    {
        match self.tree.put(entry) {
            Ok(()) => {}
            Err(Doubled) => unreachable!(),
        }
    }

    /// Gives the open slot up after its reads, and answers that time, in cycles. The port has then stopped with this
    /// stop, or with the one that it had before.
    pub fn abort(&mut self, slot: OpenSlot, stop: Stop) -> u64
        requires is_open { IsOpen self.old.clock slot self.old.tree }
        ensures end { result ≡ reads_end self.old.clock.config.shape.levels slot.start }
        ensures clock { self.new.clock
            ≡ record self.old.clock { last = result; stop = Some (first_stop self.old.clock.stop stop) } }
        ensures leaves { self.new.leaves ≡ self.old.leaves }
        ensures tree { self.new.tree ≡ self.old.tree }
        ensures pace { (notes : ℕ) (memory : MemoryState) (tap : TapState)
            → Opens notes self.old.clock slot self.old.tree (L.levels self.old.leaves) memory tap
            → KeepsPace self.old.clock.config result tap.log }
        ensures step { (memory : MemoryState) (tap : TapState) → PortStep
            (L.leaf_of self.old.leaves) (L.levels self.old.leaves)
            (port_of self.old.clock self.old.tree memory tap) (Abort stop) (Ok (told result))
            (port_of self.new.clock self.new.tree memory tap) }
    {
        let OpenSlot { start, leaf: _ } = slot;
        let end = start + MOVE_CYCLES * (u64::from(self.clock.config.shape.levels) + 1);
        let kept = earlier(self.clock.stop, stop);
        self.clock.last = end;
        self.clock.stop = Some(kept);
        end
    }

    /// Puts an entry behind those at hand between two slots.
    ///
    /// `Doubled` where one of its address is at hand; `StashFull` where more are at hand then than may stay. Then the
    /// port has stopped, and its last end is still that of the last slot. After a stop it answers the same one.
    pub fn append(&mut self, entry: Entry) -> Result<(), Stop>
        requires spare { 0 < self.old.tree.spare }
        requires few { length self.old.tree.hand < 2 ^ 20 }
        requires address { entry.address.0 < self.old.tree.shape.total }
        requires leaf { entry.leaf.0 < 2 ^ self.old.tree.shape.levels }
        requires stash { self.old.tree.stash ≡ self.old.clock.config.stash }
        ensures verdict { self.old.clock.stop ≡ None
            → Judges result (append_verdict self.old.tree.stash entry.address self.old.tree.hand) }
        ensures hand { OnOk result (self.new.tree.hand ≡ self.old.tree.hand ++ entry ∷ []) }
        ensures clock { OnOk result (self.new.clock ≡ self.old.clock) }
        ensures stopped { IfErr result (λ stop. self.new.clock ≡ record self.old.clock { stop = Some stop }) }
        ensures leaves { self.new.leaves ≡ self.old.leaves }
        ensures kept { IsSameTree self.old.tree self.new.tree }
        ensures seed { self.new.tree.seed ≡ self.old.tree.seed }
        ensures spare { self.old.tree.spare ≤ self.new.tree.spare + 1 }
        ensures rests { (notes : ℕ) (memory : MemoryState) (tap : TapState)
            → Rests notes self.old.clock self.old.tree (L.levels self.old.leaves) memory tap
            → OnOk result (Rests notes self.new.clock self.new.tree (L.levels self.new.leaves) memory tap) }
        ensures sticky { (stop : StopValue) → self.old.clock.stop ≡ Some stop
            → (result ≡ Err stop) × (self.new ≡ self.old) }
        ensures step { (memory : MemoryState) (tap : TapState) → MatchResult result (λ _. PortStep
            (L.leaf_of self.old.leaves) (L.levels self.old.leaves)
            (port_of self.old.clock self.old.tree memory tap) (Join entry) (Ok silent)
            (port_of self.new.clock self.new.tree memory tap))
            (λ stop. PortStep (L.leaf_of self.old.leaves) (L.levels self.old.leaves)
            (port_of self.old.clock self.old.tree memory tap) (Join entry) (Err stop)
            (port_of self.new.clock self.new.tree memory tap)) }
    {
        if let Some(stop) = self.clock.stop {
            return Err(stop);
        }
        match self.tree.put(entry) {
            Ok(()) => {}
            Err(Doubled) => {
                let stop = Stop::Integrity(Evidence::Doubled {
                    address: entry.address,
                });
                self.clock.stop = Some(stop);
                return Err(stop);
            }
        }
        let held = self.tree.held();
        if held > self.clock.config.stash {
            let stop = Stop::StashFull { held };
            self.clock.stop = Some(stop);
            return Err(stop);
        }
        Ok(())
    }

    /// The leaf of a point.
    pub fn leaf(&self, point: Point) -> Leaf
        ensures value { result.0 ≡ L.leaf_of self.now.leaves point }
        ensures below { result.0 < 2 ^ L.levels self.now.leaves }
    {
        self.leaves.leaf(point)
    }

    /// The end of the last slot in cycles, 0 before the first, and after a stop the end that it left.
    pub fn last(&self) -> u64
        ensures { result ≡ self.now.clock.last }
    {
        self.clock.last
    }

    /// The learner of rates.
    pub fn learner(&self) -> &Learner
        ensures { result.now ≡ self.now.clock.learner }
    {
        &self.clock.learner
    }

    /// How many dummies have started.
    pub fn dummies(&self) -> u64
        ensures { result ≡ self.now.clock.dummies }
    {
        self.clock.dummies
    }
}
