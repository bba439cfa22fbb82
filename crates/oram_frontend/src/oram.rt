ghost use Rattle.std.specs.Prelude.{◌≡◌, ◌<◌, ◌≤◌, None, Some, Ok, Err, max, MatchResult, OnOk, IfOk, IfErr};
ghost use Rattle.asc_base.specs.Settings.{IsConfig};
ghost use Rattle.asc_base.specs.declared.stop.Stop.{Stop as StopValue};
ghost use Rattle.asc_outside.specs.Memory.{MemoryState};
ghost use Rattle.bus_watch.specs.Log.{TapState};
ghost use Rattle.bus_watch.specs.Same.{IsSameBus};
ghost use Rattle.oram_frontend.specs.Oram.{OramStep, Fetch, Store, Wait, CanServe, oram_of};
ghost use Rattle.oram_frontend.specs.Access.{SlotStep};
ghost use Rattle.rate_enforcer.specs.PortStep.{port_of};
ghost use Rattle.rate_enforcer.specs.Served.{keys_of};
ghost use Rattle.oram_walk.specs.Front.{first_front};
ghost use Rattle.oram_walk.specs.Plans.{fetch_plan, store_plan};
ghost use Rattle.oram_walk.specs.Request.{Steps};
ghost use Rattle.request_plan.specs.Plan.{Ends, Stops};
ghost use Rattle.unified_tree.specs.Tree.{IsSameTree};

use crate::slots::PortSlots;
use asc_base::{Config, Line, NoMemory, Stop};
use asc_outside::UntrustedMemory;
use bus_watch::{Bus, Watch};
use epoch_learner::Learner;
use leaf_function::LeafFn;
use oram_walk::{Front, Seen};
use pmmac_tags::Tagger;
use rate_enforcer::Port;
use std::alloc::Global;

/// An encrypted memory of lines.
///
/// Contracts see it as its front end, its tags, its port and its stop, so these fields are public. A caller that
/// changes one of them itself goes around it, and nothing is said of it here.
#[derive(Drop)]
pub struct Oram<L: LeafFn> {
    /// The counters and the held blocks on chip.
    pub front: Front,
    /// The tags.
    pub tagger: Tagger,
    /// The slots.
    pub port: Port<L>,
    /// The stop, which stays.
    pub stop: Option<Stop>,
}

impl<L: LeafFn> Oram<L> {
    /// A memory whose lines are zeros, over a new port of the configuration. `NoMemory` where there is none for the
    /// counters of the top layer or the held blocks.
    pub fn new(
        alloc: Global,
        config: &Config,
        tagger: Tagger,
        port: Port<L>,
    ) -> Result<Oram<L>, NoMemory>
        requires config { IsConfig config.now }
        ensures front { IfOk result (λ oram. oram.front ≡ first_front config.now) }
        ensures tagger { IfOk result (λ oram. oram.tagger ≡ tagger) }
        ensures port { IfOk result (λ oram. oram.port ≡ port) }
        ensures stop { IfOk result (λ oram. oram.stop ≡ None) }
    {
        let front = Front::new(alloc, config)?;
        Ok(Oram {
            front,
            tagger,
            port,
            stop: None,
        })
    }

    /// Fetches a line, asked for at a time in cycles that isn't before the last end, and answers it with the end of the
    /// last slot that it took.
    ///
    /// `TimeUp` where a slot that it needs wouldn't start before the time of the settings; `Integrity` where a
    /// bucket, or the block that was asked for, isn't right; `Device` where a move failed; `StashFull` where more
    /// entries must stay at hand than may; `NoMemory` where a slot, or a block that comes to be held, finds none.
    /// Every later call answers the same stop and asks the bus nothing.
    pub fn fetch<M: UntrustedMemory, W: Watch>(
        &mut self,
        bus: &mut Bus<'_, M, W>,
        asked: u64,
        line: u32,
    ) -> Result<(Line, u64), Stop>
        requires serves { self.old.stop ≡ None → CanServe self.old.front self.old.port.clock self.old.port.tree
            (L.levels self.old.port.leaves) (M.state bus.old.memory.now) (W.state bus.old.tap.now) }
        requires line { line < self.old.front.shape.lines }
        requires asked { self.old.stop ≡ None → self.old.port.clock.last ≤ asked }
        ensures step { MatchResult result
            (λ (value, end). OramStep (keys_of self.old.port.tree self.old.tagger (L.leaf_of self.old.port.leaves))
            (L.levels self.old.port.leaves)
            (oram_of self.old.front self.old.port.clock self.old.port.tree self.old.stop
            (M.state bus.old.memory.now) (W.state bus.old.tap.now))
            (Fetch asked line) (Ok (record { line = Some value; end = end }))
            (oram_of self.new.front self.new.port.clock self.new.port.tree self.new.stop
            (M.state bus.new.memory.now) (W.state bus.new.tap.now)))
            (λ stop. OramStep (keys_of self.old.port.tree self.old.tagger (L.leaf_of self.old.port.leaves))
            (L.levels self.old.port.leaves)
            (oram_of self.old.front self.old.port.clock self.old.port.tree self.old.stop
            (M.state bus.old.memory.now) (W.state bus.old.tap.now))
            (Fetch asked line) (Err stop)
            (oram_of self.new.front self.new.port.clock self.new.port.tree self.new.stop
            (M.state bus.new.memory.now) (W.state bus.new.tap.now))) }
        ensures same { IsSameBus bus.old bus.new }
        ensures tagger { self.new.tagger ≡ self.old.tagger }
        ensures leaves { self.new.port.leaves ≡ self.old.port.leaves }
        ensures kept { IsSameTree self.old.port.tree self.new.port.tree }
        ensures config { self.new.port.clock.config ≡ self.old.port.clock.config }
        ensures shape { self.new.front.shape ≡ self.old.front.shape }
        ensures serves { OnOk result (CanServe self.new.front self.new.port.clock self.new.port.tree
            (L.levels self.new.port.leaves) (M.state bus.new.memory.now) (W.state bus.new.tap.now)) }
        ensures last { IfOk result (λ (value, end). self.new.port.clock.last ≡ end) }
        ensures sticky { (stop : StopValue) → self.old.stop ≡ Some stop
            → (result ≡ Err stop) × (self.new ≡ self.old) × (bus.new ≡ bus.old) }
    {
        if let Some(stop) = self.stop {
            return Err(stop);
        }
        match self.fetch_by_slots(bus, asked, line) {
            Ok(seen) => Ok((seen.line, seen.end)),
            Err(stop) => {
                self.stop = Some(stop);
                Err(stop)
            }
        }
    }

    /// The walk of a fetch over the port's slots.
    fn fetch_by_slots<M: UntrustedMemory, W: Watch>(
        &mut self,
        bus: &mut Bus<'_, M, W>,
        asked: u64,
        line: u32,
    ) -> Result<Seen, Stop>
        requires serves { CanServe self.old.front self.old.port.clock self.old.port.tree
            (L.levels self.old.port.leaves) (M.state bus.old.memory.now) (W.state bus.old.tap.now) }
        requires line { line < self.old.front.shape.lines }
        requires asked { self.old.port.clock.last ≤ asked }
        ensures ok { IfOk result (λ seen. Ends (Steps (SlotStep
            (keys_of self.old.port.tree self.old.tagger (L.leaf_of self.old.port.leaves))
            (L.levels self.old.port.leaves))) (fetch_plan self.old.front asked line)
            (port_of self.old.port.clock self.old.port.tree (M.state bus.old.memory.now) (W.state bus.old.tap.now))
            (port_of self.new.port.clock self.new.port.tree (M.state bus.new.memory.now) (W.state bus.new.tap.now))
            (self.new.front, seen)) }
        ensures err { IfErr result (λ stop. Stops (Steps (SlotStep
            (keys_of self.old.port.tree self.old.tagger (L.leaf_of self.old.port.leaves))
            (L.levels self.old.port.leaves))) (fetch_plan self.old.front asked line)
            (port_of self.old.port.clock self.old.port.tree (M.state bus.old.memory.now) (W.state bus.old.tap.now))
            (port_of self.new.port.clock self.new.port.tree (M.state bus.new.memory.now) (W.state bus.new.tap.now))
            stop self.new.front) }
        ensures same { IsSameBus bus.old bus.new }
        ensures tagger { self.new.tagger ≡ self.old.tagger }
        ensures leaves { self.new.port.leaves ≡ self.old.port.leaves }
        ensures kept { IsSameTree self.old.port.tree self.new.port.tree }
        ensures config { self.new.port.clock.config ≡ self.old.port.clock.config }
        ensures shape { self.new.front.shape ≡ self.old.front.shape }
        ensures stop { self.new.stop ≡ self.old.stop }
        ensures serves { OnOk result (CanServe self.new.front self.new.port.clock self.new.port.tree
            (L.levels self.new.port.leaves) (M.state bus.new.memory.now) (W.state bus.new.tap.now)) }
        ensures last { IfOk result (λ seen. self.new.port.clock.last ≡ seen.end) }
    {
        let mut slots = PortSlots::new(bus.memory, bus.tap, &mut self.port, &self.tagger);
        self.front.fetch(&mut slots, asked, line)
    }

    /// Stores a line, asked for at a time in cycles that isn't before the last end, and answers the end of the last
    /// slot that it took. The stops are those of a fetch.
    pub fn store<M: UntrustedMemory, W: Watch>(
        &mut self,
        bus: &mut Bus<'_, M, W>,
        asked: u64,
        line: u32,
        value: &Line,
    ) -> Result<u64, Stop>
        requires serves { self.old.stop ≡ None → CanServe self.old.front self.old.port.clock self.old.port.tree
            (L.levels self.old.port.leaves) (M.state bus.old.memory.now) (W.state bus.old.tap.now) }
        requires line { line < self.old.front.shape.lines }
        requires asked { self.old.stop ≡ None → self.old.port.clock.last ≤ asked }
        ensures step { MatchResult result
            (λ end. OramStep (keys_of self.old.port.tree self.old.tagger (L.leaf_of self.old.port.leaves))
            (L.levels self.old.port.leaves)
            (oram_of self.old.front self.old.port.clock self.old.port.tree self.old.stop
            (M.state bus.old.memory.now) (W.state bus.old.tap.now))
            (Store asked line value.now) (Ok (record { line = None; end = end }))
            (oram_of self.new.front self.new.port.clock self.new.port.tree self.new.stop
            (M.state bus.new.memory.now) (W.state bus.new.tap.now)))
            (λ stop. OramStep (keys_of self.old.port.tree self.old.tagger (L.leaf_of self.old.port.leaves))
            (L.levels self.old.port.leaves)
            (oram_of self.old.front self.old.port.clock self.old.port.tree self.old.stop
            (M.state bus.old.memory.now) (W.state bus.old.tap.now))
            (Store asked line value.now) (Err stop)
            (oram_of self.new.front self.new.port.clock self.new.port.tree self.new.stop
            (M.state bus.new.memory.now) (W.state bus.new.tap.now))) }
        ensures same { IsSameBus bus.old bus.new }
        ensures tagger { self.new.tagger ≡ self.old.tagger }
        ensures leaves { self.new.port.leaves ≡ self.old.port.leaves }
        ensures kept { IsSameTree self.old.port.tree self.new.port.tree }
        ensures config { self.new.port.clock.config ≡ self.old.port.clock.config }
        ensures shape { self.new.front.shape ≡ self.old.front.shape }
        ensures serves { OnOk result (CanServe self.new.front self.new.port.clock self.new.port.tree
            (L.levels self.new.port.leaves) (M.state bus.new.memory.now) (W.state bus.new.tap.now)) }
        ensures last { IfOk result (λ end. self.new.port.clock.last ≡ end) }
        ensures sticky { (stop : StopValue) → self.old.stop ≡ Some stop
            → (result ≡ Err stop) × (self.new ≡ self.old) × (bus.new ≡ bus.old) }
    {
        if let Some(stop) = self.stop {
            return Err(stop);
        }
        match self.store_by_slots(bus, asked, line, value) {
            Ok(end) => Ok(end),
            Err(stop) => {
                self.stop = Some(stop);
                Err(stop)
            }
        }
    }

    /// The walk of a store over the port's slots.
    fn store_by_slots<M: UntrustedMemory, W: Watch>(
        &mut self,
        bus: &mut Bus<'_, M, W>,
        asked: u64,
        line: u32,
        value: &Line,
    ) -> Result<u64, Stop>
        requires serves { CanServe self.old.front self.old.port.clock self.old.port.tree
            (L.levels self.old.port.leaves) (M.state bus.old.memory.now) (W.state bus.old.tap.now) }
        requires line { line < self.old.front.shape.lines }
        requires asked { self.old.port.clock.last ≤ asked }
        ensures ok { IfOk result (λ end. Ends (Steps (SlotStep
            (keys_of self.old.port.tree self.old.tagger (L.leaf_of self.old.port.leaves))
            (L.levels self.old.port.leaves))) (store_plan self.old.front asked line value.now)
            (port_of self.old.port.clock self.old.port.tree (M.state bus.old.memory.now) (W.state bus.old.tap.now))
            (port_of self.new.port.clock self.new.port.tree (M.state bus.new.memory.now) (W.state bus.new.tap.now))
            (self.new.front, end)) }
        ensures err { IfErr result (λ stop. Stops (Steps (SlotStep
            (keys_of self.old.port.tree self.old.tagger (L.leaf_of self.old.port.leaves))
            (L.levels self.old.port.leaves))) (store_plan self.old.front asked line value.now)
            (port_of self.old.port.clock self.old.port.tree (M.state bus.old.memory.now) (W.state bus.old.tap.now))
            (port_of self.new.port.clock self.new.port.tree (M.state bus.new.memory.now) (W.state bus.new.tap.now))
            stop self.new.front) }
        ensures same { IsSameBus bus.old bus.new }
        ensures tagger { self.new.tagger ≡ self.old.tagger }
        ensures leaves { self.new.port.leaves ≡ self.old.port.leaves }
        ensures kept { IsSameTree self.old.port.tree self.new.port.tree }
        ensures config { self.new.port.clock.config ≡ self.old.port.clock.config }
        ensures shape { self.new.front.shape ≡ self.old.front.shape }
        ensures stop { self.new.stop ≡ self.old.stop }
        ensures serves { OnOk result (CanServe self.new.front self.new.port.clock self.new.port.tree
            (L.levels self.new.port.leaves) (M.state bus.new.memory.now) (W.state bus.new.tap.now)) }
        ensures last { IfOk result (λ end. self.new.port.clock.last ≡ end) }
    {
        let mut slots = PortSlots::new(bus.memory, bus.tap, &mut self.port, &self.tagger);
        self.front.store(&mut slots, asked, line, value)
    }

    /// Does all slots that start before a time, in cycles, as dummies, and answers the greater of it and the last end.
    /// The time isn't after that of the settings. After a stop it answers the same one, and asks the bus nothing.
    pub fn idle_until<M: UntrustedMemory, W: Watch>(
        &mut self,
        bus: &mut Bus<'_, M, W>,
        time: u64,
    ) -> Result<u64, Stop>
        requires serves { self.old.stop ≡ None → CanServe self.old.front self.old.port.clock self.old.port.tree
            (L.levels self.old.port.leaves) (M.state bus.old.memory.now) (W.state bus.old.tap.now) }
        requires in_time { time ≤ self.old.port.clock.config.time }
        ensures step { MatchResult result
            (λ end. OramStep (keys_of self.old.port.tree self.old.tagger (L.leaf_of self.old.port.leaves))
            (L.levels self.old.port.leaves)
            (oram_of self.old.front self.old.port.clock self.old.port.tree self.old.stop
            (M.state bus.old.memory.now) (W.state bus.old.tap.now))
            (Wait time) (Ok (record { line = None; end = end }))
            (oram_of self.new.front self.new.port.clock self.new.port.tree self.new.stop
            (M.state bus.new.memory.now) (W.state bus.new.tap.now)))
            (λ stop. OramStep (keys_of self.old.port.tree self.old.tagger (L.leaf_of self.old.port.leaves))
            (L.levels self.old.port.leaves)
            (oram_of self.old.front self.old.port.clock self.old.port.tree self.old.stop
            (M.state bus.old.memory.now) (W.state bus.old.tap.now))
            (Wait time) (Err stop)
            (oram_of self.new.front self.new.port.clock self.new.port.tree self.new.stop
            (M.state bus.new.memory.now) (W.state bus.new.tap.now))) }
        ensures same { IsSameBus bus.old bus.new }
        ensures tagger { self.new.tagger ≡ self.old.tagger }
        ensures leaves { self.new.port.leaves ≡ self.old.port.leaves }
        ensures kept { IsSameTree self.old.port.tree self.new.port.tree }
        ensures config { self.new.port.clock.config ≡ self.old.port.clock.config }
        ensures shape { self.new.front.shape ≡ self.old.front.shape }
        ensures serves { OnOk result (CanServe self.new.front self.new.port.clock self.new.port.tree
            (L.levels self.new.port.leaves) (M.state bus.new.memory.now) (W.state bus.new.tap.now)) }
        ensures last { IfOk result (λ end. end ≡ max time self.new.port.clock.last) }
        ensures sticky { (stop : StopValue) → self.old.stop ≡ Some stop
            → (result ≡ Err stop) × (self.new ≡ self.old) × (bus.new ≡ bus.old) }
    {
        if let Some(stop) = self.stop {
            return Err(stop);
        }
        match self.port.idle_until(bus, time) {
            Ok(end) => Ok(end),
            Err(stop) => {
                self.stop = Some(stop);
                Err(stop)
            }
        }
    }

    /// The end of the last slot in cycles, 0 before the first, and after a stop the end that it left.
    pub fn last(&self) -> u64
        ensures { result ≡ self.now.port.clock.last }
    {
        self.port.last()
    }

    /// The learner of rates.
    pub fn learner(&self) -> &Learner
        ensures { result.now ≡ self.now.port.clock.learner }
    {
        self.port.learner()
    }

    /// How many dummies have started.
    pub fn dummies(&self) -> u64
        ensures { result ≡ self.now.port.clock.dummies }
    {
        self.port.dummies()
    }

    /// How many slots that were asked for have started.
    pub fn real(&self) -> u64
        ensures { result ≡ self.now.port.clock.real }
    {
        self.port.clock.real
    }
}
