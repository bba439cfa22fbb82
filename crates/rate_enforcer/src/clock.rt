ghost use Rattle.std.specs.Prelude.{◌≡◌, ◌+◌, ◌^◌, ◌<◌, ◌≤◌, ℕ, suc, List, [], ◌∷◌, length};
ghost use Rattle.asc_base.specs.TreeShape.{olat_of};
ghost use Rattle.bus_watch.specs.Made.{Ran};
ghost use Rattle.bus_watch.specs.Path.{slot_moves};
ghost use Rattle.bus_watch.specs.RunEnd.{Whole};
ghost use Rattle.epoch_learner.specs.Learner.{choice_by_sums};
ghost use Rattle.epoch_learner.specs.Stands.{Stands, StandsIn, noted};
ghost use Rattle.oram_contents.specs.Slots.{IsEnd};
ghost use Rattle.rate_enforcer.specs.Clock.{chosen_events, with_dummy, with_real, IsAtEnd};

use asc_base::{Config, Stop};
use asc_outside::UntrustedMemory;
use bus_schedule::slot_after;
use bus_watch::{Bus, Event, Watch};
use epoch_learner::Learner;

/// How far a port has come in the timetable. Times are in cycles.
///
/// Contracts see it as its fields, so they are public; the port alone changes them.
#[derive(Clone, Copy, Debug, PartialEq, Eq)]
pub struct Clock {
    /// The configuration.
    pub config: Config,
    /// The learner of rates.
    pub learner: Learner,
    /// When the next slot starts, or the one that is open or stopped started.
    pub next: u64,
    /// The end of the last slot, or the end that a stop left.
    pub last: u64,
    /// How many dummies have started.
    pub dummies: u64,
    /// How many slots that were asked for have started.
    pub real: u64,
    /// The stop, which stays.
    pub stop: Option<Stop>,
}

/// Notes a choice, if one falls.
fn note_choice<M: UntrustedMemory, W: Watch>(bus: &mut Bus<'_, M, W>, choice: Option<u32>)
    requires { 0 < (W.state bus.old.tap.now).spare_events }
    ensures ran { Ran M.state W.state Whole [] (chosen_events choice) bus.old bus.new }
    ensures memory { bus.new.memory.now ≡ bus.old.memory.now }
    ensures mirror { (W.state bus.new.tap.now).mirror ≡ (W.state bus.old.tap.now).mirror }
    ensures log { (W.state bus.new.tap.now).log ≡ noted choice (W.state bus.old.tap.now).log }
{
    match choice {
        Some(index) => bus.note(Event::Chosen { index }),
        None => {}
    }
}

impl Clock {
    /// Counts a slot that starts.
    pub(crate) fn count(&mut self, asked: Option<u64>)
        requires dummies { self.old.dummies < 2 ^ 63 }
        requires real { self.old.real < 2 ^ 63 }
        ensures { self.new ≡ record self.old {
          dummies = with_dummy asked self.old.dummies;
          real = with_real asked self.old.real;
        } }
    {
        match asked {
            Some(_) => self.real += 1,
            None => self.dummies += 1,
        }
    }

    /// Ends the slot whose moves are all made, with the choice at its end if one falls.
    pub(crate) fn end_slot<M: UntrustedMemory, W: Watch>(
        &mut self,
        bus: &mut Bus<'_, M, W>,
        end: u64,
    )
        requires at_end { IsAtEnd self.old end (W.state bus.old.tap.now).log }
        requires room { 0 < (W.state bus.old.tap.now).spare_events }
        ensures ran { Ran M.state W.state Whole [] (chosen_events (choice_by_sums self.old.learner end))
            bus.old bus.new }
        ensures mirror { (W.state bus.new.tap.now).mirror ≡ (W.state bus.old.tap.now).mirror }
        ensures ended { IsEnd (W.state bus.old.tap.now).log (W.state bus.new.tap.now).log }
        ensures stands { (n leaf : ℕ) → StandsIn self.old.config n self.old.next leaf
            (slot_moves self.old.config.shape.levels self.old.next leaf) self.old.learner (W.state bus.old.tap.now).log
            → Stands self.old.config (suc n) end self.new.next self.new.learner (W.state bus.new.tap.now).log }
        ensures clock { self.new
            ≡ record self.old { last = end; next = self.new.next; learner = self.new.learner } }
    {
        let choice = self.learner.ended(end);
        note_choice(bus, choice);
        self.last = end;
        self.next = slot_after(end, self.learner.rate());
    }
}
