//! What is asked of the lines of an encrypted memory.

ghost use Rattle.std.specs.Prelude.{◌≡◌, ◌≤◌, ◌+◌, ◌-◌, ◌^◌, min, length, None, MatchResult, Ok, Err};
ghost use Rattle.data_cache.specs.Lines.{IsLine};
ghost use Rattle.oram_frontend.specs.Oram.{OramStep, CanServe, Wait};
ghost use Rattle.secure_machine.specs.Same.{IsSameLines, timed_of, keys_in};
ghost use Rattle.play_run.specs.Timed.{CanAsk, Serving};

use crate::lines::{Stopped, TimedLines};
use asc_base::{Line, Stop};
use asc_outside::UntrustedMemory;
use bus_watch::{Bus, Watch};
use data_cache::LineStore;
use leaf_function::LeafFn;

/// The line of these bytes.
fn line_of(bytes: &[u8]) -> Line
    requires { length bytes.now ≡ 64 }
    ensures bytes { result.0 ≡ bytes.now }
    ensures line { IsLine result.0 }
{
    let mut line = [0; 64];
    line.copy_from_slice(bytes);
    Line(line)
}

/// A line's bytes are 64, which their type says. The call does nothing.
fn are_whole(bytes: &[u8])
    requires { length bytes.now ≡ 64 }
    ensures { length bytes.now ≡ 64 }
{}

impl<'o, 'b, M: UntrustedMemory, W: Watch, L: LeafFn> TimedLines<'o, 'b, M, W, L> {
    /// The clock goes on by so many cycles, or to the end of its type.
    pub fn spend(&mut self, cost: u64)
        ensures same { IsSameLines self.old self.new }
        ensures memory { self.new.memory.now ≡ self.old.memory.now }
        ensures tap { self.new.tap.now ≡ self.old.tap.now }
        ensures oram { self.new.oram.now ≡ self.old.oram.now }
        ensures fetches { self.new.fetches ≡ self.old.fetches }
        ensures clock { self.old.clock ≤ self.new.clock }
        ensures spent { self.new.clock ≡ min (self.old.clock + cost) (2 ^ 64 - 1) }
        ensures ready { CanAsk (L.levels self.old.oram.now.port.leaves) self.old.count
            (timed_of M.state W.state self.old)
            → CanAsk (L.levels self.new.oram.now.port.leaves) self.new.count (timed_of M.state W.state self.new) }
    {
        self.clock = self.clock.saturating_add(cost);
    }

    /// Does all slots that start before a time as dummies, and answers the greater of it and the last end. After a stop
    /// it answers the same one.
    pub fn idle_until(&mut self, time: u64) -> Result<u64, Stop>
        requires ready { Serving (L.levels self.old.oram.now.port.leaves) (timed_of M.state W.state self.old).oram }
        requires in_time { time ≤ self.old.oram.now.port.clock.config.time }
        ensures same { IsSameLines self.old self.new }
        ensures fetches { self.new.fetches ≡ self.old.fetches }
        ensures clock { self.new.clock ≡ self.old.clock }
        ensures step { MatchResult result
            (λ end. OramStep (keys_in L.leaf_of self.old) (L.levels self.old.oram.now.port.leaves)
            (timed_of M.state W.state self.old).oram (Wait time) (Ok (record { line = None; end = end }))
            (timed_of M.state W.state self.new).oram)
            (λ stop. OramStep (keys_in L.leaf_of self.old) (L.levels self.old.oram.now.port.leaves)
            (timed_of M.state W.state self.old).oram (Wait time) (Err stop)
            (timed_of M.state W.state self.new).oram) }
    {
        let mut bus = Bus::new(self.memory, self.tap);
        self.oram.idle_until(&mut bus, time)
    }
}

impl<'o, 'b, M: UntrustedMemory, W: Watch, L: LeafFn> LineStore for TimedLines<'o, 'b, M, W, L> {
    ghost use Rattle.std.specs.Prelude.{None};
    ghost use Rattle.std.proofs.Common.{subst, sym, ap};
    ghost use Rattle.secure_machine.specs.Same.{IsSameLines, timed_of, keys_in};
    ghost use Rattle.secure_machine.specs.Marked.{MarkedStep};
    ghost use Rattle.play_run.specs.Timed.{CanAsk, answers_lines, answers_serve};

    type Stop = Stopped;

    ghost lines = { λ s. s.count };

    ghost told = { λ _. None };

    ghost ready = { λ s. CanAsk (L.levels s.oram.now.port.leaves) s.count (timed_of M.state W.state s) };

    ghost step = { λ s request answer t. IsSameLines s t
        × MarkedStep (keys_in L.leaf_of s) (L.levels s.oram.now.port.leaves) s.count (timed_of M.state W.state s)
        request answer (timed_of M.state W.state t) };

    fn fetch(&mut self, line: u32) -> Result<Line, Stopped> {
        let mut bus = Bus::new(self.memory, self.tap);
        match self.oram.fetch(&mut bus, self.clock, line) {
            Ok((value, end)) => {
                self.clock = end;
                self.fetches += 1;
                Ok(line_of(&value.0))
            }
            Err(_) => Err(Stopped),
        }
    }

    fn store(&mut self, line: u32, value: &Line) -> Result<(), Stopped> {
        are_whole(&value.0);
        let mut bus = Bus::new(self.memory, self.tap);
        match self.oram.store(&mut bus, self.clock, line, value) {
            Ok(end) => {
                self.clock = end;
                Ok(())
            }
            Err(_) => Err(Stopped),
        }
    }

    ghost keeps_lines = { λ s t request answer h. h.0.count };

    ghost stays_ready = { λ s t request bytes ready h.
        subst (λ count. CanAsk (L.levels t.oram.now.port.leaves) count (timed_of M.state W.state t)) (sym h.0.count)
        (subst (λ levels. CanAsk levels s.count (timed_of M.state W.state t)) (sym (ap L.levels h.0.leaves))
        (answers_serve (keys_in L.leaf_of s) (L.levels s.oram.now.port.leaves) s.count (timed_of M.state W.state s)
        (timed_of M.state W.state t) request bytes h.1)) };

    ghost answers = { λ s t request bytes h. answers_lines (keys_in L.leaf_of s)
        (L.levels s.oram.now.port.leaves) s.count (timed_of M.state W.state s) (timed_of M.state W.state t) request
        bytes h.1 };

    ghost told_lines = { λ s list e. Prim.cc };

    ghost tells_fetch = { λ s t line bytes h list e. Prim.cc };

    ghost tells_store = { λ s t line value done h list e. Prim.cc };
}
