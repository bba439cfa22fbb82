//! The lines of an encrypted memory, asked for at a clock.

ghost use Rattle.std.specs.Prelude.{◌≡◌, IsSome, Some};

use asc_base::Stop;
use asc_outside::UntrustedMemory;
use bus_watch::Watch;
use leaf_function::LeafFn;
use oram_frontend::Oram;

/// The lines of an encrypted memory over a memory and a tap that a bus has lent, with a clock at which they are asked
/// for and which becomes the end of the last slot that they took.
#[derive(Drop)]
pub struct TimedLines<'o, 'b, M: UntrustedMemory, W: Watch, L: LeafFn> {
    /// The memory.
    pub memory: &'b mut M,
    /// The tap.
    pub tap: &'b mut W,
    /// The encrypted memory.
    pub oram: &'o mut Oram<L>,
    /// How many lines there are.
    pub count: u32,
    /// The clock, in cycles.
    pub clock: u64,
    /// How many fetches were answered.
    pub fetches: u64,
}

/// A line was stopped. Why, the encrypted memory keeps, so that answers stay small.
#[derive(Clone, Copy, Debug, PartialEq, Eq)]
pub struct Stopped;

impl<'o, 'b, M: UntrustedMemory, W: Watch, L: LeafFn> TimedLines<'o, 'b, M, W, L> {
    /// The lines of an encrypted memory, at time 0.
    pub fn new(
        memory: &'b mut M,
        tap: &'b mut W,
        oram: &'o mut Oram<L>,
    ) -> TimedLines<'o, 'b, M, W, L>
        ensures same_memory { result.memory.ghost_name ≡ memory.entry.ghost_name }
        ensures same_tap { result.tap.ghost_name ≡ tap.entry.ghost_name }
        ensures same_oram { result.oram.ghost_name ≡ oram.entry.ghost_name }
        ensures memory { result.memory.now ≡ memory.old }
        ensures tap { result.tap.now ≡ tap.old }
        ensures oram { result.oram.now ≡ oram.old }
        ensures count { result.count ≡ oram.old.port.clock.config.shape.lines }
        ensures clock { result.clock ≡ 0 }
        ensures fetches { result.fetches ≡ 0 }
    {
        let count = oram.port.clock.config.shape.lines;
        TimedLines {
            memory,
            tap,
            oram,
            count,
            clock: 0,
            fetches: 0,
        }
    }

    /// The time of the settings.
    pub fn time(&self) -> u64
        ensures { result ≡ self.now.oram.now.port.clock.config.time }
    {
        self.oram.port.clock.config.time
    }

    /// Why a line was stopped.
    pub(crate) fn stopped(&self) -> Stop
        requires { IsSome self.now.oram.now.stop }
        ensures { self.now.oram.now.stop ≡ Some result }
    {
        self.oram.stop.unwrap()
    }
}
