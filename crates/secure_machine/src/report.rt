//! What is reported of a run.

use asc_base::Evidence;
use rv32_core::TrapKind;

/// How a run ended.
#[derive(Clone, Copy, Debug, PartialEq, Eq)]
pub enum Ending {
    /// The program exited.
    Exit {
        /// Its status.
        status: u8,
    },
    /// An instruction trapped.
    Trap {
        /// Why.
        kind: TrapKind,
        /// The address of the instruction.
        pc: u32,
    },
    /// As many instructions are finished as the settings allow.
    Budget,
    /// No time is left.
    TimeUp {
        /// The clock before the next instruction, or the start of the first slot that wasn't done. It isn't before the
        /// time of the settings.
        at: u64,
    },
    /// More entries stay in the stash than the settings allow.
    StashFull {
        /// The number of entries.
        held: u32,
    },
    /// The memory was altered.
    Integrity(Evidence),
    /// The memory failed, and its count of faults rose.
    Device,
}

/// What is reported of a run. Times are in cycles.
#[derive(Debug, Drop)]
pub struct Report {
    /// How many instructions were finished; an exit is one, a trap none.
    pub instructions: u64,
    /// How it ended.
    pub ending: Ending,
    /// The clock after the last instruction or image line, and where one didn't finish the clock at its start.
    pub cycles: u64,
    /// The end of the bus's schedule.
    pub last: u64,
    /// What the program wrote.
    pub output: Vec<u8>,
    /// How many fetches of lines were answered.
    pub fetches: u64,
    /// How many slots started that were asked for.
    pub real: u64,
    /// How many dummies started.
    pub dummies: u64,
    /// How many rates were chosen.
    pub choices: u32,
    /// The indices that were chosen, as the digits of a number, the first the least.
    pub code: u64,
}
