//! How a step ended, and what it cost.

/// Why an instruction trapped. It changed nothing then.
#[derive(Clone, Copy, Debug, PartialEq, Eq)]
pub enum TrapKind {
    /// The four bytes at pc aren't all in the memory.
    FetchFault,
    /// The word is no instruction of the table.
    Illegal,
    /// A jump or a taken branch has a target that isn't a multiple of four.
    FetchMisaligned,
    /// The address of a load isn't a multiple of its width.
    LoadMisaligned,
    /// The address of a store isn't a multiple of its width.
    StoreMisaligned,
    /// The address of a load is a multiple of its width, and not all its bytes are in the memory.
    LoadFault,
    /// The address of a store is a multiple of its width, and not all its bytes are in the memory.
    StoreFault,
    /// The instruction is EBREAK.
    Breakpoint,
    /// A host call to write that is otherwise right would make the output longer than its limit.
    OutputLimit,
}

/// How a step ended.
#[derive(Clone, Copy, Debug, PartialEq, Eq)]
pub enum Ended {
    /// The machine goes on with its next instruction.
    No,
    /// The program ended by itself.
    Exit {
        /// The low byte of x10.
        status: u8,
    },
    /// The instruction trapped.
    Trap {
        /// Why.
        kind: TrapKind,
        /// The address of the instruction.
        pc: u32,
    },
}

/// How a step ended, and what it cost.
#[derive(Clone, Copy, Debug, PartialEq, Eq)]
pub struct Done {
    /// How it ended.
    pub ended: Ended,
    /// Its cycles; a trap costs none.
    pub cost: u64,
}
