/// What a check of a trace says.
#[derive(Clone, Copy, Debug, PartialEq, Eq)]
pub enum Verdict {
    /// Some choices of rates make the slots of the trace.
    Holds {
        /// The least code of such choices, whose digits they are, the least first.
        code: u64,
        /// How many bits the choices up to the end of the trace tell.
        bits: u32,
    },
    /// No choices do.
    Fails {
        /// The number of the first line that none allows, counted from 1.
        line: u64,
        /// What stands there: a start, a number of moves, or the time of the end.
        found: u64,
        /// What should.
        wanted: u64,
    },
}
