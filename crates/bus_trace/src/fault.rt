use thiserror::Error;

/// What is wrong with the first line at fault of a text.
#[derive(Clone, Copy, Debug, PartialEq, Eq)]
pub enum TraceKind {
    /// The line isn't of a form that can stand there.
    Form,
    /// A number of the line is out of its range.
    Range,
    /// The text ends before the line does.
    Cut,
    /// Something follows the line `end`.
    Extra,
}

/// Why a text isn't read as a trace.
#[derive(Debug, Drop, PartialEq, Eq, Error)]
pub enum TraceFault {
    /// The text is no trace's.
    #[error("line {line} is refused: {kind:?}")]
    Bad {
        /// The number of the first line at fault, counted from 1.
        line: u64,
        /// What is wrong with it.
        kind: TraceKind,
    },
    /// There is no memory for the accesses.
    #[error("there is no memory for the trace")]
    NoMemory,
}
