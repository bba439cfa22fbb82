//! Trace text: what an observer of the bus sees of a run, as lines of numbers.
//!
//! `specs/Trace.antt` has the lines of a trace, `specs/Grammar.antt` which texts are traces, and `specs/Reader.antt`
//! the first fault of any other text.
#![tactic(auto)]

mod fault;
mod laws;
mod lines;
mod number;
mod printer;
mod rates;
mod reader;
mod seen;
mod trace;

pub use asc_base::NoMemory;
pub use fault::{TraceFault, TraceKind};
pub use laws::{texts_have_one_meaning, trace_rows, traces_have_one_text};
pub use printer::print;
pub use reader::read;
pub use trace::{Header, Seen, Trace};

#[cfg(test)]
mod tests;
