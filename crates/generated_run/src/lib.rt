//! What the programs of rv32_asm's generator do on the flat machine: they write the hash of their data, and exit with
//! 0.
//!
//! It is also a model of how to reason about a program on the flat machine. `specs/Leads.antt` has the word for a piece
//! of a run, `specs/States.antt` the states of the program and the invariant of its loop, `specs/Hash.antt` the hash
//! and `specs/Written.antt` the run and what it comes to. The crate has laws alone; the calls do nothing.
#![tactic(auto)]

mod laws;
mod rows;

pub use laws::{
    generated_programs_fit, generated_programs_hash, loop_keeps_its_invariant, pieces_lead_on,
};
pub use rows::worked_programs;
