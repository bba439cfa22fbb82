//! The machine: a RISC-V core with 32 registers of 32 bits over any bytes, and its input and output.
//!
//! A core keeps its registers and its program counter, and asks a [`Bytes`] for every word that it fetches. What it
//! asks and what comes of it is `step_plan` of `specs/StepPlan.antt`; over bytes that are told, a step is `flat_step`
//! of `specs/FlatMachine.antt`, and a run of so many steps is `flat_run` of `specs/FlatRun.antt`. Sections that the
//! definitions name are those of the RISC-V unprivileged manual.
//!
//! The instructions are those of RV32IM and FENCE.I; an ECALL knows the host calls 63, read, 64, write, 93, exit, and
//! 214, brk, and answers -38 to every other number.
#![tactic(auto)]

mod access;
mod console;
mod effect;
mod execute;
mod flat;
mod hart;
mod laws;
mod memory;
mod outcome;
#[cfg(test)]
mod rows;
mod transfer;

pub use console::{Files, OUTPUT_LIMIT};
pub use flat::{FlatBytes, Never};
pub use hart::Core;
pub use laws::{
    bytes_stay, image_lines_first, items_go_on, lines_in_order, lines_rise, outputs_begin_alike,
    run_is_one_plan, runs_go_on, step_asks_its_lines, steps_are_the_table, traps_give_no_data,
    worked_line_lists,
};
pub use memory::Bytes;
pub use outcome::{Done, Ended, TrapKind};
