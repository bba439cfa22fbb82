//! What the operations of the instruction table compute on values of 32 bits.
//!
//! The meanings are those of the crate `rv32_table` (its `specs/Meaning.antt`), over whole numbers, after the RISC-V
//! unprivileged manual (RV32I 2.1 and M 2.0). Each function here answers exactly its meaning, for all values. Nothing
//! here knows of registers, of a memory or of a program counter's rules: those are the core's.
#![tactic(auto)]

mod access;
mod address;
mod branch;
mod immediate;
mod product;
mod quotient;
mod register;
#[cfg(test)]
mod tests;
mod word;

pub use access::{extend, load_width, store_width};
pub use address::{jump_target, target};
pub use branch::is_taken;
pub use immediate::operate_immediate;
pub use register::operate;
