//! The instructions of RV32IM with Zifencei, as words and as values.
//!
//! The instruction table stands in `specs/Table.antt`: one row a mask, a value and a form for each of the 49
//! instructions, as in the listings of the RISC-V unprivileged manual (RV32I 2.1, M 2.0, Zifencei 2.0). A word is an
//! instruction exactly where it matches a row, and it matches at most one. What the rows mean over whole numbers stands
//! in `specs/Meaning.antt`.
//!
//! [`decode`] and [`encode`] are the table both ways: `decode` gives back what was encoded, and `encode` gives back the
//! word that was decoded. The code reads the fields of a word in turn, opcode, funct3 and funct7; it searches no table.
#![tactic(auto)]

mod decoding;
mod encoding;
mod fields;
mod instruction;
mod laws;
mod opcode;
#[cfg(test)]
mod tests;

pub use decoding::decode;
pub use encoding::encode;
pub use instruction::{BranchOp, ImmOp, Instr, LoadOp, RegOp, StoreOp};
pub use laws::{
    at_most_one_row, decoded_is_encoded, encoded_is_decoded, outside_is_illegal,
    rows_have_their_meanings,
};
