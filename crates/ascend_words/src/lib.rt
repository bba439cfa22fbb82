//! The words of the command line: which are right, what they say, and which is the first wrong one.
//!
//! The tables of `specs/Tables.antt` say which commands and names there are, and `specs/Grammar.antt` which words are
//! right.
#![tactic(auto)]

mod fault;
mod given;
mod number;
mod rates;
mod settings;
mod table;
mod words;

pub use fault::WordFault;
pub use table::{Command, Name};
pub use words::{Words, read_words};

#[cfg(test)]
mod tests;
