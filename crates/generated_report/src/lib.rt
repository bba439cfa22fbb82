//! What is reported of a generated program that runs over encrypted memory: the hash of its data.
//!
//! The crate has laws alone; the calls do nothing.
#![tactic(auto)]

mod laws;

pub use laws::generated_reports_have_the_hash;
