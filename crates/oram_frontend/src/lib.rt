//! The front end of an encrypted memory: lines are fetched and stored by walks over position-map blocks, each access in
//! a slot of a port, and whatever is found is judged by its tag.
#![tactic(auto)]

mod access;
mod judge;
mod laws;
mod oram;
mod slots;

pub use laws::answered_requests;
pub use oram::Oram;

#[cfg(test)]
mod tests;
