//! Slots at enforced times over a tree: each starts when the timetable says, whether it was asked for or not.
#![tactic(auto)]

mod clock;
mod laws;
mod port;
mod stop;

pub use clock::Clock;
pub use laws::{fewer_notes_fit, notes_are_steps};
pub use port::{OpenSlot, Port};

#[cfg(test)]
mod tests;
