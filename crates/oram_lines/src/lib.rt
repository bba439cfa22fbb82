//! The lines of an encrypted memory: what is fetched is what was stored, or the log shows a forgery.
#![tactic(auto)]

mod fetches;
mod laws;
mod lines;
mod noted;
mod shown;

pub use fetches::lines_are_kept;
pub use laws::{counters_are_low, known_between, known_requests};
pub use lines::{calls_may_stop, encrypted_memory_holds_lines, honest_memories_are_not_blamed};
pub use noted::{answers_are_lines, runs_are_noted, stopped_answers_are_lines};
pub use shown::{chip_shows, chip_shows_group_moves};
