//! The check of a trace: whether some choices of rates make its slots those of the timetable and of the schedule.
//!
//! `specs/Checker.antt` says what a check says; `specs/Steps.antt` what its steps do.
#![tactic(auto)]

mod checking;
mod laws;
mod progress;
mod verdict;

pub use checking::check;
pub use laws::{scheduled_logs_hold, verdicts_are_exact};
pub use verdict::Verdict;

#[cfg(test)]
mod tests;
