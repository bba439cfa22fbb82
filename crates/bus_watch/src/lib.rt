//! The tap on the memory bus: what it notes of each move, and the bus, whose reads and writes each note their move and
//! ask the memory once.
#![tactic(auto)]

mod bus;
mod laws;
mod log;
mod recorder;
mod watch;

pub use bus::{Bus, BusStop};
pub use laws::{
    altered_replies_noted, bus_runs_join, buses_stay_ready, paths_go_down,
    prepared_buses_are_ready, runs_join, runs_start, silent_runs_keep_events,
};
pub use log::{Altered, Event, Log, Move};
pub use recorder::Recorder;
pub use watch::Watch;

#[cfg(test)]
mod tests;
