//! What a program does over encrypted memory and when, where the memory is honest, as definitions: its slots, their
//! points, what is tagged in them, the rates, the numbers that are reported; and a play that is cut by a stop.
//!
//! `specs/Play.antt` has the play, `specs/Halt.antt` the cut, `specs/PlayEvents.antt` what of a log's events they say.
//! Times are in cycles. The crate has laws alone; the calls do nothing.
#![tactic(auto)]

mod laws;
mod rows;

pub use laws::{
    accesses_take_slots, dummies_pass, halted_runs_are_cuts, halts_are_prefixes,
    instructions_take_slots, late_servers_are_quiet, lists_take_slots, play_goes_on,
    plays_are_flat, plays_are_scheduled, plays_stay_honest, requests_take_slots,
    slots_keep_the_pace,
};
pub use rows::{
    appends_have_rows, choices_have_rows, halts_have_rows, jumps_have_rows, moves_have_rows,
    plays_have_rows, stops_fit_slots,
};
