//! That a run over an encrypted memory is the Play of its program, request by request and instruction by instruction.
//!
//! `specs/Follows.antt` says when the lines of an encrypted memory with a clock stand where a play stands,
//! `specs/Stands.antt` where a run over a cache stands in a whole play, and `specs/Shows.antt` what its report and its
//! log show of the play: all of it, or the play cut by a stop. `specs/Given.antt` has what one call of an encrypted
//! memory does, and `specs/Spent.antt` what the clock is made of, whatever the memory replies.
//!
//! The crate has laws alone; the calls do nothing.
#![tactic(auto)]

mod laws;
mod rows;
mod spent;

pub use laws::{
    calls_take_slots, ends_show_the_play, image_lines_take_slots, instructions_stand_in_the_play,
    own_ends_show_the_whole_play, plans_take_slots,
};
pub use rows::reports_have_rows;
pub use spent::{cycles_are_spent, finished_costs_go_on, worked_costs_and_waits};
