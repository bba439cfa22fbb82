//! The time arithmetic of the bus: when slots start, when rates are chosen, and the times of moves.
#![tactic(auto)]

mod arithmetic;
mod asked_laws;
mod beat;
mod moves;
mod schedule_laws;
mod scheduled_laws;
mod starts_laws;
mod timetable_laws;

pub use arithmetic::{digit, epoch_of, slot_after, with_digit};
pub use asked_laws::{asked_rows, next_slot_is_first, slots_serve_promptly};
pub use beat::{Beat, Timing, choice_falls, first_slot, most_choices, next_slot};
pub use moves::{move_time, moves_before};
pub use schedule_laws::{moves_are_cut, moves_go_on, moves_rise, slots_join};
pub use scheduled_laws::{
    code_is_bounded, events_are_silent, log_is_scheduled, log_starts, schedule_decides,
    scheduled_rows, slot_begins, slot_ends, slot_ends_with_choice, slot_goes_on,
};
pub use starts_laws::{
    beats_go_on, codes_compare, digit_rows, first_starts, slots_end_by, starts_tell_digits,
    timetables_have_starts,
};
pub use timetable_laws::{
    choices_are_few, choices_decide, choices_fall, codes_have_digits, public_parts, slots_apart,
    starts_rows, timetable_rows, timetables_are_few, timetables_go_on,
};

#[cfg(test)]
mod tests;
#[cfg(test)]
mod tests_moves;
