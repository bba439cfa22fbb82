//! That an encrypted memory takes the slots of a play: what its log says of the starts, points, messages and choices of
//! its slots is what a play says.
//!
//! `specs/Taken.antt` has the slots that an answered access takes, `specs/InTurn.antt` those of accesses one after
//! another, `specs/Shown.antt` what these show of a walk, `specs/Answered.antt` what an answered request comes to,
//! `specs/Walked.antt` when accesses are a walk's, and `specs/Playing.antt` when an encrypted memory stands where a
//! play stands between two requests. `specs/AtHome.antt` has where each of its blocks stands then, while no reply was
//! altered, and `specs/InCalls.antt` calls that are answered one after another. `specs/Stopped.antt` has what a stop
//! leaves of the slots of an access, and `specs/StopsInTurn.antt` what it leaves of those of a request.
//!
//! The crate has laws alone; the calls do nothing.
#![tactic(auto)]

mod laws;
mod stops;

pub use laws::{
    accesses_take_asked_slots, answered_requests_take_slots, answered_requests_take_slots_in_turn,
    blocks_at_home_have_one_place, blocks_of_plays_are_at_home, ports_keep_the_pace,
    requests_stand_as_plays, shown_accesses_are_walked, walked_accesses_take_play_slots,
};
pub use stops::{
    lines_found_before_stops_are_right, stopped_accesses_are_cut, stopped_requests_cut_plays,
    stopped_requests_take_slots_in_turn, stopped_walks_are_on_plays, stopped_walks_cut_plays,
};
