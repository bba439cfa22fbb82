//! That an encrypted memory is what its log says, whatever its replies were: what is at hand and in its buckets, what
//! was noted in each slot, and which stop came.
//!
//! `specs/Order.antt` has the order of a log's events, `specs/LastSlot.antt` how far its last slot was done,
//! `specs/Judged.antt` what a log shows of a stop and says of the buckets, `specs/Replayed.antt` when an encrypted
//! memory is what its log says, `specs/Few.antt` how many entries a log can bring to hand, and `specs/Rows.antt` logs
//! that are computed with.
//!
//! The crate has laws alone; the calls do nothing.
#![tactic(auto)]

mod laws;
mod rows;

pub use laws::{logs_say_all, short_logs_have_room, untagged_logs_have_room};
pub use rows::{altered_logs_have_rows, last_slots_have_rows, logs_have_rows, verdicts_have_rows};
