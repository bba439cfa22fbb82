//! The walk of an ORAM's front end, over any slots in which its accesses are served.
//!
//! A line's counter is in its parent, a position-map block, whose own counter is in its parent, up to the blocks of the
//! top layer, whose counters are on chip. A request for a line refills the ancestors that aren't held, from the top
//! down, appends what they displace, and then accesses the line; a group of counters that has no room moves first.
//!
//! - `specs/Front.antt` has what a front end holds and the counters that it shows, `specs/Request.antt` what it asks of
//!   the slots ([`Slots`]), and `specs/Plans.antt` the plan of each call.
//! - `specs/Shadows.antt` says of one access by the roots and the held groups what it shows and leaves, whatever is
//!   answered; `specs/Shows.antt` when a front end and a memory of lines (`specs/Memory.antt`) show the counters of all
//!   blocks, over which a request is exactly the walk of posmap_lookaside.
#![tactic(auto)]

mod front;
mod laws;
mod slots;
mod walk;

pub use front::Front;
pub use laws::{
    accesses_follow_the_groups, plans_have_rows, requests_hold_by_addresses, requests_show_the_walk,
};
pub use slots::{Access, Purpose, Seen, Slots};

#[cfg(test)]
mod tests;
