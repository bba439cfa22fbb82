//! The lookaside buffer: the position-map blocks that are held on chip, the most recent first.
#![tactic(auto)]

mod held;
mod laws;
mod lookaside;
mod walk_laws;

pub use held::Held;
pub use laws::{
    addresses_follow, addresses_stay_distinct, held_blocks_keep_values, laws_have_instances,
};
pub use lookaside::Lookaside;
pub use walk_laws::{walks_have_points_once, walks_have_rows, walks_hold_by_addresses};

#[cfg(test)]
mod tests;
