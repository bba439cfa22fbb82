//! The counters of the blocks under one position-map block, and the line that holds them.
#![tactic(auto)]

mod group;
mod laws;

pub use group::{Group, Step};
pub use laws::{
    asked_changes_are_steps, changes_are_of_one_block, changes_join, counters_are_bounded,
    counters_are_ordered, counters_rise, families_have_lines, families_keep_counters,
    families_move, few_changes_wrap_none, groups_are_groups, laws_have_instances, lines_and_groups,
    moves_are_of_one_family, no_point_twice, roots_keep_counters,
};

#[cfg(test)]
mod tests;
