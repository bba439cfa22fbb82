//! What every layer of the processor speaks of: the types of blocks, counters and points, the shape of the tree,
//! the settings, and why a run stops.
#![tactic(auto)]

mod block;
mod byte_laws;
mod laws;
mod lookup_laws;
mod settings;
mod shape;
mod stop;

pub use block::{Address, Counter, Entry, Leaf, Line, Message, Point};
pub use byte_laws::{bytes_by_place, bytes_tell_numbers};
pub use laws::{
    blocks_in_one_layer, configs_have_sixteen_rates, families_are_ordered, families_in_shapes,
    laws_have_instances, levels_greatest, parents_and_children, path_rises, paths_share,
    shapes_are_small, top_layer_first,
};
pub use lookup_laws::{
    first_is_changed, first_is_promoted, first_is_taken_out, items_stand_in_lists,
};
pub use settings::{Config, Rates, Setting, Settings, WideRates};
pub use shape::{MOVE_CYCLES, Shape, TURN_CYCLES};
pub use stop::{Evidence, NoMemory, Stop};

#[cfg(test)]
mod tests;
