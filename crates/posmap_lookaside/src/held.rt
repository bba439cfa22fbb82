use asc_base::{Address, Counter};
use posmap_counters::Group;

/// A position-map block that is held on chip.
#[derive(Clone, Copy, Debug, PartialEq, Eq)]
pub struct Held {
    /// The block's address.
    pub address: Address,
    /// The block's own counter.
    pub counter: Counter,
    /// The counters of its children.
    pub group: Group,
}
