use asc_base::{Leaf, Rates};

/// The public part of a configuration, with which a trace begins.
#[derive(Clone, Copy, Debug, PartialEq, Eq)]
pub struct Header {
    /// The level of the tree's leaves: 1 to 20.
    pub levels: u32,
    /// The rates, in cycles: 1, 2, 4, 8 or 16 strictly rising numbers, 64 to 1,048,576.
    pub rates: Rates,
    /// The place of the first rate in the list: below the number of rates.
    pub first: u32,
    /// The cycles of the first epoch: from a slot's length plus the greatest rate to 268,435,456.
    pub epoch: u64,
    /// The bits that the choices of rates may tell: 0 to 60.
    pub leak: u32,
}

/// What is seen of a slot.
#[derive(Clone, Copy, Debug, PartialEq, Eq)]
pub struct Seen {
    /// The cycle at which it starts: at most 536,870,912.
    pub start: u64,
    /// Its leaf: one of the tree's.
    pub leaf: Leaf,
    /// How many moves are made in it: 1 to `2 * (levels + 1)`.
    pub moves: u32,
}

/// A trace: what is seen of a run.
#[derive(Debug, Drop)]
pub struct Trace {
    /// The public part of the configuration. Its rates are 0 from their `count` on.
    pub header: Header,
    /// The slots, in the order of their starts.
    pub accesses: Vec<Seen>,
    /// The cycle up to which the run is shown: at most 536,870,912.
    pub end: u64,
}
