/// The number of a block: first the data lines, then each layer of position-map blocks.
#[derive(Clone, Copy, Debug, PartialEq, Eq, PartialOrd, Ord, Hash)]
pub struct Address(pub u32);

/// A leaf of the tree, counted from the left. It stands for the path from the root to it.
#[derive(Clone, Copy, Debug, PartialEq, Eq)]
pub struct Leaf(pub u32);

/// The 64 bytes of a block.
#[derive(Clone, Copy, Debug, PartialEq, Eq)]
pub struct Line(pub [u8; 64]);

/// How often a block was accessed: the count of its group, and its own count since the group's last rise.
#[derive(Clone, Copy, Debug, PartialEq, Eq)]
pub struct Counter {
    /// The count that the children of one position-map block share.
    pub group: u64,
    /// The block's own count.
    pub own: u16,
}

/// For what a leaf is drawn: a block under one counter, or a dummy slot.
#[derive(Clone, Copy, Debug, PartialEq, Eq)]
pub enum Point {
    /// The block of this address under this counter.
    Real(Address, Counter),
    /// The dummy slot of this number, from 0 on.
    Dummy(u64),
}

/// What a tag authenticates: a block's address, its counter and its line.
#[derive(Clone, Copy, Debug, PartialEq, Eq)]
pub struct Message {
    /// The block's address.
    pub address: Address,
    /// The counter under which the line was put.
    pub counter: Counter,
    /// The block's bytes.
    pub line: Line,
}

/// A block as it is kept in a bucket or in the stash.
#[derive(Clone, Copy, Debug, PartialEq, Eq)]
pub struct Entry {
    /// The block's address.
    pub address: Address,
    /// The leaf on whose path the block is.
    pub leaf: Leaf,
    /// The block's bytes.
    pub line: Line,
    /// The tag of the block's message.
    pub tag: [u8; 16],
}
