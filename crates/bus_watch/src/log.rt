use asc_base::{Leaf, Line, Message, Point};
use asc_outside::BUCKET_BYTES;

/// A read or write of a bucket.
#[derive(Clone, Copy, Debug, PartialEq, Eq)]
pub struct Move {
    /// The cycle of the move.
    pub time: u64,
    /// Whether it is a write.
    pub write: bool,
    /// The bucket's number.
    pub bucket: u32,
}

/// What is noted of the accesses of the memory, slot by slot.
#[derive(Clone, Copy, Debug, PartialEq, Eq)]
pub enum Event {
    /// A slot starts.
    Access {
        /// The cycle at which it starts.
        start: u64,
        /// The cycle at which it was asked for; None of a dummy.
        asked: Option<u64>,
    },
    /// A leaf is drawn for a point.
    Drawn {
        /// The point.
        point: Point,
        /// Its leaf.
        leaf: Leaf,
    },
    /// A block is put back under a tag of this message.
    Tagged {
        /// The block's address, counter and line.
        message: Message,
    },
    /// A block was found, and its tag holds.
    Accepted {
        /// The block's address, counter and line.
        message: Message,
        /// The tag that was found.
        tag: [u8; 16],
    },
    /// A rate is chosen.
    Chosen {
        /// Its index in the list of rates.
        index: u32,
    },
    /// A fetch is answered.
    Answered {
        /// The number of the data line.
        line: u32,
        /// Its bytes.
        value: Line,
    },
}

/// A reply of the memory that differs from what was last written to its bucket.
#[derive(Clone, Copy, Debug, PartialEq, Eq)]
pub struct Altered {
    /// The cycle of the read.
    pub time: u64,
    /// The bucket's number.
    pub bucket: u32,
    /// What the memory gave.
    pub bytes: [u8; BUCKET_BYTES],
    /// How many events were noted before.
    pub before: u64,
}

/// All that a tap notes, each list in order.
#[derive(Drop)]
pub struct Log {
    /// The moves.
    pub moves: Vec<Move>,
    /// The events.
    pub events: Vec<Event>,
    /// The replies that differ.
    pub altered: Vec<Altered>,
}
