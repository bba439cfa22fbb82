use crate::block::{Address, Counter, Message};

/// Want of memory.
#[derive(Clone, Copy, Debug, PartialEq, Eq)]
pub struct NoMemory;

/// Why a path or a block was refused.
#[derive(Clone, Copy, Debug, PartialEq, Eq)]
pub enum Evidence {
    /// A slot of a bucket isn't in the form of a slot.
    BadSlot {
        /// The bucket's number.
        bucket: u32,
        /// The slot's number, 0 to 3.
        slot: u32,
    },
    /// A slot holds an entry whose leaf doesn't have the bucket on its path.
    OffPath {
        /// The bucket's number.
        bucket: u32,
        /// The slot's number, 0 to 3.
        slot: u32,
    },
    /// A block was found twice.
    Doubled {
        /// The block's address.
        address: Address,
    },
    /// A block that was written wasn't found.
    Missing {
        /// The block's address.
        address: Address,
        /// The counter under which it was written.
        counter: Counter,
    },
    /// A block that was never written was found.
    Unexpected {
        /// The block's address.
        address: Address,
    },
    /// A block was found with another tag than that of its message.
    BadTag {
        /// The message: the address, its counter and the line that was found.
        message: Message,
        /// The tag that was found.
        found: [u8; 16],
        /// The tag of the message.
        computed: [u8; 16],
    },
}

/// Why the memory serves no more requests.
#[derive(Clone, Copy, Debug, PartialEq, Eq)]
pub enum Stop {
    /// The memory was altered.
    Integrity(Evidence),
    /// More entries stay in the stash than the settings allow.
    StashFull {
        /// The number of entries.
        held: u32,
    },
    /// No slot is left before the time of the settings.
    TimeUp {
        /// When the next slot would start, in cycles.
        at: u64,
    },
    /// The memory failed to read or to write.
    Device,
    /// Want of memory.
    NoMemory,
}
