//! A memory that alters one of its replies.

ghost use Rattle.std.specs.Prelude.{◌≡◌, None};
ghost use Rattle.asc_outside.specs.Memories.{no_buckets};

use asc_outside::{BUCKET_BYTES, Failed, HonestMemory, MemStop, UntrustedMemory};
use std::alloc::Global;

/// What is altered. Replies are numbered from 1.
#[derive(Clone, Copy, Debug, PartialEq, Eq)]
pub(crate) enum Change {
    /// A bit of a reply, by its number from the first byte's lowest on.
    Flip { number: u64, bit: usize },
    /// The seed of a reply, which becomes 0.
    Blank { number: u64 },
    /// The first reply from a number on that is of the same bucket as an earlier one, which is given in its place.
    Replay { number: u64, from: u64 },
    /// A reply, in whose place an earlier one is given, whatever its bucket.
    Swap { number: u64, at: u64 },
}

/// An honest memory, but for one reply.
#[derive(Drop)]
pub(crate) struct Altering {
    memory: HonestMemory,
    change: Change,
    replies: u64,
    kept: Option<[u8; BUCKET_BYTES]>,
    bucket: u32,
}

impl Altering {
    /// A memory without buckets, with a change to come.
    pub(crate) fn new(alloc: Global, change: Change) -> Altering
        ensures { result.memory ≡ no_buckets }
    {
        Altering {
            memory: HonestMemory::new(alloc),
            change,
            replies: 0,
            kept: None,
            bucket: 0,
        }
    }

    /// Alters the next reply, where that is the change.
    fn alter(&mut self, bucket: u32, reply: &mut [u8; BUCKET_BYTES])
        ensures { self.new.memory ≡ self.old.memory }
    {
        self.replies = self.replies.wrapping_add(1);
        match self.change {
            Change::Flip { number, bit } => {
                if self.replies == number && bit / 8 < BUCKET_BYTES {
                    reply[bit / 8] ^= 1u8 << (bit % 8);
                }
            }
            Change::Blank { number } => {
                if self.replies == number {
                    for place in 0..8usize {
                        reply[place] = 0;
                    }
                }
            }
            Change::Replay { number, from } => {
                let due = self.replies >= from && self.bucket == bucket;
                self.exchange(number, due, bucket, reply);
            }
            Change::Swap { number, at } => {
                let due = self.replies == at;
                self.exchange(number, due, bucket, reply);
            }
        }
    }

    /// Keeps the reply of a number, or gives what was kept where it is due, once.
    fn exchange(&mut self, number: u64, due: bool, bucket: u32, reply: &mut [u8; BUCKET_BYTES])
        ensures { self.new.memory ≡ self.old.memory }
    {
        if self.replies == number {
            self.kept = Some(*reply);
            self.bucket = bucket;
            return;
        }
        if let (true, Some(kept)) = (due, self.kept) {
            *reply = kept;
            self.kept = None;
        }
    }
}

impl UntrustedMemory for Altering {
    ghost use Rattle.asc_outside.specs.Memories.{told_by_buckets};

    // it keeps its buckets to itself
    ghost state = { λ m. record (told_by_buckets m.memory) { told = None } };

    fn prepare(&mut self, buckets: u32) -> Result<(), MemStop> {
        self.memory.prepare(buckets)
    }

    fn read(
        &mut self,
        time: u64,
        bucket: u32,
        into: &mut [u8; BUCKET_BYTES],
    ) -> Result<(), Failed> {
        match self.memory.read(time, bucket, into) {
            Ok(()) => {}
            Err(failed) => return Err(failed),
        }
        self.alter(bucket, into);
        Ok(())
    }

    fn write(&mut self, time: u64, bucket: u32, bytes: &[u8; BUCKET_BYTES]) -> Result<(), MemStop> {
        self.memory.write(time, bucket, bytes)
    }
}
