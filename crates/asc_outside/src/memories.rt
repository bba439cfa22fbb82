//! The memories of runs and tests.

ghost use Rattle.std.specs.Prelude.{◌≡◌, ℕ, ◌≤◌, ◌<◌, ◌^◌, true, false, [], length, map, slice_get, option_map};
ghost use Rattle.std.specs.Prelude.{None, Some, IfOk, IfErr, IfSome, OnOk, OnErr, IsOk, IsOkUnless, IsErrOf};

use crate::memory::{BUCKET_BYTES, Failed, MemStop, UntrustedMemory, empty_bucket};
use std::alloc::Global;
use std::marker::Model;

/// A memory that gives what was written. It tells its buckets, and never fails.
#[derive(Drop)]
pub struct HonestMemory {
    buckets: Vec<[u8; BUCKET_BYTES]>,
    count: u32,
    moved: u64,
}

impl Model for HonestMemory {
    ghost use Rattle.std.specs.Prelude.{◌≤◌, vec_len};
    ghost use Rattle.asc_outside.specs.Memories.{BucketsState};

    ghost Value = { BucketsState };

    ghost use Rattle.asc_outside.specs.MemoriesView.{honest_view};

    ghost view = { honest_view };

    // a refused growth leaves fewer buckets than were asked
    ghost invariant = { λ m. vec_len m.buckets ≤ m.count };
}

impl HonestMemory {
    ghost use Rattle.asc_outside.specs.Memories.{no_buckets};

    /// A memory without buckets.
    pub fn new(alloc: Global) -> HonestMemory
        ensures { result ≡ no_buckets }
    {
        HonestMemory {
            buckets: Vec::new(alloc),
            count: 0,
            moved: 0,
        }
    }
}

impl UntrustedMemory for HonestMemory {
    ghost use Rattle.asc_outside.specs.Memory.{Keeps};
    ghost use Rattle.asc_outside.specs.Memories.{told_by_buckets, after_prepare, after_move, after_write};

    ghost state = { told_by_buckets };

    fn prepare(&mut self, buckets: u32) -> Result<(), MemStop>
        requires fresh { self.old.count ≡ 0 }
        requires some { 0 < buckets }
        ensures only_memory { IsOkUnless result MemStop.NoMemory }
        ensures after { OnOk result (self.new ≡ after_prepare self.old buckets) }
        ensures kept { OnErr result (Keeps self.old.buckets self.new.buckets) }
        ensures err { OnErr result (self.new ≡ record self.old { count = buckets; buckets = self.new.buckets }) }
    {
        self.count = buckets;
        match self.buckets.resize(buckets as usize, empty_bucket()) {
            Ok(()) => Ok(()),
            Err(_) => Err(MemStop::NoMemory),
        }
    }

    fn read(&mut self, _time: u64, bucket: u32, into: &mut [u8; BUCKET_BYTES]) -> Result<(), Failed>
        requires within { bucket < self.old.count }
        requires spare { self.old.moved < 2 ^ 63 }
        ensures ok { IsOk result }
        ensures bytes { IfSome self.old.buckets (λ all. slice_get all bucket ≡ Some into.new) }
        ensures after { self.new ≡ after_move self.old }
    {
        self.moved += 1;
        if self.buckets.len() == self.count as usize {
            *into = self.buckets[bucket as usize];
        }
        Ok(())
    }

    fn write(&mut self, _time: u64, bucket: u32, bytes: &[u8; BUCKET_BYTES]) -> Result<(), MemStop>
        requires within { bucket < self.old.count }
        requires spare { self.old.moved < 2 ^ 63 }
        ensures ok { IsOk result }
        ensures after { self.new ≡ after_write self.old bucket bytes.now }
    {
        self.moved += 1;
        if self.buckets.len() == self.count as usize {
            self.buckets[bucket as usize] = *bytes;
        }
        Ok(())
    }
}

/// A memory that gives what was written, but for its moves with listed numbers, counted from 1: these fail, and change
/// no bucket. It tells its buckets.
#[derive(Drop)]
pub struct FaultyMemory {
    memory: HonestMemory,
    failing: Vec<u64>,
    moved: u64,
    faults: u64,
}

impl Model for FaultyMemory {
    ghost use Rattle.std.specs.Prelude.{◌≤◌, ◌≡◌, ◌+◌};
    ghost use Rattle.asc_outside.specs.Memories.{FaultyState};

    ghost Value = { FaultyState };

    ghost use Rattle.asc_outside.specs.MemoriesView.{faulty_view};

    ghost view = { faulty_view };

    // each fault was a move, which the memory below wasn't asked
    ghost invariant = { λ m. m.faults + m.memory.moved ≡ m.moved };
}

impl FaultyMemory {
    ghost use Rattle.asc_outside.specs.Memories.{no_buckets, after_failure, next_move_fails};

    /// A memory without buckets, whose moves with these numbers fail.
    pub fn new(alloc: Global, failing: Vec<u64>) -> FaultyMemory
        ensures { result ≡ record { memory = no_buckets; failing = failing.items } }
    {
        FaultyMemory {
            memory: HonestMemory::new(alloc),
            failing,
            moved: 0,
            faults: 0,
        }
    }

    fn next_fails(&self) -> bool
        requires { self.now.memory.moved < 2 ^ 63 }
        ensures { result ≡ next_move_fails self.now }
    {
        let number = self.moved + 1;
        self.failing.contains(&number)
    }

    fn fail(&mut self)
        requires { self.old.memory.moved < 2 ^ 63 }
        ensures { self.new ≡ record self.old { memory = after_failure self.old.memory } }
    {
        self.moved += 1;
        self.faults += 1;
    }
}

impl UntrustedMemory for FaultyMemory {
    ghost use Rattle.asc_outside.specs.Memory.{Keeps};
    ghost use Rattle.asc_outside.specs.Memories.{told_by_buckets, after_prepare, after_move, after_write};
    ghost use Rattle.asc_outside.specs.Memories.{after_failure, next_move_fails};

    ghost state = { λ m. told_by_buckets m.memory };

    fn prepare(&mut self, buckets: u32) -> Result<(), MemStop>
        requires fresh { self.old.memory.count ≡ 0 }
        requires some { 0 < buckets }
        ensures only_memory { IsOkUnless result MemStop.NoMemory }
        ensures after { OnOk result (self.new ≡ record self.old { memory = after_prepare self.old.memory buckets }) }
        ensures kept { OnErr result (Keeps self.old.memory.buckets self.new.memory.buckets) }
        ensures err { OnErr result (self.new ≡ record self.old {
          memory = record self.old.memory { count = buckets; buckets = self.new.memory.buckets };
        }) }
    {
        self.memory.prepare(buckets)
    }

    fn read(&mut self, time: u64, bucket: u32, into: &mut [u8; BUCKET_BYTES]) -> Result<(), Failed>
        requires within { bucket < self.old.memory.count }
        requires spare { self.old.memory.moved < 2 ^ 63 }
        ensures ok { OnOk result (next_move_fails self.old ≡ false) }
        ensures failed { OnErr result (next_move_fails self.old ≡ true) }
        ensures bytes { OnOk result (IfSome self.old.memory.buckets (λ all. slice_get all bucket ≡ Some into.new)) }
        ensures after { OnOk result (self.new ≡ record self.old { memory = after_move self.old.memory }) }
        ensures err { OnErr result (self.new ≡ record self.old { memory = after_failure self.old.memory }) }
    {
        if self.next_fails() {
            self.fail();
            return Err(Failed);
        }
        self.moved += 1;
        self.memory.read(time, bucket, into)
    }

    fn write(&mut self, time: u64, bucket: u32, bytes: &[u8; BUCKET_BYTES]) -> Result<(), MemStop>
        requires within { bucket < self.old.memory.count }
        requires spare { self.old.memory.moved < 2 ^ 63 }
        ensures ok { OnOk result (next_move_fails self.old ≡ false) }
        ensures failed { OnErr result (next_move_fails self.old ≡ true) }
        ensures only_failed { IsOkUnless result MemStop.Failed }
        ensures after { OnOk result
            (self.new ≡ record self.old { memory = after_write self.old.memory bucket bytes.now }) }
        ensures err { OnErr result (self.new ≡ record self.old { memory = after_failure self.old.memory }) }
    {
        if self.next_fails() {
            self.fail();
            return Err(MemStop::Failed);
        }
        self.moved += 1;
        self.memory.write(time, bucket, bytes)
    }
}

/// A move that was asked, and the bytes of a write that was answered Ok.
#[derive(Clone, Copy, Debug, PartialEq, Eq)]
struct Asked {
    time: u64,
    write: bool,
    bucket: u32,
    bytes: Option<[u8; BUCKET_BYTES]>,
}

/// A memory that answers its k-th read with the k-th of the replies that it was given, and fails exactly the reads past
/// the last one. It tells no buckets. It tells its moves and the answers of its reads as long as it was asked no more
/// moves than the number that it was made with, and after that neither.
#[derive(Drop)]
pub struct ScriptedMemory {
    replies: Vec<[u8; BUCKET_BYTES]>,
    reads: usize,
    count: u32,
    moved: u64,
    moves: usize,
    seen: Vec<Asked>,
    said: Vec<Option<[u8; BUCKET_BYTES]>>,
}

impl Model for ScriptedMemory {
    ghost use Rattle.asc_outside.specs.Memories.{ScriptedState};

    ghost Value = { ScriptedState };

    ghost use Rattle.asc_outside.specs.MemoriesView.{scripted_view, HasRoom};

    ghost view = { scripted_view };

    ghost invariant = { HasRoom };
}

impl ScriptedMemory {
    /// A memory with these replies, which tells its moves and answers until it is asked more than `moves` of them. Its
    /// only refusal is `NoMemory`.
    pub fn new(
        alloc: Global,
        replies: Vec<[u8; BUCKET_BYTES]>,
        moves: usize,
    ) -> Result<ScriptedMemory, MemStop>
        ensures only_memory { IsOkUnless result MemStop.NoMemory }
        ensures ok { IfOk result (λ m. m ≡ record {
          replies = replies.items;
          reads = 0;
          moved = 0;
          count = 0;
          moves = moves;
          seen = [];
          said = [];
        }) }
    {
        let Ok(seen) = Vec::with_capacity(alloc, moves) else {
            return Err(MemStop::NoMemory);
        };
        let Ok(said) = Vec::with_capacity(alloc, moves) else {
            return Err(MemStop::NoMemory);
        };
        Ok(ScriptedMemory {
            replies,
            reads: 0,
            count: 0,
            moved: 0,
            moves,
            seen,
            said,
        })
    }

    fn next_reply(&self) -> Option<[u8; BUCKET_BYTES]>
        ensures { result ≡ slice_get self.now.replies self.now.reads }
    {
        if self.reads < self.replies.len() {
            return Some(self.replies[self.reads]);
        }
        None
    }
}

impl UntrustedMemory for ScriptedMemory {
    ghost use Rattle.asc_outside.specs.Memories.{told_by_script, after_script_read, after_script_write};

    ghost state = { told_by_script };

    fn prepare(&mut self, buckets: u32) -> Result<(), MemStop>
        requires fresh { self.old.count ≡ 0 }
        requires some { 0 < buckets }
        ensures ok { IsOk result }
        ensures after { self.new ≡ record self.old { count = buckets } }
    {
        self.count = buckets;
        Ok(())
    }

    fn read(&mut self, time: u64, bucket: u32, into: &mut [u8; BUCKET_BYTES]) -> Result<(), Failed>
        requires within { bucket < self.old.count }
        requires spare { self.old.moved < 2 ^ 63 }
        ensures bytes { OnOk result (slice_get self.old.replies self.old.reads ≡ Some into.new) }
        ensures failed { OnErr result (slice_get self.old.replies self.old.reads ≡ None) }
        ensures after { self.new ≡ after_script_read self.old time bucket }
    {
        let reply = self.next_reply();
        self.reads += 1;
        if self.moved < self.moves as u64 {
            self.seen.push_reserved(Asked {
                time,
                write: false,
                bucket,
                bytes: None,
            });
            self.said.push_reserved(reply);
        }
        self.moved += 1;
        match reply {
            Some(bytes) => {
                *into = bytes;
                Ok(())
            }
            None => Err(Failed),
        }
    }

    fn write(&mut self, time: u64, bucket: u32, bytes: &[u8; BUCKET_BYTES]) -> Result<(), MemStop>
        requires within { bucket < self.old.count }
        requires spare { self.old.moved < 2 ^ 63 }
        ensures ok { IsOk result }
        ensures after { self.new ≡ after_script_write self.old time bucket bytes.now }
    {
        if self.moved < self.moves as u64 {
            self.seen.push_reserved(Asked {
                time,
                write: true,
                bucket,
                bytes: Some(*bytes),
            });
        }
        self.moved += 1;
        Ok(())
    }
}
