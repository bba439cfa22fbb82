ghost use Rattle.std.specs.Prelude.{◌≡◌, ◌<◌, ◌≤◌, ◌+◌, ◌^◌, OnOk, OnErr, length, slice_set, [], ◌∷◌};
ghost use Rattle.bus_watch.specs.Log.{read_move, write_move, with_move, with_reply, with_event};
ghost use Rattle.bus_watch.specs.Made.{Ran};
ghost use Rattle.bus_watch.specs.Prepared.{IsPrepared};
ghost use Rattle.bus_watch.specs.RunEnd.{Whole, end_of};
ghost use Rattle.bus_watch.specs.Same.{IsSameBus};

use crate::log::{Event, Move};
use crate::watch::Watch;
use asc_base::NoMemory;
use asc_outside::{BUCKET_BYTES, Failed, MemStop, UntrustedMemory};

/// Why a call of the bus stops.
#[derive(Clone, Copy, Debug, PartialEq, Eq)]
pub enum BusStop {
    /// The memory failed, and its count of faults rose.
    Device,
    /// There is no memory, for the memory's buckets or for the tap.
    NoMemory,
}

/// A memory beside its tap: each read and write of the bus notes its move, and asks the memory once.
///
/// Contracts see a bus as its memory and its tap, so both fields are public. A caller that asks one of them itself goes
/// around the bus, and nothing is said of it here.
#[derive(Drop)]
pub struct Bus<'b, M: UntrustedMemory, W: Watch> {
    /// The memory that is asked.
    pub memory: &'b mut M,
    /// The tap that notes.
    pub tap: &'b mut W,
}

impl<'b, M: UntrustedMemory, W: Watch> Bus<'b, M, W> {
    /// A bus over this memory and this tap.
    pub fn new(memory: &'b mut M, tap: &'b mut W) -> Bus<'b, M, W>
        ensures same_memory { result.memory.ghost_name ≡ memory.entry.ghost_name }
        ensures same_tap { result.tap.ghost_name ≡ tap.entry.ghost_name }
        ensures memory { result.memory.now ≡ memory.old }
        ensures tap { result.tap.now ≡ tap.old }
    {
        Bus { memory, tap }
    }

    /// Prepares memory and tap, once: buckets of zero bytes, and room for the moves and events of so many accesses,
    /// which are `2 * (levels + 1)` and 6 of each.
    ///
    /// `Device` only where the memory's count of faults rose. After a refusal of the memory's own, the buckets that it
    /// told are as before, or are told no more. Where it was the tap that had no memory, they are of zero bytes.
    pub fn prepare(&mut self, buckets: u32, levels: u32, accesses: u64) -> Result<(), BusStop>
        requires fresh { (M.state self.old.memory.now).count ≡ 0 }
        requires some { 0 < buckets }
        requires levels { levels ≤ 20 }
        requires accesses { accesses < 2 ^ 40 }
        ensures same { IsSameBus self.old self.new }
        ensures prepared { IsPrepared result buckets levels accesses
            (M.state self.old.memory.now) (M.state self.new.memory.now)
            (W.state self.old.tap.now) (W.state self.new.tap.now) }
    {
        match self.memory.prepare(buckets) {
            Ok(()) => {}
            Err(MemStop::Failed) => return Err(BusStop::Device),
            Err(MemStop::NoMemory) => return Err(BusStop::NoMemory),
        }
        let per_access = 2 * (levels as u64 + 1);
        match self
            .tap
            .prepare(buckets, per_access * accesses, 6 * accesses)
        {
            Ok(()) => Ok(()),
            Err(NoMemory) => Err(BusStop::NoMemory),
        }
    }

    /// Reads a bucket, at this time in cycles. On every answer the move is noted, and the memory was asked once.
    ///
    /// An Ok gives the reply, which the tap notes where it isn't the bucket of the mirror. `Device` only where the
    /// memory's count of faults rose.
    pub fn read(
        &mut self,
        time: u64,
        bucket: u32,
        into: &mut [u8; BUCKET_BYTES],
    ) -> Result<(), BusStop>
        requires within { bucket < (M.state self.old.memory.now).count }
        requires mirrored { bucket < length (W.state self.old.tap.now).mirror }
        requires asked { (M.state self.old.memory.now).moved < 2 ^ 63 }
        requires room { 0 < (W.state self.old.tap.now).spare_moves }
        ensures ran { Ran M.state W.state (end_of result) (read_move time bucket ∷ []) [] self.old self.new }
        ensures mirror { (W.state self.new.tap.now).mirror ≡ (W.state self.old.tap.now).mirror }
        ensures events { (W.state self.new.tap.now).spare_events ≡ (W.state self.old.tap.now).spare_events }
        ensures log { OnOk result ((W.state self.new.tap.now).log
            ≡ with_reply (with_move (W.state self.old.tap.now).log (read_move time bucket))
            (W.state self.old.tap.now).mirror time bucket into.new) }
        ensures log_err { OnErr result ((W.state self.new.tap.now).log
            ≡ with_move (W.state self.old.tap.now).log (read_move time bucket)) }
    {
        let read = Move {
            time,
            write: false,
            bucket,
        };
        self.tap.moved(read);
        match self.memory.read(time, bucket, into) {
            Ok(()) => {}
            Err(Failed) => return Err(BusStop::Device),
        }
        match self.tap.replied(time, bucket, into) {
            Ok(()) => Ok(()),
            Err(NoMemory) => Err(BusStop::NoMemory),
        }
    }

    /// Writes a bucket, at this time in cycles. On every answer the move is noted, and the memory was asked once.
    ///
    /// An Ok changes this one bucket of the mirror. `Device` only where the memory's count of faults rose.
    pub fn write(
        &mut self,
        time: u64,
        bucket: u32,
        bytes: &[u8; BUCKET_BYTES],
    ) -> Result<(), BusStop>
        requires within { bucket < (M.state self.old.memory.now).count }
        requires mirrored { bucket < length (W.state self.old.tap.now).mirror }
        requires asked { (M.state self.old.memory.now).moved < 2 ^ 63 }
        requires room { 0 < (W.state self.old.tap.now).spare_moves }
        ensures ran { Ran M.state W.state (end_of result) (write_move time bucket ∷ []) [] self.old self.new }
        ensures mirror { OnOk result ((W.state self.new.tap.now).mirror
            ≡ slice_set (W.state self.old.tap.now).mirror bucket bytes.now) }
        ensures mirror_err { OnErr result ((W.state self.new.tap.now).mirror ≡ (W.state self.old.tap.now).mirror) }
        ensures events { (W.state self.new.tap.now).spare_events ≡ (W.state self.old.tap.now).spare_events }
        ensures log { (W.state self.new.tap.now).log
            ≡ with_move (W.state self.old.tap.now).log (write_move time bucket) }
    {
        let write = Move {
            time,
            write: true,
            bucket,
        };
        self.tap.moved(write);
        match self.memory.write(time, bucket, bytes) {
            Ok(()) => {}
            Err(MemStop::Failed) => return Err(BusStop::Device),
            Err(MemStop::NoMemory) => return Err(BusStop::NoMemory),
        }
        match self.tap.written(bucket, bytes) {
            Ok(()) => Ok(()),
            Err(NoMemory) => Err(BusStop::NoMemory),
        }
    }

    /// Notes an event.
    pub fn note(&mut self, event: Event)
        requires { 0 < (W.state self.old.tap.now).spare_events }
        ensures ran { Ran M.state W.state Whole [] (event ∷ []) self.old self.new }
        ensures memory { self.new.memory.now ≡ self.old.memory.now }
        ensures mirror { (W.state self.new.tap.now).mirror ≡ (W.state self.old.tap.now).mirror }
        ensures log { (W.state self.new.tap.now).log ≡ with_event (W.state self.old.tap.now).log event }
        ensures spare { (W.state self.old.tap.now).spare_events ≤ (W.state self.new.tap.now).spare_events + 1 }
        ensures moves { (W.state self.new.tap.now).spare_moves ≡ (W.state self.old.tap.now).spare_moves }
    {
        self.tap.note(event);
    }
}
