ghost use Rattle.std.specs.Prelude.{◌≡◌, ◌<◌, ◌≤◌, ◌+◌, OnOk, OnErr, length, slice_set};
ghost use Rattle.asc_outside.specs.Memory.{zero_buckets};
ghost use Rattle.bus_watch.specs.Log.{TapState, with_move, with_event, with_reply};

use crate::log::{Event, Move};
use asc_base::NoMemory;
use asc_outside::BUCKET_BYTES;

/// A tap on the memory bus. It is told of each move, event, reply and write, and gives nothing back but want of memory.
///
/// It means a log, a mirror of the memory, which has each bucket as last written and zero bytes before, and how many
/// moves and events it can still note without memory.
pub trait Watch {
    /// The log, the mirror and the room.
    ghost state: { Self → TapState };

    /// Makes a mirror of so many buckets of zero bytes, and room for so many moves and events. After want of memory
    /// all is as before.
    fn prepare(&mut self, buckets: u32, moves: u64, events: u64) -> Result<(), NoMemory>
        ensures log { (state self.new).log ≡ (state self.old).log }
        ensures mirror { OnOk result ((state self.new).mirror ≡ zero_buckets buckets) }
        ensures moves { OnOk result (moves ≤ (state self.new).spare_moves) }
        ensures events { OnOk result (events ≤ (state self.new).spare_events) }
        ensures err { OnErr result (state self.new ≡ state self.old) };

    /// Notes a move as the last one.
    fn moved(&mut self, at: Move)
        requires { 0 < (state self.old).spare_moves }
        ensures log { (state self.new).log ≡ with_move (state self.old).log at }
        ensures mirror { (state self.new).mirror ≡ (state self.old).mirror }
        ensures spare { (state self.old).spare_moves ≤ (state self.new).spare_moves + 1 }
        ensures events { (state self.new).spare_events ≡ (state self.old).spare_events };

    /// Notes an event as the last one.
    fn note(&mut self, event: Event)
        requires { 0 < (state self.old).spare_events }
        ensures log { (state self.new).log ≡ with_event (state self.old).log event }
        ensures mirror { (state self.new).mirror ≡ (state self.old).mirror }
        ensures spare { (state self.old).spare_events ≤ (state self.new).spare_events + 1 }
        ensures moves { (state self.new).spare_moves ≡ (state self.old).spare_moves };

    /// Compares a reply with the mirror, and notes one that differs. After want of memory all is as before.
    fn replied(
        &mut self,
        time: u64,
        bucket: u32,
        bytes: &[u8; BUCKET_BYTES],
    ) -> Result<(), NoMemory>
        requires { bucket < length (state self.old).mirror }
        ensures log { OnOk result ((state self.new).log
            ≡ with_reply (state self.old).log (state self.old).mirror time bucket bytes.now) }
        ensures mirror { (state self.new).mirror ≡ (state self.old).mirror }
        ensures moves { (state self.new).spare_moves ≡ (state self.old).spare_moves }
        ensures events { (state self.new).spare_events ≡ (state self.old).spare_events }
        ensures err { OnErr result ((state self.new).log ≡ (state self.old).log) };

    /// Changes a bucket of the mirror. After want of memory all is as before.
    fn written(&mut self, bucket: u32, bytes: &[u8; BUCKET_BYTES]) -> Result<(), NoMemory>
        requires { bucket < length (state self.old).mirror }
        ensures log { (state self.new).log ≡ (state self.old).log }
        ensures mirror { OnOk result ((state self.new).mirror ≡ slice_set (state self.old).mirror bucket bytes.now) }
        ensures moves { (state self.new).spare_moves ≡ (state self.old).spare_moves }
        ensures events { (state self.new).spare_events ≡ (state self.old).spare_events }
        ensures err { OnErr result ((state self.new).mirror ≡ (state self.old).mirror) };
}
