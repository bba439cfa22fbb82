ghost use Rattle.std.specs.Prelude.{◌≡◌, OnOk, OnErr, IsOk};

use crate::log::{Altered, Event, Log, Move};
use crate::watch::Watch;
use asc_base::NoMemory;
use asc_outside::{BUCKET_BYTES, empty_bucket};
use std::alloc::Global;
use std::marker::Model;

/// A tap that keeps all that it is told.
#[derive(Drop)]
pub struct Recorder {
    alloc: Global,
    log: Log,
    mirror: Vec<[u8; BUCKET_BYTES]>,
    spare_moves: usize,
    spare_events: usize,
}

impl Model for Recorder {
    ghost use Rattle.bus_watch.specs.Log.{TapState};

    ghost Value = { TapState };

    ghost use Rattle.bus_watch.specs.Recorder.{recorded, HasRoom};

    ghost view = { recorded };

    ghost invariant = { HasRoom };
}

impl Recorder {
    ghost use Rattle.bus_watch.specs.Log.{fresh_tap};
    ghost use Rattle.bus_watch.specs.Recorder.{lists_of};

    /// A tap that was told nothing, without room and without a mirror.
    pub fn new(alloc: Global) -> Recorder
        ensures { result ≡ fresh_tap }
    {
        Recorder {
            alloc,
            log: Log {
                moves: Vec::new(alloc),
                events: Vec::new(alloc),
                altered: Vec::new(alloc),
            },
            mirror: Vec::new(alloc),
            spare_moves: 0,
            spare_events: 0,
        }
    }

    /// All that was noted.
    pub fn log(&self) -> &Log
        ensures { lists_of result.now ≡ self.now.log }
    {
        &self.log
    }
}

impl Watch for Recorder {
    ghost state = { λ r. r };

    fn prepare(&mut self, buckets: u32, moves: u64, events: u64) -> Result<(), NoMemory> {
        let mut mirror = Vec::new(self.alloc);
        if mirror.resize(buckets as usize, empty_bucket()).is_err() {
            return Err(NoMemory);
        }
        if self.log.moves.reserve(moves as usize).is_err() {
            return Err(NoMemory);
        }
        if self.log.events.reserve(events as usize).is_err() {
            return Err(NoMemory);
        }
        self.mirror = mirror;
        self.spare_moves = moves as usize;
        self.spare_events = events as usize;
        Ok(())
    }

    fn moved(&mut self, at: Move) {
        self.spare_moves -= 1;
        self.log.moves.push_reserved(at);
    }

    fn note(&mut self, event: Event) {
        self.spare_events -= 1;
        self.log.events.push_reserved(event);
    }

    fn replied(
        &mut self,
        time: u64,
        bucket: u32,
        bytes: &[u8; BUCKET_BYTES],
    ) -> Result<(), NoMemory> {
        if self.mirror[bucket as usize] == *bytes {
            return Ok(());
        }
        let altered = Altered {
            time,
            bucket,
            bytes: *bytes,
            before: self.log.events.len() as u64,
        };
        match self.log.altered.push(altered) {
            Ok(()) => Ok(()),
            Err(_) => Err(NoMemory),
        }
    }

    fn written(&mut self, bucket: u32, bytes: &[u8; BUCKET_BYTES]) -> Result<(), NoMemory> {
        self.mirror[bucket as usize] = *bytes;
        Ok(())
    }
}
