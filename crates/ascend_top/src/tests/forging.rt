//! A memory that knows the key, and gives a needed block another line under a valid tag.

ghost use Rattle.std.specs.Prelude.{◌≡◌, ◌<◌, ◌^◌, None};
ghost use Rattle.asc_outside.specs.Memories.{no_buckets};
ghost use Rattle.bus_watch.specs.Log.{fresh_tap};

use super::running::report;
use super::*;
use asc_base::{Address, Counter, Entry, Line, Message, Point, Shape};
use asc_outside::{BUCKET_BYTES, Failed, MemStop};
use bucket_codec::Codec;
use bus_watch::{Event, Log};
use pmmac_tags::Tagger;

/// An honest memory, but that the first byte of line 1 is always `F` in what it gives.
#[derive(Drop)]
struct Forging {
    memory: HonestMemory,
    codec: Codec,
    tagger: Tagger,
    shape: Shape,
}

impl Forging {
    /// A memory without buckets, which knows this key and the tree's shape.
    fn new(alloc: Global, key: &[u8; 32], shape: Shape) -> Forging
        ensures { result.memory ≡ no_buckets }
    {
        Forging {
            memory: HonestMemory::new(alloc),
            codec: Codec::new(key),
            tagger: Tagger::new(key),
            shape,
        }
    }

    /// The counter of an entry's tag, where its block was accessed eight times at most.
    fn counter(&self, entry: &Entry) -> Option<Counter> {
        for own in 1..=8u16 {
            let counter = Counter { group: 0, own };
            let message = Message {
                address: entry.address,
                counter,
                line: entry.line,
            };
            if self.tagger.holds(&message, &entry.tag) {
                return Some(counter);
            }
        }
        None
    }

    /// An entry of line 1 with `F` for its first byte, and the tag of that line.
    fn forged(&self, entry: Entry) -> Entry {
        if entry.address != Address(1) {
            return entry;
        }
        let Some(counter) = self.counter(&entry) else {
            return entry;
        };
        let mut line = entry.line;
        line.0[0] = b'F';
        let tag = self.tagger.tag(&Message {
            address: entry.address,
            counter,
            line,
        });
        Entry { line, tag, ..entry }
    }

    /// Forges what a bucket has of line 1, and seals it under the seed that it had.
    fn forge(&self, bytes: &mut [u8; BUCKET_BYTES]) {
        let mut first = [0u8; 8];
        first.copy_from_slice(&bytes[..8]);
        let seed = u64::from_be_bytes(first);
        let Ok(mut slots) = self.codec.open(bytes, &self.shape) else {
            return;
        };
        if seed == 0 {
            return;
        }
        for place in 0..4usize {
            if let Some(entry) = slots[place] {
                slots[place] = Some(self.forged(entry));
            }
        }
        self.codec.seal(seed, &slots, bytes);
    }
}

impl UntrustedMemory for Forging {
    ghost use Rattle.asc_outside.specs.Memories.{told_by_buckets};

    // it keeps its buckets to itself
    ghost state = { λ m. record (told_by_buckets m.memory) { told = None } };

    fn prepare(&mut self, buckets: u32) -> Result<(), MemStop> {
        self.memory.prepare(buckets)
    }

    fn read(
        &mut self,
        time: u64,
        bucket: u32,
        into: &mut [u8; BUCKET_BYTES],
    ) -> Result<(), Failed> {
        match self.memory.read(time, bucket, into) {
            Ok(()) => {}
            Err(failed) => return Err(failed),
        }
        self.forge(into);
        Ok(())
    }

    fn write(&mut self, time: u64, bucket: u32, bytes: &[u8; BUCKET_BYTES]) -> Result<(), MemStop> {
        self.memory.write(time, bucket, bytes)
    }
}

/// The message has the point that was drawn last.
fn is_last_drawn(events: &[Event], message: &Message) -> bool {
    let mut last = None;
    for event in events {
        if let Event::Drawn { point, .. } = event {
            last = Some(*point);
        }
    }
    last == Some(Point::Real(message.address, message.counter))
}

/// The message's address and line and this tag are in a slot of a reply that was altered before so many events.
fn stood(
    log: &Log,
    codec: &Codec,
    shape: &Shape,
    events: u64,
    message: &Message,
    tag: &[u8; 16],
) -> bool {
    for reply in &log.altered {
        if reply.before > events {
            continue;
        }
        let Ok(slots) = codec.open(&reply.bytes, shape) else {
            continue;
        };
        for entry in slots.iter().flatten() {
            if (entry.address, entry.line, entry.tag) == (message.address, message.line, *tag) {
                return true;
            }
        }
    }
    false
}

/// The messages that a log shows as forged, in order, where the memory has this key and shape: accepted under the point
/// drawn last and with a valid tag, never tagged before, and in a slot of an altered reply before.
///
/// These are the four parts of `Forgery` of oram_contents, one by one. Nothing is proved of this search: that it finds
/// what the definition says is only tested, by the two runs below.
fn forgeries(
    alloc: Global,
    key: &[u8; 32],
    shape: &Shape,
    log: &Log,
) -> Result<Vec<Message>, AllocError> {
    let (codec, tagger) = (Codec::new(key), Tagger::new(key));
    let events = log.events.as_slice();
    let mut found = Vec::new(alloc);
    for place in 0..events.len() {
        if let Event::Accepted { message, tag } = events[place] {
            let earlier = &events[..place];
            if !earlier.contains(&Event::Tagged { message })
                && is_last_drawn(earlier, &message)
                && tagger.holds(&message, &tag)
                && stood(log, &codec, shape, place as u64, &message, &tag)
            {
                found.push(message)?;
            }
        }
    }
    Ok(found)
}

/// The first bytes of what the fetches of line 1 were answered, in order.
fn answers(alloc: Global, log: &Log) -> Result<Vec<u8>, AllocError> {
    let mut bytes = Vec::new(alloc);
    for event in &log.events {
        if let Event::Answered { line: 1, value } = event {
            bytes.push(value.0[0])?;
        }
    }
    Ok(bytes)
}

/// Stores `S` at 64, loads it, stores the next letter behind it, writes the two, and exits. Each access of line 1 lets
/// the line of the code go from a cache of one line, and the code's next word lets line 1 go.
const STORE: [u32; 13] = [
    0x0530_0293, // addi x5, x0, 83
    0x0450_0023, // sb x5, 64(x0)
    0x0400_4303, // lbu x6, 64(x0)
    0x0013_0313, // addi x6, x6, 1
    0x0460_00a3, // sb x6, 65(x0)
    0x0010_0513, // addi x10, x0, 1
    0x0400_0593, // addi x11, x0, 64
    0x0020_0613, // addi x12, x0, 2
    0x0400_0893, // addi x17, x0, 64
    0x0000_0073, // ecall
    0x0000_0513, // addi x10, x0, 0
    0x05d0_0893, // addi x17, x0, 93
    0x0000_0073, // ecall
];

/// Settings of 4,096 bytes at 0 and a cache of one line.
const LINE: &str = "run elf=a key=k output=o size=4096 sets=1 ways=1 first=0";

/// Runs `STORE` over a memory, and compares the output, the number of altered replies, and the first bytes that the
/// fetches of line 1 were answered: those of the first store, the load, the second store and the write. There are
/// twelve slots, of a position-map block, the store of line 0, two stores of line 1 and four fetches of either line;
/// the last one ends at 256 + 11 * 752 + 496, and then come two steps of one cycle and one of ten.
fn store_over<R: Abort, M: UntrustedMemory>(
    rt: &R,
    alloc: Global,
    memory: &mut M,
    tap: &mut Recorder,
    altered: u64,
    answered: &str,
    output: &str,
) -> Result<(), Fail>
    requires fresh { (M.state memory.old).count ≡ 0 }
    requires moved { (M.state memory.old).moved < 2 ^ 62 }
    requires tap { tap.old ≡ fresh_tap }
{
    let file = elf_at(alloc, 0, &STORE, "")?;
    let mut host = host(alloc, &[], file.as_slice())?;
    let numbers = [13, 9_036, 9_036, 8, 12, 0, 0, 0, altered];
    let printed = report(alloc, "exit 0", numbers)?;
    compare_over(
        rt,
        alloc,
        LINE,
        &mut host,
        memory,
        tap,
        0,
        &printed,
        Some(output),
    )?;
    assert!(rt; answers(alloc, tap.log())?.as_slice() == answered.as_bytes());
    Ok(())
}

#[test]
fn stored_lines_are_loaded(rt: HostRuntime) -> Result<(), Fail> {
    let alloc = rt.alloc();
    let shape = Shape::new(64, 16).ok_or("shape")?;
    let mut memory = HonestMemory::new(alloc);
    let mut tap = Recorder::new(alloc);
    store_over(&rt, alloc, &mut memory, &mut tap, 0, "\0SSS", "ST")?;
    assert!(rt; forgeries(alloc, &[7; 32], &shape, tap.log())?.is_empty());
    Ok(())
}

/// The line is forged after its first access, which leaves zeros, and after the store: these two were never tagged. The
/// load puts the second one back under a tag of its own. The core computes on the forged line, which the log says that
/// the load was answered.
#[test]
fn forged_lines_are_loaded(rt: HostRuntime) -> Result<(), Fail> {
    let alloc = rt.alloc();
    let shape = Shape::new(64, 16).ok_or("shape")?;
    let mut memory = Forging::new(alloc, &[7; 32], shape);
    let mut tap = Recorder::new(alloc);
    store_over(&rt, alloc, &mut memory, &mut tap, 2, "\0FFF", "FG")?;
    let mut line = Line([0; 64]);
    line.0[0] = b'F';
    let found = forgeries(alloc, &[7; 32], &shape, tap.log())?;
    for (place, own) in [(0, 1), (1, 2)] {
        let message = Message {
            address: Address(1),
            counter: Counter { group: 0, own },
            line,
        };
        assert!(rt; found.get(place) == Some(&message), "{place}");
    }
    assert!(rt; found.len() == 2);
    Ok(())
}
