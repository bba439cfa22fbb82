//! Rows over slots in memory, which refuse an access under any other counter than that of the block's last put.

ghost use Rattle.std.specs.Prelude.{◌≡◌, ◌≤◌, length, vec_len, IfOk};
ghost use Rattle.asc_base.specs.Settings.{IsConfig};

use crate::{Access, Front, Purpose, Seen, Slots};
use asc_base::{Address, Config, Counter, Evidence, Line, Message, Settings, Stop, WideRates};
use std::alloc::Global;
use std::process::Abort;
use std::test::Fail;

/// The cycles of an access, and from one to the next, on the small shape.
const CYCLES: u64 = 752;

/// The blocks that were put, the points of all accesses, and the end of the last.
#[derive(Drop)]
struct Memory {
    blocks: Vec<Option<Message>>,
    points: Vec<(Address, Counter)>,
    last: u64,
}

impl Memory {
    fn new(alloc: Global, total: u32) -> Result<Memory, Fail>
        ensures blocks { IfOk result (λ memory. vec_len memory.blocks ≡ total) }
        ensures last { IfOk result (λ memory. memory.last ≡ 0) }
    {
        Ok(Memory {
            blocks: Vec::from_elem(alloc, None, total as usize)?,
            points: Vec::new(alloc),
            last: 0,
        })
    }
}

impl Slots for Memory {
    ghost step = { λ old request answer new. vec_len new.blocks ≡ vec_len old.blocks };

    ghost total = { λ memory. vec_len memory.blocks };

    ghost last = { λ memory. memory.last };

    ghost rests = { λ memory. Unit {0} };

    ghost ended = { λ memory. Unit {0} };

    ghost goes_on = { λ memory ended. ended };

    ghost keeps_total = { λ old new request answer same. same };

    fn access(&mut self, access: &Access) -> Result<Seen, Stop> {
        let place = access.address.0 as usize;
        if self.points.push((access.address, access.counter)).is_err() {
            return Err(Stop::NoMemory);
        }
        let line = match found(self.blocks[place], access) {
            Ok(line) => line,
            Err(evidence) => return Err(Stop::Integrity(evidence)),
        };
        self.blocks[place] = put_back(access, line);
        let end = access.asked.saturating_add(CYCLES);
        self.last = end;
        Ok(Seen { line, end })
    }

    fn append(&mut self, message: &Message) -> Result<(), Stop> {
        let place = message.address.0 as usize;
        if self.blocks[place].is_some() {
            return Err(Stop::Integrity(Evidence::Doubled {
                address: message.address,
            }));
        }
        self.blocks[place] = Some(*message);
        Ok(())
    }

    fn answered(&mut self, line: u32, value: &Line) {}
}

/// The line of a block that is found under its counter; zeros where it was never put.
fn found(block: Option<Message>, access: &Access) -> Result<Line, Evidence> {
    let fresh = access.counter == Counter { group: 0, own: 0 };
    match block {
        None if fresh => Ok(Line([0; 64])),
        Some(message) if !fresh && message.counter == access.counter => Ok(message.line),
        None => Err(Evidence::Missing {
            address: access.address,
            counter: access.counter,
        }),
        Some(_) => Err(Evidence::Unexpected {
            address: access.address,
        }),
    }
}

/// What is put back of a block.
fn put_back(access: &Access, line: Line) -> Option<Message> {
    let line = match access.purpose {
        Purpose::Refill => return None,
        Purpose::Keep => line,
        Purpose::Replace(value) => value,
    };
    Some(Message {
        address: access.address,
        counter: access.next,
        line,
    })
}

/// A configuration of so many bytes.
fn config(size: u64, roots: u64, ic: u64, plb: u64) -> Result<Config, Fail>
    ensures { IfOk result IsConfig }
{
    let mut list = [0; 16];
    list[0] = 256;
    let settings = Settings {
        size,
        base: 0,
        sets: 64,
        ways: 8,
        plb,
        roots,
        ic,
        stash: 200,
        budget: 10_000_000,
        time: 268_435_456,
        leak: 0,
        rates: WideRates { list, count: 1 },
        first: 0,
        epoch: 65_536,
    };
    match Config::check(&settings) {
        Ok(config) => Ok(config),
        Err(_) => Err("a configuration".into()),
    }
}

/// Fetches of lines, one after another.
fn fetches(rt: &impl Abort, alloc: Global, config: &Config, lines: &[u32]) -> Result<Memory, Fail>
    requires { IsConfig config.now }
{
    let mut memory = Memory::new(alloc, config.shape.total)?;
    let mut front = Front::new(alloc, config)?;
    let mut asked = 0;
    for line in lines {
        assert!(rt; *line < config.shape.lines);
        asked = front.fetch(&mut memory, asked, *line)?.end;
    }
    Ok(memory)
}

#[test]
fn more_held_blocks_take_fewer_accesses(rt: HostRuntime) -> Result<(), Fail> {
    let one = config(1_048_576, 16, 14, 1)?;
    let memory = fetches(&rt, rt.alloc(), &one, &[0, 32, 0])?;
    assert_eq!(rt; memory.points.len(), 9);
    let many = config(1_048_576, 16, 14, 32)?;
    let memory = fetches(&rt, rt.alloc(), &many, &[0, 32, 0])?;
    assert_eq!(rt; memory.points.len(), 6);
    Ok(())
}

#[test]
fn two_groups_move(rt: HostRuntime) -> Result<(), Fail> {
    let rooted = config(4_096, 1, 2, 2)?;
    let memory = fetches(&rt, rt.alloc(), &rooted, &[0, 32, 0, 32, 0, 32, 0])?;
    assert_eq!(rt; memory.points.len(), 48);
    assert_eq!(rt; memory.last, 36_096);
    Ok(())
}

#[test]
fn stores_move_a_group(rt: HostRuntime) -> Result<(), Fail> {
    let flat = config(4_096, 16, 2, 32)?;
    let mut memory = Memory::new(rt.alloc(), flat.shape.total)?;
    let mut front = Front::new(rt.alloc(), &flat)?;
    assert!(rt; 0 < flat.shape.lines);
    let mut asked = 0;
    for value in 1..5u8 {
        asked = front.store(&mut memory, asked, 0, &Line([value; 64]))?;
    }
    assert_eq!(rt; memory.points.len(), 37);
    assert_eq!(rt; asked, 27_824);
    let seen = front.fetch(&mut memory, asked, 0)?;
    assert_eq!(rt; seen.line, Line([4; 64]));
    Ok(())
}
