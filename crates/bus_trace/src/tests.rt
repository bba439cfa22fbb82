//! The text of a trace that was written by hand.

ghost use Rattle.std.specs.Prelude.{◌≡◌, ◌≤◌, IfOk, length};
ghost use Rattle.bus_watch.specs.Recorder.{lists_of};
ghost use Rattle.bus_schedule.specs.Shown.{starts_of, leaves_of};
ghost use Rattle.bus_trace.specs.Grammar.{IsTrace};
ghost use Rattle.bus_trace.specs.OfLog.{trace_of};
ghost use Rattle.bus_trace.specs.Rows.{small_public, slot_log, read_at};
ghost use Rattle.bus_trace.specs.Trace.{public_of};

use crate::{Header, Seen, TraceFault, TraceKind, print, read};
use asc_base::{Leaf, Point, Rates};
use bus_watch::{Event, Log, Move};
use std::alloc::{AllocError, Global};
use std::process::Abort;
use std::test::Fail;

/// A header of slots of 176 cycles.
fn small_header() -> Header
    ensures public { public_of result ≡ small_public }
    ensures count { result.rates.count ≡ 2 }
{
    Header {
        levels: 1,
        rates: Rates {
            list: [64, 128, 0, 0, 0, 0, 0, 0, 0, 0, 0, 0, 0, 0, 0, 0],
            count: 2,
        },
        first: 1,
        epoch: 304,
        leak: 1,
    }
}

/// A read at a time.
fn read_at(time: u64) -> Move
    ensures { result ≡ read_at time }
{
    Move {
        time,
        write: false,
        bucket: 0,
    }
}

/// The log of one slot, and of a move after it.
fn one_slot(alloc: Global) -> Result<Log, AllocError>
    ensures { IfOk result (λ log. lists_of log ≡ slot_log) }
{
    let moves = [
        read_at(128),
        read_at(168),
        read_at(224),
        read_at(264),
        read_at(304),
    ];
    let start = Event::Access {
        start: 128,
        asked: None,
    };
    let drawn = Event::Drawn {
        point: Point::Dummy(0),
        leaf: Leaf(1),
    };
    Ok(Log {
        moves: Vec::from_array(alloc, moves)?,
        events: Vec::from_array(alloc, [start, drawn])?,
        altered: Vec::new(alloc),
    })
}

/// The trace of the log is printed as this text, behind what stands there.
fn printed(
    rt: &impl Abort,
    alloc: Global,
    header: &Header,
    log: &Log,
    end: u64,
    text: &str,
) -> Result<(), Fail>
    requires count { header.now.rates.count ≤ 16 }
    requires ranges { IsTrace (trace_of (public_of header.now) (lists_of log.now) end) }
    requires drawn { length (starts_of log.now.events.items) ≤ length (leaves_of log.now.events.items) }
{
    let mut into = Vec::new(alloc);
    into.push(b'>')?;
    assert_eq!(rt; print(header, log, end, &mut into), Ok(()));
    assert_eq!(rt; into.first().copied(), Some(b'>'));
    assert_eq!(rt; into.as_slice().get(1..), Some(text.as_bytes()));
    Ok(())
}

#[test]
fn one_access(rt: HostRuntime) -> Result<(), Fail> {
    let log = one_slot(rt.alloc())?;
    let text =
        "ascend trace 1\nlevels 1\nrates 64 128\nfirst 1\nepoch 304\nleak 1\naccess 128 1 4\nend 400\n";
    printed(&rt, rt.alloc(), &small_header(), &log, 400, text)
}

/// The header of the default settings, and no access.
const IDLE: &str =
    "ascend trace 1\nlevels 13\nrates 256 1024 4096 16384\nfirst 3\nepoch 65536\nleak 16\nend 12\n";

#[test]
fn texts_that_are_read(rt: HostRuntime) -> Result<(), Fail> {
    let idle = read(rt.alloc(), IDLE.as_bytes())?;
    assert_eq!(rt; idle.header.levels, 13);
    assert_eq!(rt; idle.header.rates.count, 4);
    assert_eq!(rt;
        idle.header.rates.list,
        [
            256, 1_024, 4_096, 16_384, 0, 0, 0, 0, 0, 0, 0, 0, 0, 0, 0, 0
        ]
    );
    assert_eq!(rt;
        (idle.header.first, idle.header.epoch, idle.header.leak),
        (3, 65_536, 16)
    );
    assert_eq!(rt; idle.accesses.is_empty(), true);
    assert_eq!(rt; idle.end, 12);
    let text =
        "ascend trace 1\nlevels 1\nrates 64 128\nfirst 1\nepoch 304\nleak 1\naccess 128 1 4\nend 400\n";
    let slot = read(rt.alloc(), text.as_bytes())?;
    assert_eq!(rt; slot.header, small_header());
    let seen = Seen {
        start: 128,
        leaf: Leaf(1),
        moves: 4,
    };
    assert_eq!(rt; slot.accesses.first().copied(), Some(seen));
    assert_eq!(rt; (slot.accesses.len(), slot.end), (1, 400));
    Ok(())
}

/// Texts behind `ascend trace 1` that are no trace's: the line at fault, and what is wrong with it.
const REFUSED: &[(&str, u64, TraceKind)] = &[
    ("", 2, TraceKind::Cut),
    ("levels 0\n", 2, TraceKind::Range),
    ("levels 01\n", 2, TraceKind::Form),
    ("levels  1\n", 2, TraceKind::Form),
    ("levels 21\n", 2, TraceKind::Range),
    ("levels 10000000000\n", 2, TraceKind::Form),
    ("levels 21", 2, TraceKind::Cut),
    ("levels 1\nrates\n", 3, TraceKind::Form),
    ("levels 1\nrates 64 64\n", 3, TraceKind::Range),
    ("levels 1\nrates 64 128 256\n", 3, TraceKind::Range),
    (
        "levels 1\nrates 1 2 3 4 5 6 7 8 9 10 11 12 13 14 15 16 17\n",
        3,
        TraceKind::Range,
    ),
    (
        "levels 1\nrates 1 2 3 4 5 6 7 8 9 10 11 12 13 14 15 16 17 x\n",
        3,
        TraceKind::Form,
    ),
    ("levels 1\nrates 64 9999999999\n", 3, TraceKind::Range),
    ("levels 1\nrates 64\nfirst 1\n", 4, TraceKind::Range),
    (
        "levels 1\nrates 64\nfirst 0\nepoch 239\n",
        5,
        TraceKind::Range,
    ),
    (
        "levels 1\nrates 64\nfirst 0\nepoch 240\nleak 61\n",
        6,
        TraceKind::Range,
    ),
    (
        "levels 1\nrates 64\nfirst 0\nepoch 240\nleak 60\n",
        7,
        TraceKind::Cut,
    ),
    (
        "levels 1\nrates 64\nfirst 0\nepoch 240\nleak 60\naccess 64 2 4\n",
        7,
        TraceKind::Range,
    ),
    (
        "levels 1\nrates 64\nfirst 0\nepoch 240\nleak 60\naccess 64 1 0\n",
        7,
        TraceKind::Range,
    ),
    (
        "levels 1\nrates 64\nfirst 0\nepoch 240\nleak 60\naccess 64 1 5\n",
        7,
        TraceKind::Range,
    ),
    (
        "levels 1\nrates 64\nfirst 0\nepoch 240\nleak 60\naccess 536870913 9 x\n",
        7,
        TraceKind::Form,
    ),
    (
        "levels 1\nrates 64\nfirst 0\nepoch 240\nleak 60\naccess 64 1 4\nend 536870913\n",
        8,
        TraceKind::Range,
    ),
    (
        "levels 1\nrates 64\nfirst 0\nepoch 240\nleak 60\naccess 64 1 4\nend 400",
        8,
        TraceKind::Cut,
    ),
    (
        "levels 1\nrates 64\nfirst 0\nepoch 240\nleak 60\naccess 64 1 4\nend 400\nend",
        9,
        TraceKind::Extra,
    ),
    (
        "levels 1\nrates 64\nfirst 0\nepoch 240\nleak 60\naccess 64 1 4\nend 400\nend 400\n",
        9,
        TraceKind::Extra,
    ),
];

#[test]
fn texts_that_are_refused(rt: HostRuntime) -> Result<(), Fail> {
    for (rest, line, kind) in REFUSED {
        let mut text = Vec::from_slice(rt.alloc(), b"ascend trace 1\n")?;
        text.extend_from_slice(rest.as_bytes())?;
        let fault = read(rt.alloc(), &text).err();
        let wanted = TraceFault::Bad {
            line: *line,
            kind: *kind,
        };
        assert_eq!(rt; fault, Some(wanted), "of {rest}");
    }
    Ok(())
}
