//! Traces of slots of 496 cycles with four rates and one choice: the 44th slot ends at 33,088, where epoch 1 starts.
//! The starts are computed from the text of the rule.

use crate::{Verdict, check};
use bus_trace::read;
use std::alloc::{AllocError, Global};
use std::test::Fail;

/// The header, so many slots at the first rate, each with twelve moves, and these lines.
fn text(alloc: Global, slots: u8, lines: &str) -> Result<String, AllocError> {
    let mut text = format!(in alloc;
        "ascend trace 1\nlevels 5\nrates 256 1024 4096 16384\nfirst 0\nepoch 32768\nleak 2\n"
    )?;
    for index in 0..slots {
        let start = 256 + 752 * u64::from(index);
        write!(text, "access {start} 7 12\n")?;
    }
    write!(text, "{lines}")?;
    Ok(text)
}

/// The verdict of the trace that is written so.
fn verdict(alloc: Global, slots: u8, lines: &str) -> Result<Verdict, Fail> {
    let text = text(alloc, slots, lines)?;
    let trace = read(alloc, text.as_bytes())?;
    Ok(check(&trace))
}

/// The slots behind the choice of the greatest rate.
const SLOW: &str =
    "access 49472 0 12\naccess 66352 1 12\naccess 83232 2 12\naccess 100112 3 12\naccess 116992 4 12
access 133872 5 12\naccess 150752 6 12\naccess 167632 7 12\naccess 184512 8 12\nend 200000\n";

#[test]
fn traces_that_hold(rt: HostRuntime) -> Result<(), Fail> {
    for (slots, lines, code, bits) in [
        (0, "end 256\n", 0, 0),
        (1, "end 1008\n", 0, 0),
        (44, SLOW, 3, 2),
        // the last slot is cut, or ends with the choice, whose digit shows in no start
        (43, "access 32592 0 12\nend 33087\n", 0, 0),
        (44, "end 33088\n", 0, 2),
        (44, "end 33344\n", 0, 2),
        (44, "end 33345\n", 1, 2),
        (44, "end 40000\n", 3, 2),
    ] {
        let verdict = verdict(rt.alloc(), slots, lines)?;
        assert_eq!(rt;
            verdict,
            Verdict::Holds { code, bits },
            "of {slots} and {lines}"
        );
    }
    Ok(())
}

#[test]
fn traces_that_fail(rt: HostRuntime) -> Result<(), Fail> {
    for (slots, lines, line, found, wanted) in [
        (1, "access 1009 0 12\nend 2000\n", 8, 1_009, 1_008),
        (0, "access 257 0 12\nend 1000\n", 7, 257, 256),
        (0, "access 256 0 11\nend 1000\n", 7, 11, 12),
        // a slot that the end cuts after its reads and one write, and one that starts with the end
        (0, "access 256 0 8\nend 513\n", 7, 8, 7),
        (0, "access 256 0 1\nend 256\n", 7, 1, 0),
        (1, "end 1009\n", 8, 1_009, 1_008),
        // after the choice
        (44, "access 40000 0 12\nend 50000\n", 51, 40_000, 33_344),
        (44, "end 49473\n", 51, 49_473, 49_472),
        (
            44,
            "access 34112 0 12\naccess 35000 0 12\nend 50000\n",
            52,
            35_000,
            35_632,
        ),
    ] {
        let verdict = verdict(rt.alloc(), slots, lines)?;
        let wanted = Verdict::Fails {
            line,
            found,
            wanted,
        };
        assert_eq!(rt; verdict, wanted, "of {slots} and {lines}");
    }
    Ok(())
}
