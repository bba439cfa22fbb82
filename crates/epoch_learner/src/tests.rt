//! Choices whose indices were computed by other means.

ghost use Rattle.std.specs.Prelude.{ℕ};
ghost use Rattle.asc_base.specs.Settings.{IsConfig};
ghost use Rattle.epoch_learner.specs.Learner.{IsLearner};

use crate::Learner;
use asc_base::{Config, Settings, WideRates};
use std::process::Abort;

/// The configuration of 4,096 bytes, whose slots take 496 cycles and whose epoch 0 takes 32,768, with so many of four
/// rates, the least of them in force, and a leakage budget.
fn small(rt: &impl Abort, count: u32, leak: u64) -> Config
    ensures { IsConfig result }
{
    let list = [
        256, 1_024, 4_096, 16_384, 0, 0, 0, 0, 0, 0, 0, 0, 0, 0, 0, 0,
    ];
    let settings = Settings {
        size: 4_096,
        base: 0,
        sets: 1,
        ways: 1,
        plb: 32,
        roots: 16,
        ic: 14,
        stash: 200,
        budget: 10_000_000,
        time: 268_435_456,
        leak,
        rates: WideRates { list, count },
        first: 0,
        epoch: 32_768,
    };
    match Config::check(&settings) {
        Ok(config) => config,
        Err(setting) => panic!(rt; "{setting:?} isn't in its range"),
    }
}

/// A slot that starts here is noted, after it waited so many cycles, None of a dummy.
fn slot(rt: &impl Abort, learner: &mut Learner, start: u64, wait: Option<u64>)
    requires { IsLearner learner.old }
    ensures { IsLearner learner.new }
{
    assert!(rt; start < 1 << 40 && learner.real < 1 << 31 && learner.waste < 1 << 59);
    let asked = match wait {
        Some(wait) => {
            assert!(rt; wait <= start);
            Some(start - wait)
        }
        None => None,
    };
    learner.saw(start, asked);
}

/// What a learner answers at an end.
fn answer(rt: &impl Abort, learner: &mut Learner, end: u64) -> Option<u32>
    requires { IsLearner learner.old }
    ensures { IsLearner learner.new }
{
    assert!(rt;
        end < 1 << 40 && learner.real < 1 << 32 && learner.waste < 1 << 60 && learner.since <= end
    );
    learner.ended(end)
}

/// What is answered at the end 33,088, the first in epoch 1, and the rate then, after so many real accesses that
/// waited so many cycles in all, each with a dummy after it.
fn first_choice(rt: &impl Abort, real: u64, waste: u64) -> (Option<u32>, u32) {
    let mut learner = Learner::new(&small(rt, 4, 16));
    for access in 0..real {
        assert!(rt; access < 100);
        slot(
            rt,
            &mut learner,
            40_000 + access,
            Some(if access == 0 { waste } else { 0 }),
        );
        slot(rt, &mut learner, 50_000 + access, None);
    }
    (answer(rt, &mut learner, 33_088), learner.rate())
}

/// Ends of slots, each with how long its access waited, None of a dummy. The epochs of the ends are 0, 1, 1, 2, 4 and
/// 4.
const ENDS: [(u64, Option<u64>); 6] = [
    (32_767, None),
    (33_088, None),
    (98_303, None),
    (98_304, Some(63_616)),
    (500_000, None),
    (501_000, Some(496)),
];

/// A learner of so many rates under a budget of so many bits after these ends, at which it gave these answers.
fn after_ends(rt: &impl Abort, count: u32, leak: u64, answers: [Option<u32>; 6]) -> Learner {
    let mut learner = Learner::new(&small(rt, count, leak));
    for (k, (end, wait)) in ENDS.iter().enumerate() {
        slot(rt, &mut learner, *end, *wait);
        assert_eq!(rt;
            answer(rt, &mut learner, *end),
            answers[k],
            "at {end} of {count} rates and {leak} bits"
        );
    }
    learner
}

#[test]
fn choices(rt: HostRuntime) {
    for (real, waste, index, rate) in [
        (10, 3_000, 1, 1_024),
        // a tie between 256 and 1,024, and a cycle off it
        (10, 21_728, 0, 256),
        (10, 21_718, 1, 1_024),
        (0, 0, 3, 16_384),
        // a tie between 4,096 and 16,384, and a cycle off it
        (3, 880, 2, 4_096),
        (3, 877, 3, 16_384),
        // more cycles than there are were waited or taken
        (10, 40_000, 0, 256),
        (67, 0, 0, 256),
        (1, 0, 3, 16_384),
        (4, 0, 2, 4_096),
        (7, 12_345, 1, 1_024),
    ] {
        assert_eq!(rt;
            first_choice(&rt, real, waste),
            (Some(index), rate),
            "of {real} that waited {waste}"
        );
    }
}

#[test]
fn ends(rt: HostRuntime) {
    // the number of rates, the budget, what is answered at each end, and then the choices, the code, and the sums since
    for (count, leak, answers, choices, code, real, waste) in [
        (
            4,
            16,
            [None, Some(3), None, Some(1), Some(3), None],
            3,
            55,
            1,
            496,
        ),
        (
            4,
            4,
            [None, Some(3), None, Some(1), None, None],
            2,
            7,
            1,
            496,
        ),
        // one choice among four takes two bits; the sums go on after the last
        (
            4,
            2,
            [None, Some(3), None, None, None, None],
            1,
            3,
            2,
            64_112,
        ),
        (4, 1, [None; 6], 0, 0, 2, 64_112),
        (
            2,
            2,
            [None, Some(1), None, Some(1), None, None],
            2,
            3,
            1,
            496,
        ),
        (1, 16, [None; 6], 0, 0, 2, 64_112),
    ] {
        let learner = after_ends(&rt, count, leak, answers);
        assert_eq!(rt;
            (learner.choices(), learner.code()),
            (choices, code),
            "of {count} rates and {leak} bits"
        );
        assert_eq!(rt;
            (learner.real, learner.waste),
            (real, waste),
            "of {count} rates and {leak} bits"
        );
    }
}
