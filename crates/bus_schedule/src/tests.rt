//! Starts, epochs and digits that were computed by other means.

use crate::{Timing, digit, epoch_of, first_slot, most_choices, next_slot, with_digit};
use std::process::Abort;

/// What decides the starts of slots of 496 cycles.
#[derive(Clone, Copy)]
struct Slots {
    rates: [u32; 4],
    /// How many of the rates count.
    count: u32,
    timing: Timing,
    /// The choices, as digits.
    code: u64,
}

/// Those of a tree whose leaves are at level 5.
fn of_level_five(rates: [u32; 4], count: u32, epoch: u64, most: u32, code: u64) -> Slots {
    let timing = Timing {
        levels: 5,
        epoch,
        most,
    };
    Slots {
        rates,
        count,
        timing,
        code,
    }
}

/// The start of a slot, the first being 0. The first slot starts at the first rate.
fn start_of(rt: &impl Abort, slots: Slots, slot: u32) -> u64 {
    let timing = slots.timing;
    assert!(rt; timing.levels <= 20 && timing.epoch > 0 && timing.epoch <= 1 << 40);
    let mut beat = first_slot(slots.rates[0]);
    for _ in 0..slot {
        assert!(rt;
            beat.next < 1 << 39 && beat.choices < 60 && slots.count >= 1 && slots.count <= 4
        );
        let index = digit(slots.code, slots.count, beat.choices);
        beat = next_slot(&beat, &timing, slots.rates[index as usize]);
    }
    beat.next
}

#[test]
fn starts(rt: HostRuntime) {
    let four_rates = [256, 1_024, 4_096, 16_384];
    // the starts of the first slots, and a later one
    let first = [256, 1_008, 1_760, 2_512, 3_264, 4_016, 4_768, 5_520];
    let far = [
        65_536, 66_288, 67_040, 67_792, 68_544, 69_296, 70_048, 70_800,
    ];
    let one = of_level_five([256, 0, 0, 0], 1, 65_536, 0, 0);
    let four = of_level_five(four_rates, 4, 32_768, 1, 3);
    // the leakage budget allows no choice
    let none = of_level_five(four_rates, 4, 32_768, 0, 3);
    // the first end is in epoch 6, and all the same one choice falls there; the second falls in epoch 7
    let skipped = of_level_five([65_536, 256, 0, 0], 2, 1_024, 2, 1);
    for (name, slots, first, slot, later) in [
        ("one", one, first, 398, 299_552),
        ("none", none, first, 398, 299_552),
        ("four", four, first, 43, 32_592),
        ("four", four, first, 44, 49_472),
        ("four", four, first, 52, 184_512),
        ("skipped", skipped, far, 88, 262_272),
    ] {
        for number in 0..8 {
            assert_eq!(rt;
                start_of(&rt, slots, number),
                first[number as usize],
                "{name} at {number}"
            );
        }
        assert_eq!(rt; start_of(&rt, slots, slot), later, "{name} at {slot}");
    }
}

#[test]
fn budgets(rt: HostRuntime) {
    // the rates, the bits of the budget, and the choices that are allowed
    for (count, leak, choices) in [
        (1, 60, 0),
        (2, 0, 0),
        (2, 60, 60),
        (4, 1, 0),
        (4, 16, 8),
        (8, 16, 5),
        (16, 60, 15),
        (16, 3, 0),
    ] {
        assert!(rt; count > 0);
        assert_eq!(rt; most_choices(count, leak), choices, "of {count} by {leak}");
    }
}

#[test]
fn epochs(rt: HostRuntime) {
    for (number, start) in [(1, 65_536), (2, 196_608), (3, 458_752)] {
        assert_eq!(rt; epoch_of(start - 1, 65_536), number - 1, "before {start}");
        assert_eq!(rt; epoch_of(start, 65_536), number, "from {start}");
    }
    assert_eq!(rt; epoch_of(0, 65_536), 0);
    // the longest and the shortest epoch 0
    assert_eq!(rt; epoch_of((1 << 40) - 1, 1 << 40), 0);
    assert_eq!(rt; epoch_of((1 << 40) - 1, 1), 40);
    assert_eq!(rt; epoch_of((1 << 40) - 2, 1), 39);
}

#[test]
fn digits(rt: HostRuntime) {
    // a code, a base, a place, and the digit there
    for (code, base, place, expected) in [
        (0xfedc_ba98_7654_3210, 16, 0, 0),
        (0xfedc_ba98_7654_3210, 16, 11, 11),
        (0xfedc_ba98_7654_3210, 16, 15, 15),
        (0xfedc_ba98_7654_3210, 16, 16, 0),
        (0xfedc_ba98_7654_3210, 16, 60, 0),
        (198, 8, 0, 6),
        (198, 8, 1, 0),
        (198, 8, 2, 3),
        (123_456_789, 4, 5, 3),
        (123_456_789, 4, 13, 1),
        (987_654_321, 3, 18, 2),
        (u64::MAX, 10, 19, 1),
        (u64::MAX, 1, 0, 0),
        (u64::MAX, 1, 60, 0),
    ] {
        assert!(rt; base >= 1 && base <= 16 && place <= 60);
        assert_eq!(rt; digit(code, base, place), expected, "of {code} at {place}");
    }
    // the digits 6, 0, 3 to the base 8, the least first
    assert_eq!(rt; with_digit(0, 8, 0, 6), 6);
    assert_eq!(rt; with_digit(6, 8, 1, 0), 6);
    assert_eq!(rt; with_digit(6, 8, 2, 3), 198);
    // the greatest code of 60 bits
    assert_eq!(rt; with_digit((1 << 56) - 1, 16, 14, 15), (1 << 60) - 1);
}
