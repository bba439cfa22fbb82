//! When slots start, the epochs of times, and the digits of codes.

ghost use Rattle.std.specs.Prelude.{◌≡◌, ◌+◌, ◌*◌, ◌^◌, ◌<◌, ◌≤◌};
ghost use Rattle.bus_schedule.specs.Timetable.{epoch_at, digit_of};

/// The start of the slot after one that ends at `end`, where this rate is in force from there on; both in cycles, and
/// `end` is below 2^40.
pub fn slot_after(end: u64, rate: u32) -> u64
    requires { end < 2 ^ 40 }
    ensures { result ≡ end + rate }
{
    end + u64::from(rate)
}

/// The epoch of a time, in cycles, below 2^40. Epoch 0 has `b0` cycles, 1 to 2^40, and each further epoch has twice as
/// many as the one before.
pub fn epoch_of(time: u64, b0: u64) -> u32
    requires time { time < 2 ^ 40 }
    requires some { 1 ≤ b0 }
    requires most { b0 ≤ 2 ^ 40 }
    ensures { result ≡ epoch_at b0 time }
{
    let mut epoch = 0;
    let mut end = b0;
    while end <= time {
        epoch += 1;
        end = 2 * end + b0;
    }
    epoch
}

/// The digit of a code at a place, the least digit's place being 0, where the base is 1 to 16. The place is at most 60.
pub fn digit(code: u64, base: u32, place: u32) -> u32
    requires some { 1 ≤ base }
    requires base { base ≤ 16 }
    requires place { place ≤ 60 }
    ensures { result ≡ digit_of code base place }
{
    let base = u64::from(base);
    let mut rest = code;
    for _ in 0..place {
        rest /= base;
    }
    (rest % base) as u32
}

/// The code with one more digit, `index`, at a place above all its digits, where the base leaves room for it in 60
/// bits.
pub fn with_digit(code: u64, base: u32, place: u32, index: u32) -> u64
    requires code { code < base ^ place }
    requires index { index < base }
    requires fits { base ^ (place + 1) ≤ 2 ^ 60 }
    ensures { result ≡ code + index * base ^ place }
{
    code + u64::from(index) * u64::from(base).pow(place)
}
