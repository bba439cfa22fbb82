ghost use Rattle.std.specs.Prelude.{◌≤◌};

use crate::{Group, Step};
use asc_base::Line;
use std::test::Fail;

// The line under group counter 1 whose bits of own counts, highest bit of child 0 first, are set in this range.
fn with_bits(from: usize, to: usize) -> Line
    requires { to ≤ 448 }
{
    let mut bytes = [0u8; 64];
    bytes[7] = 1;
    for bit in from..to {
        bytes[8 + bit / 8] |= 0x80 >> (bit % 8);
    }
    Line(bytes)
}

#[test]
fn has_the_counters_of_a_line(rt: HostRuntime) -> Result<(), Fail> {
    for child in 0..32 {
        let end = 14 * child as usize + 14;
        for (line, wanted) in [
            (with_bits(end - 1, end), 1),
            (with_bits(end - 14, end), 16_383),
        ] {
            let group = Group::read(&line);
            for other in 0..32 {
                let counter = group.counter(other);
                assert_eq!(rt; counter.group, 1);
                assert_eq!(rt; counter.own, if other == child { wanted } else { 0 });
            }
            assert!(rt; group.write() == line, "child {child} at {wanted}");
        }
    }
    Ok(())
}

#[test]
fn steps_to_the_greatest_own_count(rt: HostRuntime) -> Result<(), Fail> {
    let mut group = Group::read(&with_bits(0, 0));
    for _ in 0..5 {
        assert!(rt; group.step(0, 14) == Step::Stepped);
    }
    let Line(bytes) = group.write();
    assert_eq!(rt; bytes[..10], [0, 0, 0, 0, 0, 0, 0, 1, 0x00, 0x14][..]);
    assert_eq!(rt; bytes[10..], [0u8; 54][..]);
    for ic in 2..15 {
        let mut group = Group::read(&with_bits(14 - ic as usize, 13));
        assert!(rt; group.step(0, ic) == Step::Stepped, "ic {ic}");
        let full = group;
        assert!(rt; group.step(0, ic) == Step::MustMove, "ic {ic}");
        assert!(rt; group == full, "ic {ic}");
        let mut above = Group::read(&with_bits(0, 14));
        assert!(rt; above.step(0, ic) == Step::MustMove, "ic {ic}");
        assert!(rt; above.moved().counter(0).own == 0);
    }
    Ok(())
}
