ghost use Rattle.std.specs.Prelude.{◌≤◌, ◌↔◌, IsTrue, All};

use super::*;
use asc_base::{Entry, Leaf};
use std::alloc::{AllocError, Global};
use std::test::Fail;

fn is_within(depths: &[u32], levels: u32) -> bool
    ensures { IsTrue result ↔ All (λ depth. depth ≤ levels) depths.now }
{
    depths.iter().all(|depth| *depth <= levels)
}

/// As many depths as are asked, from 0 to 2: the last digits of a number to base 3.
fn depths_of(alloc: Global, number: u32, len: usize) -> Result<Vec<u32>, AllocError> {
    let mut depths = Vec::new(alloc);
    let mut rest = number;
    for _ in 0..len {
        depths.push(rest % 3)?;
        rest /= 3;
    }
    Ok(depths)
}

/// How many entries stay where each has the level that its digit to base 4 says, 3 standing for none; None where an
/// entry stands below its depth or a level holds more than four.
fn left_by(depths: &[u32], placement: u32) -> Option<usize> {
    let mut standing = [0usize; 4];
    let mut rest = placement;
    for depth in depths {
        let level = rest % 4;
        rest /= 4;
        if level < 3 && level > *depth {
            return None;
        }
        standing[level as usize] = standing[level as usize].wrapping_add(1);
    }
    let [root, first, second, left] = standing;
    if root > 4 || first > 4 || second > 4 {
        None
    } else {
        Some(left)
    }
}

#[test]
fn places_by_the_rule(rt: HostRuntime) -> Result<(), Fail> {
    let rows: [(&[u32], &[Option<u32>], usize, Option<u32>); 4] = [
        (
            &[0, 0, 0, 0, 0, 1, 5],
            &[Some(0), Some(0), Some(0), Some(0), None, Some(1), Some(5)],
            1,
            Some(0),
        ),
        (&[], &[], 0, None),
        (
            &[5, 5, 5, 5, 5],
            &[Some(5), Some(5), Some(5), Some(5), Some(4)],
            0,
            None,
        ),
        (
            &[1, 5, 0, 1, 0, 0, 1, 0, 0, 1],
            &[
                Some(1),
                Some(5),
                Some(0),
                Some(1),
                Some(0),
                Some(0),
                Some(1),
                Some(0),
                None,
                Some(1),
            ],
            1,
            Some(0),
        ),
    ];
    let mut places = Vec::new(rt.alloc());
    for (depths, wanted, rest, witness) in rows {
        assert!(rt; is_within(depths, 5));
        assert!(rt; plan(depths, 5, &mut places).is_ok());
        assert_eq!(rt; places.as_slice(), wanted);
        assert_eq!(rt; remainder(depths, 5), (rest, witness));
    }
    Ok(())
}

#[test]
fn leaves_what_has_no_slot(rt: HostRuntime) -> Result<(), Fail> {
    let mut places = Vec::new(rt.alloc());
    let depths = vec![in rt.alloc(); 2; 40]?;
    assert!(rt; is_within(&depths, 5));
    assert!(rt; plan(&depths, 5, &mut places).is_ok());
    assert_eq!(rt; places.iter().filter(|place| place.is_some()).count(), 12);
    assert_eq!(rt; places.iter().filter(|place| place.is_none()).count(), 28);
    assert_eq!(rt; remainder(&depths, 5), (28, Some(2)));
    Ok(())
}

#[test]
fn leaves_the_fewest_of_all_placements(rt: HostRuntime) -> Result<(), Fail> {
    let sizes = [
        (0, 1, 1),
        (1, 3, 4),
        (2, 9, 16),
        (3, 27, 64),
        (4, 81, 256),
        (5, 243, 1024),
        (6, 729, 4096),
    ];
    let mut places = Vec::new(rt.alloc());
    for (len, lists, placements) in sizes {
        for list in 0..lists {
            let depths = depths_of(rt.alloc(), list, len)?;
            let mut fewest = len;
            for placement in 0..placements {
                fewest = fewest.min(left_by(&depths, placement).unwrap_or(len));
            }
            for levels in 0..3 {
                if is_within(&depths, levels) {
                    assert!(rt; plan(&depths, levels, &mut places).is_ok());
                    assert_eq!(rt;
                        places.iter().filter(|place| place.is_none()).count(),
                        fewest
                    );
                    assert_eq!(rt; remainder(&depths, levels).0, fewest);
                }
            }
        }
    }
    Ok(())
}

#[test]
fn items_of_any_type() {
    items_are_placed::<Entry, Leaf>();
}
