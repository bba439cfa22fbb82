ghost use Rattle.std.specs.Prelude.{◌≡◌, ◌≤◌, length, map, vec_capacity};

use super::*;
use asc_base::{Leaf, Line};
use std::test::Fail;

fn entry_of(address: u32) -> Entry {
    Entry {
        address: Address(address),
        leaf: Leaf(7),
        line: Line([0; 64]),
        tag: [0; 16],
    }
}

/// The addresses of the entries, in order of arrival.
fn list_addresses(stash: &Stash, into: &mut Vec<u32>)
    requires { length stash.now.entries ≤ vec_capacity into.old }
    ensures { into.new.items ≡ map (λ entry. entry.address.0) stash.now.entries }
{
    into.clear();
    for entry in stash.iter() {
        match into.push(entry.address.0) {
            Ok(()) => {}
            Err(_) => unreachable!(),
        }
    }
}

/// How many entries stand at a place, where there is a place or None for each.
fn placed_entries(stash: &Stash, places: &[Option<u32>]) -> usize {
    stash
        .iter()
        .zip(places.iter())
        .filter(|pair| pair.1.is_some())
        .count()
}

#[test]
fn keeps_the_order_of_arrival(rt: HostRuntime) -> Result<(), Fail> {
    let mut stash = Stash::new(rt.alloc());
    stash.reserve(5)?;
    assert_eq!(rt; stash.len(), 0);
    assert!(rt; stash.spare() >= 5);
    for (address, room) in [(4, true), (9, true), (2, true), (9, false), (7, true)] {
        assert!(rt; stash.spare() > 0);
        assert_eq!(rt; stash.put(entry_of(address)).is_ok(), room, "at {address}");
    }
    let mut addresses = Vec::new(rt.alloc());
    addresses.reserve(5)?;
    assert!(rt; stash.len() <= addresses.capacity());
    list_addresses(&stash, &mut addresses);
    assert_eq!(rt; addresses.as_slice(), [4, 9, 2, 7].as_slice());
    assert!(rt; stash.take(Address(5)).is_none());
    assert!(rt; stash.take(Address(9)).is_some());
    assert!(rt; stash.take(Address(9)).is_none());
    let places = [None, Some(3), None];
    assert_eq!(rt; stash.len(), 3);
    assert_eq!(rt; placed_entries(&stash, &places), 1);
    stash.keep_unplaced(&places);
    assert!(rt; stash.len() <= addresses.capacity());
    list_addresses(&stash, &mut addresses);
    assert_eq!(rt; addresses.as_slice(), [4, 7].as_slice());
    Ok(())
}
