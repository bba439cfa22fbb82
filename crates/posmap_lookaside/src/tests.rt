use crate::{Held, Lookaside};
use asc_base::{Address, Counter, Line, NoMemory};
use posmap_counters::Group;
use std::test::Fail;

// A block of this address, under counter (0, 0), whose children have the group counter `group`.
fn block(address: u32, group: u8) -> Held {
    let mut line = [0; 64];
    line[7] = group;
    Held {
        address: Address(address),
        counter: Counter { group: 0, own: 0 },
        group: Group::read(&Line(line)),
    }
}

// Puts a block first, where its address isn't held.
fn put(buffer: &mut Lookaside, held: Held) -> Result<Option<Held>, NoMemory> {
    if buffer.holds(held.address) {
        return Ok(Some(held));
    }
    buffer.insert(held)
}

#[test]
fn keeps_the_order_of_use(rt: HostRuntime) -> Result<(), Fail> {
    let mut buffer = Lookaside::new(rt.alloc(), 2)?;
    assert!(rt; put(&mut buffer, block(1, 10))? == None);
    assert!(rt; put(&mut buffer, block(2, 20))? == None);
    assert!(rt; buffer.find(Address(1)) == Some(block(1, 10).group));
    assert!(rt; buffer.group(Address(2)) == Some(block(2, 20).group));
    assert!(rt; put(&mut buffer, block(3, 30))? == Some(block(2, 20)));
    assert!(rt; buffer.group(Address(2)) == None);
    assert!(rt; buffer.set_group(Address(1), block(1, 11).group));
    assert!(rt; !buffer.set_group(Address(2), block(1, 11).group));
    assert!(rt; put(&mut buffer, block(4, 40))? == Some(block(1, 11)));
    assert!(rt; buffer.find(Address(1)) == None);
    Ok(())
}

#[test]
fn displaces_the_last_one(rt: HostRuntime) -> Result<(), Fail> {
    let mut buffer = Lookaside::new(rt.alloc(), 1)?;
    assert!(rt; put(&mut buffer, block(1, 10))? == None);
    assert!(rt; buffer.set_counter(Address(1), Counter { group: 2, own: 3 }));
    assert!(rt; buffer.holds(Address(1)));
    let mut wanted = block(1, 10);
    wanted.counter = Counter { group: 2, own: 3 };
    assert!(rt; put(&mut buffer, block(2, 20))? == Some(wanted));
    assert!(rt; !buffer.holds(Address(1)));
    assert!(rt; !buffer.set_counter(Address(1), Counter { group: 2, own: 4 }));
    Ok(())
}
