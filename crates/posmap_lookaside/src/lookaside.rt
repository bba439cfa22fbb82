ghost use Rattle.std.specs.Prelude.{◌≡◌, ◌≤◌, [], length, option_map, position, is_some, IfOk, OnOk, OnErr, IsNone};
ghost use Rattle.posmap_lookaside.specs.Held.{is_of, held_at, promoted, changed, with_group, with_counter};
ghost use Rattle.posmap_lookaside.specs.Held.{inserted, displaced};
ghost use Rattle.posmap_lookaside.specs.Lookaside.{IsLookaside};

use crate::held::Held;
use asc_base::{Address, Counter, NoMemory};
use posmap_counters::Group;
use std::alloc::Global;
use std::marker::Model;

/// The position-map blocks that are held on chip, the most recent first, and how many there may be. Their addresses are
/// distinct.
#[derive(Drop)]
pub struct Lookaside {
    list: Vec<Held>,
    capacity: u32,
}

impl Model for Lookaside {
    ghost use Rattle.posmap_lookaside.specs.Lookaside.{LookasideState, IsLookaside};

    ghost Value = { LookasideState };

    ghost view = { λ buffer. record { list = buffer.list.items; capacity = buffer.capacity } };

    ghost invariant = { λ buffer. IsLookaside (record { list = buffer.list.items; capacity = buffer.capacity }) };
}

// Where the block of the address is.
fn place_of(list: &[Held], address: Address) -> Option<usize>
    ensures { result ≡ position (is_of address) list.now }
{
    list.iter().position(|held| held.address == address)
}

// The group of the block of the address.
fn group_of(list: &[Held], address: Address) -> Option<Group>
    ensures { result ≡ option_map (λ held. held.group) (held_at list.now address) }
{
    let place = place_of(list, address)?;
    Some(list[place].group)
}

// Whether the block of the address is there.
fn is_there(list: &[Held], address: Address) -> bool
    ensures { result ≡ is_some (held_at list.now address) }
{
    place_of(list, address).is_some()
}

// The block of the address goes first, and its group is the answer.
fn promote(list: &mut Vec<Held>, address: Address) -> Option<Group>
    ensures group { result ≡ option_map (λ held. held.group) (held_at list.old.items address) }
    ensures list { list.new.items ≡ promoted list.old.items address }
{
    let place = place_of(list, address)?;
    let found = list.remove(place);
    let group = found.group;
    match list.insert(0, found) {
        Ok(()) => Some(group),
        Err(_) => unreachable!(),
    }
}

// The block of the address has another group, where it is there.
fn regroup(list: &mut Vec<Held>, address: Address, group: Group) -> bool
    ensures held { result ≡ is_some (held_at list.old.items address) }
    ensures list { list.new.items ≡ changed (with_group group) list.old.items address }
{
    match place_of(list, address) {
        Some(place) => {
            list[place].group = group;
            true
        }
        None => false,
    }
}

// The block of the address has another counter, where it is there.
fn renumber(list: &mut Vec<Held>, address: Address, counter: Counter) -> bool
    ensures held { result ≡ is_some (held_at list.old.items address) }
    ensures list { list.new.items ≡ changed (with_counter counter) list.old.items address }
{
    match place_of(list, address) {
        Some(place) => {
            list[place].counter = counter;
            true
        }
        None => false,
    }
}

// The block goes first, and the last one of a full list is the answer.
fn put_first(list: &mut Vec<Held>, capacity: usize, held: Held) -> Result<Option<Held>, NoMemory>
    requires some { 1 ≤ capacity }
    requires fits { length list.old.items ≤ capacity }
    ensures list { OnOk result (list.new.items ≡ inserted capacity held list.old.items) }
    ensures last { IfOk result (λ last. last ≡ displaced capacity held list.old.items) }
    ensures err { OnErr result (list.new.items ≡ list.old.items) }
{
    if list.len() < capacity {
        return match list.insert(0, held) {
            Ok(()) => Ok(None),
            Err(_) => Err(NoMemory),
        };
    }
    let last = list.pop();
    match list.insert(0, held) {
        Ok(()) => Ok(last),
        Err(_) => unreachable!(),
    }
}

impl Lookaside {
    /// A buffer without blocks that has room for `capacity`, which is at least 1.
    pub fn new(alloc: Global, capacity: u32) -> Result<Lookaside, NoMemory>
        requires { 1 ≤ capacity }
        ensures { IfOk result (λ buffer. buffer ≡ record { list = []; capacity = capacity }) }
    {
        let mut list = Vec::new(alloc);
        match list.reserve(capacity as usize) {
            Ok(()) => Ok(Lookaside { list, capacity }),
            Err(_) => Err(NoMemory),
        }
    }

    /// A copy of the group of the block of the address, which goes first; None where it isn't held.
    pub fn find(&mut self, address: Address) -> Option<Group>
        ensures group { result ≡ option_map (λ held. held.group) (held_at self.old.list address) }
        ensures list { self.new.list ≡ promoted self.old.list address }
        ensures capacity { self.new.capacity ≡ self.old.capacity }
        ensures whole { IsLookaside self.new }
    {
        promote(&mut self.list, address)
    }

    /// A copy of the group of the block of the address; None where it isn't held. The order stays.
    pub fn group(&self, address: Address) -> Option<Group>
        ensures group { result ≡ option_map (λ held. held.group) (held_at self.now.list address) }
        ensures whole { IsLookaside self.now }
    {
        group_of(&self.list, address)
    }

    /// Whether the block of the address is held. The order stays.
    pub fn holds(&self, address: Address) -> bool
        ensures held { result ≡ is_some (held_at self.now.list address) }
        ensures whole { IsLookaside self.now }
    {
        is_there(&self.list, address)
    }

    /// Changes the group of the block of the address, and answers whether it is held. The order stays.
    pub fn set_group(&mut self, address: Address, group: Group) -> bool
        ensures held { result ≡ is_some (held_at self.old.list address) }
        ensures list { self.new.list ≡ changed (with_group group) self.old.list address }
        ensures capacity { self.new.capacity ≡ self.old.capacity }
        ensures whole { IsLookaside self.new }
    {
        regroup(&mut self.list, address, group)
    }

    /// Changes the counter of the block of the address, and answers whether it is held. The order stays.
    pub fn set_counter(&mut self, address: Address, counter: Counter) -> bool
        ensures held { result ≡ is_some (held_at self.old.list address) }
        ensures list { self.new.list ≡ changed (with_counter counter) self.old.list address }
        ensures capacity { self.new.capacity ≡ self.old.capacity }
        ensures whole { IsLookaside self.new }
    {
        renumber(&mut self.list, address, counter)
    }

    /// Puts a block first whose address isn't held. Where the buffer is full the last one goes, and is the answer.
    ///
    /// Err where there is no memory; then the buffer is as before.
    pub fn insert(&mut self, held: Held) -> Result<Option<Held>, NoMemory>
        requires { IsNone (held_at self.old.list held.address) }
        ensures list { OnOk result (self.new.list ≡ inserted self.old.capacity held self.old.list) }
        ensures last { IfOk result (λ last. last ≡ displaced self.old.capacity held self.old.list) }
        ensures capacity { self.new.capacity ≡ self.old.capacity }
        ensures whole { IsLookaside self.new }
        ensures err { OnErr result (self.new ≡ self.old) }
    {
        put_first(&mut self.list, self.capacity as usize, held)
    }
}
