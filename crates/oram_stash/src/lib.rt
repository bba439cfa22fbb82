//! The entries that stay in the processor, in order of arrival.
#![tactic(auto)]

ghost use Rattle.std.specs.Prelude.{◌≡◌, ◌+◌, ◌≤◌, ◌<◌, ◌↔◌, [], ◌∷◌, ◌++◌, List, length, position, is_none};
ghost use Rattle.std.specs.Prelude.{IsOk, IsErr, IsSome, IfNone, OnSome, OnOk, OnErr, slice_get, vec_capacity};
ghost use Rattle.std.specs.Option.{option_copied};
ghost use Rattle.oram_stash.specs.Entries.{is_of, held, without, AreApart};
ghost use Rattle.path_evict.specs.Placed.{kept};

use asc_base::{Address, Entry, NoMemory};
use std::alloc::Global;
use std::marker::Model;

mod iteration;
mod laws;

pub use iteration::Entries;
pub use laws::{
    addresses_find_entries, last_entry_is_found, others_are_left, placed_entries_are_found,
    two_entries_are_apart,
};

/// An entry of the address is there already.
#[derive(Clone, Copy, Debug, PartialEq, Eq)]
pub struct Doubled;

/// Entries in order of arrival, no two of one address, which `put` adds and `take` takes out by address, and the number
/// of further entries that are sure to find room.
#[derive(Drop)]
pub struct Stash {
    entries: Vec<Entry>,
}

impl Model for Stash {
    ghost use Rattle.std.specs.Prelude.{◌-◌, vec_len, vec_capacity};
    ghost use Rattle.oram_stash.specs.Entries.{AreApart};
    ghost use Rattle.oram_stash.specs.Stash.{StashState};

    ghost Value = { StashState };

    ghost view = { λ stash. record {
      entries = stash.entries.items;
      spare = vec_capacity stash.entries - vec_len stash.entries;
    } };

    ghost invariant = { λ stash. AreApart stash.entries.items };
}

/// Where the first entry of the address is.
fn place_of(entries: &[Entry], address: Address) -> Option<usize>
    ensures { result ≡ position (is_of address) entries.now }
{
    entries.iter().position(|entry| entry.address == address)
}

/// Keeps the entries that have no place, in order.
fn keep_unplaced(entries: &mut Vec<Entry>, places: &[Option<u32>])
    requires { length places.now ≡ length entries.old.items }
    ensures items { entries.new.items ≡ kept places.now entries.old.items }
    ensures capacity { vec_capacity entries.new ≡ vec_capacity entries.old }
{
    let mut kept = 0;
    for at in 0..places.len() {
        if places[at].is_none() {
            entries[kept] = entries[at];
            kept += 1;
        }
    }
    entries.truncate(kept);
}

impl Stash {
    /// A stash without entries, which takes no memory.
    pub fn new(alloc: Global) -> Stash
        ensures { result.entries ≡ [] }
    {
        Stash {
            entries: Vec::new(alloc),
        }
    }

    /// Makes room for so many more entries. It takes no memory where they have it, and gives none back.
    pub fn reserve(&mut self, more: usize) -> Result<(), NoMemory>
        ensures entries { self.new.entries ≡ self.old.entries }
        ensures ok { OnOk result (more ≤ self.new.spare) }
        ensures kept { self.old.spare ≤ self.new.spare }
        ensures room { more ≤ self.old.spare → IsOk result }
    {
        match self.entries.reserve(more) {
            Ok(()) => Ok(()),
            Err(_) => Err(NoMemory),
        }
    }

    /// Adds an entry behind the others. It is refused where one of its address is there.
    pub fn put(&mut self, entry: Entry) -> Result<(), Doubled>
        requires { 0 < self.old.spare }
        ensures refused { IsErr result ↔ IsSome (held self.old.entries entry.address) }
        ensures ok { OnOk result (self.new.entries ≡ self.old.entries ++ entry ∷ []) }
        ensures spare { self.old.spare ≤ self.new.spare + 1 }
        ensures err { OnErr result (self.new ≡ self.old) }
        ensures apart { AreApart self.new.entries }
    {
        if place_of(&self.entries, entry.address).is_some() {
            return Err(Doubled);
        }
        match self.entries.push(entry) {
            Ok(()) => Ok(()),
            Err(_) => unreachable!(),
        }
    }

    /// Takes the entry of the address out, None where it isn't there. The later ones move up.
    pub fn take(&mut self, address: Address) -> Option<Entry>
        ensures taken { result ≡ held self.old.entries address }
        ensures others { self.new.entries ≡ without self.old.entries address }
        ensures spare { OnSome result (self.new.spare ≡ self.old.spare + 1) }
        ensures none { IfNone result (self.new ≡ self.old) }
        ensures apart { AreApart self.new.entries }
    {
        let place = place_of(&self.entries, address)?;
        Some(self.entries.remove(place))
    }

    /// Takes out the entries that have a place: those of a path that was written. Those that stay keep their order.
    /// `places` has a place, or None, for each entry.
    pub fn keep_unplaced(&mut self, places: &[Option<u32>])
        requires { length places.now ≡ length self.old.entries }
        ensures entries { self.new.entries ≡ kept places.now self.old.entries }
        ensures spare { self.new.spare + length self.new.entries ≡ self.old.spare + length self.old.entries }
        ensures apart { AreApart self.new.entries }
    {
        keep_unplaced(&mut self.entries, places);
    }

    /// How many entries are there.
    pub fn len(&self) -> usize
        ensures len { result ≡ length self.now.entries }
        ensures apart { AreApart self.now.entries }
    {
        self.entries.len()
    }

    /// How many more entries are sure to find room.
    pub fn spare(&self) -> usize
        ensures { result ≡ self.now.spare }
    {
        self.entries.capacity() - self.entries.len()
    }

    /// The entry at this place in order of arrival, from 0 on; None past the last.
    pub fn get(&self, at: usize) -> Option<&Entry>
        ensures { option_copied result ≡ slice_get self.now.entries at }
    {
        self.entries.get(at)
    }

    /// The entries in order of arrival.
    pub fn iter(&self) -> Entries<'_>
        ensures entries { result ≡ self.now.entries }
        ensures apart { AreApart self.now.entries }
    {
        Entries::over(&self.entries)
    }
}

#[cfg(test)]
mod tests;
