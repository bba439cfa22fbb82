//! Which entries go to which level when a path is written back: the rule, and the number that no placement beats.
#![tactic(auto)]

ghost use Rattle.std.specs.Prelude.{◌≡◌, ℕ, List, Option, ◌≤◌, ◌<◌, length, All, []};
ghost use Rattle.std.specs.Prelude.{IfSome, IfNone, IsOk, OnOk, OnErr, vec_len, vec_capacity};
ghost use Rattle.path_evict.specs.Placement.{slots, left, IsPlacement};
ghost use Rattle.path_evict.specs.Eviction.{fill, fill_up, eviction};
ghost use Rattle.path_evict.specs.Rest.{excess, rest, IsLeastWitness};

use asc_base::NoMemory;

mod laws;

pub use laws::{
    entries_are_on_their_paths, items_are_placed, laws_have_instances, rest_is_some_of_all,
};

/// The entries that a bucket holds.
const SLOTS: usize = 4;

/// How many entries of depth at most `k` have no slot at the levels from 0 to `k`.
fn excess(depths: &[u32], k: u32) -> usize
    ensures { result ≡ excess depths.now k }
{
    let within = depths.iter().filter(|depth| **depth <= k).count();
    within.saturating_sub(SLOTS * (k as usize + 1))
}

/// How many entries every placement on a path with the levels from 0 to `levels` leaves at least, and the least depth
/// that shows it: that many entries of at most this depth have no slot down to it. None where the rest is 0.
pub fn remainder(depths: &[u32], levels: u32) -> (usize, Option<u32>)
    ensures rest { result.0 ≡ rest depths.now levels }
    ensures witness { IfSome result.1 (IsLeastWitness depths.now levels) }
    ensures none { IfNone result.1 (rest depths.now levels ≡ 0) }
    ensures few { result.0 ≤ length depths.now }
    ensures fewest { (places : List (Option ℕ)) → IsPlacement depths.now places → result.0 ≤ left places }
{
    let mut most = 0;
    let mut witness = None;
    for k in 0..=levels {
        let beyond = excess(depths, k);
        if beyond > most {
            most = beyond;
            witness = Some(k);
        }
    }
    (most, witness)
}

/// The level takes the first entries in order of arrival that may stand there.
fn fill_level(level: u32, depths: &[u32], places: &mut [Option<u32>])
    requires { length places.old ≡ length depths.now }
    ensures { places.new ≡ fill level slots depths.now places.old }
{
    let mut room = SLOTS;
    for i in 0..depths.len() {
        if room > 0 && places[i].is_none() && level <= depths[i] {
            places[i] = Some(level);
            room -= 1;
        }
    }
}

/// Each level from the deepest up to the root takes entries.
fn fill_path(depths: &[u32], levels: u32, places: &mut [Option<u32>])
    requires { length places.old ≡ length depths.now }
    ensures { places.new ≡ fill_up levels depths.now places.old }
{
    for level in (0..=levels).rev() {
        fill_level(level, depths, places);
    }
}

/// Replaces `into` by each entry's level on a path with the levels from 0 to `levels`, None for those that stay. From
/// the deepest level up to the root, each level takes the first four entries in order of arrival that aren't placed and
/// whose depth is at least the level. No placement leaves fewer.
///
/// Where `into` has room for as many as there are depths, it takes no memory. After want of memory `into` is empty.
pub fn plan(depths: &[u32], levels: u32, into: &mut Vec<Option<u32>>) -> Result<(), NoMemory>
    requires { All (λ depth. depth ≤ levels) depths.now }
    ensures rule { OnOk result (into.new.items ≡ eviction depths.now levels) }
    ensures len { OnOk result (vec_len into.new ≡ length depths.now) }
    ensures placement { OnOk result (IsPlacement depths.now into.new.items) }
    ensures rest { OnOk result (left into.new.items ≡ rest depths.now levels) }
    ensures fewest { OnOk result ((places : List (Option ℕ)) → IsPlacement depths.now places
        → left into.new.items ≤ left places) }
    ensures room { length depths.now ≤ vec_capacity into.old → IsOk result }
    ensures capacity { vec_capacity into.old ≤ vec_capacity into.new }
    ensures err { OnErr result (into.new.items ≡ []) }
{
    into.clear();
    let Ok(()) = into.resize(depths.len(), None) else {
        return Err(NoMemory);
    };
    fill_path(depths, levels, into);
    Ok(())
}

#[cfg(test)]
mod tests;
