//! A cache of lines of 64 bytes over any store of lines.
//!
//! Line `n` belongs to set `n` modulo the number of sets; a set keeps the lines that were used last. What the cache
//! asks of its store is `specs/CacheLists.antt`: lists of (line, dirty) by sets, the most recent first, and the
//! requests that they make. What it holds, with the bytes of each line, and what its calls ask, is
//! `specs/Contents.antt`. A dirty victim is stored before the fetch, a write of a whole line fetches nothing, and
//! nothing is written back at the end.
#![tactic(auto)]

mod cache;
mod cached;
mod flat;
mod laws;
mod set;
mod store;

pub use cache::Cache;
pub use cached::{CachedBytes, step_cached};
pub use flat::{FlatLines, Never, read_flat};
pub use laws::{
    asks_as_its_lists, empty_cache_has_empty_lists, reads_the_flat_bytes, stand_for_one_list,
    uses_make_their_requests, worked_requests,
};
pub use set::Held;
pub use store::LineStore;

#[cfg(test)]
mod tests;
