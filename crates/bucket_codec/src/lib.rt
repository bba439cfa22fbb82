//! Buckets of the tree as they are kept outside: a seed, and four slots under a pad of their own. No call takes memory.
#![tactic(auto)]

mod codec;
mod laws;
mod pad;
mod slot;

pub use codec::{BadSlot, Codec};
pub use laws::{
    buckets_hold_their_entries, first_bad_slot_named, opened_slots_are_of_shape,
    opens_what_was_sealed, seals_what_was_opened, slots_read_as_spelled, texts_have_376_bytes,
    texts_tell_seeds_and_slots, unwritten_buckets_are_empty,
};

#[cfg(test)]
mod tests;
