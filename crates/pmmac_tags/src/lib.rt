//! Tags of messages: an address, its counter and its line, authenticated under one key. The counter is part of the text
//! that a tag is computed from, and different messages have different texts. No call takes memory.
#![tactic(auto)]

mod laws;
mod tagger;

pub use laws::{tags_have_16_bytes, texts_tell_messages};
pub use tagger::Tagger;

#[cfg(test)]
mod tests;
