//! Functions from points to leaves of the tree: by a key, for a run, or by a table, for a run whose leaves are given.
//! The key's function hashes a point's text, and different points have different texts.
#![tactic(auto)]

mod keyed;
mod laws;
mod leaf_fn;
mod table;

pub use keyed::KeyedLeaf;
pub use laws::{leaves_are_below, search_tells_points, texts_tell_points};
pub use leaf_fn::LeafFn;
pub use table::TableLeaf;

#[cfg(test)]
mod tests;
