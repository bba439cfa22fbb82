ghost use Rattle.std.specs.Prelude.{◌≡◌, ◌^◌, ◌<◌, find, option_map};
ghost use Rattle.leaf_function.specs.Table.{same_point};

use crate::leaf_fn::LeafFn;
use asc_base::{Leaf, Point};
use std::alloc::Global;
use std::marker::Model;

/// Leaves by a table: a point's leaf is that of the first pair that has the point, or that of the rest.
///
/// It is seen as its pairs in order, the rest's leaf and its levels.
#[derive(Drop)]
pub struct TableLeaf {
    pairs: Vec<(Point, Leaf)>,
    rest: Leaf,
    levels: u32,
}

impl Model for TableLeaf {
    ghost use Rattle.std.specs.Prelude.{◌^◌, ◌<◌};
    ghost use Rattle.leaf_function.specs.Table.{Table, AllBelow};

    ghost Value = { Table };

    ghost view = { λ table. record { pairs = table.pairs.items; rest = table.rest.0; levels = table.levels } };

    ghost invariant = { λ table. AllBelow table.pairs.items table.levels × (table.rest.0 < 2 ^ table.levels) };
}

impl TableLeaf {
    ghost use Rattle.leaf_function.specs.Table.{AllBelow};

    /// The leaves of a table, all below `2 ^ levels`. It takes no memory beyond the pairs', and the list keeps its own
    /// allocator.
    pub fn new(_alloc: Global, pairs: Vec<(Point, Leaf)>, rest: Leaf, levels: u32) -> TableLeaf
        requires listed { AllBelow pairs.items levels }
        requires others { rest.0 < 2 ^ levels }
        ensures { result ≡ record { pairs = pairs.items; rest = rest.0; levels = levels } }
    {
        TableLeaf {
            pairs,
            rest,
            levels,
        }
    }
}

impl LeafFn for TableLeaf {
    ghost use Rattle.leaf_function.specs.Table.{table_leaf};

    ghost leaf_of = { table_leaf };

    ghost levels = { λ table. table.levels };

    fn leaf(&self, point: Point) -> Leaf {
        match first_leaf(&self.pairs, point) {
            Some(leaf) => leaf,
            None => self.rest,
        }
    }

    fn gives_leaves(&self) {
        let _rest = &self.rest;
    }
}

// The leaf of the first pair that has the point.
fn first_leaf(pairs: &[(Point, Leaf)], point: Point) -> Option<Leaf>
    ensures { result ≡ option_map (λ pair. pair.1) (find (λ pair. same_point pair.0 point) pairs.now) }
{
    for pair in pairs {
        if pair.0 == point {
            return Some(pair.1);
        }
    }
    None
}
