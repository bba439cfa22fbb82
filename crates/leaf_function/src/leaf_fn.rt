ghost use Rattle.std.specs.Prelude.{◌≡◌, ℕ, ◌^◌, ◌<◌};
ghost use Rattle.asc_base.specs.declared.block.Point.{Point};
ghost use Rattle.leaf_function.specs.Leaf.{AreLeaves};

use asc_base::{Leaf, Point};

/// A function from points to leaves.
///
/// Its meanings are the function, with leaves as numbers, and the levels of the tree below the root, which has
/// `2 ^ levels` leaves.
pub trait LeafFn: Drop {
    /// The leaf of a point.
    ghost leaf_of: { Self → Point → ℕ };

    /// The levels of the tree below the root.
    ghost levels: { Self → ℕ };

    /// The leaf of a point, below `2 ^ levels`.
    fn leaf(&self, point: Point) -> Leaf
        ensures value { result.0 ≡ leaf_of self.now point }
        ensures below { result.0 < 2 ^ levels self.now };

    /// Every leaf that the function gives is one of the tree's. The call does nothing: it states a law in its contract.
    fn gives_leaves(&self)
        ensures { AreLeaves (levels self.now) (leaf_of self.now) };
}
