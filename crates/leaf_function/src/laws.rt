//! Laws of leaves and of the texts and the search that they come from. The functions do nothing: each states a law in
//! its contract.

ghost use Rattle.std.specs.Prelude.{◌≡◌, ◌↔◌, ℕ, ◌^◌, ◌<◌, List, true};
ghost use Rattle.asc_base.specs.declared.block.Point.{Point};
ghost use Rattle.leaf_function.specs.Leaf.{leaf, point_text, IsPoint};
ghost use Rattle.leaf_function.specs.Table.{Table, AllBelow, same_point, table_leaf};

/// Two points with one text are one point, where their numbers are in the ranges of their types. So a real point and a
/// dummy never have one text, nor has one block under two counters.
pub fn texts_tell_points()
    ensures { (x y : Point) → IsPoint x → IsPoint y → point_text x ≡ point_text y → x ≡ y }
{}

/// A table's search finds a pair exactly where it has the very point.
pub fn search_tells_points()
    ensures { (x y : Point) → (same_point x y ≡ true) ↔ (x ≡ y) }
{}

/// Every leaf is one of the tree's, which are the numbers below `2 ^ levels`: a key's for every key, levels and point,
/// and a table's for every point, where the leaves of all its pairs and that of the rest are.
pub fn leaves_are_below()
    ensures keyed { (key : List ℕ) (levels : ℕ) (point : Point) → leaf key levels point < 2 ^ levels }
    ensures table { (table : Table) (point : Point) → AllBelow table.pairs table.levels
        → table.rest < 2 ^ table.levels → table_leaf table point < 2 ^ table.levels }
{}
