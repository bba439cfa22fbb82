//! Laws of the shape of the tree, for any number of lines, layers and roots. The functions do nothing: each states a
//! law in its contract.

ghost use Rattle.std.specs.Prelude.{◌≡◌, ◌≢◌, ℕ, ◌+◌, ◌-◌, ◌^◌, ◌<◌, ◌≤◌, ◌⊎◌, ◌↔◌, Some};
ghost use Rattle.std.specs.Prelude.{length, All, [], ◌∷◌, ◌==◌};
ghost use Rattle.asc_base.specs.Bytes.{AreBytes};
ghost use Rattle.asc_base.specs.Lookup.{without_first, changed_first, promoted_first};
ghost use Rattle.asc_base.specs.Settings.{IsConfig};
ghost use Rattle.asc_base.specs.TreeShape.{layer_count, layer_first, top_layer, levels_of, buckets_of, layer_of};
ghost use Rattle.asc_base.specs.TreeShape.{parent_of, child_index_of, children_of, bucket_of, shared_of, IsInLayer};
ghost use Rattle.asc_base.specs.Shape.{IsShape, shape_of};
ghost use Rattle.asc_base.specs.declared.settings.Config.{Config};
ghost use Rattle.asc_base.specs.declared.shape.Shape.{Shape};

/// The top layer has at most so many blocks as there are roots, and every layer below has more.
pub fn top_layer_first()
    ensures top { (lines roots : ℕ) → 1 ≤ lines → 1 ≤ roots → layer_count lines (top_layer lines roots) ≤ roots }
    ensures below { (lines roots layer : ℕ) → 1 ≤ lines → 1 ≤ roots
        → layer < top_layer lines roots → roots < layer_count lines layer }
{}

/// The leaves are at the greatest level whose tree has at most so many buckets and one as there are blocks, and at
/// least at level 1.
pub fn levels_greatest()
    ensures some { (total : ℕ) → 1 ≤ levels_of total }
    ensures fits { (total : ℕ) → (levels_of total ≡ 1) ⊎ (2 ^ (levels_of total + 1) ≤ total) }
    ensures greatest { (total level : ℕ) → 2 ^ (level + 1) ≤ total → level ≤ levels_of total }
{}

/// Every shape is small: it has at most 5 layers, 270,601 blocks and 17 levels below the root. The buckets of its tree
/// fill the levels down to the leaves, and the largest tree has 262,143 of them.
pub fn shapes_are_small()
    ensures layers { (shape : Shape) → IsShape shape → (1 ≤ shape.layers) × (shape.layers ≤ 5) }
    ensures total { (shape : Shape) → IsShape shape → shape.total ≤ 270601 }
    ensures blocks { (shape : Shape) → IsShape shape → shape.total ≡ layer_first shape.lines shape.layers }
    ensures levels { (shape : Shape) → IsShape shape → (1 ≤ shape.levels) × (shape.levels ≤ 17) }
    ensures buckets { (shape : Shape) → IsShape shape → shape.buckets ≡ 2 ^ (shape.levels + 1) - 1 }
    ensures most_buckets { (shape : Shape) → IsShape shape → shape.buckets ≤ 262143 }
{}

/// Each address of the first `layers` layers is in exactly one of them.
pub fn blocks_in_one_layer()
    ensures one { (lines layers address : ℕ) → address < layer_first lines layers
        → (layer_of lines layers address < layers) × IsInLayer lines (layer_of lines layers address) address }
    ensures alone { (lines layers layer address : ℕ) → layer < layers → IsInLayer lines layer address
        → layer_of lines layers address ≡ layer }
{}

/// Parents and children are inverse: the parent of each child of a block is that block, and a block is the child of
/// its parent that has its place.
pub fn parents_and_children()
    ensures parent_of_child { (lines layers address first number place : ℕ) → address < layer_first lines layers
        → children_of lines layers address ≡ Some (first, number) → place < number
        → (parent_of lines layers (first + place) ≡ Some address)
        × (child_index_of lines layers (first + place) ≡ place) }
    ensures child_of_parent { (lines layers address above : ℕ) → address < layer_first lines layers
        → parent_of lines layers address ≡ Some above
        → (first : ℕ) × (number : ℕ) × (children_of lines layers above ≡ Some (first, number))
        × (address ≡ first + child_index_of lines layers address) × (child_index_of lines layers address < number)
        × (above < layer_first lines layers) }
{}

/// A block above the data lines has 1 to 32 children, all below it, and siblings have one parent, which is above them.
pub fn families_are_ordered()
    ensures place { (lines layers address : ℕ) → child_index_of lines layers address < 32 }
    ensures few { (lines layers address first number : ℕ) → address < layer_first lines layers
        → children_of lines layers address ≡ Some (first, number) → (1 ≤ number) × (number ≤ 32) }
    ensures below { (lines layers address first number place : ℕ) → address < layer_first lines layers
        → children_of lines layers address ≡ Some (first, number) → place < number → first + place < address }
    ensures above { (lines layers address above : ℕ) → address < layer_first lines layers
        → parent_of lines layers address ≡ Some above → (address < above) × (above < layer_first lines layers) }
    ensures siblings { (lines layers address first number x y : ℕ) → address < layer_first lines layers
        → children_of lines layers address ≡ Some (first, number) → x < number → y < number
        → parent_of lines layers (first + x) ≡ parent_of lines layers (first + y) }
{}

/// The families of a shape's blocks are in the shape: layers, parents and children, of which there are 1 to 32.
pub fn families_in_shapes()
    ensures layer { (shape : Shape) (address : ℕ) → IsShape shape → address < shape.total
        → layer_of shape.lines shape.layers address < shape.layers }
    ensures parent { (shape : Shape) (address above : ℕ) → IsShape shape → address < shape.total
        → parent_of shape.lines shape.layers address ≡ Some above → (address < above) × (above < shape.total) }
    ensures few { (shape : Shape) (address first number : ℕ) → IsShape shape → address < shape.total
        → children_of shape.lines shape.layers address ≡ Some (first, number) → (1 ≤ number) × (number ≤ 32) }
    ensures children { (shape : Shape) (address first number place : ℕ) → IsShape shape → address < shape.total
        → children_of shape.lines shape.layers address ≡ Some (first, number) → place < number
        → first + place < shape.total }
{}

/// A configuration has 16 places for rates, each with at most 1,048,576 cycles.
pub fn configs_have_sixteen_rates()
    ensures sixteen { (config : Config) → IsConfig config → length config.rates.list ≡ 16 }
    ensures bounds { (config : Config) → IsConfig config → All (λ rate. rate ≤ 1048576) config.rates.list }
{}

/// The buckets of a path are buckets of the tree, and rise with the level, so that they are distinct.
pub fn path_rises()
    ensures inside { (levels leaf level : ℕ) → level ≤ levels → leaf < 2 ^ levels
        → bucket_of levels leaf level < buckets_of levels }
    ensures rises { (levels leaf low high : ℕ) → low < high → high ≤ levels → leaf < 2 ^ levels
        → bucket_of levels leaf low < bucket_of levels leaf high }
{}

/// Two paths share exactly the buckets of the levels up to the greatest shared one.
pub fn paths_share()
    ensures shared { (levels x y level : ℕ) → x < 2 ^ levels → y < 2 ^ levels → level ≤ levels
        → (bucket_of levels x level ≡ bucket_of levels y level) ↔ (level ≤ shared_of levels x y) }
    ensures within { (levels x y : ℕ) → shared_of levels x y ≤ levels }
    ensures apart { (levels x y low high : ℕ) → x < 2 ^ levels → y < 2 ^ levels → low ≤ levels → high ≤ levels
        → low ≢ high → bucket_of levels x low ≢ bucket_of levels y high }
{}

/// The laws at the shape of 65 lines under one root, which has layers of 65, 3 and 1 blocks: block 67 has one child,
/// the line 64. The tree over its 69 blocks has its leaves at level 5.
pub fn laws_have_instances()
    ensures shape { IsShape (shape_of 65 1) }
    ensures layers { ((shape_of 65 1).layers ≡ 3) × ((shape_of 65 1).total ≡ 69) × ((shape_of 65 1).levels ≡ 5) }
    ensures line { (layer_of 65 3 64 ≡ 0) × (parent_of 65 3 64 ≡ Some 67) × (child_index_of 65 3 64 ≡ 0) }
    ensures block { (layer_of 65 3 67 ≡ 1) × (children_of 65 3 67 ≡ Some (64, 1)) × (parent_of 65 3 67 ≡ Some 68) }
    ensures path { (bucket_of 5 12 3 ≡ 10) × (bucket_of 5 15 3 ≡ 10) × (shared_of 5 12 15 ≡ 3) }
    ensures bytes { AreBytes (0 ∷ 255 ∷ []) }
    ensures taken { without_first (λ n. n == 2) (1 ∷ 2 ∷ 3 ∷ 2 ∷ []) ≡ 1 ∷ 3 ∷ 2 ∷ [] }
    ensures changed { changed_first (λ n. n + 5) (λ n. n == 2) (1 ∷ 2 ∷ 3 ∷ 2 ∷ []) ≡ 1 ∷ 7 ∷ 3 ∷ 2 ∷ [] }
    ensures promoted { promoted_first (λ n. n == 2) (1 ∷ 2 ∷ 3 ∷ 2 ∷ []) ≡ 2 ∷ 1 ∷ 3 ∷ 2 ∷ [] }
{}
