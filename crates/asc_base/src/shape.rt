ghost use Rattle.std.specs.Prelude.{◌≡◌, ℕ, ◌+◌, ◌*◌, ◌^◌, ◌<◌, ◌≤◌, ◌⊎◌, ◌↔◌, IsNone, IfSome, IfNone, Some, None};
ghost use Rattle.asc_base.specs.Shape.{IsShape, IsAddress, shape_of, places_of, parent_in, children_in};
ghost use Rattle.asc_base.specs.TreeShape.{layer_count, layer_first, top_layer, levels_of, layer_of, index_of};
ghost use Rattle.asc_base.specs.TreeShape.{parent_of, children_of, child_index_of, bucket_of, shared_of, olat_of};

use crate::block::{Address, Leaf};

/// The most data lines that a shape has: those of 16,777,216 bytes.
const MOST_LINES: u32 = 262_144;

/// The most children of a position-map block.
const CHILDREN: u32 = 32;

/// The cycles of a bucket's read or write.
pub const MOVE_CYCLES: u64 = 40;

/// The cycles between a path's reads and its writes.
pub const TURN_CYCLES: u64 = 16;

/// The shape of the tree and of the addresses of its blocks.
///
/// The blocks are in layers. Layer 0 has the data lines, and each next layer has one position-map block per 32 blocks
/// of the layer below, rounded up; the top layer is the first that has at most so many blocks as the settings name
/// roots. The layers follow each other in the addresses.
#[derive(Clone, Copy, Debug, PartialEq, Eq)]
pub struct Shape {
    /// The number of data lines.
    pub lines: u32,
    /// The number of layers, 1 to 5.
    pub layers: u32,
    /// The address of the first block of each layer, and 0 from `layers` on.
    pub firsts: [u32; 5],
    /// The number of blocks of each layer, and 0 from `layers` on.
    pub counts: [u32; 5],
    /// The level of the leaves, where the root has level 0.
    pub levels: u32,
    /// The number of all blocks.
    pub total: u32,
    /// The number of buckets in the tree.
    pub buckets: u32,
}

impl Shape {
    /// The shape of the tree over `lines` data lines, whose top layer has at most `roots` blocks.
    ///
    /// None exactly where `lines` is 0 or above 262,144, or `roots` is 0.
    pub fn new(lines: u32, roots: u32) -> Option<Shape>
        ensures none { IsNone result ↔ ((lines ≡ 0) ⊎ ((262144 < lines) ⊎ (roots ≡ 0))) }
        ensures shape { IfSome result (λ shape. shape ≡ shape_of lines roots) }
        ensures is_shape { IfSome result IsShape }
    {
        if lines == 0 || lines > MOST_LINES || roots == 0 {
            return None;
        }
        let Layers {
            layers,
            firsts,
            counts,
            total,
        } = Layers::over(lines, roots);
        let levels = levels_under(total);
        let buckets = (1 << (levels + 1)) - 1;
        Some(Shape {
            lines,
            layers,
            firsts,
            counts,
            levels,
            total,
            buckets,
        })
    }

    /// The layer of a block, counted from the data lines, which are layer 0.
    pub fn layer(&self, address: Address) -> u32
        requires shape { IsShape self.now }
        requires address { IsAddress self.now address }
        ensures layer { result ≡ layer_of self.now.lines self.now.layers address.0 }
        ensures inside { result < self.now.layers }
    {
        for layer in 1..self.layers {
            if address.0 < self.firsts[layer as usize] {
                return layer - 1;
            }
        }
        self.layers - 1
    }

    /// The position-map block that has a block's counter. None exactly for a block of the top layer, whose counter is
    /// on chip.
    pub fn parent(&self, address: Address) -> Option<Address>
        requires shape { IsShape self.now }
        requires address { IsAddress self.now address }
        ensures parent { result ≡ parent_in self.now address }
        ensures above { IfSome result (λ above. parent_of self.now.lines self.now.layers address.0 ≡ Some above.0) }
        ensures top { IfNone result (parent_of self.now.lines self.now.layers address.0 ≡ None) }
        ensures inside { IfSome result (IsAddress self.now) }
    {
        let layer = self.layer(address);
        if layer + 1 == self.layers {
            return None;
        }
        let index = address.0 - self.firsts[layer as usize];
        Some(Address(self.firsts[layer as usize + 1] + index / CHILDREN))
    }

    /// The place of a block among its parent's children, 0 to 31.
    pub fn child_index(&self, address: Address) -> u32
        requires shape { IsShape self.now }
        requires address { IsAddress self.now address }
        ensures place { result ≡ child_index_of self.now.lines self.now.layers address.0 }
        ensures inside { result < 32 }
    {
        let layer = self.layer(address);
        (address.0 - self.firsts[layer as usize]) % CHILDREN
    }

    /// The first of the blocks whose counters a block has, and how many they are, 1 to 32. None exactly for a data
    /// line.
    pub fn children(&self, address: Address) -> Option<(Address, u32)>
        requires shape { IsShape self.now }
        requires address { IsAddress self.now address }
        ensures children { result ≡ children_in self.now address }
        ensures below { IfSome result (λ (first, number).
            children_of self.now.lines self.now.layers address.0 ≡ Some (first.0, number)) }
        ensures line { IfNone result (children_of self.now.lines self.now.layers address.0 ≡ None) }
        ensures inside { IfSome result (λ (first, number).
            (first.0 + number ≤ self.now.total) × (1 ≤ number) × (number ≤ 32)) }
    {
        let layer = self.layer(address);
        if layer == 0 {
            return None;
        }
        let below = layer as usize - 1;
        let place = CHILDREN * (address.0 - self.firsts[layer as usize]);
        let number = (self.counts[below] - place).min(CHILDREN);
        Some((Address(self.firsts[below] + place), number))
    }

    /// The bucket at a level of the path to a leaf, where the root's level is 0.
    pub fn bucket_on(&self, leaf: Leaf, level: u32) -> u32
        requires shape { IsShape self.now }
        requires leaf { leaf.0 < 2 ^ self.now.levels }
        requires level { level ≤ self.now.levels }
        ensures bucket { result ≡ bucket_of self.now.levels leaf.0 level }
        ensures inside { result < self.now.buckets }
    {
        ((1 << level) - 1) + (leaf.0 >> (self.levels - level))
    }

    /// The greatest level at which the paths to two leaves have the same bucket.
    pub fn shared(&self, x: Leaf, y: Leaf) -> u32
        requires shape { IsShape self.now }
        requires x { x.0 < 2 ^ self.now.levels }
        requires y { y.0 < 2 ^ self.now.levels }
        ensures shared { result ≡ shared_of self.now.levels x.0 y.0 }
        ensures inside { result ≤ self.now.levels }
    {
        let mut level = self.levels;
        while level > 0 && self.bucket_on(x, level) != self.bucket_on(y, level) {
            level -= 1;
        }
        level
    }

    /// The cycles of a slot: the reads of a path, 16 more, and its writes.
    pub fn olat(&self) -> u64
        ensures { result ≡ olat_of self.now.levels }
    {
        let levels = self.levels;
        2 * (levels as u64 + 1) * MOVE_CYCLES + TURN_CYCLES
    }
}

/// The layers of blocks, from the data lines up.
#[derive(Debug, Drop)]
struct Layers {
    layers: u32,
    firsts: [u32; 5],
    counts: [u32; 5],
    total: u32,
}

impl Layers {
    /// The layers over so many data lines, up to the first that has at most so many blocks as roots.
    fn over(lines: u32, roots: u32) -> Layers
        requires lines_from { 1 ≤ lines }
        requires lines_to { lines ≤ 262144 }
        requires roots { 1 ≤ roots }
        ensures layers { result.layers ≡ top_layer lines roots + 1 }
        ensures firsts { result.firsts ≡ places_of (layer_first lines) result.layers }
        ensures counts { result.counts ≡ places_of (layer_count lines) result.layers }
        ensures total { result.total ≡ layer_first lines result.layers }
        ensures few { result.total ≤ 270601 }
    {
        let mut top = 0;
        let mut firsts = [0; 5];
        let mut counts = [lines, 0, 0, 0, 0];
        while counts[top] > roots {
            firsts[top + 1] = firsts[top] + counts[top];
            counts[top + 1] = counts[top].div_ceil(CHILDREN);
            top += 1;
        }
        let layers = top as u32 + 1;
        let total = firsts[top] + counts[top];
        Layers {
            layers,
            firsts,
            counts,
            total,
        }
    }
}

/// The level of the leaves of a tree over so many blocks.
fn levels_under(total: u32) -> u32
    requires { total ≤ 270601 }
    ensures level { result ≡ levels_of total }
    ensures few { result ≤ 17 }
{
    let mut levels = 1;
    while 1 << (levels + 2) <= total {
        levels += 1;
    }
    levels
}
