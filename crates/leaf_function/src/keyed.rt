ghost use Rattle.std.specs.Prelude.{◌≡◌, ℕ, ◌≤◌, ◌^◌, ◌<◌, ◌%◌, take};
ghost use Rattle.std.specs.Int.{w32, from_be_bytes};
ghost use Rattle.leaf_function.specs.Leaf.{leaf, leaf_key, point_text};
ghost use Rattle.hmac_sha.specs.Hmac.{hmac};

use crate::leaf_fn::LeafFn;
use asc_base::{Address, Counter, Leaf, Point};
use hmac_sha::{HmacKey, derive};
use std::marker::Model;

/// Leaves by a key: the first four bytes of the authentication code of a point's text, modulo the number of leaves.
///
/// It is seen as its key, which the master key gives under the label `ascend leaf`, and its levels. The key's hashers are
/// kept, so that a leaf takes two compressions of SHA-256. No call takes memory.
#[derive(Drop)]
pub struct KeyedLeaf {
    key: HmacKey,
    levels: u32,
}

impl Model for KeyedLeaf {
    ghost use Rattle.std.specs.Prelude.{◌≤◌};
    ghost use Rattle.leaf_function.specs.Leaf.{Keyed};

    ghost Value = { Keyed };

    ghost view = { λ keyed. record { key = keyed.key; levels = keyed.levels } };

    ghost invariant = { λ keyed. (1 ≤ keyed.levels) × (keyed.levels ≤ 20) };
}

impl KeyedLeaf {
    /// The leaves of a master key, in a tree of 1 to 20 levels below the root.
    #[tactic(auto, unfolding(crate::specs::Leaf::leaf_key))]
    pub fn new(master: &[u8; 32], levels: u32) -> KeyedLeaf
        requires some { 1 ≤ levels }
        requires most { levels ≤ 20 }
        ensures { result ≡ record { key = leaf_key master.now; levels = levels } }
    {
        KeyedLeaf {
            key: HmacKey::new(&derive(master, b"ascend leaf")),
            levels,
        }
    }
}

impl LeafFn for KeyedLeaf {
    ghost leaf_of = { λ keyed point. leaf keyed.key keyed.levels point };

    ghost levels = { λ keyed. keyed.levels };

    #[tactic(auto, unfolding(crate::specs::Leaf::leaf))]
    fn leaf(&self, point: Point) -> Leaf {
        let code = code_of(&self.key, point);
        Leaf(leaf_number(&code, self.levels))
    }

    fn gives_leaves(&self) {}
}

// The code of a point's text.
fn code_of(key: &HmacKey, point: Point) -> [u8; 32]
    ensures { result ≡ hmac key.now (point_text point) }
{
    match point {
        Point::Real(address, counter) => key.code(&real_text(address, counter)),
        Point::Dummy(number) => key.code(&dummy_text(number)),
    }
}

// The first four bytes of a code as a number, modulo the number of leaves.
fn leaf_number(code: &[u8; 32], levels: u32) -> u32
    requires { levels ≤ 20 }
    ensures { result ≡ from_be_bytes w32 (take 4 code.now) % 2 ^ levels }
{
    let word = u32::from_be_bytes([code[0], code[1], code[2], code[3]]);
    word % (1 << levels)
}

// The text of a block's address under a counter.
fn real_text(address: Address, counter: Counter) -> [u8; 15]
    ensures { result ≡ point_text (Point.Real address counter) }
{
    let mut text = [0x00; 15];
    text[1..5].copy_from_slice(&address.0.to_be_bytes());
    text[5..13].copy_from_slice(&counter.group.to_be_bytes());
    text[13..].copy_from_slice(&counter.own.to_be_bytes());
    text
}

// The text of a dummy's number.
#[tactic(auto, unfolding(crate::specs::Leaf::point_text))]
fn dummy_text(number: u64) -> [u8; 9]
    ensures { result ≡ point_text (Point.Dummy number) }
{
    let mut text = [0x01; 9];
    text[1..].copy_from_slice(&number.to_be_bytes());
    text
}
