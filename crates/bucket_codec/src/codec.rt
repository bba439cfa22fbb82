ghost use Rattle.std.specs.Prelude.{◌≡◌, ◌<◌, ◌++◌, IfOk, IfErr, OnErr};
ghost use Rattle.std.specs.Int.{w64, to_be_bytes};
ghost use Rattle.bucket_codec.specs.Pad.{pad_key};
ghost use Rattle.bucket_codec.specs.Bucket.{AreSlots, body_text, seed_in, part, slot_at, slots_in, body_in};

use crate::pad::{BODY, blank, mask, pad_of};
use crate::slot::{SLOT, slot_in, slot_text};
use asc_base::{Entry, Shape};
use hmac_sha::derive;
use std::marker::Model;

/// A slot that isn't in the form: neither empty, nor an entry with an address and a leaf of the tree's.
#[derive(Clone, Copy, Debug, PartialEq, Eq)]
pub struct BadSlot {
    /// The number of the first such slot of the bucket, 0 to 3.
    pub slot: u32,
}

/// Seals and opens buckets: 376 bytes that have a seed and four slots. The slots' bytes are xored with a pad, the
/// stream of ChaCha20 (RFC 8439) whose number is the seed.
///
/// It is seen as its key, which the master key gives under the label `ascend pad`.
#[derive(Drop)]
pub struct Codec {
    key: [u8; 32],
}

impl Model for Codec {
    ghost use Rattle.std.specs.Prelude.{ℕ, List};

    ghost Value = { List ℕ };

    ghost view = { λ codec. codec.key };
}

impl Codec {
    ghost use Rattle.bucket_codec.specs.Bucket.{bucket_text, opened, AreInRange};

    /// The buckets of a master key.
    #[tactic(auto, unfolding(crate::specs::Pad::pad_key))]
    pub fn new(master: &[u8; 32]) -> Codec
        ensures { result ≡ pad_key master.now }
    {
        Codec {
            key: derive(master, b"ascend pad"),
        }
    }

    /// Writes the bucket of a seed and four slots. The seed isn't 0: that of a bucket never written is.
    #[tactic(auto, unfolding(crate::specs::Bucket::bucket_text))]
    pub fn seal(&self, seed: u64, slots: &[Option<Entry>; 4], into: &mut [u8; 376])
        requires { 0 < seed }
        ensures text { into.new ≡ bucket_text self.now seed slots.now }
        ensures slots { AreSlots slots.now }
    {
        let mut body = body_of(slots);
        mask(&mut body, &pad_of(&self.key, seed));
        write(seed, &body, into);
    }

    /// The slots of a bucket, four empty ones where its seed is 0, whatever follows.
    ///
    /// A [`BadSlot`] names the first slot that isn't in the form: it is neither 92 zero bytes, nor has the flag
    /// 01 00 00 00, an address below `shape.total` and a leaf below `2 ^ shape.levels`.
    #[tactic(auto, unfolding(crate::specs::Bucket::opened))]
    pub fn open(&self, bytes: &[u8; 376], shape: &Shape) -> Result<[Option<Entry>; 4], BadSlot>
        ensures slots { result ≡ opened self.now shape.now bytes.now }
        ensures typed { IfOk result AreSlots }
        ensures range { IfOk result (AreInRange shape.now) }
    {
        if seed_of(bytes) == 0 {
            return Ok([None; 4]);
        }
        let body = opened_body(&self.key, bytes);
        slots_in(&body, shape)
    }
}

// Writes a seed and the bytes behind it.
fn write(seed: u64, body: &[u8; BODY], into: &mut [u8; 376])
    ensures { into.new ≡ to_be_bytes w64 seed ++ body.now }
{
    into[..8].copy_from_slice(&seed.to_be_bytes());
    into[8..].copy_from_slice(body);
}

// The seed of a bucket.
#[tactic(auto, unfolding(crate::specs::Bucket::seed_in))]
fn seed_of(bytes: &[u8; 376]) -> u64
    ensures { result ≡ seed_in bytes.now }
{
    let mut seed = [0u8; 8];
    seed.copy_from_slice(&bytes[..8]);
    u64::from_be_bytes(seed)
}

// The bytes of the slots behind a bucket's seed.
fn opened_body(key: &[u8; 32], bytes: &[u8; 376]) -> [u8; BODY]
    ensures { result ≡ body_in key.now bytes.now }
{
    let mut body = blank();
    body.copy_from_slice(&bytes[8..]);
    mask(&mut body, &pad_of(key, seed_of(bytes)));
    body
}

// The bytes of four slots.
fn body_of(slots: &[Option<Entry>; 4]) -> [u8; BODY]
    ensures text { result ≡ body_text slots.now }
    ensures slots { AreSlots slots.now }
{
    let mut body = blank();
    for place in 0..4 {
        body[SLOT * place..SLOT * place + SLOT].copy_from_slice(&slot_text(slots[place]));
    }
    body
}

// The four slots that these bytes have, or the first that isn't in the form.
fn slots_in(body: &[u8; BODY], shape: &Shape) -> Result<[Option<Entry>; 4], BadSlot>
    ensures { result ≡ slots_in shape.now body.now }
{
    let first = slot_at(body, 0, shape)?;
    let second = slot_at(body, 1, shape)?;
    let third = slot_at(body, 2, shape)?;
    let last = slot_at(body, 3, shape)?;
    Ok([first, second, third, last])
}

// The slot of a number, from 0 to 3.
#[tactic(auto, unfolding(crate::specs::Bucket::slot_at))]
fn slot_at(body: &[u8; BODY], slot: u32, shape: &Shape) -> Result<Option<Entry>, BadSlot>
    requires { slot < 4 }
    ensures ok { IfOk result (λ found. slot_at shape.now body.now slot ≡ Some found) }
    ensures bad { OnErr result (slot_at shape.now body.now slot ≡ None) }
    ensures number { IfErr result (λ bad. bad.slot ≡ slot) }
{
    match slot_in(&part(body, slot), shape) {
        Some(found) => Ok(found),
        None => Err(BadSlot { slot }),
    }
}

// The bytes of a slot, from 0 to 3.
fn part(body: &[u8; BODY], slot: u32) -> [u8; SLOT]
    requires { slot < 4 }
    ensures { result ≡ part body.now slot }
{
    let start = SLOT * slot as usize;
    let mut text = [0u8; SLOT];
    text.copy_from_slice(&body[start..start + SLOT]);
    text
}
