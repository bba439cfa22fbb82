ghost use Rattle.std.specs.Prelude.{◌≡◌, ℕ, List, ◌++◌};
ghost use Rattle.sha2.specs.Hashers.{Holds256};
ghost use Rattle.hmac_sha.specs.Hmac.{hmac, key_pad, inner_pad, outer_pad};

use crate::pads::padded;
use sha2::{Digest, Sha256};
use std::marker::Model;

/// The byte that each byte of the key's block is xored with before the inner hash: ipad of RFC 2104, section 2.
const INNER_PAD: u8 = 0x36;

/// The byte that each byte of the key's block is xored with before the outer hash: opad of RFC 2104, section 2.
const OUTER_PAD: u8 = 0x5c;

/// A key whose two padded blocks are hashed already, so that a code costs only what its message adds and the outer
/// hash's last block.
///
/// It is seen as its key.
#[derive(Drop)]
pub struct HmacKey {
    key: [u8; 32],
    inner: Sha256,
    outer: Sha256,
}

impl Model for HmacKey {
    ghost use Rattle.std.specs.Prelude.{ℕ, List};
    ghost use Rattle.hmac_sha.specs.Started.{AreStarted};

    ghost Value = { List ℕ };

    ghost view = { λ started. started.key };

    ghost invariant = { λ started. AreStarted started.key started.inner started.outer };
}

impl HmacKey {
    /// Hashes the two padded blocks of a key.
    pub fn new(key: &[u8; 32]) -> HmacKey
        ensures { result ≡ key.now }
    {
        HmacKey {
            key: *key,
            inner: Sha256::new_with_prefix(&padded(key, INNER_PAD)),
            outer: Sha256::new_with_prefix(&padded(key, OUTER_PAD)),
        }
    }

    /// The authentication code of a message (RFC 2104, with SHA-256 and its block of 64 bytes).
    pub fn code(&self, message: &[u8]) -> [u8; 32]
        ensures { result ≡ hmac self.now message.now }
    {
        let mut inner = copy_of(&self.inner);
        inner.update(message);
        finish(copy_of(&self.outer), inner)
    }
}

// The code, from the hasher of the outer pad and that of the whole inner text.
#[tactic(auto, unfolding(crate::specs::Hmac::hmac))]
fn finish(mut outer: Sha256, inner: Sha256) -> [u8; 32]
    ensures { (key text : List ℕ) → Holds256 outer (key_pad outer_pad key) → Holds256 inner (key_pad inner_pad key ++ text)
        → result ≡ hmac key text }
{
    outer.update(&inner.finalize());
    outer.finalize()
}

// The same hasher once more: that takes no memory.
fn copy_of(hasher: &Sha256) -> Sha256
    ensures { result ≡ hasher.now }
{
    match hasher.clone() {
        Ok(copy) => copy,
        Err(_) => unreachable!(),
    }
}
