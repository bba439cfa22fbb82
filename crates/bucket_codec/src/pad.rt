ghost use Rattle.std.specs.Prelude.{◌≡◌, length};
ghost use Rattle.bucket_codec.specs.Pad.{pad_of, masked};

use rand_chacha::ChaCha20Rng;
use rand_core::{Rng, SeedableRng};

/// The bytes of a bucket's four slots.
pub(crate) const BODY: usize = 368;

/// The pad of a seed under a key.
pub(crate) fn pad_of(key: &[u8; 32], seed: u64) -> [u8; BODY]
    ensures { result ≡ pad_of key.now seed }
{
    let mut pad = blank();
    fill(key, seed, &mut pad);
    pad
}

/// Each byte xor the pad's byte of the same place.
pub(crate) fn mask(bytes: &mut [u8; BODY], pad: &[u8; BODY])
    ensures { bytes.new ≡ masked pad.now bytes.old }
{
    for place in 0..BODY {
        bytes[place] ^= pad[place];
    }
}

/// Bytes to be written over.
pub(crate) fn blank() -> [u8; BODY]
    ensures { length result ≡ 368 }
{
    [0; BODY]
}

// Fills the bytes with the pad of a seed under a key, by a generator of its own.
fn fill(key: &[u8; 32], seed: u64, into: &mut [u8; BODY])
    ensures { into.new ≡ pad_of key.now seed }
{
    let mut generator = ChaCha20Rng::from_seed(*key);
    generator.set_stream(seed);
    generator.fill_bytes(into);
}
