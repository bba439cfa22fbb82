ghost use Rattle.std.specs.Prelude.{◌≡◌, map, bit_xor};
ghost use Rattle.hmac_sha.specs.Hmac.{block_key, key_pad};

/// The block of the key, each byte xor the pad's.
pub(crate) fn padded(key: &[u8; 32], pad: u8) -> [u8; 64]
    ensures { result ≡ key_pad pad key.now }
{
    let mut block = filled(key);
    mask(&mut block, pad);
    block
}

// The key with zeros behind it.
fn filled(key: &[u8; 32]) -> [u8; 64]
    ensures { result ≡ block_key key.now }
{
    let mut block = [0u8; 64];
    block[..32].copy_from_slice(key);
    block
}

// Each byte xor the pad's.
fn mask(block: &mut [u8; 64], pad: u8)
    ensures { block.new ≡ map (λ b. bit_xor b pad) block.old }
{
    for byte in block.iter_mut() {
        *byte ^= pad;
    }
}
