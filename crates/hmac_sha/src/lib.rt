//! HMAC (RFC 2104) over SHA-256 (FIPS 180-4), for keys of 32 bytes, and keys derived under labels. No call takes
//! memory.
#![tactic(auto)]

ghost use Rattle.std.specs.Prelude.{◌≡◌};
ghost use Rattle.hmac_sha.specs.Hmac.{hmac, derive};

mod key;
mod laws;
mod pads;
#[cfg(test)]
mod tests;

pub use key::HmacKey;
pub use laws::codes_have_32_bytes;

/// The authentication code of a message under a key (RFC 2104, with SHA-256 and its block of 64 bytes).
pub fn hmac(key: &[u8; 32], message: &[u8]) -> [u8; 32]
    ensures { result ≡ hmac key.now message.now }
{
    HmacKey::new(key).code(message)
}

/// The key that a master key gives under a label: the code of the label under the master key.
#[tactic(auto, unfolding(crate::specs::Hmac::derive))]
pub fn derive(master: &[u8; 32], label: &[u8]) -> [u8; 32]
    ensures { result ≡ derive master.now label.now }
{
    hmac(master, label)
}
