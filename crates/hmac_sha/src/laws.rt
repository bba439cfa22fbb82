//! Laws of codes, over every key and every text. The functions do nothing: each states a law in its contract.

ghost use Rattle.std.specs.Prelude.{◌≡◌, ℕ, List, length};
ghost use Rattle.asc_base.specs.Bytes.{AreBytes};
ghost use Rattle.hmac_sha.specs.Hmac.{hmac, derive};

/// Every code has 32 bytes, each below 256, whatever the key and the text, and so has every key that is derived under a
/// label.
pub fn codes_have_32_bytes()
    ensures code { (key text : List ℕ) → length (hmac key text) ≡ 32 }
    ensures code_bytes { (key text : List ℕ) → AreBytes (hmac key text) }
    ensures derived { (master label : List ℕ) → length (derive master label) ≡ 32 }
    ensures derived_bytes { (master label : List ℕ) → AreBytes (derive master label) }
{}
