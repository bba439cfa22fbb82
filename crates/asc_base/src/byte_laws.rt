//! Laws of lists of bytes. The functions do nothing: each states a law in its contract.

ghost use Rattle.std.specs.Prelude.{◌≡◌, ℕ, ◌^◌, ◌<◌, List, slice_index};
ghost use Rattle.std.specs.Int.{w16, w32, w64, to_be_bytes};
ghost use Rattle.asc_base.specs.Bytes.{AreBytes};

/// Numbers that have the same two, four or eight bytes are one.
pub fn bytes_tell_numbers()
    ensures two { (m n : ℕ) → m < 2 ^ 16 → n < 2 ^ 16 → to_be_bytes w16 m ≡ to_be_bytes w16 n → m ≡ n }
    ensures four { (m n : ℕ) → m < 2 ^ 32 → n < 2 ^ 32 → to_be_bytes w32 m ≡ to_be_bytes w32 n → m ≡ n }
    ensures eight { (m n : ℕ) → m < 2 ^ 64 → n < 2 ^ 64 → to_be_bytes w64 m ≡ to_be_bytes w64 n → m ≡ n }
{}

/// A list of bytes has a byte at each place, also past its end, where it reads as 0.
pub fn bytes_by_place()
    ensures each { (bytes : List ℕ) → AreBytes bytes → (i : ℕ) → slice_index bytes i < 256 }
    ensures all { (bytes : List ℕ) → ((i : ℕ) → slice_index bytes i < 256) → AreBytes bytes }
{}
