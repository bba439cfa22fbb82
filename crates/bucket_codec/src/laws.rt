//! Laws of slots, sealed buckets and opened ones. The functions do nothing: each states a law in its contract.

ghost use Rattle.std.specs.Prelude.{◌≡◌, ◌≢◌, ◌↔◌, ℕ, ◌^◌, ◌<◌, List, length, replicate};
ghost use Rattle.std.specs.Prelude.{Option, Some, Ok, Err};
ghost use Rattle.asc_base.specs.Bytes.{AreBytes};
ghost use Rattle.asc_base.specs.Has.{Has};
ghost use Rattle.asc_base.specs.declared.block.Entry.{Entry};
ghost use Rattle.asc_base.specs.declared.shape.Shape.{Shape};
ghost use Rattle.bucket_codec.specs.Slot.{slot_in, Spells, IsEntry, IsInRange};
ghost use Rattle.bucket_codec.specs.Bucket.{bucket_text, seed_in, body_in, empty_slots, slot_entries, opened, Holds};
ghost use Rattle.bucket_codec.specs.Bucket.{AreSlots, AreInRange, IsFirstBad};
ghost use Rattle.bucket_codec.specs.declared.codec.BadSlot.{BadSlot};

/// Opening a sealed bucket gives its slots back, where their addresses and leaves are in the ranges of the shape.
pub fn opens_what_was_sealed()
    ensures { (key : List ℕ) (shape : Shape) (seed : ℕ) (slots : List (Option Entry))
        → 0 < seed → seed < 2 ^ 64 → AreSlots slots → AreInRange shape slots
        → opened key shape (bucket_text key seed slots) ≡ Ok slots }
{}

/// A bucket whose seed isn't 0, and from which slots were read, is the sealed bucket of its seed and those slots. So
/// each seed and slots have one spelling.
pub fn seals_what_was_opened()
    ensures { (key : List ℕ) (shape : Shape) (bytes : List ℕ) (slots : List (Option Entry))
        → length bytes ≡ 376 → AreBytes bytes → seed_in bytes ≢ 0 → opened key shape bytes ≡ Ok slots
        → (bucket_text key (seed_in bytes) slots ≡ bytes) × AreSlots slots × AreInRange shape slots }
{}

/// A sealed bucket has 376 bytes, and the seed that it was sealed under.
pub fn texts_have_376_bytes()
    ensures number { (key : List ℕ) (seed : ℕ) (slots : List (Option Entry))
        → AreSlots slots → length (bucket_text key seed slots) ≡ 376 }
    ensures seed { (key : List ℕ) (seed : ℕ) (slots : List (Option Entry))
        → seed < 2 ^ 64 → seed_in (bucket_text key seed slots) ≡ seed }
{}

/// Sealed buckets with one text have one seed and the same slots.
pub fn texts_tell_seeds_and_slots()
    ensures { (key : List ℕ) (m n : ℕ) (xs ys : List (Option Entry))
        → m < 2 ^ 64 → n < 2 ^ 64 → AreSlots xs → AreSlots ys → bucket_text key m xs ≡ bucket_text key n ys
        → (m ≡ n) × (xs ≡ ys) }
{}

/// 92 bytes are in the form exactly where they are those of a slot that is empty, or has an entry in the ranges of the
/// shape, and then are read as that slot.
pub fn slots_read_as_spelled()
    ensures { (shape : Shape) (text : List ℕ) (slot : Option Entry)
        → length text ≡ 92 → AreBytes text
        → (slot_in shape text ≡ Some slot) ↔ Spells shape slot text }
{}

/// The slot that is named is the first that isn't in the form.
pub fn first_bad_slot_named()
    ensures { (key : List ℕ) (shape : Shape) (bytes : List ℕ) (bad : BadSlot)
        → opened key shape bytes ≡ Err bad → IsFirstBad shape (body_in key bytes) bad.slot }
{}

/// What is opened are four slots of the types, in the ranges of the shape.
pub fn opened_slots_are_of_shape()
    ensures typed { (key : List ℕ) (shape : Shape) (bytes : List ℕ) (slots : List (Option Entry))
        → length bytes ≡ 376 → AreBytes bytes → opened key shape bytes ≡ Ok slots → AreSlots slots }
    ensures range { (key : List ℕ) (shape : Shape) (bytes : List ℕ) (slots : List (Option Entry))
        → opened key shape bytes ≡ Ok slots → AreInRange shape slots }
{}

/// A bucket of zero bytes, as each is before its first write, opens to four empty slots, and so does every other whose
/// seed is 0. No seal gives such bytes.
pub fn unwritten_buckets_are_empty()
    ensures zeros { (key : List ℕ) (shape : Shape) → opened key shape (replicate 376 0x00) ≡ Ok empty_slots }
    ensures unsealed { (key : List ℕ) (seed : ℕ) (slots : List (Option Entry))
        → 0 < seed → seed < 2 ^ 64 → bucket_text key seed slots ≢ replicate 376 0x00 }
    ensures seed { (key : List ℕ) (shape : Shape) (bytes : List ℕ)
        → seed_in bytes ≡ 0 → opened key shape bytes ≡ Ok empty_slots }
{}

/// An opened bucket holds the entries in its slots and no others, and so does a sealed one. What is held is an entry of
/// the types, in the ranges of the shape. A bucket whose seed is 0 holds none.
pub fn buckets_hold_their_entries()
    ensures opened { (key : List ℕ) (shape : Shape) (bytes : List ℕ) (slots : List (Option Entry)) (entry : Entry)
        → opened key shape bytes ≡ Ok slots → Has entry (slot_entries slots) ↔ Holds key shape bytes entry }
    ensures sealed { (key : List ℕ) (shape : Shape) (seed : ℕ) (slots : List (Option Entry)) (entry : Entry)
        → 0 < seed → seed < 2 ^ 64 → AreSlots slots → AreInRange shape slots
        → Has entry (slot_entries slots) ↔ Holds key shape (bucket_text key seed slots) entry }
    ensures typed { (key : List ℕ) (shape : Shape) (bytes : List ℕ) (entry : Entry)
        → length bytes ≡ 376 → AreBytes bytes → Holds key shape bytes entry → IsEntry entry }
    ensures range { (key : List ℕ) (shape : Shape) (bytes : List ℕ) (entry : Entry)
        → Holds key shape bytes entry → IsInRange shape (Some entry) }
    ensures unwritten { (key : List ℕ) (shape : Shape) (bytes : List ℕ) (entry : Entry)
        → seed_in bytes ≡ 0 → ¬ Holds key shape bytes entry }
{}
