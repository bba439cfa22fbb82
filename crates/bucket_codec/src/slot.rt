ghost use Rattle.std.specs.Prelude.{◌≡◌, ◌^◌, ◌<◌, ◌↔◌, IsTrue, length, take, drop};
ghost use Rattle.std.specs.Int.{w32, from_be_bytes};
ghost use Rattle.bucket_codec.specs.Slot.{slot_text, slot_in, entry_text, entry_in, empty_text, IsSlot};

use asc_base::{Address, Entry, Leaf, Line, Shape};

/// The bytes of a slot.
pub(crate) const SLOT: usize = 92;

/// The four bytes before an entry.
const FLAG: [u8; 4] = [1, 0, 0, 0];

/// The bytes of a slot, whose numbers and bytes are those of its types.
pub(crate) fn slot_text(slot: Option<Entry>) -> [u8; SLOT]
    ensures text { result ≡ slot_text slot }
    ensures typed { IsSlot slot }
{
    match slot {
        Some(entry) => entry_text(&entry),
        None => empty_text(),
    }
}

/// The slot that has these bytes, and None where they aren't in the form.
pub(crate) fn slot_in(text: &[u8; SLOT], shape: &Shape) -> Option<Option<Entry>>
    ensures { result ≡ slot_in shape.now text.now }
{
    if text.as_slice() == empty_text().as_slice() {
        return Some(None);
    }
    if &text[..4] != FLAG.as_slice() {
        return None;
    }
    let entry = entry_in(text);
    if entry.address.0 >= shape.total {
        return None;
    }
    if !is_leaf(entry.leaf.0, shape.levels) {
        return None;
    }
    Some(Some(entry))
}

// The bytes of an empty slot.
#[tactic(auto, unfolding(crate::specs::Slot::empty_text))]
fn empty_text() -> [u8; SLOT]
    ensures { result ≡ empty_text }
{
    [0; SLOT]
}

// The bytes of an entry.
fn entry_text(entry: &Entry) -> [u8; SLOT]
    ensures { result ≡ entry_text entry.now }
{
    let mut text = [0u8; SLOT];
    text[..4].copy_from_slice(&FLAG);
    text[4..8].copy_from_slice(&entry.address.0.to_be_bytes());
    text[8..12].copy_from_slice(&entry.leaf.0.to_be_bytes());
    text[76..].copy_from_slice(&entry.tag);
    text[12..76].copy_from_slice(&entry.line.0);
    text
}

// The entry whose numbers and bytes these are.
#[tactic(auto, unfolding(crate::specs::Slot::entry_in))]
fn entry_in(text: &[u8; SLOT]) -> Entry
    ensures { result ≡ entry_in text.now }
{
    Entry {
        address: Address(number_in(text, 4)),
        leaf: Leaf(number_in(text, 8)),
        line: line_in(text),
        tag: tag_in(text),
    }
}

// The four bytes from a place on as a number.
fn number_in(text: &[u8; SLOT], place: usize) -> u32
    requires { place < 89 }
    ensures { result ≡ from_be_bytes w32 (take 4 (drop place text.now)) }
{
    u32::from_be_bytes([
        text[place],
        text[place + 1],
        text[place + 2],
        text[place + 3],
    ])
}

// The bytes of the line.
fn line_in(text: &[u8; SLOT]) -> Line
    ensures { result ≡ record { 0 = take 64 (drop 12 text.now) } }
{
    let mut bytes = [0u8; 64];
    bytes.copy_from_slice(&text[12..76]);
    Line(bytes)
}

// The bytes of the tag.
fn tag_in(text: &[u8; SLOT]) -> [u8; 16]
    ensures { result ≡ take 16 (drop 76 text.now) }
{
    let mut tag = [0u8; 16];
    tag.copy_from_slice(&text[76..]);
    tag
}

// Whether a leaf is one of the leaves under so many levels.
fn is_leaf(leaf: u32, levels: u32) -> bool
    ensures { IsTrue result ↔ (leaf < 2 ^ levels) }
{
    if levels >= 32 {
        return true;
    }
    leaf < 1 << levels
}
