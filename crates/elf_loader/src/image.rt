//! The memory that a program header describes (System V gABI, "Program Loading").

ghost use Rattle.std.specs.Prelude.{◌≡◌, ◌+◌, ◌*◌, ◌≤◌, ◌++◌, length, take, drop, IfOk, replicate};
ghost use Rattle.std.specs.List.{list_any};
ghost use Rattle.elf_loader.specs.Elf.{headers};
ghost use Rattle.elf_loader.specs.Faults.{HasTable, IsBadSegment, IsFaultless, IsOutside};
ghost use Rattle.elf_loader.specs.Layout.{first_break, greatest_end, image_bytes, marked_lines, touches, IsPlaced};
ghost use Rattle.asc_base.specs.Memory.{IsMemory};

use crate::header::{self, ProgramHeader};
use std::alloc::{AllocError, Global};

/// The bytes of a line.
const LINE: u32 = 64;

/// What the first break is a multiple of.
const BREAK_STEP: u32 = 16;

/// A program's memory as a file says it.
#[derive(Debug, Drop)]
pub struct Image {
    /// The memory's bytes, from its base on.
    pub bytes: Vec<u8>,
    /// The numbers of the lines of 64 bytes, counted from the base, that have a byte of the file; rising.
    pub marked: Vec<u32>,
    /// The address of the first instruction.
    pub entry: u32,
    /// The first break: where the heap begins.
    pub heap: u32,
}

fn zeros(alloc: Global, len: usize) -> Result<Vec<u8>, AllocError>
    ensures { IfOk result (λ bytes. bytes.items ≡ replicate len 0) }
{
    vec![in alloc; 0; len]
}

/// Puts the part at its place among the bytes.
fn place(bytes: &mut [u8], start: usize, part: &[u8])
    requires { start + length part.now ≤ length bytes.old }
    ensures { bytes.new ≡ take start bytes.old ++ part.now ++ drop (start + length part.now) bytes.old }
{
    bytes[start..start + part.len()].copy_from_slice(part);
}

/// Puts the segment's file part at its place in the memory from `base` on.
fn place_part(bytes: &mut [u8], file: &[u8], base: u32, header: &ProgramHeader)
    requires sound { ¬ IsBadSegment file.now header.now }
    requires inside { ¬ IsOutside base (length bytes.old) header.now }
    ensures { IsPlaced base file.now header.now bytes.old bytes.new }
{
    if !header.is_load() || header.file_size == 0 {
        return;
    }
    let start = (header.address - base) as usize;
    place(bytes, start, header.part(file));
}

/// Puts each segment's file part at its place among zeros.
fn place_parts(bytes: &mut [u8], file: &[u8], base: u32, size: u32)
    requires table { HasTable file.now }
    requires faultless { IsFaultless base size file.now }
    requires zeros { bytes.old ≡ replicate size 0 }
    ensures { bytes.new ≡ image_bytes base size file.now }
{
    for index in 0..header::count(file) {
        place_part(bytes, file, base, &header::nth(file, index));
    }
}

/// The memory's bytes: zeros, with each segment's file part in its place.
pub fn lay_out(alloc: Global, file: &[u8], base: u32, size: u32) -> Result<Vec<u8>, AllocError>
    requires table { HasTable file.now }
    requires faultless { IsFaultless base size file.now }
    ensures { IfOk result (λ bytes. bytes.items ≡ image_bytes base size file.now) }
{
    let mut bytes = zeros(alloc, size as usize)?;
    place_parts(&mut bytes, file, base, size);
    Ok(bytes)
}

/// Whether the line of 64 bytes with this number, counted from `base`, has a byte of a segment's file part.
fn is_marked(file: &[u8], base: u32, line: u32) -> bool
    requires { HasTable file.now }
    ensures { result ≡ list_any (λ header. touches header (base + 64 * line)) (headers file.now) }
{
    for index in 0..header::count(file) {
        if header::nth(file, index).touches(base, line) {
            return true;
        }
    }
    false
}

/// The numbers of the lines that have a byte of a segment's file part.
#[tactic(auto, unfolding(crate::specs::Layout::marked_lines))]
pub fn mark_lines(alloc: Global, file: &[u8], base: u32, size: u32) -> Result<Vec<u32>, AllocError>
    requires { HasTable file.now }
    ensures { IfOk result (λ lines. lines.items ≡ marked_lines base size file.now) }
{
    (0..size / LINE)
        .filter(|line| is_marked(file, base, *line))
        .collect(alloc)
}

/// The greatest end of a segment that takes memory, and `base` where there is none.
fn greatest_end(file: &[u8], base: u32, size: u32) -> u32
    requires memory { IsMemory base size }
    requires table { HasTable file.now }
    requires faultless { IsFaultless base size file.now }
    ensures end { result ≡ greatest_end base (headers file.now) }
    ensures inside { result ≤ base + size }
{
    let mut end = base;
    for index in 0..header::count(file) {
        end = end.max(header::nth(file, index).end_from(base));
    }
    end
}

/// Where the heap begins in the memory of `size` bytes from `base` on.
#[tactic(auto, unfolding(crate::specs::Layout::first_break))]
pub fn first_break(file: &[u8], base: u32, size: u32) -> u32
    requires memory { IsMemory base size }
    requires table { HasTable file.now }
    requires faultless { IsFaultless base size file.now }
    ensures { result ≡ first_break base size file.now }
{
    greatest_end(file, base, size).next_multiple_of(BREAK_STEP)
}
