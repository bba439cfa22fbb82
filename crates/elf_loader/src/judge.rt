//! The judgement of a file: its first fault, in the order in which they are named.

ghost use Rattle.std.specs.Prelude.{◌≡◌, ◌≢◌, ℕ, ◌+◌, ◌≤◌, ◌<◌, ◌%◌, ◌↔◌, length, false, IsTrue, IfErr, IfNone, IfSome};
ghost use Rattle.std.specs.Prelude.{OnOk};
ghost use Rattle.elf_loader.specs.Elf.{header_at, header_count};
ghost use Rattle.elf_loader.specs.Faults.{HasTable, IsBadSegment, IsClearBefore, IsFaultless, IsFirstFault};
ghost use Rattle.elf_loader.specs.Faults.{IsInterpreter, IsOutside, OverlapsLower};

use crate::fault::ElfFault;
use crate::header::{self, read_half, read_word};

/// The bytes of the ELF header.
const HEADER_SIZE: usize = 52;

/// The bytes of one program header.
const PROGRAM_HEADER_SIZE: u16 = 32;

/// The greatest number of program headers.
const HEADERS: u32 = 256;

const MAGIC: [u8; 4] = [0x7f, b'E', b'L', b'F'];

const CLASS_32: u8 = 1;

const LITTLE_ENDIAN: u8 = 1;

const CURRENT_VERSION: u8 = 1;

const EXECUTABLE: u16 = 2;

const MACHINE_RISCV: u16 = 243;

const FLAG_COMPRESSED: u32 = 1;

/// Judges e_ident.
fn judge_identity(file: &[u8]) -> Result<(), ElfFault>
    ensures clear { OnOk result ((base size : ℕ) → IsClearBefore base size file.now ElfFault.FileType) }
    ensures long { OnOk result (52 ≤ length file.now) }
    ensures first { IfErr result (λ fault. (base size : ℕ) → IsFirstFault base size file.now fault) }
{
    if file.len() < HEADER_SIZE {
        return Err(ElfFault::Short);
    }
    if !file.starts_with(&MAGIC) {
        return Err(ElfFault::Magic);
    }
    if file[4] != CLASS_32 {
        return Err(ElfFault::Class);
    }
    if file[5] != LITTLE_ENDIAN {
        return Err(ElfFault::Order);
    }
    if file[6] != CURRENT_VERSION {
        return Err(ElfFault::Version);
    }
    Ok(())
}

/// Judges e_type, e_machine and e_flags.
fn judge_machine(file: &[u8]) -> Result<(), ElfFault>
    requires clear { (base size : ℕ) → IsClearBefore base size file.now ElfFault.FileType }
    requires long { 52 ≤ length file.now }
    ensures clear { OnOk result ((base size : ℕ) → IsClearBefore base size file.now ElfFault.HeaderSize) }
    ensures first { IfErr result (λ fault. (base size : ℕ) → IsFirstFault base size file.now fault) }
{
    if read_half(file, 16) != EXECUTABLE {
        return Err(ElfFault::FileType);
    }
    if read_half(file, 18) != MACHINE_RISCV {
        return Err(ElfFault::Machine);
    }
    if read_word(file, 36) & FLAG_COMPRESSED != 0 {
        return Err(ElfFault::Compressed);
    }
    Ok(())
}

/// Judges where the program headers stand.
fn judge_table(file: &[u8]) -> Result<(), ElfFault>
    requires clear { (base size : ℕ) → IsClearBefore base size file.now ElfFault.HeaderSize }
    requires long { 52 ≤ length file.now }
    ensures clear { OnOk result ((base size : ℕ) → IsClearBefore base size file.now ElfFault.Interp) }
    ensures table { OnOk result (HasTable file.now) }
    ensures first { IfErr result (λ fault. (base size : ℕ) → IsFirstFault base size file.now fault) }
{
    let count = header::count(file);
    if count != 0 && read_half(file, 42) != PROGRAM_HEADER_SIZE {
        return Err(ElfFault::HeaderSize);
    }
    if count > HEADERS {
        return Err(ElfFault::Table);
    }
    if u64::from(read_word(file, 28)) + 32 * u64::from(count) > file.len() as u64 {
        return Err(ElfFault::Table);
    }
    Ok(())
}

/// Whether a program header names an interpreter.
fn has_interpreter(file: &[u8]) -> bool
    requires { HasTable file.now }
    ensures found { IsTrue result
        → (index : ℕ) × (index < header_count file.now) × IsInterpreter (header_at file.now index) }
    ensures none { result ≡ false
        → (index : ℕ) → index < header_count file.now → ¬ IsInterpreter (header_at file.now index) }
{
    for index in 0..header::count(file) {
        if header::nth(file, index).is_interpreter() {
            return true;
        }
    }
    false
}

/// The least index of a segment that isn't whole in the file, or is greater there than in the memory.
fn find_bad(file: &[u8]) -> Option<u32>
    requires { HasTable file.now }
    ensures within { IfSome result (λ index. index < header_count file.now) }
    ensures found { IfSome result (λ index. IsBadSegment file.now (header_at file.now index)) }
    ensures least { IfSome result (λ index. (k : ℕ) → k < index → ¬ IsBadSegment file.now (header_at file.now k)) }
    ensures none { IfNone result
        ((k : ℕ) → k < header_count file.now → ¬ IsBadSegment file.now (header_at file.now k)) }
{
    for index in 0..header::count(file) {
        if header::nth(file, index).is_bad(file) {
            return Some(index);
        }
    }
    None
}

/// The least index of a segment that isn't inside the memory.
fn find_outside(file: &[u8], base: u32, size: u32) -> Option<u32>
    requires { HasTable file.now }
    ensures within { IfSome result (λ index. index < header_count file.now) }
    ensures found { IfSome result (λ index. IsOutside base size (header_at file.now index)) }
    ensures least { IfSome result (λ index. (k : ℕ) → k < index → ¬ IsOutside base size (header_at file.now k)) }
    ensures none { IfNone result ((k : ℕ) → k < header_count file.now → ¬ IsOutside base size (header_at file.now k)) }
{
    for index in 0..header::count(file) {
        if header::nth(file, index).is_outside(base, size) {
            return Some(index);
        }
    }
    None
}

/// Whether the segment of this index takes a byte of memory that one of lower index takes too.
fn overlaps_lower(file: &[u8], index: u32) -> bool
    requires table { HasTable file.now }
    requires index { index < header_count file.now }
    ensures found { IsTrue result → OverlapsLower file.now index }
    ensures none { result ≡ false → ¬ OverlapsLower file.now index }
{
    let header = header::nth(file, index);
    for lower in 0..index {
        if header.shares_memory(&header::nth(file, lower)) {
            return true;
        }
    }
    false
}

/// The least index of a segment that takes a byte of memory that one of lower index takes too.
fn find_overlap(file: &[u8]) -> Option<u32>
    requires { HasTable file.now }
    ensures within { IfSome result (λ index. index < header_count file.now) }
    ensures found { IfSome result (λ index. OverlapsLower file.now index) }
    ensures least { IfSome result (λ index. (k : ℕ) → k < index → ¬ OverlapsLower file.now k) }
    ensures none { IfNone result ((k : ℕ) → k < header_count file.now → ¬ OverlapsLower file.now k) }
{
    for index in 0..header::count(file) {
        if overlaps_lower(file, index) {
            return Some(index);
        }
    }
    None
}

fn is_entry(address: u32, base: u32, size: u32) -> bool
    ensures { IsTrue result ↔ ((address % 4 ≡ 0) × (base ≤ address) × (address < base + size)) }
{
    address % 4 == 0 && base <= address && u64::from(address) < u64::from(base) + u64::from(size)
}

/// Judges the program headers and the entry.
fn judge_segments(file: &[u8], base: u32, size: u32) -> Result<(), ElfFault>
    requires clear { IsClearBefore base size file.now ElfFault.Interp }
    requires table { HasTable file.now }
    ensures faultless { OnOk result (IsFaultless base size file.now) }
    ensures first { IfErr result (IsFirstFault base size file.now) }
{
    if has_interpreter(file) {
        return Err(ElfFault::Interp);
    }
    if let Some(index) = find_bad(file) {
        return Err(ElfFault::Segment { index });
    }
    if let Some(index) = find_outside(file, base, size) {
        return Err(ElfFault::Outside { index });
    }
    if let Some(index) = find_overlap(file) {
        return Err(ElfFault::Overlap { index });
    }
    if !is_entry(header::entry(file), base, size) {
        return Err(ElfFault::Entry);
    }
    Ok(())
}

/// Judges a file for a memory of `size` bytes from `base` on.
pub fn judge(file: &[u8], base: u32, size: u32) -> Result<(), ElfFault>
    ensures faultless { OnOk result (IsFaultless base size file.now) }
    ensures table { OnOk result (HasTable file.now) }
    ensures first { IfErr result (IsFirstFault base size file.now) }
{
    judge_identity(file)?;
    judge_machine(file)?;
    judge_table(file)?;
    judge_segments(file, base, size)
}
