//! An ELF file as the memory of a 32-bit RISC-V machine: the judgement of the file, and the memory that it describes
//! (System V gABI, "Object Files" and "Program Loading"; RISC-V psABI).
#![tactic(auto)]

mod fault;
mod header;
mod image;
mod judge;

ghost use Rattle.std.specs.Prelude.{◌≡◌, ◌≢◌, ◌↔◌, ◌<◌, ℕ, IfErr, IfOk, IfSome, OnOk, IsErrOf, IsSome, drop, take};
ghost use Rattle.elf_loader.specs.Elf.{entry_of, header_at, header_count};
ghost use Rattle.elf_loader.specs.Faults.{IsFaultless, IsFirstFault, IsLoad, IsReadable};
ghost use Rattle.elf_loader.specs.Layout.{first_break, image_bytes, marked_lines};
ghost use Rattle.asc_base.specs.Memory.{IsMemory};
ghost use Rattle.elf_loader.specs.Memory.{IsImage};
ghost use Rattle.elf_loader.specs.declared.fault.ElfFault.{ElfFault as Fault};

pub use fault::ElfFault;
pub use image::Image;
use std::alloc::Global;

/// The memory of `size` bytes from `base` on that an ELF file describes (System V gABI, "Program Loading"): zeros, with
/// the file part of each PT_LOAD in its place.
///
/// A file that has a fault is refused with the one that is named first: in the order of [`ElfFault`]'s variants, and
/// within a variant with an index the one of least index. `NoMemory` is want of memory, and comes only for a file that
/// has no fault. Sections and program headers of other types are passed over.
pub fn parse(alloc: Global, file: &[u8], base: u32, size: u32) -> Result<Image, ElfFault>
    requires { IsMemory base size }
    ensures faultless { OnOk result (IsFaultless base size file.now) }
    ensures readable { OnOk result (IsReadable file.now) }
    ensures first { IfErr result (λ fault. fault ≢ ElfFault.NoMemory → IsFirstFault base size file.now fault) }
    ensures exact { (fault : Fault) → IsFirstFault base size file.now fault → IsErrOf result fault }
    ensures no_memory { IsErrOf result ElfFault.NoMemory → IsFaultless base size file.now }
    ensures bytes { IfOk result (λ image. image.bytes.items ≡ image_bytes base size file.now) }
    ensures marked { IfOk result (λ image. image.marked.items ≡ marked_lines base size file.now) }
    ensures entry { IfOk result (λ image. image.entry ≡ entry_of file.now) }
    ensures heap { IfOk result (λ image. image.heap ≡ first_break base size file.now) }
    ensures image { IfOk result (IsImage base size) }
{
    if let Err(fault) = judge::judge(file, base, size) {
        return Err(fault);
    }
    let Ok(bytes) = image::lay_out(alloc, file, base, size) else {
        return Err(ElfFault::NoMemory);
    };
    let Ok(marked) = image::mark_lines(alloc, file, base, size) else {
        return Err(ElfFault::NoMemory);
    };
    Ok(Image {
        bytes,
        marked,
        entry: header::entry(file),
        heap: image::first_break(file, base, size),
    })
}

/// p_vaddr, p_flags and the file part of the program header of this index, counted from 0: None exactly where there is
/// no such header or it isn't PT_LOAD. The file has no fault of the kinds up to `Segment`, whatever the memory.
pub fn part(file: &[u8], index: u32) -> Option<(u32, u32, &[u8])>
    requires { IsReadable file.now }
    ensures found { IsSome result ↔ ((index < header_count file.now) × IsLoad (header_at file.now index)) }
    ensures address { IfSome result (λ part. part.0 ≡ (header_at file.now index).address) }
    ensures flags { IfSome result (λ part. part.1 ≡ (header_at file.now index).flags) }
    ensures bytes { IfSome result (λ part. part.2.now
        ≡ take (header_at file.now index).file_size (drop (header_at file.now index).offset file.now)) }
{
    if index >= header::count(file) {
        return None;
    }
    let header = header::nth(file, index);
    if !header.is_load() {
        return None;
    }
    Some((header.address, header.flags, header.part(file)))
}

#[cfg(test)]
mod tests;
