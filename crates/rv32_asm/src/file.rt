//! The ELF file of a program (System V gABI, "ELF Header" and "Program Header"; RISC-V psABI, "File Header").

ghost use Rattle.std.specs.Prelude.{◌≡◌, ◌<◌, ◌^◌, ◌++◌, OnOk, IfOk, length};
ghost use Rattle.rv32_asm.specs.File.{halves, words, elf_header, program_header, file_of};

use crate::second::push_all;
use asc_base::NoMemory;
use std::alloc::Global;

/// e_ident: the magic number, ELFCLASS32, ELFDATA2LSB, EV_CURRENT, and zeros.
const IDENTITY: [u8; 16] = [0x7f, b'E', b'L', b'F', 1, 1, 1, 0, 0, 0, 0, 0, 0, 0, 0, 0];

/// The bytes of the ELF header.
const HEADER_SIZE: u32 = 52;

/// The bytes of a program header.
const PROGRAM_HEADER_SIZE: u16 = 32;

/// Where the program's bytes stand in the file: behind both headers.
const OFFSET: u32 = 84;

/// ET_EXEC
const EXECUTABLE: u16 = 2;

/// EM_RISCV
const MACHINE_RISCV: u16 = 243;

/// EV_CURRENT
const CURRENT_VERSION: u32 = 1;

/// PT_LOAD
const LOAD: u32 = 1;

/// PF_R, PF_W and PF_X
const ALL_FLAGS: u32 = 7;

/// Appends numbers of two bytes, the lowest byte of each first.
fn push_halves(numbers: &[u16], into: &mut Vec<u8>) -> Result<(), NoMemory>
    ensures { OnOk result (into.new.items ≡ into.old.items ++ halves numbers.now) }
{
    for half in numbers {
        push_all(&half.to_le_bytes(), into)?;
    }
    Ok(())
}

/// Appends numbers of four bytes, the lowest byte of each first.
fn push_words(numbers: &[u32], into: &mut Vec<u8>) -> Result<(), NoMemory>
    ensures { OnOk result (into.new.items ≡ into.old.items ++ words numbers.now) }
{
    for word in numbers {
        push_all(&word.to_le_bytes(), into)?;
    }
    Ok(())
}

/// Appends the ELF header of a program that begins at this place.
fn push_elf_header(at: u32, into: &mut Vec<u8>) -> Result<(), NoMemory>
    ensures { OnOk result (into.new.items ≡ into.old.items ++ elf_header at) }
{
    push_all(&IDENTITY, into)?;
    push_halves(&[EXECUTABLE, MACHINE_RISCV], into)?;
    push_words(&[CURRENT_VERSION, at, HEADER_SIZE, 0, 0], into)?;
    push_halves(&[HEADER_SIZE as u16, PROGRAM_HEADER_SIZE, 1, 0, 0, 0], into)
}

/// Appends the program header of a program that begins at this place and has so many bytes.
fn push_program_header(at: u32, count: u32, into: &mut Vec<u8>) -> Result<(), NoMemory>
    ensures { OnOk result (into.new.items ≡ into.old.items ++ program_header at count) }
{
    push_words(&[LOAD, OFFSET, at, at, count, count, ALL_FLAGS, 4], into)
}

/// The file of a program that begins at this place.
pub(crate) fn file_of(alloc: Global, at: u32, bytes: &[u8]) -> Result<Vec<u8>, NoMemory>
    requires { length bytes.now < 2 ^ 32 }
    ensures { IfOk result (λ file. file.items ≡ file_of at bytes.now) }
{
    let mut file = Vec::new(alloc);
    push_elf_header(at, &mut file)?;
    push_program_header(at, bytes.len() as u32, &mut file)?;
    push_all(bytes, &mut file)?;
    Ok(file)
}
