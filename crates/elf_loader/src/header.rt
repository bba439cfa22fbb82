//! The ELF header and the program headers (System V gABI, "ELF Header" and "Program Header"; RISC-V psABI).

ghost use Rattle.std.specs.Prelude.{◌≡◌, ℕ, ◌+◌, ◌≤◌, ◌↔◌, length, IsTrue, if◌then◌else◌, ◌<◌, ◌*◌, ◌^◌, take, drop};
ghost use Rattle.elf_loader.specs.Elf.{half, word, entry_of, flags_of, header_count, header_from, header_at};
ghost use Rattle.elf_loader.specs.Elf.{header_offset, header_size, file_type, machine_of};
ghost use Rattle.elf_loader.specs.Faults.{HasTable, IsBadSegment, IsInterpreter, IsLoad, IsOutside, ShareMemory};
ghost use Rattle.elf_loader.specs.Layout.{end_of, is_load, takes_memory, touches};

/// PT_LOAD
const LOAD: u32 = 1;

/// PT_INTERP
const INTERPRETER: u32 = 3;

/// A program header, as the file says it.
#[derive(Clone, Copy, Debug)]
pub struct ProgramHeader {
    /// p_type
    pub kind: u32,
    /// p_offset: where the segment's bytes stand in the file
    pub offset: u32,
    /// p_vaddr: the address of its first byte
    pub address: u32,
    /// p_filesz: how many bytes it has in the file
    pub file_size: u32,
    /// p_memsz: how many bytes it has in the memory
    pub memory_size: u32,
    /// p_flags
    pub flags: u32,
}

#[tactic(auto, using(crate::proofs::Numbers::half_read))]
pub fn read_half(file: &[u8], at: usize) -> u16
    requires { at + 2 ≤ length file.now }
    ensures { result ≡ half file.now at }
{
    u16::from_le_bytes([file[at], file[at + 1]])
}

#[tactic(auto, using(crate::proofs::Numbers::word_read))]
pub fn read_word(file: &[u8], at: usize) -> u32
    requires { at + 4 ≤ length file.now }
    ensures { result ≡ word file.now at }
{
    u32::from_le_bytes([file[at], file[at + 1], file[at + 2], file[at + 3]])
}

#[tactic(auto, unfolding(crate::specs::Elf::header_from))]
fn read_header(file: &[u8], at: usize) -> ProgramHeader
    requires { at + 32 ≤ length file.now }
    ensures { result ≡ header_from file.now at }
{
    ProgramHeader {
        kind: read_word(file, at),
        offset: read_word(file, at + 4),
        address: read_word(file, at + 8),
        file_size: read_word(file, at + 16),
        memory_size: read_word(file, at + 20),
        flags: read_word(file, at + 24),
    }
}

/// How many program headers there are.
pub fn count(file: &[u8]) -> u32
    requires { 52 ≤ length file.now }
    ensures { result ≡ header_count file.now }
{
    u32::from(read_half(file, 44))
}

/// The program header of an index, counted from 0.
pub fn nth(file: &[u8], index: u32) -> ProgramHeader
    requires table { HasTable file.now }
    requires index { index < header_count file.now }
    ensures { result ≡ header_at file.now index }
{
    let table = read_word(file, 28) as usize;
    read_header(file, table + 32 * index as usize)
}

/// The address of the program's first instruction.
pub fn entry(file: &[u8]) -> u32
    requires { 52 ≤ length file.now }
    ensures { result ≡ entry_of file.now }
{
    read_word(file, 24)
}

impl ProgramHeader {
    /// Whether it names an interpreter.
    pub fn is_interpreter(&self) -> bool
        ensures { IsTrue result ↔ IsInterpreter self.now }
    {
        self.kind == INTERPRETER
    }

    /// Whether it is a segment that is loaded.
    pub fn is_load(&self) -> bool
        ensures { result ≡ is_load self.now }
    {
        self.kind == LOAD
    }

    /// Whether it is a segment that is loaded and takes memory.
    pub fn takes_memory(&self) -> bool
        ensures { result ≡ takes_memory self.now }
    {
        self.kind == LOAD && self.memory_size > 0
    }

    /// The part of the file that the segment is loaded from.
    pub fn part<'f>(&self, file: &'f [u8]) -> &'f [u8]
        requires { self.now.offset + self.now.file_size ≤ length file.now }
        ensures value { result.now ≡ take self.now.file_size (drop self.now.offset file.now) }
        ensures len { length result.now ≡ self.now.file_size }
    {
        &file[self.offset as usize..][..self.file_size as usize]
    }

    /// Whether the line of 64 bytes with this number, counted from `base`, has a byte of the segment's file part.
    pub fn touches(&self, base: u32, line: u32) -> bool
        ensures { result ≡ touches self.now (base + 64 * line) }
    {
        let start = u64::from(base) + 64 * u64::from(line);
        let from = u64::from(self.address);
        let end = from + u64::from(self.file_size);
        self.kind == LOAD && from.max(start) < end.min(start + 64)
    }

    /// Where the segment ends in the memory, or `base` where it isn't loaded or takes none.
    pub fn end_from(&self, base: u32) -> u32
        requires { IsTrue (takes_memory self.now) → end_of self.now < 2 ^ 32 }
        ensures { result ≡ (if takes_memory self.now then end_of self.now else base) }
    {
        if self.takes_memory() {
            self.address + self.memory_size
        } else {
            base
        }
    }

    /// Whether it is a segment with more bytes in the file than in the memory, or with bytes beyond the file.
    pub fn is_bad(&self, file: &[u8]) -> bool
        ensures { IsTrue result ↔ IsBadSegment file.now self.now }
    {
        let end = u64::from(self.offset) + u64::from(self.file_size);
        self.kind == LOAD && (self.file_size > self.memory_size || end > file.len() as u64)
    }

    /// Whether it is a segment that takes memory, not all of it in the memory of `size` bytes from `base` on.
    pub fn is_outside(&self, base: u32, size: u32) -> bool
        ensures { IsTrue result ↔ IsOutside base size self.now }
    {
        let end = u64::from(self.address) + u64::from(self.memory_size);
        self.takes_memory() && (self.address < base || end > u64::from(base) + u64::from(size))
    }

    /// Whether both are segments that take a byte of memory.
    pub fn shares_memory(&self, other: &ProgramHeader) -> bool
        ensures { IsTrue result ↔ ShareMemory self.now other.now }
    {
        let start = u64::from(self.address.max(other.address));
        let end = u64::from(self.address) + u64::from(self.memory_size);
        let other_end = u64::from(other.address) + u64::from(other.memory_size);
        self.kind == LOAD && other.kind == LOAD && start < end.min(other_end)
    }
}
