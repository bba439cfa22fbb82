use thiserror::Error;

/// Why a file gives no image, in the order in which faults are named (System V gABI, "ELF Header" and "Program Header";
/// RISC-V psABI, "File Header"). An `index` is that of a program header, counted from 0.
#[derive(Debug, Drop, PartialEq, Eq, Error)]
pub enum ElfFault {
    /// The file ends before its ELF header does, with fewer than 52 bytes.
    #[error("the file ends in its ELF header")]
    Short,
    /// EI_MAG0 to EI_MAG3 aren't 0x7f, 'E', 'L', 'F'.
    #[error("the magic number isn't that of an ELF file")]
    Magic,
    /// EI_CLASS isn't ELFCLASS32.
    #[error("EI_CLASS isn't ELFCLASS32")]
    Class,
    /// EI_DATA isn't ELFDATA2LSB.
    #[error("EI_DATA isn't ELFDATA2LSB")]
    Order,
    /// EI_VERSION isn't EV_CURRENT.
    #[error("EI_VERSION isn't EV_CURRENT")]
    Version,
    /// e_type isn't ET_EXEC.
    #[error("e_type isn't ET_EXEC")]
    FileType,
    /// e_machine isn't EM_RISCV.
    #[error("e_machine isn't EM_RISCV")]
    Machine,
    /// e_flags has EF_RISCV_RVC; no other flag counts.
    #[error("e_flags has EF_RISCV_RVC")]
    Compressed,
    /// e_phnum isn't 0 and e_phentsize isn't 32.
    #[error("e_phentsize isn't 32")]
    HeaderSize,
    /// e_phnum is above 256, or the program header table ends beyond the file.
    #[error("e_phnum is above 256, or the program header table ends beyond the file")]
    Table,
    /// A program header is PT_INTERP.
    #[error("a program header is PT_INTERP")]
    Interp,
    /// A PT_LOAD has more bytes in the file than in the memory, or bytes beyond the file.
    #[error("p_filesz of PT_LOAD {index} is above its p_memsz, or its part ends beyond the file")]
    Segment { index: u32 },
    /// A PT_LOAD takes memory, not all of it in the memory that was asked for.
    #[error("PT_LOAD {index} isn't inside the memory")]
    Outside { index: u32 },
    /// A PT_LOAD takes a byte of memory that one of lower index takes too.
    #[error("PT_LOAD {index} overlaps one of lower index")]
    Overlap { index: u32 },
    /// e_entry isn't a multiple of four in the memory.
    #[error("e_entry isn't a multiple of four inside the memory")]
    Entry,
    /// Want of memory.
    #[error("out of memory")]
    NoMemory,
}
