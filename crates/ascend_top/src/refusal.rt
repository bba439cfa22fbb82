ghost use Rattle.std.specs.Prelude.{◌≡◌};
ghost use Rattle.ascend_top.specs.Status.{status_of_refusal};
ghost use Rattle.ascend_top.specs.Steps.{limit_of};
ghost use Rattle.ascend_top.specs.Texts.{name_of};

use crate::status;
use asc_base::Setting;
use ascend_words::Name;
use bus_trace::TraceKind;
use elf_loader::ElfFault;
use rv32_asm::AsmKind;

/// The length of a key, and the greatest length of its file, in bytes.
pub(crate) const KEY_LENGTH: usize = 32;

/// A file that a command reads.
#[derive(Clone, Copy, Debug, PartialEq, Eq)]
pub(crate) enum Source {
    /// The file of the key.
    Key,
    /// The program, an ELF file.
    Elf,
    /// The file of the program's input.
    Input,
    /// The text that is assembled.
    Text,
    /// The file of a trace.
    Trace,
}

impl Source {
    /// The greatest length of the file, in bytes.
    pub(crate) fn limit(self) -> usize
        ensures { result ≡ limit_of self }
    {
        match self {
            Source::Key => KEY_LENGTH,
            Source::Elf => 16_777_216,
            Source::Input => 1_048_576,
            Source::Text => 4_194_304,
            Source::Trace => 67_108_864,
        }
    }

    /// The name that the file is given by.
    pub(crate) fn name(self) -> Name
        ensures { result ≡ name_of self }
    {
        match self {
            Source::Key => Name::Key,
            Source::Elf => Name::Elf,
            Source::Input => Name::Input,
            Source::Text => Name::Text,
            Source::Trace => Name::Trace,
        }
    }
}

/// Why a command ends before its report.
#[derive(Debug, Drop)]
pub(crate) enum Refusal {
    /// The word with this number, counted from 1, breaks a rule.
    Usage { word: u64 },
    /// The setting isn't in its range, and is the first such.
    OutOfRange(Setting),
    /// The number of this name isn't in its range.
    NumberOutOfRange(Name),
    /// The text has this fault in a line, counted from 1, which is the first of all that it has.
    Assembler { line: u32, kind: AsmKind },
    /// The ELF file has this fault, which is named first of all that it has.
    Elf(ElfFault),
    /// The key file has this many bytes, fewer than a key.
    KeyLength { length: usize },
    /// The file has more bytes than its limit.
    TooLong(Source),
    /// The file is no trace's text: the number of its first line at fault, counted from 1, and what is wrong with it.
    Trace { line: u64, kind: TraceKind },
    /// No choices of rates make the slots of the trace: the number of its first line that none allows, what stands
    /// there, and what should.
    Fails { line: u64, found: u64, wanted: u64 },
    /// A call of the host failed.
    Host,
    /// There is no memory.
    NoMemory,
}

impl Refusal {
    /// The status of a command that is refused so.
    pub(crate) fn status(&self) -> u8
        ensures { result ≡ status_of_refusal self.now }
    {
        match self {
            Refusal::Usage { .. } => 2,
            Refusal::Elf(_) => 3,
            Refusal::OutOfRange(_)
            | Refusal::NumberOutOfRange(_)
            | Refusal::Assembler { .. }
            | Refusal::KeyLength { .. }
            | Refusal::Trace { .. } => 4,
            Refusal::Host => status::HOST_FAILED,
            Refusal::NoMemory => status::NO_MEMORY,
            Refusal::Fails { .. } => 12,
            Refusal::TooLong(_) => 13,
        }
    }
}
