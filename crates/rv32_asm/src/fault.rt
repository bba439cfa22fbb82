//! Why a text isn't assembled.

ghost use Rattle.std.specs.Prelude.{◌≡◌};

use asc_base::NoMemory;
use thiserror::Error;

/// What is wrong in a line.
#[derive(Clone, Copy, Debug, PartialEq, Eq)]
pub enum AsmKind {
    /// A byte that a text may not have.
    Byte,
    /// A label that is no name or was defined before.
    Label,
    /// No statement has this word.
    Word,
    /// The statement's operands are of another number or form.
    Operands,
    /// There are more than 16,000,000 bytes so far, or a place is past 4,294,901,760.
    TooLong,
    /// A label that isn't defined.
    Unknown,
    /// A number or an offset is out of its range, an offset is odd, or an instruction or a word stands at a place that
    /// isn't a multiple of four.
    Range,
}

/// Why a text isn't assembled.
#[derive(Clone, Copy, Debug, PartialEq, Eq, Error)]
pub enum AsmFault {
    /// A line, counted from 1, and what is wrong in it.
    #[error("line {line}: {kind:?}")]
    Bad { line: u32, kind: AsmKind },
    /// Want of memory.
    #[error("out of memory")]
    NoMemory,
}

impl From<NoMemory> for AsmFault {
    ghost use Rattle.rv32_asm.specs.declared.fault.AsmFault.TheVariants as fault;

    ghost from_gives = { λ _ found. found ≡ fault.NoMemory };

    fn from(_want: NoMemory) -> AsmFault {
        AsmFault::NoMemory
    }
}
