//! What stops a pass in a line.

ghost use Rattle.std.specs.Prelude.{◌≡◌};
ghost use Rattle.rv32_asm.specs.PassViews.{fault_in};

use crate::fault::{AsmFault, AsmKind};
use asc_base::NoMemory;

/// What stops a pass in a line.
#[derive(Clone, Copy, Debug, PartialEq, Eq)]
pub(crate) enum Problem {
    /// A fault.
    Kind(AsmKind),
    /// Want of memory.
    NoMemory,
}

impl From<AsmKind> for Problem {
    ghost use Rattle.rv32_asm.specs.declared.problem.Problem.TheVariants.{Kind};

    ghost from_gives = { λ kind problem. problem ≡ Kind kind };

    fn from(kind: AsmKind) -> Problem {
        Problem::Kind(kind)
    }
}

impl From<NoMemory> for Problem {
    ghost use Rattle.rv32_asm.specs.declared.problem.Problem.TheVariants as problem;

    ghost from_gives = { λ _ found. found ≡ problem.NoMemory };

    fn from(_want: NoMemory) -> Problem {
        Problem::NoMemory
    }
}

impl Problem {
    /// The same in the line of this number.
    pub(crate) fn in_line(self, line: u32) -> AsmFault
        ensures { result ≡ fault_in line self }
    {
        match self {
            Problem::Kind(kind) => AsmFault::Bad { line, kind },
            Problem::NoMemory => AsmFault::NoMemory,
        }
    }
}
