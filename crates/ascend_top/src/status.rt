ghost use Rattle.std.specs.Prelude.{◌≡◌};
ghost use Rattle.ascend_top.specs.FlatRun.{ending_of};
ghost use Rattle.ascend_top.specs.Status.{status_of_ending, status_of_run};

use rv32_core::TrapKind;

/// The status of a command one of whose calls of the host failed.
pub const HOST_FAILED: u8 = 5;

/// The status of a command that found no memory.
pub const NO_MEMORY: u8 = 11;

/// How a run ended.
#[derive(Clone, Copy, Debug, PartialEq, Eq)]
pub(crate) enum Ending {
    /// By its own call, with this status.
    Exit { status: u8 },
    /// By a trap of the instruction at `pc`.
    Trap { kind: TrapKind, pc: u32 },
    /// With all its instructions finished.
    Budget,
}

impl Ending {
    /// The status of a command whose run ended so.
    pub(crate) fn status(self) -> u8
        ensures { result ≡ status_of_ending (ending_of self) }
    {
        match self {
            Ending::Exit { .. } => 0,
            Ending::Trap { .. } => 1,
            Ending::Budget => 9,
        }
    }
}

/// The status of a command whose run over encrypted memory ended so.
pub(crate) fn of_run(ending: secure_machine::Ending) -> u8
    ensures { result ≡ status_of_run ending }
{
    match ending {
        secure_machine::Ending::Exit { .. } => 0,
        secure_machine::Ending::Trap { .. } => 1,
        secure_machine::Ending::Integrity(_) => 6,
        secure_machine::Ending::StashFull { .. } => 7,
        secure_machine::Ending::TimeUp { .. } => 8,
        secure_machine::Ending::Budget => 9,
        secure_machine::Ending::Device => 10,
    }
}
