//! What an instruction does, found from the registers and the word alone.

ghost use Rattle.std.specs.Prelude.{◌≡◌};
ghost use Rattle.rv32_core.specs.Machine.{is_jump, moved_by};
ghost use Rattle.rv32_core.specs.declared.effect.Effect.TheVariants.{Sets};

use crate::outcome::TrapKind;
use rv32_table::{LoadOp, StoreOp};

/// What an instruction does.
#[derive(Clone, Copy, Debug, PartialEq, Eq)]
pub enum Effect {
    /// Nothing, and the next instruction follows.
    Passes,
    /// A register gets a value, and the next instruction follows.
    Sets {
        register: u8,
        value: u32,
    },
    /// A register gets the address of the next instruction, and the one at `target` follows. A taken branch is a jump
    /// that sets x0, which stays 0.
    Jumps {
        register: u8,
        target: u32,
    },
    /// A register gets what is loaded at `address`.
    Loads {
        op: LoadOp,
        register: u8,
        address: u32,
    },
    /// The low bytes of `value` are stored at `address`.
    Stores {
        op: StoreOp,
        address: u32,
        value: u32,
    },
    /// A host call moves no byte and answers this.
    Answers {
        value: u32,
    },
    /// The break becomes this, which the host call answers.
    Breaks {
        value: u32,
    },
    /// The next `count` bytes of the input are stored from `address` on.
    Reads {
        address: u32,
        count: u32,
    },
    /// The `count` bytes from `address` on are appended to the output.
    Writes {
        address: u32,
        count: u32,
    },
    /// The program ends with this status.
    Exits {
        status: u8,
    },
    /// It traps.
    Traps {
        kind: TrapKind,
    },
}

impl Effect {
    /// A register gets a value.
    pub(crate) fn sets(register: u8, value: u32) -> Effect
        ensures { result ≡ Sets register value }
    {
        Effect::Sets { register, value }
    }

    /// Whether it is a taken jump or branch.
    pub(crate) fn is_jump(&self) -> bool
        ensures { result ≡ is_jump self.now }
    {
        matches!(self, Effect::Jumps { .. })
    }

    /// How many bytes a host call moves.
    pub(crate) fn moved(&self) -> u32
        ensures { result ≡ moved_by self.now }
    {
        match *self {
            Effect::Reads { count, .. } | Effect::Writes { count, .. } => count,
            _ => 0,
        }
    }
}
