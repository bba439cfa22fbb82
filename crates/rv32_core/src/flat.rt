//! Bytes in one vector.

ghost use Rattle.std.specs.Prelude.{◌+◌, ◌^◌, ◌≤◌, ◌≡◌, IfOk, length};

use crate::memory::Bytes;
use asc_base::NoMemory;
use std::alloc::Global;
use std::marker::Model;

/// The bytes of a memory in one vector. They are never stopped, and always told.
#[derive(Debug, Drop)]
pub struct FlatBytes {
    base: u32,
    bytes: Vec<u8>,
}

impl Model for FlatBytes {
    ghost use Rattle.std.specs.Prelude.{◌+◌, ◌^◌, ◌≤◌, length};
    ghost use Rattle.rv32_core.specs.Access.{FlatState};

    ghost Value = { FlatState };

    ghost view = { λ b. record { base = b.base; bytes = b.bytes.items } };

    ghost invariant = { λ b. b.base + length b.bytes.items ≤ 2 ^ 32 };
}

/// What never is: no stop.
#[derive(Clone, Copy)]
pub enum Never {}

impl FlatBytes {
    /// A memory of these bytes, from the address `base` on.
    pub fn new(alloc: Global, image: &[u8], base: u32) -> Result<FlatBytes, NoMemory>
        requires { base + length image.now ≤ 2 ^ 32 }
        ensures { IfOk result (λ bytes. bytes ≡ record { base = base; bytes = image.now }) }
    {
        match image.to_vec(alloc) {
            Ok(bytes) => Ok(FlatBytes { base, bytes }),
            Err(_) => Err(NoMemory),
        }
    }
}

impl Bytes for FlatBytes {
    ghost use Rattle.std.specs.Prelude.{Some, length};
    ghost use Rattle.rv32_core.specs.Access.{
      FlatAccess,
      FlatAccess-base,
      FlatAccess-size,
      FlatAccess-answers,
      FlatAccess-told,
      FlatAccess-load,
      FlatAccess-store,
    };
    ghost use Rattle.rv32_core.specs.declared.flat.Never.{Never};

    type Stop = Never;

    ghost base = { λ b. b.base };

    ghost size = { λ b. length b.bytes };

    ghost told = { λ b. Some b.bytes };

    ghost ready = { λ _. Unit {0} };

    ghost step = { FlatAccess };

    fn load(&mut self, address: u32, into: &mut [u8]) -> Result<(), Never> {
        let from = (address - self.base) as usize;
        into.copy_from_slice(&self.bytes[from..from + into.len()]);
        Ok(())
    }

    fn store(&mut self, address: u32, bytes: &[u8]) -> Result<(), Never> {
        let from = (address - self.base) as usize;
        self.bytes[from..from + bytes.len()].copy_from_slice(bytes);
        Ok(())
    }

    ghost keeps_base = { λ old new access answer h. FlatAccess-base old new access answer h };

    ghost keeps_size = { λ old new access answer h. FlatAccess-size old new access answer h };

    ghost stays_ready = { λ old new access bytes ready h. tt };

    ghost answers = { λ old new access bytes h. FlatAccess-answers Never old new access bytes h };

    ghost told_size = { λ bytes memory told. FlatAccess-told bytes memory told };

    ghost tells_load = { λ old new address count bytes h. FlatAccess-load Never old new address count bytes h };

    ghost tells_store = { λ old new address bytes done h. FlatAccess-store Never old new address bytes done h };
}
