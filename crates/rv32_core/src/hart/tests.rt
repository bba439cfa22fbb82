//! Steps that are stopped.

ghost use Rattle.std.specs.Prelude.{◌≡◌, length, IfOk, None};
ghost use Rattle.rv32_core.specs.Access.{IsAnswer};

use super::*;
use crate::flat::FlatBytes;
use std::alloc::Global;
use std::test::Fail;

const SIZE: u32 = 4096;

/// A memory from 0 on with this word, and zeros behind it.
fn memory_with(alloc: Global, word: u32) -> Result<FlatBytes, Fail>
    ensures base { IfOk result (λ bytes. bytes.base ≡ 0) }
    ensures size { IfOk result (λ bytes. length bytes.bytes ≡ 4096) }
{
    let mut image = vec![in alloc; 0u8; SIZE as usize]?;
    image[..4].copy_from_slice(&word.to_le_bytes());
    Ok(FlatBytes::new(alloc, &image, 0)?)
}

/// Bytes that are stopped where no access is left to be answered.
#[derive(Drop)]
struct Stopping {
    inner: FlatBytes,
    left: u32,
}

/// An access was stopped.
#[derive(Clone, Copy, Debug, PartialEq, Eq)]
struct Stopped;

impl Bytes for Stopping {
    type Stop = Stopped;

    ghost base = { λ s. s.inner.base };

    ghost size = { λ s. length s.inner.bytes };

    ghost told = { λ _. None };

    ghost ready = { λ _. Unit {0} };

    ghost step = { λ s access answer t. (t.inner.base ≡ s.inner.base) × (length t.inner.bytes ≡ length s.inner.bytes)
        × IfOk answer (IsAnswer access) };

    fn load(&mut self, address: u32, into: &mut [u8]) -> Result<(), Stopped> {
        if self.left == 0 {
            return Err(Stopped);
        }
        self.left -= 1;
        match self.inner.load(address, into) {
            Ok(()) => Ok(()),
            Err(never) => match never {},
        }
    }

    fn store(&mut self, address: u32, bytes: &[u8]) -> Result<(), Stopped> {
        if self.left == 0 {
            return Err(Stopped);
        }
        self.left -= 1;
        match self.inner.store(address, bytes) {
            Ok(()) => Ok(()),
            Err(never) => match never {},
        }
    }

    ghost keeps_base = { λ s t access answer h. h.0 };

    ghost keeps_size = { λ s t access answer h. h.1 };

    ghost stays_ready = { λ s t access bytes ready h. tt };

    ghost answers = { λ s t access bytes h. h.2 };

    ghost told_size = { λ s memory e. Prim.cc };

    ghost tells_load = { λ s t address count bytes h memory e. Prim.cc };

    ghost tells_store = { λ s t address bytes done h memory e. Prim.cc };
}

/// Each word, with a number in x17 and a value in x10, is stopped after so many answers, and is made again then.
#[test]
fn stops(rt: HostRuntime) -> Result<(), Fail> {
    let alloc = rt.alloc();
    let table = [
        // ecall: at the fetch, and at the second line of a read's bytes and of a write's
        (0x0000_0073, 0, 63, 0, 10),
        (0x0000_0073, 2, 63, 0, 10),
        (0x0000_0073, 0, 64, 1, 10),
        (0x0000_0073, 2, 64, 1, 10),
        // lw x10, 0(x11); sw x10, 0(x11)
        (0x0005_a503, 1, 0, 5, 0),
        (0x00a5_a023, 1, 0, 5, 5),
    ];
    for (word, left, number, value, answer) in table {
        let mut bytes = Stopping {
            inner: memory_with(alloc, word)?,
            left,
        };
        let mut core = Core::new(0, 0, SIZE, 0);
        core.registers[17] = number;
        core.registers[10] = value;
        core.registers[11] = 1084;
        core.registers[12] = 10;
        let mut files = Files::new(alloc, b"0123456789", 10)?;
        let stopped = core.step(&mut bytes, &mut files);
        assert_eq!(rt;
            (stopped.is_err(), core.registers[10], core.pc),
            (true, value, 0)
        );
        assert_eq!(rt; files.output().len(), 0);
        bytes.left = 100;
        let made = core.step(&mut bytes, &mut files);
        assert_eq!(rt;
            (made.is_ok(), core.registers[10], core.pc),
            (true, answer, 4)
        );
    }
    Ok(())
}
