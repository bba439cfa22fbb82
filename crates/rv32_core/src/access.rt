//! A load's and a store's bytes, which lie in one line.

ghost use Rattle.std.specs.Prelude.{◌≡◌, ℕ, ◌%◌, ◌≤◌, ◌+◌, ◌-◌, ◌++◌, IsTrue, List, Ok, Err, IfOk, IfErr, OnOk};
ghost use Rattle.std.specs.Prelude.{replicate};
ghost use Rattle.std.specs.Int.{from_le_bytes, w32};
ghost use Rattle.rv32_table.specs.Meaning.{load_width, load_meaning, store_width};
ghost use Rattle.rv32_core.specs.Access.{Load, Store, IsInLine};
ghost use Rattle.rv32_core.specs.FlatMachine.{stored_bytes};

use crate::memory::Bytes;
use rv32_arithmetic::extend;
use rv32_table::{LoadOp, StoreOp};

/// Loads the bytes of a load, and extends the number that they are.
pub(crate) fn load_value<B: Bytes>(bytes: &mut B, op: LoadOp, address: u32) -> Result<u32, B::Stop>
    requires line { IsInLine (B.base bytes.old) (B.size bytes.old) address (load_width op) }
    requires ready { B.ready bytes.old }
    ensures ok { IfOk result (λ value. (loaded : List ℕ)
        × B.step bytes.old (Load address (load_width op)) (Ok loaded) bytes.new
        × (value ≡ load_meaning op (from_le_bytes w32 loaded))) }
    ensures err { IfErr result (λ stop. B.step bytes.old (Load address (load_width op)) (Err stop) bytes.new) }
    ensures base { B.base bytes.new ≡ B.base bytes.old }
    ensures size { B.size bytes.new ≡ B.size bytes.old }
{
    let word = load_word(bytes, op, address)?;
    Ok(extend(op, u32::from_le_bytes(word)))
}

/// Loads the bytes of a load, and puts zeros behind them. Each width has a copy of its own, so that it is one move.
#[inline(always)]
fn load_word<B: Bytes>(bytes: &mut B, op: LoadOp, address: u32) -> Result<[u8; 4], B::Stop>
    requires line { IsInLine (B.base bytes.old) (B.size bytes.old) address (load_width op) }
    requires ready { B.ready bytes.old }
    ensures ok { IfOk result (λ word. (loaded : List ℕ)
        × B.step bytes.old (Load address (load_width op)) (Ok loaded) bytes.new
        × (word ≡ loaded ++ replicate (4 - load_width op) 0)) }
    ensures err { IfErr result (λ stop. B.step bytes.old (Load address (load_width op)) (Err stop) bytes.new) }
    ensures base { B.base bytes.new ≡ B.base bytes.old }
    ensures size { B.size bytes.new ≡ B.size bytes.old }
{
    let mut word = [0u8; 4];
    match op {
        LoadOp::Lb | LoadOp::Lbu => bytes.load(address, &mut word[..1])?,
        LoadOp::Lh | LoadOp::Lhu => bytes.load(address, &mut word[..2])?,
        LoadOp::Lw => bytes.load(address, &mut word[..4])?,
    }
    Ok(word)
}

/// Stores the low bytes of a value.
pub(crate) fn store_value<B: Bytes>(
    bytes: &mut B,
    op: StoreOp,
    address: u32,
    value: u32,
) -> Result<(), B::Stop>
    requires line { IsInLine (B.base bytes.old) (B.size bytes.old) address (store_width op) }
    requires ready { B.ready bytes.old }
    ensures ok { OnOk result ((done : List ℕ)
        × B.step bytes.old (Store address (stored_bytes op value)) (Ok done) bytes.new) }
    ensures err { IfErr result (λ stop. B.step bytes.old (Store address (stored_bytes op value)) (Err stop) bytes.new) }
    ensures base { B.base bytes.new ≡ B.base bytes.old }
    ensures size { B.size bytes.new ≡ B.size bytes.old }
{
    let word = value.to_le_bytes();
    match op {
        StoreOp::Sb => bytes.store(address, &word[..1]),
        StoreOp::Sh => bytes.store(address, &word[..2]),
        StoreOp::Sw => bytes.store(address, &word[..4]),
    }
}
