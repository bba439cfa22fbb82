//! Bytes moved between a memory and a file, piece by piece in rising order, each piece inside one line.

ghost use Rattle.std.specs.Prelude.{◌≡◌, ℕ, ◌+◌, ◌-◌, ◌%◌, ◌^◌, ◌<◌, ◌≤◌, min, List, ◌++◌, Ok, Err, IfErr, OnOk, OnErr};
ghost use Rattle.std.specs.Prelude.{length, take, vec_len, vec_capacity};
ghost use Rattle.request_plan.specs.Plan.{Ends, Stops};
ghost use Rattle.rv32_core.specs.Access.{Load, IsInLine};
ghost use Rattle.rv32_core.specs.Transfer.{IsRange, pieces, stores_plan, loads_plan};

use crate::memory::Bytes;

/// The bytes of a line.
const LINE: u32 = 64;

/// How many bytes from an address on lie in its line, at most `most`.
fn piece_length(address: u32, most: u32) -> u32
    ensures { result ≡ min most (64 - address % 64) }
{
    most.min(LINE - address % LINE)
}

/// Stores bytes from an address on. Where a store is stopped, those before it were made.
pub(crate) fn store_all<B: Bytes>(memory: &mut B, address: u32, bytes: &[u8]) -> Result<(), B::Stop>
    requires range { IsRange (B.base memory.old) (B.size memory.old) address (length bytes.now) }
    requires ready { B.ready memory.old }
    ensures ok { OnOk result (Ends B.step (stores_plan bytes.now (pieces address (length bytes.now)))
        memory.old memory.new tt) }
    ensures err { IfErr result (λ stop. Stops B.step (stores_plan bytes.now (pieces address (length bytes.now)))
        memory.old memory.new stop tt) }
    ensures base { B.base memory.new ≡ B.base memory.old }
    ensures size { B.size memory.new ≡ B.size memory.old }
{
    let mut at = address;
    let mut rest = bytes;
    while !rest.is_empty() {
        let count = piece_length(at, rest.len() as u32);
        let (piece, later) = rest.split_at(count as usize);
        memory.store(at, piece)?;
        at += count;
        rest = later;
    }
    Ok(())
}

/// Loads bytes of one line from an address on and appends them to `output`, which has room for them.
fn load_piece<B: Bytes>(
    memory: &mut B,
    output: &mut Vec<u8>,
    address: u32,
    count: u32,
) -> Result<(), B::Stop>
    requires line { IsInLine (B.base memory.old) (B.size memory.old) address count }
    requires ready { B.ready memory.old }
    requires room { vec_len output.old + count ≤ vec_capacity output.old }
    ensures ok { OnOk result ((bytes : List ℕ) × B.step memory.old (Load address count) (Ok bytes) memory.new
        × (output.new.items ≡ output.old.items ++ bytes)) }
    ensures err { IfErr result (λ stop. B.step memory.old (Load address count) (Err stop) memory.new) }
    ensures len { OnOk result (vec_len output.new ≡ vec_len output.old + count) }
    ensures unchanged { OnErr result (output.new.items ≡ output.old.items) }
    ensures capacity { vec_capacity output.old ≤ vec_capacity output.new }
    ensures base { B.base memory.new ≡ B.base memory.old }
    ensures size { B.size memory.new ≡ B.size memory.old }
{
    let mut line = [0u8; LINE as usize];
    let piece = &mut line[..count as usize];
    memory.load(address, piece)?;
    output.extend_from_slice(piece).unwrap();
    Ok(())
}

/// Loads bytes from an address on and appends them to `output`, which has room for them. Where a load is stopped, those
/// before it were appended.
pub(crate) fn load_all<B: Bytes>(
    memory: &mut B,
    output: &mut Vec<u8>,
    address: u32,
    count: u32,
) -> Result<(), B::Stop>
    requires range { IsRange (B.base memory.old) (B.size memory.old) address count }
    requires ready { B.ready memory.old }
    requires room { vec_len output.old + count ≤ vec_capacity output.old }
    ensures ok { OnOk result (Ends B.step (loads_plan output.old.items (pieces address count))
        memory.old memory.new output.new.items) }
    ensures err { IfErr result (λ stop. Stops B.step (loads_plan output.old.items (pieces address count))
        memory.old memory.new stop tt) }
    ensures len { OnOk result (vec_len output.new ≡ vec_len output.old + count) }
    ensures before { take (vec_len output.old) output.new.items ≡ output.old.items }
    ensures capacity { vec_capacity output.old ≤ vec_capacity output.new }
    ensures base { B.base memory.new ≡ B.base memory.old }
    ensures size { B.size memory.new ≡ B.size memory.old }
{
    let mut at = address;
    let mut left = count;
    while left > 0 {
        let piece = piece_length(at, left);
        load_piece(memory, output, at, piece)?;
        at += piece;
        left -= piece;
    }
    Ok(())
}
