//! From a text to its file.

ghost use Rattle.std.specs.Prelude.{◌≡◌, ◌≤◌, ◌+◌, IfOk, length};
ghost use Rattle.rv32_asm.specs.File.{assembled};
ghost use Rattle.rv32_asm.specs.Passes.{program_of};
ghost use Rattle.rv32_asm.specs.PassViews.{GivesProgram};

use crate::fault::AsmFault;
use crate::file::file_of;
use crate::first::first_pass;
use crate::second::second_pass;
use std::alloc::Global;

/// The bytes of the program that a text is, from the place `at` on, by two passes over its lines.
fn program_bytes(alloc: Global, text: &[u8], at: u32) -> Result<Vec<u8>, AsmFault>
    requires place { at ≤ 4_294_901_760 }
    requires short { length text.now ≤ 4_194_304 }
    ensures program { GivesProgram (λ bytes. bytes.items) result (program_of at text.now) }
    ensures within { IfOk result (λ bytes. at + length bytes.items ≤ 4_294_901_760) }
{
    let at = u64::from(at);
    let (labels, count) = first_pass(alloc, text, at)?;
    second_pass(alloc, text, at, &labels, count)
}

/// The ELF file of the program that a text is, from the place `at` on: the ELF header, one PT_LOAD, and the program's
/// bytes. The grammar, the statements and the file are those of `specs/`.
///
/// A text that is no program is refused with its first fault: of a first pass over its lines the one in the least line,
/// where a line's faults come in the order of [`crate::AsmKind`]'s variants, and where that pass found none, of a
/// second the one in the least line. `NoMemory` is want of memory, and may come for any text.
pub fn assemble(alloc: Global, text: &[u8], at: u32) -> Result<Vec<u8>, AsmFault>
    requires place { at ≤ 4_294_901_760 }
    requires short { length text.now ≤ 4_194_304 }
    ensures { GivesProgram (λ file. file.items) result (assembled at text.now) }
{
    let bytes = program_bytes(alloc, text, at)?;
    let file = file_of(alloc, at, &bytes)?;
    Ok(file)
}
