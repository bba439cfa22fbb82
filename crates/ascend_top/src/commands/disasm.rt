//! The command `disasm`.
ghost use Rattle.std.specs.Prelude.{◌≡◌, IfErr, IfOk, OnOk};
ghost use Rattle.elf_loader.specs.Faults.{IsReadable};
ghost use Rattle.ascend_top.specs.Command.{StepsEnd, bytes_end};
ghost use Rattle.ascend_top.specs.Disasm.{disasm_listing, disasm_steps, print_steps};
ghost use Rattle.ascend_top.specs.FlatRun.{bytes_in, file_in};
ghost use Rattle.ascend_top.specs.Steps.{AllDone, IsRefused, Shows};
ghost use Rattle.ascend_words.specs.declared.table.Name.TheVariants.{Elf as ElfName};

use crate::commands::file_of;
use crate::refusal::Refusal;
use crate::{listing, steps};
use asc_outside::Host;
use ascend_words::{Name, Words};
use std::alloc::Global;

/// Judges the settings, and reads the ELF file.
fn read<H: Host>(alloc: Global, words: &Words, host: &mut H) -> Result<Vec<u8>, Refusal>
    ensures readable { IfOk result (λ file. IsReadable file.items) }
    ensures told { IfOk result (λ file. Shows (H.state host.new).files (λ files.
        file.items ≡ bytes_in files (file_in words.now.given ElfName))) }
    ensures done { OnOk result (AllDone (disasm_steps words.now.given) (H.state host.old) (H.state host.new)) }
    ensures refused { IfErr result (λ refusal.
        IsRefused (disasm_steps words.now.given) refusal (H.state host.old) (H.state host.new)) }
{
    let config = match steps::judge(words.settings()) {
        Ok(config) => config,
        Err(refusal) => return Err(refusal),
    };
    let elf = file_of(words, Name::Elf);
    match steps::read_segments(alloc, elf, config.base, config.size, host) {
        Ok(file) => Ok(file),
        Err(refusal) => Err(refusal),
    }
}

/// The command `disasm`, up to the first refusal: the text that was printed.
pub(crate) fn disasm<H: Host>(
    alloc: Global,
    words: &Words,
    host: &mut H,
) -> Result<Vec<u8>, Refusal>
    ensures { StepsEnd (disasm_steps words.now.given) print_steps
        (λ told text. Shows told (λ files. text ≡ disasm_listing words.now.given files))
        (bytes_end (λ text. text.items) result) (H.state host.old) (H.state host.new) }
{
    let file = match read(alloc, words, host) {
        Ok(file) => file,
        Err(refusal) => return Err(refusal),
    };
    let text = match listing::listing_of(alloc, file.as_slice()) {
        Ok(text) => text,
        Err(_) => return Err(Refusal::NoMemory),
    };
    match steps::print(text.as_slice(), host) {
        Ok(()) => Ok(text),
        Err(refusal) => Err(refusal),
    }
}
