//! The command `asm`.
ghost use Rattle.std.specs.Prelude.{◌≡◌, IfErr, IfOk, OnOk};
ghost use Rattle.ascend_top.specs.Asm.{asm_file, asm_steps, place_in, write_steps};
ghost use Rattle.ascend_top.specs.Command.{StepsEnd, bytes_end};
ghost use Rattle.ascend_top.specs.Steps.{AllDone, IsRefused, Shows};

use crate::commands::file_of;
use crate::refusal::Refusal;
use crate::steps;
use asc_outside::Host;
use ascend_words::{Name, Words};
use std::alloc::Global;

/// Where the program begins.
fn place(words: &Words) -> u64
    ensures { result ≡ place_in words.now.given }
{
    words.number(Name::At).unwrap_or(65_536)
}

/// Judges the place, and reads the text: the program's file.
fn assembled<H: Host>(alloc: Global, words: &Words, host: &mut H) -> Result<Vec<u8>, Refusal>
    ensures file { IfOk result (λ file. Shows (H.state host.new).files (λ files.
        file.items ≡ asm_file words.now.given files)) }
    ensures done { OnOk result (AllDone (asm_steps words.now.given) (H.state host.old) (H.state host.new)) }
    ensures refused { IfErr result (λ refusal.
        IsRefused (asm_steps words.now.given) refusal (H.state host.old) (H.state host.new)) }
{
    let at = match steps::judge_place(place(words)) {
        Ok(at) => at,
        Err(refusal) => return Err(refusal),
    };
    let text = file_of(words, Name::Text);
    match steps::read_text(alloc, text, at, host) {
        Ok(file) => Ok(file),
        Err(refusal) => Err(refusal),
    }
}

/// The command `asm`, up to the first refusal: the file that was written.
pub(crate) fn asm<H: Host>(alloc: Global, words: &Words, host: &mut H) -> Result<Vec<u8>, Refusal>
    ensures { StepsEnd (asm_steps words.now.given) (write_steps words.now.given)
        (λ told file. Shows told (λ files. file ≡ asm_file words.now.given files))
        (bytes_end (λ file. file.items) result) (H.state host.old) (H.state host.new) }
{
    let file = match assembled(alloc, words, host) {
        Ok(file) => file,
        Err(refusal) => return Err(refusal),
    };
    let elf = file_of(words, Name::Elf);
    match steps::write_file(elf, file.as_slice(), host) {
        Ok(()) => Ok(file),
        Err(refusal) => Err(refusal),
    }
}
