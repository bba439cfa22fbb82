//! The commands, each with its steps.
ghost use Rattle.std.specs.Prelude.{◌≡◌, [], IfErr, OnOk};
ghost use Rattle.ascend_top.specs.Command.{bytes_end, end_of, lifted, made_by, run_end};
ghost use Rattle.ascend_top.specs.FlatRun.{file_in};
ghost use Rattle.ascend_top.specs.Made.{Encrypted as MadeEncrypted, Ran, Assembled, Listed, Held as MadeHeld};
ghost use Rattle.ascend_top.specs.Status.{status_of_made};
ghost use Rattle.ascend_top.specs.Steps.{AllDone, IsRefused, where_named};
ghost use Rattle.ascend_words.specs.Settings.{text_in};

pub(crate) mod asm;
pub(crate) mod check;
pub(crate) mod disasm;
pub(crate) mod flat;
pub(crate) mod generated;
pub(crate) mod run;

use crate::commands::check::Held;
use crate::commands::flat::Outcome;
use crate::commands::run::Encrypted;
use crate::refusal::Refusal;
use crate::{status, steps};
use asc_outside::Host;
use ascend_words::{Name, Words};

/// What a command made, all of whose steps were done.
#[derive(Debug, Drop)]
pub(crate) enum Product {
    /// What a run over encrypted memory came to.
    Encrypted(Encrypted),
    /// What a flat run came to.
    Ran(Outcome),
    /// The file of an assembled text.
    Assembled(Vec<u8>),
    /// The lines of a program's statements.
    Listed(Vec<u8>),
    /// What a check says of a trace that holds.
    Held(Held),
}

impl Product {
    /// The status of a command that made this.
    pub(crate) fn status(&self) -> u8
        ensures { result ≡ status_of_made (made_by self.now) }
    {
        match self {
            Product::Encrypted(run) => status::of_run(run.report.ending),
            Product::Ran(outcome) => outcome.ending.status(),
            Product::Assembled(_) | Product::Listed(_) | Product::Held(_) => 0,
        }
    }
}

/// The end of a run over encrypted memory as a command's.
pub(crate) fn encrypted(end: Result<Encrypted, Refusal>) -> Result<Product, Refusal>
    ensures { end_of result ≡ lifted MadeEncrypted end }
{
    match end {
        Ok(run) => Ok(Product::Encrypted(run)),
        Err(refusal) => Err(refusal),
    }
}

/// A flat run's end as a command's.
pub(crate) fn ran(end: Result<Outcome, Refusal>) -> Result<Product, Refusal>
    ensures { end_of result ≡ lifted Ran (run_end end) }
{
    match end {
        Ok(outcome) => Ok(Product::Ran(outcome)),
        Err(refusal) => Err(refusal),
    }
}

/// The end of an assembler's work as a command's.
pub(crate) fn assembled(end: Result<Vec<u8>, Refusal>) -> Result<Product, Refusal>
    ensures { end_of result ≡ lifted Assembled (bytes_end (λ file. file.items) end) }
{
    match end {
        Ok(file) => Ok(Product::Assembled(file)),
        Err(refusal) => Err(refusal),
    }
}

/// The end of a disassembler's work as a command's.
pub(crate) fn listed(end: Result<Vec<u8>, Refusal>) -> Result<Product, Refusal>
    ensures { end_of result ≡ lifted Listed (bytes_end (λ text. text.items) end) }
{
    match end {
        Ok(text) => Ok(Product::Listed(text)),
        Err(refusal) => Err(refusal),
    }
}

/// The end of a check as a command's.
pub(crate) fn held(end: Result<Held, Refusal>) -> Result<Product, Refusal>
    ensures { end_of result ≡ lifted (λ held. MadeHeld held.code held.bits) end }
{
    match end {
        Ok(held) => Ok(Product::Held(held)),
        Err(refusal) => Err(refusal),
    }
}

/// The file that a name is given, which words of a command give that requires it; and else the empty text.
pub(crate) fn file_of(words: &Words, name: Name) -> &str
    ensures { result.now ≡ file_in words.now.given name }
{
    words.text(name).unwrap_or("")
}

/// Writes the file that a name is given, where it is given one.
pub(crate) fn write_where_named<H: Host>(
    words: &Words,
    name: Name,
    bytes: &[u8],
    host: &mut H,
) -> Result<(), Refusal>
    ensures done { OnOk result (AllDone (where_named (text_in words.now.given name) bytes.now [])
        (H.state host.old) (H.state host.new)) }
    ensures refused { IfErr result (λ refusal. IsRefused (where_named (text_in words.now.given name) bytes.now [])
        refusal (H.state host.old) (H.state host.new)) }
{
    match words.text(name) {
        Some(name) => steps::write_file(name, bytes, host),
        None => Ok(()),
    }
}
