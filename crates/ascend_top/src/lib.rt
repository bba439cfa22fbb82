//! The commands of `ascend`, over any host, memory and tap.
//!
//! A command is a list of steps: numbers are judged, files are read, a program is run, assembled or listed, or a trace
//! is checked, files are written, a text is printed. The first refusal ends it, and its text is printed. `run` and
//! `gen` alone ask the memory and tell the tap.
#![tactic(auto)]

mod commands;
mod instance;
mod laws;
mod listing;
mod refusal;
mod status;
mod steps;
mod text;
mod traces;

ghost use Rattle.std.specs.Prelude.{◌≡◌, ◌⊎◌, ◌<◌, ◌^◌, ℕ, List, [], Some, Err, IsSome, Result};
ghost use Rattle.asc_outside.specs.Host.{Files};
ghost use Rattle.asc_outside.specs.Rose.{Rose};
ghost use Rattle.ascend_words.specs.Grammar.{Read, IsFault, IsWords, texts};
ghost use Rattle.ascend_words.specs.declared.table.Command.TheVariants.{Gen, Run};
ghost use Rattle.ascend_top.specs.Command.{AreRight, CommandEnds, Completes, IsFirstRefusal, IsOfFiles, WorkEnds};
ghost use Rattle.ascend_top.specs.Command.{Tells, end_of, steps_of};
ghost use Rattle.ascend_top.specs.Complete.{CompletesPlay, HasRoom};
ghost use Rattle.ascend_top.specs.Lent.{IsIdle, lent_as};
ghost use Rattle.ascend_top.specs.Headline.{CarriesHeadline, RunsEncrypted};
ghost use Rattle.ascend_top.specs.Made.{Made};
ghost use Rattle.ascend_top.specs.Status.{status_of, status_of_refusal};
ghost use Rattle.ascend_top.specs.declared.refusal.Refusal.{Refusal as WhyRefused};
ghost use Rattle.ascend_top.specs.declared.refusal.Refusal.TheVariants.{Usage};

use crate::commands::{
    Product, asm, assembled, check, disasm, encrypted, flat, generated, held, listed, ran, run,
};
use crate::refusal::Refusal;
use asc_outside::{Host, HostFault, UntrustedMemory};
use ascend_words::{Command, WordFault, Words, read_words};
use bus_watch::Recorder;
pub use instance::{Outside, Unfailing, ascend_over_honest_memory, outside_with_key};
pub use laws::{
    assembled_files_are_accepted, completeness_can_be_met, headlines_have_rows,
    reported_runs_leave_their_files, runs_over_honest_memory_are_plays,
};
pub use status::{HOST_FAILED, NO_MEMORY};
use std::alloc::Global;

/// Runs a command, and answers its status. `run` and `gen` run a program over the memory, whose moves the tap notes;
/// before it the memory isn't prepared, and the tap was told nothing.
///
/// | Status | Comes where |
/// |---|---|
/// | 0, 1, 9 | a run ended by exit, by a trap, with its budget |
/// | 6, 7 | a run ended with evidence that the memory was altered, with more in the stash than the settings allow |
/// | 8, 10 | a run ended with its time, as the memory failed |
/// | 0 | the text was assembled and its file written; the program's statements were printed; the trace holds |
/// | 2 | the words break a rule, or a required one is missing |
/// | 3 | the ELF file, or that of a made program, has a fault, the first of which is printed |
/// | 4 | a setting or number is out of range, the key file is shorter than a key |
/// | 4 | the text has a fault or is no trace's |
/// | 5 | a call of the host failed |
/// | 11 | there is no memory |
/// | 12 | no choices of rates make the slots of the trace |
/// | 13 | a file is too long, in bytes: trace 67,108,864, ELF 16,777,216, text 4,194,304, input 1,048,576, key 32 |
///
/// With the statuses of a run its output was written, and its trace where a file is named for it, and its report was
/// printed. The text of a refusal is printed, but for statuses 5 and 11. With these two the output file is the run's
/// whole output wherever its write was asked and isn't the call that failed: so where only the print of the report
/// failed.
pub fn ascend<H: Host, M: UntrustedMemory>(
    alloc: Global,
    words: &[String],
    host: &mut H,
    memory: &mut M,
    tap: &mut Recorder,
) -> u8
    requires fresh { (M.state memory.old).count ≡ 0 }
    requires moved { (M.state memory.old).moved < 2 ^ 62 }
    requires no_events { tap.old.log.events ≡ [] }
    requires no_moves { tap.old.log.moves ≡ [] }
    requires no_altered { tap.old.log.altered ≡ [] }
    ensures usage { (word : ℕ) → IsFault (texts words.now) word → (end : WhyRefused) × (result ≡ status_of_refusal end)
        × Tells (Usage word) end (H.state host.old) (H.state host.new) }
    ensures unread { (word : ℕ) → IsFault (texts words.now) word
        → IsIdle (lent_as (M.state memory.old) (M.state memory.new) tap.old tap.new) }
    ensures command { (read : Read) → IsWords (texts words.now) read
        → (end : Result Made WhyRefused) × (result ≡ status_of end)
        × CommandEnds read (lent_as (M.state memory.old) (M.state memory.new) tap.old tap.new) end
        (H.state host.old) (H.state host.new) }
    ensures others { (read : Read) → IsWords (texts words.now) read → (read.command ≡ Run → ⊥)
        → (read.command ≡ Gen → ⊥)
        → IsIdle (lent_as (M.state memory.old) (M.state memory.new) tap.old tap.new) }
    ensures headline { (read : Read) → IsWords (texts words.now) read → RunsEncrypted read.command
        → (end : Result Made WhyRefused) × (result ≡ status_of end)
        × CommandEnds read (lent_as (M.state memory.old) (M.state memory.new) tap.old tap.new) end
        (H.state host.old) (H.state host.new)
        × CarriesHeadline read.command read.given (H.state host.old).files
        (lent_as (M.state memory.old) (M.state memory.new) tap.old tap.new) end }
    ensures complete { (read : Read) (files : Files) → IsWords (texts words.now) read
        → (H.state host.old).files ≡ Some files → AreRight read files
        → ¬ Rose (H.state host.old).faults (H.state host.new).faults
        → Completes read files (lent_as (M.state memory.old) (M.state memory.new) tap.old tap.new) result
        (H.state host.old) (H.state host.new) }
    ensures complete_play { (read : Read) (files : Files) → IsWords (texts words.now) read
        → RunsEncrypted read.command → (H.state host.old).files ≡ Some files → AreRight read files
        → ¬ Rose (H.state host.old).faults (H.state host.new).faults → IsSome (M.state memory.old).told
        → ¬ ((M.state memory.old).faults < (M.state memory.new).faults) → HasRoom read.command read.given files
        → CompletesPlay read files (lent_as (M.state memory.old) (M.state memory.new) tap.old tap.new) result
        (H.state host.old) (H.state host.new) }
    ensures refused { (read : Read) (files : Files) (refusal : WhyRefused) → IsWords (texts words.now) read
        → (H.state host.old).files ≡ Some files → IsOfFiles refusal
        → IsFirstRefusal files (steps_of read.command read.given) refusal
        → ¬ Rose (H.state host.old).faults (H.state host.new).faults
        → (result ≡ NO_MEMORY) ⊎ (result ≡ status_of_refusal refusal) }
{
    match read_words(alloc, words) {
        Ok(words) => finish(alloc, &words, host, memory, tap),
        Err(WordFault::Usage { word }) => refuse(alloc, &Refusal::Usage { word }, host),
        Err(WordFault::NoMemory) => NO_MEMORY,
    }
}

/// A command of right words, with the text of its refusal.
fn finish<H: Host, M: UntrustedMemory>(
    alloc: Global,
    words: &Words,
    host: &mut H,
    memory: &mut M,
    tap: &mut Recorder,
) -> u8
    requires fresh { (M.state memory.old).count ≡ 0 }
    requires moved { (M.state memory.old).moved < 2 ^ 62 }
    requires no_events { tap.old.log.events ≡ [] }
    requires no_moves { tap.old.log.moves ≡ [] }
    requires no_altered { tap.old.log.altered ≡ [] }
    ensures { (end : Result Made WhyRefused) × (result ≡ status_of end)
        × CommandEnds words.now (lent_as (M.state memory.old) (M.state memory.new) tap.old tap.new) end
        (H.state host.old) (H.state host.new) }
{
    match take_steps(alloc, words, host, memory, tap) {
        Ok(product) => product.status(),
        Err(refusal) => refuse(alloc, &refusal, host),
    }
}

/// The steps and the work of a command, up to the first refusal.
fn take_steps<H: Host, M: UntrustedMemory>(
    alloc: Global,
    words: &Words,
    host: &mut H,
    memory: &mut M,
    tap: &mut Recorder,
) -> Result<Product, Refusal>
    requires fresh { (M.state memory.old).count ≡ 0 }
    requires moved { (M.state memory.old).moved < 2 ^ 62 }
    requires no_events { tap.old.log.events ≡ [] }
    requires no_moves { tap.old.log.moves ≡ [] }
    requires no_altered { tap.old.log.altered ≡ [] }
    ensures { WorkEnds words.now.command words.now.given
        (lent_as (M.state memory.old) (M.state memory.new) tap.old tap.new) (end_of result)
        (H.state host.old) (H.state host.new) }
{
    match words.command() {
        Command::Run => encrypted(run::run(alloc, words, host, memory, tap)),
        Command::Flat => ran(flat::flat(alloc, words, host)),
        Command::Asm => assembled(asm::asm(alloc, words, host)),
        Command::Disasm => listed(disasm::disasm(alloc, words, host)),
        Command::Check => held(check::check(alloc, words, host)),
        Command::Gen => { encrypted(generated::run_generated(alloc, words, host, memory, tap)) }
    }
}

/// Prints the text of a refusal, where it has one, and answers the status.
fn refuse<H: Host>(alloc: Global, refusal: &Refusal, host: &mut H) -> u8
    ensures { (end : WhyRefused) × (result ≡ status_of_refusal end)
        × Tells refusal.now end (H.state host.old) (H.state host.new) }
{
    let text = match text::refusal_text(alloc, refusal) {
        Ok(Some(text)) => text,
        Ok(None) => return refusal.status(),
        Err(_) => return Refusal::NoMemory.status(),
    };
    match host.print(text.as_bytes()) {
        Err(HostFault::NoMemory) => Refusal::NoMemory.status(),
        _ => refusal.status(),
    }
}

#[cfg(test)]
mod tests;
