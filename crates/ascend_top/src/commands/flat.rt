//! The command `flat`, and the run over a plain list of bytes.
ghost use Rattle.std.specs.Prelude.{◌≡◌, List, IfErr, IfOk, OnOk, length};
ghost use Rattle.rv32_core.specs.FlatRun.{flat_run};
ghost use Rattle.rv32_core.specs.StepPlan.{machine_of};
ghost use Rattle.ascend_words.specs.Settings.{text_in, settings_of};
ghost use Rattle.ascend_words.specs.declared.table.Name.TheVariants.{Input as InputName};
ghost use Rattle.ascend_top.specs.Command.{StepsEnd, run_end};
ghost use Rattle.ascend_top.specs.Flat.{flat_steps, input_steps, program_steps, report_steps};
ghost use Rattle.ascend_top.specs.FlatRun.{flat_report, input_in, outcome_report};
ghost use Rattle.ascend_top.specs.Parts.{CanRun, EndsAs, IsConfigOf, IsProgramOf, RunEnds, program_report};
ghost use Rattle.ascend_top.specs.Steps.{AllDone, IsRefused, Shows};

use crate::commands::file_of;
use crate::refusal::{Refusal, Source};
use crate::status::Ending;
use crate::{steps, text};
use asc_base::{Config, NoMemory};
use asc_outside::Host;
use ascend_words::{Name, Words};
use elf_loader::Image;
use rv32_core::{Core, Ended, Files, FlatBytes, OUTPUT_LIMIT};
use std::alloc::Global;

/// What a run is of: its configuration, a program in its memory, and its input.
#[derive(Debug, Drop)]
pub(crate) struct Program {
    pub config: Config,
    pub image: Image,
    pub input: Vec<u8>,
}

/// What a run came to.
#[derive(Debug, Drop)]
pub(crate) struct Outcome {
    /// How many instructions finished.
    pub instructions: u64,
    pub ending: Ending,
    pub output: Vec<u8>,
}

/// Reads the input, where a file is named.
fn read_input<H: Host>(alloc: Global, words: &Words, host: &mut H) -> Result<Vec<u8>, Refusal>
    ensures input { IfOk result (λ input. Shows (H.state host.new).files (λ files.
        input.items ≡ input_in files words.now.given)) }
    ensures done { OnOk result
        (AllDone (input_steps (text_in words.now.given InputName)) (H.state host.old) (H.state host.new)) }
    ensures refused { IfErr result (λ refusal.
        IsRefused (input_steps (text_in words.now.given InputName)) refusal (H.state host.old) (H.state host.new)) }
{
    match words.text(Name::Input) {
        Some(name) => steps::read_file(alloc, Source::Input, name, host),
        None => Ok(Vec::new(alloc)),
    }
}

/// Reads the ELF file and the input.
pub(crate) fn read_program<H: Host>(
    alloc: Global,
    words: &Words,
    config: &Config,
    host: &mut H,
) -> Result<Program, Refusal>
    requires { IsConfigOf (settings_of words.now.given) config.now }
    ensures can { IfOk result CanRun }
    ensures config { IfOk result (λ program. program.config ≡ config.now) }
    ensures told { IfOk result (λ program. Shows (H.state host.new).files (λ files. Shows (H.state host.new).files
        (λ later. IsProgramOf words.now.given files later program))) }
    ensures done { OnOk result (AllDone (program_steps (settings_of words.now.given) words.now.given)
        (H.state host.old) (H.state host.new)) }
    ensures refused { IfErr result (λ refusal. IsRefused (program_steps (settings_of words.now.given) words.now.given)
        refusal (H.state host.old) (H.state host.new)) }
{
    let elf = file_of(words, Name::Elf);
    let image = match steps::read_elf(alloc, elf, config.base, config.size, host) {
        Ok(image) => image,
        Err(refusal) => return Err(refusal),
    };
    let input = match read_input(alloc, words, host) {
        Ok(input) => input,
        Err(refusal) => return Err(refusal),
    };
    Ok(Program {
        config: *config,
        image,
        input,
    })
}

/// Runs a program over a plain list of bytes.
fn run_flat(alloc: Global, program: &Program) -> Result<Outcome, NoMemory>
    requires { CanRun program.now }
    ensures { IfOk result (λ outcome. outcome_report outcome ≡ program_report program.now) }
{
    let config = &program.config;
    let mut bytes = FlatBytes::new(alloc, program.image.bytes.as_slice(), config.base)?;
    let mut files = Files::new(alloc, program.input.as_slice(), OUTPUT_LIMIT)?;
    let mut core = Core::new(
        program.image.entry,
        config.base,
        config.size,
        program.image.heap,
    );
    let (instructions, ending) = step_on(&mut core, &mut bytes, &mut files, config.budget);
    Ok(Outcome {
        instructions,
        ending,
        output: files.into_output(),
    })
}

/// Steps a core until it exits or traps, for at most `budget` instructions, and answers how many finished.
fn step_on(core: &mut Core, bytes: &mut FlatBytes, files: &mut Files, budget: u64) -> (u64, Ending)
    requires base { bytes.old.base ≡ core.old.base }
    requires size { length bytes.old.bytes ≡ core.old.size }
    ensures { EndsAs (flat_run budget (machine_of core.old files.old) bytes.old.bytes)
        result.0 result.1 files.new.output }
{
    for finished in 0..budget {
        let done = match core.step(bytes, files) {
            Ok(done) => done,
            Err(never) => match never {},
        };
        match done.ended {
            Ended::No => {}
            Ended::Exit { status } => return (finished + 1, Ending::Exit { status }),
            Ended::Trap { kind, pc } => return (finished, Ending::Trap { kind, pc }),
        }
    }
    (budget, Ending::Budget)
}

/// Writes the output file, and prints the report.
fn report<H: Host>(
    alloc: Global,
    words: &Words,
    outcome: &Outcome,
    host: &mut H,
) -> Result<(), Refusal>
    ensures done { OnOk result (AllDone (report_steps words.now.given (outcome_report outcome.now))
        (H.state host.old) (H.state host.new)) }
    ensures refused { IfErr result (λ refusal. IsRefused (report_steps words.now.given (outcome_report outcome.now))
        refusal (H.state host.old) (H.state host.new)) }
{
    let output = file_of(words, Name::Output);
    match steps::write_file(output, outcome.output.as_slice(), host) {
        Ok(()) => {}
        Err(refusal) => return Err(refusal),
    }
    match text::report_text(alloc, outcome) {
        Ok(text) => steps::print(text.as_bytes(), host),
        Err(_) => Err(Refusal::NoMemory),
    }
}

/// Runs a program, and does the steps after it.
pub(crate) fn run_and_report<H: Host>(
    alloc: Global,
    words: &Words,
    program: &Program,
    host: &mut H,
) -> Result<Outcome, Refusal>
    requires { CanRun program.now }
    ensures { RunEnds words.now.given (program_report program.now) (run_end result)
        (H.state host.old) (H.state host.new) }
{
    let outcome = match run_flat(alloc, program) {
        Ok(outcome) => outcome,
        Err(_) => return Err(Refusal::NoMemory),
    };
    match report(alloc, words, &outcome, host) {
        Ok(()) => Ok(outcome),
        Err(refusal) => Err(refusal),
    }
}

/// The steps of `flat` before its run.
fn prepare<H: Host>(alloc: Global, words: &Words, host: &mut H) -> Result<Program, Refusal>
    ensures can { IfOk result CanRun }
    ensures report { IfOk result (λ program. Shows (H.state host.new).files (λ files. Shows (H.state host.new).files
        (λ later. program_report program ≡ flat_report words.now.given files later))) }
    ensures done { OnOk result (AllDone (flat_steps words.now.given) (H.state host.old) (H.state host.new)) }
    ensures refused { IfErr result (λ refusal.
        IsRefused (flat_steps words.now.given) refusal (H.state host.old) (H.state host.new)) }
{
    let config = match steps::judge(words.settings()) {
        Ok(config) => config,
        Err(refusal) => return Err(refusal),
    };
    read_program(alloc, words, &config, host)
}

/// The command `flat`, up to the first refusal.
pub(crate) fn flat<H: Host>(alloc: Global, words: &Words, host: &mut H) -> Result<Outcome, Refusal>
    ensures { StepsEnd (flat_steps words.now.given) (report_steps words.now.given)
        (λ told report. Shows told (λ files. Shows told (λ later. report ≡ flat_report words.now.given files later)))
        (run_end result)
        (H.state host.old) (H.state host.new) }
{
    match prepare(alloc, words, host) {
        Ok(program) => run_and_report(alloc, words, &program, host),
        Err(refusal) => Err(refusal),
    }
}
