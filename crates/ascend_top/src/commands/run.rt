//! The command `run`, over encrypted memory.
ghost use Rattle.std.specs.Prelude.{◌≡◌, ◌<◌, ◌^◌, [], IfErr, IfOk, OnErr, OnOk};
ghost use Rattle.ascend_top.specs.Command.{WorkEnds, lifted};
ghost use Rattle.asc_base.specs.Settings.{IsConfig};
ghost use Rattle.bus_watch.specs.Same.{IsSameBus};
ghost use Rattle.elf_loader.specs.Memory.{IsImage};
ghost use Rattle.ascend_top.specs.EncryptedRun.{IsRunOf, IsWantOf, Wants};
ghost use Rattle.ascend_top.specs.Lent.{lent_as};
ghost use Rattle.ascend_top.specs.Made.{Encrypted as MadeEncrypted};
ghost use Rattle.ascend_top.specs.Run.{BegunEnds, IsBegin, IsOutcome, run_report_steps, run_steps};
ghost use Rattle.ascend_top.specs.Steps.{AllDone, IsRefused};
ghost use Rattle.ascend_words.specs.declared.table.Command.TheVariants.{Run};

use crate::commands::flat::{Program, read_program};
use crate::commands::{file_of, write_where_named};
use crate::refusal::{KEY_LENGTH, Refusal};
use crate::{steps, text, traces};
use asc_base::NoMemory;
use asc_outside::{Host, UntrustedMemory};
use ascend_words::{Name, Words};
use bucket_codec::Codec;
use bus_watch::{Bus, Recorder};
use leaf_function::KeyedLeaf;
use pmmac_tags::Tagger;
use secure_machine::Report;
use std::alloc::Global;

/// What a run over encrypted memory is of.
#[derive(Debug, Drop)]
pub(crate) struct Begin {
    pub key: [u8; KEY_LENGTH],
    pub program: Program,
}

/// What a run over encrypted memory came to.
#[derive(Debug, Drop)]
pub(crate) struct Encrypted {
    /// What is reported of it.
    pub report: Report,
    /// How many of the memory's replies weren't what was written last.
    pub altered: u64,
    /// The text of its trace, where a file is named for it.
    pub trace: Vec<u8>,
}

/// The steps of `run` before its run.
fn prepare<H: Host>(alloc: Global, words: &Words, host: &mut H) -> Result<Begin, Refusal>
    ensures begin { IfOk result (IsBegin Run words.now.given (H.state host.old).files) }
    ensures done { OnOk result (AllDone (run_steps words.now.given) (H.state host.old) (H.state host.new)) }
    ensures refused { IfErr result (λ refusal.
        IsRefused (run_steps words.now.given) refusal (H.state host.old) (H.state host.new)) }
{
    let config = match steps::judge(words.settings()) {
        Ok(config) => config,
        Err(refusal) => return Err(refusal),
    };
    let key = file_of(words, Name::Key);
    let key = match steps::read_key(alloc, key, host) {
        Ok(key) => key,
        Err(refusal) => return Err(refusal),
    };
    match read_program(alloc, words, &config, host) {
        Ok(program) => Ok(Begin { key, program }),
        Err(refusal) => Err(refusal),
    }
}

/// Runs a program over a bus, under the keys that its master key gives.
fn run_on<M: UntrustedMemory>(
    alloc: Global,
    begin: &Begin,
    bus: &mut Bus<'_, M, Recorder>,
) -> Result<Report, NoMemory>
    requires config { IsConfig begin.now.program.config }
    requires image { IsImage begin.now.program.config.base begin.now.program.config.size begin.now.program.image }
    requires fresh { (M.state bus.old.memory.now).count ≡ 0 }
    requires moved { (M.state bus.old.memory.now).moved < 2 ^ 62 }
    requires no_events { bus.old.tap.now.log.events ≡ [] }
    requires no_moves { bus.old.tap.now.log.moves ≡ [] }
    requires no_altered { bus.old.tap.now.log.altered ≡ [] }
    ensures same { IsSameBus bus.old bus.new }
    ensures ran { IfOk result (IsRunOf begin.now.program.config begin.now.program.image begin.now.program.input.items
        begin.now.key (lent_as (M.state bus.old.memory.now) (M.state bus.new.memory.now) bus.old.tap.now
        bus.new.tap.now)) }
    ensures wanting { OnErr result (IsWantOf begin.now.program.config begin.now.program.image
        begin.now.program.input.items begin.now.key
        (lent_as (M.state bus.old.memory.now) (M.state bus.new.memory.now) bus.old.tap.now bus.new.tap.now)) }
{
    let program = &begin.program;
    let levels = program.config.shape.levels;
    let leaf = KeyedLeaf::new(&begin.key, levels);
    let tagger = Tagger::new(&begin.key);
    let codec = Codec::new(&begin.key);
    secure_machine::run(
        alloc,
        &program.config,
        &program.image,
        program.input.as_slice(),
        leaf,
        tagger,
        codec,
        bus,
    )
}

/// Runs a program over a memory and its tap.
fn run_over<M: UntrustedMemory>(
    alloc: Global,
    begin: &Begin,
    memory: &mut M,
    tap: &mut Recorder,
) -> Result<Report, NoMemory>
    requires config { IsConfig begin.now.program.config }
    requires image { IsImage begin.now.program.config.base begin.now.program.config.size begin.now.program.image }
    requires fresh { (M.state memory.old).count ≡ 0 }
    requires moved { (M.state memory.old).moved < 2 ^ 62 }
    requires no_events { tap.old.log.events ≡ [] }
    requires no_moves { tap.old.log.moves ≡ [] }
    requires no_altered { tap.old.log.altered ≡ [] }
    ensures ran { IfOk result (IsRunOf begin.now.program.config begin.now.program.image begin.now.program.input.items
        begin.now.key (lent_as (M.state memory.old) (M.state memory.new) tap.old tap.new)) }
    ensures wanting { OnErr result (IsWantOf begin.now.program.config begin.now.program.image
        begin.now.program.input.items begin.now.key
        (lent_as (M.state memory.old) (M.state memory.new) tap.old tap.new)) }
{
    let mut bus = Bus::new(memory, tap);
    run_on(alloc, begin, &mut bus)
}

/// Runs a program over a memory and its tap, and makes the text of its trace where a file is named for it.
fn run_traced<M: UntrustedMemory>(
    alloc: Global,
    words: &Words,
    begin: &Begin,
    memory: &mut M,
    tap: &mut Recorder,
) -> Result<Encrypted, NoMemory>
    requires config { IsConfig begin.now.program.config }
    requires image { IsImage begin.now.program.config.base begin.now.program.config.size begin.now.program.image }
    requires fresh { (M.state memory.old).count ≡ 0 }
    requires moved { (M.state memory.old).moved < 2 ^ 62 }
    requires no_events { tap.old.log.events ≡ [] }
    requires no_moves { tap.old.log.moves ≡ [] }
    requires no_altered { tap.old.log.altered ≡ [] }
    ensures ran { IfOk result (IsOutcome words.now.given begin.now
        (lent_as (M.state memory.old) (M.state memory.new) tap.old tap.new)) }
    ensures wanting { OnErr result (Wants begin.now.program.config begin.now.program.image
        begin.now.program.input.items begin.now.key
        (lent_as (M.state memory.old) (M.state memory.new) tap.old tap.new)) }
{
    let report = match run_over(alloc, begin, memory, tap) {
        Ok(report) => report,
        Err(NoMemory) => return Err(NoMemory),
    };
    let log = tap.log();
    let altered = log.altered.len() as u64;
    let trace = match words.text(Name::Trace) {
        Some(_) => traces::text_of(alloc, &begin.program.config, log, report.last),
        None => Ok(Vec::new(alloc)),
    };
    match trace {
        Ok(trace) => Ok(Encrypted {
            report,
            altered,
            trace,
        }),
        Err(NoMemory) => Err(NoMemory),
    }
}

/// Writes the output file and that of the trace, where one is named, and prints the report.
fn report<H: Host>(
    alloc: Global,
    words: &Words,
    run: &Encrypted,
    host: &mut H,
) -> Result<(), Refusal>
    ensures done { OnOk result (AllDone (run_report_steps words.now.given run.now)
        (H.state host.old) (H.state host.new)) }
    ensures refused { IfErr result (λ refusal. IsRefused (run_report_steps words.now.given run.now)
        refusal (H.state host.old) (H.state host.new)) }
{
    let output = file_of(words, Name::Output);
    match steps::write_file(output, run.report.output.as_slice(), host) {
        Ok(()) => {}
        Err(refusal) => return Err(refusal),
    }
    match write_where_named(words, Name::Trace, run.trace.as_slice(), host) {
        Ok(()) => {}
        Err(refusal) => return Err(refusal),
    }
    match text::run_text(alloc, run) {
        Ok(text) => steps::print(text.as_bytes(), host),
        Err(_) => Err(Refusal::NoMemory),
    }
}

/// Runs what a run is of over a memory and its tap, and does the steps after it.
pub(crate) fn run_and_report<H: Host, M: UntrustedMemory>(
    alloc: Global,
    words: &Words,
    begin: &Begin,
    host: &mut H,
    memory: &mut M,
    tap: &mut Recorder,
) -> Result<Encrypted, Refusal>
    requires config { IsConfig begin.now.program.config }
    requires image { IsImage begin.now.program.config.base begin.now.program.config.size begin.now.program.image }
    requires fresh { (M.state memory.old).count ≡ 0 }
    requires moved { (M.state memory.old).moved < 2 ^ 62 }
    requires no_events { tap.old.log.events ≡ [] }
    requires no_moves { tap.old.log.moves ≡ [] }
    requires no_altered { tap.old.log.altered ≡ [] }
    ensures { BegunEnds words.now.given begin.now
        (lent_as (M.state memory.old) (M.state memory.new) tap.old tap.new) result
        (H.state host.old) (H.state host.new) }
{
    let run = match run_traced(alloc, words, begin, memory, tap) {
        Ok(run) => run,
        Err(_) => return Err(Refusal::NoMemory),
    };
    match report(alloc, words, &run, host) {
        Ok(()) => Ok(run),
        Err(refusal) => Err(refusal),
    }
}

/// The command `run`, up to the first refusal.
pub(crate) fn run<H: Host, M: UntrustedMemory>(
    alloc: Global,
    words: &Words,
    host: &mut H,
    memory: &mut M,
    tap: &mut Recorder,
) -> Result<Encrypted, Refusal>
    requires fresh { (M.state memory.old).count ≡ 0 }
    requires moved { (M.state memory.old).moved < 2 ^ 62 }
    requires no_events { tap.old.log.events ≡ [] }
    requires no_moves { tap.old.log.moves ≡ [] }
    requires no_altered { tap.old.log.altered ≡ [] }
    ensures { WorkEnds Run words.now.given (lent_as (M.state memory.old) (M.state memory.new) tap.old tap.new)
        (lifted MadeEncrypted result) (H.state host.old) (H.state host.new) }
{
    match prepare(alloc, words, host) {
        Ok(begin) => run_and_report(alloc, words, &begin, host, memory, tap),
        Err(refusal) => Err(refusal),
    }
}
