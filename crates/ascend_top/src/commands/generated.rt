//! The command `gen`: the run over encrypted memory of a program that is made from two numbers.
ghost use Rattle.std.specs.Prelude.{◌≡◌, ◌≤◌, ◌<◌, ◌^◌, [], IfErr, IfOk, OnOk};
ghost use Rattle.ascend_top.specs.Command.{WorkEnds, lifted};
ghost use Rattle.ascend_top.specs.Lent.{lent_as};
ghost use Rattle.ascend_top.specs.Gen.{IsGenerated, count_in, gen_file, gen_steps, made_steps, seed_in};
ghost use Rattle.ascend_top.specs.Made.{Encrypted as MadeEncrypted};
ghost use Rattle.ascend_top.specs.Parts.{CanRun, IsConfigOf};
ghost use Rattle.ascend_top.specs.Run.{IsBegin};
ghost use Rattle.ascend_top.specs.Steps.{AllDone, IsRefused};
ghost use Rattle.ascend_words.specs.Settings.{settings_of};
ghost use Rattle.ascend_words.specs.declared.table.Command.TheVariants.{Gen};

use crate::commands::flat::Program;
use crate::commands::run::{Begin, Encrypted, run_and_report};
use crate::commands::{file_of, write_where_named};
use crate::refusal::Refusal;
use crate::steps;
use asc_base::{Config, NoMemory};
use asc_outside::{Host, UntrustedMemory};
use ascend_words::{Name, Words};
use bus_watch::Recorder;
use rv32_asm::generate;
use std::alloc::Global;

/// The number that the program is made from, which is required.
fn seed(words: &Words) -> u64
    ensures { result ≡ seed_in words.now.given }
{
    words.number(Name::Seed).unwrap_or(0)
}

/// How many data words it has, which is required.
fn count(words: &Words) -> u64
    ensures { result ≡ count_in words.now.given }
{
    words.number(Name::Words).unwrap_or(0)
}

/// Makes the file of the program.
fn make_file(alloc: Global, words: &Words, seed: u32, count: u32) -> Result<Vec<u8>, NoMemory>
    requires seed { seed ≡ seed_in words.now.given }
    requires count { count ≡ count_in words.now.given }
    requires some { 1 ≤ count }
    requires most { count ≤ 65_536 }
    ensures { IfOk result (λ file. file.items ≡ gen_file words.now.given) }
{
    generate(alloc, seed, count)
}

/// Writes the file of the program, where one is named for it, and loads it.
fn save_and_load<H: Host>(
    alloc: Global,
    words: &Words,
    file: &[u8],
    config: &Config,
    host: &mut H,
) -> Result<Program, Refusal>
    requires file { file.now ≡ gen_file words.now.given }
    requires config { IsConfigOf (settings_of words.now.given) config.now }
    ensures can { IfOk result CanRun }
    ensures config { IfOk result (λ program. program.config ≡ config.now) }
    ensures program { IfOk result (IsGenerated words.now.given) }
    ensures done { OnOk result (AllDone (made_steps (settings_of words.now.given) words.now.given)
        (H.state host.old) (H.state host.new)) }
    ensures refused { IfErr result (λ refusal. IsRefused (made_steps (settings_of words.now.given) words.now.given)
        refusal (H.state host.old) (H.state host.new)) }
{
    match write_where_named(words, Name::Save, file, host) {
        Ok(()) => {}
        Err(refusal) => return Err(refusal),
    }
    match steps::load(alloc, file, config.base, config.size) {
        Ok(image) => Ok(Program {
            config: *config,
            image,
            input: Vec::new(alloc),
        }),
        Err(refusal) => Err(refusal),
    }
}

/// Makes the file of the program, writes it where one is named for it, and loads it.
fn make_program<H: Host>(
    alloc: Global,
    words: &Words,
    seed: u32,
    count: u32,
    config: &Config,
    host: &mut H,
) -> Result<Program, Refusal>
    requires seed { seed ≡ seed_in words.now.given }
    requires count { count ≡ count_in words.now.given }
    requires some { 1 ≤ count }
    requires most { count ≤ 65_536 }
    requires config { IsConfigOf (settings_of words.now.given) config.now }
    ensures can { IfOk result CanRun }
    ensures config { IfOk result (λ program. program.config ≡ config.now) }
    ensures program { IfOk result (IsGenerated words.now.given) }
    ensures done { OnOk result (AllDone (made_steps (settings_of words.now.given) words.now.given)
        (H.state host.old) (H.state host.new)) }
    ensures refused { IfErr result (λ refusal. IsRefused (made_steps (settings_of words.now.given) words.now.given)
        refusal (H.state host.old) (H.state host.new)) }
{
    match make_file(alloc, words, seed, count) {
        Ok(file) => save_and_load(alloc, words, file.as_slice(), config, host),
        Err(NoMemory) => Err(Refusal::NoMemory),
    }
}

/// The steps of `gen` before its run.
fn prepare<H: Host>(alloc: Global, words: &Words, host: &mut H) -> Result<Begin, Refusal>
    ensures begin { IfOk result (IsBegin Gen words.now.given (H.state host.old).files) }
    ensures done { OnOk result (AllDone (gen_steps words.now.given) (H.state host.old) (H.state host.new)) }
    ensures refused { IfErr result (λ refusal.
        IsRefused (gen_steps words.now.given) refusal (H.state host.old) (H.state host.new)) }
{
    let config = match steps::judge(words.settings()) {
        Ok(config) => config,
        Err(refusal) => return Err(refusal),
    };
    let seed = match steps::judge_seed(seed(words)) {
        Ok(seed) => seed,
        Err(refusal) => return Err(refusal),
    };
    let count = match steps::judge_count(count(words)) {
        Ok(count) => count,
        Err(refusal) => return Err(refusal),
    };
    let key = file_of(words, Name::Key);
    let key = match steps::read_key(alloc, key, host) {
        Ok(key) => key,
        Err(refusal) => return Err(refusal),
    };
    match make_program(alloc, words, seed, count, &config, host) {
        Ok(program) => Ok(Begin { key, program }),
        Err(refusal) => Err(refusal),
    }
}

/// The command `gen`, up to the first refusal.
pub(crate) fn run_generated<H: Host, M: UntrustedMemory>(
    alloc: Global,
    words: &Words,
    host: &mut H,
    memory: &mut M,
    tap: &mut Recorder,
) -> Result<Encrypted, Refusal>
    requires fresh { (M.state memory.old).count ≡ 0 }
    requires moved { (M.state memory.old).moved < 2 ^ 62 }
    requires no_events { tap.old.log.events ≡ [] }
    requires no_moves { tap.old.log.moves ≡ [] }
    requires no_altered { tap.old.log.altered ≡ [] }
    ensures { WorkEnds Gen words.now.given (lent_as (M.state memory.old) (M.state memory.new) tap.old tap.new)
        (lifted MadeEncrypted result) (H.state host.old) (H.state host.new) }
{
    match prepare(alloc, words, host) {
        Ok(begin) => run_and_report(alloc, words, &begin, host, memory, tap),
        Err(refusal) => Err(refusal),
    }
}
