//! The steps of commands over a host.
ghost use Rattle.std.specs.Prelude.{◌≡◌, ◌≢◌, ◌≤◌, ◌<◌, ◌∷◌, ℕ, List, [], Some, IfErr, IfOk, OnOk, IfSome, length};
ghost use Rattle.asc_base.specs.Memory.{IsMemory};
ghost use Rattle.asc_outside.specs.Host.{Files, HostState};
ghost use Rattle.asc_outside.specs.declared.host.HostFault.TheVariants.{Failed, TooLong as TooLongFile};
ghost use Rattle.asc_outside.specs.declared.host.HostFault.TheVariants.{NoMemory as OutOfMemory};
ghost use Rattle.elf_loader.specs.Faults.{IsReadable};
ghost use Rattle.elf_loader.specs.Memory.{IsImage};
ghost use Rattle.ascend_top.specs.Asm.{file_of_text};
ghost use Rattle.ascend_top.specs.FlatRun.{bytes_in};
ghost use Rattle.ascend_top.specs.Parts.{IsImageOf, WasRead, IsConfigOf, unread, unwritten};
ghost use Rattle.ascend_top.specs.Steps.{AKey, AnElf, AText, ATrace, Anything, IsChecked, Judges, JudgesNumber, Loads};
ghost use Rattle.ascend_top.specs.Steps.{Reads, Writes, Prints, Rule, Does, Refuses, Shows};
ghost use Rattle.ascend_top.specs.declared.refusal.Source.TheVariants.{Key as KeyFile, Elf as ElfFile};
ghost use Rattle.ascend_top.specs.declared.refusal.Source.TheVariants.{Text as TextFile, Trace as TraceFile};
ghost use Rattle.trace_checker.specs.declared.verdict.Verdict.TheVariants.{Holds};
ghost use Rattle.ascend_words.specs.declared.table.Name.TheVariants.{At as AtName, Seed as SeedName};
ghost use Rattle.ascend_words.specs.declared.table.Name.TheVariants.{Words as WordsName};

use crate::commands::check::Held;
use crate::refusal::{KEY_LENGTH, Refusal, Source};
use asc_base::{Config, Settings};
use asc_outside::{Host, HostFault};
use ascend_words::Name;
use bus_trace::TraceFault;
use elf_loader::{ElfFault, Image};
use rv32_asm::{AsmFault, assemble};
use std::alloc::Global;
use trace_checker::Verdict;

/// Judges the settings.
pub(crate) fn judge(settings: &Settings) -> Result<Config, Refusal>
    ensures config { IfOk result (λ config. IsConfigOf settings.now config) }
    ensures judged { OnOk result ((state : HostState) → Does (Judges settings.now) state state) }
    ensures refused { IfErr result (λ refusal. (state : HostState)
        → Refuses (Judges settings.now) refusal state state) }
{
    match Config::check(settings) {
        Ok(config) => Ok(config),
        Err(setting) => Err(Refusal::OutOfRange(setting)),
    }
}

/// Judges the place where a program is to begin.
pub(crate) fn judge_place(at: u64) -> Result<u32, Refusal>
    ensures place { IfOk result (λ place. place ≡ at) }
    ensures below { IfOk result (λ place. place < 4_294_901_760) }
    ensures judged { OnOk result ((state : HostState) → Does (JudgesNumber AtName at) state state) }
    ensures refused { IfErr result (λ refusal. (state : HostState)
        → Refuses (JudgesNumber AtName at) refusal state state) }
{
    if at % 4 != 0 || at >= 4_294_901_760 {
        return Err(Refusal::NumberOutOfRange(Name::At));
    }
    Ok(at as u32)
}

/// Judges the number that a program is to be made from.
pub(crate) fn judge_seed(seed: u64) -> Result<u32, Refusal>
    ensures seed { IfOk result (λ judged. judged ≡ seed) }
    ensures judged { OnOk result ((state : HostState) → Does (JudgesNumber SeedName seed) state state) }
    ensures refused { IfErr result (λ refusal. (state : HostState)
        → Refuses (JudgesNumber SeedName seed) refusal state state) }
{
    if seed >= 4_294_967_296 {
        return Err(Refusal::NumberOutOfRange(Name::Seed));
    }
    Ok(seed as u32)
}

/// Judges how many data words a made program is to have.
pub(crate) fn judge_count(count: u64) -> Result<u32, Refusal>
    ensures count { IfOk result (λ judged. judged ≡ count) }
    ensures some { IfOk result (λ judged. 1 ≤ judged) }
    ensures most { IfOk result (λ judged. judged ≤ 65_536) }
    ensures judged { OnOk result ((state : HostState) → Does (JudgesNumber WordsName count) state state) }
    ensures refused { IfErr result (λ refusal. (state : HostState)
        → Refuses (JudgesNumber WordsName count) refusal state state) }
{
    if count < 1 || count > 65_536 {
        return Err(Refusal::NumberOutOfRange(Name::Words));
    }
    Ok(count as u32)
}

/// Why a command is refused whose host refuses to read the file.
fn unread(source: Source, fault: HostFault) -> Refusal
    ensures { result ≡ unread source fault }
{
    match fault {
        HostFault::Failed => Refusal::Host,
        HostFault::TooLong => Refusal::TooLong(source),
        HostFault::NoMemory => Refusal::NoMemory,
    }
}

/// Why a command is refused whose host refuses to write or print.
fn unwritten(fault: HostFault) -> Refusal
    requires { fault ≢ HostFault.TooLong }
    ensures { result ≡ unwritten fault }
{
    match fault {
        HostFault::Failed => Refusal::Host,
        HostFault::NoMemory => Refusal::NoMemory,
        HostFault::TooLong => unreachable!(),
    }
}

/// Reads the file of a name.
pub(crate) fn read_file<H: Host>(
    alloc: Global,
    source: Source,
    name: &str,
    host: &mut H,
) -> Result<Vec<u8>, Refusal>
    ensures read { IfOk result (λ bytes. WasRead source name.now bytes.items (H.state host.old) (H.state host.new)) }
    ensures refused { IfErr result (λ refusal. (rule : Rule)
        → Refuses (Reads source name.now rule) refusal (H.state host.old) (H.state host.new)) }
{
    match host.read_file(alloc, name, source.limit()) {
        Ok(bytes) => Ok(bytes),
        Err(fault) => Err(unread(source, fault)),
    }
}

/// Reads the key file, which has a key's length.
#[tactic(auto, using(crate::proofs::Shown::shows_any, crate::proofs::Shown::shows_file))]
pub(crate) fn read_key<H: Host>(
    alloc: Global,
    name: &str,
    host: &mut H,
) -> Result<[u8; KEY_LENGTH], Refusal>
    ensures length { IfOk result (λ key. length key ≡ KEY_LENGTH) }
    ensures key { IfOk result (λ key. (files : Files) → (H.state host.new).files ≡ Some files
        → key ≡ bytes_in files name.now) }
    ensures read { OnOk result (Does (Reads KeyFile name.now AKey) (H.state host.old) (H.state host.new)) }
    ensures refused { IfErr result (λ refusal.
        Refuses (Reads KeyFile name.now AKey) refusal (H.state host.old) (H.state host.new)) }
{
    let file = match read_file(alloc, Source::Key, name, host) {
        Ok(file) => file,
        Err(refusal) => return Err(refusal),
    };
    if file.len() < KEY_LENGTH {
        return Err(Refusal::KeyLength { length: file.len() });
    }
    let mut key = [0; KEY_LENGTH];
    key.copy_from_slice(file.as_slice());
    Ok(key)
}

/// Reads the ELF file, and lays out its memory.
#[tactic(auto, using(crate::proofs::Shown::shows_any, crate::proofs::Shown::shows_file))]
pub(crate) fn read_elf<H: Host>(
    alloc: Global,
    name: &str,
    base: u32,
    size: u32,
    host: &mut H,
) -> Result<Image, Refusal>
    requires { IsMemory base size }
    ensures memory { IfOk result (IsImage base size) }
    ensures image { IfOk result (λ image. Shows (H.state host.new).files (λ files.
        IsImageOf base size (bytes_in files name.now) image)) }
    ensures read { OnOk result (Does (Reads ElfFile name.now (AnElf base size)) (H.state host.old) (H.state host.new)) }
    ensures refused { IfErr result (λ refusal.
        Refuses (Reads ElfFile name.now (AnElf base size)) refusal (H.state host.old) (H.state host.new)) }
{
    let file = match read_file(alloc, Source::Elf, name, host) {
        Ok(file) => file,
        Err(refusal) => return Err(refusal),
    };
    match elf_loader::parse(alloc, file.as_slice(), base, size) {
        Ok(image) => Ok(image),
        Err(ElfFault::NoMemory) => Err(Refusal::NoMemory),
        Err(fault) => Err(Refusal::Elf(fault)),
    }
}

/// Loads a file that wasn't read, and lays out its memory.
#[tactic(auto, using(crate::proofs::Shown::shows_any, crate::proofs::Shown::shows_file))]
pub(crate) fn load(alloc: Global, file: &[u8], base: u32, size: u32) -> Result<Image, Refusal>
    requires { IsMemory base size }
    ensures memory { IfOk result (IsImage base size) }
    ensures image { IfOk result (IsImageOf base size file.now) }
    ensures loaded { OnOk result ((state : HostState) → Does (Loads file.now base size) state state) }
    ensures refused { IfErr result (λ refusal. (state : HostState)
        → Refuses (Loads file.now base size) refusal state state) }
{
    match elf_loader::parse(alloc, file, base, size) {
        Ok(image) => Ok(image),
        Err(ElfFault::NoMemory) => Err(Refusal::NoMemory),
        Err(fault) => Err(Refusal::Elf(fault)),
    }
}

/// Reads the ELF file, which has no fault in the memory of `size` bytes from `base` on.
#[tactic(auto, using(crate::proofs::Shown::shows_any, crate::proofs::Shown::shows_file))]
pub(crate) fn read_segments<H: Host>(
    alloc: Global,
    name: &str,
    base: u32,
    size: u32,
    host: &mut H,
) -> Result<Vec<u8>, Refusal>
    requires { IsMemory base size }
    ensures readable { IfOk result (λ file. IsReadable file.items) }
    ensures told { IfOk result (λ file. Shows (H.state host.new).files (λ files.
        file.items ≡ bytes_in files name.now)) }
    ensures read { OnOk result (Does (Reads ElfFile name.now (AnElf base size)) (H.state host.old) (H.state host.new)) }
    ensures refused { IfErr result (λ refusal.
        Refuses (Reads ElfFile name.now (AnElf base size)) refusal (H.state host.old) (H.state host.new)) }
{
    let file = match read_file(alloc, Source::Elf, name, host) {
        Ok(file) => file,
        Err(refusal) => return Err(refusal),
    };
    match elf_loader::parse(alloc, file.as_slice(), base, size) {
        Ok(_) => Ok(file),
        Err(ElfFault::NoMemory) => Err(Refusal::NoMemory),
        Err(fault) => Err(Refusal::Elf(fault)),
    }
}

/// Reads the text of a program that begins at a place, and assembles it.
#[tactic(auto, using(crate::proofs::Shown::shows_any, crate::proofs::Shown::shows_file))]
pub(crate) fn read_text<H: Host>(
    alloc: Global,
    name: &str,
    at: u32,
    host: &mut H,
) -> Result<Vec<u8>, Refusal>
    requires { at < 4_294_901_760 }
    ensures file { IfOk result (λ file. Shows (H.state host.new).files (λ files.
        file.items ≡ file_of_text at (bytes_in files name.now))) }
    ensures read { OnOk result (Does (Reads TextFile name.now (AText at)) (H.state host.old) (H.state host.new)) }
    ensures refused { IfErr result (λ refusal.
        Refuses (Reads TextFile name.now (AText at)) refusal (H.state host.old) (H.state host.new)) }
{
    let text = match read_file(alloc, Source::Text, name, host) {
        Ok(text) => text,
        Err(refusal) => return Err(refusal),
    };
    match assemble(alloc, text.as_slice(), at) {
        Ok(file) => Ok(file),
        Err(AsmFault::NoMemory) => Err(Refusal::NoMemory),
        Err(AsmFault::Bad { line, kind }) => Err(Refusal::Assembler { line, kind }),
    }
}

/// Reads the file of a trace, and checks the trace.
#[tactic(auto, using(crate::proofs::Shown::shows_any, crate::proofs::Shown::shows_file))]
pub(crate) fn read_trace<H: Host>(alloc: Global, name: &str, host: &mut H) -> Result<Held, Refusal>
    ensures held { IfOk result (λ held. Shows (H.state host.new).files (λ files.
        IsChecked (bytes_in files name.now) (Holds held.code held.bits))) }
    ensures read { OnOk result (Does (Reads TraceFile name.now ATrace) (H.state host.old) (H.state host.new)) }
    ensures refused { IfErr result (λ refusal.
        Refuses (Reads TraceFile name.now ATrace) refusal (H.state host.old) (H.state host.new)) }
{
    let file = match read_file(alloc, Source::Trace, name, host) {
        Ok(file) => file,
        Err(refusal) => return Err(refusal),
    };
    let trace = match bus_trace::read(alloc, file.as_slice()) {
        Ok(trace) => trace,
        Err(TraceFault::Bad { line, kind }) => return Err(Refusal::Trace { line, kind }),
        Err(TraceFault::NoMemory) => return Err(Refusal::NoMemory),
    };
    match trace_checker::check(&trace) {
        Verdict::Holds { code, bits } => Ok(Held { code, bits }),
        Verdict::Fails {
            line,
            found,
            wanted,
        } => Err(Refusal::Fails {
            line,
            found,
            wanted,
        }),
    }
}

/// Makes these bytes the whole file of a name.
#[tactic(auto, using(crate::proofs::Shown::shows_any, crate::proofs::Shown::shows_file))]
pub(crate) fn write_file<H: Host>(name: &str, bytes: &[u8], host: &mut H) -> Result<(), Refusal>
    ensures written { OnOk result (Does (Writes name.now bytes.now) (H.state host.old) (H.state host.new)) }
    ensures refused { IfErr result (λ refusal.
        Refuses (Writes name.now bytes.now) refusal (H.state host.old) (H.state host.new)) }
{
    match host.write_file(name, bytes) {
        Ok(()) => Ok(()),
        Err(fault) => Err(unwritten(fault)),
    }
}

/// Prints a text.
#[tactic(auto, using(crate::proofs::Shown::shows_any, crate::proofs::Shown::shows_file))]
pub(crate) fn print<H: Host>(text: &[u8], host: &mut H) -> Result<(), Refusal>
    ensures printed { OnOk result (Does (Prints text.now) (H.state host.old) (H.state host.new)) }
    ensures refused { IfErr result (λ refusal.
        Refuses (Prints text.now) refusal (H.state host.old) (H.state host.new)) }
{
    match host.print(text) {
        Ok(()) => Ok(()),
        Err(fault) => Err(unwritten(fault)),
    }
}
