//! A run of a program over encrypted memory: a core over a cache over the lines of an encrypted memory, with one clock.
//!
//! The clock starts at 0. Image lines are written whole into the cache first, each at the cost of one cycle. Every line
//! is asked for at the clock, which becomes the end of the last slot that it took, and the cost of an instruction is
//! added behind its lines. Before each instruction the run ends with `Budget` where so many are finished, and else with
//! `TimeUp` where the clock is at or after the time of the settings. After an end that is no stop of the memory's the
//! slots up to it are dummies. Times are in cycles.
#![tactic(auto)]

mod image;
mod laws;
mod lines;
mod machine;
mod report;
mod rows;
mod store;

pub use laws::{
    full_plays_have_rows, plays_without_slots_have_room, plays_without_tags_have_room,
    requests_keep_pace, short_plays_have_room,
};
pub use lines::{Stopped, TimedLines};
pub use report::{Ending, Report};
pub use rows::{
    endings_have_rows, fed_reports_have_rows, flat_reports_have_rows, reports_have_rows,
};

#[cfg(test)]
mod tests;

ghost use Rattle.std.specs.Prelude.{◌≡◌, ◌⊎◌, ◌<◌, ◌≤◌, ◌+◌, ◌*◌, ◌^◌, ℕ, [], None, IfOk, IsSome, OnErr, length};
ghost use Rattle.std.specs.List.{count_by};
ghost use Rattle.asc_base.specs.Settings.{IsConfig};
ghost use Rattle.asc_base.specs.TreeShape.{olat_of};
ghost use Rattle.asc_base.specs.declared.stop.Evidence.{Evidence};
ghost use Rattle.asc_base.specs.declared.stop.Stop.TheVariants as why;
ghost use Rattle.asc_outside.specs.Memory.{MemoryState, zero_buckets};
ghost use Rattle.bus_schedule.specs.Scheduled.{log_code};
ghost use Rattle.bus_schedule.specs.Shown.{indices_of};
ghost use Rattle.bus_schedule.specs.Timetable.{public_of};
ghost use Rattle.bus_watch.specs.Honest.{MayTellMirror};
ghost use Rattle.bus_watch.specs.Log.{TapState, LogLists};
ghost use Rattle.bus_watch.specs.Ready.{IsReady};
ghost use Rattle.bus_watch.specs.Same.{IsSameBus};
ghost use Rattle.data_cache.specs.Contents.{CacheBelow};
ghost use Rattle.elf_loader.specs.Memory.{IsImage};
ghost use Rattle.epoch_learner.specs.Stands.{KeepsPace};
ghost use Rattle.encrypted_run.specs.Refined.{empty_cache};
ghost use Rattle.oram_contents.specs.Entries.{AreKeys};
ghost use Rattle.oram_contents.specs.Forgery.{Forgery};
ghost use Rattle.oram_contents.specs.Starts.{empty_log};
ghost use Rattle.oram_frontend.specs.Oram.{oram_of};
ghost use Rattle.oram_lines.specs.Lines.{IsNew};
ghost use Rattle.oram_lines.specs.Standing.{DrawnOnce};
ghost use Rattle.rate_enforcer.specs.PortStep.{Resting, port_of};
ghost use Rattle.rate_enforcer.specs.Served.{keys_of};
ghost use Rattle.rate_enforcer.specs.Counts.{IsCounted, is_dummy, is_real, is_answered};
ghost use Rattle.secure_machine.specs.Answered.{answered_lines};
ghost use Rattle.secure_machine.specs.Fed.{IsFed};
ghost use Rattle.log_replay.specs.Given.{CallsReplay};
ghost use Rattle.log_replay.specs.Judged.{verdict_on, BreaksOffReading, SaysMirror, HaveOrigins};
ghost use Rattle.log_replay.specs.LastSlot.{StopsInOrder};
ghost use Rattle.log_replay.specs.Order.{LogOrder};
ghost use Rattle.play_run.specs.Given.{CallsPlay};
ghost use Rattle.play_run.specs.Shows.{IsPlayed, IsWholePlay};
ghost use Rattle.secure_machine.specs.Plays.{play_report, play_with};
ghost use Rattle.secure_machine.specs.Finish.{IsRightEnding, IsTimeUp};
ghost use Rattle.secure_machine.specs.Full.{NoSlotIsFull};
ghost use Rattle.secure_machine.specs.Home.{EndsAtHome};
ghost use Rattle.secure_machine.specs.Judged.{ShowsEnding, EndsInOrder, EndsReplayed, WantsReplayed, SaysWanting};
ghost use Rattle.secure_machine.specs.Judged.{log_end};
ghost use Rattle.secure_machine.specs.Run.{Reported, Wanting, IsFlatReport, IsUnprepared, IsTiedOr, IsTiedButLast};
ghost use Rattle.secure_machine.specs.Run.{chip_keys, start_of, IsInBudget, DrawsLeaves};
ghost use Rattle.secure_machine.specs.LastMove.{EndsWithMove};
ghost use Rattle.secure_machine.specs.Spent.{IsSpentOn};
ghost use Rattle.secure_machine.specs.Same.{oram_over};
ghost use Rattle.play_run.specs.Timed.{Serving};

use crate::image::are_counted;
use crate::machine::{Course, drive};
use asc_base::{Config, NoMemory};
use asc_outside::UntrustedMemory;
use bucket_codec::Codec;
use bus_watch::{Bus, BusStop, Watch};
use data_cache::Cache;
use elf_loader::Image;
use leaf_function::LeafFn;
use log_replay::logs_say_all;
use oram_frontend::Oram;
use pmmac_tags::Tagger;
use rate_enforcer::Port;
use rv32_core::{Core, Files, OUTPUT_LIMIT};
use std::alloc::Global;
use unified_tree::Tree;

/// How many slots may start before the time of a configuration, at most.
fn most_slots(config: &Config) -> u64
    requires { IsConfig config.now }
    ensures enough { config.now.time ≤ 64 + result * olat_of config.now.shape.levels }
    ensures few { result ≤ 2 ^ 28 + 1 }
{
    config.time / config.shape.olat() + 1
}

/// An encrypted memory of zeros, before its first slot.
fn new_oram<L: LeafFn>(
    alloc: Global,
    config: &Config,
    leaf: L,
    tagger: Tagger,
    codec: Codec,
) -> Result<Oram<L>, NoMemory>
    requires config { IsConfig config.now }
    requires levels { L.levels leaf ≡ config.now.shape.levels }
    ensures serving { IfOk result (λ oram. (left : ℕ) (memory : MemoryState) (tap : TapState) → tap.log.events ≡ []
        → tap.log.moves ≡ [] → config.now.time ≤ 64 + left * olat_of config.now.shape.levels
        → IsReady config.now.shape.buckets (2 * (config.now.shape.levels + 1) * left) (6 * left) memory tap
        → Serving (L.levels oram.port.leaves)
        (oram_of oram.front oram.port.clock oram.port.tree oram.stop memory tap)) }
    ensures config { IfOk result (λ oram. oram.port.clock.config ≡ config.now) }
    ensures last { IfOk result (λ oram. oram.port.clock.last ≡ 0) }
    ensures counts { IfOk result (λ oram. (log : LogLists) → log.events ≡ [] → IsCounted oram.port.clock log) }
    ensures keys { IfOk result (λ oram. keys_of oram.port.tree oram.tagger (L.leaf_of oram.port.leaves)
        ≡ chip_keys config.now codec tagger (L.leaf_of leaf)) }
    ensures new { IfOk result (λ oram. (memory : MemoryState) (tap : TapState) → tap.log ≡ empty_log
        → tap.mirror ≡ zero_buckets config.now.shape.buckets
        → Resting 0 (L.levels oram.port.leaves) (port_of oram.port.clock oram.port.tree memory tap)
        → IsNew (keys_of oram.port.tree oram.tagger (L.leaf_of oram.port.leaves)) config.now
        (L.levels oram.port.leaves)
        (oram_of oram.front oram.port.clock oram.port.tree oram.stop memory tap)) }
{
    let tree = Tree::new(alloc, &config.shape, config.stash, codec)?;
    let port = Port::new(config, leaf, tree);
    Oram::new(alloc, config, tagger, port)
}

/// What is reported of a course.
fn reported<L: LeafFn>(course: Course, files: Files, oram: &Oram<L>) -> Report
    ensures instructions { result.instructions ≡ course.instructions }
    ensures ending { result.ending ≡ course.ending }
    ensures cycles { result.cycles ≡ course.cycles }
    ensures last { result.last ≡ course.last }
    ensures output { result.output.items ≡ files.output }
    ensures fetches { result.fetches ≡ course.fetches }
    ensures real { result.real ≡ oram.now.port.clock.real }
    ensures dummies { result.dummies ≡ oram.now.port.clock.dummies }
    ensures choices { result.choices ≡ oram.now.port.clock.learner.choices }
    ensures code { result.code ≡ oram.now.port.clock.learner.code }
{
    let learner = oram.learner();
    Report {
        instructions: course.instructions,
        ending: course.ending,
        cycles: course.cycles,
        last: course.last,
        output: files.into_output(),
        fetches: course.fetches,
        real: oram.real(),
        dummies: oram.dummies(),
        choices: learner.choices,
        code: learner.code,
    }
}

/// What is reported where the memory failed before the first slot: no instruction, and no output.
fn unprepared(files: Files) -> Report
    requires { files.output ≡ [] }
    ensures { (tap : TapState) → IsUnprepared result tap tap }
{
    Report {
        instructions: 0,
        ending: Ending::Device,
        cycles: 0,
        last: 0,
        output: files.into_output(),
        fetches: 0,
        real: 0,
        dummies: 0,
        choices: 0,
        code: 0,
    }
}

/// A run over a prepared bus and an encrypted memory before its first slot.
fn run_prepared<M: UntrustedMemory, W: Watch, L: LeafFn>(
    config: &Config,
    image: &Image,
    mut files: Files,
    mut cache: Cache,
    mut oram: Oram<L>,
    bus: &mut Bus<'_, M, W>,
) -> Result<Report, NoMemory>
    requires config { IsConfig config.now }
    requires image { IsImage config.now.base config.now.size image.now }
    requires serving { Serving (L.levels oram.port.leaves)
        (oram_over M.state W.state oram bus.old.memory.now bus.old.tap.now) }
    requires port { oram.port.clock.config ≡ config.now }
    requires last { oram.port.clock.last ≡ 0 }
    requires counted { IsCounted oram.port.clock (W.state bus.old.tap.now).log }
    requires unanswered { count_by is_answered (W.state bus.old.tap.now).log.events ≡ 0 }
    requires below { CacheBelow config.now.shape.lines cache }
    requires empty { cache ≡ empty_cache config.now.sets config.now.ways }
    requires unread { files ≡ (start_of config.now image.now files.input).files }
    requires new { IsNew (keys_of oram.port.tree oram.tagger (L.leaf_of oram.port.leaves)) config.now
        (L.levels oram.port.leaves) (oram_over M.state W.state oram bus.old.memory.now bus.old.tap.now) }
    ensures same { IsSameBus bus.old bus.new }
    ensures refines { AreKeys (keys_of oram.port.tree oram.tagger (L.leaf_of oram.port.leaves)) → IfOk result (λ report.
        Forgery (keys_of oram.port.tree oram.tagger (L.leaf_of oram.port.leaves)) (W.state bus.new.tap.now).log
        ⊎ IsFlatReport config.now image.now files.input report) }
    ensures honest { AreKeys (keys_of oram.port.tree oram.tagger (L.leaf_of oram.port.leaves))
        → (W.state bus.new.tap.now).log.altered ≡ []
        → IfOk result (λ report. (evidence : Evidence) → report.ending ≡ Ending.Integrity evidence → ⊥) }
    ensures points { AreKeys (keys_of oram.port.tree oram.tagger (L.leaf_of oram.port.leaves))
        → Forgery (keys_of oram.port.tree oram.tagger (L.leaf_of oram.port.leaves)) (W.state bus.new.tap.now).log
        ⊎ DrawnOnce (W.state bus.new.tap.now).log.events }
    ensures fed { IfOk result (λ report.
        IsFed config.now image.now files.input report (answered_lines (W.state bus.new.tap.now).log.events)) }
    ensures spent { IfOk result (λ report.
        IsSpentOn config.now image.now files.input report (W.state bus.new.tap.now).log) }
    ensures plays { AreKeys (keys_of oram.port.tree oram.tagger (L.leaf_of oram.port.leaves))
        → CallsPlay (keys_of oram.port.tree oram.tagger (L.leaf_of oram.port.leaves)) (L.levels oram.port.leaves)
        config.now
        → IfOk result (λ report.
        Forgery (keys_of oram.port.tree oram.tagger (L.leaf_of oram.port.leaves)) (W.state bus.new.tap.now).log
        ⊎ IsPlayed config.now (play_with config.now image.now files.input) (play_report report)
        (W.state bus.new.tap.now).log) }
    ensures home { AreKeys (keys_of oram.port.tree oram.tagger (L.leaf_of oram.port.leaves))
        → CallsPlay (keys_of oram.port.tree oram.tagger (L.leaf_of oram.port.leaves)) (L.levels oram.port.leaves)
        config.now
        → CallsReplay (keys_of oram.port.tree oram.tagger (L.leaf_of oram.port.leaves)) (L.levels oram.port.leaves)
        → IfOk result (λ report. EndsAtHome (keys_of oram.port.tree oram.tagger (L.leaf_of oram.port.leaves))
        config.now (play_with config.now image.now files.input) report.instructions report.cycles report.ending
        (W.state bus.new.tap.now).log) }
    ensures reported { IfOk result (λ report. Reported config.now report (M.state bus.old.memory.now)
        (M.state bus.new.memory.now) (W.state bus.old.tap.now) (W.state bus.new.tap.now)) }
    ensures wanting { OnErr result (Wanting config.now (M.state bus.old.memory.now)
        (M.state bus.new.memory.now) (W.state bus.old.tap.now) (W.state bus.new.tap.now)) }
    ensures replays { CallsReplay (keys_of oram.port.tree oram.tagger (L.leaf_of oram.port.leaves))
        (L.levels oram.port.leaves)
        → IfOk result (λ report. EndsReplayed (keys_of oram.port.tree oram.tagger (L.leaf_of oram.port.leaves))
        config.now.stash report.ending (W.state bus.new.tap.now)) }
    ensures replays_err { CallsReplay (keys_of oram.port.tree oram.tagger (L.leaf_of oram.port.leaves))
        (L.levels oram.port.leaves)
        → OnErr result (WantsReplayed (keys_of oram.port.tree oram.tagger (L.leaf_of oram.port.leaves))
        config.now.stash (W.state bus.new.tap.now)) }
{
    are_counted(image);
    let mut core = Core::new(image.entry, config.base, config.size, image.heap);
    match drive(
        image,
        config.base,
        config.budget,
        &mut core,
        &mut files,
        &mut cache,
        bus,
        &mut oram,
    ) {
        Ok(course) => Ok(reported(course, files, &oram)),
        Err(NoMemory) => Err(NoMemory),
    }
}

/// Runs an image of the configuration's memory with an input, over the memory and the tap of a bus, which it prepares.
///
/// `NoMemory` is want of memory. All memory for output, log and stash is taken before the first slot; after it only the
/// held blocks, a reply that the tap keeps, the mirror and the memory's own write can want any. Where the memory fails
/// before the first slot the ending is `Device`, and all numbers are 0. The run's schedule ends less than a slot's
/// cycles after the time of the settings.
///
/// Whatever the memory replies, the log tells how the run ended: it notes slots in order, each of which was done, the
/// last one as far as the ending says, the verdict on them is the ending, and the buckets are those that it says. Each
/// entry in them stands on the path of its leaf, and was tagged or stood in an altered reply, whatever was forged. For
/// each point a leaf is drawn at most once, however the run ends, or the log shows a forgery. Where the bus was
/// prepared and the memory tells its buckets afterwards, they are the mirror's. After a report as many buckets count as
/// prepared as the shape has, and after want of memory so many, or none. Over a memory that tells its buckets and
/// doesn't fail, where no slot of the program's Play is too full, what is reported is the whole Play.
pub fn run<M: UntrustedMemory, W: Watch, L: LeafFn>(
    alloc: Global,
    config: &Config,
    image: &Image,
    input: &[u8],
    leaf: L,
    tagger: Tagger,
    codec: Codec,
    bus: &mut Bus<'_, M, W>,
) -> Result<Report, NoMemory>
    requires config { IsConfig config.now }
    requires image { IsImage config.now.base config.now.size image.now }
    requires levels { L.levels leaf ≡ config.now.shape.levels }
    requires fresh { (M.state bus.old.memory.now).count ≡ 0 }
    requires moved { (M.state bus.old.memory.now).moved < 2 ^ 62 }
    requires no_events { (W.state bus.old.tap.now).log.events ≡ [] }
    requires no_moves { (W.state bus.old.tap.now).log.moves ≡ [] }
    requires no_altered { (W.state bus.old.tap.now).log.altered ≡ [] }
    ensures same { IsSameBus bus.old bus.new }
    ensures pace { IfOk result (λ report. KeepsPace config.now report.last (W.state bus.new.tap.now).log) }
    ensures pace_err { OnErr result ((end : ℕ) × KeepsPace config.now end (W.state bus.new.tap.now).log) }
    ensures end_err { OnErr result (EndsWithMove config.now (W.state bus.new.tap.now).log) }
    ensures last { IfOk result (λ report. report.last < config.now.time + olat_of config.now.shape.levels) }
    ensures leaves { DrawsLeaves config.now (W.state bus.new.tap.now).log }
    ensures bits { log_code (public_of config.now) (W.state bus.new.tap.now).log < 2 ^ config.now.leak }
    ensures real { IfOk result (λ report. report.real ≡ count_by is_real (W.state bus.new.tap.now).log.events) }
    ensures dummies { IfOk result (λ report. report.dummies ≡ count_by is_dummy (W.state bus.new.tap.now).log.events) }
    ensures choices { IfOk result (λ report. report.choices
        ≡ length (indices_of (W.state bus.new.tap.now).log.events)) }
    ensures code { IfOk result (λ report. report.code ≡ log_code (public_of config.now) (W.state bus.new.tap.now).log) }
    ensures fetches { IfOk result (λ report. report.fetches
        ≡ count_by is_answered (W.state bus.new.tap.now).log.events) }
    ensures budget { IsInBudget config.now (W.state bus.new.tap.now).log }
    ensures tied { IfOk result (λ report. IsTiedOr config.now report.ending
        (IsUnprepared report (W.state bus.old.tap.now) (W.state bus.new.tap.now))
        (M.state bus.old.memory.now) (M.state bus.new.memory.now) (W.state bus.new.tap.now)) }
    ensures tied_err { OnErr result (IsTiedButLast config.now (M.state bus.old.memory.now) (M.state bus.new.memory.now)
        (W.state bus.old.tap.now) (W.state bus.new.tap.now)) }
    ensures faults { (M.state bus.old.memory.now).faults ≤ (M.state bus.new.memory.now).faults }
    ensures device { IfOk result (λ report. report.ending ≡ Ending.Device
        → (M.state bus.old.memory.now).faults < (M.state bus.new.memory.now).faults) }
    ensures right { IfOk result (λ report.
        IsRightEnding config.now.budget config.now.time report.instructions report.cycles report.last report.ending) }
    ensures time_up { IfOk result (λ report. (at : ℕ) → report.ending ≡ Ending.TimeUp at
        → IsTimeUp config.now config.now.budget report.instructions report.cycles (W.state bus.new.tap.now).log at) }
    ensures asked { (M.state bus.new.memory.now).moved
        ≡ (M.state bus.old.memory.now).moved + length (W.state bus.new.tap.now).log.moves }
    ensures unaltered { IsSome (M.state bus.old.memory.now).told → (W.state bus.new.tap.now).log.altered ≡ [] }
    ensures told { IfOk result (λ report. MayTellMirror (M.state bus.new.memory.now) (W.state bus.new.tap.now)
        ⊎ IsUnprepared report (W.state bus.old.tap.now) (W.state bus.new.tap.now)) }
    ensures count { IfOk result (λ _. (M.state bus.new.memory.now).count ≡ config.now.shape.buckets) }
    ensures count_err { OnErr result (((M.state bus.new.memory.now).count ≡ 0)
        ⊎ ((M.state bus.new.memory.now).count ≡ config.now.shape.buckets)) }
    ensures flat { IsSome (M.state bus.old.memory.now).told
        → IfOk result (IsFlatReport config.now image.now input.now) }
    ensures refines { IfOk result (λ report.
        Forgery (chip_keys config.now codec tagger (L.leaf_of leaf)) (W.state bus.new.tap.now).log
        ⊎ IsFlatReport config.now image.now input.now report) }
    ensures plays { IfOk result (λ report.
        Forgery (chip_keys config.now codec tagger (L.leaf_of leaf)) (W.state bus.new.tap.now).log
        ⊎ IsPlayed config.now (play_with config.now image.now input.now) (play_report report)
        (W.state bus.new.tap.now).log) }
    ensures points { Forgery (chip_keys config.now codec tagger (L.leaf_of leaf)) (W.state bus.new.tap.now).log
        ⊎ DrawnOnce (W.state bus.new.tap.now).log.events }
    ensures flat_unaltered { (W.state bus.new.tap.now).log.altered ≡ []
        → IfOk result (IsFlatReport config.now image.now input.now) }
    ensures plays_unaltered { (W.state bus.new.tap.now).log.altered ≡ []
        → IfOk result (λ report. IsPlayed config.now (play_with config.now image.now input.now) (play_report report)
        (W.state bus.new.tap.now).log) }
    ensures plays_told { IsSome (M.state bus.old.memory.now).told
        → IfOk result (λ report. IsPlayed config.now (play_with config.now image.now input.now) (play_report report)
        (W.state bus.new.tap.now).log) }
    ensures honest { (W.state bus.new.tap.now).log.altered ≡ []
        → IfOk result (λ report. (evidence : Evidence) → report.ending ≡ Ending.Integrity evidence → ⊥) }
    ensures home { IfOk result (λ report.
        EndsAtHome (chip_keys config.now codec tagger (L.leaf_of leaf)) config.now
        (play_with config.now image.now input.now) report.instructions report.cycles report.ending
        (W.state bus.new.tap.now).log) }
    ensures complete { IsSome (M.state bus.old.memory.now).told
        → ¬ ((M.state bus.old.memory.now).faults < (M.state bus.new.memory.now).faults)
        → NoSlotIsFull (chip_keys config.now codec tagger (L.leaf_of leaf)) config.now.stash
        (play_with config.now image.now input.now)
        → IfOk result (λ report. IsWholePlay config.now (play_with config.now image.now input.now)
        (play_report report) (W.state bus.new.tap.now).log) }
    ensures fed { IfOk result (λ report.
        IsFed config.now image.now input.now report (answered_lines (W.state bus.new.tap.now).log.events)) }
    ensures spent { IfOk result (λ report.
        IsSpentOn config.now image.now input.now report (W.state bus.new.tap.now).log) }
    ensures order { LogOrder (chip_keys config.now codec tagger (L.leaf_of leaf)) (W.state bus.new.tap.now).log }
    ensures done { IfOk result (λ report. EndsInOrder (chip_keys config.now codec tagger (L.leaf_of leaf))
        report.ending (W.state bus.new.tap.now).log
        ⊎ IsUnprepared report (W.state bus.old.tap.now) (W.state bus.new.tap.now)) }
    ensures done_err { OnErr result (StopsInOrder (chip_keys config.now codec tagger (L.leaf_of leaf)) why.NoMemory
        (W.state bus.new.tap.now).log) }
    ensures verdict { IfOk result (λ report. ShowsEnding (chip_keys config.now codec tagger (L.leaf_of leaf))
        config.now.stash report.ending (W.state bus.new.tap.now).log) }
    ensures verdict_err { OnErr result
        ((verdict_on (chip_keys config.now codec tagger (L.leaf_of leaf)) config.now.stash
        (W.state bus.new.tap.now).log ≡ None)
        ⊎ BreaksOffReading (chip_keys config.now codec tagger (L.leaf_of leaf)) config.now.stash
        (W.state bus.new.tap.now).log) }
    ensures contents { IfOk result (λ report. SaysMirror (chip_keys config.now codec tagger (L.leaf_of leaf))
        (W.state bus.new.tap.now).log (log_end report.ending) (W.state bus.new.tap.now).mirror
        ⊎ IsUnprepared report (W.state bus.old.tap.now) (W.state bus.new.tap.now)) }
    ensures contents_err { OnErr result (SaysWanting (chip_keys config.now codec tagger (L.leaf_of leaf))
        (W.state bus.new.tap.now).log (W.state bus.new.tap.now).mirror
        ⊎ (W.state bus.new.tap.now ≡ W.state bus.old.tap.now)) }
    ensures origins { IfOk result (λ report. HaveOrigins (chip_keys config.now codec tagger (L.leaf_of leaf))
        (W.state bus.new.tap.now).log (W.state bus.new.tap.now).mirror
        ⊎ IsUnprepared report (W.state bus.old.tap.now) (W.state bus.new.tap.now)) }
    ensures origins_err { OnErr result (HaveOrigins (chip_keys config.now codec tagger (L.leaf_of leaf))
        (W.state bus.new.tap.now).log (W.state bus.new.tap.now).mirror
        ⊎ (W.state bus.new.tap.now ≡ W.state bus.old.tap.now)) }
{
    leaf.gives_leaves();
    logs_say_all();
    let files = Files::new(alloc, input, OUTPUT_LIMIT)?;
    let cache = Cache::new(alloc, config.sets, config.ways)?;
    let oram = new_oram(alloc, config, leaf, tagger, codec)?;
    match bus.prepare(
        config.shape.buckets,
        config.shape.levels,
        most_slots(config),
    ) {
        Ok(()) => run_prepared(config, image, files, cache, oram, bus),
        Err(BusStop::Device) => Ok(unprepared(files)),
        Err(BusStop::NoMemory) => Err(NoMemory),
    }
}
