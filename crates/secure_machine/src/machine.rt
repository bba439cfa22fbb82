//! The run's parts: image lines, instructions, and the end.

ghost use Rattle.std.specs.Prelude.{◌⊎◌, List, [], ◌++◌, ◌∷◌, suc, ◌+◌, ◌≤◌, ◌^◌};
ghost use Rattle.data_cache.specs.CacheLists.{Sets, Lines, line_in, sets_after};
ghost use Rattle.data_cache.specs.Cached.{StandsAs};
ghost use Rattle.asc_base.specs.Settings.{IsConfig};
ghost use Rattle.asc_base.specs.TreeShape.{olat_of};
ghost use Rattle.asc_base.specs.declared.settings.Config.{Config};
ghost use Rattle.log_replay.specs.Given.{CallsReplay};
ghost use Rattle.log_replay.specs.Replayed.{IsReplayed};
ghost use Rattle.play_run.specs.Given.{CallsPlay};
ghost use Rattle.play_run.specs.Shows.{RunShows};
ghost use Rattle.play_run.specs.Stands.{numbers_of, StandsInImage};
ghost use Rattle.run_play.specs.Play.{Play};
ghost use Rattle.secure_machine.specs.Home.{EndsAtHome};
ghost use Rattle.secure_machine.specs.Plays.{CallsInPlay, InImage, InRun, LeavesInPlay, StoppedInPlay, HaltsInPlay};
ghost use Rattle.secure_machine.specs.Plays.{EndedInPlay, play_ending};
ghost use Rattle.encrypted_run.specs.Refined.{Computes, loaded};
ghost use Rattle.fed_run.specs.Answered.{feed_of};
ghost use Rattle.fed_run.specs.Fed.{Feed, NotedLine};
ghost use Rattle.oram_contents.specs.Entries.{AreKeys};
ghost use Rattle.oram_contents.specs.Forgery.{Forgery};
ghost use Rattle.oram_lines.specs.Standing.{DrawnOnce};
ghost use Rattle.rate_enforcer.specs.Served.{keys_of};
ghost use Rattle.rv32_core.specs.Access.{spliced};
ghost use Rattle.rv32_core.specs.FlatMachine.{flat_step};
ghost use Rattle.rv32_core.specs.LineList.{WholeWrite};
ghost use Rattle.rv32_core.specs.Machine.{Machine, IsCore};
ghost use Rattle.rv32_core.specs.StepPlan.{machine_of};
ghost use Rattle.rv32_core.specs.declared.outcome.Done.{Done as DoneValue};
ghost use Rattle.rv32_core.specs.declared.outcome.Ended.TheVariants.{No};
ghost use Rattle.secure_machine.specs.Answered.{answered_lines};
ghost use Rattle.secure_machine.specs.Fed.{noted, over_image, over_loaded, IsFedStep, IsStarvedStep, HaltsFed};
ghost use Rattle.secure_machine.specs.Fed.{CauseFed, IsFedRun};
ghost use Rattle.secure_machine.specs.FlatEnds.{HaltsFlat, HaltsRun, IsFlat, ending_by};
ghost use Rattle.secure_machine.specs.Refines.{IsForged, StandFor, Knows, StopUnblamed, EndsUnblamed, CauseUnblamed};
ghost use Rattle.secure_machine.specs.Refines.{DrewOnce};
ghost use Rattle.std.specs.Prelude.{◌≡◌, ◌<◌, ◌*◌, ◌%◌, ℕ, Some, OnOk, OnErr, IfOk, IfErr, MatchResult, vec_len};
ghost use Rattle.std.specs.Prelude.{length, IsSome};
ghost use Rattle.std.specs.List.{count_by};
ghost use Rattle.data_cache.specs.Contents.{CacheBelow};
ghost use Rattle.elf_loader.specs.Memory.{IsImage};
ghost use Rattle.rate_enforcer.specs.Counts.{is_answered};
ghost use Rattle.rate_enforcer.specs.PortStep.{PortState};
ghost use Rattle.secure_machine.specs.declared.machine.Cause.TheVariants.{Ends, Stops};
ghost use Rattle.secure_machine.specs.Finish.{Halts, HaltsLater, Settled, Short};
ghost use Rattle.secure_machine.specs.Goes.{Breaks};
ghost use Rattle.secure_machine.specs.Halting.{IsEndOf, OfEnd, OfStop};
ghost use Rattle.secure_machine.specs.Judged.{CauseReplayed, EndsReplayed, WantsReplayed};
ghost use Rattle.secure_machine.specs.Runs.{Onwards, BreaksOff, HaltsOver, Ready};
ghost use Rattle.secure_machine.specs.Same.{IsSameLines, keys_in, oram_over, timed_of};
ghost use Rattle.secure_machine.specs.Spent.{ClockSpent, StopSpent, CauseSpent, HaltsSpent, EndsSpent};
ghost use Rattle.play_run.specs.Spent.{waits, fed_cost, IsSpent};
ghost use Rattle.play_run.specs.Timed.{Serving, KeepsNoted};
ghost use Rattle.bus_watch.specs.Same.{IsSameBus};

use crate::image::line_of;
use crate::lines::{Stopped, TimedLines};
use crate::report::Ending;
use asc_base::{NoMemory, Stop};
use asc_outside::UntrustedMemory;
use bus_watch::{Bus, Watch};
use data_cache::{Cache, step_cached};
use elf_loader::Image;
use leaf_function::LeafFn;
use oram_frontend::Oram;
use rv32_core::{Core, Done, Ended, Files, TrapKind};

/// Why no more instructions come.
#[derive(Clone, Copy)]
pub(crate) enum Cause {
    /// The run ends so, after the slots that start before a time.
    Ends {
        /// How.
        ending: Ending,
        /// The time.
        until: u64,
    },
    /// A line was stopped.
    Stops(Stop),
}

/// How a run ends at an instruction. The numbers of its end are in its lines, and so is a stop: answers stay small.
#[derive(Clone, Copy)]
pub(crate) enum Halt {
    /// No time was left for it, and it wasn't begun.
    TimeUp,
    /// It exited.
    Exit {
        /// The program's status.
        status: u8,
    },
    /// It trapped.
    Trap {
        /// Why.
        kind: TrapKind,
        /// Its address.
        pc: u32,
    },
    /// One of its lines was stopped.
    Stop,
}

/// Where a run came to its end: the instructions that are finished, and the clock.
#[derive(Clone, Copy)]
pub(crate) struct Halted {
    /// The instructions that are finished.
    pub instructions: u64,
    /// The clock after the last instruction or image line; the clock at its start where one didn't finish.
    pub cycles: u64,
    /// Why.
    pub cause: Cause,
}

/// A run at its end, by its numbers.
#[derive(Clone, Copy)]
pub(crate) struct Course {
    /// The instructions that are finished.
    pub instructions: u64,
    /// The clock.
    pub cycles: u64,
    /// The fetches that were answered.
    pub fetches: u64,
    /// How it ended.
    pub ending: Ending,
    /// The end of the bus's schedule.
    pub last: u64,
}

/// Where a line was stopped.
fn stopped(instructions: u64, cycles: u64, stop: Stop) -> Halted
    ensures { result ≡ record { instructions = instructions; cycles = cycles; cause = Stops stop } }
{
    Halted {
        instructions,
        cycles,
        cause: Cause::Stops(stop),
    }
}

/// Where the run ends by itself, after the slots that start before a time.
fn ended(instructions: u64, cycles: u64, ending: Ending, until: u64) -> Halted
    ensures { result ≡ record { instructions = instructions; cycles = cycles; cause = Ends ending until } }
{
    Halted {
        instructions,
        cycles,
        cause: Cause::Ends { ending, until },
    }
}

/// An image line, written whole into the cache.
fn load_line<M: UntrustedMemory, W: Watch, L: LeafFn>(
    image: &Image,
    cache: &mut Cache,
    lines: &mut TimedLines<'_, '_, M, W, L>,
    line: u32,
) -> Result<(), Stop>
    requires line { line < lines.old.count }
    requires bytes { vec_len image.now.bytes ≡ 64 * lines.old.count }
    requires ready { Ready M.state W.state L.levels lines.old }
    requires below { CacheBelow lines.old.count cache.old }
    ensures onwards { OnOk result (Onwards M.state W.state L.leaf_of L.levels lines.old lines.new) }
    ensures breaks { IfErr result (λ stop. BreaksOff M.state W.state L.leaf_of L.levels stop lines.old lines.new) }
    ensures below { OnOk result (CacheBelow lines.new.count cache.new) }
    ensures refines { (memory : List ℕ) → AreKeys (keys_in L.leaf_of lines.old)
        → Knows M.state W.state L.leaf_of L.levels cache.old memory lines.old
        → MatchResult result
        (λ _. Knows M.state W.state L.leaf_of L.levels cache.new
        (spliced memory (64 * line) (line_in image.now.bytes.items line)) lines.new)
        (λ _. IsForged M.state W.state L.leaf_of L.levels lines.old
        → IsForged M.state W.state L.leaf_of L.levels lines.new) }
    ensures honest { (memory : List ℕ) → AreKeys (keys_in L.leaf_of lines.old)
        → Knows M.state W.state L.leaf_of L.levels cache.old memory lines.old
        → IfErr result (λ stop. StopUnblamed M.state W.state L.leaf_of L.levels stop lines.new) }
    ensures fed { (ways : ℕ) (sets : Sets) → StandsAs lines.old.count ways cache.old (over_image image.now sets)
        → (noted W.state lines.new ≡ noted W.state lines.old)
        × OnOk result (StandsAs lines.new.count ways cache.new (over_image image.now
        (sets_after ways sets (record { line = line; kind = WholeWrite })))) }
    ensures plays { (config : Config) (whole : Play) (machine : Machine) (marked : List ℕ) (limit : ℕ)
        → AreKeys (keys_in L.leaf_of lines.old) → CallsInPlay M.state W.state L.leaf_of L.levels config lines.old
        → config.time + olat_of config.shape.levels ≤ limit → limit + 1 < 2 ^ 64
        → InImage M.state W.state L.leaf_of L.levels config whole limit image.now.bytes.items machine
        (line ∷ marked) cache.old lines.old
        → MatchResult result
        (λ _. InImage M.state W.state L.leaf_of L.levels config whole (limit + 1) image.now.bytes.items machine marked
        cache.new lines.new)
        (λ stop. StoppedInPlay M.state W.state L.leaf_of L.levels config whole 0 lines.old.clock stop lines.new) }
    ensures spends { (config : Config) (levels costs limit : ℕ) → config.time + olat_of config.shape.levels ≤ limit
        → limit + 1 < 2 ^ 64 → lines.old.clock ≤ limit
        → ClockSpent M.state W.state L.levels config levels costs lines.old
        → MatchResult result
        (λ _. ClockSpent M.state W.state L.levels config levels (costs + 1) lines.new
        × (lines.new.clock ≤ limit + 1))
        (λ stop. StopSpent M.state W.state L.levels config levels costs lines.old.clock stop lines.new) }
{
    match cache.write_line(lines, line, &line_of(image, line)) {
        Ok(()) => {}
        Err(Stopped) => return Err(lines.stopped()),
    }
    lines.spend(1);
    Ok(())
}

/// The image lines, in rising order.
fn load<M: UntrustedMemory, W: Watch, L: LeafFn>(
    image: &Image,
    cache: &mut Cache,
    lines: &mut TimedLines<'_, '_, M, W, L>,
    base: u32,
    budget: u64,
) -> Result<(), Halted>
    requires image { IsImage base (64 * lines.old.count) image.now }
    requires ready { Ready M.state W.state L.levels lines.old }
    requires below { CacheBelow lines.old.count cache.old }
    ensures onwards { OnOk result (Onwards M.state W.state L.leaf_of L.levels lines.old lines.new) }
    ensures halts { IfErr result (λ halted.
        HaltsOver M.state W.state L.leaf_of L.levels budget halted lines.old lines.new) }
    ensures below { OnOk result (CacheBelow lines.new.count cache.new) }
    ensures none { IfErr result (λ halted. (machine : Machine) (memory : List ℕ)
        → HaltsFlat 0 machine memory halted machine) }
    ensures refines { (memory : List ℕ) → AreKeys (keys_in L.leaf_of lines.old)
        → Knows M.state W.state L.leaf_of L.levels cache.old memory lines.old
        → OnOk result (Knows M.state W.state L.leaf_of L.levels cache.new
        (loaded image.now.bytes.items image.now.marked.items memory) lines.new) }
    ensures honest { (memory : List ℕ) → AreKeys (keys_in L.leaf_of lines.old)
        → Knows M.state W.state L.leaf_of L.levels cache.old memory lines.old
        → IfErr result (λ halted. CauseUnblamed M.state W.state L.leaf_of L.levels halted.cause lines.new) }
    ensures fed { (ways : ℕ) (sets : Sets) → StandsAs lines.old.count ways cache.old (over_image image.now sets)
        → let started = over_loaded ways image.now sets in
        (noted W.state lines.new ≡ noted W.state lines.old)
        × MatchResult result
        (λ _. StandsAs lines.new.count ways cache.new started)
        (λ halted. (machine : Machine)
        → CauseFed ways halted.instructions machine (feed_of started []) halted.cause machine) }
    ensures plays { (config : Config) (whole : Play) (machine : Machine) → AreKeys (keys_in L.leaf_of lines.old)
        → CallsInPlay M.state W.state L.leaf_of L.levels config lines.old → IsConfig config
        → InImage M.state W.state L.leaf_of L.levels config whole 0 image.now.bytes.items machine
        image.now.marked.items cache.old lines.old
        → MatchResult result
        (λ _. InRun M.state W.state L.leaf_of L.levels config whole 0 config.budget machine cache.new lines.new)
        (λ halted. HaltsInPlay M.state W.state L.leaf_of L.levels config whole halted lines.new) }
    ensures spends { (config : Config) (levels costs : ℕ)
        → lines.old.clock ≤ config.time + olat_of config.shape.levels
        → ClockSpent M.state W.state L.levels config levels costs lines.old
        → let all = costs + length image.now.marked.items in
        MatchResult result
        (λ _. ClockSpent M.state W.state L.levels config levels all lines.new)
        (λ halted. (halted.instructions ≡ 0) × CauseSpent M.state W.state L.levels config levels all
        halted.instructions halted.cycles halted.cause lines.new) }
{
    for at in 0..image.marked.len() {
        let start = lines.clock;
        match load_line(image, cache, lines, image.marked[at]) {
            Ok(()) => {}
            Err(stop) => return Err(stopped(0, start, stop)),
        }
    }
    Ok(())
}

/// A step of the core, and its cost.
fn step<M: UntrustedMemory, W: Watch, L: LeafFn>(
    core: &mut Core,
    files: &mut Files,
    cache: &mut Cache,
    lines: &mut TimedLines<'_, '_, M, W, L>,
    base: u32,
) -> Result<Done, Stopped>
    requires base { base ≡ core.old.base }
    requires aligned { base % 64 ≡ 0 }
    requires size { core.old.size ≡ 64 * lines.old.count }
    requires ready { Ready M.state W.state L.levels lines.old }
    requires below { CacheBelow lines.old.count cache.old }
    ensures same_base { core.new.base ≡ core.old.base }
    ensures same_size { core.new.size ≡ core.old.size }
    ensures core { IsCore core.old → OnOk result (IsCore core.new) }
    ensures forged { AreKeys (keys_in L.leaf_of lines.old) → IsForged M.state W.state L.leaf_of L.levels lines.old
        → IsForged M.state W.state L.leaf_of L.levels lines.new }
    ensures onwards { OnOk result (Onwards M.state W.state L.leaf_of L.levels lines.old lines.new) }
    ensures stops { OnErr result (IsSome lines.new.oram.now.stop) }
    ensures breaks { OnErr result (OfStop lines.new (λ stop.
        BreaksOff M.state W.state L.leaf_of L.levels stop lines.old lines.new)) }
    ensures below { OnOk result (CacheBelow lines.new.count cache.new) }
    ensures refines { (memory : List ℕ) → AreKeys (keys_in L.leaf_of lines.old) → IsCore core.old
        → Knows M.state W.state L.leaf_of L.levels cache.old memory lines.old
        → MatchResult result
        (λ done. IsForged M.state W.state L.leaf_of L.levels lines.new
        ⊎ ((now : List ℕ) × (flat_step (machine_of core.old files.old) memory
        ≡ record { machine = machine_of core.new files.new; memory = now; done = done })
        × StandFor M.state W.state L.leaf_of L.levels cache.new now lines.new))
        (λ _. (IsForged M.state W.state L.leaf_of L.levels lines.old
        → IsForged M.state W.state L.leaf_of L.levels lines.new)
        × (machine_of core.new files.new ≡ machine_of core.old files.old)) }
    ensures honest { (memory : List ℕ) → AreKeys (keys_in L.leaf_of lines.old)
        → Knows M.state W.state L.leaf_of L.levels cache.old memory lines.old
        → OnErr result (OfStop lines.new (λ stop. StopUnblamed M.state W.state L.leaf_of L.levels stop lines.new)) }
    ensures fed { (ways : ℕ) (lists : Lines) → IsCore core.old → StandsAs lines.old.count ways cache.old lists
        → MatchResult result
        (λ done. IsFedStep W.state ways (machine_of core.old files.old) lists lines.old lines.new cache.new
        (machine_of core.new files.new) done)
        (λ _. IsStarvedStep W.state ways (machine_of core.old files.old) lists lines.old lines.new
        × (machine_of core.new files.new ≡ machine_of core.old files.old)) }
    ensures plays { (config : Config) (whole : Play) (before left : ℕ) → AreKeys (keys_in L.leaf_of lines.old)
        → CallsInPlay M.state W.state L.leaf_of L.levels config lines.old → IsConfig config → IsCore core.old
        → lines.old.clock < lines.old.oram.now.port.clock.config.time
        → InRun M.state W.state L.leaf_of L.levels config whole before (suc left) (machine_of core.old files.old)
        cache.old
        lines.old
        → MatchResult result
        (λ done. LeavesInPlay M.state W.state L.leaf_of L.levels config whole before left lines.old.clock
        (machine_of core.new files.new) cache.new done.ended lines.new)
        (λ _. OfStop lines.new (λ stop. StoppedInPlay M.state W.state L.leaf_of L.levels config whole before
        lines.old.clock stop lines.new)) }
    ensures spends { (config : Config) (levels costs ways : ℕ) (lists : Lines) → IsCore core.old
        → StandsAs lines.old.count ways cache.old lists → lines.old.clock < config.time
        → ClockSpent M.state W.state L.levels config levels costs lines.old
        → MatchResult result
        (λ done. ClockSpent M.state W.state L.levels config levels (costs + done.cost) lines.new
        × (lines.old.clock + done.cost ≤ lines.new.clock))
        (λ _. OfStop lines.new (λ stop. StopSpent M.state W.state L.levels config levels costs lines.old.clock stop
        lines.new)) }
{
    let done = match step_cached(core, files, base, cache, lines) {
        Ok(done) => done,
        Err(Stopped) => return Err(Stopped),
    };
    lines.spend(done.cost);
    Ok(done)
}

/// One instruction, where time is left. What is said of the run's end holds after however many came before it.
fn instruction<M: UntrustedMemory, W: Watch, L: LeafFn>(
    core: &mut Core,
    files: &mut Files,
    cache: &mut Cache,
    lines: &mut TimedLines<'_, '_, M, W, L>,
    base: u32,
) -> Result<(), Halt>
    requires base { base ≡ core.old.base }
    requires aligned { base % 64 ≡ 0 }
    requires size { core.old.size ≡ 64 * lines.old.count }
    requires ready { Ready M.state W.state L.levels lines.old }
    requires below { CacheBelow lines.old.count cache.old }
    ensures same_base { core.new.base ≡ core.old.base }
    ensures same_size { core.new.size ≡ core.old.size }
    ensures core { IsCore core.old → OnOk result (IsCore core.new) }
    ensures forged { AreKeys (keys_in L.leaf_of lines.old) → IsForged M.state W.state L.leaf_of L.levels lines.old
        → IsForged M.state W.state L.leaf_of L.levels lines.new }
    ensures onwards { OnOk result (Onwards M.state W.state L.leaf_of L.levels lines.old lines.new) }
    ensures stops { IfErr result (λ halt. halt ≡ Halt.Stop → IsSome lines.new.oram.now.stop) }
    ensures halts { IfErr result (λ halt. (before budget : ℕ) → before < budget
        → OfEnd halt before lines.old.clock lines.new (λ halted.
        HaltsOver M.state W.state L.leaf_of L.levels budget halted lines.old lines.new)) }
    ensures below { OnOk result (CacheBelow lines.new.count cache.new) }
    ensures refines { (before : ℕ) (memory : List ℕ) → AreKeys (keys_in L.leaf_of lines.old) → IsCore core.old
        → Knows M.state W.state L.leaf_of L.levels cache.old memory lines.old
        → MatchResult result
        (λ _. IsForged M.state W.state L.leaf_of L.levels lines.new
        ⊎ ((now : List ℕ) × (done : DoneValue) × (done.ended ≡ No)
        × (flat_step (machine_of core.old files.old) memory
        ≡ record { machine = machine_of core.new files.new; memory = now; done = done })
        × StandFor M.state W.state L.leaf_of L.levels cache.new now lines.new))
        (λ halt. OfEnd halt before lines.old.clock lines.new (λ halted.
        IsForged M.state W.state L.leaf_of L.levels lines.new
        ⊎ HaltsFlat before (machine_of core.old files.old) memory halted (machine_of core.new files.new))) }
    ensures honest { (memory : List ℕ) → AreKeys (keys_in L.leaf_of lines.old) → IsCore core.old
        → Knows M.state W.state L.leaf_of L.levels cache.old memory lines.old
        → IfErr result (λ halt. (before : ℕ) → OfEnd halt before lines.old.clock lines.new (λ halted.
        CauseUnblamed M.state W.state L.leaf_of L.levels halted.cause lines.new)) }
    ensures fed { (before ways : ℕ) (lists : Lines) → IsCore core.old → StandsAs lines.old.count ways cache.old lists
        → MatchResult result
        (λ _. (done : DoneValue) × (done.ended ≡ No) × IsFedStep W.state ways (machine_of core.old files.old) lists
        lines.old lines.new cache.new (machine_of core.new files.new) done)
        (λ halt. OfEnd halt before lines.old.clock lines.new (λ halted.
        HaltsFed W.state ways before (machine_of core.old files.old) lists lines.old lines.new halted
        (machine_of core.new files.new))) }
    ensures plays { (config : Config) (whole : Play) (before left : ℕ) → AreKeys (keys_in L.leaf_of lines.old)
        → CallsInPlay M.state W.state L.leaf_of L.levels config lines.old → IsConfig config → IsCore core.old
        → InRun M.state W.state L.leaf_of L.levels config whole before (suc left) (machine_of core.old files.old)
        cache.old
        lines.old
        → MatchResult result
        (λ _. InRun M.state W.state L.leaf_of L.levels config whole (before + 1) left (machine_of core.new files.new)
        cache.new lines.new)
        (λ halt. OfEnd halt before lines.old.clock lines.new (λ halted.
        HaltsInPlay M.state W.state L.leaf_of L.levels config whole halted lines.new)) }
    ensures spends { (config : Config) (levels costs before ways : ℕ) (lists : Lines) → IsCore core.old
        → StandsAs lines.old.count ways cache.old lists
        → ClockSpent M.state W.state L.levels config levels costs lines.old
        → MatchResult result
        (λ _. (done : DoneValue) × (done.ended ≡ No) × IsFedStep W.state ways (machine_of core.old files.old) lists
        lines.old lines.new cache.new (machine_of core.new files.new) done
        × ClockSpent M.state W.state L.levels config levels (costs + done.cost) lines.new)
        (λ halt. OfEnd halt before lines.old.clock lines.new (λ halted.
        HaltsSpent M.state W.state L.levels config levels costs ways before (machine_of core.old files.old) lists
        lines.old lines.new halted)) }
{
    let time = lines.time();
    let start = lines.clock;
    if start >= time {
        return Err(Halt::TimeUp);
    }
    let done = match step(core, files, cache, lines, base) {
        Ok(done) => done,
        Err(Stopped) => return Err(Halt::Stop),
    };
    match done.ended {
        Ended::No => Ok(()),
        Ended::Exit { status } => Err(Halt::Exit { status }),
        Ended::Trap { kind, pc } => Err(Halt::Trap { kind, pc }),
    }
}

/// The run's end, where an instruction after so many, begun at a clock, wasn't followed by another.
#[inline(never)]
fn halted_by<M: UntrustedMemory, W: Watch, L: LeafFn>(
    halt: Halt,
    before: u64,
    start: u64,
    lines: &TimedLines<'_, '_, M, W, L>,
) -> Halted
    requires few { before + 1 < 2 ^ 64 }
    requires stops { halt ≡ Halt.Stop → IsSome lines.now.oram.now.stop }
    ensures { IsEndOf halt before start lines.now result }
{
    match halt {
        Halt::TimeUp => ended(before, start, Ending::TimeUp { at: start }, lines.time()),
        Halt::Exit { status } => {
            let cycles = lines.clock;
            ended(
                before + 1,
                cycles,
                Ending::Exit { status },
                cycles.min(lines.time()),
            )
        }
        Halt::Trap { kind, pc } => ended(before, start, Ending::Trap { kind, pc }, start),
        Halt::Stop => stopped(before, start, lines.stopped()),
    }
}

/// The image lines, and so many instructions at most.
fn play<M: UntrustedMemory, W: Watch, L: LeafFn>(
    image: &Image,
    base: u32,
    budget: u64,
    core: &mut Core,
    files: &mut Files,
    cache: &mut Cache,
    lines: &mut TimedLines<'_, '_, M, W, L>,
) -> Halted
    requires base { base ≡ core.old.base }
    requires aligned { base % 64 ≡ 0 }
    requires size { core.old.size ≡ 64 * lines.old.count }
    requires image { IsImage base (64 * lines.old.count) image.now }
    requires ready { Ready M.state W.state L.levels lines.old }
    requires below { CacheBelow lines.old.count cache.old }
    ensures halts { HaltsOver M.state W.state L.leaf_of L.levels budget result lines.old lines.new }
    ensures refines { (memory : List ℕ) → AreKeys (keys_in L.leaf_of lines.old) → IsCore core.old
        → Knows M.state W.state L.leaf_of L.levels cache.old memory lines.old
        → IsForged M.state W.state L.leaf_of L.levels lines.new
        ⊎ HaltsRun (machine_of core.old files.old) (loaded image.now.bytes.items image.now.marked.items memory) result
        (machine_of core.new files.new) }
    ensures honest { (memory : List ℕ) → AreKeys (keys_in L.leaf_of lines.old) → IsCore core.old
        → Knows M.state W.state L.leaf_of L.levels cache.old memory lines.old
        → CauseUnblamed M.state W.state L.leaf_of L.levels result.cause lines.new }
    ensures fed { (ways : ℕ) (sets : Sets) → IsCore core.old
        → StandsAs lines.old.count ways cache.old (over_image image.now sets)
        → HaltsFed W.state ways 0 (machine_of core.old files.old) (over_loaded ways image.now sets) lines.old lines.new
        result (machine_of core.new files.new) }
    ensures plays { (config : Config) (whole : Play) → AreKeys (keys_in L.leaf_of lines.old)
        → CallsInPlay M.state W.state L.leaf_of L.levels config lines.old → IsConfig config → IsCore core.old
        → config.budget ≡ budget
        → InImage M.state W.state L.leaf_of L.levels config whole 0 image.now.bytes.items
        (machine_of core.old files.old) image.now.marked.items cache.old lines.old
        → HaltsInPlay M.state W.state L.leaf_of L.levels config whole result lines.new }
    ensures spends { (config : Config) (levels costs ways : ℕ) (sets : Sets) → IsCore core.old
        → StandsAs lines.old.count ways cache.old (over_image image.now sets)
        → lines.old.clock ≤ config.time + olat_of config.shape.levels
        → ClockSpent M.state W.state L.levels config levels costs lines.old
        → HaltsSpent M.state W.state L.levels config levels (costs + length image.now.marked.items) ways 0
        (machine_of core.old files.old) (over_loaded ways image.now sets) lines.old lines.new result }
{
    match load(image, cache, lines, base, budget) {
        Ok(()) => {}
        Err(halted) => return halted,
    }
    for before in 0..budget {
        let start = lines.clock;
        match instruction(core, files, cache, lines, base) {
            Ok(()) => {}
            Err(halt) => return halted_by(halt, before, start, lines),
        }
    }
    let cycles = lines.clock;
    ended(budget, cycles, Ending::Budget, cycles.min(lines.time()))
}

/// How a stop ends the run, and when.
fn ending_of<M: UntrustedMemory, W: Watch, L: LeafFn>(
    stop: Stop,
    lines: &TimedLines<'_, '_, M, W, L>,
) -> Result<(Ending, u64), NoMemory>
    ensures named { IfOk result (λ (ending, last). ending_by stop ≡ Some ending) }
    ensures wanted { OnErr result (stop ≡ Stop.NoMemory) }
    ensures settled { (budget instructions cycles : ℕ) (old : PortState)
        → Breaks stop old (timed_of M.state W.state lines.now).oram.port → instructions ≤ budget
        → MatchResult result
        (λ (ending, last). Settled budget instructions cycles ending last old (timed_of M.state W.state
        lines.now).oram.port)
        (λ _. Short old (timed_of M.state W.state lines.now).oram.port) }
    ensures plays { (config : Config) (whole : Play) (instructions cycles : ℕ)
        → lines.now.oram.now.port.clock.config ≡ config
        → StoppedInPlay M.state W.state L.leaf_of L.levels config whole instructions cycles stop lines.now
        → IfOk result (λ (ending, last). EndedInPlay M.state W.state L.leaf_of L.levels config whole instructions cycles
        ending last lines.now) }
{
    let last = lines.oram.last();
    match stop {
        Stop::Integrity(evidence) => Ok((Ending::Integrity(evidence), last)),
        Stop::StashFull { held } => Ok((Ending::StashFull { held }, last)),
        Stop::TimeUp { at } => Ok((Ending::TimeUp { at }, last.max(lines.time()))),
        Stop::Device => Ok((Ending::Device, last)),
        Stop::NoMemory => Err(NoMemory),
    }
}

/// The slots behind the last instruction, a stop of which is the ending; and when the run's schedule ends.
fn finish<M: UntrustedMemory, W: Watch, L: LeafFn>(
    halted: Halted,
    lines: &mut TimedLines<'_, '_, M, W, L>,
    budget: u64,
) -> Result<(Ending, u64), NoMemory>
    requires halts { (first : PortState) × Halts budget (L.levels lines.old.oram.now.port.leaves) halted first
        (timed_of M.state W.state lines.old).oram }
    ensures same { IsSameLines lines.old lines.new }
    ensures settled { (first : PortState) → Halts budget (L.levels lines.old.oram.now.port.leaves) halted first
        (timed_of M.state W.state lines.old).oram
        → MatchResult result
        (λ (ending, last). Settled budget halted.instructions halted.cycles ending last first
        (timed_of M.state W.state lines.new).oram.port)
        (λ _. Short first (timed_of M.state W.state lines.new).oram.port) }
    ensures refines { (machine last : Machine) (memory : List ℕ) → AreKeys (keys_in L.leaf_of lines.old)
        → IsForged M.state W.state L.leaf_of L.levels lines.old ⊎ HaltsRun machine memory halted last
        → IfOk result (λ (ending, end). IsForged M.state W.state L.leaf_of L.levels lines.new
        ⊎ IsFlat halted.instructions machine memory ending last) }
    ensures honest { AreKeys (keys_in L.leaf_of lines.old)
        → CauseUnblamed M.state W.state L.leaf_of L.levels halted.cause lines.old
        → IfOk result (λ (ending, end). EndsUnblamed ending (timed_of M.state W.state lines.new).oram.port.tap.log) }
    ensures points { AreKeys (keys_in L.leaf_of lines.old)
        → CauseUnblamed M.state W.state L.leaf_of L.levels halted.cause lines.old
        → DrewOnce M.state W.state L.leaf_of L.levels lines.new }
    ensures fetches { KeepsNoted (timed_of M.state W.state lines.old) (timed_of M.state W.state lines.new) }
    ensures noted { noted W.state lines.new ≡ noted W.state lines.old }
    ensures fed { (ways : ℕ) (machine last : Machine) (feed : Feed)
        → CauseFed ways halted.instructions machine feed halted.cause last
        → IfOk result (λ (ending, end). IsFedRun ways halted.instructions machine feed ending last) }
    ensures plays { (config : Config) (whole : Play) → AreKeys (keys_in L.leaf_of lines.old)
        → CallsInPlay M.state W.state L.leaf_of L.levels config lines.old → lines.old.oram.now.port.clock.config ≡
        config
        → HaltsInPlay M.state W.state L.leaf_of L.levels config whole halted lines.old
        → IfOk result (λ (ending, last). EndedInPlay M.state W.state L.leaf_of L.levels config whole halted.instructions
        halted.cycles ending last lines.new) }
    ensures replays { CallsReplay (keys_in L.leaf_of lines.old) (L.levels lines.old.oram.now.port.leaves)
        → CauseReplayed (keys_in L.leaf_of lines.old) lines.old.oram.now.port.tree.stash halted.cause
        (timed_of M.state W.state lines.old).oram
        → MatchResult result
        (λ (ending, last). EndsReplayed (keys_in L.leaf_of lines.old) lines.old.oram.now.port.tree.stash ending
        (W.state lines.new.tap.now))
        (λ _. WantsReplayed (keys_in L.leaf_of lines.old) lines.old.oram.now.port.tree.stash
        (W.state lines.new.tap.now)) }
    ensures home { (config : Config) (whole : Play) → AreKeys (keys_in L.leaf_of lines.old)
        → HaltsInPlay M.state W.state L.leaf_of L.levels config whole halted lines.old
        → CallsReplay (keys_in L.leaf_of lines.old) (L.levels lines.old.oram.now.port.leaves)
        → CauseReplayed (keys_in L.leaf_of lines.old) lines.old.oram.now.port.tree.stash halted.cause
        (timed_of M.state W.state lines.old).oram
        → HaltsLater halted.instructions halted.cycles halted.cause
        → IfOk result (λ (ending, last). EndsAtHome (keys_in L.leaf_of lines.old) config whole halted.instructions
        halted.cycles ending (W.state lines.new.tap.now).log) }
    ensures spends { (config : Config) (levels costs : ℕ)
        → CauseSpent M.state W.state L.levels config levels costs halted.instructions halted.cycles halted.cause
        lines.old
        → IfOk result (λ (ending, end). EndsSpent config levels
        (costs + waits levels (W.state lines.new.tap.now).log) halted.instructions halted.cycles ending) }
{
    match halted.cause {
        Cause::Ends { ending, until } => match lines.idle_until(until) {
            Ok(last) => Ok((ending, last)),
            Err(stop) => ending_of(stop, lines),
        },
        Cause::Stops(stop) => ending_of(stop, lines),
    }
}

/// A whole run over a prepared bus.
pub(crate) fn drive<M: UntrustedMemory, W: Watch, L: LeafFn>(
    image: &Image,
    base: u32,
    budget: u64,
    core: &mut Core,
    files: &mut Files,
    cache: &mut Cache,
    bus: &mut Bus<'_, M, W>,
    oram: &mut Oram<L>,
) -> Result<Course, NoMemory>
    requires base { base ≡ core.old.base }
    requires aligned { base % 64 ≡ 0 }
    requires size { core.old.size ≡ 64 * oram.old.port.clock.config.shape.lines }
    requires image { IsImage base core.old.size image.now }
    requires serving { Serving (L.levels oram.old.port.leaves)
        (oram_over M.state W.state oram.old bus.old.memory.now bus.old.tap.now) }
    requires fresh { oram.old.port.clock.last ≡ 0 }
    requires below { CacheBelow oram.old.port.clock.config.shape.lines cache.old }
    ensures same { IsSameBus bus.old bus.new }
    ensures settled { MatchResult result
        (λ course. Settled budget course.instructions course.cycles course.ending course.last
        (oram_over M.state W.state oram.old bus.old.memory.now bus.old.tap.now).port
        (oram_over M.state W.state oram.new bus.new.memory.now bus.new.tap.now).port)
        (λ _. Short (oram_over M.state W.state oram.old bus.old.memory.now bus.old.tap.now).port
        (oram_over M.state W.state oram.new bus.new.memory.now bus.new.tap.now).port) }
    ensures refines { (memory : List ℕ)
        → AreKeys (keys_of oram.old.port.tree oram.old.tagger (L.leaf_of oram.old.port.leaves)) → IsCore core.old
        → Computes (keys_of oram.old.port.tree oram.old.tagger (L.leaf_of oram.old.port.leaves))
        (L.levels oram.old.port.leaves) cache.old memory
        (oram_over M.state W.state oram.old bus.old.memory.now bus.old.tap.now)
        → IfOk result (λ course. Forgery
        (keys_of oram.old.port.tree oram.old.tagger (L.leaf_of oram.old.port.leaves)) (W.state bus.new.tap.now).log
        ⊎ IsFlat course.instructions (machine_of core.old files.old)
        (loaded image.now.bytes.items image.now.marked.items memory) course.ending (machine_of core.new files.new)) }
    ensures honest { (memory : List ℕ)
        → AreKeys (keys_of oram.old.port.tree oram.old.tagger (L.leaf_of oram.old.port.leaves)) → IsCore core.old
        → Computes (keys_of oram.old.port.tree oram.old.tagger (L.leaf_of oram.old.port.leaves))
        (L.levels oram.old.port.leaves) cache.old memory
        (oram_over M.state W.state oram.old bus.old.memory.now bus.old.tap.now)
        → IfOk result (λ course. EndsUnblamed course.ending (W.state bus.new.tap.now).log) }
    ensures points { (memory : List ℕ)
        → AreKeys (keys_of oram.old.port.tree oram.old.tagger (L.leaf_of oram.old.port.leaves)) → IsCore core.old
        → Computes (keys_of oram.old.port.tree oram.old.tagger (L.leaf_of oram.old.port.leaves))
        (L.levels oram.old.port.leaves) cache.old memory
        (oram_over M.state W.state oram.old bus.old.memory.now bus.old.tap.now)
        → Forgery (keys_of oram.old.port.tree oram.old.tagger (L.leaf_of oram.old.port.leaves))
        (W.state bus.new.tap.now).log ⊎ DrawnOnce (W.state bus.new.tap.now).log.events }
    ensures fetches { count_by is_answered (W.state bus.old.tap.now).log.events ≡ 0
        → IfOk result (λ course. course.fetches ≡ count_by is_answered (W.state bus.new.tap.now).log.events) }
    ensures fed { (ways : ℕ) (sets : Sets) → IsCore core.old
        → StandsAs oram.old.port.clock.config.shape.lines ways cache.old (over_image image.now sets)
        → IfOk result (λ course. (lines : List NotedLine)
        × (answered_lines (W.state bus.new.tap.now).log.events
        ≡ answered_lines (W.state bus.old.tap.now).log.events ++ lines)
        × IsFedRun ways course.instructions (machine_of core.old files.old)
        (feed_of (over_loaded ways image.now sets) lines) course.ending (machine_of core.new files.new)) }
    ensures plays { (config : Config) (whole : Play)
        → AreKeys (keys_of oram.old.port.tree oram.old.tagger (L.leaf_of oram.old.port.leaves))
        → CallsPlay (keys_of oram.old.port.tree oram.old.tagger (L.leaf_of oram.old.port.leaves))
        (L.levels oram.old.port.leaves) config
        → IsConfig config → IsCore core.old → config.budget ≡ budget → oram.old.port.clock.config ≡ config
        → StandsInImage (keys_of oram.old.port.tree oram.old.tagger (L.leaf_of oram.old.port.leaves))
        (L.levels oram.old.port.leaves) config whole image.now.bytes.items (machine_of core.old files.old)
        image.now.marked.items cache.old (record {
          oram = oram_over M.state W.state oram.old bus.old.memory.now bus.old.tap.now;
          clock = 0;
          fetches = 0;
        })
        → IfOk result (λ course. Forgery
        (keys_of oram.old.port.tree oram.old.tagger (L.leaf_of oram.old.port.leaves)) (W.state bus.new.tap.now).log
        ⊎ RunShows (L.levels oram.old.port.leaves) whole (play_ending course.ending)
        (numbers_of course.instructions course.cycles course.fetches) course.last (W.state bus.new.tap.now).log) }
    ensures replays { CallsReplay (keys_of oram.old.port.tree oram.old.tagger (L.leaf_of oram.old.port.leaves))
        (L.levels oram.old.port.leaves)
        → IsReplayed (keys_of oram.old.port.tree oram.old.tagger (L.leaf_of oram.old.port.leaves))
        (oram_over M.state W.state oram.old bus.old.memory.now bus.old.tap.now)
        → MatchResult result
        (λ course. EndsReplayed (keys_of oram.old.port.tree oram.old.tagger (L.leaf_of oram.old.port.leaves))
        oram.old.port.tree.stash course.ending (W.state bus.new.tap.now))
        (λ _. WantsReplayed (keys_of oram.old.port.tree oram.old.tagger (L.leaf_of oram.old.port.leaves))
        oram.old.port.tree.stash (W.state bus.new.tap.now)) }
    ensures home { (config : Config) (whole : Play)
        → AreKeys (keys_of oram.old.port.tree oram.old.tagger (L.leaf_of oram.old.port.leaves))
        → CallsPlay (keys_of oram.old.port.tree oram.old.tagger (L.leaf_of oram.old.port.leaves))
        (L.levels oram.old.port.leaves) config
        → IsConfig config → IsCore core.old → config.budget ≡ budget
        → StandsInImage (keys_of oram.old.port.tree oram.old.tagger (L.leaf_of oram.old.port.leaves))
        (L.levels oram.old.port.leaves) config whole image.now.bytes.items (machine_of core.old files.old)
        image.now.marked.items cache.old (record {
          oram = oram_over M.state W.state oram.old bus.old.memory.now bus.old.tap.now;
          clock = 0;
          fetches = 0;
        })
        → CallsReplay (keys_of oram.old.port.tree oram.old.tagger (L.leaf_of oram.old.port.leaves))
        (L.levels oram.old.port.leaves)
        → IsReplayed (keys_of oram.old.port.tree oram.old.tagger (L.leaf_of oram.old.port.leaves))
        (oram_over M.state W.state oram.old bus.old.memory.now bus.old.tap.now)
        → IfOk result (λ course.
        EndsAtHome (keys_of oram.old.port.tree oram.old.tagger (L.leaf_of oram.old.port.leaves)) config whole
        course.instructions course.cycles course.ending (W.state bus.new.tap.now).log) }
    ensures spends { (ways : ℕ) (sets : Sets) → IsCore core.old
        → StandsAs oram.old.port.clock.config.shape.lines ways cache.old (over_image image.now sets)
        → let config = oram.old.port.clock.config in
        let levels = L.levels oram.old.port.leaves in
        IsSpent levels 0 (record {
          oram = oram_over M.state W.state oram.old bus.old.memory.now bus.old.tap.now;
          clock = 0;
          fetches = 0;
        })
        → IfOk result (λ course. (lines : List NotedLine)
        × (answered_lines (W.state bus.new.tap.now).log.events
        ≡ answered_lines (W.state bus.old.tap.now).log.events ++ lines)
        × EndsSpent config levels (length image.now.marked.items
        + fed_cost ways course.instructions (machine_of core.old files.old)
        (feed_of (over_loaded ways image.now sets) lines)
        + waits levels (W.state bus.new.tap.now).log) course.instructions course.cycles course.ending) }
{
    let mut lines = TimedLines::new(bus.memory, bus.tap, oram);
    let halted = play(image, base, budget, core, files, cache, &mut lines);
    let (ending, last) = finish(halted, &mut lines, budget)?;
    Ok(Course {
        instructions: halted.instructions,
        cycles: halted.cycles,
        fetches: lines.fetches,
        ending,
        last,
    })
}
