//! What a core over a cache computes on: the flat machine, fed with the lines that the store answered.
//!
//! `specs/Fed.antt` has the flat run taken use by use of its lines, where each line for which the cache's lists ask a
//! fetch first takes its bytes from the next of a list of lines, whatever they are, where that has its number. The
//! crate has laws alone; the calls do nothing.
#![tactic(auto)]

mod chains;
mod runs;

ghost use Rattle.std.specs.Prelude.{◌≡◌, ℕ, List, [], ◌∷◌, ◌++◌, Err, length, replicate};
ghost use Rattle.asc_base.specs.Memory.{IsMemory};
ghost use Rattle.rv32_core.specs.Machine.{Machine};
ghost use Rattle.rv32_core.specs.FlatRun.{Exited, flat_run, machine_at_start, output_limit};
ghost use Rattle.data_cache.specs.CacheLists.{Sets};
ghost use Rattle.rv32_core.specs.Access.{slice_of};
ghost use Rattle.fed_run.specs.Fed.{NotedLine, numbered, Ends, Starves, Refuses, AnotherLine, fed_step, fed_run};
ghost use Rattle.fed_run.specs.Fed.{flat_answers};
ghost use Rattle.fed_run.specs.Fed.{program_line, over_line, over_image_line, reading_line, writing_line, eight_bytes};
ghost use Rattle.fed_run.specs.Whole.{feed_at_start};

pub use chains::{
    KeptStore, image_line_is_fed, instruction_is_fed, run_is_fed, told_run_is_flat,
    whole_run_is_fed,
};
pub use runs::{fed_runs_go_on, more_lines_go_on};

/// Where each line that is answered is the flat list's at that time, a run that is fed is the flat run, whatever lines
/// are kept at its start: as many instructions, the machine, the bytes and the ending; and it uses these lines, in
/// order, and no other.
pub fn honest_lines_give_the_flat_run()
    ensures { (ways n : ℕ) (machine : Machine) (memory : List ℕ) (sets : Sets) (more : List NotedLine)
        → IsMemory machine.core.base machine.core.size → length memory ≡ machine.core.size
        → let fed = fed_run ways n machine (record {
          memory = memory;
          sets = sets;
          left = flat_answers ways n sets machine memory ++ more;
        }) in
        let run = flat_run n machine memory in
        (fed.instructions ≡ run.instructions) × (fed.machine ≡ run.machine) × (fed.feed.memory ≡ run.memory)
        × (fed.feed.left ≡ more) × (fed.ending ≡ Ends run.ending) }
{}

/// Worked rows over one set of one way, whose image line has the program `lw x5, 64(x0); addi x17, x0, 93; ecall`: line
/// 1 is fetched, and then line 0 again. With both it exits, and with the first alone it starves in its second
/// instruction. Where another line stands in the place of the one that is asked for, its bytes aren't taken: it is
/// refused, and left.
pub fn worked_fed_runs()
    ensures exits { let run = fed_run 1 9 (machine_at_start 0 0 128 0 [] output_limit)
        (over_image_line (numbered 1 (replicate 64 7) ∷ numbered 0 program_line ∷ [])) in
        (run.ending ≡ Ends (Exited 0)) × (run.instructions ≡ 3) × (run.feed.left ≡ []) }
    ensures starves { let run = fed_run 1 9 (machine_at_start 0 0 128 0 [] output_limit)
        (over_image_line (numbered 1 (replicate 64 7) ∷ [])) in (run.ending ≡ Starves) × (run.instructions ≡ 1) }
    ensures refuses { let left = numbered 3 (replicate 64 7) ∷ numbered 0 program_line ∷ [] in
        let machine = machine_at_start 0 0 128 0 [] output_limit in
        let run = fed_run 1 9 machine (over_image_line left) in
        (fed_step 1 machine (over_image_line left) ≡ Err AnotherLine)
        × (run.ending ≡ Refuses) × (run.instructions ≡ 0) × (run.feed.left ≡ left) }
    ensures refuses_second { let left = numbered 1 (replicate 64 7) ∷ numbered 1 program_line ∷ [] in
        let run = fed_run 1 9 (machine_at_start 0 0 128 0 [] output_limit) (over_image_line left) in
        (run.ending ≡ Refuses) × (run.instructions ≡ 1) × (run.feed.left ≡ numbered 1 program_line ∷ []) }
    ensures same_start { feed_at_start 1 1 (program_line ++ replicate 64 0) (0 ∷ [])
        (numbered 1 (replicate 64 7) ∷ []) ≡ over_image_line (numbered 1 (replicate 64 7) ∷ []) }
{}

/// Worked rows of host calls whose eight bytes from address 60 on cross from line 0, which is kept, into line 1. A read
/// over one set of two ways fetches line 1, and puts the input into both; a write over one set of one way fetches line
/// 1 and then line 0 again, and appends bytes of both; and with no line they starve, after the instructions before
/// them.
pub fn worked_crossings()
    ensures read { let run = fed_run 2 9 (machine_at_start 0 0 128 0 eight_bytes output_limit)
        (over_line reading_line (numbered 1 (replicate 64 9) ∷ [])) in
        (run.ending ≡ Ends (Exited 8)) × (run.instructions ≡ 6) × (run.feed.left ≡ [])
        × (slice_of run.feed.memory 60 10 ≡ 1 ∷ 2 ∷ 3 ∷ 4 ∷ 5 ∷ 6 ∷ 7 ∷ 8 ∷ 9 ∷ 9 ∷ []) }
    ensures write { let run = fed_run 1 9 (machine_at_start 0 0 128 0 [] output_limit)
        (over_line writing_line (numbered 1 (replicate 64 9) ∷ numbered 0 writing_line ∷ [])) in
        (run.ending ≡ Ends (Exited 8)) × (run.instructions ≡ 7) × (run.feed.left ≡ [])
        × (run.machine.files.output ≡ 0 ∷ 0 ∷ 0 ∷ 0 ∷ 9 ∷ 9 ∷ 9 ∷ 9 ∷ []) }
    ensures read_starves { let run = fed_run 2 9 (machine_at_start 0 0 128 0 eight_bytes output_limit)
        (over_line reading_line []) in
        (run.ending ≡ Starves) × (run.instructions ≡ 3) × (run.machine.files.position ≡ 0) }
    ensures write_starves { let run = fed_run 1 9 (machine_at_start 0 0 128 0 [] output_limit)
        (over_line writing_line []) in
        (run.ending ≡ Starves) × (run.instructions ≡ 4) × (run.machine.files.output ≡ []) }
{}
