//! Laws of the steps, by the instruction table, and of the line list: which lines a step asks for, in which order, and
//! how a run's items are those of its steps. The calls do nothing.

ghost use Rattle.std.specs.Prelude.{◌≡◌, ◌≢◌, ℕ, suc, ◌+◌, ◌/◌, ◌<◌, ◌≤◌, length, true, false, List, [], ◌∷◌, ◌++◌};
ghost use Rattle.std.specs.Prelude.{map, All, AllPairs};
ghost use Rattle.std.specs.Int.{from_le_bytes, w32};
ghost use Rattle.asc_base.specs.Memory.{IsMemory};
ghost use Rattle.request_plan.specs.Plan.{Plan, Done as Outcome, Ask, bind, Asks, Outcomes};
ghost use Rattle.request_plan.specs.Play.{served};
ghost use Rattle.rv32_core.specs.Access.{Access, Load, IsAccess, access_bytes};
ghost use Rattle.rv32_table.specs.Table.{table, Matches};
ghost use Rattle.rv32_core.specs.Machine.{CoreState, Machine, IsCore, is_inside, effect_of_word, cost_of_word};
ghost use Rattle.rv32_core.specs.FlatMachine.{trap_at, bytes_at, effected, flat_step};
ghost use Rattle.rv32_core.specs.RowStep.{row_step};
ghost use Rattle.rv32_core.specs.FlatRun.{Budget, Exited, finished_before, flat_run, gone_on, machine_at_start};
ghost use Rattle.rv32_core.specs.FlatRun.{output_limit};
ghost use Rattle.rv32_core.specs.RunPlan.{end_of, after_instruction, run_plan};
ghost use Rattle.rv32_core.specs.StepPlan.{word_plan, step_plan};
ghost use Rattle.rv32_core.specs.LineList.{Read, WholeWrite, LineUse, LineItem, used, word_lines, fetch_line};
ghost use Rattle.rv32_core.specs.LineList.{step_lines, items_after};
ghost use Rattle.rv32_core.specs.LineList.{run_items, image_items, image_cost, line_list, line_used, AsksLines};
ghost use Rattle.rv32_core.specs.LineList.{asked_lines, cost_after};
ghost use Rattle.rv32_core.specs.declared.effect.Effect.TheVariants.{Traps};
ghost use Rattle.rv32_core.specs.declared.outcome.Done.{Done};
ghost use Rattle.rv32_core.specs.declared.outcome.TrapKind.{TrapKind};
ghost use Rattle.rv32_core.specs.declared.outcome.TrapKind.TheVariants.{FetchFault, Illegal};
ghost use Rattle.rv32_core.specs.declared.outcome.Ended.TheVariants.{No, Trap};

/// A word that matches a row of the instruction table does what the meaning beside the row says, by the meaning's name
/// and the fields of the row's form alone; so does a step that fetches it. A word that matches no row is illegal.
pub fn steps_are_the_table()
    ensures word { (machine : Machine) (memory : List ℕ) (cost word : ℕ)
        → All (λ row. Matches word row
        → effected machine memory cost (effect_of_word machine word) ≡ row_step machine memory cost word row) table }
    ensures step { (machine : Machine) (memory : List ℕ) (word : ℕ) → is_inside machine.core machine.core.pc 4 ≡ true
        → from_le_bytes w32 (bytes_at machine memory machine.core.pc 4) ≡ word
        → All (λ row. Matches word row
        → flat_step machine memory ≡ row_step machine memory (cost_of_word machine word) word row) table }
    ensures illegal { (machine : Machine) (word : ℕ) → All (λ row. ¬ Matches word row) table
        → effect_of_word machine word ≡ Traps Illegal }
{}

/// Whatever is answered, a step asks for the lines of its instruction in order, each once: for its fetch, and then for
/// its data. Where the four bytes at pc aren't all in the memory it asks for nothing.
pub fn step_asks_its_lines()
    ensures fetch { (machine : Machine) → is_inside machine.core machine.core.pc 4 ≡ true
        → step_plan machine
        ≡ Ask (Load machine.core.pc 4) machine (λ bytes. word_plan machine (from_le_bytes w32 bytes)) }
    ensures fetch_line { (machine : Machine)
        → line_used machine.core (Load machine.core.pc 4) ≡ fetch_line machine.core }
    ensures data { (machine : Machine) (word : ℕ) → IsMemory machine.core.base machine.core.size
        → AsksLines machine.core (word_plan machine word) (word_lines machine word) }
    ensures outside { (machine : Machine) → is_inside machine.core machine.core.pc 4 ≡ false
        → step_plan machine ≡ Outcome (machine, trap_at machine.core FetchFault) }
    ensures flat { (machine : Machine) (memory : List ℕ) → IsMemory machine.core.base machine.core.size
        → asked_lines machine.core (access_bytes machine.core.base) (step_plan machine) memory
        ≡ step_lines machine memory }
{}

/// Where a plan asks for these lines, each server is asked for them, in order; and one plan after another asks for the
/// lines of the first and then for those of the second.
pub fn lines_in_order<H, A, B, C, D>()
    ensures asked { (core : CoreState) (serve : H → Access → List ℕ × H) (plan : Plan Access (List ℕ) B A)
        (held : H) (lines : List LineUse) → AsksLines core plan lines → asked_lines core serve plan held ≡ lines }
    ensures one_after_another { (core : CoreState) (put : B → C) (first : Plan Access (List ℕ) B A)
        (next : A → Plan Access (List ℕ) C D) (lines more : List LineUse) → AsksLines core first lines
        → ((a : A) → AsksLines core (next a) more) → AsksLines core (bind put first next) (lines ++ more) }
{}

/// The data lines of an instruction rise, each once, and every line of a step and of a run lies in the memory.
pub fn lines_rise()
    ensures rising { (machine : Machine) (word : ℕ)
        → AllPairs (λ (first later : LineUse). first.line < later.line) (word_lines machine word) }
    ensures step { (machine : Machine) (memory : List ℕ) → IsMemory machine.core.base machine.core.size
        → All (λ (one : LineUse). one.line < machine.core.size / 64) (step_lines machine memory) }
    ensures run { (n cost : ℕ) (machine : Machine) (memory : List ℕ) → IsMemory machine.core.base machine.core.size
        → All (λ (item : LineItem). item.use_of.line < machine.core.size / 64) (run_items n cost machine memory) }
{}

/// An instruction that traps gives its fetch alone, a FetchFault gives nothing, and one that finishes gives its fetch
/// and then its data.
pub fn traps_give_no_data()
    ensures fault { (machine : Machine) (memory : List ℕ) (pc : ℕ)
        → (flat_step machine memory).done.ended ≡ Trap FetchFault pc → step_lines machine memory ≡ [] }
    ensures trap { (machine : Machine) (memory : List ℕ) (kind : TrapKind) (pc : ℕ)
        → (flat_step machine memory).done.ended ≡ Trap kind pc → kind ≢ FetchFault
        → step_lines machine memory ≡ fetch_line machine.core ∷ [] }
    ensures finished { (machine : Machine) (memory : List ℕ)
        → ((kind : TrapKind) (pc : ℕ) → (flat_step machine memory).done.ended ≢ Trap kind pc)
        → step_lines machine memory
        ≡ fetch_line machine.core ∷ word_lines machine (from_le_bytes w32 (bytes_at machine memory machine.core.pc 4)) }
{}

/// The items of a run are those of its first step, and then those of the run from there, at the cost of that step.
/// After so many instructions that finish they are those of the run so far, and then those of the run from there.
pub fn items_go_on()
    ensures none { (cost : ℕ) (machine : Machine) (memory : List ℕ) → run_items 0 cost machine memory ≡ [] }
    ensures next { (n cost : ℕ) (machine next : Machine) (memory after : List ℕ) (done : Done)
        → flat_step machine memory ≡ record { machine = next; memory = after; done = done } → done.ended ≡ No
        → run_items (suc n) cost machine memory
        ≡ items_after cost (step_lines machine memory) ++ run_items n done.cost next after }
    ensures last { (n cost : ℕ) (machine next : Machine) (memory after : List ℕ) (done : Done)
        → flat_step machine memory ≡ record { machine = next; memory = after; done = done } → done.ended ≢ No
        → run_items (suc n) cost machine memory ≡ items_after cost (step_lines machine memory) }
    ensures parts { (n more cost : ℕ) (machine : Machine) (memory : List ℕ)
        → (flat_run n machine memory).ending ≡ Budget
        → run_items (n + more) cost machine memory
        ≡ run_items n cost machine memory ++ run_items more (cost_after n cost machine memory)
        ((flat_run n machine memory).machine) ((flat_run n machine memory).memory) }
{}

/// The image lines come first, in their order, each written whole, at one cycle, which the item after it has.
pub fn image_lines_first()
    ensures list { (marked : List ℕ) (n : ℕ) (machine : Machine) (memory : List ℕ)
        → line_list marked n machine memory ≡ image_items 0 marked ++ run_items n (image_cost marked) machine memory }
    ensures uses { (cost : ℕ) (marked : List ℕ)
        → map (λ (item : LineItem). item.use_of) (image_items cost marked) ≡ used WholeWrite marked }
    ensures next { (cost line : ℕ) (marked : List ℕ)
        → image_items cost (line ∷ marked)
        ≡ items_after cost (used WholeWrite (line ∷ [])) ++ image_items 1 marked }
{}

/// A run of n instructions and then of k more is that of n + k: where all n finished it goes on from there, and one
/// that ended stays as it is. With `Budget` exactly n finished, and never more.
pub fn runs_go_on()
    ensures parts { (n more : ℕ) (machine : Machine) (memory : List ℕ)
        → flat_run (n + more) machine memory ≡ gone_on more (flat_run n machine memory) }
    ensures budget { (n : ℕ) (machine : Machine) (memory : List ℕ)
        → (flat_run n machine memory).ending ≡ Budget → (flat_run n machine memory).instructions ≡ n }
    ensures at_most { (n : ℕ) (machine : Machine) (memory : List ℕ) → (flat_run n machine memory).instructions ≤ n }
{}

/// A run appends to the output, and a longer run's output begins with it.
pub fn outputs_begin_alike()
    ensures run { (n : ℕ) (machine : Machine) (memory : List ℕ)
        → (written : List ℕ)
        × ((flat_run n machine memory).machine.files.output ≡ machine.files.output ++ written) }
    ensures longer { (n more : ℕ) (machine : Machine) (memory : List ℕ)
        → (written : List ℕ)
        × ((flat_run (n + more) machine memory).machine.files.output
        ≡ (flat_run n machine memory).machine.files.output ++ written) }
{}

/// A step and a run leave the memory where it is, and as many bytes as there were.
pub fn bytes_stay()
    ensures base { (machine : Machine) (memory : List ℕ)
        → (flat_step machine memory).machine.core.base ≡ machine.core.base }
    ensures size { (machine : Machine) (memory : List ℕ)
        → (flat_step machine memory).machine.core.size ≡ machine.core.size }
    ensures step { (machine : Machine) (memory : List ℕ) → length memory ≡ machine.core.size
        → length (flat_step machine memory).memory ≡ length memory }
    ensures run { (n : ℕ) (machine : Machine) (memory : List ℕ) → length memory ≡ machine.core.size
        → length (flat_run n machine memory).memory ≡ length memory }
{}

/// A run as one plan, which is that of its instructions, one after another. Served by a list of bytes it is the flat
/// run, it asks for the lines of the line list, in order, and whatever is answered it asks for bytes inside the memory
/// and inside one line alone.
pub fn run_is_one_plan()
    ensures none { (before : ℕ) (machine : Machine)
        → run_plan 0 before machine
        ≡ Outcome (record { instructions = before; machine = machine; ending = Budget }) }
    ensures next { (n before : ℕ) (machine : Machine)
        → run_plan (suc n) before machine
        ≡ bind (λ (left : Machine). (before, left)) (step_plan machine)
        (λ (end : Machine × Done). after_instruction before (run_plan n (before + 1)) (end.0) ((end.1).ended)) }
    ensures flat { (n before : ℕ) (machine : Machine) (memory : List ℕ)
        → served (access_bytes machine.core.base) (run_plan n before machine) memory
        ≡ (end_of (finished_before before (flat_run n machine memory)), (flat_run n machine memory).memory) }
    ensures lines { (n before cost : ℕ) (machine : Machine) (memory : List ℕ)
        → IsMemory machine.core.base machine.core.size
        → asked_lines machine.core (access_bytes machine.core.base) (run_plan n before machine) memory
        ≡ map (λ (item : LineItem). item.use_of) (run_items n cost machine memory) }
    ensures inside { (n before : ℕ) (machine : Machine) → IsCore machine.core
        → Asks (IsAccess machine.core.base machine.core.size) (run_plan n before machine) }
    ensures outcomes { (machine : Machine) → IsCore machine.core
        → Outcomes (λ (end : Machine × Done). IsCore ((end.0).core)
        × ((end.0).core.base ≡ machine.core.base) × ((end.0).core.size ≡ machine.core.size)) (step_plan machine) }
{}

/// The line lists of two programs: `addi x17, x0, 93; ecall` with two image lines, which exits with 0, and
/// `lw x5, 64(x0)` before a word that is none.
pub fn worked_line_lists()
    ensures exits { line_list (0 ∷ 3 ∷ []) 5 (machine_at_start 0 0 4096 0 [] output_limit)
        (0x93 ∷ 0x08 ∷ 0xd0 ∷ 0x05 ∷ 0x73 ∷ 0 ∷ 0 ∷ 0 ∷ [])
        ≡ record { cost = 0; use_of = record { line = 0; kind = WholeWrite } }
        ∷ record { cost = 1; use_of = record { line = 3; kind = WholeWrite } }
        ∷ record { cost = 1; use_of = record { line = 0; kind = Read } }
        ∷ record { cost = 1; use_of = record { line = 0; kind = Read } } ∷ [] }
    ensures traps { line_list [] 5 (machine_at_start 4 0 4096 0 [] output_limit)
        (0x23 ∷ 0x20 ∷ 0x20 ∷ 0 ∷ 0x83 ∷ 0x22 ∷ 0 ∷ 4 ∷ 0 ∷ 0 ∷ 0 ∷ 0 ∷ [])
        ≡ record { cost = 0; use_of = record { line = 0; kind = Read } }
        ∷ record { cost = 0; use_of = record { line = 1; kind = Read } }
        ∷ record { cost = 2; use_of = record { line = 0; kind = Read } } ∷ [] }
    ensures run { (flat_run 5 (machine_at_start 0 0 4096 0 [] output_limit)
        (0x93 ∷ 0x08 ∷ 0xd0 ∷ 0x05 ∷ 0x73 ∷ 0 ∷ 0 ∷ 0 ∷ [])).ending ≡ Exited 0 }
{}
