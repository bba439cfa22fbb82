//! Plays and halts in numbers. The functions do nothing: each states laws in its contract.

ghost use Rattle.std.specs.Prelude.{◌≡◌, ◌+◌, ◌*◌, ℕ, [], ◌∷◌, ◌++◌, map, replicate, slice_get, slice_index, Some};
ghost use Rattle.std.specs.List.{range_with_len};
ghost use Rattle.asc_base.specs.Settings.{config_of};
ghost use Rattle.asc_base.specs.declared.block.Point.TheVariants.{Dummy};
ghost use Rattle.asc_base.specs.declared.stop.Evidence.TheVariants.{BadSlot, Doubled};
ghost use Rattle.bus_schedule.specs.Timetable.{public_of};
ghost use Rattle.posmap_lookaside.specs.Rows.{in_turn};
ghost use Rattle.rv32_core.specs.declared.outcome.TrapKind.TheVariants.{FetchMisaligned};
ghost use Rattle.run_play.specs.Play.{Exited, Trapped, Budget, TimeUp, StashFull, Device};
ghost use Rattle.run_play.specs.Halt.{Refused, Overfull, MoveFails, AppendRefused, AppendOverfull, Fits, halt};
ghost use Rattle.run_play.specs.Halt.{IsHalted};
ghost use Rattle.run_play.specs.PlayEvents.{Starts, Draws, play_events, starts_in, points_in, indices_in, report_of};
ghost use Rattle.run_play.specs.Slots.{Slot};
ghost use Rattle.run_play.specs.Rows.{default_settings, small_settings, default_config, small, no_budget, no_time};
ghost use Rattle.run_play.specs.Rows.{one_rate, short_time, one_choice, one_held};
ghost use Rattle.run_play.specs.Rows.{few_counts, two_choices, two_held};
ghost use Rattle.run_play.specs.Programs.{swing_words, divide_words};
ghost use Rattle.run_play.specs.Programs.{exit_words, hello_words};
ghost use Rattle.run_play.specs.Programs.{load_words, fetches_at, appended_of};
ghost use Rattle.run_play.specs.Programs.{jump_words, misaligned_words, memory_with, play_at, real, tags};

/// Plays of programs. With the default settings programs of one line take no slot, be it that they exit at once or
/// write six bytes first. Over 64 lines and a cache of one line a load of line 1 stores line 0 before it, so its walk
/// refills the map block of both, and the program's own line is fetched again: four slots, one behind another, also
/// where there is one rate. A jump to an address that no instruction has traps. With no budget the image is loaded and
/// nothing is done, and with less time than the first slot's start the first slot that is needed comes too late.
pub fn plays_have_rows()
    ensures default_settings { config_of default_settings ≡ default_config }
    ensures small_settings { config_of small_settings ≡ small }
    ensures exit { report_of (public_of default_config) (play_at default_config 65536 exit_words)
        ≡ record {
          ending = Exited 0;
          instructions = 2;
          cycles = 12;
          last = 12;
          fetches = 0;
          real = 0;
          dummies = 0;
          choices = 0;
          code = 0;
        } }
    ensures hello { report_of (public_of default_config) (play_at default_config 65536 hello_words)
        ≡ record {
          ending = Exited 0;
          instructions = 9;
          cycles = 34;
          last = 34;
          fetches = 0;
          real = 0;
          dummies = 0;
          choices = 0;
          code = 0;
        } }
    ensures load { report_of (public_of small) (play_at small 0 load_words)
        ≡ record {
          ending = Exited 0;
          instructions = 3;
          cycles = 3019;
          last = 3019;
          fetches = 2;
          real = 4;
          dummies = 0;
          choices = 0;
          code = 0;
        } }
    ensures load_starts { starts_in (play_at small 0 load_words).slots ≡ 256 ∷ 1008 ∷ 1760 ∷ 2512 ∷ [] }
    ensures load_points { points_in (play_at small 0 load_words).slots
        ≡ real 64 0 0 ∷ real 0 0 0 ∷ real 1 0 0 ∷ real 0 0 1 ∷ [] }
    ensures load_events { play_events (play_at small 0 load_words).slots
        ≡ Starts 256 (Some 1) ∷ Draws (real 64 0 0)
        ∷ Starts 1008 (Some 752) ∷ Draws (real 0 0 0) ∷ tags 0 0 1 (memory_with 64 0 load_words)
        ∷ Starts 1760 (Some 1504) ∷ Draws (real 1 0 0) ∷ tags 1 0 1 (replicate 64 0)
        ∷ Starts 2512 (Some 2258) ∷ Draws (real 0 0 1) ∷ tags 0 0 2 (memory_with 64 0 load_words) ∷ [] }
    ensures one_rate { starts_in (play_at one_rate 0 load_words).slots ≡ 256 ∷ 1008 ∷ 1760 ∷ 2512 ∷ [] }
    ensures trap { report_of (public_of small) (play_at small 0 misaligned_words)
        ≡ record {
          ending = Trapped FetchMisaligned 4;
          instructions = 1;
          cycles = 2;
          last = 2;
          fetches = 0;
          real = 0;
          dummies = 0;
          choices = 0;
          code = 0;
        } }
    ensures no_budget { report_of (public_of no_budget) (play_at no_budget 65536 hello_words)
        ≡ record {
          ending = Budget;
          instructions = 0;
          cycles = 1;
          last = 1;
          fetches = 0;
          real = 0;
          dummies = 0;
          choices = 0;
          code = 0;
        } }
    ensures no_time { report_of (public_of no_time) (play_at no_time 0 load_words)
        ≡ record {
          ending = TimeUp 256;
          instructions = 0;
          cycles = 1;
          last = 200;
          fetches = 0;
          real = 0;
          dummies = 0;
          choices = 0;
          code = 0;
        } }
{}

/// The same load under one root, where one block is held: the root's block comes to be held and is displaced by the map
/// block below it, which is appended with the line of its children's counters, of which the first is 1.
pub fn appends_have_rows()
    ensures report { report_of (public_of one_held) (play_at one_held 0 load_words)
        ≡ record {
          ending = Exited 0;
          instructions = 3;
          cycles = 3771;
          last = 3771;
          fetches = 2;
          real = 5;
          dummies = 0;
          choices = 0;
          code = 0;
        } }
    ensures events { play_events (play_at one_held 0 load_words).slots
        ≡ Starts 256 (Some 1) ∷ Draws (real 66 0 0)
        ∷ Starts 1008 (Some 752) ∷ Draws (real 64 0 0) ∷ tags 66 1 0 (replicate 9 0 ++ 4 ∷ replicate 54 0)
        ∷ Starts 1760 (Some 1504) ∷ Draws (real 0 0 0) ∷ tags 0 0 1 (memory_with 64 0 load_words)
        ∷ Starts 2512 (Some 2256) ∷ Draws (real 1 0 0) ∷ tags 1 0 1 (replicate 64 0)
        ∷ Starts 3264 (Some 3010) ∷ Draws (real 0 0 1) ∷ tags 0 0 2 (memory_with 64 0 load_words) ∷ [] }
    ensures append { report_of (public_of one_held) (halt 5 (play_at one_held 0 load_words) 2 (AppendOverfull 201))
        ≡ record {
          ending = StashFull 201;
          instructions = 0;
          cycles = 1;
          last = 1504;
          fetches = 0;
          real = 2;
          dummies = 0;
          choices = 0;
          code = 0;
        } }
{}

/// A program that jumps to itself until its time is up. It asks for no slot, so all slots are dummies. At the end of
/// the 44th, at 33,088, where epoch 1 began, the greatest of four rates is chosen, since no slot was real.
pub fn jumps_have_rows()
    ensures one_rate { report_of (public_of short_time) (play_at short_time 0 jump_words)
        ≡ record {
          ending = TimeUp 6001;
          instructions = 3000;
          cycles = 6001;
          last = 6016;
          fetches = 0;
          real = 0;
          dummies = 8;
          choices = 0;
          code = 0;
        } }
    ensures starts { starts_in (play_at short_time 0 jump_words).slots
        ≡ 256 ∷ 1008 ∷ 1760 ∷ 2512 ∷ 3264 ∷ 4016 ∷ 4768 ∷ 5520 ∷ [] }
    ensures points { points_in (play_at short_time 0 jump_words).slots ≡ map Dummy (range_with_len 0 8) }
    ensures one_choice { report_of (public_of one_choice) (play_at one_choice 0 jump_words)
        ≡ record {
          ending = TimeUp 200001;
          instructions = 100000;
          cycles = 200001;
          last = 200000;
          fetches = 0;
          real = 0;
          dummies = 53;
          choices = 1;
          code = 3;
        } }
    ensures slower { slice_index (starts_in (play_at one_choice 0 jump_words).slots) 44 ≡ 49472 }
    ensures last { slice_index (starts_in (play_at one_choice 0 jump_words).slots) 52 ≡ 184512 }
{}

/// A program that loads line 1 and jumps back to line 0, where own counts have two bits: the third fetch of line 0
/// after its store moves all 32 children of its group first, from 11,664 on. At the first end from 32,768 on, in the
/// move, the learner chooses the least rate, since no cycle was idle. The time is up in an instruction.
pub fn moves_have_rows()
    ensures report { report_of (public_of few_counts) (play_at few_counts 0 swing_words)
        ≡ record {
          ending = TimeUp 50240;
          instructions = 10;
          cycles = 49986;
          last = 50000;
          fetches = 10;
          real = 44;
          dummies = 0;
          choices = 1;
          code = 0;
        } }
    ensures starts { starts_in (play_at few_counts 0 swing_words).slots
        ≡ map (λ k. 1024 + 1520 * k) (range_with_len 0 22) ++ map (λ k. 33696 + 752 * k) (range_with_len 0 22) }
    ensures points { points_in (play_at few_counts 0 swing_words).slots
        ≡ real 64 0 0 ∷ real 0 0 0 ∷ real 1 0 0 ∷ real 0 0 1 ∷ real 1 0 1 ∷ real 0 0 2 ∷ real 1 0 2
        ∷ real 0 0 3 ∷ real 1 0 3 ∷ map (λ child. real child 0 0) (range_with_len 2 30)
        ++ real 0 1 0 ∷ real 1 1 0 ∷ real 0 1 1 ∷ real 1 1 1 ∷ real 0 1 2 ∷ [] }
{}

/// A request that moves two groups. Lines 0 and 32 are fetched in turn under one root, where own counts have two bits
/// and two blocks are held. The last fetch moves the root's group first, of which one map block is accessed, and the
/// held one gets its new counter without an access; and then, behind the refill that appends that one under its new
/// counter, the group of line 0, of 32 lines. That makes 48 slots, one behind another.
pub fn double_moves_have_rows()
    ensures starts { starts_in (fetches_at two_held in_turn).slots
        ≡ map (λ k. 256 + 752 * k) (range_with_len 0 48) }
    ensures points { points_in (fetches_at two_held in_turn).slots
        ≡ real 66 0 0 ∷ real 64 0 0 ∷ real 0 0 0 ∷ real 65 0 0 ∷ real 32 0 0 ∷ real 64 0 1 ∷ real 0 0 1
        ∷ real 65 0 1 ∷ real 32 0 1 ∷ real 64 0 2 ∷ real 0 0 2 ∷ real 65 0 2 ∷ real 32 0 2
        ∷ real 64 0 3 ∷ real 64 1 0 ∷ real 0 0 3 ∷ map (λ child. real child 0 0) (range_with_len 1 31)
        ++ real 0 1 0 ∷ [] }
    ensures renumbered { slice_get (map appended_of (fetches_at two_held in_turn).slots) 14 ≡ Some (Some (65, (1, 0))) }
    ensures last { (fetches_at two_held in_turn).standing.clock ≡ 36096 }
{}

/// A program that divides between its loads, so that dummies pass between real slots. Of four rates the learner chooses
/// the least after three slots, and the third after 14 more, of which five are dummies.
pub fn choices_have_rows()
    ensures report { report_of (public_of two_choices) (play_at two_choices 0 divide_words)
        ≡ record {
          ending = TimeUp 14006;
          instructions = 79;
          cycles = 14006;
          last = 14000;
          fetches = 12;
          real = 14;
          dummies = 5;
          choices = 2;
          code = 8;
        } }
    ensures starts { starts_in (play_at two_choices 0 divide_words).slots
        ≡ 1024 ∷ 2544 ∷ 4064 ∷ map (λ k. 4624 + 560 * k) (range_with_len 0 14) ++ 12656 ∷ 13408 ∷ [] }
    ensures indices { indices_in (play_at two_choices 0 divide_words).slots ≡ 0 ∷ 2 ∷ [] }
    ensures dummies { slice_get (points_in (play_at two_choices 0 divide_words).slots) 16 ≡ Some (Dummy 4) }
{}

/// The load's play, cut: where the third read of its first slot fails; where the third write of its third slot fails,
/// after the block was put back; and where too many blocks stay after the reads of its fourth slot, which serves the
/// second instruction.
pub fn halts_have_rows()
    ensures read { report_of (public_of small) (halt 5 (play_at small 0 load_words) 1 (MoveFails 2))
        ≡ record {
          ending = Device;
          instructions = 0;
          cycles = 1;
          last = 337;
          fetches = 0;
          real = 1;
          dummies = 0;
          choices = 0;
          code = 0;
        } }
    ensures read_events { play_events (halt 5 (play_at small 0 load_words) 1 (MoveFails 2)).slots
        ≡ Starts 256 (Some 1) ∷ Draws (real 64 0 0) ∷ [] }
    ensures write { report_of (public_of small) (halt 5 (play_at small 0 load_words) 3 (MoveFails 8))
        ≡ record {
          ending = Device;
          instructions = 0;
          cycles = 1;
          last = 2097;
          fetches = 0;
          real = 3;
          dummies = 0;
          choices = 0;
          code = 0;
        } }
    ensures write_events { play_events (halt 5 (play_at small 0 load_words) 3 (MoveFails 8)).slots
        ≡ Starts 256 (Some 1) ∷ Draws (real 64 0 0)
        ∷ Starts 1008 (Some 752) ∷ Draws (real 0 0 0) ∷ tags 0 0 1 (memory_with 64 0 load_words)
        ∷ Starts 1760 (Some 1504) ∷ Draws (real 1 0 0) ∷ tags 1 0 1 (replicate 64 0) ∷ [] }
    ensures full { report_of (public_of small) (halt 5 (play_at small 0 load_words) 4 (Overfull 201))
        ≡ record {
          ending = StashFull 201;
          instructions = 1;
          cycles = 2258;
          last = 2752;
          fetches = 1;
          real = 4;
          dummies = 0;
          choices = 0;
          code = 0;
        } }
{}

/// Which stops can come in a slot. The load's play can be cut where its reads are refused, where too many blocks stay,
/// and where its last write fails, the twelfth move of a path of six buckets: there is no thirteenth. Under one root
/// the message that is appended behind the second slot can find too many blocks, and can be refused as one of two
/// blocks of its address, but of no other one; behind the third slot nothing is appended.
pub fn stops_fit_slots()
    ensures read { IsHalted 5 (play_at small 0 load_words)
        (halt 5 (play_at small 0 load_words) 1 (Refused (BadSlot 0 0))) }
    ensures full { IsHalted 5 (play_at small 0 load_words) (halt 5 (play_at small 0 load_words) 4 (Overfull 201)) }
    ensures last_move { IsHalted 5 (play_at small 0 load_words) (halt 5 (play_at small 0 load_words) 3 (MoveFails 11)) }
    ensures no_move { (slot : Slot) → Fits 5 (MoveFails 12) slot → ⊥ }
    ensures append { IsHalted 5 (play_at one_held 0 load_words)
        (halt 5 (play_at one_held 0 load_words) 2 (AppendOverfull 201)) }
    ensures doubled { IsHalted 5 (play_at one_held 0 load_words)
        (halt 5 (play_at one_held 0 load_words) 2 (AppendRefused (Doubled (record { 0 = 66 })))) }
    ensures other_block { (slot : Slot) → slice_get (play_at one_held 0 load_words).slots 1 ≡ Some slot
        → Fits 5 (AppendRefused (Doubled (record { 0 = 64 }))) slot → ⊥ }
    ensures no_append { (slot : Slot) → slice_get (play_at one_held 0 load_words).slots 2 ≡ Some slot
        → Fits 5 (AppendOverfull 201) slot → ⊥ }
{}
