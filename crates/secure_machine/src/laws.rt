//! Laws of what requests leave, and of plays that have room. The functions do nothing: each states its laws in its
//! contract.

ghost use Rattle.std.specs.Prelude.{◌≡◌, ◌<◌, ◌≤◌, ◌*◌, ◌^◌, ℕ, [], length, Ok, Err};
ghost use Rattle.asc_base.specs.Has.{Has};
ghost use Rattle.asc_base.specs.Shape.{IsShape};
ghost use Rattle.asc_base.specs.declared.stop.Stop.{Stop};
ghost use Rattle.asc_base.specs.declared.stop.Stop.TheVariants.{StashFull};
ghost use Rattle.epoch_learner.specs.Stands.{KeepsPace};
ghost use Rattle.log_replay.specs.Judged.{IsFirstVerdict};
ghost use Rattle.oram_contents.specs.Entries.{Keys};
ghost use Rattle.oram_frontend.specs.Oram.{OramState, OramRequest, OramStep, Told, Fetch, Wait};
ghost use Rattle.oram_frontend.specs.Slots.{FitKeys};
ghost use Rattle.run_play.specs.Halt.{AppendOverfull, halt};
ghost use Rattle.run_play.specs.Play.{Play};
ghost use Rattle.run_play.specs.Programs.{jump_words, load_words, play_at};
ghost use Rattle.run_play.specs.Rows.{short_time, small};
ghost use Rattle.run_play.specs.Slots.{Slot};
ghost use Rattle.secure_machine.specs.Full.{log_of, slot_entries, NoSlotIsFull, TagsNothing};
ghost use Rattle.secure_machine.specs.Goes.{Goes, Breaks};
ghost use Rattle.secure_machine.specs.Rows.{without_stash};
ghost use Rattle.play_run.specs.Timed.{Serving};

/// What any request of an encrypted memory leaves in its port, whatever the memory replied: an answered one leaves all
/// counted and tied, and a stopped one too, with its cause, and the log keeps the pace up to the end that the stop
/// leaves. A fetch takes a slot at least, and after a wait the log keeps the pace up to its end.
pub fn requests_keep_pace()
    ensures goes { (keys : Keys) (levels : ℕ) (old new : OramState) → FitKeys keys old.port → Serving levels old
        → (request : OramRequest) (told : Told) → OramStep keys levels old request (Ok told) new
        → Goes old.port new.port }
    ensures breaks { (keys : Keys) (levels : ℕ) (old new : OramState) → FitKeys keys old.port → Serving levels old
        → (request : OramRequest) (stop : Stop) → OramStep keys levels old request (Err stop) new
        → Breaks stop old.port new.port }
    ensures takes { (keys : Keys) (levels : ℕ) (old new : OramState) → FitKeys keys old.port → Serving levels old
        → (asked line : ℕ) (told : Told) → OramStep keys levels old (Fetch asked line) (Ok told) new
        → old.port.clock.real < new.port.clock.real }
    ensures waits { (keys : Keys) (levels : ℕ) (old new : OramState) → FitKeys keys old.port → Serving levels old
        → (time : ℕ) (told : Told) → OramStep keys levels old (Wait time) (Ok told) new
        → KeepsPace old.port.clock.config told.end new.port.tap.log }
{}

/// A play without slots never finds too many blocks to keep.
pub fn plays_without_slots_have_room()
    ensures { (keys : Keys) (stash : ℕ) (whole : Play) → whole.slots ≡ [] → NoSlotIsFull keys stash whole }
{}

/// A play in whose slots nothing is tagged, as where all are dummies, never finds too many blocks to keep, whatever its
/// program and its settings are, under any keys of a shape and with any stash. So it is with the eight dummies that
/// pass while a program jumps to itself.
pub fn plays_without_tags_have_room()
    ensures any { (keys : Keys) → IsShape keys.shape → (stash : ℕ) (whole : Play) → length whole.slots ≤ 2 ^ 53
        → ((slot : Slot) → Has slot whole.slots → TagsNothing slot) → NoSlotIsFull keys stash whole }
    ensures dummies { (keys : Keys) → IsShape keys.shape → (stash : ℕ)
        → NoSlotIsFull keys stash (play_at short_time 0 jump_words) }
{}

/// A play of so few slots that all the blocks that they can bring to hand find room never finds too many, whatever its
/// program is, under any keys. So it is with a load over four slots, three blocks of which are put back, with the stash
/// of the default settings.
pub fn short_plays_have_room()
    ensures any { (keys : Keys) (stash : ℕ) (whole : Play)
        → length whole.slots * slot_entries keys.shape.levels ≤ stash → NoSlotIsFull keys stash whole }
    ensures load { (keys : Keys) → keys.shape ≡ small.shape
        → NoSlotIsFull keys small.stash (play_at small 0 load_words) }
{}

/// A play of which a slot finds too many blocks to keep, under any keys of its shape. It loads a line of 64 under one
/// root, where one block is held and none may stay at hand. Behind its second slot the root's block is displaced and
/// appended, one too many: nothing in its log is wrong before that message, and there the stash is full.
pub fn full_plays_have_rows()
    ensures stops { (keys : Keys) → keys.shape ≡ without_stash.shape → IsFirstVerdict keys without_stash.stash
        (log_of keys (halt 5 (play_at without_stash 0 load_words) 2 (AppendOverfull 1))) (StashFull 1) }
    ensures full { (keys : Keys) → keys.shape ≡ without_stash.shape
        → NoSlotIsFull keys without_stash.stash (play_at without_stash 0 load_words) → ⊥ }
{}
