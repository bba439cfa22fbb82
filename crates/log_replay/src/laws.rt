//! Laws of what a log says. The functions do nothing: each states laws in its contract.

ghost use Rattle.std.specs.Prelude.{◌≡◌, ◌≤◌, ◌^◌, ℕ, [], length, None, Some, Ok, Err};
ghost use Rattle.asc_base.specs.Has.{Has};
ghost use Rattle.asc_base.specs.Settings.{IsConfig};
ghost use Rattle.asc_base.specs.Shape.{IsShape};
ghost use Rattle.asc_base.specs.declared.block.Message.{Message};
ghost use Rattle.asc_base.specs.declared.settings.Config.{Config};
ghost use Rattle.asc_base.specs.declared.stop.Stop.{Stop};
ghost use Rattle.asc_base.specs.declared.stop.Stop.TheVariants.{StashFull};
ghost use Rattle.bus_watch.specs.Log.{LogLists};
ghost use Rattle.bus_watch.specs.declared.log.Event.TheVariants.{Tagged};
ghost use Rattle.oram_contents.specs.Entries.{Keys, AreKeys};
ghost use Rattle.oram_contents.specs.Fold.{Whole};
ghost use Rattle.oram_frontend.specs.Oram.{OramState, OramRequest, OramStep, Told};
ghost use Rattle.oram_lines.specs.Lines.{IsNew, IsRequest};
ghost use Rattle.rate_enforcer.specs.PortStep.{Resting};
ghost use Rattle.log_replay.specs.Few.{most_entries};
ghost use Rattle.log_replay.specs.Judged.{SaysMirror, verdict_on};
ghost use Rattle.log_replay.specs.Replayed.{IsReplayed, StopsReplayed};

/// An encrypted memory is what its log says, whatever its replies were: from the start on, and after each request that
/// it answers. So the buckets are those that the log says. Where a request is stopped the log goes on noting slots in
/// order, which were done as far as the stop says, shows the stop at its last slot or its last message, and says the
/// buckets, of which holds what holds always.
pub fn logs_say_all()
    ensures start { (keys : Keys) → AreKeys keys → (levels : ℕ) (config : Config) (o : OramState) → IsConfig config
        → IsNew keys config levels o → IsReplayed keys o }
    ensures request { (keys : Keys) → AreKeys keys → (levels : ℕ) (old new : OramState) (request : OramRequest)
        (told : Told) → IsReplayed keys old → Resting 0 levels old.port → IsRequest keys.shape.lines request
        → OramStep keys levels old request (Ok told) new → IsReplayed keys new }
    ensures stop { (keys : Keys) → AreKeys keys → (levels : ℕ) (old new : OramState) (request : OramRequest)
        (stop : Stop) → IsReplayed keys old → Resting 0 levels old.port → old.stop ≡ None
        → IsRequest keys.shape.lines request → OramStep keys levels old request (Err stop) new
        → StopsReplayed keys old.port.tree.stash stop new.port }
    ensures between { (keys : Keys) → AreKeys keys → (levels : ℕ) (o : OramState) → IsReplayed keys o
        → Resting 0 levels o.port → SaysMirror keys o.port.tap.log Whole o.port.tap.mirror }
{}

/// A log in which nothing is tagged, and no reply altered, shows no full stash, whatever its slots are, under every
/// leaf function and with any stash: nothing ever comes to be at hand.
pub fn untagged_logs_have_room()
    ensures { (keys : Keys) → IsShape keys.shape → (stash held : ℕ) (log : LogLists) → log.altered ≡ []
        → length log.events ≤ 2 ^ 56 → ((m : Message) → Has (Tagged m) log.events → ⊥)
        → verdict_on keys stash log ≡ Some (StashFull held) → ⊥ }
{}

/// A log of so few slots and messages that all the entries they can bring to hand are no more than the stash may hold
/// shows no full stash, whatever was altered, under every leaf function.
pub fn short_logs_have_room()
    ensures { (keys : Keys) (stash held : ℕ) (log : LogLists) → most_entries keys.shape.levels log.events ≤ stash
        → verdict_on keys stash log ≡ Some (StashFull held) → ⊥ }
{}
