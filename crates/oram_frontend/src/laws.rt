//! Laws of what requests leave. The functions do nothing: each states a law in its contract.

ghost use Rattle.std.specs.Prelude.{◌+◌, ℕ, Ok};
ghost use Rattle.asc_base.specs.declared.block.Line.{Line};
ghost use Rattle.asc_base.specs.declared.block.Message.{Message};
ghost use Rattle.oram_contents.specs.Entries.{Keys};
ghost use Rattle.oram_frontend.specs.Access.{SlotStep};
ghost use Rattle.oram_frontend.specs.Slots.{FitKeys, Keeps, IsServedSlot, IsServedAppend, IsServedAnswer};
ghost use Rattle.oram_walk.specs.Request.{Slot, Append, Answer};
ghost use Rattle.oram_walk.specs.declared.slots.Access.{Access};
ghost use Rattle.oram_walk.specs.declared.slots.Seen.{Seen};
ghost use Rattle.rate_enforcer.specs.PortStep.{PortState, Resting};

/// An answered request leaves in log and contents what its slot, its append or its answer is, whatever the memory
/// replied: dummies, then the one slot of its point, in which the block found is judged right and is put back, or not,
/// as the access wants; or the one entry that joins; or the one line that is answered.
pub fn answered_requests()
    ensures slot { (keys : Keys) (levels notes : ℕ) (access : Access) (seen : Seen) (old new : PortState)
        → FitKeys keys old → Resting notes levels old → SlotStep keys levels old (Slot access) (Ok seen) new
        → IsServedSlot keys access seen old new × Keeps keys levels (notes + 1) old new }
    ensures append { (keys : Keys) (levels notes : ℕ) (message : Message) (seen : Seen) (old new : PortState)
        → FitKeys keys old → Resting (notes + 1) levels old → SlotStep keys levels old (Append message) (Ok seen) new
        → IsServedAppend keys message old new × Keeps keys levels notes old new }
    ensures answer { (keys : Keys) (levels notes line : ℕ) (value : Line) (seen : Seen) (old new : PortState)
        → FitKeys keys old → Resting (notes + 1) levels old
        → SlotStep keys levels old (Answer line value) (Ok seen) new
        → IsServedAnswer line value old new × Keeps keys levels notes old new }
{}
