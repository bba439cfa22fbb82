//! What a front end asks.

ghost use Rattle.std.specs.Prelude.{◌≡◌, ℕ, ◌<◌, ◌≤◌, Result, Ok, Err, MatchResult, IfOk, OnOk};
ghost use Rattle.asc_base.specs.declared.stop.Stop.{Stop as StopValue};
ghost use Rattle.oram_walk.specs.Request.{Request, Slot, Append, Answer, nothing};
ghost use Rattle.oram_walk.specs.declared.slots.Seen.{Seen as SeenValue};

use asc_base::{Address, Counter, Line, Message, Stop};

/// What becomes of a block that is accessed.
#[derive(Clone, Copy, Debug, PartialEq, Eq)]
pub enum Purpose {
    /// It is taken to be held on chip, and nothing is put back.
    Refill,
    /// It is put back with the line that was found.
    Keep,
    /// It is put back with this line.
    Replace(Line),
}

/// One access, which takes one slot.
#[derive(Clone, Copy, Debug, PartialEq, Eq)]
pub struct Access {
    /// When it is asked for, in cycles.
    pub asked: u64,
    /// The block.
    pub address: Address,
    /// The counter under which the block was put.
    pub counter: Counter,
    /// The counter under which it is put back, or held.
    pub next: Counter,
    /// What becomes of the block.
    pub purpose: Purpose,
}

/// What an access answers.
#[derive(Clone, Copy, Debug, PartialEq, Eq)]
pub struct Seen {
    /// The line that was found, zeros for a block that was never put.
    pub line: Line,
    /// When its slot ended, in cycles.
    pub end: u64,
}

/// Slots in which a walk's accesses are served, one after another.
pub trait Slots {
    /// The value before a call, the request, the answer or the stop, and the value after it.
    ghost step: { Self → Request → Result SeenValue StopValue → Self → Type 0 };

    /// How many blocks there are. It never changes.
    ghost total: { Self → ℕ };

    /// The end of the last slot, in cycles.
    ghost last: { Self → ℕ };

    /// It stands between two slots.
    ghost rests: { Self → Type 0 };

    /// A slot has just ended, and one note more may follow it.
    ghost ended: { Self → Type 0 };

    /// One access, in a slot at or after the time when it is asked for.
    fn access(&mut self, access: &Access) -> Result<Seen, Stop>
        requires rests { rests self.old }
        requires inside { access.now.address.0 < total self.old }
        requires asked { last self.old ≤ access.now.asked }
        ensures step { MatchResult result
            (λ seen. step self.old (Slot access.now) (Ok seen) self.new)
            (λ stop. step self.old (Slot access.now) (Err stop) self.new) }
        ensures ended { OnOk result (ended self.new) }
        ensures last { IfOk result (λ seen. last self.new ≡ seen.end) };

    /// A displaced block, which no slot takes, joins those that are at hand.
    fn append(&mut self, message: &Message) -> Result<(), Stop>
        requires ended { ended self.old }
        requires inside { message.now.address.0 < total self.old }
        ensures step { MatchResult result
            (λ _. step self.old (Append message.now) (Ok nothing) self.new)
            (λ stop. step self.old (Append message.now) (Err stop) self.new) }
        ensures rests { OnOk result (rests self.new) }
        ensures last { OnOk result (last self.new ≡ last self.old) };

    /// The line that was seen in the slot that has just ended is answered to whoever asked for it.
    fn answered(&mut self, line: u32, value: &Line)
        requires { ended self.old }
        ensures step { step self.old (Answer line value.now) (Ok nothing) self.new }
        ensures rests { rests self.new }
        ensures last { last self.new ≡ last self.old };

    /// After a slot's end it stands between two slots, too.
    ghost goes_on: { (slots : Self) → ended slots → rests slots };

    /// The number of blocks stays.
    ghost keeps_total: { (old new : Self) (request : Request) (answer : Result SeenValue StopValue)
        → step old request answer new → total new ≡ total old };
}
