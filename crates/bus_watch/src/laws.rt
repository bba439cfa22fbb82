//! Laws of runs of bus calls, for any memory and any tap. The functions do nothing: each states laws in its contract.

ghost use Rattle.std.specs.Prelude.{◌≡◌, ◌≢◌, ◌≤◌, ◌+◌, ◌*◌, ◌^◌, ℕ, Bool, List, [], ◌∷◌, ◌++◌, Ok, Some, Result, All};
ghost use Rattle.std.specs.Prelude.{length, slice_get};
ghost use Rattle.asc_outside.specs.Memory.{MemoryState};
ghost use Rattle.bus_watch.specs.declared.bus.Bus.{Bus};
ghost use Rattle.bus_watch.specs.declared.bus.BusStop.{BusStop};
ghost use Rattle.bus_watch.specs.declared.log.Altered.{Altered};
ghost use Rattle.bus_watch.specs.declared.log.Event.{Event};
ghost use Rattle.bus_watch.specs.declared.log.Move.{Move};
ghost use Rattle.bus_watch.specs.Honest.{TellsMirror};
ghost use Rattle.bus_watch.specs.Log.{LogLists, TapState, with_reply, with_altered, altered_reply};
ghost use Rattle.bus_watch.specs.Made.{Made, Ran};
ghost use Rattle.bus_watch.specs.Path.{along, move_along};
ghost use Rattle.bus_watch.specs.Prepared.{IsPrepared};
ghost use Rattle.bus_watch.specs.Ready.{IsReady};
ghost use Rattle.bus_watch.specs.RunEnd.{RunEnd, Whole, RanOut};
ghost use Rattle.bus_watch.specs.Tied.{Tied, TiedAt};

use crate::watch::Watch;
use asc_outside::UntrustedMemory;

/// Before the first call memory and tap are tied from this state and this mirror on, and no move is made.
pub fn runs_start()
    ensures tied { (memory : MemoryState) (tap : TapState) → tap.log.moves ≡ [] → tap.log.altered ≡ []
        → Tied memory tap.mirror memory tap }
    ensures made { (memory : MemoryState) (tap : TapState) → Made Whole [] [] memory memory tap tap }
{}

/// Two runs, one after the other, are one run of all their moves and events, so that what was tied before them is tied
/// after them; and a run whose calls were all Ok may be counted as one after which memory ran out.
pub fn runs_join()
    ensures joined { (end : RunEnd) (first second : List Move) (events more : List Event)
        (m m2 m3 : MemoryState) (t t2 t3 : TapState) → Made Whole first events m m2 t t2
        → Made end second more m2 m3 t2 t3 → Made end (first ++ second) (events ++ more) m m3 t t3 }
    ensures tied { (end : RunEnd) (first second : List Move) (events more : List Event)
        (start m m2 m3 : MemoryState) (t t2 t3 : TapState) (buckets : List (List ℕ)) → Tied start buckets m t
        → Made Whole first events m m2 t t2 → Made end second more m2 m3 t2 t3 → TiedAt end start buckets m3 t3 }
    ensures short { (moves : List Move) (events : List Event) (m m2 : MemoryState) (t t2 : TapState)
        → Made Whole moves events m m2 t t2 → Made RanOut moves events m m2 t t2 }
{}

/// The same of runs over a bus, which stays over its memory and its tap.
pub fn bus_runs_join<M: UntrustedMemory, W: Watch>()
    ensures start { (bus : Bus M W) → Ran M.state W.state Whole [] [] bus bus }
    ensures joined { (end : RunEnd) (first second : List Move) (events more : List Event) (a b c : Bus M W)
        → Ran M.state W.state Whole first events a b → Ran M.state W.state end second more b c
        → Ran M.state W.state end (first ++ second) (events ++ more) a c }
{}

/// A run that notes no event leaves the events, and each reply that it gains was noted with all of them before it.
pub fn silent_runs_keep_events()
    ensures events { (end : RunEnd) (moves : List Move) (m m2 : MemoryState) (t t2 : TapState)
        → Made end moves [] m m2 t t2 → t2.log.events ≡ t.log.events }
    ensures replies { (end : RunEnd) (moves : List Move) (m m2 : MemoryState) (t t2 : TapState)
        → (made : Made end moves [] m m2 t t2)
        → All (λ (a : Altered). a.before ≡ length t.log.events) made.replies.altered }
{}

/// A bus that was ready for moves and events is ready, after some of them, for the others; and for fewer.
pub fn buses_stay_ready()
    ensures after { (end : RunEnd) (moves : List Move) (events : List Event) (m m2 : MemoryState) (t t2 : TapState)
        (buckets moves_left events_left : ℕ)
        → IsReady buckets (length moves + moves_left) (length events + events_left) m t
        → Made end moves events m m2 t t2 → IsReady buckets moves_left events_left m2 t2 }
    ensures less { (buckets all_moves all_events moves events : ℕ) (m : MemoryState) (t : TapState)
        → IsReady buckets all_moves all_events m t → moves ≤ all_moves → events ≤ all_events
        → IsReady buckets moves events m t }
{}

/// A bus that was prepared is ready for the moves and events of its accesses. If its memory tells buckets, they are the
/// mirror's. Where no move was noted before, memory and tap are then tied from the mirror on, whatever was answered.
pub fn prepared_buses_are_ready()
    ensures ready { (buckets levels accesses : ℕ) (m m2 : MemoryState) (t t2 : TapState)
        → IsPrepared (Ok tt) buckets levels accesses m m2 t t2 → m.moved + 2 * (levels + 1) * accesses ≤ 2 ^ 63
        → IsReady buckets (2 * (levels + 1) * accesses) (6 * accesses) m2 t2 }
    ensures told { (buckets levels accesses : ℕ) (m m2 : MemoryState) (t t2 : TapState) (all : List (List ℕ))
        → IsPrepared (Ok tt) buckets levels accesses m m2 t t2 → m2.told ≡ Some all → TellsMirror m2 t2 }
    ensures tied { (result : Result (Unit {0}) BusStop) (buckets levels accesses : ℕ)
        (start m m2 : MemoryState) (t t2 : TapState) (before : List (List ℕ)) → t.log.moves ≡ []
        → Tied start before m t → IsPrepared result buckets levels accesses m m2 t t2 → Tied start t2.mirror m2 t2 }
{}

/// A reply is noted exactly where it isn't the bucket of the mirror. It notes no move and no event.
pub fn altered_replies_noted()
    ensures same { (log : LogLists) (mirror : List (List ℕ)) (at number : ℕ) (text : List ℕ)
        → slice_get mirror number ≡ Some text → with_reply log mirror at number text ≡ log }
    ensures other { (log : LogLists) (mirror : List (List ℕ)) (at number : ℕ) (text : List ℕ)
        → slice_get mirror number ≢ Some text
        → with_reply log mirror at number text ≡ with_altered log (altered_reply log at number text) }
    ensures moves { (log : LogLists) (mirror : List (List ℕ)) (at number : ℕ) (text : List ℕ)
        → (with_reply log mirror at number text).moves ≡ log.moves }
    ensures events { (log : LogLists) (mirror : List (List ℕ)) (at number : ℕ) (text : List ℕ)
        → (with_reply log mirror at number text).events ≡ log.events }
{}

/// The moves along a path: as many as are asked for, one more at each level, and each taking the room of one.
pub fn paths_go_down()
    ensures none { (levels : ℕ) (write : Bool) (first leaf : ℕ) → along levels write first leaf 0 ≡ [] }
    ensures next { (levels : ℕ) (write : Bool) (first leaf level : ℕ) → along levels write first leaf (level + 1)
        ≡ along levels write first leaf level ++ move_along levels write first leaf level ∷ [] }
    ensures counted { (levels : ℕ) (write : Bool) (first leaf number : ℕ)
        → length (along levels write first leaf number) ≡ number }
    ensures made { (end : RunEnd) (levels : ℕ) (write : Bool) (first leaf level : ℕ)
        (m m2 m3 : MemoryState) (t t2 t3 : TapState) → Made Whole (along levels write first leaf level) [] m m2 t t2
        → Made end (move_along levels write first leaf level ∷ []) [] m2 m3 t2 t3
        → Made end (along levels write first leaf (level + 1)) [] m m3 t t3 }
    ensures ready { (end : RunEnd) (levels : ℕ) (write : Bool) (first leaf number : ℕ)
        (buckets left events : ℕ) (m m2 : MemoryState) (t t2 : TapState) → IsReady buckets (number + left) events m t
        → Made end (along levels write first leaf number) [] m m2 t t2 → IsReady buckets left events m2 t2 }
{}
