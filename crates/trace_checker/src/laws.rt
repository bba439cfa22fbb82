//! Laws of verdicts. The functions do nothing: each states a law in its contract.

ghost use Rattle.std.specs.Prelude.{◌≡◌, ℕ, ◌<◌, ◌≤◌, length};
ghost use Rattle.bus_watch.specs.Log.{LogLists};
ghost use Rattle.bus_schedule.specs.Timetable.{Public, AgreeTo, beat_at};
ghost use Rattle.bus_schedule.specs.Scheduled.{IsScheduled, log_code};
ghost use Rattle.bus_trace.specs.Grammar.{IsTrace};
ghost use Rattle.bus_trace.specs.OfLog.{trace_of};
ghost use Rattle.bus_trace.specs.Trace.{TraceLists};
ghost use Rattle.trace_checker.specs.Checker.{Fits, HoldsBy, Says};
ghost use Rattle.trace_checker.specs.declared.verdict.Verdict.{Verdict as VerdictValue};
ghost use Rattle.trace_checker.specs.declared.verdict.Verdict.TheVariants.{Fails};

/// A trace holds exactly where some code has its slots, with the least such code, and fails exactly where none has.
/// Two codes that have them agree on each digit that shows in a start.
pub fn verdicts_are_exact()
    ensures holds { (t : TraceLists) (code : ℕ) (verdict : VerdictValue) → Fits t code → Says t verdict
        → HoldsBy t code verdict }
    ensures fails { (t : TraceLists) (line found wanted code : ℕ) → Says t (Fails line found wanted) → ¬ Fits t code }
    ensures digits { (t : TraceLists) (code other n : ℕ) → IsTrace t → Fits t code → Fits t other
        → n < length t.accesses → AgreeTo t.header code other (beat_at t.header code n).choices }
    ensures one { (t : TraceLists) (first second : VerdictValue) → Says t first → Says t second → first ≡ second }
{}

/// The trace of a log that is scheduled up to a time holds, with a code that isn't greater than the log's.
pub fn scheduled_logs_hold()
    ensures fits { (p : Public) (end : ℕ) (log : LogLists) → IsScheduled p end log
        → Fits (trace_of p log end) (log_code p log) }
    ensures holds { (p : Public) (end : ℕ) (log : LogLists) (verdict : VerdictValue) → IsScheduled p end log
        → Says (trace_of p log end) verdict → HoldsBy (trace_of p log end) (log_code p log) verdict }
{}
