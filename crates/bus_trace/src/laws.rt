//! Laws of traces and their texts. The functions do nothing: each states a law in its contract.

ghost use Rattle.std.specs.Prelude.{◌≡◌, ◌++◌, ℕ, List, [], ◌∷◌, codes};
ghost use Rattle.bus_schedule.specs.Timetable.{Public};
ghost use Rattle.bus_watch.specs.Log.{LogLists};
ghost use Rattle.bus_trace.specs.Grammar.{IsForm, IsTrace, TraceText};
ghost use Rattle.bus_trace.specs.OfLog.{trace_of};
ghost use Rattle.bus_trace.specs.Reader.{IsFirstFault};
ghost use Rattle.bus_trace.specs.Rows.{default_public, idle_trace, small_public, slot_log, slot_trace};
ghost use Rattle.bus_trace.specs.Trace.{TraceLists, header_lines, lines_of, trace_text};
ghost use Rattle.bus_trace.specs.declared.fault.TraceKind.{TraceKind as Kind};
ghost use Rattle.bus_trace.specs.declared.fault.TraceKind.TheVariants.{Form, Range, Cut, Extra};

/// A trace in its ranges has a text, and no other.
pub fn traces_have_one_text()
    ensures one { (t : TraceLists) (first second : List ℕ) → TraceText first t → TraceText second t → first ≡ second }
    ensures written { (t : TraceLists) → IsTrace t → TraceText (trace_text t) t }
{}

/// A text is one trace's at most; so what is printed of a log is read as its header, its accesses and the end alone.
/// A trace whose numbers are in their ranges is in the form. A text has one first fault at most, and none where it is
/// a trace's.
pub fn texts_have_one_meaning()
    ensures one_trace { (text : List ℕ) (first second : TraceLists) → TraceText text first → TraceText text second
        → first ≡ second }
    ensures printed { (p : Public) (log : LogLists) (end : ℕ) (t : TraceLists) → IsTrace (trace_of p log end)
        → TraceText (trace_text (trace_of p log end)) t → t ≡ trace_of p log end }
    ensures form { (t : TraceLists) → IsTrace t → IsForm t }
    ensures one_fault { (text : List ℕ) (line other : ℕ) (kind also : Kind) → IsFirstFault text line kind
        → IsFirstFault text other also → (line ≡ other) × (kind ≡ also) }
    ensures not_both { (text : List ℕ) (t : TraceLists) (line : ℕ) (kind : Kind) → TraceText text t
        → ¬ IsFirstFault text line kind }
{}

/// The definitions at the trace of the default settings, in a run without an access that ends at 12; at that of
/// one slot; and at texts that are no trace's.
pub fn trace_rows()
    ensures header { header_lines default_public ≡ codes "ascend trace 1" ∷ codes "levels 13"
        ∷ codes "rates 256 1024 4096 16384" ∷ codes "first 3" ∷ codes "epoch 65536" ∷ codes "leak 16" ∷ [] }
    ensures lines { lines_of idle_trace ≡ header_lines default_public ++ codes "end 12" ∷ [] }
    ensures ranges { IsTrace idle_trace }
    ensures log { trace_of small_public slot_log 400 ≡ slot_trace }
    ensures slot { IsTrace slot_trace }
    ensures cut { IsFirstFault (codes "ascend trace 1") 1 Cut }
    ensures form { IsFirstFault (codes "ascend trace 2\n") 1 Form }
    ensures range { IsFirstFault (codes "ascend trace 1\nlevels 21\n") 2 Range }
    ensures extra { IsFirstFault (trace_text idle_trace ++ codes "\n") 8 Extra }
{}
