//! What keeps lines.

ghost use Rattle.std.specs.Prelude.{◌≡◌, ℕ, ◌<◌, List, [], Result, Ok, Err, Option, Some, MatchResult, length};
ghost use Rattle.data_cache.specs.Lines.{LineRequest, Fetch, Store, IsLineAnswer, TellsFetch, TellsStore};

use asc_base::Line;

/// Lines of 64 bytes, the first being 0, of which each fetch and store is answered or stopped.
pub trait LineStore {
    /// What a stop says.
    type Stop;

    /// How many lines there are. It never changes.
    ghost lines: { Self → ℕ };

    /// The lines, told or not.
    ghost told: { Self → Option (List (List ℕ)) };

    /// It can be asked. A stop may end that.
    ghost ready: { Self → Type 0 };

    /// The value before a call, the request, the answer or the stop, and the value after it.
    ghost step: { Self → LineRequest → Result (List ℕ) Self.Stop → Self → Type 0 };

    /// The bytes of a line.
    fn fetch(&mut self, line: u32) -> Result<Line, Self::Stop>
        requires line { line < lines self.old }
        requires ready { ready self.old }
        ensures { MatchResult result
            (λ value. step self.old (Fetch line) (Ok value.0) self.new)
            (λ stop. step self.old (Fetch line) (Err stop) self.new) };

    /// Puts these bytes in the place of a line.
    fn store(&mut self, line: u32, value: &Line) -> Result<(), Self::Stop>
        requires line { line < lines self.old }
        requires ready { ready self.old }
        ensures { MatchResult result
            (λ _. step self.old (Store line value.now.0) (Ok []) self.new)
            (λ stop. step self.old (Store line value.now.0) (Err stop) self.new) };

    ghost keeps_lines: { (old new : Self) (request : LineRequest) (answer : Result (List ℕ) Self.Stop)
        → step old request answer new → lines new ≡ lines old };

    /// After an answer it can be asked again.
    ghost stays_ready: { (old new : Self) (request : LineRequest) (bytes : List ℕ)
        → ready old → step old request (Ok bytes) new → ready new };

    /// A fetch answers 64 bytes, and a store none.
    ghost answers: { (old new : Self) (request : LineRequest) (bytes : List ℕ)
        → step old request (Ok bytes) new → IsLineAnswer request bytes };

    /// Where the lines are told, they are as many as there are.
    ghost told_lines: { (value : Self) (list : List (List ℕ)) → told value ≡ Some list → length list ≡ lines value };

    ghost tells_fetch: { (old new : Self) (line : ℕ) (bytes : List ℕ)
        → step old (Fetch line) (Ok bytes) new → TellsFetch (told old) line bytes (told new) };

    ghost tells_store: { (old new : Self) (line : ℕ) (value done : List ℕ)
        → step old (Store line value) (Ok done) new → TellsStore (told old) line value (told new) };
}
