//! The bytes that a core works on.

ghost use Rattle.std.specs.Prelude.{◌≡◌, ℕ, List, [], length, Result, Ok, Err, Option, Some, MatchResult};
ghost use Rattle.rv32_core.specs.Access.{Access, Load, Store, IsInLine, IsAnswer, TellsLoad, TellsStore};

/// The bytes of a memory from an address on, which answers every load and store or is stopped.
///
/// A caller asks inside the memory and inside one line of 64 bytes.
pub trait Bytes {
    /// What a stop says.
    type Stop;

    /// The address of the first byte. It never changes.
    ghost base: { Self → ℕ };

    /// How many bytes there are. It never changes.
    ghost size: { Self → ℕ };

    /// The bytes, told or not.
    ghost told: { Self → Option (List ℕ) };

    /// It can be asked. A stop may end that.
    ghost ready: { Self → Type 0 };

    /// The value before a call, the request, the answer or the stop, and the value after it.
    ghost step: { Self → Access → Result (List ℕ) Self.Stop → Self → Type 0 };

    /// Reads as many bytes as `into` has, from `address` on. After a stop `into` may hold anything.
    fn load(&mut self, address: u32, into: &mut [u8]) -> Result<(), Self::Stop>
        requires line { IsInLine (base self.old) (size self.old) address (length into.old) }
        requires ready { ready self.old }
        ensures { MatchResult result
            (λ _. step self.old (Load address (length into.old)) (Ok into.new) self.new)
            (λ stop. step self.old (Load address (length into.old)) (Err stop) self.new) };

    /// Writes `bytes` from `address` on.
    fn store(&mut self, address: u32, bytes: &[u8]) -> Result<(), Self::Stop>
        requires line { IsInLine (base self.old) (size self.old) address (length bytes.now) }
        requires ready { ready self.old }
        ensures { MatchResult result
            (λ _. step self.old (Store address bytes.now) (Ok []) self.new)
            (λ stop. step self.old (Store address bytes.now) (Err stop) self.new) };

    ghost keeps_base: { (old new : Self) (access : Access) (answer : Result (List ℕ) Self.Stop)
        → step old access answer new → base new ≡ base old };

    ghost keeps_size: { (old new : Self) (access : Access) (answer : Result (List ℕ) Self.Stop)
        → step old access answer new → size new ≡ size old };

    /// After an answer it can be asked again.
    ghost stays_ready: { (old new : Self) (access : Access) (bytes : List ℕ)
        → ready old → step old access (Ok bytes) new → ready new };

    /// A load answers as many bytes as were asked for, and a store none.
    ghost answers: { (old new : Self) (access : Access) (bytes : List ℕ)
        → step old access (Ok bytes) new → IsAnswer access bytes };

    /// Where the bytes are told, they are as many as there are.
    ghost told_size: { (value : Self) (memory : List ℕ)
        → told value ≡ Some memory → length memory ≡ size value };

    ghost tells_load: { (old new : Self) (address count : ℕ) (bytes : List ℕ)
        → step old (Load address count) (Ok bytes) new
        → TellsLoad (base old) (told old) address count bytes (told new) };

    ghost tells_store: { (old new : Self) (address : ℕ) (bytes done : List ℕ)
        → step old (Store address bytes) (Ok done) new
        → TellsStore (base old) (told old) address bytes (told new) };
}
