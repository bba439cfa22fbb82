ghost use Rattle.std.specs.Prelude.{◌≡◌, ◌<◌, ◌≤◌, ◌+◌, ◌^◌, Some, None, IfSome, OnOk, OnErr, IsErrOf};
ghost use Rattle.std.specs.Prelude.{slice_get, slice_set, option_map};
ghost use Rattle.asc_outside.specs.Memory.{MemoryState, Adds, Keeps, zero_buckets, read_ask, write_ask, zero_bucket};

/// The bytes of a bucket.
pub const BUCKET_BYTES: usize = 376;

/// A bucket of zero bytes.
pub fn empty_bucket() -> [u8; BUCKET_BYTES]
    ensures { result ≡ zero_bucket }
{
    [0; BUCKET_BYTES]
}

/// A read failed.
#[derive(Clone, Copy, Debug, PartialEq, Eq)]
pub struct Failed;

/// Why a memory refuses to be prepared or written.
#[derive(Clone, Copy, Debug, PartialEq, Eq)]
pub enum MemStop {
    /// The call failed.
    Failed,
    /// There is no memory for the buckets.
    NoMemory,
}

/// A memory outside the chip: buckets of 376 bytes, by their numbers. Nothing is promised of what its reads give, but
/// where it tells its buckets.
///
/// It means a count of faults, which never falls, the number of moves that it was asked, the number of prepared
/// buckets, and three lists that it tells or keeps to itself: its buckets, the moves, and the answers of its reads. No
/// call tells a list that wasn't told. It also means a number that no call changes, which ties a memory to the one that
/// it wraps. A call is answered `Failed` only where the count of faults rose in it.
pub trait UntrustedMemory {
    /// The counts, and what is told of buckets, moves and answers.
    ghost state: { Self → MemoryState };

    /// Prepares so many buckets of zero bytes, once. This is no move. After a refusal the number counts as prepared all
    /// the same.
    fn prepare(&mut self, buckets: u32) -> Result<(), MemStop>
        requires fresh { (state self.old).count ≡ 0 }
        requires some { 0 < buckets }
        ensures count { (state self.new).count ≡ buckets }
        ensures told { OnOk result
            ((state self.new).told ≡ option_map (λ _. zero_buckets buckets) (state self.old).told) }
        ensures told_err { OnErr result (Keeps (state self.old).told (state self.new).told) }
        ensures moved { (state self.new).moved ≡ (state self.old).moved }
        ensures seen { (state self.new).seen ≡ (state self.old).seen }
        ensures said { (state self.new).said ≡ (state self.old).said }
        ensures link { (state self.new).link ≡ (state self.old).link }
        ensures later { (state self.old).faults ≤ (state self.new).faults }
        ensures cause { IsErrOf result MemStop.Failed → (state self.old).faults < (state self.new).faults };

    /// Reads a bucket, at this time in cycles. Where buckets are told, an Ok gives the told bytes. The move counts on
    /// every answer.
    fn read(&mut self, time: u64, bucket: u32, into: &mut [u8; BUCKET_BYTES]) -> Result<(), Failed>
        requires within { bucket < (state self.old).count }
        requires spare { (state self.old).moved < 2 ^ 63 }
        ensures count { (state self.new).count ≡ (state self.old).count }
        ensures moved { (state self.new).moved ≡ (state self.old).moved + 1 }
        ensures told { OnOk result ((state self.new).told ≡ (state self.old).told) }
        ensures bytes { OnOk result (IfSome (state self.old).told (λ all. slice_get all bucket ≡ Some into.new)) }
        ensures told_err { OnErr result (Keeps (state self.old).told (state self.new).told) }
        ensures seen { Adds (state self.old).seen (read_ask time bucket) (state self.new).seen }
        ensures said { OnOk result (Adds (state self.old).said (Some into.new) (state self.new).said) }
        ensures said_err { OnErr result (Adds (state self.old).said None (state self.new).said) }
        ensures link { (state self.new).link ≡ (state self.old).link }
        ensures later { (state self.old).faults ≤ (state self.new).faults }
        ensures cause { OnErr result ((state self.old).faults < (state self.new).faults) };

    /// Writes a bucket, at this time in cycles. Where buckets are told, an Ok changes this one alone. The move counts
    /// on every answer.
    fn write(&mut self, time: u64, bucket: u32, bytes: &[u8; BUCKET_BYTES]) -> Result<(), MemStop>
        requires within { bucket < (state self.old).count }
        requires spare { (state self.old).moved < 2 ^ 63 }
        ensures count { (state self.new).count ≡ (state self.old).count }
        ensures moved { (state self.new).moved ≡ (state self.old).moved + 1 }
        ensures told { OnOk result
            ((state self.new).told ≡ option_map (λ all. slice_set all bucket bytes.now) (state self.old).told) }
        ensures told_err { OnErr result (Keeps (state self.old).told (state self.new).told) }
        ensures seen { OnOk result
            (Adds (state self.old).seen (write_ask time bucket (Some bytes.now)) (state self.new).seen) }
        ensures seen_err { OnErr result
            (Adds (state self.old).seen (write_ask time bucket None) (state self.new).seen) }
        ensures said { Keeps (state self.old).said (state self.new).said }
        ensures link { (state self.new).link ≡ (state self.old).link }
        ensures later { (state self.old).faults ≤ (state self.new).faults }
        ensures cause { IsErrOf result MemStop.Failed → (state self.old).faults < (state self.new).faults };
}
