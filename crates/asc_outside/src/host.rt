ghost use Rattle.std.specs.Prelude.{◌≡◌, ◌≤◌, ◌++◌, ◌∷◌, Some, is_some, option_map, vec_len};
ghost use Rattle.std.specs.Prelude.{IfOk, IfSome, OnOk, IsErrOf};
ghost use Rattle.asc_outside.specs.Host.{HostState, Reads, Writes, Prints, asked_after, OthersStay, IsLonger};
ghost use Rattle.asc_outside.specs.Rose.{Rose};

use std::alloc::Global;

/// Why a host refuses a call.
#[derive(Clone, Copy, Debug, PartialEq, Eq)]
pub enum HostFault {
    /// The call failed.
    Failed,
    /// The file has more bytes than the limit.
    TooLong,
    /// There is no memory for the answer.
    NoMemory,
}

/// The machine that a command runs on: named files of bytes, and a place to print to.
///
/// A host means a count of faults, which never falls, and three things that it tells or keeps to itself: the bytes of
/// its files, what was printed, and the calls that it was asked. What it tells it goes on telling, and what it keeps
/// to itself it keeps. A call is answered `Failed` only where the count of faults rose in it, or stands after it at the
/// greatest number of its type.
pub trait Host {
    /// The count of faults, the files, what was printed and the calls that were asked.
    ghost state: { Self → HostState };

    /// The bytes of a file, at most `limit` of them.
    ///
    /// `TooLong` only where the file has more than `limit` bytes. Where files are told, a name that no file has is
    /// answered `Failed` or `NoMemory`.
    fn read_file(&mut self, alloc: Global, name: &str, limit: usize) -> Result<Vec<u8>, HostFault>
        ensures within { IfOk result (λ bytes. vec_len bytes ≤ limit) }
        ensures bytes { IfOk result (λ bytes.
            IfSome (state self.old).files (λ files. files name.now ≡ Some bytes.items)) }
        ensures too_long { IsErrOf result HostFault.TooLong
            → IfSome (state self.old).files (λ files. IsLonger files name.now limit) }
        ensures cause { IsErrOf result HostFault.Failed → Rose (state self.old).faults (state self.new).faults }
        ensures later { (state self.old).faults ≤ (state self.new).faults }
        ensures files { (state self.new).files ≡ (state self.old).files }
        ensures printed { (state self.new).printed ≡ (state self.old).printed }
        ensures asked { (state self.new).asked ≡ asked_after (state self.old).asked (Reads name.now) result };

    /// Makes these bytes the whole file of this name. After a refusal nothing is said of that one file.
    fn write_file(&mut self, name: &str, bytes: &[u8]) -> Result<(), HostFault>
        ensures written { OnOk result (IfSome (state self.new).files (λ files. files name.now ≡ Some bytes.now)) }
        ensures others { OthersStay name.now (state self.old).files (state self.new).files }
        ensures never_long { IsErrOf result HostFault.TooLong → ⊥ }
        ensures cause { IsErrOf result HostFault.Failed → Rose (state self.old).faults (state self.new).faults }
        ensures later { (state self.old).faults ≤ (state self.new).faults }
        ensures printed { (state self.new).printed ≡ (state self.old).printed }
        ensures asked { (state self.new).asked ≡ asked_after (state self.old).asked (Writes name.now) result };

    /// Appends these bytes to what was printed. After a refusal nothing is said of what was printed.
    fn print(&mut self, bytes: &[u8]) -> Result<(), HostFault>
        ensures appended { OnOk result
            ((state self.new).printed ≡ option_map (λ text. text ++ bytes.now) (state self.old).printed) }
        ensures told { is_some (state self.new).printed ≡ is_some (state self.old).printed }
        ensures never_long { IsErrOf result HostFault.TooLong → ⊥ }
        ensures cause { IsErrOf result HostFault.Failed → Rose (state self.old).faults (state self.new).faults }
        ensures later { (state self.old).faults ≤ (state self.new).faults }
        ensures files { (state self.new).files ≡ (state self.old).files }
        ensures asked { (state self.new).asked ≡ asked_after (state self.old).asked Prints result };
}
