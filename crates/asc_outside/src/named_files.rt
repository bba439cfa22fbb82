ghost use Rattle.std.specs.Prelude.{◌≡◌, ◌≢◌, ℕ, List, Some, OnOk, OnErr, IsOkUnless, string_bytes};
ghost use Rattle.asc_outside.specs.MemHost.{file_of};
ghost use Rattle.asc_outside.specs.NamedFiles.{file_pairs};

use crate::host::HostFault;
use std::collections::BTreeMap;

/// Makes these bytes the file of this name. Its only refusal is `NoMemory`, which leaves the files.
pub fn set_file(
    files: &mut BTreeMap<String, Vec<u8>>,
    name: String,
    bytes: Vec<u8>,
) -> Result<(), HostFault>
    ensures only_memory { IsOkUnless result HostFault.NoMemory }
    ensures set { OnOk result (file_of (file_pairs files.new.entries) (string_bytes name) ≡ Some bytes.items) }
    ensures others { (other : List ℕ) → other ≢ string_bytes name
        → file_of (file_pairs files.new.entries) other ≡ file_of (file_pairs files.old.entries) other }
    ensures err { OnErr result (files.new.entries ≡ files.old.entries) }
{
    match files.insert(name, bytes) {
        Ok(_) => Ok(()),
        Err(_) => Err(HostFault::NoMemory),
    }
}
