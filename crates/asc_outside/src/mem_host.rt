ghost use Rattle.std.specs.Prelude.{◌≡◌, ◌≢◌, ℕ, ◌<◌, true, false, List, [], ◌∷◌, ◌++◌, Some, Ok, Err};
ghost use Rattle.std.specs.Prelude.{IfOk, IfErr, OnOk, OnErr, IsOkUnless, IsErrOf, vec_len, vec_capacity, string_bytes};
ghost use Rattle.std.specs.Option.{option_copied};

use crate::host::{Host, HostFault};
use crate::named_files::set_file;
use std::alloc::Global;
use std::collections::BTreeMap;
use std::marker::Model;

/// A call that was asked, with the name of its file.
#[derive(Drop)]
enum Asked {
    Read(String),
    Write(String),
    Print,
}

/// A host in memory, which tells all. Its calls are numbered from 1; one that is answered `NoMemory` has no number. It
/// fails exactly the calls with a listed number and the reads of a name that no file has. A refused call leaves its
/// files and what was printed.
#[derive(Drop)]
pub struct MemHost {
    alloc: Global,
    files: BTreeMap<String, Vec<u8>>,
    printed: Vec<u8>,
    asked: Vec<Asked>,
    failing: Vec<u64>,
    faults: u64,
}

impl Model for MemHost {
    ghost use Rattle.std.specs.Prelude.{◌≤◌, vec_len};
    ghost use Rattle.asc_outside.specs.MemHost.{MemHostState};

    ghost Value = { MemHostState };

    ghost use Rattle.asc_outside.specs.MemHostView.{mem_host_view};

    ghost view = { mem_host_view };

    // each fault was a call
    ghost invariant = { λ host. host.faults ≤ vec_len host.asked };
}

impl MemHost {
    ghost use Rattle.asc_outside.specs.MemHost.{file_of, next_fails, read_answer, noted, after_refusal};
    ghost use Rattle.asc_outside.specs.MemHostView.{call_of};

    /// A host without files, whose calls with these numbers fail.
    pub fn new(alloc: Global, failing: Vec<u64>) -> MemHost
        ensures { result ≡ record { files = []; printed = []; asked = []; failing = failing.items; faults = 0 } }
    {
        MemHost {
            alloc,
            files: BTreeMap::new(alloc),
            printed: Vec::new(alloc),
            asked: Vec::new(alloc),
            failing,
            faults: 0,
        }
    }

    /// Sets a file. This call has no number, and its only refusal is `NoMemory`.
    pub fn add(&mut self, name: &str, bytes: &[u8]) -> Result<(), HostFault>
        ensures only_memory { IsOkUnless result HostFault.NoMemory }
        ensures set { OnOk result (file_of self.new.files name.now ≡ Some bytes.now) }
        ensures others { (other : List ℕ) → other ≢ name.now
            → file_of self.new.files other ≡ file_of self.old.files other }
        ensures rest { self.new ≡ record self.old { files = self.new.files } }
        ensures err { OnErr result (self.new ≡ self.old) }
    {
        let key = self.copy_of(name)?;
        let copy = copy_of_bytes(self.alloc, bytes)?;
        set_file(&mut self.files, key, copy)
    }

    /// The bytes of a file, None where there is none of this name.
    pub fn file(&self, name: &str) -> Option<&[u8]>
        ensures { option_copied result ≡ file_of self.now.files name.now }
    {
        match self.files.get(name) {
            Some(bytes) => Some(bytes.as_slice()),
            None => None,
        }
    }

    /// What was printed.
    pub fn printed(&self) -> &[u8]
        ensures { result.now ≡ self.now.printed }
    {
        self.printed.as_slice()
    }

    fn next_fails(&self) -> bool
        ensures { result ≡ next_fails self.now }
    {
        let number = self.asked.len() as u64 + 1;
        self.failing.contains(&number)
    }

    fn find(&self, alloc: Global, name: &str, limit: usize) -> Result<Vec<u8>, HostFault>
        ensures ok { IfOk result (λ bytes. read_answer self.now name.now limit ≡ Ok bytes.items) }
        ensures err { IfErr result (λ fault. fault ≢ HostFault.NoMemory
            → read_answer self.now name.now limit ≡ Err fault) }
    {
        if self.next_fails() {
            return Err(HostFault::Failed);
        }
        let Some(bytes) = self.file(name) else {
            return Err(HostFault::Failed);
        };
        if bytes.len() > limit {
            return Err(HostFault::TooLong);
        }
        copy_of_bytes(alloc, bytes)
    }

    fn copy_of(&self, name: &str) -> Result<String, HostFault>
        ensures ok { IfOk result (λ copy. string_bytes copy ≡ name.now) }
        ensures only_memory { IsOkUnless result HostFault.NoMemory }
    {
        match String::from_str(self.alloc, name) {
            Ok(copy) => Ok(copy),
            Err(_) => Err(HostFault::NoMemory),
        }
    }

    fn note(&mut self, call: Asked) -> Result<(), HostFault>
        ensures only_memory { IsOkUnless result HostFault.NoMemory }
        ensures ok { OnOk result (self.new ≡ noted self.old (call_of call)) }
        ensures err { OnErr result (self.new ≡ self.old) }
    {
        match self.asked.push(call) {
            Ok(()) => Ok(()),
            Err(_) => Err(HostFault::NoMemory),
        }
    }

    // Notes a call that is refused for this fault, and answers why it is refused in the end.
    fn refuse(&mut self, call: Asked, fault: HostFault) -> HostFault
        ensures which { result ≢ HostFault.NoMemory → result ≡ fault }
        ensures after { self.new ≡ after_refusal self.old (call_of call) result }
    {
        if fault == HostFault::NoMemory || self.asked.push(call).is_err() {
            return HostFault::NoMemory;
        }
        if fault == HostFault::Failed {
            self.faults += 1;
        }
        fault
    }
}

impl Host for MemHost {
    ghost use Rattle.asc_outside.specs.Host.{Reads, Writes, Prints};
    ghost use Rattle.asc_outside.specs.MemHost.{told_by, file_of, next_fails, read_answer, after_call};

    ghost state = { told_by };

    fn read_file(&mut self, alloc: Global, name: &str, limit: usize) -> Result<Vec<u8>, HostFault>
        ensures ok { IfOk result (λ bytes. read_answer self.old name.now limit ≡ Ok bytes.items) }
        ensures err { IfErr result (λ fault. fault ≢ HostFault.NoMemory
            → read_answer self.old name.now limit ≡ Err fault) }
        ensures after { self.new ≡ after_call self.old (Reads name.now) result }
    {
        let call = Asked::Read(self.copy_of(name)?);
        match self.find(alloc, name, limit) {
            Ok(bytes) => {
                self.note(call)?;
                Ok(bytes)
            }
            Err(fault) => Err(self.refuse(call, fault)),
        }
    }

    fn write_file(&mut self, name: &str, bytes: &[u8]) -> Result<(), HostFault>
        ensures ok { OnOk result (next_fails self.old ≡ false) }
        ensures failed { IsErrOf result HostFault.Failed → next_fails self.old ≡ true }
        ensures never_long { IsErrOf result HostFault.TooLong → ⊥ }
        ensures written { OnOk result (file_of self.new.files name.now ≡ Some bytes.now) }
        ensures others { (other : List ℕ) → other ≢ name.now
            → file_of self.new.files other ≡ file_of self.old.files other }
        ensures refused { OnErr result (self.new.files ≡ self.old.files) }
        ensures after { self.new ≡ record (after_call self.old (Writes name.now) result) { files = self.new.files } }
    {
        let call = Asked::Write(self.copy_of(name)?);
        if self.next_fails() {
            return Err(self.refuse(call, HostFault::Failed));
        }
        let key = self.copy_of(name)?;
        let copy = copy_of_bytes(self.alloc, bytes)?;
        reserve_one(&mut self.asked)?;
        set_file(&mut self.files, key, copy)?;
        self.asked.push_reserved(call);
        Ok(())
    }

    fn print(&mut self, bytes: &[u8]) -> Result<(), HostFault>
        ensures ok { OnOk result (next_fails self.old ≡ false) }
        ensures failed { IsErrOf result HostFault.Failed → next_fails self.old ≡ true }
        ensures never_long { IsErrOf result HostFault.TooLong → ⊥ }
        ensures appended { OnOk result (self.new.printed ≡ self.old.printed ++ bytes.now) }
        ensures refused { OnErr result (self.new.printed ≡ self.old.printed) }
        ensures after { self.new ≡ record (after_call self.old Prints result) { printed = self.new.printed } }
    {
        if self.next_fails() {
            return Err(self.refuse(Asked::Print, HostFault::Failed));
        }
        reserve_one(&mut self.asked)?;
        if self.printed.extend_from_slice(bytes).is_err() {
            return Err(HostFault::NoMemory);
        }
        self.asked.push_reserved(Asked::Print);
        Ok(())
    }
}

fn copy_of_bytes(alloc: Global, bytes: &[u8]) -> Result<Vec<u8>, HostFault>
    ensures ok { IfOk result (λ copy. copy.items ≡ bytes.now) }
    ensures only_memory { IsOkUnless result HostFault.NoMemory }
{
    match Vec::from_slice(alloc, bytes) {
        Ok(copy) => Ok(copy),
        Err(_) => Err(HostFault::NoMemory),
    }
}

fn reserve_one(calls: &mut Vec<Asked>) -> Result<(), HostFault>
    ensures items { calls.new.items ≡ calls.old.items }
    ensures ok { OnOk result (vec_len calls.new < vec_capacity calls.new) }
    ensures only_memory { IsOkUnless result HostFault.NoMemory }
{
    match calls.reserve(1) {
        Ok(()) => Ok(()),
        Err(_) => Err(HostFault::NoMemory),
    }
}
