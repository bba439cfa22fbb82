//! The input that a program reads, and the output that it writes.

ghost use Rattle.std.specs.Prelude.{◌≡◌, ◌+◌, ◌≤◌, nat_le, [], length, IfOk, IfErr, OnOk, OnErr};
ghost use Rattle.request_plan.specs.Plan.{Ends, Stops};
ghost use Rattle.rv32_core.specs.Access.{slice_of};
ghost use Rattle.rv32_core.specs.Machine.{bytes_left};
ghost use Rattle.rv32_core.specs.Transfer.{IsRange, pieces, stores_plan, loads_plan};

use crate::memory::Bytes;
use crate::transfer::{load_all, store_all};
use asc_base::NoMemory;
use std::alloc::Global;
use std::marker::Model;

/// The greatest length of a program's output, in bytes: `output_limit` of `specs/FlatRun.antt`.
pub const OUTPUT_LIMIT: usize = 1_048_576;

/// A program's input, how far it was read, and its output, which has a greatest length.
#[derive(Debug, Drop)]
pub struct Files {
    input: Vec<u8>,
    position: usize,
    output: Vec<u8>,
    limit: usize,
}

impl Model for Files {
    ghost use Rattle.std.specs.Prelude.{◌≤◌, length, vec_capacity};
    ghost use Rattle.rv32_core.specs.Machine.{FilesState};

    ghost Value = { FilesState };

    ghost view = { λ f. record {
      input = f.input.items;
      position = f.position;
      output = f.output.items;
      limit = f.limit;
    } };

    ghost invariant = { λ f. (f.position ≤ length f.input.items) × (length f.output.items ≤ f.limit)
        × (f.limit ≤ vec_capacity f.output) };
}

impl Files {
    /// Nothing was read of `input`, and nothing was written. Room for `limit` bytes of output is reserved.
    pub fn new(alloc: Global, input: &[u8], limit: usize) -> Result<Files, NoMemory>
        ensures { IfOk result (λ files. files
            ≡ record { input = input.now; position = 0; output = []; limit = limit }) }
    {
        let Ok(input) = input.to_vec(alloc) else {
            return Err(NoMemory);
        };
        let Ok(output) = Vec::with_capacity(alloc, limit) else {
            return Err(NoMemory);
        };
        Ok(Files {
            input,
            position: 0,
            output,
            limit,
        })
    }

    /// What was written.
    pub fn output(&self) -> &[u8]
        ensures { result.now ≡ self.now.output }
    {
        &self.output
    }

    /// What was written, moved out.
    pub fn into_output(self) -> Vec<u8>
        ensures { result.items ≡ self.output }
    {
        self.output
    }

    /// How many bytes of the input weren't read yet.
    pub(crate) fn bytes_left(&self) -> usize
        ensures { result ≡ bytes_left self.now }
    {
        self.input.len() - self.position
    }

    /// Whether the output has room for `count` bytes more.
    pub(crate) fn has_room(&self, count: u32) -> bool
        ensures { result ≡ nat_le (length self.now.output + count) self.now.limit }
    {
        count as usize <= self.limit - self.output.len()
    }

    /// Stores the next `count` bytes of the input in the memory. Where a store is stopped, nothing counts as read.
    pub(crate) fn read<B: Bytes>(
        &mut self,
        memory: &mut B,
        address: u32,
        count: u32,
    ) -> Result<(), B::Stop>
        requires range { IsRange (B.base memory.old) (B.size memory.old) address count }
        requires ready { B.ready memory.old }
        requires left { count ≤ bytes_left self.old }
        ensures ok { OnOk result (Ends B.step
            (stores_plan (slice_of self.old.input self.old.position count) (pieces address count))
            memory.old memory.new tt) }
        ensures err { IfErr result (λ stop. Stops B.step
            (stores_plan (slice_of self.old.input self.old.position count) (pieces address count))
            memory.old memory.new stop tt) }
        ensures after { OnOk result (self.new ≡ record self.old { position = self.old.position + count }) }
        ensures unchanged { OnErr result (self.new ≡ self.old) }
        ensures base { B.base memory.new ≡ B.base memory.old }
        ensures size { B.size memory.new ≡ B.size memory.old }
    {
        let end = self.position + count as usize;
        store_all(memory, address, &self.input[self.position..end])?;
        self.position = end;
        Ok(())
    }

    /// Appends `count` bytes of the memory to the output. Where a load is stopped, the output is as it was.
    pub(crate) fn write<B: Bytes>(
        &mut self,
        memory: &mut B,
        address: u32,
        count: u32,
    ) -> Result<(), B::Stop>
        requires range { IsRange (B.base memory.old) (B.size memory.old) address count }
        requires ready { B.ready memory.old }
        requires room { length self.old.output + count ≤ self.old.limit }
        ensures ok { OnOk result (Ends B.step (loads_plan self.old.output (pieces address count))
            memory.old memory.new self.new.output) }
        ensures err { IfErr result (λ stop. Stops B.step (loads_plan self.old.output (pieces address count))
            memory.old memory.new stop tt) }
        ensures after { OnOk result (self.new ≡ record self.old { output = self.new.output }) }
        ensures unchanged { OnErr result (self.new ≡ self.old) }
        ensures base { B.base memory.new ≡ B.base memory.old }
        ensures size { B.size memory.new ≡ B.size memory.old }
    {
        let before = self.output.len();
        if let Err(stop) = load_all(memory, &mut self.output, address, count) {
            self.output.truncate(before);
            return Err(stop);
        }
        Ok(())
    }
}
