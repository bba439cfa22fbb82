//! What stands outside the processor: the host, whose files and printing a command uses, and the memory.
#![tactic(auto)]

mod faults;
mod host;
mod mem_host;
mod memories;
mod memory;
mod named_files;

pub use faults::counts_rise;
pub use host::{Host, HostFault};
pub use mem_host::MemHost;
pub use memories::{FaultyMemory, HonestMemory, ScriptedMemory};
pub use memory::{BUCKET_BYTES, Failed, MemStop, UntrustedMemory, empty_bucket};

#[cfg(test)]
mod tests;
