//! An outside over which every condition of `ascend` and every premise of completeness holds before a call; and a
//! memory over which none of them is broken in it.

ghost use Rattle.std.specs.Prelude.{◌≡◌, ◌<◌, ◌^◌, [], length, Some, IfOk, IsOkUnless, IsSome};
ghost use Rattle.asc_outside.specs.Host.{Files};
ghost use Rattle.asc_outside.specs.MemHost.{told_by};
ghost use Rattle.asc_outside.specs.Memories.{told_by_buckets};
ghost use Rattle.asc_outside.specs.Rose.{Rose};
ghost use Rattle.ascend_words.specs.Grammar.{Read, IsWords, texts};
ghost use Rattle.bus_watch.specs.Log.{fresh_tap};
ghost use Rattle.ascend_top.specs.Command.{AreRight};
ghost use Rattle.ascend_top.specs.Complete.{CompletesPlay, HasRoom};
ghost use Rattle.ascend_top.specs.Headline.{RunsEncrypted};
ghost use Rattle.ascend_top.specs.Instance.{HaveKey, short_read, short_words, without_faults};
ghost use Rattle.ascend_top.specs.Lent.{lent_as};
ghost use Rattle.ascend_top.specs.Steps.{key_length};

use crate::ascend;
use asc_outside::{
    BUCKET_BYTES, Failed, HonestMemory, Host, HostFault, MemHost, MemStop, UntrustedMemory,
};
use bus_watch::Recorder;
use std::alloc::Global;

/// An honest memory. Its count of faults stands at 0, whatever it is asked: none of its calls fails.
#[derive(Drop)]
pub struct Unfailing {
    pub memory: HonestMemory,
}

impl UntrustedMemory for Unfailing {
    ghost use Rattle.ascend_top.specs.Instance.{without_faults};

    ghost state = { λ m. without_faults m.memory };

    fn prepare(&mut self, buckets: u32) -> Result<(), MemStop> {
        self.memory.prepare(buckets)
    }

    fn read(
        &mut self,
        time: u64,
        bucket: u32,
        into: &mut [u8; BUCKET_BYTES],
    ) -> Result<(), Failed> {
        self.memory.read(time, bucket, into)
    }

    fn write(&mut self, time: u64, bucket: u32, bytes: &[u8; BUCKET_BYTES]) -> Result<(), MemStop> {
        self.memory.write(time, bucket, bytes)
    }
}

/// A host, a memory and a tap.
#[derive(Drop)]
pub struct Outside {
    pub host: MemHost,
    pub memory: Unfailing,
    pub tap: Recorder,
}

/// A host that tells its files, of which `k` is the key; a memory that tells its buckets, of which none is prepared;
/// and a tap that was told nothing. None of them was asked anything, and none failed. The host lists no call that
/// fails: that no fault of it rises in a command is tested. The memory never fails.
pub fn outside_with_key(alloc: Global, key: &[u8]) -> Result<Outside, HostFault>
    requires key { length key.now ≡ key_length }
    ensures only_memory { IsOkUnless result HostFault.NoMemory }
    ensures files { IfOk result (λ made. (files : Files) × ((told_by made.host).files ≡ Some files)
        × HaveKey files) }
    ensures failing { IfOk result (λ made. made.host.failing ≡ []) }
    ensures asked { IfOk result (λ made. (told_by made.host).asked ≡ Some []) }
    ensures host_faults { IfOk result (λ made. (told_by made.host).faults ≡ 0) }
    ensures told { IfOk result (λ made. IsSome (without_faults made.memory.memory).told) }
    ensures memory_faults { IfOk result (λ made. (told_by_buckets made.memory.memory).faults ≡ 0) }
    ensures count { IfOk result (λ made. (without_faults made.memory.memory).count ≡ 0) }
    ensures moved { IfOk result (λ made. (without_faults made.memory.memory).moved ≡ 0) }
    ensures tap { IfOk result (λ made. made.tap ≡ fresh_tap) }
{
    let mut host = MemHost::new(alloc, Vec::new(alloc));
    host.add("k", key)?;
    Ok(Outside {
        host,
        memory: Unfailing {
            memory: HonestMemory::new(alloc),
        },
        tap: Recorder::new(alloc),
    })
}

/// Runs a command over an honest memory. Completeness has no premise on what such a memory does: that no fault of it
/// rises is proved. Of the words of [`crate::completeness_can_be_met`] none is left but that no fault of the host does.
pub fn ascend_over_honest_memory<H: Host>(
    alloc: Global,
    words: &[String],
    host: &mut H,
    memory: &mut Unfailing,
    tap: &mut Recorder,
) -> u8
    requires told { IsSome (without_faults memory.old.memory).told }
    requires fresh { (without_faults memory.old.memory).count ≡ 0 }
    requires moved { (without_faults memory.old.memory).moved < 2 ^ 62 }
    requires tap { tap.old ≡ fresh_tap }
    ensures complete { (read : Read) (files : Files) → IsWords (texts words.now) read → RunsEncrypted read.command
        → (H.state host.old).files ≡ Some files → AreRight read files
        → ¬ Rose (H.state host.old).faults (H.state host.new).faults → HasRoom read.command read.given files
        → CompletesPlay read files
        (lent_as (without_faults memory.old.memory) (without_faults memory.new.memory) tap.old tap.new) result
        (H.state host.old) (H.state host.new) }
    ensures short { (files : Files) → texts words.now ≡ short_words → (H.state host.old).files ≡ Some files
        → HaveKey files → ¬ Rose (H.state host.old).faults (H.state host.new).faults
        → CompletesPlay short_read files
        (lent_as (without_faults memory.old.memory) (without_faults memory.new.memory) tap.old tap.new) result
        (H.state host.old) (H.state host.new) }
{
    ascend(alloc, words, host, memory, tap)
}
