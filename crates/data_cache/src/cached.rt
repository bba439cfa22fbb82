//! A cache over a store, as the bytes that a core works on.

ghost use Rattle.std.specs.Prelude.{◌≡◌, ◌*◌, ◌%◌, IfOk, IfErr, OnErr};
ghost use Rattle.request_plan.specs.Plan.{Ends, Stops, through};
ghost use Rattle.rv32_core.specs.StepPlan.{machine_of, step_plan};
ghost use Rattle.data_cache.specs.Contents.{CacheBelow};
ghost use Rattle.data_cache.specs.Cached.{cache_access};

use crate::cache::Cache;
use crate::store::LineStore;
use rv32_core::{Bytes, Core, Done, Files};

/// A cache and the store below it, both lent, as the bytes of a memory whose first line begins at `base`.
#[derive(Drop)]
pub struct CachedBytes<'a, S: LineStore> {
    base: u32,
    cache: &'a mut Cache,
    store: &'a mut S,
    ghost aligned: { base % 64 ≡ 0 },
    ghost below: { CacheBelow (S.lines store.now) cache.now },
}

impl<'a, S: LineStore> Bytes for CachedBytes<'a, S> {
    ghost use Rattle.std.specs.Prelude.{None};
    ghost use Rattle.data_cache.specs.Cached.{CachedStep, CachedStep-size, CachedStep-ready};

    type Stop = S::Stop;

    ghost base = { λ b. b.base };

    ghost size = { λ b. 64 * S.lines b.store.now };

    ghost told = { λ _. None };

    ghost ready = { λ b. S.ready b.store.now };

    ghost step = { λ b access answer c. (c.base ≡ b.base) × (c.cache.ghost_name ≡ b.cache.ghost_name)
        × (c.store.ghost_name ≡ b.store.ghost_name)
        × CachedStep S.step b.base b.cache.now b.store.now access answer c.cache.now c.store.now };

    #[inline(always)]
    fn load(&mut self, address: u32, into: &mut [u8]) -> Result<(), S::Stop> {
        if into.is_empty() {
            return Ok(());
        }
        let from = address - self.base;
        self.cache
            .read(&mut *self.store, from / 64, (from % 64) as usize, into)
    }

    #[inline(always)]
    fn store(&mut self, address: u32, bytes: &[u8]) -> Result<(), S::Stop> {
        if bytes.is_empty() {
            return Ok(());
        }
        let from = address - self.base;
        self.cache
            .write(&mut *self.store, from / 64, (from % 64) as usize, bytes)
    }

    ghost keeps_base = { λ b c access answer h. h.0 };

    ghost keeps_size = { λ b c access answer h. CachedStep-size S.step S.lines S.keeps_lines b.base b.cache.now
        c.cache.now b.store.now c.store.now access answer h.3 };

    ghost stays_ready = { λ b c access bytes ready h. CachedStep-ready S.step S.ready S.stays_ready b.base b.cache.now
        c.cache.now b.store.now c.store.now access bytes ready h.3 };

    ghost answers = { λ b c access bytes h. h.3.1 };

    ghost told_size = { λ b memory e. Prim.cc };

    ghost tells_load = { λ b c address count bytes h memory e. Prim.cc };

    ghost tells_store = { λ b c address bytes done h memory e. Prim.cc };
}

/// One instruction over such bytes.
fn step_over<S: LineStore>(
    core: &mut Core,
    files: &mut Files,
    bytes: &mut CachedBytes<'_, S>,
) -> Result<Done, S::Stop>
    requires base { bytes.old.base ≡ core.old.base }
    requires size { core.old.size ≡ 64 * S.lines bytes.old.store.now }
    requires ready { S.ready bytes.old.store.now }
    ensures ok { IfOk result (λ done. Ends S.step
        (through (cache_access bytes.old.base) (step_plan (machine_of core.old files.old)) bytes.old.cache.now)
        bytes.old.store.now bytes.new.store.now (bytes.new.cache.now, (machine_of core.new files.new, done))) }
    ensures err { IfErr result (λ stop. Stops S.step
        (through (cache_access bytes.old.base) (step_plan (machine_of core.old files.old)) bytes.old.cache.now)
        bytes.old.store.now bytes.new.store.now stop (bytes.new.cache.now, machine_of core.new files.new)) }
    ensures unchanged { OnErr result (machine_of core.new files.new ≡ machine_of core.old files.old) }
    ensures same_base { core.new.base ≡ core.old.base }
    ensures same_size { core.new.size ≡ core.old.size }
    ensures same_lines { S.lines bytes.new.store.now ≡ S.lines bytes.old.store.now }
    ensures same_cache { bytes.new.cache.ghost_name ≡ bytes.old.cache.ghost_name }
    ensures same_store { bytes.new.store.ghost_name ≡ bytes.old.store.ghost_name }
{
    core.step(bytes, files)
}

/// One instruction of a core over a cache and a store of the lines of its memory, which begins at `base`. What it asks
/// of the store is the instruction's plan through the cache. Where a request is stopped, core and files are unchanged.
pub fn step_cached<S: LineStore>(
    core: &mut Core,
    files: &mut Files,
    base: u32,
    cache: &mut Cache,
    store: &mut S,
) -> Result<Done, S::Stop>
    requires base { base ≡ core.old.base }
    requires aligned { base % 64 ≡ 0 }
    requires size { core.old.size ≡ 64 * S.lines store.old }
    requires ready { S.ready store.old }
    requires lines { CacheBelow (S.lines store.old) cache.old }
    ensures ok { IfOk result (λ done. Ends S.step
        (through (cache_access core.old.base) (step_plan (machine_of core.old files.old)) cache.old)
        store.old store.new (cache.new, (machine_of core.new files.new, done))) }
    ensures err { IfErr result (λ stop. Stops S.step
        (through (cache_access core.old.base) (step_plan (machine_of core.old files.old)) cache.old)
        store.old store.new stop (cache.new, machine_of core.new files.new)) }
    ensures unchanged { OnErr result (machine_of core.new files.new ≡ machine_of core.old files.old) }
    ensures below { CacheBelow (S.lines store.new) cache.new }
    ensures same_base { core.new.base ≡ core.old.base }
    ensures same_size { core.new.size ≡ core.old.size }
    ensures same_lines { S.lines store.new ≡ S.lines store.old }
{
    let mut bytes = CachedBytes { base, cache, store };
    step_over(core, files, &mut bytes)
}
