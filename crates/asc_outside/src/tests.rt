//! What the hosts and memories of tests answer, call by call.

ghost use Rattle.std.specs.Prelude.{◌≡◌, ◌<◌, ◌+◌, ◌^◌};

use crate::{
    BUCKET_BYTES, Failed, FaultyMemory, HonestMemory, Host, HostFault, MemHost, MemStop,
    ScriptedMemory, UntrustedMemory, empty_bucket,
};
use std::alloc::Global;
use std::test::Fail;

#[derive(Clone, Copy, Debug)]
enum Step {
    Read(usize),
    Write,
    Print,
}

// Asks one call of any host. Of a read it answers whether these are the file's bytes.
fn ask<H: Host>(
    host: &mut H,
    alloc: Global,
    step: Step,
    name: &str,
    text: &str,
) -> Result<bool, HostFault> {
    match step {
        Step::Read(limit) => {
            let bytes = host.read_file(alloc, name, limit)?;
            return Ok(bytes.as_slice() == text.as_bytes());
        }
        Step::Write => host.write_file(name, text.as_bytes())?,
        Step::Print => host.print(text.as_bytes())?,
    }
    Ok(true)
}

#[test]
fn answers_call_by_call(rt: HostRuntime) -> Result<(), Fail> {
    let alloc = rt.alloc();
    let mut host = MemHost::new(alloc, vec![in alloc; 3]?);
    host.add("in", b"other")?;
    host.add("in", b"one")?;
    for (step, name, text, answer) in [
        (Step::Read(3), "in", "one", Ok(true)),
        (Step::Read(9), "out", "", Err(HostFault::Failed)),
        (Step::Write, "in", "two", Err(HostFault::Failed)),
        (Step::Read(9), "in", "one", Ok(true)),
        (Step::Print, "", "a", Ok(true)),
        (Step::Write, "in", "two", Ok(true)),
        (Step::Write, "out", "three", Ok(true)),
        (Step::Read(4), "out", "", Err(HostFault::TooLong)),
        (Step::Read(5), "out", "three", Ok(true)),
        (Step::Read(usize::MAX), "in", "two", Ok(true)),
        (Step::Read(9), "", "", Err(HostFault::Failed)),
        (Step::Write, "", "", Ok(true)),
        (Step::Read(0), "", "", Ok(true)),
        (Step::Print, "", "bc", Ok(true)),
    ] {
        assert_eq!(rt;
            ask(&mut host, alloc, step, name, text),
            answer,
            "{step:?} {name} {text}"
        );
    }
    assert_eq!(rt; host.printed(), b"abc".as_slice());
    assert_eq!(rt; host.file("out").ok_or("out")?, b"three".as_slice());
    assert!(rt; host.file("ou").is_none());
    Ok(())
}

// Reads a bucket of any memory, and answers its last byte.
fn last_byte<M: UntrustedMemory>(memory: &mut M, time: u64, bucket: u32) -> Result<u8, Failed>
    requires within { bucket < (M.state memory.old).count }
    requires spare { (M.state memory.old).moved < 2 ^ 63 }
    ensures count { (M.state memory.new).count ≡ (M.state memory.old).count }
    ensures moved { (M.state memory.new).moved ≡ (M.state memory.old).moved + 1 }
{
    let mut bytes = empty_bucket();
    memory.read(time, bucket, &mut bytes)?;
    Ok(bytes[375])
}

// Fills a bucket of any memory with one byte.
fn fill<M: UntrustedMemory>(memory: &mut M, time: u64, bucket: u32, byte: u8) -> Result<(), MemStop>
    requires within { bucket < (M.state memory.old).count }
    requires spare { (M.state memory.old).moved < 2 ^ 63 }
    ensures count { (M.state memory.new).count ≡ (M.state memory.old).count }
    ensures moved { (M.state memory.new).moved ≡ (M.state memory.old).moved + 1 }
{
    memory.write(time, bucket, &[byte; BUCKET_BYTES])
}

#[test]
fn honest_memory_gives_what_was_written(rt: HostRuntime) -> Result<(), Fail> {
    let mut memory = HonestMemory::new(rt.alloc());
    memory.prepare(3)?;
    assert_eq!(rt; last_byte(&mut memory, 0, 2), Ok(0));
    assert_eq!(rt; fill(&mut memory, 1, 2, 7), Ok(()));
    assert_eq!(rt; last_byte(&mut memory, 2, 2), Ok(7));
    assert_eq!(rt; last_byte(&mut memory, 3, 1), Ok(0));
    Ok(())
}

#[test]
fn listed_moves_fail(rt: HostRuntime) -> Result<(), Fail> {
    let mut memory = FaultyMemory::new(rt.alloc(), [2, 4].to_vec(rt.alloc())?);
    memory.prepare(2)?;
    assert_eq!(rt; fill(&mut memory, 0, 0, 7), Ok(()));
    assert_eq!(rt; fill(&mut memory, 1, 0, 9), Err(MemStop::Failed));
    assert_eq!(rt; last_byte(&mut memory, 2, 0), Ok(7));
    assert_eq!(rt; last_byte(&mut memory, 3, 0), Err(Failed));
    assert_eq!(rt; last_byte(&mut memory, 4, 1), Ok(0));
    Ok(())
}

#[test]
fn script_is_answered_to_its_end(rt: HostRuntime) -> Result<(), Fail> {
    let replies = [[1; BUCKET_BYTES], [2; BUCKET_BYTES]].to_vec(rt.alloc())?;
    let mut memory = ScriptedMemory::new(rt.alloc(), replies, 3)?;
    memory.prepare(1)?;
    assert_eq!(rt; last_byte(&mut memory, 0, 0), Ok(1));
    assert_eq!(rt; fill(&mut memory, 1, 0, 7), Ok(()));
    assert_eq!(rt; last_byte(&mut memory, 2, 0), Ok(2));
    assert_eq!(rt; last_byte(&mut memory, 3, 0), Err(Failed));
    assert_eq!(rt; fill(&mut memory, 4, 0, 7), Ok(()));
    Ok(())
}
