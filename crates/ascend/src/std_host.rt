ghost use Rattle.std.specs.Prelude.{◌≡◌, ◌≢◌, ◌<◌, ◌≤◌, None, IfOk, IfSome, OnOk, MatchOption, length, vec_len};
ghost use Rattle.std.specs.Io.KnownBytes.{Appends};
ghost use Rattle.asc_outside.specs.Rose.{Rose};

use asc_outside::{Host, HostFault};
use std::alloc::Global;
use std::fs;
use std::io::{self, Read, Write};
use std::rt::Files;

/// The machine's files and standard output as a host. It counts its failures, and tells nothing else.
#[derive(Drop)]
pub(crate) struct StdHost<'a, R> {
    rt: &'a R,
    faults: u64,
}

impl<'a, R: Files + Print + AllocGlobal> StdHost<'a, R> {
    pub(crate) fn new(rt: &'a R) -> StdHost<'a, R>
        ensures { result.faults ≡ 0 }
    {
        StdHost { rt, faults: 0 }
    }

    /// Counts a failure, unless it is want of memory.
    fn fault(&mut self, error: &io::Error) -> HostFault
        ensures never_long { result ≢ HostFault.TooLong }
        ensures cause { result ≡ HostFault.Failed → Rose self.old.faults self.new.faults }
        ensures later { self.old.faults ≤ self.new.faults }
    {
        if error.kind() == io::ErrorKind::OutOfMemory {
            return HostFault::NoMemory;
        }
        self.faults = self.faults.saturating_add(1);
        HostFault::Failed
    }
}

/// The bytes that a reader has left, None where there are more than `limit`.
fn read_limited<F: Read + Drop>(
    alloc: Global,
    reader: F,
    limit: usize,
) -> io::Result<Option<Vec<u8>>>
    ensures within { IfOk result (λ read. IfSome read (λ bytes. vec_len bytes ≤ limit)) }
    ensures whole { IfOk result (λ read. IfSome (F.remaining reader) (λ rest.
        MatchOption read (limit < length rest) (λ bytes. bytes.items ≡ rest))) }
{
    let mut bytes = Vec::new(alloc);
    let most = (limit as u64).saturating_add(1);
    reader.take(most).read_to_end(&mut bytes)?;
    if bytes.len() > limit {
        return Ok(None);
    }
    Ok(Some(bytes))
}

/// Writes bytes to a writer, whole.
fn write_whole<W: Write>(writer: &mut W, bytes: &[u8]) -> io::Result<()>
    ensures { OnOk result (Appends (W.contents writer.old) (W.contents writer.new) bytes.now) }
{
    writer.write_all(bytes)?;
    writer.flush()
}

impl<'a, R: Files + Print + AllocGlobal> Host for StdHost<'a, R> {
    ghost state = { λ host. record { faults = host.faults; files = None; printed = None; asked = None } };

    fn read_file(&mut self, alloc: Global, name: &str, limit: usize) -> Result<Vec<u8>, HostFault> {
        let read = match fs::open(self.rt, name) {
            Ok(file) => read_limited(alloc, file, limit),
            Err(error) => Err(error),
        };
        match read {
            Ok(Some(bytes)) => Ok(bytes),
            Ok(None) => Err(HostFault::TooLong),
            Err(error) => Err(self.fault(&error)),
        }
    }

    fn write_file(&mut self, name: &str, bytes: &[u8]) -> Result<(), HostFault> {
        let written = match fs::create(self.rt, name) {
            Ok(mut file) => write_whole(&mut file, bytes),
            Err(error) => Err(error),
        };
        match written {
            Ok(()) => Ok(()),
            Err(error) => Err(self.fault(&error)),
        }
    }

    fn print(&mut self, bytes: &[u8]) -> Result<(), HostFault> {
        match write_whole(&mut io::writer(self.rt), bytes) {
            Ok(()) => Ok(()),
            Err(error) => Err(self.fault(&error)),
        }
    }
}

#[cfg(test)]
mod tests {
    use super::*;
    use asc_outside::HostFault;
    use std::test::Fail;

    /// Files of these numbers of bytes are written and read back; the last is longer than any buffer.
    const LENGTHS: [usize; 5] = [0, 1, 9_999, 10_000, 1_048_576];

    /// So many bytes, of which no two neighbours are the same.
    fn bytes_of(alloc: Global, count: usize) -> io::Result<Vec<u8>> {
        let mut bytes = Vec::new(alloc);
        for i in 0..count {
            bytes.push((i % 251) as u8)?;
        }
        Ok(bytes)
    }

    #[test]
    fn files_are_read_as_they_were_written(rt: HostRuntime) -> Result<(), Fail> {
        let mut host = StdHost::new(&rt);
        for count in LENGTHS {
            let bytes = bytes_of(rt.alloc(), count)?;
            host.write_file("written", bytes.as_slice())?;
            let read = host.read_file(rt.alloc(), "written", count)?;
            assert!(rt; read.as_slice() == bytes.as_slice(), "{count} bytes");
        }
        fs::remove_file(&rt, "written")?;
        assert!(rt; host.faults == 0);
        Ok(())
    }

    /// A writer that takes at most 1,000 bytes a turn, and at most `room` in all; its second turn is interrupted.
    #[derive(Drop)]
    struct Narrow {
        taken: Vec<u8>,
        room: usize,
        turns: usize,
        flushed: bool,
    }

    impl Narrow {
        fn new(alloc: Global, room: usize) -> Narrow {
            Narrow {
                taken: Vec::new(alloc),
                room,
                turns: 0,
                flushed: false,
            }
        }
    }

    impl Write for Narrow {
        fn write(&mut self, buf: &[u8]) -> io::Result<usize> {
            self.turns = self.turns.saturating_add(1);
            if self.turns == 2 {
                return Err(io::Error::from(io::ErrorKind::Interrupted));
            }
            let count = buf.len().min(self.room).min(1_000);
            self.taken.extend_from_slice(&buf[..count])?;
            self.room -= count;
            Ok(count)
        }

        fn flush(&mut self) -> io::Result<()> {
            self.flushed = true;
            Ok(())
        }
    }

    #[test]
    fn a_writer_that_takes_little_gets_all(rt: HostRuntime) -> Result<(), Fail> {
        for count in LENGTHS {
            let bytes = bytes_of(rt.alloc(), count)?;
            let mut narrow = Narrow::new(rt.alloc(), count);
            write_whole(&mut narrow, bytes.as_slice())?;
            assert!(rt;
                narrow.taken.as_slice() == bytes.as_slice(),
                "{count} bytes"
            );
            assert!(rt; narrow.flushed);
        }
        Ok(())
    }

    #[test]
    fn a_writer_without_room_is_no_success(rt: HostRuntime) -> Result<(), Fail> {
        let bytes = bytes_of(rt.alloc(), 10_000)?;
        let mut narrow = Narrow::new(rt.alloc(), 9_999);
        let written = write_whole(&mut narrow, bytes.as_slice());
        assert!(rt; matches!(written, Err(error) if error.kind() == io::ErrorKind::WriteZero));
        assert_eq!(rt; narrow.taken.len(), 9_999);
        Ok(())
    }

    #[test]
    fn longer_files_are_refused(rt: HostRuntime) -> Result<(), Fail> {
        let mut host = StdHost::new(&rt);
        let bytes = bytes_of(rt.alloc(), 10_001)?;
        host.write_file("long", bytes.as_slice())?;
        let read = host.read_file(rt.alloc(), "long", 10_000);
        fs::remove_file(&rt, "long")?;
        assert!(rt; matches!(read, Err(HostFault::TooLong)));
        assert!(rt; host.faults == 0);
        Ok(())
    }

    #[test]
    fn failures_are_counted(rt: HostRuntime) -> Result<(), Fail> {
        let mut host = StdHost::new(&rt);
        let missing = host.read_file(rt.alloc(), "no/such/file", 10);
        assert!(rt; matches!(missing, Err(HostFault::Failed)));
        let folder = host.read_file(rt.alloc(), ".", 10);
        assert!(rt; matches!(folder, Err(HostFault::Failed)));
        let written = host.write_file(".", b"text");
        assert!(rt; matches!(written, Err(HostFault::Failed)));
        assert!(rt; host.faults == 3);
        Ok(())
    }
}
