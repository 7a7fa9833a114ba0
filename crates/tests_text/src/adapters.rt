use super::expect::expect;
use meta_text::{
    MemorySource, ReadError, ReadOutcome, Source, StdSink, StdSource, WriteError, read_whole,
    write_whole,
};
use std::cell::Cell;
use std::io;
use std::io::{Read, Write};
use std::process::Abort;
use std::test::Fail;

/// A writer that takes three bytes a call, and whose writes or flushes fail at one call. It takes
/// nothing once it has nine. It counts the bytes that were flushed.
#[derive(Drop)]
struct Writes<'a> {
    taken: usize,
    calls: u64,
    fail_write: u64,
    fail_flush: u64,
    flushed: &'a Cell<usize>,
}

impl Write for Writes<'_> {
    fn write(&mut self, buf: &[u8]) -> io::Result<usize> {
        self.calls = self.calls.saturating_add(1);
        if self.calls == self.fail_write {
            return Err(io::Error::other("no write"));
        }
        if self.taken > 8 {
            return Ok(0);
        }
        let count = buf.len().min(3);
        self.taken += count;
        Ok(count)
    }

    fn flush(&mut self) -> io::Result<()> {
        if self.calls == self.fail_flush {
            return Err(io::Error::other("no flush"));
        }
        self.flushed.set(self.taken);
        Ok(())
    }
}

/// The call whose write fails, the call whose flush fails, how many bytes are written, whether all are written, and how many were flushed.
const WRITES: [(u64, u64, usize, Result<(), WriteError>, usize); 7] = [
    (0, 0, 0, Ok(()), 0),
    (1, 1, 0, Ok(()), 0),
    (0, 0, 9, Ok(()), 9),
    (4, 4, 9, Ok(()), 9),
    (0, 0, 10, Err(WriteError::WriteFault), 9),
    (3, 0, 9, Err(WriteError::WriteFault), 6),
    (0, 3, 9, Err(WriteError::WriteFault), 6),
];

#[test]
fn writes_over_a_writer(rt: HostRuntime) -> Result<(), Fail> {
    for (fail_write, fail_flush, length, answer, flushed) in WRITES {
        let count = Cell::new(0);
        let mut sink = StdSink::new(Writes {
            taken: 0,
            calls: 0,
            fail_write,
            fail_flush,
            flushed: &count,
        });
        let written = write_whole(&mut sink, b"accept iadd".split_at(length.min(11)).0);
        expect(
            &rt,
            written == answer && count.get() == flushed,
            (length, flushed),
        );
    }
    Ok(())
}

/// A reader that gives `rea`, an error, `d` and the end. Each call writes over the whole buffer.
#[derive(Drop)]
struct Scribbles {
    calls: u64,
}

impl Read for Scribbles {
    fn read(&mut self, buf: &mut [u8]) -> io::Result<usize> {
        self.calls = self.calls.saturating_add(1);
        buf.fill(b'!');
        let bytes: &[u8] = match self.calls {
            1 => b"rea",
            2 => return Err(io::Error::other("no read")),
            3 => b"d",
            _ => b"",
        };
        if bytes.len() > buf.len() {
            return Ok(0);
        }
        buf[..bytes.len()].copy_from_slice(bytes);
        Ok(bytes.len())
    }
}

/// What four reads give, and what stands in the buffer then.
const READS: [(ReadOutcome, &[u8; 8]); 4] = [
    (ReadOutcome::Got(3), b"rea....."),
    (ReadOutcome::Failed, b"rea....."),
    (ReadOutcome::Got(1), b"dea....."),
    (ReadOutcome::End, b"dea....."),
];

fn compare_reads<S: Source>(rt: &impl Abort, source: &mut S) {
    let mut buffer = *b"........";
    for (number, (outcome, left)) in READS.iter().enumerate() {
        let is_wanted = source.read(&mut buffer) == *outcome;
        expect(rt, is_wanted && buffer == **left, (number, 4));
    }
}

#[test]
fn reads_keep_the_rest_of_the_buffer(rt: HostRuntime) -> Result<(), Fail> {
    let fails = vec![in rt.alloc(); 2]?;
    let mut memory = MemorySource::new(b"read".to_vec(rt.alloc())?, 3, fails);
    compare_reads(&rt, &mut memory);
    let mut reader = StdSource::new(Scribbles { calls: 0 });
    compare_reads(&rt, &mut reader);
    Ok(())
}

/// A reader that counts its calls, and ends or gives an error at one of them. Each other call gives four bytes, also after the end.
#[derive(Drop)]
struct Counts<'a> {
    calls: &'a Cell<u64>,
    end: u64,
    fails: bool,
}

impl Read for Counts<'_> {
    fn read(&mut self, buf: &mut [u8]) -> io::Result<usize> {
        let call = self.calls.get().saturating_add(1);
        self.calls.set(call);
        if call == self.end && self.fails {
            return Err(io::Error::other("no read"));
        }
        if call == self.end || buf.len() < 4 {
            return Ok(0);
        }
        buf[..4].copy_from_slice(b"read");
        Ok(4)
    }
}

/// The call at which the reader ends, and what it gave before.
const ENDS: [(u64, &[u8]); 6] = [
    (1, b""),
    (2, b"read"),
    (3, b"readread"),
    (4, b"readreadread"),
    (5, b"readreadreadread"),
    (6, b"readreadreadreadread"),
];

#[test]
fn nothing_is_read_after_the_end(rt: HostRuntime) -> Result<(), Fail> {
    for (end, front) in ENDS {
        for fails in [false, true] {
            let calls = Cell::new(0);
            let mut source = StdSource::new(Counts {
                calls: &calls,
                end,
                fails,
            });
            let is_wanted = match read_whole(rt.alloc(), &mut source) {
                Ok(bytes) => !fails && bytes.as_slice() == front,
                Err(error) => fails && error == ReadError::ReadFault,
            };
            let case = (end as usize, usize::from(fails));
            expect(&rt, is_wanted && calls.get() == end, case);
        }
    }
    Ok(())
}
