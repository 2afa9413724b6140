//! Readers that fail, and buffers whose device fails.
use grep_core::{
    Buffered, CountedWrite, Limited, Lines, ReadFault, Tally, WholeLines, WriteFault, push_all,
    write_line,
};
use std::io::{Error, ErrorKind, Write};
use std::test::Fail;

// The file `ab` and `cd`, whose reads fail after `left` bytes.
#[test]
fn a_failed_read_is_answered_from_then_on(rt: HostRuntime) -> Result<(), Fail> {
    for (left, whole) in [(0, 0), (1, 0), (2, 0), (3, 1), (4, 1), (5, 1)] {
        let reader = Tally::new(Limited::new(b"ab\ncd".as_slice(), usize::MAX, left));
        let Ok(mut lines) = Lines::new(rt.alloc(), reader) else {
            return Err(Fail::from("no memory"));
        };
        for _ in 0..whole {
            assert_eq!(rt; lines.next_line(), Ok(true), "{left}");
            assert_eq!(rt; lines.line(), b"ab".as_slice(), "{left}");
        }
        for _ in 0..3 {
            assert_eq!(rt; lines.next_line(), Err(ReadFault::Device), "{left}");
            assert_eq!(rt; lines.line().len(), 0, "{left}");
        }
    }
    Ok(())
}

#[test]
fn a_failed_flush_keeps_a_beginning(rt: HostRuntime) -> Result<(), Fail> {
    let device = Tally::new(Limited::new(Vec::new(rt.alloc()), 3, 7));
    let mut out = Buffered::new(rt.alloc(), device)?;
    assert_eq!(rt; write_line(&mut out, b"0123456789"), Ok(()));
    assert_eq!(rt; out.send(), Err(WriteFault));
    assert_eq!(rt; out.failures(), 1);
    let bytes = out.into_inner().into_inner().into_inner();
    assert_eq!(rt; bytes.as_slice(), b"0123456".as_slice());
    Ok(())
}

/// A device whose writes take at most `step` bytes each and put a bar after them. The write after
/// the first `good` ones fails, and those after it succeed.
#[derive(Drop)]
struct Barred {
    bytes: Vec<u8>,
    step: usize,
    good: usize,
}

impl Write for Barred {
    fn write(&mut self, buf: &[u8]) -> std::io::Result<usize> {
        if self.good == 0 {
            self.good = usize::MAX;
            return Err(Error::from(ErrorKind::Other));
        }
        self.good -= 1;
        let count = buf.len().min(self.step);
        if self.bytes.extend_from_slice(&buf[..count]).is_err() {
            return Err(Error::from(ErrorKind::Other));
        }
        if self.bytes.push(b'|').is_err() {
            return Err(Error::from(ErrorKind::Other));
        }
        Ok(count)
    }

    fn flush(&mut self) -> std::io::Result<()> {
        Ok(())
    }
}

// A device on which nothing was written yet.
fn unwritten(rt: &HostRuntime, step: usize, good: usize) -> Tally<Barred> {
    let bytes = Vec::new(rt.alloc());
    Tally::new(Barred { bytes, step, good })
}

#[test]
fn a_failed_line_goes_once(rt: HostRuntime) -> Result<(), Fail> {
    let mut out = WholeLines::new(rt.alloc(), unwritten(&rt, 2, 1))?;
    assert_eq!(rt; push_all(&mut out, b"abcd"), Ok(()));
    assert_eq!(rt; push_all(&mut out, b"ef\n"), Err(WriteFault));
    assert_eq!(rt; out.failures(), 1);
    assert_eq!(rt; push_all(&mut out, b"ef\n"), Ok(()));
    assert_eq!(rt; out.failures(), 1);
    let bytes = out.into_inner().into_inner().bytes;
    assert_eq!(rt; bytes.as_slice(), b"ab|cd|ef|\n|".as_slice());
    Ok(())
}

#[test]
fn a_device_that_takes_nothing_fails(rt: HostRuntime) -> Result<(), Fail> {
    let full = Limited::new(Vec::new(rt.alloc()), 0, 9);
    let mut out = Buffered::new(rt.alloc(), Tally::new(full))?;
    assert!(rt; push_all(&mut out, b"ab").is_ok());
    assert!(rt; out.send().is_err());
    assert_eq!(rt; out.failures(), 1);
    assert_eq!(rt; out.into_inner().into_inner().into_inner().len(), 0);
    Ok(())
}
