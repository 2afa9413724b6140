// A reader or a writer that moves only a limited number of bytes, for tests.
ghost use Rattle.std.specs.Prelude.{◌≡◌, ◌<◌, ◌≤◌, length, take, IfOk, IsErr, OnErr};
ghost use Rattle.std.specs.Io.KnownBytes.{IsAtEnd, ReadConsumes, WriteAppends, Keeps, Consumes};
ghost use Rattle.std.specs.Io.{WritesAtMost, ReadsAtMost};
ghost use Rattle.grep_io.specs.Working.Limited.{limited, MovesFew};

use std::io::{Error, ErrorKind, Read, Result, Write};

/// A device that gives or takes at most `step` bytes a call, which may be 0. Each call fails once
/// `left` bytes were moved. The contracts leave open which calls fail before that: those are the
/// calls in which the device beneath fails.
#[derive(Drop)]
pub struct Limited<T> {
    /// The device beneath.
    pub inner: T,
    /// The most bytes that one call moves.
    pub step: usize,
    /// How many bytes may still be moved.
    pub left: usize,
}

impl<T> Limited<T> {
    /// The device with these limits.
    pub fn new(inner: T, step: usize, left: usize) -> Limited<T>
        ensures inner { result.inner ≡ inner }
        ensures step { result.step ≡ step }
        ensures left { result.left ≡ left }
    {
        Limited { inner, step, left }
    }

    /// The device beneath.
    pub fn into_inner(self) -> T
        ensures { result ≡ self.inner }
    {
        let Limited {
            inner,
            step: _,
            left: _,
        } = self;
        inner
    }
}

impl<T: Read> Read for Limited<T> {
    ghost remaining = { λ l. limited l.step l.left (T.remaining l.inner) };

    fn read(&mut self, buf: &mut [u8]) -> Result<usize>
        ensures bound { ReadsAtMost result buf.new }
        ensures bytes { ReadConsumes
            (limited self.old.step self.old.left (T.remaining self.old.inner))
            (limited self.new.step self.new.left (T.remaining self.new.inner)) result buf.new }
        ensures few { MovesFew self.old.step self.old.left self.new.left result }
        ensures step { self.new.step ≡ self.old.step }
        ensures over { self.old.left ≡ 0 → IsErr result }
    {
        if self.left == 0 {
            return Err(Error::from(ErrorKind::Other));
        }
        let most = self.step.min(self.left);
        let count = read_at_most(&mut self.inner, buf, most)?;
        self.left -= count;
        Ok(count)
    }
}

// One read of at most `most` bytes.
fn read_at_most<T: Read>(from: &mut T, buf: &mut [u8], most: usize) -> Result<usize>
    ensures bound { IfOk result (λ n. (n ≤ most) × (n ≤ length buf.new)) }
    ensures ok { IfOk result
        (λ n. Consumes (T.remaining from.old) (T.remaining from.new) (take n buf.new)) }
    ensures end { IfOk result
        (λ n. n ≡ 0 → 0 < length buf.new → 0 < most → IsAtEnd (T.remaining from.new)) }
    ensures err { OnErr result (Keeps (T.remaining from.old) (T.remaining from.new)) }
{
    let most = buf.len().min(most);
    from.read(&mut buf[..most])
}

impl<T: Write> Write for Limited<T> {
    ghost contents = { λ l. T.contents l.inner };

    fn write(&mut self, buf: &[u8]) -> Result<usize>
        ensures bound { WritesAtMost result buf.now }
        ensures bytes { WriteAppends (T.contents self.old.inner) (T.contents self.new.inner) result
            buf.now }
        ensures few { MovesFew self.old.step self.old.left self.new.left result }
        ensures step { self.new.step ≡ self.old.step }
        ensures over { self.old.left ≡ 0 → IsErr result }
    {
        if self.left == 0 {
            return Err(Error::from(ErrorKind::Other));
        }
        let most = buf.len().min(self.step).min(self.left);
        let count = self.inner.write(&buf[..most])?;
        self.left -= count;
        Ok(count)
    }

    fn flush(&mut self) -> Result<()> {
        self.inner.flush()
    }
}
