//! Devices: what is read and written, a call at a time.
ghost use Rattle.std.specs.Prelude.{◌≡◌, ℕ, ◌<◌, ◌≤◌, List, Option, None, ⊤, length, IfSome, OnErr};
ghost use Rattle.std.specs.{Prelude.IfOk, Io.KnownBytes.Keeps};
ghost use Rattle.grep_io.specs.Counted.{PullConsumes, PushAppends, CalledOnce, ReadsOn};
ghost use Rattle.grep_io.specs.Counted.{sent_or_not};

use crate::devices::counted::WriteFault;
use std::io::{Read, Write};

/// What is read, a call at a time. Each reader of std is one.
pub trait ReadDevice {
    /// The bytes that reads will give from here on, where they are known.
    ghost remaining: { Self → Option (List ℕ) } = { λ _. None };

    /// What it answered to each read, in order: any history of it that a caller keeps.
    ghost calls: { Self → List (Option ℕ) → Type 0 } = { λ _ _. ⊤ };

    /// Whether there may be another read: neither did one fail, nor did one find the end.
    ghost may_be_read: { Self → Type 0 } = { λ _. ⊤ };

    /// One read into a slice that is not empty. `Some(0)` says that no byte is left, `None` that
    /// the read failed.
    fn read_once(&mut self, into: &mut [u8]) -> Option<usize>
        requires some { 0 < length into.old }
        requires open { may_be_read self.old }
        ensures bound { IfSome result (λ n. n ≤ length into.new) }
        ensures bytes { PullConsumes (remaining self.old) (remaining self.new) result into.new }
        ensures called { CalledOnce calls self.old self.new result }
        ensures open { ReadsOn may_be_read self.new result };
}

/// What is written to, a call at a time. Each writer of std is one.
pub trait WriteDevice {
    /// The bytes that it holds, where they are known.
    ghost contents: { Self → Option (List ℕ) } = { λ _. None };

    /// What it answered to each call, in order, 0 where it sent what it had buffered: any history of
    /// it that a caller keeps.
    ghost calls: { Self → List (Option ℕ) → Type 0 } = { λ _ _. ⊤ };

    /// One write of at least one byte. It takes at least one of them, in order from the first, and
    /// says how many; `None` says that it failed and took none.
    fn write_once(&mut self, from: &[u8]) -> Option<usize>
        requires { 0 < length from.now }
        ensures some_taken { IfSome result (λ n. 0 < n) }
        ensures bound { IfSome result (λ n. n ≤ length from.now) }
        ensures bytes { PushAppends (contents self.old) (contents self.new) result from.now }
        ensures called { CalledOnce calls self.old self.new result };

    /// Sends what it has buffered.
    ///
    /// Returns `WriteFault` if a write fails.
    fn flush_once(&mut self) -> Result<(), WriteFault>
        ensures kept { Keeps (contents self.old) (contents self.new) }
        ensures called { CalledOnce calls self.old self.new (sent_or_not result) };
}

impl<T: Read> ReadDevice for T {
    ghost remaining = { T.remaining };

    fn read_once(&mut self, into: &mut [u8]) -> Option<usize> {
        self.read(into).ok()
    }
}

/// A write that takes none of the bytes that it was given is a failure.
impl<T: Write> WriteDevice for T {
    ghost contents = { T.contents };

    fn write_once(&mut self, from: &[u8]) -> Option<usize> {
        self.write(from).ok().filter(|taken| *taken > 0)
    }

    fn flush_once(&mut self) -> Result<(), WriteFault> {
        self.flush().map_err(|_| WriteFault)
    }
}
