// Readers and writers that count their failures.
ghost use Rattle.std.specs.Prelude.{◌≡◌, ℕ, ◌<◌, ◌≤◌, List, [], Option, None, ⊤, length, IfSome};
ghost use Rattle.std.specs.Prelude.{IfOk};
ghost use Rattle.grep_io.specs.Counted.{PullConsumes, PushAppends, Counts, one_more, CalledOnce};
ghost use Rattle.grep_io.specs.{Counted.{ReadsOn, sent_or_not}, Written.Writes};

use crate::devices::device::{ReadDevice, WriteDevice};
use std::marker::Model;

/// A write failed. A beginning of the bytes was written.
#[derive(Clone, Copy, Debug, PartialEq, Eq)]
pub struct WriteFault;

/// A reader whose failed reads are counted, and not tried again.
pub trait CountedRead {
    /// The bytes that reads will give from here on, where they are known.
    ghost remaining: { Self → Option (List ℕ) } = { λ _. None };

    /// How many reads have failed.
    ghost failures: { Self → ℕ };

    /// What the device answered to each read, in order: any history of it that a caller keeps.
    ghost calls: { Self → List (Option ℕ) → Type 0 } = { λ _ _. ⊤ };

    /// Whether there may be another read: neither did one fail, nor did one find the end.
    ghost may_be_read: { Self → Type 0 } = { λ _. ⊤ };

    /// Which loan a reader that is a `&mut` is, by the name of its referent's value in proofs. All
    /// other readers have the same value. What takes a `&mut` and returns it can state with this
    /// that it is the same one.
    ghost loan: { Self → ℕ } = { λ _. 0 };

    /// One read into a slice that is not empty. `Some(0)` says that no byte is left, `None` that
    /// the read failed; after neither of them is another asked for.
    fn pull(&mut self, into: &mut [u8]) -> Option<usize>
        requires some { 0 < length into.old }
        requires open { may_be_read self.old }
        ensures bound { IfSome result (λ n. n ≤ length into.new) }
        ensures bytes { PullConsumes (remaining self.old) (remaining self.new) result into.new }
        ensures counted { Counts (failures self.old) (failures self.new) result }
        ensures called { CalledOnce calls self.old self.new result }
        ensures open { ReadsOn may_be_read self.new result }
        ensures same_loan { loan self.new ≡ loan self.old };

    /// How many reads have failed. The count stays at the greatest `u64`.
    fn failures(&self) -> u64
        ensures { result ≡ failures self.now };
}

/// A writer whose failed writes are counted, and not tried again.
pub trait CountedWrite {
    /// The bytes that the writer holds, where they are known.
    ghost contents: { Self → Option (List ℕ) } = { λ _. None };

    /// How many writes have failed.
    ghost failures: { Self → ℕ };

    /// How many of the bytes are buffered and not yet sent to the device.
    ghost waiting: { Self → ℕ } = { λ _. 0 };

    /// What the device answered to each call, in order, 0 where it sent what it had buffered: any
    /// history of it that a caller keeps, where each call of the writer is one of the device.
    ghost calls: { Self → List (Option ℕ) → Type 0 } = { λ _ _. ⊤ };

    /// One write of at least one byte. It takes at least one of them, in order from the first, and
    /// says how many; `None` says that it failed and took none.
    fn push(&mut self, from: &[u8]) -> Option<usize>
        requires { 0 < length from.now }
        ensures some_taken { IfSome result (λ n. 0 < n) }
        ensures bound { IfSome result (λ n. n ≤ length from.now) }
        ensures bytes { PushAppends (contents self.old) (contents self.new) result from.now }
        ensures counted { Counts (failures self.old) (failures self.new) result }
        ensures called { CalledOnce calls self.old self.new result };

    /// Sends the buffered bytes to the device.
    ///
    /// Returns `WriteFault` if a write fails. What was not sent keeps waiting.
    fn flush(&mut self) -> Result<(), WriteFault>
        ensures kept { Writes contents failures self.old self.new [] result }
        ensures sent { IfOk result (λ _. waiting self.new ≡ 0) }
        ensures called { CalledOnce calls self.old self.new (sent_or_not result) };

    /// How many writes have failed. The count stays at the greatest `u64`.
    fn failures(&self) -> u64
        ensures { result ≡ failures self.now };
}

impl<R: CountedRead> CountedRead for &mut R {
    ghost remaining = { λ r. R.remaining r.now };

    ghost failures = { λ r. R.failures r.now };

    ghost calls = { λ r. R.calls r.now };

    ghost may_be_read = { λ r. R.may_be_read r.now };

    ghost loan = { λ r. r.ghost_name };

    fn pull(&mut self, into: &mut [u8]) -> Option<usize> {
        CountedRead::pull(&mut **self, into)
    }

    fn failures(&self) -> u64 {
        CountedRead::failures(&**self)
    }
}

impl<W: CountedWrite> CountedWrite for &mut W {
    ghost contents = { λ w. W.contents w.now };

    ghost failures = { λ w. W.failures w.now };

    ghost waiting = { λ w. W.waiting w.now };

    ghost calls = { λ w. W.calls w.now };

    fn push(&mut self, from: &[u8]) -> Option<usize> {
        CountedWrite::push(&mut **self, from)
    }

    fn flush(&mut self) -> Result<(), WriteFault> {
        CountedWrite::flush(&mut **self)
    }

    fn failures(&self) -> u64 {
        CountedWrite::failures(&**self)
    }
}

/// A device with a count of its failures; any reader or writer of std is one. Contracts see it as
/// the device and the count.
#[derive(Drop)]
pub struct Tally<T> {
    device: T,
    failed: u64,
}

impl<T> Model for Tally<T> {
    ghost use Rattle.grep_io.specs.Counted.{Tallied};

    ghost Value = { Tallied T };

    ghost view = { λ t. record { device = t.device; failed = t.failed } };
}

impl<T> Tally<T> {
    /// The device, before any failure.
    pub fn new(device: T) -> Tally<T>
        ensures { result ≡ record { device = device; failed = 0 } }
    {
        Tally { device, failed: 0 }
    }

    /// The device without the count.
    pub fn into_inner(self) -> T
        ensures { result ≡ self.device }
    {
        let Tally { device, failed: _ } = self;
        device
    }
}

// One more, unless the count is the greatest `u64`.
fn one_more(count: u64) -> u64
    ensures { result ≡ one_more count }
{
    count.saturating_add(1)
}

impl<T: ReadDevice> CountedRead for Tally<T> {
    ghost remaining = { λ t. T.remaining t.device };

    ghost failures = { λ t. t.failed };

    ghost calls = { λ t. T.calls t.device };

    ghost may_be_read = { λ t. T.may_be_read t.device };

    fn pull(&mut self, into: &mut [u8]) -> Option<usize> {
        let given = self.device.read_once(into);
        if given.is_none() {
            self.failed = one_more(self.failed);
        }
        given
    }

    fn failures(&self) -> u64 {
        self.failed
    }
}

impl<T: WriteDevice> CountedWrite for Tally<T> {
    ghost contents = { λ t. T.contents t.device };

    ghost failures = { λ t. t.failed };

    ghost calls = { λ t. T.calls t.device };

    fn push(&mut self, from: &[u8]) -> Option<usize> {
        let taken = self.device.write_once(from);
        if taken.is_none() {
            self.failed = one_more(self.failed);
        }
        taken
    }

    fn flush(&mut self) -> Result<(), WriteFault> {
        let sent = self.device.flush_once();
        if sent.is_err() {
            self.failed = one_more(self.failed);
        }
        sent
    }

    fn failures(&self) -> u64 {
        self.failed
    }
}
