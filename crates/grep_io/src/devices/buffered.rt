// A writer that buffers bytes before it sends them to the device.
ghost use Rattle.std.specs.{Prelude.{◌≡◌, ◌+◌, ◌<◌, [], IfOk, OnErr, length}, Io.KnownBytes.Keeps};
ghost use Rattle.grep_io.specs.{Counted.one_more, Buffer.{Sends, all_contents}};
ghost use Rattle.grep_io.specs.Working.Sent.{SendsRows};

use crate::devices::byte_buffer::{collect_text, rows_end, send_front};
use crate::devices::counted::{CountedWrite, WriteFault};
use std::alloc::{AllocError, Global};
use std::marker::Model;

// The most bytes that are buffered.
const ROOM: usize = 65_536;

/// A writer that buffers up to 65,536 bytes before it sends them to the inner writer. A full buffer
/// sends the rows that are whole, so that no row that fits is split between two sends; if no
/// newline waits, it sends all. A failed write of the inner writer ends the call that made it, and
/// is not tried again in that call.
/// Contracts see it as the inner writer and the bytes that wait. Bytes that still wait when it is
/// dropped are lost: call `send` or `flush` first.
#[derive(Drop)]
pub struct Buffered<W> {
    inner: W,
    // The bytes that wait.
    buffer: Vec<u8>,
}

impl<W> Model for Buffered<W> {
    ghost use Rattle.std.specs.Prelude.{◌≤◌, vec_len, vec_capacity};
    ghost use Rattle.grep_io.specs.Buffer.{BufferedWriter};

    ghost Value = { BufferedWriter W };

    ghost view = { λ a. record { inner = a.inner; waiting = a.buffer.items } };

    ghost invariant = { λ a. (vec_len a.buffer ≤ 65536) × (65536 ≤ vec_capacity a.buffer) };
}

impl<W> Buffered<W> {
    /// Nothing waits. If an allocation fails, the inner writer is dropped.
    pub fn new(alloc: Global, inner: W) -> Result<Buffered<W>, AllocError>
    where
        W: Drop,
        ensures { IfOk result (λ out. out ≡ record { inner = inner; waiting = [] }) }
    {
        let buffer = Vec::with_capacity(alloc, ROOM)?;
        Ok(Buffered { inner, buffer })
    }

    /// The inner writer, without the bytes that wait.
    pub fn into_inner(self) -> W
        ensures { result ≡ self.inner }
    {
        let Buffered { inner, buffer: _ } = self;
        inner
    }
}

#[tactic(auto, using(crate::proofs::lemmas::BufferLemmas::moving))]
impl<W: CountedWrite> Buffered<W> {
    /// Sends all bytes that wait to the inner writer.
    ///
    /// Returns `WriteFault` if a write of the inner writer fails. What it did not take keeps
    /// waiting.
    pub fn send(&mut self) -> Result<(), WriteFault>
        ensures { Sends W.contents W.failures self.old self.new result }
    {
        let all = self.buffer.len();
        send_front(&mut self.inner, &mut self.buffer, all)
    }

    // Sends the rows that wait whole, or all bytes that wait where no row is whole.
    #[inline(never)]
    fn send_rows(&mut self) -> Result<(), WriteFault>
        ensures sent { SendsRows W.contents W.failures self.old self.new result }
        ensures room { IfOk result (λ _. 0 < length self.old.waiting
            → length self.new.waiting < length self.old.waiting) }
    {
        let Some(end) = rows_end(&self.buffer) else {
            let all = self.buffer.len();
            return send_front(&mut self.inner, &mut self.buffer, all);
        };
        send_front(&mut self.inner, &mut self.buffer, end)
    }

    // Sends the rows that wait whole, where there is no room for another byte.
    #[inline]
    fn make_room(&mut self) -> Result<(), WriteFault>
        ensures kept { Keeps (all_contents W.contents self.old) (all_contents W.contents self.new) }
        ensures room { IfOk result (λ _. length self.new.waiting < 65536) }
        ensures none_failed { IfOk result
            (λ _. W.failures self.new.inner ≡ W.failures self.old.inner) }
        ensures one_failed { OnErr result
            (W.failures self.new.inner ≡ one_more (W.failures self.old.inner)) }
    {
        if self.buffer.len() < ROOM {
            return Ok(());
        }
        self.send_rows()
    }
}

#[tactic(auto, using(crate::proofs::lemmas::BufferLemmas::moving))]
impl<W: CountedWrite> CountedWrite for Buffered<W> {
    ghost contents = { all_contents W.contents };

    ghost failures = { λ out. W.failures out.inner };

    ghost waiting = { λ out. length out.waiting + W.waiting out.inner };

    fn push(&mut self, from: &[u8]) -> Option<usize> {
        if self.make_room().is_err() {
            return None;
        }
        let count = from.len().min(ROOM - self.buffer.len());
        collect_text(&mut self.buffer, &from[..count]);
        Some(count)
    }

    fn flush(&mut self) -> Result<(), WriteFault> {
        match self.send() {
            Ok(()) => self.inner.flush(),
            Err(fault) => Err(fault),
        }
    }

    fn failures(&self) -> u64 {
        self.inner.failures()
    }
}
