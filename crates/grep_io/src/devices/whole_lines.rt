// A writer that hands lines whole to the device.
ghost use Rattle.std.specs.Prelude.{◌≡◌, ◌+◌, ◌<◌, ◌≤◌, [], IfSome, IfOk, OnErr, length, take};
ghost use Rattle.std.specs.{Prelude.{vec_len, vec_capacity}, Io.KnownBytes.{Appends, Keeps}};
ghost use Rattle.{re_trees.specs.Lines.HasNoNewline, grep_io.specs.Buffer.{Sends, all_contents}};
ghost use Rattle.grep_io.specs.{Working.Sent.SendsLine, Counted.{PushAppends, Counts, one_more}};

use crate::devices::byte_buffer::{collect_text, rows_end, send_front, take_off};
use crate::devices::counted::{CountedWrite, WriteFault};
use std::alloc::{AllocError, Global};
use std::marker::Model;

// The most bytes that are buffered.
const ROOM: usize = 4_096;

/// A writer that buffers bytes until a newline is added, and then hands all of them to the inner
/// writer in one write, so that lines that several programs write to one terminal or append to one
/// file aren't mixed. A line that is longer than 4,096 bytes is sent in pieces. If a write takes
/// only some of the bytes, further writes send the rest.
/// A failed write of the inner writer ends the call that made it, and is not tried again in that
/// call. None of the bytes that the call was given waits then.
/// Contracts see it as the inner writer and the bytes that wait, among which there never is a
/// newline. Bytes that still wait when it is dropped are lost: call `flush` first.
#[derive(Drop)]
pub struct WholeLines<W> {
    inner: W,
    // The bytes that wait.
    buffer: Vec<u8>,
}

impl<W> Model for WholeLines<W> {
    ghost use Rattle.std.specs.Prelude.{◌≤◌, vec_len, vec_capacity};
    ghost use Rattle.re_trees.specs.Lines.{HasNoNewline};
    ghost use Rattle.grep_io.specs.Buffer.{BufferedWriter};

    ghost Value = { BufferedWriter W };

    ghost view = { λ a. record { inner = a.inner; waiting = a.buffer.items } };

    ghost invariant = { λ a. (vec_len a.buffer ≤ 4096) × (4096 ≤ vec_capacity a.buffer) ×
        HasNoNewline a.buffer.items };
}

impl<W> WholeLines<W> {
    /// Nothing waits. If an allocation fails, the inner writer is dropped.
    pub fn new(alloc: Global, inner: W) -> Result<WholeLines<W>, AllocError>
    where
        W: Drop,
        ensures { IfOk result (λ out. out ≡ record { inner = inner; waiting = [] }) }
    {
        let buffer = Vec::with_capacity(alloc, ROOM)?;
        Ok(WholeLines { inner, buffer })
    }

    /// The inner writer, without the bytes that wait.
    pub fn into_inner(self) -> W
        ensures { result ≡ self.inner }
    {
        let WholeLines { inner, buffer: _ } = self;
        inner
    }
}

#[tactic(auto, using(crate::proofs::lemmas::BufferLemmas::moving))]
impl<W: CountedWrite> WholeLines<W> {
    // Sends all bytes that wait to the inner writer.
    fn send(&mut self) -> Result<(), WriteFault>
        ensures sent { Sends W.contents W.failures self.old self.new result }
        ensures no_line_waits { HasNoNewline self.new.waiting }
    {
        let all = self.buffer.len();
        send_front(&mut self.inner, &mut self.buffer, all)
    }

    // Sends all bytes that wait, where there is no room for another.
    fn make_room(&mut self) -> Result<(), WriteFault>
        ensures kept { Keeps (all_contents W.contents self.old) (all_contents W.contents self.new) }
        ensures room { IfOk result (λ _. length self.new.waiting < 4096) }
        ensures none_failed { IfOk result
            (λ _. W.failures self.new.inner ≡ W.failures self.old.inner) }
        ensures one_failed { OnErr result
            (W.failures self.new.inner ≡ one_more (W.failures self.old.inner)) }
        ensures no_line_waits { HasNoNewline self.new.waiting }
    {
        if self.buffer.len() < ROOM {
            return Ok(());
        }
        self.send()
    }
}

// Writes the bytes until more than `few` of them are written or a write fails, and returns how many
// were written.
fn push_past<W: CountedWrite>(out: &mut W, bytes: &[u8], few: usize) -> usize
    requires { few < length bytes.now }
    ensures within { result ≤ length bytes.now }
    ensures written { Appends (W.contents out.old) (W.contents out.new) (take result bytes.now) }
    ensures none_failed { few < result → W.failures out.new ≡ W.failures out.old }
    ensures one_failed { result ≤ few → W.failures out.new ≡ one_more (W.failures out.old) }
{
    let mut at = 0;
    while at <= few {
        let Some(count) = out.push(&bytes[at..]) else {
            return at;
        };
        at += count;
    }
    at
}

// Sends what waits and then a line, and returns how many bytes of the line were sent. If a write
// fails before any of them was sent, none of them waits.
fn push_line<W: CountedWrite>(out: &mut W, buffer: &mut Vec<u8>, line: &[u8]) -> Option<usize>
    requires some { 0 < length line.now }
    requires room { vec_len buffer.old + length line.now ≤ vec_capacity buffer.old }
    ensures sent { SendsLine W.contents W.failures
        (record { inner = out.old; waiting = buffer.old.items })
        (record { inner = out.new; waiting = buffer.new.items }) line.now result }
    ensures fewer { vec_len buffer.new ≤ vec_len buffer.old }
    ensures capacity { vec_capacity buffer.old ≤ vec_capacity buffer.new }
{
    let held = buffer.len();
    collect_text(buffer, line);
    let sent = push_past(out, buffer, held);
    if sent <= held {
        buffer.truncate(held);
        take_off(buffer, sent);
        return None;
    }
    buffer.clear();
    Some(sent - held)
}

#[tactic(auto, using(crate::proofs::lemmas::LineSentLemmas::no_newline_in_both))]
impl<W: CountedWrite> CountedWrite for WholeLines<W> {
    ghost contents = { all_contents W.contents };

    ghost failures = { λ out. W.failures out.inner };

    ghost waiting = { λ out. length out.waiting + W.waiting out.inner };

    fn push(&mut self, from: &[u8]) -> Option<usize>
        requires { 0 < length from.now }
        ensures some_taken { IfSome result (λ n. 0 < n) }
        ensures bound { IfSome result (λ n. n ≤ length from.now) }
        ensures bytes { PushAppends (all_contents W.contents self.old)
            (all_contents W.contents self.new) result from.now }
        ensures counted { Counts (W.failures self.old.inner) (W.failures self.new.inner) result }
        ensures no_line_waits { HasNoNewline self.new.waiting }
    {
        if self.make_room().is_err() {
            return None;
        }
        let most = from.len().min(ROOM - self.buffer.len());
        let Some(end) = rows_end(&from[..most]) else {
            collect_text(&mut self.buffer, &from[..most]);
            return Some(most);
        };
        push_line(&mut self.inner, &mut self.buffer, &from[..end])
    }

    fn flush(&mut self) -> Result<(), WriteFault> {
        match self.send() {
            Ok(()) => self.inner.flush(),
            Err(fault) => Err(fault),
        }
    }

    fn failures(&self) -> u64 {
        self.inner.failures()
    }
}
