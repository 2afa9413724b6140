// Bytes that are added to a buffer and sent to the writer beneath, and where rows end.
ghost use Rattle.std.specs.Prelude.{◌≡◌, ◌+◌, ◌≤◌, ◌++◌, MatchOption, MatchResult, drop, length};
ghost use Rattle.std.specs.Prelude.{vec_len, vec_capacity};
ghost use Rattle.{re_trees.specs.Lines.HasNoNewline, grep_io.specs.Buffer.SendsSome};
ghost use Rattle.grep_io.specs.Working.Sent.{EndsRows, SendsFront};

use crate::devices::counted::{CountedWrite, WriteFault};
use crate::devices::push::push_most;
use memchr::memrchr;

/// How many bytes there are up to and with the last newline.
#[tactic(auto, using(crate::proofs::lemmas::SentLemmas::ending))]
pub fn rows_end(bytes: &[u8]) -> Option<usize>
    ensures { MatchOption result (HasNoNewline bytes.now) (EndsRows bytes.now) }
{
    let Some(last) = memrchr(b'\n', bytes) else {
        return None;
    };
    Some(last + 1)
}

/// Appends bytes to a buffer that has room for them.
#[inline]
pub fn collect_text(buffer: &mut Vec<u8>, bytes: &[u8])
    requires { vec_len buffer.old + length bytes.now ≤ vec_capacity buffer.old }
    ensures items { buffer.new.items ≡ buffer.old.items ++ bytes.now }
    ensures capacity { vec_capacity buffer.old ≤ vec_capacity buffer.new }
{
    match buffer.extend_from_slice(bytes) {
        Ok(()) => {}
        Err(_) => unreachable!(),
    }
}

/// Removes the first bytes of a buffer.
#[inline]
pub fn take_off(buffer: &mut Vec<u8>, count: usize)
    requires { count ≤ vec_len buffer.old }
    ensures items { buffer.new.items ≡ drop count buffer.old.items }
    ensures capacity { vec_capacity buffer.old ≤ vec_capacity buffer.new }
{
    let left = buffer.len() - count;
    buffer.copy_within(count.., 0);
    buffer.truncate(left);
}

/// Sends the first `end` bytes of a buffer, and removes what was sent from it.
///
/// Returns `WriteFault` if a write fails. What it did not take stays in the buffer.
pub fn send_front<W: CountedWrite>(
    out: &mut W,
    buffer: &mut Vec<u8>,
    end: usize,
) -> Result<(), WriteFault>
    requires { end ≤ vec_len buffer.old }
    ensures sent { MatchResult result
        (λ _. SendsFront W.contents W.failures end
        (record { inner = out.old; waiting = buffer.old.items })
        (record { inner = out.new; waiting = buffer.new.items }))
        (λ _. SendsSome W.contents W.failures
        (record { inner = out.old; waiting = buffer.old.items })
        (record { inner = out.new; waiting = buffer.new.items })) }
    ensures fewer { vec_len buffer.new ≤ vec_len buffer.old }
    ensures capacity { vec_capacity buffer.old ≤ vec_capacity buffer.new }
{
    let sent = push_most(out, &buffer[..end]);
    take_off(buffer, sent);
    if sent < end {
        return Err(WriteFault);
    }
    Ok(())
}
