// Writes of several bytes; a single write may take only some of them.
ghost use Rattle.std.specs.{Prelude.{◌≡◌, ◌<◌, ◌≤◌, length, take}, Io.KnownBytes.Appends};
ghost use Rattle.grep_io.specs.{Counted.one_more, Written.Writes};

use crate::devices::counted::{CountedWrite, WriteFault};

/// Writes the bytes until all are written or a write fails, and returns how many were written.
pub fn push_most<W: CountedWrite>(out: &mut W, bytes: &[u8]) -> usize
    ensures within { result ≤ length bytes.now }
    ensures written { Appends (W.contents out.old) (W.contents out.new) (take result bytes.now) }
    ensures none_failed { result ≡ length bytes.now → W.failures out.new ≡ W.failures out.old }
    ensures one_failed { result < length bytes.now
        → W.failures out.new ≡ one_more (W.failures out.old) }
{
    let mut at = 0;
    while at < bytes.len() {
        let Some(count) = out.push(&bytes[at..]) else {
            return at;
        };
        at += count;
    }
    at
}

/// Writes all the bytes.
///
/// Returns `WriteFault` if a write fails. It is not tried again.
#[tactic(auto, using(crate::proofs::lemmas::WriteLemmas::pushing))]
pub fn push_all<W: CountedWrite>(out: &mut W, bytes: &[u8]) -> Result<(), WriteFault>
    ensures { Writes W.contents W.failures out.old out.new bytes.now result }
{
    if push_most(out, bytes) < bytes.len() {
        return Err(WriteFault);
    }
    Ok(())
}
