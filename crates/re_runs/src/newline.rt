//! The first newline of some bytes, and the last one before a place. Where lines are short, vectors of
//! 32 bytes are quicker than a call of `memchr`.
ghost use Rattle.std.specs.Prelude.{◌≡◌, ◌+◌, ◌<◌, ◌≤◌, ◌∷◌, ◌++◌, IfSome, MatchOption};
ghost use Rattle.std.specs.{Prelude.{length, take, drop}};
ghost use Rattle.memchr.specs.Find.{IsFirstByte, IsLast, IsLastByte, Passes, is_byte};
ghost use Rattle.re_trees.specs.Lines.{newline, HasNoNewline};

use crate::lanes::{bits_below, highest, lowest, marks_of};
use memchr::{memchr, memrchr};

// How many bytes are compared at once.
const LANES: usize = 32;

/// The place of the first newline.
#[inline(always)]
pub fn first_newline(bytes: &[u8]) -> Option<usize>
    ensures none { MatchOption result (HasNoNewline bytes.now)
        (λ k. HasNoNewline (take k bytes.now)) }
    ensures some { IfSome result (λ k. (k < length bytes.now)
        × (bytes.now ≡ take k bytes.now ++ newline ∷ drop (k + 1) bytes.now)) }
{
    first_byte(b'\n', bytes)
}

/// The place of the last newline before a place.
#[inline(always)]
pub fn last_newline(bytes: &[u8], before: usize) -> Option<usize>
    requires { before ≤ length bytes.now }
    ensures { MatchOption result (HasNoNewline (take before bytes.now))
        (λ k. (k < length (take before bytes.now))
        × (take before bytes.now ≡ take k (take before bytes.now) ++ newline ∷
        drop (k + 1) (take before bytes.now))
        × HasNoNewline (drop (k + 1) (take before bytes.now))) }
{
    last_byte(b'\n', bytes, before)
}

// The first place of the byte.
#[inline(always)]
fn first_byte(byte: u8, bytes: &[u8]) -> Option<usize>
    ensures { IsFirstByte (is_byte byte) bytes.now result }
{
    let mut start = 0;
    'vectors: while LANES <= bytes.len() - start {
        let marks = marks_of(byte, bytes, start);
        if marks != 0 {
            return Some(start + lowest(marks));
        }
        start += LANES;
    }
    let Some(place) = memchr(byte, &bytes[start..]) else {
        return None;
    };
    Some(start + place)
}

// The last place of the byte before a place.
#[inline(always)]
fn last_byte(byte: u8, bytes: &[u8], before: usize) -> Option<usize>
    requires { before ≤ length bytes.now }
    ensures { IsLastByte (is_byte byte) (take before bytes.now) result }
{
    let mut end = before;
    'vectors: while LANES <= end {
        if let Some(place) = last_of(byte, bytes, end - LANES, LANES) {
            return Some(place);
        }
        end -= LANES;
    }
    if bytes.len() < LANES {
        return memrchr(byte, &bytes[..end]);
    }
    last_of(byte, bytes, 0, end)
}

// The last place of the byte among `count` bytes from a place on, 32 at most. There are as many.
#[inline(always)]
fn last_of(byte: u8, bytes: &[u8], from: usize, count: usize) -> Option<usize>
    requires room { from + 32 ≤ length bytes.now }
    requires few { count ≤ 32 }
    ensures { IsLast (Passes (is_byte byte) bytes.now) from (from + count) result }
{
    let marks = bits_below(marks_of(byte, bytes, from), count);
    if marks == 0 {
        return None;
    }
    Some(from + highest(marks))
}
