// How many newlines there are.
ghost use Rattle.std.specs.Prelude.{◌≡◌, ◌+◌, ◌*◌, ◌<◌, ◌≤◌, ◌==◌, if◌then◌else◌, length, map};
ghost use Rattle.std.specs.Prelude.{take, drop};
ghost use Rattle.memchr.specs.Find.{is_byte, places, places_between};
ghost use Rattle.re_trees.specs.Lines.{newline};

use std::simd::prelude::*;

// How many vectors of 64 bytes are counted at a time: the count of a lane is a byte too.
const VECTORS: usize = 255;

/// How many newlines the bytes have. The count of `memchr` takes four times as long: it adds words
/// where this adds bytes.
pub fn count_newlines(bytes: &[u8]) -> u64
    ensures { result ≡ length (places (is_byte newline) bytes.now) }
{
    let mut count: u64 = 0;
    let mut start = 0;
    'portions: while 64 <= bytes.len() - start {
        let vectors = VECTORS.min((bytes.len() - start) / 64);
        count += newlines_in_vectors(bytes, start, vectors) as u64;
        start += 64 * vectors;
    }
    count + newlines_between(bytes, start, bytes.len()) as u64
}

// How many there are in so many vectors of 64 bytes from a place on.
#[inline(always)]
fn newlines_in_vectors(bytes: &[u8], from: usize, vectors: usize) -> u16
    requires within { from + 64 * vectors ≤ length bytes.now }
    requires few { vectors ≤ 255 }
    ensures { result ≡ length (places_between (is_byte newline) bytes.now from
        (from + 64 * vectors)) }
{
    let mut counts = u8x64::splat(0);
    'vectors: for place in 0..vectors {
        counts = counts.strict_add(newlines_at(bytes, from + 64 * place));
    }
    counts.cast::<u16>().strict_reduce_sum()
}

// 1 for each of the next 64 bytes that is a newline, and else 0.
#[inline(always)]
fn newlines_at(bytes: &[u8], from: usize) -> u8x64
    requires { from + 64 ≤ length bytes.now }
    ensures { result ≡ map (λ x. if x == newline then 1 else 0) (take 64 (drop from bytes.now)) }
{
    u8x64::from_slice(&bytes[from..])
        .simd_eq(u8x64::splat(b'\n'))
        .select(u8x64::splat(1), u8x64::splat(0))
}

// How many there are between two places that are not far apart.
#[inline(always)]
fn newlines_between(bytes: &[u8], from: usize, to: usize) -> u8
    requires ordered { from ≤ to }
    requires within { to ≤ length bytes.now }
    requires few { to ≤ from + 255 }
    ensures { result ≡ length (places_between (is_byte newline) bytes.now from to) }
{
    let mut count: u8 = 0;
    'places: for place in from..to {
        if bytes[place] == b'\n' {
            count += 1;
        }
    }
    count
}
