//! Vectors of 32 bytes. What each lane holds is in the contracts.
ghost use Rattle.std.specs.Prelude.{◌≡◌, ◌≢◌, ◌==◌, if◌then◌else◌, ◌↔◌, ◌+◌, ◌/◌, ◌%◌, ◌<◌, ◌≤◌, ℕ};
ghost use Rattle.std.specs.{Prelude.{length, slice_index, bit_and, min}, Int.bit_at};
ghost use Rattle.memchr.specs.{Lanes.{HasLanes, Marks}, Find.{Passes, is_byte}};

use std::simd::prelude::*;

/// The bytes of the line from a place on.
#[inline(always)]
pub fn load(line: &[u8], i: usize) -> u8x32
    requires { i + 32 ≤ length line.now }
    ensures { HasLanes result (λ k. slice_index line.now (i + k)) }
{
    u8x32::from_slice(&line[i..])
}

/// What the table has for the low four bits of each byte.
#[inline(always)]
pub fn by_low(table: &[u8; 16], v: u8x32) -> u8x32
    ensures { HasLanes result (λ k. slice_index table.now (slice_index v k % 16)) }
{
    twice(table).swizzle_dyn_within::<16>(v & u8x32::splat(15))
}

/// What the table has for the high four bits of each byte.
#[inline(always)]
pub fn by_high(table: &[u8; 16], v: u8x32) -> u8x32
    ensures { HasLanes result (λ k. slice_index table.now (slice_index v k / 16)) }
{
    twice(table).swizzle_dyn_within::<16>(v >> u8x32::splat(4))
}

// The table in both halves of the vector, each of which is looked up by itself.
#[inline(always)]
fn twice(table: &[u8; 16]) -> u8x32
    ensures { HasLanes result (λ k. slice_index table.now (k % 16)) }
{
    u8x16::from_slice(table).swizzle([
        0, 1, 2, 3, 4, 5, 6, 7, 8, 9, 10, 11, 12, 13, 14, 15, 0, 1, 2, 3, 4, 5, 6, 7, 8, 9, 10, 11,
        12, 13, 14, 15,
    ])
}

/// 255 for each byte whose asked bits have these values, and else 0.
#[inline(always)]
pub fn with_bits(v: u8x32, asked: u8, bits: u8) -> u8x32
    ensures { HasLanes result (λ k. if bit_and (slice_index v k) asked == bits then 255 else 0) }
{
    both(v, u8x32::splat(asked))
        .simd_eq(u8x32::splat(bits))
        .select(u8x32::splat(255), u8x32::splat(0))
}

/// The bits that both have.
#[inline(always)]
pub fn both(a: u8x32, b: u8x32) -> u8x32
    ensures { HasLanes result (λ k. bit_and (slice_index a k) (slice_index b k)) }
{
    a & b
}

/// The lesser of each two bytes, which is 0 where one of them is.
#[inline(always)]
pub fn lesser(a: u8x32, b: u8x32) -> u8x32
    ensures { HasLanes result (λ k. min (slice_index a k) (slice_index b k)) }
{
    a.simd_min(b)
}

/// A bit for each byte that is not 0.
#[inline(always)]
pub fn nonzero(v: u8x32) -> u64
    ensures { (k : ℕ) → (bit_at result k ≡ 1) ↔ (slice_index v k ≢ 0) }
{
    v.simd_ne(u8x32::splat(0)).to_bitmask()
}

/// The lowest bit that is set.
#[inline(always)]
pub fn lowest(marks: u64) -> usize
    requires { marks ≢ 0 }
    ensures bound { result < 64 }
    ensures set { bit_at marks result ≡ 1 }
    ensures below { (k : ℕ) → k < result → bit_at marks k ≡ 0 }
{
    marks.trailing_zeros() as usize
}

/// The marks without that bit.
#[inline(always)]
pub fn without(marks: u64, bit: usize) -> u64
    requires bound { bit < 64 }
    requires set { bit_at marks bit ≡ 1 }
    ensures smaller { result < marks }
    ensures kept { (k : ℕ) → k < 64 → k ≢ bit → bit_at result k ≡ bit_at marks k }
    ensures no_more { (k : ℕ) → bit_at result k ≡ 1 → bit_at marks k ≡ 1 }
{
    marks & !(1 << bit)
}

/// The highest bit that is set.
#[inline(always)]
pub fn highest(marks: u64) -> usize
    requires { marks ≢ 0 }
    ensures bound { result < 64 }
    ensures set { bit_at marks result ≡ 1 }
    ensures above { (k : ℕ) → result < k → bit_at marks k ≡ 0 }
{
    marks.ilog2() as usize
}

/// The marks below a bit.
#[inline(always)]
pub fn bits_below(marks: u64, bit: usize) -> u64
    requires { bit < 64 }
    ensures kept { (k : ℕ) → k < bit → bit_at result k ≡ bit_at marks k }
    ensures no_more { (k : ℕ) → bit_at result k ≡ 1 → k < bit }
{
    marks & ((1 << bit) - 1)
}

/// A mark for each of the 32 bytes from a place on that is this byte.
#[inline(always)]
pub fn marks_of(byte: u8, line: &[u8], i: usize) -> u64
    requires { i + 32 ≤ length line.now }
    ensures marks { Marks (Passes (is_byte byte) line.now) i (i + 32) result }
    ensures exact { (k : ℕ) → bit_at result k ≡ 1 → Passes (is_byte byte) line.now (i + k) }
{
    load(line, i).simd_eq(u8x32::splat(byte)).to_bitmask()
}
