ghost use Rattle.std.specs.Prelude.{◌≡◌, ◌≢◌, ◌<◌, ◌+◌, ◌-◌, ◌^◌, ℕ, IsTrue, MatchBool};
ghost use Rattle.std.specs.{Prelude.{MatchOption, false, min, not, true}, Iterator.at_most};
ghost use Rattle.re_trees.specs.Bytes.{nothing, only, range, union, in_class, closed};
ghost use Rattle.re_trees.specs.Working.Trees.{Takes, members, IsLowest};

use crate::class::Class;

/// A set of bytes, one bit for each: bit `b` of `low` for a byte `b` below 128, and bit `b - 128`
/// of `high` for any other. Contracts speak of its `members`, the test of whether a byte is in it.
#[derive(Clone, Copy, Drop)]
pub struct ByteSet {
    low: u128,
    high: u128,
}

impl ByteSet {
    /// The set without a byte.
    pub fn empty() -> Self
        ensures { members result ≡ nothing }
    {
        ByteSet { low: 0, high: 0 }
    }

    /// The set of this byte alone.
    pub fn only(byte: u8) -> Self
        ensures { members result ≡ only byte }
    {
        if byte < 128 {
            return ByteSet {
                low: 1 << byte,
                high: 0,
            };
        }
        ByteSet {
            low: 0,
            high: 1 << (byte - 128),
        }
    }

    /// The bytes from the first to the second, both included, by value. There are none where the
    /// second is below the first.
    pub fn range(first: u8, last: u8) -> Self
        ensures { members result ≡ range first last }
    {
        let begin = u16::from(first);
        let end = u16::from(last) + 1;
        ByteSet {
            low: word_of(begin, end),
            high: word_of(begin.saturating_sub(128), end.saturating_sub(128)),
        }
    }

    /// The bytes of a class in the POSIX locale (XBD 7.3.1).
    pub fn class(class: Class) -> Self
        ensures { members result ≡ in_class class }
    {
        match class {
            Class::Upper => ByteSet::range(b'A', b'Z'),
            Class::Lower => ByteSet::range(b'a', b'z'),
            Class::Digit => ByteSet::range(b'0', b'9'),
            Class::Alpha => ByteSet::letters(),
            Class::Alnum => ByteSet::letters().union(ByteSet::range(b'0', b'9')),
            Class::Blank => ByteSet::only(b' ').union(ByteSet::only(b'\t')),
            Class::Space => ByteSet::only(b' ').union(ByteSet::range(9, 13)),
            Class::Cntrl => ByteSet::range(0, 31).union(ByteSet::only(127)),
            Class::Punct => ByteSet::marks(),
            Class::Graph => ByteSet::range(33, 126),
            Class::Print => ByteSet::range(32, 126),
            Class::Xdigit => ByteSet::hexadecimal_digits(),
        }
    }

    fn letters() -> Self
        ensures { members result ≡ in_class Class.Alpha }
    {
        ByteSet::range(b'A', b'Z').union(ByteSet::range(b'a', b'z'))
    }

    fn marks() -> Self
        ensures { members result ≡ in_class Class.Punct }
    {
        let below_letters = ByteSet::range(33, 47).union(ByteSet::range(58, 64));
        below_letters.union(ByteSet::range(91, 96).union(ByteSet::range(123, 126)))
    }

    fn hexadecimal_digits() -> Self
        ensures { members result ≡ in_class Class.Xdigit }
    {
        let letters = ByteSet::range(b'A', b'F').union(ByteSet::range(b'a', b'f'));
        ByteSet::range(b'0', b'9').union(letters)
    }

    /// The bytes of either set.
    pub fn union(self, other: ByteSet) -> Self
        ensures { members result ≡ union (members self) (members other) }
    {
        ByteSet {
            low: self.low | other.low,
            high: self.high | other.high,
        }
    }

    /// The bytes that are not in the set.
    pub fn complement(self) -> Self
        ensures { (b : ℕ) → b < 256 → members result b ≡ not (members self b) }
    {
        ByteSet {
            low: !self.low,
            high: !self.high,
        }
    }

    /// The set with the other case of each of its letters (XCU grep, option `-i`).
    pub fn closed(self) -> Self
        ensures { members result ≡ closed (members self) }
    {
        let upper = word_of(b'A' as u16, b'Z' as u16 + 1);
        let lowered = (upper & self.low) << 32;
        let raised = upper & (self.low >> 32);
        ByteSet {
            low: self.low | lowered | raised,
            high: self.high,
        }
    }

    /// The only byte of a set of one byte. There is none for an empty set or one of several bytes.
    pub fn one_byte(&self) -> Option<u8>
        ensures { MatchOption result ((byte : ℕ) → byte < 256 → members self.now ≢ only byte)
            (λ byte. members self.now ≡ only byte) }
    {
        let mut left = *self;
        let Some(byte) = left.next() else {
            return None;
        };
        match left.next() {
            Some(_other) => None,
            None => Some(byte),
        }
    }

    /// Whether each byte of the set passes.
    pub fn all_pass<F: Fn(u8) -> bool>(self, passes: F) -> bool
        requires { F.IsAlwaysCallable passes }
        ensures { MatchBool result ((b : ℕ) → IsTrue (members self b) → F.post passes b true)
            ((b : ℕ) × IsTrue (members self b) × F.post passes b false) }
    {
        for byte in self {
            if !passes(byte) {
                return false;
            }
        }
        true
    }

    /// Whether the byte is in the set.
    pub fn has(&self, byte: u8) -> bool
        ensures { result ≡ members self.now byte }
    {
        if byte < 128 {
            (self.low >> byte) & 1 == 1
        } else {
            (self.high >> (byte - 128)) & 1 == 1
        }
    }
}

/// The bytes of the set, from the lowest on.
impl Iterator for ByteSet {
    type Item = u8;

    ghost next_gives = { Takes };

    ghost remaining = { λ set. at_most (set.low + set.high) };

    fn next(&mut self) -> Option<u8> {
        if self.low != 0 {
            return Some(take_lowest(&mut self.low));
        }
        if self.high != 0 {
            return Some(128 + take_lowest(&mut self.high));
        }
        None
    }
}

// Takes the lowest bit out of a word that is not 0.
fn take_lowest(word: &mut u128) -> u8
    requires { 0 < word.old }
    ensures { IsLowest word.old result word.new }
{
    let lowest = word.trailing_zeros();
    *word &= !(1 << lowest);
    lowest as u8
}

// The word of the bits from the first up to the second, as far as a word has them.
fn word_of(begin: u16, end: u16) -> u128
    ensures { result ≡ 2 ^ min end 128 - 2 ^ min begin 128 }
{
    lowest_bits(end).saturating_sub(lowest_bits(begin))
}

// The word of the `count` lowest bits, or of all 128 where the count is greater.
fn lowest_bits(count: u16) -> u128
    ensures { result ≡ 2 ^ min count 128 - 1 }
{
    if count < 128 {
        (1u128 << count) - 1
    } else {
        u128::MAX
    }
}
