//! Decimal numbers.
ghost use Rattle.std.specs.Prelude.{◌≡◌};
ghost use Rattle.grep_utility.specs.{Words.{lines_of, number_of}, Working.Numbers.digits_of};

/// The greatest number.
const MOST: u128 = 18_446_744_073_709_551_615;

/// The value of a word of one or more decimal digits, or 2 ^ 64 where it is greater.
fn read_digits(word: &[u8]) -> Option<u128>
    ensures { result ≡ digits_of word.now }
{
    if word.is_empty() {
        return None;
    }
    let mut value: u128 = 0;
    for byte in word {
        if !byte.is_ascii_digit() {
            return None;
        }
        value = (value * 10 + u128::from(*byte - b'0')).min(MOST + 1);
    }
    Some(value)
}

/// The number that the word spells, in one or more decimal digits, if it fits in a `usize`.
pub fn read_number(word: &[u8]) -> Option<usize>
    ensures { result ≡ number_of word.now }
{
    let value = read_digits(word)?;
    if value > MOST {
        return None;
    }
    Some(value as usize)
}

/// How many lines the word asks for: one decimal digit or more. A number above the greatest `u64`
/// counts as the greatest one.
pub fn read_lines(word: &[u8]) -> Option<u64>
    ensures { result ≡ lines_of word.now }
{
    let value = read_digits(word)?;
    Some(value.min(MOST) as u64)
}
