//! Interval expressions (XBD 9.3.6 item 5, 9.4.6 item 5), apart from the syntax that opens them.
ghost use Rattle.std.specs.Prelude.{◌≡◌, ◌≤◌, length, drop, MatchOption};
ghost use Rattle.re_syntax.specs.Intervals.{IsAllowed, value, HasNoInterval};
ghost use Rattle.re_syntax.specs.Working.IntervalSteps.{capped, IsNoPart, AreDigits, HasNoDigit};
ghost use Rattle.re_syntax.specs.Working.IntervalSteps.{IsDigitCount, NumberStands, HasNoGreatest};
ghost use Rattle.re_syntax.specs.Working.IntervalSteps.{GreatestStands, IntervalStands};
ghost use Rattle.re_syntax.specs.IntervalFaults.{IsDisallowed};

use crate::ahead::after;
use crate::fault::FaultKind;
use crate::profile::MOST_REPEATS;

/// How often an expression is repeated: at least `least` times, and at most `most` times where that
/// is a number. A count above `MOST_REPEATS` is kept as `MOST_REPEATS + 1`.
#[derive(Clone, Copy, Drop)]
pub struct Counts {
    /// The least count, from 0 to 256.
    pub least: u16,
    /// The greatest count, from 0 to 256.
    pub most: Option<u16>,
}

/// The number of digits that the text begins with.
fn digit_count(text: &[u8]) -> usize
    ensures { IsDigitCount text.now result }
{
    match text.iter().position(|byte| *byte < b'0' || *byte > b'9') {
        Some(count) => count,
        None => text.len(),
    }
}

/// The value of decimal digits, or `MOST_REPEATS + 1` where the value is greater than that.
fn capped_value(digits: &[u8]) -> u16
    requires { AreDigits digits.now }
    ensures { result ≡ capped (value digits.now) }
{
    let mut value: u16 = 0;
    for digit in digits {
        value = (10 * value + u16::from(*digit - b'0')).min(MOST_REPEATS + 1);
    }
    value
}

/// A number of one or more digits, capped, and the place after it.
fn read_number(text: &[u8], at: usize) -> Option<(u16, usize)>
    requires { at ≤ length text.now }
    ensures { MatchOption result (HasNoDigit (drop at text.now))
        (λ found. NumberStands text.now at found.0 found.1) }
{
    let count = digit_count(&text[at..]);
    if count == 0 {
        return None;
    }
    Some((capped_value(&text[at..at + count]), at + count))
}

/// The counts of `,n` where `comma` is the place after its comma, and the place after what closes
/// them.
fn read_greatest(text: &[u8], comma: usize, closing: &[u8]) -> Option<(Counts, usize)>
    requires within { comma ≤ length text.now }
    requires closes { IsNoPart closing.now }
    ensures { MatchOption result (HasNoGreatest closing.now (drop comma text.now))
        (λ found. GreatestStands closing.now text.now comma found.0 found.1) }
{
    let (greatest, beyond) = read_number(text, comma)?;
    let end = after(text, beyond, closing)?;
    let most = Some(greatest);
    Some((Counts { least: 0, most }, end))
}

/// The counts at a place of the text (`m`, `m,`, `m,n` or `,n`), and the place after what closes
/// them.
pub fn read_interval(text: &[u8], at: usize, closing: &[u8]) -> Option<(Counts, usize)>
    requires within { at ≤ length text.now }
    requires closes { IsNoPart closing.now }
    ensures { MatchOption result (HasNoInterval closing.now (drop at text.now))
        (λ found. IntervalStands closing.now text.now at found.0 found.1) }
{
    if let Some(comma) = after(text, at, b",") {
        return read_greatest(text, comma, closing);
    }
    let (least, beyond) = read_number(text, at)?;
    if let Some(end) = after(text, beyond, closing) {
        let most = Some(least);
        return Some((Counts { least, most }, end));
    }
    let comma = after(text, beyond, b",")?;
    match read_number(text, comma) {
        None => {
            let end = after(text, comma, closing)?;
            Some((Counts { least, most: None }, end))
        }
        Some((greatest, beyond)) => {
            let most = Some(greatest);
            let end = after(text, beyond, closing)?;
            Some((Counts { least, most }, end))
        }
    }
}

/// The fault of counts that are refused. Too large takes precedence over descending.
pub fn counts_fault(counts: Counts) -> Option<FaultKind>
    ensures { MatchOption result (IsAllowed counts.least counts.most)
        (λ kind. IsDisallowed kind counts.least counts.most) }
{
    if counts.least > MOST_REPEATS {
        return Some(FaultKind::IntervalTooLarge);
    }
    let most = counts.most?;
    if most > MOST_REPEATS {
        Some(FaultKind::IntervalTooLarge)
    } else if most < counts.least {
        Some(FaultKind::BadInterval)
    } else {
        None
    }
}
