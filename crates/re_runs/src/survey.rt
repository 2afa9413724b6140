//! How common bytes and sets of bytes are. No contract depends on it.

use crate::alike::Alike;
use memchr::arch::all::packedpair::{DefaultFrequencyRank, HeuristicFrequencyRank};
use re_trees::ByteSet;

/// As many bytes of most texts as shares speak of.
pub const ALL: u32 = 65_536;

// About how many of 65,536 bytes of most texts are the commonest byte.
const COMMONEST: u32 = 8_192;

/// A byte that is this number of ranks lower is half as common.
pub const HALVED: u8 = 10;

// The least rank of a digit, or of a tab.
const OF_DIGITS: u8 = 225;

/// How common the bytes of a set are.
#[derive(Clone, Copy, Drop)]
pub struct Survey {
    /// How common the commonest is, from 0 for the rarest to 255.
    pub rank: u8,
    /// About how many of 65,536 bytes of most texts are in the set; at least one.
    pub share: u32,
}

impl Survey {
    /// The survey of a set; `None` if it has no byte, or a share above `most`.
    pub fn of(set: &ByteSet, most: u32) -> Option<Survey> {
        let mut survey = Survey { rank: 0, share: 0 };
        for byte in *set {
            survey.rank = survey.rank.max(rank_of(byte));
            survey.share = survey.share.saturating_add(share_of(byte));
            if survey.share > most {
                return None;
            }
        }
        if survey.share == 0 {
            return None;
        }
        Some(survey)
    }
}

/// About how many of 65,536 bytes of most texts have the bits.
pub fn share_with(alike: Alike) -> u64 {
    let mut share: u64 = 0;
    let mut open = 0;
    for _ in 0..256usize {
        share = share.saturating_add(u64::from(share_of(alike.bits | open)));
        // The next byte of those that have ones only where no bit is tested.
        open = (open | alike.asked).wrapping_add(1) & !alike.asked;
        if open == 0 {
            return share;
        }
    }
    share
}

// About how many of 65,536 bytes of most texts are this one; at least one.
fn share_of(byte: u8) -> u32 {
    let beyond = u8::MAX - rank_of(byte);
    let share = COMMONEST >> (beyond / HALVED);
    (share - share / u32::from(2 * HALVED) * u32::from(beyond % HALVED)).max(1)
}

/// How common the byte is in most texts, from 0 for the rarest to 255. Texts that are searched have more
/// digits and tabs than those that `memchr`'s ranks are of.
pub fn rank_of(byte: u8) -> u8 {
    let rank = DefaultFrequencyRank.rank(byte);
    if byte.is_ascii_digit() || byte == b'\t' {
        return rank.max(OF_DIGITS);
    }
    rank
}
