//! Which run of an outline is looked for. No contract depends on the choice.
ghost use Rattle.std.specs.Prelude.{◌≡◌, ◌≤◌, length};

use crate::outline_item::OutlineItem;
use re_runs::{HALVED, Survey};

// A run that is everywhere has this chance.
const CERTAIN: u64 = 1 << 62;

// A mark that half of all bytes are in leaves it.
const HALF: u64 = TEXT / 2;

// A byte of this chance is on most lines of texts in words.
const OFTEN: u64 = CERTAIN / HALF * 3_072;

// A mark counts as no rarer than this, since some texts are full of bytes that most have few of.
const RAREST: u64 = 512;

// A mark counts as no more common than this, since longer runs are rarer.
const COMMONEST: u64 = 16_000;

// A set counts at most as twice its commonest byte: as this, if that has the highest rank.
const ALIKE: u64 = 16_384;

// Four marks of a run are rarer than four blanks if they are less likely than this.
const BLANKS: u64 = CERTAIN / 300;

/// A run is short if it has at most so many marks.
pub const SHORT: usize = 4;

// As many bytes of most texts as surveys speak of.
const TEXT: u64 = 65_536;

// A run is at fewer places than another if it is at this number of them fewer.
const FEW: u64 = 8;

// A set is small if at most about this number of 65,536 bytes of most texts are in it.
const SMALL: u32 = 24_576;

// A mark is narrow if at most about this number are in it, like both cases of the commonest letter.
const NARROW: u32 = 8_400;

// A set may be in a run of sets if at most about this number are in it, like the set of letters and
// digits.
const LARGE: u32 = 65_536;

/// What the marks of a run are.
#[derive(Clone, Copy)]
pub enum RunKind {
    /// Single bytes.
    Bytes,
    /// Sets that few bytes of most texts are in.
    SmallSets,
    /// Sets that some bytes of most texts are not in.
    Sets,
}

/// A run of marks.
#[derive(Clone, Copy)]
pub struct Run {
    /// Where it begins.
    pub start: usize,
    length: usize,
    // How many of its marks are narrow.
    narrow: usize,
    // How likely it is at a place, where each further mark makes it half as likely at least.
    chance: u64,
    // About how many of 65,536 places of most texts have it.
    stops: u64,
}

impl Run {
    // The empty run at a place.
    fn at(start: usize) -> Run
        ensures { result.start ≡ start }
    {
        Run {
            start,
            length: 0,
            narrow: 0,
            chance: CERTAIN,
            stops: TEXT,
        }
    }

    // The run with one more mark.
    fn with(self, mark: Survey) -> Run
        ensures { result.start ≡ self.start }
    {
        // Bytes of one kind stand together, so many lines have none of them.
        let share = u64::from(mark.share).min(ALIKE >> ((u8::MAX - mark.rank) / HALVED));
        Run {
            start: self.start,
            length: self.length.saturating_add(1),
            narrow: self
                .narrow
                .saturating_add(usize::from(mark.share <= NARROW)),
            chance: (self.chance / HALF).saturating_mul(share.max(RAREST).min(COMMONEST)),
            stops: self.stops.saturating_mul(u64::from(mark.share)) / TEXT,
        }
    }

    /// Whether it has all of these marks.
    pub fn is_all(self, marks: &[OutlineItem]) -> bool {
        self.length == marks.len()
    }

    /// Whether it is much less likely than the other; half as likely is enough if that is one byte that is on
    /// most lines.
    pub fn is_rarer(self, byte: Run) -> bool {
        let less = if byte.chance >= OFTEN { 2 } else { 8 };
        byte.length > 0 && self.chance <= byte.chance / less
    }

    /// Whether it is at fewer places of most texts than the other, or at no more, and much longer than a
    /// short one.
    pub fn is_at_fewer(self, other: Run) -> bool {
        if other.length <= SHORT && self.narrow >= 2 * other.length {
            return self.stops <= other.stops;
        }
        self.stops.saturating_add(FEW) < other.stops
    }

    // Whether it takes precedence over the other: it goes on from it, or is much less likely, and not the
    // shorter one of less than `least` marks. Where matches begin with the run, fewer bytes are stepped over.
    fn beats(self, other: Run, least: usize) -> bool {
        if self.start == other.start || other.length == 0 || other.chance == 0 {
            return self.length > other.length;
        }
        let less = if other.start == 0 { 16 } else { 2 };
        self.length >= other.length.min(least) && self.chance < other.chance / less
    }
}

/// The run of such marks that is looked for. One with less than `least` goes before none that is longer.
pub fn best_run(marks: &[OutlineItem], of: RunKind, least: usize) -> Run
    ensures { result.start ≤ length marks.now }
{
    let mut now = Run::at(0);
    let mut best = Run::at(0);
    'marks: for place in 0..marks.len() {
        now = match mark_survey(&marks[place], of) {
            Some(mark) => now.with(mark),
            None => Run::at(place + 1),
        };
        if now.beats(best, least) {
            best = now;
        }
    }
    best
}

/// Where the run is looked for. One of several branches is looked for by some of its first sets, so most
/// of its leading blanks are left out.
pub fn start_among(branches: usize, marks: &[OutlineItem], run: Run) -> usize
    ensures { result ≤ length marks.now }
{
    let start = run.start.min(marks.len());
    if branches < 2 {
        return start;
    }
    'marks: for place in start..marks.len().saturating_sub(SHORT - 1) {
        let part = best_run(&marks[place..place + SHORT], RunKind::SmallSets, 0);
        if part.length < SHORT {
            return start;
        }
        if part.chance < BLANKS {
            return place;
        }
    }
    start
}

/// How common the bytes of the mark are, if it may be one of such a run.
pub fn mark_survey(mark: &OutlineItem, of: RunKind) -> Option<Survey> {
    let OutlineItem::Set(set) = mark else {
        return None;
    };
    let most = match of {
        RunKind::Bytes => {
            set.one_byte()?;
            SMALL
        }
        RunKind::SmallSets => SMALL,
        RunKind::Sets => LARGE,
    };
    Survey::of(set, most)
}
