//! The mark of a file.
ghost use Rattle.std.specs.Prelude.{◌≡◌, ◌-◌, ◌+◌, ◌≤◌, ◌<◌, ◌^◌, ◌∷◌, []};
ghost use Rattle.line_marks.specs.Stretches.{Splices, new_mark, whole_mark, lost};

use crate::room::Stretches;
use crate::splices::splice_at;
use crate::stretch::Stretch;
use arrayvec::ArrayVec;
use std::marker::Model;

/// What became of the lines of a file since its changes were last reported. Where a file has as many
/// stretches as a mark can have, the two that are nearest to each other become one.
#[derive(Drop)]
pub struct Mark {
    known: usize,
    lines: usize,
    stretches: Stretches,
}

impl Model for Mark {
    ghost use Rattle.std.specs.Prelude.{◌<◌, ◌^◌};
    ghost use Rattle.line_marks.specs.Stretches.{Marked, Fits};

    ghost Value = { Marked };

    ghost view = { λ mark. record {
      known = mark.known;
      lines = mark.lines;
      stretches = mark.stretches.items;
    } };

    ghost invariant = { λ mark.
        (mark.known < 2 ^ 64) × Fits mark.known mark.lines mark.stretches.items };
}

/// The list of one stretch.
fn only(stretch: Stretch) -> Stretches
    ensures { result.items ≡ stretch ∷ [] }
{
    let mut stretches = ArrayVec::new();
    stretches.push(stretch);
    stretches
}

impl Mark {
    /// The mark of a file that was not reported yet, and has `lines` lines.
    pub fn new(lines: usize) -> Mark
        ensures { result ≡ new_mark lines }
    {
        Mark {
            known: 0,
            lines,
            stretches: only(Stretch {
                kept: 0,
                removed: 0,
                added: lines,
            }),
        }
    }

    /// How many lines the file has.
    pub fn lines(&self) -> usize
        ensures { result ≡ self.now.lines }
    {
        self.lines
    }

    /// The stretches in order.
    pub fn stretches(&self) -> &[Stretch]
        ensures { result.now ≡ self.now.stretches }
    {
        &self.stretches
    }

    /// All changes are reported.
    pub fn report(&mut self)
        ensures { self.new ≡ whole_mark self.old.lines }
    {
        self.known = self.lines;
        self.stretches = ArrayVec::new();
    }

    /// Leaves no line untouched.
    pub fn lose(&mut self)
        ensures { self.new ≡ lost self.old }
    {
        self.stretches = only(Stretch {
            kept: 0,
            removed: self.known,
            added: self.lines,
        });
    }

    /// Replaces `count` lines from line `start` on by `added` lines. The stretches that touch these
    /// become one with them.
    pub fn splice(&mut self, start: usize, count: usize, added: usize)
        requires within { start + count ≤ self.old.lines }
        requires few { self.old.lines - count + added < 2 ^ 64 }
        ensures { Splices start count added self.old self.new }
    {
        let lines = self.lines;
        let most = count.max(added);
        if most == 0 {
            return;
        }
        splice_at(&mut self.stretches, lines, start, count, added);
        self.lines = lines - count + added;
    }
}
