//! Lines that are replaced by others.
ghost use Rattle.std.specs.Prelude.{◌≡◌, ℕ, ◌+◌, ◌-◌, ◌^◌, ◌<◌, ◌≤◌};
ghost use Rattle.line_marks.specs.{Stretches.Fits, Working.Covers.SplicesList};

use crate::room::{Stretches, make_room, put};
use crate::touched::{place_of, touched_at};

/// Replaces `count` of `lines` lines, from line `start` on, by `added` lines.
pub fn splice_at(stretches: &mut Stretches, lines: usize, start: usize, count: usize, added: usize)
    requires within { start + count ≤ lines }
    requires few { lines - count + added < 2 ^ 64 }
    requires fit { (known : ℕ) × (known < 2 ^ 64) × Fits known lines stretches.old.items }
    ensures splices { SplicesList start count added stretches.old.items stretches.new.items }
    ensures fits { (known : ℕ) → Fits known lines stretches.old.items →
        Fits known (lines - count + added) stretches.new.items }
{
    make_room(stretches);
    let place = place_of(stretches, start);
    let mut all = touched_at(stretches, place, count);
    all.one.added = all.one.added - count + added;
    put(stretches, place.many, all);
}
