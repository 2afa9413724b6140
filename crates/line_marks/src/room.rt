//! Room in the list of stretches of a mark.
ghost use Rattle.std.specs.Prelude.{◌<◌, ◌≡◌, drop, length, ◌≤◌, ◌∷◌, take, ◌+◌, ◌++◌};
ghost use Rattle.line_marks.specs.Working.{Places.{led, HasLead, AreCounted}, Covers.Loses};
ghost use Rattle.line_marks.specs.Stretches.{most_stretches};

use crate::stretch::Stretch;
use crate::touched::{Touched, joined, led_by};
use arrayvec::ArrayVec;

/// The stretches of a mark, 64 at most.
pub type Stretches = ArrayVec<Stretch, 64>;

/// The number of the stretch that is nearest to the one before it.
fn nearest(stretches: &[Stretch]) -> usize
    requires { 2 ≤ length stretches.now }
    ensures after { 1 ≤ result }
    ensures within { result < length stretches.now }
{
    let mut nearest = 1;
    for k in 2..stretches.len() {
        if stretches[k].kept < stretches[nearest].kept {
            nearest = k;
        }
    }
    nearest
}

/// Joins stretch `k` to the one before it.
fn join(stretches: &mut Stretches, k: usize)
    requires after { 1 ≤ k }
    requires within { k < length stretches.old.items }
    requires few { length stretches.old.items ≤ most_stretches }
    requires counted { AreCounted 0 stretches.old.items }
    ensures loses { Loses stretches.old.items stretches.new.items }
    ensures many { length stretches.new.items + 1 ≡ length stretches.old.items }
{
    let next = stretches.remove(k);
    let before = stretches.remove(k - 1);
    let one = joined(before, next);
    stretches.insert(k - 1, one);
}

/// If there is no room for one more stretch, the two that are nearest to each other become one.
#[tactic(auto, using(crate::proofs::lemmas::CoverLemmas::loses_none))]
pub fn make_room(stretches: &mut Stretches)
    requires { AreCounted 0 stretches.old.items }
    ensures same { length stretches.old.items < most_stretches →
        stretches.new.items ≡ stretches.old.items }
    ensures room { length stretches.new.items < most_stretches }
    ensures few { length stretches.new.items ≤ length stretches.old.items }
    ensures loses { Loses stretches.old.items stretches.new.items }
{
    let many = stretches.len();
    if many < 64 {
        return;
    }
    let k = nearest(stretches);
    join(stretches, k);
}

/// Takes `lead` lines from those before stretch `k`, if there is one.
fn lower(stretches: &mut Stretches, k: usize, lead: usize)
    requires within { k ≤ length stretches.old.items }
    requires lead { HasLead lead (drop k stretches.old.items) }
    ensures { stretches.new.items ≡
        take k stretches.old.items ++ led lead (drop k stretches.old.items) }
{
    if k == stretches.len() {
        return;
    }
    let next = stretches.remove(k);
    let low = led_by(next, lead);
    stretches.insert(k, low);
}

/// Removes the stretches from `first` up to `past`.
fn take_out(stretches: &mut Stretches, first: usize, past: usize)
    requires in_order { first ≤ past }
    requires within { past ≤ length stretches.old.items }
    ensures { stretches.new.items ≡
        take first stretches.old.items ++ drop past stretches.old.items }
{
    stretches.drain(first..past);
}

/// Puts the stretch in the place of those, from stretch `first` on, that became it.
pub fn put(stretches: &mut Stretches, first: usize, all: Touched)
    requires within { first + all.many ≤ length stretches.old.items }
    requires lead { HasLead all.lead (drop (first + all.many) stretches.old.items) }
    requires room { length stretches.old.items < most_stretches }
    ensures { stretches.new.items ≡ take first stretches.old.items ++
        all.one ∷ led all.lead (drop (first + all.many) stretches.old.items) }
{
    let past = first + all.many;
    lower(stretches, past, all.lead);
    take_out(stretches, first, past);
    stretches.insert(first, all.one);
}
