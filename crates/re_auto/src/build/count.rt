//! The number of an expression's positions, without writing its intervals out.
ghost use Rattle.std.specs.Prelude.{◌≡◌, ◌<◌, map, min};
ghost use Rattle.re_trees.specs.{Holds.{positions, copies}, Working.Trees.expression_of};
ghost use Rattle.re_trees.specs.Expression.{cat};

use re_trees::{MOST_POSITIONS, Tree};

/// Where counting stops: one more than the greatest number of positions of an automaton.
pub(crate) const TOO_MANY: usize = MOST_POSITIONS + 1;

/// The number of positions of the expression once each interval is written out, or [`TOO_MANY`]
/// where there are more.
#[cycle(count)]
pub fn position_count(tree: &Tree) -> usize
    ensures { result ≡ min (positions (expression_of tree.now)) TOO_MANY }
{
    match tree {
        Tree::Empty => 0,
        Tree::Begin => 0,
        Tree::End => 0,
        Tree::Set(_) => 1,
        Tree::Not(_) => 1,
        Tree::Cat(members) => count_all(members),
        Tree::Alt(members) => count_all(members),
        Tree::Repeat(part, least, most) => {
            let copies = copies_of(*least, *most);
            (copies * position_count(part)).min(TOO_MANY)
        }
    }
}

/// The sum of the members' counts.
#[cycle(count)]
fn count_all(members: &[Tree]) -> usize
    ensures { result ≡ min (positions (cat (map expression_of members.now))) TOO_MANY }
{
    let mut count = 0;
    'members: for i in 0..members.len() {
        count = (count + position_count(&members[i])).min(TOO_MANY);
    }
    count
}

/// How often a repeated part is written out: its greatest count, or where it has none its least
/// count, but at least once.
pub fn copies_of(least: u16, most: Option<u16>) -> usize
    ensures is { result ≡ copies least most }
    ensures small { result < 65536 }
{
    match most {
        Some(most) => most as usize,
        None => least.max(1) as usize,
    }
}
