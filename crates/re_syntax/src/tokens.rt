//! The tokens that the text of an expression is cut into (XBD 9.5.1).
ghost use Rattle.std.specs.Prelude.{◌≡◌, ◌≢◌, ◌≤◌, MatchBool};
ghost use Rattle.re_trees.specs.{Working.Trees.{members, expression_of}, Holds.positions};
ghost use Rattle.re_syntax.specs.Working.TokenSteps.{atom_expression, meant_bytes};

use crate::interval::Counts;
use re_trees::{ByteSet, Tree};

/// Where in its branch a token is.
#[derive(Clone, Copy, Drop)]
pub enum ItemPlace {
    /// It is the first.
    First,
    /// It follows an anchor that is first.
    AfterAnchor,
    /// It follows an item.
    Later,
}

/// An item without parts.
#[derive(Clone, Copy, Drop)]
pub enum Atom {
    /// One byte of the set.
    Set(ByteSet),
    /// One byte outside the set.
    Not(ByteSet),
    /// A `$` that is an anchor.
    End,
}

/// A part of a text that is read as one.
#[derive(Clone, Copy, Drop)]
pub enum Token {
    /// What opens a group.
    Opening,
    /// What closes a group.
    Closing,
    /// What separates two branches.
    Bar,
    /// A `^` that is an anchor.
    Lead,
    /// A byte, a set of bytes, or a `$` that is an anchor.
    Atom(Atom),
    /// A duplication.
    Times(Counts),
}

/// Whether an item comes before a place.
pub fn follows_item(place: ItemPlace) -> bool
    ensures { MatchBool result (place ≡ ItemPlace.Later) (place ≢ ItemPlace.Later) }
{
    match place {
        ItemPlace::First => false,
        ItemPlace::AfterAnchor => false,
        ItemPlace::Later => true,
    }
}

/// The tree of an atom.
pub fn tree_of(atom: Atom) -> Tree
    ensures { expression_of result ≡ atom_expression atom }
{
    match atom {
        Atom::Set(set) => Tree::Set(set),
        Atom::Not(set) => Tree::Not(set),
        Atom::End => Tree::End,
    }
}

/// The number of an atom's positions.
pub fn positions_of(atom: Atom) -> usize
    ensures counted { result ≡ positions (atom_expression atom) }
    ensures few { result ≤ 1 }
{
    match atom {
        Atom::Set(_) => 1,
        Atom::Not(_) => 1,
        Atom::End => 0,
    }
}

/// The bytes that a byte means outside brackets and escapes: a period means any byte but NUL, any
/// other byte itself.
pub fn meant_by(byte: u8) -> ByteSet
    ensures { members result ≡ meant_bytes byte }
{
    if byte == b'.' {
        ByteSet::range(1, 255)
    } else {
        ByteSet::only(byte)
    }
}
