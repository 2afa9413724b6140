//! Regular expressions as trees.
ghost use Rattle.std.specs.Prelude.{◌+◌, ◌<◌, ◌≤◌, vec_len, vec_capacity};
ghost use Rattle.re_trees.specs.Working.Nodes.{nodes_of, nodes_of_all, nodes_left, IsTaken};

use crate::bytes::ByteSet;

/// A regular expression, apart from how it is written (XBD 9.3, 9.4). `expression_of` in
/// `specs/Expression.antt` says what each form means, and `Holds` in `specs/Holds.antt` where it
/// matches.
pub enum Tree {
    /// Matches the empty string.
    Empty,
    /// One byte of the set.
    Set(ByteSet),
    /// One byte outside the set.
    Not(ByteSet),
    /// The line's first place, an anchor (XBD 9.3.8).
    Begin,
    /// The line's last place, an anchor.
    End,
    /// The parts one after another.
    Cat(Vec<Tree>),
    /// Any one of the branches (XBD 9.4.7).
    Alt(Vec<Tree>),
    /// The part repeated, at least as often as the first number says, and at most as often as the
    /// second, if there is one (XBD 9.3.6).
    Repeat(Box<Tree>, u16, Option<u16>),
}

/// A part that was taken of a tree, if it has one, and the trees that are left.
type Taken = (Option<Tree>, Option<Vec<Tree>>);

/// The trees and the rest, in the place of a tree that was taken.
fn with_rest(mut trees: Vec<Tree>, rest: Option<Vec<Tree>>) -> Vec<Tree>
    requires { vec_len trees < vec_capacity trees }
    ensures { nodes_of_all result.items ≤ nodes_of_all trees.items + nodes_left rest + 1 }
{
    match rest {
        None => trees,
        Some(rest) => {
            trees.push_reserved(Tree::Cat(rest));
            trees
        }
    }
}

/// Takes the last part. The others are left, and the rest.
fn take_last(mut parts: Vec<Tree>, rest: Option<Vec<Tree>>) -> Taken
    ensures { IsTaken (nodes_of_all parts.items + 1) (nodes_left rest) result.0
        (nodes_left result.1) }
{
    match parts.pop() {
        None => {
            parts.destroy_empty();
            (None, rest)
        }
        Some(last) => (Some(last), Some(with_rest(parts, rest))),
    }
}

impl Tree {
    /// Takes a part of the tree. Its others are left, and the rest.
    fn take_part(self, rest: Option<Vec<Tree>>) -> Taken
        ensures { IsTaken (nodes_of self) (nodes_left rest) result.0 (nodes_left result.1) }
    {
        match self {
            Tree::Empty => (None, rest),
            Tree::Set(_) => (None, rest),
            Tree::Not(_) => (None, rest),
            Tree::Begin => (None, rest),
            Tree::End => (None, rest),
            Tree::Cat(parts) => take_last(parts, rest),
            Tree::Alt(parts) => take_last(parts, rest),
            Tree::Repeat(part, _, _) => (Some(Box::into_inner(part)), rest),
        }
    }

    /// Takes a part of the tree, a part of that part, and so on. The others of each are left, and
    /// the rest.
    fn take_apart(mut self, rest: Option<Vec<Tree>>) -> Option<Vec<Tree>>
        ensures { nodes_left result < nodes_of self + nodes_left rest }
    {
        let mut left = rest;
        'parts: loop {
            let (part, others) = self.take_part(left);
            match part {
                None => return others,
                Some(next) => {
                    self = next;
                    left = others;
                }
            }
        }
    }
}

/// Loops in place of a recursion, since a pattern may nest trees deep. They need no memory: the
/// trees that are left are kept in the places of parts that were taken.
impl Drop for Tree {
    fn drop(mut self) {
        let mut rest = None;
        'trees: loop {
            rest = self.take_apart(rest);
            match rest {
                None => return,
                Some(mut trees) => match trees.pop() {
                    None => {
                        trees.destroy_empty();
                        return;
                    }
                    Some(tree) => {
                        self = tree;
                        rest = Some(trees);
                    }
                },
            }
        }
    }
}
