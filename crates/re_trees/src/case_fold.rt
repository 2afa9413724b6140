ghost use Rattle.std.specs.Prelude.{◌≡◌, map};
ghost use Rattle.re_trees.specs.{Working.Trees.expression_of, Holds.folded};

use crate::tree::Tree;

/// The expression with both cases of each of its letters (XCU grep, option `-i`). The set of each
/// `Set` or `Not` is closed under case, so a complement is taken after that. The tree is changed in
/// place, and no memory is allocated.
pub fn fold(mut tree: Tree) -> Tree
    ensures { expression_of result ≡ folded (expression_of tree) }
{
    fold_tree(&mut tree);
    tree
}

/// Folds a tree. Its frames are small, since a pattern may nest trees deep.
#[cycle(fold)]
fn fold_tree(tree: &mut Tree)
    ensures { expression_of tree.new ≡ folded (expression_of tree.old) }
{
    match tree {
        Tree::Empty => {}
        Tree::Begin => {}
        Tree::End => {}
        Tree::Set(set) => *set = set.closed(),
        Tree::Not(set) => *set = set.closed(),
        Tree::Cat(parts) => fold_all(parts),
        Tree::Alt(parts) => fold_all(parts),
        Tree::Repeat(part, _, _) => fold_tree(part),
    }
}

/// Folds each of the trees.
#[cycle(fold)]
fn fold_all(parts: &mut Vec<Tree>)
    ensures { map expression_of parts.new.items ≡ map folded (map expression_of parts.old.items) }
{
    for i in 0..parts.len() {
        fold_tree(&mut parts[i]);
    }
}
