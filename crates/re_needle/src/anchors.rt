//! Whether a match may depend on where its line begins.
ghost use Rattle.std.specs.Prelude.{◌≡◌, false, map};
ghost use Rattle.re_trees.specs.{Expression.{alt, cat}, Working.Trees.expression_of};
ghost use Rattle.re_needle.specs.Working.Needles.{HasNoBegin};

use re_trees::Tree;

/// Whether the tree has a `^` in it.
#[cycle(begin)]
pub fn has_begin(tree: &Tree) -> bool
    ensures { result ≡ false → HasNoBegin (expression_of tree.now) }
{
    match tree {
        Tree::Begin => true,
        Tree::Cat(parts) => some_has_begin(parts),
        Tree::Alt(parts) => some_has_begin(parts),
        Tree::Repeat(part, _, _) => has_begin(part),
        Tree::Empty => false,
        Tree::Set(_) => false,
        Tree::Not(_) => false,
        Tree::End => false,
    }
}

/// Whether some part has one, of parts that follow one another, or of a choice of them.
#[cycle(begin)]
fn some_has_begin(parts: &[Tree]) -> bool
    ensures all { result ≡ false → HasNoBegin (cat (map expression_of parts.now)) }
    ensures one { result ≡ false → HasNoBegin (alt (map expression_of parts.now)) }
{
    'parts: for i in 0..parts.len() {
        if has_begin(&parts[i]) {
            return true;
        }
    }
    false
}
