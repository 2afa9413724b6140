//! Trees that are strings.
ghost use Rattle.std.specs.Prelude.{◌≡◌, [], ◌∷◌, IfSome, map};
ghost use Rattle.re_syntax.specs.{Expression.{byte, sequence}, Working.Trees.expression_of};
ghost use Rattle.re_search.specs.Working.Strings.{AddsEach, string_expression};

use memchr::memchr;
use re_match::add_line;
use re_needle::one_byte;
use re_syntax::Tree;
use std::alloc::Global;

/// Adds the strings that the trees are, each followed by a newline; `None` if one is no string.
pub(crate) fn add_each(alloc: Global, trees: &[Tree], strings: &mut Vec<u8>) -> Option<()>
    ensures { IfSome result
        (λ _. AddsEach (map expression_of trees.now) strings.old.items strings.new.items) }
{
    'trees: for place in 0..trees.len() {
        add_tree(alloc, &trees[place], strings)?;
    }
    Some(())
}

/// Adds the string that the tree is, and a newline; `None` if it is none, or has a newline, or if
/// out of memory.
pub(crate) fn add_tree(alloc: Global, tree: &Tree, strings: &mut Vec<u8>) -> Option<()>
    ensures { IfSome result
        (λ _. AddsEach (expression_of tree.now ∷ []) strings.old.items strings.new.items) }
{
    let string = string_of(alloc, tree)?;
    add_string(&string, strings)
}

/// Adds a string, and a newline; `None` if it has a newline, or if out of memory.
pub(crate) fn add_string(string: &[u8], strings: &mut Vec<u8>) -> Option<()>
    ensures { IfSome result
        (λ _. AddsEach (string_expression string.now ∷ []) strings.old.items strings.new.items) }
{
    if memchr(b'\n', string).is_some() {
        return None;
    }
    add_line(strings, string).ok()
}

/// The string that the tree is: nothing, a byte or several. `None` if it is anything else, or if
/// out of memory.
pub(crate) fn string_of(alloc: Global, tree: &Tree) -> Option<Vec<u8>>
    ensures { IfSome result
        (λ text. expression_of tree.now ≡ sequence (map byte text.items)) }
{
    match tree {
        Tree::Empty => Some(Vec::new(alloc)),
        Tree::Cat(parts) if parts.len() > 1 => bytes_of(alloc, parts),
        Tree::Set(_) => {
            let byte = one_byte(tree)?;
            let mut text = Vec::new(alloc);
            text.push(byte).ok()?;
            Some(text)
        }
        _ => None,
    }
}

// The bytes that the trees are. `None` if one is no byte, or if out of memory.
fn bytes_of(alloc: Global, trees: &[Tree]) -> Option<Vec<u8>>
    ensures { IfSome result (λ text. map expression_of trees.now ≡ map byte text.items) }
{
    let mut text = Vec::with_capacity(alloc, trees.len()).ok()?;
    'trees: for place in 0..trees.len() {
        let byte = one_byte(&trees[place])?;
        text.push(byte).ok()?;
    }
    Some(text)
}
