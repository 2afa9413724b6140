//! The texts of a pattern list, and their place in a session.
ghost use Rattle.std.specs.Prelude.{◌≡◌, ◌≤◌, ◌<◌, ◌+◌, ◌++◌, length, map, vec_len, vec_capacity};
ghost use Rattle.std.specs.Prelude.{MatchBool, IfOk};
ghost use Rattle.re_syntax.specs.{Lines.list_of, Profile.most_patterns};
ghost use Rattle.grep_session.specs.Touched.{Narrows};

use crate::options::is_same;
use crate::vec_push::push;
use grep_core::Options;
use memchr::memmem::Finder;
use re_search::Syntax;
use re_syntax::{MOST_PATTERNS, split_list};
use std::alloc::{AllocError, Global};

/// The texts of a pattern list.
pub fn texts_of(alloc: Global, list: &[u8]) -> Result<Vec<Vec<u8>>, AllocError>
    ensures { IfOk result (λ texts. map (λ text. text.items) texts.items ≡ list_of list.now) }
{
    let mut texts = Vec::new(alloc);
    for part in split_list(list) {
        let text = Vec::from_slice(alloc, part)?;
        push(&mut texts, text)?;
    }
    Ok(texts)
}

/// Whether a session of `old` patterns would have too many with those of a list. No text is copied.
pub fn too_many(old: usize, list: &[u8]) -> bool
    requires { old ≤ most_patterns }
    ensures { MatchBool result (most_patterns < old + length (list_of list.now))
        (old + length (list_of list.now) ≤ most_patterns) }
{
    split_list(list).nth(MOST_PATTERNS - old).is_some()
}

/// Whether two texts are the same.
pub fn is_text(old: &[u8], new: &[u8]) -> bool
    ensures { MatchBool result (new.now ≡ old.now) (new.now ≡ old.now → ⊥) }
{
    new == old
}

/// Whether a pattern with the new text is known to match no line that one with the old text
/// doesn't.
pub fn narrows(syntax: Syntax, options: &Options, old: &[u8], new: &[u8]) -> bool
    ensures { MatchBool result (Narrows syntax options.now old.now new.now)
        (Narrows syntax options.now old.now new.now → ⊥) }
{
    if !is_same(syntax, Syntax::Fixed) {
        return false;
    }
    if options.line_regexp {
        return false;
    }
    if old.is_empty() {
        return false;
    }
    Finder::new(old).find(new).is_some()
}

/// Adds texts, for which there is room.
pub fn add_texts(texts: &mut Vec<Vec<u8>>, mut more: Vec<Vec<u8>>)
    requires { vec_len texts.old + vec_len more ≤ vec_capacity texts.old }
    ensures { texts.new.items ≡ texts.old.items ++ more.items }
{
    let _ = texts.append(&mut more);
}
