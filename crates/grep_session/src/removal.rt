//! A pattern is removed, and the later ones move up; or another is put in its place.
ghost use Rattle.std.specs.Prelude.{◌≡◌, ◌<◌, List, length, map, false, All, ◌≤◌, vec_len};
ghost use Rattle.std.specs.{Prelude.{vec_capacity, get_or, slice_set}, List.{remove, insert}};
ghost use Rattle.re_syntax.specs.Expression.{Expression};
ghost use Rattle.grep_core.specs.declared.options.Options.{Options};
ghost use Rattle.grep_session.specs.Working.Kept.{IsFileKept, kept_file};

use crate::kept::KeptFile;
use re_search::Matcher;
use std::mem::replace;

/// Removes pattern `p` from what is kept of a file.
fn drop_in_file(file: &mut KeptFile, p: usize)
    ensures same { kept_file file.new ≡ kept_file file.old }
    ensures kept { (es : List Expression) (options : Options) → p < length es →
        options.only_matching ≡ false → IsFileKept es options file.old →
        IsFileKept (remove es p) options file.new }
{
    match &mut file.lines {
        None => {}
        Some(lines) => lines.drop_number(p),
    }
}

/// Removes pattern `p` from what is kept of the files of a session.
pub fn drop_column(files: &mut Vec<KeptFile>, p: usize)
    ensures same { map kept_file files.new.items ≡ map kept_file files.old.items }
    ensures kept { (es : List Expression) (options : Options) → p < length es →
        options.only_matching ≡ false → All (IsFileKept es options) files.old.items →
        All (IsFileKept (remove es p) options) files.new.items }
{
    for file in files.iter_mut() {
        drop_in_file(file, p);
    }
}

/// Puts a removed matcher back in its place. There is room for it.
pub fn put_back(matchers: &mut Vec<Matcher>, p: usize, gone: Matcher)
    requires within { p ≤ length matchers.old.items }
    requires room { vec_len matchers.old < vec_capacity matchers.old }
    ensures { matchers.new.items ≡ insert matchers.old.items p gone }
{
    let _ = matchers.insert(p, gone);
}

/// Puts a matcher in the place of another, and returns that one.
pub fn exchange(matchers: &mut Vec<Matcher>, p: usize, new: Matcher) -> Matcher
    requires { p < length matchers.old.items }
    ensures items { matchers.new.items ≡ slice_set matchers.old.items p new }
    ensures gone { result ≡ get_or matchers.old.items p result }
{
    replace(&mut matchers[p], new)
}
