ghost use Rattle.std.specs.Prelude.{◌≡◌, ◌≤◌, Some, length, drop, slice_get, MatchOption};
ghost use Rattle.{re_trees.specs.Bytes.Begins, re_syntax.specs.Working.Ahead.IsAfter};

/// The place after these bytes, if the text has them at the place `at`.
pub fn after(text: &[u8], at: usize, bytes: &[u8]) -> Option<usize>
    requires { at ≤ length text.now }
    ensures { MatchOption result (¬ Begins bytes.now (drop at text.now))
        (IsAfter bytes.now text.now at) }
{
    if text[at..].starts_with(bytes) {
        Some(at + bytes.len())
    } else {
        None
    }
}

/// The byte at a place of the text.
pub fn byte_at(text: &[u8], at: usize) -> Option<u8>
    ensures { MatchOption result (length text.now ≤ at) (λ b. slice_get text.now at ≡ Some b) }
{
    text.get(at).copied()
}
