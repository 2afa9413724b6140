ghost use Rattle.std.specs.Prelude.{◌≤◌, length};

/// A place in the text of a pattern. What is before it has been read, and the rest comes next. The
/// readers of patterns share it.
#[derive(Clone, Copy, Drop)]
pub struct Cursor<'a> {
    text: &'a [u8],
    at: usize,
    ghost in_text: { at ≤ length text.now },
}

impl<'a> Cursor<'a> {
    ghost use Rattle.std.specs.Prelude.{◌≡◌, ◌≤◌, [], ◌∷◌, length, MatchOption, MatchBool};
    ghost use Rattle.re_trees.specs.Bytes.{Begins};
    ghost use Rattle.re_syntax.specs.Working.Cursors.{left, Passes, IsAt};

    /// The place `at` of the text.
    pub fn new(text: &'a [u8], at: usize) -> Self
        requires { at ≤ length text.now }
        ensures { IsAt text.now at result }
    {
        Cursor { text, at }
    }

    /// The number of the text's bytes before the place.
    pub fn place(&self) -> usize
        ensures { result ≡ self.now.at }
    {
        self.at
    }

    /// The next byte.
    pub fn peek(&self) -> Option<u8>
        ensures { MatchOption result (left self.now ≡ []) (λ b. Begins (b ∷ []) (left self.now)) }
    {
        self.text.get(self.at).copied()
    }

    /// Moves past the next byte and returns it.
    pub fn take(&mut self) -> Option<u8>
        ensures { MatchOption result (left self.old ≡ []) (λ b. Passes (b ∷ []) self.old self.new) }
    {
        let byte = self.peek()?;
        self.at += 1;
        Some(byte)
    }

    /// Moves past these bytes where they come next, and otherwise stays. Says whether it moved.
    pub fn skip(&mut self, bytes: &[u8]) -> bool
        ensures skipped { MatchBool result (Passes bytes.now self.old self.new)
            (¬ Begins bytes.now (left self.old)) }
        ensures else_same { MatchBool result Unit (self.new ≡ self.old) }
    {
        let follows = self.text[self.at..].starts_with(bytes);
        if follows {
            self.at += bytes.len();
        }
        follows
    }
}
