//! A reader of a text in memory.
ghost use Rattle.std.specs.Prelude.{◌≡◌};

use grep_core::CountedRead;

/// What is left to read of a text. No read fails.
#[derive(Drop)]
pub(crate) struct TextReader<'a> {
    rest: &'a [u8],
}

/// A reader of the whole text.
pub(crate) fn read_text(text: &[u8]) -> TextReader<'_>
    ensures { result.rest.now ≡ text.now }
{
    TextReader { rest: text }
}

impl CountedRead for TextReader<'_> {
    ghost use Rattle.std.specs.Prelude.{Some};

    ghost remaining = { λ r. Some r.rest.now };

    ghost failures = { λ _. 0 };

    fn pull(&mut self, into: &mut [u8]) -> Option<usize> {
        let count = into.len().min(self.rest.len());
        into[..count].copy_from_slice(&self.rest[..count]);
        self.rest = &self.rest[count..];
        Some(count)
    }

    fn failures(&self) -> u64 {
        0
    }
}
