//! The words of a command line.
ghost use Rattle.std.specs.{Prelude.{◌≡◌, [], ◌∷◌, option_map}, Iterator.YieldsFirstRef};
ghost use Rattle.std.specs.Iterator.{item_count};
ghost use Rattle.script_commands.specs.Working.LineWords.{two_words, four_words, only_word};
ghost use Rattle.script_commands.specs.Commands.{words_of};

use std::marker::Model;

/// The words of a line that were not handed out, in order. A contract sees the list of their texts.
#[derive(Drop)]
pub struct LineWords<'a> {
    rest: Option<&'a [u8]>,
}

impl<'a> Model for LineWords<'a> {
    ghost use Rattle.std.specs.Prelude.{List};
    ghost use Rattle.re_syntax.specs.Bytes.{Text};
    ghost use Rattle.script_commands.specs.Working.LineWords.{words_of_rest};

    ghost Value = { List Text };

    ghost view = { λ w. words_of_rest w.rest };
}

/// The words of a line, separated by single spaces: one more than there are spaces.
pub fn words_of(line: &[u8]) -> LineWords<'_>
    ensures { result ≡ words_of line.now }
{
    LineWords { rest: Some(line) }
}

impl<'a> Iterator for LineWords<'a> {
    type Item = &'a [u8];

    ghost next_gives = { YieldsFirstRef (λ words. words) };

    ghost remaining = { item_count (λ words. words) };

    fn next(&mut self) -> Option<&'a [u8]> {
        let rest = self.rest?;
        match rest.iter().position(|byte| *byte == b' ') {
            Some(at) => {
                self.rest = Some(&rest[at + 1..]);
                Some(&rest[..at])
            }
            None => {
                self.rest = None;
                Some(rest)
            }
        }
    }
}

impl<'a> LineWords<'a> {
    /// The only word that is left.
    pub fn only(mut self) -> Option<&'a [u8]>
        ensures { option_map (λ word. word.now) result ≡ only_word self.entry }
    {
        let word = self.next()?;
        match self.next() {
            Some(_) => None,
            None => Some(word),
        }
    }

    /// The two words that are left.
    pub fn two(mut self) -> Option<(&'a [u8], &'a [u8])>
        ensures { option_map (λ words. words.0.now ∷ words.1.now ∷ []) result ≡
            two_words self.entry }
    {
        let first = self.next()?;
        let second = self.only()?;
        Some((first, second))
    }

    /// The four words that are left, two and two.
    pub fn four(mut self) -> Option<((&'a [u8], &'a [u8]), (&'a [u8], &'a [u8]))>
        ensures { option_map
            (λ words. words.0.0.now ∷ words.0.1.now ∷ words.1.0.now ∷ words.1.1.now ∷ []) result ≡
            four_words self.entry }
    {
        let first = self.next()?;
        let second = self.next()?;
        let last = self.two()?;
        Some(((first, second), last))
    }
}
