ghost use Rattle.std.specs.{Prelude.◌≡◌, Iterator.{YieldsFirstRef, item_count}};
ghost use Rattle.re_trees.specs.Lines.{list_of, lines_of};

use memchr::memchr;
use std::marker::Model;

/// The patterns of a list that the iterator has not returned yet, in order. A contract sees the
/// list of their texts.
#[derive(Drop)]
pub struct Patterns<'a> {
    rest: Option<&'a [u8]>,
}

impl<'a> Model for Patterns<'a> {
    ghost use Rattle.std.specs.Prelude.{ℕ, List};
    ghost use Rattle.re_trees.specs.Working.Splits.{texts_of_rest};

    ghost Value = { List (List ℕ) };

    ghost view = { λ p. texts_of_rest p.rest };
}

/// The patterns of a pattern list: the texts between its newlines, each a part of the list (XCU
/// grep, OPERANDS). So `k` newlines give `k + 1` patterns, and the empty list gives one empty
/// pattern.
pub fn split_list(text: &[u8]) -> Patterns<'_>
    ensures { result ≡ list_of text.now }
{
    Patterns { rest: Some(text) }
}

impl<'a> Iterator for Patterns<'a> {
    type Item = &'a [u8];

    ghost next_gives = { YieldsFirstRef (λ texts. texts) };

    ghost remaining = { item_count (λ texts. texts) };

    fn next(&mut self) -> Option<&'a [u8]> {
        let rest = self.rest?;
        match rest.iter().position(|b| *b == b'\n') {
            Some(at) => {
                self.rest = Some(&rest[at + 1..]);
                Some(&rest[..at])
            }
            None => {
                self.rest = None;
                Some(rest)
            }
        }
    }
}

/// The patterns of a pattern file that the iterator has not returned yet, in order. A contract sees
/// the list of their texts.
#[derive(Drop)]
pub struct FilePatterns<'a> {
    rest: &'a [u8],
}

impl<'a> Model for FilePatterns<'a> {
    ghost use Rattle.std.specs.Prelude.{ℕ, List};
    ghost use Rattle.re_trees.specs.Lines.{lines_of};

    ghost Value = { List (List ℕ) };

    ghost view = { λ p. lines_of p.rest.now };
}

/// The patterns of a pattern file: its lines, each a part of the text (XCU grep, option `-f`). A
/// last line may lack its newline. An empty line is an empty pattern, and an empty file has none.
pub fn split_file(text: &[u8]) -> FilePatterns<'_>
    ensures { result ≡ lines_of text.now }
{
    FilePatterns { rest: text }
}

impl<'a> Iterator for FilePatterns<'a> {
    type Item = &'a [u8];

    ghost next_gives = { YieldsFirstRef (λ texts. texts) };

    ghost remaining = { item_count (λ texts. texts) };

    fn next(&mut self) -> Option<&'a [u8]> {
        let rest = self.rest;
        if rest.is_empty() {
            return None;
        }
        match memchr(b'\n', rest) {
            Some(at) => {
                let line = &rest[..at];
                self.rest = &rest[at + 1..];
                Some(line)
            }
            None => {
                self.rest = &rest[rest.len()..];
                Some(rest)
            }
        }
    }
}
