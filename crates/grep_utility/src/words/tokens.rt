//! The options with their arguments, and the operands, of a command's words (XBD 12.2).
ghost use Rattle.std.specs.Prelude.{◌≡◌, ◌∷◌, [], MatchOption, None, bytes_eq, codes, false};
ghost use Rattle.std.specs.{Str.chars, Iterator.{YieldsFirstBy, YieldsFirstRef, item_count}};
ghost use Rattle.grep_utility.specs.Words.{a_group, an_operand, group, meaning_of, pieces};
ghost use Rattle.grep_utility.specs.Words.{texts_of, with_argument, word_of};
ghost use Rattle.grep_utility.specs.Working.Tokens.{AreUsedUp, token_of, tokens_left, words_left};

use crate::number::read_lines;
use crate::words::UsageFault;
use crate::words::around::Side;
use grep_core::Flag;
use re_syntax::Syntax;

/// What the argument of an option is.
#[derive(Clone, Copy, Drop)]
pub enum Argument {
    /// Of `-e`: a pattern list.
    List,
    /// Of `-f`: the name of a pattern file.
    File,
    /// Of `-A`, `-B` and `-C`: how many lines are shown on a side of selected ones.
    Lines(Side),
}

/// What a character means as an option.
#[derive(Clone, Copy, Drop)]
pub enum Meaning {
    Flag(Flag),
    Syntax(Syntax),
    Takes(Argument),
}

/// An option with its argument, or an operand.
#[derive(Clone, Copy, Drop)]
pub enum Token<'a> {
    Flag(Flag),
    Syntax(Syntax),
    /// A pattern list.
    List(&'a str),
    /// The name of a pattern file.
    File(&'a str),
    /// This number of lines is shown on a side of selected ones.
    Around(Side, u64),
    Operand(&'a str),
}

/// What the character means as an option (XCU grep, OPTIONS; `A`, `B`, `C` and `o` after the GNU
/// manual).
#[tactic(auto, unfolding(crate::specs::Words::meaning_of))]
pub fn meaning_of_option(letter: char) -> Option<Meaning>
    ensures { result ≡ meaning_of letter }
{
    Some(match letter {
        'E' => Meaning::Syntax(Syntax::Extended),
        'F' => Meaning::Syntax(Syntax::Fixed),
        'c' => Meaning::Flag(Flag::Count),
        'e' => Meaning::Takes(Argument::List),
        'f' => Meaning::Takes(Argument::File),
        'i' => Meaning::Flag(Flag::IgnoreCase),
        'l' => Meaning::Flag(Flag::FilesWithMatches),
        'n' => Meaning::Flag(Flag::LineNumber),
        'q' => Meaning::Flag(Flag::Quiet),
        's' => Meaning::Flag(Flag::NoMessages),
        'v' => Meaning::Flag(Flag::InvertMatch),
        'x' => Meaning::Flag(Flag::LineRegexp),
        'A' => Meaning::Takes(Argument::Lines(Side::After)),
        'B' => Meaning::Takes(Argument::Lines(Side::Before)),
        'C' => Meaning::Takes(Argument::Lines(Side::Both)),
        'o' => Meaning::Flag(Flag::OnlyMatching),
        _ => return None,
    })
}

/// The option of this letter with its argument. Returns `BadNumber` where the argument of `-A`,
/// `-B` or `-C` is no number.
fn with_argument(letter: char, argument: Argument, text: &str) -> Result<Token<'_>, UsageFault>
    ensures { token_of result ≡ with_argument letter argument text.now }
{
    match argument {
        Argument::List => Ok(Token::List(text)),
        Argument::File => Ok(Token::File(text)),
        Argument::Lines(side) => {
            let Some(count) = read_lines(text.as_bytes()) else {
                return Err(UsageFault::BadNumber(letter));
            };
            Ok(Token::Around(side, count))
        }
    }
}

/// The first character of the text and what follows it.
fn split_first_char(text: &str) -> Option<(char, &str)>
    ensures { MatchOption result (chars text.now ≡ []) (λ found.
        chars text.now ≡ found.0 ∷ chars found.1.now) }
{
    let mut characters = text.chars();
    let first = characters.next()?;
    Some((first, characters.as_str()))
}

/// The first option of a word other than `--`, and what follows it, if the word is a group of
/// options (XBD 12.2, Guidelines 4, 5 and 13).
fn group_of(word: &str) -> Option<(char, &str)>
    requires { bytes_eq word.now (codes "--") ≡ false }
    ensures { MatchOption result (word_of word.now ≡ an_operand) (λ found.
        word_of word.now ≡ a_group (found.0 ∷ chars found.1.now)) }
{
    let (first, letters) = split_first_char(word)?;
    if first != '-' {
        return None;
    }
    split_first_char(letters)
}

/// The pieces of words from the first word on, or the faults in their place.
#[derive(Drop)]
pub struct WordTokens<'a> {
    words: &'a [String],
    /// What is left of a group of options; `None` after `--`.
    letters: Option<&'a str>,
}

/// The pieces of the words.
pub fn tokens_of(words: &[String]) -> WordTokens<'_>
    ensures { tokens_left result ≡ pieces (texts_of words.now) None }
{
    WordTokens {
        words,
        letters: Some(""),
    }
}

impl<'a> WordTokens<'a> {
    /// The next word.
    fn next_word(&mut self) -> Option<&'a str>
        ensures letters { self.new.letters ≡ self.old.letters }
        ensures word { YieldsFirstRef words_left self.old result self.new }
    {
        let (word, others) = self.words.split_first()?;
        self.words = others;
        Some(word.as_str())
    }

    /// The next word as an operand, after a `--`.
    fn operand(&mut self) -> Option<Result<Token<'a>, UsageFault>>
        requires { self.old.letters ≡ None }
        ensures { YieldsFirstBy token_of tokens_left self.old result self.new }
    {
        Some(Ok(Token::Operand(self.next_word()?)))
    }

    /// The first piece of the next word, where the one before it is used up.
    #[tactic(auto, using(crate::proofs::lemmas::TokenLemmas::used_up))]
    fn piece(&mut self) -> Option<Result<Token<'a>, UsageFault>>
        requires { AreUsedUp self.old.letters }
        ensures { YieldsFirstBy token_of tokens_left self.old result self.new }
    {
        let word = self.next_word()?;
        if word == "--" {
            self.letters = None;
            return self.operand();
        }
        match group_of(word) {
            Some((letter, rest)) => Some(self.option(letter, rest)),
            None => Some(Ok(Token::Operand(word))),
        }
    }

    /// The option of a group, whose argument may be the rest of the group or the next word.
    fn option(&mut self, letter: char, rest: &'a str) -> Result<Token<'a>, UsageFault>
        ensures { group (pieces (words_left self.old)) (letter ∷ chars rest.now)
            ≡ token_of result ∷ tokens_left self.new }
    {
        self.letters = Some(rest);
        let argument = match meaning_of_option(letter) {
            None => return Err(UsageFault::UnknownOption(letter)),
            Some(Meaning::Flag(flag)) => return Ok(Token::Flag(flag)),
            Some(Meaning::Syntax(syntax)) => return Ok(Token::Syntax(syntax)),
            Some(Meaning::Takes(argument)) => argument,
        };
        self.letters = Some("");
        if !rest.is_empty() {
            return with_argument(letter, argument, rest);
        }
        match self.next_word() {
            Some(word) => with_argument(letter, argument, word),
            None => Err(UsageFault::MissingArgument(letter)),
        }
    }
}

impl<'a> Iterator for WordTokens<'a> {
    type Item = Result<Token<'a>, UsageFault>;

    ghost next_gives = { YieldsFirstBy token_of tokens_left };

    ghost remaining = { item_count tokens_left };

    fn next(&mut self) -> Option<Result<Token<'a>, UsageFault>> {
        let Some(letters) = self.letters else {
            return self.operand();
        };
        match split_first_char(letters) {
            Some((letter, rest)) => Some(self.option(letter, rest)),
            None => self.piece(),
        }
    }
}
