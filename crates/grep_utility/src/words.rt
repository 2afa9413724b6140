//! The words of grep, and what they ask for (XBD 12.2; XCU grep, SYNOPSIS, OPTIONS, OPERANDS).
ghost use Rattle.std.specs.Prelude.{◌≡◌, [], ◌∷◌, ◌++◌, IfOk, MatchResult};
ghost use Rattle.grep_utility.specs.Working.Tokens.{token_of, OrMemory, AreRead, drafted, asked};
ghost use Rattle.grep_utility.specs.Words.{completed, context_of, may_follow, no_numbers};
ghost use Rattle.grep_utility.specs.Words.{nothing_asked, pieces, reads_on, texts_of, with_context};
ghost use Rattle.grep_utility.specs.Words.{with_piece};

pub mod around;
pub mod tokens;

use crate::words::around::Around;
use crate::words::tokens::{Token, tokens_of};
use grep_core::Options;
use re_syntax::Syntax;
use std::alloc::{AllocError, Global};

/// Why words are refused.
#[derive(Clone, Copy, PartialEq, Eq, Debug, Drop)]
pub enum UsageFault {
    /// This character is no option of grep.
    UnknownOption(char),
    /// No argument follows this option, which is `A`, `B`, `C`, `e` or `f`.
    MissingArgument(char),
    /// The argument of this option, which is `A`, `B` or `C`, is no number.
    BadNumber(char),
    /// Both of `-E` and `-F` were given.
    TwoSyntaxes,
    /// There is no `-e`, no `-f` and no operand.
    NoPattern,
    /// An allocation failed.
    Memory,
}

impl From<AllocError> for UsageFault {
    ghost use Rattle.std.specs.Prelude.{◌≡◌};
    ghost use Rattle.grep_utility.specs.declared.words.UsageFault.{UsageFault};

    ghost from_gives = { λ _ fault. fault ≡ UsageFault.Memory };

    fn from(_: AllocError) -> UsageFault {
        UsageFault::Memory
    }
}

/// Where patterns come from.
#[derive(PartialEq, Eq, Debug, Drop)]
pub enum PatternSource {
    /// A pattern list: the argument of `-e`, or the first operand where there is no `-e` and no
    /// `-f`.
    List(String),
    /// The pattern file of this name: the argument of `-f`.
    File(String),
}

/// What words ask for.
#[derive(PartialEq, Eq, Debug, Drop)]
pub struct Request {
    /// How the patterns are read.
    pub syntax: Syntax,
    pub options: Options,
    /// Where the patterns come from, in order.
    pub sources: Vec<PatternSource>,
    /// The names of the files that are searched, in order; standard input is searched where there
    /// are none.
    pub files: Vec<String>,
}

/// Whether the option for the second syntax may follow that for the first, or none.
fn goes_with(before: Syntax, syntax: Syntax) -> bool
    ensures { result ≡ may_follow before syntax }
{
    match (before, syntax) {
        (Syntax::Extended, Syntax::Fixed) => false,
        (Syntax::Fixed, Syntax::Extended) => false,
        _ => true,
    }
}

/// Adds an element.
fn push<T: Drop>(list: &mut Vec<T>, element: T) -> Result<(), AllocError>
    ensures { IfOk result (λ _. list.new.items ≡ list.old.items ++ element ∷ []) }
{
    list.push(element)?;
    Ok(())
}

impl Request {
    /// Without `-e` and `-f` the first operand is the pattern list.
    ///
    /// Returns `NoPattern` where there is none, and `Memory` if an allocation fails.
    fn complete(mut self) -> Result<Request, UsageFault>
        ensures { MatchResult result
            (λ request. completed (asked self) ≡ Ok (asked request))
            (λ fault. OrMemory fault (completed (asked self) ≡ Err fault)) }
    {
        if self.sources.is_empty() {
            if self.files.is_empty() {
                return Err(UsageFault::NoPattern);
            }
            let list = self.files.remove(0);
            push(&mut self.sources, PatternSource::List(list))?;
        }
        Ok(self)
    }
}

/// What words ask for, as far as they were read.
#[derive(Drop)]
struct Draft {
    request: Request,
    around: Around,
}

impl Draft {
    /// A request before any word is read.
    fn new(alloc: Global) -> Draft
        ensures numbers { result.around ≡ no_numbers }
        ensures nothing { asked result.request ≡ nothing_asked }
    {
        let request = Request {
            syntax: Syntax::Basic,
            options: Options::default(),
            sources: Vec::new(alloc),
            files: Vec::new(alloc),
        };
        Draft {
            request,
            around: Around::default(),
        }
    }

    /// Adds what the words ask for, up to their first fault, which it returns as
    /// [`Draft::add`] does.
    fn add_words(&mut self, alloc: Global, words: &[String]) -> Result<(), UsageFault>
        ensures { MatchResult result
            (λ _. reads_on (drafted self.new) []
            ≡ reads_on (drafted self.old) (pieces (texts_of words.now) None))
            (λ fault. OrMemory fault
            (reads_on (drafted self.old) (pieces (texts_of words.now) None) ≡ Err fault)) }
    {
        for item in tokens_of(words) {
            let piece = item?;
            self.add(alloc, piece)?;
        }
        Ok(())
    }

    /// Adds what an option or an operand asks for.
    ///
    /// Returns `TwoSyntaxes` where one of `-E` and `-F` follows the other, and `Memory` if an
    /// allocation fails.
    fn add(&mut self, alloc: Global, piece: Token) -> Result<(), UsageFault>
        ensures { MatchResult result
            (λ _. with_piece (drafted self.old) (token_of (Ok piece.entry)) ≡ Ok (drafted self.new))
            (λ fault. OrMemory fault
            (with_piece (drafted self.old) (token_of (Ok piece.entry)) ≡ Err fault)) }
    {
        let request = &mut self.request;
        match piece {
            Token::Flag(flag) => request.options.set(flag, true),
            Token::Syntax(syntax) if goes_with(request.syntax, syntax) => request.syntax = syntax,
            Token::Syntax(_) => return Err(UsageFault::TwoSyntaxes),
            Token::List(text) => {
                let list = String::from_str(alloc, text)?;
                push(&mut request.sources, PatternSource::List(list))?
            }
            Token::File(name) => {
                let name = String::from_str(alloc, name)?;
                push(&mut request.sources, PatternSource::File(name))?
            }
            Token::Around(side, count) => self.around.set(side, count),
            Token::Operand(text) => push(&mut request.files, String::from_str(alloc, text)?)?,
        }
        Ok(())
    }

    /// What all words ask for.
    ///
    /// Returns `NoPattern` where there is no pattern, and `Memory` if an allocation fails.
    fn complete(mut self) -> Result<Request, UsageFault>
        ensures { MatchResult result
            (λ request. reads_on (drafted self) [] ≡ Ok (asked request))
            (λ fault. OrMemory fault (reads_on (drafted self) [] ≡ Err fault)) }
    {
        self.request.options.context = self.around.context();
        self.request.complete()
    }
}

/// Reads the words that follow the name of the command.
///
/// The first fault from the left is returned: `UnknownOption` if a character of a group of options
/// is not an option, `MissingArgument` if nothing follows an option that needs an argument,
/// `BadNumber` if that of `-A`, `-B` or `-C` is not a number, `TwoSyntaxes` if one of `-E` and `-F`
/// follows the other; otherwise `NoPattern` if there is no `-e`, no `-f` and no operand. `Memory`
/// is returned if an allocation fails.
pub fn read_words(alloc: Global, words: &[String]) -> Result<Request, UsageFault>
    ensures { AreRead (texts_of words.now) result }
{
    let mut draft = Draft::new(alloc);
    draft.add_words(alloc, words)?;
    draft.complete()
}
