//! Laws of the definitions, each the contract of a function that does nothing.
ghost use Rattle.grep_utility.specs.Working.Known.{CountDecides, WordsDecide};
ghost use Rattle.grep_utility.specs.Working.Worked.{BrokenFollows, RowFollows};

use grep_core::Options;

/// Without `-q` and `-l`, known sources in which no more failures are met than there are sources
/// that cannot be opened were all read to their ends.
pub fn failures_decide(_options: Options)
    ensures { CountDecides _options }
{}

/// Words that name known files, without `-q`, `-l` and `-f`, tell all that is written and the
/// status, if as many failures of files are counted as there are files that cannot be opened.
pub fn words_decide()
    ensures { WordsDecide }
{}

/// `grep -n -B 2 a h missing`, worked by hand: what it writes for a file `h` of three lines, where
/// there is no file `missing`.
pub fn row_follows()
    ensures { RowFollows }
{}

/// `grep -n a f`, worked by hand: what it writes for a file `f` whose reads fail after five bytes.
pub fn broken_follows()
    ensures { BrokenFollows }
{}
