//! Laws of the definitions, as functions that do nothing.
ghost use Rattle.grep_live.specs.Laws.{EditsCarry, NothingTwice, OneSplice, OnlyTouched};
ghost use Rattle.grep_live.specs.Laws.{UntouchedLines};

/// A list of hits that is right but for touched lines is so after each edit, and the marks that the
/// edit leaves fit the files.
pub fn edits_carry()
    ensures { EditsCarry }
{}

/// No row is written for files whose changes were all reported.
#[tactic(auto, using(crate::proofs::lemmas::TwiceLemmas::nothing_twice))]
pub fn nothing_twice()
    ensures { NothingTwice }
{}

/// After one accepted splice since all changes were reported, rows are written for its file alone:
/// they say which lines it replaced, by how many, and at most one hit for each new line.
pub fn one_splice()
    ensures { OneSplice }
{}

/// If edits since all changes were reported left the first and the last lines of a file as they
/// are, none of these is reported as replaced, and no hit is reported among them.
pub fn only_touched()
    ensures { OnlyTouched }
{}

/// If edits since all changes were reported left a line as it is, and no more than 64 of them were
/// splices, that line is not reported as replaced.
pub fn untouched_lines()
    ensures { UntouchedLines }
{}
