//! Laws of the definitions, as functions that do nothing.
ghost use Rattle.grep_cmd.specs.Editor.{EditorsFollow};

/// An editor makes its lists by the replies alone, from the first command on. The replies decide
/// its lists, and after each reply to `changes` these are the present hits of every file.
#[tactic(auto, using(crate::proofs::lemmas::EditorLaws::editors_follow))]
pub fn editors_follow()
    ensures { EditorsFollow }
{}
