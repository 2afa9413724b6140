//! Lines that are replaced by others.
ghost use Rattle.std.specs.Prelude.{map, ◌-◌, ◌≢◌, ◌≡◌, ◌≤◌, [], ◌+◌, IfOk, OnErr, IfSome, length};
ghost use Rattle.std.specs.{Prelude.IfErr, List.splice, Option.option_map};
ghost use Rattle.grep_session.specs.Working.{Kept.{kept_lines, kept_file}, Refusals.PlaceGives};
ghost use Rattle.grep_session.specs.declared.fault.EditFault.TheVariants.{Memory};
ghost use Rattle.line_chunks.specs.Working.Chunks.{all_of};

use crate::fault::EditFault;
use crate::kept::{FileLines, KeptFile};
use std::alloc::{AllocError, Global};

/// Whether file `k` has `count` lines from `start` on.
pub fn find_place(files: &[KeptFile], k: usize, start: usize, count: usize) -> Result<(), EditFault>
    ensures place { PlaceGives (map kept_file files.now) k start count result }
    ensures reported { IfErr result (λ fault. fault ≢ Memory) }
{
    if k >= files.len() {
        return Err(EditFault::NoSuchFile);
    }
    let Some(lines) = &files[k].lines else {
        return Err(EditFault::FileIsMissing);
    };
    if start > lines.len() {
        return Err(EditFault::OutOfRange);
    }
    let after = lines.len() - start;
    if count > after {
        return Err(EditFault::OutOfRange);
    }
    Ok(())
}

/// Replaces lines of a file with others. Without new lines nothing is allocated.
pub fn put_in(
    alloc: Global,
    file: &mut KeptFile,
    start: usize,
    count: usize,
    new: &FileLines,
) -> Result<(), AllocError>
    requires { IfSome (kept_lines file.old) (λ lines. start + count ≤ length lines) }
    ensures name { file.new.name ≡ file.old.name }
    ensures ok { IfOk result
        (λ _. kept_lines file.new ≡
        option_map (λ lines. splice lines start (start + count) (all_of new.now)) (kept_lines file.old)) }
    ensures err { OnErr result (kept_lines file.new ≡ kept_lines file.old) }
    ensures memory { all_of new.now ≡ [] → IfErr result (λ _. ⊥) }
{
    match &mut file.lines {
        None => Ok(()),
        Some(lines) => lines.splice(alloc, start, count, new),
    }
}
