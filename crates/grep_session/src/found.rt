//! How what is found in all lines replaces what is kept of them.
ghost use Rattle.std.specs.{Option.option_map, Vec.Iter.into_iter_items, List.AllZip};
ghost use Rattle.std.specs.Prelude.{length, List, ◌≡◌, map, drop, All};
ghost use Rattle.re_syntax.specs.Expression.{Expression};
ghost use Rattle.grep_core.specs.declared.options.Options.{Options};
ghost use Rattle.line_chunks.specs.Working.Chunks.{FitColumns, with_columns, FitsColumn};
ghost use Rattle.grep_session.specs.Working.Kept.{chunks_of, IsFileKept, chunks_of_files, IsColumn};
ghost use Rattle.grep_session.specs.Working.Kept.{kept_file};

use crate::kept::KeptFile;
use line_chunks::Found;
use std::vec::IntoIter;

/// Replaces what is kept of each chunk of a file with the next of what was found.
fn put_found_in(file: &mut KeptFile, found: &mut IntoIter<Option<Found>>)
    requires { FitColumns (chunks_of file.old) (into_iter_items found.old) }
    ensures name { file.new.name ≡ file.old.name }
    ensures lines { file.new.lines ≡
        option_map (λ chunks. with_columns chunks (into_iter_items found.old)) file.old.lines }
    ensures rest { into_iter_items found.new ≡
        drop (length (chunks_of file.old)) (into_iter_items found.old) }
{
    match &mut file.lines {
        None => {}
        Some(lines) => lines.put_columns(found),
    }
}

/// Replaces what is kept of all lines of a session's files, in order, with what was found in them.
pub fn put_columns(files: &mut Vec<KeptFile>, found: Vec<Option<Found>>)
    requires { AllZip FitsColumn (chunks_of_files files.old.items) found.items }
    ensures same { map kept_file files.new.items ≡ map kept_file files.old.items }
    ensures right { (es : List Expression) (options : Options) →
        AllZip (IsColumn es options) (chunks_of_files files.old.items) found.items →
        All (IsFileKept es options) files.new.items }
{
    let mut rest = found.into_iter();
    for file in files.iter_mut() {
        put_found_in(file, &mut rest);
    }
}
