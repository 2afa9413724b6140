//! How what is found in the lines of all chunks changes.
ghost use Rattle.std.specs.{Prelude.{◌≡◌, ℕ, length, map, drop}, Vec.Iter.into_iter_items};
ghost use Rattle.line_chunks.specs.Working.Chunks.{line_without, with_columns, FitColumns};
ghost use Rattle.line_chunks.specs.Working.{Columns.{next_column, FitsNext}, Sums.chunks_of};

use crate::entries::Entry;
use line_finds::Found;
use std::vec::IntoIter;

/// Replaces what is found in the lines of a chunk with the next of these.
fn put_next(entry: &mut Entry, found: &mut IntoIter<Option<Found>>)
    requires { FitsNext entry.old.chunk (into_iter_items found.old) }
    ensures chunk { entry.new.chunk ≡ next_column entry.old.chunk (into_iter_items found.old) }
    ensures rest { into_iter_items found.new ≡ drop 1 (into_iter_items found.old) }
{
    let Some(next) = found.next() else {
        return;
    };
    let Some(column) = next else {
        return;
    };
    entry.chunk.set_found(column);
}

/// Replaces what is found in the lines of each chunk with the next of these.
pub fn put_all(entries: &mut Vec<Entry>, found: &mut IntoIter<Option<Found>>)
    requires { FitColumns (chunks_of entries.old.items) (into_iter_items found.old) }
    ensures chunks { chunks_of entries.new.items ≡
        with_columns (chunks_of entries.old.items) (into_iter_items found.old) }
    ensures rest { into_iter_items found.new ≡
        drop (length entries.old.items) (into_iter_items found.old) }
{
    for k in 0..entries.len() {
        put_next(&mut entries[k], found);
    }
}

/// Removes pattern `p` from what is found in the lines of a chunk.
fn drop_from(entry: &mut Entry, p: usize)
    ensures { entry.new.chunk ≡ map (line_without p) entry.old.chunk }
{
    entry.chunk.drop_number(p);
}

/// Removes pattern `p` from what is found in the lines of each chunk.
pub fn drop_in_all(entries: &mut Vec<Entry>, p: usize)
    ensures { chunks_of entries.new.items ≡ map (map (line_without p)) (chunks_of entries.old.items) }
{
    for k in 0..entries.len() {
        drop_from(&mut entries[k], p);
    }
}
