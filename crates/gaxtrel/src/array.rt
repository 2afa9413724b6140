//! Items that are written over an array.
ghost use Rattle.std.specs.Prelude.{◌≡◌, set};

/// Writes the item over the one at a place, if there is one.
pub(crate) fn put<T: Copy>(items: &mut [T], place: usize, item: T)
    ensures { items.new ≡ set items.old place item }
{
    if place < items.len() {
        items[place] = item;
    }
}
