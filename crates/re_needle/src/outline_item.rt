//! Marks of outlines.

use re_trees::ByteSet;

/// A mark of an outline.
#[derive(Clone, Copy)]
pub enum OutlineItem {
    /// One byte of the set.
    Set(ByteSet),
    /// Any bytes, or none; none are enough.
    Optional,
    /// Any bytes, or none.
    Gap,
}
