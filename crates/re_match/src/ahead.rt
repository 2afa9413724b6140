//! What a matcher says of the next part of a line.
use re_ends::Window;
use re_trees::Span;

/// What a matcher says of the next part of a line.
#[derive(Clone, Copy, Drop)]
pub enum Ahead {
    /// It is this one.
    Part(Span),
    /// It begins in this stretch, or after the byte that ends it, if there is one.
    In(Window),
    /// There is none.
    Nothing,
}
