/// A stretch of bytes, from its first byte to the place after its last, both counted from 0: a part
/// of a line, which is not empty, or a line of a block, which may be empty.
#[derive(Clone, Copy, PartialEq, Eq, Debug, Drop)]
pub struct Span {
    /// The place of the first byte.
    pub start: usize,
    /// The place after the last byte.
    pub end: usize,
}
