//! Stretches of replaced lines.

/// Lines of a file that were replaced by others, counted from the stretch before it.
#[derive(Clone, Copy, Default, Drop)]
pub struct Stretch {
    /// The untouched lines before it, after the stretch before.
    pub kept: usize,
    /// The lines that were replaced, of those that the file had when its changes were last reported.
    pub removed: usize,
    /// The lines that stand there now.
    pub added: usize,
}
