//! Fixed texts on standard error (XCU grep, STDERR), and the exit status of a command that failed.

/// The exit status of a command that failed (XCU grep, EXIT STATUS).
pub const FAILED: u8 = 2;

/// How the command is used (XCU grep, SYNOPSIS).
pub const USAGE: &[u8] =
    b"usage: grep [-E|-F] [-cilnoqsvx] [-A NUM] [-B NUM] [-C NUM] [-e LIST]... [-f FILE]... [LIST] \
    [FILE...]";

/// An allocation failed.
pub const OUT_OF_MEMORY: &[u8] = b"grep: out of memory";

/// Standard output could not be written.
pub const WRITE_ERROR: &[u8] = b"grep: write error";
