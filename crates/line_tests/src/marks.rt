//! Marks between which an allocation fails.
//!
//! The library that tools/refuse_growths.sh loads before the C library takes requests of two sizes
//! as commands. Without it each request is granted.
use std::alloc::{AllocError, Global};

/// A request for this number of bytes and N more has the N-th request after it refused.
const REFUSE: usize = 9_000_000;

/// A request for this number of bytes is refused where one was since the last command, and ends
/// that command.
const WAS_REFUSED: usize = 8_000_000;

/// Makes a request for this number of bytes.
fn ask(alloc: Global, bytes: usize) -> Result<usize, AllocError> {
    let mut mark = Vec::with_capacity(alloc, bytes)?;
    mark.push(b'.')?;
    Ok(mark.len())
}

/// Has the N-th request for memory from here on refused, none where N is 0.
pub fn refuse(alloc: Global, n: usize) -> Result<(), AllocError> {
    ask(alloc, REFUSE.saturating_add(n))?;
    Ok(())
}

/// Whether a request was refused since that was asked for. From here on none is.
pub fn was_refused(alloc: Global) -> bool {
    ask(alloc, WAS_REFUSED).is_err()
}
