//! One element more in a vector.
ghost use Rattle.std.specs.Prelude.{◌≡◌, ◌++◌, ◌∷◌, [], IfOk, OnErr};

use std::alloc::AllocError;

/// Adds an element. If memory runs out, the vector stays as it is.
pub fn push<T: Drop>(all: &mut Vec<T>, one: T) -> Result<(), AllocError>
    ensures ok { IfOk result (λ _. all.new.items ≡ all.old.items ++ one ∷ []) }
    ensures err { OnErr result (all.new.items ≡ all.old.items) }
{
    all.push(one)?;
    Ok(())
}
