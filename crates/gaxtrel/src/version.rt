//! The version of the library.
ghost use Rattle.std.specs.Prelude.{◌≡◌};
ghost use Rattle.gaxtrel.specs.Calls.{version};

/// The version as a number.
const VERSION: u32 = 1_000_000;

/// The version: 1,000,000 times its first number, 1,000 times its second, and its third.
#[unsafe(no_mangle)]
pub extern "C" fn gaxtrel_version() -> u32
    ensures { result ≡ version }
{
    VERSION
}
