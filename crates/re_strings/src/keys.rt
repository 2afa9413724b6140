//! Bytes as strings are compared.
ghost use Rattle.std.specs.Prelude.{◌≡◌};
ghost use Rattle.re_strings.specs.Working.Keys.{key};

/// The byte as strings are compared: an upper-case letter by its lower case where `fold` is set.
#[inline]
pub fn key_of(fold: bool, byte: u8) -> u8
    ensures { result ≡ key fold byte }
{
    if fold {
        return byte.to_ascii_lowercase();
    }
    byte
}
