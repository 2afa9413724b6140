//! The limits of what is read, and the bytes that this grep leaves undefined, as in
//! `specs/Profile.antt`.

/// The greatest number in an interval, `RE_DUP_MAX` (XBD 9.3.6, 9.4.6).
pub const MOST_REPEATS: u16 = 255;

/// How deep groups and duplications may be nested.
pub const MOST_LEVELS: usize = 256;

/// The bytes that may not follow a backslash in a basic expression, beside letters and digits (XBD
/// 9.3.3).
pub const BASIC_REFUSED: &[u8] = b"<>`'";

/// The bytes that may not follow a backslash in an extended expression, beside letters and digits
/// (XBD 9.4.3).
pub const EXTENDED_REFUSED: &[u8] = b"<>`'";
