ghost use Rattle.std.specs.Prelude.{◌≡◌, ◌++◌, codes};
ghost use Rattle.re_trees.specs.Bytes.{class_name};

/// A class of bytes in the POSIX locale (XBD 7.3.1), as a bracket expression names it. Its bytes
/// are `in_class` of `specs/Bytes.antt`.
#[derive(Clone, Copy, PartialEq, Eq, Debug, Drop)]
pub enum Class {
    /// `A` to `Z`.
    Upper,
    /// `a` to `z`.
    Lower,
    /// `0` to `9`.
    Digit,
    /// The letters.
    Alpha,
    /// The letters and digits.
    Alnum,
    /// The space and the tab.
    Blank,
    /// The space, and the bytes 9 to 13.
    Space,
    /// The bytes 0 to 31, and 127.
    Cntrl,
    /// The printing bytes without the space, the letters and the digits.
    Punct,
    /// The printing bytes without the space.
    Graph,
    /// The bytes 32 to 126.
    Print,
    /// The digits, `A` to `F` and `a` to `f`.
    Xdigit,
}

impl Class {
    /// Each class once.
    pub const ALL: [Class; 12] = [
        Class::Upper,
        Class::Lower,
        Class::Digit,
        Class::Alpha,
        Class::Alnum,
        Class::Blank,
        Class::Space,
        Class::Cntrl,
        Class::Punct,
        Class::Graph,
        Class::Print,
        Class::Xdigit,
    ];

    /// The name of the class in a bracket expression, and the `:]` that ends it there.
    pub fn closed_name(self) -> &'static [u8]
        ensures { result.now ≡ class_name self ++ codes ":]" }
    {
        match self {
            Class::Upper => b"upper:]",
            Class::Lower => b"lower:]",
            Class::Digit => b"digit:]",
            Class::Alpha => b"alpha:]",
            Class::Alnum => b"alnum:]",
            Class::Blank => b"blank:]",
            Class::Space => b"space:]",
            Class::Cntrl => b"cntrl:]",
            Class::Punct => b"punct:]",
            Class::Graph => b"graph:]",
            Class::Print => b"print:]",
            Class::Xdigit => b"xdigit:]",
        }
    }
}
