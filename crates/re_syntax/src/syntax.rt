/// How the text of a pattern is read (XCU grep, options `-E` and `-F`).
#[derive(Clone, Copy, PartialEq, Eq, Debug, Drop)]
pub enum Syntax {
    /// A basic regular expression (XBD 9.3).
    Basic,
    /// An extended regular expression (XBD 9.4).
    Extended,
    /// A string in which no byte is special.
    Fixed,
}
