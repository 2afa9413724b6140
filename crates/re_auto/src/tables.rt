ghost use Rattle.std.specs.Prelude.{Bool, IsTrue, ◌↔◌, ◌⊎◌};

use crate::beginnings::Beginnings;
use crate::ranges::WordRange;

/// What is known of an expression's positions, as words of bits. A row is a set of positions and
/// has `width` words. `AreTablesOf` in `specs/Working/Tables.antt` says what each table holds.
#[derive(Drop)]
pub struct Tables {
    /// The number of positions.
    pub size: usize,
    /// The number of words of a row.
    pub width: usize,
    /// The class of each byte: bytes of one class are taken by the same positions.
    pub class_of: Vec<u8>,
    /// For each class a row: the positions that take a byte of it.
    pub takes: Vec<u64>,
    /// For each position a row: those that can come directly after it.
    pub follow: Vec<u64>,
    /// For each of the rows of `follow` the range of words that contain its members.
    pub ranges: Vec<WordRange>,
    /// The positions that a stretch can begin with at the line's first place.
    pub first_at_begin: Vec<u64>,
    /// The positions that a stretch can begin with at any other place.
    pub first_inside: Vec<u64>,
    /// The positions that a stretch can end with at the line's last place.
    pub last_at_end: Vec<u64>,
    /// The positions that a stretch can end with at any other place.
    pub last_inside: Vec<u64>,
    /// Where the expression holds on the empty stretch.
    pub empty: Empty,
    /// The bytes that a stretch inside a line can begin with.
    pub beginnings: Beginnings,
}

/// Whether an expression holds on the empty stretch, for each kind of place.
#[derive(Clone, Copy, Drop)]
pub struct Empty {
    /// On the empty line.
    pub on_empty_line: bool,
    /// At the first place of a line that is not empty.
    pub at_begin: bool,
    /// At the last place of a line that is not empty.
    pub at_end: bool,
    /// At any other place.
    pub inside: bool,
}

impl Empty {
    ghost use Rattle.re_auto.specs.Working.PartTables.{empty_at};

    /// Nowhere.
    pub fn nowhere() -> Empty
        ensures { (b z : Bool) → ¬ IsTrue (empty_at result b z) }
    {
        Empty {
            on_empty_line: false,
            at_begin: false,
            at_end: false,
            inside: false,
        }
    }

    /// Everywhere.
    pub fn anywhere() -> Empty
        ensures { (b z : Bool) → IsTrue (empty_at result b z) }
    {
        Empty {
            on_empty_line: true,
            at_begin: true,
            at_end: true,
            inside: true,
        }
    }

    /// At the line's first place.
    pub fn at_begin() -> Empty
        ensures { (b z : Bool) → IsTrue (empty_at result b z) ↔ IsTrue b }
    {
        Empty {
            on_empty_line: true,
            at_begin: true,
            at_end: false,
            inside: false,
        }
    }

    /// At the line's last place.
    pub fn at_end() -> Empty
        ensures { (b z : Bool) → IsTrue (empty_at result b z) ↔ IsTrue z }
    {
        Empty {
            on_empty_line: true,
            at_begin: false,
            at_end: true,
            inside: false,
        }
    }

    /// Where both are set.
    pub fn and(self, other: Empty) -> Empty
        ensures { (b z : Bool) →
            IsTrue (empty_at result b z) ↔
            (IsTrue (empty_at self b z) × IsTrue (empty_at other b z)) }
    {
        Empty {
            on_empty_line: self.on_empty_line & other.on_empty_line,
            at_begin: self.at_begin & other.at_begin,
            at_end: self.at_end & other.at_end,
            inside: self.inside & other.inside,
        }
    }

    /// Where one of them is set.
    pub fn or(self, other: Empty) -> Empty
        ensures { (b z : Bool) →
            IsTrue (empty_at result b z) ↔
            (IsTrue (empty_at self b z) ⊎ IsTrue (empty_at other b z)) }
    {
        Empty {
            on_empty_line: self.on_empty_line | other.on_empty_line,
            at_begin: self.at_begin | other.at_begin,
            at_end: self.at_end | other.at_end,
            inside: self.inside | other.inside,
        }
    }
}
