//! Building: from an expression to the tables of its automaton.

mod classes;
mod count;
pub mod ends;
pub mod fill;
mod parts;
pub mod rows;

/// Why an automaton, or a set for one, could not be made.
#[derive(Clone, Copy, PartialEq, Eq, Debug, Drop)]
pub enum BuildFault {
    /// The expression has more than 4,096 positions once its intervals are written out.
    TooLarge,
    /// Memory ran out.
    Memory,
}
