//! Laws of the definitions, each the contract of a function that does nothing.
ghost use Rattle.re_auto.specs.Laws.{PositionsDecide, FrontsDecide};

/// The positions of an expression say where it holds.
pub fn positions_decide()
    ensures { PositionsDecide }
{}

/// What is known at a place of a line, as a set of positions, depends only on the bytes before it.
pub fn fronts_decide()
    ensures { FrontsDecide }
{}
