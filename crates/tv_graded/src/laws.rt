//! The laws of sums into a class, as calls that do nothing and whose contracts are the laws.
//! They speak of the same sums as the contracts of a family's calls do.

ghost use Rattle.tv_graded.specs.Laws.{SumsCommute, AddedHere, AddedElsewhere, AddedIsFamily, AddedClasses, AddedCoefficient, CoefficientsElsewhere, RowsAreFound, CutIsFamily, CutClasses, CutCoefficients};

use tv_ring::Ring;

/// The order in which series are added does not count.
pub fn sums_commute<C: Ring>()
    ensures law { SumsCommute C.IsValue C.ring }
{}

/// The series of the class grows by what is added, and no other class changes.
pub fn added_series<C: Ring>()
    ensures here { AddedHere C.IsValue C.ring }
    ensures elsewhere { AddedElsewhere C.ring }
{}

/// A family stays one, and gains no class but the one that is added into.
pub fn added_families<C: Ring>()
    ensures family { AddedIsFamily C.IsValue C.ring }
    ensures classes { AddedClasses C.ring }
{}

/// The coefficients of the class grow by those that are added, and no other changes.
pub fn added_coefficients<C: Ring>()
    ensures here { AddedCoefficient C.IsValue C.ring }
    ensures elsewhere { CoefficientsElsewhere C.ring }
{}

/// Each row is what is found of its class.
pub fn rows_are_found<C: Ring>()
    ensures law { RowsAreFound C.IsValue C.ring }
{}

/// A family that is cut after an exponent that it knows is a family of the same classes, with the same coefficients so far.
pub fn cut_families<C: Ring>()
    ensures family { CutIsFamily C.IsValue C.ring }
    ensures classes { CutClasses C }
    ensures coefficients { CutCoefficients C.ring }
{}
