//! Laws of the full and of the reduced series: each function does nothing, and its contract is a law.

ghost use Rattle.tv_laws_families.specs.Laws.{FullIsOnly};
ghost use Rattle.tv_laws_families.specs.Laws.{OnlyQuotientThrough, QuotientFromZero, BeginsWithOne, NothingBelow, ReducedIsOnly, ReducedClasses};

use tv_ring::Ring;

/// Two full families of one web have the same coefficients as far as they are known, whatever the class.
pub fn full_is_only<C: Ring>()
    ensures law { FullIsOnly C.ring }
{}

/// Of two quotients, through n, of one series by another, each is the other through n.
pub fn only_quotient()
    ensures { OnlyQuotientThrough }
{}

/// By a series that is 1 at exponent 0, and 0 below, the quotients through n are the series whose product with it is the
/// dividend at every exponent through n.
pub fn quotient_from_zero()
    ensures { QuotientFromZero }
{}

/// The series of class zero of a graded web, with all open edges empty, is 1 at exponent 0 and 0 below.
pub fn class_zero_begins_with_one()
    ensures { BeginsWithOne }
{}

/// The signed count of a class of degree at most d is 0 below `lowest`: the least, over the assignments of degree at most d,
/// of the sum of min(0, edge cost) over the compact edges less the overlap costs.
pub fn nothing_below_the_lowest()
    ensures { NothingBelow }
{}

/// Two reduced families of one web, with the same diagrams on the open edges, have the same classes in the same order, and the
/// same coefficients through their order.
pub fn reduced_is_only<C: Ring>()
    ensures law { ReducedIsOnly C.ring }
{}

/// A reduced family of a graded web, with all open edges empty, has class zero, and its series is 1; every other class has a
/// degree of at least 1; and where each entry of the class of each compact edge is at most b in absolute value, each entry of a
/// class is at most b times its degree.
pub fn reduced_classes<C: Ring>()
    ensures law { ReducedClasses C.ring }
{}
