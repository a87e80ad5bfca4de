//! Laws of the number of configurations: each function does nothing, and its contract is a law.

ghost use Rattle.tv_laws_counts.specs.Laws.{FillingsCounted, ConfigurationsCounted, SignedCountIs, AssignmentsByDegree, AssignmentsListed, CrowdOfClass, CrowdOfFront, CrowdOfCorner, BoxesWithin, StartsAbove, NoneBelowStart, WaysSwap, WaysLast};
ghost use Rattle.tv_laws_counts.specs.Members.{AssignmentsAreAll, AssignmentsOnce, ConfigurationsAreAll, ConfigurationsOnce};
ghost use Rattle.tv_laws_counts.specs.Cubes.{ExtrasReach, LargerCube, LargerCount, NoExtras};

/// The fillings of corners by n boxes are as many as the convolution of the counts of the corners says.
pub fn fillings_are_counted()
    ensures { FillingsCounted }
{}

/// So are the configurations with one assignment and Euler characteristic.
pub fn configurations_are_counted()
    ensures { ConfigurationsCounted }
{}

/// The signed count of a class is the sum of the coefficients of its assignments.
pub fn signed_count_is_sum()
    ensures { SignedCountIs }
{}

/// In a graded web the assignments of a class are those of that class among all of degree at most d.
pub fn assignments_of_class_by_degree()
    ensures { AssignmentsByDegree }
{}

/// What each assignment of degree at most d has.
pub fn assignments_are_listed()
    ensures { AssignmentsListed }
{}

/// In a graded web the assignments of degree at most d are exactly those in the list.
pub fn assignments_are_all()
    ensures { AssignmentsAreAll }
{}

/// No two places of that list have the same assignment.
pub fn assignments_once()
    ensures { AssignmentsOnce }
{}

/// In a graded web with diagrams on its open edges the configurations of a class and an Euler characteristic are exactly
/// those in the list.
pub fn configurations_are_all()
    ensures { ConfigurationsAreAll }
{}

/// No two places of that list have the same configuration.
pub fn configurations_once()
    ensures { ConfigurationsOnce }
{}

/// The configurations of a class and of an Euler characteristic up to n are at most the crowd.
pub fn crowd_bounds_class()
    ensures { CrowdOfClass }
{}

/// So are the ways to split boxes over the first corners of one assignment.
pub fn crowd_bounds_front()
    ensures { CrowdOfFront }
{}

/// So is each count of one of its corners.
pub fn crowd_bounds_corner()
    ensures { CrowdOfCorner }
{}

/// The boxes that are left are at most the bound.
pub fn boxes_left_are_within()
    ensures { BoxesWithin }
{}

/// No listed assignment starts below the lowest.
pub fn assignments_start_above()
    ensures { StartsAbove }
{}

/// Below its start an assignment has the coefficient 0.
pub fn coefficient_starts()
    ensures { NoneBelowStart }
{}

/// The order of the corners doesn't count.
pub fn corners_swap()
    ensures { WaysSwap }
{}

/// A further corner at the end is one more convolution.
pub fn last_corner_is_convolution()
    ensures { WaysLast }
{}

/// Extras reach no further out than their number beyond the extent of the legs.
pub fn extras_reach()
    ensures { ExtrasReach }
{}

/// So a larger cube has the same sets of extras, in the same order.
pub fn larger_cube()
    ensures { LargerCube }
{}

/// And gives the same count.
pub fn larger_count()
    ensures { LargerCount }
{}

/// There is one set of no extras.
pub fn no_extras()
    ensures { NoExtras }
{}
