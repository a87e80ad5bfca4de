//! Laws of sums along a frontier: each function does nothing, and its contract is a law.

ghost use Rattle.tv_laws_frontier.specs.Laws.{KeptIsTold, KeptOnes, KeptOnesSigned, ThroughAreKept, KeptAreAll};
ghost use Rattle.tv_laws_frontier.specs.Laws.{KeptAreCounted, KeptArePartial, WholeIsState, SignOfState};
ghost use Rattle.tv_laws_frontier.specs.StepLaws.{PickedByNumber, FirstState, EndStates, StepOfState, JoinsWithin};
ghost use Rattle.tv_laws_frontier.specs.StepLaws.{ClassesStep, WholeClasses};
ghost use Rattle.tv_laws_frontier.specs.Bounds.{StateWithin, CrowdOfState, CrowdOfJoin, CrowdOfNear};

/// A partial configuration is kept where it and each of its restrictions to fewer corners stand low enough: the test is that.
pub fn kept_is_told()
    ensures { KeptIsTold }
{}

/// A state's numbers are those of the partial configurations that are kept, and of no others, also beyond n.
pub fn kept_ones_are_counted()
    ensures { KeptOnes }
{}

/// And its signed sums are theirs.
pub fn kept_ones_are_summed()
    ensures { KeptOnesSigned }
{}

/// Through n every partial configuration is kept.
pub fn partial_ones_are_kept()
    ensures { ThroughAreKept }
{}

/// And of one assignment, whatever the diagrams on the open edges, all ways over the first corners are.
pub fn kept_are_all()
    ensures { KeptAreAll }
{}

/// So through n the numbers of a state are those of the partial configurations of its choice.
pub fn kept_are_counted()
    ensures { KeptAreCounted }
{}

/// And its signed sums are the partial sums, with all open edges empty.
pub fn kept_are_partial()
    ensures { KeptArePartial }
{}

/// Once all corners are taken, the one state has the signed counts through n, whatever the diagrams on the open edges.
pub fn whole_is_state()
    ensures { WholeIsState }
{}

/// The signed sums of a state are its numbers, with the sign of class and exponent.
pub fn states_have_signs()
    ensures { SignOfState }
{}

/// The edges that are picked by number, as the pending ones are, are those that are picked from the list.
pub fn edges_are_numbered()
    ensures { PickedByNumber }
{}

/// Before all corners the one state has 1 at class zero and exponent 0.
pub fn first_state_is_one()
    ensures { FirstState }
{}

/// Before all corners and after them there is one state.
pub fn ends_have_one_state()
    ensures { EndStates }
{}

/// One corner more is one convolution: over all states before and all choices on the edges that are met there first, each
/// joined to the counts of the corner and added to the state of the choice after it.
pub fn corner_is_joined()
    ensures { StepOfState }
{}

/// Where the diagrams at the corner have a degree over d together, nothing is joined.
pub fn joins_are_within()
    ensures { JoinsWithin }
{}

/// A state has a class after one corner more exactly where a state before it has what is left of it.
pub fn classes_are_joined()
    ensures { ClassesStep }
{}

/// Once all corners are taken, the one state has the classes of the assignments of degree at most d.
pub fn whole_classes_are_there()
    ensures { WholeClasses }
{}

/// Below the lowest, and beyond what is kept, a state has nothing.
pub fn states_are_within()
    ensures { StateWithin }
{}

/// Each number of a state, also beyond n, is at most the crowd of its class.
pub fn crowd_bounds_state()
    ensures { CrowdOfState }
{}

/// So is each join, of the class into which it goes.
pub fn crowd_bounds_join()
    ensures { CrowdOfJoin }
{}

/// And so is each count of a corner that a join reads, of the class of the diagrams at the corner.
pub fn crowd_bounds_near()
    ensures { CrowdOfNear }
{}
