//! Laws of running sums: each function does nothing, and its contract is a law.

ghost use Rattle.tv_laws_sums.specs.Laws.{RunningSums, NoneOutside, FirstIsSame, LastInterlaces, LastSpends, LastSums, SumsAreWays, LeftBegins, LeftSteps, LeftRises, LeftEnds};

/// Where a place is replaced, the ways up to each height that it can get are the running sums of those up to the heights it had.
pub fn running_sums()
    ensures { RunningSums }
{}

/// And no ways lead up to another height.
pub fn none_outside()
    ensures { NoneOutside }
{}

/// Where no place is replaced, heights are mixed only with the slice whose heights they are.
pub fn first_is_same()
    ensures { FirstIsSame }
{}

/// Where all places are replaced, they are mixed with exactly the slices with which they interlace.
pub fn last_interlaces()
    ensures { LastInterlaces }
{}

/// Then what is spent are the extras.
pub fn last_spends()
    ensures { LastSpends }
{}

/// So the ways up to a slice are those up to the slices with which it interlaces, when its extras are paid.
pub fn last_sums()
    ensures { LastSums }
{}

/// And where all slices that fit are summed, these are the ways up to it.
pub fn sums_are_ways()
    ensures { SumsAreWays }
{}

/// Where no place is replaced, at least the completion of the slice is left.
pub fn left_begins()
    ensures { LeftBegins }
{}

/// When a place is replaced, what is left and what is spent there are together no less than what was left before.
pub fn left_steps()
    ensures { LeftSteps }
{}

/// Of the heights that are met one after the other, a later one leaves no less.
pub fn left_rises()
    ensures { LeftRises }
{}

/// Where all places are replaced, at most the completion of the slice is left.
pub fn left_ends()
    ensures { LeftEnds }
{}
