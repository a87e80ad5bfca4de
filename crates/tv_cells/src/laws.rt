//! Laws of cells, extras and cubes: each function does nothing, and its contract is a law. They are for readers, and
//! the proofs of other crates cite the lemmas below them.

ghost use Rattle.tv_cells.specs.Laws.{TestIsRelation, SublistsByLength, ExtrasByLength, CubeRises, CubeHas, OverlapsAreInside};
ghost use Rattle.tv_cells.specs.Cuts.{CutsDropNone};

/// The test of a list of extras and the relation that says that the union with the legs is closed downwards agree.
pub fn test_is_relation()
    ensures { TestIsRelation }
{}

/// The sublists of n members are those of that length among all sublists, in their order.
pub fn sublists_by_length()
    ensures { SublistsByLength }
{}

/// So the extras of n members are counted as in all sublists.
pub fn extras_by_length()
    ensures { ExtrasByLength }
{}

/// The cells of a cube rise strictly, so that each is there once.
pub fn cube_rises()
    ensures { CubeRises }
{}

/// The cells of the cube of side n are those with all entries below n.
pub fn cube_has()
    ensures { CubeHas }
{}

/// No cell outside the cube of the overlap cost is in two legs, so that the cost is that of all cells.
pub fn overlaps_are_inside()
    ensures { OverlapsAreInside }
{}

/// The two cuts of a choice cell by cell leave out no extras.
pub fn cuts_drop_none()
    ensures { CutsDropNone }
{}
