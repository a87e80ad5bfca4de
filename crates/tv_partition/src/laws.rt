//! Laws of diagrams, and of the list of all of a size: each function does nothing, and its contract is a law. They make
//! no diagram.

ghost use Rattle.tv_partition.specs.Laws.{DiagramsAreAll, DiagramsOnce, DiagramsDescend, DiagramsAreSets};

/// The diagrams of n cells are exactly those in the list.
pub fn diagrams_are_all()
    ensures { DiagramsAreAll }
{}

/// No two places of the list have the same diagram.
pub fn diagrams_once()
    ensures { DiagramsOnce }
{}

/// Of two diagrams of the list the greater comes first.
pub fn diagrams_descend()
    ensures { DiagramsDescend }
{}

/// Diagrams are exactly the finite sets of cells closed downwards, each that of one diagram alone.
pub fn diagrams_are_sets()
    ensures { DiagramsAreSets }
{}
