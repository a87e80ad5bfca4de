//! Laws of matched edges and of tilings: each function does nothing, and its contract is a law.

ghost use Rattle.tv_laws_tiling.specs.Laws.{MatchedTrianglesTile, ExchangedTrianglesTile};
ghost use Rattle.tv_laws_tiling.specs.Squares.{DiagonalsTile, OverlappingTrianglesDoNotTile};

/// For points with coordinates of at most 100 in absolute value, not all on a line: unimodular triangles on them, given
/// counter-clockwise, whose directed edges match, among themselves and with the hull, tile it, so that each generic rational
/// point in the hull is in exactly one of them, and no other generic rational point is in any.
pub fn matched_triangles_tile()
    ensures { MatchedTrianglesTile }
{}

/// A triangle may be given clockwise: with its last two points exchanged it has the same inside.
pub fn exchanged_triangles_tile()
    ensures { ExchangedTrianglesTile }
{}

/// Either diagonal of the unit square cuts it into two triangles that tile it.
pub fn diagonals_of_the_square_tile()
    ensures { DiagonalsTile }
{}

/// Two triangles of the unit square that are unimodular and overlap at (1/2, 1/5), with areas that add up to those of
/// the two that tile it, do not tile it.
pub fn overlapping_triangles_do_not_tile()
    ensures { OverlappingTrianglesDoNotTile }
{}
