//! The law of tilings: the function does nothing, and its contract is the law.

ghost use Rattle.tv_laws_tiling_converse.specs.Laws.{TilingTrianglesMatch};

/// For distinct points with coordinates of at most 100 in absolute value, not all on a line: where unimodular triangles
/// on them, given counter-clockwise, tile the hull, their directed edges match, so that no edge stands twice, the back of
/// each is an edge too or the edge is a hull segment, and each hull segment is an edge.
pub fn tiling_triangles_match()
    ensures { TilingTrianglesMatch }
{}
