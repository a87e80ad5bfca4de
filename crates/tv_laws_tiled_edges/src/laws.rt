//! Each function does nothing, and its contract is a law.

ghost use Rattle.tv_laws_tiled_edges.specs.Laws.{TilingHasEdgeRule, TilingNamesEdges};

/// Where unimodular triangles over distinct points tile, not all on a line and with coordinates of at most 100 in absolute
/// value, the two triangles of each compact edge lie on its two sides.
pub fn tiling_has_edge_rule()
    ensures { TilingHasEdgeRule }
{}

/// There also each of the three edges that a corner names stands in the list of compact or of open edges, and is that of
/// its two points.
pub fn tiling_names_edges()
    ensures { TilingNamesEdges }
{}
