//! Each function does nothing, and its contract is a law.

ghost use Rattle.tv_triangulation.specs.Laws.{PassingTrianglesTile, TilingTrianglesPass, OneTriangleIsACorner};

/// Where coordinates are at most 100 in absolute value, triangles that pass every check are unimodular triangles over
/// distinct points that aren't on one line, and they tile the hull.
pub fn passing_triangles_tile()
    ensures { PassingTrianglesTile }
{}

/// Conversely, such triangles over such points fail no check.
pub fn tiling_triangles_pass()
    ensures { TilingTrianglesPass }
{}

/// Where one triangle passes every check, there are three points, and it names them all.
pub fn one_triangle_is_a_corner()
    ensures { OneTriangleIsACorner }
{}
