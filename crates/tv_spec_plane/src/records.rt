//! The plain data of a web: points as they are read, triangles, edges and corners. They carry no fact of their own.

/// A point with whole coordinates, as a file gives it.
#[derive(Clone, Copy, Debug, PartialEq, Eq)]
pub struct RawPoint {
    pub x: i64,
    pub y: i64,
}

/// A triangle by the numbers of its three points.
#[derive(Clone, Copy, Debug, PartialEq, Eq)]
pub struct Triple {
    pub a: u32,
    pub b: u32,
    pub c: u32,
}

/// An edge of two triangles, by its points a < b, the opposite points c < d, and the triangles that have c and d.
#[derive(Clone, Copy, Debug, PartialEq, Eq)]
pub struct CompactEdge {
    pub a: u32,
    pub b: u32,
    pub c: u32,
    pub d: u32,
    pub corner_c: u32,
    pub corner_d: u32,
}

/// An edge of one triangle, by its points a < b and that triangle.
#[derive(Clone, Copy, Debug, PartialEq, Eq)]
pub struct OuterEdge {
    pub a: u32,
    pub b: u32,
    pub corner: u32,
}

/// A place in the list of compact edges or in that of outer edges.
#[derive(Clone, Copy, Debug, PartialEq, Eq)]
pub enum EdgeRef {
    Compact(u32),
    Outer(u32),
}

/// A triangle with its points in rising order, which give the coordinates x, y and z, and its edges by the coordinate
/// along which their leg runs: along z lies the edge of x and y.
#[derive(Clone, Copy, Debug, PartialEq, Eq)]
pub struct Corner {
    pub x: u32,
    pub y: u32,
    pub z: u32,
    pub along_x: EdgeRef,
    pub along_y: EdgeRef,
    pub along_z: EdgeRef,
}
