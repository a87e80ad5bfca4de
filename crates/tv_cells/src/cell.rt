//! A cell of a corner, by its three coordinates. It knows nothing of legs.

/// A unit cube of the corner, by the three whole numbers of its lowest point.
#[derive(Clone, Copy, Debug, PartialEq, Eq)]
pub struct Cell {
    pub x: u32,
    pub y: u32,
    pub z: u32,
}
