//! What a file gives: as it was read, and within the limits.

use crate::point::Point;
use std::marker::Model;
use tv_spec_plane::records::{RawPoint, Triple};

/// Points, triangles and heights as a file gives them, each number of at most nine digits.
#[derive(Drop, Debug)]
pub struct RawFile {
    /// The points, numbered from 0 in the file's order.
    pub points: Vec<RawPoint>,
    /// The triangles in the file's order, each by the numbers of its points; they may name points that are not there.
    pub triangles: Vec<Triple>,
    /// The heights in the file's order; there may be more or fewer than points.
    pub heights: Vec<i64>,
}

impl Model for RawFile {
    ghost use Rattle.tv_spec_plane.specs.Web.{Web};

    ghost Value = { Web };

    ghost view = { λ f. record { points = f.points.items; triangles = f.triangles.items; heights = f.heights.items } };
}

/// The same with all counts and numbers within the limits: at most `MOST_POINTS` points and `MOST_TRIANGLES` triangles,
/// coordinates of at most `GREATEST_COORDINATE` and heights of at most `GREATEST_HEIGHT` in absolute value.
#[derive(Drop, Debug)]
pub struct FileData {
    /// The points, numbered from 0 in the file's order; some may be equal.
    pub points: Vec<Point>,
    /// The triangles in the file's order, each by the numbers of its points; they may name points that are not there.
    pub triangles: Vec<Triple>,
    /// The heights in the file's order; there may be more or fewer than points.
    pub heights: Vec<i64>,
}

impl Model for FileData {
    ghost use Rattle.tv_spec_plane.specs.Web.{Web};
    ghost use Rattle.tv_lattice.specs.Limits.{IsWithinLimits};

    ghost Value = { Web };

    ghost view = { λ f. record { points = f.points.items; triangles = f.triangles.items; heights = f.heights.items } };

    ghost invariant = { λ f. IsWithinLimits (record { points = f.points.items; triangles = f.triangles.items; heights = f.heights.items }) };
}
