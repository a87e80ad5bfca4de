//! The limits of a file's counts and numbers. The points and triangles are not compared with one another here.

ghost use Rattle.std.specs.Prelude.{◌≡◌, ◌≤◌, ℤ, pos, length, IfOk, MatchOption, MatchResult, OnOk};
ghost use Rattle.std.specs.List.{AllByRecursion};
ghost use Rattle.tv_lattice.specs.Limits.{HasCoordinates, IsHeight, IsWithinLimits};
ghost use Rattle.tv_lattice.specs.Excesses.{IsLimitFault, IsPointFault, IsFirstHeight};

use crate::fault::{Excess, FileFault, InputError};
use crate::file::{FileData, RawFile};
use crate::point::Point;
use std::alloc::Global;
use tv_spec_plane::limits::{GREATEST_HEIGHT, MOST_POINTS, MOST_TRIANGLES};
use tv_spec_plane::records::RawPoint;

/// The same file as one within the limits, or the first limit that it passes: first the count of points, then that of
/// triangles, then the first point with a coordinate over its limit, then the first height over its limit. Want of
/// memory may come before a coordinate or a height is named.
pub fn limits(alloc: Global, raw: RawFile) -> Result<FileData, InputError>
    ensures { MatchResult result (λ w. (w ≡ raw) × IsWithinLimits w) (IsLimitFault raw) }
{
    if raw.points.len() > MOST_POINTS {
        return Err(too_many(Excess::Points(raw.points.len() as u64)));
    }
    if raw.triangles.len() > MOST_TRIANGLES {
        return Err(too_many(Excess::Triangles(raw.triangles.len() as u64)));
    }
    let points = near_points(alloc, &raw.points)?;
    if let Some(k) = first_height(&raw.heights) {
        return Err(too_many(Excess::Height(k as u64)));
    }
    Ok(FileData {
        points,
        triangles: raw.triangles,
        heights: raw.heights,
    })
}

fn too_many(excess: Excess) -> InputError
    ensures { result ≡ InputError.Fault (FileFault.TooMany excess) }
{
    InputError::Fault(FileFault::TooMany(excess))
}

// The points, or the first with a coordinate over its limit.
fn near_points(alloc: Global, raw: &[RawPoint]) -> Result<Vec<Point>, InputError>
    requires { length raw.now ≤ MOST_POINTS }
    ensures { MatchResult result (λ v. (v.items ≡ raw.now) × AllByRecursion HasCoordinates raw.now) (IsPointFault raw.now) }
{
    let mut points = Vec::new(alloc);
    for (i, p) in raw.iter().enumerate() {
        match Point::new(p.x, p.y) {
            Some(point) => points.push(point)?,
            None => return Err(too_many(Excess::Coordinate(i as u32))),
        }
    }
    Ok(points)
}

// The place of the first height over its limit.
fn first_height(heights: &[i64]) -> Option<usize>
    ensures { MatchOption result (AllByRecursion IsHeight heights.now) (IsFirstHeight heights.now) }
{
    for (k, h) in heights.iter().enumerate() {
        if h.unsigned_abs() > GREATEST_HEIGHT {
            return Some(k);
        }
    }
    None
}
