//! The grid of a number, as a file: a square cut into unit squares, each of them into two triangles. How it is printed is
//! not looked at here.

ghost use Rattle.std.specs.Prelude.{◌≡◌, ◌≤◌, ◌<◌, suc, unsigned_abs, IfOk};
ghost use Rattle.tv_spec_reports.specs.Grids.{place, grid_point, grid_points, lower, upper, squares, grid_height, grid};
ghost use Rattle.tv_spec_reports.specs.Grids.{over_square};

use std::alloc::{AllocError, Global};
use tv_lattice::Triple;
use tv_lattice::file::FileData;
use tv_lattice::point::Point;

/// The greatest number that a grid may have: its points are then as many as a file may list.
pub const MOST_SQUARES: u32 = 7;

/// The grid of k: the points (x, y) with x and y from 0 to k, by y, then x; for each unit square, by y, then x, the triangle
/// below its rising diagonal and that above; and the heights x x + y y - x y. It errs only for want of memory.
pub fn generate(alloc: Global, k: u32) -> Result<FileData, AllocError>
    requires some { 1 ≤ k }
    requires few { k ≤ MOST_SQUARES }
    ensures { IfOk result (λ file. file ≡ grid k) }
{
    let points = points(alloc, k)?;
    let triangles = triangles(alloc, k)?;
    let heights = heights(alloc, k)?;
    Ok(FileData {
        points,
        triangles,
        heights,
    })
}

fn points(alloc: Global, k: u32) -> Result<Vec<Point>, AllocError>
    requires { k ≤ MOST_SQUARES }
    ensures { IfOk result (λ v. v.items ≡ grid_points k) }
{
    let mut points = Vec::new(alloc);
    for y in 0..k + 1 {
        for x in 0..k + 1 {
            points.push(point(x, y))?;
        }
    }
    Ok(points)
}

fn triangles(alloc: Global, k: u32) -> Result<Vec<Triple>, AllocError>
    requires { k ≤ MOST_SQUARES }
    ensures { IfOk result (λ v. v.items ≡ squares k) }
{
    let mut triangles = Vec::new(alloc);
    for y in 0..k {
        for x in 0..k {
            triangles.push(lower(k, x, y))?;
            triangles.push(upper(k, x, y))?;
        }
    }
    Ok(triangles)
}

fn heights(alloc: Global, k: u32) -> Result<Vec<i64>, AllocError>
    requires { k ≤ MOST_SQUARES }
    ensures { IfOk result (λ v. v.items ≡ over_square (suc k) grid_height) }
{
    let mut heights = Vec::new(alloc);
    for y in 0..k + 1 {
        for x in 0..k + 1 {
            heights.push(height(x, y))?;
        }
    }
    Ok(heights)
}

fn point(x: u32, y: u32) -> Point
    requires x { x ≤ MOST_SQUARES }
    requires y { y ≤ MOST_SQUARES }
    ensures { result ≡ grid_point x y }
{
    Point::new(x as i64, y as i64).unwrap()
}

// The triangle of the unit square at (x, y) that lies below its rising diagonal.
fn lower(k: u32, x: u32, y: u32) -> Triple
    requires k { k ≤ MOST_SQUARES }
    requires x { x < k }
    requires y { y < k }
    ensures { result ≡ lower k x y }
{
    Triple {
        a: place(k, x, y),
        b: place(k, x + 1, y),
        c: place(k, x + 1, y + 1),
    }
}

// The triangle of that square that lies above the diagonal.
fn upper(k: u32, x: u32, y: u32) -> Triple
    requires k { k ≤ MOST_SQUARES }
    requires x { x < k }
    requires y { y < k }
    ensures { result ≡ upper k x y }
{
    Triple {
        a: place(k, x, y),
        b: place(k, x + 1, y + 1),
        c: place(k, x, y + 1),
    }
}

// The number of the point (x, y).
fn place(k: u32, x: u32, y: u32) -> u32
    requires k { k ≤ MOST_SQUARES }
    requires x { x ≤ k }
    requires y { y ≤ k }
    ensures { result ≡ place k x y }
{
    y * (k + 1) + x
}

// The height of the point (x, y).
fn height(x: u32, y: u32) -> i64
    requires x { x ≤ MOST_SQUARES }
    requires y { y ≤ MOST_SQUARES }
    ensures value { result ≡ grid_height x y }
    ensures bound { unsigned_abs result ≤ 147 }
{
    (x * x + y * y) as i64 - (x * y) as i64
}
