//! Arrays of numbers, of points and of triangles. How many there may be is not looked at here.

ghost use Rattle.std.specs.Prelude.{IfOk, MatchOption};
ghost use Rattle.std.specs.List.{AllByRecursion};
ghost use Rattle.serde_json.specs.View.{view};
ghost use Rattle.tv_spec_text.specs.Lines.{IsNumber};
ghost use Rattle.tv_spec_text.specs.Files.{PointFits, TriangleFits};
ghost use Rattle.tv_spec_json.specs.Files.{whole, values, point_value, triangle_value};
ghost use Rattle.tv_json.specs.Parts.{IsValueOf, IsValueOfNone};

use crate::number::{count, number};
use serde_json::Value;
use std::alloc::{AllocError, Global};
use tv_lattice::{RawPoint, Triple};

/// The numbers of an array of numbers.
pub(crate) fn numbers(alloc: Global, value: &Value) -> Result<Option<Vec<i64>>, AllocError>
    ensures { IfOk result (λ found. MatchOption found
        (IsValueOfNone (values whole) (AllByRecursion IsNumber) (view value.now))
        (λ v. IsValueOf (values whole) (AllByRecursion IsNumber) (view value.now) v.items)) }
{
    let Some(items) = value.as_array() else {
        return Ok(None);
    };
    let mut numbers = Vec::new(alloc);
    for item in items {
        match number(item) {
            Some(z) => numbers.push(z)?,
            None => return Ok(None),
        }
    }
    Ok(Some(numbers))
}

/// The points of an array of points.
pub(crate) fn points(alloc: Global, value: &Value) -> Result<Option<Vec<RawPoint>>, AllocError>
    ensures { IfOk result (λ found. MatchOption found
        (IsValueOfNone (values point_value) (AllByRecursion PointFits) (view value.now))
        (λ v. IsValueOf (values point_value) (AllByRecursion PointFits) (view value.now) v.items)) }
{
    let Some(items) = value.as_array() else {
        return Ok(None);
    };
    let mut points = Vec::new(alloc);
    for item in items {
        match point(item) {
            Some(p) => points.push(p)?,
            None => return Ok(None),
        }
    }
    Ok(Some(points))
}

/// The triangles of an array of triangles.
pub(crate) fn triangles(alloc: Global, value: &Value) -> Result<Option<Vec<Triple>>, AllocError>
    ensures { IfOk result (λ found. MatchOption found
        (IsValueOfNone (values triangle_value) (AllByRecursion TriangleFits) (view value.now))
        (λ v. IsValueOf (values triangle_value) (AllByRecursion TriangleFits) (view value.now) v.items)) }
{
    let Some(items) = value.as_array() else {
        return Ok(None);
    };
    let mut triangles = Vec::new(alloc);
    for item in items {
        match triangle(item) {
            Some(t) => triangles.push(t)?,
            None => return Ok(None),
        }
    }
    Ok(Some(triangles))
}

// The point of an array of two numbers.
fn point(value: &Value) -> Option<RawPoint>
    ensures { MatchOption result
        (IsValueOfNone point_value PointFits (view value.now))
        (IsValueOf point_value PointFits (view value.now)) }
{
    match value.as_array()?.as_slice() {
        [x, y] => {
            let x = number(x)?;
            let y = number(y)?;
            Some(RawPoint { x, y })
        }
        _ => None,
    }
}

// The triangle of an array of three counts.
fn triangle(value: &Value) -> Option<Triple>
    ensures { MatchOption result
        (IsValueOfNone triangle_value TriangleFits (view value.now))
        (IsValueOf triangle_value TriangleFits (view value.now)) }
{
    match value.as_array()?.as_slice() {
        [a, b, c] => {
            let a = count(a)?;
            let b = count(b)?;
            let c = count(c)?;
            Some(Triple { a, b, c })
        }
        _ => None,
    }
}
