//! Classes of values from outside, and the turn of three points.

use crate::class::Class;
use crate::point::Point;
use crate::turn::turn;
use std::test::Fail;

#[test]
fn adds_classes(rt: HostRuntime) -> Result<(), Fail> {
    let mut entries = Vec::new(rt.alloc());
    entries.push(1)?;
    entries.push(-1)?;
    let class = Class::new(entries);
    let copy = class.copy()?;
    let sum = class.plus(&copy)?;
    let expected: [i64; 2] = [2, -2];
    assert_eq!(rt; sum.entries(), expected.as_slice());
    Ok(())
}

#[test]
fn weighs_classes_by_heights(rt: HostRuntime) -> Result<(), Fail> {
    let mut entries = Vec::new(rt.alloc());
    entries.push(1)?;
    entries.push(-1)?;
    let class = Class::new(entries);
    let heights: [i64; 2] = [5, 3];
    assert_eq!(rt; class.degree(heights.as_slice()), 2);
    Ok(())
}

#[test]
fn turns_counter_clockwise(rt: HostRuntime) -> Result<(), Fail> {
    let a = Point::new(0, 0).ok_or("a point")?;
    let b = Point::new(1, 0).ok_or("a point")?;
    let c = Point::new(0, 2).ok_or("a point")?;
    assert_eq!(rt; turn(a, b, c), 2);
    Ok(())
}
