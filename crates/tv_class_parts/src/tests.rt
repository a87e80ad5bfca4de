//! The reading of one class: the class 1, under one height of 1, of the family that has the series 1 at class zero and q at the
//! class 1, in degrees to 1 and through exponent 1.

ghost use Rattle.std.specs.Prelude.{◌≡◌, [], ◌∷◌, pos, IfOk};

use crate::{ClassFault, ClassRead, Line, read_class};
use std::alloc::{AllocError, Global};
use std::test::Fail;
use tv_lattice::class::Class;
use tv_ring::Whole;

fn whole(n: u8) -> Whole
    ensures value { result ≡ pos n }
{
    match Whole::new(n as i128) {
        Some(number) => number,
        None => unreachable!(),
    }
}

fn class_of(alloc: Global, entry: u8) -> Result<Class, AllocError>
    ensures value { IfOk result (λ class. class ≡ pos entry ∷ []) }
{
    let mut entries = Vec::new(alloc);
    entries.push(entry as i64)?;
    Ok(Class::new(entries))
}

// The table with class zero alone.
fn zero_lines(alloc: Global) -> Result<Vec<Line>, AllocError>
    ensures value { IfOk result (λ lines. lines.items ≡ record { class = pos 0 ∷ []; degree = 0; row = pos 1 ∷ []; powers = [] } ∷ []) }
{
    let mut row = Vec::new(alloc);
    row.push(whole(1))?;
    let mut lines = Vec::new(alloc);
    lines.push(Line::new(class_of(alloc, 0)?, 0, row, Vec::new(alloc)))?;
    Ok(lines)
}

// The series q by weight, where exponent 0 has the weight 0.
fn first_series(alloc: Global) -> Result<Vec<Whole>, AllocError>
    ensures value { IfOk result (λ row. row.items ≡ pos 0 ∷ pos 1 ∷ []) }
{
    let mut row = Vec::new(alloc);
    row.push(whole(0))?;
    row.push(whole(1))?;
    Ok(row)
}

fn read_first(alloc: Global) -> Result<ClassRead, ClassFault> {
    let lines = zero_lines(alloc)?;
    let class = class_of(alloc, 1)?;
    let series = first_series(alloc)?;
    read_class(alloc, &lines, &class, 1, 0, 2, &series)
}

// From genus 1 down: q has the integer 1 in genus 0.
#[test]
fn reads_the_first_class(rt: HostRuntime) -> Result<(), Fail> {
    let read = read_first(rt.alloc())?;
    assert!(rt; matches!(read.values.as_slice(), [none, one] if none.get() == 0 && one.get() == 1));
    assert!(rt; matches!(read.line.class(), [1]));
    assert_eq!(rt; read.line.degree(), 1);
    assert_eq!(rt; read.line.row().len(), 2);
    assert_eq!(rt; read.line.powers().len(), 1);
    Ok(())
}
