//! The next class of a family, on the way through it.

ghost use Rattle.std.specs.Prelude.{IfOk, IfErr};
ghost use Rattle.tv_class_parts.specs.Ways.{Way, IsGiven, IsReadOn, IsFaultOn};

use crate::fault::{ClassFault, fault_of_row};
use crate::line::Line;
use crate::numbers::class_numbers;
use crate::product::product_of;
use std::alloc::Global;
use tv_lattice::class::Class;
use tv_ring::Whole;

/// A class that was read.
#[derive(Drop)]
pub struct ClassRead {
    /// Its line of the table.
    pub line: Line,
    /// Its integers, from the greatest genus down to genus 0, with 0 where there is none.
    pub values: Vec<Whole>,
}

/// Reads the next class of a family of which the classes before it stand in the table. Its series is given by weight: its exponent 0
/// has the weight `base`, and `end` is the weight after the last one that is compared.
pub fn read_class(
    alloc: Global,
    lines: &[Line],
    class: &Class,
    degree: u64,
    base: usize,
    end: usize,
    series: &[Whole],
) -> Result<ClassRead, ClassFault>
    ghost way: { Way }
    requires given { IsGiven way class.now base degree end lines.now series.now }
    ensures value { IfOk result (λ r. IsReadOn way class.now base lines.now r.line r.values.items) }
    ensures fault { IfErr result (IsFaultOn way class.now) }
{
    match product_of(alloc, lines, class.entries(), degree, series.len()) {
        Ok(product) => match class_numbers(alloc, base, end, series, &product) {
            Ok(numbers) => Ok(ClassRead {
                line: Line::new(class.copy()?, degree, numbers.row, numbers.powers),
                values: numbers.values,
            }),
            Err(fault) => Err(fault),
        },
        Err(fault) => Err(fault_of_row(fault)),
    }
}
