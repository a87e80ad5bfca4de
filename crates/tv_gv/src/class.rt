//! The next class of a family: its numbers are read, and its integers are put in.

ghost use Rattle.std.specs.Prelude.{◌≡◌, ◌≤◌, ◌<◌, ◌+◌, ◌*◌, ◌^◌, pos, [], ◌∷◌, ◌++◌, IfOk, IfErr, length};
ghost use Rattle.tv_lemmas.specs.Naturals.{as_natural};
ghost use Rattle.tv_spec_plane.specs.Web.{degree_of};
ghost use Rattle.tv_laws_integers.specs.Closed.{IsClassTo};
ghost use Rattle.tv_class_parts.specs.Ways.{Way};
ghost use Rattle.tv_gv.specs.Extracted.{IsExtractable, IsGvFault, degree_to};
ghost use Rattle.tv_gv.specs.Progress.{IsReadTo, last_weight, way_at, IsWeightBelow, IsAtWeight};

use crate::fault::GvFault;
use crate::series::{exponent_of, series_row};
use crate::values::put_values;
use std::alloc::Global;
use tv_class_parts::{ClassFault, Line, read_class};
use tv_graded::Graded;
use tv_integers::Integers;
use tv_lattice::class::Class;
use tv_ring::Whole;

// The degree of a class.
fn degree_in(reduced: &Graded<Whole>, class: &Class) -> u64
    requires extractable { IsExtractable reduced.now }
    requires class { IsClassTo (degree_to reduced.now) reduced.now.heights class.now }
    ensures value { pos result ≡ degree_of reduced.now.heights class.now }
    ensures small { result ≤ 24 }
{
    class.degree(reduced.heights()) as u64
}

// The weight of the exponent 0 at a class of that degree.
fn base_of(slope: u64, degree: u64) -> usize
    requires slope { slope ≤ 10000 }
    requires degree { degree ≤ 24 }
    ensures value { result ≡ slope * degree }
    ensures small { result ≤ 240000 }
{
    (slope * degree) as usize
}

// The last exponent.
fn last_exponent(reduced: &Graded<Whole>) -> usize
    requires extractable { IsExtractable reduced.now }
    ensures value { result ≡ as_natural reduced.now.upto }
    ensures small { result ≤ 64 }
{
    reduced.upto() as usize
}

// The last weight: that of the last exponent at the greatest degree.
fn last_weight(reduced: &Graded<Whole>, slope: u64) -> usize
    requires extractable { IsExtractable reduced.now }
    requires low { slope ≤ 10000 }
    ensures value { result ≡ last_weight reduced.now slope }
{
    last_exponent(reduced) + (slope * reduced.top() as u64) as usize
}

// The fault of a class, with its exponent for the weight.
fn fault_at(class: Class, base: usize, fault: ClassFault) -> GvFault
    requires base { base < 2 ^ 31 }
    requires weight { IsWeightBelow fault }
    ensures value { IsAtWeight class base fault result }
{
    match fault {
        ClassFault::Wide(weight) => GvFault::Wide {
            class,
            exponent: exponent_of(weight, base),
        },
        ClassFault::Differ(d) => GvFault::Mismatch {
            class,
            exponent: exponent_of(d.weight, base),
            series: d.series,
            product: d.product,
        },
        ClassFault::Memory => GvFault::Memory,
    }
}

/// Reads the class number k, and puts in its integers. It gives the class's line of the table.
pub fn next_line(
    alloc: Global,
    reduced: &Graded<Whole>,
    slope: u64,
    classes: &[Class],
    k: usize,
    lines: &[Line],
    integers: &mut Integers,
) -> Result<Line, GvFault>
    ghost way: { Way }
    requires now { way ≡ way_at reduced.now slope classes.now k integers.old.integers }
    requires extractable { IsExtractable reduced.now }
    requires low { slope ≤ 10000 }
    requires within { k < length classes.now }
    requires way { IsReadTo reduced.now slope classes.now k integers.old lines.now }
    ensures way { IfOk result (λ line. IsReadTo reduced.now slope classes.now (k + 1) integers.new (lines.now ++ line ∷ [])) }
    ensures fault { IfErr result (IsGvFault reduced.now) }
{
    let class = &classes[k];
    let degree = degree_in(reduced, class);
    let base = base_of(slope, degree);
    let last = last_weight(reduced, slope);
    let end = last_exponent(reduced) + base + 1;
    let series = series_row(alloc, reduced, class, base, last + 1)?;
    match read_class(alloc, lines, class, degree, base, end, &series) {
        Ok(read) => {
            put_values(integers, class, base, &read.values)?;
            Ok(read.line)
        }
        Err(fault) => Err(fault_at(class.copy()?, base, fault)),
    }
}
